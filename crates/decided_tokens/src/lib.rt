//! That each list of tokens is a model or is refused.
#![tactic(auto)]

mod laws;

pub use laws::tokens_are_decided;
