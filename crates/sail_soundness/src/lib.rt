//! All expressions of a core, each beside its run: they end well, where each kind of node does.
#![tactic(auto)]

mod laws;

pub use laws::{cores_fit, expressions_follow};
