//! A law of what is found of patterns: its function's contract is the law, and it does nothing.
#![tactic(auto)]

mod laws;

pub use laws::found_patterns_stand;
