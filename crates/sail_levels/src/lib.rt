//! How deep the tokens of a model stand in open brackets, operators and words.
#![tactic(auto)]

mod levels;

pub use levels::{OPERATORS, deep};
