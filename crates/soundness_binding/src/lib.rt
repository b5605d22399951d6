//! Names that are bound in expressions: `let`, `var` and blocks end well beside their walks.
//!
//! What is taken of the model stands in `specs/Scenes`, the laws in `specs/Laws`.
#![tactic(auto)]

mod laws;

pub use laws::{blocks_are_fine, lets_are_fine, patterns_match, vars_are_fine};
