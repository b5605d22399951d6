//! The parsers of types and patterns: each function reads one row of the grammar.
#![tactic(auto)]

mod patterns;
mod types;

pub use patterns::{pattern, pattern_list};
pub use types::typ;
