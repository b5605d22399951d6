//! The parser of the tokens of all files as one model.
#![tactic(auto)]

mod model;

pub use model::parse_model;
