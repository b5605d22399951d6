//! The parser of the definitions of a model.
#![tactic(auto)]

mod clauses;
mod definition;
mod functions;
mod leaves;

pub use definition::definitions;
