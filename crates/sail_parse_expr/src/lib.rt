//! The parser of expressions: each function reads one row of the grammar.
#![tactic(auto)]

mod assignments;
mod expressions;
mod leaves;
mod operators;
mod targets;

pub use expressions::exp;
