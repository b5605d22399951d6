//! The failures of names, types, fields and loops in expressions, and in clauses of functions and of mappings.
//!
//! Which they are stands in `specs/Uses` and `specs/Clauses` of `sail_names`, over whose functions on names and patterns these walk;
//! `specs/parts` serves private functions.
#![tactic(auto)]

mod clauses;
mod expressions;

pub use clauses::{push_function_clause, push_mapping_clause};
pub use expressions::push_expression;
