//! What expressions owe and make known.
//!
//! One cycle of functions walks over expressions, statements and targets, a function for each form. What a form wants of its parts, and what
//! it makes of what these gave, stands in `expression_steps`, and so do the definitions: its `specs/Parts` has what is known of a part of an
//! expression, `specs/Calls` calls, `specs/Values` values that are made of parts and parts of values, `specs/Targets` assignments,
//! `specs/Statements` blocks, branches and loops, `specs/Expressions` one case for each kind of node, `specs/Coded` what the code holds on
//! its way. Here `specs/Claims` has a statement of a block by itself, and `specs/Chains` what a chain of assignments gives from the right.
#![tactic(auto)]

mod branches;
mod expressions;
mod loops;
mod made;
mod parts;
mod reading;
mod statements;
mod targets;
mod truths;
mod values;

pub use expression_forms::{Scope, cast_given};
pub use expression_steps::{
    Matching, arm_written, is_nested, match_arm, match_one, naming_of, natural_aim, written_aim,
};
pub use expressions::walk_expression;
