//! What is made of an expression: its shape, its core, and its failures.
//!
//! `elaborate` hands each form to the function of `shape_values`, `shape_statements` or `shape_targets` for it, and itself along, for the
//! expressions inside. What the forms are is said by the definitions of `shape_rules`.
#![tactic(auto)]

mod expressions;
mod typed;

pub use expressions::elaborate;
pub use shape_walks::place_of;
pub use typed::elaborate_typed;
