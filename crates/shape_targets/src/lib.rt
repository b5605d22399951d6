//! Parts of values, updates, and assignments with their targets, over the expressions that a `Walker` looks at.
//!
//! Targets stand inside targets: `aim` and what it calls are a cycle of their own. What the forms are is said by the definitions of
//! `shape_rules`.
#![tactic(auto)]

mod parts;
mod targets;

pub use parts::{part_found, update_found};
pub use targets::assign;
