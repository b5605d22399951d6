//! Expressions over parts that end in a value: calls, operators, groups, struct literals, what leaves a function, and written types.
//!
//! The functions of the walk over expressions are flat: each is given a `Walker`, by which it looks at the expressions inside the one that
//! is walked over. `walks` has single parts and lists of them. What the forms are is said by the definitions of `shape_rules`.
#![tactic(auto)]

mod calls;
mod leaving;
mod structs;
mod walkers;
mod walks;

pub use calls::call_named;
pub use leaving::{assert, finish_typed, leave, typed};
pub use structs::{struct_found, with_found};
pub use walkers::Walker;
pub use walks::{infix, listed, push_all, push_branch, push_cast, push_part};
