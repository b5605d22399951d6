//! What bodies can enter, which functions and mappings reach themselves, and the failures of those that may not: functions without
//! a measure, and mappings through patterns.
//!
//! `specs/Callees` has what an expression or a pattern can enter, `specs/Cycles` what a body can, the graphs of it, and the failures.
#![tactic(auto)]

mod callees;
mod expressions;
mod failures;
mod graphs;

pub use expressions::Which;
pub use failures::note_cycles;
pub use graphs::{cycles_of, number_of};
