//! Functions and their measures, as the phase that finds shapes looks at them: their failures, and their cores.
//!
//! The definitions stand with those of clauses, in `crates/shape_clauses/specs` (`Clauses`, `Functions`).
#![tactic(auto)]

mod called;
mod functions;
mod places;

pub use called::read_called;
pub use places::around;
