//! Laws of patterns: what the walk over a pattern knows beside the pattern's run.
//!
//! When a walk stands beside a piece of a run stands in `specs/Beside`, what a value of some indices is in `specs/Typing`, and where a pattern stands
//! in `specs/Standing`.
#![tactic(auto)]

mod laws;

pub use laws::{arms_are_sound, lets_are_sound, patterns_are_sound};
