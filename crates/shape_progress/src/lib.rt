//! Nothing is stuck by a wrong shape, or by a name without a value.
//!
//! `specs/Checks` is a reading of the core that looks at each condition on sizes and numbers, and stops the run where one fails. The
//! laws of this crate say that it is the meaning of the core but for these stops, and that what stands by the rules of shapes of
//! `specs/PatternRules` and `specs/Rules` is never stuck in it.
#![tactic(auto)]

mod laws;

pub use laws::{cores_go_on, patterns_go_on, stuck_at_conditions};
