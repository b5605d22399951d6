//! The state of a run: the registers of each hart, its reservation and whether it rests, the memory and the
//! console; the builtins that read or write it; and the trait of whatever takes a hart's steps.
//!
//! A [`State`] is to a contract the record `RunState` of `specs/RunState`. What each builtin does stands in
//! `specs/StateRows`, the start and the run of any [`Stepper`] as folds in `specs/Folds`.
#![tactic(auto)]

mod cause;
mod laws;
mod letting;
mod state;
mod stepper;

pub use cause::{Cause, Ended, RowError};
pub use laws::{reads_hold, reservations_hold, results_end};
pub use state::{Hart, Register, Registers, Reservation, Start, State, report};
pub use stepper::Stepper;
