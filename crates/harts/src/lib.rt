//! The harts of a run: its start and its events, for whatever takes a hart's steps.
//!
//! [`start`], [`run`] and [`run_order`] are the folds of `model_state` over a [`Stepper`](model_state::Stepper)'s meaning,
//! for every list of hart numbers and every order that is repeated. What is proved of these folds alone stands in `specs/laws`.
#![tactic(auto)]

mod laws;
mod running;
mod starting;

pub use laws::{invariants_hold, joined_schedules, registers_hold};
pub use running::{Ending, run, run_order};
pub use starting::start;
