//! What is owed beside a run suffices: that values fit types, and what a call owes of its arguments.
#![tactic(auto)]

mod laws;

pub use laws::{calls_fit, fits_suffice};
