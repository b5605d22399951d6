//! Laws of what a call of a function owes.
#![tactic(auto)]

mod laws;

pub use laws::calls_fit;
