//! Targets of assignments and their walks: laws alone, each function's contract is one, and it does nothing.
#![tactic(auto)]

mod laws;

pub use laws::assignments_are_fine;
