//! Parts of values and their walks: laws alone, each function's contract is one, and it does nothing.
#![tactic(auto)]

mod laws;

pub use laws::{parts_are_fine, updates_are_fine, withs_are_fine};
