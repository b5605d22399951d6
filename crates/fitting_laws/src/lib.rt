//! Laws of what has to be true for a value to be of a type.
#![tactic(auto)]

mod laws;

pub use laws::fitting_suffices;
