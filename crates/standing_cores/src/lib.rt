//! Where casts and guards stand in the cores that are found of expressions.
#![tactic(auto)]

mod laws;

pub use laws::{found_cores_stand, standing_is};
