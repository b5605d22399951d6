//! Tests that the sizes in types and values are told or constant for certain, as `told_sizes` defines them.
#![tactic(auto)]

mod passing;
mod readings;
mod settling;
mod telling;
mod values;

pub use readings::{of_tells, reading_settles, reading_tells};
pub use values::{reading_passes, value_passes};
