//! Laws of `sizeof` and `constraint`, beside their walks.
#![tactic(auto)]

mod laws;

pub use laws::{constraints_are_fine, sizes_are_fine};
