//! Laws of ways into values: each function's contract is one, and it does nothing.
#![tactic(auto)]

mod laws;

pub use laws::{fields_are_there, items_are_there, slices_are_there};
