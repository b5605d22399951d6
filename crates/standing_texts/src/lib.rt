//! Cores of accepted texts: nodes pass the tests of their kinds.
#![tactic(auto)]

mod laws;

pub use laws::{directions_pass, functions_pass, openings_pass, texts_read};
