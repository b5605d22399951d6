//! Mappings away: each direction becomes a function that gives an option, and calls and patterns ask it.
#![tactic(auto)]

mod laws;
mod model;
mod nodes;
mod patterns;
mod targets;

pub use laws::{meaning_is_kept, runs_are_kept, sizes_are_kept};
pub use model::rewrite;
