//! Nested patterns away: each arm becomes a list of steps.
#![tactic(auto)]

mod arms;
mod laws;
mod model;
mod nodes;

pub use laws::{meaning_is_kept, runs_are_kept, sizes_are_kept};
pub use model::rewrite;
