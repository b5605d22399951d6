//! Bodies of a model's clauses, how casts and guards stand in them, and what their nodes pass.
#![tactic(auto)]

mod laws;

pub use laws::{found_pass, found_read, models_stand};
