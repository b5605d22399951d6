//! The core of a whole model means what its text means: by induction on how many calls may be inside one another, and on how many mappings in
//! patterns.
//!
//! `specs/Callees` has both sides of a model, `specs/Models` what has to be known of its definitions (`ModelIs`), `specs/Depths`,
//! `specs/Events` and `specs/Runs` the theorem.
#![tactic(auto)]

mod laws;

pub use laws::{calls_are_alike, models_mean_text, runs_are_alike};
