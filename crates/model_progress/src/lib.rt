//! In a model whose definitions have shapes, nothing is stuck by a wrong shape, or by a name without a value.
//!
//! `specs/Checked` is the checked reading of a whole model: its bodies, measures, directions of mappings and openings look at each condition on
//! sizes and numbers, and stop the run where one fails. The laws of this crate say that it is what the model means but for these stops, and
//! that where the definitions have shapes by the rules (`specs/Shaped`) no opening and no event of a hart is stuck in it.
#![tactic(auto)]

mod laws;

pub use laws::{events_go_on, models_are_meant, openings_go_on, runs_come};
