//! The meaning of a model with constant sizes: the reading of its core in which a node is stuck where a value has another size than its case.
//!
//! `specs/Fits` has the values of a size, `specs/Noting` the numbers that a value gives, `specs/Present` the case that is present,
//! `specs/Sized` the reading.
#![tactic(auto)]

mod laws;

pub use laws::{present_cases_are_found, present_leads_are_found, sized_models_are_alike};
