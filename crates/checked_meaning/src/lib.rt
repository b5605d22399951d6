//! The checked meaning of the core: the second reading of its text, in which each value carries the type at which it was made.
//!
//! The reading stands in `specs/Checked`. What is asked at a node is a parameter of it, so that it can be tied to what a walk over the
//! model notes there.
#![tactic(auto)]

mod laws;

pub use laws::{models_are_alike, nodes_are_alike};
