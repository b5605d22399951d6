//! What is read of a model for its instances: the notes of the walks over its definitions, with the types of parameters and the sizes in
//! types that are written in bodies.
//!
//! `specs/Written` has the sizes in a written type, `specs/Regions` where its parts stand, `specs/Behind` those in a body, each behind
//! the node at which it is read, `specs/Bodies` what is read of each definition; `specs/Reading` how the code writes its steps.
#![tactic(auto)]

mod behind;
mod clauses;
mod functions;
mod mappings;
mod models;
mod parameters;
mod regions;
mod steps;
mod written;

pub use constraint_gen::{own_indices, reading_of};
pub use models::{ModelBodies, bodies};
pub use written::size_places;
