//! The failures in the bodies, values and types of definitions: of each name, type and loop in them.
//!
//! `specs/Bodies` has the failures of each definition, `specs/Voids` those of registers whose structs have ranges that are empty.
#![tactic(auto)]

mod bodies;
mod clauses;
mod voids;

pub use bodies::{Given, note_bodies};
