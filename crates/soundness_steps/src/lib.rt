//! A walk over a definition beside a run of it: what holds of the run's end where all that the walk notes is met.
//!
//! When a note is met stands in `specs/Covers`, what holds of each moment in `specs/States`, of a piece beside its walk in `specs/Steps`, and of
//! the value of an expression in `specs/Values`. Each step of a walk has a lemma in `proofs/Steps`.
#![tactic(auto)]

mod laws;

pub use laws::{nodes_make_values, nodes_note_numbers};
