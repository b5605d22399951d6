//! Definitions that are written in parts, gathered: the clauses of a scattered union, function or mapping
//! come to stand, in text order, at the definition that opens it.
//!
//! Which opening a part belongs to stands in `specs/Openings`, the gathered text in `specs/Gathered`, and why
//! a text can't be gathered in `specs/Refused`.
#![tactic(auto)]

mod checking;
mod error;
mod gathering;
mod joining;
mod laws;
mod openings;
mod standing;

pub use error::ScatterError;
pub use gathering::gather;
pub use laws::gathered_texts_are_whole;
