//! The forms of expressions, each beside its run: it ends well where its parts do.
//!
//! What is known around an expression stands in `specs/Worlds`, what is asked of its parts in `specs/Forms`, where casts and guards stand in a
//! core in `specs/Standing`.
#![tactic(auto)]

mod laws;

pub use laws::{calls_are_fine, casts_are_fine, leaves_are_fine, leaving_is_fine};
