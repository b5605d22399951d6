//! What the phase that finds shapes says: the failures that it can refuse a model for, what it finds of each form, and what its walks hold
//! of where a form stands.
//!
//! `specs/Findings` has failures and what is found of a form, `specs/Written` written types, `specs/Scopes` what can be named,
//! `specs/Calls` callees and which member of an overload is taken, `specs/Patterns`, `specs/Targets`, `specs/Values`, `specs/Statements`
//! and `specs/Expressions` one case for each form, `specs/Sides` the sides of mappings, `specs/Around` what the code holds of all that, and
//! `specs/Sentences` what follows of sides and of names that a pattern binds.
#![tactic(auto)]

mod around;
mod callees;
mod error;
mod first;
pub mod laws;
mod locals;
mod meanings;

pub use around::Around;
pub use callees::{Candidate, Doing, Mapping, Meant};
pub use error::{Mismatch, ShapeError};
pub use first::First;
pub use locals::{Local, Locals};
pub use meanings::Meanings;
pub use sail_core::{Callee, Literal};
