//! The phase that finds shapes, over whole models: the failures of their definitions, and the core of a model without any.
//!
//! `specs/Failures` has all failures of a text, `specs/Resolved` its core, and `specs/Tabled` what both are of a text that has tables.
#![tactic(auto)]

mod lets;
mod openings;
mod resolving;
mod state;
mod top;

pub use resolving::resolve;
