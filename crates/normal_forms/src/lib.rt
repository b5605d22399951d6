//! The normal form of a type's text, or the first failure of that text.
//!
//! When a text is refused stands in `specs/Refusals`, the integer or the truth that it is in `specs/laws/Amounts`.
#![tactic(auto)]

pub mod laws;
mod whole;

pub use whole::normal;
