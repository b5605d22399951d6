//! Top-level lets and initial values of registers: the core of each does what it does in the text.
//!
//! `specs/Plain` and `specs/Names` say that they call nothing of the model, `specs/Worlds` in which worlds they are worked out,
//! `specs/Openings` what each of them does.
#![tactic(auto)]

mod laws;

pub use laws::{opening_worlds_are_described, openings_are_alike, plain_expressions_call_nothing};
