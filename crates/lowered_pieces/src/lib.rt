//! The flat code of a model's forms, as a definition over the sizes of an instance, and the coding of a function, to which code is put.
//!
//! `specs/Forms` has pieces, `specs/Arms`, `Paths`, `Gathered` and `Writes` those of single forms, `specs/Lowering` the piece of each node,
//! `specs/Functions` the code of functions, and `specs/Emitted` what a function does that puts code.
#![tactic(auto)]

mod coding;

pub use coding::Coding;
