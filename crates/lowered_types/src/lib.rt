//! The table of a module's types: a number for each type with constant sizes, and the type of values for each number.
//!
//! Which number a type has, and what a table is that stands for types, is in `specs/Table`, the laws in `specs/Laws`.
#![tactic(auto)]

mod laws;

pub use laws::{parts_known, types_have};
