//! Values that are made of parts, and calls, each beside its run: it ends well where its parts do.
//!
//! What is taken of the table of types stands in `specs/Named`.
#![tactic(auto)]

mod laws;

pub use laws::{
    builtins_are_fine, constructors_are_fine, functions_are_fine, lists_are_fine,
    mappings_are_fine, structs_are_fine, tuples_are_fine,
};
