//! The types that the definitions of a model define, read in text order: what each name stands for, and the
//! table of structs, unions and enums.
//!
//! What each definition defines, and its failures, stand in `specs/Defined`.
#![tactic(auto)]

mod defined;
pub mod laws;
mod members;
mod parameters;

pub use defined::{Defined, define_all};
pub use members::read_members;
pub use parameters::{kinds_of, names_of, note_parameters, table_parameters, variables_of};
