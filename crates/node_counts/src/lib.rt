//! Laws of the notes of nodes: the functions' contracts are the laws, and they do nothing.
//!
//! `specs/Counts` says which notes are counted, `specs/Told` when notes are told apart.
#![tactic(auto)]

mod laws;

pub use laws::{nodes_are_counted, notes_are_apart, numbers_are_given_once};
