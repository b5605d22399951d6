//! That lowered code keeps the rules of a valid module: its instructions have their types, and it goes to labels that are set further on, or directly
//! before a tick, alone.
//!
//! What the types of a node have to be stands in `specs/Typing`: it is decided of each node of a model, from the cases that are said of it.
#![tactic(auto)]

pub mod laws;

pub use laws::{codes_are_right, functions_are_right, nodes_are_right};
