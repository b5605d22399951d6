//! What it is for the core that is found of a text to stand by the rules of shapes.
//!
//! `specs/Inside` says of a world around an expression that what the tables let the expression name is there, and that what it calls
//! keeps shapes. `specs/Stands` says of what is found of each tree of expressions that its core has its shape in each such world. The
//! laws of this crate say that a node stands over parts that stand, whatever their depths.
#![tactic(auto)]

mod laws;

pub use laws::nodes_stand;
