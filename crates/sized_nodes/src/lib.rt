//! What models with constant sizes are made of: the instances of functions, and what is constant at the nodes of their bodies.
//!
//! The nodes are those of the core, by their numbers: of each that makes a value its cases, of each that calls where the call leads. `specs/Asked` has
//! which variables' numbers these ask for.
#![tactic(auto)]

mod trees;

pub use trees::{Case, Instance, Lead, NodeSizes, Signature, SizedCore, SizedInstance, Told};
