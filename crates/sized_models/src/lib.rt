//! The instances of a model with what is constant at the nodes of their bodies, as `specs/Trees` of `sized_trees` has them.
#![tactic(auto)]

mod bodies;
mod models;
mod signatures;

pub use models::sized_core;
