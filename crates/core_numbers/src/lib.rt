//! The numbers of a definition's nodes: each node's own, then those in its kind, then those of its parts, in order.
//!
//! `specs/Numbers` says which number each node, suffix, target and call gets, and `specs/Laws` that no number stands twice; `number_nodes`
//! gives them.
#![tactic(auto)]

mod counting;
mod laws;
mod targets;
mod trees;

pub use counting::take_number;
pub use laws::numbers_differ;
pub use trees::number_nodes;
