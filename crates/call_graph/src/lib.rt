//! Which nodes of a finite directed graph reach themselves, and which lie in one cycle.
//!
//! What a graph, a path and a cycle are stands in `specs/Graphs`, what is found in `specs/Components`, and what
//! the search keeps true in `specs/Search`.
#![tactic(auto)]

mod digraph;
mod finding;
mod found;
mod search;

pub use digraph::Graph;
pub use finding::find_cycles;
pub use found::Cycles;
