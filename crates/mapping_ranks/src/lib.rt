//! That directions of mappings have ranks by the mappings that they convert by in patterns.
#![tactic(auto)]

mod laws;

pub use laws::graphs_have_ranks;
