//! Models with constant sizes: the instances of a model, and what is constant at the nodes of their bodies.
//!
//! `specs/Within` has the sizes that are constants within their limits, `specs/Combinations` the combinations that tell the cases of a node
//! apart, `specs/Cases` a node's cases and where a call leads, `specs/Bodies` a body, node by node, `specs/Trees` the model.
#![tactic(auto)]

mod cases;
mod combinations;
mod laws;
mod leads;
mod within;

pub use cases::{case_under, cases_under};
pub use combinations::{Choice, choices_at, combinations_at, is_given, picked_by};
pub use laws::{calls_lead_to_instances, nodes_ask_alike};
pub use leads::{FunctionCall, lead_under, leads_under};
