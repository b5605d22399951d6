//! The core: the resolved trees of a model, and what they mean.
//!
//! What a part of a run comes to stands in `specs/Run`, what a node and a pattern mean in `specs/Meaning` and `specs/Patterns`, and
//! what a model's calls, its start and its events come to in `specs/Program` and `specs/Start`.
#![tactic(auto)]

mod fragments;
mod laws;
mod model;
mod nodes;
mod patterns;
mod targets;
mod tree;
mod written;

pub use fragments::{Fragment, core_in, model_in};
pub use laws::{
    blocks_are_nests, models_keep, nodes_are_steady, numbers_dont_matter, orders_of_evaluation,
};
pub use model::{CoreModel, Direction, Function, Opening, OpeningKind, RegisterText};
pub use patterns::{Arm, Form, Head, Literal, Pattern, Step};
pub use targets::{Caller, Suffix, Target, TargetKind, Way};
pub use tree::{Callee, Core, Counting, Giver, Kind, Statement};
pub use written::{Role, Written, WrittenNumber};
