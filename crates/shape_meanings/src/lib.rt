//! The core that is found of a text means what the text means, and its values have the shapes that are found.
//!
//! `specs/Sound` says it of expressions: `ElaborationIsSound`, over `Describes` of `specs/Worlds`, which says that names mean the
//! same on both sides, and `Keeps` of `specs/Keeping`, which says what a run keeps; `specs/Matching` says it of patterns. What is
//! proved of them are the laws of this crate: of each form, over whatever its parts are, and of all expressions.
#![tactic(auto)]

mod laws;

pub use laws::{
    assignments_are_right, blocks_are_right, calls_are_right, choices_are_the_same,
    expressions_are_right, parts_are_right, patterns_are_right, simple_forms_are_right,
    steps_are_right, tests_are_right, values_have_shapes,
};
