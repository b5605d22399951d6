//! The obligations of a model: what has to be true for no run of it to get stuck.
//!
//! `specs/Models` has the walk over a model's definitions, `specs/Obligations` what is made of its notes.
#![tactic(auto)]

mod defined;
mod goals;
mod models;
mod naming;
mod openings;
mod order;
mod top_levels;

pub use function_notes::{
    Common, bare_arm, constrain, inside, lesser, make_last, naming_of, natural_aim, own_indices,
    reading_of, unwritten, walk_written,
};
pub use models::{notes, obligations};
pub use naming::names_of;
pub use openings::walk_opening;
pub use top_levels::{TopLevels, around_model, around_opening, top_levels as top_level_names};
