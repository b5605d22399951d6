//! Which variables of functions are size variables, which variables that a body opens are split, and the combinations of their numbers that
//! count at a place.
//!
//! `specs/Bodies` has what is read of a definition, `specs/Sizing` the size variables, `specs/Splits` the split ones and the combinations, which
//! `split_combinations` finds; `specs/Reading` says the same of the steps of a walk as of its notes.
#![tactic(auto)]

mod alone;
mod bodies;
mod conditions;
mod domains;
mod force;
mod given;
mod names;
mod opened;
mod sizing;
mod telling;

pub use alone::sizes_given;
pub use bodies::BodySteps;
pub use conditions::conditions_of;
pub use domains::domain;
pub use force::follow;
pub use given::{flags_of, given_indices, is_open_value, value_names};
pub use opened::{MadeValue, made_value, named_in, step_value};
pub use sizing::sizing_of;
pub use telling::follow_telling;
