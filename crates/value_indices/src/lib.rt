//! The indices of values, the walk over a definition that notes what is owed of them, and how a type is opened.
//!
//! `specs/Steps` has the walk over a definition, and what it notes; `specs/Walking` what a walk has written down so far; `specs/Force` how
//! the code keeps what is in force; `specs/Opening` what is known of a value of a type.
#![tactic(auto)]

mod conditions;
mod copies;
mod force;
mod forms;
mod indices;
mod notes;
mod opening;
mod readings;
mod walking;

pub use conditions::{conditions_of, conjunction};
pub use copies::{copy_each, copy_fact, copy_facts, copy_indices, copy_reading, copy_readings};
pub use indices::{Indices, Naming, Reading};
pub use notes::{Fact, Made, Step};
pub use opening::{
    any_integer, any_truth, at_most, between, bits_of, bound_above, bound_below, equal, fresh_for,
    fresh_integer, index_or_fresh, integer_between, integer_of, largest_num, least_num,
    number_or_fresh, read_each_or_fresh, read_or_fresh, truth_or_fresh, vector_of, zero_num,
};
pub use readings::{open_reading, opened, opened_for, opened_type};
pub use sail_core::Function;
pub use walking::Walking;
