//! What is wanted of the arguments of a call, what a callee's variables stand for, and what the arguments owe.
//!
//! `specs/Aims` has how a wanted type goes into an expression, `specs/Callees` what a callee's variables stand for, `specs/Holes` which types
//! have holes inside, `specs/Placing` what arguments owe.
#![tactic(auto)]

mod aims;
mod arguments;
mod below;
mod callees;
mod closed;
mod counts;
mod holes;
mod places;
mod through;
mod typed;

pub use aims::Aim;
pub use arguments::call_conditions;
pub use callees::{
    argument_aim, indices_from, numbers_from, part_aim, payload_types, type_parameters, types_or,
    was_due,
};
pub use closed::{is_closed, is_numberless};
pub use counts::least_of_three;
pub use holes::{has_hole, types_without_holes, value_has_hole, without_holes};
pub use places::number_variable;
pub use through::{Seen, item_type, part_types, see, type_arguments, under};
pub use typed::types_from;
pub use wide_types::{is_below, is_con_below, parameters_of, widened};
