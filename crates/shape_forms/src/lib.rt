//! What finishes a form of an expression that isn't over a list alone, once its parts are found, and what is wanted of the next part:
//! none of this looks at an expression inside another.
//!
//! `specs/Openness` has shapes that a later value could fill, `specs/Over` forms of one shape, `specs/Structs` struct literals,
//! `specs/Aims` targets, and `specs/Steps` cases and what statements leave in scope.
#![tactic(auto)]

mod asking;
mod binding;
mod openness;
mod over;
mod parts;
mod structs;
mod targets;

pub use asking::{copy_text, size, truth};
pub use binding::{
    counting, enter_counter, enter_pattern, enter_variable, note_answer, note_hole, note_typ,
    written_if, written_shape,
};
pub use over::settle_over;
pub use parts::{finish_update, led, led_index, push_step};
pub use structs::{
    StructPlan, WithFields, WithPlan, finish_struct, finish_with, plan_struct, plan_with,
};
pub use targets::{
    aim_callee, aim_member, note_inner, part_aimed, read_member, read_one, tuple_aimed,
};
