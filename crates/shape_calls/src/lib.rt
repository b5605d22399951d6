//! What finding the shape of an expression needs besides its parts: a form of one shape where another is wanted, what a call gives and
//! which member of an overload is taken, ways into values, and names.
//!
//! `specs/Made`, `specs/Picked`, `specs/Ways` and `specs/Structs` have what the code holds of what the definitions of `shape_rules` find;
//! `specs/Apart` has failures that are noted apart.
#![tactic(auto)]

mod callees;
mod choosing;
mod made;
mod setters;
mod targets;
mod values;

pub use callees::{
    call_found, call_solved, caller_of, does_convert, doing_callee, doing_kind, has_never, is_unit,
    known_behind, last_param, member_candidate, operator_text, param_shapes, parameters_of,
    prefix_text,
};
pub use choosing::{
    Arguments, Choice, Picked, choose, member_found, pick, pick_member, pick_operator, pick_prefix,
    reader_of,
};
pub use made::{
    Made, cast, given_on, leaf, mismatched, missing, note_apart, over, refused, settled, unknown,
};
pub use setters::{Callees, callees_of, one_of};
pub use targets::{
    Aim, FoundField, Inside, aimed, aimed_nowhere, field_in, field_named, into_field, into_item,
    into_slice, is_open, name_aimed, note_base, register_aimed, shape_inside, small_place,
    suffix_at,
};
pub use values::{
    Named, constant_found, field_count, global_found, is_truth, list_found, list_want, local_kind,
    logical_kind, name_found, named_place, tuple_wants, unit_found, variables_of_type,
    vector_found, vector_want,
};
