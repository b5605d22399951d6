//! What calls owe and make known, on arguments that have been walked.
//!
//! `specs/Ends` has the ends of values, `specs/Noted` what is noted at a node that makes one, `specs/Taken` what builtins take,
//! `specs/Rows` calls of builtins, `specs/Calls` calls. What the arguments owe is in `call_arguments`, whose calls stand here too.
#![tactic(auto)]

mod calls;
mod ends;
mod made;
mod noted;
mod numbers;
mod rows;
mod taken;

pub use call_arguments::{
    Aim, Seen, argument_aim, call_conditions, is_closed, is_numberless, item_type, part_aim,
    part_types, payload_types, see, type_arguments, under, was_due,
};
pub use calls::{called, callee_types};
pub use ends::{
    any_never, fits_unless, integer_number, is_never, note_type, note_value, opened_at, owe_unless,
    owe_value, settled, wrong_value,
};
pub use made::{made_named, part_owed};
pub use noted::{
    made_by_type, made_by_value, made_opened, names_given, node_ended, node_given, note_numbers,
    note_numbers_by,
};
pub use numbers::Numbers;
pub use rows::row_call;
