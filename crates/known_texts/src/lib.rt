//! Laws of texts: what their core means where the tables know them, and that the tables know each text that they accept.
#![tactic(auto)]

mod accepted_laws;
mod known_laws;
mod meaning_laws;

pub use accepted_laws::{
    callables_are_apart, entry_points_are_named, entry_points_are_typed, names_stand_once,
    nothing_fails, registers_are_typed, types_are_closed, vals_give_signatures,
};
pub use known_laws::{
    accepted_texts_mean_text, definitions_are_known, definitions_are_signed, names_are_known,
    openings_are_known, signatures_are_whole, unions_are_known,
};
pub use meaning_laws::{
    names_stand, nothing_is_opened, overloads_do_not_clash, texts_mean_text, values_stand,
    whole_texts_mean_text,
};
