//! Laws of texts: a text that is parsed is as laws of accepted texts take it, and nothing of an accepted one is stuck by a wrong shape.
#![tactic(auto)]

mod parsed_laws;
mod progress_laws;

pub use parsed_laws::{parsed_texts_are_written, parsed_texts_mean_text};
pub use progress_laws::{accepted_texts_go_on, accepted_texts_stand, numbers_shape_nothing};
