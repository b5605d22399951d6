//! Widened types, and the type where ways meet of which no type is wanted.
//!
//! `specs/Widening` has both, and what every other way owes.
#![tactic(auto)]

mod agreement;
mod below;
mod kept;
mod shaped;
mod spelled;
mod wide;
mod widest;

pub use agreement::{agrees_within, value_of_type};
pub use below::{is_below, is_con_below};
pub use kept::{filled, met};
pub use spelled::spell_value;
pub use wide::{wide_typ, widened, widened_type};
pub use widest::{fresh_indices, parameters_of, push_fresh_index, widest_of};
