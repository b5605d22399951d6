//! Types that are written in a text: what they stand for, the sizes in them, and type variables that get no number.
//!
//! What all of that is stands in the specs of `shape_rules`, in `specs/Written`.
#![tactic(auto)]

mod bound;
mod faults;
mod numbers;
mod reading;
mod sizes;
mod told;

pub use faults::note_written;
pub use numbers::{numbers_in, written};
pub use reading::{constraint_in, number_in, shape_in, typ_in};
pub use told::tells_number;
