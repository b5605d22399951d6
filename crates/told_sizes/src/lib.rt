//! Sizes that are told: that are constants for certain, that are said where a type is opened, or that a value tells by itself; and sizes that name no
//! variables but some.
//!
//! `specs/Exact` and `specs/Passing` have the first, `specs/Among` the second.
#![tactic(auto)]

mod among;
mod applied;
mod arguments;
mod numbers;
mod small;

pub use among::{index_among, reading_among, typ_among, value_among};
pub use applied::{Applied, applied_at, was_seen, with_first};
pub use arguments::{are_exact, are_said, are_told};
pub use numbers::{exact_constants, is_exact, is_exact_index, is_said, is_told, open_constants};
pub use small::{both, is_one_of};
