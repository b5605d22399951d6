//! The widths of what stands in a concatenation, and those that one side of a mapping's clause gives to the names of the other; and which
//! side of a mapping is matched.
//!
//! What is found of each form stands in `shape_rules`' `specs/Patterns`, and what a side gives in its `specs/Sides`. `specs/Known` says
//! what the widths and sides of this code are there.
#![tactic(auto)]

mod giving;
mod literals;
mod mappings;
mod widths;

pub use giving::gives;
pub use literals::{core_literal, literal_shape};
pub use mappings::{
    Matched, backwards_of, direction_at, forwards_of, given_at, note_side, overlap_at, which_side,
};
pub use widths::{Given, cut, width_of};
pub use written_types::{note_written, shape_in, written};
