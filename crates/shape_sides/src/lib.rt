//! A side of a mapping's clause as an expression: its shape, its core, and its failures.
//!
//! Each function of the walk is given a `Walker`, by which it looks at the sides inside the one that is walked over, and finishes by a
//! function of `shape_walks` or `shape_forms`, whose definitions stay closed here. `specs/Trees` has the parts of a side as the definitions
//! of `shape_rules` see them, `specs/Walkers` what is known of the function that a `Walker` holds.
#![tactic(auto)]

mod calls;
mod sides;
mod walkers;

pub use sides::{elaborate_side, place_of_side};
