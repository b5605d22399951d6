//! What patterns owe, and what they make known of the names that they bind.
//!
//! `specs/Patterns` has the walk over a pattern.
#![tactic(auto)]

mod arms;
mod heads;
mod looks;
mod matching;
mod parts;
mod several;
mod taking;
mod typed;

pub use arms::{arm_written, match_arm, match_one};
pub use looks::{naming_of, written_of};
pub use matching::Matching;
pub use parts::match_pattern;
