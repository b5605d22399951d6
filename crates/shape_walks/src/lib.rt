//! Walks over parts of a form, each with what those before it have left open, and what finishes a form over a list of expressions: a
//! call, an operator, a group. None of this looks at an expression inside another.
//!
//! `specs/Trees` has the parts of a tree as the definitions of `shape_rules` see them, `specs/Walks` walks over parts, `specs/Heads`
//! forms over a list of expressions, and `specs/Calls` directions of mappings and operators on truths.
#![tactic(auto)]

mod calls;
mod heads;
mod places;
mod walks;

pub use calls::{finish_infix, mapping_taken, turn, value_place};
pub use heads::{Head, count_of, known_shapes};
pub use places::{last_place, place_of, suffix_place, target_place_of};
pub use shape_patterns::look;
pub use walks::{Plan, Walk, take_noted};
