//! What functions, their measures and mappings owe and make known.
//!
//! `specs/Functions` has the walk over each: its type variables and its constraint, then its clauses, one after the other.
#![tactic(auto)]

mod bare;
mod clauses;
mod functions;
mod mappings;

pub use bare::{bare_arm, unwritten};
pub use clauses::{Common, lesser, walk_written};
pub use expression_notes::{
    Matching, Scope, arm_written, is_nested, match_one, naming_of, natural_aim, walk_expression,
    written_aim,
};
pub use functions::{
    constrain, inside, make_last, own_indices, reading_of, walk_function, walk_measure,
};
pub use mappings::walk_mapping;
