//! Clauses of functions and measures, and mappings, as the phase that finds shapes looks at them: their failures, and their cores.
//!
//! `specs/Clauses` has a clause and several that are tried in order, `specs/Functions` functions and measures (their code is
//! `shape_functions`), `specs/Mappings` the directions of mappings, and `specs/Laws` that no number stands twice in both of a mapping.
#![tactic(auto)]

mod clauses;
mod directions;
mod laws;
mod mappings;

pub use clauses::{Clause, Clauses, cast_made, read_clause};
pub use directions::nested;
pub use laws::directions_differ;
pub use mappings::read_mappings;
pub use shape_expressions::{elaborate, place_of};
