//! What forms of expressions owe and make known, but for the walk over their parts.
//!
//! `specs/Names` has literals and names that are read, `specs/Sizes` `sizeof` and `constraint`, `specs/Truths` conditions, `specs/Ways` ways
//! into values, `specs/Meeting` where branches meet, `specs/Inside` what stands in types inside others, `specs/Spots` what is assigned to,
//! `specs/Scopes` the names in scope, `specs/Nodes` where a value comes to the type that is wanted.
#![tactic(auto)]

mod call_spots;
mod inside;
mod meeting;
mod names;
mod nodes;
mod pending;
mod scopes;
mod sizes;
mod spots;
mod truths;
mod ways;

pub use inside::is_type_below;
pub use meeting::{first_way, like_first, met_ways, thrown};
pub use names::{literal_indices, read_local, read_register, read_top_level, read_variable};
pub use nodes::{cast_ended, cast_given};
pub use pending::{Left, Wrote};
pub use scopes::{Scope, look_up};
pub use sizes::{constraint, size};
pub use spots::{Known, Spot, late_bound, owes_itself};
pub use truths::{and_right, claim_of, negated, or_right, truth_of};
pub use ways::{
    Ends, Reached, fields_of, if_never_value, into_field, into_item, into_slice, is_struct,
    owe_part, read_suffix, update_operands, with_width,
};
