//! What forms of expressions want of their parts, and what they make of what these gave.
//!
//! Nothing here walks over parts: `expression_notes` does, and asks here before and behind each. `specs/Parts` has what is known of a part
//! of an expression, `specs/Calls` calls, `specs/Values` values that are made of parts and parts of values, `specs/Filling` holes in their
//! types that new parts fill, `specs/Targets` assignments, `specs/Statements` blocks, branches and loops, `specs/Expressions` one case for
//! each kind of node, `specs/Making` kinds whose parts are walked from left to right, `specs/Coded` what the code holds on its way.
#![tactic(auto)]

mod aims;
mod binding;
mod calls;
mod claims;
mod consing;
mod counting;
mod ends;
mod filling;
mod found;
mod joining;
mod knowing;
mod late;
mod leaves;
mod leaving;
mod making;
mod reached;
mod slices;
mod structs;
mod ways;

pub use aims::{argument_aims, is_hole, natural_aim, repeated, wanted_item, written_aim};
pub use binding::{Binding, begin_binding, binding_of, end_binding};
pub use claims::claim_behind;
pub use counting::{Bounds, begin_turn, bounds_of};
pub use ends::{
    catch_at, end_node, filled_here, first_item, no_spot, no_way, owe_item, row_of, wrong_state,
};
pub use filling::{put_aim, put_ended, with_ended};
pub use found::{call_found, part_found, spot_name, spot_register, tuple_found};
pub use joining::{joined, under_or_not};
pub use knowing::{goes_inward, is_made, is_nested, makes_value, never_ends, place_of};
pub use late::{Ahead, Late, has_no_way, late_count, late_found, read_ahead};
pub use making::{made_aims, made_count, made_end};
pub use pattern_notes::{Matching, arm_written, match_arm, match_one, naming_of};
pub use reached::{indexes_of, left_after, reach, value_of, way_reached};
pub use slices::{behind, first_parts, left_at};
pub use structs::{no_struct, with_aims};
pub use ways::{
    Way, either_ways, end_way, if_end, is_free, match_ways, met_value, open_way, try_ways, unit_of,
};
