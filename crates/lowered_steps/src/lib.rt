//! The code of what isn't a tree: values that come to their places by cases, notes, arms' looks, and what is done with a value.
//!
//! Each function that puts code says in its contract which part of the definition it puts (`lowered_pieces`). `specs/Setting`, `specs/Stands`,
//! `specs/Tails`, `specs/Makers` and `specs/Hands` read what the code holds as the definition has it.
#![tactic(auto)]

mod cells;
mod chains;
mod hands;
mod heads;
mod literals;
mod making;
mod moves;
mod notes;
mod parts;
mod setting;
mod stands;
mod stores;
mod tails;
mod words;

pub use cells::{Cell, Holder, cell_of, count_all};
pub use chains::{begin_arm, begin_arms, end_arm, end_arms};
pub use hands::{Ends, Hand, Held, Matched, put_looks, put_thrown};
pub use literals::copy_literal;
pub use making::{Making, Order, list_sources, place_each, placed, put_made, turned};
pub use moves::put_retype;
pub use notes::{list_given, list_notes, put_notes};
pub use parts::{
    component_type, field_types, is_dead, is_never, item_type, payload_type, way_type,
};
pub use setting::{Mapped, Reads, Setting, as_number, find, further};
pub use stands::{Levels, Named, Scope, Stand, count_names, depth_here, depth_of, place_in};
pub use stores::count_indexes;
pub use tails::{Tail, put_nothing, put_tail};
pub use words::{as_integer, part_width, sum_widths, word_width};
