//! What nodes of the core come to as flat code under constant sizes, before the code is put: whether they are lowered, the types that their values may have,
//! and the variables whose numbers they note.
//!
//! `is_lowered`, `node_ends` and `list_noted` tell of a node what its form in `lowered_pieces` (`specs/Lowering`) says, whatever the numbering of slots is.
#![tactic(auto)]

mod able;
mod around;
mod cells;
mod ends;
mod keeping;
mod mapped;
mod noted;
mod targets;
mod told;

pub use able::{are_suffixes, arm_steps, is_arm, is_lowered, is_one};
pub use around::{Around, called_function};
pub use ends::{ends_with, literal_type, made_ends, node_ends};
pub use mapped::{fixed_type, option_of};
pub use noted::{list_arm, list_noted};
pub use targets::{Spot, spot_of};
