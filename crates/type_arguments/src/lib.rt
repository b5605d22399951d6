//! Numbers, constraints and types with arguments in the place of their variables, as where a named type is
//! applied or a field is taken at its arguments, and types that nothing belongs to.
#![tactic(auto)]

mod application;
mod copies;
pub mod laws;
mod moved;
mod normal;
mod ranges;

pub use application::{applied, applied_typ, applied_types};
pub use copies::{copy_indices, copy_normal, copy_typ, copy_types};
pub use moved::{moved_con, moved_index, moved_indices, moved_num, moved_typ, moved_types};
pub use normal::Normal;
pub use ranges::{is_void, is_void_normal};
