//! The names that the definitions of a model take, and which of them are taken already.
//!
//! `specs/Bound` has what a pattern of a top-level `let` binds, `specs/Namings` the names that each definition
//! takes and where a refusal of each stands, `specs/Clashes` which of them are taken already.
#![tactic(auto)]

mod bound;
mod clashes;
mod globals;
mod held;
mod members;
mod naming;
mod namings;

pub use bound::push_bound;
pub use clashes::{is_builtin, note_clashes};
pub use globals::{Globals, find_globals};
pub use members::{Members, find_members};
pub use naming::{Alone, Called, Naming, Role, Space};
pub use namings::find_namings;
