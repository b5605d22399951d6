//! What the names of values of a model mean to the phase that finds shapes.
//!
//! `specs/Overloads` has members of an overload that clash, `specs/Models` what each name means, and `specs/Sources` what the code holds
//! of a text.
#![tactic(auto)]

mod candidates;
mod clashes;
mod entries;
mod meanings;
mod overloads;
mod source;
mod values;

pub use candidates::{copy_candidate, type_variables};
pub use clashes::{Added, note_clashes};
pub use entries::{Counts, Entry, find_entries};
pub use meanings::find_meanings;
pub use overloads::Overload;
pub use source::{Source, scope_under};
pub use values::{hold_entries, put_lets};
