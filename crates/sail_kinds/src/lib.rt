//! What the text of a type stands for where it is read: a number, a constraint or a type, in normal form;
//! and the failures that the definitions of a model can have, of which the first is its refusal.
//!
//! Which of all failures is the first stands in `specs/Failures`, what can be named in `specs/Scopes`, names
//! that stand in one list twice in `specs/Repeated`, the types of the language in `specs/Builtin`, and what
//! a text stands for and why it stands for nothing in `specs/Normal`.
#![tactic(auto)]

mod builtins;
mod error;
mod first;
mod forms;
mod kinds;
pub mod laws;
mod reading;
mod repeated;
mod scope;
mod variables;

pub use builtins::builtin;
pub use error::{Mismatch, TableError};
pub use first::First;
pub use reading::{read, read_as};
pub use repeated::note_repeated;
pub use scope::{Binders, FoundVariable, Meaning, NamedType, Scope, TypeNames, Variable};
pub use variables::find_parameter;
