//! What the builtins without state compute.
#![tactic(auto)]

mod integers;
mod made;
mod mixed;
mod row;
mod texts;
mod words;

pub use row::{apply, row_value};
