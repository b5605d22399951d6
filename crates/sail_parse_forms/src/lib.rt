//! The parser of the forms of expressions that begin with a word, and of parts in which no expression
//! stands, and what reads the rows that others lead back to: each function reads one row of the grammar.
#![tactic(auto)]

mod control;
mod forms;
mod grammar;
mod leaves;
mod parts;

pub use grammar::{Grammar, Part};
pub use leaves::{CONTROL_WORDS, LITERALS, QUESTIONS};
pub use parts::{constant, name_if, question, text_if, type_if};
