//! Builtins keep shapes, and the core calls them as the text does.
//!
//! `specs/Rows` says it of each member of each builtin (`RowsKeepShapes`), and of members as a name, an operator before an operand
//! and one between operands mean them (`RowsStand`, `PrefixesStand`, `OperatorsStand`), in the words of `shape_meanings`.
#![tactic(auto)]

mod laws;

pub use laws::{rows_go_on, rows_keep_shapes, rows_stand};
