//! The parser of the parts of definitions (names, members, type variables and what gets members by an
//! `overload`), and of definitions that may come in pieces and hold no expression.
#![tactic(auto)]

mod leaves;
mod lists;
mod pieces;
mod variables;

pub use leaves::{overloaded, typ_behind};
pub use lists::{enum_members, members, names};
pub use pieces::{end, scattered, union_definition};
pub use variables::{kind_mark, parameters, quantifier};
