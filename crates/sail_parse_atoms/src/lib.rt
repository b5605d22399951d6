//! The parser of operands without suffixes and of blocks: each function reads one row of the grammar.
#![tactic(auto)]

mod atoms;
mod blocks;
mod leaves;

pub use atoms::Atoms;
