//! Expressions that choose, repeat or bind names, and blocks, over the parts that a `Walker` looks at.
//!
//! What the forms are is said by the definitions of `shape_rules`.
#![tactic(auto)]

mod branches;
mod loops;
mod statements;

pub use branches::{if_alone, if_else, match_cases, try_cases};
pub use loops::{foreach, looped};
pub use shape_values::{
    Walker, assert, call_named, finish_typed, infix, leave, listed, struct_found, typed, with_found,
};
pub use statements::{block, block_alone, let_in, var_in};
