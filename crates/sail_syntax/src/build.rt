//! The nodes that a parser makes, each by a call whose clause names its value. An expression comes in
//! its box, so that nothing but boxes and lists is alive where a call can fail.
mod expressions;
mod patterns;
mod types;

pub use expressions::{
    assert_that, assign, block, branch, call, choose, constant, foreach, group, infix, leave,
    let_in, loop_on, of_type, part, prefixed, structure, typed, update, var_in, variable,
    with_fields,
};
pub use patterns::{annotated, concat, cons, named};
pub use types::{exists, one_of, type_infix, type_prefix};
