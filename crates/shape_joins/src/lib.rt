//! Shapes that leave parts open: the one that two are, what a callee's Type variables stand for, and when the
//! parameters of two members of an overload clash.
//!
//! `specs/Joins` has the one shape of two, `specs/Filling` their order, `specs/Order` what laws say of both, `specs/Learning` what is
//! learnt from arguments, and `specs/Numbering` clashes.
#![tactic(auto)]

mod clashes;
mod joining;
mod laws;
mod learning;
mod putting;

pub use clashes::overlap;
pub use joining::join_shapes;
pub use laws::{joins_are_least, learning_fills, shapes_are_ordered};
pub use learning::{holes, learn_shape, learn_shapes};
pub use putting::{put_shape, put_shapes};
