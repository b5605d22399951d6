//! Whether a value has a shape, and whether two types are the same.
#![tactic(auto)]

mod fitting;
pub mod laws;
mod type_equality;

pub use fitting::value_fits;
pub use type_equality::{same_type, same_types};
