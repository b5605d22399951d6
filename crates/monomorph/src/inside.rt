//! What is known in a body.
use sail_base::{Items, Text};
use sail_types::Types;
use size_values::Sized;

/// What is known in a body that is read under an instance.
#[derive(Clone, Copy)]
pub struct Inside<'a> {
    /// The named types.
    pub types: &'a Types,
    /// For each function, which of its variables are size variables.
    pub sizing: &'a [Items<bool>],
    /// The instance's numbers.
    pub numbers: &'a [Option<i128>],
    /// What its Type variables stand for.
    pub own: &'a [Sized],
    /// How many variables the body has.
    pub variables: u32,
    /// Their names.
    pub names: &'a [Text],
    /// Which of them are split.
    pub split: &'a [u32],
}
