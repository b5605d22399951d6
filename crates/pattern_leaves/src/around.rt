//! What is known around an expression.
ghost use Rattle.std.specs.Prelude.{◌≡◌, slice_get};
ghost use Rattle.std.specs.Option.{option_copied};
ghost use Rattle.pattern_leaves.specs.Settings as settings;

use crate::names::TopLevel;
use model_state::Register;
use sail_core::{Direction, Function};
use sail_types::{Index, Types};
use value_indices::Reading;

/// What is known around an expression: the model, and the type variables of the function.
#[derive(Clone, Copy)]
pub struct Around<'a> {
    /// The named types.
    pub types: &'a Types,
    /// The union `exception`, by its place in the table; none where the model has none.
    pub exception: Option<u32>,
    /// The registers.
    pub registers: &'a [Register],
    /// The functions.
    pub functions: &'a [Function],
    /// The directions of mappings.
    pub directions: &'a [Direction],
    /// The names that top-level lets bound, in order.
    pub lets: &'a [TopLevel],
    /// What the type variables of the function stand for.
    pub numbers: &'a [Index],
    /// The type of the function's result; none where no function is around.
    pub answer: Option<&'a Reading>,
}

impl Around<'_> {
    /// A direction of a mapping, by its number; none where there is no such one.
    pub fn direction(&self, number: u32) -> Option<&Direction>
        ensures { option_copied result ≡ slice_get (settings.around_of self.now).directions number }
    {
        self.directions.get(number as usize)
    }
}
