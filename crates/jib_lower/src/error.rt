//! Why a model isn't lowered.
ghost use Rattle.std.specs.Prelude.{◌≡◌};

use lowered_tables::TableError;
use sail_base::Place;
use std::alloc::AllocError;

/// Why a model isn't lowered.
#[derive(Clone, Copy, Debug)]
pub enum LowerError {
    /// Memory is wanting.
    Memory,
    /// A type gets no number.
    Table(TableError),
    /// The tables of the model aren't whole where a case goes by the numbers alone that are noted before its value is there.
    NotTabled,
    /// Something in the model asks a direction of a mapping for an option.
    NotResolved,
    /// What stands at this place has a tree that isn't lowered here: by its kinds, by parameters or results of several types, or since a case of it doesn't
    /// fit.
    NotLowered(Place),
    /// An instance of the function at this place has no constant sizes.
    NotSized(Place),
    /// There is no such function or opening, or calls are not told apart by the numbers of their nodes.
    NotThere,
}

impl From<AllocError> for LowerError {
    ghost use Rattle.jib_lower.specs.declared.error.LowerError.{LowerError};

    ghost from_gives = { λ e r. r ≡ LowerError.Memory };

    fn from(_: AllocError) -> LowerError {
        LowerError::Memory
    }
}

impl From<TableError> for LowerError {
    ghost use Rattle.jib_lower.specs.Errors.{of_table};

    ghost from_gives = { λ e r. r ≡ of_table e };

    fn from(error: TableError) -> LowerError {
        match error {
            TableError::Memory => LowerError::Memory,
            _ => LowerError::Table(error),
        }
    }
}
