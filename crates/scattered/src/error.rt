use sail_base::{Place, Text};
use std::alloc::AllocError;
use thiserror::Error;

/// Why definitions can't be gathered.
#[derive(PartialEq, Eq, Debug, Drop, Error)]
pub enum ScatterError {
    /// A clause, or an `end`, before which no opening stands that it can belong to: its place, and the name.
    #[error("nothing is open that this belongs to")]
    NoOpening(Place, Text),
    /// An opening that no `end` ends: its place, and the name.
    #[error("what this opens is never ended")]
    Unended(Place, Text),
    /// There is no memory for the definitions. This says nothing of them.
    #[error("out of memory")]
    OutOfMemory,
}

impl From<AllocError> for ScatterError {
    ghost use Rattle.std.specs.Prelude.{◌≡◌};
    ghost use Rattle.scattered.specs.declared.error.ScatterError.{ScatterError};

    ghost from_gives = { λ e r. r ≡ ScatterError.OutOfMemory };

    fn from(_: AllocError) -> ScatterError {
        ScatterError::OutOfMemory
    }
}
