ghost use Rattle.std.specs.Prelude.{◌≡◌};
ghost use Rattle.sail_kinds.specs.Failures.{place_of, number_of, is_before, earlier};

use sail_base::{Kind, Place, Text};
use std::alloc::AllocError;
use thiserror::Error;

/// Why definitions have no tables, each at its place and with the name that it is about.
#[derive(PartialEq, Eq, Debug, Error)]
pub enum TableError {
    /// A name that is taken, a name that stands a second time in one list, or a second measure (M09).
    #[error("a name is taken")]
    Clash {
        place: Place,
        name: Text,
    },
    /// A name that means nothing there, or a name whose definition is missing in part (M10).
    #[error("a name means nothing here")]
    NoName {
        place: Place,
        name: Text,
    },
    /// A part of the wrong kind, at that part; a name with a wrong count of arguments, at that name; or,
    /// without what was wanted, a product of two variables, a number past the largest integer, an exponent
    /// that isn't from 0 to 126, a negative width, an empty range, or parameters of `exception` (M11).
    #[error("a type is ill-kinded")]
    IllKinded {
        place: Place,
        mismatch: Option<Mismatch>,
    },
    /// A function in a cycle of calls, or a loop, without a measure (M12).
    #[error("a measure is missing")]
    MeasureMissing {
        place: Place,
        name: Text,
    },
    /// An entry point that is missing, or has another signature (M19).
    #[error("an entry point is missing")]
    EntryMissing {
        place: Place,
        name: Text,
    },
    /// A mapping that reaches itself through patterns (M24).
    #[error("a mapping reaches itself")]
    MappingCycle {
        place: Place,
        name: Text,
    },
    /// There is no memory for the tables. This says nothing of the definitions, and stands at 0:0:0.
    #[error("out of memory")]
    OutOfMemory,
}

/// What was wanted, and what was found.
#[derive(Clone, Copy, PartialEq, Eq, Debug)]
pub enum Mismatch {
    /// Two kinds.
    Kinds(Kind, Kind),
    /// Two counts of arguments.
    Counts(usize, usize),
}

impl Drop for TableError {
    fn drop(self) {
        match self {
            TableError::Clash { place: _, name: _ } => {}
            TableError::NoName { place: _, name: _ } => {}
            TableError::IllKinded {
                place: _,
                mismatch: _,
            } => {}
            TableError::MeasureMissing { place: _, name: _ } => {}
            TableError::EntryMissing { place: _, name: _ } => {}
            TableError::MappingCycle { place: _, name: _ } => {}
            TableError::OutOfMemory => {}
        }
    }
}

impl From<AllocError> for TableError {
    ghost use Rattle.std.specs.Prelude.{◌≡◌};
    ghost use Rattle.sail_kinds.specs.declared.error.TableError.{TableError};

    ghost from_gives = { λ e r. r ≡ TableError.OutOfMemory };

    fn from(_: AllocError) -> TableError {
        TableError::OutOfMemory
    }
}

impl TableError {
    /// Where the failure stands.
    pub fn place(&self) -> Place
        ensures { result ≡ place_of self.now }
    {
        match self {
            TableError::Clash { place, .. } => *place,
            TableError::NoName { place, .. } => *place,
            TableError::IllKinded { place, .. } => *place,
            TableError::MeasureMissing { place, .. } => *place,
            TableError::EntryMissing { place, .. } => *place,
            TableError::MappingCycle { place, .. } => *place,
            TableError::OutOfMemory => Place {
                file: 0,
                line: 0,
                column: 0,
            },
        }
    }

    /// Its printed number, 9 to 12, 19 or 24, and 0 for want of memory.
    pub fn number(&self) -> u8
        ensures { result ≡ number_of self.now }
    {
        match self {
            TableError::Clash { .. } => 9,
            TableError::NoName { .. } => 10,
            TableError::IllKinded { .. } => 11,
            TableError::MeasureMissing { .. } => 12,
            TableError::EntryMissing { .. } => 19,
            TableError::MappingCycle { .. } => 24,
            TableError::OutOfMemory => 0,
        }
    }

    /// Whether it stands before another: at an earlier place, or at one place with the lower number.
    pub fn is_before(&self, other: &TableError) -> bool
        ensures { result ≡ is_before self.now other.now }
    {
        let place = self.place();
        let other_place = other.place();
        if place.file != other_place.file {
            place.file < other_place.file
        } else if place.line != other_place.line {
            place.line < other_place.line
        } else if place.column != other_place.column {
            place.column < other_place.column
        } else {
            self.number() < other.number()
        }
    }
}
