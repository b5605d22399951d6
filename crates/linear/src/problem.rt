//! Problems.
ghost use Rattle.std.specs.Prelude.{◌≡◌};

use sail_base::Items;
use sail_types::Con;
use std::alloc::AllocError;
use std::convert::From;

/// Whether facts imply a goal.
pub struct Problem {
    pub facts: Items<Con>,
    pub goal: Con,
}

impl Drop for Problem {
    fn drop(self) {
        let Problem { facts: _, goal: _ } = self;
    }
}

/// Why a problem has no list of cases.
#[derive(PartialEq, Eq, Debug, Drop)]
pub enum LinearError {
    /// A number of a row is past 2^127 - 1 in size, on the way too.
    NumberLimit,
    /// There are more than 64 cases: so many, cut off at 2^64 - 1.
    CaseLimit { count: u64 },
    /// There is no memory. This says nothing of the problem.
    OutOfMemory,
}

impl From<AllocError> for LinearError {
    ghost use Rattle.linear.specs.declared.problem.LinearError.{LinearError};

    ghost from_gives = { λ e r. r ≡ LinearError.OutOfMemory };

    fn from(_: AllocError) -> LinearError {
        LinearError::OutOfMemory
    }
}
