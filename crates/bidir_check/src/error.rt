//! Why a model is refused.
ghost use Rattle.std.specs.Prelude.{◌≡◌, ◌++◌, OnOk};
ghost use Rattle.bidir_check.specs.Printed.{detail_text};

use farkas::{FarkasError, Point};
use obligations::{push_limit, push_point};
use sail_base::{Items, Place};
use std::alloc::AllocError;
use std::convert::From;

/// Why not all obligations of a model are shown to hold: the first that isn't closed. Its variables have these names, in order.
pub enum CheckError {
    /// The one at this place doesn't hold at a point, as far as elimination tells.
    Open {
        place: Place,
        names: Items<Items<u8>>,
        point: Point,
    },
    /// Elimination passes a limit at the one at this place.
    Limit {
        place: Place,
        names: Items<Items<u8>>,
        limit: FarkasError,
    },
    /// There is no memory. This says nothing of the model.
    OutOfMemory,
}

impl Drop for CheckError {
    fn drop(self) {
        match self {
            CheckError::Open {
                place: _,
                names: _,
                point: _,
            } => {}
            CheckError::Limit {
                place: _,
                names: _,
                limit: _,
            } => {}
            CheckError::OutOfMemory => {}
        }
    }
}

impl From<AllocError> for CheckError {
    ghost use Rattle.bidir_check.specs.declared.error.CheckError.{CheckError};

    ghost from_gives = { λ e r. r ≡ CheckError.OutOfMemory };

    fn from(_: AllocError) -> CheckError {
        CheckError::OutOfMemory
    }
}

impl CheckError {
    /// Puts what the refusal tells besides its place: the point at which the obligation doesn't hold, or the limit; nothing where there is
    /// no memory. The one error is want of memory.
    pub fn push_detail(&self, out: &mut Vec<u8>) -> Result<(), AllocError>
        ensures { OnOk result (out.new.items ≡ out.old.items ++ detail_text self.now) }
    {
        match self {
            CheckError::Open {
                place: _,
                names,
                point,
            } => push_point(out, names.as_slice(), point),
            CheckError::Limit {
                place: _,
                names,
                limit,
            } => push_limit(out, names.as_slice(), limit),
            CheckError::OutOfMemory => Ok(()),
        }
    }
}
