//! Why a whole file was not read, and why a whole piece was not written.
use crate::edge::{BeginError, Failed, PutError};
use std::alloc::AllocError;
use thiserror::Error;

/// Why a file was not read whole.
#[derive(Clone, Copy, Debug, PartialEq, Eq, Drop, Error)]
pub enum ReadError {
    /// The shelf is at fault; its count of faults rose.
    #[error("the file could not be read")]
    Fault,
    /// The shelf has no file of this name.
    #[error("no such file")]
    Missing,
    /// The file has more bytes than `limit`, the limit that was asked for.
    #[error("the file has more than {limit} bytes")]
    TooLong { limit: u64 },
    /// Opening the file or keeping its bytes wanted memory.
    #[error("out of memory")]
    OutOfMemory,
}

/// Why a piece was not written whole.
#[derive(Clone, Copy, Debug, PartialEq, Eq, Drop, Error)]
pub enum WriteError {
    /// The sink is at fault; its count of faults rose.
    #[error("the output could not be written")]
    Fault,
    /// The sink wanted memory.
    #[error("out of memory")]
    OutOfMemory,
}

impl From<BeginError> for ReadError {
    ghost use Rattle.std.specs.Prelude.{◌≡◌};
    ghost use Rattle.sail_outside.specs.Errors.{begin_refusal};

    ghost from_gives = { λ e r. r ≡ begin_refusal e };

    fn from(e: BeginError) -> ReadError {
        match e {
            BeginError::Missing => ReadError::Missing,
            BeginError::Failed => ReadError::Fault,
            BeginError::OutOfMemory => ReadError::OutOfMemory,
        }
    }
}

impl From<Failed> for ReadError {
    ghost use Rattle.std.specs.Prelude.{◌≡◌};
    ghost use Rattle.sail_outside.specs.declared.errors.ReadError.{ReadError};

    ghost from_gives = { λ e r. r ≡ ReadError.Fault };

    fn from(_: Failed) -> ReadError {
        ReadError::Fault
    }
}

impl From<AllocError> for ReadError {
    ghost use Rattle.std.specs.Prelude.{◌≡◌};
    ghost use Rattle.sail_outside.specs.declared.errors.ReadError.{ReadError};

    ghost from_gives = { λ e r. r ≡ ReadError.OutOfMemory };

    fn from(_: AllocError) -> ReadError {
        ReadError::OutOfMemory
    }
}

impl From<PutError> for WriteError {
    ghost use Rattle.std.specs.Prelude.{◌≡◌};
    ghost use Rattle.sail_outside.specs.Errors.{put_refusal};

    ghost from_gives = { λ e r. r ≡ put_refusal e };

    fn from(e: PutError) -> WriteError {
        match e {
            PutError::Failed => WriteError::Fault,
            PutError::OutOfMemory => WriteError::OutOfMemory,
        }
    }
}
