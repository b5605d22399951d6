//! The real files and the real output, of whose content no contract tells: the trusted edge.
ghost use Rattle.std.specs.Prelude.{◌≡◌};
ghost use Rattle.sail_outside.specs.Errors.{opening_refusal};

use crate::edge::{BeginError, Failed, PutError, Shelf, Sink};
use std::fs;
use std::io::{ErrorKind, Read};
use std::rt::Files;

/// The files of the system, read in its own pieces; no failed call is tried again.
#[derive(Drop)]
pub struct StdShelf<'a, R: Files> {
    files: &'a R,
    begun: Option<R::File>,
    faults: u64,
}

impl<'a, R: Files> StdShelf<'a, R> {
    /// The files that this runtime reaches; none is begun, and no fault is counted.
    pub fn new(files: &'a R) -> StdShelf<'a, R>
        ensures { ⟦<StdShelf<'a, R> as Shelf>⟧.faults result ≡ 0 }
    {
        StdShelf {
            files,
            begun: None,
            faults: 0,
        }
    }

    /// How many calls failed; the count stands still at its end.
    pub fn faults(&self) -> u64
        ensures { result ≡ ⟦<StdShelf<'a, R> as Shelf>⟧.faults self.now }
    {
        self.faults
    }
}

impl<'a, R: Files> Shelf for StdShelf<'a, R> {
    ghost use Rattle.std.specs.Prelude.{None};

    ghost holds = { λ s. None };

    ghost left = { λ s. None };

    ghost faults = { λ s. s.faults };

    ghost left_told = { λ s h. h };

    /// Opens the file; every refusal but `Missing` and `OutOfMemory` is a fault.
    fn begin(&mut self, name: &str) -> Result<(), BeginError> {
        self.begun = None;
        match fs::open(self.files, name) {
            Ok(file) => {
                self.begun = Some(file);
                Ok(())
            }
            Err(error) => {
                let refusal = begin_error(error.kind());
                if refusal == BeginError::Failed {
                    self.faults = self.faults.saturating_add(1);
                }
                Err(refusal)
            }
        }
    }

    /// Reads once: a read of 0 bytes is the end, as it is where no file is begun, and every error is
    /// a fault.
    fn take(&mut self, buf: &mut [u8]) -> Result<usize, Failed> {
        let Some(file) = &mut self.begun else {
            return Ok(0);
        };
        match file.read(buf) {
            Ok(count) => Ok(count),
            Err(_) => {
                self.faults = self.faults.saturating_add(1);
                Err(Failed)
            }
        }
    }
}

/// What an opening that fails with an error of this kind is: `NotFound` is `Missing`, `OutOfMemory` is
/// that, and every other kind is `Failed`.
fn begin_error(kind: ErrorKind) -> BeginError
    ensures { result ≡ opening_refusal kind }
{
    match kind {
        ErrorKind::NotFound => BeginError::Missing,
        ErrorKind::OutOfMemory => BeginError::OutOfMemory,
        _ => BeginError::Failed,
    }
}

/// The standard output, written in its own pieces; no failed call is tried again.
#[derive(Drop)]
pub struct StdSink<'a, R: Print> {
    output: &'a R,
    faults: u64,
}

impl<'a, R: Print> StdSink<'a, R> {
    /// The output of this runtime; no fault is counted.
    pub fn new(output: &'a R) -> StdSink<'a, R>
        ensures { ⟦<StdSink<'a, R> as Sink>⟧.faults result ≡ 0 }
    {
        StdSink { output, faults: 0 }
    }

    /// How many calls failed; the count stands still at its end.
    pub fn faults(&self) -> u64
        ensures { result ≡ ⟦<StdSink<'a, R> as Sink>⟧.faults self.now }
    {
        self.faults
    }
}

impl<'a, R: Print> Sink for StdSink<'a, R> {
    ghost use Rattle.std.specs.Prelude.{None};

    ghost given = { λ s. None };

    ghost faults = { λ s. s.faults };

    /// Writes once: every error is a fault, and so is a write of 0 bytes of a piece that has some.
    fn put(&mut self, piece: &[u8]) -> Result<usize, PutError> {
        if piece.is_empty() {
            return Ok(0);
        }
        match self.output.write_some(piece) {
            Ok(count) if count > 0 => Ok(count),
            _ => {
                self.faults = self.faults.saturating_add(1);
                Err(PutError::Failed)
            }
        }
    }
}
