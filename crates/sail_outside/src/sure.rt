//! A shelf and a sink over bytes in memory that are never at fault: their count of faults is 0.
ghost use Rattle.std.specs.Prelude.{◌≡◌, ◌≢◌, ◌≤◌, ◌++◌, [], None, Some, Err, length, min, IfOk, IsOk};
ghost use Rattle.std.specs.Prelude.{OnErr, OnOk, IfErr};
ghost use Rattle.sail_outside.specs.Files.{lookup, files_of};
ghost use Rattle.sail_outside.specs.Bytes.{Takes};

use crate::edge::{BeginError, Failed, PutError, Shelf, Sink};
use crate::held::Held;
use std::alloc::Global;
use std::marker::Model;

/// Files in memory that never fail: a contract sees the files as a map, and what is left of the
/// begun one.
#[derive(Drop)]
pub struct SureShelf {
    held: Held,
}

impl Model for SureShelf {
    ghost use Rattle.sail_outside.specs.Files.{Reading};

    ghost Value = { Reading };

    ghost view = { λ s. s.held };
}

impl SureShelf {
    /// A shelf of these named files; of several with one name the first counts.
    pub fn new(files: Vec<(String, Vec<u8>)>) -> SureShelf
        ensures files { result.files ≡ files_of files.items }
        ensures left { result.left ≡ [] }
    {
        SureShelf {
            held: Held::new(files),
        }
    }
}

impl Shelf for SureShelf {
    ghost use Rattle.std.specs.Prelude.{Some, refl};

    ghost holds = { λ s. Some s.files };

    ghost left = { λ s. Some s.left };

    ghost faults = { λ s. 0 };

    ghost left_told = { λ s h. refl };

    /// Begins the file of the name; the one refusal is that there is none.
    fn begin(&mut self, name: &str) -> Result<(), BeginError>
        ensures files { self.new.files ≡ self.old.files }
        ensures begun { OnOk result (lookup self.old.files name.now ≡ Some self.new.left) }
        ensures missing { OnErr result (lookup self.old.files name.now ≡ None) }
        ensures refused { OnErr result (self.new.left ≡ []) }
        ensures sure { IfErr result (λ e. e ≡ BeginError.Missing) }
    {
        if self.held.begin(name) {
            Ok(())
        } else {
            Err(BeginError::Missing)
        }
    }

    /// Takes as many bytes as the buffer has room for, if they are there; it never fails.
    fn take(&mut self, buf: &mut [u8]) -> Result<usize, Failed>
        ensures files { self.new.files ≡ self.old.files }
        ensures sure { IsOk result }
        ensures count { IfOk result (λ n. n ≡ min (length self.old.left) (length buf.new)) }
        ensures bytes { IfOk result (λ n. Takes (Some self.old.left) (Some self.new.left) n buf.new) }
    {
        Ok(self.held.take(buf, usize::MAX))
    }
}

/// An output into memory that is never at fault; it can want memory. A contract sees the bytes
/// taken so far.
#[derive(Drop)]
pub struct SureSink {
    bytes: Vec<u8>,
}

impl Model for SureSink {
    ghost use Rattle.std.specs.Prelude.{ℕ, List};

    ghost Value = { List ℕ };

    ghost view = { λ s. s.bytes.items };
}

impl SureSink {
    /// An empty output.
    pub fn new(alloc: Global) -> SureSink
        ensures { result ≡ [] }
    {
        SureSink {
            bytes: Vec::new(alloc),
        }
    }

    /// The bytes taken so far.
    pub fn bytes(&self) -> &[u8]
        ensures { result.now ≡ self.now }
    {
        self.bytes.as_slice()
    }
}

impl Sink for SureSink {
    ghost use Rattle.std.specs.Prelude.{Some};

    ghost given = { λ s. Some s };

    ghost faults = { λ s. 0 };

    /// Takes the whole piece; the one refusal is want of memory.
    fn put(&mut self, piece: &[u8]) -> Result<usize, PutError>
        ensures whole { IfOk result (λ n. n ≡ length piece.now) }
        ensures sent { IfOk result (λ _. self.new ≡ self.old ++ piece.now) }
        ensures unsent { OnErr result (self.new ≡ self.old) }
        ensures sure { result ≢ Err PutError.Failed }
    {
        match self.bytes.extend_from_slice(piece) {
            Ok(()) => Ok(piece.len()),
            Err(_) => Err(PutError::OutOfMemory),
        }
    }
}
