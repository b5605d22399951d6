//! A shelf and a sink over bytes in memory, of which chosen calls fail.
ghost use Rattle.std.specs.Prelude.{◌≡◌, ◌≢◌, ◌≤◌, ◌<◌, ◌↔◌, ◌+◌, ◌-◌, ◌^◌, ◌++◌, [], None, Some};
ghost use Rattle.std.specs.Prelude.{Err, length, take, min, max, IfOk, OnOk, OnErr, IsErr, Contains};
ghost use Rattle.sail_outside.specs.Files.{lookup, files_of};
ghost use Rattle.sail_outside.specs.Faults.{Rose};
ghost use Rattle.sail_outside.specs.Bytes.{Takes};

use crate::edge::{BeginError, Failed, PutError, Shelf, Sink};
use crate::held::Held;
use crate::plan::Plan;
use std::alloc::Global;
use std::marker::Model;

/// Files in memory, taken in pieces of a size, where chosen calls fail.
///
/// A contract sees the files as a map, what is left of the begun one, the size of the pieces, the
/// numbers of the calls that fail, and the counts of the calls and of the faults so far.
#[derive(Drop)]
pub struct MemShelf {
    held: Held,
    plan: Plan,
    piece: usize,
}

impl Model for MemShelf {
    ghost use Rattle.std.specs.Prelude.{◌<◌};
    ghost use Rattle.sail_outside.specs.Memory.{FilesInMemory};

    ghost Value = { FilesInMemory };

    ghost view = { λ s.
        record {
          files = s.held.files;
          left = s.held.left;
          piece = s.piece;
          fails = s.plan.fails.items;
          calls = s.plan.calls;
          faults = s.plan.faults;
        } };

    ghost invariant = { λ s. 0 < s.piece };
}

impl MemShelf {
    /// A shelf of these named files; of several with one name the first counts.
    ///
    /// The calls of `begin` and `take` whose numbers are in `fails`, counted together from 0, fail.
    /// A `take` gives at most `piece` bytes; a `piece` of 0 is read as 1.
    pub fn new(files: Vec<(String, Vec<u8>)>, fails: Vec<u64>, piece: usize) -> MemShelf
        ensures files { result.files ≡ files_of files.items }
        ensures left { result.left ≡ [] }
        ensures piece { result.piece ≡ max piece 1 }
        ensures fails { result.fails ≡ fails.items }
        ensures calls { result.calls ≡ 0 }
        ensures faults { result.faults ≡ 0 }
    {
        MemShelf {
            held: Held::new(files),
            plan: Plan::new(fails),
            piece: piece.max(1),
        }
    }

    /// How many calls of `begin` and `take` there were; the count stands still at its end.
    pub fn calls(&self) -> u64
        ensures { result ≡ self.now.calls }
    {
        self.plan.calls()
    }

    /// How many of these failed; the count stands still at its end.
    pub fn faults(&self) -> u64
        ensures { result ≡ self.now.faults }
    {
        self.plan.faults()
    }
}

impl Shelf for MemShelf {
    ghost use Rattle.std.specs.Prelude.{Some, refl};

    ghost holds = { λ s. Some s.files };

    ghost left = { λ s. Some s.left };

    ghost faults = { λ s. s.faults };

    ghost left_told = { λ s h. refl };

    /// Fails where the number of this call is in the list, and else begins the file of the name if
    /// there is one; it never wants memory.
    fn begin(&mut self, name: &str) -> Result<(), BeginError>
        ensures files { self.new.files ≡ self.old.files }
        ensures piece { self.new.piece ≡ self.old.piece }
        ensures plan { self.new.fails ≡ self.old.fails }
        ensures counted { self.new.calls ≡ min (self.old.calls + 1) (2 ^ 64 - 1) }
        ensures begun { OnOk result (lookup self.old.files name.now ≡ Some self.new.left) }
        ensures refused { OnErr result (self.new.left ≡ []) }
        ensures missing { result ≡ Err BeginError.Missing → lookup self.old.files name.now ≡ None }
        ensures failed { result ≡ Err BeginError.Failed ↔ Contains self.old.fails self.old.calls }
        ensures memory { result ≢ Err BeginError.OutOfMemory }
        ensures rose { result ≡ Err BeginError.Failed → Rose self.old.faults self.new.faults }
        ensures still { result ≢ Err BeginError.Failed → self.new.faults ≡ self.old.faults }
        ensures later { self.old.faults ≤ self.new.faults }
    {
        if self.plan.fails_now() {
            self.held.close();
            return Err(BeginError::Failed);
        }
        if self.held.begin(name) {
            Ok(())
        } else {
            Err(BeginError::Missing)
        }
    }

    /// Fails where the number of this call is in the list, and then takes nothing.
    fn take(&mut self, buf: &mut [u8]) -> Result<usize, Failed>
        ensures files { self.new.files ≡ self.old.files }
        ensures piece { self.new.piece ≡ self.old.piece }
        ensures plan { self.new.fails ≡ self.old.fails }
        ensures counted { self.new.calls ≡ min (self.old.calls + 1) (2 ^ 64 - 1) }
        ensures count { IfOk result (λ n.
            n ≡ min (min (length self.old.left) (length buf.new)) self.old.piece) }
        ensures bytes { IfOk result (λ n. Takes (Some self.old.left) (Some self.new.left) n buf.new) }
        ensures untaken { OnErr result (self.new.left ≡ self.old.left) }
        ensures failed { IsErr result ↔ Contains self.old.fails self.old.calls }
        ensures rose { OnErr result (Rose self.old.faults self.new.faults) }
        ensures still { OnOk result (self.new.faults ≡ self.old.faults) }
        ensures later { self.old.faults ≤ self.new.faults }
    {
        if self.plan.fails_now() {
            return Err(Failed);
        }
        Ok(self.held.take(buf, self.piece))
    }
}

/// An output into memory, given in pieces of a size, where chosen calls fail.
///
/// A contract sees the bytes taken so far, the size of the pieces, the numbers of the calls that
/// fail, and the counts of the calls and of the faults so far.
#[derive(Drop)]
pub struct MemSink {
    bytes: Vec<u8>,
    plan: Plan,
    piece: usize,
}

impl Model for MemSink {
    ghost use Rattle.std.specs.Prelude.{◌<◌};
    ghost use Rattle.sail_outside.specs.Memory.{OutputInMemory};

    ghost Value = { OutputInMemory };

    ghost view = { λ s.
        record {
          bytes = s.bytes.items;
          piece = s.piece;
          fails = s.plan.fails.items;
          calls = s.plan.calls;
          faults = s.plan.faults;
        } };

    ghost invariant = { λ s. 0 < s.piece };
}

impl MemSink {
    /// An empty output.
    ///
    /// The calls of `put` whose numbers are in `fails`, counted from 0, fail. A `put` takes at most
    /// `piece` bytes; a `piece` of 0 is read as 1.
    pub fn new(alloc: Global, fails: Vec<u64>, piece: usize) -> MemSink
        ensures bytes { result.bytes ≡ [] }
        ensures piece { result.piece ≡ max piece 1 }
        ensures fails { result.fails ≡ fails.items }
        ensures calls { result.calls ≡ 0 }
        ensures faults { result.faults ≡ 0 }
    {
        MemSink {
            bytes: Vec::new(alloc),
            plan: Plan::new(fails),
            piece: piece.max(1),
        }
    }

    /// The bytes taken so far.
    pub fn bytes(&self) -> &[u8]
        ensures { result.now ≡ self.now.bytes }
    {
        self.bytes.as_slice()
    }

    /// How many calls of `put` there were; the count stands still at its end.
    pub fn calls(&self) -> u64
        ensures { result ≡ self.now.calls }
    {
        self.plan.calls()
    }

    /// How many of these failed; the count stands still at its end.
    pub fn faults(&self) -> u64
        ensures { result ≡ self.now.faults }
    {
        self.plan.faults()
    }
}

impl Sink for MemSink {
    ghost use Rattle.std.specs.Prelude.{Some};

    ghost given = { λ s. Some s.bytes };

    ghost faults = { λ s. s.faults };

    /// Fails where the number of this call is in the list, and then takes nothing.
    fn put(&mut self, piece: &[u8]) -> Result<usize, PutError>
        ensures piece { self.new.piece ≡ self.old.piece }
        ensures plan { self.new.fails ≡ self.old.fails }
        ensures counted { self.new.calls ≡ min (self.old.calls + 1) (2 ^ 64 - 1) }
        ensures count { IfOk result (λ n. n ≡ min (length piece.now) self.old.piece) }
        ensures some { 0 < length piece.now → IfOk result (λ n. 0 < n) }
        ensures sent { IfOk result (λ n. self.new.bytes ≡ self.old.bytes ++ take n piece.now) }
        ensures unsent { OnErr result (self.new.bytes ≡ self.old.bytes) }
        ensures failed { result ≡ Err PutError.Failed ↔ Contains self.old.fails self.old.calls }
        ensures rose { result ≡ Err PutError.Failed → Rose self.old.faults self.new.faults }
        ensures still { result ≢ Err PutError.Failed → self.new.faults ≡ self.old.faults }
        ensures later { self.old.faults ≤ self.new.faults }
    {
        if self.plan.fails_now() {
            return Err(PutError::Failed);
        }
        let count = piece.len().min(self.piece);
        match self.bytes.extend_from_slice(&piece[..count]) {
            Ok(()) => Ok(count),
            Err(_) => Err(PutError::OutOfMemory),
        }
    }
}
