//! The two traits of the outside, and the refusals of their calls.
ghost use Rattle.std.specs.Prelude.{◌≡◌, ◌≤◌, ◌<◌, ℕ, List, Option, Some, length, take, IfOk};
ghost use Rattle.std.specs.Prelude.{OnOk, OnErr, Ok, Err, IsSome};
ghost use Rattle.sail_outside.specs.Files.{Files, Lacks};
ghost use Rattle.sail_outside.specs.Faults.{Rose};
ghost use Rattle.sail_outside.specs.Bytes.{Begins, Takes, IsUsedUp, Sent};

use thiserror::Error;

/// Why a name could not be begun.
#[derive(Clone, Copy, Debug, PartialEq, Eq, Drop, Error)]
pub enum BeginError {
    /// There is no file of this name.
    #[error("no such file")]
    Missing,
    /// The shelf is at fault; its count of faults rose.
    #[error("the file could not be opened")]
    Failed,
    /// Opening the file wanted memory.
    #[error("out of memory")]
    OutOfMemory,
}

/// A take that failed; the shelf's count of faults rose.
#[derive(Clone, Copy, Debug, PartialEq, Eq, Drop, Error)]
#[error("the file could not be read")]
pub struct Failed;

/// Why a piece could not be put.
#[derive(Clone, Copy, Debug, PartialEq, Eq, Drop, Error)]
pub enum PutError {
    /// The sink is at fault; its count of faults rose.
    #[error("the output could not be written")]
    Failed,
    /// The sink wanted memory.
    #[error("out of memory")]
    OutOfMemory,
}

/// Named files that are read one after another, each from its first byte on.
pub trait Shelf {
    /// The files that the shelf holds, where it tells them.
    ghost holds: { Self → Option Files };

    /// The bytes of the begun file that aren't yet taken, told wherever `holds` is.
    ghost left: { Self → Option (List ℕ) };

    /// The count of faults, which stands still at 2^64 - 1.
    ghost faults: { Self → ℕ };

    /// Begins the file of this name, from its first byte on, in place of an earlier one.
    ///
    /// `Missing` comes only where the shelf, if it tells its files, lacks the name; `Failed` only
    /// where its count of faults rose; `OutOfMemory` where opening wanted memory. After a refusal
    /// no bytes are left to take.
    fn begin(&mut self, name: &str) -> Result<(), BeginError>
        ensures same { holds self.new ≡ holds self.old }
        ensures later { faults self.old ≤ faults self.new }
        ensures begun { OnOk result (Begins (holds self.old) name.now (left self.new)) }
        ensures refused { OnErr result (IsUsedUp (left self.new)) }
        ensures missing { result ≡ Err BeginError.Missing → Lacks (holds self.old) name.now }
        ensures unraised { result ≡ Err BeginError.Missing → faults self.new ≡ faults self.old }
        ensures failed { result ≡ Err BeginError.Failed → Rose (faults self.old) (faults self.new) };

    /// Takes the next bytes of the begun file into the front of `buf`, and gives their count: at
    /// least 1 where `buf` isn't empty and bytes are left, 0 at the end.
    ///
    /// `Failed` comes only where the count of faults rose.
    fn take(&mut self, buf: &mut [u8]) -> Result<usize, Failed>
        ensures same { holds self.new ≡ holds self.old }
        ensures later { faults self.old ≤ faults self.new }
        ensures bound { IfOk result (λ n. n ≤ length buf.new) }
        ensures bytes { IfOk result (λ n. Takes (left self.old) (left self.new) n buf.new) }
        ensures failed { OnErr result (Rose (faults self.old) (faults self.new)) };

    /// What is left is told wherever the files are.
    ghost left_told: { (s : Self) → IsSome (holds s) → IsSome (left s) };
}

/// An output that takes bytes in order.
pub trait Sink {
    /// The bytes taken so far, where the sink tells them.
    ghost given: { Self → Option (List ℕ) };

    /// The count of faults, which stands still at 2^64 - 1.
    ghost faults: { Self → ℕ };

    /// Takes a front of `piece` and gives its length: at least 1 where `piece` isn't empty.
    ///
    /// Nothing is taken at an error. `Failed` comes only where the count of faults rose,
    /// `OutOfMemory` where the sink wanted memory.
    fn put(&mut self, piece: &[u8]) -> Result<usize, PutError>
        ensures later { faults self.old ≤ faults self.new }
        ensures bound { IfOk result (λ n. n ≤ length piece.now) }
        ensures some { 0 < length piece.now → IfOk result (λ n. 0 < n) }
        ensures sent { IfOk result (λ n. Sent (given self.old) (take n piece.now) (given self.new)) }
        ensures unsent { OnErr result (given self.new ≡ given self.old) }
        ensures failed { result ≡ Err PutError.Failed → Rose (faults self.old) (faults self.new) };
}
