//! The trait of entailment.
ghost use Rattle.std.specs.Prelude.{◌≡◌, ℕ, ◌-◌, ◌<◌, List, [], ◌∷◌, ◌++◌, length, take, OnOk, OnErr};
ghost use Rattle.sail_types.specs.declared.numbers.Con.{Con};
ghost use Rattle.farkas.specs.Problems.{discharged, IsShown};
ghost use Rattle.farkas.specs.Verdicts.{IsAnswer};
ghost use Rattle.entail.specs.Standing.{problem_of, IsCounted};

use farkas::{FarkasError, Verdict};
use sail_types::Con;
use std::alloc::{AllocError, Global};

/// Facts that stand on one another, and whether they imply a goal.
///
/// After any calls of `push` and `pop`, `ask` answers what [`farkas::discharge`] does of the facts that stand, whichever body it has:
/// the same certificate, point or limit.
pub trait Entail {
    /// The facts that stand, in the order in which they were pushed.
    ghost facts: { Self → List Con };

    /// How many facts were turned into rows so far, cut off at 2^64 - 1.
    ghost read: { Self → ℕ };

    /// That count once a fact is pushed.
    ghost read_pushed: { ℕ → ℕ };

    /// That count once a goal is asked for where so many facts stand.
    ghost read_asked: { ℕ → ℕ → ℕ };

    /// Puts a fact on those that stand. The one error is want of memory, at which nothing changes: each limit comes at `ask`.
    fn push(&mut self, alloc: Global, fact: Con) -> Result<(), AllocError>
        ensures pushed { OnOk result (facts self.new ≡ facts self.old ++ fact ∷ []) }
        ensures counted { OnOk result (read self.new ≡ read_pushed (read self.old)) }
        ensures unchanged { OnErr result (facts self.new ≡ facts self.old) }
        ensures uncounted { OnErr result (read self.new ≡ read self.old) };

    /// Takes away the fact that was pushed last of those that stand; there is one.
    fn pop(&mut self)
        requires { 0 < length (facts self.old) }
        ensures left { facts self.new ≡ take (length (facts self.old) - 1) (facts self.old) }
        ensures uncounted { read self.new ≡ read self.old };

    /// Whether the facts that stand imply a goal, as [`farkas::discharge`] answers. Where memory is wanting nothing is counted.
    fn ask(&mut self, alloc: Global, goal: &Con) -> Result<Verdict, FarkasError>
        ensures answer { IsAnswer result (discharged (problem_of (facts self.old) goal.now)) }
        ensures shown { IsShown (problem_of (facts self.old) goal.now) result }
        ensures same { facts self.new ≡ facts self.old }
        ensures counted { IsCounted result (read self.old) (read_asked (length (facts self.old)) (read self.old)) (read self.new) };

    /// How many facts were turned into rows so far, cut off at 2^64 - 1.
    fn facts_read(&self) -> u64
        ensures { result ≡ read self.now };
}
