//! Entailment from scratch.
ghost use Rattle.std.specs.Prelude.{◌≡◌, []};
ghost use Rattle.entail.specs.Standing.{counted, IsCounted};

use crate::Entail;
use farkas::{FarkasError, Verdict, discharge};
use linear::Problem;
use sail_base::Items;
use sail_types::{Con, copy_con};
use std::alloc::{AllocError, Global};

/// Facts that stand, all of which are turned into rows at each goal that is asked for.
pub struct Scratch {
    problem: Problem,
    count: u64,
}

impl Drop for Scratch {
    fn drop(self) {
        let Scratch {
            problem: _,
            count: _,
        } = self;
    }
}

impl Scratch {
    /// No fact.
    pub fn new(alloc: Global) -> Scratch
        ensures facts { ⟦<Scratch as Entail>⟧.facts result ≡ [] }
        ensures read { ⟦<Scratch as Entail>⟧.read result ≡ 0 }
    {
        Scratch {
            problem: Problem {
                facts: Items::new(alloc),
                goal: Con::Truth(true),
            },
            count: 0,
        }
    }
}

/// A count after an answer: so many more, unless memory is wanting.
fn count_after(answer: &Result<Verdict, FarkasError>, count: u64, more: usize) -> u64
    ensures { IsCounted answer.now count (counted count more) result }
{
    match answer {
        Ok(_) => count.saturating_add(more as u64),
        Err(FarkasError::RowLimit { variable: _ }) => count.saturating_add(more as u64),
        Err(FarkasError::NumberLimit) => count.saturating_add(more as u64),
        Err(FarkasError::CaseLimit { count: _ }) => count.saturating_add(more as u64),
        Err(FarkasError::OutOfMemory) => count,
    }
}

impl Entail for Scratch {
    ghost use Rattle.entail.specs.Standing.{counted};

    ghost facts = { λ scratch. scratch.problem.facts };

    ghost read = { λ scratch. scratch.count };

    ghost read_pushed = { λ count. count };

    ghost read_asked = { λ standing count. counted count standing };

    fn push(&mut self, alloc: Global, fact: Con) -> Result<(), AllocError> {
        self.problem.facts.push(fact)
    }

    fn pop(&mut self) {
        let _ = self.problem.facts.pop();
    }

    fn ask(&mut self, alloc: Global, goal: &Con) -> Result<Verdict, FarkasError> {
        self.problem.goal = copy_con(alloc, goal)?;
        let answer = discharge(alloc, &self.problem);
        self.count = count_after(&answer, self.count, self.problem.facts.len());
        answer
    }

    fn facts_read(&self) -> u64 {
        self.count
    }
}
