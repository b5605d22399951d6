//! Entailment that keeps what each fact adds.
ghost use Rattle.std.specs.Prelude.{◌≡◌, [], IfOk};

use crate::Entail;
use crate::answering::answer_at;
use crate::level::{Level, Prefix, first_level, last_level, next_level};
use farkas::{FarkasError, Verdict};
use sail_base::Items;
use sail_types::Con;
use std::alloc::{AllocError, Global};
use std::marker::Model;

/// Facts that stand, each with what is kept of it and of those before it: their variables, and of each of their alternatives the rows
/// that are kept. So a fact is turned into rows once, as it is pushed, however many goals are asked for.
pub struct Kept {
    first: Level,
    prefixes: Items<Prefix>,
    count: u64,
}

impl Drop for Kept {
    fn drop(self) {
        let Kept {
            first: _,
            prefixes: _,
            count: _,
        } = self;
    }
}

impl Model for Kept {
    ghost use Rattle.std.specs.Prelude.{◌≡◌, []};
    ghost use Rattle.std.specs.Coded.{codes};
    ghost use Rattle.sail_types.specs.contracts.numbers.Con as con;
    ghost use Rattle.entail.specs.Standing.{Standing};

    ghost Value = { Standing };

    ghost coded = { Prim.hlevel (codes, con.the_row.coded) };

    ghost use Rattle.entail.specs.Levels.{facts_of, level_of, AreKept};

    ghost view = { λ kept. record { facts = facts_of kept.prefixes; read = kept.count } };

    ghost invariant = { λ kept. record { none : kept.first ≡ level_of []; each : AreKept [] kept.prefixes } };
}

impl Kept {
    /// No fact. The one error is want of memory.
    pub fn new(alloc: Global) -> Result<Kept, AllocError>
        ensures facts { IfOk result (λ kept. ⟦<Kept as Entail>⟧.facts kept ≡ []) }
        ensures read { IfOk result (λ kept. ⟦<Kept as Entail>⟧.read kept ≡ 0) }
    {
        Ok(Kept {
            first: first_level(alloc)?,
            prefixes: Items::new(alloc),
            count: 0,
        })
    }
}

impl Entail for Kept {
    ghost use Rattle.entail.specs.Standing.{counted};

    ghost facts = { λ kept. kept.facts };

    ghost read = { λ kept. kept.read };

    ghost read_pushed = { λ count. counted count 1 };

    ghost read_asked = { λ standing count. count };

    fn push(&mut self, alloc: Global, fact: Con) -> Result<(), AllocError> {
        let level = next_level(
            alloc,
            last_level(&self.first, self.prefixes.as_slice()),
            &fact,
        )?;
        self.prefixes.push(Prefix { fact, level })?;
        self.count = self.count.saturating_add(1);
        Ok(())
    }

    fn pop(&mut self) {
        let _ = self.prefixes.pop();
    }

    fn ask(&mut self, alloc: Global, goal: &Con) -> Result<Verdict, FarkasError> {
        answer_at(
            alloc,
            last_level(&self.first, self.prefixes.as_slice()),
            goal,
        )
    }

    fn facts_read(&self) -> u64 {
        self.count
    }
}
