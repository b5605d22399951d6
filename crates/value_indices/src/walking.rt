//! A walk over a definition, as it is written down.
ghost use Rattle.std.specs.Prelude.{◌≡◌, suc, [], ◌∷◌, IfOk, OnOk};
ghost use Rattle.value_indices.specs.Steps as steps;
ghost use Rattle.value_indices.specs.Walking as walk;

use crate::conditions::conjunction;
use crate::force::facts_of;
use crate::indices::{Indices, Reading};
use crate::notes::{Fact, Made, Step};
use sail_base::{Items, Place, Text};
use sail_core::{Callee, Giver};
use sail_types::{Con, Index};
use std::alloc::{AllocError, Global};

/// What a walk over a definition has written down so far. A note takes one step, however many facts are in force there.
///
/// Contracts see it by `seen`: the facts in force, those that are remembered, the number of the next variable, and the notes. What a
/// walk makes of it is `run`, and what the walk gives is `got`. Each method that writes fails where memory is wanting; what is
/// written down then is not said.
#[derive(Drop)]
pub struct Walking {
    /// The steps, in order.
    pub steps: Items<Step>,
    /// The number of the next variable.
    pub next: u32,
}

impl Walking {
    /// Nothing is written down yet, and variables are counted from this number on. It takes no memory.
    #[tactic(auto, unfolding(crate::specs::Walking::seen))]
    pub fn new(alloc: Global, next: u32) -> Walking
        ensures { walk.seen result ≡ walk.begun next }
    {
        Walking {
            steps: Items::new(alloc),
            next,
        }
    }

    /// The number of the next variable.
    #[tactic(auto, unfolding(crate::specs::Walking::seen))]
    pub fn next(&self) -> u32
        ensures { result ≡ (walk.seen self.now).next }
    {
        self.next
    }

    /// Writes down one step more.
    #[tactic(auto, using(crate::proofs::Written::step_written))]
    fn write(&mut self, step: Step) -> Result<(), AllocError>
        ensures { OnOk result (walk.seen self.new ≡ walk.step_read (walk.seen self.old) step) }
    {
        self.steps.push(step)
    }

    /// A fact comes into force.
    #[tactic(auto, using(crate::proofs::Methods::fact_read))]
    pub fn assume_fact(&mut self, fact: Fact) -> Result<(), AllocError>
        ensures { OnOk result (walk.seen self.new ≡ walk.with_facts (fact ∷ []) (walk.seen self.old)) }
    {
        self.write(Step::Assumes(fact))
    }

    /// These facts come into force, in order.
    #[tactic(auto, using(crate::proofs::Methods::more_facts))]
    pub fn assume_facts(&mut self, facts: Items<Fact>) -> Result<(), AllocError>
        ensures { OnOk result (walk.seen self.new ≡ walk.with_facts facts (walk.seen self.old)) }
    {
        for fact in facts.into_vec() {
            self.assume_fact(fact)?;
        }
        Ok(())
    }

    /// Variables are counted from this number on.
    #[tactic(auto, using(crate::proofs::Written::count_written))]
    pub fn count_from(&mut self, next: u32)
        ensures { walk.seen self.new ≡ walk.counted_from next (walk.seen self.old) }
    {
        self.next = next;
    }

    /// A condition comes into force.
    #[tactic(auto, using(crate::proofs::Methods::assume_read))]
    pub fn assume(&mut self, condition: Con) -> Result<(), AllocError>
        ensures { OnOk result (walk.seen self.new ≡ walk.run (steps.assume condition) (walk.seen self.old)) }
    {
        self.write(Step::Assumes(Fact::Holds(condition)))
    }

    /// The number of a variable is noted from here on.
    #[tactic(auto, using(crate::proofs::Methods::given_read))]
    pub fn give_number(&mut self, variable: u32) -> Result<(), AllocError>
        ensures { OnOk result (walk.seen self.new ≡ walk.run (steps.give_number variable) (walk.seen self.old)) }
    {
        self.write(Step::Assumes(Fact::IsGiven(variable)))
    }

    /// A condition comes into force, where it can be said.
    #[tactic(auto, using(crate::proofs::Walks::run_give))]
    pub fn assume_if(&mut self, condition: Option<Con>) -> Result<(), AllocError>
        ensures { OnOk result (walk.seen self.new ≡ walk.run (steps.assume_if condition) (walk.seen self.old)) }
    {
        match condition {
            None => Ok(()),
            Some(condition) => self.assume(condition),
        }
    }

    /// Each of these conditions comes into force, where it can be said.
    #[tactic(auto, using(crate::proofs::Methods::one_assumed))]
    pub fn assume_all(&mut self, conditions: Items<Option<Con>>) -> Result<(), AllocError>
        ensures { OnOk result (walk.seen self.new ≡ walk.run (steps.assume_all conditions) (walk.seen self.old)) }
    {
        for condition in conditions.into_vec() {
            self.assume_if(condition)?;
        }
        Ok(())
    }

    /// The number of the next variable, which is taken.
    #[tactic(auto, using(crate::proofs::Written::next_seen, crate::proofs::Written::taken_written))]
    fn take(&mut self) -> Result<u32, AllocError>
        ensures value { IfOk result (λ variable. variable ≡ (walk.seen self.old).next) }
        ensures walked { OnOk result (walk.seen self.new ≡ walk.counted_from (suc (walk.seen self.old).next) (walk.seen self.old)) }
    {
        let variable = self.next;
        match variable.checked_add(1) {
            None => Err(AllocError),
            Some(next) => {
                self.next = next;
                Ok(variable)
            }
        }
    }

    /// The number of the next variable, which is taken and has no name. It fails past the largest one, too.
    #[tactic(auto, using(crate::proofs::Methods::got_fresh, crate::proofs::Methods::fresh_taken))]
    pub fn fresh(&mut self) -> Result<u32, AllocError>
        ensures value { IfOk result (λ variable. variable ≡ walk.got steps.fresh (walk.seen self.old)) }
        ensures walked { OnOk result (walk.seen self.new ≡ walk.run steps.fresh (walk.seen self.old)) }
    {
        self.take()
    }

    /// The number of the next variable, which is taken and has this name. It fails past the largest one, too.
    #[tactic(auto, using(crate::proofs::Methods::got_named, crate::proofs::Methods::named_taken))]
    pub fn fresh_named(&mut self, name: Text) -> Result<u32, AllocError>
        ensures value { IfOk result (λ variable. variable ≡ walk.got (steps.fresh_named name) (walk.seen self.old)) }
        ensures walked { OnOk result (walk.seen self.new ≡ walk.run (steps.fresh_named name) (walk.seen self.old)) }
    {
        let variable = self.take()?;
        self.write(Step::Names(variable, name))?;
        Ok(variable)
    }

    /// What is in force is remembered.
    pub fn remember(&mut self) -> Result<(), AllocError>
        ensures { OnOk result (walk.seen self.new ≡ walk.remembering (walk.seen self.old)) }
    {
        self.write(Step::Remembers)
    }

    /// What was remembered last is in force again, and nothing else.
    pub fn restore(&mut self) -> Result<(), AllocError>
        ensures { OnOk result (walk.seen self.new ≡ walk.restored (walk.seen self.old)) }
    {
        self.write(Step::Restores)
    }

    /// What was remembered last is forgotten; what is in force stays so.
    pub fn forget(&mut self) -> Result<(), AllocError>
        ensures { OnOk result (walk.seen self.new ≡ walk.forgotten (walk.seen self.old)) }
    {
        self.write(Step::Forgets)
    }

    /// What is in force is remembered, and a condition comes into force.
    pub fn claim(&mut self, condition: Con) -> Result<(), AllocError>
        ensures { OnOk result (walk.seen self.new ≡ walk.claiming condition (walk.seen self.old)) }
    {
        self.write(Step::Claims(condition))
    }

    /// The condition that was claimed last is in force no more; what came into force behind it stays so.
    pub fn unclaim(&mut self) -> Result<(), AllocError>
        ensures { OnOk result (walk.seen self.new ≡ walk.unclaimed (walk.seen self.old)) }
    {
        self.write(Step::Unclaims)
    }

    /// All of these are owed as one condition, under what is in force; nothing where there are none.
    #[tactic(auto, using(crate::proofs::Methods::owed_none, crate::proofs::Methods::owed_read_of))]
    pub fn owe(
        &mut self,
        alloc: Global,
        place: Place,
        conditions: Items<Option<Con>>,
    ) -> Result<(), AllocError>
        ensures { OnOk result (walk.seen self.new ≡ walk.run (steps.owe place conditions) (walk.seen self.old)) }
    {
        if conditions.is_empty() {
            return Ok(());
        }
        let all = conjunction(alloc, conditions)?;
        self.write(Step::Owes(place, all))
    }

    /// All of these are owed as one condition, under what was remembered last and so many of the newest facts in force; nothing where
    /// there are none.
    #[tactic(auto, using(crate::proofs::Methods::earlier_none, crate::proofs::Methods::earlier_read_of))]
    pub fn owe_recalled(
        &mut self,
        alloc: Global,
        place: Place,
        recent: usize,
        conditions: Items<Option<Con>>,
    ) -> Result<(), AllocError>
        ensures { OnOk result (walk.seen self.new ≡ walk.run (steps.owe_under (walk.recalled recent (walk.seen self.old)) place conditions) (walk.seen self.old)) }
    {
        if conditions.is_empty() {
            return Ok(());
        }
        let all = conjunction(alloc, conditions)?;
        self.write(Step::OwesEarlier(place, recent, all))
    }

    /// All of these are owed as one condition, under what was remembered last; nothing where there are none.
    #[tactic(auto, using(crate::proofs::Walks::recalled_none))]
    pub fn owe_earlier(
        &mut self,
        alloc: Global,
        place: Place,
        conditions: Items<Option<Con>>,
    ) -> Result<(), AllocError>
        ensures { OnOk result (walk.seen self.new ≡ walk.run (steps.owe_under (walk.remembered_last (walk.seen self.old)) place conditions) (walk.seen self.old)) }
    {
        self.owe_recalled(alloc, place, 0, conditions)
    }

    /// What is false is owed: of a part that no model that was resolved has there.
    pub fn wrong(&mut self, alloc: Global, place: Place) -> Result<(), AllocError>
        ensures { OnOk result (walk.seen self.new ≡ walk.run (steps.wrong place) (walk.seen self.old)) }
    {
        let mut conditions = Items::new(alloc);
        conditions.push(Some(Con::Truth(false)))?;
        self.owe(alloc, place, conditions)
    }

    /// Notes the sizes of what is made at a place.
    pub fn note_sizes(&mut self, place: Place, made: Made) -> Result<(), AllocError>
        ensures { OnOk result (walk.seen self.new ≡ walk.run (steps.note (λ facts. steps.size_note facts place made)) (walk.seen self.old)) }
    {
        self.write(Step::Sizes(place, made))
    }

    /// Notes what the node of a number makes of its operands.
    pub fn note_made(
        &mut self,
        number: u32,
        operands: Items<Indices>,
        made: Made,
    ) -> Result<(), AllocError>
        ensures { OnOk result (walk.seen self.new ≡ walk.run (steps.note (λ facts. steps.made_note facts number operands made)) (walk.seen self.old)) }
    {
        self.write(Step::Makes(number, operands, made))
    }

    /// Notes what the node of a number, at a place, calls of its operands, for these numbers and types.
    pub fn note_call(
        &mut self,
        place: Place,
        number: u32,
        operands: Items<Indices>,
        callee: Callee,
        numbers: Items<Index>,
        types: Items<Reading>,
    ) -> Result<(), AllocError>
        ensures { OnOk result (walk.seen self.new
            ≡ walk.run (steps.note (λ facts. steps.call_note facts place number operands callee numbers types)) (walk.seen self.old)) }
    {
        self.write(Step::Calls(place, number, operands, callee, numbers, types))
    }

    /// Notes a direction of a mapping in a pattern.
    pub fn note_way(&mut self, direction: u32) -> Result<(), AllocError>
        ensures { OnOk result (walk.seen self.new ≡ walk.run (steps.note (λ facts. steps.way_note facts direction)) (walk.seen self.old)) }
    {
        self.write(Step::Converts(direction))
    }

    /// Notes what gives the numbers of opened variables.
    pub fn note_given(&mut self, giver: Giver, indices: Indices) -> Result<(), AllocError>
        ensures { OnOk result (walk.seen self.new ≡ walk.run (steps.note (λ facts. steps.given_note facts giver indices)) (walk.seen self.old)) }
    {
        self.write(Step::Gives(giver, indices))
    }

    /// The facts that are in force at the end. It fails where memory is wanting.
    #[tactic(auto, unfolding(crate::specs::Walking::seen))]
    pub fn into_facts(self, alloc: Global) -> Result<Items<Fact>, AllocError>
        ensures { IfOk result (λ facts. facts ≡ (walk.seen self).facts) }
    {
        let Walking { steps, next: _ } = self;
        facts_of(alloc, steps)
    }

    /// The steps, in order. It takes no memory.
    pub fn into_steps(self) -> Items<Step>
        ensures { result ≡ self.steps }
    {
        let Walking { steps, next: _ } = self;
        steps
    }
}
