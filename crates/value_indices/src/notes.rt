//! What a walk over a definition writes down: what comes into force and ends, and what is noted.
ghost use Rattle.std.specs.Prelude.{◌≡◌, OnOk};
ghost use Rattle.value_indices.specs.Force.{IsInForce};
ghost use Rattle.value_indices.specs.Steps.{condition_of};
ghost use Rattle.value_indices.specs.Walking.{Written, step_read};

use crate::force::{forget, restore, unclaim};
use crate::indices::{Indices, Reading};
use sail_base::{Items, Place, Text};
use sail_core::{Callee, Giver};
use sail_types::{Con, Index};
use std::alloc::AllocError;

/// What is in force.
pub enum Fact {
    /// A condition.
    Holds(Con),
    /// That the number of a variable is noted.
    IsGiven(u32),
}

impl Drop for Fact {
    fn drop(self) {
        match self {
            Fact::Holds(_) => {}
            Fact::IsGiven(_) => {}
        }
    }
}

impl Fact {
    /// The condition, if it is one.
    pub fn into_condition(self) -> Option<Con>
        ensures { result ≡ condition_of self }
    {
        match self {
            Fact::Holds(condition) => Some(condition),
            Fact::IsGiven(_) => None,
        }
    }
}

/// What a node makes: a value of such indices, or of a type, before it is opened or where it is wanted.
pub enum Made {
    /// A value of these indices.
    ByIndices(Indices),
    /// A value of this type.
    ByType(Reading),
}

impl Drop for Made {
    fn drop(self) {
        match self {
            Made::ByIndices(_) => {}
            Made::ByType(_) => {}
        }
    }
}

/// A step of a walk. A note is under the facts that are in force where it stands among the steps.
pub enum Step {
    /// A fact comes into force.
    Assumes(Fact),
    /// What is in force is remembered.
    Remembers,
    /// What was remembered last is in force again, and nothing else.
    Restores,
    /// What was remembered last is forgotten; what is in force stays so.
    Forgets,
    /// What is in force is remembered, and a condition comes into force.
    Claims(Con),
    /// The condition that was claimed last is in force no more; what came into force behind it stays so.
    Unclaims,
    /// An obligation at a place.
    Owes(Place, Con),
    /// An obligation at a place, under what was remembered last and so many of the newest facts in force.
    OwesEarlier(Place, usize, Con),
    /// The sizes of what is made at a place.
    Sizes(Place, Made),
    /// The node of this number makes this of its operands.
    Makes(u32, Items<Indices>, Made),
    /// The node of this number, at this place, calls this of its operands, for these numbers and types.
    Calls(Place, u32, Items<Indices>, Callee, Items<Index>, Items<Reading>),
    /// A direction of a mapping in a pattern.
    Converts(u32),
    /// The numbers of opened variables are given, by a node's value or by what an arm's names hold.
    Gives(Giver, Indices),
    /// A variable has this name.
    Names(u32, Text),
}

impl Drop for Step {
    fn drop(self) {
        match self {
            Step::Assumes(_) => {}
            Step::Remembers => {}
            Step::Restores => {}
            Step::Forgets => {}
            Step::Claims(_) => {}
            Step::Unclaims => {}
            Step::Owes(_, _) => {}
            Step::OwesEarlier(_, _, _) => {}
            Step::Sizes(_, _) => {}
            Step::Makes(_, _, _) => {}
            Step::Calls(_, _, _, _, _, _) => {}
            Step::Converts(_) => {}
            Step::Gives(_, _) => {}
            Step::Names(_, _) => {}
        }
    }
}

impl Step {
    /// What is in force behind this step, too. It fails where memory is wanting.
    pub fn read(self, facts: &mut Vec<Fact>, marks: &mut Items<usize>) -> Result<(), AllocError>
        ensures { OnOk result ((w : Written) → IsInForce w facts.old.items marks.old → IsInForce (step_read w self) facts.new.items marks.new) }
    {
        match self {
            Step::Assumes(fact) => facts.push(fact)?,
            Step::Remembers => marks.push(facts.len())?,
            Step::Restores => restore(facts, marks),
            Step::Forgets => forget(marks),
            Step::Claims(con) => {
                marks.push(facts.len())?;
                facts.push(Fact::Holds(con))?;
            }
            Step::Unclaims => unclaim(facts, marks),
            _ => {}
        }
        Ok(())
    }
}
