//! What is in force behind the steps of a walk.
ghost use Rattle.std.specs.Prelude.{◌≡◌, List, IfOk};
ghost use Rattle.value_indices.specs.Force.{IsInForce};
ghost use Rattle.value_indices.specs.declared.notes.Fact.{Fact as Known};
ghost use Rattle.value_indices.specs.Walking.{Written, begun, restored, forgotten, unclaimed, steps_read};

use crate::notes::{Fact, Step};
use sail_base::Items;
use std::alloc::{AllocError, Global};

/// What was remembered last is in force again, and nothing else.
pub fn restore(facts: &mut Vec<Fact>, marks: &mut Items<usize>)
    ensures { (w : Written) → IsInForce w facts.old.items marks.old → IsInForce (restored w) facts.new.items marks.new }
{
    if let Some(mark) = marks.pop() {
        facts.truncate(mark);
    }
}

/// What was remembered last is forgotten; what is in force stays so.
pub fn forget(marks: &mut Items<usize>)
    ensures { (w : Written) (facts : List Known) → IsInForce w facts marks.old → IsInForce (forgotten w) facts marks.new }
{
    match marks.pop() {
        None => {}
        Some(_) => {}
    }
}

/// The condition that was claimed last is in force no more.
pub fn unclaim(facts: &mut Vec<Fact>, marks: &mut Items<usize>)
    ensures { (w : Written) → IsInForce w facts.old.items marks.old → IsInForce (unclaimed w) facts.new.items marks.new }
{
    if let Some(mark) = marks.pop() {
        if mark < facts.len() {
            let _ = facts.remove(mark);
        }
    }
}

/// The facts that are in force behind these steps. It fails where memory is wanting.
#[tactic(auto, using(crate::proofs::Forced::none_in_force, crate::proofs::Written::steps_behind))]
pub fn facts_of(alloc: Global, steps: Items<Step>) -> Result<Items<Fact>, AllocError>
    ensures { IfOk result (λ facts. facts ≡ (steps_read (begun 0) steps).facts) }
{
    let mut facts = Vec::new(alloc);
    let mut marks = Items::new(alloc);
    for step in steps.into_vec() {
        step.read(&mut facts, &mut marks)?;
    }
    Ok(Items::from_vec(facts))
}
