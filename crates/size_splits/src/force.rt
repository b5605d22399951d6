//! What is in force behind steps that are kept.
ghost use Rattle.std.specs.Prelude.{◌≡◌, List, OnOk};
ghost use Rattle.value_indices.specs.Force.{IsInForce};
ghost use Rattle.value_indices.specs.declared.notes.Fact.{Fact as Known};
ghost use Rattle.value_indices.specs.Walking.{Written, restored, forgotten, unclaimed, step_read};

use sail_base::Items;
use sail_types::copy_con;
use std::alloc::{AllocError, Global};
use value_indices::{Fact, Step, copy_fact};

/// What was remembered last is in force again, and nothing else.
fn restore(facts: &mut Vec<Fact>, marks: &mut Items<usize>)
    ensures { (w : Written) → IsInForce w facts.old.items marks.old → IsInForce (restored w) facts.new.items marks.new }
{
    if let Some(mark) = marks.pop() {
        facts.truncate(mark);
    }
}

/// What was remembered last is forgotten; what is in force stays so.
fn forget(marks: &mut Items<usize>)
    ensures { (w : Written) (facts : List Known) → IsInForce w facts marks.old → IsInForce (forgotten w) facts marks.new }
{
    match marks.pop() {
        None => {}
        Some(_) => {}
    }
}

/// The condition that was claimed last is in force no more.
fn unclaim(facts: &mut Vec<Fact>, marks: &mut Items<usize>)
    ensures { (w : Written) → IsInForce w facts.old.items marks.old → IsInForce (unclaimed w) facts.new.items marks.new }
{
    if let Some(mark) = marks.pop() {
        if mark < facts.len() {
            let _ = facts.remove(mark);
        }
    }
}

/// What is in force behind this step, too, which is kept. It fails where memory is wanting.
pub fn follow(
    alloc: Global,
    step: &Step,
    facts: &mut Vec<Fact>,
    marks: &mut Items<usize>,
) -> Result<(), AllocError>
    ensures { OnOk result ((w : Written) → IsInForce w facts.old.items marks.old → IsInForce (step_read w step.now) facts.new.items marks.new) }
{
    match step {
        Step::Assumes(fact) => facts.push(copy_fact(alloc, fact)?)?,
        Step::Remembers => marks.push(facts.len())?,
        Step::Restores => restore(facts, marks),
        Step::Forgets => forget(marks),
        Step::Claims(con) => {
            let con = copy_con(alloc, con)?;
            marks.push(facts.len())?;
            facts.push(Fact::Holds(con))?;
        }
        Step::Unclaims => unclaim(facts, marks),
        _ => {}
    }
    Ok(())
}
