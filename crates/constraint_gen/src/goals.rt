//! What is owed, read off the steps of a walk.
ghost use Rattle.std.specs.Prelude.{◌≡◌, ◌++◌, ◌∷◌, [], List, OnOk, length, take};
ghost use Rattle.value_indices.specs.declared.notes.Fact.{Fact as Known};
ghost use Rattle.value_indices.specs.Force.{IsInForce};
ghost use Rattle.value_indices.specs.Walking.{Written, begun, earlier, seen, step_read, steps_read};
ghost use Rattle.fact_index.specs.Filed.{IsFiled};
ghost use Rattle.obligations.specs.Owed.{owed};
ghost use Rattle.constraint_gen.specs.Obligations.{goals_in};
ghost use Rattle.constraint_gen.specs.Reading.{step_goals, obligations_of};

use crate::naming::names_of;
use fact_index::{facts_for, file, unfile};
use obligations::{Obligation, owed};
use sail_base::{Items, Place, Text};
use sail_types::{Con, copy_con};
use std::alloc::{AllocError, Global};
use value_indices::{Fact, Step, Walking};

/// How many facts were in force where what is in force was remembered last; none where nothing was.
fn remembered(marks: &[usize]) -> usize
    ensures { (w : Written) (facts : List Known) → IsInForce w facts marks.now → take result facts ≡ earlier w.remembered }
{
    match marks.last() {
        None => 0,
        Some(mark) => *mark,
    }
}

/// Puts an obligation under these facts. The one error is want of memory.
fn push_goal(
    alloc: Global,
    made: &mut Items<Obligation>,
    names: &[Text],
    facts: &[Con],
    goal: &Con,
    place: Place,
) -> Result<(), AllocError>
    ensures { OnOk result (made.new ≡ made.old ++ owed names.now facts.now goal.now place ∷ []) }
{
    let goal = copy_con(alloc, goal)?;
    made.push(owed(alloc, names, facts, goal, place)?)
}

/// Puts what a step owes where these facts are in force, filed in these lists. The one error is want of memory.
fn push_step(
    alloc: Global,
    made: &mut Items<Obligation>,
    names: &[Text],
    lists: &[Items<usize>],
    facts: &[Fact],
    marks: &[usize],
    step: &Step,
) -> Result<(), AllocError>
    ensures { (w : Written) → IsInForce w facts.now marks.now → IsFiled facts.now lists.now
        → OnOk result (made.new ≡ made.old ++ step_goals names.now w step.now) }
{
    match step {
        Step::Owes(place, goal) => {
            let known = facts_for(alloc, lists, facts, 0, 0, goal)?;
            push_goal(alloc, made, names, known.as_slice(), goal, *place)
        }
        Step::OwesEarlier(place, recent, goal) => {
            let since = facts.len().saturating_sub(*recent);
            let known = facts_for(alloc, lists, facts, remembered(marks), since, goal)?;
            push_goal(alloc, made, names, known.as_slice(), goal, *place)
        }
        _ => Ok(()),
    }
}

/// How many of so many facts in force stay where they are behind a step: those before the last mark where it ends what came behind it.
fn kept_behind(step: &Step, count: usize, marks: &[usize]) -> usize
    ensures { (w : Written) (facts : List Known) → IsInForce w facts marks.now → length facts ≡ count
        → take result (step_read w step.now).facts ≡ take result facts }
{
    match step {
        Step::Restores => remembered(marks),
        Step::Unclaims => remembered(marks),
        _ => count,
    }
}

/// What is in force behind a step, filed. The one error is want of memory.
fn read_step(
    alloc: Global,
    lists: &mut Vec<Items<usize>>,
    facts: &mut Vec<Fact>,
    marks: &mut Items<usize>,
    step: Step,
) -> Result<(), AllocError>
    ensures force { OnOk result ((w : Written) → IsInForce w facts.old.items marks.old → IsInForce (step_read w step) facts.new.items marks.new) }
    ensures filed { OnOk result ((w : Written) → IsInForce w facts.old.items marks.old → IsFiled facts.old.items lists.old.items
        → IsFiled facts.new.items lists.new.items) }
{
    let kept = kept_behind(&step, facts.len(), marks.as_slice());
    unfile(alloc, lists, facts.as_slice(), kept)?;
    step.read(facts, marks)?;
    file(alloc, lists, facts.as_slice(), kept)
}

/// Puts what the steps of a walk owe, whose variables have these names. The one error is want of memory.
fn push_steps(
    alloc: Global,
    made: &mut Items<Obligation>,
    names: &[Text],
    steps: Items<Step>,
) -> Result<(), AllocError>
    ensures { OnOk result (made.new ≡ made.old ++ goals_in names.now (steps_read (begun 0) steps).notes) }
{
    let mut lists = Vec::new(alloc);
    let mut facts = Vec::new(alloc);
    let mut marks = Items::new(alloc);
    for step in steps.into_vec() {
        push_step(
            alloc,
            made,
            names,
            lists.as_slice(),
            facts.as_slice(),
            marks.as_slice(),
            &step,
        )?;
        read_step(alloc, &mut lists, &mut facts, &mut marks, step)?;
    }
    Ok(())
}

/// Puts the obligations of what a walk has written down. The one error is want of memory.
pub fn push_obligations(
    alloc: Global,
    made: &mut Items<Obligation>,
    walking: Walking,
) -> Result<(), AllocError>
    ensures { OnOk result (made.new ≡ made.old ++ obligations_of (seen walking)) }
{
    let count = walking.next();
    let steps = walking.into_steps();
    let names = names_of(alloc, count, steps.as_slice())?;
    push_steps(alloc, made, names.as_slice(), steps)
}
