//! The steps of walks, one after the other, with the sizes of written types among them.
ghost use Rattle.std.specs.Prelude.{◌≡◌, ◌++◌, IfOk, OnOk};
ghost use Rattle.value_indices.specs.Walking as walk;
ghost use Rattle.size_splits.specs.Bodies.{body_read};
ghost use Rattle.size_notes.specs.Reading as spec;

use crate::behind::Behind;
use constraint_gen::names_of;
use sail_base::Items;
use size_splits::BodySteps;
use std::alloc::{AllocError, Global};
use value_indices::{Made, Step, Walking, copy_indices};

/// Puts a size, if it is one behind the node of this number. It fails where memory is wanting.
fn push_size(
    alloc: Global,
    steps: &mut Items<Step>,
    number: u32,
    behind: &Behind,
) -> Result<(), AllocError>
    ensures { OnOk result (steps.new ≡ steps.old ++ spec.step_behind number behind.now) }
{
    if behind.number != number {
        return Ok(());
    }
    let size = copy_indices(alloc, &behind.written.size)?;
    steps.push(Step::Sizes(behind.written.place, Made::ByIndices(size)))
}

/// Puts the sizes that are read behind the node of a number. It fails where memory is wanting.
fn push_sizes(
    alloc: Global,
    steps: &mut Items<Step>,
    number: u32,
    behind: &[Behind],
) -> Result<(), AllocError>
    ensures { OnOk result (steps.new ≡ steps.old ++ spec.steps_behind number behind.now) }
{
    for one in behind {
        push_size(alloc, steps, number, one)?;
    }
    Ok(())
}

/// The number of the node that a step is about, if it is about one.
fn made_number(step: &Step) -> Option<u32>
    ensures { result ≡ spec.made_number step.now }
{
    match step {
        Step::Makes(number, _, _) => Some(*number),
        _ => None,
    }
}

/// Puts the sizes that are read behind a node, if there is one. It fails where memory is wanting.
fn push_sizes_at(
    alloc: Global,
    steps: &mut Items<Step>,
    number: Option<u32>,
    behind: &[Behind],
) -> Result<(), AllocError>
    ensures { OnOk result (steps.new ≡ steps.old ++ spec.steps_at number behind.now) }
{
    match number {
        None => Ok(()),
        Some(number) => push_sizes(alloc, steps, number, behind),
    }
}

/// Puts a step, and the sizes that are read behind its node. It fails where memory is wanting.
fn push_step(
    alloc: Global,
    steps: &mut Items<Step>,
    behind: &[Behind],
    step: Step,
) -> Result<(), AllocError>
    ensures { OnOk result (steps.new ≡ steps.old ++ spec.step_with behind.now step) }
{
    let number = made_number(&step);
    steps.push(step)?;
    push_sizes_at(alloc, steps, number, behind)
}

/// Puts steps, with the sizes that are read behind their nodes. It fails where memory is wanting.
fn push_steps(
    alloc: Global,
    steps: &mut Items<Step>,
    behind: &[Behind],
    more: Items<Step>,
) -> Result<(), AllocError>
    ensures { OnOk result (steps.new ≡ steps.old ++ spec.steps_with behind.now more) }
{
    for step in more.into_vec() {
        push_step(alloc, steps, behind, step)?;
    }
    Ok(())
}

/// Writes down a walk of its own, with the sizes that are read behind its nodes, behind others. It fails where memory is wanting.
pub fn append_alone(
    alloc: Global,
    body: &mut Walking,
    inner: Walking,
    behind: &[Behind],
) -> Result<(), AllocError>
    requires rest { spec.IsAtRest (walk.seen body.old) }
    requires ended { spec.IsAtRest (walk.seen inner) }
    ensures { OnOk result (walk.seen body.new ≡ spec.with_alone behind.now (walk.seen inner) (walk.seen body.old)) }
{
    let next = inner.next();
    push_steps(alloc, &mut body.steps, behind, inner.into_steps())?;
    body.count_from(next);
    Ok(())
}

/// What is read of a definition, from what is written down. It fails where memory is wanting.
pub fn ended_body(alloc: Global, walking: Walking) -> Result<BodySteps, AllocError>
    ensures { IfOk result (λ body. body_read body ≡ spec.body_seen (walk.seen walking)) }
{
    let variables = walking.next();
    let steps = walking.into_steps();
    let names = names_of(alloc, variables, steps.as_slice())?;
    Ok(BodySteps {
        steps,
        variables,
        names,
    })
}
