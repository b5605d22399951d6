//! Bodies that are tested together, as they are read for an instance.
ghost use Rattle.std.specs.Prelude.{◌≡◌, IfOk, map};
ghost use Rattle.value_indices.specs.Walking.{begun, steps_read};
ghost use Rattle.size_splits.specs.Bodies.{body_read};
ghost use Rattle.monomorph.specs.Lasts.{model_in};
ghost use Rattle.monomorph.specs.Reading.{inside_of};
ghost use Rattle.tabled_cores.specs.Bodies as spec;
ghost use Rattle.tabled_cores.specs.Cores as cores;

use monomorph::{Inside, Model};
use sail_base::Items;
use size_splits::{BodySteps, follow_telling};
use size_values::Sized;
use sized_nodes::Instance;
use split_combinations::splits;
use std::alloc::{AllocError, Global};
use tabled_cores::{both, call_tested, made_tested, type_given};
use value_indices::{Fact, Step};

/// Whether a step is so under these facts. It fails where memory is wanting.
fn step_tabled(
    alloc: Global,
    given: bool,
    inside: &Inside<'_>,
    list: &[Instance],
    facts: &[Fact],
    step: &Step,
) -> Result<bool, AllocError>
    ensures { IfOk result (λ tabled. tabled ≡ spec.step_tabled given list.now (inside_of inside.now) facts.now step.now) }
{
    match step {
        Step::Sizes(_, made) => type_given(alloc, inside, facts, made),
        Step::Makes(_, operands, made) => {
            made_tested(alloc, given, inside, facts, operands.as_slice(), made)
        }
        Step::Calls(_, _, operands, callee, numbers, types) => call_tested(
            alloc,
            inside,
            list,
            facts,
            operands.as_slice(),
            callee,
            numbers.as_slice(),
            types.as_slice(),
        ),
        _ => Ok(true),
    }
}

/// Whether all steps are so, in order. It fails where memory is wanting.
fn steps_tabled(
    alloc: Global,
    given: bool,
    inside: &Inside<'_>,
    list: &[Instance],
    steps: &[Step],
) -> Result<bool, AllocError>
    ensures { IfOk result (λ tabled. tabled ≡ spec.notes_tabled given list.now (inside_of inside.now) (steps_read (begun 0) steps.now).notes) }
{
    let mut tested = true;
    let mut facts = Vec::new(alloc);
    let mut marks = Items::new(alloc);
    for at in 0..steps.len() {
        let step = &steps[at];
        let one = step_tabled(alloc, given, inside, list, facts.as_slice(), step)?;
        tested = both(tested, one);
        follow_telling(
            alloc,
            inside.numbers,
            inside.split,
            step,
            &mut facts,
            &mut marks,
        )?;
    }
    Ok(tested)
}

/// Whether a body is so, for these numbers and types. It fails where memory is wanting.
fn body_tabled(
    alloc: Global,
    given: bool,
    model: &Model<'_>,
    list: &[Instance],
    numbers: &[Option<i128>],
    own: &[Sized],
    body: &BodySteps,
) -> Result<bool, AllocError>
    ensures { IfOk result (λ tabled. tabled ≡ spec.body_tabled given (model_in model.now).core.types (model_in model.now).sizing numbers.now own.now
        list.now (body_read body.now)) }
{
    let types = &model.core.types;
    let split = splits(alloc, types, model.sizing, numbers, body)?;
    let inside = Inside {
        types,
        sizing: model.sizing,
        numbers,
        own,
        variables: body.variables,
        names: body.names.as_slice(),
        split: split.as_slice(),
    };
    steps_tabled(alloc, given, &inside, list, body.steps.as_slice())
}

/// Whether bodies that are read together are so, for these numbers and types. It fails where memory is wanting.
pub fn bodies_tabled(
    alloc: Global,
    given: bool,
    model: &Model<'_>,
    list: &[Instance],
    numbers: &[Option<i128>],
    own: &[Sized],
    bodies: &[BodySteps],
) -> Result<bool, AllocError>
    ensures { IfOk result (λ tabled. tabled ≡ spec.bodies_tabled given (model_in model.now).core.types (model_in model.now).sizing numbers.now own.now
        list.now (map body_read bodies.now)) }
{
    for body in bodies {
        if !body_tabled(alloc, given, model, list, numbers, own, body)? {
            return Ok(false);
        }
    }
    Ok(true)
}

/// Whether a body of no function is so. It fails where memory is wanting.
pub fn alone_tabled(
    alloc: Global,
    given: bool,
    model: &Model<'_>,
    list: &[Instance],
    body: &BodySteps,
) -> Result<bool, AllocError>
    ensures { IfOk result (λ tabled. tabled ≡ cores.alone_tabled given (model_in model.now) list.now (body_read body.now)) }
{
    body_tabled(alloc, given, model, list, &[], &[], body)
}
