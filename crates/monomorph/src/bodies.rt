//! Bodies, read under an instance.
ghost use Rattle.std.specs.Prelude.{◌≡◌, List, IfOk};
ghost use Rattle.value_indices.specs.Walking.{begun, steps_read};
ghost use Rattle.size_splits.specs.Bodies.{body_read};
ghost use Rattle.monomorph.specs.declared.found.Found.{Found as Finds};
ghost use Rattle.monomorph.specs.Found.{outcome, over};
ghost use Rattle.monomorph.specs.Reading as spec;
ghost use Rattle.monomorph.specs.Steps as steps;

use crate::calls::{Call, add_direction, read_call};
use crate::error::MonoError;
use crate::found::Found;
use crate::inside::Inside;
use crate::refusals::sizes_refused;
use sail_base::{Items, Place};
use sail_types::Types;
use size_splits::{BodySteps, follow_telling, made_value, named_in};
use size_values::{Picked, Sized, Variables, value_sizes};
use split_combinations::{counted, splits};
use std::alloc::{AllocError, Global};
use value_indices::{Fact, Indices, Made, Step};

/// Reads the sizes of what is made where these numbers are taken. It fails where memory is wanting.
fn read_sizes(
    alloc: Global,
    inside: &Inside<'_>,
    place: Place,
    indices: &Indices,
    picked: &[Picked],
) -> Result<Option<MonoError>, AllocError>
    ensures { (found : List Finds) → IfOk result (λ refused. outcome refused found
        ≡ spec.read_sizes (spec.inside_of inside.now) place indices.now picked.now found) }
{
    let variables = Variables::Known(inside.numbers, picked);
    let sizes = value_sizes(alloc, inside.types, indices, &variables)?;
    sizes_refused(alloc, place, inside.names, sizes.as_slice())
}

/// Reads what is made under each of these combinations. It fails where memory is wanting.
fn read_each_size(
    alloc: Global,
    inside: &Inside<'_>,
    place: Place,
    indices: &Indices,
    combinations: &[Items<Picked>],
) -> Result<Option<MonoError>, AllocError>
    ensures { (found : List Finds) → IfOk result (λ refused. outcome refused found
        ≡ over (spec.read_sizes (spec.inside_of inside.now) place indices.now) combinations.now found) }
{
    for picked in combinations {
        match read_sizes(alloc, inside, place, indices, picked.as_slice())? {
            None => {}
            Some(refused) => return Ok(Some(refused)),
        }
    }
    Ok(None)
}

/// Reads what is made under each combination that counts. It fails where memory is wanting.
fn read_made(
    alloc: Global,
    inside: &Inside<'_>,
    facts: &[Fact],
    place: Place,
    made: &Made,
    named: Option<u32>,
) -> Result<Option<MonoError>, AllocError>
    ensures { (found : List Finds) → IfOk result (λ refused. outcome refused found
        ≡ spec.read_made (spec.inside_of inside.now) facts.now place made.now named found) }
{
    let value = made_value(alloc, inside.variables, made, named)?;
    let combinations = counted(
        alloc,
        inside.numbers,
        inside.split,
        facts,
        value.facts.as_slice(),
    )?;
    read_each_size(
        alloc,
        inside,
        place,
        &value.indices,
        combinations.as_slice(),
    )
}

/// Reads a call under each of these combinations. It fails where memory is wanting.
fn read_each_call(
    alloc: Global,
    inside: &Inside<'_>,
    call: &Call<'_>,
    combinations: &[Items<Picked>],
    found: &mut Items<Found>,
) -> Result<Option<MonoError>, AllocError>
    ensures { IfOk result (λ refused. outcome refused found.new ≡ over (spec.read_call (spec.inside_of inside.now) call.now.place
        call.now.operands.now call.now.callee call.now.numbers.now call.now.types.now) combinations.now found.old) }
{
    for picked in combinations {
        match read_call(alloc, inside, call, picked.as_slice(), found)? {
            None => {}
            Some(refused) => return Ok(Some(refused)),
        }
    }
    Ok(None)
}

/// Reads a call under each combination that counts. It fails where memory is wanting.
fn read_counted_call(
    alloc: Global,
    inside: &Inside<'_>,
    facts: &[Fact],
    call: &Call<'_>,
    found: &mut Items<Found>,
) -> Result<Option<MonoError>, AllocError>
    ensures { IfOk result (λ refused. outcome refused found.new ≡ spec.read_counted_call (spec.inside_of inside.now) facts.now call.now.place
        call.now.operands.now call.now.callee call.now.numbers.now call.now.types.now found.old) }
{
    let combinations = counted(alloc, inside.numbers, inside.split, facts, &[])?;
    read_each_call(alloc, inside, call, combinations.as_slice(), found)
}

/// Adds the mapping of a direction in a pattern under each of these combinations. It fails where memory is wanting.
fn read_each_way(
    direction: u32,
    combinations: &[Items<Picked>],
    found: &mut Items<Found>,
) -> Result<Option<MonoError>, AllocError>
    ensures { IfOk result (λ refused. outcome refused found.new ≡ over (spec.read_way direction) combinations.now found.old) }
{
    for _taken in combinations {
        match add_direction(found, direction)? {
            None => {}
            Some(refused) => return Ok(Some(refused)),
        }
    }
    Ok(None)
}

/// Adds the mapping of a direction in a pattern under each combination that counts. It fails where memory is wanting.
fn read_counted_way(
    alloc: Global,
    inside: &Inside<'_>,
    facts: &[Fact],
    direction: u32,
    found: &mut Items<Found>,
) -> Result<Option<MonoError>, AllocError>
    ensures { IfOk result (λ refused. outcome refused found.new ≡ spec.read_counted_way (spec.inside_of inside.now) facts.now direction found.old) }
{
    let combinations = counted(alloc, inside.numbers, inside.split, facts, &[])?;
    read_each_way(direction, combinations.as_slice(), found)
}

/// Reads what a step notes under these facts, where this type variable is named behind it. It fails where memory is wanting.
fn read_step(
    alloc: Global,
    inside: &Inside<'_>,
    facts: &[Fact],
    step: &Step,
    behind: &[Step],
    found: &mut Items<Found>,
) -> Result<Option<MonoError>, AllocError>
    ensures { IfOk result (λ refused. outcome refused found.new ≡ steps.read_step (spec.inside_of inside.now) facts.now step.now behind.now found.old) }
{
    match step {
        Step::Sizes(place, made) => {
            read_made(alloc, inside, facts, *place, made, named_in(behind))
        }
        Step::Calls(place, _, operands, callee, numbers, types) => {
            let call = Call {
                place: *place,
                operands: operands.as_slice(),
                callee: *callee,
                numbers: numbers.as_slice(),
                types: types.as_slice(),
            };
            read_counted_call(alloc, inside, facts, &call, found)
        }
        Step::Converts(direction) => read_counted_way(alloc, inside, facts, *direction, found),
        _ => Ok(None),
    }
}

/// Reads what steps note, in order. It fails where memory is wanting.
fn read_steps(
    alloc: Global,
    inside: &Inside<'_>,
    steps: &[Step],
    found: &mut Items<Found>,
) -> Result<Option<MonoError>, AllocError>
    ensures { IfOk result (λ refused. outcome refused found.new
        ≡ spec.read_notes (spec.inside_of inside.now) (steps_read (begun 0) steps.now).notes found.old) }
{
    let mut facts = Vec::new(alloc);
    let mut marks = Items::new(alloc);
    for at in 0..steps.len() {
        let step = &steps[at];
        let behind = &steps[at + 1..];
        match read_step(alloc, inside, facts.as_slice(), step, behind, found)? {
            None => {}
            Some(refused) => return Ok(Some(refused)),
        }
        follow_telling(
            alloc,
            inside.numbers,
            inside.split,
            step,
            &mut facts,
            &mut marks,
        )?;
    }
    Ok(None)
}

/// Reads a body under these numbers and types. It fails where memory is wanting.
pub fn read_body(
    alloc: Global,
    types: &Types,
    sizing: &[Items<bool>],
    numbers: &[Option<i128>],
    own: &[Sized],
    body: &BodySteps,
    found: &mut Items<Found>,
) -> Result<Option<MonoError>, AllocError>
    ensures { IfOk result (λ refused. outcome refused found.new
        ≡ spec.read_body types.now sizing.now numbers.now own.now (body_read body.now) found.old) }
{
    let split = splits(alloc, types, sizing, numbers, body)?;
    let inside = Inside {
        types,
        sizing,
        numbers,
        own,
        variables: body.variables,
        names: body.names.as_slice(),
        split: split.as_slice(),
    };
    read_steps(alloc, &inside, body.steps.as_slice(), found)
}
