//! The list of instances.
ghost use Rattle.std.specs.Prelude.{◌≡◌, ◌+◌, ◌++◌, ◌∷◌, [], IfOk, OnOk, slice_get};
ghost use Rattle.monomorph.specs.Found.{outcome};
ghost use Rattle.monomorph.specs.Instances as spec;
ghost use Rattle.monomorph.specs.Lasts as lasts;

use crate::bodies::read_body;
use crate::error::MonoError;
use crate::found::{Found, copy_found, instances_in};
use crate::lasts::{Model, read_bodies, read_lasts};
use sail_base::Items;
use sail_core::CoreModel;
use size_notes::bodies;
use size_splits::sizing_of;
use sized_nodes::Instance;
use std::alloc::{AllocError, Global};

/// Reads a function for numbers and types. It fails where memory is wanting.
fn read_instance(
    alloc: Global,
    model: &Model<'_>,
    instance: &Instance,
    found: &mut Items<Found>,
) -> Result<Option<MonoError>, AllocError>
    ensures { IfOk result (λ refused. outcome refused found.new ≡ spec.read_instance (lasts.model_in model.now) instance.now found.old) }
{
    let numbers = instance.numbers.as_slice();
    let types = instance.types.as_slice();
    match model.bodies.functions.get(instance.function as usize) {
        None => Ok(None),
        Some(bodies) => read_bodies(alloc, model, numbers, types, bodies.as_slice(), found),
    }
}

/// Reads a mapping. It fails where memory is wanting.
fn read_mapping(
    alloc: Global,
    model: &Model<'_>,
    mapping: u32,
    found: &mut Items<Found>,
) -> Result<Option<MonoError>, AllocError>
    ensures { IfOk result (λ refused. outcome refused found.new ≡ spec.read_mapping (lasts.model_in model.now) mapping found.old) }
{
    match model.bodies.mappings.get(mapping as usize) {
        None => Ok(None),
        Some(body) => read_body(
            alloc,
            &model.core.types,
            model.sizing,
            &[],
            &[],
            body,
            found,
        ),
    }
}

/// Reads what is found. It fails where memory is wanting.
fn read_found(
    alloc: Global,
    model: &Model<'_>,
    one: &Found,
    found: &mut Items<Found>,
) -> Result<Option<MonoError>, AllocError>
    ensures { IfOk result (λ refused. outcome refused found.new ≡ spec.read_found (lasts.model_in model.now) one.now found.old) }
{
    match one {
        Found::Function(instance) => read_instance(alloc, model, instance, found),
        Found::Mapping(mapping) => read_mapping(alloc, model, *mapping, found),
    }
}

/// What is found at a place, if there is something. It fails where memory is wanting.
fn found_at(alloc: Global, found: &Items<Found>, at: usize) -> Result<Option<Found>, AllocError>
    ensures { IfOk result (λ one. one ≡ slice_get found.now at) }
{
    match found.get(at) {
        None => Ok(None),
        Some(one) => Ok(Some(copy_found(alloc, one)?)),
    }
}

/// A count with so many more. It fails past the largest count.
fn with_more(count: usize, more: usize) -> Result<usize, AllocError>
    ensures { IfOk result (λ sum. sum ≡ count + more) }
{
    match count.checked_add(more) {
        None => Err(AllocError),
        Some(sum) => Ok(sum),
    }
}

/// Reads what is found, from a place on, and what is found there, at most so many. It fails where memory is wanting.
fn grow(
    alloc: Global,
    model: &Model<'_>,
    times: usize,
    from: usize,
    found: &mut Items<Found>,
) -> Result<Option<MonoError>, AllocError>
    ensures { IfOk result (λ refused. outcome refused found.new ≡ spec.grow times (lasts.model_in model.now) from found.old) }
{
    let mut at = from;
    for _turn in 0..times {
        let one = match found_at(alloc, found, at)? {
            None => return Ok(None),
            Some(one) => one,
        };
        let next = with_more(at, 1)?;
        match read_found(alloc, model, &one, found)? {
            None => {}
            Some(refused) => return Ok(Some(refused)),
        }
        at = next;
    }
    Ok(None)
}

/// Reads what is found, what comes last, and what is found there. It fails where memory is wanting.
fn find_all(
    alloc: Global,
    model: &Model<'_>,
    found: &mut Items<Found>,
) -> Result<Option<MonoError>, AllocError>
    ensures { IfOk result (λ refused. outcome refused found.new ≡ spec.found_from (lasts.model_in model.now) found.old) }
{
    let times = with_more(4097, model.bodies.mappings.len())?;
    match grow(alloc, model, times, 0, found)? {
        None => {}
        Some(refused) => return Ok(Some(refused)),
    }
    let first = found.len();
    match read_lasts(alloc, model, found)? {
        None => {}
        Some(refused) => return Ok(Some(refused)),
    }
    grow(alloc, model, times, first, found)
}

/// Puts a function of no variables. It fails where memory is wanting.
fn put_entry(alloc: Global, found: &mut Items<Found>, function: u32) -> Result<(), AllocError>
    ensures { OnOk result (found.new ≡ found.old ++ spec.entry function ∷ []) }
{
    found.push(Found::Function(Instance {
        function,
        numbers: Items::new(alloc),
        types: Items::new(alloc),
    }))
}

/// All that is found of a model that is read, or the first refusal. It fails where memory is wanting.
pub fn all_found(
    alloc: Global,
    model: &Model<'_>,
) -> Result<Result<Items<Found>, MonoError>, AllocError>
    ensures { IfOk result (λ answer. answer ≡ spec.all_found (lasts.model_in model.now)) }
{
    let mut found = Items::new(alloc);
    put_entry(alloc, &mut found, model.core.reset)?;
    put_entry(alloc, &mut found, model.core.step)?;
    match find_all(alloc, model, &mut found)? {
        Some(refused) => Ok(Err(refused)),
        None => Ok(Ok(found)),
    }
}

/// The instances of a model that is read, or the first refusal. It fails where memory is wanting.
pub fn listed(
    alloc: Global,
    model: &Model<'_>,
) -> Result<Result<Items<Instance>, MonoError>, AllocError>
    ensures { IfOk result (λ answer. answer ≡ spec.instances_of (lasts.model_in model.now)) }
{
    let mut found = Items::new(alloc);
    put_entry(alloc, &mut found, model.core.reset)?;
    put_entry(alloc, &mut found, model.core.step)?;
    match find_all(alloc, model, &mut found)? {
        Some(refused) => Ok(Err(refused)),
        None => Ok(Ok(instances_in(alloc, found)?)),
    }
}

/// The instances of a model, or the first refusal. It fails where memory is wanting.
fn answer(alloc: Global, core: &CoreModel) -> Result<Result<Items<Instance>, MonoError>, AllocError>
    ensures { IfOk result (λ answer. answer ≡ spec.instances core.now) }
{
    let bodies = bodies(alloc, core)?;
    let sizing = sizing_of(alloc, core, bodies.functions.as_slice())?;
    let model = Model {
        core,
        bodies: &bodies,
        sizing: sizing.as_slice(),
    };
    listed(alloc, &model)
}

/// The instances of a model that was resolved, in order of finding: `reset` and `step`, then what their bodies call, and so on; what top-level
/// lets, initial values and registers lead to comes last. It fails where a size that is reached isn't constant, or isn't from 0 to 128 for a
/// width, from 0 to 4,096 for a length, at the first such place in that order; and at the call that makes one instance more than 4,096.
/// `OutOfMemory` says nothing of the model.
pub fn instances(alloc: Global, core: &CoreModel) -> Result<Items<Instance>, MonoError>
    ensures { spec.IsMet result (spec.instances core.now) }
{
    match answer(alloc, core) {
        Ok(answer) => answer,
        Err(_) => Err(MonoError::OutOfMemory),
    }
}
