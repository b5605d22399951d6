//! Cores: all that is found is tested.
ghost use Rattle.std.specs.Prelude.{◌≡◌, ◌++◌, IfOk, OnOk, map, slice_get};
ghost use Rattle.std.specs.List.{list_all};
ghost use Rattle.size_splits.specs.Bodies.{body_read};
ghost use Rattle.monomorph.specs.Found as found_spec;
ghost use Rattle.monomorph.specs.Lasts.{model_in};
ghost use Rattle.tabled_cores.specs.Cores as spec;

use crate::bodies::{alone_tabled, bodies_tabled};
use function_notes::reading_of;
use monomorph::{Found, Model, all_found, copy_instance};
use sail_base::Items;
use sail_core::{CoreModel, Direction};
use sail_types::{Typ, Types};
use size_notes::bodies;
use size_splits::{BodySteps, sizing_of};
use size_values::Variables;
use sized_nodes::Instance;
use std::alloc::{AllocError, Global};
use tabled_cores::{both, parameters_signed};
use told_types::{reading_passes, reading_settles};

/// Whether the bodies of an instance are so. It fails where memory is wanting.
fn instance_bodies(
    alloc: Global,
    given: bool,
    model: &Model<'_>,
    list: &[Instance],
    instance: &Instance,
) -> Result<bool, AllocError>
    ensures { IfOk result (λ tabled. tabled ≡ spec.instance_bodies given (model_in model.now) list.now instance.now) }
{
    let numbers = instance.numbers.as_slice();
    let own = instance.types.as_slice();
    match model.bodies.functions.get(instance.function as usize) {
        None => bodies_tabled(alloc, given, model, list, numbers, own, &[]),
        Some(bodies) => bodies_tabled(alloc, given, model, list, numbers, own, bodies.as_slice()),
    }
}

/// Whether its parameters are. It fails where memory is wanting.
fn instance_parameters(
    alloc: Global,
    given: bool,
    model: &Model<'_>,
    instance: &Instance,
) -> Result<bool, AllocError>
    ensures { IfOk result (λ tabled. tabled ≡ spec.instance_parameters given (model_in model.now) instance.now) }
{
    match model.core.functions.get(instance.function as usize) {
        None => Ok(true),
        Some(function) => parameters_signed(alloc, given, &model.core.types, instance, function),
    }
}

/// Whether an instance is so. It fails where memory is wanting.
fn instance_tabled(
    alloc: Global,
    given: bool,
    model: &Model<'_>,
    list: &[Instance],
    instance: &Instance,
) -> Result<bool, AllocError>
    ensures { IfOk result (λ tabled. tabled ≡ spec.instance_tabled given (model_in model.now) list.now instance.now) }
{
    let bodies = instance_bodies(alloc, given, model, list, instance)?;
    let parameters = instance_parameters(alloc, given, model, instance)?;
    Ok(both(bodies, parameters))
}

/// Whether a type without variables around it has constant sizes that stay what they are. It fails where memory is wanting.
fn bare_tabled(alloc: Global, types: &Types, typ: &Typ) -> Result<bool, AllocError>
    ensures { IfOk result (λ tabled. tabled ≡ spec.bare_tabled types.now typ.now) }
{
    let variables = Variables::Known(&[], &[]);
    let reading = reading_of(alloc, typ, &[])?;
    let passes = reading_passes(alloc, types, 0, &reading, &variables)?;
    let settles = reading_settles(alloc, types, 0, &reading, &variables)?;
    Ok(both(passes, settles))
}

/// The same of what a direction takes, if there is one.
fn takes_tabled(
    alloc: Global,
    types: &Types,
    directions: &[Direction],
    at: usize,
) -> Result<bool, AllocError>
    ensures { IfOk result (λ tabled. tabled ≡ spec.takes_tabled types.now (slice_get directions.now at)) }
{
    match directions.get(at) {
        None => Ok(true),
        Some(direction) => bare_tabled(alloc, types, &direction.parameter),
    }
}

/// Whether the body of a mapping is so, and what its directions take. It fails where memory is wanting.
fn mapping_body(
    alloc: Global,
    given: bool,
    model: &Model<'_>,
    list: &[Instance],
    mapping: u32,
    body: &BodySteps,
) -> Result<bool, AllocError>
    ensures { IfOk result (λ tabled. tabled ≡ spec.mapping_body given (model_in model.now) list.now mapping (body_read body.now)) }
{
    let at = 2 * (mapping as usize);
    let types = &model.core.types;
    let directions = model.core.directions.as_slice();
    let alone = alone_tabled(alloc, given, model, list, body)?;
    let ahead = takes_tabled(alloc, types, directions, at)?;
    let back = takes_tabled(alloc, types, directions, at + 1)?;
    Ok(both(alone, both(ahead, back)))
}

/// The same of the mapping at a place. It fails where memory is wanting.
fn mapping_tabled(
    alloc: Global,
    given: bool,
    model: &Model<'_>,
    list: &[Instance],
    mapping: u32,
) -> Result<bool, AllocError>
    ensures { IfOk result (λ tabled. tabled
        ≡ spec.mapping_tabled given (model_in model.now) list.now mapping (slice_get (model_in model.now).bodies.mappings mapping)) }
{
    match model.bodies.mappings.get(mapping as usize) {
        None => Ok(true),
        Some(body) => mapping_body(alloc, given, model, list, mapping, body),
    }
}

/// Whether what is found is so. It fails where memory is wanting.
fn found_tabled(
    alloc: Global,
    given: bool,
    model: &Model<'_>,
    list: &[Instance],
    found: &Found,
) -> Result<bool, AllocError>
    ensures { IfOk result (λ tabled. tabled ≡ spec.found_tabled given (model_in model.now) list.now found.now) }
{
    match found {
        Found::Function(instance) => instance_tabled(alloc, given, model, list, instance),
        Found::Mapping(mapping) => mapping_tabled(alloc, given, model, list, *mapping),
    }
}

/// The same of each of these.
fn all_tabled(
    alloc: Global,
    given: bool,
    model: &Model<'_>,
    list: &[Instance],
    found: &[Found],
) -> Result<bool, AllocError>
    ensures { IfOk result (λ tabled. tabled ≡ list_all (spec.found_tabled given (model_in model.now) list.now) found.now) }
{
    for one in found {
        if !found_tabled(alloc, given, model, list, one)? {
            return Ok(false);
        }
    }
    Ok(true)
}

/// Whether top-level lets and initial values are so. It fails where memory is wanting.
fn openings_tabled(
    alloc: Global,
    given: bool,
    model: &Model<'_>,
    list: &[Instance],
    openings: &[BodySteps],
) -> Result<bool, AllocError>
    ensures { IfOk result (λ tabled. tabled ≡ list_all (spec.alone_tabled given (model_in model.now) list.now) (map body_read openings.now)) }
{
    for body in openings {
        if !alone_tabled(alloc, given, model, list, body)? {
            return Ok(false);
        }
    }
    Ok(true)
}

/// Puts an instance, if it is one that is found. It fails where memory is wanting.
fn push_instance(alloc: Global, list: &mut Items<Instance>, found: &Found) -> Result<(), AllocError>
    ensures { OnOk result (list.new ≡ list.old ++ found_spec.instance_in found.now) }
{
    match found {
        Found::Function(instance) => list.push(copy_instance(alloc, instance)?),
        Found::Mapping(_) => Ok(()),
    }
}

/// The instances among what is found. It fails where memory is wanting.
fn instances_of(alloc: Global, found: &[Found]) -> Result<Items<Instance>, AllocError>
    ensures { IfOk result (λ list. list ≡ found_spec.instances_in found.now) }
{
    let mut list = Items::new(alloc);
    for one in found {
        push_instance(alloc, &mut list, one)?;
    }
    Ok(list)
}

/// Whether all of a model is so, of which this is found. It fails where memory is wanting.
pub fn model_tabled(
    alloc: Global,
    given: bool,
    model: &Model<'_>,
    found: &[Found],
) -> Result<bool, AllocError>
    ensures { IfOk result (λ tabled. tabled ≡ spec.model_tabled given (model_in model.now) found.now) }
{
    let list = instances_of(alloc, found)?;
    let all = all_tabled(alloc, given, model, list.as_slice(), found)?;
    let openings = openings_tabled(
        alloc,
        given,
        model,
        list.as_slice(),
        model.bodies.openings.as_slice(),
    )?;
    Ok(both(all, openings))
}

/// Whether the tables of a core are whole, wherever a hart comes to, where a case may go by numbers that its value gives, or (not `given`) only
/// by those that are noted before its value is there. Of a core for which no instances are listed nothing is said of functions. It fails where
/// memory is wanting.
pub fn core_tabled(alloc: Global, given: bool, core: &CoreModel) -> Result<bool, AllocError>
    ensures { IfOk result (λ tabled. tabled ≡ spec.core_tabled given core.now) }
{
    let bodies = bodies(alloc, core)?;
    let sizing = sizing_of(alloc, core, bodies.functions.as_slice())?;
    let model = Model {
        core,
        bodies: &bodies,
        sizing: sizing.as_slice(),
    };
    match all_found(alloc, &model)? {
        Ok(found) => model_tabled(alloc, given, &model, found.as_slice()),
        Err(_) => model_tabled(alloc, given, &model, &[]),
    }
}
