//! The notes and the obligations of a model.
ghost use Rattle.std.specs.Prelude.{◌≡◌, IfOk, OnOk, map, slice_get};
ghost use Rattle.value_indices.specs.Walking as walk;
ghost use Rattle.pattern_leaves.specs.Settings.{around_of};
ghost use Rattle.constraint_gen.specs.Defined.{AreNames, walk_of, function_at, measure_of, measure_at, mapping_at, half_at, opening_at};
ghost use Rattle.constraint_gen.specs.Models as models;
ghost use Rattle.constraint_gen.specs.Obligations as spec;
ghost use Rattle.constraint_gen.specs.Reading.{notes_of};

use crate::defined::{Defined, in_order};
use crate::goals::push_obligations;
use crate::openings::walk_opening;
use crate::top_levels::{TopLevels, around_model, around_opening, top_levels};
use function_notes::{walk_function, walk_mapping, walk_measure};
use obligations::Obligation;
use pattern_leaves::Around;
use sail_base::Items;
use sail_core::{CoreModel, Function};
use std::alloc::{AllocError, Global};
use value_indices::Walking;

/// The function at a place, if there is one. The one error is want of memory, also of numbers for variables.
#[tactic(auto, using(value_indices::proofs::Walks::walks))]
fn walk_function_at(
    alloc: Global,
    walking: &mut Walking,
    around: &Around<'_>,
    core: &CoreModel,
    at: usize,
) -> Result<(), AllocError>
    ensures { OnOk result (walk.seen walking.new ≡ walk.run (function_at (around_of around.now) (slice_get core.now.functions at))
        (walk.seen walking.old)) }
{
    match core.functions.get(at) {
        None => Ok(()),
        Some(function) => walk_function(alloc, walking, around, function),
    }
}

/// The measure of a function, if it has one. The one error is want of memory, also of numbers for variables.
#[tactic(auto, using(value_indices::proofs::Walks::walks))]
fn walk_measure_of(
    alloc: Global,
    walking: &mut Walking,
    around: &Around<'_>,
    function: &Function,
) -> Result<(), AllocError>
    ensures { OnOk result (walk.seen walking.new ≡ walk.run (measure_of (around_of around.now) function.now function.now.measure)
        (walk.seen walking.old)) }
{
    match &function.measure {
        None => Ok(()),
        Some(measure) => walk_measure(alloc, walking, around, function, measure),
    }
}

/// The measure of the function at a place, if there is one. The one error is want of memory, also of numbers for variables.
#[tactic(auto, using(value_indices::proofs::Walks::walks))]
fn walk_measure_at(
    alloc: Global,
    walking: &mut Walking,
    around: &Around<'_>,
    core: &CoreModel,
    at: usize,
) -> Result<(), AllocError>
    ensures { OnOk result (walk.seen walking.new ≡ walk.run (measure_at (around_of around.now) (slice_get core.now.functions at))
        (walk.seen walking.old)) }
{
    match core.functions.get(at) {
        None => Ok(()),
        Some(function) => walk_measure_of(alloc, walking, around, function),
    }
}

/// The mapping of the directions at two places, if there are such. The one error is want of memory, also of numbers for variables.
#[tactic(auto, using(value_indices::proofs::Walks::walks))]
fn walk_mapping_at(
    alloc: Global,
    walking: &mut Walking,
    around: &Around<'_>,
    core: &CoreModel,
    at: usize,
    behind: usize,
) -> Result<(), AllocError>
    ensures { OnOk result (walk.seen walking.new ≡ walk.run (mapping_at (around_of around.now) (slice_get core.now.directions at)
        (slice_get core.now.directions behind)) (walk.seen walking.old)) }
{
    match core.directions.get(at) {
        None => Ok(()),
        Some(forwards) => match core.directions.get(behind) {
            None => Ok(()),
            Some(backwards) => walk_mapping(alloc, walking, around, forwards, backwards),
        },
    }
}

/// The direction at a place, if there is one: what is false is owed. The one error is want of memory.
#[tactic(auto, using(value_indices::proofs::Walks::walks))]
fn walk_half_at(
    alloc: Global,
    walking: &mut Walking,
    core: &CoreModel,
    at: usize,
) -> Result<(), AllocError>
    ensures { OnOk result (walk.seen walking.new ≡ walk.run (half_at (slice_get core.now.directions at)) (walk.seen walking.old)) }
{
    match core.directions.get(at) {
        None => Ok(()),
        Some(direction) => walking.wrong(alloc, direction.place),
    }
}

/// The top-level `let` or initial value at a place, if there is one. The one error is want of memory, also of numbers for variables.
#[tactic(auto, using(value_indices::proofs::Walks::walks))]
fn walk_opening_at(
    alloc: Global,
    walking: &mut Walking,
    core: &CoreModel,
    lets: &TopLevels,
    at: usize,
) -> Result<(), AllocError>
    requires { AreNames core.now lets.now }
    ensures { OnOk result (walk.seen walking.new ≡ walk.run (opening_at (models.around_opening core.now at) (slice_get core.now.openings at))
        (walk.seen walking.old)) }
{
    let around = around_opening(core, lets, at);
    match core.openings.get(at) {
        None => Ok(()),
        Some(opening) => walk_opening(alloc, walking, &around, opening),
    }
}

/// A definition. The one error is want of memory, also of numbers for variables.
fn walk_defined(
    alloc: Global,
    walking: &mut Walking,
    around: &Around<'_>,
    core: &CoreModel,
    lets: &TopLevels,
    defined: Defined,
) -> Result<(), AllocError>
    requires { AreNames core.now lets.now }
    ensures { OnOk result (walk.seen walking.new ≡ walk.run (walk_of core.now (around_of around.now) defined) (walk.seen walking.old)) }
{
    match defined {
        Defined::Function(at) => walk_function_at(alloc, walking, around, core, at),
        Defined::Measure(at) => walk_measure_at(alloc, walking, around, core, at),
        Defined::Mapping(at, behind) => walk_mapping_at(alloc, walking, around, core, at, behind),
        Defined::Half(at) => walk_half_at(alloc, walking, core, at),
        Defined::Opening(at) => walk_opening_at(alloc, walking, core, lets, at),
    }
}

/// The walk over a definition, from nothing. It fails where memory is wanting, and where it has more than 2^32 - 1 variables.
fn walk_alone(
    alloc: Global,
    around: &Around<'_>,
    core: &CoreModel,
    lets: &TopLevels,
    defined: Defined,
) -> Result<Walking, AllocError>
    requires { AreNames core.now lets.now }
    ensures { IfOk result (λ made. walk.seen made ≡ walk.run (walk_of core.now (around_of around.now) defined) (walk.begun 0)) }
{
    let mut walking = Walking::new(alloc, 0);
    walk_defined(alloc, &mut walking, around, core, lets, defined)?;
    Ok(walking)
}

/// The notes of a model that was resolved, a walk for each definition in the order of the text: what is owed, what widths and lengths
/// are, what is called with which numbers, and what each node makes of what, under the facts in force there. Facts stand once in a
/// walk, however many notes are under them. It fails where memory is wanting, and where a definition has more than 2^32 - 1 variables.
pub fn notes(alloc: Global, core: &CoreModel) -> Result<Items<Walking>, AllocError>
    ensures { IfOk result (λ made. map notes_of made ≡ models.notes core.now) }
{
    let lets = top_levels(alloc, core)?;
    let around = around_model(core, lets.names.as_slice());
    let definitions = in_order(alloc, core)?;
    let mut made = Items::new(alloc);
    for placed in definitions.as_slice() {
        let walking = walk_alone(alloc, &around, core, &lets, placed.defined)?;
        made.push(walking)?;
    }
    Ok(made)
}

/// The obligations of a model that was resolved, in the order of the text: functions, mappings, top-level lets, initial values and
/// measures, and in each what is owed in the order in which it is met. It fails where memory is wanting, and where a definition has more
/// than 2^32 - 1 variables.
pub fn obligations(alloc: Global, core: &CoreModel) -> Result<Items<Obligation>, AllocError>
    ensures { IfOk result (λ made. made ≡ spec.obligations core.now) }
{
    let lets = top_levels(alloc, core)?;
    let around = around_model(core, lets.names.as_slice());
    let definitions = in_order(alloc, core)?;
    let mut made = Items::new(alloc);
    for placed in definitions.as_slice() {
        let walking = walk_alone(alloc, &around, core, &lets, placed.defined)?;
        push_obligations(alloc, &mut made, walking)?;
    }
    Ok(made)
}
