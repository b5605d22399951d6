//! Values that constructors and structs make.
ghost use Rattle.std.specs.Prelude.{◌≡◌, IfOk, OnOk};
ghost use Rattle.pattern_leaves.specs.Settings.{around_of};
ghost use Rattle.value_fits.specs.Lent.{reading_of};
ghost use Rattle.value_indices.specs.Walking as walk;
ghost use Rattle.call_notes.specs.Calls as calls;

use crate::ends::{any_never, owe_value};
use call_arguments::{indices_from, least_of_three, types_or, types_without_holes, was_due};
use pattern_leaves::Around;
use sail_base::{Items, Place};
use sail_types::{Index, Parameter, Typ};
use std::alloc::{AllocError, Global};
use value_fits::Wanted;
use value_indices::{Indices, Reading, Walking};

/// Owes that a part is of its type, at its place, unless it owes that itself. It fails where memory is wanting, and where variables are
/// too many.
#[tactic(auto, using(value_indices::proofs::Walks::walks))]
pub fn part_owed(
    alloc: Global,
    walking: &mut Walking,
    around: &Around<'_>,
    is_owed: bool,
    place: Place,
    value: &Indices,
    wanted: &Wanted<'_>,
) -> Result<(), AllocError>
    ensures { OnOk result (walk.seen walking.new
        ≡ walk.run (calls.part_owed (around_of around.now) is_owed place value.now (reading_of wanted.now)) (walk.seen walking.old)) }
{
    if is_owed {
        return Ok(());
    }
    owe_value(alloc, walking, around.types, place, value, wanted)
}

/// Owes that an argument is of its type, where that wasn't owed before all numbers were known; of a hole in what stands for a Type
/// variable is only what never ends.
fn owe_part(
    alloc: Global,
    walking: &mut Walking,
    around: &Around<'_>,
    place: Place,
    known: &Option<Items<Reading>>,
    typ: &Typ,
    value: &Indices,
    indices: &[Index],
    readings: &[Reading],
) -> Result<(), AllocError>
    ensures { OnOk result (walk.seen walking.new
        ≡ walk.run (calls.one_owed (around_of around.now) place known.now typ.now value.now indices.now readings.now) (walk.seen walking.old)) }
{
    let is_owed = was_due(known, typ)?;
    let owed = types_without_holes(alloc, readings)?;
    let wanted = Wanted::Of(typ, indices, owed.as_slice());
    part_owed(alloc, walking, around, is_owed, place, value, &wanted)
}

/// Owes that arguments are of their types, each at its place, where that wasn't owed before all numbers were known.
fn parts_owed(
    alloc: Global,
    walking: &mut Walking,
    around: &Around<'_>,
    places: &[Place],
    known: &Option<Items<Reading>>,
    types: &[Typ],
    values: &[Indices],
    indices: &[Index],
    readings: &[Reading],
) -> Result<(), AllocError>
    ensures { OnOk result (walk.seen walking.new
        ≡ walk.run (calls.parts_owed (around_of around.now) places.now known.now types.now values.now indices.now readings.now)
        (walk.seen walking.old)) }
{
    let count = least_of_three(places.len(), types.len(), values.len());
    for index in 0..count {
        owe_part(
            alloc,
            walking,
            around,
            places[index],
            known,
            &types[index],
            &values[index],
            indices,
            readings,
        )?;
    }
    Ok(())
}

/// A value of the named type of a place in the table, with these parameters, made of arguments of these types at these places: what
/// the arguments owe and what their numbers are. The Type arguments are known where a wanted type gives them. It fails where memory is
/// wanting, and where variables are too many.
#[tactic(auto, using(value_indices::proofs::Walks::walks))]
pub fn made_named(
    alloc: Global,
    walking: &mut Walking,
    around: &Around<'_>,
    named: u32,
    parameters: &[Parameter],
    places: &[Place],
    known: &Option<Items<Reading>>,
    types: &[Typ],
    arguments: &[Indices],
) -> Result<Indices, AllocError>
    ensures value { IfOk result (λ made. made
        ≡ walk.got (calls.made_named (around_of around.now) named parameters.now places.now known.now types.now arguments.now)
        (walk.seen walking.old)) }
    ensures walked { OnOk result (walk.seen walking.new
        ≡ walk.run (calls.made_named (around_of around.now) named parameters.now places.now known.now types.now arguments.now)
        (walk.seen walking.old)) }
{
    if any_never(arguments) {
        return Ok(Indices::Never);
    }
    let readings = types_or(alloc, walking.next(), known, parameters, types, arguments)?;
    let indices = indices_from(alloc, walking, parameters, types, arguments)?;
    parts_owed(
        alloc,
        walking,
        around,
        places,
        known,
        types,
        arguments,
        indices.as_slice(),
        readings.as_slice(),
    )?;
    Ok(Indices::Named(named, indices, readings))
}
