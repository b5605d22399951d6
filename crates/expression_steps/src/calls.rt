//! Calls: what is wanted of their arguments, and what is made of the values of these.
ghost use Rattle.std.specs.Prelude.{◌≡◌, IfOk, OnOk};
ghost use Rattle.value_indices.specs.Walking as walk;
ghost use Rattle.pattern_leaves.specs.Settings.{around_of};
ghost use Rattle.expression_steps.specs.Calls as call_spec;
ghost use Rattle.expression_steps.specs.Coded as coded;

use crate::aims::{argument_aims, known_arguments, part_aims};
use crate::knowing::{nestings, places_of};
use call_notes::{Aim, called, callee_types, made_named, node_ended, payload_types};
use pattern_leaves::{Around, payload};
use sail_base::{Items, Place};
use sail_core::{Callee, Core};
use sail_types::Typ;
use std::alloc::{AllocError, Global};
use value_indices::{Indices, Reading, Walking};
use wide_types::parameters_of;

/// The types of so many arguments of a constructor, by the place of its union in the table and its own in the union.
fn constructor_types<'a>(
    around: &Around<'a>,
    union: u32,
    constructor: u32,
    count: usize,
) -> &'a [Typ]
    ensures { result.now ≡ call_spec.constructor_types (around_of around.now) union constructor count }
{
    payload_types(count, payload(around.types, union, constructor))
}

/// What is wanted of so many arguments of a call. It fails where memory is wanting, and where binders are too many.
pub(crate) fn call_aims(
    alloc: Global,
    around: &Around<'_>,
    callee: Callee,
    count: usize,
    aim: &Aim,
) -> Result<Items<Aim>, AllocError>
    ensures { IfOk result (λ made. made ≡ call_spec.call_aims (around_of around.now) callee count aim.now) }
{
    match callee {
        Callee::Constructor(union, constructor) => {
            let known = known_arguments(alloc, around, union, aim)?;
            let types = constructor_types(around, union, constructor, count);
            part_aims(alloc, &known, types)
        }
        _ => argument_aims(alloc, callee_types(around, callee)),
    }
}

/// How many of so many arguments of a call are walked: of a constructor as many as there are types.
pub(crate) fn call_count(around: &Around<'_>, callee: Callee, count: usize) -> usize
    ensures { result ≡ call_spec.call_count (around_of around.now) callee count }
{
    match callee {
        Callee::Constructor(union, constructor) => {
            constructor_types(around, union, constructor, count).len()
        }
        _ => count,
    }
}

/// A value of a named type, by its place in the table, made of the values of parts of these types. It fails where memory is wanting, and
/// where variables are too many.
pub(crate) fn named_made(
    alloc: Global,
    walking: &mut Walking,
    around: &Around<'_>,
    named: u32,
    parts: &[Core],
    known: &Option<Items<Reading>>,
    types: &[Typ],
    values: &[Indices],
) -> Result<Indices, AllocError>
    ensures value { IfOk result (λ made. made ≡ walk.got (call_spec.named_made (around_of around.now) named (coded.each_part parts.now) known.now
        types.now values.now) (walk.seen walking.old)) }
    ensures walked { OnOk result (walk.seen walking.new ≡ walk.run (call_spec.named_made (around_of around.now) named (coded.each_part parts.now)
        known.now types.now values.now) (walk.seen walking.old)) }
{
    let places = places_of(alloc, parts)?;
    made_named(
        alloc,
        walking,
        around,
        named,
        parameters_of(around.types, named),
        places.as_slice(),
        known,
        types,
        values,
    )
}

/// What a constructor makes of the values of its arguments, by its node at a place, which is noted. It fails where memory is wanting, and
/// where variables are too many.
#[tactic(auto, using(value_indices::proofs::Walks::walks))]
fn constructed(
    alloc: Global,
    walking: &mut Walking,
    around: &Around<'_>,
    number: u32,
    union: u32,
    constructor: u32,
    parts: &[Core],
    aim: &Aim,
    values: &[Indices],
) -> Result<Indices, AllocError>
    ensures value { IfOk result (λ made. made ≡ walk.got (call_spec.constructed (around_of around.now) number union constructor
        (coded.each_part parts.now) aim.now values.now) (walk.seen walking.old)) }
    ensures walked { OnOk result (walk.seen walking.new ≡ walk.run (call_spec.constructed (around_of around.now) number union constructor
        (coded.each_part parts.now) aim.now values.now) (walk.seen walking.old)) }
{
    let known = known_arguments(alloc, around, union, aim)?;
    let types = constructor_types(around, union, constructor, parts.len());
    let value = named_made(alloc, walking, around, union, parts, &known, types, values)?;
    node_ended(alloc, walking, number, values, value)
}

/// What is made of the values of the arguments of a call, by its node at a place. It fails where memory is wanting, and where variables
/// are too many.
pub(crate) fn call_made(
    alloc: Global,
    walking: &mut Walking,
    around: &Around<'_>,
    place: Place,
    number: u32,
    callee: Callee,
    parts: &[Core],
    aim: &Aim,
    values: &[Indices],
) -> Result<Indices, AllocError>
    ensures value { IfOk result (λ made. made ≡ walk.got (call_spec.call_made (around_of around.now) place number callee (coded.each_part parts.now)
        aim.now values.now) (walk.seen walking.old)) }
    ensures walked { OnOk result (walk.seen walking.new ≡ walk.run (call_spec.call_made (around_of around.now) place number callee
        (coded.each_part parts.now) aim.now values.now) (walk.seen walking.old)) }
{
    match callee {
        Callee::Constructor(union, constructor) => {
            constructed(
                alloc,
                walking,
                around,
                number,
                union,
                constructor,
                parts,
                aim,
                values,
            )
        }
        _ => {
            let nested = nestings(alloc, parts)?;
            called(
                alloc,
                walking,
                around,
                place,
                number,
                callee,
                nested.as_slice(),
                values,
            )
        }
    }
}
