//! Calls on arguments that have been walked.
ghost use Rattle.std.specs.Prelude.{◌≡◌, slice_get, IfOk, OnOk};
ghost use Rattle.pattern_leaves.specs.Settings.{around_of};
ghost use Rattle.value_fits.specs.Fitting as fitting;
ghost use Rattle.value_indices.specs.Walking as walk;
ghost use Rattle.call_notes.specs.Calls as calls;
ghost use Rattle.call_arguments.specs.Placing.{call_conditions as call_conditions_of};

use crate::ends::{any_never, owe_unless, wrong_value};
use crate::noted::{made_opened, node_ended};
use crate::rows::row_call;
use call_arguments::{call_conditions, numbers_from, types_from, under};
use pattern_leaves::Around;
use sail_base::{Items, Place};
use sail_core::{Callee, Direction, Function};
use sail_types::{Index, Row, Typ, Types};
use std::alloc::{AllocError, Global};
use value_fits::{Wanted, owe_fit};
use value_indices::{Indices, Reading, Walking, copy_each};

/// Owes what a call of a function owes, at a place.
#[tactic(auto, using(value_fits::proofs::Owed::owed))]
fn owe_call(
    alloc: Global,
    walking: &mut Walking,
    types: &Types,
    place: Place,
    function: &Function,
    indices: &[Index],
    readings: &[Reading],
    nested: &[bool],
    arguments: &[Indices],
) -> Result<(), AllocError>
    ensures { OnOk result (walk.seen walking.new
        ≡ walk.run (fitting.owe_fit place (call_conditions_of (fitting.fits types.now) function.now indices.now readings.now nested.now
        arguments.now)) (walk.seen walking.old)) }
{
    let made = call_conditions(
        alloc,
        types,
        function,
        indices,
        readings,
        nested,
        arguments,
        walking.next(),
    )?;
    owe_fit(alloc, walking, place, made)
}

/// Notes what is called at a place, of these operands, for these numbers and types.
fn note_call(
    alloc: Global,
    walking: &mut Walking,
    place: Place,
    number: u32,
    arguments: &[Indices],
    callee: Callee,
    indices: Items<Index>,
    readings: Items<Reading>,
) -> Result<(), AllocError>
    ensures { OnOk result (walk.seen walking.new
        ≡ walk.run (calls.noted_call place number arguments.now callee indices readings) (walk.seen walking.old)) }
{
    let operands = copy_each(alloc, arguments)?;
    walking.note_call(place, number, operands, callee, indices, readings)
}

/// A call of a function whose variables stand for these.
fn function_called(
    alloc: Global,
    walking: &mut Walking,
    around: &Around<'_>,
    place: Place,
    number: u32,
    callee: u32,
    function: &Function,
    indices: Items<Index>,
    readings: Items<Reading>,
    nested: &[bool],
    arguments: &[Indices],
) -> Result<Indices, AllocError>
    ensures value { IfOk result (λ made. made
        ≡ walk.got (calls.function_called (around_of around.now) place number callee function.now indices readings nested.now arguments.now)
        (walk.seen walking.old)) }
    ensures walked { OnOk result (walk.seen walking.new
        ≡ walk.run (calls.function_called (around_of around.now) place number callee function.now indices readings nested.now arguments.now)
        (walk.seen walking.old)) }
{
    let numbers = indices.as_slice();
    let types = readings.as_slice();
    owe_call(
        alloc,
        walking,
        around.types,
        place,
        function,
        numbers,
        types,
        nested,
        arguments,
    )?;
    let result = under(alloc, &function.result, numbers, types)?;
    let callee = Callee::Function(callee);
    note_call(
        alloc, walking, place, number, arguments, callee, indices, readings,
    )?;
    made_opened(alloc, walking, place, number, arguments, &result)
}

/// A call of a function that is there.
#[tactic(auto, using(value_indices::proofs::Walks::walks))]
fn known_call(
    alloc: Global,
    walking: &mut Walking,
    around: &Around<'_>,
    place: Place,
    number: u32,
    callee: u32,
    function: &Function,
    nested: &[bool],
    arguments: &[Indices],
) -> Result<Indices, AllocError>
    ensures value { IfOk result (λ made. made
        ≡ walk.got (calls.known_call (around_of around.now) place number callee function.now nested.now arguments.now) (walk.seen walking.old)) }
    ensures walked { OnOk result (walk.seen walking.new
        ≡ walk.run (calls.known_call (around_of around.now) place number callee function.now nested.now arguments.now) (walk.seen walking.old)) }
{
    if any_never(arguments) {
        return Ok(Indices::Never);
    }
    let parameters = function.parameters.as_slice();
    let variables = function.variables.as_slice();
    let count = function.type_variables.len();
    let indices = numbers_from(alloc, variables, parameters, arguments)?;
    let readings = types_from(alloc, walking.next(), count, parameters, arguments)?;
    function_called(
        alloc, walking, around, place, number, callee, function, indices, readings, nested,
        arguments,
    )
}

/// A call of a function. It fails where memory is wanting, and where variables are too many.
fn function_call(
    alloc: Global,
    walking: &mut Walking,
    around: &Around<'_>,
    place: Place,
    number: u32,
    callee: u32,
    nested: &[bool],
    arguments: &[Indices],
) -> Result<Indices, AllocError>
    ensures value { IfOk result (λ made. made
        ≡ walk.got (calls.function_call (around_of around.now) place number callee (slice_get (around_of around.now).functions callee) nested.now
        arguments.now) (walk.seen walking.old)) }
    ensures walked { OnOk result (walk.seen walking.new
        ≡ walk.run (calls.function_call (around_of around.now) place number callee (slice_get (around_of around.now).functions callee) nested.now
        arguments.now) (walk.seen walking.old)) }
{
    match around.functions.get(callee as usize) {
        None => wrong_value(alloc, walking, place),
        Some(function) => known_call(
            alloc, walking, around, place, number, callee, function, nested, arguments,
        ),
    }
}

/// A call of a direction that is there, on one argument.
#[tactic(auto, using(value_indices::proofs::Walks::walks))]
fn direction_applied(
    alloc: Global,
    walking: &mut Walking,
    around: &Around<'_>,
    place: Place,
    number: u32,
    callee: u32,
    direction: &Direction,
    is_nested: bool,
    arguments: &[Indices],
    value: &Indices,
) -> Result<Indices, AllocError>
    ensures value { IfOk result (λ made. made
        ≡ walk.got (calls.direction_applied (around_of around.now) place number callee direction.now is_nested arguments.now value.now)
        (walk.seen walking.old)) }
    ensures walked { OnOk result (walk.seen walking.new
        ≡ walk.run (calls.direction_applied (around_of around.now) place number callee direction.now is_nested arguments.now value.now)
        (walk.seen walking.old)) }
{
    let wanted = Wanted::Of(&direction.parameter, &[], &[]);
    owe_unless(alloc, walking, around, place, is_nested, value, &wanted)?;
    let result = under(alloc, &direction.result, &[], &[])?;
    let callee = Callee::Converts(callee);
    let indices = Items::new(alloc);
    let readings = Items::new(alloc);
    note_call(
        alloc, walking, place, number, arguments, callee, indices, readings,
    )?;
    made_opened(alloc, walking, place, number, arguments, &result)
}

/// A call of a direction on values that are there.
#[tactic(auto, using(value_indices::proofs::Walks::walks))]
fn direction_called(
    alloc: Global,
    walking: &mut Walking,
    around: &Around<'_>,
    place: Place,
    number: u32,
    callee: u32,
    direction: &Direction,
    nested: &[bool],
    arguments: &[Indices],
) -> Result<Indices, AllocError>
    ensures value { IfOk result (λ made. made
        ≡ walk.got (calls.direction_called (around_of around.now) place number callee direction.now nested.now arguments.now)
        (walk.seen walking.old)) }
    ensures walked { OnOk result (walk.seen walking.new
        ≡ walk.run (calls.direction_called (around_of around.now) place number callee direction.now nested.now arguments.now)
        (walk.seen walking.old)) }
{
    match (nested, arguments) {
        ([is_nested], [value]) => direction_applied(
            alloc, walking, around, place, number, callee, direction, *is_nested, arguments, value,
        ),
        _ => wrong_value(alloc, walking, place),
    }
}

/// A call of a direction that is there.
#[tactic(auto, using(value_indices::proofs::Walks::walks))]
fn known_direction(
    alloc: Global,
    walking: &mut Walking,
    around: &Around<'_>,
    place: Place,
    number: u32,
    callee: u32,
    direction: &Direction,
    nested: &[bool],
    arguments: &[Indices],
) -> Result<Indices, AllocError>
    ensures value { IfOk result (λ made. made
        ≡ walk.got (calls.known_direction (around_of around.now) place number callee direction.now nested.now arguments.now)
        (walk.seen walking.old)) }
    ensures walked { OnOk result (walk.seen walking.new
        ≡ walk.run (calls.known_direction (around_of around.now) place number callee direction.now nested.now arguments.now)
        (walk.seen walking.old)) }
{
    if any_never(arguments) {
        return Ok(Indices::Never);
    }
    direction_called(
        alloc, walking, around, place, number, callee, direction, nested, arguments,
    )
}

/// A call of a direction of a mapping. It fails where memory is wanting, and where variables are too many.
fn direction_call(
    alloc: Global,
    walking: &mut Walking,
    around: &Around<'_>,
    place: Place,
    number: u32,
    callee: u32,
    nested: &[bool],
    arguments: &[Indices],
) -> Result<Indices, AllocError>
    ensures value { IfOk result (λ made. made
        ≡ walk.got (calls.direction_call (around_of around.now) place number callee (slice_get (around_of around.now).directions callee) nested.now
        arguments.now) (walk.seen walking.old)) }
    ensures walked { OnOk result (walk.seen walking.new
        ≡ walk.run (calls.direction_call (around_of around.now) place number callee (slice_get (around_of around.now).directions callee) nested.now
        arguments.now) (walk.seen walking.old)) }
{
    match around.directions.get(callee as usize) {
        None => wrong_value(alloc, walking, place),
        Some(direction) => known_direction(
            alloc, walking, around, place, number, callee, direction, nested, arguments,
        ),
    }
}

/// A call of a builtin, noted.
#[tactic(auto, using(value_indices::proofs::Walks::walks))]
fn row_called(
    alloc: Global,
    walking: &mut Walking,
    types: &Types,
    place: Place,
    number: u32,
    row: Row,
    arguments: &[Indices],
) -> Result<Indices, AllocError>
    ensures value { IfOk result (λ made. made ≡ walk.got (calls.row_called types.now place number row arguments.now) (walk.seen walking.old)) }
    ensures walked { OnOk result (walk.seen walking.new ≡ walk.run (calls.row_called types.now place number row arguments.now) (walk.seen walking.old)) }
{
    let callee = Callee::Row(row);
    let indices = Items::new(alloc);
    let readings = Items::new(alloc);
    note_call(
        alloc, walking, place, number, arguments, callee, indices, readings,
    )?;
    let value = row_call(alloc, walking, types, place, row, arguments)?;
    node_ended(alloc, walking, number, arguments, value)
}

/// What a call, by the node of a number at a place, owes and gives, on arguments that have been walked, of which some owe what they owe
/// further in. A constructor is called by `made_named`, and is wrong here; so is a direction that is applied, since none is a function
/// that gives an option yet. It fails where memory is wanting, and where variables are too many.
pub fn called(
    alloc: Global,
    walking: &mut Walking,
    around: &Around<'_>,
    place: Place,
    number: u32,
    callee: Callee,
    nested: &[bool],
    arguments: &[Indices],
) -> Result<Indices, AllocError>
    ensures value { IfOk result (λ made. made
        ≡ walk.got (calls.called (around_of around.now) place number callee nested.now arguments.now) (walk.seen walking.old)) }
    ensures walked { OnOk result (walk.seen walking.new
        ≡ walk.run (calls.called (around_of around.now) place number callee nested.now arguments.now) (walk.seen walking.old)) }
{
    match callee {
        Callee::Function(function) => function_call(
            alloc, walking, around, place, number, function, nested, arguments,
        ),
        Callee::Row(row) => row_called(alloc, walking, around.types, place, number, row, arguments),
        Callee::Constructor(_, _) => wrong_value(alloc, walking, place),
        Callee::Converts(direction) => direction_call(
            alloc, walking, around, place, number, direction, nested, arguments,
        ),
        Callee::Applies(_) => wrong_value(alloc, walking, place),
    }
}

/// The types of the parameters of a function, by its number; none where there is no such one.
fn parameter_types<'a>(functions: &'a [Function], function: u32) -> &'a [Typ]
    ensures { result.now ≡ calls.parameter_types (slice_get functions.now function) }
{
    match functions.get(function as usize) {
        None => &[],
        Some(function) => function.parameters.as_slice(),
    }
}

/// The type that a direction takes, by its number; none where there is no such one.
fn direction_types<'a>(directions: &'a [Direction], direction: u32) -> &'a [Typ]
    ensures { result.now ≡ calls.direction_types (slice_get directions.now direction) }
{
    match directions.get(direction as usize) {
        None => &[],
        Some(direction) => std::slice::from_ref(&direction.parameter),
    }
}

/// The types of the parameters of a function or a direction of a mapping; none of another callee.
pub fn callee_types<'a>(around: &Around<'a>, callee: Callee) -> &'a [Typ]
    ensures { result.now ≡ calls.callee_types (around_of around.now) callee }
{
    match callee {
        Callee::Function(function) => parameter_types(around.functions, function),
        Callee::Row(_) => &[],
        Callee::Constructor(_, _) => &[],
        Callee::Converts(direction) => direction_types(around.directions, direction),
        Callee::Applies(direction) => direction_types(around.directions, direction),
    }
}
