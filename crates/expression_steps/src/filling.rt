//! Holes in the type of a value that is there, which new values of its parts fill.
ghost use Rattle.std.specs.Prelude.{◌≡◌, slice_get, IfOk, OnOk};
ghost use Rattle.value_indices.specs.Walking as walk;
ghost use Rattle.value_indices.specs.declared.indices.Indices.{out-Indices};
ghost use Rattle.pattern_leaves.specs.Settings.{around_of};
ghost use Rattle.expression_steps.specs.Filling as filling;

use crate::ends::{first_item, owe_item};
use call_arguments::{has_hole, types_from, types_without_holes, without_holes};
use call_notes::{Aim, node_ended, owe_value};
use expression_forms::{Reached, fields_of, owe_part, update_operands};
use pattern_leaves::Around;
use sail_base::{Boxed, Items, Place};
use sail_types::{Index, Num, Typ, copy_num};
use std::alloc::{AllocError, Global};
use type_arguments::copy_indices as copy_numbers;
use value_fits::Wanted;
use value_indices::{Indices, Reading, Walking, copy_each, copy_indices, copy_reading};
use wide_types::widened;

/// Whether one of these types has a hole inside.
pub(crate) fn any_holed(readings: &[Reading]) -> bool
    ensures { result ≡ filling.any_holed readings.now }
{
    for reading in readings {
        if has_hole(reading) {
            return true;
        }
    }
    false
}

/// A type, but where it has a hole inside and the other one has none, that. It fails where memory is wanting.
fn filled_or(alloc: Global, reading: &Reading, other: &Reading) -> Result<Reading, AllocError>
    ensures { IfOk result (λ made. made ≡ filling.filled_or reading.now other.now) }
{
    if has_hole(other) {
        return copy_reading(alloc, reading);
    }
    if has_hole(reading) {
        copy_reading(alloc, other)
    } else {
        copy_reading(alloc, reading)
    }
}

/// The same, where the other one is at an index, if there is one.
fn filled_at(
    alloc: Global,
    reading: &Reading,
    others: &[Reading],
    index: usize,
) -> Result<Reading, AllocError>
    ensures { IfOk result (λ made. made ≡ filling.filled_at reading.now (slice_get others.now index)) }
{
    match others.get(index) {
        None => copy_reading(alloc, reading),
        Some(other) => filled_or(alloc, reading, other),
    }
}

/// The same of each of several types.
fn each_filled(
    alloc: Global,
    readings: &[Reading],
    others: &[Reading],
) -> Result<Items<Reading>, AllocError>
    ensures { IfOk result (λ made. made ≡ filling.each_filled readings.now others.now) }
{
    let mut made = Items::new(alloc);
    for index in 0..readings.len() {
        made.push(filled_at(alloc, &readings[index], others, index)?)?;
    }
    Ok(made)
}

/// What the Type variables of a struct stand for, once these are the values of fields of these types.
fn types_behind(
    alloc: Global,
    from: u32,
    types: &[Typ],
    readings: &[Reading],
    values: &[Indices],
) -> Result<Items<Reading>, AllocError>
    ensures { IfOk result (λ made. made ≡ filling.types_behind from types.now readings.now values.now) }
{
    let found = types_from(alloc, from, readings.len(), types, values)?;
    each_filled(alloc, readings, found.as_slice())
}

/// A struct of this type, which new values of fields owe, and what it was.
#[tactic(auto, using(value_indices::proofs::Walks::walks))]
fn refilled(
    alloc: Global,
    walking: &mut Walking,
    around: &Around<'_>,
    place: Place,
    types: Items<Typ>,
    value: &Indices,
    named: u32,
    numbers: &[Index],
    readings: Items<Reading>,
    values: Items<Indices>,
) -> Result<Indices, AllocError>
    ensures value { IfOk result (λ made. made ≡ walk.got (filling.refilled (around_of around.now) place types value.now named numbers.now readings
        values) (walk.seen walking.old)) }
    ensures walked { OnOk result (walk.seen walking.new ≡ walk.run (filling.refilled (around_of around.now) place types value.now named numbers.now
        readings values) (walk.seen walking.old)) }
{
    let allowed = types_without_holes(alloc, readings.as_slice())?;
    let typ = Typ::Tuple(types);
    let fields = Indices::Tuple(values);
    let wanted = Wanted::Of(&typ, numbers, allowed.as_slice());
    owe_value(alloc, walking, around.types, place, &fields, &wanted)?;
    let whole = Indices::Named(named, copy_numbers(alloc, numbers)?, allowed);
    let wanted = Wanted::Widened(&whole);
    owe_value(alloc, walking, around.types, place, value, &wanted)?;
    Ok(Indices::Named(named, copy_numbers(alloc, numbers)?, readings))
}

/// A struct whose type has a hole inside, with new values of fields of these types.
#[tactic(auto, using(value_indices::proofs::Walks::walks))]
fn with_filled(
    alloc: Global,
    walking: &mut Walking,
    around: &Around<'_>,
    place: Place,
    types: Items<Typ>,
    value: &Indices,
    values: Items<Indices>,
) -> Result<Indices, AllocError>
    ensures value { IfOk result (λ made. made ≡ walk.got (filling.with_filled (around_of around.now) place types value.now values
        (out-Indices value.now)) (walk.seen walking.old)) }
    ensures walked { OnOk result (walk.seen walking.new ≡ walk.run (filling.with_filled (around_of around.now) place types value.now values
        (out-Indices value.now)) (walk.seen walking.old)) }
{
    match value {
        Indices::Named(named, numbers, readings) => {
            let behind = types_behind(
                alloc,
                walking.next(),
                types.as_slice(),
                readings.as_slice(),
                values.as_slice(),
            )?;
            refilled(
                alloc,
                walking,
                around,
                place,
                types,
                value,
                *named,
                numbers.as_slice(),
                behind,
                values,
            )
        }
        _ => copy_indices(alloc, value),
    }
}

/// Whether what the Type variables of a struct stand for has a hole inside.
fn struct_holed(value: &Indices) -> bool
    ensures { result ≡ filling.struct_holed (out-Indices value.now) }
{
    match value {
        Indices::Named(_, _, readings) => any_holed(readings.as_slice()),
        _ => false,
    }
}

/// A struct with new values of these fields, by its place in the table and theirs: of the type that it was, in which a hole is filled by
/// what they give. It fails where memory is wanting, and where variables are too many.
#[tactic(auto, using(value_indices::proofs::Walks::walks))]
fn with_made(
    alloc: Global,
    walking: &mut Walking,
    around: &Around<'_>,
    place: Place,
    named: u32,
    fields: &[u32],
    value: Indices,
    values: Items<Indices>,
) -> Result<Indices, AllocError>
    ensures value { IfOk result (λ made. made
        ≡ walk.got (filling.with_made (around_of around.now) place named fields.now value values) (walk.seen walking.old)) }
    ensures walked { OnOk result (walk.seen walking.new
        ≡ walk.run (filling.with_made (around_of around.now) place named fields.now value values) (walk.seen walking.old)) }
{
    if struct_holed(&value) {
        let types = fields_of(alloc, around, named, fields)?;
        with_filled(alloc, walking, around, place, types, &value, values)
    } else {
        Ok(value)
    }
}

/// The same, as the node of a number makes it, which is noted. It fails where memory is wanting, and where variables are too many.
#[tactic(auto, using(value_indices::proofs::Walks::walks))]
pub fn with_ended(
    alloc: Global,
    walking: &mut Walking,
    around: &Around<'_>,
    place: Place,
    number: u32,
    named: u32,
    fields: &[u32],
    value: Indices,
    values: Items<Indices>,
) -> Result<Indices, AllocError>
    ensures value { IfOk result (λ made. made
        ≡ walk.got (filling.with_ended (around_of around.now) place number named fields.now value values) (walk.seen walking.old)) }
    ensures walked { OnOk result (walk.seen walking.new
        ≡ walk.run (filling.with_ended (around_of around.now) place number named fields.now value values) (walk.seen walking.old)) }
{
    let mut operands = first_item(alloc, copy_indices(alloc, &value)?)?;
    operands.append(copy_each(alloc, values.as_slice())?)?;
    let made = with_made(alloc, walking, around, place, named, fields, value, values)?;
    node_ended(alloc, walking, number, operands.as_slice(), made)
}

/// What is wanted of a part of this type that is put in: nothing where that has a hole inside. It fails where memory is wanting.
pub fn put_aim(alloc: Global, reading: &Reading) -> Result<Aim, AllocError>
    ensures { IfOk result (λ made. made ≡ filling.put_aim reading.now) }
{
    if has_hole(reading) {
        Ok(Aim::Free)
    } else {
        Ok(Aim::given(copy_reading(alloc, reading)?))
    }
}

/// A vector of items of this type, which a new one owes, and what the vector was.
#[tactic(auto, using(value_indices::proofs::Walks::walks))]
fn items_filled(
    alloc: Global,
    walking: &mut Walking,
    around: &Around<'_>,
    place: Place,
    value: &Indices,
    length: &Num,
    new: &Indices,
    reading: Reading,
) -> Result<Indices, AllocError>
    ensures value { IfOk result (λ made. made ≡ walk.got (filling.items_filled (around_of around.now) place value.now length.now new.now reading)
        (walk.seen walking.old)) }
    ensures walked { OnOk result (walk.seen walking.new ≡ walk.run (filling.items_filled (around_of around.now) place value.now length.now new.now
        reading) (walk.seen walking.old)) }
{
    let allowed = without_holes(alloc, &reading)?;
    owe_item(alloc, walking, around, place, &allowed, new)?;
    let whole = Indices::Vector(copy_num(alloc, length)?, Boxed::new(alloc, allowed)?);
    let wanted = Wanted::Widened(&whole);
    owe_value(alloc, walking, around.types, place, value, &wanted)?;
    Ok(Indices::Vector(copy_num(alloc, length)?, Boxed::new(alloc, reading)?))
}

/// A value in which a new one is put at a part of this type, which has a hole inside.
#[tactic(auto, using(value_indices::proofs::Walks::walks))]
fn part_holed(
    alloc: Global,
    walking: &mut Walking,
    around: &Around<'_>,
    place: Place,
    value: &Indices,
    reading: &Reading,
    new: &Indices,
) -> Result<Indices, AllocError>
    ensures value { IfOk result (λ made. made ≡ walk.got (filling.part_holed (around_of around.now) place value.now reading.now new.now
        (out-Indices value.now)) (walk.seen walking.old)) }
    ensures walked { OnOk result (walk.seen walking.new ≡ walk.run (filling.part_holed (around_of around.now) place value.now reading.now new.now
        (out-Indices value.now)) (walk.seen walking.old)) }
{
    match value {
        Indices::Vector(length, _) => {
            let other = widened(alloc, new)?;
            let reading = filled_or(alloc, reading, &other)?;
            items_filled(alloc, walking, around, place, value, length, new, reading)
        }
        _ => {
            let allowed = without_holes(alloc, reading)?;
            owe_item(alloc, walking, around, place, &allowed, new)?;
            copy_indices(alloc, value)
        }
    }
}

/// A value in which a new one is put at a part of this type, once the part is owed.
#[tactic(auto, using(value_indices::proofs::Walks::walks))]
fn part_behind(
    alloc: Global,
    walking: &mut Walking,
    around: &Around<'_>,
    place: Place,
    value: Indices,
    reading: &Reading,
    new: &Indices,
) -> Result<Indices, AllocError>
    ensures value { IfOk result (λ made. made ≡ walk.got (filling.part_behind (around_of around.now) place value reading.now new.now)
        (walk.seen walking.old)) }
    ensures walked { OnOk result (walk.seen walking.new ≡ walk.run (filling.part_behind (around_of around.now) place value reading.now new.now)
        (walk.seen walking.old)) }
{
    if has_hole(reading) {
        part_holed(alloc, walking, around, place, &value, reading, new)
    } else {
        Ok(value)
    }
}

/// A value in which a new one is put at a part, which may owe further in that it is of the part's type. It fails where memory is wanting,
/// and where variables are too many.
#[tactic(auto, using(value_indices::proofs::Walks::walks))]
fn part_put(
    alloc: Global,
    walking: &mut Walking,
    around: &Around<'_>,
    place: Place,
    is_nested: bool,
    value: Indices,
    reached: &Reached,
    new: &Indices,
) -> Result<Indices, AllocError>
    ensures value { IfOk result (λ made. made
        ≡ walk.got (filling.part_put (around_of around.now) place is_nested value reached.now new.now) (walk.seen walking.old)) }
    ensures walked { OnOk result (walk.seen walking.new
        ≡ walk.run (filling.part_put (around_of around.now) place is_nested value reached.now new.now) (walk.seen walking.old)) }
{
    let owes_later = has_hole(&reached.typ) || is_nested;
    owe_part(alloc, walking, around, place, reached, owes_later, new)?;
    part_behind(alloc, walking, around, place, value, &reached.typ, new)
}

/// The same, as the node of a number makes it, which is noted. It fails where memory is wanting, and where variables are too many.
#[tactic(auto, using(value_indices::proofs::Walks::walks))]
pub fn put_ended(
    alloc: Global,
    walking: &mut Walking,
    around: &Around<'_>,
    place: Place,
    number: u32,
    is_nested: bool,
    value: Indices,
    reached: &Reached,
    new: &Indices,
) -> Result<Indices, AllocError>
    ensures value { IfOk result (λ made. made
        ≡ walk.got (filling.put_ended (around_of around.now) place number is_nested value reached.now new.now) (walk.seen walking.old)) }
    ensures walked { OnOk result (walk.seen walking.new
        ≡ walk.run (filling.put_ended (around_of around.now) place number is_nested value reached.now new.now) (walk.seen walking.old)) }
{
    let operands = update_operands(alloc, &value, reached, new)?;
    let made = part_put(
        alloc, walking, around, place, is_nested, value, reached, new,
    )?;
    node_ended(alloc, walking, number, operands.as_slice(), made)
}
