//! The walk over several patterns, one after the other.
ghost use Rattle.std.specs.Prelude.{◌≡◌, if◌then◌else◌, map, length, slice_get, IfOk, OnOk};
ghost use Rattle.std.specs.Option.{option_copied};
ghost use Rattle.sail_types.specs.Named.{payload as payload_in};
ghost use Rattle.sail_types.specs.Sums.{and_then, difference};
ghost use Rattle.value_indices.specs.Walking as walk;
ghost use Rattle.pattern_leaves.specs.Literals as literals;
ghost use Rattle.pattern_notes.specs.Patterns as patterns;
ghost use Rattle.pattern_leaves.specs.Payloads as payloads;
ghost use Rattle.pattern_leaves.specs.Settings as settings;

use crate::matching::{Matching, inside};
use crate::parts::{match_given, match_pattern};
use crate::taking::take_all;
use pattern_leaves::{
    Around, Bound, cut_conditions, cut_widths, first_sum, one_condition, payload, payload_readings,
    rest_of, wrong_pattern,
};
use sail_base::{Boxed, Items, Place};
use sail_core::Pattern;
use sail_types::{Index, Num, copy_num};
use std::alloc::{AllocError, Global};
use value_indices::{Indices, Reading, Walking, copy_reading, equal};

/// Patterns that are matched with as many values, from left to right; where they come to another number, what is false is owed. The one
/// error is want of memory, also of numbers for variables.
#[cycle(matched)]
pub(crate) fn match_parts(
    alloc: Global,
    place: Place,
    parts: &[Pattern],
    around: &Around<'_>,
    how: Matching,
    values: &[Indices],
    walking: &mut Walking,
) -> Result<Items<Bound>, AllocError>
    ensures found { IfOk result (λ found. found
        ≡ walk.got (patterns.parts_match place (map patterns.look parts.now) (settings.around_of around.now) how values.now) (walk.seen walking.old)) }
    ensures walked { OnOk result (walk.seen walking.new
        ≡ walk.run (patterns.parts_match place (map patterns.look parts.now) (settings.around_of around.now) how values.now) (walk.seen walking.old)) }
{
    match_counted(
        alloc,
        place,
        parts.len() == values.len(),
        parts,
        around,
        how,
        values,
        walking,
    )
}

/// Patterns and values, of which it is known whether they come to as many. The one error is want of memory, also of numbers for variables.
#[cycle(matched)]
fn match_counted(
    alloc: Global,
    place: Place,
    as_many: bool,
    parts: &[Pattern],
    around: &Around<'_>,
    how: Matching,
    values: &[Indices],
    walking: &mut Walking,
) -> Result<Items<Bound>, AllocError>
    ensures found { IfOk result (λ found. found ≡ walk.got (if as_many
        then patterns.each_match place (map patterns.look parts.now) (settings.around_of around.now) how values.now else literals.wrong_pattern place)
        (walk.seen walking.old)) }
    ensures walked { OnOk result (walk.seen walking.new ≡ walk.run (if as_many
        then patterns.each_match place (map patterns.look parts.now) (settings.around_of around.now) how values.now else literals.wrong_pattern place)
        (walk.seen walking.old)) }
{
    if as_many {
        match_each(alloc, place, parts, around, how, values, walking)
    } else {
        wrong_pattern(alloc, place, walking)
    }
}

/// Patterns that are matched with values, from left to right. The one error is want of memory, also of numbers for variables.
#[cycle(matched)]
fn match_each(
    alloc: Global,
    place: Place,
    parts: &[Pattern],
    around: &Around<'_>,
    how: Matching,
    values: &[Indices],
    walking: &mut Walking,
) -> Result<Items<Bound>, AllocError>
    ensures found { IfOk result (λ found. found
        ≡ walk.got (patterns.each_match place (map patterns.look parts.now) (settings.around_of around.now) how values.now) (walk.seen walking.old)) }
    ensures walked { OnOk result (walk.seen walking.new
        ≡ walk.run (patterns.each_match place (map patterns.look parts.now) (settings.around_of around.now) how values.now) (walk.seen walking.old)) }
{
    let mut found = Items::new(alloc);
    for (index, part) in parts.iter().enumerate() {
        match value_at(values, index) {
            Some(value) => {
                found.append(match_pattern(alloc, part, around, inside(how), value, walking)?)?;
            }
            None => return end_wrong(alloc, place, found, walking),
        }
    }
    let count = parts.len();
    let wanted = values.len();
    if count < wanted {
        end_wrong(alloc, place, found, walking)
    } else {
        Ok(found)
    }
}

/// The value at an index; none past the end.
fn value_at(values: &[Indices], index: usize) -> Option<&Indices>
    ensures { option_copied result ≡ slice_get values.now index }
{
    values.get(index)
}

/// Names, behind which patterns and values don't come to as many. The one error is want of memory.
fn end_wrong(
    alloc: Global,
    place: Place,
    found: Items<Bound>,
    walking: &mut Walking,
) -> Result<Items<Bound>, AllocError>
    ensures found { IfOk result (λ made. made ≡ found) }
    ensures walked { OnOk result (walk.seen walking.new ≡ walk.run (literals.wrong_pattern place) (walk.seen walking.old)) }
{
    walking.wrong(alloc, place)?;
    Ok(found)
}

/// Patterns that are matched with items of a type, each taken out. The one error is want of memory.
#[cycle(matched)]
pub(crate) fn match_items(
    alloc: Global,
    place: Place,
    parts: &[Pattern],
    around: &Around<'_>,
    how: Matching,
    item: &Reading,
    walking: &mut Walking,
) -> Result<Items<Bound>, AllocError>
    ensures found { IfOk result (λ found. found
        ≡ walk.got (patterns.items_met place (map patterns.look parts.now) (settings.around_of around.now) how item.now) (walk.seen walking.old)) }
    ensures walked { OnOk result (walk.seen walking.new
        ≡ walk.run (patterns.items_met place (map patterns.look parts.now) (settings.around_of around.now) how item.now) (walk.seen walking.old)) }
{
    let mut found = Items::new(alloc);
    for part in parts {
        found.append(match_given(alloc, place, item, part, around, how, walking)?)?;
    }
    Ok(found)
}

/// Patterns that are matched with no value. The one error is want of memory.
#[cycle(matched)]
pub(crate) fn match_never(
    alloc: Global,
    parts: &[Pattern],
    around: &Around<'_>,
    how: Matching,
    walking: &mut Walking,
) -> Result<Items<Bound>, AllocError>
    ensures found { IfOk result (λ found. found
        ≡ walk.got (patterns.each_met_never (map patterns.look parts.now) (settings.around_of around.now) how) (walk.seen walking.old)) }
    ensures walked { OnOk result (walk.seen walking.new
        ≡ walk.run (patterns.each_met_never (map patterns.look parts.now) (settings.around_of around.now) how) (walk.seen walking.old)) }
{
    let mut found = Items::new(alloc);
    for part in parts {
        let never = Indices::Never;
        found.append(match_pattern(alloc, part, around, inside(how), &never, walking)?)?;
    }
    Ok(found)
}

/// A first item of a type, and the list of the others. The one error is want of memory.
#[cycle(matched)]
pub(crate) fn match_cons(
    alloc: Global,
    place: Place,
    parts: &[Pattern],
    around: &Around<'_>,
    how: Matching,
    item: &Reading,
    walking: &mut Walking,
) -> Result<Items<Bound>, AllocError>
    ensures found { IfOk result (λ found. found
        ≡ walk.got (patterns.cons_met place (map patterns.look parts.now) (settings.around_of around.now) how item.now) (walk.seen walking.old)) }
    ensures walked { OnOk result (walk.seen walking.new
        ≡ walk.run (patterns.cons_met place (map patterns.look parts.now) (settings.around_of around.now) how item.now) (walk.seen walking.old)) }
{
    match parts {
        [first, rest] => {
            let mut found = match_given(alloc, place, item, first, around, how, walking)?;
            let list = Indices::List(Boxed::new(alloc, copy_reading(alloc, item)?)?);
            found.append(match_pattern(alloc, rest, around, inside(how), &list, walking)?)?;
            Ok(found)
        }
        _ => wrong_pattern(alloc, place, walking),
    }
}

/// The parts of a constructor, opened for the names at which they are matched. The one error is want of memory.
#[cycle(matched)]
pub(crate) fn match_constructor(
    alloc: Global,
    place: Place,
    union: u32,
    constructor: u32,
    parts: &[Pattern],
    around: &Around<'_>,
    how: Matching,
    numbers: &[Index],
    types: &[Reading],
    walking: &mut Walking,
) -> Result<Items<Bound>, AllocError>
    ensures found { IfOk result (λ found. found
        ≡ walk.got (patterns.constructor_met place (map patterns.look parts.now) (settings.around_of around.now) how
        (payloads.payload_readings (payloads.payload_types (length parts.now) (payload_in around.now.types.now union constructor))
        numbers.now types.now)) (walk.seen walking.old)) }
    ensures walked { OnOk result (walk.seen walking.new
        ≡ walk.run (patterns.constructor_met place (map patterns.look parts.now) (settings.around_of around.now) how
        (payloads.payload_readings (payloads.payload_types (length parts.now) (payload_in around.now.types.now union constructor))
        numbers.now types.now)) (walk.seen walking.old)) }
{
    let payload = payload(around.types, union, constructor);
    let readings = payload_readings(alloc, parts.len(), payload, numbers, types)?;
    let taken = take_all(alloc, place, parts, readings.as_slice(), walking)?;
    match_parts(alloc, place, parts, around, how, taken.as_slice(), walking)
}

/// The items of a vector of this length. The one error is want of memory.
#[cycle(matched)]
pub(crate) fn match_vector(
    alloc: Global,
    place: Place,
    parts: &[Pattern],
    around: &Around<'_>,
    how: Matching,
    length: &Num,
    item: &Reading,
    walking: &mut Walking,
) -> Result<Items<Bound>, AllocError>
    ensures found { IfOk result (λ found. found
        ≡ walk.got (patterns.vector_met place (map patterns.look parts.now) (settings.around_of around.now) how length.now item.now)
        (walk.seen walking.old)) }
    ensures walked { OnOk result (walk.seen walking.new
        ≡ walk.run (patterns.vector_met place (map patterns.look parts.now) (settings.around_of around.now) how length.now item.now)
        (walk.seen walking.old)) }
{
    walking.remember()?;
    let found = match_items(alloc, place, parts, around, how, item, walking)?;
    owe_length(alloc, place, parts.len(), length, walking)?;
    walking.forget()?;
    Ok(found)
}

/// Owes that a vector is so long, under what was remembered last. The one error is want of memory.
fn owe_length(
    alloc: Global,
    place: Place,
    count: usize,
    length: &Num,
    walking: &mut Walking,
) -> Result<(), AllocError>
    ensures { OnOk result (walk.seen walking.new
        ≡ walk.run (patterns.length_owed place count length.now (walk.remembered_last (walk.seen walking.old))) (walk.seen walking.old)) }
{
    let length = copy_num(alloc, length)?;
    let count = Num::constant(alloc, count as i128);
    let conditions = one_condition(alloc, Some(equal(count, length)))?;
    walking.owe_earlier(alloc, place, conditions)
}

/// A concatenation that is matched with bits of this width. The one error is want of memory, also of numbers for variables.
#[cycle(matched)]
pub(crate) fn match_cut(
    alloc: Global,
    place: Place,
    parts: &[Pattern],
    around: &Around<'_>,
    how: Matching,
    widths: &[Option<Num>],
    width: &Num,
    walking: &mut Walking,
) -> Result<Items<Bound>, AllocError>
    ensures found { IfOk result (λ found. found
        ≡ walk.got (patterns.cut_met place (map patterns.look parts.now) (settings.around_of around.now) how widths.now width.now)
        (walk.seen walking.old)) }
    ensures walked { OnOk result (walk.seen walking.new
        ≡ walk.run (patterns.cut_met place (map patterns.look parts.now) (settings.around_of around.now) how widths.now width.now)
        (walk.seen walking.old)) }
{
    let total = first_sum(alloc, widths)?;
    let rest = rest_of(alloc, width, &total)?;
    let conditions = cut_conditions(alloc, width, total, widths)?;
    walking.remember()?;
    let found = match_cut_parts(alloc, place, parts, around, how, widths, &rest, walking)?;
    walking.owe_earlier(alloc, place, conditions)?;
    walking.forget()?;
    Ok(found)
}

/// The parts of a concatenation, each of its width. The one error is want of memory, also of numbers for variables.
#[cycle(matched)]
fn match_cut_parts(
    alloc: Global,
    place: Place,
    parts: &[Pattern],
    around: &Around<'_>,
    how: Matching,
    widths: &[Option<Num>],
    rest: &Option<Num>,
    walking: &mut Walking,
) -> Result<Items<Bound>, AllocError>
    ensures found { IfOk result (λ found. found
        ≡ walk.got (patterns.cut_parts place (map patterns.look parts.now) (settings.around_of around.now) how widths.now rest.now)
        (walk.seen walking.old)) }
    ensures walked { OnOk result (walk.seen walking.new
        ≡ walk.run (patterns.cut_parts place (map patterns.look parts.now) (settings.around_of around.now) how widths.now rest.now)
        (walk.seen walking.old)) }
{
    let values = cut_widths(alloc, place, rest, widths, walking)?;
    match_parts(alloc, place, parts, around, how, values.as_slice(), walking)
}
