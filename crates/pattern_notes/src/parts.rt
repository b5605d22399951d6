//! The walk over a pattern.
ghost use Rattle.std.specs.Prelude.{◌≡◌, map, slice_get, IfOk, OnOk};
ghost use Rattle.sail_core.specs.declared.patterns.Form.TheVariants as F;
ghost use Rattle.value_indices.specs.Walking as walk;
ghost use Rattle.pattern_notes.specs.Patterns as patterns;
ghost use Rattle.pattern_leaves.specs.Settings as settings;

use crate::heads::match_opened;
use crate::looks::naming_of;
use crate::matching::{Matching, inside};
use crate::taking::take_out;
use crate::typed::{option_of, owe_annotation, owe_parameter, result_of, write_types};
use pattern_leaves::{Around, Bound, name_value, wrong_pattern};
use sail_base::{Items, Place, Text};
use sail_core::{Direction, Form, Pattern, Written};
use std::alloc::{AllocError, Global};
use value_indices::{Indices, Reading, Walking};

/// The walk over a pattern that is matched with a value of these indices: what it owes and makes known is written down, and the names
/// that it binds are given, in order. The one error is want of memory, also of numbers for variables.
#[cycle(matched)]
pub fn match_pattern(
    alloc: Global,
    pattern: &Pattern,
    around: &Around<'_>,
    how: Matching,
    indices: &Indices,
    walking: &mut Walking,
) -> Result<Items<Bound>, AllocError>
    ensures found { IfOk result (λ found. found
        ≡ walk.got (patterns.matched pattern.now (settings.around_of around.now) how indices.now) (walk.seen walking.old)) }
    ensures walked { OnOk result (walk.seen walking.new
        ≡ walk.run (patterns.matched pattern.now (settings.around_of around.now) how indices.now) (walk.seen walking.old)) }
{
    match_form(
        alloc,
        pattern.place,
        &pattern.form,
        pattern.parts.as_slice(),
        around,
        how,
        indices,
        walking,
    )
}

/// A form over these parts. The one error is want of memory.
#[cycle(matched)]
fn match_form(
    alloc: Global,
    place: Place,
    form: &Form,
    parts: &[Pattern],
    around: &Around<'_>,
    how: Matching,
    indices: &Indices,
    walking: &mut Walking,
) -> Result<Items<Bound>, AllocError>
    ensures found { IfOk result (λ found. found
        ≡ walk.got (patterns.form_match place form.now (map patterns.look parts.now) (settings.around_of around.now) how indices.now)
        (walk.seen walking.old)) }
    ensures walked { OnOk result (walk.seen walking.new
        ≡ walk.run (patterns.form_match place form.now (map patterns.look parts.now) (settings.around_of around.now) how indices.now)
        (walk.seen walking.old)) }
{
    match form {
        Form::Any => match_any(alloc, place, parts, walking),
        Form::Binds(name) => match_name(alloc, place, name, parts, indices, walking),
        Form::As(name) => { match_as(alloc, place, name, parts, around, how, indices, walking) }
        Form::Typed(written) => {
            match_typed(alloc, place, written, parts, around, how, indices, walking)
        }
        Form::Opens(head) => match_opened(alloc, place, head, parts, around, how, indices, walking),
        Form::Maps(number) => {
            match_maps(alloc, place, *number, parts, around, how, indices, walking)
        }
        Form::Sees(number) => {
            match_sees(alloc, place, *number, parts, around, how, indices, walking)
        }
    }
}

/// `_`. The one error is want of memory.
fn match_any(
    alloc: Global,
    place: Place,
    parts: &[Pattern],
    walking: &mut Walking,
) -> Result<Items<Bound>, AllocError>
    ensures found { IfOk result (λ found. found ≡ walk.got (patterns.nothing_met place (map patterns.look parts.now)) (walk.seen walking.old)) }
    ensures walked { OnOk result (walk.seen walking.new
        ≡ walk.run (patterns.nothing_met place (map patterns.look parts.now)) (walk.seen walking.old)) }
{
    match parts {
        [] => Ok(Items::new(alloc)),
        _ => wrong_pattern(alloc, place, walking),
    }
}

/// An identifier that binds. The one error is want of memory.
fn match_name(
    alloc: Global,
    place: Place,
    name: &Text,
    parts: &[Pattern],
    indices: &Indices,
    walking: &mut Walking,
) -> Result<Items<Bound>, AllocError>
    ensures found { IfOk result (λ found. found
        ≡ walk.got (patterns.name_met place name.now (map patterns.look parts.now) indices.now) (walk.seen walking.old)) }
    ensures walked { OnOk result (walk.seen walking.new
        ≡ walk.run (patterns.name_met place name.now (map patterns.look parts.now) indices.now) (walk.seen walking.old)) }
{
    match parts {
        [] => {
            let mut found = Items::new(alloc);
            found.push(name_value(alloc, name, indices)?)?;
            Ok(found)
        }
        _ => wrong_pattern(alloc, place, walking),
    }
}

/// A pattern with a name. The one error is want of memory.
#[cycle(matched)]
fn match_as(
    alloc: Global,
    place: Place,
    name: &Text,
    parts: &[Pattern],
    around: &Around<'_>,
    how: Matching,
    indices: &Indices,
    walking: &mut Walking,
) -> Result<Items<Bound>, AllocError>
    ensures found { IfOk result (λ found. found
        ≡ walk.got (patterns.form_match place (F.As name.now) (map patterns.look parts.now) (settings.around_of around.now) how indices.now)
        (walk.seen walking.old)) }
    ensures walked { OnOk result (walk.seen walking.new
        ≡ walk.run (patterns.form_match place (F.As name.now) (map patterns.look parts.now) (settings.around_of around.now) how indices.now)
        (walk.seen walking.old)) }
{
    match parts {
        [part] => {
            let mut found = match_pattern(alloc, part, around, how, indices, walking)?;
            found.push(name_value(alloc, name, indices)?)?;
            Ok(found)
        }
        _ => wrong_pattern(alloc, place, walking),
    }
}

/// A pattern with a type. The one error is want of memory.
#[cycle(matched)]
fn match_typed(
    alloc: Global,
    place: Place,
    written: &Written,
    parts: &[Pattern],
    around: &Around<'_>,
    how: Matching,
    indices: &Indices,
    walking: &mut Walking,
) -> Result<Items<Bound>, AllocError>
    ensures found { IfOk result (λ found. found
        ≡ walk.got (patterns.form_match place (F.Typed written.now) (map patterns.look parts.now) (settings.around_of around.now) how indices.now)
        (walk.seen walking.old)) }
    ensures walked { OnOk result (walk.seen walking.new
        ≡ walk.run (patterns.form_match place (F.Typed written.now) (map patterns.look parts.now) (settings.around_of around.now) how indices.now)
        (walk.seen walking.old)) }
{
    match parts {
        [part] => {
            let found = match_annotated(
                alloc, place, written, part, around, how, indices, walking,
            )?;
            write_types(alloc, around, written, part, found)
        }
        _ => wrong_pattern(alloc, place, walking),
    }
}

/// A pattern with a type, which is owed behind what the pattern owes. The one error is want of memory.
#[cycle(matched)]
fn match_annotated(
    alloc: Global,
    place: Place,
    written: &Written,
    part: &Pattern,
    around: &Around<'_>,
    how: Matching,
    indices: &Indices,
    walking: &mut Walking,
) -> Result<Items<Bound>, AllocError>
    ensures found { IfOk result (λ found. found
        ≡ walk.got (patterns.annotated_met place written.now (patterns.look part.now) (settings.around_of around.now) how indices.now)
        (walk.seen walking.old)) }
    ensures walked { OnOk result (walk.seen walking.new
        ≡ walk.run (patterns.annotated_met place written.now (patterns.look part.now) (settings.around_of around.now) how indices.now)
        (walk.seen walking.old)) }
{
    walking.remember()?;
    let found = match_pattern(alloc, part, around, inside(how), indices, walking)?;
    owe_annotation(alloc, place, written, around, how.is_owed, indices, walking)?;
    walking.forget()?;
    Ok(found)
}

/// What a direction of a mapping gives. The one error is want of memory.
#[cycle(matched)]
fn match_maps(
    alloc: Global,
    place: Place,
    number: u32,
    parts: &[Pattern],
    around: &Around<'_>,
    how: Matching,
    indices: &Indices,
    walking: &mut Walking,
) -> Result<Items<Bound>, AllocError>
    ensures found { IfOk result (λ found. found
        ≡ walk.got (patterns.form_match place (F.Maps number) (map patterns.look parts.now) (settings.around_of around.now) how indices.now)
        (walk.seen walking.old)) }
    ensures walked { OnOk result (walk.seen walking.new
        ≡ walk.run (patterns.form_match place (F.Maps number) (map patterns.look parts.now) (settings.around_of around.now) how indices.now)
        (walk.seen walking.old)) }
{
    match parts {
        [part] => match_maps_to(alloc, place, number, part, around, how, indices, walking),
        _ => wrong_pattern(alloc, place, walking),
    }
}

/// The same of one pattern. The one error is want of memory.
#[cycle(matched)]
fn match_maps_to(
    alloc: Global,
    place: Place,
    number: u32,
    part: &Pattern,
    around: &Around<'_>,
    how: Matching,
    indices: &Indices,
    walking: &mut Walking,
) -> Result<Items<Bound>, AllocError>
    ensures found { IfOk result (λ found. found
        ≡ walk.got (patterns.direction_met place number (slice_get (settings.around_of around.now).directions number) patterns.result_of
        (patterns.look part.now) (settings.around_of around.now) how indices.now) (walk.seen walking.old)) }
    ensures walked { OnOk result (walk.seen walking.new
        ≡ walk.run (patterns.direction_met place number (slice_get (settings.around_of around.now).directions number) patterns.result_of
        (patterns.look part.now) (settings.around_of around.now) how indices.now) (walk.seen walking.old)) }
{
    match around.direction(number) {
        Some(direction) => {
            let given = result_of(alloc, direction)?;
            match_direction(
                alloc, place, number, direction, &given, part, around, how, indices, walking,
            )
        }
        None => wrong_pattern(alloc, place, walking),
    }
}

/// The option that a direction of a mapping gives, once it is a function. The one error is want of memory.
#[cycle(matched)]
fn match_sees(
    alloc: Global,
    place: Place,
    number: u32,
    parts: &[Pattern],
    around: &Around<'_>,
    how: Matching,
    indices: &Indices,
    walking: &mut Walking,
) -> Result<Items<Bound>, AllocError>
    ensures found { IfOk result (λ found. found
        ≡ walk.got (patterns.form_match place (F.Sees number) (map patterns.look parts.now) (settings.around_of around.now) how indices.now)
        (walk.seen walking.old)) }
    ensures walked { OnOk result (walk.seen walking.new
        ≡ walk.run (patterns.form_match place (F.Sees number) (map patterns.look parts.now) (settings.around_of around.now) how indices.now)
        (walk.seen walking.old)) }
{
    match parts {
        [part] => match_sees_to(alloc, place, number, part, around, how, indices, walking),
        _ => wrong_pattern(alloc, place, walking),
    }
}

/// The same of one pattern. The one error is want of memory.
#[cycle(matched)]
fn match_sees_to(
    alloc: Global,
    place: Place,
    number: u32,
    part: &Pattern,
    around: &Around<'_>,
    how: Matching,
    indices: &Indices,
    walking: &mut Walking,
) -> Result<Items<Bound>, AllocError>
    ensures found { IfOk result (λ found. found
        ≡ walk.got (patterns.direction_met place number (slice_get (settings.around_of around.now).directions number) patterns.option_of
        (patterns.look part.now) (settings.around_of around.now) how indices.now) (walk.seen walking.old)) }
    ensures walked { OnOk result (walk.seen walking.new
        ≡ walk.run (patterns.direction_met place number (slice_get (settings.around_of around.now).directions number) patterns.option_of
        (patterns.look part.now) (settings.around_of around.now) how indices.now) (walk.seen walking.old)) }
{
    match around.direction(number) {
        Some(direction) => {
            let given = option_of(alloc, direction)?;
            match_direction(
                alloc, place, number, direction, &given, part, around, how, indices, walking,
            )
        }
        None => wrong_pattern(alloc, place, walking),
    }
}

/// A direction of a mapping that gives a value of this type. The one error is want of memory.
#[cycle(matched)]
fn match_direction(
    alloc: Global,
    place: Place,
    number: u32,
    direction: &Direction,
    given: &Reading,
    part: &Pattern,
    around: &Around<'_>,
    how: Matching,
    indices: &Indices,
    walking: &mut Walking,
) -> Result<Items<Bound>, AllocError>
    ensures found { IfOk result (λ found. found
        ≡ walk.got (patterns.given_met place number direction.now given.now (patterns.look part.now) (settings.around_of around.now) how indices.now)
        (walk.seen walking.old)) }
    ensures walked { OnOk result (walk.seen walking.new
        ≡ walk.run (patterns.given_met place number direction.now given.now (patterns.look part.now) (settings.around_of around.now) how indices.now)
        (walk.seen walking.old)) }
{
    walking.note_way(number)?;
    walking.remember()?;
    let found = match_given(alloc, place, given, part, around, how, walking)?;
    owe_parameter(alloc, place, direction, around, indices, walking)?;
    walking.forget()?;
    Ok(found)
}

/// A value of a type, taken out and matched. The one error is want of memory.
#[cycle(matched)]
pub(crate) fn match_given(
    alloc: Global,
    place: Place,
    given: &Reading,
    part: &Pattern,
    around: &Around<'_>,
    how: Matching,
    walking: &mut Walking,
) -> Result<Items<Bound>, AllocError>
    ensures found { IfOk result (λ found. found
        ≡ walk.got (patterns.item_met place (patterns.look part.now) (settings.around_of around.now) how given.now) (walk.seen walking.old)) }
    ensures walked { OnOk result (walk.seen walking.new
        ≡ walk.run (patterns.item_met place (patterns.look part.now) (settings.around_of around.now) how given.now) (walk.seen walking.old)) }
{
    let naming = naming_of(alloc, part)?;
    let taken = take_out(alloc, place, &naming, given, walking)?;
    match_pattern(alloc, part, around, inside(how), &taken, walking)
}
