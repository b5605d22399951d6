//! Numbers that values give: each is noted where its value has come to its place.
ghost use Rattle.std.specs.Prelude.{◌≡◌, ◌+◌, [], ◌∷◌, ◌++◌, map, OnOk};
ghost use Rattle.sail_core.specs.declared.tree.Giver.TheVariants as giver;
ghost use Rattle.size_values.specs.declared.sized.Sized.{out-Sized};
ghost use Rattle.size_values.specs.declared.sized.Sized.TheVariants as sized_type;
ghost use Rattle.jib.specs.declared.code.Literal.TheVariants as literal;
ghost use Rattle.sized_meanings.specs.Present.{gives_at};
ghost use Rattle.value_indices.specs.declared.indices.Indices.{out-Indices};
ghost use Rattle.lowered_pieces.specs.Arms.{arm_noted, tuple_noted, values_noted};
ghost use Rattle.lowered_pieces.specs.Emitted.{Emits, no_labels};
ghost use Rattle.call_arguments.specs.Placing.{variable_in};
ghost use Rattle.lowered_pieces.specs.Forms.{all_notes, kit_at, known_noted, note_code, noter_of, notes_of, number_noted, one_or_none};
ghost use Rattle.lowered_pieces.specs.Places.{from};
ghost use Rattle.lowered_steps.specs.Hands.{held_of};
ghost use Rattle.lowered_steps.specs.Found.{indices_of};
ghost use Rattle.lowered_steps.specs.Noting.{is_any_noting, is_noting};
ghost use Rattle.lowered_steps.specs.Noting as spec;
ghost use Rattle.lowered_steps.specs.Setting.{kit_for, number_for, nodes_in};
ghost use Rattle.lowered_steps.specs.Stands.{depths_of};

use crate::hands::Held;
use crate::setting::{Setting, as_number, further};
use crate::stands::{Levels, depth_of};
use call_arguments::number_variable;
use jib::{Literal, Operation};
use lowered_pieces::Coding;
use lowered_slots::Place;
use sail_base::Items;
use sail_core::Giver;
use sail_types::Num;
use size_values::Sized;
use std::alloc::{AllocError, Global};
use value_indices::Indices;

/// Whether a value of this type gives a number.
#[cycle(is_noting)]
fn gives_number(indices: &Indices, sized: &Sized) -> bool
    ensures { result ≡ is_noting indices.now sized.now }
{
    match (indices, sized) {
        (Indices::Integer(number), Sized::Int) => number_variable(number).is_some(),
        (Indices::Bits(width), Sized::Bits(_)) => number_variable(width).is_some(),
        (Indices::Vector(length, _), Sized::Vector(_, _)) => number_variable(length).is_some(),
        (Indices::Tuple(parts), Sized::Tuple(types)) => gives_any(
            parts.as_slice(),
            types.as_slice(),
        ),
        _ => false,
    }
}

/// Whether one of the parts gives a number.
#[cycle(is_noting)]
fn gives_any(parts: &[Indices], types: &[Sized]) -> bool
    ensures { result ≡ is_any_noting parts.now types.now }
{
    for at in 0..parts.len() {
        match types.get(at) {
            Some(typ) => {
                if gives_number(&parts[at], typ) {
                    return true;
                }
            }
            None => return false,
        }
    }
    false
}

/// A number as a constant.
fn number_literal(number: &i128) -> Literal
    ensures { result ≡ literal.Integer number.now }
{
    Literal::Integer(*number)
}

/// A width or a length is noted for a variable that is it. It fails where memory is wanting.
fn put_known(
    coding: &mut Coding,
    setting: &Setting<'_>,
    levels: &Levels<'_>,
    number: &Num,
    known: &i128,
) -> Result<(), AllocError>
    ensures { OnOk result (Emits coding.old coding.new (λ name first.
        known_noted (kit_at (kit_for setting.now name) (depths_of levels.now)) (number_for setting.now) (variable_in number.now) known.now) no_labels) }
{
    match number_variable(number) {
        Some(variable) => {
            let depth = depth_of(variable, levels)?;
            let noted = Place::Number(variable, depth);
            coding.put_constant(noted, setting.integer, number_literal(known))
        }
        None => Ok(()),
    }
}

/// An integer is noted for a variable that is it. It fails where memory is wanting.
fn put_integer(
    coding: &mut Coding,
    setting: &Setting<'_>,
    levels: &Levels<'_>,
    number: &Num,
    place: Place,
    sized: &Sized,
) -> Result<(), AllocError>
    requires integer { sized.now ≡ sized_type.Int }
    ensures { OnOk result (Emits coding.old coding.new (λ name first.
        number_noted (kit_at (kit_for setting.now name) (depths_of levels.now)) (number_for setting.now) (variable_in number.now) (out-Sized sized.now)
        (from (kit_for setting.now name) place (number_for setting.now sized.now))) no_labels) }
{
    match number_variable(number) {
        Some(variable) => {
            let typ = setting.number(sized)?;
            let depth = depth_of(variable, levels)?;
            let noted = Place::Number(variable, depth);
            coding.put_copy(noted, setting.integer, place, typ)
        }
        None => Ok(()),
    }
}

/// The numbers that the value at a place gives are noted, where the places in hand from one on are free. It fails where memory is wanting.
#[cycle(put_noted)]
pub fn put_noted(
    alloc: Global,
    coding: &mut Coding,
    setting: &Setting<'_>,
    indices: &Indices,
    levels: &Levels<'_>,
    place: Place,
    sized: &Sized,
    free: u32,
) -> Result<(), AllocError>
    ensures { OnOk result (Emits coding.old coding.new (λ name first.
        noter_of (kit_at (kit_for setting.now name) (depths_of levels.now)) (number_for setting.now) indices.now
        (from (kit_for setting.now name) place (number_for setting.now sized.now)) sized.now free) no_labels) }
{
    match indices {
        Indices::Integer(number) => match sized {
            Sized::Int => put_integer(coding, setting, levels, number, place, sized),
            _ => Ok(()),
        },
        Indices::Bits(width) => match sized {
            Sized::Bits(known) => put_known(coding, setting, levels, width, known),
            _ => Ok(()),
        },
        Indices::Vector(length, _) => match sized {
            Sized::Vector(known, _) => put_known(coding, setting, levels, length, known),
            _ => Ok(()),
        },
        Indices::Tuple(parts) => match sized {
            Sized::Tuple(types) => {
                let typ = setting.number(sized)?;
                let parts = parts.as_slice();
                let types = types.as_slice();
                put_parts_noted(
                    alloc, coding, setting, parts, levels, types, place, typ, free,
                )
            }
            _ => Ok(()),
        },
        _ => Ok(()),
    }
}

/// So of the parts of a tuple, each taken out where it gives a number. It fails where memory is wanting.
#[cycle(put_noted)]
fn put_parts_noted(
    alloc: Global,
    coding: &mut Coding,
    setting: &Setting<'_>,
    parts: &[Indices],
    levels: &Levels<'_>,
    types: &[Sized],
    place: Place,
    typ: u32,
    free: u32,
) -> Result<(), AllocError>
    ensures { OnOk result (Emits coding.old coding.new (λ name first.
        spec.each_noted (kit_at (kit_for setting.now name) (depths_of levels.now)) (number_for setting.now) parts.now types.now
        (from (kit_for setting.now name) place typ) free) no_labels) }
{
    for at in 0..parts.len() {
        match types.get(at) {
            Some(sized) => {
                let part = &parts[at];
                let field = as_number(at)?;
                let gives = gives_number(part, sized);
                put_where(
                    alloc, coding, setting, gives, field, sized, place, typ, free,
                )?;
                let next = further(free, 1)?;
                let taken = Place::Temp(free);
                put_noted(alloc, coding, setting, part, levels, taken, sized, next)?;
            }
            None => return Ok(()),
        }
    }
    Ok(())
}

/// A part of a tuple is taken out. It fails where memory is wanting.
fn put_taken(
    alloc: Global,
    coding: &mut Coding,
    setting: &Setting<'_>,
    part: u32,
    sized: &Sized,
    place: Place,
    typ: u32,
    free: u32,
) -> Result<(), AllocError>
    ensures { OnOk result (Emits coding.old coding.new (λ name first.
        spec.part_taken (kit_for setting.now name) (number_for setting.now) sized.now part (from (kit_for setting.now name) place typ) free ∷ [])
        no_labels) }
{
    let number = setting.number(sized)?;
    let op = Operation::Field(part);
    coding.put_apply_one(alloc, Place::Temp(free), number, op, place, typ)
}

/// A part of a tuple is taken out where this is so. It fails where memory is wanting.
fn put_where(
    alloc: Global,
    coding: &mut Coding,
    setting: &Setting<'_>,
    gives: bool,
    part: u32,
    sized: &Sized,
    place: Place,
    typ: u32,
    free: u32,
) -> Result<(), AllocError>
    ensures { OnOk result (Emits coding.old coding.new (λ name first.
        spec.taken_where (kit_for setting.now name) (number_for setting.now) gives sized.now part (from (kit_for setting.now name) place typ) free)
        no_labels) }
{
    if gives {
        put_taken(alloc, coding, setting, part, sized, place, typ, free)
    } else {
        Ok(())
    }
}

/// The numbers that the value in hand gives by each of these are noted. It fails where memory is wanting.
fn put_all_noted(
    alloc: Global,
    coding: &mut Coding,
    setting: &Setting<'_>,
    levels: &Levels<'_>,
    temp: u32,
    free: u32,
    found: &[&Indices],
    sized: &Sized,
) -> Result<(), AllocError>
    requires behind { free ≡ temp + 1 }
    ensures { OnOk result (Emits coding.old coding.new (λ name first.
        note_code (kit_at (kit_for setting.now name) (depths_of levels.now)) (number_for setting.now) temp (map indices_of found.now) sized.now)
        no_labels) }
{
    match found {
        [] => Ok(()),
        [indices, rest @ ..] => {
            let place = Place::Temp(temp);
            put_noted(alloc, coding, setting, indices, levels, place, sized, free)?;
            put_all_noted(alloc, coding, setting, levels, temp, free, rest, sized)
        }
    }
}

/// The numbers that the value of a node in hand gives are noted. It fails where memory is wanting.
pub fn put_notes(
    alloc: Global,
    coding: &mut Coding,
    setting: &Setting<'_>,
    levels: &Levels<'_>,
    temp: u32,
    node: u32,
    sized: &Sized,
) -> Result<(), AllocError>
    ensures { OnOk result (Emits coding.old coding.new (λ name first.
        note_code (kit_at (kit_for setting.now name) (depths_of levels.now)) (number_for setting.now) temp
        (gives_at (nodes_in setting.now) (giver.Node node)) sized.now) no_labels) }
{
    let free = further(temp, 1)?;
    let found = setting.gives(alloc, Giver::Node(node))?;
    put_all_noted(
        alloc,
        coding,
        setting,
        levels,
        temp,
        free,
        found.as_slice(),
        sized,
    )
}

/// The numbers that values in hand give, each by its indices. They are noted from left to right. It fails where memory is wanting.
fn put_values_noted(
    alloc: Global,
    coding: &mut Coding,
    setting: &Setting<'_>,
    levels: &Levels<'_>,
    parts: &[Indices],
    values: &[Held],
    free: u32,
) -> Result<(), AllocError>
    ensures { OnOk result (Emits coding.old coding.new (λ name first.
        values_noted (kit_at (kit_for setting.now name) (depths_of levels.now)) parts.now (map held_of values.now) free) no_labels) }
{
    match parts {
        [] => Ok(()),
        [part, other_parts @ ..] => match values {
            [] => Ok(()),
            [value, others @ ..] => {
                let place = value.place;
                let typ = &value.typ;
                put_noted(alloc, coding, setting, part, levels, place, typ, free)?;
                put_values_noted(alloc, coding, setting, levels, other_parts, others, free)
            }
        },
    }
}

/// So by what is said of an arm: of the tuple of what it matches and what its names hold. It fails where memory is wanting.
fn put_tuple_noted(
    alloc: Global,
    coding: &mut Coding,
    setting: &Setting<'_>,
    levels: &Levels<'_>,
    indices: &Indices,
    values: &[Held],
    free: u32,
) -> Result<(), AllocError>
    ensures { OnOk result (Emits coding.old coding.new (λ name first.
        tuple_noted (kit_at (kit_for setting.now name) (depths_of levels.now)) (out-Indices indices.now) (map held_of values.now) free) no_labels) }
{
    match indices {
        Indices::Tuple(parts) => put_values_noted(
            alloc,
            coding,
            setting,
            levels,
            parts.as_slice(),
            values,
            free,
        ),
        _ => Ok(()),
    }
}

/// So by each of these. It fails where memory is wanting.
fn put_arm_noted(
    alloc: Global,
    coding: &mut Coding,
    setting: &Setting<'_>,
    levels: &Levels<'_>,
    found: &[&Indices],
    values: &[Held],
    free: u32,
) -> Result<(), AllocError>
    ensures { OnOk result (Emits coding.old coding.new (λ name first.
        arm_noted (kit_at (kit_for setting.now name) (depths_of levels.now)) (map indices_of found.now) (map held_of values.now) free) no_labels) }
{
    match found {
        [] => Ok(()),
        [indices, rest @ ..] => {
            put_tuple_noted(alloc, coding, setting, levels, indices, values, free)?;
            put_arm_noted(alloc, coding, setting, levels, rest, values, free)
        }
    }
}

/// The numbers that what an arm matches and what its names hold give are noted. It fails where memory is wanting.
pub fn put_arm_notes(
    alloc: Global,
    coding: &mut Coding,
    setting: &Setting<'_>,
    levels: &Levels<'_>,
    giver: Giver,
    values: &[Held],
    free: u32,
) -> Result<(), AllocError>
    ensures { OnOk result (Emits coding.old coding.new (λ name first.
        arm_noted (kit_at (kit_for setting.now name) (depths_of levels.now)) (gives_at (nodes_in setting.now) giver) (map held_of values.now) free)
        no_labels) }
{
    let found = setting.gives(alloc, giver)?;
    put_arm_noted(
        alloc,
        coding,
        setting,
        levels,
        found.as_slice(),
        values,
        free,
    )
}

/// The variables whose numbers a value with these indices gives, behind others. It fails where memory is wanting.
#[cycle(list_notes)]
pub fn list_notes(listed: &mut Items<u32>, indices: &Indices) -> Result<(), AllocError>
    ensures { OnOk result (listed.new ≡ listed.old ++ notes_of indices.now) }
{
    match indices {
        Indices::Integer(number) => list_variable(listed, number),
        Indices::Bits(width) => list_variable(listed, width),
        Indices::Vector(length, _) => list_variable(listed, length),
        Indices::Tuple(parts) => list_parts(listed, parts.as_slice()),
        _ => Ok(()),
    }
}

/// So by each of these. It fails where memory is wanting.
#[cycle(list_notes)]
fn list_parts(listed: &mut Items<u32>, parts: &[Indices]) -> Result<(), AllocError>
    ensures { OnOk result (listed.new ≡ listed.old ++ all_notes parts.now) }
{
    for part in parts {
        list_notes(listed, part)?;
    }
    Ok(())
}

/// The variable that a number is, behind others. It fails where memory is wanting.
fn list_variable(listed: &mut Items<u32>, number: &Num) -> Result<(), AllocError>
    ensures { OnOk result (listed.new ≡ listed.old ++ one_or_none (variable_in number.now)) }
{
    match number_variable(number) {
        Some(variable) => listed.push(variable),
        None => Ok(()),
    }
}

/// The variables that each of these gives numbers, behind others. It fails where memory is wanting.
fn list_found(listed: &mut Items<u32>, found: &[&Indices]) -> Result<(), AllocError>
    ensures { OnOk result (listed.new ≡ listed.old ++ all_notes (map indices_of found.now)) }
{
    match found {
        [] => Ok(()),
        [indices, rest @ ..] => {
            list_notes(listed, indices)?;
            list_found(listed, rest)
        }
    }
}

/// The variables that a giver gives numbers, behind others. It fails where memory is wanting.
pub fn list_given(
    alloc: Global,
    listed: &mut Items<u32>,
    setting: &Setting<'_>,
    giver: Giver,
) -> Result<(), AllocError>
    ensures { OnOk result (listed.new ≡ listed.old ++ all_notes (gives_at (nodes_in setting.now) giver)) }
{
    let found = setting.gives(alloc, giver)?;
    list_found(listed, found.as_slice())
}
