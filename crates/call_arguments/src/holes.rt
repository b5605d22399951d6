//! Types with holes, of which nothing is known.
ghost use Rattle.std.specs.Prelude.{◌≡◌, IfOk, map};
ghost use Rattle.std.specs.List.{list_any};
ghost use Rattle.call_arguments.specs.Holes as holes;

use sail_base::{Boxed, Items};
use sail_types::{copy_con, copy_num};
use std::alloc::{AllocError, Global};
use type_arguments::{copy_indices, copy_typ};
use value_indices::{Indices, Reading};

/// Whether a type has a hole inside.
#[cycle(has_hole)]
pub fn has_hole(reading: &Reading) -> bool
    ensures { result ≡ holes.has_hole reading.now }
{
    match reading {
        Reading::Of(_, _, arguments) => any_has_hole(arguments.as_slice()),
        Reading::Widened(value) => value_has_hole(value.get()),
        Reading::Parts(parts) => any_has_hole(parts.as_slice()),
        Reading::Hole => true,
    }
}

/// The same of one of several types.
#[cycle(has_hole)]
fn any_has_hole(readings: &[Reading]) -> bool
    ensures { result ≡ list_any (λ b. b) (map holes.has_hole readings.now) }
{
    for reading in readings {
        if has_hole(reading) {
            return true;
        }
    }
    false
}

/// Whether the type of a value has a hole inside.
#[cycle(has_hole)]
pub fn value_has_hole(value: &Indices) -> bool
    ensures { result ≡ holes.value_has_hole value.now }
{
    match value {
        Indices::List(item) => has_hole(item.get()),
        Indices::Vector(_, item) => has_hole(item.get()),
        Indices::Tuple(parts) => any_value_has_hole(parts.as_slice()),
        Indices::Named(_, _, arguments) => any_has_hole(arguments.as_slice()),
        _ => false,
    }
}

/// The same of the type of one of several values.
#[cycle(has_hole)]
fn any_value_has_hole(values: &[Indices]) -> bool
    ensures { result ≡ list_any (λ b. b) (map holes.value_has_hole values.now) }
{
    for value in values {
        if value_has_hole(value) {
            return true;
        }
    }
    false
}

/// A type, unless it has a hole inside and the one that is given behind it has none: then that one.
fn fuller_than(reading: Reading, behind: Option<Reading>) -> Option<Reading>
    ensures { result ≡ holes.fuller_if (holes.has_hole reading) reading behind }
{
    if !has_hole(&reading) {
        return Some(reading);
    }
    match behind {
        None => Some(reading),
        Some(other) => {
            if has_hole(&other) {
                Some(reading)
            } else {
                Some(other)
            }
        }
    }
}

/// Of what two places give the first, unless it has a hole inside and the second has none.
pub fn fuller(first: Option<Reading>, second: Option<Reading>) -> Option<Reading>
    ensures { result ≡ holes.fuller first second }
{
    match first {
        None => second,
        Some(reading) => fuller_than(reading, second),
    }
}

/// The indices of a value, with the type of what never ends in the place of each hole of the types in them.
#[cycle(without_holes)]
fn value_without_holes(alloc: Global, value: &Indices) -> Result<Indices, AllocError>
    ensures { IfOk result (λ made. made ≡ holes.value_without_holes value.now) }
{
    match value {
        Indices::Never => Ok(Indices::Never),
        Indices::Unit => Ok(Indices::Unit),
        Indices::Truth(con) => Ok(Indices::Truth(copy_con(alloc, con)?)),
        Indices::Bit => Ok(Indices::Bit),
        Indices::Bits(width) => Ok(Indices::Bits(copy_num(alloc, width)?)),
        Indices::Integer(number) => Ok(Indices::Integer(copy_num(alloc, number)?)),
        Indices::String => Ok(Indices::String),
        Indices::List(item) => {
            let item = without_holes(alloc, item.get())?;
            Ok(Indices::List(Boxed::new(alloc, item)?))
        }
        Indices::Vector(length, item) => {
            let length = copy_num(alloc, length)?;
            let item = without_holes(alloc, item.get())?;
            Ok(Indices::Vector(length, Boxed::new(alloc, item)?))
        }
        Indices::Tuple(parts) => Ok(Indices::Tuple(values_without_holes(alloc, parts.as_slice())?)),
        Indices::Named(place, numbers, arguments) => {
            let numbers = copy_indices(alloc, numbers.as_slice())?;
            let arguments = types_without_holes(alloc, arguments.as_slice())?;
            Ok(Indices::Named(*place, numbers, arguments))
        }
        Indices::Variable(position) => Ok(Indices::Variable(*position)),
    }
}

#[cycle(without_holes)]
fn values_without_holes(alloc: Global, values: &[Indices]) -> Result<Items<Indices>, AllocError>
    ensures { IfOk result (λ made. made ≡ map holes.value_without_holes values.now) }
{
    let mut made = Items::new(alloc);
    for value in values {
        made.push(value_without_holes(alloc, value)?)?;
    }
    Ok(made)
}

/// A type, with that of what never ends in the place of each hole. It fails where memory is wanting.
#[cycle(without_holes)]
pub fn without_holes(alloc: Global, reading: &Reading) -> Result<Reading, AllocError>
    ensures { IfOk result (λ made. made ≡ holes.without_holes reading.now) }
{
    match reading {
        Reading::Of(typ, numbers, arguments) => {
            let typ = copy_typ(alloc, typ)?;
            let numbers = copy_indices(alloc, numbers.as_slice())?;
            let arguments = types_without_holes(alloc, arguments.as_slice())?;
            Ok(Reading::Of(typ, numbers, arguments))
        }
        Reading::Widened(value) => {
            let value = value_without_holes(alloc, value.get())?;
            Ok(Reading::Widened(Boxed::new(alloc, value)?))
        }
        Reading::Parts(parts) => Ok(Reading::Parts(types_without_holes(alloc, parts.as_slice())?)),
        Reading::Hole => Ok(Reading::Widened(Boxed::new(alloc, Indices::Never)?)),
    }
}

/// Types, with that of what never ends in the place of each hole: what arguments have to be of where these were found for the Type
/// variables. It fails where memory is wanting.
#[cycle(without_holes)]
pub fn types_without_holes(
    alloc: Global,
    readings: &[Reading],
) -> Result<Items<Reading>, AllocError>
    ensures { IfOk result (λ made. made ≡ holes.types_without_holes readings.now) }
{
    let mut made = Items::new(alloc);
    for reading in readings {
        made.push(without_holes(alloc, reading)?)?;
    }
    Ok(made)
}
