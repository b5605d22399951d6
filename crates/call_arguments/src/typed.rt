//! What the Type variables of a callee stand for.
ghost use Rattle.std.specs.Prelude.{◌≡◌, IfOk, map};
ghost use Rattle.call_arguments.specs.Aims.{is_hole as is_hole_of};
ghost use Rattle.call_arguments.specs.Callees as callees;

use crate::aims::is_hole;
use crate::below::is_type_below;
use crate::counts::{least_of_two, small};
use crate::holes::fuller;
use sail_base::Items;
use sail_types::Typ;
use std::alloc::{AllocError, Global};
use value_indices::{Indices, Reading};
use wide_types::{value_of_type, widened, widened_type};

/// A type; none where it names a variable from this one on.
fn only_below(from: u32, reading: Reading) -> Option<Reading>
    ensures { result ≡ callees.only_below from reading }
{
    if is_type_below(from, &reading) {
        Some(reading)
    } else {
        None
    }
}

/// The widened type of a value, where its parameter is this variable.
fn value_if(
    alloc: Global,
    from: u32,
    is_variable: bool,
    value: &Indices,
) -> Result<Option<Reading>, AllocError>
    ensures { IfOk result (λ made. made ≡ callees.value_if from is_variable value.now) }
{
    if is_variable {
        Ok(only_below(from, widened(alloc, value)?))
    } else {
        Ok(None)
    }
}

/// The widened type of a type; none of a hole.
fn type_unless_hole(
    alloc: Global,
    from: u32,
    reading: &Reading,
) -> Result<Option<Reading>, AllocError>
    ensures { IfOk result (λ made. made ≡ callees.type_unless from (is_hole_of reading.now) reading.now) }
{
    if is_hole(reading) {
        Ok(None)
    } else {
        Ok(only_below(from, widened_type(alloc, reading)?))
    }
}

/// The widened type of a type, where its place in a parameter is this variable; none of a hole.
fn type_if(
    alloc: Global,
    from: u32,
    is_variable: bool,
    reading: &Reading,
) -> Result<Option<Reading>, AllocError>
    ensures { IfOk result (λ made. made ≡ callees.type_if from is_variable reading.now) }
{
    if is_variable {
        type_unless_hole(alloc, from, reading)
    } else {
        Ok(None)
    }
}

/// What a value gives to a Type variable of its parameter's type: the widened type of what the first place that names it is given, of those
/// that give it one without a hole inside if there are such; none where no place gives one. It fails where memory is wanting, and where
/// variables are too many.
#[cycle(typed)]
fn typed_value(
    alloc: Global,
    from: u32,
    variable: u32,
    typ: &Typ,
    value: &Indices,
) -> Result<Option<Reading>, AllocError>
    ensures { IfOk result (λ made. made ≡ callees.value_typed_at from variable typ.now value.now) }
{
    match (typ, value) {
        (Typ::Variable(position), _) => value_if(alloc, from, *position == variable, value),
        (Typ::Exists(_, _, inside), _) => typed_value(alloc, from, variable, inside.get(), value),
        (Typ::List(item), Indices::List(own)) => {
            typed_type(alloc, from, variable, item.get(), own.get())
        }
        (Typ::Vector(_, item), Indices::Vector(_, own)) => {
            typed_type(alloc, from, variable, item.get(), own.get())
        }
        (Typ::Tuple(types), Indices::Tuple(values)) => first_value(
            alloc,
            from,
            variable,
            types.as_slice(),
            values.as_slice(),
        ),
        (Typ::Named(_, _, types), Indices::Named(_, _, readings)) => first_type(
            alloc,
            from,
            variable,
            types.as_slice(),
            readings.as_slice(),
        ),
        _ => Ok(None),
    }
}

/// The same of a type at a place: what any value of it gives, but where the place is the variable itself.
#[cycle(typed)]
fn typed_type(
    alloc: Global,
    from: u32,
    variable: u32,
    typ: &Typ,
    reading: &Reading,
) -> Result<Option<Reading>, AllocError>
    ensures { IfOk result (λ made. made ≡ callees.type_typed_at from variable typ.now reading.now) }
{
    match typ {
        Typ::Variable(position) => type_if(alloc, from, *position == variable, reading),
        Typ::Exists(_, _, inside) => typed_type(alloc, from, variable, inside.get(), reading),
        _ => {
            let value = value_of_type(alloc, from, reading)?;
            typed_value(alloc, from, variable, typ, &value)
        }
    }
}

/// What the first of several values gives to a Type variable of their types, a type without a hole inside before others; none where none
/// does. It fails where memory is wanting, and where variables are too many.
#[cycle(typed)]
fn first_value(
    alloc: Global,
    from: u32,
    variable: u32,
    types: &[Typ],
    values: &[Indices],
) -> Result<Option<Reading>, AllocError>
    ensures { IfOk result (λ made. made ≡ callees.first_typed (map (callees.typed_at from variable) types.now) values.now) }
{
    let count = least_of_two(types.len(), values.len());
    let mut made = None;
    for index in 0..count {
        let found = typed_value(alloc, from, variable, &types[index], &values[index])?;
        made = fuller(made, found);
    }
    Ok(made)
}

/// The same of types at places.
#[cycle(typed)]
fn first_type(
    alloc: Global,
    from: u32,
    variable: u32,
    types: &[Typ],
    readings: &[Reading],
) -> Result<Option<Reading>, AllocError>
    ensures { IfOk result (λ made. made ≡ callees.first_type_typed (map (callees.typed_at from variable) types.now) readings.now) }
{
    let count = least_of_two(types.len(), readings.len());
    let mut made = None;
    for index in 0..count {
        let found = typed_type(alloc, from, variable, &types[index], &readings[index])?;
        made = fuller(made, found);
    }
    Ok(made)
}

/// What a Type variable of a callee stands for; a hole where no argument gives it.
fn type_at(
    alloc: Global,
    from: u32,
    variable: usize,
    types: &[Typ],
    arguments: &[Indices],
) -> Result<Reading, AllocError>
    ensures { IfOk result (λ made. made
        ≡ callees.or_hole (callees.first_typed (map (callees.typed_at from variable) types.now) arguments.now)) }
{
    let variable = small(variable)?;
    match first_value(alloc, from, variable, types, arguments)? {
        None => Ok(Reading::Hole),
        Some(reading) => Ok(reading),
    }
}

/// What so many Type variables of a callee stand for, by the types of its parameters and its arguments; a hole for each that no argument
/// gives. The types of items are opened from this variable on; a type that names one from there on is none. It fails where memory is wanting,
/// and where variables are too many.
pub fn types_from(
    alloc: Global,
    from: u32,
    count: usize,
    types: &[Typ],
    arguments: &[Indices],
) -> Result<Items<Reading>, AllocError>
    ensures { IfOk result (λ made. made ≡ callees.types_from from 0 count types.now arguments.now) }
{
    let mut made = Items::new(alloc);
    for variable in 0..count {
        made.push(type_at(alloc, from, variable, types, arguments)?)?;
    }
    Ok(made)
}
