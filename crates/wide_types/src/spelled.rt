//! Types spelled out and widened: each width, each length and each argument in them stands by itself.
ghost use Rattle.std.specs.Prelude.{◌≡◌, IfOk, map, slice_get};
ghost use Rattle.sail_types.specs.Readings.{read_indices as read_indices_of};
ghost use Rattle.sail_types.specs.Sums.{read};
ghost use Rattle.value_indices.specs.declared.indices.Reading.TheVariants as R;
ghost use Rattle.wide_types.specs.Widening as wide;

use crate::widest::widened_of;
use sail_base::{Boxed, Items};
use sail_types::{Con, Index, Num, Typ, copy_con, copy_num, read_indices, read_number};
use std::alloc::{AllocError, Global};
use type_arguments::{copy_indices, copy_typ};
use value_indices::{Indices, Reading, copy_reading, copy_readings, zero_num};

/// A type under what its variables stand for, as it is.
fn whole(
    alloc: Global,
    typ: &Typ,
    numbers: &[Index],
    types: &[Reading],
) -> Result<Reading, AllocError>
    ensures { IfOk result (λ made. made ≡ R.Of typ.now numbers.now types.now) }
{
    let typ = copy_typ(alloc, typ)?;
    let numbers = copy_indices(alloc, numbers)?;
    Ok(Reading::Of(typ, numbers, copy_readings(alloc, types)?))
}

/// `bits(t)`
fn spell_bits(
    alloc: Global,
    typ: &Typ,
    width: &Num,
    numbers: &[Index],
    types: &[Reading],
) -> Result<Reading, AllocError>
    ensures { IfOk result (λ made. made ≡ wide.bits_spelled (R.Of typ.now numbers.now types.now) (read numbers.now width.now)) }
{
    match read_number(alloc, width, numbers)? {
        None => whole(alloc, typ, numbers, types),
        Some(width) => widened_of(alloc, Indices::Bits(width)),
    }
}

/// `vector(n, T)`, of items of this type.
fn spell_vector(
    alloc: Global,
    typ: &Typ,
    length: &Num,
    item: Reading,
    numbers: &[Index],
    types: &[Reading],
) -> Result<Reading, AllocError>
    ensures { IfOk result (λ made. made ≡ wide.vector_spelled (R.Of typ.now numbers.now types.now) item (read numbers.now length.now)) }
{
    match read_number(alloc, length, numbers)? {
        None => whole(alloc, typ, numbers, types),
        Some(length) => widened_of(alloc, Indices::Vector(length, Boxed::new(alloc, item)?)),
    }
}

/// A struct, union or enum, of these Type arguments.
fn spell_named(
    alloc: Global,
    typ: &Typ,
    place: u32,
    arguments: &[Index],
    inside: Items<Reading>,
    numbers: &[Index],
    types: &[Reading],
) -> Result<Reading, AllocError>
    ensures { IfOk result (λ made. made
        ≡ wide.named_spelled (R.Of typ.now numbers.now types.now) place inside (read_indices_of numbers.now arguments.now)) }
{
    match read_indices(alloc, arguments, numbers)? {
        None => whole(alloc, typ, numbers, types),
        Some(arguments) => widened_of(alloc, Indices::Named(place, arguments, inside)),
    }
}

/// What a Type variable stands for, or the variable of the function around it.
fn spell_variable(alloc: Global, position: u32, types: &[Reading]) -> Result<Reading, AllocError>
    ensures { IfOk result (λ made. made ≡ wide.variable_spelled position (slice_get types.now position)) }
{
    match types.get(position as usize) {
        None => widened_of(alloc, Indices::Variable(position)),
        Some(reading) => copy_reading(alloc, reading),
    }
}

/// A type under what its variables stand for, where what its Type variables stand for is spelled out. It fails where memory is wanting.
#[cycle(spell_typ)]
#[tactic(auto, using(crate::proofs::SpelledForms::forms))]
fn spell_typ(
    alloc: Global,
    typ: &Typ,
    numbers: &[Index],
    types: &[Reading],
) -> Result<Reading, AllocError>
    ensures { IfOk result (λ made. made ≡ wide.typ_spelled numbers.now types.now typ.now) }
{
    match typ {
        Typ::Unit => widened_of(alloc, Indices::Unit),
        Typ::Bool => widened_of(alloc, Indices::Truth(Con::Truth(true))),
        Typ::Truth(_) => widened_of(alloc, Indices::Truth(Con::Truth(true))),
        Typ::Bit => widened_of(alloc, Indices::Bit),
        Typ::Bits(width) => spell_bits(alloc, typ, width, numbers, types),
        Typ::Int(_) => widened_of(alloc, Indices::Integer(zero_num(alloc))),
        Typ::Range(_, _) => widened_of(alloc, Indices::Integer(zero_num(alloc))),
        Typ::String => widened_of(alloc, Indices::String),
        Typ::List(item) => {
            let item = spell_typ(alloc, item.get(), numbers, types)?;
            widened_of(alloc, Indices::List(Boxed::new(alloc, item)?))
        }
        Typ::Vector(length, item) => {
            let item = spell_typ(alloc, item.get(), numbers, types)?;
            spell_vector(alloc, typ, length, item, numbers, types)
        }
        Typ::Tuple(parts) => {
            let parts = spell_typs(alloc, parts.as_slice(), numbers, types)?;
            Ok(Reading::Parts(parts))
        }
        Typ::Named(place, arguments, parts) => {
            let parts = spell_typs(alloc, parts.as_slice(), numbers, types)?;
            spell_named(
                alloc,
                typ,
                *place,
                arguments.as_slice(),
                parts,
                numbers,
                types,
            )
        }
        Typ::Variable(position) => spell_variable(alloc, *position, types),
        Typ::Exists(_, _, _) => whole(alloc, typ, numbers, types),
    }
}

#[cycle(spell_typ)]
fn spell_typs(
    alloc: Global,
    parts: &[Typ],
    numbers: &[Index],
    types: &[Reading],
) -> Result<Items<Reading>, AllocError>
    ensures { IfOk result (λ made. made ≡ map (wide.typ_spelled numbers.now types.now) parts.now) }
{
    let mut made = Items::new(alloc);
    for part in parts {
        made.push(spell_typ(alloc, part, numbers, types)?)?;
    }
    Ok(made)
}

/// A value, whose types inside are widened and spelled out: each width, each length and each argument in them stands by itself. It fails where
/// memory is wanting.
#[cycle(spell_type)]
pub fn spell_value(alloc: Global, indices: &Indices) -> Result<Indices, AllocError>
    ensures { IfOk result (λ made. made ≡ wide.value_spelled indices.now) }
{
    match indices {
        Indices::Never => Ok(Indices::Never),
        Indices::Unit => Ok(Indices::Unit),
        Indices::Truth(con) => Ok(Indices::Truth(copy_con(alloc, con)?)),
        Indices::Bit => Ok(Indices::Bit),
        Indices::Bits(width) => Ok(Indices::Bits(copy_num(alloc, width)?)),
        Indices::Integer(number) => Ok(Indices::Integer(copy_num(alloc, number)?)),
        Indices::String => Ok(Indices::String),
        Indices::List(item) => {
            let item = spell_type(alloc, item.get())?;
            Ok(Indices::List(Boxed::new(alloc, item)?))
        }
        Indices::Vector(length, item) => {
            let length = copy_num(alloc, length)?;
            let item = spell_type(alloc, item.get())?;
            Ok(Indices::Vector(length, Boxed::new(alloc, item)?))
        }
        Indices::Tuple(parts) => Ok(Indices::Tuple(spell_values(alloc, parts.as_slice())?)),
        Indices::Named(place, numbers, arguments) => {
            let numbers = copy_indices(alloc, numbers.as_slice())?;
            let arguments = spell_types(alloc, arguments.as_slice())?;
            Ok(Indices::Named(*place, numbers, arguments))
        }
        Indices::Variable(position) => Ok(Indices::Variable(*position)),
    }
}

#[cycle(spell_type)]
fn spell_values(alloc: Global, parts: &[Indices]) -> Result<Items<Indices>, AllocError>
    ensures { IfOk result (λ made. made ≡ map wide.value_spelled parts.now) }
{
    let mut made = Items::new(alloc);
    for part in parts {
        made.push(spell_value(alloc, part)?)?;
    }
    Ok(made)
}

/// A type, spelled out. It fails where memory is wanting.
#[cycle(spell_type)]
fn spell_type(alloc: Global, reading: &Reading) -> Result<Reading, AllocError>
    ensures { IfOk result (λ made. made ≡ wide.type_spelled reading.now) }
{
    match reading {
        Reading::Of(typ, numbers, arguments) => {
            let arguments = spell_types(alloc, arguments.as_slice())?;
            spell_typ(alloc, typ, numbers.as_slice(), arguments.as_slice())
        }
        Reading::Widened(indices) => {
            let indices = spell_value(alloc, indices.get())?;
            Ok(Reading::Widened(Boxed::new(alloc, indices)?))
        }
        Reading::Parts(parts) => Ok(Reading::Parts(spell_types(alloc, parts.as_slice())?)),
        Reading::Hole => Ok(Reading::Hole),
    }
}

#[cycle(spell_type)]
fn spell_types(alloc: Global, readings: &[Reading]) -> Result<Items<Reading>, AllocError>
    ensures { IfOk result (λ made. made ≡ map wide.type_spelled readings.now) }
{
    let mut made = Items::new(alloc);
    for reading in readings {
        made.push(spell_type(alloc, reading)?)?;
    }
    Ok(made)
}
