//! Widened types: any integer for every integer, any truth for every truth.
ghost use Rattle.std.specs.Prelude.{◌≡◌, IfOk, map};
ghost use Rattle.wide_types.specs.Widening.{wide_typ as wide_typ_of, wide_value as wide_value_of};
ghost use Rattle.wide_types.specs.Widening.{widened as widened_of, widened_type as widened_type_of};

use sail_base::{Boxed, Items};
use sail_types::{Typ, copy_con, copy_num};
use std::alloc::{AllocError, Global};
use type_arguments::{copy_indices, copy_typ};
use value_indices::{Indices, Reading, largest_num, least_num};

/// A type with `int` in it for every integer, and `bool` for every truth, but what stands under a binder as it is. It fails where
/// memory is wanting.
#[cycle(wide_typ)]
#[tactic(auto, using(crate::proofs::WideForms::forms))]
pub fn wide_typ(alloc: Global, typ: &Typ) -> Result<Typ, AllocError>
    ensures { IfOk result (λ made. made ≡ wide_typ_of typ.now) }
{
    match typ {
        Typ::Unit => Ok(Typ::Unit),
        Typ::Bool => Ok(Typ::Bool),
        Typ::Truth(_) => Ok(Typ::Bool),
        Typ::Bit => Ok(Typ::Bit),
        Typ::Bits(width) => Ok(Typ::Bits(copy_num(alloc, width)?)),
        Typ::Int(_) => Ok(Typ::Range(least_num(alloc), largest_num(alloc))),
        Typ::Range(_, _) => Ok(Typ::Range(least_num(alloc), largest_num(alloc))),
        Typ::String => Ok(Typ::String),
        Typ::List(item) => {
            let item = wide_typ(alloc, item.get())?;
            Ok(Typ::List(Boxed::new(alloc, item)?))
        }
        Typ::Vector(length, item) => {
            let length = copy_num(alloc, length)?;
            let item = wide_typ(alloc, item.get())?;
            Ok(Typ::Vector(length, Boxed::new(alloc, item)?))
        }
        Typ::Tuple(parts) => Ok(Typ::Tuple(wide_typs(alloc, parts.as_slice())?)),
        Typ::Named(place, numbers, arguments) => {
            let numbers = copy_indices(alloc, numbers.as_slice())?;
            let arguments = wide_typs(alloc, arguments.as_slice())?;
            Ok(Typ::Named(*place, numbers, arguments))
        }
        Typ::Variable(position) => Ok(Typ::Variable(*position)),
        Typ::Exists(_, _, _) => copy_typ(alloc, typ),
    }
}

#[cycle(wide_typ)]
fn wide_typs(alloc: Global, types: &[Typ]) -> Result<Items<Typ>, AllocError>
    ensures { IfOk result (λ made. made ≡ map wide_typ_of types.now) }
{
    let mut made = Items::new(alloc);
    for typ in types {
        made.push(wide_typ(alloc, typ)?)?;
    }
    Ok(made)
}

/// The indices of a value, with the types in them widened.
#[cycle(widened_type)]
fn wide_value(alloc: Global, indices: &Indices) -> Result<Indices, AllocError>
    ensures { IfOk result (λ made. made ≡ wide_value_of indices.now) }
{
    match indices {
        Indices::Never => Ok(Indices::Never),
        Indices::Unit => Ok(Indices::Unit),
        Indices::Truth(con) => Ok(Indices::Truth(copy_con(alloc, con)?)),
        Indices::Bit => Ok(Indices::Bit),
        Indices::Bits(width) => Ok(Indices::Bits(copy_num(alloc, width)?)),
        Indices::Integer(number) => Ok(Indices::Integer(copy_num(alloc, number)?)),
        Indices::String => Ok(Indices::String),
        Indices::List(item) => {
            let item = widened_type(alloc, item.get())?;
            Ok(Indices::List(Boxed::new(alloc, item)?))
        }
        Indices::Vector(length, item) => {
            let length = copy_num(alloc, length)?;
            let item = widened_type(alloc, item.get())?;
            Ok(Indices::Vector(length, Boxed::new(alloc, item)?))
        }
        Indices::Tuple(parts) => Ok(Indices::Tuple(wide_values(alloc, parts.as_slice())?)),
        Indices::Named(place, numbers, arguments) => {
            let numbers = copy_indices(alloc, numbers.as_slice())?;
            let arguments = widened_types(alloc, arguments.as_slice())?;
            Ok(Indices::Named(*place, numbers, arguments))
        }
        Indices::Variable(position) => Ok(Indices::Variable(*position)),
    }
}

#[cycle(widened_type)]
fn wide_values(alloc: Global, parts: &[Indices]) -> Result<Items<Indices>, AllocError>
    ensures { IfOk result (λ made. made ≡ map wide_value_of parts.now) }
{
    let mut made = Items::new(alloc);
    for part in parts {
        made.push(wide_value(alloc, part)?)?;
    }
    Ok(made)
}

/// The widened type of a type: any integer for an integer, any truth for a truth, all else as it is. It fails where memory is
/// wanting.
#[cycle(widened_type)]
pub fn widened_type(alloc: Global, reading: &Reading) -> Result<Reading, AllocError>
    ensures { IfOk result (λ made. made ≡ widened_type_of reading.now) }
{
    match reading {
        Reading::Of(typ, numbers, arguments) => {
            let typ = wide_typ(alloc, typ)?;
            let numbers = copy_indices(alloc, numbers.as_slice())?;
            let arguments = widened_types(alloc, arguments.as_slice())?;
            Ok(Reading::Of(typ, numbers, arguments))
        }
        Reading::Widened(indices) => {
            let indices = wide_value(alloc, indices.get())?;
            Ok(Reading::Widened(Boxed::new(alloc, indices)?))
        }
        Reading::Parts(parts) => Ok(Reading::Parts(widened_types(alloc, parts.as_slice())?)),
        Reading::Hole => Ok(Reading::Hole),
    }
}

#[cycle(widened_type)]
fn widened_types(alloc: Global, readings: &[Reading]) -> Result<Items<Reading>, AllocError>
    ensures { IfOk result (λ made. made ≡ map widened_type_of readings.now) }
{
    let mut made = Items::new(alloc);
    for reading in readings {
        made.push(widened_type(alloc, reading)?)?;
    }
    Ok(made)
}

/// The widened type of a value of these indices. It fails where memory is wanting.
pub fn widened(alloc: Global, indices: &Indices) -> Result<Reading, AllocError>
    ensures { IfOk result (λ made. made ≡ widened_of indices.now) }
{
    let indices = wide_value(alloc, indices)?;
    Ok(Reading::Widened(Boxed::new(alloc, indices)?))
}
