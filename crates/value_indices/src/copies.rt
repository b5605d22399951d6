//! Indices, readings and facts once more.
ghost use Rattle.std.specs.Prelude.{◌≡◌, IfOk};

use crate::indices::{Indices, Reading};
use crate::notes::Fact;
use sail_base::{Boxed, Items};
use sail_types::{copy_con, copy_num};
use std::alloc::{AllocError, Global};
use type_arguments::{copy_indices as copy_arguments, copy_typ};

/// The same indices once more. It fails where memory is wanting.
#[cycle(copy_indices)]
pub fn copy_indices(alloc: Global, indices: &Indices) -> Result<Indices, AllocError>
    ensures { IfOk result (λ copy. copy ≡ indices.now) }
{
    match indices {
        Indices::Never => Ok(Indices::Never),
        Indices::Unit => Ok(Indices::Unit),
        Indices::Truth(con) => Ok(Indices::Truth(copy_con(alloc, con)?)),
        Indices::Bit => Ok(Indices::Bit),
        Indices::Bits(width) => Ok(Indices::Bits(copy_num(alloc, width)?)),
        Indices::Integer(number) => Ok(Indices::Integer(copy_num(alloc, number)?)),
        Indices::String => Ok(Indices::String),
        Indices::List(item) => {
            let item = copy_reading(alloc, item.get())?;
            Ok(Indices::List(Boxed::new(alloc, item)?))
        }
        Indices::Vector(length, item) => {
            let length = copy_num(alloc, length)?;
            let item = copy_reading(alloc, item.get())?;
            Ok(Indices::Vector(length, Boxed::new(alloc, item)?))
        }
        Indices::Tuple(parts) => Ok(Indices::Tuple(copy_each(alloc, parts.as_slice())?)),
        Indices::Named(place, arguments, types) => {
            let arguments = copy_arguments(alloc, arguments.as_slice())?;
            let types = copy_readings(alloc, types.as_slice())?;
            Ok(Indices::Named(*place, arguments, types))
        }
        Indices::Variable(position) => Ok(Indices::Variable(*position)),
    }
}

/// The indices of several values once more. It fails where memory is wanting.
#[cycle(copy_indices)]
pub fn copy_each(alloc: Global, parts: &[Indices]) -> Result<Items<Indices>, AllocError>
    ensures { IfOk result (λ copy. copy ≡ parts.now) }
{
    let mut copies = Items::new(alloc);
    for part in parts {
        copies.push(copy_indices(alloc, part)?)?;
    }
    Ok(copies)
}

/// The same reading once more. It fails where memory is wanting.
#[cycle(copy_indices)]
pub fn copy_reading(alloc: Global, reading: &Reading) -> Result<Reading, AllocError>
    ensures { IfOk result (λ copy. copy ≡ reading.now) }
{
    match reading {
        Reading::Of(typ, indices, readings) => {
            let typ = copy_typ(alloc, typ)?;
            let indices = copy_arguments(alloc, indices.as_slice())?;
            let readings = copy_readings(alloc, readings.as_slice())?;
            Ok(Reading::Of(typ, indices, readings))
        }
        Reading::Widened(indices) => {
            let indices = copy_indices(alloc, indices.get())?;
            Ok(Reading::Widened(Boxed::new(alloc, indices)?))
        }
        Reading::Parts(parts) => Ok(Reading::Parts(copy_readings(alloc, parts.as_slice())?)),
        Reading::Hole => Ok(Reading::Hole),
    }
}

/// The same readings once more. It fails where memory is wanting.
#[cycle(copy_indices)]
pub fn copy_readings(alloc: Global, readings: &[Reading]) -> Result<Items<Reading>, AllocError>
    ensures { IfOk result (λ copy. copy ≡ readings.now) }
{
    let mut copies = Items::new(alloc);
    for reading in readings {
        copies.push(copy_reading(alloc, reading)?)?;
    }
    Ok(copies)
}

/// The same fact once more. It fails where memory is wanting.
pub fn copy_fact(alloc: Global, fact: &Fact) -> Result<Fact, AllocError>
    ensures { IfOk result (λ copy. copy ≡ fact.now) }
{
    match fact {
        Fact::Holds(con) => Ok(Fact::Holds(copy_con(alloc, con)?)),
        Fact::IsGiven(variable) => Ok(Fact::IsGiven(*variable)),
    }
}

/// The same facts once more. It fails where memory is wanting.
pub fn copy_facts(alloc: Global, facts: &[Fact]) -> Result<Items<Fact>, AllocError>
    ensures { IfOk result (λ copy. copy ≡ facts.now) }
{
    let mut copies = Items::new(alloc);
    for fact in facts {
        copies.push(copy_fact(alloc, fact)?)?;
    }
    Ok(copies)
}
