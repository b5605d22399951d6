//! Types, seen through what Type variables stand for.
ghost use Rattle.std.specs.Prelude.{◌≡◌, slice_get, IfOk};
ghost use Rattle.sail_types.specs.declared.types.Typ.{out-Typ};
ghost use Rattle.value_indices.specs.declared.indices.Indices.{out-Indices};
ghost use Rattle.value_indices.specs.declared.indices.Reading.TheVariants as R;
ghost use Rattle.call_arguments.specs.Aims as aims;

use sail_base::{Boxed, Items};
use sail_types::{Index, Typ, deepest};
use std::alloc::{AllocError, Global};
use type_arguments::{copy_indices, copy_typ};
use value_indices::{Indices, Reading, copy_indices as copy_value, copy_reading, copy_readings};

/// A type, seen through what Type variables stand for.
#[derive(Clone, Copy)]
pub enum Seen<'a> {
    /// A type that is no variable; what its Int and Bool variables stand for, and what its Type variables do.
    Type(&'a Typ, &'a [Index], &'a [Reading]),
    /// The widened type of such a value.
    Widened(&'a Indices),
    /// A tuple of these.
    Tuple(&'a [Reading]),
    /// No type is known.
    Nothing,
}

/// A type, seen through what Type variables stand for.
pub fn see(reading: &Reading) -> Seen<'_>
    ensures { aims.seen_of result ≡ aims.seen reading.now }
{
    see_within(deepest(), reading)
}

/// The same, through so many types.
#[cycle(see)]
#[tactic(auto, using(crate::proofs::Sights::within, crate::proofs::Sights::within_none))]
fn see_within(depth: usize, reading: &Reading) -> Seen<'_>
    ensures { aims.seen_of result ≡ aims.seen_within depth reading.now }
{
    if depth == 0 {
        return Seen::Nothing;
    }
    see_form(depth - 1, reading)
}

/// The same, the types inside through so many.
#[cycle(see)]
fn see_form(depth: usize, reading: &Reading) -> Seen<'_>
    ensures { aims.seen_of result ≡ aims.seen_reading depth reading.now }
{
    match reading {
        Reading::Of(typ, indices, readings) => {
            see_type(depth, typ, indices.as_slice(), readings.as_slice())
        }
        Reading::Widened(indices) => Seen::Widened(indices.get()),
        Reading::Parts(readings) => Seen::Tuple(readings.as_slice()),
        Reading::Hole => Seen::Nothing,
    }
}

/// The same of a type and what its variables stand for.
#[cycle(see)]
fn see_type<'a>(
    depth: usize,
    typ: &'a Typ,
    indices: &'a [Index],
    readings: &'a [Reading],
) -> Seen<'a>
    ensures { aims.seen_of result ≡ aims.seen_typ (aims.seen_within depth) (out-Typ typ.now) indices.now readings.now }
{
    match typ {
        Typ::Variable(position) => see_variable(depth, readings, *position),
        _ => Seen::Type(typ, indices, readings),
    }
}

/// The same of what a Type variable stands for.
#[cycle(see)]
fn see_variable<'a>(depth: usize, readings: &'a [Reading], position: u32) -> Seen<'a>
    ensures { aims.seen_of result ≡ aims.seen_variable (aims.seen_within depth) (slice_get readings.now position) }
{
    match readings.get(position as usize) {
        None => Seen::Nothing,
        Some(reading) => see_within(depth, reading),
    }
}

/// A type under what its variables stand for. It fails where memory is wanting.
pub fn under(
    alloc: Global,
    typ: &Typ,
    indices: &[Index],
    readings: &[Reading],
) -> Result<Reading, AllocError>
    ensures { IfOk result (λ made. made ≡ R.Of typ.now indices.now readings.now) }
{
    let typ = copy_typ(alloc, typ)?;
    let indices = copy_indices(alloc, indices)?;
    Ok(Reading::Of(typ, indices, copy_readings(alloc, readings)?))
}

/// Types under what their variables stand for. It fails where memory is wanting.
fn each_under(
    alloc: Global,
    types: &[Typ],
    indices: &[Index],
    readings: &[Reading],
) -> Result<Items<Reading>, AllocError>
    ensures { IfOk result (λ made. made ≡ aims.each_under indices.now readings.now types.now) }
{
    let mut made = Items::new(alloc);
    for typ in types {
        made.push(under(alloc, typ, indices, readings)?)?;
    }
    Ok(made)
}

/// The widened types of values. It fails where memory is wanting.
fn each_widened(alloc: Global, values: &[Indices]) -> Result<Items<Reading>, AllocError>
    ensures { IfOk result (λ made. made ≡ aims.each_widened values.now) }
{
    let mut made = Items::new(alloc);
    for value in values {
        let value = copy_value(alloc, value)?;
        made.push(Reading::Widened(Boxed::new(alloc, value)?))?;
    }
    Ok(made)
}

/// The types of the parts of a written type, if it is a tuple.
fn parts_written(
    alloc: Global,
    typ: &Typ,
    indices: &[Index],
    readings: &[Reading],
) -> Result<Items<Reading>, AllocError>
    ensures { IfOk result (λ made. made ≡ aims.part_types (aims.a_type (out-Typ typ.now) indices.now readings.now)) }
{
    match typ {
        Typ::Tuple(types) => each_under(alloc, types.as_slice(), indices, readings),
        _ => Ok(Items::new(alloc)),
    }
}

/// The types of the parts of such a value, if it is a tuple.
fn parts_widened(alloc: Global, value: &Indices) -> Result<Items<Reading>, AllocError>
    ensures { IfOk result (λ made. made ≡ aims.part_types (aims.a_widened (out-Indices value.now))) }
{
    match value {
        Indices::Tuple(values) => each_widened(alloc, values.as_slice()),
        _ => Ok(Items::new(alloc)),
    }
}

fn parts_seen(alloc: Global, seen: &Seen<'_>) -> Result<Items<Reading>, AllocError>
    ensures { IfOk result (λ made. made ≡ aims.part_types (aims.seen_of seen.now)) }
{
    match seen {
        Seen::Type(typ, indices, readings) => parts_written(alloc, typ, indices, readings),
        Seen::Widened(value) => parts_widened(alloc, value),
        Seen::Tuple(readings) => copy_readings(alloc, readings),
        Seen::Nothing => Ok(Items::new(alloc)),
    }
}

/// The types of the parts of a wanted tuple. It fails where memory is wanting.
pub fn part_types(alloc: Global, wanted: &Reading) -> Result<Items<Reading>, AllocError>
    ensures { IfOk result (λ made. made ≡ aims.part_types (aims.seen wanted.now)) }
{
    parts_seen(alloc, &see(wanted))
}

/// The type of the items of a written type, if it is a list or a vector.
fn item_written(
    alloc: Global,
    typ: &Typ,
    indices: &[Index],
    readings: &[Reading],
) -> Result<Reading, AllocError>
    ensures { IfOk result (λ made. made ≡ aims.item_type (aims.a_type (out-Typ typ.now) indices.now readings.now)) }
{
    match typ {
        Typ::List(item) => under(alloc, item.get(), indices, readings),
        Typ::Vector(_, item) => under(alloc, item.get(), indices, readings),
        _ => Ok(Reading::Hole),
    }
}

/// The type of the items of such a value, if it is a list or a vector.
fn item_widened(alloc: Global, value: &Indices) -> Result<Reading, AllocError>
    ensures { IfOk result (λ made. made ≡ aims.item_type (aims.a_widened (out-Indices value.now))) }
{
    match value {
        Indices::List(item) => copy_reading(alloc, item.get()),
        Indices::Vector(_, item) => copy_reading(alloc, item.get()),
        _ => Ok(Reading::Hole),
    }
}

fn item_seen(alloc: Global, seen: &Seen<'_>) -> Result<Reading, AllocError>
    ensures { IfOk result (λ made. made ≡ aims.item_type (aims.seen_of seen.now)) }
{
    match seen {
        Seen::Type(typ, indices, readings) => item_written(alloc, typ, indices, readings),
        Seen::Widened(value) => item_widened(alloc, value),
        Seen::Tuple(_) => Ok(Reading::Hole),
        Seen::Nothing => Ok(Reading::Hole),
    }
}

/// The type of the items of a wanted vector or list; a hole where none is known. It fails where memory is wanting.
pub fn item_type(alloc: Global, wanted: &Reading) -> Result<Reading, AllocError>
    ensures { IfOk result (λ made. made ≡ aims.item_type (aims.seen wanted.now)) }
{
    item_seen(alloc, &see(wanted))
}

/// The Type arguments of a written type, if it is a named one.
fn arguments_written(
    alloc: Global,
    typ: &Typ,
    indices: &[Index],
    readings: &[Reading],
) -> Result<Option<Items<Reading>>, AllocError>
    ensures { IfOk result (λ made. made ≡ aims.type_arguments (aims.a_type (out-Typ typ.now) indices.now readings.now)) }
{
    match typ {
        Typ::Named(_, _, types) => {
            let types = each_under(alloc, types.as_slice(), indices, readings)?;
            Ok(Some(types))
        }
        _ => Ok(None),
    }
}

/// The Type arguments of the type of such a value, if it is a named one.
fn arguments_widened(alloc: Global, value: &Indices) -> Result<Option<Items<Reading>>, AllocError>
    ensures { IfOk result (λ made. made ≡ aims.type_arguments (aims.a_widened (out-Indices value.now))) }
{
    match value {
        Indices::Named(_, _, readings) => {
            let readings = copy_readings(alloc, readings.as_slice())?;
            Ok(Some(readings))
        }
        _ => Ok(None),
    }
}

fn arguments_seen(alloc: Global, seen: &Seen<'_>) -> Result<Option<Items<Reading>>, AllocError>
    ensures { IfOk result (λ made. made ≡ aims.type_arguments (aims.seen_of seen.now)) }
{
    match seen {
        Seen::Type(typ, indices, readings) => arguments_written(alloc, typ, indices, readings),
        Seen::Widened(value) => arguments_widened(alloc, value),
        Seen::Tuple(_) => Ok(None),
        Seen::Nothing => Ok(None),
    }
}

/// The Type arguments of a wanted named type; none where it is none. It fails where memory is wanting.
pub fn type_arguments(alloc: Global, wanted: &Reading) -> Result<Option<Items<Reading>>, AllocError>
    ensures { IfOk result (λ made. made ≡ aims.type_arguments (aims.seen wanted.now)) }
{
    arguments_seen(alloc, &see(wanted))
}
