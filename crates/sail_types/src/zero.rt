//! The zeros of types.
ghost use Rattle.std.specs.Prelude.{◌≡◌, IfOk, map, None, replicate, slice_get, []};
ghost use Rattle.sail_types.specs.Named.{in_form, field_types};
ghost use Rattle.sail_types.specs.Sums.{and_then};
ghost use Rattle.sail_types.specs.Readings.{together};
ghost use Rattle.sail_types.specs.Zero.{zero_of as zero_of_type, zero_within as zero_in, zero_bits as bits_of, zero_range as range_of};
ghost use Rattle.sail_types.specs.Zero.{zero_vector as vector_of, zero_in_table, known as known_of, each_zero, field_zeros};
ghost use Rattle.sail_types.specs.Zero.{zero_at as at_of, deepest as deepest_of, nearest as nearest_of};
ghost use Rattle.sail_types.specs.Zero.{constant_value as constant_value_of, first_of, form_zero};
ghost use Rattle.sail_types.specs.declared.types.Typ.{out-Typ};

use crate::constraints::read_indices;
use crate::numbers::{Index, Num};
use crate::small::is_small;
use crate::substitution::read_number;
use crate::table::{Field, Form, Types};
use crate::types::Typ;
use crate::values::Value;
use crate::values_of::copy_value;
use sail_base::{Items, Text, Word};
use std::alloc::{AllocError, Global};

/// The value at which a register of this type starts: zero bits, `bitzero`, `false`, `()`, 0 or the end of
/// a range that is nearest to it, the first member, and each part's for tuples, structs and vectors. There
/// is none for another type, or where a width or a length is past its limit or not constant. It fails where
/// memory is wanting.
pub fn zero_of(alloc: Global, types: &Types, typ: &Typ) -> Result<Option<Value>, AllocError>
    ensures { IfOk result (λ made. made ≡ zero_of_type types.now typ.now) }
{
    zero_within(alloc, types, deepest(), typ, &[], &[])
}

/// Deeper than types can stand inside one another in memory: what a walk over types counts down from.
#[tactic(auto, unfolding(crate::specs::Zero::deepest))]
pub fn deepest() -> usize
    ensures { result ≡ deepest_of }
{
    usize::MAX
}

/// The zero of a type, through types inside types to this depth.
#[cycle(zero)]
#[tactic(auto, using(crate::proofs::Zeros::below))]
fn zero_within(
    alloc: Global,
    types: &Types,
    depth: usize,
    typ: &Typ,
    indices: &[Index],
    zeros: &[Option<Value>],
) -> Result<Option<Value>, AllocError>
    ensures { IfOk result (λ made. made ≡ zero_in types.now depth typ.now indices.now zeros.now) }
{
    if depth == 0 {
        return Ok(None);
    }
    zero_of_form(alloc, types, depth - 1, typ, indices, zeros)
}

/// The zero of a type, the types inside it to this depth.
#[cycle(zero)]
fn zero_of_form(
    alloc: Global,
    types: &Types,
    depth: usize,
    typ: &Typ,
    indices: &[Index],
    zeros: &[Option<Value>],
) -> Result<Option<Value>, AllocError>
    ensures { IfOk result (λ made. made ≡ form_zero types.now (zero_in types.now depth) (out-Typ typ.now) indices.now zeros.now) }
{
    match typ {
        Typ::Unit => Ok(Some(Value::Unit)),
        Typ::Bool => Ok(Some(Value::Truth(false))),
        Typ::Bit => Ok(Some(Value::Bit(false))),
        Typ::Bits(width) => match known_number(alloc, indices, width)? {
            None => Ok(None),
            Some(width) => Ok(zero_bits(width)),
        },
        Typ::Range(low, high) => zero_between(alloc, indices, low, high),
        Typ::Vector(length, item) => {
            let Some(length) = known_number(alloc, indices, length)? else {
                return Ok(None);
            };
            match zero_within(alloc, types, depth, item.get(), indices, zeros)? {
                None => Ok(None),
                Some(item) => zero_vector(alloc, length, &item),
            }
        }
        Typ::Tuple(parts) => {
            match parts_within(alloc, types, depth, parts.as_slice(), indices, zeros)? {
                None => Ok(None),
                Some(parts) => Ok(Some(Value::Tuple(parts))),
            }
        }
        Typ::Named(place, arguments, parts) => {
            let Some(arguments) = read_indices(alloc, arguments.as_slice(), indices)? else {
                return Ok(None);
            };
            let parts = zeros_within(alloc, types, depth, parts.as_slice(), indices, zeros)?;
            zero_named(
                alloc,
                types,
                depth,
                *place,
                arguments.as_slice(),
                parts.as_slice(),
            )
        }
        Typ::Variable(position) => zero_at(alloc, zeros, *position),
        _ => Ok(None),
    }
}

/// The zeros of types, in order; a type may have none.
#[cycle(zero)]
fn zeros_within(
    alloc: Global,
    types: &Types,
    depth: usize,
    parts: &[Typ],
    indices: &[Index],
    zeros: &[Option<Value>],
) -> Result<Items<Option<Value>>, AllocError>
    ensures { IfOk result (λ made. made ≡ each_zero (map (zero_in types.now depth) parts.now) indices.now zeros.now) }
{
    let mut made = Items::new(alloc);
    for part in parts {
        made.push(zero_within(alloc, types, depth, part, indices, zeros)?)?;
    }
    Ok(made)
}

/// The zeros of types, in order, where each has one.
#[cycle(zero)]
fn parts_within(
    alloc: Global,
    types: &Types,
    depth: usize,
    parts: &[Typ],
    indices: &[Index],
    zeros: &[Option<Value>],
) -> Result<Option<Items<Value>>, AllocError>
    ensures { IfOk result (λ made. made ≡ together (each_zero (map (zero_in types.now depth) parts.now) indices.now zeros.now)) }
{
    let mut made = Items::new(alloc);
    for part in parts {
        match zero_within(alloc, types, depth, part, indices, zeros)? {
            None => return Ok(None),
            Some(zero) => made.push(zero)?,
        }
    }
    Ok(Some(made))
}

/// The zero of the struct or enum at a place in the table.
#[cycle(zero)]
fn zero_named(
    alloc: Global,
    types: &Types,
    depth: usize,
    place: u32,
    indices: &[Index],
    zeros: &[Option<Value>],
) -> Result<Option<Value>, AllocError>
    ensures { IfOk result (λ made. made ≡ zero_in_table (zero_in types.now depth) types.now place indices.now zeros.now) }
{
    let Some(definition) = types.definitions.get(place as usize) else {
        return Ok(None);
    };
    match &definition.form {
        Form::Struct(fields) => {
            match fields_within(alloc, types, depth, fields.as_slice(), indices, zeros)? {
                None => Ok(None),
                Some(fields) => Ok(Some(Value::Struct(place, fields))),
            }
        }
        Form::Union(_) => Ok(None),
        Form::Enum(members) => Ok(first_member(place, members.as_slice())),
    }
}

/// The zeros of fields, in order, where each has one.
#[cycle(zero)]
fn fields_within(
    alloc: Global,
    types: &Types,
    depth: usize,
    fields: &[Field],
    indices: &[Index],
    zeros: &[Option<Value>],
) -> Result<Option<Items<Value>>, AllocError>
    ensures { IfOk result (λ made. made ≡ together (field_zeros (zero_in types.now depth) (field_types fields.now) indices.now zeros.now)) }
{
    let mut made = Items::new(alloc);
    for field in fields {
        match zero_within(alloc, types, depth, &field.typ, indices, zeros)? {
            None => return Ok(None),
            Some(zero) => made.push(zero)?,
        }
    }
    Ok(Some(made))
}

/// The first member of the enum at this place, where it has one.
fn first_member(place: u32, members: &[Text]) -> Option<Value>
    ensures { result ≡ first_of place members.now }
{
    if members.is_empty() {
        None
    } else {
        Some(Value::Member(place, 0))
    }
}

/// The zero of what a Type variable stands for.
fn zero_at(
    alloc: Global,
    zeros: &[Option<Value>],
    position: u32,
) -> Result<Option<Value>, AllocError>
    ensures { IfOk result (λ made. made ≡ at_of zeros.now position) }
{
    match zeros.get(position as usize) {
        Some(Some(zero)) => Ok(Some(copy_value(alloc, zero)?)),
        _ => Ok(None),
    }
}

/// The integer that a number is where its variables stand for these arguments, if it is constant. The one error is want of memory.
pub fn known_number(
    alloc: Global,
    indices: &[Index],
    number: &Num,
) -> Result<Option<i128>, AllocError>
    ensures { IfOk result (λ made. made ≡ known_of indices.now number.now) }
{
    match read_number(alloc, number, indices)? {
        None => Ok(None),
        Some(number) => Ok(constant_value(&number)),
    }
}

fn constant_value(number: &Num) -> Option<i128>
    ensures { result ≡ constant_value_of number.now }
{
    if number.terms.is_empty() {
        Some(number.constant)
    } else {
        None
    }
}

/// Zero bits of a width from 0 to 128.
fn zero_bits(width: i128) -> Option<Value>
    ensures { result ≡ bits_of width }
{
    if 0 <= width && width <= 128 {
        Some(Value::Bits(Word::zeros(width as u8)))
    } else {
        None
    }
}

/// The integer between two numbers that is nearest to 0.
fn zero_between(
    alloc: Global,
    indices: &[Index],
    low: &Num,
    high: &Num,
) -> Result<Option<Value>, AllocError>
    ensures { IfOk result (λ made. made ≡ and_then (known_of indices.now low.now) (λ a. and_then (known_of indices.now high.now) (range_of a))) }
{
    let Some(low) = known_number(alloc, indices, low)? else {
        return Ok(None);
    };
    match known_number(alloc, indices, high)? {
        None => Ok(None),
        Some(high) => Ok(zero_range(low, high)),
    }
}

fn zero_range(low: i128, high: i128) -> Option<Value>
    ensures { result ≡ range_of low high }
{
    if high < low {
        return None;
    }
    let zero = nearest(low, high);
    if is_small(zero) {
        Some(Value::Integer(zero))
    } else {
        None
    }
}

fn nearest(low: i128, high: i128) -> i128
    ensures { result ≡ nearest_of low high }
{
    if 0 < low {
        low
    } else if high < 0 {
        high
    } else {
        0
    }
}

/// So many times an item, from 0 to 4,096 times.
fn zero_vector(alloc: Global, length: i128, item: &Value) -> Result<Option<Value>, AllocError>
    ensures { IfOk result (λ made. made ≡ vector_of length item.now) }
{
    if length < 0 || 4096 < length {
        return Ok(None);
    }
    Ok(Some(Value::Vector(repeated(alloc, length as usize, item)?)))
}

fn repeated(alloc: Global, count: usize, item: &Value) -> Result<Items<Value>, AllocError>
    ensures { IfOk result (λ made. made ≡ replicate count item.now) }
{
    let mut made = Items::new(alloc);
    for _at in 0..count {
        made.push(copy_value(alloc, item)?)?;
    }
    Ok(made)
}
