//! Which values belong to types, and the zeros of types.
ghost use Rattle.std.specs.Prelude.{◌≡◌, false, map, replicate, slice_get, IfOk, IsTrue};
ghost use Rattle.std.specs.List.{list_all};
ghost use Rattle.std.specs.Option.{option_copied};
ghost use Rattle.jib.specs.Values.{has, each_has, payload_has, first_constructor, form_zero, zero_within as zero_in};
ghost use Rattle.jib_values.specs.Widths.{is_narrow, all_narrow};

use jib::ValueType;
use sail_base::{Boxed, Items, Text, Word};
use sail_types::{Value, is_small};
use std::alloc::{AllocError, Global};

/// The type of a number.
pub fn type_at(types: &[ValueType], typ: u32) -> Option<&ValueType>
    ensures { option_copied result ≡ slice_get types.now typ }
{
    types.get(typ as usize)
}

/// Whether a value belongs to the type of this number.
#[cycle(belongs)]
pub fn belongs(types: &[ValueType], value: &Value, typ: u32) -> bool
    ensures { result ≡ has types.now value.now typ }
{
    match (value, type_at(types, typ)) {
        (Value::Integer(n), Some(ValueType::Integer)) => is_small(*n),
        (Value::Bits(word), Some(ValueType::Bits(width))) => word.width() == *width,
        (Value::Truth(_), Some(ValueType::Truth)) => true,
        (Value::Unit, Some(ValueType::Unit)) => true,
        (Value::Bit(_), Some(ValueType::Bit)) => true,
        (Value::String(_), Some(ValueType::String)) => true,
        (Value::Member(place, member), Some(ValueType::Enum(other, count))) => {
            *place == *other && *member < *count
        }
        (Value::List(items), Some(ValueType::List(item))) => {
            all_belong(types, items.as_slice(), *item)
        }
        (Value::Vector(items), Some(ValueType::Vector(length, item))) => {
            items.len() == *length as usize && all_belong(types, items.as_slice(), *item)
        }
        (Value::Tuple(parts), Some(ValueType::Tuple(inside))) => {
            each_belongs(types, parts.as_slice(), inside.as_slice())
        }
        (Value::Struct(place, parts), Some(ValueType::Struct(other, inside))) => {
            *place == *other && each_belongs(types, parts.as_slice(), inside.as_slice())
        }
        (Value::Union(place, constructor, payload), Some(ValueType::Union(other, inside))) => {
            *place == *other && payload_belongs(types, payload.get(), inside, *constructor)
        }
        _ => false,
    }
}

/// The type at a place, where there is one.
fn inside_at(inside: &Items<u32>, place: u32) -> Option<u32>
    ensures { result ≡ slice_get inside.now place }
{
    inside.as_slice().get(place as usize).copied()
}

/// Whether a value belongs to the payload's type of a constructor.
#[cycle(belongs)]
fn payload_belongs(
    types: &[ValueType],
    value: &Value,
    inside: &Items<u32>,
    constructor: u32,
) -> bool
    ensures { result ≡ payload_has (has types.now value.now) (slice_get inside.now constructor) }
{
    match inside_at(inside, constructor) {
        None => false,
        Some(typ) => belongs(types, value, typ),
    }
}

/// Whether all values belong to one type.
#[cycle(belongs)]
fn all_belong(types: &[ValueType], values: &[Value], typ: u32) -> bool
    ensures { result ≡ list_all (λ f. f typ) (map (has types.now) values.now) }
{
    for value in values {
        if !belongs(types, value, typ) {
            return false;
        }
    }
    true
}

/// Whether there are as many values as types, and each belongs to its own.
#[cycle(belongs)]
#[tactic(auto, using(crate::proofs::TypeLaws::unlike))]
fn each_belongs(types: &[ValueType], values: &[Value], inside: &[u32]) -> bool
    ensures { result ≡ each_has (map (has types.now) values.now) inside.now }
{
    if values.len() != inside.len() {
        return false;
    }
    let mut index = 0;
    for value in values {
        if !belongs(types, value, inside[index]) {
            return false;
        }
        index += 1;
    }
    true
}

/// The zero of a type, through types inside types to this depth.
#[cycle(zero)]
pub fn zero_within(
    alloc: Global,
    types: &[ValueType],
    depth: usize,
    typ: u32,
) -> Result<Value, AllocError>
    requires narrow { IsTrue (all_narrow types.now) }
    ensures { IfOk result (λ value. value ≡ zero_in types.now depth typ) }
{
    if depth == 0 {
        return Ok(Value::Unit);
    }
    match type_at(types, typ) {
        None => Ok(Value::Unit),
        Some(found) => {
            let value = zero_of_form(alloc, types, depth - 1, found)?;
            Ok(value)
        }
    }
}

/// The zero of the type of this number.
#[cycle(zero)]
fn zero_of_form(
    alloc: Global,
    types: &[ValueType],
    depth: usize,
    typ: &ValueType,
) -> Result<Value, AllocError>
    requires narrow { IsTrue (all_narrow types.now) }
    requires typ { IsTrue (is_narrow typ.now) }
    ensures { IfOk result (λ value. value ≡ form_zero (zero_in types.now depth) typ.now) }
{
    match typ {
        ValueType::Unit => Ok(Value::Unit),
        ValueType::Integer => Ok(Value::Integer(0)),
        ValueType::Truth => Ok(Value::Truth(false)),
        ValueType::Bit => Ok(Value::Bit(false)),
        ValueType::Bits(width) => Ok(Value::Bits(Word::zeros(*width))),
        ValueType::String => Ok(Value::String(Text::new(alloc, "")?)),
        ValueType::Enum(place, _) => Ok(Value::Member(*place, 0)),
        ValueType::List(_) => Ok(Value::List(Items::new(alloc))),
        ValueType::Vector(length, item) => Ok(Value::Vector(zeros(
            alloc, types, depth, *length, *item,
        )?)),
        ValueType::Tuple(inside) => {
            Ok(Value::Tuple(each_zero(alloc, types, depth, inside.as_slice())?))
        }
        ValueType::Struct(place, inside) => Ok(Value::Struct(
            *place,
            each_zero(alloc, types, depth, inside.as_slice())?,
        )),
        ValueType::Union(place, inside) => first_zero(
            alloc,
            types,
            depth,
            *place,
            inside.as_slice(),
        ),
    }
}

/// So many zeros of a type.
#[cycle(zero)]
fn zeros(
    alloc: Global,
    types: &[ValueType],
    depth: usize,
    count: u16,
    typ: u32,
) -> Result<Items<Value>, AllocError>
    requires narrow { IsTrue (all_narrow types.now) }
    ensures { IfOk result (λ values. values ≡ replicate count (zero_in types.now depth typ)) }
{
    let mut values = Items::new(alloc);
    for _at in 0..count {
        values.push(zero_within(alloc, types, depth, typ)?)?;
    }
    Ok(values)
}

/// The zeros of types, in order.
#[cycle(zero)]
fn each_zero(
    alloc: Global,
    types: &[ValueType],
    depth: usize,
    inside: &[u32],
) -> Result<Items<Value>, AllocError>
    requires narrow { IsTrue (all_narrow types.now) }
    ensures { IfOk result (λ values. values ≡ map (zero_in types.now depth) inside.now) }
{
    let mut values = Items::new(alloc);
    for typ in inside {
        values.push(zero_within(alloc, types, depth, *typ)?)?;
    }
    Ok(values)
}

/// The first constructor of a union over a zero.
#[cycle(zero)]
fn first_zero(
    alloc: Global,
    types: &[ValueType],
    depth: usize,
    place: u32,
    inside: &[u32],
) -> Result<Value, AllocError>
    requires narrow { IsTrue (all_narrow types.now) }
    ensures { IfOk result (λ value. value ≡ first_constructor (zero_in types.now depth) place inside.now) }
{
    match inside.split_first() {
        None => Ok(Value::Unit),
        Some((typ, _)) => {
            let payload = zero_within(alloc, types, depth, *typ)?;
            Ok(Value::Union(place, 0, Boxed::new(alloc, payload)?))
        }
    }
}
