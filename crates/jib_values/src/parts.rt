//! Parts of values: read, changed and put together.
ghost use Rattle.std.specs.Prelude.{◌≡◌, ◌∷◌, ◌<◌, [], length, IfOk, Some, None, option_map, slice_get, slice_set};
ghost use Rattle.std.specs.Option.{option_copied};
ghost use Rattle.sail_types.specs.declared.values.Value.{out-Value};
ghost use Rattle.sail_types.specs.declared.values.Value.TheVariants as V;
ghost use Rattle.jib.specs.Operations as O;

use crate::reading::copied;
use crate::words::{bit_at, replaced, slice_of, with_bit};
use jib::ValueType;
use sail_base::{Boxed, Items};
use sail_types::{Value, copy_values};
use std::alloc::{AllocError, Global};

/// A tuple, struct, vector or list of these values, by its type.
pub fn built(typ: Option<&ValueType>, values: Items<Value>) -> Option<Value>
    ensures { result ≡ O.built (option_copied typ.entry) values }
{
    match typ {
        Some(ValueType::Tuple(_)) => Some(Value::Tuple(values)),
        Some(ValueType::Struct(place, _)) => Some(Value::Struct(*place, values)),
        Some(ValueType::Vector(_, _)) => Some(Value::Vector(values)),
        Some(ValueType::List(_)) => Some(Value::List(values)),
        _ => None,
    }
}

/// The constructor of this place over a value.
pub fn constructed(
    alloc: Global,
    typ: Option<&ValueType>,
    constructor: u32,
    value: Value,
) -> Result<Option<Value>, AllocError>
    ensures { IfOk result (λ made. made ≡ O.constructed (option_copied typ.entry) constructor value) }
{
    match typ {
        Some(ValueType::Union(place, _)) => {
            let inside = Boxed::new(alloc, value)?;
            Ok(Some(Value::Union(*place, constructor, inside)))
        }
        _ => Ok(None),
    }
}

/// A copy of the value at an index, where there is one.
fn copied_at(alloc: Global, values: &[Value], index: usize) -> Result<Option<Value>, AllocError>
    ensures { IfOk result (λ made. made ≡ slice_get values.now index) }
{
    match values.get(index) {
        Some(value) => Ok(Some(copied(alloc, value)?)),
        None => Ok(None),
    }
}

/// The part of a tuple or a struct.
pub fn field(alloc: Global, place: u32, value: &Value) -> Result<Option<Value>, AllocError>
    ensures { IfOk result (λ made. made ≡ O.field place (out-Value value.now)) }
{
    match value {
        Value::Tuple(parts) => copied_at(alloc, parts.as_slice(), place as usize),
        Value::Struct(_, parts) => copied_at(alloc, parts.as_slice(), place as usize),
        _ => Ok(None),
    }
}

/// Copies of values, with another at an index where it is inside.
#[tactic(auto, using(crate::proofs::PartLaws::unset))]
fn copied_with(
    alloc: Global,
    values: &[Value],
    index: usize,
    value: Value,
) -> Result<Items<Value>, AllocError>
    ensures { IfOk result (λ made. made ≡ slice_set values.now index value) }
{
    let mut made = copy_values(alloc, values)?;
    if index < made.len() {
        made.set(index, value);
    }
    Ok(made)
}

/// A tuple or a struct with another part.
pub fn with_field(
    alloc: Global,
    place: u32,
    value: &Value,
    part: Value,
) -> Result<Option<Value>, AllocError>
    ensures { IfOk result (λ made. made ≡ O.with_field place (out-Value value.now) part) }
{
    match value {
        Value::Tuple(parts) => Ok(Some(Value::Tuple(copied_with(
            alloc,
            parts.as_slice(),
            place as usize,
            part,
        )?))),
        Value::Struct(named, parts) => Ok(Some(Value::Struct(
            *named,
            copied_with(alloc, parts.as_slice(), place as usize, part)?,
        ))),
        _ => Ok(None),
    }
}

/// The index that a value is; none where it is negative, no integer, or past all lengths.
pub fn index_of(value: &Value) -> Option<u128>
    ensures { result ≡ O.index_of (out-Value value.now) }
{
    match value {
        Value::Integer(n) => {
            if 0 <= *n {
                return Some(*n as u128);
            }
            None
        }
        _ => None,
    }
}

/// The item at an index; of a word the bit.
pub fn item(alloc: Global, value: &Value, index: u128) -> Result<Option<Value>, AllocError>
    ensures { IfOk result (λ made. made ≡ O.item (out-Value value.now) index) }
{
    match value {
        Value::Vector(items) => item_at(alloc, items.as_slice(), index),
        Value::List(items) => item_at(alloc, items.as_slice(), index),
        Value::Bits(word) => match bit_at(*word, index) {
            Some(bit) => Ok(Some(Value::Bit(bit))),
            None => Ok(None),
        },
        _ => Ok(None),
    }
}

/// A copy of the item at an index, where there is one.
#[tactic(auto, using(crate::proofs::PartLaws::past))]
fn item_at(alloc: Global, items: &[Value], index: u128) -> Result<Option<Value>, AllocError>
    ensures { IfOk result (λ made. made ≡ slice_get items.now index) }
{
    if index < items.len() as u128 {
        copied_at(alloc, items, index as usize)
    } else {
        Ok(None)
    }
}

/// Copies of items, with another at an index where it is inside.
#[tactic(auto, using(crate::proofs::PartLaws::unset))]
fn items_with(
    alloc: Global,
    items: &[Value],
    index: u128,
    value: Value,
) -> Result<Items<Value>, AllocError>
    ensures { IfOk result (λ made. made ≡ slice_set items.now index value) }
{
    if index < items.len() as u128 {
        copied_with(alloc, items, index as usize, value)
    } else {
        copy_values(alloc, items)
    }
}

/// A vector, a list or a word with another item; the same where the index is outside.
pub fn with_item(
    alloc: Global,
    value: &Value,
    index: u128,
    item: Value,
) -> Result<Option<Value>, AllocError>
    ensures { IfOk result (λ made. made ≡ O.with_item (out-Value value.now) index item (out-Value item)) }
{
    match value {
        Value::Vector(items) => Ok(Some(Value::Vector(items_with(
            alloc,
            items.as_slice(),
            index,
            item,
        )?))),
        Value::List(items) => Ok(Some(Value::List(items_with(
            alloc,
            items.as_slice(),
            index,
            item,
        )?))),
        Value::Bits(word) => match &item {
            Value::Bit(bit) => Ok(Some(Value::Bits(with_bit(*word, index, *bit)))),
            _ => Ok(None),
        },
        _ => Ok(None),
    }
}

/// The bits from the one index down to the other.
pub fn slice(value: &Value, high: u128, low: u128) -> Option<Value>
    ensures { result ≡ O.slice (out-Value value.now) high low }
{
    match value {
        Value::Bits(word) => match slice_of(*word, high, low) {
            Some(bits) => Some(Value::Bits(bits)),
            None => None,
        },
        _ => None,
    }
}

/// A word with other bits from the one index down to the other; the same where they are outside.
pub fn with_slice(value: &Value, high: u128, low: u128, new: &Value) -> Option<Value>
    ensures { result ≡ O.with_slice (out-Value value.now) high low (out-Value new.now) }
{
    match value {
        Value::Bits(word) => match new {
            Value::Bits(bits) => Some(Value::Bits(replaced(*word, high, low, *bits))),
            _ => None,
        },
        _ => None,
    }
}

/// A list with an item before it.
pub fn cons(alloc: Global, first: Value, value: &Value) -> Result<Option<Value>, AllocError>
    ensures { IfOk result (λ made. made ≡ O.cons first (out-Value value.now)) }
{
    match value {
        Value::List(items) => {
            let mut made = Items::new(alloc);
            made.push(first)?;
            made.append(copy_values(alloc, items.as_slice())?)?;
            Ok(Some(Value::List(made)))
        }
        _ => Ok(None),
    }
}

/// A list without its first item.
pub fn rest(alloc: Global, value: &Value) -> Result<Option<Value>, AllocError>
    ensures { IfOk result (λ made. made ≡ O.rest (out-Value value.now)) }
{
    match value {
        Value::List(items) => match items.as_slice().split_first() {
            Some((_, rest)) => Ok(Some(Value::List(copy_values(alloc, rest)?))),
            None => Ok(None),
        },
        _ => Ok(None),
    }
}

/// Whether a list is empty.
pub fn is_empty(value: &Value) -> Option<Value>
    ensures { result ≡ O.is_empty (out-Value value.now) }
{
    match value {
        Value::List(items) => match items.as_slice().split_first() {
            Some(_) => Some(Value::Truth(false)),
            None => Some(Value::Truth(true)),
        },
        _ => None,
    }
}
