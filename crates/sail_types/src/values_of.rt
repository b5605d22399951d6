//! Copies of values, and their equality.
ghost use Rattle.std.specs.Prelude.{◌≡◌, ◌↔◌, IsTrue, IfOk};

use crate::small::{both, same_integer, same_place, same_text, same_truth, same_word};
use crate::values::Value;
use sail_base::{Boxed, Items};
use std::alloc::{AllocError, Global};

/// The same value once more. It fails where memory is wanting.
#[cycle(copy_value)]
pub fn copy_value(alloc: Global, value: &Value) -> Result<Value, AllocError>
    ensures { IfOk result (λ copy. copy ≡ value.now) }
{
    match value {
        Value::Unit => Ok(Value::Unit),
        Value::Integer(n) => Ok(Value::Integer(*n)),
        Value::Truth(truth) => Ok(Value::Truth(*truth)),
        Value::Bit(bit) => Ok(Value::Bit(*bit)),
        Value::Bits(word) => Ok(Value::Bits(*word)),
        Value::String(text) => Ok(Value::String(text.clone()?)),
        Value::Member(place, member) => Ok(Value::Member(*place, *member)),
        Value::Tuple(parts) => Ok(Value::Tuple(copy_values(alloc, parts.as_slice())?)),
        Value::Struct(place, parts) => Ok(Value::Struct(
            *place,
            copy_values(alloc, parts.as_slice())?,
        )),
        Value::Union(place, constructor, payload) => {
            let payload = copy_value(alloc, payload.get())?;
            Ok(Value::Union(*place, *constructor, Boxed::new(alloc, payload)?))
        }
        Value::List(items) => Ok(Value::List(copy_values(alloc, items.as_slice())?)),
        Value::Vector(items) => Ok(Value::Vector(copy_values(alloc, items.as_slice())?)),
    }
}

/// The same values once more, in order. It fails where memory is wanting.
#[cycle(copy_value)]
pub fn copy_values(alloc: Global, values: &[Value]) -> Result<Items<Value>, AllocError>
    ensures { IfOk result (λ copy. copy ≡ values.now) }
{
    let mut copies = Items::new(alloc);
    for value in values {
        copies.push(copy_value(alloc, value)?)?;
    }
    Ok(copies)
}

/// Whether two values are the same.
#[cycle(same_value)]
pub fn same_value(a: &Value, b: &Value) -> bool
    ensures { IsTrue result ↔ (a.now ≡ b.now) }
{
    match (a, b) {
        (Value::Unit, Value::Unit) => true,
        (Value::Integer(n), Value::Integer(other)) => same_integer(n, other),
        (Value::Truth(truth), Value::Truth(other)) => same_truth(*truth, *other),
        (Value::Bit(bit), Value::Bit(other)) => same_truth(*bit, *other),
        (Value::Bits(word), Value::Bits(other)) => same_word(word, other),
        (Value::String(text), Value::String(other)) => same_text(text, other),
        (Value::Member(place, member), Value::Member(other, other_member)) => both(
            same_place(*place, *other),
            same_place(*member, *other_member),
        ),
        (Value::Tuple(parts), Value::Tuple(others)) => {
            same_values(parts.as_slice(), others.as_slice())
        }
        (Value::Struct(place, parts), Value::Struct(other, others)) => both(
            same_place(*place, *other),
            same_values(parts.as_slice(), others.as_slice()),
        ),
        (
            Value::Union(place, constructor, payload),
            Value::Union(other, other_constructor, other_payload),
        ) => both(
            both(
                same_place(*place, *other),
                same_place(*constructor, *other_constructor),
            ),
            same_value(payload.get(), other_payload.get()),
        ),
        (Value::List(items), Value::List(others)) => {
            same_values(items.as_slice(), others.as_slice())
        }
        (Value::Vector(items), Value::Vector(others)) => {
            same_values(items.as_slice(), others.as_slice())
        }
        _ => false,
    }
}

/// Whether two lists of values are the same.
#[cycle(same_value)]
pub fn same_values(a: &[Value], b: &[Value]) -> bool
    ensures { IsTrue result ↔ (a.now ≡ b.now) }
{
    if a.len() != b.len() {
        return false;
    }
    let mut at = 0;
    for item in a {
        if !same_value(item, &b[at]) {
            return false;
        }
        at += 1;
    }
    true
}
