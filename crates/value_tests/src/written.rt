//! Values without others inside, as the tables of these tests write them.
use sail_base::{Items, Text, Word};
use sail_types::Value;
use std::alloc::{AllocError, Global};

/// A value.
pub enum Written {
    Int(i128),
    /// The word of this width and number.
    Bits(u8, u128),
    Text(&'static str),
    Truth(bool),
    Bit(bool),
    /// A member of an enum: the place of the enum, and its own.
    Member(u32, u32),
    Unit,
}

fn word(width: u8, bits: u128) -> Value {
    if width <= 128 {
        Value::Bits(Word::low(width, bits))
    } else {
        Value::Unit
    }
}

/// The value that is written.
pub fn value(alloc: Global, written: &Written) -> Result<Value, AllocError> {
    Ok(match written {
        Written::Int(z) => Value::Integer(*z),
        Written::Bits(width, bits) => word(*width, *bits),
        Written::Text(text) => Value::String(Text::new(alloc, text)?),
        Written::Truth(truth) => Value::Truth(*truth),
        Written::Bit(bit) => Value::Bit(*bit),
        Written::Member(place, member) => Value::Member(*place, *member),
        Written::Unit => Value::Unit,
    })
}

/// The values that are written.
pub fn values(alloc: Global, written: &[Written]) -> Result<Items<Value>, AllocError> {
    let mut values = Items::new(alloc);
    for one in written {
        values.push(value(alloc, one)?)?;
    }
    Ok(values)
}
