//! Values as the report prints them. A text is put behind a list of bytes; each call fails where memory is
//! wanting.
ghost use Rattle.std.specs.Prelude.{◌≡◌, ◌*◌, ◌<◌, ◌≤◌, ◌++◌, ◌+◌, length, take, drop, map, slice_get, OnOk};
ghost use Rattle.sail_base.specs.Bits.{value_of};
ghost use Rattle.sail_types.specs.Named.{constructors, fields, members};
ghost use Rattle.sail_types.specs.Texts.{bits_text, digit, digits, value_text, listed, struct_text, field_name, text_at, fields_text, quoted};

use crate::table::{Field, Types};
use crate::texts::push_integer;
use crate::values::Value;
use sail_base::{Text, Word};
use std::alloc::AllocError;

// The sixteen digits.
const DIGITS: &[u8; 16] = b"0123456789abcdef";

/// Puts a word of bits: in hexadecimal where its width is a positive multiple of 4, else in binary.
pub fn push_bits(out: &mut Vec<u8>, word: Word) -> Result<(), AllocError>
    ensures { OnOk result (out.new.items ≡ out.old.items ++ bits_text word) }
{
    let width = word.width();
    if width != 0 && width % 4 == 0 {
        out.extend_from_slice(b"0x")?;
        push_digits(out, word, 4, width / 4)
    } else {
        out.extend_from_slice(b"0b")?;
        push_digits(out, word, 1, width)
    }
}

/// Puts that many digits of as many bits each, the highest first.
fn push_digits(out: &mut Vec<u8>, word: Word, bits_each: u8, count: u8) -> Result<(), AllocError>
    requires some { 0 < bits_each }
    requires few { bits_each ≤ 4 }
    requires whole { bits_each * count ≡ length word }
    ensures { OnOk result (out.new.items ≡ out.old.items ++ digits bits_each count word) }
{
    let mut left = count;
    while left > 0 {
        left -= 1;
        out.push(digit_at(word, bits_each, left))?;
    }
    Ok(())
}

/// The digit with that many digits below it.
fn digit_at(word: Word, bits_each: u8, below: u8) -> u8
    requires some { 0 < bits_each }
    requires few { bits_each ≤ 4 }
    requires within { bits_each * (below + 1) ≤ length word }
    ensures { result ≡ digit (value_of (take bits_each (drop (bits_each * below) word))) }
{
    let low = bits_each * below;
    let part = word.slice(low + bits_each - 1, low);
    DIGITS[part.bits() as usize]
}

/// Puts a value's text.
#[cycle(push_value)]
pub fn push_value(out: &mut Vec<u8>, types: &Types, value: &Value) -> Result<(), AllocError>
    ensures { OnOk result (out.new.items ≡ out.old.items ++ value_text types.now value.now) }
{
    match value {
        Value::Unit => out.extend_from_slice(b"()"),
        Value::Integer(n) => push_integer(out, *n),
        Value::Truth(truth) => out.extend_from_slice(if *truth { b"true" } else { b"false" }),
        Value::Bit(bit) => out.extend_from_slice(if *bit { b"bitone" } else { b"bitzero" }),
        Value::Bits(word) => push_bits(out, *word),
        Value::String(text) => push_quoted(out, text),
        Value::Member(place, member) => push_member(out, types, *place, *member),
        Value::Tuple(parts) => {
            out.extend_from_slice(b"(")?;
            push_values(out, types, parts.as_slice())?;
            out.extend_from_slice(b")")
        }
        Value::Struct(place, parts) => push_struct(out, types, *place, parts.as_slice()),
        Value::Union(place, constructor, payload) => {
            push_constructor(out, types, *place, *constructor)?;
            out.extend_from_slice(b"(")?;
            push_value(out, types, payload.get())?;
            out.extend_from_slice(b")")
        }
        Value::List(items) => {
            out.extend_from_slice(b"[|")?;
            push_values(out, types, items.as_slice())?;
            out.extend_from_slice(b"|]")
        }
        Value::Vector(items) => {
            out.extend_from_slice(b"[")?;
            push_values(out, types, items.as_slice())?;
            out.extend_from_slice(b"]")
        }
    }
}

#[cycle(push_value)]
fn push_values(out: &mut Vec<u8>, types: &Types, values: &[Value]) -> Result<(), AllocError>
    ensures { OnOk result (out.new.items ≡ out.old.items ++ listed (map (value_text types.now) values.now)) }
{
    let mut first = true;
    for value in values {
        if !first {
            out.extend_from_slice(b", ")?;
        }
        push_value(out, types, value)?;
        first = false;
    }
    Ok(())
}

#[cycle(push_value)]
fn push_struct(
    out: &mut Vec<u8>,
    types: &Types,
    place: u32,
    values: &[Value],
) -> Result<(), AllocError>
    ensures { OnOk result (out.new.items ≡ out.old.items ++ struct_text (fields types.now place) (map (value_text types.now) values.now)) }
{
    match types.fields(place) {
        None => Ok(()),
        Some(fields) => {
            out.extend_from_slice(b"{")?;
            push_fields(out, types, fields, values)?;
            out.extend_from_slice(b"}")
        }
    }
}

#[cycle(push_value)]
fn push_fields(
    out: &mut Vec<u8>,
    types: &Types,
    fields: &[Field],
    values: &[Value],
) -> Result<(), AllocError>
    ensures { OnOk result (out.new.items ≡ out.old.items ++ listed (fields_text (map (value_text types.now) values.now) fields.now)) }
{
    let mut index = 0;
    for value in values {
        let Some(field) = fields.get(index) else {
            return Ok(());
        };
        if index > 0 {
            out.extend_from_slice(b", ")?;
        }
        out.extend_from_slice(field.name.as_bytes())?;
        out.extend_from_slice(b" = ")?;
        push_value(out, types, value)?;
        index += 1;
    }
    Ok(())
}

fn push_quoted(out: &mut Vec<u8>, text: &Text) -> Result<(), AllocError>
    ensures { OnOk result (out.new.items ≡ out.old.items ++ quoted text.now) }
{
    out.extend_from_slice(b"\"")?;
    out.extend_from_slice(text.as_bytes())?;
    out.extend_from_slice(b"\"")
}

fn push_member(out: &mut Vec<u8>, types: &Types, place: u32, member: u32) -> Result<(), AllocError>
    ensures { OnOk result (out.new.items ≡ out.old.items ++ text_at (members types.now place) member) }
{
    match types.members(place).get(member as usize) {
        None => Ok(()),
        Some(name) => out.extend_from_slice(name.as_bytes()),
    }
}

fn push_constructor(
    out: &mut Vec<u8>,
    types: &Types,
    place: u32,
    constructor: u32,
) -> Result<(), AllocError>
    ensures { OnOk result (out.new.items ≡ out.old.items ++ field_name (slice_get (constructors types.now place) constructor)) }
{
    match types.constructors(place).get(constructor as usize) {
        None => Ok(()),
        Some(field) => out.extend_from_slice(field.name.as_bytes()),
    }
}
