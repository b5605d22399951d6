//! What a builtin takes: values whose indices have the forms of its parameters.
ghost use Rattle.std.specs.Prelude.{◌≡◌, IfOk};
ghost use Rattle.sail_types.specs.declared.shapes.Shape.{out-Shape};
ghost use Rattle.value_indices.specs.declared.indices.Indices.{out-Indices};
ghost use Rattle.call_notes.specs.Taken as taken;

use sail_types::{Member, Row, Shape, Types, row_members};
use std::alloc::{AllocError, Global};
use value_indices::Indices;

fn is_unit(value: &Indices) -> bool
    ensures { result ≡ taken.is_unit (out-Indices value.now) }
{
    match value {
        Indices::Unit => true,
        _ => false,
    }
}

fn is_truth(value: &Indices) -> bool
    ensures { result ≡ taken.is_truth (out-Indices value.now) }
{
    match value {
        Indices::Truth(_) => true,
        _ => false,
    }
}

fn is_bit(value: &Indices) -> bool
    ensures { result ≡ taken.is_bit (out-Indices value.now) }
{
    match value {
        Indices::Bit => true,
        _ => false,
    }
}

fn is_bits(value: &Indices) -> bool
    ensures { result ≡ taken.is_bits (out-Indices value.now) }
{
    match value {
        Indices::Bits(_) => true,
        _ => false,
    }
}

fn is_integer(value: &Indices) -> bool
    ensures { result ≡ taken.is_integer (out-Indices value.now) }
{
    match value {
        Indices::Integer(_) => true,
        _ => false,
    }
}

fn is_string(value: &Indices) -> bool
    ensures { result ≡ taken.is_string (out-Indices value.now) }
{
    match value {
        Indices::String => true,
        _ => false,
    }
}

fn is_vector(value: &Indices) -> bool
    ensures { result ≡ taken.is_vector (out-Indices value.now) }
{
    match value {
        Indices::Vector(_, _) => true,
        _ => false,
    }
}

/// Whether an enum is at this place of the table.
fn is_enum_at(types: &Types, place: u32) -> bool
    ensures { result ≡ taken.is_enum_at types.now place }
{
    match types.definitions.get(place as usize) {
        None => false,
        Some(definition) => definition.is_enum(),
    }
}

/// Whether such a value is a member of the enum at this place of the table.
fn is_member_of(types: &Types, place: u32, value: &Indices) -> bool
    ensures { result ≡ taken.is_member_of types.now place (out-Indices value.now) }
{
    match value {
        Indices::Named(at, _, _) => {
            if *at == place {
                is_enum_at(types, *at)
            } else {
                false
            }
        }
        _ => false,
    }
}

/// Whether it is any shape.
fn is_any(shape: &Shape) -> bool
    ensures { result ≡ taken.is_any (out-Shape shape.now) }
{
    match shape {
        Shape::Variable(_) => true,
        _ => false,
    }
}

/// Whether such a value is of the shape of a parameter.
fn suits(types: &Types, shape: &Shape, value: &Indices) -> bool
    ensures { result ≡ taken.suits types.now shape.now value.now }
{
    match shape {
        Shape::Unit => is_unit(value),
        Shape::Bool => is_truth(value),
        Shape::Bit => is_bit(value),
        Shape::Bits => is_bits(value),
        Shape::Int => is_integer(value),
        Shape::String => is_string(value),
        Shape::Vector(item) => is_any(item.get()) && is_vector(value),
        Shape::Named(place, _) => is_member_of(types, *place, value),
        Shape::Variable(_) => true,
        _ => false,
    }
}

/// Whether such values are those of the parameters of a member of a builtin.
fn each_suits(types: &Types, params: &[Shape], values: &[Indices]) -> bool
    ensures { result ≡ taken.each_suits types.now params.now values.now }
{
    match params {
        [first] => match values {
            [value] => suits(types, first, value),
            _ => false,
        },
        [first, second] => match values {
            [value, other] => suits(types, first, value) && suits(types, second, other),
            _ => false,
        },
        [first, second, third] => match values {
            [value, other, last] => {
                suits(types, first, value)
                    && (suits(types, second, other) && suits(types, third, last))
            }
            _ => false,
        },
        _ => false,
    }
}

/// Whether one of these members takes such values.
fn any_suits(types: &Types, values: &[Indices], members: &[Member]) -> bool
    ensures { result ≡ taken.any_suits types.now values.now members.now }
{
    for member in members {
        if each_suits(types, member.params.as_slice(), values) {
            return true;
        }
    }
    false
}

/// Whether a builtin takes such values: those of one of its members. It fails where memory is wanting.
pub fn takes(alloc: Global, types: &Types, row: Row, values: &[Indices]) -> Result<bool, AllocError>
    ensures { IfOk result (λ is. is ≡ taken.takes types.now row values.now) }
{
    let members = row_members(alloc, types, row)?;
    Ok(any_suits(types, values, members.as_slice()))
}
