//! Types that name no variable from one on, but for integers and truths.
ghost use Rattle.std.specs.Prelude.{◌≡◌, map};
ghost use Rattle.std.specs.List.{list_all};
ghost use Rattle.call_arguments.specs.Callees as callees;

use crate::closed::are_under;
use value_indices::{Indices, Reading};
use wide_types::is_below;

/// Whether a type names no variable from this one on, but for integers and truths.
#[cycle(is_type_below)]
pub fn is_type_below(from: u32, reading: &Reading) -> bool
    ensures { result ≡ callees.is_type_below from reading.now }
{
    match reading {
        Reading::Of(_, indices, readings) => {
            if are_under(from, indices.as_slice()) {
                are_types_below(from, readings.as_slice())
            } else {
                false
            }
        }
        Reading::Widened(value) => is_value_below(from, value.get()),
        Reading::Parts(parts) => are_types_below(from, parts.as_slice()),
        Reading::Hole => true,
    }
}

/// The same of several types.
#[cycle(is_type_below)]
fn are_types_below(from: u32, readings: &[Reading]) -> bool
    ensures { result ≡ list_all (λ b. b) (map (callees.is_type_below from) readings.now) }
{
    for reading in readings {
        if !is_type_below(from, reading) {
            return false;
        }
    }
    true
}

/// The same of the type of a value.
#[cycle(is_type_below)]
fn is_value_below(from: u32, value: &Indices) -> bool
    ensures { result ≡ callees.is_value_below from value.now }
{
    match value {
        Indices::Bits(width) => is_below(from, width),
        Indices::List(item) => is_type_below(from, item.get()),
        Indices::Vector(length, item) => {
            if is_below(from, length) {
                is_type_below(from, item.get())
            } else {
                false
            }
        }
        Indices::Tuple(parts) => are_values_below(from, parts.as_slice()),
        Indices::Named(_, indices, readings) => {
            if are_under(from, indices.as_slice()) {
                are_types_below(from, readings.as_slice())
            } else {
                false
            }
        }
        _ => true,
    }
}

/// The same of the types of several values.
#[cycle(is_type_below)]
fn are_values_below(from: u32, values: &[Indices]) -> bool
    ensures { result ≡ list_all (λ b. b) (map (callees.is_value_below from) values.now) }
{
    for value in values {
        if !is_value_below(from, value) {
            return false;
        }
    }
    true
}
