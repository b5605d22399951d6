//! What stands in the types of items and in Type arguments.
ghost use Rattle.std.specs.Prelude.{◌≡◌, map};
ghost use Rattle.std.specs.List.{list_all};
ghost use Rattle.expression_forms.specs.Inside as inside;

use sail_types::Index;
use value_indices::{Indices, Reading};
use wide_types::{is_below, is_con_below};

/// Whether no type inside that of a value is a hole.
#[cycle(whole)]
pub(crate) fn is_value_whole(value: &Indices) -> bool
    ensures { result ≡ inside.is_value_whole value.now }
{
    match value {
        Indices::List(item) => is_type_whole(item.get()),
        Indices::Vector(_, item) => is_type_whole(item.get()),
        Indices::Tuple(parts) => are_values_whole(parts.as_slice()),
        Indices::Named(_, _, arguments) => are_types_whole(arguments.as_slice()),
        _ => true,
    }
}

/// The same of values.
#[cycle(whole)]
fn are_values_whole(values: &[Indices]) -> bool
    ensures { result ≡ list_all (λ b. b) (map inside.is_value_whole values.now) }
{
    for value in values {
        if !is_value_whole(value) {
            return false;
        }
    }
    true
}

/// The same of a type.
#[cycle(whole)]
fn is_type_whole(reading: &Reading) -> bool
    ensures { result ≡ inside.is_type_whole reading.now }
{
    match reading {
        Reading::Of(_, _, arguments) => are_types_whole(arguments.as_slice()),
        Reading::Widened(value) => is_value_whole(value.get()),
        Reading::Parts(parts) => are_types_whole(parts.as_slice()),
        Reading::Hole => false,
    }
}

/// The same of types.
#[cycle(whole)]
fn are_types_whole(readings: &[Reading]) -> bool
    ensures { result ≡ list_all (λ b. b) (map inside.is_type_whole readings.now) }
{
    for reading in readings {
        if !is_type_whole(reading) {
            return false;
        }
    }
    true
}

/// Whether the numbers of a value whose types inside are spelled out say all of every item in it.
#[cycle(told)]
pub(crate) fn is_value_told(value: &Indices) -> bool
    ensures { result ≡ inside.is_value_told value.now }
{
    match value {
        Indices::Never => false,
        Indices::List(item) => is_type_told(item.get()),
        Indices::Vector(_, item) => is_type_told(item.get()),
        Indices::Tuple(parts) => are_values_told(parts.as_slice()),
        Indices::Named(_, _, arguments) => are_types_told(arguments.as_slice()),
        _ => true,
    }
}

/// The same of values.
#[cycle(told)]
fn are_values_told(values: &[Indices]) -> bool
    ensures { result ≡ list_all (λ b. b) (map inside.is_value_told values.now) }
{
    for value in values {
        if !is_value_told(value) {
            return false;
        }
    }
    true
}

/// The same of a type.
#[cycle(told)]
fn is_type_told(reading: &Reading) -> bool
    ensures { result ≡ inside.is_type_told reading.now }
{
    match reading {
        Reading::Of(_, _, _) => false,
        Reading::Widened(value) => is_value_told(value.get()),
        Reading::Parts(parts) => are_types_told(parts.as_slice()),
        Reading::Hole => true,
    }
}

/// The same of types.
#[cycle(told)]
fn are_types_told(readings: &[Reading]) -> bool
    ensures { result ≡ list_all (λ b. b) (map inside.is_type_told readings.now) }
{
    for reading in readings {
        if !is_type_told(reading) {
            return false;
        }
    }
    true
}

/// Whether a number or a truth names only variables before that one.
fn is_argument_below(before: u32, argument: &Index) -> bool
    ensures { result ≡ inside.is_argument_below before argument.now }
{
    match argument {
        Index::Number(number) => is_below(before, number),
        Index::Truth(con) => is_con_below(before, con),
    }
}

/// The same of arguments.
fn are_arguments_below(before: u32, arguments: &[Index]) -> bool
    ensures { result ≡ list_all (inside.is_argument_below before) arguments.now }
{
    for argument in arguments {
        if !is_argument_below(before, argument) {
            return false;
        }
    }
    true
}

/// Whether the widened type of a value names only variables before that one; it has any integer, and any truth.
#[cycle(below)]
pub(crate) fn is_value_below(before: u32, value: &Indices) -> bool
    ensures { result ≡ inside.is_value_below before value.now }
{
    match value {
        Indices::Bits(width) => is_below(before, width),
        Indices::List(item) => is_type_below(before, item.get()),
        Indices::Vector(length, item) => is_below(before, length)
            && is_type_below(before, item.get()),
        Indices::Tuple(parts) => are_values_below(before, parts.as_slice()),
        Indices::Named(_, arguments, types) => {
            are_arguments_below(before, arguments.as_slice())
                && are_types_below(before, types.as_slice())
        }
        _ => true,
    }
}

/// The same of values.
#[cycle(below)]
fn are_values_below(before: u32, values: &[Indices]) -> bool
    ensures { result ≡ list_all (λ b. b) (map (inside.is_value_below before) values.now) }
{
    for value in values {
        if !is_value_below(before, value) {
            return false;
        }
    }
    true
}

/// The same of a type.
#[cycle(below)]
pub fn is_type_below(before: u32, reading: &Reading) -> bool
    ensures { result ≡ inside.is_type_below before reading.now }
{
    match reading {
        Reading::Of(_, arguments, types) => {
            are_arguments_below(before, arguments.as_slice())
                && are_types_below(before, types.as_slice())
        }
        Reading::Widened(value) => is_value_below(before, value.get()),
        Reading::Parts(parts) => are_types_below(before, parts.as_slice()),
        Reading::Hole => true,
    }
}

/// The same of types.
#[cycle(below)]
fn are_types_below(before: u32, readings: &[Reading]) -> bool
    ensures { result ≡ list_all (λ b. b) (map (inside.is_type_below before) readings.now) }
{
    for reading in readings {
        if !is_type_below(before, reading) {
            return false;
        }
    }
    true
}
