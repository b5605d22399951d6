//! What a row gives for its arguments.
ghost use Rattle.std.specs.Prelude.{◌≡◌, IfOk, IsSome, Some, map, not, replicate, option_map};
ghost use Rattle.sail_types.specs.declared.values.Value.TheVariants as V;
ghost use Rattle.sail_types.specs.declared.values.Value.{out-Value};
ghost use Rattle.builtins.specs.RowValues.{row, by_shape as by_shape_of, of_one as of_one_of, of_two as of_two_of};
ghost use Rattle.builtins.specs.RowValues.{on_texts as on_texts_of, on_vector as on_vector_of, same as same_of};
ghost use Rattle.builtins.specs.RowValues.{same_two as same_two_of, repeated as repeated_of};

use crate::integers::{on_integer, on_integers, on_truth};
use crate::made::an_integer;
use crate::mixed::{on_integer_word, on_word_integer};
use crate::texts::joined;
use crate::words::{on_word, on_words};
use sail_base::{Items, Text};
use sail_types::{Row, Value, copy_value};
use std::alloc::{AllocError, Global};

/// What a builtin without state gives for these arguments; none where its condition fails, an argument has
/// another shape, or what it makes passes a limit: an integer past 2^126, more than 128 bits, more than 4,096
/// items. It fails where memory is wanting.
pub fn row_value(alloc: Global, builtin: Row, args: &[Value]) -> Result<Option<Value>, AllocError>
    ensures { IfOk result (λ made. made ≡ row builtin args.now) }
{
    match builtin {
        Row::Eq => Ok(truth_of(same(args))),
        Row::Neq => Ok(other_truth_of(same(args))),
        Row::VectorInit => repeated(alloc, args),
        _ => by_shape(alloc, builtin, args),
    }
}

/// What a builtin without state gives for these arguments, where it gives something. It fails where memory
/// is wanting.
pub fn apply(alloc: Global, builtin: Row, args: &[Value]) -> Result<Value, AllocError>
    requires { IsSome (row builtin args.now) }
    ensures { IfOk result (λ made. row builtin args.now ≡ Some made) }
{
    let made = row_value(alloc, builtin, args)?;
    Ok(made.unwrap())
}

/// What a row gives, by the shapes of its arguments.
#[tactic(auto, using(crate::proofs::Counts::too_many))]
fn by_shape(alloc: Global, builtin: Row, args: &[Value]) -> Result<Option<Value>, AllocError>
    ensures { IfOk result (λ made. made ≡ by_shape_of builtin (map out-Value args.now)) }
{
    match args {
        [] => Ok(None),
        [a] => of_one(alloc, builtin, a),
        [a, b] => of_two(alloc, builtin, a, b),
        [_, _, _, ..] => Ok(None),
    }
}

/// What a row of one argument gives.
fn of_one(alloc: Global, builtin: Row, a: &Value) -> Result<Option<Value>, AllocError>
    ensures { IfOk result (λ made. made ≡ of_one_of builtin (out-Value a.now)) }
{
    match a {
        Value::Integer(i) => on_integer(alloc, builtin, *i),
        Value::Truth(b) => Ok(on_truth(builtin, *b)),
        Value::Bits(b) => on_word(alloc, builtin, *b),
        Value::Vector(items) => Ok(on_vector(builtin, items)),
        _ => Ok(None),
    }
}

/// What a row of two arguments gives.
fn of_two(alloc: Global, builtin: Row, a: &Value, b: &Value) -> Result<Option<Value>, AllocError>
    ensures { IfOk result (λ made. made ≡ of_two_of builtin (out-Value a.now) (out-Value b.now)) }
{
    match (a, b) {
        (Value::Integer(i), Value::Integer(j)) => Ok(on_integers(builtin, *i, *j)),
        (Value::Integer(i), Value::Bits(c)) => Ok(on_integer_word(builtin, *i, *c)),
        (Value::Bits(c), Value::Bits(d)) => Ok(on_words(builtin, *c, *d)),
        (Value::Bits(c), Value::Integer(i)) => Ok(on_word_integer(builtin, *c, *i)),
        (Value::String(s), Value::String(t)) => on_texts(alloc, builtin, s, t),
        _ => Ok(None),
    }
}

fn on_texts(
    alloc: Global,
    builtin: Row,
    first: &Text,
    second: &Text,
) -> Result<Option<Value>, AllocError>
    ensures { IfOk result (λ made. made ≡ on_texts_of builtin first.now second.now) }
{
    match builtin {
        Row::ConcatStr => joined(alloc, first, second),
        _ => Ok(None),
    }
}

/// The length of a vector.
fn on_vector(builtin: Row, items: &Items<Value>) -> Option<Value>
    ensures { result ≡ on_vector_of builtin items.now }
{
    match builtin {
        Row::Length => an_integer(items.len() as i128),
        _ => None,
    }
}

/// Whether two values that can be compared are the same.
fn same(args: &[Value]) -> Option<bool>
    ensures { result ≡ same_of (map out-Value args.now) }
{
    match args {
        [a, b] => same_two(a, b),
        _ => None,
    }
}

fn same_two(a: &Value, b: &Value) -> Option<bool>
    ensures { result ≡ same_two_of (out-Value a.now) (out-Value b.now) }
{
    match (a, b) {
        (Value::Integer(i), Value::Integer(j)) => Some(*i == *j),
        (Value::Bits(b), Value::Bits(c)) => {
            if b.width() == c.width() {
                Some(*b == *c)
            } else {
                None
            }
        }
        (Value::Bit(b), Value::Bit(c)) => Some(*b == *c),
        (Value::Truth(b), Value::Truth(c)) => Some(*b == *c),
        (Value::String(s), Value::String(t)) => Some(*s == *t),
        (Value::Unit, Value::Unit) => Some(true),
        (Value::Member(place, member), Value::Member(other, other_member)) => {
            if *place == *other {
                Some(*member == *other_member)
            } else {
                None
            }
        }
        _ => None,
    }
}

fn truth_of(truth: Option<bool>) -> Option<Value>
    ensures { result ≡ option_map V.Truth truth }
{
    match truth {
        None => None,
        Some(truth) => Some(Value::Truth(truth)),
    }
}

fn other_truth_of(truth: Option<bool>) -> Option<Value>
    ensures { result ≡ option_map (λ b. V.Truth (not b)) truth }
{
    match truth {
        None => None,
        Some(truth) => Some(Value::Truth(!truth)),
    }
}

/// So many times an item.
fn repeated(alloc: Global, args: &[Value]) -> Result<Option<Value>, AllocError>
    ensures { IfOk result (λ made. made ≡ repeated_of (map out-Value args.now)) }
{
    match args {
        [Value::Integer(count), item] => {
            if 0 <= *count && *count <= 4096 {
                Ok(Some(Value::Vector(copies(alloc, *count as usize, item)?)))
            } else {
                Ok(None)
            }
        }
        _ => Ok(None),
    }
}

fn copies(alloc: Global, count: usize, item: &Value) -> Result<Items<Value>, AllocError>
    ensures { IfOk result (λ made. made ≡ replicate count item.now) }
{
    let mut made = Items::new(alloc);
    for _at in 0..count {
        made.push(copy_value(alloc, item)?)?;
    }
    Ok(made)
}
