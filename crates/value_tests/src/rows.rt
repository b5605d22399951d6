//! Rows against values from outside: Python computed each with its own integers.
mod integer_tables;
mod mixed_tables;
mod text_tables;
mod word_tables;

use crate::written::{Written, values};
use builtins::row_value;
use integer_tables::{COMPARED_INTEGERS, DECIMALS, ONE_INTEGER, TWO_INTEGERS};
use mixed_tables::{BIT_TEXTS, INTEGER_AND_WORD, MADE_BITS, ONE_WORD, TURNED, WORD_AND_INTEGER};
use sail_types::{Row, Value};
use std::alloc::{AllocError, Global};
use std::process::Abort;
use std::test::Fail;
use text_tables::{COMPARED, JOINED, REPEATED, TRUTHS};
use word_tables::{COMPARED_WORDS, TWO_WORDS};

/// A builtin, its arguments, and what it gives; none where it gives nothing.
pub type Line = (Row, &'static [Written], Option<Written>);

/// What a builtin gives for these arguments.
fn given(alloc: Global, row: Row, args: &[Written]) -> Result<Option<Value>, AllocError> {
    let args = values(alloc, args)?;
    row_value(alloc, row, args.as_slice())
}

/// Whether a result is this value, or none.
fn is_given(given: &Option<Value>, wanted: &Option<Written>) -> bool {
    match (given, wanted) {
        (Some(Value::Integer(z)), Some(Written::Int(w))) => *z == *w,
        (Some(Value::Bits(b)), Some(Written::Bits(width, bits))) => {
            b.width() == *width && b.bits() == *bits
        }
        (Some(Value::String(text)), Some(Written::Text(w))) => text.is(w),
        (Some(Value::Truth(b)), Some(Written::Truth(truth))) => *b == *truth,
        (None, None) => true,
        _ => false,
    }
}

fn check(rt: &impl Abort, alloc: Global, table: &[Line]) -> Result<(), AllocError> {
    for (row, args, wanted) in table {
        let given = given(alloc, *row, args)?;
        assert!(rt; is_given(&given, wanted), "{row:?}");
    }
    Ok(())
}

#[test]
fn rows_of_integers(rt: HostRuntime) -> Result<(), Fail> {
    let alloc = rt.alloc();
    check(&rt, alloc, TWO_INTEGERS)?;
    check(&rt, alloc, COMPARED_INTEGERS)?;
    check(&rt, alloc, ONE_INTEGER)?;
    Ok(())
}

#[test]
fn rows_of_words(rt: HostRuntime) -> Result<(), Fail> {
    let alloc = rt.alloc();
    check(&rt, alloc, TWO_WORDS)?;
    check(&rt, alloc, COMPARED_WORDS)?;
    check(&rt, alloc, ONE_WORD)?;
    check(&rt, alloc, TURNED)?;
    Ok(())
}

#[test]
fn rows_of_words_and_integers(rt: HostRuntime) -> Result<(), Fail> {
    let alloc = rt.alloc();
    check(&rt, alloc, WORD_AND_INTEGER)?;
    check(&rt, alloc, INTEGER_AND_WORD)?;
    check(&rt, alloc, MADE_BITS)?;
    Ok(())
}

#[test]
fn rows_of_texts_and_truths(rt: HostRuntime) -> Result<(), Fail> {
    let alloc = rt.alloc();
    check(&rt, alloc, DECIMALS)?;
    check(&rt, alloc, BIT_TEXTS)?;
    check(&rt, alloc, JOINED)?;
    check(&rt, alloc, TRUTHS)?;
    Ok(())
}

/// The length of a vector of so many units; none where there is no such vector.
fn repeated(alloc: Global, count: i128) -> Result<Option<Value>, AllocError> {
    let made = row_value(
        alloc,
        Row::VectorInit,
        &[Value::Integer(count), Value::Unit],
    )?;
    match made {
        Some(made) => row_value(alloc, Row::Length, &[made]),
        None => Ok(None),
    }
}

#[test]
fn vectors_of_an_item(rt: HostRuntime) -> Result<(), Fail> {
    let alloc = rt.alloc();
    for (count, wanted) in REPEATED {
        let length = repeated(alloc, *count)?;
        assert!(rt; is_given(&length, wanted), "{count}");
    }
    Ok(())
}

/// Whether two values are the same, and are not other ones, as wanted; none where they can't be compared.
fn is_compared(alloc: Global, args: &[Written], wanted: Option<bool>) -> Result<bool, AllocError> {
    let same = given(alloc, Row::Eq, args)?;
    let other = given(alloc, Row::Neq, args)?;
    Ok(match (&same, &other, wanted) {
        (Some(Value::Truth(same)), Some(Value::Truth(other)), Some(wanted)) => {
            *same == wanted && *other != wanted
        }
        (None, None, None) => true,
        _ => false,
    })
}

#[test]
fn values_are_compared(rt: HostRuntime) -> Result<(), Fail> {
    let alloc = rt.alloc();
    for (args, wanted) in COMPARED {
        assert!(rt; is_compared(alloc, args, *wanted)?);
    }
    Ok(())
}
