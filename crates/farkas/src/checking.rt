//! Certificates checked row by row.
ghost use Rattle.std.specs.Prelude.{◌≡◌, ◌↔◌, IfOk, IsTrue, Some, true};
ghost use Rattle.std.specs.Option.{option_copied};
ghost use Rattle.linear.specs.Rows.{is_multiple};
ghost use Rattle.linear.specs.Numbers.{is_zero};
ghost use Rattle.farkas.specs.Keeping.{starts};
ghost use Rattle.farkas.specs.Validity.{row_at, made_by, made_of, replayed, is_closing, ends_closing, closes, starting_rows, IsValidCase};

use crate::certificate::{Case, Step};
use crate::keeping::{Starts, starts_of_case};
use linear::{
    Number, Row, combination, copy_row, is_constant, is_multiple, quotient_row, same_rows,
};
use sail_base::Items;
use std::alloc::{AllocError, Global};

/// The row of a number from 1.
fn row_at(rows: &[Row], number: usize) -> Option<&Row>
    ensures { option_copied result ≡ row_at rows.now number }
{
    if number == 0 {
        None
    } else {
        rows.get(number - 1)
    }
}

/// The row that a step makes of the rows so far, or `None` where it isn't exact.
fn made_by(alloc: Global, rows: &[Row], step: &Step) -> Result<Option<Row>, AllocError>
    ensures { IfOk result (λ o. o ≡ made_by rows.now step.now) }
{
    match row_at(rows, step.first) {
        None => Ok(None),
        Some(first) => match row_at(rows, step.second) {
            None => Ok(None),
            Some(second) => made_of(alloc, step, first, second),
        },
    }
}

/// The row that a step makes of two rows, or `None` where it isn't exact.
fn made_of(alloc: Global, step: &Step, first: &Row, second: &Row) -> Result<Option<Row>, AllocError>
    ensures { IfOk result (λ o. o ≡ made_of step.now (Some first.now) (Some second.now)) }
{
    if !Number::zero().is_below(step.first_times) {
        return Ok(None);
    }
    if !Number::zero().is_below(step.second_times) {
        return Ok(None);
    }
    if !Number::zero().is_below(step.divisor) {
        return Ok(None);
    }
    match combination(alloc, step.first_times, first, step.second_times, second)? {
        None => Ok(None),
        Some(sum) => {
            if is_multiple(step.divisor, &sum) {
                Ok(Some(quotient_row(alloc, step.divisor, &sum)?))
            } else {
                Ok(None)
            }
        }
    }
}

/// The rows and those that the steps make, in order, or `None` where a step isn't exact.
fn replayed(
    alloc: Global,
    first: Items<Row>,
    steps: &[Step],
) -> Result<Option<Items<Row>>, AllocError>
    ensures { IfOk result (λ o. o ≡ replayed first steps.now) }
{
    let mut rows = first;
    for step in steps {
        match made_by(alloc, rows.as_slice(), step)? {
            None => return Ok(None),
            Some(row) => rows.push(row)?,
        }
    }
    Ok(Some(rows))
}

/// Whether the last row has only zeros and a negative bound.
fn ends_closing(rows: &[Row]) -> bool
    ensures { result ≡ ends_closing rows.now }
{
    if rows.is_empty() {
        return false;
    }
    is_closing(&rows[rows.len() - 1])
}

/// Whether a row has only zeros and a negative bound.
fn is_closing(row: &Row) -> bool
    ensures { result ≡ is_closing row.now }
{
    if is_constant(row) {
        row.bound.is_below(Number::zero())
    } else {
        false
    }
}

/// Whether a certificate of one case is valid.
pub fn is_valid_case(alloc: Global, rows: &[Row], certificate: &Case) -> Result<bool, AllocError>
    ensures { IfOk result (λ t. IsTrue t ↔ IsValidCase rows.now certificate.now) }
{
    match starts_of_case(alloc, rows)? {
        Starts::Kept(kept) => is_refuted(alloc, kept, certificate),
        Starts::Contradiction(kept) => is_refuted(alloc, kept, certificate),
        Starts::TooMany => Ok(false),
    }
}

/// Whether a certificate starts with these rows and its steps end in a row that can't be true.
fn is_refuted(alloc: Global, kept: Items<Row>, certificate: &Case) -> Result<bool, AllocError>
    ensures { IfOk result (λ t. IsTrue t ↔ ((kept ≡ certificate.now.starts) × (closes (replayed kept certificate.now.steps) ≡ true))) }
{
    if !same_rows(kept.as_slice(), certificate.starts.as_slice()) {
        return Ok(false);
    }
    match replayed(alloc, kept, certificate.steps.as_slice())? {
        None => Ok(false),
        Some(rows) => Ok(ends_closing(rows.as_slice())),
    }
}
