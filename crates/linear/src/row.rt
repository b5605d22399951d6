//! Rows of coefficients and a bound.
ghost use Rattle.std.specs.Prelude.{◌≡◌, ◌<◌, ◌*ℤ◌, ◌+ℤ◌, pos, ◌↔◌, IfOk, SomeIff, IsTrue, slice_index_or};
ghost use Rattle.std.specs.List.{list_all};
ghost use Rattle.linear.specs.Numbers.{is_within, is_zero, are_within, scaled, divided, gcd_of};
ghost use Rattle.linear.specs.Rows.{coefficient, added, combination, can_combine, divisor_of, quotient_row, reduced, is_constant, is_multiple, are_same};

use crate::numbers::Number;
use sail_base::Items;
use std::alloc::{AllocError, Global};

/// A row: the sum of the coefficients, each times its variable, is at most the bound. The variables of a problem are numbered
/// from 0; a coefficient that is missing at the end is 0.
#[derive(Debug)]
pub struct Row {
    pub coefficients: Items<Number>,
    pub bound: Number,
}

impl Drop for Row {
    fn drop(self) {
        let Row {
            coefficients: _,
            bound: _,
        } = self;
    }
}

/// The coefficient of a variable.
pub fn coefficient(row: &Row, variable: usize) -> Number
    ensures { result ≡ coefficient row.now variable }
{
    number_at(row.coefficients.as_slice(), variable)
}

/// The number at a place, or 0 past the end.
fn number_at(numbers: &[Number], place: usize) -> Number
    ensures { result ≡ slice_index_or numbers.now place (pos 0) }
{
    if place < numbers.len() {
        numbers[place]
    } else {
        Number::zero()
    }
}

/// Whether all coefficients are 0.
pub fn is_constant(row: &Row) -> bool
    ensures { result ≡ is_constant row.now }
{
    for number in row.coefficients.as_slice() {
        if !number.is_zero() {
            return false;
        }
    }
    true
}

/// Each number times `times`, where each product is within the limit.
fn scaled(
    alloc: Global,
    times: Number,
    numbers: &[Number],
) -> Result<Option<Items<Number>>, AllocError>
    ensures { IfOk result (λ o. SomeIff o (IsTrue (are_within (scaled times numbers.now))) (scaled times numbers.now)) }
{
    let mut products = Items::new(alloc);
    for number in numbers {
        match times.times(*number) {
            Some(found) => products.push(found)?,
            None => return Ok(None),
        }
    }
    Ok(Some(products))
}

/// The sums of two lists of numbers, number by number, where each is within the limit; a number that is missing at the end is 0.
pub fn added(
    alloc: Global,
    first: &[Number],
    second: &[Number],
) -> Result<Option<Items<Number>>, AllocError>
    ensures { IfOk result (λ o. SomeIff o (IsTrue (are_within (added first.now second.now))) (added first.now second.now)) }
{
    let mut sums = Items::new(alloc);
    let count = first.len().max(second.len());
    for place in 0..count {
        match number_at(first, place).plus(number_at(second, place)) {
            Some(found) => sums.push(found)?,
            None => return Ok(None),
        }
    }
    Ok(Some(sums))
}

/// `first_times` times the first row plus `second_times` times the second, or `None` exactly where a product or sum in it is past
/// 2^127 - 1 in size.
pub fn combination(
    alloc: Global,
    first_times: Number,
    first: &Row,
    second_times: Number,
    second: &Row,
) -> Result<Option<Row>, AllocError>
    ensures { IfOk result (λ o. SomeIff o
        (IsTrue (can_combine first_times first.now second_times second.now)) (combination first_times first.now second_times second.now)) }
{
    let Some(first_part) = scaled(alloc, first_times, first.coefficients.as_slice())? else {
        return Ok(None);
    };
    let Some(second_part) = scaled(alloc, second_times, second.coefficients.as_slice())? else {
        return Ok(None);
    };
    let Some(coefficients) = added(alloc, first_part.as_slice(), second_part.as_slice())? else {
        return Ok(None);
    };
    match combined_bound(first_times, first.bound, second_times, second.bound) {
        Some(bound) => Ok(Some(Row {
            coefficients,
            bound,
        })),
        None => Ok(None),
    }
}

/// `m` times `a` plus `n` times `b`, where the products and the sum are within the limit.
fn combined_bound(m: Number, a: Number, n: Number, b: Number) -> Option<Number>
    ensures { SomeIff result (IsTrue (is_within (m *ℤ a)) × IsTrue (is_within (n *ℤ b)) × IsTrue (is_within ((m *ℤ a) +ℤ (n *ℤ b)))) ((m *ℤ a) +ℤ (n *ℤ b)) }
{
    match m.times(a) {
        None => None,
        Some(left) => match n.times(b) {
            None => None,
            Some(right) => left.plus(right),
        },
    }
}

/// The greatest number that divides all numbers of a row; it is 0 where all are 0.
pub fn divisor_of(row: &Row) -> Number
    ensures { result ≡ divisor_of row.now }
{
    let mut found = Number::zero().divisor_with(row.bound);
    for number in row.coefficients.as_slice() {
        found = found.divisor_with(*number);
    }
    found
}

/// A row whose numbers are each divided, rounded toward 0.
pub fn quotient_row(alloc: Global, by: Number, row: &Row) -> Result<Row, AllocError>
    requires { IsTrue (is_zero by) → ⊥ }
    ensures { IfOk result (λ r. r ≡ quotient_row by row.now) }
{
    let mut coefficients = Items::new(alloc);
    for number in row.coefficients.as_slice() {
        coefficients.push(number.over(by))?;
    }
    Ok(Row {
        coefficients,
        bound: row.bound.over(by),
    })
}

/// A row divided by the greatest number that divides all of its numbers; one of zeros alone is copied.
pub fn reduced(alloc: Global, row: &Row) -> Result<Row, AllocError>
    ensures { IfOk result (λ r. r ≡ reduced row.now) }
{
    let by = divisor_of(row);
    if by.is_zero() {
        copy_row(alloc, row)
    } else {
        quotient_row(alloc, by, row)
    }
}

/// The same row once more.
pub fn copy_row(alloc: Global, row: &Row) -> Result<Row, AllocError>
    ensures { IfOk result (λ r. r ≡ row.now) }
{
    let coefficients = Items::from_slice(alloc, row.coefficients.as_slice())?;
    Ok(Row {
        coefficients,
        bound: row.bound,
    })
}

/// Whether two rows have the same coefficients.
pub fn have_same_coefficients(first: &Row, second: &Row) -> bool
    ensures { result ≡ are_same first.now.coefficients second.now.coefficients }
{
    let count = first.coefficients.len().max(second.coefficients.len());
    for place in 0..count {
        if !coefficient(first, place).is(coefficient(second, place)) {
            return false;
        }
    }
    true
}

/// Whether each number of a row is a multiple of a number above 0.
pub fn is_multiple(of: Number, row: &Row) -> bool
    requires { IsTrue (is_zero of) → ⊥ }
    ensures { result ≡ is_multiple of row.now }
{
    if !row.bound.is_multiple_of(of) {
        return false;
    }
    for number in row.coefficients.as_slice() {
        if !number.is_multiple_of(of) {
            return false;
        }
    }
    true
}

/// Whether two lists of rows are the same.
pub fn same_rows(first: &[Row], second: &[Row]) -> bool
    ensures { IsTrue result ↔ (first.now ≡ second.now) }
{
    if first.len() != second.len() {
        return false;
    }
    for place in 0..first.len() {
        if !same_row(&first[place], &second[place]) {
            return false;
        }
    }
    true
}

/// Whether two rows are the same.
fn same_row(first: &Row, second: &Row) -> bool
    ensures { IsTrue result ↔ (first.now ≡ second.now) }
{
    if first.bound.is(second.bound) {
        same_numbers(
            first.coefficients.as_slice(),
            second.coefficients.as_slice(),
        )
    } else {
        false
    }
}

/// Whether two lists of numbers are the same.
fn same_numbers(first: &[Number], second: &[Number]) -> bool
    ensures { IsTrue result ↔ (first.now ≡ second.now) }
{
    if first.len() != second.len() {
        return false;
    }
    for place in 0..first.len() {
        if !first[place].is(second[place]) {
            return false;
        }
    }
    true
}
