//! Answers in numbers.
use farkas::{Case, FarkasError, Point, Step, Verdict};
use std::alloc::{AllocError, Global};

/// Puts a point's denominator and numerators.
fn put_point(numbers: &mut Vec<i128>, point: &Point) -> Result<(), AllocError> {
    numbers.push(point.denominator.value())?;
    for value in point.numerators.as_slice() {
        numbers.push(value.value())?;
    }
    Ok(())
}

/// Puts the five numbers of a step.
fn put_step(numbers: &mut Vec<i128>, step: &Step) -> Result<(), AllocError> {
    numbers.push(step.first as i128)?;
    numbers.push(step.first_times.value())?;
    numbers.push(step.second as i128)?;
    numbers.push(step.second_times.value())?;
    numbers.push(step.divisor.value())?;
    Ok(())
}

/// Puts the bounds of the rows that a case starts with, and the numbers of its steps.
fn put_case(numbers: &mut Vec<i128>, case: &Case) -> Result<(), AllocError> {
    for row in case.starts.as_slice() {
        numbers.push(row.bound.value())?;
    }
    for step in case.steps.as_slice() {
        put_step(numbers, step)?;
    }
    Ok(())
}

/// Puts an answer in numbers: 0, a point's denominator and numerators; or 1, the bounds of the rows that each case starts with and the
/// five numbers of each of its steps; or below 0 a limit, with its variable or its count.
pub(crate) fn put_numbers(
    numbers: &mut Vec<i128>,
    answer: &Result<Verdict, FarkasError>,
) -> Result<(), AllocError> {
    match answer {
        Ok(Verdict::Open(point)) => {
            numbers.push(0)?;
            put_point(numbers, point)?;
        }
        Ok(Verdict::Closed(certificate)) => {
            numbers.push(1)?;
            for case in certificate.cases.as_slice() {
                put_case(numbers, case)?;
            }
        }
        Err(FarkasError::NumberLimit) => numbers.push(-1)?,
        Err(FarkasError::RowLimit { variable }) => {
            numbers.push(-2)?;
            numbers.push(*variable as i128)?;
        }
        Err(FarkasError::CaseLimit { count }) => {
            numbers.push(-3)?;
            numbers.push(*count as i128)?;
        }
        Err(FarkasError::OutOfMemory) => numbers.push(-4)?,
    }
    Ok(())
}

/// An answer in numbers.
pub(crate) fn numbers_of(
    alloc: Global,
    answer: &Result<Verdict, FarkasError>,
) -> Result<Vec<i128>, AllocError> {
    let mut numbers = Vec::new(alloc);
    put_numbers(&mut numbers, answer)?;
    Ok(numbers)
}
