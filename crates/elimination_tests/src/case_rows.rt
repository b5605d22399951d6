use crate::answers::numbers_of;
use crate::sums::{LARGEST, LEAST, PAST_LEAST};
use farkas::{FarkasError, Verdict, check_cases, eliminate_cases};
use linear::{Number, Row};
use sail_base::Items;
use std::alloc::{AllocError, Global};
use std::test::Fail;

/// A number, which is within the limit.
fn number(value: i128) -> Number {
    match Number::new(value) {
        Some(found) => found,
        None => Number::zero(),
    }
}

/// The row of two coefficients and a bound.
fn row(alloc: Global, numbers: &[i128; 3]) -> Result<Row, AllocError> {
    let mut coefficients = Items::new(alloc);
    coefficients.push(number(numbers[0]))?;
    coefficients.push(number(numbers[1]))?;
    Ok(Row {
        coefficients,
        bound: number(numbers[2]),
    })
}

/// The cases of these rows.
fn cases_of(alloc: Global, cases: &[&[[i128; 3]]]) -> Result<Items<Items<Row>>, AllocError> {
    let mut all = Items::new(alloc);
    for rows in cases {
        let mut case = Items::new(alloc);
        for numbers in *rows {
            case.push(row(alloc, numbers)?)?;
        }
        all.push(case)?;
    }
    Ok(all)
}

/// 2 less than the least integer.
const TWO_PAST_LEAST: i128 = -(1 << 126) - 2;

/// Cases of rows in two variables, each with its bound; the numbers of the answer.
const CASES: [(&[&[[i128; 3]]], &[i128]); 8] = [
    // 0 <= i <= 8, and not 0 <= i < 8
    (
        &[
            &[[-1, 0, 0], [1, 0, 8], [1, 0, -1]],
            &[[-1, 0, 0], [1, 0, 8], [-1, 0, -8]],
        ],
        &[0, 1, 8, 0],
    ),
    // the same with i < 8
    (
        &[
            &[[-1, 0, 0], [1, 0, 8], [1, 0, 7], [1, 0, -1]],
            &[[-1, 0, 0], [1, 0, 8], [1, 0, 7], [-1, 0, -8]],
        ],
        &[1, 0, -1, 2, 1, 1, 1, 1, -8, 7, 2, 1, 1, 1, 1],
    ),
    // the largest integer and 1 more
    (
        &[
            &[[-1, 0, LARGEST], [1, 0, LARGEST], [1, 0, TWO_PAST_LEAST]],
            &[[-1, 0, LARGEST], [1, 0, LARGEST], [-1, 0, LEAST]],
        ],
        &[0, 1, LARGEST, 0],
    ),
    // 2 n == 2 m + 1, with n and m from 0 to 128
    (
        &[&[
            [2, -2, 1],
            [-2, 2, -1],
            [-1, 0, 0],
            [1, 0, 128],
            [0, -1, 0],
            [0, 1, 128],
            [0, 0, 0],
        ]],
        &[0, 2, 1, 0],
    ),
    // any integer, and below 0
    (
        &[&[[-1, 0, LARGEST], [1, 0, LARGEST], [1, 0, -1]]],
        &[0, 1, LEAST, 0],
    ),
    // the sum of any two integers, and below the least
    (
        &[&[
            [-1, 0, LARGEST],
            [1, 0, LARGEST],
            [0, -1, LARGEST],
            [0, 1, LARGEST],
            [1, 1, PAST_LEAST],
        ]],
        &[-1],
    ),
    // no variable, and false
    (&[&[[0, 0, 4], [0, 0, -5]]], &[1, -1]),
    // no case
    (&[], &[1]),
];

#[test]
fn cases_have_the_answers_of_the_definition_by_hand(rt: HostRuntime) -> Result<(), Fail> {
    let alloc = rt.alloc();
    for (cases, numbers) in CASES {
        let cases = cases_of(alloc, cases)?;
        let answer = eliminate_cases(alloc, cases.as_slice(), 2);
        assert!(rt; numbers_of(alloc, &answer)?.as_slice() == numbers);
        if let Ok(Verdict::Closed(certificate)) = &answer {
            assert!(rt; check_cases(alloc, cases.as_slice(), certificate)?);
        }
    }
    Ok(())
}

#[test]
fn one_row_more_than_the_limit_is_too_many(rt: HostRuntime) -> Result<(), Fail> {
    let alloc = rt.alloc();
    for (count, limit) in [(4096, false), (4097, true)] {
        let mut case = Items::new(alloc);
        for place in 0..count {
            case.push(row(alloc, &[1, place, 1])?)?;
        }
        let mut cases = Items::new(alloc);
        cases.push(case)?;
        let answer = eliminate_cases(alloc, cases.as_slice(), 2);
        let is_past = answer.err() == Some(FarkasError::RowLimit { variable: 0 });
        assert!(rt; is_past == limit);
    }
    Ok(())
}
