//! Problems with their answers: those of the models that `docs/LANGUAGE.md` speaks of, and those at the limits.
use crate::answers::numbers_of;
use crate::sums::{LARGEST, LEAST, PAST_LEAST, compare, sum};
use Comparison::{Equal, Greater, GreaterEqual, Less, LessEqual, NotEqual};
use Said::{Below, Fails, Holds, Nowhere, Outside, Sum, Truth};
use farkas::{FarkasError, Verdict, check_cert, discharge};
use linear::{LinearError, Problem, cases, list_variables};
use sail_base::{Boxed, Items};
use sail_types::{Comparison, Con};
use std::alloc::{AllocError, Global};
use std::test::Fail;

/// A constraint on the variables x and y, and on the Bool variable p.
#[derive(Clone, Copy)]
enum Said {
    /// The sum of so many x and so many y, compared with a number.
    Sum(Comparison, i128, i128, i128),
    /// p
    Holds,
    /// not p
    Fails,
    /// x is a number below this one, from 0
    Below(i128),
    /// both x < 0 and x > 9
    Nowhere,
    /// x < 0 or x > 9
    Outside,
    /// Whether it is true.
    Truth(bool),
}

/// x < 0 and x > 9.
fn ends(alloc: Global) -> Result<Items<Con>, AllocError> {
    let mut parts = Items::new(alloc);
    parts.push(compare(alloc, Less, 1, 0, 0)?)?;
    parts.push(compare(alloc, Greater, 1, 0, 9)?)?;
    Ok(parts)
}

/// A constraint.
fn con(alloc: Global, said: Said) -> Result<Con, AllocError> {
    match said {
        Said::Sum(how, x, y, z) => compare(alloc, how, x, y, z),
        Said::Holds => Ok(Con::Holds(2)),
        Said::Fails => Ok(Con::Not(Boxed::new(alloc, Con::Holds(2))?)),
        Said::Below(end) => {
            let mut values = Items::new(alloc);
            for value in 0..end {
                values.push(value)?;
            }
            Ok(Con::OneOf(sum(alloc, 1, 0)?, values))
        }
        Said::Nowhere => Ok(Con::All(ends(alloc)?)),
        Said::Outside => Ok(Con::Any(ends(alloc)?)),
        Said::Truth(truth) => Ok(Con::Truth(truth)),
    }
}

/// Constraints, all of them.
fn all_of(alloc: Global, parts: &[Said]) -> Result<Items<Con>, AllocError> {
    let mut cons = Items::new(alloc);
    for said in parts {
        cons.push(con(alloc, *said)?)?;
    }
    Ok(cons)
}

/// How many cases a problem has, or -1 where a number is past the limit, or the count of too many.
fn count_of(alloc: Global, problem: &Problem) -> i128 {
    match cases(alloc, problem) {
        Ok(all) => all.len() as i128,
        Err(LinearError::NumberLimit) => -1,
        Err(LinearError::CaseLimit { count }) => count as i128,
        Err(LinearError::OutOfMemory) => -2,
    }
}

/// The problem of facts and of a goal that all of some constraints make.
fn problem_of(alloc: Global, facts: &[Said], goals: &[Said]) -> Result<Problem, AllocError> {
    let facts = all_of(alloc, facts)?;
    let goal = Con::All(all_of(alloc, goals)?);
    Ok(Problem { facts, goal })
}

/// Whether a certificate is one of a problem; other answers have none.
fn is_certified(
    alloc: Global,
    problem: &Problem,
    answer: &Result<Verdict, FarkasError>,
) -> Result<bool, AllocError> {
    match answer {
        Ok(Verdict::Closed(certificate)) => check_cert(alloc, problem, certificate),
        _ => Ok(true),
    }
}

/// Whether the answer to a problem is this, and its certificate holds.
fn is_answered(alloc: Global, problem: &Problem, numbers: &[i128]) -> Result<bool, AllocError> {
    let answer = discharge(alloc, problem);
    let is_certified = is_certified(alloc, problem, &answer)?;
    let found = numbers_of(alloc, &answer)?;
    Ok(is_certified && found.as_slice() == numbers)
}

/// Whether a problem of such facts and of a goal that all of some constraints make has so many variables and cases, and this answer.
fn has_answer(
    alloc: Global,
    facts: &[Said],
    goals: &[Said],
    variables: usize,
    count: i128,
    numbers: &[i128],
) -> Result<bool, AllocError> {
    let problem = problem_of(alloc, facts, goals)?;
    let found = list_variables(alloc, &problem)?;
    let is_counted = found.len() == variables && count_of(alloc, &problem) == count;
    let is_answered = is_answered(alloc, &problem, numbers)?;
    Ok(is_counted && is_answered)
}

/// The largest integer but one.
const BEFORE_LARGEST: i128 = (1 << 126) - 1;

/// Of integers in ranges: facts, goals, how many variables and cases there are, and the answer.
const RANGES: [(&[Said], &[Said], usize, i128, &[i128]); 4] = [
    // an index from 0 to 8 of eight bits
    (
        &[Sum(GreaterEqual, 1, 0, 0), Sum(LessEqual, 1, 0, 8)],
        &[Sum(GreaterEqual, 1, 0, 0), Sum(Less, 1, 0, 8)],
        1,
        2,
        &[0, 1, 8],
    ),
    // one from 0 to 7: both certificates as they are printed
    (
        &[Sum(GreaterEqual, 1, 0, 0), Sum(LessEqual, 1, 0, 7)],
        &[Sum(GreaterEqual, 1, 0, 0), Sum(Less, 1, 0, 8)],
        1,
        2,
        &[1, 0, -1, 2, 1, 1, 1, 1, -8, 7, 2, 1, 1, 1, 1],
    ),
    // any integer and 1 more
    (
        &[
            Sum(GreaterEqual, 1, 0, LEAST),
            Sum(LessEqual, 1, 0, LARGEST),
        ],
        &[
            Sum(GreaterEqual, 1, 0, PAST_LEAST),
            Sum(LessEqual, 1, 0, BEFORE_LARGEST),
        ],
        1,
        2,
        &[0, 1, LARGEST],
    ),
    // twice a size from 0 to 128 is twice another and 1 more: open over the fractions
    (
        &[
            Sum(Equal, 2, -2, 1),
            Sum(GreaterEqual, 1, 0, 0),
            Sum(LessEqual, 1, 0, 128),
            Sum(GreaterEqual, 0, 1, 0),
            Sum(LessEqual, 0, 1, 128),
        ],
        &[Truth(false)],
        2,
        1,
        &[0, 2, 1, 0],
    ),
];

#[test]
fn integers_in_ranges_have_their_answers(rt: HostRuntime) -> Result<(), Fail> {
    let alloc = rt.alloc();
    for (facts, goals, variables, count, numbers) in RANGES {
        assert!(rt; has_answer(alloc, facts, goals, variables, count, numbers)?);
    }
    Ok(())
}

/// Of registers, and at the limits of integers: facts, goals, how many variables and cases there are, and the answer.
const ENDS: [(&[Said], &[Said], usize, i128, &[i128]); 6] = [
    // a register's integer, and the same behind an assertion
    (
        &[
            Sum(GreaterEqual, 1, 0, LEAST),
            Sum(LessEqual, 1, 0, LARGEST),
        ],
        &[Sum(GreaterEqual, 1, 0, 0), Sum(Less, 1, 0, 32)],
        1,
        2,
        &[0, 1, LEAST],
    ),
    (
        &[
            Sum(GreaterEqual, 1, 0, LEAST),
            Sum(LessEqual, 1, 0, LARGEST),
            Sum(GreaterEqual, 1, 0, 0),
            Sum(Less, 1, 0, 32),
        ],
        &[Sum(GreaterEqual, 1, 0, 0), Sum(Less, 1, 0, 32)],
        1,
        2,
        &[1, 0, -1, 2, 1, 1, 1, 1, -32, 31, 2, 1, 1, 1, 1],
    ),
    // the sum of any two integers
    (
        &[
            Sum(GreaterEqual, 1, 0, LEAST),
            Sum(LessEqual, 1, 0, LARGEST),
            Sum(GreaterEqual, 0, 1, LEAST),
            Sum(LessEqual, 0, 1, LARGEST),
        ],
        &[
            Sum(GreaterEqual, 1, 1, LEAST),
            Sum(LessEqual, 1, 1, LARGEST),
        ],
        2,
        2,
        &[-1],
    ),
    // a row whose bound is 2^127 - 1, and one more
    (
        &[Sum(LessEqual, 1, 0, i128::MAX)],
        &[Sum(LessEqual, 1, 0, 0)],
        1,
        1,
        &[0, 1, 1],
    ),
    (
        &[Sum(LessEqual, 1, 0, i128::MIN)],
        &[Sum(LessEqual, 1, 0, 0)],
        1,
        -1,
        &[-1],
    ),
    (
        &[Sum(GreaterEqual, 1, 0, 0)],
        &[Sum(LessEqual, 1, 0, i128::MAX)],
        1,
        -1,
        &[-1],
    ),
];

#[test]
fn integers_at_the_limits_have_their_answers(rt: HostRuntime) -> Result<(), Fail> {
    let alloc = rt.alloc();
    for (facts, goals, variables, count, numbers) in ENDS {
        assert!(rt; has_answer(alloc, facts, goals, variables, count, numbers)?);
    }
    Ok(())
}

/// Of truths: facts, goals, how many variables and cases there are, and the answer.
const TRUTHS: [(&[Said], &[Said], usize, i128, &[i128]); 4] = [
    // a Bool variable is 1 or more where it is true
    (&[Holds], &[Fails], 1, 1, &[0, 1, 1]),
    (&[Holds], &[Holds], 1, 1, &[1, -1, 0, 2, 1, 1, 1, 1]),
    // a false goal has one alternative, a true one none
    (
        &[Sum(LessEqual, 1, 0, 5)],
        &[Truth(false)],
        1,
        1,
        &[0, 1, 5],
    ),
    (&[Sum(LessEqual, 1, 0, 5)], &[Truth(true)], 1, 0, &[1]),
];

#[test]
fn truths_have_their_answers(rt: HostRuntime) -> Result<(), Fail> {
    let alloc = rt.alloc();
    for (facts, goals, variables, count, numbers) in TRUTHS {
        assert!(rt; has_answer(alloc, facts, goals, variables, count, numbers)?);
    }
    Ok(())
}

/// Of constraints with alternatives: facts, goals, how many variables and cases there are, and the answer.
const ALTERNATIVES: [(&[Said], &[Said], usize, i128, &[i128]); 4] = [
    // facts that are never true together
    (
        &[Nowhere],
        &[Truth(false)],
        1,
        1,
        &[1, -1, -10, 1, 1, 2, 1, 11],
    ),
    // the lesser alternative is looked at first
    (
        &[Outside],
        &[Sum(GreaterEqual, 1, 0, 10)],
        1,
        2,
        &[0, 1, -1],
    ),
    (
        &[Sum(NotEqual, 1, 0, 3)],
        &[Sum(Greater, 1, 0, 3)],
        1,
        2,
        &[0, 1, 2],
    ),
    // a set has an alternative a value, of two rows; 65 of them are too many
    (&[Below(65)], &[Sum(Less, 1, 0, 65)], 1, 65, &[-3, 65]),
];

#[test]
fn alternatives_have_their_answers(rt: HostRuntime) -> Result<(), Fail> {
    let alloc = rt.alloc();
    for (facts, goals, variables, count, numbers) in ALTERNATIVES {
        assert!(rt; has_answer(alloc, facts, goals, variables, count, numbers)?);
    }
    Ok(())
}

/// Whether a number that isn't one of the first so many is below the count of them.
fn unequal(alloc: Global, count: u32) -> Result<Problem, AllocError> {
    let mut facts = Items::new(alloc);
    for value in 0..count {
        let fact = compare(alloc, NotEqual, 1, 0, value as i128)?;
        facts.push(fact)?;
    }
    let goal = compare(alloc, Less, 1, 0, 6)?;
    Ok(Problem { facts, goal })
}

/// 64 rows in which x has the coefficient 1 and 64 in which it has -1, behind a variable that stands alone, and perhaps one
/// without x: 4,096 rows are left as x goes, or 4,097.
fn crossing(alloc: Global, one_more: bool) -> Result<Problem, AllocError> {
    let mut facts = Items::new(alloc);
    facts.push(Con::Holds(2))?;
    for place in 0..64u8 {
        let y = place as i128;
        facts.push(compare(alloc, LessEqual, 1, 64 * y, 1)?)?;
        facts.push(compare(alloc, LessEqual, -1, 1 + y, 0)?)?;
    }
    if one_more {
        facts.push(compare(alloc, LessEqual, 0, 5000, 1)?)?;
    }
    Ok(Problem {
        facts,
        goal: Con::Truth(false),
    })
}

#[test]
fn the_limits_of_cases_and_rows_are_kept_to_one(rt: HostRuntime) -> Result<(), Fail> {
    let alloc = rt.alloc();
    // so many facts of two alternatives each: 64 cases, 128, 2^63, and 2^64, which is cut off
    let counts: [(u32, &[i128]); 4] = [
        (6, &[0, 1, 6]),
        (7, &[-3, 128]),
        (63, &[-3, 9223372036854775808]),
        (64, &[-3, 18446744073709551615]),
    ];
    for (count, numbers) in counts {
        assert!(rt; is_answered(alloc, &unequal(alloc, count)?, numbers)?);
    }
    assert!(rt; is_answered(alloc, &crossing(alloc, false)?, &[0, 4096, 4096, 64, 1])?);
    assert!(rt; is_answered(alloc, &crossing(alloc, true)?, &[-2, 1])?);
    Ok(())
}
