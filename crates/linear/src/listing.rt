//! The cases of problems.
ghost use Rattle.std.specs.Prelude.{◌≡◌, ◌++◌, ◌∷◌, [], IfOk, OnOk, map};
ghost use Rattle.std.specs.List.{flat_map};
ghost use Rattle.linear.specs.Choices.{joined};
ghost use Rattle.linear.specs.Cases.{product, together, alternatives, combined, behind, within_cases, cases_of, IsCases};

use crate::choice::Choice;
use crate::choosing::{choose, choose_each};
use crate::counting::{count, count_all};
use crate::problem::{LinearError, Problem};
use crate::row::{Row, copy_row};
use crate::variables::list_variables;
use sail_base::Items;
use std::alloc::{AllocError, Global};

/// At most so many cases are looked at.
const MOST_CASES: u64 = 64;

/// Puts copies of rows.
fn push_rows(alloc: Global, rows: &mut Items<Row>, more: &[Row]) -> Result<(), AllocError>
    ensures { OnOk result (rows.new ≡ rows.old ++ more.now) }
{
    for row in more {
        rows.push(copy_row(alloc, row)?)?;
    }
    Ok(())
}

/// Rows and, behind them, others.
fn both(alloc: Global, first: &[Row], second: &[Row]) -> Result<Items<Row>, AllocError>
    ensures { IfOk result (λ rows. rows ≡ first.now ++ second.now) }
{
    let mut rows = Items::new(alloc);
    push_rows(alloc, &mut rows, first)?;
    push_rows(alloc, &mut rows, second)?;
    Ok(rows)
}

/// Puts these rows with each of the others behind them.
fn push_each_behind(
    alloc: Global,
    all: &mut Items<Items<Row>>,
    first: &[Row],
    rest: &[Items<Row>],
) -> Result<(), AllocError>
    ensures { OnOk result (all.new ≡ all.old ++ map (λ more. first.now ++ more) rest.now) }
{
    for more in rest {
        all.push(both(alloc, first, more.as_slice())?)?;
    }
    Ok(())
}

/// Each of the first alternatives with each of the others, which vary faster.
fn together(
    alloc: Global,
    first: &[Items<Row>],
    rest: &[Items<Row>],
) -> Result<Items<Items<Row>>, AllocError>
    ensures { IfOk result (λ all. all ≡ together first.now rest.now) }
{
    let mut all = Items::new(alloc);
    for rows in first {
        push_each_behind(alloc, &mut all, rows.as_slice(), rest)?;
    }
    Ok(all)
}

/// The alternatives of a choice, each as a list of rows; where `cut`, those with a row that is never true are left out. There are
/// as many as [`crate::count`] says, which a caller looks at first.
#[cycle(listing)]
pub fn list(alloc: Global, cut: bool, choice: &Choice) -> Result<Items<Items<Row>>, AllocError>
    ensures { IfOk result (λ all. all ≡ alternatives cut choice.now) }
{
    if count(cut, choice) == 0 {
        return Ok(Items::new(alloc));
    }
    match choice {
        Choice::Rows(rows) => one(alloc, rows.as_slice()),
        Choice::All(parts) => list_all(alloc, cut, parts.as_slice()),
        Choice::Any(parts) => list_any(alloc, cut, parts.as_slice()),
    }
}

/// One list of rows.
fn one(alloc: Global, rows: &[Row]) -> Result<Items<Items<Row>>, AllocError>
    ensures { IfOk result (λ all. all ≡ rows.now ∷ []) }
{
    let mut copy = Items::new(alloc);
    push_rows(alloc, &mut copy, rows)?;
    let mut all = Items::new(alloc);
    all.push(copy)?;
    Ok(all)
}

/// One alternative of each choice, the first varying slowest.
#[cycle(listing)]
fn list_all(alloc: Global, cut: bool, parts: &[Choice]) -> Result<Items<Items<Row>>, AllocError>
    ensures { IfOk result (λ all. all ≡ product (map (alternatives cut) parts.now)) }
{
    let mut all = one(alloc, &[])?;
    let mut left = parts.len();
    while left > 0 {
        left -= 1;
        let first = list(alloc, cut, &parts[left])?;
        all = together(alloc, first.as_slice(), all.as_slice())?;
    }
    Ok(all)
}

/// The alternatives of one of several choices.
#[cycle(listing)]
fn list_any(alloc: Global, cut: bool, parts: &[Choice]) -> Result<Items<Items<Row>>, AllocError>
    ensures { IfOk result (λ all. all ≡ joined (map (alternatives cut) parts.now)) }
{
    let mut all = Items::new(alloc);
    for part in parts {
        all.append(list(alloc, cut, part)?)?;
    }
    Ok(all)
}

/// Each of the last rows behind each of the others, which vary faster.
fn put_behind(
    alloc: Global,
    all: &[Items<Row>],
    lasts: &[Items<Row>],
) -> Result<Items<Items<Row>>, AllocError>
    ensures { IfOk result (λ cases. cases ≡ behind all.now lasts.now) }
{
    let mut cases = Items::new(alloc);
    for last in lasts {
        push_each_before(alloc, &mut cases, all, last.as_slice())?;
    }
    Ok(cases)
}

/// Puts each of the others with these rows behind it.
fn push_each_before(
    alloc: Global,
    cases: &mut Items<Items<Row>>,
    all: &[Items<Row>],
    last: &[Row],
) -> Result<(), AllocError>
    ensures { OnOk result (cases.new ≡ cases.old ++ map (λ rows. rows ++ last.now) all.now) }
{
    for rows in all {
        cases.push(both(alloc, rows.as_slice(), last)?)?;
    }
    Ok(())
}

/// The cases of choices for the facts and the negated goal, if there are at most 64.
fn list_cases(
    alloc: Global,
    facts: &[Choice],
    goal: &Choice,
) -> Result<Items<Items<Row>>, LinearError>
    ensures { IsCases result (within_cases (combined facts.now goal.now)) }
{
    let total = count_all(false, facts).saturating_mul(count(true, goal));
    if total > MOST_CASES {
        return Err(LinearError::CaseLimit { count: total });
    }
    if total == 0 {
        return Ok(Items::new(alloc));
    }
    let all = list_all(alloc, false, facts)?;
    let lasts = list(alloc, true, goal)?;
    Ok(put_behind(alloc, all.as_slice(), lasts.as_slice())?)
}

/// The cases of a problem: how its facts can be true and its goal false, each as a list of rows. There are at most 64.
pub fn cases(alloc: Global, problem: &Problem) -> Result<Items<Items<Row>>, LinearError>
    ensures { IsCases result (cases_of problem.now) }
{
    let atoms = list_variables(alloc, problem)?;
    match choose_each(alloc, problem.facts.as_slice(), true, atoms.as_slice())? {
        None => Err(LinearError::NumberLimit),
        Some(facts) => match choose(alloc, &problem.goal, false, atoms.as_slice())? {
            None => Err(LinearError::NumberLimit),
            Some(goal) => list_cases(alloc, facts.as_slice(), &goal),
        },
    }
}
