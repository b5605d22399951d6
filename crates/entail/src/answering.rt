//! Goals that are asked for.
ghost use Rattle.std.specs.Prelude.{◌≡◌, List, [], ◌++◌, IfOk, OnOk, map, true};
ghost use Rattle.std.specs.List.{fold};
ghost use Rattle.linear.specs.Cases.{alternatives};
ghost use Rattle.farkas.specs.Keeping.{started, AreFew};
ghost use Rattle.farkas.specs.Problems.{discharged};
ghost use Rattle.farkas.specs.Verdicts.{IsAnswer};
ghost use Rattle.sail_types.specs.declared.numbers.Con.{Con};
ghost use Rattle.entail.specs.Standing.{problem_of};
ghost use Rattle.entail.specs.Levels.{level_of, AreAllFew, many_answer, listed_answer, answer_to, each_before};

use crate::alternatives::{Alternatives, MOST_CASES};
use crate::level::{Level, copy_atoms};
use farkas::{Cert, FarkasError, Starts, Verdict, eliminate_starts, starts_with};
use linear::{Choice, Row, choose, count, list, push_variables};
use sail_base::Items;
use sail_types::Con;
use std::alloc::{AllocError, Global};

/// The answer to a goal where this is kept of the facts.
pub fn answer_at(alloc: Global, level: &Level, goal: &Con) -> Result<Verdict, FarkasError>
    requires { AreAllFew level.now.alternatives }
    ensures { (facts : List Con) → level.now ≡ level_of facts → IsAnswer result (discharged (problem_of facts goal.now)) }
{
    let mut atoms = copy_atoms(alloc, level.atoms.as_slice())?;
    push_variables(alloc, &mut atoms, goal)?;
    let choice = choose(alloc, goal, false, atoms.as_slice())?;
    answer_to(alloc, atoms.len(), &level.alternatives, choice)
}

/// The answer where these are the alternatives of the facts and this, if it is there, makes the goal false.
fn answer_to(
    alloc: Global,
    variables: usize,
    first: &Alternatives,
    choice: Option<Choice>,
) -> Result<Verdict, FarkasError>
    requires { AreAllFew first.now }
    ensures { IsAnswer result (answer_to variables first.now choice) }
{
    match choice {
        None => Err(FarkasError::NumberLimit),
        Some(choice) => match first {
            Alternatives::NumberPast => Err(FarkasError::NumberLimit),
            Alternatives::TooMany(total) => {
                many_answer(alloc, total.saturating_mul(count(true, &choice)))
            }
            Alternatives::Listed(firsts) => {
                listed_answer(alloc, variables, firsts.as_slice(), &choice)
            }
        },
    }
}

/// The answer where so many cases, more than 64 or none, are there.
fn many_answer(alloc: Global, total: u64) -> Result<Verdict, FarkasError>
    ensures { result ≡ many_answer total }
{
    if total == 0 {
        return Ok(no_case(alloc));
    }
    Err(FarkasError::CaseLimit { count: total })
}

/// The certificate of no case.
fn no_case(alloc: Global) -> Verdict
    ensures { result ≡ Verdict.Closed (record { cases = [] }) }
{
    Verdict::Closed(Cert {
        cases: Items::new(alloc),
    })
}

/// The answer where these rows are kept of the facts' alternatives.
fn listed_answer(
    alloc: Global,
    variables: usize,
    firsts: &[Starts],
    choice: &Choice,
) -> Result<Verdict, FarkasError>
    requires { AreFew firsts.now }
    ensures { IsAnswer result (listed_answer variables firsts.now (alternatives true choice.now)) }
{
    let total = (firsts.len() as u64).saturating_mul(count(true, choice));
    if total > MOST_CASES {
        return Err(FarkasError::CaseLimit { count: total });
    }
    if total == 0 {
        return Ok(no_case(alloc));
    }
    let lasts = list(alloc, true, choice)?;
    let cases = each_before(alloc, firsts, lasts.as_slice())?;
    eliminate_starts(alloc, cases.as_slice(), variables)
}

/// The rows that are kept of each with some more, which vary slower.
fn each_before(
    alloc: Global,
    firsts: &[Starts],
    lasts: &[Items<Row>],
) -> Result<Items<Starts>, AllocError>
    ensures { IfOk result (λ all. all ≡ each_before firsts.now lasts.now) }
{
    let mut all = Items::new(alloc);
    for last in lasts {
        push_before(alloc, &mut all, firsts, last.as_slice())?;
    }
    Ok(all)
}

/// Puts the rows that are kept of each with these.
fn push_before(
    alloc: Global,
    all: &mut Items<Starts>,
    firsts: &[Starts],
    last: &[Row],
) -> Result<(), AllocError>
    ensures { OnOk result (all.new ≡ all.old ++ map (λ first. fold started first last.now) firsts.now) }
{
    for first in firsts {
        all.push(starts_with(alloc, first, last)?)?;
    }
    Ok(())
}
