//! The alternatives of the facts that stand.
ghost use Rattle.std.specs.Prelude.{◌≡◌, ◌∷◌, [], ◌++◌, IfOk, OnOk, map, false};
ghost use Rattle.std.specs.List.{fold};
ghost use Rattle.linear.specs.Cases.{alternatives};
ghost use Rattle.farkas.specs.Keeping.{started};
ghost use Rattle.entail.specs.Levels.{kept_of, with_choice, many_with, listed_with, each_with};

use farkas::{Starts, starts_with};
use linear::{Choice, Row, count, list};
use sail_base::Items;
use std::alloc::{AllocError, Global};

/// At most so many cases are looked at.
pub const MOST_CASES: u64 = 64;

/// The alternatives of facts.
pub enum Alternatives {
    /// The rows that are kept of each, in order; there are at most 64.
    Listed(Items<Starts>),
    /// More than 64: so many, cut off at 2^64 - 1.
    TooMany(u64),
    /// A number of a row is past the limit.
    NumberPast,
}

impl Drop for Alternatives {
    fn drop(self) {
        match self {
            Alternatives::Listed(_) => {}
            Alternatives::TooMany(_) => {}
            Alternatives::NumberPast => {}
        }
    }
}

/// The one alternative of no fact.
pub fn one_alternative(alloc: Global) -> Result<Alternatives, AllocError>
    ensures { IfOk result (λ a. a ≡ kept_of ([] ∷ [])) }
{
    let mut all = Items::new(alloc);
    all.push(Starts::Kept(Items::new(alloc)))?;
    Ok(Alternatives::Listed(all))
}

/// Alternatives with those of one more choice.
pub fn with_choice(
    alloc: Global,
    first: &Alternatives,
    choice: Option<Choice>,
) -> Result<Alternatives, AllocError>
    ensures { IfOk result (λ a. a ≡ with_choice first.now choice) }
{
    match choice {
        None => Ok(Alternatives::NumberPast),
        Some(choice) => match first {
            Alternatives::NumberPast => Ok(Alternatives::NumberPast),
            Alternatives::TooMany(total) => Ok(many_with(alloc, *total, count(false, &choice))),
            Alternatives::Listed(firsts) => listed_with(alloc, firsts.as_slice(), &choice),
        },
    }
}

/// So many alternatives, each with each of so many more.
fn many_with(alloc: Global, total: u64, more: u64) -> Alternatives
    ensures { result ≡ many_with total more }
{
    if more == 0 {
        Alternatives::Listed(Items::new(alloc))
    } else {
        Alternatives::TooMany(total.saturating_mul(more))
    }
}

/// Alternatives of which these rows are kept, each with each of a choice.
fn listed_with(
    alloc: Global,
    firsts: &[Starts],
    choice: &Choice,
) -> Result<Alternatives, AllocError>
    ensures { IfOk result (λ a. a ≡ listed_with firsts.now (alternatives false choice.now)) }
{
    let total = (firsts.len() as u64).saturating_mul(count(false, choice));
    if total > MOST_CASES {
        return Ok(Alternatives::TooMany(total));
    }
    if total == 0 {
        return Ok(Alternatives::Listed(Items::new(alloc)));
    }
    let more = list(alloc, false, choice)?;
    let all = each_with(alloc, firsts, more.as_slice())?;
    Ok(Alternatives::Listed(all))
}

/// The rows that are kept of each with each of some more, which vary faster.
fn each_with(
    alloc: Global,
    firsts: &[Starts],
    more: &[Items<Row>],
) -> Result<Items<Starts>, AllocError>
    ensures { IfOk result (λ all. all ≡ each_with firsts.now more.now) }
{
    let mut all = Items::new(alloc);
    for first in firsts {
        push_with(alloc, &mut all, first, more)?;
    }
    Ok(all)
}

/// Puts the rows that are kept of one with each of some more.
fn push_with(
    alloc: Global,
    all: &mut Items<Starts>,
    first: &Starts,
    more: &[Items<Row>],
) -> Result<(), AllocError>
    ensures { OnOk result (all.new ≡ all.old ++ map (λ rows. fold started first.now rows) more.now) }
{
    for rows in more {
        all.push(starts_with(alloc, first, rows.as_slice())?)?;
    }
    Ok(())
}
