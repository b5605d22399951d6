//! Cases, eliminated one by one.
ghost use Rattle.std.specs.Prelude.{◌≡◌, ◌≤◌, [], IfOk, length};
ghost use Rattle.farkas.specs.Keeping.{IsFew};
ghost use Rattle.farkas.specs.Ends.{case_end, end_from, ended, pointed};
ghost use Rattle.farkas.specs.Elimination.{solved, numbered};

use crate::certificate::Case;
use crate::elimination::{Held, Solved, solve};
use crate::keeping::{Starts, copy_rows, starts_of_case};
use crate::points::{Point, point_from};
use crate::pruning::stood_on_by_last;
use linear::Row;
use sail_base::Items;
use std::alloc::{AllocError, Global};

/// How a case ends.
#[derive(Debug, Drop)]
pub enum End {
    /// It can't be.
    Closed(Case),
    /// It may be: all of its rows are true at a point.
    Open(Point),
    /// More than 4,096 rows are kept at a variable.
    RowsPast(usize),
    /// A product or sum is past the limit of numbers.
    NumbersPast,
}

/// How a case of so many variables ends.
pub fn case_ends(alloc: Global, rows: &[Row], variables: usize) -> Result<End, AllocError>
    ensures { IfOk result (λ e. e ≡ case_end variables rows.now) }
{
    match starts_of_case(alloc, rows)? {
        Starts::Contradiction(starts) => Ok(End::Closed(Case {
            starts,
            steps: Items::new(alloc),
        })),
        Starts::TooMany => Ok(End::RowsPast(0)),
        Starts::Kept(starts) => kept_ends(alloc, starts, variables),
    }
}

/// How a case ends of which these rows are kept.
pub fn starts_end(alloc: Global, starts: &Starts, variables: usize) -> Result<End, AllocError>
    requires { IsFew starts.now }
    ensures { IfOk result (λ e. e ≡ end_from variables starts.now) }
{
    match starts {
        Starts::Contradiction(kept) => Ok(End::Closed(Case {
            starts: copy_rows(alloc, kept.as_slice())?,
            steps: Items::new(alloc),
        })),
        Starts::TooMany => Ok(End::RowsPast(0)),
        Starts::Kept(kept) => kept_ends(alloc, copy_rows(alloc, kept.as_slice())?, variables),
    }
}

/// How a case with these starting rows ends.
fn kept_ends(alloc: Global, starts: Items<Row>, variables: usize) -> Result<End, AllocError>
    requires few { length starts ≤ 4096 }
    ensures { IfOk result (λ e. e ≡ ended starts (solved (length starts) variables 0 (numbered 1 starts) [] [])) }
{
    match solve(alloc, starts.as_slice(), variables)? {
        Solved::Closed(steps) => {
            let steps = stood_on_by_last(alloc, starts.len(), steps.as_slice())?;
            Ok(End::Closed(Case { starts, steps }))
        }
        Solved::Open(stages) => pointed(alloc, stages.as_slice()),
        Solved::RowsPast(variable) => Ok(End::RowsPast(variable)),
        Solved::NumbersPast => Ok(End::NumbersPast),
    }
}

/// An open case's point.
fn pointed(alloc: Global, stages: &[Items<Held>]) -> Result<End, AllocError>
    ensures { IfOk result (λ e. e ≡ pointed stages.now) }
{
    match point_from(alloc, stages)? {
        Some(point) => Ok(End::Open(point)),
        None => Ok(End::NumbersPast),
    }
}
