//! Elimination of variables.
ghost use Rattle.std.specs.Prelude.{◌≡◌, ◌≤◌, [], IfOk, pos, int_lt, true, length};
ghost use Rattle.std.specs.List.{fold};
ghost use Rattle.linear.specs.Rows.{coefficient};
ghost use Rattle.farkas.specs.Elimination.{Going, ups, downs, others, paired, met_all, taken, fate_of, numbered, solved};
ghost use Rattle.farkas.specs.Events.{progress};

use crate::certificate::Step;
use crate::keeping::{Fate, MOST_ROWS, fate_of_held};
use linear::{Number, Row, coefficient, combination, copy_row, divisor_of, reduced};
use sail_base::Items;
use std::alloc::{AllocError, Global};

/// A kept row and its number among all rows made, from 1.
#[derive(Debug)]
pub struct Held {
    pub row: Row,
    pub number: usize,
}

impl Drop for Held {
    fn drop(self) {
        let Held { row: _, number: _ } = self;
    }
}

/// How pairs of rows leave an elimination.
#[derive(Clone, Copy, Debug)]
pub enum Meeting {
    /// It goes on.
    Goes,
    /// The last step's row can't be true.
    Closes,
    /// More than 4,096 rows are kept.
    RowsPast,
    /// A product or sum is past the limit of numbers.
    NumbersPast,
}

/// How an elimination ends.
#[derive(Debug, Drop)]
pub enum Solved {
    /// With the steps made, of which the last one's row can't be true.
    Closed(Items<Step>),
    /// With the rows that were kept before each variable.
    Open(Items<Items<Held>>),
    /// At a variable at which more than 4,096 rows are kept.
    RowsPast(usize),
    /// At a product or sum past the limit of numbers.
    NumbersPast,
}

/// Takes a step's row.
fn take(
    alloc: Global,
    count: usize,
    held: &mut Items<Held>,
    steps: &mut Items<Step>,
    step: Step,
    row: Row,
) -> Result<Meeting, AllocError>
    requires few { count ≤ 4096 }
    ensures { IfOk result (λ m. progress m held.new steps.new ≡ taken count held.old steps.old step row (fate_of held.old row)) }
{
    let number = count + steps.as_slice().len() + 1;
    match fate_of_held(held.as_slice(), &row) {
        Fate::Closes => {
            steps.push(step)?;
            Ok(Meeting::Closes)
        }
        Fate::Drops => Ok(Meeting::Goes),
        Fate::Replaces(place) => {
            held.set(place, Held { row, number });
            steps.push(step)?;
            Ok(Meeting::Goes)
        }
        Fate::Joins => {
            if held.len() < MOST_ROWS {
                held.push(Held { row, number })?;
                steps.push(step)?;
                Ok(Meeting::Goes)
            } else {
                Ok(Meeting::RowsPast)
            }
        }
    }
}

/// One pair of rows: the variable has a positive coefficient in the first, a negative one in the second.
fn meet(
    alloc: Global,
    count: usize,
    variable: usize,
    up: &Held,
    down: &Held,
    held: &mut Items<Held>,
    steps: &mut Items<Step>,
) -> Result<Meeting, AllocError>
    requires few { count ≤ 4096 }
    requires positive { int_lt (pos 0) (coefficient up.now.row variable) ≡ true }
    ensures { IfOk result (λ m. progress m held.new steps.new ≡ paired count variable up.now (Going held.old steps.old) down.now) }
{
    let above = coefficient(&up.row, variable);
    let below = coefficient(&down.row, variable);
    let common = above.divisor_with(below);
    let first_times = below.negated().over(common);
    let second_times = above.over(common);
    match combination(alloc, first_times, &up.row, second_times, &down.row)? {
        None => Ok(Meeting::NumbersPast),
        Some(sum) => {
            let step = Step {
                first: up.number,
                first_times,
                second: down.number,
                second_times,
                divisor: divisor_of(&sum),
            };
            let row = reduced(alloc, &sum)?;
            take(alloc, count, held, steps, step, row)
        }
    }
}

/// One row with each in which the variable has a negative coefficient.
fn meet_all(
    alloc: Global,
    count: usize,
    variable: usize,
    up: &Held,
    stage: &[Held],
    held: &mut Items<Held>,
    steps: &mut Items<Step>,
) -> Result<Meeting, AllocError>
    requires few { count ≤ 4096 }
    requires positive { int_lt (pos 0) (coefficient up.now.row variable) ≡ true }
    ensures { IfOk result (λ m. progress m held.new steps.new ≡ fold (paired count variable up.now) (Going held.old steps.old) (downs variable stage.now)) }
{
    for down in stage {
        if coefficient(&down.row, variable).is_below(Number::zero()) {
            match meet(alloc, count, variable, up, down, held, steps)? {
                Meeting::Goes => {}
                Meeting::Closes => return Ok(Meeting::Closes),
                Meeting::RowsPast => return Ok(Meeting::RowsPast),
                Meeting::NumbersPast => return Ok(Meeting::NumbersPast),
            }
        }
    }
    Ok(Meeting::Goes)
}

/// Each row in which the variable has a positive coefficient with each in which it has a negative one.
fn eliminate(
    alloc: Global,
    count: usize,
    variable: usize,
    stage: &[Held],
    held: &mut Items<Held>,
    steps: &mut Items<Step>,
) -> Result<Meeting, AllocError>
    requires few { count ≤ 4096 }
    ensures { IfOk result (λ m. progress m held.new steps.new ≡ met_all count variable stage.now (Going held.old steps.old) (ups variable stage.now)) }
{
    for up in stage {
        if Number::zero().is_below(coefficient(&up.row, variable)) {
            match meet_all(alloc, count, variable, up, stage, held, steps)? {
                Meeting::Goes => {}
                Meeting::Closes => return Ok(Meeting::Closes),
                Meeting::RowsPast => return Ok(Meeting::RowsPast),
                Meeting::NumbersPast => return Ok(Meeting::NumbersPast),
            }
        }
    }
    Ok(Meeting::Goes)
}

/// The rows in which a variable has no coefficient.
fn others(alloc: Global, variable: usize, stage: &[Held]) -> Result<Items<Held>, AllocError>
    ensures { IfOk result (λ r. r ≡ others variable stage.now) }
{
    let mut rows = Items::new(alloc);
    for held in stage {
        if coefficient(&held.row, variable).is_zero() {
            rows.push(Held {
                row: copy_row(alloc, &held.row)?,
                number: held.number,
            })?;
        }
    }
    Ok(rows)
}

/// The starting rows, numbered from 1.
fn numbered(alloc: Global, starts: &[Row]) -> Result<Items<Held>, AllocError>
    ensures { IfOk result (λ r. r ≡ numbered 1 starts.now) }
{
    let mut rows = Items::new(alloc);
    for (place, row) in starts.iter().enumerate() {
        rows.push(Held {
            row: copy_row(alloc, row)?,
            number: place + 1,
        })?;
    }
    Ok(rows)
}

/// Eliminates the variables in order.
pub fn solve(alloc: Global, starts: &[Row], variables: usize) -> Result<Solved, AllocError>
    requires few { length starts.now ≤ 4096 }
    ensures { IfOk result (λ s. s ≡ solved (length starts.now) variables 0 (numbered 1 starts.now) [] []) }
{
    let count = starts.len();
    let mut held = numbered(alloc, starts)?;
    let mut steps = Items::new(alloc);
    let mut stages = Items::new(alloc);
    for variable in 0..variables {
        let mut next = others(alloc, variable, held.as_slice())?;
        match eliminate(
            alloc,
            count,
            variable,
            held.as_slice(),
            &mut next,
            &mut steps,
        )? {
            Meeting::Goes => {
                stages.push(held)?;
                held = next;
            }
            Meeting::Closes => return Ok(Solved::Closed(steps)),
            Meeting::RowsPast => return Ok(Solved::RowsPast(variable)),
            Meeting::NumbersPast => return Ok(Solved::NumbersPast),
        }
    }
    Ok(Solved::Open(stages))
}
