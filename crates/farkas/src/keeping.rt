//! Which rows are kept.
ghost use Rattle.std.specs.Prelude.{◌≡◌, IfOk, map};
ghost use Rattle.std.specs.List.{fold};
ghost use Rattle.farkas.specs.Keeping.{against, fate, started, starts};
ghost use Rattle.farkas.specs.declared.keeping.Starts.TheVariants.{Kept};
ghost use Rattle.farkas.specs.Elimination.{fate_of, row_of};
ghost use Rattle.farkas.specs.Events.{starts_of};

use crate::elimination::Held;
use linear::{Number, Row, copy_row, have_same_coefficients, is_constant, reduced};
use sail_base::Items;
use std::alloc::{AllocError, Global};

/// At most so many rows are kept.
pub const MOST_ROWS: usize = 4096;

/// What becomes of a row beside the rows that are kept.
#[derive(Clone, Copy, Debug)]
pub enum Fate {
    /// It can't be true: it has only zeros and a negative bound.
    Closes,
    /// It says nothing more.
    Drops,
    /// It takes the place of a kept row, counted from 0.
    Replaces(usize),
    /// It stands behind them.
    Joins,
}

/// The rows that are kept of a case.
#[derive(Debug, Drop)]
pub enum Starts {
    /// All of them.
    Kept(Items<Row>),
    /// Those up to a row that can't be true, which is the last.
    Contradiction(Items<Row>),
    /// More than 4,096.
    TooMany,
}

/// How one more row leaves the kept ones.
#[derive(Clone, Copy, Debug)]
pub enum Event {
    /// They go on.
    Goes,
    /// The last one can't be true.
    Contradicts,
    /// There are too many.
    TooMany,
}

/// What becomes of a row beside the kept ones.
pub fn fate_of(kept: &[Row], row: &Row) -> Fate
    ensures { result ≡ fate kept.now row.now }
{
    if is_constant(row) {
        if row.bound.is_below(Number::zero()) {
            Fate::Closes
        } else {
            Fate::Drops
        }
    } else {
        against(kept, row)
    }
}

/// What becomes of a row that names a variable.
fn against(kept: &[Row], row: &Row) -> Fate
    ensures { result ≡ against row.now 0 kept.now }
{
    for (place, other) in kept.iter().enumerate() {
        if have_same_coefficients(other, row) {
            return if row.bound.is_below(other.bound) {
                Fate::Replaces(place)
            } else {
                Fate::Drops
            };
        }
    }
    Fate::Joins
}

/// What becomes of a row beside the rows of an elimination.
pub fn fate_of_held(held: &[Held], row: &Row) -> Fate
    ensures { result ≡ fate_of held.now row.now }
{
    if is_constant(row) {
        if row.bound.is_below(Number::zero()) {
            Fate::Closes
        } else {
            Fate::Drops
        }
    } else {
        against_held(held, row)
    }
}

/// What becomes of a row that names a variable beside the rows of an elimination.
fn against_held(held: &[Held], row: &Row) -> Fate
    ensures { result ≡ against row.now 0 (map row_of held.now) }
{
    for (place, other) in held.iter().enumerate() {
        if have_same_coefficients(&other.row, row) {
            return if row.bound.is_below(other.row.bound) {
                Fate::Replaces(place)
            } else {
                Fate::Drops
            };
        }
    }
    Fate::Joins
}

/// Takes one more row.
fn keep(alloc: Global, kept: &mut Items<Row>, row: &Row) -> Result<Event, AllocError>
    ensures { IfOk result (λ event. starts_of event kept.new ≡ started (Kept kept.old) row.now) }
{
    let row = reduced(alloc, row)?;
    match fate_of(kept.as_slice(), &row) {
        Fate::Closes => {
            kept.push(row)?;
            Ok(Event::Contradicts)
        }
        Fate::Drops => Ok(Event::Goes),
        Fate::Replaces(place) => {
            kept.set(place, row);
            Ok(Event::Goes)
        }
        Fate::Joins => {
            if kept.len() < MOST_ROWS {
                kept.push(row)?;
                Ok(Event::Goes)
            } else {
                Ok(Event::TooMany)
            }
        }
    }
}

/// The rows that are kept where some are kept and more come.
pub fn more_starts(alloc: Global, first: Items<Row>, rows: &[Row]) -> Result<Starts, AllocError>
    ensures { IfOk result (λ s. s ≡ fold started (Kept first) rows.now) }
{
    let mut kept = first;
    for row in rows {
        match keep(alloc, &mut kept, row)? {
            Event::Goes => {}
            Event::Contradicts => return Ok(Starts::Contradiction(kept)),
            Event::TooMany => return Ok(Starts::TooMany),
        }
    }
    Ok(Starts::Kept(kept))
}

/// The rows that are kept where more rows come behind those of which some are kept: those behind a row that can't be true change
/// nothing, nor do those behind too many. The one error is want of memory.
pub fn starts_with(alloc: Global, first: &Starts, rows: &[Row]) -> Result<Starts, AllocError>
    ensures { IfOk result (λ s. s ≡ fold started first.now rows.now) }
{
    match first {
        Starts::Kept(kept) => more_starts(alloc, copy_rows(alloc, kept.as_slice())?, rows),
        Starts::Contradiction(kept) => {
            Ok(Starts::Contradiction(copy_rows(alloc, kept.as_slice())?))
        }
        Starts::TooMany => Ok(Starts::TooMany),
    }
}

/// Rows once more.
pub fn copy_rows(alloc: Global, rows: &[Row]) -> Result<Items<Row>, AllocError>
    ensures { IfOk result (λ copies. copies ≡ rows.now) }
{
    let mut copies = Items::new(alloc);
    for row in rows {
        copies.push(copy_row(alloc, row)?)?;
    }
    Ok(copies)
}

/// The rows that are kept of a case.
pub fn starts_of_case(alloc: Global, rows: &[Row]) -> Result<Starts, AllocError>
    ensures { IfOk result (λ s. s ≡ starts rows.now) }
{
    more_starts(alloc, Items::new(alloc), rows)
}
