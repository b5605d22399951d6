//! The alternatives of choices, counted and listed.
ghost use Rattle.std.specs.Prelude.{◌≡◌, length, map};
ghost use Rattle.std.specs.List.{list_any};
ghost use Rattle.linear.specs.Choices.{joined};
ghost use Rattle.linear.specs.Cases.{is_false, product, alternatives, capped};

use crate::choice::Choice;
use crate::numbers::Number;
use crate::row::{Row, is_constant};

/// Whether a row without variables isn't true.
fn is_false(row: &Row) -> bool
    ensures { result ≡ is_false row.now }
{
    if is_constant(row) {
        row.bound.is_below(Number::zero())
    } else {
        false
    }
}

/// Whether one of the rows is such.
fn has_false(rows: &[Row]) -> bool
    ensures { result ≡ list_any is_false rows.now }
{
    for row in rows {
        if is_false(row) {
            return true;
        }
    }
    false
}

/// How many alternatives a choice has, cut off at 2^64 - 1; where `cut`, those with a row that is never true are left out.
#[cycle(counting)]
pub fn count(cut: bool, choice: &Choice) -> u64
    ensures { result ≡ capped (length (alternatives cut choice.now)) }
{
    match choice {
        Choice::Rows(rows) => if cut {
            if has_false(rows.as_slice()) { 0 } else { 1 }
        } else {
            1
        },
        Choice::All(parts) => count_all(cut, parts.as_slice()),
        Choice::Any(parts) => count_any(cut, parts.as_slice()),
    }
}

/// How many alternatives several choices have together.
#[cycle(counting)]
pub fn count_all(cut: bool, parts: &[Choice]) -> u64
    ensures { result ≡ capped (length (product (map (alternatives cut) parts.now))) }
{
    let mut found = 1u64;
    for part in parts {
        found = found.saturating_mul(count(cut, part));
    }
    found
}

/// How many alternatives one of several choices has.
#[cycle(counting)]
fn count_any(cut: bool, parts: &[Choice]) -> u64
    ensures { result ≡ capped (length (joined (map (alternatives cut) parts.now))) }
{
    let mut found = 0u64;
    for part in parts {
        found = found.saturating_add(count(cut, part));
    }
    found
}
