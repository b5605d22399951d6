//! Orders of harts as words spell them.
ghost use Rattle.std.specs.Prelude.{◌≡◌, ◌≤◌, ◌-◌, IfOk, true, map};
ghost use Rattle.clap.specs.Words.{rows_of, found_of};
ghost use Rattle.sail_words.specs.Line as line;
ghost use Rattle.std.specs.List.{list_all};
ghost use Rattle.sail_words.specs.Numbers as spec;
ghost use Rattle.sail_words.specs.Numbers.{names_hart};

use crate::values::value_of;
use clap::ArgMatches;
use sail_base::Items;
use std::alloc::{AllocError, Global};

const HARTS: [u8; 8] = [0, 1, 2, 3, 4, 5, 6, 7];

/// Whether each byte is a digit that names one of so many harts.
fn names_harts(word: &[u8], harts: u8) -> bool
    requires { harts ≤ 8 }
    ensures { result ≡ list_all (names_hart harts) word.now }
{
    word.iter()
        .all(|byte| b'0' <= *byte && *byte < b'0' + harts)
}

/// The harts that digits name.
fn harts_named(alloc: Global, word: &[u8], harts: u8) -> Result<Items<u8>, AllocError>
    requires { list_all (names_hart harts) word.now ≡ true }
    ensures { IfOk result (λ order. order ≡ map (λ byte. byte - 48) word.now) }
{
    let mut order = Items::new(alloc);
    for byte in word {
        order.push(*byte - b'0')?;
    }
    Ok(order)
}

/// The order that a word spells, of so many harts; none where it is empty or a byte names no hart.
fn order_in(alloc: Global, harts: u8, word: &str) -> Result<Option<Items<u8>>, AllocError>
    requires { harts ≤ 8 }
    ensures { IfOk result (λ order. order ≡ spec.order_in harts word.now) }
{
    let digits = word.as_bytes();
    if digits.is_empty() || !names_harts(digits, harts) {
        return Ok(None);
    }
    let order = harts_named(alloc, digits, harts)?;
    Ok(Some(order))
}

/// Each of so many harts, from 0 on.
fn all_harts(alloc: Global, harts: u8) -> Result<Items<u8>, AllocError>
    requires { harts ≤ 8 }
    ensures { IfOk result (λ order. order ≡ spec.all_harts harts) }
{
    Items::from_slice(alloc, &HARTS[..harts as usize])
}

/// The order of the harts, or from 0 on where none is given.
pub fn order_of(
    alloc: Global,
    harts: u8,
    values: &ArgMatches<'_>,
) -> Result<Option<Items<u8>>, AllocError>
    requires { harts ≤ 8 }
    ensures { IfOk result (λ order. order ≡ line.order_of harts (rows_of (found_of values.now))) }
{
    match value_of(values, "order") {
        Some(word) => order_in(alloc, harts, word),
        None => {
            let order = all_harts(alloc, harts)?;
            Ok(Some(order))
        }
    }
}
