//! The numbers of the options, as words spell them.
ghost use Rattle.std.specs.Prelude.{◌≡◌, ◌≤◌, IfSome};
ghost use Rattle.std.specs.List.{list_all};
ghost use Rattle.std.specs.Char.{is_ascii_digit};
ghost use Rattle.clap.specs.Words.{rows_of, found_of};
ghost use Rattle.sail_words.specs.Numbers as words;
ghost use Rattle.sail_words.specs.Line as spec;

use crate::values::value_of;
use clap::ArgMatches;

/// The numbers of the options of `run`.
#[derive(Clone, Copy)]
pub struct Numbers {
    pub steps: u32,
    pub harts: u8,
    pub ram_base: u64,
    pub ram_size: u64,
}

/// Whether each byte is a decimal digit.
fn are_digits(word: &[u8]) -> bool
    ensures { result ≡ list_all is_ascii_digit word.now }
{
    word.iter().all(|byte| byte.is_ascii_digit())
}

/// Whether a word is one or more decimal digits.
fn is_numeral(word: &str) -> bool
    ensures { result ≡ words.is_numeral word.now }
{
    !word.is_empty() && are_digits(word.as_bytes())
}

/// The number that a word spells, leading zeros allowed, where it lies from `least` to `most`.
fn number_in(least: u64, most: u64, word: &str) -> Option<u64>
    ensures value { result ≡ words.number_in least most word.now }
    ensures within { IfSome result (λ number. (least ≤ number) × (number ≤ most)) }
{
    if !is_numeral(word) {
        return None;
    }
    let number = word.parse::<u64>().ok()?;
    if least <= number && number <= most {
        Some(number)
    } else {
        None
    }
}

/// The number of an option, or the default where it isn't given.
fn number_of(
    values: &ArgMatches<'_>,
    name: &str,
    default: u64,
    least: u64,
    most: u64,
) -> Option<u64>
    requires low { least ≤ default }
    requires high { default ≤ most }
    ensures value { result ≡ spec.number_of name.now default least most (rows_of (found_of values.now)) }
    ensures within { IfSome result (λ number. (least ≤ number) × (number ≤ most)) }
{
    match value_of(values, name) {
        Some(word) => number_in(least, most, word),
        None => Some(default),
    }
}

/// The number of an argument, where it is given.
pub fn given_number(values: &ArgMatches<'_>, name: &str, least: u64, most: u64) -> Option<u64>
    ensures value { result ≡ spec.given_number name.now least most (rows_of (found_of values.now)) }
    ensures within { IfSome result (λ number. (least ≤ number) × (number ≤ most)) }
{
    match value_of(values, name) {
        Some(word) => number_in(least, most, word),
        None => None,
    }
}

/// The numbers of the options of `run`, each its default where it isn't given.
pub fn numbers_of(values: &ArgMatches<'_>) -> Option<Numbers>
    ensures value { result ≡ spec.numbers_of (rows_of (found_of values.now)) }
    ensures harts { IfSome result (λ numbers. numbers.harts ≤ 8) }
    ensures size { IfSome result (λ numbers. 1 ≤ numbers.ram_size) }
{
    let steps = number_of(values, "steps", 1000, 0, 4294967295)?;
    let harts = number_of(values, "harts", 1, 1, 8)?;
    let ram_base = number_of(values, "ram-base", 2147483648, 0, 18446744073709551615)?;
    let ram_size = number_of(values, "ram-size", 1048576, 1, 67108864)?;
    Some(Numbers {
        steps: steps as u32,
        harts: harts as u8,
        ram_base,
        ram_size,
    })
}
