ghost use Rattle.std.specs.Prelude.{◌≡◌, ◌<◌, ◌≤◌, ◌*◌, length, true, count_by, nat_lt};
ghost use Rattle.std.specs.Char.{is_ascii_digit};
ghost use Rattle.std.specs.List.{starts_with};
ghost use Rattle.sail_lex.specs.Reach.{Reaches};
ghost use Rattle.sail_lex.specs.Bytes.{first, belongs};
ghost use Rattle.sail_lex.specs.Front.{number_front, decimal_front, bits_front, kind_of_bits};
ghost use Rattle.sail_lex.specs.Literal.{is_digit_of, in_digits_of, digit_size, radix_of};

use crate::bytes::{Class, first, is_binary_digit, leading, rest_of, run_length};
use crate::front::{Fault, Front};
use crate::kind::TokenKind;
use crate::value::decimal_value;

/// The base of a literal of bits.
#[derive(Clone, Copy, PartialEq, Eq, Debug)]
pub enum Radix {
    /// Binary, after `0b`.
    Base2,
    /// Hexadecimal, after `0x`.
    Base16,
}

/// The widest literal of bits.
const WIDEST: usize = 128;

/// The number that begins a text.
#[tactic(auto, using(crate::proofs::Prefixes::hexadecimal_prefix, crate::proofs::Prefixes::binary_prefix), unfolding(crate::specs::Front::number_front))]
pub fn number_front(text: &[u8]) -> Front
    requires some { 0 < length text.now }
    requires digit { is_ascii_digit (first text.now) ≡ true }
    ensures front { result ≡ number_front text.now }
    ensures reaches { Reaches result text.now }
{
    if text.starts_with(b"0x") {
        return bits_front(Radix::Base16, text);
    }
    if text.starts_with(b"0b") {
        return bits_front(Radix::Base2, text);
    }
    decimal_front(text)
}

/// The decimal that begins a text.
#[tactic(auto, unfolding(crate::specs::Front::decimal_front, crate::specs::Valued::IsValued))]
fn decimal_front(text: &[u8]) -> Front
    requires some { 0 < length text.now }
    requires digit { is_ascii_digit (first text.now) ≡ true }
    ensures front { result ≡ decimal_front text.now }
    ensures reaches { Reaches result text.now }
{
    let length = run_length(Class::Decimal, text);
    if first(rest_of(text, length)).is_ascii_alphabetic() {
        return Front::Refused(Fault::BadLiteral, 0);
    }
    match decimal_value(leading(text, length)) {
        Some(_) => Front::Token(TokenKind::Decimal, length),
        None => Front::Refused(Fault::NumberTooLarge, 0),
    }
}

/// The literal of bits that begins a text, after its prefix of two bytes.
#[tactic(auto, unfolding(crate::specs::Front::bits_front))]
fn bits_front(radix: Radix, text: &[u8]) -> Front
    requires long { 2 ≤ length text.now }
    requires prefix { radix_of text.now ≡ radix }
    ensures front { result ≡ bits_front radix text.now }
    ensures reaches { Reaches result text.now }
{
    let rest = rest_of(text, 2);
    let length = run_length(digits_class(radix), rest);
    let digits = digit_count(radix, leading(rest, length));
    if digits == 0 || first(rest_of(rest, length)).is_ascii_alphabetic() {
        return Front::Refused(Fault::BadLiteral, 0);
    }
    if is_too_wide(radix, digits) {
        return Front::Refused(Fault::NumberTooLarge, 0);
    }
    Front::Token(bits_kind(radix), length + 2)
}

/// Whether so many digits have more than 128 bits.
fn is_too_wide(radix: Radix, digits: usize) -> bool
    ensures { result ≡ nat_lt 128 (digit_size radix * digits) }
{
    match radix {
        Radix::Base2 => digits > WIDEST,
        Radix::Base16 => digits > WIDEST / 4,
    }
}

/// The digits of the base, and `_`.
fn digits_class(radix: Radix) -> Class
    ensures { belongs result ≡ in_digits_of radix }
{
    match radix {
        Radix::Base2 => Class::Binary,
        Radix::Base16 => Class::Hexadecimal,
    }
}

/// The kind of a literal in the base.
fn bits_kind(radix: Radix) -> TokenKind
    ensures { result ≡ kind_of_bits radix }
{
    match radix {
        Radix::Base2 => TokenKind::Binary,
        Radix::Base16 => TokenKind::Hexadecimal,
    }
}

/// How many bits a digit of the base has.
pub fn digit_size(radix: Radix) -> u8
    ensures size { result ≡ digit_size radix }
    ensures small { result ≤ 4 }
{
    match radix {
        Radix::Base2 => 1,
        Radix::Base16 => 4,
    }
}

/// Whether the byte is a digit of the base.
pub fn is_digit_of(radix: Radix, byte: u8) -> bool
    ensures { result ≡ is_digit_of radix byte }
{
    match radix {
        Radix::Base2 => is_binary_digit(byte),
        Radix::Base16 => byte.is_ascii_hexdigit(),
    }
}

/// How many digits of the base a text has.
fn digit_count(radix: Radix, text: &[u8]) -> usize
    ensures count { result ≡ count_by (is_digit_of radix) text.now }
    ensures within { result ≤ length text.now }
{
    let mut count = 0;
    for byte in text {
        if is_digit_of(radix, *byte) {
            count += 1;
        }
    }
    count
}
