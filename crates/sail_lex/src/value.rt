ghost use Rattle.std.specs.Prelude.{◌≡◌, ◌+◌, ◌<◌, ◌≤◌, ◌^◌, ◌*◌, length, IfOk, IfSome, IfNone, map, drop, true, false};
ghost use Rattle.std.specs.Prelude.{slice_index, ◌==◌, ◌||◌, ◌∷◌};
ghost use Rattle.std.specs.Char.{digit_value, is_ascii_hexdigit};
ghost use Rattle.std.specs.Option.{SomeIff};
ghost use Rattle.sail_base.specs.Bits.{bits_of};
ghost use Rattle.sail_lex.specs.Literal.{decimal_value, literal_bits, literal_width, string_value, radix_of, base_of, digit_size};
ghost use Rattle.sail_lex.specs.Literal.{is_digit_of, digits_width, digits_bits, byte_of, inside, parts, Escape};

use crate::bytes::{first, rest_of};
use crate::literal::{Radix, digit_size, is_digit_of};
use sail_base::Word;
use std::alloc::{AllocError, Global};

/// The largest decimal, the 126th power of two.
const LARGEST_DECIMAL: u128 = 1 << 126;

/// What a decimal stands for, where that is at most the 126th power of two: the number in its
/// digits, and `_` has no weight. It is `Some` of the text of each token of the kind `Decimal`.
pub fn decimal_value(text: &[u8]) -> Option<u128>
    ensures { SomeIff result (decimal_value text.now ≤ 2 ^ 126) (decimal_value text.now) }
{
    let mut value = 0;
    for byte in text {
        if byte.is_ascii_digit() {
            let digit = u128::from(*byte - b'0');
            if value > (LARGEST_DECIMAL - digit) / 10 {
                return None;
            }
            value = value * 10 + digit;
        }
    }
    Some(value)
}

/// The bits of a literal that begins with `0x` or `0b`, where they are at most 128: four for each
/// hexadecimal digit, or one for each binary digit, and `_` has none. It is `Some` of the text of
/// each token of the kinds `Hexadecimal` and `Binary`.
pub fn literal_word(text: &[u8]) -> Option<Word>
    requires { 2 ≤ length text.now }
    ensures some { IfSome result (λ word. word ≡ bits_of (literal_width text.now) (literal_bits text.now)) }
    ensures fits { IfSome result (λ word. literal_width text.now ≤ 128) }
    ensures none { IfNone result (128 < literal_width text.now) }
{
    digits_word(radix_of(text), rest_of(text, 2))
}

/// The base of a literal, by the second byte of its prefix.
fn radix_of(text: &[u8]) -> Radix
    requires { 1 ≤ length text.now }
    ensures { result ≡ radix_of text.now }
{
    if first(rest_of(text, 1)) == b'x' {
        Radix::Base16
    } else {
        Radix::Base2
    }
}

/// The bits of the digits of a base in a text, where they are at most 128.
fn digits_word(radix: Radix, text: &[u8]) -> Option<Word>
    ensures some { IfSome result (λ word. word ≡ bits_of (digits_width radix text.now) (digits_bits radix text.now)) }
    ensures fits { IfSome result (λ word. digits_width radix text.now ≤ 128) }
    ensures none { IfNone result (128 < digits_width radix text.now) }
{
    let mut width = 0;
    let mut value = 0;
    for byte in text {
        if is_digit_of(radix, *byte) {
            if width + digit_size(radix) > 128 {
                return None;
            }
            value = with_digit(radix, width, value, *byte);
            width += digit_size(radix);
        }
    }
    Some(Word::new(width, value))
}

/// The number of so many bits with a digit more.
fn with_digit(radix: Radix, width: u8, value: u128, byte: u8) -> u128
    requires digit { is_digit_of radix byte ≡ true }
    requires below { value < 2 ^ width }
    requires room { width + digit_size radix ≤ 128 }
    ensures value { result ≡ value * base_of radix + digit_value byte }
    ensures below { result < 2 ^ (width + digit_size radix) }
{
    match radix {
        Radix::Base2 => value * 2 + digit(byte),
        Radix::Base16 => value * 16 + digit(byte),
    }
}

/// What a hexadecimal digit stands for.
fn digit(byte: u8) -> u128
    requires { is_ascii_hexdigit byte ≡ true }
    ensures value { result ≡ digit_value byte }
    ensures small { result < 16 }
{
    match byte {
        b'0'..=b'9' => u128::from(byte - b'0'),
        b'A'..=b'F' => u128::from(byte - b'A' + 10),
        _ => u128::from(byte - b'a' + 10),
    }
}

/// The bytes that a string stands for, its escapes read: `\n` and `\t` are a line feed and a tab,
/// and `\\` and `\"` the second byte. The text begins with the string's `"`.
pub fn string_value(alloc: Global, text: &[u8]) -> Result<Vec<u8>, AllocError>
    requires { 1 ≤ length text.now }
    ensures { IfOk result (λ bytes. bytes.items ≡ string_value text.now) }
{
    unescaped(alloc, rest_of(text, 1))
}

/// The bytes that a string stands for, from the text after its first quote.
fn unescaped(alloc: Global, text: &[u8]) -> Result<Vec<u8>, AllocError>
    ensures { IfOk result (λ bytes. bytes.items ≡ map byte_of (inside (parts text.now))) }
{
    let mut bytes = Vec::new(alloc);
    let mut at = 0;
    while at < text.len() && !ends_string(text[at]) {
        let (byte, size) = part_at(text, at);
        bytes.push(byte)?;
        at += size;
    }
    Ok(bytes)
}

/// What the part of a string from a byte on stands for, and how many bytes it has.
#[tactic(auto, using(crate::proofs::Parts::value_escape, crate::proofs::Parts::value_lone, crate::proofs::Parts::value_byte))]
fn part_at(text: &[u8], at: usize) -> (u8, usize)
    requires within { at < length text.now }
    requires inside { (slice_index text.now at == 34 || slice_index text.now at == 10) ≡ false }
    ensures part { map byte_of (inside (parts (drop at text.now))) ≡ result.0 ∷ map byte_of (inside (parts (drop (at + result.1) text.now))) }
    ensures some { 0 < result.1 }
    ensures within { at + result.1 ≤ length text.now }
{
    let byte = text[at];
    if byte != b'\\' {
        return (byte, 1);
    }
    if at + 1 == text.len() {
        return (b'\\', 1);
    }
    (escaped(text[at + 1]), 2)
}

/// Whether the byte ends a string, where it is no part of an escape.
fn ends_string(byte: u8) -> bool
    ensures { result ≡ (byte == 34 || byte == 10) }
{
    byte == b'"' || byte == b'\n'
}

/// The byte that a `\` and this byte stand for.
fn escaped(byte: u8) -> u8
    ensures { result ≡ byte_of (Escape byte) }
{
    match byte {
        b'n' => b'\n',
        b't' => b'\t',
        _ => byte,
    }
}
