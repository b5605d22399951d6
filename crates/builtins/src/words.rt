//! Rows of words of bits.
ghost use Rattle.std.specs.Prelude.{◌≡◌, IfOk, length, nat_eq, nat_le, pos, ◌&&◌};
ghost use Rattle.sail_base.specs.Bits.{append_bits, value_of, signed_of, mul_wide_unsigned, mul_wide_signed};
ghost use Rattle.sail_base.specs.Bits.{mul_wide_mixed};
ghost use Rattle.builtins.specs.RowValues.{an_integer as an_integer_of, a_word as a_word_of, where_};
ghost use Rattle.builtins.specs.RowValues.{on_word as on_word_of, on_alike as on_alike_of, on_words as on_words_of};

use crate::made::{a_word, an_integer};
use crate::texts::bits_text;
use sail_base::Word;
use sail_types::{Row, Value};
use std::alloc::{AllocError, Global};

/// A row of one word.
pub fn on_word(alloc: Global, row: Row, b: Word) -> Result<Option<Value>, AllocError>
    ensures { IfOk result (λ made. made ≡ on_word_of row b) }
{
    match row {
        Row::NotBits => Ok(a_word(b.not())),
        Row::Unsigned => Ok(unsigned(b)),
        Row::Signed => Ok(signed(b)),
        Row::Length => Ok(an_integer(b.width() as i128)),
        Row::CountLeadingZeros => Ok(an_integer(b.count_leading_zeros() as i128)),
        Row::BitsStr => bits_text(alloc, b),
        _ => Ok(None),
    }
}

fn unsigned(b: Word) -> Option<Value>
    ensures { result ≡ where_ (nat_le (length b) 126) (an_integer_of (pos (value_of b))) }
{
    if b.width() <= 126 {
        an_integer(b.unsigned())
    } else {
        None
    }
}

fn signed(b: Word) -> Option<Value>
    ensures { result ≡ where_ (nat_le 1 (length b) && nat_le (length b) 126) (an_integer_of (signed_of b)) }
{
    if 1 <= b.width() && b.width() <= 126 {
        an_integer(b.signed())
    } else {
        None
    }
}

/// A row of two words that are as wide.
fn on_alike(row: Row, b: Word, c: Word) -> Option<Value>
    requires { length b ≡ length c }
    ensures { result ≡ on_alike_of row b c }
{
    match row {
        Row::AddBits => a_word(b.add(c)),
        Row::SubBits => a_word(b.sub(c)),
        Row::MultBits => a_word(b.mul(c)),
        Row::AndBits => a_word(b.and(c)),
        Row::OrBits => a_word(b.or(c)),
        Row::XorBits => a_word(b.xor(c)),
        Row::LtU => Some(Value::Truth(b.lt_u(c))),
        Row::LteqU => Some(Value::Truth(!c.lt_u(b))),
        Row::GtU => Some(Value::Truth(c.lt_u(b))),
        Row::GteqU => Some(Value::Truth(!b.lt_u(c))),
        Row::LtS => Some(Value::Truth(b.lt_s(c))),
        Row::LteqS => Some(Value::Truth(!c.lt_s(b))),
        Row::GtS => Some(Value::Truth(c.lt_s(b))),
        Row::GteqS => Some(Value::Truth(!b.lt_s(c))),
        Row::MulWideUu => wide_unsigned(b, c),
        Row::MulWideSs => wide_signed(b, c),
        Row::MulWideSu => wide_mixed(b, c),
        _ => None,
    }
}

#[tactic(auto, using(crate::proofs::Wide::too_wide, sail_base::specs::laws::WordParts::word_widths))]
fn wide_unsigned(b: Word, c: Word) -> Option<Value>
    requires { length b ≡ length c }
    ensures { result ≡ a_word_of (mul_wide_unsigned b c) }
{
    if b.width() <= 64 {
        a_word(b.mul_wide_uu(c))
    } else {
        None
    }
}

#[tactic(auto, using(crate::proofs::Wide::too_wide, sail_base::specs::laws::WordParts::word_widths))]
fn wide_signed(b: Word, c: Word) -> Option<Value>
    requires { length b ≡ length c }
    ensures { result ≡ a_word_of (mul_wide_signed b c) }
{
    if b.width() <= 64 {
        a_word(b.mul_wide_ss(c))
    } else {
        None
    }
}

#[tactic(auto, using(crate::proofs::Wide::too_wide, sail_base::specs::laws::WordParts::word_widths))]
fn wide_mixed(b: Word, c: Word) -> Option<Value>
    requires { length b ≡ length c }
    ensures { result ≡ a_word_of (mul_wide_mixed b c) }
{
    if b.width() <= 64 {
        a_word(b.mul_wide_su(c))
    } else {
        None
    }
}

/// A row of two words.
pub fn on_words(row: Row, b: Word, c: Word) -> Option<Value>
    ensures { result ≡ on_words_of row b c }
{
    match row {
        Row::Append => appended(b, c),
        Row::ShiftlBits => a_word(b.shl(c.bits())),
        Row::ShiftrBits => a_word(b.shr(c.bits())),
        Row::ArithShiftrBits => a_word(b.sar(c.bits())),
        _ => {
            if b.width() == c.width() {
                on_alike(row, b, c)
            } else {
                None
            }
        }
    }
}

fn appended(high: Word, low: Word) -> Option<Value>
    ensures { result ≡ a_word_of (append_bits high low) }
{
    if high.width() <= 128 - low.width() {
        a_word(high.append(low))
    } else {
        None
    }
}
