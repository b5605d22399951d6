//! Rows of a word and an integer.
ghost use Rattle.std.specs.Prelude.{◌≡◌, length, nat_le, take};
ghost use Rattle.sail_base.specs.Bits.{bits_of_int, add_bits, sub_bits, shl_bits, shr_bits, sar_bits, copies};
ghost use Rattle.sail_base.specs.Bits.{zext_bits, sext_bits};
ghost use Rattle.builtins.specs.RowValues.{a_word as a_word_of, natural, where_};
ghost use Rattle.builtins.specs.RowValues.{on_word_integer as on_word_integer_of};
ghost use Rattle.builtins.specs.RowValues.{on_integer_word as on_integer_word_of};

use crate::made::a_word;
use sail_base::Word;
use sail_types::{Row, Value};

/// A row of a word and an integer behind it.
#[tactic(auto, using(sail_base::specs::laws::WordParts::word_widths))]
pub fn on_word_integer(row: Row, b: Word, i: i128) -> Option<Value>
    ensures { result ≡ on_word_integer_of row b i }
{
    match row {
        Row::AddBitsInt => a_word(b.add(Word::of_int(b.width(), i))),
        Row::SubBitsInt => a_word(b.sub(Word::of_int(b.width(), i))),
        Row::Shiftl => shifted_left(b, i),
        Row::Shiftr => shifted_right(b, i),
        Row::ArithShiftr => shifted_signed(b, i),
        Row::Truncate => truncated(b, i),
        Row::ReplicateBits => replicated(b, i),
        _ => None,
    }
}

fn shifted_left(b: Word, i: i128) -> Option<Value>
    ensures { result ≡ natural i (λ n. a_word_of (shl_bits b n)) }
{
    if 0 <= i {
        a_word(b.shl(i as u128))
    } else {
        None
    }
}

fn shifted_right(b: Word, i: i128) -> Option<Value>
    ensures { result ≡ natural i (λ n. a_word_of (shr_bits b n)) }
{
    if 0 <= i {
        a_word(b.shr(i as u128))
    } else {
        None
    }
}

fn shifted_signed(b: Word, i: i128) -> Option<Value>
    ensures { result ≡ natural i (λ n. a_word_of (sar_bits b n)) }
{
    if 0 <= i {
        a_word(b.sar(i as u128))
    } else {
        None
    }
}

fn truncated(b: Word, i: i128) -> Option<Value>
    ensures { result ≡ natural i (λ n. where_ (nat_le n (length b)) (a_word_of (take n b))) }
{
    if 0 <= i && i <= b.width() as i128 {
        a_word(b.truncate(i as u8))
    } else {
        None
    }
}

#[tactic(auto, using(crate::proofs::Wide::too_wide, sail_base::specs::laws::WordParts::word_widths))]
fn replicated(b: Word, i: i128) -> Option<Value>
    ensures { result ≡ natural i (λ n. a_word_of (copies n b)) }
{
    if i < 0 {
        return None;
    }
    match (i as u128).checked_mul(b.width() as u128) {
        None => None,
        Some(bits) => if bits <= 128 {
            a_word(b.replicate(i as u128))
        } else {
            None
        },
    }
}

/// A row of an integer and a word behind it.
pub fn on_integer_word(row: Row, i: i128, b: Word) -> Option<Value>
    ensures { result ≡ on_integer_word_of row i b }
{
    match row {
        Row::ZeroExtend => zero_extended(i, b),
        Row::SignExtend => sign_extended(i, b),
        _ => None,
    }
}

fn zero_extended(i: i128, b: Word) -> Option<Value>
    ensures { result ≡ natural i (λ n. where_ (nat_le (length b) n) (a_word_of (zext_bits b n))) }
{
    if b.width() as i128 <= i && i <= 128 {
        a_word(b.zext(i as u8))
    } else {
        None
    }
}

fn sign_extended(i: i128, b: Word) -> Option<Value>
    ensures { result ≡ natural i (λ n. where_ (nat_le (length b) n) (a_word_of (sext_bits b n))) }
{
    if b.width() as i128 <= i && i <= 128 {
        a_word(b.sext(i as u8))
    } else {
        None
    }
}
