//! Bits of words.
ghost use Rattle.std.specs.Prelude.{◌≡◌, ◌≤◌, ◌-◌, length, drop, Some, None, if◌then◌else◌, slice_get, slice_set};
ghost use Rattle.sail_base.specs.Bits.{slice_bits};
ghost use Rattle.jib.specs.Operations as O;

use sail_base::Word;

/// The bit at an index, where there is one.
#[tactic(auto, using(crate::proofs::PartLaws::bits))]
pub fn bit_at(word: Word, index: u128) -> Option<bool>
    ensures { result ≡ slice_get word index }
{
    if index < word.width() as u128 {
        Some(word.bit(index as u8))
    } else {
        None
    }
}

/// The bits from an index on, which is at most the width.
#[tactic(auto, using(crate::proofs::PartLaws::highs))]
fn from(word: Word, index: u8) -> Word
    requires { index ≤ length word }
    ensures bits { result ≡ drop index word }
    ensures count { length result ≡ length word - index }
{
    let width = word.width();
    if index < width {
        word.slice(width - 1, index)
    } else {
        Word::zeros(0)
    }
}

/// A word with another bit at an index; the same where it is outside.
#[tactic(auto, using(crate::proofs::PartLaws::sets))]
pub fn with_bit(word: Word, index: u128, bit: bool) -> Word
    ensures { result ≡ slice_set word index bit }
{
    if index < word.width() as u128 {
        let index = index as u8;
        let low = word.truncate(index);
        from(word, index + 1).append(Word::of_bool(bit)).append(low)
    } else {
        word
    }
}

/// Whether the bits from the one index down to the other are all there.
fn is_slice(word: Word, high: u128, low: u128) -> bool
    ensures { result ≡ O.is_slice word high low }
{
    low <= high && high < word.width() as u128
}

/// The bits from the one index down to the other, where they are all there.
pub fn slice_of(word: Word, high: u128, low: u128) -> Option<Word>
    ensures { result ≡ (if O.is_slice word high low then Some (slice_bits word high low) else None) }
{
    if is_slice(word, high, low) {
        Some(word.slice(high as u8, low as u8))
    } else {
        None
    }
}

/// A word with others in these places, where they are as many and all there.
pub fn replaced(word: Word, high: u128, low: u128, new: Word) -> Word
    ensures { result ≡ O.replaced word high low new }
{
    if is_slice(word, high, low) && new.width() as u128 == high - low + 1 {
        let above = from(word, high as u8 + 1);
        above.append(new).append(word.truncate(low as u8))
    } else {
        word
    }
}
