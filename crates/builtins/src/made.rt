//! Results within the limits.
ghost use Rattle.std.specs.Prelude.{◌≡◌, pos};
ghost use Rattle.builtins.specs.RowValues.{a_word as a_word_of, an_integer as an_integer_of};

use sail_base::Word;
use sail_types::{Value, is_small};

/// An integer from the least to the largest.
pub fn an_integer(z: i128) -> Option<Value>
    ensures { result ≡ an_integer_of z }
{
    if is_small(z) {
        Some(Value::Integer(z))
    } else {
        None
    }
}

/// A word, which has at most 128 bits.
pub fn a_word(word: Word) -> Option<Value>
    ensures { result ≡ a_word_of word }
{
    if word.width() <= 128 {
        Some(Value::Bits(word))
    } else {
        None
    }
}

/// An integer that is not negative, up to the largest.
#[tactic(auto, unfolding(sail_types::specs::Limits::largest))]
pub fn natural_integer(n: u128) -> Option<Value>
    ensures { result ≡ an_integer_of (pos n) }
{
    if n <= 1 << 126 {
        an_integer(n as i128)
    } else {
        None
    }
}
