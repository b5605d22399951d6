//! Words of bits: a width from 0 to 128 and a number below 2 to the width.
//!
//! A contract sees a word as the list of its bits, the least significant first; `specs/Bits.antt`
//! has the meaning of each operation on such lists.
ghost use Rattle.std.specs.Prelude.{◌≡◌, ℕ, ◌%◌, ◌^◌, ◌<◌, ◌≤◌, Bool, true, false, length, replicate, List, [], ◌∷◌};
ghost use Rattle.std.specs.Cmp.{partial_equiv_from_equiv};
ghost use Rattle.sail_base.specs.Bits.{bits_of, value_of, eq_bits};
ghost use Rattle.sail_base.specs.laws.BitLaws.{eq_bits-equiv};

mod arithmetic;
mod bitwise;
mod parts;
mod reading;

use std::marker::Model;

/// A word of bits, from 0 to 128 of them. Two words are equal where they are as wide and each bit is equal.
#[derive(Clone, Copy, Debug)]
pub struct Word {
    width: u8,
    bits: u128,
}

impl Model for Word {
    ghost use Rattle.std.specs.Prelude.{◌^◌, ◌<◌, ◌≤◌, List, Bool, length};
    ghost use Rattle.sail_base.specs.Bits.{bits_of, value_of};
    ghost use Rattle.sail_base.specs.laws.BitLaws.{length-bits_of, value_of-bits_of_fits};

    ghost Value = { List Bool };

    ghost view = { λ w. bits_of w.width w.bits };

    ghost invariant = { λ w. record { below : w.bits < 2 ^ w.width; small : w.width ≤ 128 } };

    ghost inverse = { λ l. record { width = length l; bits = value_of l } };

    ghost inverse_ok = { λ w h i. record { width = length-bits_of w.width w.bits i; bits = value_of-bits_of_fits w.width w.bits h.below i } };
}

impl PartialEq for Word {
    ghost eq = { eq_bits };

    ghost laws = { partial_equiv_from_equiv eq_bits-equiv };

    fn eq(&self, other: &Word) -> bool {
        self.width == other.width && self.bits == other.bits
    }
}

impl Eq for Word {
    ghost laws = { eq_bits-equiv };
}

impl Word {
    /// The word of this width, from 0 to 128, whose unsigned number is `bits`, which is below 2 to the width.
    pub fn new(width: u8, bits: u128) -> Word
        requires small { width ≤ 128 }
        requires below { bits < 2 ^ width }
        ensures { result ≡ bits_of width bits }
    {
        Word { width, bits }
    }

    /// The lowest bits of a number, as many as `width`, from 0 to 128: what does not fit is let go.
    pub fn low(width: u8, number: u128) -> Word
        requires { width ≤ 128 }
        ensures { result ≡ bits_of width number }
    {
        Word {
            width,
            bits: low_bits(width, number),
        }
    }

    /// A word of zeros, of a width from 0 to 128.
    pub fn zeros(width: u8) -> Word
        requires { width ≤ 128 }
        ensures { result ≡ replicate width false }
    {
        Word { width, bits: 0 }
    }

    /// A word of ones, of a width from 0 to 128.
    pub fn ones(width: u8) -> Word
        requires { width ≤ 128 }
        ensures { result ≡ replicate width true }
    {
        Word::zeros(width).not()
    }

    /// The word of one bit.
    pub fn of_bool(bit: bool) -> Word
        ensures { result ≡ bit ∷ [] }
    {
        if bit { Word::ones(1) } else { Word::zeros(1) }
    }

    /// How many bits the word has, from 0 to 128.
    pub fn width(&self) -> u8
        ensures value { result ≡ length self.now }
        ensures small { result ≤ 128 }
    {
        self.width
    }

    /// The word's unsigned number, below 2 to the width.
    pub fn bits(&self) -> u128
        ensures value { result ≡ value_of self.now }
        ensures below { result < 2 ^ length self.now }
    {
        self.bits
    }
}

/// The low bits of a number, as many as `width`, from 0 to 128.
fn low_bits(width: u8, number: u128) -> u128
    requires { width ≤ 128 }
    ensures { result ≡ number % 2 ^ width }
{
    if width == 128 {
        number
    } else {
        number & ((1u128 << width) - 1)
    }
}
