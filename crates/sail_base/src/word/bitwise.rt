//! Operations bit by bit, and shifts, which keep the width.
ghost use Rattle.std.specs.Prelude.{◌≡◌, ◌*◌, ◌/◌, ◌%◌, ◌^◌, length};
ghost use Rattle.sail_base.specs.Bits.{and_bits, or_bits, xor_bits, not_bits, shl_bits, shr_bits, sar_bits};

use super::{Word, low_bits};

impl Word {
    /// The bits that are set in both words, of one width.
    pub fn and(self, other: Word) -> Word
        requires { length self ≡ length other }
        ensures { result ≡ and_bits self other }
    {
        Word {
            width: self.width,
            bits: self.bits & other.bits,
        }
    }

    /// The bits that are set in one word or in both, of one width.
    pub fn or(self, other: Word) -> Word
        requires { length self ≡ length other }
        ensures { result ≡ or_bits self other }
    {
        Word {
            width: self.width,
            bits: self.bits | other.bits,
        }
    }

    /// The bits in which two words of one width differ.
    pub fn xor(self, other: Word) -> Word
        requires { length self ≡ length other }
        ensures { result ≡ xor_bits self other }
    {
        Word {
            width: self.width,
            bits: self.bits ^ other.bits,
        }
    }

    /// Each bit turned.
    pub fn not(self) -> Word
        ensures { result ≡ not_bits self }
    {
        Word {
            width: self.width,
            bits: low_bits(self.width, !self.bits),
        }
    }

    /// The bits moved up by any amount: zeros come in below, and what passes the width is let go.
    pub fn shl(self, by: u128) -> Word
        ensures { result ≡ shl_bits self by }
    {
        Word {
            width: self.width,
            bits: low_bits(self.width, moved_up(self.bits, by)),
        }
    }

    /// The bits moved down by any amount: zeros come in at the top.
    pub fn shr(self, by: u128) -> Word
        ensures { result ≡ shr_bits self by }
    {
        Word {
            width: self.width,
            bits: moved_down(self.bits, by),
        }
    }

    /// The bits moved down by any amount: the top bit comes in at the top, and in a word of no bits nothing.
    pub fn sar(self, by: u128) -> Word
        ensures { result ≡ sar_bits self by }
    {
        if self.top() {
            self.not().shr(by).not()
        } else {
            self.shr(by)
        }
    }
}

/// A number times 2 to any amount, the low 128 bits kept.
fn moved_up(number: u128, by: u128) -> u128
    ensures { result ≡ number * 2 ^ by % 2 ^ 128 }
{
    if by < 128 { number << by } else { 0 }
}

/// A number over 2 to any amount, rounded down.
fn moved_down(number: u128, by: u128) -> u128
    ensures { result ≡ number / 2 ^ by }
{
    if by < 128 { number >> by } else { 0 }
}
