//! Sums, differences and products of words.
ghost use Rattle.std.specs.Prelude.{◌≡◌, ◌≤◌, length};
ghost use Rattle.sail_base.specs.Bits.{add_bits, sub_bits, mul_bits, mul_wide_unsigned, mul_wide_signed, mul_wide_mixed};

use super::{Word, low_bits};

impl Word {
    /// The low bits of the sum of two words of one width.
    pub fn add(self, other: Word) -> Word
        requires { length self ≡ length other }
        ensures { result ≡ add_bits self other }
    {
        Word {
            width: self.width,
            bits: low_bits(self.width, self.bits.wrapping_add(other.bits)),
        }
    }

    /// The low bits of the difference of two words of one width.
    pub fn sub(self, other: Word) -> Word
        requires { length self ≡ length other }
        ensures { result ≡ sub_bits self other }
    {
        Word {
            width: self.width,
            bits: low_bits(self.width, self.bits.wrapping_sub(other.bits)),
        }
    }

    /// The low bits of the product of two words of one width.
    pub fn mul(self, other: Word) -> Word
        requires { length self ≡ length other }
        ensures { result ≡ mul_bits self other }
    {
        Word {
            width: self.width,
            bits: low_bits(self.width, self.bits.wrapping_mul(other.bits)),
        }
    }

    /// The product of two unsigned words of one width, at most 64, twice as wide.
    pub fn mul_wide_uu(self, other: Word) -> Word
        requires same { length self ≡ length other }
        requires small { length self ≤ 64 }
        ensures { result ≡ mul_wide_unsigned self other }
    {
        Word {
            width: 2 * self.width,
            bits: self.bits * other.bits,
        }
    }

    /// The product of two signed words of one width, at most 64, twice as wide.
    pub fn mul_wide_ss(self, other: Word) -> Word
        requires same { length self ≡ length other }
        requires small { length self ≤ 64 }
        ensures { result ≡ mul_wide_signed self other }
    {
        Word::of_int(2 * self.width(), self.signed() * other.signed())
    }

    /// The product of a signed word and an unsigned one of one width, at most 64, twice as wide.
    pub fn mul_wide_su(self, other: Word) -> Word
        requires same { length self ≡ length other }
        requires small { length self ≤ 64 }
        ensures { result ≡ mul_wide_mixed self other }
    {
        Word::of_int(2 * self.width(), self.signed() * other.unsigned())
    }
}
