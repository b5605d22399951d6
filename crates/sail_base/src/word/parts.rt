//! Words made of other words, and parts of words.
ghost use Rattle.std.specs.Prelude.{◌≡◌, ◌+◌, ◌*◌, ◌^◌, ◌<◌, ◌≤◌, length, take, false, slice_index_or};
ghost use Rattle.sail_base.specs.Bits.{append_bits, slice_bits, zext_bits, sext_bits, copies, top_bit};

use super::{Word, low_bits};

impl Word {
    /// This word high and another low, together at most 128 bits.
    pub fn append(self, low: Word) -> Word
        requires { length self + length low ≤ 128 }
        ensures { result ≡ append_bits self low }
    {
        Word {
            width: self.width + low.width,
            bits: join(self.bits, low.width, low.bits),
        }
    }

    /// The bits from `lo` to `hi`, both in.
    pub fn slice(self, hi: u8, lo: u8) -> Word
        requires order { lo ≤ hi }
        requires within { hi < length self }
        ensures { result ≡ slice_bits self hi lo }
    {
        let width = hi - lo + 1;
        Word {
            width,
            bits: low_bits(width, self.bits >> lo),
        }
    }

    /// The low bits, as many as `width`, which is no more than the word has.
    pub fn truncate(self, width: u8) -> Word
        requires { width ≤ length self }
        ensures { result ≡ take width self }
    {
        Word {
            width,
            bits: low_bits(width, self.bits),
        }
    }

    /// The word with zeros above it, up to a width from its own to 128.
    pub fn zext(self, width: u8) -> Word
        requires wider { length self ≤ width }
        requires small { width ≤ 128 }
        ensures { result ≡ zext_bits self width }
    {
        Word {
            width,
            bits: self.bits,
        }
    }

    /// The word with its top bit again and again above it, up to a width from its own to 128; above a word
    /// of no bits stand zeros.
    pub fn sext(self, width: u8) -> Word
        requires wider { length self ≤ width }
        requires small { width ≤ 128 }
        ensures { result ≡ sext_bits self width }
    {
        if self.top() {
            self.not().zext(width).not()
        } else {
            self.zext(width)
        }
    }

    /// The word as many times as `count`, together at most 128 bits.
    pub fn replicate(self, count: u128) -> Word
        requires { count * length self ≤ 128 }
        ensures { result ≡ copies count self }
    {
        if self.width == 0 {
            return self;
        }
        let mut out = Word::zeros(0);
        for _ in 0..count {
            out = out.append(self);
        }
        out
    }

    /// One bit of the word, the lowest at 0.
    pub fn bit(self, index: u8) -> bool
        requires { index < length self }
        ensures { result ≡ slice_index_or self index false }
    {
        (self.bits >> index) % 2 == 1
    }

    /// The top bit, which is the sign of a word that is read as signed; of a word of no bits it is clear.
    pub fn top(self) -> bool
        ensures { result ≡ top_bit self }
    {
        self.width > 0 && (self.bits >> (self.width - 1)) % 2 == 1
    }
}

/// The number whose bits are those of `high` behind the `width` bits of `low`.
fn join(high: u128, width: u8, low: u128) -> u128
    requires small { width ≤ 128 }
    requires below { low < 2 ^ width }
    requires fits { high * 2 ^ width + low < 2 ^ 128 }
    ensures { result ≡ high * 2 ^ width + low }
{
    if width == 128 {
        low
    } else {
        (high << width) + low
    }
}
