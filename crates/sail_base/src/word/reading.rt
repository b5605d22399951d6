//! Words against integers: unsigned and signed readings, comparisons and counts.
ghost use Rattle.std.specs.Prelude.{◌≡◌, ◌≤◌, length, pos};
ghost use Rattle.sail_base.specs.Bits.{value_of, signed_of, bits_of_int, lt_unsigned, lt_signed, leading_zeros};

use super::Word;

impl Word {
    /// The lowest bits of an integer in two's complement, as many as `width`, from 0 to 128.
    pub fn of_int(width: u8, number: i128) -> Word
        requires { width ≤ 128 }
        ensures { result ≡ bits_of_int width number }
    {
        if number < 0 {
            Word::low(width, (-1 - number) as u128).not()
        } else {
            Word::low(width, number as u128)
        }
    }

    /// The number of the word read as unsigned, of at most 127 bits.
    pub fn unsigned(self) -> i128
        requires { length self ≤ 127 }
        ensures { result ≡ pos (value_of self) }
    {
        self.bits as i128
    }

    /// The number of the word read as signed, in two's complement; of a word of no bits it is 0.
    pub fn signed(self) -> i128
        ensures { result ≡ signed_of self }
    {
        if self.top() {
            let turned = self.not();
            -1 - turned.bits as i128
        } else {
            self.bits as i128
        }
    }

    /// Whether the word's unsigned number is below another's of one width.
    pub fn lt_u(self, other: Word) -> bool
        requires { length self ≡ length other }
        ensures { result ≡ lt_unsigned self other }
    {
        self.bits() < other.bits()
    }

    /// Whether the word's signed number is below another's of one width.
    pub fn lt_s(self, other: Word) -> bool
        requires { length self ≡ length other }
        ensures { result ≡ lt_signed self other }
    {
        self.signed() < other.signed()
    }

    /// How many zeros stand above the highest bit that is set, all of the bits where none is.
    pub fn count_leading_zeros(self) -> u8
        ensures { result ≡ leading_zeros self }
    {
        self.width - (128 - self.bits.leading_zeros() as u8)
    }
}
