//! The trait of every memory.
ghost use Rattle.std.specs.Prelude.{◌≡◌, ℕ, ◌+◌, ◌-◌, ◌*◌, ◌^◌, ◌<◌, ◌≤◌, ◌↔◌, List, length, All, IsTrue};
ghost use Rattle.mem_store.specs.Bytes.{IsMapped, is_mapped, span, word_of, word_bytes, overwritten};

use sail_base::Word;

/// Bytes from a base address on. The address behind the last one is at most 2^64, so no address wraps.
///
/// A word of 1 to 16 bytes is little endian: the byte at its address has its lowest eight bits.
pub trait Memory {
    /// The address of the first byte.
    ghost base: { Self → ℕ };

    /// The bytes, in the order of their addresses.
    ghost bytes: { Self → List ℕ };

    /// The address of the first byte.
    fn base(&self) -> u64
        ensures { result ≡ base self.now };

    /// How many bytes there are. The end, base plus size, is at most 2^64.
    fn size(&self) -> u64
        ensures count { result ≡ length (bytes self.now) }
        ensures end { base self.now + result ≤ 2 ^ 64 };

    /// Whether all of the `w` bytes from address `a` on are there.
    fn mapped(&self, w: u8, a: u64) -> bool
        ensures value { result ≡ is_mapped (base self.now) (length (bytes self.now)) w a }
        ensures there { IsTrue result ↔ IsMapped (base self.now) (length (bytes self.now)) w a };

    /// The word of `w` bytes, from 1 to 16, at address `a`, which are all there.
    fn read(&self, w: u8, a: u64) -> Word
        requires some { 1 ≤ w }
        requires most { w ≤ 16 }
        requires mapped { IsMapped (base self.now) (length (bytes self.now)) w a }
        ensures word { result ≡ word_of (span (bytes self.now) (a - base self.now) w) }
        ensures fits { All (λ b. b < 256) (span (bytes self.now) (a - base self.now) w) };

    /// Writes a word of `w` bytes, from 1 to 16, at address `a`, which are all there. No other byte changes.
    fn write(&mut self, w: u8, a: u64, v: Word)
        requires some { 1 ≤ w }
        requires most { w ≤ 16 }
        requires mapped { IsMapped (base self.old) (length (bytes self.old)) w a }
        requires width { length v ≡ 8 * w }
        ensures same { base self.new ≡ base self.old }
        ensures written { bytes self.new ≡ overwritten (bytes self.old) (a - base self.old) (word_bytes w v) };
}
