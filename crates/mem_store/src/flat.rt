//! Memory whose bytes stand side by side.
ghost use Rattle.std.specs.Prelude.{◌≡◌, ◌+◌, ◌*◌, ◌^◌, ◌<◌, ◌≤◌, IfOk, All, length, replicate};
ghost use Rattle.mem_store.specs.Bytes.{span, word_of, word_bytes, overwritten};

use crate::Memory;
use byteorder::{ByteOrder, LittleEndian};
use sail_base::Word;
use std::alloc::{AllocError, Global};

/// Memory in one piece.
#[derive(Debug, Drop)]
pub struct Flat {
    base: u64,
    bytes: Vec<u8>,
    ghost within: { base + length bytes.items ≤ 2 ^ 64 },
}

impl Flat {
    /// Zeros from `base` on, `size` bytes of them; the end is at most 2^64. The one error is want of memory.
    pub fn new(alloc: Global, base: u64, size: u64) -> Result<Flat, AllocError>
        requires some { 1 ≤ size }
        requires most { size ≤ 67108864 }
        requires end { base + size ≤ 2 ^ 64 }
        ensures base { IfOk result (λ memory. ⟦<Flat as Memory>⟧.base memory ≡ base) }
        ensures bytes { IfOk result (λ memory. ⟦<Flat as Memory>⟧.bytes memory ≡ replicate size 0) }
    {
        let bytes = vec![in alloc; 0u8; size as usize]?;
        Ok(Flat { base, bytes })
    }
}

impl Memory for Flat {
    ghost base = { λ flat. flat.base };

    ghost bytes = { λ flat. flat.bytes.items };

    fn base(&self) -> u64 {
        self.base
    }

    fn size(&self) -> u64 {
        self.bytes.len() as u64
    }

    fn mapped(&self, w: u8, a: u64) -> bool {
        let size = self.size();
        a >= self.base && a - self.base <= size && w as u64 <= size - (a - self.base)
    }

    fn read(&self, w: u8, a: u64) -> Word {
        word_at(&self.bytes, (a - self.base) as usize, w)
    }

    fn write(&mut self, w: u8, a: u64, v: Word) {
        put_word(&mut self.bytes, (a - self.base) as usize, w, v);
    }
}

/// The word of `w` bytes, from 1 to 16, from the one at index `at` on, which are all there.
fn word_at(bytes: &[u8], at: usize, w: u8) -> Word
    requires some { 1 ≤ w }
    requires most { w ≤ 16 }
    requires within { at + w ≤ length bytes.now }
    ensures word { result ≡ word_of (span bytes.now at w) }
    ensures fits { All (λ b. b < 256) (span bytes.now at w) }
{
    let number = LittleEndian::read_uint128(&bytes[at..], w as usize);
    Word::new(8 * w, number)
}

/// Puts a word's `w` bytes, from 1 to 16, in the place of those from index `at` on.
fn put_word(bytes: &mut [u8], at: usize, w: u8, v: Word)
    requires some { 1 ≤ w }
    requires most { w ≤ 16 }
    requires within { at + w ≤ length bytes.old }
    requires width { length v ≡ 8 * w }
    ensures { bytes.new ≡ overwritten bytes.old at (word_bytes w v) }
{
    LittleEndian::write_uint128(&mut bytes[at..], v.bits(), w as usize);
}
