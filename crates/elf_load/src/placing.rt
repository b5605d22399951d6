//! An image into memory.
ghost use Rattle.std.specs.Prelude.{◌≡◌, ◌+◌, ◌-◌, ◌*◌, ◌^◌, ◌<◌, ◌≤◌, length, replicate, Some, None, OnOk, OnErr, IfErr, All};
ghost use Rattle.mem_store.specs.Bytes.{IsMapped, is_mapped, overwritten};
ghost use Rattle.elf_load.specs.Placed.{Fits, LiesIn, place_refusal, placed, with_segment};

use crate::image::{Image, Segment};
use mem_store::Memory;
use sail_base::{ElfRefusal, Word};

/// Puts the segments of an image into memory, each the bytes of the file at its place and zeros behind them up to
/// its size, later segments over earlier ones.
///
/// The one refusal is `NotInRam`, of the first segment that has bytes and isn't all in memory; memory is as before
/// then.
pub fn place<M: Memory>(image: &Image, memory: &mut M) -> Result<(), ElfRefusal>
    requires { Fits image.now }
    ensures same { M.base memory.new ≡ M.base memory.old }
    ensures size { length (M.bytes memory.new) ≡ length (M.bytes memory.old) }
    ensures fits { OnOk result (place_refusal image.now (M.base memory.old) (length (M.bytes memory.old)) ≡ None) }
    ensures placed { OnOk result (M.bytes memory.new ≡ placed image.now (M.base memory.old) (M.bytes memory.old)) }
    ensures refused { IfErr result (λ refusal. place_refusal image.now (M.base memory.old) (length (M.bytes memory.old)) ≡ Some refusal) }
    ensures unchanged { OnErr result (M.bytes memory.new ≡ M.bytes memory.old) }
{
    let (base, size) = (memory.base(), memory.size());
    check_places(image, base, size)?;
    for segment in image.segments.as_slice() {
        place_segment(segment, memory);
    }
    Ok(())
}

/// Whether each segment that has bytes lies among `size` bytes from `base` on.
fn check_places(image: &Image, base: u64, size: u64) -> Result<(), ElfRefusal>
    ensures fits { OnOk result (place_refusal image.now base size ≡ None) }
    ensures within { OnOk result (All (LiesIn base size) image.now.segments) }
    ensures refused { IfErr result (λ refusal. place_refusal image.now base size ≡ Some refusal) }
{
    for segment in image.segments.as_slice() {
        if segment.size != 0 && !is_inside(segment, base, size) {
            return Err(ElfRefusal::NotInRam {
                index: segment.index,
            });
        }
    }
    Ok(())
}

/// Whether a segment's memory lies among `size` bytes from `base` on; no sum wraps.
fn is_inside(segment: &Segment, base: u64, size: u64) -> bool
    ensures { result ≡ is_mapped base size segment.now.size segment.now.place }
{
    segment.place >= base
        && segment.place - base <= size
        && segment.size <= size - (segment.place - base)
}

/// Puts one segment into memory: its bytes, and zeros behind them.
fn place_segment<M: Memory>(segment: &Segment, memory: &mut M)
    requires fits { length segment.now.bytes ≤ segment.now.size }
    requires within { LiesIn (M.base memory.old) (length (M.bytes memory.old)) segment.now }
    requires end { M.base memory.old + length (M.bytes memory.old) ≤ 2 ^ 64 }
    ensures same { M.base memory.new ≡ M.base memory.old }
    ensures size { length (M.bytes memory.new) ≡ length (M.bytes memory.old) }
    ensures placed { M.bytes memory.new ≡ with_segment (M.base memory.old) (M.bytes memory.old) segment.now }
{
    if segment.size == 0 {
        return;
    }
    let bytes = segment.bytes.as_slice();
    put_bytes(memory, segment.place, bytes);
    put_zeros(memory, segment.place, bytes.len() as u64, segment.size);
}

/// Puts bytes into memory from an address on.
#[tactic(auto, using(sail_base::specs::laws::WordParts::word_widths))]
fn put_bytes<M: Memory>(memory: &mut M, at: u64, bytes: &[u8])
    requires within { IsMapped (M.base memory.old) (length (M.bytes memory.old)) (length bytes.now) at }
    requires end { at + length bytes.now ≤ 2 ^ 64 }
    ensures same { M.base memory.new ≡ M.base memory.old }
    ensures size { length (M.bytes memory.new) ≡ length (M.bytes memory.old) }
    ensures put { M.bytes memory.new ≡ overwritten (M.bytes memory.old) (at - M.base memory.old) bytes.now }
{
    for i in 0..bytes.len() {
        memory.write(1, at + i as u64, Word::new(8, bytes[i] as u128));
    }
}

/// Puts zeros into memory, behind the first `from` bytes of the `to` bytes from an address on.
#[tactic(auto, using(sail_base::specs::laws::WordParts::word_widths))]
fn put_zeros<M: Memory>(memory: &mut M, at: u64, from: u64, to: u64)
    requires order { from ≤ to }
    requires within { IsMapped (M.base memory.old) (length (M.bytes memory.old)) to at }
    requires end { at + to ≤ 2 ^ 64 }
    ensures same { M.base memory.new ≡ M.base memory.old }
    ensures size { length (M.bytes memory.new) ≡ length (M.bytes memory.old) }
    ensures put { M.bytes memory.new ≡ overwritten (M.bytes memory.old) (at - M.base memory.old + from) (replicate (to - from) 0) }
{
    for i in from..to {
        memory.write(1, at + i, Word::new(8, 0));
    }
}
