use mem_store::{Flat, Memory};
use sail_base::Word;
use std::alloc::Global;
use std::test::Fail;

/// Writes a word of `w` bytes and reads it back.
#[tactic(auto, using(sail_base::specs::laws::WordParts::word_widths))]
fn written<M: Memory>(memory: &mut M, w: u8, a: u64, number: u128) -> Option<Word> {
    if w == 0 || w > 16 || !memory.mapped(w, a) {
        return None;
    }
    memory.write(w, a, Word::low(8 * w, number));
    Some(memory.read(w, a))
}

/// The byte at an address.
fn byte_at<M: Memory>(memory: &M, a: u64) -> Option<u128> {
    if !memory.mapped(1, a) {
        return None;
    }
    Some(memory.read(1, a).bits())
}

/// Words of each edge of width and place, the lowest byte first, also where the end is 2^64.
#[test]
fn words_are_little_endian(rt: HostRuntime) -> Result<(), Fail> {
    let top = u64::MAX - 31;
    let mut memory = Flat::new(rt.alloc(), top, 32)?;
    let words = [
        (1, top, 0xa5),
        (2, top + 2, 0x1234),
        (4, top + 4, 0xdead_beef),
        (8, top + 8, 0x0102_0304_0506_0708),
        (16, top + 16, 0x0f0e_0d0c_0b0a_0908_0706_0504_0302_0100),
    ];
    for (w, a, number) in words {
        let read = written(&mut memory, w, a, number).ok_or("mapped")?;
        assert!(rt; read.bits() == number);
    }
    let bytes = [
        (top, 0xa5),
        (top + 1, 0x00),
        (top + 2, 0x34),
        (top + 3, 0x12),
        (top + 16, 0x00),
        (top + 31, 0x0f),
    ];
    for (a, byte) in bytes {
        assert!(rt; byte_at(&memory, a) == Some(byte));
    }
    assert!(rt; (memory.base(), memory.size()) == (top, 32));
    Ok(())
}

/// No sum wraps: a word that would pass 2^64, or begins below the base, isn't there.
#[test]
fn words_outside_are_not_mapped(rt: HostRuntime) -> Result<(), Fail> {
    let memory = Flat::new(rt.alloc(), u64::MAX, 1)?;
    let places = [
        (1, u64::MAX, true),
        (2, u64::MAX, false),
        (16, u64::MAX, false),
        (1, 0, false),
        (1, u64::MAX - 1, false),
        (2, u64::MAX - 1, false),
    ];
    for (w, a, there) in places {
        assert!(rt; memory.mapped(w, a) == there);
    }
    Ok(())
}
