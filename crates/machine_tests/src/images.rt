ghost use Rattle.std.specs.Prelude.{◌^◌, ◌<◌};

mod linked;

use elf_load::{ElfError, ElfRefusal, place, read_elf};
use linked::SUMS;
use mem_store::{Flat, Memory};
use sail_base::Word;
use std::alloc::{AllocError, Global};
use std::test::Fail;

/// The header of a static RISC-V executable that begins at 0x80000000, with one program header.
const HEADER: [u8; 64] = [
    0x7f, 0x45, 0x4c, 0x46, 2, 1, 1, 0, 0, 0, 0, 0, 0, 0, 0, 0, 2, 0, 0xf3, 0, 1, 0, 0, 0, 0, 0, 0,
    0x80, 0, 0, 0, 0, 0x40, 0, 0, 0, 0, 0, 0, 0, 0, 0, 0, 0, 0, 0, 0, 0, 0, 0, 0, 0, 0x40, 0, 0x38,
    0, 1, 0, 0, 0, 0, 0, 0, 0,
];

/// A `PT_LOAD` of the eight bytes from offset 120 on at 0x80000000.
const LOAD: [u8; 56] = [
    1, 0, 0, 0, 5, 0, 0, 0, 0x78, 0, 0, 0, 0, 0, 0, 0, 0, 0, 0, 0x80, 0, 0, 0, 0, 0, 0, 0, 0x80, 0,
    0, 0, 0, 8, 0, 0, 0, 0, 0, 0, 0, 8, 0, 0, 0, 0, 0, 0, 0, 4, 0, 0, 0, 0, 0, 0, 0,
];

/// The eight bytes: `addi x1, x0, 5` and `add x3, x1, x0`.
const CODE: [u8; 8] = [0x93, 0x00, 0x50, 0x00, 0xb3, 0x81, 0x20, 0x00];

/// The header, so many program headers and the code, with other bytes at these places, up to a length.
fn image(
    alloc: Global,
    headers: u8,
    edits: &[(usize, u8)],
    len: usize,
) -> Result<Vec<u8>, AllocError> {
    let mut bytes = Vec::new(alloc);
    bytes.extend_from_slice(&HEADER)?;
    for _ in 0..headers {
        bytes.extend_from_slice(&LOAD)?;
    }
    bytes.extend_from_slice(&CODE)?;
    for (at, byte) in edits {
        if let Some(place) = bytes.get_mut(*at) {
            *place = *byte;
        }
    }
    bytes.truncate(len);
    Ok(bytes)
}

/// Why a file is refused, if it is.
fn refusal(alloc: Global, file: &[u8], wanted: Option<i128>) -> Result<Option<ElfRefusal>, Fail> {
    match read_elf(alloc, file, wanted) {
        Ok(_) => Ok(None),
        Err(ElfError::Refused(refusal)) => Ok(Some(refusal)),
        Err(ElfError::OutOfMemory) => Err("out of memory".into()),
    }
}

/// An edit that changes nothing.
const SAME: (usize, u8) = (0, 0x7f);

/// So many program headers, bytes that are written over an image of them at places, and the refusal.
const FIELDS: [(u8, [(usize, u8); 3], Option<ElfRefusal>); 22] = [
    (1, [SAME, SAME, SAME], None),
    (1, [(3, 9), SAME, SAME], Some(ElfRefusal::Magic)),
    (1, [(4, 1), SAME, SAME], Some(ElfRefusal::Class)),
    (1, [(5, 64), (6, 0), SAME], Some(ElfRefusal::Encoding)),
    (1, [(6, 0), (16, 3), SAME], Some(ElfRefusal::Version)),
    (1, [(23, 3), SAME, SAME], Some(ElfRefusal::Version)),
    (1, [(17, 3), SAME, SAME], Some(ElfRefusal::FileType)),
    (1, [(54, 0), SAME, SAME], Some(ElfRefusal::HeaderSize)),
    (1, [(54, 0), (56, 0), SAME], None),
    (1, [(56, 65), SAME, SAME], Some(ElfRefusal::Count)),
    (1, [(56, 2), SAME, SAME], Some(ElfRefusal::TableOutside)),
    (1, [(39, 0xff), SAME, SAME], Some(ElfRefusal::TableOutside)),
    (
        1,
        [(103, 2), SAME, SAME],
        Some(ElfRefusal::SegmentOutside { index: 0 }),
    ),
    (
        1,
        [(96, 9), (104, 8), SAME],
        Some(ElfRefusal::SegmentOutside { index: 0 }),
    ),
    (
        1,
        [(104, 7), SAME, SAME],
        Some(ElfRefusal::FileOverMemory { index: 0 }),
    ),
    (1, [(79, 0xff), (96, 0), SAME], None),
    (
        1,
        [(64, 2), SAME, SAME],
        Some(ElfRefusal::Dynamic { index: 0 }),
    ),
    (
        2,
        [(56, 2), (95, 1), (120, 3)],
        Some(ElfRefusal::Dynamic { index: 1 }),
    ),
    (
        2,
        [(56, 2), (104, 7), (120, 3)],
        Some(ElfRefusal::FileOverMemory { index: 0 }),
    ),
    (2, [(56, 2), (120, 4), (159, 0xff)], None),
    (
        2,
        [(56, 2), (159, 0xff), SAME],
        Some(ElfRefusal::SegmentOutside { index: 1 }),
    ),
    (1, [(67, 0x70), SAME, SAME], None),
];

#[test]
fn each_field_is_tested_in_order(rt: HostRuntime) -> Result<(), Fail> {
    let alloc = rt.alloc();
    for (headers, edits, wanted) in &FIELDS {
        let file = image(alloc, *headers, edits.as_slice(), 4096)?;
        assert!(rt; refusal(alloc, &file, None)? == *wanted);
    }
    let file = image(alloc, 1, &[], 4096)?;
    let found = Some(ElfRefusal::Machine {
        wanted: 62,
        found: 243,
    });
    assert!(rt; refusal(alloc, &file, Some(62))? == found);
    assert!(rt; refusal(alloc, &file, Some(243))? == None);
    Ok(())
}

#[test]
fn each_prefix_is_refused(rt: HostRuntime) -> Result<(), Fail> {
    let alloc = rt.alloc();
    for len in 0..128 {
        let wanted = if len < 64 {
            ElfRefusal::Short
        } else if len < 120 {
            ElfRefusal::TableOutside
        } else {
            ElfRefusal::SegmentOutside { index: 0 }
        };
        let file = image(alloc, 1, &[], len)?;
        assert!(rt; refusal(alloc, &file, None)? == Some(wanted));
    }
    Ok(())
}

/// What placing an image with these bytes into 16 bytes of ones from `base` on leaves there, or why it is refused.
fn placed(alloc: Global, edits: &[(usize, u8)], base: u64) -> Result<Result<u128, ElfRefusal>, Fail>
    requires { base < 2 ^ 32 }
{
    let file = image(alloc, 1, edits, 4096)?;
    let image = read_elf(alloc, &file, None)?;
    let mut memory = Flat::new(alloc, base, 16)?;
    if memory.mapped(16, base) {
        memory.write(16, base, Word::ones(128));
    }
    if let Err(refusal) = place(&image, &mut memory) {
        return Ok(Err(refusal));
    }
    if !memory.mapped(16, base) {
        return Err("not mapped".into());
    }
    Ok(Ok(memory.read(16, base).bits()))
}

#[test]
fn segments_are_placed_whole(rt: HostRuntime) -> Result<(), Fail> {
    let alloc = rt.alloc();
    let ones = u128::MAX;
    let code = 0x0020_81b3_0050_0093;
    let refused = Err(ElfRefusal::NotInRam { index: 0 });
    let cases: [(&[(usize, u8)], u64, Result<u128, ElfRefusal>); 8] = [
        (&[], 0x8000_0000, Ok((ones << 64) | code)),
        (&[(104, 12)], 0x8000_0000, Ok((ones << 96) | code)),
        (&[(104, 16)], 0x8000_0000, Ok(code)),
        (&[], 0x7fff_fff8, Ok((code << 64) | (ones >> 64))),
        (&[(104, 17)], 0x8000_0000, refused),
        (&[], 0x7fff_fff7, refused),
        (&[(95, 0xff), (94, 0xff)], 0x8000_0000, refused),
        (&[(96, 0), (104, 0), (95, 0xff)], 0x8000_0000, Ok(ones)),
    ];
    for (edits, base, wanted) in cases {
        assert!(rt; placed(alloc, edits, base)? == wanted);
    }
    Ok(())
}

/// The index, the address and the count of bytes in the file and in memory of each `PT_LOAD` of the linked program, as
/// `readelf -lW` prints them.
const LOADS: [(u32, u64, usize, u64); 2] = [
    (1, 0x8000_0000, 0x120, 0x120),
    (2, 0x8000_0120, 0xc, 0x20),
];

/// The number of 16 bytes of memory.
fn number_at(memory: &Flat, at: u64) -> Result<u128, Fail> {
    if !memory.mapped(16, at) {
        return Err("not mapped".into());
    }
    Ok(memory.read(16, at).bits())
}

#[test]
fn a_linked_program_is_loaded(rt: HostRuntime) -> Result<(), Fail> {
    let alloc = rt.alloc();
    let image = read_elf(alloc, &SUMS, Some(243))?;
    assert!(rt; image.entry == 0x8000_00e8 && image.segments.len() == LOADS.len());
    for (segment, load) in image.segments.as_slice().iter().zip(LOADS) {
        let found = (
            segment.index,
            segment.place,
            segment.bytes.len(),
            segment.size,
        );
        assert!(rt; found == load);
    }
    let mut memory = Flat::new(alloc, 0x8000_0000, 0x140)?;
    if memory.mapped(16, 0x8000_0130) {
        memory.write(16, 0x8000_0130, Word::ones(128));
    }
    assert!(rt; place(&image, &mut memory) == Ok(()));
    let terms = number_at(&memory, 0x8000_0120)?;
    let sums = number_at(&memory, 0x8000_0130)?;
    assert!(rt; terms == 0x3_ffff_ffff_0000_0028 && sums == 0);
    Ok(())
}
