//! A file's bytes as an image.
ghost use Rattle.std.specs.Prelude.{◌≡◌, ◌+◌, ◌*◌, ◌<◌, ◌≤◌, ◌≢◌, ◌↔◌, length, take, drop, map, filter, Some, None, OnOk, IfOk, IfErr, IsTrue};
ghost use Rattle.std.specs.List.{flat_map};
ghost use Rattle.elf_load.specs.Fields.{e_phnum, p_type, header_at};
ghost use Rattle.elf_load.specs.Reading.{elf_refusal, image_of, first_failed, identity_tests, machine_tests};
ghost use Rattle.elf_load.specs.Reading.{table_tests, program_tests, segment_at, is_load, indices};
ghost use Rattle.elf_load.specs.Placed.{Fits};
ghost use Rattle.elf_load.specs.Refused.{IfRefused, HeadersWithin, SegmentWithin, SegmentsWithin};

use crate::fields::field;
use crate::image::{ElfError, Image, Segment};
use sail_base::{ElfRefusal, Items};
use std::alloc::{AllocError, Global};

/// `PT_LOAD`, `PT_DYNAMIC` and `PT_INTERP`, the kinds of program headers that are looked at.
const LOAD: u64 = 1;

const DYNAMIC: u64 = 2;

const INTERPRETER: u64 = 3;

/// The size of a program header (`e_phentsize`).
const HEADER_SIZE: u64 = 56;

/// Reads a static little-endian ELF64 executable: its entry and its `PT_LOAD` segments. Where a machine is
/// wanted, the file must be for it.
///
/// `Refused` tells the first test that the file fails, in the order of the variants of [`ElfRefusal`], program
/// headers by index; `OutOfMemory` comes only where keeping the segments wanted memory.
pub fn read_elf(alloc: Global, file: &[u8], wanted: Option<i128>) -> Result<Image, ElfError>
    ensures accepted { OnOk result (elf_refusal file.now wanted ≡ None) }
    ensures image { IfOk result (λ image. image ≡ image_of file.now) }
    ensures fits { IfOk result Fits }
    ensures refused { IfErr result (IfRefused (λ refusal. elf_refusal file.now wanted ≡ Some refusal)) }
{
    check_identity(file)?;
    check_machine(file, wanted)?;
    check_table(file)?;
    check_programs(file)?;
    let segments = segments_of(alloc, file)?;
    Ok(Image {
        entry: field(file, 24, 8),
        segments,
    })
}

/// Whether the file is an ELF64 executable with little-endian data.
fn check_identity(file: &[u8]) -> Result<(), ElfRefusal>
    ensures passed { OnOk result (first_failed (identity_tests file.now) ≡ None) }
    ensures size { OnOk result (64 ≤ length file.now) }
    ensures failed { IfErr result (λ refusal. first_failed (identity_tests file.now) ≡ Some refusal) }
{
    if file.len() < 64 {
        return Err(ElfRefusal::Short);
    }
    if !file.starts_with(&[0x7f, b'E', b'L', b'F']) {
        return Err(ElfRefusal::Magic);
    }
    if field(file, 4, 1) != 2 {
        return Err(ElfRefusal::Class);
    }
    if field(file, 5, 1) != 1 {
        return Err(ElfRefusal::Encoding);
    }
    if field(file, 6, 1) != 1 || field(file, 20, 4) != 1 {
        return Err(ElfRefusal::Version);
    }
    if field(file, 16, 2) != 2 {
        return Err(ElfRefusal::FileType);
    }
    Ok(())
}

/// Whether the file is for the machine that is wanted, if one is.
fn check_machine(file: &[u8], wanted: Option<i128>) -> Result<(), ElfRefusal>
    requires { 64 ≤ length file.now }
    ensures passed { OnOk result (first_failed (machine_tests file.now wanted) ≡ None) }
    ensures failed { IfErr result (λ refusal. first_failed (machine_tests file.now wanted) ≡ Some refusal) }
{
    let found = field(file, 18, 2) as u16;
    match wanted {
        Some(wanted) if wanted != found as i128 => Err(ElfRefusal::Machine { wanted, found }),
        _ => Ok(()),
    }
}

/// Whether the table of program headers is in the file, at most 64 of 56 bytes each.
fn check_table(file: &[u8]) -> Result<(), ElfRefusal>
    requires { 64 ≤ length file.now }
    ensures passed { OnOk result (first_failed (table_tests file.now) ≡ None) }
    ensures within { OnOk result (HeadersWithin file.now) }
    ensures failed { IfErr result (λ refusal. first_failed (table_tests file.now) ≡ Some refusal) }
{
    let count = field(file, 56, 2);
    if count != 0 && field(file, 54, 2) != HEADER_SIZE {
        return Err(ElfRefusal::HeaderSize);
    }
    if count > 64 {
        return Err(ElfRefusal::Count);
    }
    if count != 0 && !lies_within(file, field(file, 32, 8), HEADER_SIZE * count) {
        return Err(ElfRefusal::TableOutside);
    }
    Ok(())
}

/// Whether each program header is one that can be taken.
fn check_programs(file: &[u8]) -> Result<(), ElfRefusal>
    requires size { 64 ≤ length file.now }
    requires table { HeadersWithin file.now }
    ensures passed { OnOk result (first_failed (flat_map (program_tests file.now) (indices file.now)) ≡ None) }
    ensures within { OnOk result (SegmentsWithin file.now (e_phnum file.now)) }
    ensures failed { IfErr result (λ refusal. first_failed (flat_map (program_tests file.now) (indices file.now)) ≡ Some refusal) }
{
    let count = header_count(file);
    for index in 0..count {
        check_program(file, index)?;
    }
    Ok(())
}

/// Whether a program header is one that can be taken: its bytes are in the file where it is loaded, and it asks for
/// no dynamic linking.
fn check_program(file: &[u8], index: u32) -> Result<(), ElfRefusal>
    requires size { 64 ≤ length file.now }
    requires table { HeadersWithin file.now }
    requires there { index < e_phnum file.now }
    ensures passed { OnOk result (first_failed (program_tests file.now index) ≡ None) }
    ensures within { OnOk result (SegmentWithin file.now index) }
    ensures failed { IfErr result (λ refusal. first_failed (program_tests file.now index) ≡ Some refusal) }
{
    let at = header_start(file, index);
    let kind = field(file, at, 4);
    if kind == LOAD {
        let size = field(file, at + 32, 8);
        if size != 0 && !lies_within(file, field(file, at + 8, 8), size) {
            return Err(ElfRefusal::SegmentOutside { index });
        }
        if size > field(file, at + 40, 8) {
            return Err(ElfRefusal::FileOverMemory { index });
        }
    }
    if kind == DYNAMIC || kind == INTERPRETER {
        return Err(ElfRefusal::Dynamic { index });
    }
    Ok(())
}

/// The segments of the `PT_LOAD` headers, in their order. The one error is want of memory.
fn segments_of(alloc: Global, file: &[u8]) -> Result<Items<Segment>, AllocError>
    requires size { 64 ≤ length file.now }
    requires table { HeadersWithin file.now }
    requires within { SegmentsWithin file.now (e_phnum file.now) }
    ensures { IfOk result (λ segments. segments ≡ map (segment_at file.now) (filter (is_load file.now) (indices file.now))) }
{
    let mut segments = Items::new(alloc);
    let count = header_count(file);
    for index in 0..count {
        if field(file, header_start(file, index), 4) == LOAD {
            segments.push(segment_of(alloc, file, index)?)?;
        }
    }
    Ok(segments)
}

/// The segment of a `PT_LOAD` header. The one error is want of memory.
fn segment_of(alloc: Global, file: &[u8], index: u32) -> Result<Segment, AllocError>
    requires size { 64 ≤ length file.now }
    requires table { HeadersWithin file.now }
    requires there { index < e_phnum file.now }
    requires load { p_type file.now index ≡ 1 }
    requires within { SegmentWithin file.now index }
    ensures { IfOk result (λ segment. segment ≡ segment_at file.now index) }
{
    let at = header_start(file, index);
    let bytes = part_of(file, field(file, at + 8, 8), field(file, at + 32, 8));
    Ok(Segment {
        index,
        place: field(file, at + 24, 8),
        bytes: Items::from_slice(alloc, bytes)?,
        size: field(file, at + 40, 8),
    })
}

/// How many program headers there are.
fn header_count(file: &[u8]) -> u32
    requires { 64 ≤ length file.now }
    ensures { result ≡ e_phnum file.now }
{
    field(file, 56, 2) as u32
}

/// Where a program header begins.
fn header_start(file: &[u8], index: u32) -> usize
    requires size { 64 ≤ length file.now }
    requires table { HeadersWithin file.now }
    requires there { index < e_phnum file.now }
    ensures start { result ≡ header_at file.now index }
    ensures within { result + 56 ≤ length file.now }
{
    field(file, 32, 8) as usize + HEADER_SIZE as usize * index as usize
}

/// Whether `size` bytes from an offset on are in the file; no sum wraps.
fn lies_within(file: &[u8], offset: u64, size: u64) -> bool
    ensures { IsTrue result ↔ (offset + size ≤ length file.now) }
{
    let len = file.len() as u64;
    offset <= len && size <= len - offset
}

/// The `size` bytes from an offset on, which are in the file where there are any.
fn part_of(file: &[u8], offset: u64, size: u64) -> &[u8]
    requires { size ≢ 0 → offset + size ≤ length file.now }
    ensures { result.now ≡ take size (drop offset file.now) }
{
    if size == 0 {
        &[]
    } else {
        &file[offset as usize..(offset + size) as usize]
    }
}
