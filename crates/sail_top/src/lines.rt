ghost use Rattle.std.specs.Prelude.{◌≡◌, ◌++◌, ◌∷◌, [], IfOk, OnOk, codes};
ghost use Rattle.std.specs.Fmt.{decimal};
ghost use Rattle.sail_top.specs.Lines as spec;

use sail_base::{ElfRefusal, Place, Refusal};
use std::alloc::{AllocError, Global};

/// The line of a model's refusal.
pub fn refusal_line(alloc: Global, refusal: &Refusal) -> Result<Vec<u8>, AllocError>
    ensures { IfOk result (λ line. line.items ≡ spec.refusal_line refusal.now) }
{
    let number = refusal.number;
    let mut line = Vec::from_slice(alloc, b"M")?;
    line.push(b'0' + number / 10)?;
    line.push(b'0' + number % 10)?;
    line.push(b' ')?;
    push_place(&mut line, refusal.place)?;
    push_detail(&mut line, refusal.detail.as_bytes())?;
    line.push(b'\n')?;
    Ok(line)
}

/// The line of the refusal of a program's file.
pub fn elf_line(alloc: Global, refusal: ElfRefusal) -> Result<Vec<u8>, AllocError>
    ensures { IfOk result (λ line. line.items ≡ spec.elf_line refusal) }
{
    let mut line = Vec::from_slice(alloc, b"E")?;
    push_decimal(&mut line, elf_number(refusal))?;
    if let Some(index) = elf_index(refusal) {
        line.push(b' ')?;
        push_decimal(&mut line, index)?;
    }
    line.push(b'\n')?;
    Ok(line)
}

/// A line of a front and a name.
pub fn named_line(alloc: Global, front: &str, name: &str) -> Result<Vec<u8>, AllocError>
    ensures { IfOk result (λ line. line.items ≡ front.now ++ name.now ++ codes "\n") }
{
    let mut line = Vec::from_slice(alloc, front.as_bytes())?;
    line.extend_from_slice(name.as_bytes())?;
    line.push(b'\n')?;
    Ok(line)
}

fn push_place(line: &mut Vec<u8>, place: Place) -> Result<(), AllocError>
    ensures { OnOk result (line.new.items ≡ line.old.items ++ spec.place_text place) }
{
    push_decimal(line, place.file)?;
    line.push(b':')?;
    push_decimal(line, place.line)?;
    line.push(b':')?;
    push_decimal(line, place.column)
}

fn push_detail(line: &mut Vec<u8>, detail: &[u8]) -> Result<(), AllocError>
    ensures { OnOk result (line.new.items ≡ line.old.items ++ spec.detail_text detail.now) }
{
    if detail.is_empty() {
        return Ok(());
    }
    line.push(b' ')?;
    line.extend_from_slice(detail)
}

fn push_decimal(line: &mut Vec<u8>, number: u32) -> Result<(), AllocError>
    ensures { OnOk result (line.new.items ≡ line.old.items ++ decimal number) }
{
    line.extend_from_slice(itoa::Buffer::new().format(number).as_bytes())
}

/// The number of a refusal, 1 to 14.
fn elf_number(refusal: ElfRefusal) -> u32
    ensures { result ≡ spec.elf_number refusal }
{
    match refusal {
        ElfRefusal::Short => 1,
        ElfRefusal::Magic => 2,
        ElfRefusal::Class => 3,
        ElfRefusal::Encoding => 4,
        ElfRefusal::Version => 5,
        ElfRefusal::FileType => 6,
        ElfRefusal::Machine { .. } => 7,
        ElfRefusal::HeaderSize => 8,
        ElfRefusal::Count => 9,
        ElfRefusal::TableOutside => 10,
        ElfRefusal::SegmentOutside { .. } => 11,
        ElfRefusal::FileOverMemory { .. } => 12,
        ElfRefusal::NotInRam { .. } => 13,
        ElfRefusal::Dynamic { .. } => 14,
    }
}

/// The program header that a refusal is about, if any.
fn elf_index(refusal: ElfRefusal) -> Option<u32>
    ensures { result ≡ spec.elf_index refusal }
{
    match refusal {
        ElfRefusal::SegmentOutside { index }
        | ElfRefusal::FileOverMemory { index }
        | ElfRefusal::NotInRam { index }
        | ElfRefusal::Dynamic { index } => Some(index),
        _ => None,
    }
}
