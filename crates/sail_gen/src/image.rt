//! The image of the program. Each call that can fail does so where memory is wanting.
ghost use Rattle.std.specs.Prelude.{◌≡◌, ◌<◌, ◌≤◌, ◌++◌, IfOk, OnOk};
ghost use Rattle.sail_gen.specs.Image as spec;

use crate::draws::Draws;
use std::alloc::{AllocError, Global};

/// The file's header: an executable for no machine with one program header behind it.
const FILE_HEADER: [u8; 64] = [
    0x7f, 0x45, 0x4c, 0x46, 2, 1, 1, 0, 0, 0, 0, 0, 0, 0, 0, 0, 2, 0, 0, 0, 1, 0, 0, 0, 0, 0, 0,
    0x80, 0, 0, 0, 0, 64, 0, 0, 0, 0, 0, 0, 0, 0, 0, 0, 0, 0, 0, 0, 0, 0, 0, 0, 0, 64, 0, 56, 0, 1,
    0, 0, 0, 0, 0, 0, 0,
];

/// The program header before its two sizes: a segment that stands behind the headers.
const PROGRAM_FRONT: [u8; 32] = [
    1, 0, 0, 0, 5, 0, 0, 0, 120, 0, 0, 0, 0, 0, 0, 0, 0, 0, 0, 0x80, 0, 0, 0, 0, 0, 0, 0, 0x80, 0,
    0, 0, 0,
];

/// The image of a program of so many codes, which are drawn.
pub fn image(alloc: Global, draws: &mut Draws, size: u32) -> Result<Vec<u8>, AllocError>
    requires state { draws.old.state < 65537 }
    requires size { size ≤ 4000 }
    ensures { IfOk result (λ image. image.items ≡ spec.image_from draws.old.state size) }
{
    let mut out = Vec::from_slice(alloc, &FILE_HEADER)?;
    push_program_header(&mut out, u64::from(2 * (size + 1)))?;
    push_codes(&mut out, draws, size)?;
    out.extend_from_slice(&[0xff, 0xff])?;
    Ok(out)
}

/// Puts the header of a segment of so many bytes.
fn push_program_header(out: &mut Vec<u8>, size: u64) -> Result<(), AllocError>
    ensures { OnOk result (out.new.items ≡ out.old.items ++ spec.program_header size) }
{
    out.extend_from_slice(&PROGRAM_FRONT)?;
    out.extend_from_slice(&size.to_le_bytes())?;
    out.extend_from_slice(&size.to_le_bytes())?;
    out.extend_from_slice(&[4, 0, 0, 0, 0, 0, 0, 0])
}

/// Puts so many codes, which are drawn.
fn push_codes(out: &mut Vec<u8>, draws: &mut Draws, size: u32) -> Result<(), AllocError>
    requires state { draws.old.state < 65537 }
    requires size { size ≤ 4000 }
    ensures { OnOk result (out.new.items ≡ out.old.items ++ spec.codes_from draws.old.state size) }
{
    for _number in 0..size {
        let code = draws.draw(size);
        push_code(out, code as u16)?;
    }
    Ok(())
}

/// Puts a code, the lower byte first.
fn push_code(out: &mut Vec<u8>, code: u16) -> Result<(), AllocError>
    ensures { OnOk result (out.new.items ≡ out.old.items ++ spec.half code) }
{
    out.extend_from_slice(&code.to_le_bytes())
}
