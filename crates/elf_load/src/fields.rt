//! The fields of an ELF64 file.
ghost use Rattle.std.specs.Prelude.{◌≡◌, ◌+◌, ◌^◌, ◌*◌, ◌<◌, ◌≤◌, ◌⊎◌, length};
ghost use Rattle.elf_load.specs.Fields.{number_at};

use byteorder::{ByteOrder, LittleEndian};

/// The number in the `width` bytes at an offset, the lowest byte first. The width is 1, 2, 4 or 8, and the bytes
/// are in the file.
pub fn field(file: &[u8], at: usize, width: u8) -> u64
    requires width { (width ≡ 1) ⊎ ((width ≡ 2) ⊎ ((width ≡ 4) ⊎ (width ≡ 8))) }
    requires within { at + width ≤ length file.now }
    ensures number { result ≡ number_at file.now at width }
    ensures below { result < 256 ^ width }
{
    LittleEndian::read_uint(&file[at..], width as usize)
}
