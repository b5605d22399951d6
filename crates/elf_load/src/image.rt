use sail_base::{ElfRefusal, Items};
use std::alloc::AllocError;
use thiserror::Error;

/// One part of a program: where it stands in memory, its bytes from the file, and how many bytes of memory it has.
#[derive(Debug, Drop)]
pub struct Segment {
    /// The index of its program header, from 0.
    pub index: u32,
    /// The physical address of its first byte (`p_paddr`).
    pub place: u64,
    /// The bytes from the file; there are `p_filesz` of them.
    pub bytes: Items<u8>,
    /// How many bytes of memory it has (`p_memsz`); behind those from the file they are zeros.
    pub size: u64,
}

/// A program to be placed in memory.
#[derive(Debug, Drop)]
pub struct Image {
    /// The address at which the program begins (`e_entry`).
    pub entry: u64,
    /// The segments of its `PT_LOAD` headers, in their order.
    pub segments: Items<Segment>,
}

/// Why a file could not be read as an image.
#[derive(Clone, Copy, Debug, PartialEq, Eq, Drop, Error)]
pub enum ElfError {
    /// The file is refused: this is the first test that it fails.
    #[error("the file is no image")]
    Refused(ElfRefusal),
    /// Keeping the segments wanted memory.
    #[error("out of memory")]
    OutOfMemory,
}

impl From<ElfRefusal> for ElfError {
    ghost use Rattle.std.specs.Prelude.{◌≡◌};
    ghost use Rattle.elf_load.specs.declared.image.ElfError.TheVariants as error;

    ghost from_gives = { λ refusal error_of. error_of ≡ error.Refused refusal };

    fn from(refusal: ElfRefusal) -> ElfError {
        ElfError::Refused(refusal)
    }
}

impl From<AllocError> for ElfError {
    ghost use Rattle.std.specs.Prelude.{◌≡◌};
    ghost use Rattle.elf_load.specs.declared.image.ElfError.TheVariants as error;

    ghost from_gives = { λ refusal error_of. error_of ≡ error.OutOfMemory };

    fn from(_: AllocError) -> ElfError {
        ElfError::OutOfMemory
    }
}
