/// Why a file is no image that can be run: the first test of an ELF64 file that fails.
///
/// The tests are those of the System V gABI, chapters "ELF Header" and "Program Header", for
/// static little-endian executables. They come in the order of the variants up to
/// `TableOutside`; then, program header by program header, `SegmentOutside` and `FileOverMemory`
/// of a `PT_LOAD`, `Dynamic` of a `PT_DYNAMIC` or `PT_INTERP`; at last, header by header,
/// `NotInRam`. An index counts program headers from 0.
#[derive(Clone, Copy, PartialEq, Eq, Debug)]
pub enum ElfRefusal {
    /// The file has fewer than the 64 bytes of a header.
    Short,
    /// The file doesn't begin with `7F 45 4C 46` (gABI, `EI_MAG0` to `EI_MAG3`).
    Magic,
    /// The class isn't `ELFCLASS64`, 2 (`EI_CLASS`).
    Class,
    /// The data encoding isn't `ELFDATA2LSB`, 1 (`EI_DATA`).
    Encoding,
    /// A version isn't `EV_CURRENT`, 1 (`EI_VERSION`, then `e_version`).
    Version,
    /// The type isn't `ET_EXEC`, 2 (`e_type`).
    FileType,
    /// The machine isn't the one that the model names (`e_machine`).
    Machine {
        /// What the model names.
        wanted: i128,
        /// What the file has.
        found: u16,
    },
    /// There are program headers, and they don't have 56 bytes each (`e_phentsize`).
    HeaderSize,
    /// There are more than 64 program headers (`e_phnum`).
    Count,
    /// There are program headers, and their table passes the end of the file.
    TableOutside,
    /// The bytes of a segment pass the end of the file (`p_offset`, `p_filesz`).
    SegmentOutside {
        /// The program header.
        index: u32,
    },
    /// A segment has more bytes in the file than in memory (`p_filesz`, `p_memsz`).
    FileOverMemory {
        /// The program header.
        index: u32,
    },
    /// The memory of a segment isn't all in RAM (`p_paddr`, `p_memsz`).
    NotInRam {
        /// The program header.
        index: u32,
    },
    /// The file asks for dynamic linking (`PT_DYNAMIC`, `PT_INTERP`).
    Dynamic {
        /// The program header.
        index: u32,
    },
}
