//! Static ELF64 programs: from a file's bytes to an image, and from an image into memory.
//!
//! `specs/Fields` has the fields of a file by their offsets, `specs/Reading` the tests of a file in their order
//! and the image of one that passes them all, `specs/Placed` what memory holds once an image is placed.
#![tactic(auto)]

mod fields;
mod image;
mod placing;
mod reading;

pub use fields::field;
pub use image::{ElfError, Image, Segment};
pub use placing::place;
pub use reading::read_elf;
pub use sail_base::ElfRefusal;
