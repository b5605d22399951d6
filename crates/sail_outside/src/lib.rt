//! The outside of the program: where named bytes are read from, and where bytes are written to.
//!
//! A [`Shelf`] gives the bytes of named files, a [`Sink`] takes bytes. [`read_file`] reads one
//! file whole within a limit, [`write_all`] writes one piece whole. Their contracts speak of every
//! shelf and every sink, through what each of these tells of its own bytes and faults.
//!
//! [`MemShelf`] and [`MemSink`] are in memory and fail at chosen calls, [`SureShelf`] and
//! [`SureSink`] are in memory and are never at fault, [`StdShelf`] and [`StdSink`] are the real
//! files and the real output.
#![tactic(auto)]

mod edge;
mod errors;
mod held;
mod mem;
mod plan;
mod reading;
mod real;
mod sure;
mod writing;

pub use edge::{BeginError, Failed, PutError, Shelf, Sink};
pub use errors::{ReadError, WriteError};
pub use mem::{MemShelf, MemSink};
pub use reading::read_file;
pub use real::{StdShelf, StdSink};
pub use sure::{SureShelf, SureSink};
pub use writing::write_all;
