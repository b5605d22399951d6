//! The command line: what the words behind the program's name ask for.
//!
//! [`line`] reads them by `clap`. Its contract speaks of the definition in `specs/Line`, which stands on
//! clap's own definition of a parse, of the command written out in `specs/Program`.
#![tactic(auto)]

mod command;
mod numbers;
mod order;
mod program;
mod reading;
mod run;
mod synth;
mod values;

pub use command::Command;
pub use reading::{LineError, line};
pub use run::{Run, Setup};
pub use synth::Synth;
