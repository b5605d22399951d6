//! The program `sail-run`: its words, files and output are the real ones.
#![tactic(auto)]

#[cfg(test)]
mod answers;
#[cfg(test)]
mod long_texts;
#[cfg(test)]
mod machines;
#[cfg(test)]
mod tests;

use sail_outside::{StdShelf, StdSink};
use sail_top::{Jib, Status, run_words};
use std::alloc::Global;
use std::env::{self, Env};
use std::io::ErrorKind;
use std::process::ExitCode;
use std::rt::Files;

fn main(rt: HostRuntime) -> ExitCode {
    answer(&rt, &rt)
}

/// Answers the command line, with the files and the output of the runtime.
fn answer(rt: &(impl Files + Print + AllocGlobal), line: &impl Env) -> ExitCode {
    let words = match words(rt.alloc(), line) {
        Ok(words) => words,
        Err(status) => return ExitCode::from(status.code()),
    };
    let mut files = StdShelf::new(rt);
    let mut out = StdSink::new(rt);
    let mut engine = Jib;
    let status = run_words(
        rt.alloc(),
        words.as_slice(),
        &mut files,
        &mut out,
        &mut engine,
    );
    ExitCode::from(status.code())
}

/// The words behind the program's name; none where one of them isn't UTF-8, which no command is
/// either. Where they find no memory, the status for that.
fn words(alloc: Global, line: &impl Env) -> Result<Vec<String>, Status> {
    match env::args(&(line, alloc)) {
        Ok(words) => words
            .skip(1)
            .collect(alloc)
            .map_err(|_| Status::OutOfMemory),
        Err(error) if error.kind() == ErrorKind::OutOfMemory => Err(Status::OutOfMemory),
        Err(_) => Ok(Vec::new(alloc)),
    }
}
