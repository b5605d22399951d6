ghost use Rattle.std.specs.Prelude.{◌≡◌, ◌<◌, ◌≤◌, ◌++◌, ◌∷◌, [], length, map, IfOk, IfErr};
ghost use Rattle.sail_top.specs.Reading as spec;
ghost use Rattle.sail_top.specs.Reading.{whole};
ghost use Rattle.sail_top.specs.parts.Borrowed.{as_wanted};
ghost use Rattle.sail_top.specs.parts.Unread.{Ends, StopsAt};

use sail_base::{Items, Text};
use sail_outside::{ReadError, Shelf, read_file};
use sail_words::{Command, Run};
use std::alloc::{AllocError, Global};

// How many bytes a model may have.
const MODEL_LIMIT: u64 = 4_194_304;

// How many bytes the program's file may have.
const ELF_LIMIT: u64 = 67_108_864;

/// A file that is wanted.
#[derive(Clone, Copy)]
pub struct Wanted<'a> {
    pub name: &'a str,
    /// How many bytes it may have.
    pub limit: u64,
}

/// Why files were not all read.
#[derive(Clone, Copy)]
pub struct Unread<'a> {
    /// The number of the first file that was not read, counted from 0 in the order of reading.
    pub file: u32,
    /// Its name.
    pub name: &'a str,
    /// Why it was not read.
    pub error: ReadError,
}

/// The files of models, in their order.
fn wanted_models(alloc: Global, models: &[Text]) -> Result<Vec<Wanted<'_>>, AllocError>
    ensures { IfOk result (λ files. map as_wanted files.items ≡ map spec.wanted_model models.now) }
{
    let mut files = Vec::new(alloc);
    for name in models {
        files.push(Wanted {
            name: name.as_str(),
            limit: MODEL_LIMIT,
        })?;
    }
    Ok(files)
}

/// The files of a run in the order of reading: the models in the order of the words, then the program.
fn wanted_by_run(alloc: Global, run: &Run) -> Result<Vec<Wanted<'_>>, AllocError>
    ensures { IfOk result (λ files. map as_wanted files.items
        ≡ map spec.wanted_model run.now.models ++ spec.wanted_elf run.now.elf ∷ []) }
{
    let mut files = wanted_models(alloc, run.models.as_slice())?;
    files.push(Wanted {
        name: run.elf.as_str(),
        limit: ELF_LIMIT,
    })?;
    Ok(files)
}

/// The files of a command in the order of reading: the models in the order of the words, then the program of `run`; none for `synth`.
pub fn wanted_by(alloc: Global, command: &Command) -> Result<Vec<Wanted<'_>>, AllocError>
    ensures { IfOk result (λ files. map as_wanted files.items ≡ spec.wanted_by command.now) }
{
    match command {
        Command::Run(run) => wanted_by_run(alloc, run),
        Command::Check(models) => wanted_models(alloc, models.as_slice()),
        Command::Certs(models) => wanted_models(alloc, models.as_slice()),
        Command::Synth(_) => Ok(Vec::new(alloc)),
    }
}

/// Reads files one after another, each whole. The first that isn't held, is too long or is at fault
/// ends the reading.
pub fn read_files<'a, S: Shelf>(
    alloc: Global,
    shelf: &mut S,
    wanted: &[Wanted<'a>],
) -> Result<Items<Items<u8>>, Unread<'a>>
    requires some { 0 < length wanted.now }
    requires few { length wanted.now ≤ 65 }
    ensures whole { IfOk result (λ files. Ends (S.holds shelf.old) (map as_wanted wanted.now) (whole files) (S.left shelf.new)) }
    ensures count { IfOk result (λ files. length files ≡ length wanted.now) }
    ensures unread { IfErr result (λ e. StopsAt (S.holds shelf.old) (map as_wanted wanted.now) e.file e.name.now e.error
        (S.left shelf.new) (S.faults shelf.old) (S.faults shelf.new)) }
{
    let mut files = Items::new(alloc);
    for (number, file) in wanted.iter().enumerate() {
        let number = number as u32;
        match read_file(alloc, shelf, file.name, file.limit) {
            Ok(bytes) => {
                if files.push(Items::from_vec(bytes)).is_err() {
                    return Err(Unread {
                        file: number,
                        name: file.name,
                        error: ReadError::OutOfMemory,
                    });
                }
            }
            Err(error) => {
                return Err(Unread {
                    file: number,
                    name: file.name,
                    error,
                });
            }
        }
    }
    Ok(files)
}
