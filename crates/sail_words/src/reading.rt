ghost use Rattle.std.specs.Prelude.{◌≡◌, ◌+◌, ◌^◌, nat_le, IfOk, IsErrOf, None, Some, map};
ghost use Rattle.std.specs.String.{string_bytes};
ghost use Rattle.clap.specs.Words.{rows_of, found_of};
ghost use Rattle.sail_words.specs.Line.{line_of, command_of, models_of, run_of, synth_of, IsAllowed};

use crate::command::Command;
use crate::numbers::{given_number, numbers_of};
use crate::order::order_of;
use crate::program::program;
use crate::run::{Run, Setup};
use crate::synth::Synth;
use crate::values::{value_of, values_of};
use clap::ArgMatches;
use clap::error::ErrorKind;
use sail_base::{Items, Text};
use std::alloc::{AllocError, Global};
use thiserror::Error;

/// Why words ask for nothing.
#[derive(Clone, Copy, Debug, PartialEq, Eq, Drop, Error)]
pub enum LineError {
    /// The words are no command.
    #[error("the words are no command")]
    Usage,
    /// Memory was wanting. This says nothing of the words.
    #[error("out of memory")]
    OutOfMemory,
}

impl From<AllocError> for LineError {
    ghost use Rattle.std.specs.Prelude.{◌≡◌};
    ghost use Rattle.sail_words.specs.declared.reading.LineError.{LineError};

    ghost from_gives = { λ e r. r ≡ LineError.OutOfMemory };

    fn from(_: AllocError) -> LineError {
        LineError::OutOfMemory
    }
}

/// What the words behind the program's name ask for.
///
/// `Usage` comes exactly where they are no command, `OutOfMemory` where memory was wanting.
pub fn line(alloc: Global, words: &[String]) -> Result<Command, LineError>
    ensures found { IfOk result (λ command. line_of (map string_bytes words.now) ≡ Some command) }
    ensures limits { IfOk result IsAllowed }
    ensures usage { IsErrOf result LineError.Usage → line_of (map string_bytes words.now) ≡ None }
{
    let command = program(alloc)?;
    let matches = match command.try_get_matches_from(words) {
        Ok(matches) => matches,
        Err(error) if error.kind() == ErrorKind::OutOfMemory => return Err(LineError::OutOfMemory),
        Err(_) => return Err(LineError::Usage),
    };
    match matches.subcommand() {
        Some((name, values)) => read_command(alloc, name, values),
        None => Err(LineError::Usage),
    }
}

/// What a subcommand asks for, by the values that clap found.
fn read_command(alloc: Global, name: &str, values: &ArgMatches<'_>) -> Result<Command, LineError>
    ensures found { IfOk result (λ command. command_of name.now (rows_of (found_of values.now)) ≡ Some command) }
    ensures usage { IsErrOf result LineError.Usage → command_of name.now (rows_of (found_of values.now)) ≡ None }
{
    if name == "run" {
        let run = read_run(alloc, values)?;
        return Ok(Command::Run(run));
    }
    if name == "check" {
        let models = read_models(alloc, values)?;
        return Ok(Command::Check(models));
    }
    if name == "certs" {
        let models = read_models(alloc, values)?;
        return Ok(Command::Certs(models));
    }
    if name == "synth" {
        let Some(synth) = read_synth(values) else {
            return Err(LineError::Usage);
        };
        return Ok(Command::Synth(synth));
    }
    Err(LineError::Usage)
}

/// What `check` and `certs` ask for, by the values that clap found.
fn read_models(alloc: Global, values: &ArgMatches<'_>) -> Result<Items<Text>, LineError>
    ensures found { IfOk result (λ models. models_of (rows_of (found_of values.now)) ≡ Some models) }
    ensures usage { IsErrOf result LineError.Usage → models_of (rows_of (found_of values.now)) ≡ None }
{
    let Some(models) = values_of(values, "model") else {
        return Err(LineError::Usage);
    };
    if models.is_empty() || models.len() > 64 {
        return Err(LineError::Usage);
    }
    let models = texts(alloc, models)?;
    Ok(models)
}

/// What `synth` asks for, by the values that clap found.
fn read_synth(values: &ArgMatches<'_>) -> Option<Synth>
    ensures { result ≡ synth_of (rows_of (found_of values.now)) }
{
    let seed = given_number(values, "seed", 0, 65535)?;
    let size = given_number(values, "size", 1, 4000)?;
    Some(Synth {
        seed: seed as u32,
        size: size as u32,
    })
}

/// What `run` asks for, by the values that clap found.
fn read_run(alloc: Global, values: &ArgMatches<'_>) -> Result<Run, LineError>
    ensures found { IfOk result (λ run. run_of (rows_of (found_of values.now)) ≡ Some run) }
    ensures usage { IsErrOf result LineError.Usage → run_of (rows_of (found_of values.now)) ≡ None }
{
    let Some(elf) = value_of(values, "elf") else {
        return Err(LineError::Usage);
    };
    let Some(models) = values_of(values, "model") else {
        return Err(LineError::Usage);
    };
    let Some(numbers) = numbers_of(values) else {
        return Err(LineError::Usage);
    };
    let Some(order) = order_of(alloc, numbers.harts, values)? else {
        return Err(LineError::Usage);
    };
    if models.is_empty()
        || models.len() > 64
        || !is_addressable(numbers.ram_base, numbers.ram_size)
    {
        return Err(LineError::Usage);
    }
    let elf = Text::new(alloc, elf)?;
    let models = texts(alloc, models)?;
    let run = Run {
        elf,
        models,
        setup: Setup {
            steps: numbers.steps,
            harts: numbers.harts,
            order,
            ram_base: numbers.ram_base,
            ram_size: numbers.ram_size,
        },
    };
    Ok(run)
}

/// Whether so many bytes from a place on lie below 2^64.
fn is_addressable(base: u64, size: u64) -> bool
    ensures { result ≡ nat_le (base + size) (2 ^ 64) }
{
    u128::from(base) + u128::from(size) <= 1 << 64
}

/// A text of each name, in order.
fn texts(alloc: Global, names: &[&str]) -> Result<Items<Text>, AllocError>
    ensures { IfOk result (λ texts. texts ≡ map (λ name. name.now) names.now) }
{
    let mut texts = Items::new(alloc);
    for name in names {
        texts.push(Text::new(alloc, name)?)?;
    }
    Ok(texts)
}
