//! The command line, told to `clap`.
ghost use Rattle.std.specs.Prelude.{◌≡◌, IfOk, false, codes};
ghost use Rattle.clap.specs.Words.{app_of, rule_of, with_rule, with_subcommand};
ghost use Rattle.clap.specs.declared.builder.command.Command.TheViews.{out-Command as fields_of};
ghost use Rattle.sail_words.specs.Program as spec;

use clap::{Arg, Command};
use std::alloc::{AllocError, Global};

/// `--NAME VALUE` or `--NAME=VALUE`, at most once.
fn option<'a>(alloc: Global, name: &'a str) -> Arg<'a>
    ensures rule { rule_of result ≡ spec.option name.entry.now }
    ensures local { result.global ≡ false }
{
    Arg::new(alloc, name).long(name)
}

/// The same, exactly once.
fn required_option<'a>(alloc: Global, name: &'a str) -> Arg<'a>
    ensures rule { rule_of result ≡ spec.required_option name.entry.now }
    ensures local { result.global ≡ false }
{
    option(alloc, name).required(true)
}

/// One word or more that belong to no option.
fn models<'a>(alloc: Global) -> Arg<'a>
    ensures rule { rule_of result ≡ spec.models }
    ensures local { result.global ≡ false }
{
    Arg::new(alloc, "model").required(true).num_args(1..)
}

/// One word that belongs to no option.
fn operand<'a>(alloc: Global, name: &'a str) -> Arg<'a>
    ensures rule { rule_of result ≡ spec.operand name.entry.now }
    ensures local { result.global ≡ false }
{
    Arg::new(alloc, name).required(true)
}

/// The command with one more argument, which isn't global.
fn with_argument<'a>(command: Command<'a>, argument: Arg<'a>) -> Result<Command<'a>, AllocError>
    requires { argument.global ≡ false }
    ensures app { IfOk result (λ made. app_of made ≡ with_rule (app_of command.entry) (rule_of argument.entry)) }
    ensures local { IfOk result (λ made. (fields_of made).has_globals ≡ (fields_of command.entry).has_globals) }
{
    command.arg(argument)
}

/// The command with one more subcommand, which has no global arguments.
fn with_command<'a>(
    command: Command<'a>,
    subcommand: Command<'a>,
) -> Result<Command<'a>, AllocError>
    requires { (fields_of subcommand).has_globals ≡ false }
    ensures app { IfOk result (λ made. app_of made ≡ with_subcommand (app_of command.entry) (app_of subcommand.entry).top) }
    ensures local { IfOk result (λ made. (fields_of made).has_globals ≡ (fields_of command.entry).has_globals) }
{
    command.subcommand(subcommand)
}

/// The command with the options that take a number.
fn with_numbers<'a>(alloc: Global, command: Command<'a>) -> Result<Command<'a>, AllocError>
    ensures app { IfOk result (λ made. app_of made ≡ spec.with_numbers (app_of command.entry)) }
    ensures local { IfOk result (λ made. (fields_of made).has_globals ≡ (fields_of command.entry).has_globals) }
{
    let command = with_argument(command, option(alloc, "steps"))?;
    let command = with_argument(command, option(alloc, "harts"))?;
    let command = with_argument(command, option(alloc, "ram-base"))?;
    let command = with_argument(command, option(alloc, "ram-size"))?;
    Ok(command)
}

/// The subcommand `run`.
fn run_command<'a>(alloc: Global) -> Result<Command<'a>, AllocError>
    ensures app { IfOk result (λ made. app_of made ≡ spec.run_command) }
    ensures local { IfOk result (λ made. (fields_of made).has_globals ≡ false) }
{
    let command = Command::new(alloc, "run");
    let command = with_argument(command, required_option(alloc, "elf"))?;
    let command = with_argument(command, option(alloc, "order"))?;
    let command = with_argument(command, models(alloc))?;
    with_numbers(alloc, command)
}

/// A subcommand that takes models alone.
fn models_command<'a>(alloc: Global, name: &'a str) -> Result<Command<'a>, AllocError>
    ensures app { IfOk result (λ made. app_of made ≡ spec.models_command name.entry.now) }
    ensures local { IfOk result (λ made. (fields_of made).has_globals ≡ false) }
{
    with_argument(Command::new(alloc, name), models(alloc))
}

/// The subcommand `synth`.
fn synth_command<'a>(alloc: Global) -> Result<Command<'a>, AllocError>
    ensures app { IfOk result (λ made. app_of made ≡ spec.synth_command) }
    ensures local { IfOk result (λ made. (fields_of made).has_globals ≡ false) }
{
    let command = with_argument(Command::new(alloc, "synth"), operand(alloc, "seed"))?;
    with_argument(command, operand(alloc, "size"))
}

/// The words without the program's name: no help and no version.
fn bare<'a>(alloc: Global) -> Command<'a>
    ensures app { app_of result ≡ spec.bare }
    ensures local { (fields_of result).has_globals ≡ false }
{
    Command::new(alloc, "sail-run")
        .no_binary_name(true)
        .disable_help_flag(true)
        .disable_version_flag(true)
        .disable_help_subcommand(true)
        .subcommand_required(true)
}

/// The command line with the subcommands that take files.
fn with_files<'a>(alloc: Global) -> Result<Command<'a>, AllocError>
    ensures app { IfOk result (λ made. app_of made ≡ spec.with_files) }
    ensures local { IfOk result (λ made. (fields_of made).has_globals ≡ false) }
{
    let command = with_command(bare(alloc), run_command(alloc)?)?;
    let command = with_command(command, models_command(alloc, "check")?)?;
    with_command(command, models_command(alloc, "certs")?)
}

/// The whole command line.
pub fn program<'a>(alloc: Global) -> Result<Command<'a>, AllocError>
    ensures app { IfOk result (λ made. app_of made ≡ spec.program) }
    ensures local { IfOk result (λ made. (fields_of made).has_globals ≡ false) }
{
    let command = with_files(alloc)?;
    with_command(command, synth_command(alloc)?)
}
