ghost use Rattle.std.specs.Prelude.{◌≡◌, ◌<◌, ◌≤◌, [], Err, IfOk, Some, length, map};
ghost use Rattle.sail_outside.specs.Faults.{Rose};
ghost use Rattle.std.specs.List.{All};
ghost use Rattle.model_tokens.specs.Files.{IsShort};
ghost use Rattle.sail_words.specs.Line.{IsAllowed, IsWithinLimits};
ghost use Rattle.sail_top.specs.parts.Borrowed.{as_wanted};
ghost use Rattle.sail_top.specs.parts.Short.{AreShortButLast, AreShortFor};
ghost use Rattle.sail_top.specs.Answer as spec;
ghost use Rattle.sail_top.specs.Ending.{Leaves};
ghost use Rattle.sail_top.specs.Reading.{wanted_by};
ghost use Rattle.sail_top.specs.parts.Unread.{AnswersUnread};

use crate::accepted::{refuse_model, run_accepted, tell_certificates, tell_counts};
use crate::lines::named_line;
use crate::reading::{Unread, Wanted, read_files, wanted_by};
use crate::seeded::judge_synth;
use crate::status::{Answer, Status};
use sail_base::Items;
use sail_compile::{Engine, ModelError};
use sail_outside::{ReadError, Shelf};
use sail_words::{Command, Run};
use std::alloc::{AllocError, Global};

/// Why there is no answer.
#[derive(Clone, Copy, Debug, PartialEq, Eq)]
pub enum Unanswered {
    /// The shelf was at fault; its count of faults rose.
    Fault,
    /// Memory was wanting.
    OutOfMemory,
}

impl From<AllocError> for Unanswered {
    ghost use Rattle.std.specs.Prelude.{◌≡◌};
    ghost use Rattle.sail_top.specs.declared.answer.Unanswered.{Unanswered};

    ghost from_gives = { λ e r. r ≡ Unanswered.OutOfMemory };

    fn from(_: AllocError) -> Unanswered {
        Unanswered::OutOfMemory
    }
}

/// The answer to a command: its files are read whole, the models and then the program of `run`, and the first
/// that isn't held or is too long decides.
pub fn answer_command<S: Shelf, E: Engine>(
    alloc: Global,
    command: &Command,
    shelf: &mut S,
    engine: &mut E,
) -> Result<Answer, Unanswered>
    requires { IsAllowed command.now }
    ensures answer { IfOk result (spec.AnswersCommand (E.engine engine.old) command.now (S.holds shelf.old)) }
    ensures left { IfOk result (λ _. Leaves (Some command.now) (S.holds shelf.old) (S.left shelf.new)) }
    ensures fault { result ≡ Err Unanswered.Fault → Rose (S.faults shelf.old) (S.faults shelf.new) }
    ensures untouched { wanted_by command.now ≡ [] → shelf.new ≡ shelf.old }
{
    let wanted = wanted_by(alloc, command)?;
    if wanted.is_empty() {
        let answer = answer_at_once(alloc, command, engine)?;
        return Ok(answer);
    }
    answer_read(alloc, command, wanted.as_slice(), shelf, engine)
}

/// The answer to a command that wants no file.
fn answer_at_once<E: Engine>(
    alloc: Global,
    command: &Command,
    engine: &mut E,
) -> Result<Answer, AllocError>
    requires allowed { IsAllowed command.now }
    requires none { wanted_by command.now ≡ [] }
    ensures { IfOk result (spec.AnswersFiles (E.engine engine.old) command.now []) }
{
    answer_files(alloc, command, Items::new(alloc), engine)
}

/// The answer to a command that wants these files, one at least.
fn answer_read<S: Shelf, E: Engine>(
    alloc: Global,
    command: &Command,
    wanted: &[Wanted<'_>],
    shelf: &mut S,
    engine: &mut E,
) -> Result<Answer, Unanswered>
    requires allowed { IsAllowed command.now }
    requires wanted { map as_wanted wanted.now ≡ wanted_by command.now }
    requires some { 0 < length wanted.now }
    ensures answer { IfOk result (spec.AnswersCommand (E.engine engine.old) command.now (S.holds shelf.old)) }
    ensures left { IfOk result (λ _. Leaves (Some command.now) (S.holds shelf.old) (S.left shelf.new)) }
    ensures fault { result ≡ Err Unanswered.Fault → Rose (S.faults shelf.old) (S.faults shelf.new) }
{
    match read_files(alloc, shelf, wanted) {
        Ok(files) => {
            let answer = answer_files(alloc, command, files, engine)?;
            Ok(answer)
        }
        Err(unread) => answer_unread(alloc, unread),
    }
}

/// What is answered where a file could not be read.
fn answer_unread(alloc: Global, unread: Unread<'_>) -> Result<Answer, Unanswered>
    ensures answer { IfOk result (AnswersUnread unread.entry.file unread.entry.name.now unread.entry.error) }
    ensures fault { result ≡ Err Unanswered.Fault → unread.entry.error ≡ ReadError.Fault }
{
    let file = unread.file;
    match unread.error {
        ReadError::Missing => {
            let line = named_line(alloc, "no file: ", unread.name)?;
            Ok(Answer {
                status: Status::NoFile { file },
                bytes: Items::from_vec(line),
            })
        }
        ReadError::TooLong { limit } => {
            let line = named_line(alloc, "too long: ", unread.name)?;
            Ok(Answer {
                status: Status::FileTooLong { file, limit },
                bytes: Items::from_vec(line),
            })
        }
        ReadError::Fault => Err(Unanswered::Fault),
        ReadError::OutOfMemory => Err(Unanswered::OutOfMemory),
    }
}

/// The answer where all files are read: the models' texts, and behind them the program's file of `run`.
fn answer_files<E: Engine>(
    alloc: Global,
    command: &Command,
    files: Items<Items<u8>>,
    engine: &mut E,
) -> Result<Answer, AllocError>
    requires allowed { IsAllowed command.now }
    requires count { length files ≡ length (wanted_by command.now) }
    requires short { AreShortFor command.now files }
    ensures { IfOk result (spec.AnswersFiles (E.engine engine.old) command.now files) }
{
    match command {
        Command::Run(run) => answer_run(alloc, run, files, engine),
        Command::Check(_) => judge_counts(alloc, files.as_slice(), engine),
        Command::Certs(_) => judge_certificates(alloc, files.as_slice(), engine),
        Command::Synth(synth) => judge_synth(alloc, synth, engine),
    }
}

/// The answer of `run` where all files are read: the models' texts, and the program's file behind them.
fn answer_run<E: Engine>(
    alloc: Global,
    command: &Run,
    mut files: Items<Items<u8>>,
    engine: &mut E,
) -> Result<Answer, AllocError>
    requires limits { IsWithinLimits command.now.setup }
    requires some { 0 < length files }
    requires few { length files ≤ 65 }
    requires short { AreShortButLast files }
    ensures { IfOk result (spec.RunsFiles (E.engine engine.old) command.now files) }
{
    let Some(file) = files.pop() else {
        unreachable!()
    };
    judge(alloc, command, files.as_slice(), file.as_slice(), engine)
}

/// The answer of `run` for the models' texts and the program's file.
fn judge<E: Engine>(
    alloc: Global,
    command: &Run,
    texts: &[Items<u8>],
    file: &[u8],
    engine: &mut E,
) -> Result<Answer, AllocError>
    requires limits { IsWithinLimits command.now.setup }
    requires few { length texts.now ≤ 64 }
    requires short { All IsShort texts.now }
    ensures { IfOk result (spec.Judges (spec.AnswersAccepted (E.engine engine.old) command.now file.now) texts.now) }
{
    match engine.compile(alloc, texts, true) {
        Ok(made) => run_accepted(alloc, b"", &command.setup, made, file),
        Err(ModelError::Refused(refusal)) => refuse_model(alloc, refusal),
        Err(ModelError::OutOfMemory) => Err(AllocError),
    }
}

/// The answer of `check` for the models' texts.
fn judge_counts<E: Engine>(
    alloc: Global,
    texts: &[Items<u8>],
    engine: &mut E,
) -> Result<Answer, AllocError>
    requires few { length texts.now ≤ 64 }
    requires short { All IsShort texts.now }
    ensures { IfOk result (spec.Judges spec.AnswersCheck texts.now) }
{
    match engine.compile(alloc, texts, false) {
        Ok(made) => tell_counts(alloc, made.accepted),
        Err(ModelError::Refused(refusal)) => refuse_model(alloc, refusal),
        Err(ModelError::OutOfMemory) => Err(AllocError),
    }
}

/// The answer of `certs` for the models' texts.
fn judge_certificates<E: Engine>(
    alloc: Global,
    texts: &[Items<u8>],
    engine: &mut E,
) -> Result<Answer, AllocError>
    requires few { length texts.now ≤ 64 }
    requires short { All IsShort texts.now }
    ensures { IfOk result (spec.Judges spec.AnswersCerts texts.now) }
{
    match engine.compile(alloc, texts, false) {
        Ok(made) => tell_certificates(alloc, made.accepted),
        Err(ModelError::Refused(refusal)) => refuse_model(alloc, refusal),
        Err(ModelError::OutOfMemory) => Err(AllocError),
    }
}
