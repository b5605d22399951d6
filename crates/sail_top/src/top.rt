ghost use Rattle.std.specs.Prelude.{◌≡◌, Some, IfOk, Err, map};
ghost use Rattle.std.specs.String.{string_bytes};
ghost use Rattle.sail_outside.specs.Files.{Files};
ghost use Rattle.sail_outside.specs.Faults.{Rose};
ghost use Rattle.sail_top.specs.declared.status.Answer.{Answer};
ghost use Rattle.sail_top.specs.Answer as spec;
ghost use Rattle.sail_top.specs.Answer.{IsAnswer};
ghost use Rattle.sail_words.specs.Line.{line_of};
ghost use Rattle.sail_top.specs.Ending.{IsPlain, IsSettled, Answered, AnsweredPart, Completes, Leaves, WantsNone};
ghost use Rattle.sail_top.specs.parts.Finished.{Finished};

use crate::answer::{Unanswered, answer_command};
use crate::status::{Answer, Status};
use sail_base::Items;
use sail_compile::Engine;
use sail_outside::{Shelf, Sink, WriteError, write_all};
use sail_words::{LineError, line};
use std::alloc::{AllocError, Global};

/// Does what the program does: answers its words, with its files on a shelf and its output to a sink, and with an engine that makes of a model what takes
/// its steps.
///
/// The words are those behind the program's name. The commands are `check MODEL..`, `certs MODEL..` and `run --elf FILE [--steps N]
/// [--harts N] [--order DIGITS] [--ram-base N] [--ram-size N] MODEL..`, its options in any order, and `synth SEED SIZE`; every other list of words is
/// `Usage`. The statuses and when they come stand at [`Status`]; each but `ReadFault`, `WriteFault` and
/// `OutOfMemory` is answered only where all that it has to say was written.
pub fn run_words<S: Shelf, K: Sink, E: Engine>(
    alloc: Global,
    words: &[String],
    files: &mut S,
    out: &mut K,
    engine: &mut E,
) -> Status
    // Where the files are told, the ending is that of the answer; of a run where the engine means one thing by each text, or leaves it.
    ensures complete { (held : Files) (answer : Answer) → S.holds files.old ≡ Some held → IsSettled (E.engine engine.old) (line_of (map string_bytes words.now))
        → IsAnswer (E.engine engine.old) (map string_bytes words.now) (Some held) answer → Completes answer result (K.given out.old) (K.given out.new) }

    // The cause of each status, also where nothing is told.
    ensures answered { IsPlain result → Answered (E.engine engine.old) (map string_bytes words.now) (S.holds files.old) result (K.given out.old) (K.given out.new) }
    ensures read_fault { result ≡ Status.ReadFault → Rose (S.faults files.old) (S.faults files.new) }
    ensures nothing_written { result ≡ Status.ReadFault → K.given out.new ≡ K.given out.old }
    ensures write_fault { result ≡ Status.WriteFault → Rose (K.faults out.old) (K.faults out.new) }
    ensures front_written { result ≡ Status.WriteFault → AnsweredPart (E.engine engine.old) (map string_bytes words.now) (S.holds files.old) (K.given out.old) (K.given out.new) }

    // How far the files were read: not at all where the words want none.
    ensures left { IsPlain result → Leaves (line_of (map string_bytes words.now)) (S.holds files.old) (S.left files.new) }
    ensures untouched { WantsNone (line_of (map string_bytes words.now)) → files.new ≡ files.old }
{
    match answer_words(alloc, words, files, engine) {
        Ok(answer) => finish(answer, out),
        Err(Unanswered::Fault) => Status::ReadFault,
        Err(Unanswered::OutOfMemory) => Status::OutOfMemory,
    }
}

/// What is answered to the words.
fn answer_words<S: Shelf, E: Engine>(
    alloc: Global,
    words: &[String],
    files: &mut S,
    engine: &mut E,
) -> Result<Answer, Unanswered>
    ensures answer { IfOk result (IsAnswer (E.engine engine.old) (map string_bytes words.now) (S.holds files.old)) }
    ensures left { IfOk result (λ _. Leaves (line_of (map string_bytes words.now)) (S.holds files.old) (S.left files.new)) }
    ensures fault { result ≡ Err Unanswered.Fault → Rose (S.faults files.old) (S.faults files.new) }
    ensures untouched { WantsNone (line_of (map string_bytes words.now)) → files.new ≡ files.old }
{
    match line(alloc, words) {
        Ok(command) => answer_command(alloc, &command, files, engine),
        Err(LineError::Usage) => {
            let answer = refuse_words(alloc)?;
            Ok(answer)
        }
        Err(LineError::OutOfMemory) => Err(Unanswered::OutOfMemory),
    }
}

/// The answer where the words are no command.
fn refuse_words(alloc: Global) -> Result<Answer, AllocError>
    ensures { IfOk result (λ answer. answer ≡ spec.usage) }
{
    let line = Vec::from_slice(alloc, b"sail-run: usage\n")?;
    Ok(Answer {
        status: Status::Usage,
        bytes: Items::from_vec(line),
    })
}

/// Writes what is answered, and ends with its status where that is done.
fn finish<K: Sink>(answer: Answer, out: &mut K) -> Status
    ensures { Finished answer result (K.given out.old) (K.given out.new) (K.faults out.old) (K.faults out.new) }
{
    match write_all(out, answer.bytes.as_slice()) {
        Ok(()) => answer.into_status(),
        Err(WriteError::Fault) => Status::WriteFault,
        Err(WriteError::OutOfMemory) => Status::OutOfMemory,
    }
}
