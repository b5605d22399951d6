//! A model and a program that are made of a seed, judged and run as if both had been read.
ghost use Rattle.std.specs.Prelude.{◌≡◌, ◌≤◌, ◌∷◌, [], IfOk, length};
ghost use Rattle.std.specs.List.{All};
ghost use Rattle.model_tokens.specs.Files.{IsShort};
ghost use Rattle.sail_compile.specs.Engines.{HasRegisters};
ghost use Rattle.sail_words.specs.Line.{IsSized};
ghost use Rattle.sail_top.specs.Answer.{AnswersSynth, Judges, accepted_text, answer_by};
ghost use Rattle.sail_top.specs.Seeded as spec;

use crate::accepted::{push_counts, refuse_model, run_accepted};
use crate::status::Answer;
use model_state::Stepper;
use sail_base::Items;
use sail_compile::{Accepted, Compiled, Engine, ModelError};
use sail_gen::synth;
use sail_types::push_integer;
use sail_words::{Setup, Synth};
use std::alloc::{AllocError, Global};

/// The answer of `synth`.
pub fn judge_synth<E: Engine>(
    alloc: Global,
    numbers: &Synth,
    engine: &mut E,
) -> Result<Answer, AllocError>
    requires { IsSized numbers.now }
    ensures { IfOk result (Judges (AnswersSynth (E.engine engine.old) numbers.now) (spec.seeded_texts numbers.now)) }
{
    let (text, image) = synth(alloc, numbers.seed, numbers.size)?;
    let texts = one_text(alloc, text)?;
    judge_seeded(alloc, numbers, texts.as_slice(), image.as_slice(), engine)
}

/// A list of one text.
fn one_text(alloc: Global, text: Vec<u8>) -> Result<Items<Items<u8>>, AllocError>
    ensures { IfOk result (λ texts. texts ≡ text.items ∷ []) }
{
    let mut texts = Items::new(alloc);
    texts.push(Items::from_vec(text))?;
    Ok(texts)
}

/// The answer for the texts and the program.
fn judge_seeded<E: Engine>(
    alloc: Global,
    numbers: &Synth,
    texts: &[Items<u8>],
    file: &[u8],
    engine: &mut E,
) -> Result<Answer, AllocError>
    requires sized { IsSized numbers.now }
    requires few { length texts.now ≤ 64 }
    requires short { All IsShort texts.now }
    requires file { file.now ≡ spec.seeded_image numbers.now }
    ensures { IfOk result (Judges (AnswersSynth (E.engine engine.old) numbers.now) texts.now) }
{
    match engine.compile(alloc, texts, true) {
        Ok(made) => run_seeded(alloc, numbers, made, file),
        Err(ModelError::Refused(refusal)) => refuse_model(alloc, refusal),
        Err(ModelError::OutOfMemory) => Err(AllocError),
    }
}

/// The answer for the model, which is accepted so, and the program.
fn run_seeded<P: Stepper + Drop>(
    alloc: Global,
    numbers: &Synth,
    made: Compiled<P>,
    file: &[u8],
) -> Result<Answer, AllocError>
    requires sized { IsSized numbers.now }
    requires registers { HasRegisters P.meaning made.accepted.certified.core made.run }
    requires file { file.now ≡ spec.seeded_image numbers.now }
    ensures { IfOk result (λ answer. answer ≡ answer_by P.meaning (spec.seeded_front numbers.now (accepted_text made.accepted)) (spec.seeded_setup numbers.now.size) (spec.seeded_image numbers.now) made.accepted made.run) }
{
    let front = front_of(alloc, numbers, &made.accepted)?;
    let setup = setup_of(alloc, numbers.size)?;
    run_accepted(alloc, front.as_slice(), &setup, made, file)
}

/// What is told before the report.
fn front_of(alloc: Global, numbers: &Synth, made: &Accepted) -> Result<Vec<u8>, AllocError>
    ensures { IfOk result (λ front. front.items ≡ spec.seeded_front numbers.now (accepted_text made.now)) }
{
    let mut out = Vec::from_slice(alloc, b"synth ")?;
    push_integer(&mut out, numbers.seed as i128)?;
    out.extend_from_slice(b" ")?;
    push_integer(&mut out, numbers.size as i128)?;
    out.extend_from_slice(b"\n")?;
    push_counts(&mut out, made)?;
    Ok(out)
}

/// How the program of so many codes is run.
fn setup_of(alloc: Global, size: u32) -> Result<Setup, AllocError>
    requires { size ≤ 4000 }
    ensures { IfOk result (λ setup. setup ≡ spec.seeded_setup size) }
{
    let order = Items::from_slice(alloc, &[0])?;
    Ok(Setup {
        steps: size + 1,
        harts: 1,
        order,
        ram_base: 0x8000_0000,
        ram_size: 65_536,
    })
}
