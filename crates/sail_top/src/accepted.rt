//! What is answered for a model that is accepted, or refused.
ghost use Rattle.std.specs.Prelude.{◌≡◌, ◌++◌, IfOk, OnOk};
ghost use Rattle.bidir_check.specs.Printed.{certificates_text};
ghost use Rattle.elf_load.specs.Placed.{Fits};
ghost use Rattle.sail_compile.specs.Engines.{HasRegisters};
ghost use Rattle.sail_words.specs.Line.{IsWithinLimits};
ghost use Rattle.sail_top.specs.Answer as spec;

use crate::lines::{elf_line, refusal_line};
use crate::run::{Declared, run_text};
use crate::status::{Answer, Status};
use crate::wanted::wanted_machine;
use elf_load::{ElfError, Image, place, read_elf};
use mem_store::{Flat, Memory};
use model_state::Stepper;
use sail_base::{ElfRefusal, Items, Refusal};
use sail_compile::{Accepted, Compiled, Running, outside};
use sail_core::CoreModel;
use sail_types::push_integer;
use sail_words::Setup;
use std::alloc::{AllocError, Global};

/// The answer of `check` for an accepted model.
pub fn tell_counts(alloc: Global, made: Accepted) -> Result<Answer, AllocError>
    ensures { IfOk result (λ answer. answer ≡ spec.told (spec.accepted_text made)) }
{
    let mut bytes = Vec::new(alloc);
    push_counts(&mut bytes, &made)?;
    Ok(told(bytes))
}

/// Puts how many functions, obligations and instances an accepted model has. The one error is want of memory.
pub fn push_counts(out: &mut Vec<u8>, made: &Accepted) -> Result<(), AllocError>
    ensures { OnOk result (out.new.items ≡ out.old.items ++ spec.accepted_text made.now) }
{
    made.certified.push_counts(out)?;
    out.extend_from_slice(b" ")?;
    push_integer(out, made.instances.len() as i128)?;
    out.extend_from_slice(b" instances\n")
}

/// The answer of `certs` for an accepted model.
pub fn tell_certificates(alloc: Global, made: Accepted) -> Result<Answer, AllocError>
    ensures { IfOk result (λ answer. answer ≡ spec.told (certificates_text made.certified)) }
{
    let mut bytes = Vec::new(alloc);
    made.certified.push_certificates(&mut bytes)?;
    Ok(told(bytes))
}

/// The answer that is a text.
fn told(bytes: Vec<u8>) -> Answer
    ensures { result ≡ spec.told bytes.items }
{
    Answer {
        status: Status::Done,
        bytes: Items::from_vec(bytes),
    }
}

/// The answer for an accepted model and a program's file that are to be run; a front is told before the run. A model that the engine leaves is refused.
pub fn run_accepted<P: Stepper + Drop>(
    alloc: Global,
    front: &[u8],
    setup: &Setup,
    made: Compiled<P>,
    file: &[u8],
) -> Result<Answer, AllocError>
    requires limits { IsWithinLimits setup.now }
    requires registers { HasRegisters P.meaning made.accepted.certified.core made.run }
    ensures { IfOk result (λ answer. answer ≡ spec.answer_by P.meaning front.now setup.now file.now made.accepted made.run) }
{
    let Compiled { accepted, run } = made;
    match run {
        Running::Runs(stepper) => {
            let wanted = machine_of(&accepted);
            let declared = declared_of(accepted);
            judge_file(alloc, front, setup, declared, wanted, stepper, file)
        }
        Running::NotRun => refuse_model(alloc, outside(alloc)?),
        Running::NotWanted => refuse_model(alloc, outside(alloc)?),
    }
}

/// The machine that an accepted model is for, if it names one.
fn machine_of(made: &Accepted) -> Option<i128>
    ensures { result ≡ spec.machine_of made.now }
{
    wanted_machine(made.certified.core().openings.as_slice())
}

/// The named types and the registers of an accepted model.
fn declared_of(accepted: Accepted) -> Declared
    ensures types { result.types ≡ accepted.certified.core.types }
    ensures registers { result.registers ≡ accepted.certified.core.registers }
{
    let Accepted {
        certified,
        instances: _,
    } = accepted;
    let CoreModel {
        types,
        exception: _,
        registers,
        register_texts: _,
        functions: _,
        directions: _,
        openings: _,
        reset: _,
        step: _,
    } = certified.into_core();
    Declared { types, registers }
}

/// The answer for a model and a program's file, which has to be for the machine that is wanted, if one is.
fn judge_file<P: Stepper + Drop>(
    alloc: Global,
    front: &[u8],
    setup: &Setup,
    declared: Declared,
    wanted: Option<i128>,
    stepper: P,
    file: &[u8],
) -> Result<Answer, AllocError>
    requires limits { IsWithinLimits setup.now }
    requires registers { (P.meaning stepper).registers ≡ declared.registers }
    ensures { IfOk result (λ answer. answer ≡ spec.answer_for front.now setup.now declared.types wanted (P.meaning stepper) file.now) }
{
    match read_elf(alloc, file, wanted) {
        Ok(image) => judge_image(alloc, front, setup, declared, stepper, &image),
        Err(ElfError::Refused(refusal)) => refuse_image(alloc, refusal),
        Err(ElfError::OutOfMemory) => Err(AllocError),
    }
}

/// The answer for a model and an image.
fn judge_image<P: Stepper + Drop>(
    alloc: Global,
    front: &[u8],
    setup: &Setup,
    declared: Declared,
    stepper: P,
    image: &Image,
) -> Result<Answer, AllocError>
    requires limits { IsWithinLimits setup.now }
    requires registers { (P.meaning stepper).registers ≡ declared.registers }
    requires fits { Fits image.now }
    ensures { IfOk result (λ answer. answer ≡ spec.image_answer front.now setup.now declared.types (P.meaning stepper) image.now) }
{
    let mut memory = Flat::new(alloc, setup.ram_base, setup.ram_size)?;
    match place(image, &mut memory) {
        Ok(()) => run_model(alloc, front, setup, declared, stepper, image.entry, memory),
        Err(refusal) => refuse_image(alloc, refusal),
    }
}

/// The answer where the models are refused.
pub fn refuse_model(alloc: Global, refusal: Refusal) -> Result<Answer, AllocError>
    ensures { IfOk result (λ answer. answer ≡ spec.model_refused refusal) }
{
    let bytes = Items::from_vec(refusal_line(alloc, &refusal)?);
    Ok(Answer {
        status: Status::ModelRefused(refusal),
        bytes,
    })
}

/// The answer where the program's file is refused.
fn refuse_image(alloc: Global, refusal: ElfRefusal) -> Result<Answer, AllocError>
    ensures { IfOk result (λ answer. answer ≡ spec.image_refused refusal) }
{
    let bytes = Items::from_vec(elf_line(alloc, refusal)?);
    Ok(Answer {
        status: Status::ElfRefused(refusal),
        bytes,
    })
}

/// The answer of a run over a memory in which the image is placed, behind what is told before it.
fn run_model<P: Stepper + Drop>(
    alloc: Global,
    front: &[u8],
    setup: &Setup,
    declared: Declared,
    stepper: P,
    entry: u64,
    memory: Flat,
) -> Result<Answer, AllocError>
    requires limits { IsWithinLimits setup.now }
    requires registers { (P.meaning stepper).registers ≡ declared.registers }
    requires base { ⟦<Flat as Memory>⟧.base memory ≡ setup.now.ram_base }
    ensures { IfOk result (λ answer. answer
        ≡ spec.done front.now setup.now declared.types (P.meaning stepper) entry (⟦<Flat as Memory>⟧.bytes memory)) }
{
    let text = run_text(alloc, setup, declared, stepper, entry, memory)?;
    let mut bytes = Vec::from_slice(alloc, front)?;
    bytes.extend_from_slice(text.as_slice())?;
    Ok(told(bytes))
}
