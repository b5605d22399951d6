//! A run over a memory in which the image is placed.
ghost use Rattle.std.specs.Prelude.{◌≡◌, IfOk, OnOk, length};
ghost use Rattle.model_state.specs.Folds.{Keeps};
ghost use Rattle.sail_words.specs.Line.{IsWithinLimits};
ghost use Rattle.sail_top.specs.Run as spec;

use harts::{Ending, run_order, start};
use mem_store::Memory;
use model_state::{Register, Start, State, Stepper, report};
use sail_base::Items;
use sail_types::Types;
use sail_words::Setup;
use std::alloc::{AllocError, Global};

/// The named types and the registers of a model.
#[derive(Drop)]
pub struct Declared {
    /// The named types.
    pub types: Types,
    /// The registers, in the order of the text.
    pub registers: Items<Register>,
}

/// What a run of a model writes: the console's bytes and the report.
///
/// The one error is want of memory.
pub fn run_text<P: Stepper + Drop, M: Memory + Drop>(
    alloc: Global,
    setup: &Setup,
    declared: Declared,
    stepper: P,
    entry: u64,
    memory: M,
) -> Result<Vec<u8>, AllocError>
    requires limits { IsWithinLimits setup.now }
    requires registers { (P.meaning stepper).registers ≡ declared.registers }
    requires base { M.base memory ≡ setup.now.ram_base }
    ensures { IfOk result (λ text. text.items ≡ spec.run_text setup.now declared.types (P.meaning stepper) entry (M.bytes memory)) }
{
    let Declared { types, registers } = declared;
    let mut machine = stepper;
    let placed = Start::of(alloc, &memory)?;
    let mut state = State::new(alloc, types, registers, setup.harts, memory)?;
    let ending = run_from(alloc, setup, &mut machine, &mut state, entry)?;
    report(alloc, &state, &placed, &ending.cause, ending.steps)
}

/// Starts the harts of a model at an entry, and runs its events unless the start stopped.
///
/// The one error is want of memory.
fn run_from<P: Stepper, M: Memory>(
    alloc: Global,
    setup: &Setup,
    stepper: &mut P,
    state: &mut State<M>,
    entry: u64,
) -> Result<Ending, AllocError>
    requires limits { IsWithinLimits setup.now }
    requires registers { state.old.registers ≡ (P.meaning stepper.old).registers }
    requires harts { length state.old.harts ≡ setup.now.harts }
    ensures cause { IfOk result (λ ending. ending.cause ≡ (spec.end_from setup.now (P.meaning stepper.old) entry state.old).cause) }
    ensures steps { IfOk result (λ ending. ending.steps ≡ (spec.end_from setup.now (P.meaning stepper.old) entry state.old).steps) }
    ensures state { OnOk result (state.new ≡ (spec.end_from setup.now (P.meaning stepper.old) entry state.old).state) }
    ensures keeps { OnOk result (Keeps state.old state.new) }
{
    match start(alloc, stepper, state, entry)? {
        Some(cause) => Ok(Ending { cause, steps: 0 }),
        None => run_order(alloc, stepper, state, setup.order.as_slice(), setup.steps),
    }
}
