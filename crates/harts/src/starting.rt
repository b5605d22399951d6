ghost use Rattle.std.specs.Prelude.{◌≡◌, length, IfOk, OnOk};
ghost use Rattle.std.specs.List.{range_with_len};
ghost use Rattle.model_state.specs.Folds as folds;
ghost use Rattle.model_state.specs.Folds.{Keeps};

use mem_store::Memory;
use model_state::{Cause, State, Stepper};
use std::alloc::{AllocError, Global};

/// Starts a run over a memory in which the program is placed: works out the lets and initial values, and
/// then calls `reset` of each hart in order, at the program's entry. The first stop is answered, if one
/// comes, and nothing is called behind it.
///
/// The one error is want of memory; the run is over then.
pub fn start<P: Stepper, M: Memory>(
    alloc: Global,
    stepper: &mut P,
    state: &mut State<M>,
    entry: u64,
) -> Result<Option<Cause>, AllocError>
    requires { state.old.registers ≡ (P.meaning stepper.old).registers }
    ensures stop { IfOk result (λ stop. stop ≡ (folds.start (P.meaning stepper.old) entry state.old).stop) }
    ensures state { OnOk result (state.new ≡ (folds.start (P.meaning stepper.old) entry state.old).state) }
    ensures keeps { OnOk result (Keeps state.old state.new) }
    ensures same { P.meaning stepper.new ≡ P.meaning stepper.old }
{
    let ended = stepper.init(alloc, state)?;
    match ended.into_stop() {
        Some(cause) => Ok(Some(cause)),
        None => reset_all(alloc, stepper, state, entry),
    }
}

/// Calls `reset` of each hart in order, up to the first stop.
fn reset_all<P: Stepper, M: Memory>(
    alloc: Global,
    stepper: &mut P,
    state: &mut State<M>,
    entry: u64,
) -> Result<Option<Cause>, AllocError>
    requires { state.old.registers ≡ (P.meaning stepper.old).registers }
    ensures stop { IfOk result (λ stop. stop ≡ (folds.resets (P.meaning stepper.old) entry (range_with_len 0 (length state.old.harts)) state.old).stop) }
    ensures state { OnOk result (state.new ≡ (folds.resets (P.meaning stepper.old) entry (range_with_len 0 (length state.old.harts)) state.old).state) }
    ensures keeps { OnOk result (Keeps state.old state.new) }
    ensures same { P.meaning stepper.new ≡ P.meaning stepper.old }
{
    for hart in 0..state.harts() {
        let ended = stepper.reset(alloc, state, hart, entry)?;
        if let Some(cause) = ended.into_stop() {
            return Ok(Some(cause));
        }
    }
    Ok(None)
}
