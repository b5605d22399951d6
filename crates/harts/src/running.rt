ghost use Rattle.std.specs.Prelude.{◌≡◌, ◌<◌, ◌+◌, ◌%◌, ◌^◌, length, All, IfOk, OnOk};
ghost use Rattle.harts.specs.Schedule.{schedule};
ghost use Rattle.model_state.specs.Folds as folds;
ghost use Rattle.model_state.specs.Folds.{Keeps, IsNotDone};

use mem_store::Memory;
use model_state::{Cause, Ended, State, Stepper};
use sail_types::Value;
use std::alloc::{AllocError, Global};

/// How a run ended.
pub struct Ending {
    /// Why it stopped.
    pub cause: Cause,
    /// How many events came before, each of them without a stop.
    pub steps: u32,
}

impl Drop for Ending {
    fn drop(self) {
        let Ending { cause: _, steps: _ } = self;
    }
}

/// Runs the events of a schedule, a list of the numbers of harts that are there, as [`run_order`] does.
pub fn run<P: Stepper, M: Memory>(
    alloc: Global,
    stepper: &mut P,
    state: &mut State<M>,
    schedule: &[u8],
) -> Result<Ending, AllocError>
    requires registers { state.old.registers ≡ (P.meaning stepper.old).registers }
    requires there { All (λ hart. hart < length state.old.harts) schedule.now }
    requires few { length schedule.now < 2 ^ 32 }
    ensures cause { IfOk result (λ ending. ending.cause ≡ (folds.run (P.meaning stepper.old) schedule.now state.old).cause) }
    ensures steps { IfOk result (λ ending. ending.steps ≡ (folds.run (P.meaning stepper.old) schedule.now state.old).steps) }
    ensures state { OnOk result (state.new ≡ (folds.run (P.meaning stepper.old) schedule.now state.old).state) }
    ensures keeps { OnOk result (Keeps state.old state.new) }
    ensures same { P.meaning stepper.new ≡ P.meaning stepper.old }
{
    run_order(alloc, stepper, state, schedule, schedule.len() as u32)
}

/// Runs so many events of the harts of an order, a list of the numbers of harts that are there, which begins
/// again as often as is needed. An event is a whole step of its hart, or nothing where the hart rests. The run
/// ends at the first stop inside an event, after an event that leaves all harts resting, or after the last
/// one. It takes no memory but the stepper's.
///
/// The one error is want of memory; the run is over then.
pub fn run_order<P: Stepper, M: Memory>(
    alloc: Global,
    stepper: &mut P,
    state: &mut State<M>,
    order: &[u8],
    events: u32,
) -> Result<Ending, AllocError>
    requires registers { state.old.registers ≡ (P.meaning stepper.old).registers }
    requires there { All (λ hart. hart < length state.old.harts) order.now }
    requires some { 0 < events → 0 < length order.now }
    ensures cause { IfOk result (λ ending. ending.cause ≡ (folds.run (P.meaning stepper.old) (schedule order.now events) state.old).cause) }
    ensures steps { IfOk result (λ ending. ending.steps ≡ (folds.run (P.meaning stepper.old) (schedule order.now events) state.old).steps) }
    ensures state { OnOk result (state.new ≡ (folds.run (P.meaning stepper.old) (schedule order.now events) state.old).state) }
    ensures keeps { OnOk result (Keeps state.old state.new) }
    ensures same { P.meaning stepper.new ≡ P.meaning stepper.old }
{
    let mut place = 0;
    for steps in 0..events {
        let hart = order[place];
        place = next_place(place, order.len());
        let ended = event(alloc, stepper, state, hart)?;
        if let Some(cause) = ended.into_stop() {
            return Ok(Ending { cause, steps });
        }
        if state.all_rest() {
            return Ok(Ending {
                cause: Cause::AllRest,
                steps: steps + 1,
            });
        }
    }
    Ok(Ending {
        cause: Cause::StepsDone,
        steps: events,
    })
}

/// The place behind one of so many, which is the first behind the last.
fn next_place(place: usize, count: usize) -> usize
    requires { place < count }
    ensures { result ≡ (place + 1) % count }
{
    if place + 1 == count { 0 } else { place + 1 }
}

/// One event of a hart that is there: nothing where it rests, else a whole step of it.
fn event<P: Stepper, M: Memory>(
    alloc: Global,
    stepper: &mut P,
    state: &mut State<M>,
    hart: u8,
) -> Result<Ended, AllocError>
    requires registers { state.old.registers ≡ (P.meaning stepper.old).registers }
    requires there { hart < length state.old.harts }
    ensures ended { IfOk result (λ ended. ended ≡ (folds.event (P.meaning stepper.old) hart state.old).ended) }
    ensures state { OnOk result (state.new ≡ (folds.event (P.meaning stepper.old) hart state.old).state) }
    ensures keeps { OnOk result (Keeps state.old state.new) }
    ensures same { P.meaning stepper.new ≡ P.meaning stepper.old }
{
    if state.rests(hart) {
        return Ok(Ended::Value(Value::Unit));
    }
    let ended = stepper.step(alloc, state, hart)?;
    rest_after(state, hart, &ended);
    Ok(ended)
}

/// Lets a hart that is there rest where its step gave `false`.
fn rest_after<M: Memory>(state: &mut State<M>, hart: u8, ended: &Ended)
    requires { hart < length state.old.harts }
    ensures { state.new ≡ folds.after_step hart ended.now state.old }
{
    if let Ended::Value(Value::Truth(false)) = ended {
        state.set_rests(hart);
    }
}
