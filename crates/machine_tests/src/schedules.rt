ghost use Rattle.std.specs.Prelude.{◌≡◌, ◌<◌, [], All, IfOk, IsTrue};

use harts::{run_order, start};
use mem_store::{Flat, Memory};
use model_state::{Cause, Ended, State, Stepper};
use sail_base::{Items, Place};
use sail_types::{Types, Value};
use std::alloc::{AllocError, Global};
use std::test::Fail;

const PLACE: Place = Place {
    file: 1,
    line: 2,
    column: 3,
};

/// A model without registers, which notes what is called of it and changes no state.
#[derive(Drop)]
struct Notes {
    /// The harts below this one rest after a step.
    awake: u8,
    /// A step of this hart exits.
    exits: u8,
    /// No clause of `reset` matches for this hart.
    fails: u8,
    /// The hart and the entry of each `reset`.
    resets: Vec<(u8, u64)>,
    /// The hart of each `step`.
    steps: Vec<u8>,
}

impl Stepper for Notes {
    ghost use Rattle.std.specs.Prelude.{[], nat_eq, nat_le, if◌then◌else◌};
    ghost use Rattle.model_state.specs.Folds.{Meaning};
    ghost use Rattle.model_state.specs.declared.cause.Cause.TheVariants as cause;
    ghost use Rattle.model_state.specs.declared.cause.Ended.TheVariants as ended;
    ghost use Rattle.sail_types.specs.declared.values.Value.TheVariants as value;

    ghost meaning = { λ model. record {
      registers = [];
      init = λ s. record { ended = ended.Value value.Unit; state = s; accesses = [] };
      reset = λ h e s. record {
        ended = (if nat_eq h model.fails
            then ended.Stop (cause.MatchFailure (record { file = 1; line = 2; column = 3 }))
            else ended.Value value.Unit);
        state = s;
        accesses = [];
      };
      step = λ h s. record {
        ended = (if nat_eq h model.exits
            then ended.Stop (cause.Exit (record { file = 1; line = 2; column = 3 }))
            else ended.Value (value.Truth (nat_le model.awake h)));
        state = s;
        accesses = [];
      };
    } };

    fn init<M: Memory>(
        &mut self,
        _alloc: Global,
        _state: &mut State<M>,
    ) -> Result<Ended, AllocError> {
        Ok(Ended::Value(Value::Unit))
    }

    fn reset<M: Memory>(
        &mut self,
        _alloc: Global,
        _state: &mut State<M>,
        hart: u8,
        entry: u64,
    ) -> Result<Ended, AllocError> {
        self.resets.push((hart, entry))?;
        if hart == self.fails {
            return Ok(Ended::Stop(Cause::MatchFailure(PLACE)));
        }
        Ok(Ended::Value(Value::Unit))
    }

    fn step<M: Memory>(
        &mut self,
        _alloc: Global,
        _state: &mut State<M>,
        hart: u8,
    ) -> Result<Ended, AllocError> {
        self.steps.push(hart)?;
        if hart == self.exits {
            return Ok(Ended::Stop(Cause::Exit(PLACE)));
        }
        Ok(Ended::Value(Value::Truth(self.awake <= hart)))
    }
}

/// The count of harts; their order and the count of events; the first hart that doesn't rest after a step, and one
/// whose step exits; the cause and the count of steps; and the harts whose steps are called.
type Row = (
    u8,
    &'static [u8],
    u32,
    u8,
    u8,
    &'static str,
    u32,
    &'static [u8],
);

const ROWS: &[Row] = &[
    // an order is repeated, and may be empty where there are no events
    (
        3,
        &[1, 1, 0],
        7,
        0,
        9,
        "steps-done",
        7,
        &[1, 1, 0, 1, 1, 0, 1],
    ),
    (2, &[0, 1], 1, 0, 9, "steps-done", 1, &[0]),
    (8, &[7, 0], 3, 0, 9, "steps-done", 3, &[7, 0, 7]),
    (1, &[0], 0, 1, 0, "steps-done", 0, &[]),
    (1, &[], 0, 1, 0, "steps-done", 0, &[]),
    // an event of a hart that rests counts, but is no step
    (2, &[0, 1], 5, 1, 9, "steps-done", 5, &[0, 1, 1]),
    (2, &[0], 3, 2, 9, "steps-done", 3, &[0]),
    // all rest
    (1, &[0], 9, 1, 9, "all-rest", 1, &[0]),
    (2, &[0, 0, 1], 9, 2, 9, "all-rest", 3, &[0, 1]),
    (2, &[1, 0], 2, 2, 9, "all-rest", 2, &[1, 0]),
    (2, &[1, 0], 1, 2, 9, "steps-done", 1, &[1]),
    // an event that stops isn't counted
    (2, &[1, 0], 5, 0, 1, "exit", 0, &[1]),
    (2, &[0, 0, 1], 9, 1, 1, "exit", 2, &[0, 1]),
];

/// So many harts at the beginning.
pub fn fresh(alloc: Global, harts: u8) -> Result<State<Flat>, Fail>
    ensures { IfOk result (λ state. state.registers ≡ []) }
{
    if harts < 1 || harts > 8 {
        return Err("1 to 8 harts".into());
    }
    let memory = Flat::new(alloc, 0, 16)?;
    let types = Types {
        definitions: Items::new(alloc),
    };
    Ok(State::new(alloc, types, Items::new(alloc), harts, memory)?)
}

/// Whether each is below a count.
pub fn are_below(order: &[u8], count: u8) -> bool
    ensures { IsTrue result → All (λ hart. hart < count) order.now }
{
    order.iter().all(|hart| *hart < count)
}

/// The cause by its name.
pub fn name(cause: &Cause) -> &'static str {
    match cause {
        Cause::StepsDone => "steps-done",
        Cause::AllRest => "all-rest",
        Cause::Exit(PLACE) => "exit",
        Cause::MatchFailure(PLACE) => "match-failure",
        _ => "another",
    }
}

/// The cause and the count of steps of a run of so many harts.
fn ran(
    alloc: Global,
    notes: &mut Notes,
    harts: u8,
    order: &[u8],
    events: u32,
) -> Result<(&'static str, u32), Fail> {
    let mut state = fresh(alloc, harts)?;
    if let Some(cause) = start(alloc, notes, &mut state, 0x8000_0000)? {
        return Ok((name(&cause), 0));
    }
    if !are_below(order, state.harts()) || events > 0 && order.is_empty() {
        return Err("no such order".into());
    }
    let ending = run_order(alloc, notes, &mut state, order, events)?;
    Ok((name(&ending.cause), ending.steps))
}

#[test]
fn events_are_taken_by_the_order(rt: HostRuntime) -> Result<(), Fail> {
    let alloc = rt.alloc();
    for (harts, order, events, awake, exits, cause, steps, called) in ROWS {
        let mut notes = Notes {
            awake: *awake,
            exits: *exits,
            fails: 9,
            resets: Vec::new(alloc),
            steps: Vec::new(alloc),
        };
        let ended = ran(alloc, &mut notes, *harts, order, *events)?;
        assert!(rt;
            ended == (*cause, *steps) && notes.steps.as_slice() == *called,
            "{order:?} {events}"
        );
    }
    Ok(())
}

#[test]
fn harts_are_reset_in_order_up_to_a_stop(rt: HostRuntime) -> Result<(), Fail> {
    let alloc = rt.alloc();
    let starts = [
        (9, "steps-done", 3),
        (0, "match-failure", 1),
        (1, "match-failure", 2),
        (2, "match-failure", 3),
    ];
    for (fails, cause, count) in starts {
        let mut notes = Notes {
            awake: 0,
            exits: 9,
            fails,
            resets: Vec::new(alloc),
            steps: Vec::new(alloc),
        };
        let ended = ran(alloc, &mut notes, 3, &[0], 0)?;
        let called = [(0, 0x8000_0000), (1, 0x8000_0000), (2, 0x8000_0000)];
        assert!(rt;
            ended == (cause, 0) && Some(notes.resets.as_slice()) == called.get(..count),
            "{fails}"
        );
    }
    Ok(())
}
