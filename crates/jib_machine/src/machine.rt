//! The machine: calls that wait stand in a list, so that a call takes no stack for those inside it.
ghost use Rattle.std.specs.Prelude.{◌≡◌, ℕ, List, ◌∷◌, ◌++◌, ◌+◌, [], IfOk, OnOk, slice_get, slice_index_or, reverse, IsTrue};
ghost use Rattle.std.specs.Option.{option_copied};
ghost use Rattle.jib.specs.Jib.{code_of, slots_of, cycle_of, called, or_stop, at, acts, entry, jib_run};
ghost use Rattle.jib.specs.Openings.{begun};
ghost use Rattle.jib.specs.Valid.{valid};
ghost use Rattle.model_state.specs.RunState.{RunState, Access};
ghost use Rattle.jib_values.specs.Sources.{filled};
ghost use Rattle.jib_machine.specs.parts.Begun.{store};
ghost use Rattle.jib_machine.specs.parts.Acts.{Acted, seen, outcome_of};
ghost use Rattle.jib_machine.specs.parts.InPlace.{DoneInPlace};
ghost use Rattle.jib_machine.specs.parts.Runs.{table_of, Along, Turned, Saved, Advanced, Finished};
ghost use Rattle.jib_machine.specs.parts.Tables.{tables_for};
ghost use Rattle.jib_machine.specs.parts.Unread.{all_needs};
ghost use Rattle.jib_machine.specs.parts.Endings.{all_may_end};

use crate::act::{Act, Current, Ending, Frame, Here, Turn};
use crate::entries::Entries;
use crate::in_place::{InPlace, in_place};
use crate::step::{act_of, first_slots};
use jib::{Instruction, Module};
use jib_values::put_slot;
use mem_store::Memory;
use model_state::{Cause, Ended, Register, State};
use sail_base::{Items, Place};
use sail_types::{Types, Value};
use std::alloc::{AllocError, Global};
use std::mem;

/// The machine of a module: its code, the values of its openings, and where its instructions may jump to.
#[derive(Drop)]
pub struct Machine {
    /// The module, which is valid.
    pub program: Module,
    /// The named types of the model.
    pub types: Types,
    /// The registers of the model, in the order of its text.
    pub registers: Items<Register>,
    /// What the model's start and its events call.
    pub entries: Entries,
    /// The values of the module's openings, as far as they are worked out.
    pub lets: Items<Value>,
    /// How the openings ended, in order; empty until all are worked out.
    pub opened: Items<Ended>,
    /// Where each instruction of each function may jump to.
    pub(crate) places: Items<Items<usize>>,
    /// Which slots of each function have to begin with the zeros of their types.
    pub(crate) needs: Items<Items<bool>>,
    pub ghost kept: { IsTrue (valid program) },
    ghost found: { places ≡ tables_for program.functions },
    ghost unread: { needs ≡ all_needs program.functions },
    ghost may_end: { IsTrue (all_may_end opened) },
}

/// The place behind a place.
fn next(at: usize) -> Result<usize, AllocError>
    ensures { IfOk result (λ n. n ≡ at + 1) }
{
    match at.checked_add(1) {
        Some(n) => Ok(n),
        None => Err(AllocError),
    }
}

/// The instruction at a place, where there is one.
fn instruction_at(code: &[Instruction], at: usize) -> Option<&Instruction>
    ensures { option_copied result ≡ slice_get code.now at }
{
    code.get(at)
}

/// Where the instruction at a place may jump to.
fn find(table: &[usize], at: usize) -> usize
    ensures { result ≡ slice_index_or table.now at 0 }
{
    match table.get(at) {
        Some(found) => *found,
        None => 0,
    }
}

impl Machine {
    fn code(&self, function: u32) -> &[Instruction]
        ensures { result.now ≡ code_of self.now.program function }
    {
        match self.program.functions.as_slice().get(function as usize) {
            Some(function) => function.code.as_slice(),
            None => &[],
        }
    }

    /// The types of a function's slots.
    pub(crate) fn slots(&self, function: u32) -> &[u32]
        ensures { result.now ≡ slots_of self.now.program function }
    {
        match self.program.functions.as_slice().get(function as usize) {
            Some(function) => function.slots.as_slice(),
            None => &[],
        }
    }

    fn table(&self, function: u32) -> &[usize]
        ensures { result.now ≡ table_of self.now.places function }
    {
        match self.places.as_slice().get(function as usize) {
            Some(table) => table.as_slice(),
            None => &[],
        }
    }

    /// Which slots of a function have to begin with the zeros of their types.
    pub(crate) fn needs(&self, function: u32) -> &[bool]
        ensures { result.now ≡ slice_index_or self.now.needs function [] }
    {
        match self.needs.as_slice().get(function as usize) {
            Some(needs) => needs.as_slice(),
            None => &[],
        }
    }

    fn cycle(&self, function: u32) -> u32
        ensures { result ≡ cycle_of self.now.program function }
    {
        match self.program.functions.as_slice().get(function as usize) {
            Some(function) => function.cycle,
            None => 0,
        }
    }

    /// How a called function compares measures: on from its caller's, where both are of one cycle.
    fn here_of(&self, caller: &Here, function: u32, place: Place) -> Here
        ensures { seen result ≡ called self.now.program (seen caller.now) function place }
    {
        let measure = if self.cycle(function) == self.cycle(caller.function) {
            caller.measure
        } else {
            None
        };
        Here {
            function,
            place,
            measure,
        }
    }

    /// Does the instruction where a call stands, or stops past the end.
    fn act_at<M: Memory>(
        &self,
        alloc: Global,
        hart: u8,
        code: &[Instruction],
        current: &mut Current,
        state: &mut State<M>,
        ticks: &mut u32,
    ) -> Result<Act, AllocError>
        requires code { code.now ≡ code_of self.now.program current.old.here.function }
        ensures acted { IfOk result (λ a. Acted self.now.program (λ xs. acts self.now.program self.now.lets hart (seen current.old.here)
            current.old.at (filled current.old.slots.items) (store state.old ticks.old xs)) a current.old.slots.items
            current.new.slots.items state.old ticks.old state.new ticks.new) }
        ensures here { current.new.here ≡ current.old.here }
        ensures at { current.new.at ≡ current.old.at }
    {
        match instruction_at(code, current.at) {
            Some(instruction) => {
                let act = act_of(
                    alloc,
                    self,
                    hart,
                    &current.here,
                    instruction,
                    &mut current.slots,
                    state,
                    ticks,
                )?;
                Ok(act)
            }
            None => Ok(Act::Over(Ending::Stopped(Cause::WorkLimit))),
        }
    }

    /// Does the instruction where a call stands, if it works in place.
    fn in_place_at<M: Memory>(
        &self,
        hart: u8,
        code: &[Instruction],
        current: &mut Current,
        state: &mut State<M>,
    ) -> InPlace
        requires code { code.now ≡ code_of self.now.program current.old.here.function }
        ensures done { DoneInPlace self.now.program (λ k xs. acts self.now.program self.now.lets hart (seen current.old.here) current.old.at
            (filled current.old.slots.items) (store state.old k xs)) result current.old.slots.items current.new.slots.items state.old state.new }
        ensures here { current.new.here ≡ current.old.here }
        ensures at { current.new.at ≡ current.old.at }
    {
        match instruction_at(code, current.at) {
            Some(instruction) => in_place(
                self,
                hart,
                &current.here,
                instruction,
                &mut current.slots,
                state,
            ),
            None => InPlace::Left,
        }
    }

    /// Runs the current function on while instructions work in place.
    fn run_in_place<M: Memory>(
        &self,
        hart: u8,
        code: &[Instruction],
        table: &[usize],
        current: &mut Current,
        state: &mut State<M>,
    ) -> Result<(), AllocError>
        requires code { code.now ≡ code_of self.now.program current.old.here.function }
        requires table { table.now ≡ table_of self.now.places current.old.here.function }
        ensures { OnOk result ((k : ℕ) → Along self.now.program self.now.lets hart current.old state.old k current.new state.new k) }
    {
        'run: loop {
            match self.in_place_at(hart, code, current, state) {
                InPlace::Next => {
                    current.at = next(current.at)?;
                }
                InPlace::Jump => {
                    current.at = find(table, current.at);
                }
                InPlace::Left => return Ok(()),
            }
        }
    }

    /// Runs the current function to its end or to a call.
    fn turn<M: Memory>(
        &self,
        alloc: Global,
        hart: u8,
        current: &mut Current,
        state: &mut State<M>,
        ticks: &mut u32,
    ) -> Result<Turn, AllocError>
        ensures { IfOk result (λ u. Turned self.now.program self.now.lets hart current.old state.old ticks.old u current.new state.new ticks.new) }
    {
        let code = self.code(current.here.function);
        let table = self.table(current.here.function);
        'run: loop {
            self.run_in_place(hart, code, table, current, state)?;
            match self.act_at(alloc, hart, code, current, state, ticks)? {
                Act::Go => {
                    current.at = next(current.at)?;
                }
                Act::Jump(_) => {
                    current.at = find(table, current.at);
                }
                Act::Sink(measure) => {
                    current.here = Here {
                        function: current.here.function,
                        place: current.here.place,
                        measure,
                    };
                    current.at = next(current.at)?;
                }
                Act::Over(ending) => return Ok(Turn::Over(ending)),
                Act::Enter(slot, function, slots, label, place) => {
                    return Ok(Turn::Enter(slot, function, slots, label, place));
                }
            }
        }
    }

    /// Goes back to the function that waits, or ends the run.
    fn back(
        &self,
        current: &mut Current,
        frames: &mut Vec<Frame>,
        ending: Ending,
    ) -> Result<Option<Ending>, AllocError>
        requires saved { Saved self.now.program (reverse frames.old.items) }
        ensures { IfOk result (λ o. (hart : ℕ) (s : RunState) (k : ℕ) → Finished self.now.program self.now.lets hart frames.old.items s k
            ending current.new frames.new.items o) }
    {
        match frames.pop() {
            None => Ok(Some(ending)),
            Some(frame) => {
                let Frame {
                    current: waiting,
                    slot,
                    label: _,
                } = frame;
                let Current { here, at, slots } = waiting;
                let mut slots = slots;
                match ending {
                    Ending::Value(value) => {
                        put_slot(&mut slots, slot, value)?;
                        current.here = here;
                        current.at = next(at)?;
                        current.slots = slots;
                        Ok(None)
                    }
                    Ending::Threw(value) => {
                        put_slot(&mut slots, 0, value)?;
                        current.here = here;
                        current.at = find(self.table(here.function), at);
                        current.slots = slots;
                        Ok(None)
                    }
                    Ending::Stopped(cause) => Ok(Some(Ending::Stopped(cause))),
                }
            }
        }
    }

    /// The call that runs waits, and the one that it makes begins.
    fn enter(
        &self,
        current: &mut Current,
        frames: &mut Vec<Frame>,
        slot: u32,
        function: u32,
        slots: Vec<Value>,
        label: u32,
        place: Place,
    ) -> Result<(), AllocError>
        ensures frames { OnOk result (frames.new.items ≡ frames.old.items ++ record { current = current.old; slot = slot; label = label } ∷ []) }
        ensures here { OnOk result (seen current.new.here ≡ called self.now.program (seen current.old.here) function place) }
        ensures at { OnOk result (current.new.at ≡ 0) }
        ensures slots { OnOk result (current.new.slots ≡ slots) }
    {
        let here = self.here_of(&current.here, function, place);
        let waiting = mem::replace(current, Current { here, at: 0, slots });
        frames.push(Frame {
            current: waiting,
            slot,
            label,
        })?;
        Ok(())
    }

    /// Runs the current function to its end or to a call, and goes on there.
    fn advance<M: Memory>(
        &self,
        alloc: Global,
        hart: u8,
        current: &mut Current,
        frames: &mut Vec<Frame>,
        state: &mut State<M>,
        ticks: &mut u32,
    ) -> Result<Option<Ending>, AllocError>
        requires saved { Saved self.now.program (reverse frames.old.items) }
        ensures { IfOk result (λ o. Advanced self.now.program self.now.lets hart current.old frames.old.items state.old ticks.old
            current.new frames.new.items state.new ticks.new o) }
    {
        match self.turn(alloc, hart, current, state, ticks)? {
            Turn::Over(ending) => {
                let ended = self.back(current, frames, ending)?;
                Ok(ended)
            }
            Turn::Enter(slot, function, slots, label, place) => {
                self.enter(current, frames, slot, function, slots, label, place)?;
                Ok(None)
            }
        }
    }

    /// Runs a function to its end.
    pub(crate) fn run<M: Memory>(
        &self,
        alloc: Global,
        state: &mut State<M>,
        hart: u8,
        function: u32,
        arguments: Vec<Value>,
        ticks: u32,
    ) -> Result<Ending, AllocError>
        ensures { IfOk result (λ e. (left : ℕ) × (accesses : List Access) × jib_run self.now.program self.now.lets hart function
            arguments.items (begun ticks state.old) (outcome_of e (store state.new left accesses))) }
    {
        let slots = first_slots(alloc, self, function, arguments)?;
        let mut frames = Vec::new(alloc);
        let mut ticks = ticks;
        let here = Here {
            function,
            place: Place {
                file: 0,
                line: 0,
                column: 0,
            },
            measure: None,
        };
        let mut current = Current { here, at: 0, slots };
        'run: loop {
            if let Some(ending) = self.advance(
                alloc,
                hart,
                &mut current,
                &mut frames,
                state,
                &mut ticks,
            )? {
                return Ok(ending);
            }
        }
    }
}
