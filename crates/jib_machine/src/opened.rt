//! Lets and initial values, which are worked out once; and the registers that are set to them.
ghost use Rattle.std.specs.Prelude.{◌≡◌, [], IfOk, OnOk, Some, slice_get};
ghost use Rattle.std.specs.Option.{option_copied};
ghost use Rattle.jib.specs.Openings.{Opens, initial as initial_of, value_or_zero as value_of_opening, result_in, set_all as set_in_all};
ghost use Rattle.jib_machine.specs.Events.{blank as blank_state};
ghost use Rattle.jib_machine.specs.parts.Opened.{SameModel, OpensOne};

use crate::ended::ended;
use crate::fitting::zero;
use crate::machine::Machine;
use crate::step::copied_cause;
use jib::Opening;
use jib_values::{copied, put_register};
use mem_store::{Flat, Memory};
use model_state::{Ended, State};
use sail_base::Items;
use sail_types::{Types, Value};
use std::alloc::{AllocError, Global};

/// One hart without registers, over a byte of memory.
fn blank(alloc: Global) -> Result<State<Flat>, AllocError>
    ensures { IfOk result (λ state. state ≡ blank_state) }
{
    let memory = Flat::new(alloc, 0, 1)?;
    let types = Types {
        definitions: Items::new(alloc),
    };
    let state = State::new(alloc, types, Items::new(alloc), 1, memory)?;
    Ok(state)
}

/// The type of the result of a function of the module, by its number.
fn result_of(machine: &Machine, function: u32) -> u32
    ensures { result ≡ result_in (slice_get machine.now.program.functions function) }
{
    match machine.program.functions.as_slice().get(function as usize) {
        Some(function) => function.result,
        None => 0,
    }
}

/// The value of an opening: the zero of its type where it stopped.
fn value_or_zero(
    alloc: Global,
    machine: &Machine,
    opening: Opening,
    ended: &Ended,
) -> Result<Value, AllocError>
    ensures { IfOk result (λ value. value ≡ value_of_opening machine.now.program opening ended.now) }
{
    match ended {
        Ended::Value(value) => copied(alloc, value),
        Ended::Stop(_) => zero(alloc, machine, result_of(machine, opening.function)),
    }
}

/// Works out one opening, and keeps its value.
fn work_out_one(alloc: Global, machine: &mut Machine, opening: Opening) -> Result<Ended, AllocError>
    ensures one { IfOk result (λ e. OpensOne machine.old.program machine.old.types machine.old.lets opening e machine.new.lets) }
    ensures same { OnOk result (SameModel machine.old machine.new) }
{
    let mut state = blank(alloc)?;
    let ending = machine.run(alloc, &mut state, 0, opening.function, Vec::new(alloc), 0)?;
    let ended = ended(alloc, &machine.types, ending)?;
    let value = value_or_zero(alloc, machine, opening, &ended)?;
    machine.lets.push(value)?;
    Ok(ended)
}

/// Works out openings in order, and keeps their values.
pub fn work_out(
    alloc: Global,
    machine: &mut Machine,
    openings: &[Opening],
) -> Result<Items<Ended>, AllocError>
    ensures opened { IfOk result (λ es. Opens machine.old.program machine.old.types blank_state openings.now machine.old.lets es machine.new.lets) }
    ensures same { OnOk result (SameModel machine.old machine.new) }
{
    let mut endings = Items::new(alloc);
    for opening in openings {
        let ended = work_out_one(alloc, machine, *opening)?;
        endings.push(ended)?;
    }
    Ok(endings)
}

/// Sets a register of all harts, where they have it.
fn set_each<M: Memory>(
    alloc: Global,
    state: &mut State<M>,
    index: u32,
    value: &Value,
) -> Result<(), AllocError>
    ensures { OnOk result (state.new ≡ set_in_all (Some index) value.now state.old) }
{
    for hart in 0..state.harts() {
        put_register(state, hart, index, copied(alloc, value)?);
    }
    Ok(())
}

/// Sets a register of all harts, if one is meant.
fn set_all<M: Memory>(
    alloc: Global,
    state: &mut State<M>,
    register: Option<u32>,
    value: &Value,
) -> Result<(), AllocError>
    ensures { OnOk result (state.new ≡ set_in_all register value.now state.old) }
{
    match register {
        None => Ok(()),
        Some(index) => set_each(alloc, state, index, value),
    }
}

/// How the opening at a place ended, where there is one.
fn ending_at(endings: &[Ended], place: usize) -> Option<&Ended>
    ensures { option_copied result ≡ slice_get endings.now place }
{
    endings.get(place)
}

/// Sets the registers that have initial values, in order, up to the first that stopped.
#[tactic(auto, using(crate::proofs::OpenLaws::initials))]
pub fn initial<M: Memory>(
    alloc: Global,
    machine: &Machine,
    state: &mut State<M>,
) -> Result<Ended, AllocError>
    ensures { IfOk result (λ e. record { ended = e; state = state.new; accesses = [] } ≡ initial_of machine.now.program.openings machine.now.opened state.old) }
{
    for (place, opening) in machine.program.openings.as_slice().iter().enumerate() {
        match ending_at(machine.opened.as_slice(), place) {
            None => return Ok(Ended::Value(Value::Unit)),
            Some(Ended::Value(value)) => set_all(alloc, state, opening.register, value)?,
            Some(Ended::Stop(cause)) => {
                let cause = copied_cause(cause)?;
                return Ok(Ended::Stop(cause));
            }
        }
    }
    Ok(Ended::Value(Value::Unit))
}
