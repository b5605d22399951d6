//! What one instruction does.
ghost use Rattle.std.specs.Prelude.{◌≡◌, ℕ, List, true, IfOk, OnOk, slice_get, slice_index_or};
ghost use Rattle.sail_types.specs.declared.values.Value.{Value as AValue, out-Value};
ghost use Rattle.model_state.specs.RunState.{RunState, Access};
ghost use Rattle.jib.specs.Jib as J;
ghost use Rattle.jib.specs.declared.code.Module.{Module as AModule};
ghost use Rattle.jib.specs.Values.{zero_of};
ghost use Rattle.jib_values.specs.Sources.{filled, source_value, source_values};
ghost use Rattle.jib_machine.specs.parts.Begun.{store, BegunWhere};
ghost use Rattle.jib_machine.specs.parts.Unread.{Begins};
ghost use Rattle.jib_values.specs.Results.{Wrote, MadeIs};
ghost use Rattle.jib_machine.specs.parts.Acts.{Acted, seen};
ghost use Rattle.jib_machine.specs.declared.act.Act.TheVariants as A;

use crate::act::{Act, Ending, Here};
use crate::change::{part_of, put_part};
use crate::fitting::{fitted, zero};
use crate::machine::Machine;
use crate::zeros::is_needed_at;
use jib::{Call, Instruction, Operation, Source, Target};
use jib_values::{Made, copied, lent, operate, push_values, put_slot, value_of, write};
use mem_store::Memory;
use model_state::{Cause, State};
use sail_base::Items;
use sail_types::Value;
use std::alloc::{AllocError, Global};

/// Does one instruction.
pub fn act_of<M: Memory>(
    alloc: Global,
    machine: &Machine,
    hart: u8,
    here: &Here,
    instruction: &Instruction,
    slots: &mut Vec<Value>,
    state: &mut State<M>,
    ticks: &mut u32,
) -> Result<Act, AllocError>
    ensures { IfOk result (λ a. Acted machine.now.program (λ xs. J.act machine.now.program machine.now.lets hart (seen here.now)
        instruction.now (filled slots.old.items) (store state.old ticks.old xs)) a slots.old.items slots.new.items state.old ticks.old
        state.new ticks.new) }
{
    match instruction {
        Instruction::Copy(target, source) => {
            copy(alloc, machine, hart, *target, source, slots, state)?;
            Ok(Act::Go)
        }
        Instruction::Apply(target, operation, sources) => {
            let act = apply(
                alloc,
                machine,
                hart,
                here.function,
                *target,
                *operation,
                sources,
                slots,
                state,
            )?;
            Ok(act)
        }
        Instruction::Call(call) => {
            let slots = entry_slots(alloc, machine, hart, call, slots, state)?;
            Ok(Act::Enter(call.slot, call.function, slots, call.on_throw, call.place))
        }
        Instruction::JumpIf(source, label) => {
            if holds(alloc, machine, hart, source, slots, state)? {
                Ok(Act::Jump(*label))
            } else {
                Ok(Act::Go)
            }
        }
        Instruction::Payload(slot, source, constructor, label) => {
            match payload_of(alloc, machine, hart, source, *constructor, slots, state)? {
                Some(value) => {
                    put_slot(slots, *slot, value)?;
                    Ok(Act::Go)
                }
                None => Ok(Act::Jump(*label)),
            }
        }
        Instruction::Goto(label) => Ok(Act::Jump(*label)),
        Instruction::Label(_) => Ok(Act::Go),
        Instruction::End(source) => {
            let value = value_of(alloc, &machine.lets, hart, state, slots, source)?;
            Ok(Act::Over(Ending::Value(value)))
        }
        Instruction::Throw(source) => {
            let value = value_of(alloc, &machine.lets, hart, state, slots, source)?;
            Ok(Act::Over(Ending::Threw(value)))
        }
        Instruction::Stop(cause) => Ok(Act::Over(Ending::Stopped(copied_cause(cause)?))),
        Instruction::NoMeasure => Ok(Act::Over(Ending::Stopped(Cause::MatchFailure(here.place)))),
        Instruction::Measure(source) => {
            let value = value_of(alloc, &machine.lets, hart, state, slots, source)?;
            Ok(measured(&value, here))
        }
        Instruction::Tick => Ok(tick(ticks)),
    }
}

/// The same cause once more.
pub fn copied_cause(cause: &Cause) -> Result<Cause, AllocError>
    ensures { IfOk result (λ copy. copy ≡ cause.now) }
{
    match cause {
        Cause::StepsDone => Ok(Cause::StepsDone),
        Cause::AllRest => Ok(Cause::AllRest),
        Cause::Exit(place) => Ok(Cause::Exit(*place)),
        Cause::MatchFailure(place) => Ok(Cause::MatchFailure(*place)),
        Cause::Assertion(place, None) => Ok(Cause::Assertion(*place, None)),
        Cause::Assertion(place, Some(text)) => Ok(Cause::Assertion(*place, Some(text.clone()?))),
        Cause::Exception(name) => Ok(Cause::Exception(name.clone()?)),
        Cause::Measure(place) => Ok(Cause::Measure(*place)),
        Cause::WorkLimit => Ok(Cause::WorkLimit),
        Cause::BadAddress(address) => Ok(Cause::BadAddress(*address)),
        Cause::ConsoleFull => Ok(Cause::ConsoleFull),
    }
}

fn copy<M: Memory>(
    alloc: Global,
    machine: &Machine,
    hart: u8,
    target: Target,
    source: &Source,
    slots: &mut Vec<Value>,
    state: &mut State<M>,
) -> Result<(), AllocError>
    ensures { OnOk result (Wrote hart target (source_value machine.now.lets hart state.old slots.old.items source.now) slots.old.items
        slots.new.items state.old state.new) }
{
    let value = value_of(alloc, &machine.lets, hart, state, slots, source)?;
    write(hart, target, value, slots, state)
}

/// The type of a target of a function.
pub fn type_of(machine: &Machine, function: u32, target: Target) -> u32
    ensures { result ≡ J.type_of machine.now.program function target }
{
    match target {
        Target::Slot(slot) => number_at(machine.slots(function), slot),
        Target::Register(index) => number_at(machine.program.registers.as_slice(), index),
    }
}

/// The number at an index, or 0.
fn number_at(numbers: &[u32], index: u32) -> u32
    ensures { result ≡ slice_index_or numbers.now index 0 }
{
    match numbers.get(index as usize) {
        Some(number) => *number,
        None => 0,
    }
}

/// Works an operation out, and writes its result.
fn work_out<M: Memory>(
    alloc: Global,
    machine: &Machine,
    hart: u8,
    function: u32,
    target: Target,
    operation: Operation,
    sources: &Items<Source>,
    slots: &mut Vec<Value>,
    state: &mut State<M>,
) -> Result<Act, AllocError>
    ensures { IfOk result (λ a. (k : ℕ) → Acted machine.now.program (λ xs. J.apply machine.now.program machine.now.lets hart target
        (J.type_of machine.now.program function target) operation (source_values machine.now.lets hart state.old slots.old.items
        sources.now) (filled slots.old.items) (store state.old k xs)) a slots.old.items slots.new.items state.old k state.new k) }
{
    let typ = type_of(machine, function, target);
    match operate(
        alloc,
        &machine.program.types,
        &machine.lets,
        hart,
        typ,
        operation,
        sources,
        slots,
        state,
    )? {
        Made::Nothing => {
            let value = zero(alloc, machine, typ)?;
            write(hart, target, value, slots, state)?;
            Ok(Act::Go)
        }
        Made::Result(value) => {
            let value = fitted(alloc, machine, typ, value)?;
            write(hart, target, value, slots, state)?;
            Ok(Act::Go)
        }
        Made::Stop(cause) => Ok(Act::Over(Ending::Stopped(cause))),
    }
}

fn apply<M: Memory>(
    alloc: Global,
    machine: &Machine,
    hart: u8,
    function: u32,
    target: Target,
    operation: Operation,
    sources: &Items<Source>,
    slots: &mut Vec<Value>,
    state: &mut State<M>,
) -> Result<Act, AllocError>
    ensures { IfOk result (λ a. (k : ℕ) → Acted machine.now.program (λ xs. J.apply machine.now.program machine.now.lets hart target
        (J.type_of machine.now.program function target) operation (source_values machine.now.lets hart state.old slots.old.items
        sources.now) (filled slots.old.items) (store state.old k xs)) a slots.old.items slots.new.items state.old k state.new k) }
{
    match part_of(target, operation, sources.as_slice()) {
        Some(part) => {
            let typ = type_of(machine, function, target);
            put_part(alloc, machine, hart, typ, target, part, slots, state)?;
            Ok(Act::Go)
        }
        None => {
            let act = work_out(
                alloc, machine, hart, function, target, operation, sources, slots, state,
            )?;
            Ok(act)
        }
    }
}

/// The slots that a call begins with.
fn entry_slots<M: Memory>(
    alloc: Global,
    machine: &Machine,
    hart: u8,
    call: &Call,
    slots: &[Value],
    state: &State<M>,
) -> Result<Vec<Value>, AllocError>
    ensures { IfOk result (λ new. Begins machine.now.program call.now.function (source_values machine.now.lets hart state.now slots.now
        call.now.arguments) new.items) }
{
    let types = machine.slots(call.function);
    let mut new = Vec::with_capacity(alloc, types.len())?;
    new.push(slot_zero(alloc, machine, slot_type(types, 0))?)?;
    push_values(
        alloc,
        &machine.lets,
        hart,
        state,
        slots,
        &call.arguments,
        &mut new,
    )?;
    fill(
        alloc,
        machine,
        types,
        machine.needs(call.function),
        &mut new,
    )?;
    Ok(new)
}

/// The slots that a function begins with, handed these arguments.
pub fn first_slots(
    alloc: Global,
    machine: &Machine,
    function: u32,
    arguments: Vec<Value>,
) -> Result<Vec<Value>, AllocError>
    ensures { IfOk result (λ new. Begins machine.now.program function arguments.items new.items) }
{
    let types = machine.slots(function);
    let mut new = Vec::with_capacity(alloc, types.len())?;
    new.push(slot_zero(alloc, machine, slot_type(types, 0))?)?;
    let mut arguments = arguments;
    new.append(&mut arguments)?;
    fill(alloc, machine, types, machine.needs(function), &mut new)?;
    Ok(new)
}

/// The type of a slot, where there is one.
fn slot_type(types: &[u32], slot: usize) -> Option<u32>
    ensures { result ≡ slice_get types.now slot }
{
    types.get(slot).copied()
}

/// The zero of a slot's type, or unit where there is no slot.
fn slot_zero(alloc: Global, machine: &Machine, typ: Option<u32>) -> Result<Value, AllocError>
    ensures { IfOk result (λ value. value ≡ J.slot_zero machine.now.program.types typ) }
{
    match typ {
        Some(typ) => zero(alloc, machine, typ),
        None => Ok(Value::Unit),
    }
}

/// What a slot begins with: the zero of its type where it is needed, else unit.
fn begun_value(
    alloc: Global,
    machine: &Machine,
    types: &[u32],
    needs: &[bool],
    slot: usize,
) -> Result<Value, AllocError>
    ensures { IfOk result (λ value. slice_index_or needs.now slot true ≡ true → value ≡ J.slot_zero machine.now.program.types (slice_get
        types.now slot)) }
{
    if is_needed_at(needs, slot) {
        slot_zero(alloc, machine, slot_type(types, slot))
    } else {
        Ok(Value::Unit)
    }
}

/// Puts what the others begin with behind some slots, up to the last.
fn fill(
    alloc: Global,
    machine: &Machine,
    types: &[u32],
    needs: &[bool],
    slots: &mut Vec<Value>,
) -> Result<(), AllocError>
    ensures { OnOk result (BegunWhere machine.now.program.types types.now needs.now slots.old.items slots.new.items) }
{
    'fill: while slots.len() < types.len() {
        slots.push(begun_value(alloc, machine, types, needs, slots.len())?)?;
    }
    Ok(())
}

/// Whether a source is true.
fn holds<M: Memory>(
    alloc: Global,
    machine: &Machine,
    hart: u8,
    source: &Source,
    slots: &[Value],
    state: &State<M>,
) -> Result<bool, AllocError>
    ensures { IfOk result (λ b. b ≡ J.is_true (out-Value (source_value machine.now.lets hart state.now slots.now source.now))) }
{
    match lent(&machine.lets, hart, state, slots, source) {
        Some(value) => Ok(is_true(value)),
        None => Ok(is_true(&value_of(alloc, &machine.lets, hart, state, slots, source)?)),
    }
}

fn is_true(value: &Value) -> bool
    ensures { result ≡ J.is_true (out-Value value.now) }
{
    match value {
        Value::Truth(truth) => *truth,
        _ => false,
    }
}

/// The payload of a source of this constructor.
fn payload_of<M: Memory>(
    alloc: Global,
    machine: &Machine,
    hart: u8,
    source: &Source,
    constructor: u32,
    slots: &[Value],
    state: &State<M>,
) -> Result<Option<Value>, AllocError>
    ensures { IfOk result (λ o. o ≡ J.payload constructor (out-Value (source_value machine.now.lets hart state.now slots.now source.now))) }
{
    match lent(&machine.lets, hart, state, slots, source) {
        Some(value) => payload(alloc, value, constructor),
        None => payload(
            alloc,
            &value_of(alloc, &machine.lets, hart, state, slots, source)?,
            constructor,
        ),
    }
}

fn payload(alloc: Global, value: &Value, constructor: u32) -> Result<Option<Value>, AllocError>
    ensures { IfOk result (λ o. o ≡ J.payload constructor (out-Value value.now)) }
{
    match value {
        Value::Union(_, found, inside) => {
            if *found == constructor {
                Ok(Some(copied(alloc, inside.get())?))
            } else {
                Ok(None)
            }
        }
        _ => Ok(None),
    }
}

fn tick(ticks: &mut u32) -> Act
    ensures { (m : AModule) (slots : List AValue) (s : RunState) → Acted m (λ xs. J.tick ticks.old (filled slots) (store s ticks.old xs))
        result slots slots s ticks.old s ticks.new }
{
    if *ticks == 0 {
        return Act::Over(Ending::Stopped(Cause::WorkLimit));
    }
    *ticks -= 1;
    Act::Go
}

/// The number that a measure stands for.
fn measure_of(value: &Value) -> i128
    ensures { result ≡ J.measure_of (out-Value value.now) }
{
    match value {
        Value::Integer(n) => {
            if 0 <= *n {
                return *n;
            }
            0
        }
        _ => 0,
    }
}

/// Takes a measure, which has to be below the one before.
fn measured(value: &Value, here: &Here) -> Act
    ensures { (m : AModule) (slots : List AValue) (s : RunState) (k : ℕ) → Acted m (λ xs. J.measured (J.measure_of (out-Value value.now))
        here.now.measure here.now.place (store s k xs)) result slots slots s k s k }
{
    let z = measure_of(value);
    match here.measure {
        None => Act::Sink(Some(z)),
        Some(before) => {
            if z < before {
                return Act::Sink(Some(z));
            }
            Act::Over(Ending::Stopped(Cause::Measure(here.place)))
        }
    }
}
