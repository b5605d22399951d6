//! What instructions read and write.
ghost use Rattle.std.specs.Prelude.{◌≡◌, ◌++◌, [], IfOk, OnOk, IfSome, slice_index_or};
ghost use Rattle.sail_types.specs.declared.values.Value.TheVariants as V;
ghost use Rattle.model_state.specs.RunState.{register_value, with_register};
ghost use Rattle.jib.specs.Values.{literal_value as value_of_literal};
ghost use Rattle.jib.specs.Jib.{put};
ghost use Rattle.jib_values.specs.Sources.{filled, source_value, source_values};
ghost use Rattle.jib_values.specs.Results.{Wrote};

use jib::{Literal, Source, Target};
use mem_store::Memory;
use model_state::State;
use sail_base::Items;
use sail_types::{Value, copy_value};
use std::alloc::{AllocError, Global};
use std::mem;

/// The same value once more. It takes memory only for a string, a list and what is made of other values.
pub fn copied(alloc: Global, value: &Value) -> Result<Value, AllocError>
    ensures { IfOk result (λ copy. copy ≡ value.now) }
{
    match value {
        Value::Integer(n) => Ok(Value::Integer(*n)),
        Value::Bits(word) => Ok(Value::Bits(*word)),
        Value::Truth(truth) => Ok(Value::Truth(*truth)),
        Value::Bit(bit) => Ok(Value::Bit(*bit)),
        Value::Member(place, member) => Ok(Value::Member(*place, *member)),
        Value::Unit => Ok(Value::Unit),
        _ => copy_value(alloc, value),
    }
}

/// The value of a constant.
fn literal_value(literal: &Literal) -> Result<Value, AllocError>
    ensures { IfOk result (λ value. value ≡ value_of_literal literal.now) }
{
    match literal {
        Literal::Unit => Ok(Value::Unit),
        Literal::Integer(n) => Ok(Value::Integer(*n)),
        Literal::Truth(truth) => Ok(Value::Truth(*truth)),
        Literal::Bit(bit) => Ok(Value::Bit(*bit)),
        Literal::Bits(word) => Ok(Value::Bits(*word)),
        Literal::String(text) => Ok(Value::String(text.clone()?)),
        Literal::Member(place, member) => Ok(Value::Member(*place, *member)),
    }
}

/// The value at an index, or unit.
pub fn value_at(alloc: Global, values: &[Value], index: usize) -> Result<Value, AllocError>
    ensures { IfOk result (λ value. value ≡ slice_index_or values.now index V.Unit) }
{
    match values.get(index) {
        Some(value) => copied(alloc, value),
        None => Ok(Value::Unit),
    }
}

/// The value of a register, or unit where it isn't there.
fn register_at<M: Memory>(
    alloc: Global,
    state: &State<M>,
    hart: u8,
    index: u32,
) -> Result<Value, AllocError>
    ensures { IfOk result (λ value. value ≡ source_value [] hart state.now [] (Source.Register index)) }
{
    match state.find_register(hart, index) {
        Some(value) => copied(alloc, value),
        None => Ok(Value::Unit),
    }
}

/// The value of a source.
pub fn value_of<M: Memory>(
    alloc: Global,
    lets: &Items<Value>,
    hart: u8,
    state: &State<M>,
    slots: &[Value],
    source: &Source,
) -> Result<Value, AllocError>
    ensures { IfOk result (λ value. value ≡ source_value lets.now hart state.now slots.now source.now) }
{
    match source {
        Source::Slot(slot) => value_at(alloc, slots, *slot as usize),
        Source::Register(index) => register_at(alloc, state, hart, *index),
        Source::Let(index) => value_at(alloc, lets.as_slice(), *index as usize),
        Source::Constant(_, literal) => literal_value(literal),
    }
}

/// Puts the values of sources behind others, in order.
pub fn push_values<M: Memory>(
    alloc: Global,
    lets: &Items<Value>,
    hart: u8,
    state: &State<M>,
    slots: &[Value],
    sources: &Items<Source>,
    values: &mut Vec<Value>,
) -> Result<(), AllocError>
    ensures { OnOk result (values.new.items ≡ values.old.items ++ source_values lets.now hart state.now slots.now sources.now) }
{
    for source in sources.as_slice() {
        values.push(value_of(alloc, lets, hart, state, slots, source)?)?;
    }
    Ok(())
}

/// The value of a source where it stands in memory, without a copy; none for a constant, and where there is none.
pub fn lent<'a, M: Memory>(
    lets: &'a Items<Value>,
    hart: u8,
    state: &'a State<M>,
    slots: &'a [Value],
    source: &Source,
) -> Option<&'a Value>
    ensures { IfSome result (λ value. value.now ≡ source_value lets.now hart state.now slots.now source.now) }
{
    match source {
        Source::Slot(slot) => slots.get(*slot as usize),
        Source::Register(index) => state.find_register(hart, *index),
        Source::Let(index) => lets.as_slice().get(*index as usize),
        Source::Constant(_, _) => None,
    }
}

/// Writes a slot.
#[tactic(auto, using(crate::proofs::SlotLaws::slot_laws))]
pub fn put_slot(slots: &mut Vec<Value>, slot: u32, value: Value) -> Result<(), AllocError>
    ensures { OnOk result (filled slots.new.items ≡ put (filled slots.old.items) slot value) }
{
    let index = slot as usize;
    while slots.len() <= index {
        slots.push(Value::Unit)?;
    }
    let old = mem::replace(&mut slots[index], value);
    let_go(old);
    Ok(())
}

/// Lets a value go. Most values of a run have no memory of their own, and then nothing is called for it.
fn let_go(value: Value) {
    match &value {
        Value::Unit
        | Value::Integer(_)
        | Value::Truth(_)
        | Value::Bit(_)
        | Value::Bits(_)
        | Value::Member(_, _) => mem::forget(value),
        _ => drop(value),
    }
}

/// Writes a register of a hart, where it is there.
pub fn put_register<M: Memory>(state: &mut State<M>, hart: u8, index: u32, value: Value)
    ensures { state.new ≡ with_register hart index value state.old }
{
    if state.find_register(hart, index).is_some() {
        state.set_register(hart, index, value);
    }
}

/// Writes a target.
pub fn write<M: Memory>(
    hart: u8,
    target: Target,
    value: Value,
    slots: &mut Vec<Value>,
    state: &mut State<M>,
) -> Result<(), AllocError>
    ensures { OnOk result (Wrote hart target value slots.old.items slots.new.items state.old state.new) }
{
    match target {
        Target::Slot(slot) => put_slot(slots, slot, value),
        Target::Register(index) => {
            put_register(state, hart, index, value);
            Ok(())
        }
    }
}
