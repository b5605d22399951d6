//! What operations come to.
ghost use Rattle.std.specs.Prelude.{◌≡◌, ◌∷◌, [], IfOk, slice_get};
ghost use Rattle.jib.specs.Jib as J;
ghost use Rattle.jib_values.specs.Sources.{source_values};
ghost use Rattle.jib_values.specs.Results.{MadeIs, made_of};

use crate::reading::{push_values, value_of};
use crate::rows::state_row;
use crate::typing::type_at;
use crate::working::work_out;
use builtins::row_value;
use jib::{Operation, Source, ValueType};
use mem_store::Memory;
use model_state::{Cause, State};
use sail_base::Items;
use sail_types::{Row, Value};
use std::alloc::{AllocError, Global};

/// What an operation comes to.
#[derive(Drop)]
pub enum Made {
    /// There is no result.
    Nothing,
    /// A result.
    Result(Value),
    /// A stop of the run.
    Stop(Cause),
}

/// A result, where there is one.
fn result_made(value: Option<Value>) -> Made
    ensures { result ≡ made_of value }
{
    match value {
        Some(value) => Made::Result(value),
        None => Made::Nothing,
    }
}

/// What a builtin comes to: one of the state, or one without state.
fn builtin<M: Memory>(
    alloc: Global,
    row: Row,
    hart: u8,
    values: &[Value],
    state: &mut State<M>,
) -> Result<Made, AllocError>
    ensures { IfOk result (λ made. MadeIs (J.builtin row values.now hart state.old) made state.old state.new) }
{
    match state_row(state, hart, row, values)? {
        Made::Nothing => {
            let value = row_value(alloc, row, values)?;
            Ok(result_made(value))
        }
        Made::Result(value) => Ok(Made::Result(value)),
        Made::Stop(cause) => Ok(Made::Stop(cause)),
    }
}

/// What a builtin of a source comes to. Its operand takes no memory but what its value needs.
fn call_one<M: Memory>(
    alloc: Global,
    lets: &Items<Value>,
    hart: u8,
    row: Row,
    a: &Source,
    slots: &[Value],
    state: &mut State<M>,
) -> Result<Made, AllocError>
    ensures { IfOk result (λ made. MadeIs (J.builtin row (source_values lets.now hart state.old slots.now (a.now ∷ [])) hart state.old) made
        state.old state.new) }
{
    let first = value_of(alloc, lets, hart, state, slots, a)?;
    let values = [first];
    let made = builtin(alloc, row, hart, &values, state)?;
    Ok(made)
}

/// What a builtin of two sources comes to.
fn call_two<M: Memory>(
    alloc: Global,
    lets: &Items<Value>,
    hart: u8,
    row: Row,
    a: &Source,
    b: &Source,
    slots: &[Value],
    state: &mut State<M>,
) -> Result<Made, AllocError>
    ensures { IfOk result (λ made. MadeIs (J.builtin row (source_values lets.now hart state.old slots.now (a.now ∷ b.now ∷ [])) hart state.old) made
        state.old state.new) }
{
    let first = value_of(alloc, lets, hart, state, slots, a)?;
    let second = value_of(alloc, lets, hart, state, slots, b)?;
    let values = [first, second];
    let made = builtin(alloc, row, hart, &values, state)?;
    Ok(made)
}

/// What a builtin of three sources comes to.
fn call_three<M: Memory>(
    alloc: Global,
    lets: &Items<Value>,
    hart: u8,
    row: Row,
    a: &Source,
    b: &Source,
    c: &Source,
    slots: &[Value],
    state: &mut State<M>,
) -> Result<Made, AllocError>
    ensures { IfOk result (λ made. MadeIs (J.builtin row (source_values lets.now hart state.old slots.now (a.now ∷ b.now ∷ c.now ∷ [])) hart state.old) made
        state.old state.new) }
{
    let first = value_of(alloc, lets, hart, state, slots, a)?;
    let second = value_of(alloc, lets, hart, state, slots, b)?;
    let third = value_of(alloc, lets, hart, state, slots, c)?;
    let values = [first, second, third];
    let made = builtin(alloc, row, hart, &values, state)?;
    Ok(made)
}

/// What a builtin of any count of sources comes to.
fn call_many<M: Memory>(
    alloc: Global,
    lets: &Items<Value>,
    hart: u8,
    row: Row,
    sources: &Items<Source>,
    slots: &[Value],
    state: &mut State<M>,
) -> Result<Made, AllocError>
    ensures { IfOk result (λ made. MadeIs (J.builtin row (source_values lets.now hart state.old slots.now sources.now) hart state.old) made
        state.old state.new) }
{
    let mut values = Vec::with_capacity(alloc, sources.len())?;
    push_values(alloc, lets, hart, state, slots, sources, &mut values)?;
    let made = builtin(alloc, row, hart, &values, state)?;
    Ok(made)
}

/// What a builtin comes to. Up to three operands stand in no memory of their own.
fn call<M: Memory>(
    alloc: Global,
    lets: &Items<Value>,
    hart: u8,
    row: Row,
    sources: &Items<Source>,
    slots: &[Value],
    state: &mut State<M>,
) -> Result<Made, AllocError>
    ensures { IfOk result (λ made. MadeIs (J.builtin row (source_values lets.now hart state.old slots.now sources.now) hart state.old) made
        state.old state.new) }
{
    match sources.as_slice() {
        [a] => call_one(alloc, lets, hart, row, a, slots, state),
        [a, b] => call_two(alloc, lets, hart, row, a, b, slots, state),
        [a, b, c] => call_three(alloc, lets, hart, row, a, b, c, slots, state),
        _ => call_many(alloc, lets, hart, row, sources, slots, state),
    }
}

/// What an operation comes to, for a target of this type.
pub fn operate<M: Memory>(
    alloc: Global,
    types: &Items<ValueType>,
    lets: &Items<Value>,
    hart: u8,
    typ: u32,
    operation: Operation,
    sources: &Items<Source>,
    slots: &[Value],
    state: &mut State<M>,
) -> Result<Made, AllocError>
    ensures { IfOk result (λ made. MadeIs (J.operate (slice_get types.now typ) operation (source_values lets.now
        hart state.old slots.now sources.now) hart state.old) made state.old state.new) }
{
    match operation {
        Operation::Builtin(row) => {
            let made = call(alloc, lets, hart, row, sources, slots, state)?;
            Ok(made)
        }
        _ => {
            let typ = type_at(types.as_slice(), typ);
            let value = work_out(
                alloc,
                typ,
                lets,
                hart,
                operation,
                sources.as_slice(),
                slots,
                state,
            )?;
            Ok(result_made(value))
        }
    }
}
