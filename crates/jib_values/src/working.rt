//! What operations other than builtins work out.
ghost use Rattle.std.specs.Prelude.{◌≡◌, ◌∷◌, [], IfOk, map};
ghost use Rattle.jib.specs.declared.code.Operation.TheVariants as O;
ghost use Rattle.std.specs.Option.{option_copied};
ghost use Rattle.jib.specs.Operations.{worked_out};
ghost use Rattle.jib_values.specs.Operands.{value_in};
ghost use Rattle.jib_values.specs.Sources.{source_values};

use crate::operands::{Operand, copies, operand_of};
use crate::parts::{
    built, cons, constructed, field, index_of, is_empty, item, rest, slice, with_field, with_item,
    with_slice,
};
use crate::reading::copied;
use jib::{Operation, Source, ValueType};
use mem_store::Memory;
use model_state::State;
use sail_base::Items;
use sail_types::Value;
use std::alloc::{AllocError, Global};

fn same(
    alloc: Global,
    typ: Option<&ValueType>,
    operands: &[Operand<'_>],
) -> Result<Option<Value>, AllocError>
    ensures { IfOk result (λ made. made ≡ worked_out (option_copied typ.entry) O.Same (map value_in operands.now)) }
{
    let _typ: Option<&ValueType> = typ;
    match operands {
        [a] => Ok(Some(copied(alloc, a.get())?)),
        _ => Ok(None),
    }
}

fn constructed_of(
    alloc: Global,
    typ: Option<&ValueType>,
    constructor: u32,
    operands: &[Operand<'_>],
) -> Result<Option<Value>, AllocError>
    ensures { IfOk result (λ made. made ≡ worked_out (option_copied typ.entry) (O.Construct constructor) (map value_in operands.now)) }
{
    match operands {
        [a] => {
            let value = copied(alloc, a.get())?;
            constructed(alloc, typ, constructor, value)
        }
        _ => Ok(None),
    }
}

fn field_of(
    alloc: Global,
    typ: Option<&ValueType>,
    place: u32,
    operands: &[Operand<'_>],
) -> Result<Option<Value>, AllocError>
    ensures { IfOk result (λ made. made ≡ worked_out (option_copied typ.entry) (O.Field place) (map value_in operands.now)) }
{
    let _typ: Option<&ValueType> = typ;
    match operands {
        [a] => field(alloc, place, a.get()),
        _ => Ok(None),
    }
}

fn with_field_of(
    alloc: Global,
    typ: Option<&ValueType>,
    place: u32,
    operands: &[Operand<'_>],
) -> Result<Option<Value>, AllocError>
    ensures { IfOk result (λ made. made ≡ worked_out (option_copied typ.entry) (O.WithField place) (map value_in operands.now)) }
{
    let _typ: Option<&ValueType> = typ;
    match operands {
        [a, x] => {
            let part = copied(alloc, x.get())?;
            with_field(alloc, place, a.get(), part)
        }
        _ => Ok(None),
    }
}

fn item_of(
    alloc: Global,
    typ: Option<&ValueType>,
    operands: &[Operand<'_>],
) -> Result<Option<Value>, AllocError>
    ensures { IfOk result (λ made. made ≡ worked_out (option_copied typ.entry) O.Item (map value_in operands.now)) }
{
    let _typ: Option<&ValueType> = typ;
    match operands {
        [a, i] => match index_of(i.get()) {
            Some(index) => item(alloc, a.get(), index),
            None => Ok(None),
        },
        _ => Ok(None),
    }
}

fn with_item_of(
    alloc: Global,
    typ: Option<&ValueType>,
    operands: &[Operand<'_>],
) -> Result<Option<Value>, AllocError>
    ensures { IfOk result (λ made. made ≡ worked_out (option_copied typ.entry) O.WithItem (map value_in operands.now)) }
{
    let _typ: Option<&ValueType> = typ;
    match operands {
        [a, i, x] => match index_of(i.get()) {
            Some(index) => {
                let value = copied(alloc, x.get())?;
                with_item(alloc, a.get(), index, value)
            }
            None => Ok(Some(copied(alloc, a.get())?)),
        },
        _ => Ok(None),
    }
}

fn slice_of(
    _alloc: Global,
    typ: Option<&ValueType>,
    operands: &[Operand<'_>],
) -> Result<Option<Value>, AllocError>
    ensures { IfOk result (λ made. made ≡ worked_out (option_copied typ.entry) O.Slice (map value_in operands.now)) }
{
    let _typ: Option<&ValueType> = typ;
    match operands {
        [a, i, j] => match (index_of(i.get()), index_of(j.get())) {
            (Some(high), Some(low)) => Ok(slice(a.get(), high, low)),
            _ => Ok(None),
        },
        _ => Ok(None),
    }
}

fn with_slice_of(
    alloc: Global,
    typ: Option<&ValueType>,
    operands: &[Operand<'_>],
) -> Result<Option<Value>, AllocError>
    ensures { IfOk result (λ made. made ≡ worked_out (option_copied typ.entry) O.WithSlice (map value_in operands.now)) }
{
    let _typ: Option<&ValueType> = typ;
    match operands {
        [a, i, j, x] => match (index_of(i.get()), index_of(j.get())) {
            (Some(high), Some(low)) => Ok(with_slice(a.get(), high, low, x.get())),
            _ => Ok(Some(copied(alloc, a.get())?)),
        },
        _ => Ok(None),
    }
}

fn cons_of(
    alloc: Global,
    typ: Option<&ValueType>,
    operands: &[Operand<'_>],
) -> Result<Option<Value>, AllocError>
    ensures { IfOk result (λ made. made ≡ worked_out (option_copied typ.entry) O.Cons (map value_in operands.now)) }
{
    let _typ: Option<&ValueType> = typ;
    match operands {
        [x, a] => {
            let first = copied(alloc, x.get())?;
            cons(alloc, first, a.get())
        }
        _ => Ok(None),
    }
}

fn rest_of(
    alloc: Global,
    typ: Option<&ValueType>,
    operands: &[Operand<'_>],
) -> Result<Option<Value>, AllocError>
    ensures { IfOk result (λ made. made ≡ worked_out (option_copied typ.entry) O.Rest (map value_in operands.now)) }
{
    let _typ: Option<&ValueType> = typ;
    match operands {
        [a] => rest(alloc, a.get()),
        _ => Ok(None),
    }
}

fn is_empty_of(
    _alloc: Global,
    typ: Option<&ValueType>,
    operands: &[Operand<'_>],
) -> Result<Option<Value>, AllocError>
    ensures { IfOk result (λ made. made ≡ worked_out (option_copied typ.entry) O.IsEmpty (map value_in operands.now)) }
{
    let _typ: Option<&ValueType> = typ;
    match operands {
        [a] => Ok(is_empty(a.get())),
        _ => Ok(None),
    }
}

fn built_of(
    alloc: Global,
    typ: Option<&ValueType>,
    operands: &[Operand<'_>],
) -> Result<Option<Value>, AllocError>
    ensures { IfOk result (λ made. made ≡ worked_out (option_copied typ.entry) O.Build (map value_in operands.now)) }
{
    let values = copies(alloc, operands)?;
    Ok(built(typ, values))
}

/// What an operation other than a builtin works out from operands, for a target of this type.
fn on_operands(
    alloc: Global,
    typ: Option<&ValueType>,
    operation: Operation,
    operands: &[Operand<'_>],
) -> Result<Option<Value>, AllocError>
    ensures { IfOk result (λ made. made ≡ worked_out (option_copied typ.entry) operation (map value_in operands.now)) }
{
    match operation {
        Operation::Builtin(_) => Ok(None),
        Operation::Same => same(alloc, typ, operands),
        Operation::Build => built_of(alloc, typ, operands),
        Operation::Construct(constructor) => constructed_of(alloc, typ, constructor, operands),
        Operation::Field(place) => field_of(alloc, typ, place, operands),
        Operation::WithField(place) => with_field_of(alloc, typ, place, operands),
        Operation::Item => item_of(alloc, typ, operands),
        Operation::WithItem => with_item_of(alloc, typ, operands),
        Operation::Slice => slice_of(alloc, typ, operands),
        Operation::WithSlice => with_slice_of(alloc, typ, operands),
        Operation::Cons => cons_of(alloc, typ, operands),
        Operation::Rest => rest_of(alloc, typ, operands),
        Operation::IsEmpty => is_empty_of(alloc, typ, operands),
    }
}

/// What an operation other than a builtin works out from a source.
fn from_one<M: Memory>(
    alloc: Global,
    typ: Option<&ValueType>,
    lets: &Items<Value>,
    hart: u8,
    operation: Operation,
    a: &Source,
    slots: &[Value],
    state: &State<M>,
) -> Result<Option<Value>, AllocError>
    ensures { IfOk result (λ made. made ≡ worked_out (option_copied typ.entry) operation (source_values lets.now hart state.now slots.now
        (a.now ∷ []))) }
{
    let first = operand_of(alloc, lets, hart, state, slots, a)?;
    let operands = [first];
    on_operands(alloc, typ, operation, &operands)
}

/// What an operation other than a builtin works out from two sources.
fn from_two<M: Memory>(
    alloc: Global,
    typ: Option<&ValueType>,
    lets: &Items<Value>,
    hart: u8,
    operation: Operation,
    a: &Source,
    b: &Source,
    slots: &[Value],
    state: &State<M>,
) -> Result<Option<Value>, AllocError>
    ensures { IfOk result (λ made. made ≡ worked_out (option_copied typ.entry) operation (source_values lets.now hart state.now slots.now
        (a.now ∷ b.now ∷ []))) }
{
    let first = operand_of(alloc, lets, hart, state, slots, a)?;
    let second = operand_of(alloc, lets, hart, state, slots, b)?;
    let operands = [first, second];
    on_operands(alloc, typ, operation, &operands)
}

/// What an operation other than a builtin works out from three sources.
fn from_three<M: Memory>(
    alloc: Global,
    typ: Option<&ValueType>,
    lets: &Items<Value>,
    hart: u8,
    operation: Operation,
    a: &Source,
    b: &Source,
    c: &Source,
    slots: &[Value],
    state: &State<M>,
) -> Result<Option<Value>, AllocError>
    ensures { IfOk result (λ made. made ≡ worked_out (option_copied typ.entry) operation (source_values lets.now hart state.now slots.now
        (a.now ∷ b.now ∷ c.now ∷ []))) }
{
    let first = operand_of(alloc, lets, hart, state, slots, a)?;
    let second = operand_of(alloc, lets, hart, state, slots, b)?;
    let third = operand_of(alloc, lets, hart, state, slots, c)?;
    let operands = [first, second, third];
    on_operands(alloc, typ, operation, &operands)
}

/// What an operation other than a builtin works out from four sources.
fn from_four<M: Memory>(
    alloc: Global,
    typ: Option<&ValueType>,
    lets: &Items<Value>,
    hart: u8,
    operation: Operation,
    a: &Source,
    b: &Source,
    c: &Source,
    d: &Source,
    slots: &[Value],
    state: &State<M>,
) -> Result<Option<Value>, AllocError>
    ensures { IfOk result (λ made. made ≡ worked_out (option_copied typ.entry) operation (source_values lets.now hart state.now slots.now
        (a.now ∷ b.now ∷ c.now ∷ d.now ∷ []))) }
{
    let first = operand_of(alloc, lets, hart, state, slots, a)?;
    let second = operand_of(alloc, lets, hart, state, slots, b)?;
    let third = operand_of(alloc, lets, hart, state, slots, c)?;
    let fourth = operand_of(alloc, lets, hart, state, slots, d)?;
    let operands = [first, second, third, fourth];
    on_operands(alloc, typ, operation, &operands)
}

/// What an operation other than a builtin works out from any count of sources.
fn from_many<M: Memory>(
    alloc: Global,
    typ: Option<&ValueType>,
    lets: &Items<Value>,
    hart: u8,
    operation: Operation,
    sources: &[Source],
    slots: &[Value],
    state: &State<M>,
) -> Result<Option<Value>, AllocError>
    ensures { IfOk result (λ made. made ≡ worked_out (option_copied typ.entry) operation (source_values lets.now hart state.now slots.now
        sources.now)) }
{
    let mut operands = Vec::with_capacity(alloc, sources.len())?;
    for source in sources {
        operands.push(operand_of(alloc, lets, hart, state, slots, source)?)?;
    }
    on_operands(alloc, typ, operation, &operands)
}

/// What an operation other than a builtin works out from sources, for a target of this type. What stands somewhere is not
/// copied, and up to four operands stand in no memory of their own.
pub fn work_out<M: Memory>(
    alloc: Global,
    typ: Option<&ValueType>,
    lets: &Items<Value>,
    hart: u8,
    operation: Operation,
    sources: &[Source],
    slots: &[Value],
    state: &State<M>,
) -> Result<Option<Value>, AllocError>
    ensures { IfOk result (λ made. made ≡ worked_out (option_copied typ.entry) operation (source_values lets.now hart state.now slots.now
        sources.now)) }
{
    match sources {
        [a] => from_one(alloc, typ, lets, hart, operation, a, slots, state),
        [a, b] => from_two(alloc, typ, lets, hart, operation, a, b, slots, state),
        [a, b, c] => from_three(alloc, typ, lets, hart, operation, a, b, c, slots, state),
        [a, b, c, d] => from_four(alloc, typ, lets, hart, operation, a, b, c, d, slots, state),
        _ => from_many(alloc, typ, lets, hart, operation, sources, slots, state),
    }
}
