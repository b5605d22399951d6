//! Calls that are assigned to: what writes them, and what reads them as the base of a part.
ghost use Rattle.std.specs.Prelude.{◌≡◌, false, replicate, IfOk, OnOk};
ghost use Rattle.value_indices.specs.Walking as walk;
ghost use Rattle.pattern_leaves.specs.Settings.{around_of};
ghost use Rattle.expression_forms.specs.Spots as spec;

use crate::nodes::put;
use call_notes::{called, callee_types, is_closed, node_given, note_numbers, under, wrong_value};
use pattern_leaves::Around;
use sail_base::{Items, Place};
use sail_core::Caller;
use sail_types::Typ;
use std::alloc::{AllocError, Global};
use value_indices::{Indices, Reading, Walking, copy_each, copy_indices};

/// The type of a parameter, where it names no variable; no type of another one. It fails where memory is wanting, and where binders are
/// too many.
fn closed_type(alloc: Global, typ: &Typ) -> Result<Reading, AllocError>
    ensures { IfOk result (λ made. made ≡ spec.closed_type typ.now) }
{
    if is_closed(typ)? {
        under(alloc, typ, &[], &[])
    } else {
        Ok(Reading::Hole)
    }
}

/// That of the last of these. It fails where memory is wanting, and where binders are too many.
fn last_type(alloc: Global, types: &[Typ]) -> Result<Reading, AllocError>
    ensures { IfOk result (λ made. made ≡ spec.last_type types.now) }
{
    match types.last() {
        None => Ok(Reading::Hole),
        Some(typ) => closed_type(alloc, typ),
    }
}

/// What is wanted of what a call writes: the type of its last parameter. It fails where memory is wanting, and where binders are too many.
pub(crate) fn writer_type(
    alloc: Global,
    around: &Around<'_>,
    writer: &Caller,
) -> Result<Reading, AllocError>
    ensures { IfOk result (λ made. made ≡ spec.writer_type (around_of around.now) writer.now) }
{
    last_type(alloc, callee_types(around, writer.callee))
}

/// A call on these arguments; what is false is owed where there is none. It fails where memory is wanting, and where variables are too
/// many.
fn asked(
    alloc: Global,
    walking: &mut Walking,
    around: &Around<'_>,
    place: Place,
    caller: Option<Caller>,
    nested: &[bool],
    arguments: &[Indices],
) -> Result<Indices, AllocError>
    ensures value { IfOk result (λ made. made
        ≡ walk.got (spec.asked (around_of around.now) place caller nested.now arguments.now) (walk.seen walking.old)) }
    ensures walked { OnOk result (walk.seen walking.new
        ≡ walk.run (spec.asked (around_of around.now) place caller nested.now arguments.now) (walk.seen walking.old)) }
{
    match caller {
        None => wrong_value(alloc, walking, place),
        Some(caller) => called(
            alloc,
            walking,
            around,
            place,
            caller.number,
            caller.callee,
            nested,
            arguments,
        ),
    }
}

/// None of so many owe further in. It fails where memory is wanting.
fn none_nested(alloc: Global, count: usize) -> Result<Items<bool>, AllocError>
    ensures { IfOk result (λ made. made ≡ replicate count false) }
{
    let mut made = Items::new(alloc);
    for _at in 0..count {
        made.push(false)?;
    }
    Ok(made)
}

/// What a call on these arguments reads. It fails where memory is wanting, and where variables are too many.
pub(crate) fn read_call(
    alloc: Global,
    walking: &mut Walking,
    around: &Around<'_>,
    place: Place,
    reader: Option<Caller>,
    arguments: &[Indices],
) -> Result<Indices, AllocError>
    ensures value { IfOk result (λ made. made
        ≡ walk.got (spec.call_read (around_of around.now) place reader arguments.now) (walk.seen walking.old)) }
    ensures walked { OnOk result (walk.seen walking.new
        ≡ walk.run (spec.call_read (around_of around.now) place reader arguments.now) (walk.seen walking.old)) }
{
    let nested = none_nested(alloc, arguments.len())?;
    asked(
        alloc,
        walking,
        around,
        place,
        reader,
        nested.as_slice(),
        arguments,
    )
}

/// A call on these arguments and a new value behind them. It fails where memory is wanting, and where variables are too many.
fn asked_with(
    alloc: Global,
    walking: &mut Walking,
    around: &Around<'_>,
    place: Place,
    writer: Caller,
    nested: &[bool],
    arguments: &[Indices],
    is_nested: bool,
    value: &Indices,
) -> Result<Indices, AllocError>
    ensures value { IfOk result (λ made. made
        ≡ walk.got (spec.asked_with (around_of around.now) place writer nested.now arguments.now is_nested value.now) (walk.seen walking.old)) }
    ensures walked { OnOk result (walk.seen walking.new
        ≡ walk.run (spec.asked_with (around_of around.now) place writer nested.now arguments.now is_nested value.now) (walk.seen walking.old)) }
{
    let mut all_nested = Items::from_slice(alloc, nested)?;
    all_nested.push(is_nested)?;
    let mut all = copy_each(alloc, arguments)?;
    all.push(copy_indices(alloc, value)?)?;
    asked(
        alloc,
        walking,
        around,
        place,
        Some(writer),
        all_nested.as_slice(),
        all.as_slice(),
    )
}

/// The same with the numbers of what it gives, which are noted from here on. It fails where memory is wanting, and where variables are too
/// many.
#[tactic(auto, using(value_indices::proofs::Walks::walks))]
fn answered(
    alloc: Global,
    walking: &mut Walking,
    around: &Around<'_>,
    place: Place,
    writer: Caller,
    nested: &[bool],
    arguments: &[Indices],
    is_nested: bool,
    value: &Indices,
) -> Result<Indices, AllocError>
    ensures value { IfOk result (λ made. made
        ≡ walk.got (spec.answered (around_of around.now) place writer nested.now arguments.now is_nested value.now) (walk.seen walking.old)) }
    ensures walked { OnOk result (walk.seen walking.new
        ≡ walk.run (spec.answered (around_of around.now) place writer nested.now arguments.now is_nested value.now) (walk.seen walking.old)) }
{
    let answer = asked_with(
        alloc, walking, around, place, writer, nested, arguments, is_nested, value,
    )?;
    node_given(alloc, walking, writer.number, answer)
}

/// Notes the numbers of what is read by a call, if one reads. It fails where memory is wanting.
#[tactic(auto, using(value_indices::proofs::Walks::walks))]
pub(crate) fn reader_given(
    alloc: Global,
    walking: &mut Walking,
    reader: Option<Caller>,
    value: &Indices,
) -> Result<(), AllocError>
    ensures { OnOk result (walk.seen walking.new ≡ walk.run (spec.reader_given reader value.now) (walk.seen walking.old)) }
{
    match reader {
        None => Ok(()),
        Some(reader) => note_numbers(alloc, walking, reader.number, value),
    }
}

/// Writes a new value by a call, which gets it at its own number. It fails where memory is wanting, and where variables are too many.
#[tactic(auto, using(value_indices::proofs::Walks::walks))]
pub(crate) fn write_call(
    alloc: Global,
    walking: &mut Walking,
    around: &Around<'_>,
    place: Place,
    number: u32,
    writer: Caller,
    nested: &[bool],
    arguments: &[Indices],
    is_nested: bool,
    value: &Indices,
) -> Result<Indices, AllocError>
    ensures value { IfOk result (λ made. made
        ≡ walk.got (spec.call_written (around_of around.now) place number writer nested.now arguments.now is_nested value.now)
        (walk.seen walking.old)) }
    ensures walked { OnOk result (walk.seen walking.new
        ≡ walk.run (spec.call_written (around_of around.now) place number writer nested.now arguments.now is_nested value.now)
        (walk.seen walking.old)) }
{
    put(
        alloc,
        walking,
        number,
        std::slice::from_ref(value),
        &Reading::Hole,
        value,
    )?;
    answered(
        alloc, walking, around, place, writer, nested, arguments, is_nested, value,
    )
}

/// Writes it again by a call, with this value, of which a part was replaced. It fails where memory is wanting, and where variables are too
/// many.
#[tactic(auto, using(value_indices::proofs::Walks::walks))]
pub(crate) fn renew_call(
    alloc: Global,
    walking: &mut Walking,
    around: &Around<'_>,
    place: Place,
    number: u32,
    writer: Caller,
    nested: &[bool],
    arguments: &[Indices],
    value: &Indices,
) -> Result<Indices, AllocError>
    ensures value { IfOk result (λ made. made
        ≡ walk.got (spec.call_renewed (around_of around.now) place number writer nested.now arguments.now value.now) (walk.seen walking.old)) }
    ensures walked { OnOk result (walk.seen walking.new
        ≡ walk.run (spec.call_renewed (around_of around.now) place number writer nested.now arguments.now value.now) (walk.seen walking.old)) }
{
    put(alloc, walking, number, &[], &Reading::Hole, value)?;
    answered(
        alloc, walking, around, place, writer, nested, arguments, false, value,
    )
}
