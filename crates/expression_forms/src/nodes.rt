//! Where a value comes to the type that is wanted of it.
ghost use Rattle.std.specs.Prelude.{◌≡◌, ◌∷◌, [], IfOk, OnOk};
ghost use Rattle.std.specs.Option.{option_copied};
ghost use Rattle.value_indices.specs.Walking as walk;
ghost use Rattle.value_indices.specs.declared.indices.Reading.{out-Reading};
ghost use Rattle.call_notes.specs.Noted as noted;
ghost use Rattle.expression_forms.specs.Nodes as nodes;

use call_notes::{Aim, made_by_type, made_by_value, node_given, note_numbers};
use std::alloc::{AllocError, Global};
use value_indices::{Indices, Reading, Walking};

/// The type that an expression owes itself; none where nothing is wanted, or where the form around it owes that.
fn owed_type(aim: &Aim) -> Option<&Reading>
    ensures { option_copied result ≡ nodes.owed_type aim.now }
{
    match aim {
        Aim::Due(reading) => Some(reading),
        _ => None,
    }
}

/// Notes that the node of a number makes a value of the type that is owed there, and else of these indices. It fails where memory is wanting.
fn made_for(
    alloc: Global,
    walking: &mut Walking,
    number: u32,
    owed: Option<&Reading>,
    value: &Indices,
) -> Result<(), AllocError>
    ensures { OnOk result (walk.seen walking.new ≡ walk.run (noted.node_made number (value.now ∷ [])
        (nodes.made_for (option_copied owed.entry) value.now)) (walk.seen walking.old)) }
{
    let operands = std::slice::from_ref(value);
    match owed {
        None => made_by_value(alloc, walking, number, operands, value),
        Some(reading) => made_by_type(alloc, walking, number, operands, reading),
    }
}

/// A value that comes to what is wanted of it at the node of a number, which is noted. It fails where memory is wanting.
#[tactic(auto, using(value_indices::proofs::Walks::walks))]
pub fn cast_ended(
    alloc: Global,
    walking: &mut Walking,
    number: u32,
    aim: &Aim,
    value: Indices,
) -> Result<Indices, AllocError>
    ensures value { IfOk result (λ made. made ≡ walk.got (nodes.cast_ended number aim.now value) (walk.seen walking.old)) }
    ensures walked { OnOk result (walk.seen walking.new ≡ walk.run (nodes.cast_ended number aim.now value) (walk.seen walking.old)) }
{
    made_for(alloc, walking, number, owed_type(aim), &value)?;
    Ok(value)
}

/// The same with the numbers that it gives, which are noted from here on. It fails where memory is wanting.
#[tactic(auto, using(value_indices::proofs::Walks::walks))]
pub fn cast_given(
    alloc: Global,
    walking: &mut Walking,
    number: u32,
    aim: &Aim,
    value: Indices,
) -> Result<Indices, AllocError>
    ensures value { IfOk result (λ made. made ≡ walk.got (nodes.cast_given number aim.now value) (walk.seen walking.old)) }
    ensures walked { OnOk result (walk.seen walking.new ≡ walk.run (nodes.cast_given number aim.now value) (walk.seen walking.old)) }
{
    let value = cast_ended(alloc, walking, number, aim, value)?;
    node_given(alloc, walking, number, value)
}

/// Notes that the node of a number makes a value of a type of these operands, and where that is none, of these indices. It fails where memory
/// is wanting.
fn form_made(
    alloc: Global,
    walking: &mut Walking,
    number: u32,
    operands: &[Indices],
    reading: &Reading,
    value: &Indices,
) -> Result<(), AllocError>
    ensures { OnOk result (walk.seen walking.new ≡ walk.run (noted.node_made number operands.now
        (nodes.form_made (out-Reading reading.now) reading.now value.now)) (walk.seen walking.old)) }
{
    match reading {
        Reading::Hole => made_by_value(alloc, walking, number, operands, value),
        _ => made_by_type(alloc, walking, number, operands, reading),
    }
}

/// Notes that what has a number gets a new value of a type, made of these operands, and the numbers that this gives. It fails where memory is
/// wanting.
#[tactic(auto, using(value_indices::proofs::Walks::walks))]
pub(crate) fn put(
    alloc: Global,
    walking: &mut Walking,
    number: u32,
    operands: &[Indices],
    reading: &Reading,
    value: &Indices,
) -> Result<(), AllocError>
    ensures { OnOk result (walk.seen walking.new
        ≡ walk.run (nodes.put number operands.now reading.now value.now) (walk.seen walking.old)) }
{
    form_made(alloc, walking, number, operands, reading, value)?;
    note_numbers(alloc, walking, number, value)
}
