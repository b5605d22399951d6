//! Calls of builtins, by the table of the builtins.
ghost use Rattle.std.specs.Prelude.{◌≡◌, IfOk, OnOk};
ghost use Rattle.value_indices.specs.Walking as walk;
ghost use Rattle.call_notes.specs.Rows as rows;

use crate::ends::{any_never, note_value, wrong_value};
use crate::numbers::{Numbers, numbers_under, owed_by, three_indices};
use crate::taken::takes;
use call_arguments::widened;
use row_types::{Outcome, Product, RowType, row_type};
use sail_base::{Boxed, Place};
use sail_types::{Con, Index, Num, Row, Shape, Types, copy_num};
use std::alloc::{AllocError, Global};
use value_indices::{
    Indices, Naming, Reading, Walking, any_truth, bits_of, bound_above, bound_below, copy_reading,
    number_or_fresh, truth_or_fresh, vector_of,
};

/// The widened type of the second argument; a hole where there is none. It fails where memory is wanting.
fn second_of(alloc: Global, arguments: &[Indices]) -> Result<Reading, AllocError>
    ensures { IfOk result (λ made. made ≡ rows.second_of arguments.now) }
{
    match arguments {
        [_, second, ..] => widened(alloc, second),
        _ => Ok(Reading::Hole),
    }
}

/// Bits of a width at a place. It fails where memory is wanting.
#[tactic(auto, using(value_indices::proofs::Walks::walks))]
fn bits_at(
    alloc: Global,
    walking: &mut Walking,
    place: Place,
    width: Num,
) -> Result<Indices, AllocError>
    ensures value { IfOk result (λ made. made ≡ walk.got (rows.bits_at place width) (walk.seen walking.old)) }
    ensures walked { OnOk result (walk.seen walking.new ≡ walk.run (rows.bits_at place width) (walk.seen walking.old)) }
{
    let made = Indices::Bits(copy_num(alloc, &width)?);
    note_value(alloc, walking, place, &made)?;
    bits_of(alloc, walking, width)
}

/// A vector of a length at a place. It fails where memory is wanting.
#[tactic(auto, using(value_indices::proofs::Walks::walks))]
fn vector_at(
    alloc: Global,
    walking: &mut Walking,
    place: Place,
    item: Reading,
    length: Num,
) -> Result<Indices, AllocError>
    ensures value { IfOk result (λ made. made ≡ walk.got (rows.vector_at place item length) (walk.seen walking.old)) }
    ensures walked { OnOk result (walk.seen walking.new ≡ walk.run (rows.vector_at place item length) (walk.seen walking.old)) }
{
    let again = copy_reading(alloc, &item)?;
    let made = Indices::Vector(copy_num(alloc, &length)?, Boxed::new(alloc, again)?);
    note_value(alloc, walking, place, &made)?;
    vector_of(alloc, walking, item, length)
}

/// An integer of which the bounds and conditions of a row are known. It fails where memory is wanting, and where variables are too many.
fn fresh_result(
    alloc: Global,
    walking: &mut Walking,
    product: Product,
    indices: &[Index],
    low: &Num,
    high: &Num,
    cons: &[Con],
) -> Result<Indices, AllocError>
    ensures value { IfOk result (λ made. made
        ≡ walk.got (rows.fresh_result product indices.now low.now high.now cons.now) (walk.seen walking.old)) }
    ensures walked { OnOk result (walk.seen walking.new
        ≡ walk.run (rows.fresh_result product indices.now low.now high.now cons.now) (walk.seen walking.old)) }
{
    let variable = walking.fresh()?;
    let number = Num::variable(alloc, variable)?;
    let numbers = numbers_under(alloc, product, indices, &number)?;
    let low = numbers.number(alloc, low)?;
    let below = copy_num(alloc, &number)?;
    let bound = bound_below(low, below);
    walking.assume_if(bound)?;
    let high = numbers.number(alloc, high)?;
    let above = copy_num(alloc, &number)?;
    let limit = bound_above(above, high);
    walking.assume_if(limit)?;
    let conditions = numbers.conditions(alloc, cons)?;
    walking.assume_all(conditions)?;
    Ok(Indices::Integer(number))
}

/// What a call gives, opened. It fails where memory is wanting, and where variables are too many.
#[tactic(auto, using(value_indices::proofs::Walks::walks))]
fn outcome(
    alloc: Global,
    walking: &mut Walking,
    place: Place,
    row: &RowType,
    indices: &[Index],
    arguments: &[Indices],
    numbers: &Numbers,
) -> Result<Indices, AllocError>
    ensures value { IfOk result (λ made. made
        ≡ walk.got (rows.outcome place row.now.product indices.now arguments.now numbers.now row.now.outcome) (walk.seen walking.old)) }
    ensures walked { OnOk result (walk.seen walking.new
        ≡ walk.run (rows.outcome place row.now.product indices.now arguments.now numbers.now row.now.outcome) (walk.seen walking.old)) }
{
    match &row.outcome {
        Outcome::Integer(number) => {
            let number = numbers.number(alloc, number)?;
            Ok(Indices::Integer(number_or_fresh(alloc, walking, number)?))
        }
        Outcome::Fresh(low, high, cons) => fresh_result(
            alloc,
            walking,
            row.product,
            indices,
            low,
            high,
            cons.as_slice(),
        ),
        Outcome::Truth(con) => {
            let truth = numbers.condition(alloc, con)?;
            Ok(Indices::Truth(truth_or_fresh(walking, truth)?))
        }
        Outcome::Bool => any_truth(walking, &Naming::Unnamed),
        Outcome::Bits(width) => {
            let width = numbers.number(alloc, width)?;
            let width = number_or_fresh(alloc, walking, width)?;
            bits_at(alloc, walking, place, width)
        }
        Outcome::Vector(length) => {
            let length = numbers.number(alloc, length)?;
            let length = number_or_fresh(alloc, walking, length)?;
            let item = second_of(alloc, arguments)?;
            vector_at(alloc, walking, place, item, length)
        }
        Outcome::String => Ok(Indices::String),
        Outcome::Unit => Ok(Indices::Unit),
    }
}

/// What the table asks of the shape of the first argument.
fn first_shape(arguments: &[Indices]) -> Shape
    ensures { result ≡ rows.first_shape arguments.now }
{
    match arguments {
        [first, ..] => argument_shape(first),
        _ => Shape::Unit,
    }
}

/// What the table asks of the shape of an argument.
fn argument_shape(value: &Indices) -> Shape
    ensures { result ≡ rows.argument_shape value.now }
{
    match value {
        Indices::Integer(_) => Shape::Int,
        Indices::Bits(_) => Shape::Bits,
        _ => Shape::Unit,
    }
}

/// What a call by a row of the table owes and gives. It fails where memory is wanting, and where variables are too many.
#[tactic(auto, using(value_indices::proofs::Walks::walks))]
fn row_under(
    alloc: Global,
    walking: &mut Walking,
    place: Place,
    row: &RowType,
    indices: &[Index],
    arguments: &[Indices],
) -> Result<Indices, AllocError>
    ensures value { IfOk result (λ made. made
        ≡ walk.got (rows.row_under place row.now indices.now arguments.now) (walk.seen walking.old)) }
    ensures walked { OnOk result (walk.seen walking.new
        ≡ walk.run (rows.row_under place row.now indices.now arguments.now) (walk.seen walking.old)) }
{
    let numbers = numbers_under(alloc, row.product, indices, &Num::constant(alloc, 0))?;
    let owed = owed_by(alloc, row.product, &numbers, row.conditions.as_slice())?;
    walking.owe(alloc, place, owed)?;
    outcome(alloc, walking, place, row, indices, arguments, &numbers)
}

/// What a call of a builtin at a place owes and gives, on arguments that it takes. It fails where memory is wanting, and where variables are
/// too many.
#[tactic(auto, using(value_indices::proofs::Walks::walks))]
fn taken_call(
    alloc: Global,
    walking: &mut Walking,
    place: Place,
    row: Row,
    arguments: &[Indices],
) -> Result<Indices, AllocError>
    ensures value { IfOk result (λ made. made ≡ walk.got (rows.taken_call place row arguments.now) (walk.seen walking.old)) }
    ensures walked { OnOk result (walk.seen walking.new ≡ walk.run (rows.taken_call place row arguments.now) (walk.seen walking.old)) }
{
    let typed = row_type(alloc, row, &first_shape(arguments))?;
    let indices = three_indices(alloc, arguments)?;
    row_under(alloc, walking, place, &typed, indices.as_slice(), arguments)
}

/// What a call of a builtin at a place owes and gives, on arguments that have been walked; of a form that it doesn't take it owes what is
/// false. It fails where memory is wanting, and where variables are too many.
#[tactic(auto, using(value_indices::proofs::Walks::walks))]
pub fn row_call(
    alloc: Global,
    walking: &mut Walking,
    types: &Types,
    place: Place,
    row: Row,
    arguments: &[Indices],
) -> Result<Indices, AllocError>
    ensures value { IfOk result (λ made. made
        ≡ walk.got (rows.row_call types.now place row arguments.now) (walk.seen walking.old)) }
    ensures walked { OnOk result (walk.seen walking.new
        ≡ walk.run (rows.row_call types.now place row arguments.now) (walk.seen walking.old)) }
{
    if any_never(arguments) {
        return Ok(Indices::Never);
    }
    if takes(alloc, types, row, arguments)? {
        return taken_call(alloc, walking, place, row, arguments);
    }
    wrong_value(alloc, walking, place)
}
