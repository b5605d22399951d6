//! What forms owe once their parts have been walked.
ghost use Rattle.std.specs.Prelude.{◌≡◌, [], ◌∷◌, List, pos, IfOk, OnOk};
ghost use Rattle.sail_types.specs.Sums.{constant};
ghost use Rattle.sail_core.specs.declared.tree.Core.{Core};
ghost use Rattle.value_indices.specs.Walking as walk;
ghost use Rattle.value_indices.specs.declared.indices.Indices.{out-Indices};
ghost use Rattle.value_indices.specs.declared.indices.Indices.TheVariants as I;
ghost use Rattle.pattern_leaves.specs.Settings as settings;
ghost use Rattle.pattern_leaves.specs.Settings.{around_of};
ghost use Rattle.expression_steps.specs.Coded as coded;
ghost use Rattle.expression_steps.specs.Expressions as spec;
ghost use Rattle.expression_steps.specs.Statements as statement_spec;
ghost use Rattle.expression_steps.specs.Targets as target_spec;
ghost use Rattle.expression_steps.specs.Values as value_spec;

use call_arguments::{has_hole, without_holes};
use call_notes::{
    any_never, node_ended, node_given, note_numbers, note_value, owe_value, part_owed, wrong_value,
};
use expression_forms::{Reached, Spot};
use pattern_leaves::{Around, owe_exponents, written_in};
use sail_base::{Boxed, Items, Place};
use sail_core::{Counting, Written};
use sail_types::{Con, Num, Shape};
use std::alloc::{AllocError, Global};
use value_fits::{Wanted, item_fits, owe_fit};
use value_indices::{
    Indices, Reading, Walking, at_most, between, copy_each, copy_indices, copy_reading,
};
use wide_types::filled;

/// A tuple of these; none where there is no value for one of them.
fn tuple_indices(values: Items<Indices>) -> Indices
    ensures { result ≡ value_spec.tuple_indices values }
{
    if any_never(values.as_slice()) {
        Indices::Never
    } else {
        Indices::Tuple(values)
    }
}

/// The same as the node of a number makes it, which is noted. It fails where memory is wanting.
pub(crate) fn tuple_of(
    alloc: Global,
    walking: &mut Walking,
    number: u32,
    values: Items<Indices>,
) -> Result<Indices, AllocError>
    ensures value { IfOk result (λ made. made ≡ walk.got (value_spec.tuple_of number values) (walk.seen walking.old)) }
    ensures walked { OnOk result (walk.seen walking.new ≡ walk.run (value_spec.tuple_of number values) (walk.seen walking.old)) }
{
    let operands = copy_each(alloc, values.as_slice())?;
    node_ended(
        alloc,
        walking,
        number,
        operands.as_slice(),
        tuple_indices(values),
    )
}

/// The widened type of a first item of this shape: holes in it take what the shape says. It fails where memory is wanting, and where
/// variables are too many.
#[tactic(auto, using(value_indices::proofs::Walks::walks))]
pub fn filled_here(
    alloc: Global,
    walking: &mut Walking,
    around: &Around<'_>,
    shape: &Shape,
    value: &Indices,
) -> Result<Reading, AllocError>
    ensures value { IfOk result (λ made. made
        ≡ walk.got (value_spec.filled_here (around_of around.now) shape.now value.now) (walk.seen walking.old)) }
    ensures walked { OnOk result (walk.seen walking.new
        ≡ walk.run (value_spec.filled_here (around_of around.now) shape.now value.now) (walk.seen walking.old)) }
{
    let before = walking.next();
    filled(alloc, walking, around.types, before, shape, value)
}

/// Owes at a place that an item is of this type. It fails where memory is wanting, and where variables are too many.
pub fn owe_item(
    alloc: Global,
    walking: &mut Walking,
    around: &Around<'_>,
    place: Place,
    reading: &Reading,
    value: &Indices,
) -> Result<(), AllocError>
    ensures { OnOk result (walk.seen walking.new
        ≡ walk.run (value_spec.item_owed (around_of around.now) place reading.now value.now) (walk.seen walking.old)) }
{
    let wanted = Wanted::lent(reading);
    owe_value(alloc, walking, around.types, place, value, &wanted)
}

/// A vector of so many items of this type; its sizes are noted. It fails where memory is wanting.
#[tactic(auto, using(value_indices::proofs::Walks::walks))]
fn sized_vector(
    alloc: Global,
    walking: &mut Walking,
    place: Place,
    count: usize,
    reading: Reading,
) -> Result<Indices, AllocError>
    ensures value { IfOk result (λ made. made
        ≡ walk.got (value_spec.sized_vector place (constant (pos count)) reading) (walk.seen walking.old)) }
    ensures walked { OnOk result (walk.seen walking.new
        ≡ walk.run (value_spec.sized_vector place (constant (pos count)) reading) (walk.seen walking.old)) }
{
    let length = Num::constant(alloc, count as i128);
    let value = Indices::Vector(length, Boxed::new(alloc, reading)?);
    note_value(alloc, walking, place, &value)?;
    Ok(value)
}

/// A list of items of this type. It fails where memory is wanting.
pub(crate) fn list_indices(alloc: Global, reading: Reading) -> Result<Indices, AllocError>
    ensures { IfOk result (λ made. made ≡ I.List reading) }
{
    Ok(Indices::List(Boxed::new(alloc, reading)?))
}

/// A list of items of this type; its sizes are noted. It fails where memory is wanting.
#[tactic(auto, using(value_indices::proofs::Walks::walks))]
fn sized_list(
    alloc: Global,
    walking: &mut Walking,
    place: Place,
    reading: Reading,
) -> Result<Indices, AllocError>
    ensures value { IfOk result (λ made. made ≡ walk.got (value_spec.sized_list place reading) (walk.seen walking.old)) }
    ensures walked { OnOk result (walk.seen walking.new ≡ walk.run (value_spec.sized_list place reading) (walk.seen walking.old)) }
{
    let value = list_indices(alloc, reading)?;
    note_value(alloc, walking, place, &value)?;
    Ok(value)
}

/// A vector of these items, of this type, as the node of a number makes it; that and its sizes are noted. It fails where memory is wanting.
#[tactic(auto, using(value_indices::proofs::Walks::walks))]
fn vector_of(
    alloc: Global,
    walking: &mut Walking,
    place: Place,
    number: u32,
    reading: Reading,
    items: &[Indices],
) -> Result<Indices, AllocError>
    ensures value { IfOk result (λ made. made
        ≡ walk.got (value_spec.vector_of place number (reading, items.now)) (walk.seen walking.old)) }
    ensures walked { OnOk result (walk.seen walking.new
        ≡ walk.run (value_spec.vector_of place number (reading, items.now)) (walk.seen walking.old)) }
{
    let value = sized_vector(alloc, walking, place, items.len(), reading)?;
    node_ended(alloc, walking, number, items, value)
}

/// A list of these items, likewise. It fails where memory is wanting.
#[tactic(auto, using(value_indices::proofs::Walks::walks))]
fn list_of(
    alloc: Global,
    walking: &mut Walking,
    place: Place,
    number: u32,
    reading: Reading,
    items: &[Indices],
) -> Result<Indices, AllocError>
    ensures value { IfOk result (λ made. made
        ≡ walk.got (value_spec.list_of place number (reading, items.now)) (walk.seen walking.old)) }
    ensures walked { OnOk result (walk.seen walking.new
        ≡ walk.run (value_spec.list_of place number (reading, items.now)) (walk.seen walking.old)) }
{
    let value = sized_list(alloc, walking, place, reading)?;
    node_ended(alloc, walking, number, items, value)
}

/// A vector or a list of items of a type, as the node of a number makes it; that and its sizes are noted. It fails where memory is wanting.
#[tactic(auto, using(value_indices::proofs::Walks::walks))]
pub fn row_of(
    alloc: Global,
    walking: &mut Walking,
    place: Place,
    number: u32,
    is_list: bool,
    row: (Reading, Items<Indices>),
) -> Result<Indices, AllocError>
    ensures value { IfOk result (λ made. made ≡ walk.got (value_spec.row_of place number is_list row) (walk.seen walking.old)) }
    ensures walked { OnOk result (walk.seen walking.new ≡ walk.run (value_spec.row_of place number is_list row) (walk.seen walking.old)) }
{
    let (reading, items) = row;
    if is_list {
        list_of(alloc, walking, place, number, reading, items.as_slice())
    } else {
        vector_of(alloc, walking, place, number, reading, items.as_slice())
    }
}

/// The first of some values. It fails where memory is wanting.
pub fn first_item(alloc: Global, value: Indices) -> Result<Items<Indices>, AllocError>
    ensures { IfOk result (λ made. made ≡ value ∷ []) }
{
    let mut items = Items::new(alloc);
    items.push(value)?;
    Ok(items)
}

/// A list of items of this type, which an item owes at its place; of a hole in it is only what never ends. It fails where memory is
/// wanting, and where variables are too many.
#[tactic(auto, using(value_indices::proofs::Walks::walks))]
fn list_owing(
    alloc: Global,
    walking: &mut Walking,
    around: &Around<'_>,
    place: Place,
    value: &Indices,
    reading: Reading,
) -> Result<Indices, AllocError>
    ensures value { IfOk result (λ made. made
        ≡ walk.got (value_spec.list_owing (around_of around.now) place value.now reading) (walk.seen walking.old)) }
    ensures walked { OnOk result (walk.seen walking.new
        ≡ walk.run (value_spec.list_owing (around_of around.now) place value.now reading) (walk.seen walking.old)) }
{
    let allowed = without_holes(alloc, &reading)?;
    owe_item(alloc, walking, around, place, &allowed, value)?;
    list_indices(alloc, reading)
}

/// The same, where the items of a list, of the type that comes before, owe that type too. It fails where memory is wanting, and where
/// variables are too many.
#[tactic(auto, using(value_indices::proofs::Walks::walks, value_fits::proofs::Owed::owed))]
fn list_like(
    alloc: Global,
    walking: &mut Walking,
    around: &Around<'_>,
    place: Place,
    value: &Indices,
    item: &Reading,
    reading: Reading,
) -> Result<Indices, AllocError>
    ensures value { IfOk result (λ made. made
        ≡ walk.got (value_spec.list_like (around_of around.now) place value.now item.now reading) (walk.seen walking.old)) }
    ensures walked { OnOk result (walk.seen walking.new
        ≡ walk.run (value_spec.list_like (around_of around.now) place value.now item.now reading) (walk.seen walking.old)) }
{
    let allowed = without_holes(alloc, &reading)?;
    let wanted = Wanted::lent(&allowed);
    let made = item_fits(alloc, around.types, item, &wanted, walking.next())?;
    owe_fit(alloc, walking, place, made)?;
    list_owing(alloc, walking, around, place, value, reading)
}

/// An item, at its place, before the items of a list of a type that has a hole: both are of the item's type. It fails where memory is
/// wanting, and where variables are too many.
#[tactic(auto, using(value_indices::proofs::Walks::walks))]
fn cons_filled(
    alloc: Global,
    walking: &mut Walking,
    around: &Around<'_>,
    shape: &Shape,
    place: Place,
    value: &Indices,
    item: &Reading,
) -> Result<Indices, AllocError>
    ensures value { IfOk result (λ made. made
        ≡ walk.got (value_spec.cons_filled (around_of around.now) shape.now place value.now item.now) (walk.seen walking.old)) }
    ensures walked { OnOk result (walk.seen walking.new
        ≡ walk.run (value_spec.cons_filled (around_of around.now) shape.now place value.now item.now) (walk.seen walking.old)) }
{
    let reading = filled_here(alloc, walking, around, shape, value)?;
    list_like(alloc, walking, around, place, value, item, reading)
}

/// An item, at its place, before the items of a list, of this type; where that has a hole, both are of the item's type. It fails where
/// memory is wanting, and where variables are too many.
#[tactic(auto, using(value_indices::proofs::Walks::walks))]
fn cons_onto(
    alloc: Global,
    walking: &mut Walking,
    around: &Around<'_>,
    shape: &Shape,
    place: Place,
    value: &Indices,
    item: &Reading,
) -> Result<Indices, AllocError>
    ensures value { IfOk result (λ made. made
        ≡ walk.got (value_spec.cons_onto (around_of around.now) shape.now place value.now item.now) (walk.seen walking.old)) }
    ensures walked { OnOk result (walk.seen walking.new
        ≡ walk.run (value_spec.cons_onto (around_of around.now) shape.now place value.now item.now) (walk.seen walking.old)) }
{
    if has_hole(item) {
        cons_filled(alloc, walking, around, shape, place, value, item)
    } else {
        let reading = copy_reading(alloc, item)?;
        list_owing(alloc, walking, around, place, value, reading)
    }
}

/// An item, at its place, before a list. It fails where memory is wanting, and where variables are too many.
#[tactic(auto, using(value_indices::proofs::Walks::walks))]
pub(crate) fn cons_before(
    alloc: Global,
    walking: &mut Walking,
    around: &Around<'_>,
    shape: &Shape,
    place: Place,
    value: &Indices,
    list: &Indices,
) -> Result<Indices, AllocError>
    ensures value { IfOk result (λ made. made
        ≡ walk.got (value_spec.cons_before (around_of around.now) shape.now place value.now (out-Indices list.now)) (walk.seen walking.old)) }
    ensures walked { OnOk result (walk.seen walking.new
        ≡ walk.run (value_spec.cons_before (around_of around.now) shape.now place value.now (out-Indices list.now)) (walk.seen walking.old)) }
{
    match list {
        Indices::List(item) => {
            cons_onto(alloc, walking, around, shape, place, value, item.get())
        }
        Indices::Never => Ok(Indices::Never),
        _ => wrong_value(alloc, walking, place),
    }
}

/// There is no such way: what is false is owed. It fails where memory is wanting.
#[tactic(auto, using(value_indices::proofs::Walks::walks))]
pub fn no_way(
    alloc: Global,
    walking: &mut Walking,
    place: Place,
) -> Result<Option<(Option<Reached>, usize)>, AllocError>
    ensures value { IfOk result (λ made. (parts : List Core)
        → coded.taken_in parts made ≡ walk.got (value_spec.no_way place) (walk.seen walking.old)) }
    ensures walked { OnOk result (walk.seen walking.new ≡ walk.run (value_spec.no_way place) (walk.seen walking.old)) }
{
    walking.wrong(alloc, place)?;
    Ok(None)
}

/// There is no such target: what is false is owed. It fails where memory is wanting.
#[tactic(auto, using(value_indices::proofs::Walks::walks))]
pub fn no_spot(
    alloc: Global,
    walking: &mut Walking,
    place: Place,
) -> Result<Option<(Spot, usize)>, AllocError>
    ensures value { IfOk result (λ made. (around : settings.Around) (parts : List Core)
        → coded.spotted_in around parts made ≡ walk.got (target_spec.no_spot place) (walk.seen walking.old)) }
    ensures walked { OnOk result (walk.seen walking.new ≡ walk.run (target_spec.no_spot place) (walk.seen walking.old)) }
{
    walking.wrong(alloc, place)?;
    Ok(None)
}

/// A statement that no model that was resolved has there: what is false is owed, and nothing claimed. It fails where memory is wanting.
#[tactic(auto, using(value_indices::proofs::Walks::walks))]
pub fn wrong_state(
    alloc: Global,
    walking: &mut Walking,
    place: Place,
) -> Result<Option<Con>, AllocError>
    ensures value { IfOk result (λ made. made ≡ walk.got (statement_spec.wrong_state place) (walk.seen walking.old)) }
    ensures walked { OnOk result (walk.seen walking.new ≡ walk.run (statement_spec.wrong_state place) (walk.seen walking.old)) }
{
    wrong_value(alloc, walking, place)?;
    Ok(None)
}

/// The end of a node: with the numbers of the value, where it makes one. It fails where memory is wanting.
pub fn end_node(
    alloc: Global,
    walking: &mut Walking,
    number: u32,
    is_made: bool,
    value: Indices,
) -> Result<Indices, AllocError>
    ensures value { IfOk result (λ made. made ≡ walk.got (spec.node_end number is_made value) (walk.seen walking.old)) }
    ensures walked { OnOk result (walk.seen walking.new ≡ walk.run (spec.node_end number is_made value) (walk.seen walking.old)) }
{
    if is_made {
        node_given(alloc, walking, number, value)
    } else {
        Ok(value)
    }
}

/// What is thrown, as the node of a number catches it, which is noted. It fails where memory is wanting.
#[tactic(auto, using(value_indices::proofs::Walks::walks))]
pub fn catch_at(
    alloc: Global,
    walking: &mut Walking,
    number: u32,
    value: &Indices,
) -> Result<(), AllocError>
    ensures { OnOk result (walk.seen walking.new ≡ walk.run (statement_spec.caught_at number value.now) (walk.seen walking.old)) }
{
    let caught = copy_indices(alloc, value)?;
    let caught = node_ended(alloc, walking, number, &[], caught)?;
    note_numbers(alloc, walking, number, &caught)
}

/// The bounds of the variable of a `foreach` come into force. They fail where memory is wanting.
pub(crate) fn owe_counted(
    alloc: Global,
    walking: &mut Walking,
    way: Counting,
    from: Num,
    number: &Num,
    to: Num,
) -> Result<(), AllocError>
    ensures { OnOk result (walk.seen walking.new ≡ walk.run (statement_spec.counted way from number.now to) (walk.seen walking.old)) }
{
    match way {
        Counting::Up => between(alloc, walking, from, number, to),
        Counting::Down => between(alloc, walking, to, number, from),
    }
}

/// Owes that the step of a `foreach` is at least 1. It fails where memory is wanting.
pub(crate) fn owe_step(
    alloc: Global,
    walking: &mut Walking,
    place: Place,
    by: Num,
) -> Result<(), AllocError>
    ensures { OnOk result (walk.seen walking.new ≡ walk.run (statement_spec.step_owed place by) (walk.seen walking.old)) }
{
    let mut conditions = Items::new(alloc);
    conditions.push(Some(at_most(Num::constant(alloc, 1), by)))?;
    walking.owe(alloc, place, conditions)
}

/// Owes a type that is written at a value, at a place: its exponents, and then the type, unless the value owes that itself. It fails where
/// memory is wanting, and where variables are too many.
#[tactic(auto, using(value_indices::proofs::Walks::walks))]
pub(crate) fn owe_cast(
    alloc: Global,
    walking: &mut Walking,
    around: &Around<'_>,
    place: Place,
    written: &Written,
    is_nested: bool,
    value: &Indices,
) -> Result<(), AllocError>
    ensures { OnOk result (walk.seen walking.new
        ≡ walk.run (spec.cast_owed (around_of around.now) place written.now is_nested value.now) (walk.seen walking.old)) }
{
    owe_exponents(alloc, around, written.numbers.as_slice(), walking)?;
    let reading = written_in(alloc, around, written)?;
    let wanted = Wanted::lent(&reading);
    part_owed(alloc, walking, around, is_nested, place, value, &wanted)
}
