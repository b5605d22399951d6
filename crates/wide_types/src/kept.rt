//! The widened type of a first way, of which the numbers are kept that name variables from before alone.
ghost use Rattle.std.specs.Prelude.{◌≡◌, map, slice_get, IfOk, OnOk};
ghost use Rattle.value_indices.specs.Walking as walk;
ghost use Rattle.wide_types.specs.Widening as wide;

use crate::below::{is_below, is_con_below};
use crate::shaped::variable_shapes;
use crate::spelled::spell_value;
use crate::wide::wide_typ;
use crate::widest::widest_of;
use sail_base::{Boxed, Items};
use sail_types::{Con, Index, Num, Shape, Types, copy_con, copy_num};
use std::alloc::{AllocError, Global};
use value_indices::{Indices, Naming, Reading, Walking, any_integer, any_truth, zero_num};

/// A number, or a variable for one that names a variable from that one on.
#[tactic(auto, using(value_indices::proofs::Walks::walks), unfolding(crate::specs::Widening::kept_num))]
fn kept_num(
    alloc: Global,
    walked: &mut Walking,
    before: u32,
    number: &Num,
) -> Result<Num, AllocError>
    ensures value { IfOk result (λ made. made ≡ walk.got (wide.kept_num before number.now) (walk.seen walked.old)) }
    ensures walked { OnOk result (walk.seen walked.new ≡ walk.run (wide.kept_num before number.now) (walk.seen walked.old)) }
{
    if is_below(before, number) {
        copy_num(alloc, number)
    } else {
        Num::variable(alloc, walked.fresh()?)
    }
}

/// A truth, or a variable for one that names a variable from that one on.
#[tactic(auto, using(value_indices::proofs::Walks::walks), unfolding(crate::specs::Widening::kept_con))]
fn kept_con(alloc: Global, walked: &mut Walking, before: u32, con: &Con) -> Result<Con, AllocError>
    ensures value { IfOk result (λ made. made ≡ walk.got (wide.kept_con before con.now) (walk.seen walked.old)) }
    ensures walked { OnOk result (walk.seen walked.new ≡ walk.run (wide.kept_con before con.now) (walk.seen walked.old)) }
{
    if is_con_below(before, con) {
        copy_con(alloc, con)
    } else {
        Ok(Con::Holds(walked.fresh()?))
    }
}

/// A number or a truth, or a variable for it.
#[tactic(auto, using(value_indices::proofs::Walks::walks))]
fn kept_index(
    alloc: Global,
    walked: &mut Walking,
    before: u32,
    index: &Index,
) -> Result<Index, AllocError>
    ensures value { IfOk result (λ made. made ≡ walk.got (wide.kept_index before index.now) (walk.seen walked.old)) }
    ensures walked { OnOk result (walk.seen walked.new ≡ walk.run (wide.kept_index before index.now) (walk.seen walked.old)) }
{
    match index {
        Index::Number(number) => Ok(Index::Number(kept_num(alloc, walked, before, number)?)),
        Index::Truth(con) => Ok(Index::Truth(kept_con(alloc, walked, before, con)?)),
    }
}

/// Numbers and truths, in order, or variables for them.
#[tactic(auto, using(value_indices::proofs::Walks::walks))]
fn kept_each(
    alloc: Global,
    walked: &mut Walking,
    before: u32,
    numbers: &[Index],
) -> Result<Items<Index>, AllocError>
    ensures value { IfOk result (λ made. made ≡ walk.got (wide.kept_each before numbers.now) (walk.seen walked.old)) }
    ensures walked { OnOk result (walk.seen walked.new ≡ walk.run (wide.kept_each before numbers.now) (walk.seen walked.old)) }
{
    let mut made = Items::new(alloc);
    for number in numbers {
        made.push(kept_index(alloc, walked, before, number)?)?;
    }
    Ok(made)
}

/// Any integer: opened, or for a type.
#[tactic(auto, using(value_indices::proofs::Walks::walks), unfolding(crate::specs::Widening::kept_integer))]
fn kept_integer(alloc: Global, walked: &mut Walking, opens: bool) -> Result<Indices, AllocError>
    ensures value { IfOk result (λ made. made ≡ walk.got (wide.kept_integer opens) (walk.seen walked.old)) }
    ensures walked { OnOk result (walk.seen walked.new ≡ walk.run (wide.kept_integer opens) (walk.seen walked.old)) }
{
    if opens {
        any_integer(alloc, walked, &Naming::Unnamed)
    } else {
        Ok(Indices::Integer(zero_num(alloc)))
    }
}

/// Any truth: opened, or for a type.
#[tactic(auto, using(value_indices::proofs::Walks::walks), unfolding(crate::specs::Widening::kept_truth))]
fn kept_truth(walked: &mut Walking, opens: bool) -> Result<Indices, AllocError>
    ensures value { IfOk result (λ made. made ≡ walk.got (wide.kept_truth opens) (walk.seen walked.old)) }
    ensures walked { OnOk result (walk.seen walked.new ≡ walk.run (wide.kept_truth opens) (walk.seen walked.old)) }
{
    if opens {
        any_truth(walked, &Naming::Unnamed)
    } else {
        Ok(Indices::Truth(Con::Truth(true)))
    }
}

/// The shapes of the parts of what has this shape; none where it has no parts.
pub(crate) fn part_shapes(shape: &Shape) -> &[Shape]
    ensures { result.now ≡ wide.part_shapes shape.now }
{
    match shape {
        Shape::Tuple(parts) => parts.as_slice(),
        Shape::Named(_, arguments) => arguments.as_slice(),
        _ => &[],
    }
}

/// What is kept of a value, opened or for a type. It fails where memory is wanting, and where variables are too many.
#[cycle(keep)]
fn kept_value(
    alloc: Global,
    walked: &mut Walking,
    types: &Types,
    before: u32,
    indices: &Indices,
    opens: bool,
    shape: &Shape,
) -> Result<Indices, AllocError>
    ensures value { IfOk result (λ made. made
        ≡ walk.got (wide.kept_value types.now before indices.now opens shape.now) (walk.seen walked.old)) }
    ensures walked { OnOk result (walk.seen walked.new
        ≡ walk.run (wide.kept_value types.now before indices.now opens shape.now) (walk.seen walked.old)) }
{
    match indices {
        Indices::Never => Ok(Indices::Never),
        Indices::Unit => Ok(Indices::Unit),
        Indices::Truth(_) => kept_truth(walked, opens),
        Indices::Bit => Ok(Indices::Bit),
        Indices::Bits(width) => {
            let width = kept_num(alloc, walked, before, width)?;
            Ok(Indices::Bits(width))
        }
        Indices::Integer(_) => kept_integer(alloc, walked, opens),
        Indices::String => Ok(Indices::String),
        Indices::List(item) => {
            let item = kept_item(alloc, walked, types, before, item.get(), shape)?;
            Ok(Indices::List(Boxed::new(alloc, item)?))
        }
        Indices::Vector(length, item) => {
            let length = kept_num(alloc, walked, before, length)?;
            let item = kept_item(alloc, walked, types, before, item.get(), shape)?;
            Ok(Indices::Vector(length, Boxed::new(alloc, item)?))
        }
        Indices::Tuple(parts) => {
            let shapes = part_shapes(shape);
            let parts = kept_parts(
                alloc,
                walked,
                types,
                before,
                parts.as_slice(),
                opens,
                shapes,
            )?;
            Ok(Indices::Tuple(parts))
        }
        Indices::Named(place, numbers, arguments) => {
            let shapes = part_shapes(shape);
            let numbers = kept_each(alloc, walked, before, numbers.as_slice())?;
            let arguments = kept_types(alloc, walked, types, before, arguments.as_slice(), shapes)?;
            Ok(Indices::Named(*place, numbers, arguments))
        }
        Indices::Variable(position) => Ok(Indices::Variable(*position)),
    }
}

/// What is kept of the type of the items of what has this shape.
#[cycle(keep)]
fn kept_item(
    alloc: Global,
    walked: &mut Walking,
    types: &Types,
    before: u32,
    item: &Reading,
    shape: &Shape,
) -> Result<Reading, AllocError>
    ensures value { IfOk result (λ made. made
        ≡ walk.got (wide.kept_type types.now before item.now (wide.item_shape shape.now)) (walk.seen walked.old)) }
    ensures walked { OnOk result (walk.seen walked.new
        ≡ walk.run (wide.kept_type types.now before item.now (wide.item_shape shape.now)) (walk.seen walked.old)) }
{
    match shape {
        Shape::List(inner) => kept_type(alloc, walked, types, before, item, inner.get()),
        Shape::Vector(inner) => kept_type(alloc, walked, types, before, item, inner.get()),
        _ => kept_type(alloc, walked, types, before, item, &Shape::Hole),
    }
}

/// What is kept of the parts of a tuple, by these shapes, holes where there are none.
#[cycle(keep)]
fn kept_parts(
    alloc: Global,
    walked: &mut Walking,
    types: &Types,
    before: u32,
    parts: &[Indices],
    opens: bool,
    shapes: &[Shape],
) -> Result<Items<Indices>, AllocError>
    ensures value { IfOk result (λ made. made
        ≡ walk.got (wide.each_kept (wide.opened_or_not opens (map (wide.kept_value types.now before) parts.now)) shapes.now) (walk.seen walked.old)) }
    ensures walked { OnOk result (walk.seen walked.new
        ≡ walk.run (wide.each_kept (wide.opened_or_not opens (map (wide.kept_value types.now before) parts.now)) shapes.now) (walk.seen walked.old)) }
{
    let mut made = Items::new(alloc);
    for index in 0..parts.len() {
        made.push(kept_part(
            alloc,
            walked,
            types,
            before,
            &parts[index],
            opens,
            shapes,
            index,
        )?)?;
    }
    Ok(made)
}

/// What is kept of a part, by a shape, or by a hole where there is none.
#[cycle(keep)]
fn kept_part(
    alloc: Global,
    walked: &mut Walking,
    types: &Types,
    before: u32,
    part: &Indices,
    opens: bool,
    shapes: &[Shape],
    index: usize,
) -> Result<Indices, AllocError>
    ensures value { IfOk result (λ made. made
        ≡ walk.got (wide.kept_value types.now before part.now opens (wide.shape_or_hole (slice_get shapes.now index))) (walk.seen walked.old)) }
    ensures walked { OnOk result (walk.seen walked.new
        ≡ walk.run (wide.kept_value types.now before part.now opens (wide.shape_or_hole (slice_get shapes.now index))) (walk.seen walked.old)) }
{
    match shapes.get(index) {
        None => kept_value(alloc, walked, types, before, part, opens, &Shape::Hole),
        Some(shape) => kept_value(alloc, walked, types, before, part, opens, shape),
    }
}

/// What is kept of a type, by its shape, which fills its holes. It fails where memory is wanting, and where variables are too many.
#[cycle(keep)]
fn kept_type(
    alloc: Global,
    walked: &mut Walking,
    types: &Types,
    before: u32,
    reading: &Reading,
    shape: &Shape,
) -> Result<Reading, AllocError>
    ensures value { IfOk result (λ made. made ≡ walk.got (wide.kept_type types.now before reading.now shape.now) (walk.seen walked.old)) }
    ensures walked { OnOk result (walk.seen walked.new ≡ walk.run (wide.kept_type types.now before reading.now shape.now) (walk.seen walked.old)) }
{
    match reading {
        Reading::Of(typ, numbers, arguments) => {
            let made = wide_typ(alloc, typ)?;
            let shapes = variable_shapes(alloc, typ, shape, arguments.len())?;
            let numbers = kept_each(alloc, walked, before, numbers.as_slice())?;
            let arguments = kept_types(
                alloc,
                walked,
                types,
                before,
                arguments.as_slice(),
                shapes.as_slice(),
            )?;
            Ok(Reading::Of(made, numbers, arguments))
        }
        Reading::Widened(indices) => {
            let indices = kept_value(alloc, walked, types, before, indices.get(), false, shape)?;
            Ok(Reading::Widened(Boxed::new(alloc, indices)?))
        }
        Reading::Parts(parts) => {
            let shapes = part_shapes(shape);
            let parts = kept_types(alloc, walked, types, before, parts.as_slice(), shapes)?;
            Ok(Reading::Parts(parts))
        }
        Reading::Hole => widest_of(alloc, walked, types, shape),
    }
}

/// What is kept of types, by these shapes, holes where there are none.
#[cycle(keep)]
fn kept_types(
    alloc: Global,
    walked: &mut Walking,
    types: &Types,
    before: u32,
    readings: &[Reading],
    shapes: &[Shape],
) -> Result<Items<Reading>, AllocError>
    ensures value { IfOk result (λ made. made
        ≡ walk.got (wide.each_kept (map (wide.kept_type types.now before) readings.now) shapes.now) (walk.seen walked.old)) }
    ensures walked { OnOk result (walk.seen walked.new
        ≡ walk.run (wide.each_kept (map (wide.kept_type types.now before) readings.now) shapes.now) (walk.seen walked.old)) }
{
    let mut made = Items::new(alloc);
    for index in 0..readings.len() {
        made.push(kept_argument(
            alloc,
            walked,
            types,
            before,
            &readings[index],
            shapes,
            index,
        )?)?;
    }
    Ok(made)
}

/// What is kept of a type, by the shape at an index, or by a hole where there is none.
#[cycle(keep)]
fn kept_argument(
    alloc: Global,
    walked: &mut Walking,
    types: &Types,
    before: u32,
    reading: &Reading,
    shapes: &[Shape],
    index: usize,
) -> Result<Reading, AllocError>
    ensures value { IfOk result (λ made. made
        ≡ walk.got (wide.kept_type types.now before reading.now (wide.shape_or_hole (slice_get shapes.now index))) (walk.seen walked.old)) }
    ensures walked { OnOk result (walk.seen walked.new
        ≡ walk.run (wide.kept_type types.now before reading.now (wide.shape_or_hole (slice_get shapes.now index))) (walk.seen walked.old)) }
{
    match shapes.get(index) {
        None => kept_type(alloc, walked, types, before, reading, &Shape::Hole),
        Some(shape) => kept_type(alloc, walked, types, before, reading, shape),
    }
}

/// The widened type of a first way of this shape, opened; numbers that only name variables before that one are kept, and each other is
/// a fresh one by itself. It fails where memory is wanting, and where variables are too many.
pub fn met(
    alloc: Global,
    walked: &mut Walking,
    types: &Types,
    before: u32,
    shape: &Shape,
    indices: &Indices,
) -> Result<Indices, AllocError>
    ensures value { IfOk result (λ made. made ≡ walk.got (wide.met types.now before shape.now indices.now) (walk.seen walked.old)) }
    ensures walked { OnOk result (walk.seen walked.new ≡ walk.run (wide.met types.now before shape.now indices.now) (walk.seen walked.old)) }
{
    let spelled = spell_value(alloc, indices)?;
    kept_value(alloc, walked, types, before, &spelled, true, shape)
}

/// The widened type of a first value of this shape; numbers that only name variables before that one are kept, and others are fresh.
/// It fails where memory is wanting, and where variables are too many.
#[tactic(auto, using(value_indices::proofs::Walks::walks))]
pub fn filled(
    alloc: Global,
    walked: &mut Walking,
    types: &Types,
    before: u32,
    shape: &Shape,
    indices: &Indices,
) -> Result<Reading, AllocError>
    ensures value { IfOk result (λ made. made ≡ walk.got (wide.filled types.now before shape.now indices.now) (walk.seen walked.old)) }
    ensures walked { OnOk result (walk.seen walked.new ≡ walk.run (wide.filled types.now before shape.now indices.now) (walk.seen walked.old)) }
{
    let indices = kept_value(alloc, walked, types, before, indices, false, shape)?;
    Ok(Reading::Widened(Boxed::new(alloc, indices)?))
}
