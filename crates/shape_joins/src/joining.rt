//! The one shape that two are.
ghost use Rattle.std.specs.Prelude.{◌≡◌, IfOk, map};
ghost use Rattle.shape_joins.specs.Joins.{join, join_all, keep_all, list_of, vector_of, tuple_of, named_of};

use sail_base::{Boxed, Items};
use sail_types::{Shape, copy_shape};
use std::alloc::{AllocError, Global};

/// The one shape that two are, holes filled from either; none where they differ. It fails where memory is
/// wanting.
#[cycle(join)]
pub fn join_shapes(alloc: Global, shape: &Shape, other: &Shape) -> Result<Option<Shape>, AllocError>
    ensures { IfOk result (λ joined. joined ≡ join shape.now other.now) }
{
    match (shape, other) {
        (Shape::Never, _) => Ok(Some(copy_shape(alloc, other)?)),
        (Shape::Hole, Shape::Never) => Ok(Some(Shape::Hole)),
        (Shape::Hole, _) => Ok(Some(copy_shape(alloc, other)?)),
        (Shape::Unit, Shape::Unit | Shape::Hole | Shape::Never) => Ok(Some(Shape::Unit)),
        (Shape::Bool, Shape::Bool | Shape::Hole | Shape::Never) => Ok(Some(Shape::Bool)),
        (Shape::Bit, Shape::Bit | Shape::Hole | Shape::Never) => Ok(Some(Shape::Bit)),
        (Shape::Bits, Shape::Bits | Shape::Hole | Shape::Never) => Ok(Some(Shape::Bits)),
        (Shape::Int, Shape::Int | Shape::Hole | Shape::Never) => Ok(Some(Shape::Int)),
        (Shape::String, Shape::String | Shape::Hole | Shape::Never) => Ok(Some(Shape::String)),
        (Shape::List(item), Shape::List(other)) => join_lists(alloc, item.get(), other.get()),
        (Shape::List(item), Shape::Hole | Shape::Never) => join_lists(
            alloc,
            item.get(),
            &Shape::Never,
        ),
        (Shape::Vector(item), Shape::Vector(other)) => join_vectors(alloc, item.get(), other.get()),
        (Shape::Vector(item), Shape::Hole | Shape::Never) => join_vectors(
            alloc,
            item.get(),
            &Shape::Never,
        ),
        (Shape::Tuple(parts), Shape::Tuple(others)) => join_tuples(
            alloc,
            parts.as_slice(),
            others.as_slice(),
        ),
        (Shape::Tuple(parts), Shape::Hole | Shape::Never) => keep_tuple(alloc, parts.as_slice()),
        (Shape::Named(place, arguments), Shape::Named(other, others)) => {
            if *place == *other {
                join_named(alloc, *place, arguments.as_slice(), others.as_slice())
            } else {
                Ok(None)
            }
        }
        (Shape::Named(place, arguments), Shape::Hole | Shape::Never) => keep_named(
            alloc,
            *place,
            arguments.as_slice(),
        ),
        (Shape::Variable(position), Shape::Variable(other)) => {
            if *position == *other {
                Ok(Some(Shape::Variable(*position)))
            } else {
                Ok(None)
            }
        }
        (Shape::Variable(position), Shape::Hole | Shape::Never) => Ok(Some(Shape::Variable(
            *position,
        ))),
        _ => Ok(None),
    }
}

#[cycle(join)]
fn join_lists(alloc: Global, item: &Shape, other: &Shape) -> Result<Option<Shape>, AllocError>
    ensures { IfOk result (λ joined. joined ≡ list_of (join item.now other.now)) }
{
    match join_shapes(alloc, item, other)? {
        None => Ok(None),
        Some(item) => Ok(Some(Shape::List(Boxed::new(alloc, item)?))),
    }
}

#[cycle(join)]
fn join_vectors(alloc: Global, item: &Shape, other: &Shape) -> Result<Option<Shape>, AllocError>
    ensures { IfOk result (λ joined. joined ≡ vector_of (join item.now other.now)) }
{
    match join_shapes(alloc, item, other)? {
        None => Ok(None),
        Some(item) => Ok(Some(Shape::Vector(Boxed::new(alloc, item)?))),
    }
}

#[cycle(join)]
fn join_tuples(
    alloc: Global,
    parts: &[Shape],
    others: &[Shape],
) -> Result<Option<Shape>, AllocError>
    ensures { IfOk result (λ joined. joined ≡ tuple_of (join_all (map join parts.now) others.now)) }
{
    match join_parts(alloc, parts, others)? {
        None => Ok(None),
        Some(parts) => Ok(Some(Shape::Tuple(parts))),
    }
}

#[cycle(join)]
fn join_named(
    alloc: Global,
    place: u32,
    arguments: &[Shape],
    others: &[Shape],
) -> Result<Option<Shape>, AllocError>
    ensures { IfOk result (λ joined. joined ≡ named_of place (join_all (map join arguments.now) others.now)) }
{
    match join_parts(alloc, arguments, others)? {
        None => Ok(None),
        Some(arguments) => Ok(Some(Shape::Named(place, arguments))),
    }
}

#[cycle(join)]
fn join_parts(
    alloc: Global,
    parts: &[Shape],
    others: &[Shape],
) -> Result<Option<Items<Shape>>, AllocError>
    ensures { IfOk result (λ joined. joined ≡ join_all (map join parts.now) others.now) }
{
    if parts.len() != others.len() {
        return Ok(None);
    }
    let mut made = Items::new(alloc);
    for index in 0..parts.len() {
        match join_shapes(alloc, &parts[index], &others[index])? {
            None => return Ok(None),
            Some(joined) => made.push(joined)?,
        }
    }
    Ok(Some(made))
}

#[cycle(join)]
fn keep_tuple(alloc: Global, parts: &[Shape]) -> Result<Option<Shape>, AllocError>
    ensures { IfOk result (λ kept. kept ≡ tuple_of (keep_all (map join parts.now))) }
{
    match keep_parts(alloc, parts)? {
        None => Ok(None),
        Some(parts) => Ok(Some(Shape::Tuple(parts))),
    }
}

#[cycle(join)]
fn keep_named(alloc: Global, place: u32, arguments: &[Shape]) -> Result<Option<Shape>, AllocError>
    ensures { IfOk result (λ kept. kept ≡ named_of place (keep_all (map join arguments.now))) }
{
    match keep_parts(alloc, arguments)? {
        None => Ok(None),
        Some(arguments) => Ok(Some(Shape::Named(place, arguments))),
    }
}

#[cycle(join)]
fn keep_parts(alloc: Global, parts: &[Shape]) -> Result<Option<Items<Shape>>, AllocError>
    ensures { IfOk result (λ kept. kept ≡ keep_all (map join parts.now)) }
{
    let mut made = Items::new(alloc);
    for part in parts {
        match join_shapes(alloc, part, &Shape::Never)? {
            None => return Ok(None),
            Some(kept) => made.push(kept)?,
        }
    }
    Ok(Some(made))
}
