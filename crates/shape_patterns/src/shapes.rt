//! The shapes of what is matched.
ghost use Rattle.std.specs.Prelude.{◌≡◌, IfOk, OnOk, replicate};
ghost use Rattle.sail_types.specs.declared.shapes.Shape.{out-Shape};
ghost use Rattle.sail_types.specs.declared.shapes.Shape.TheVariants as V;
ghost use Rattle.shape_rules.specs.Findings.{first_failure, mismatched as mismatched_of};
ghost use Rattle.shape_rules.specs.Patterns.{shape_faults, seen_as, nevers as nevers_of};
ghost use Rattle.shape_rules.specs.Patterns.{tuple_parts as tuple_parts_of, vector_item as vector_item_of, list_item as list_item_of};
ghost use Rattle.shape_patterns.specs.Pieces.{any_tuple as any_tuple_of};

use sail_base::{Boxed, Items, Place};
use sail_types::{Shape, copy_shape};
use shape_joins::join_shapes;
use shape_rules::{First, Mismatch, ShapeError};
use std::alloc::{AllocError, Global};

/// The failure of a shape that isn't the wanted one (M14). It fails where memory is wanting.
fn mismatched(
    alloc: Global,
    place: Place,
    wanted: &Shape,
    found: &Shape,
) -> Result<ShapeError, AllocError>
    ensures { IfOk result (λ made. made ≡ mismatched_of place wanted.now found.now) }
{
    let wanted = copy_shape(alloc, wanted)?;
    let found = copy_shape(alloc, found)?;
    Ok(ShapeError::IllShaped {
        place,
        mismatch: Some(Mismatch { wanted, found }),
    })
}

/// Notes a pattern of a shape of its own that isn't that of what it is matched with (M14). The one error is want of memory.
pub fn note_shape(
    alloc: Global,
    place: Place,
    subject: &Shape,
    own: &Shape,
    first: &mut First,
) -> Result<(), AllocError>
    ensures { OnOk result (first.new.error ≡ first_failure first.old.error (shape_faults place subject.now own.now)) }
{
    match join_shapes(alloc, own, subject)? {
        Some(_) => Ok(()),
        None => {
            first.note(mismatched(alloc, place, subject, own)?);
            Ok(())
        }
    }
}

/// What both shapes come to, `Never` where that isn't one; this is noted (M14). The one error is want of memory.
pub fn see_as(
    alloc: Global,
    place: Place,
    subject: &Shape,
    own: &Shape,
    first: &mut First,
) -> Result<Shape, AllocError>
    ensures failures { OnOk result (first.new.error ≡ first_failure first.old.error (shape_faults place subject.now own.now)) }
    ensures shape { IfOk result (λ seen. seen ≡ seen_as subject.now own.now) }
{
    match join_shapes(alloc, own, subject)? {
        Some(seen) => Ok(seen),
        None => {
            first.note(mismatched(alloc, place, subject, own)?);
            Ok(Shape::Never)
        }
    }
}

/// So many shapes of which nothing is known. It fails where memory is wanting.
pub(crate) fn nevers(alloc: Global, count: usize) -> Result<Items<Shape>, AllocError>
    ensures { IfOk result (λ made. made ≡ nevers_of count) }
{
    let mut made = Items::new(alloc);
    for _at in 0..count {
        made.push(Shape::Never)?;
    }
    Ok(made)
}

/// A tuple of so many parts of which nothing is known. It fails where memory is wanting.
pub(crate) fn any_tuple(alloc: Global, count: usize) -> Result<Shape, AllocError>
    ensures { IfOk result (λ made. made ≡ any_tuple_of count) }
{
    Ok(Shape::Tuple(nevers(alloc, count)?))
}

/// The shapes of a tuple's parts; none of another shape.
pub(crate) fn tuple_parts(shape: &Shape) -> &[Shape]
    ensures { result.now ≡ tuple_parts_of (out-Shape shape.now) }
{
    match shape {
        Shape::Tuple(parts) => parts.as_slice(),
        _ => &[],
    }
}

/// The shape of a vector's items; `Never` of another shape. It fails where memory is wanting.
pub(crate) fn vector_item(alloc: Global, shape: &Shape) -> Result<Shape, AllocError>
    ensures { IfOk result (λ made. made ≡ vector_item_of (out-Shape shape.now)) }
{
    match shape {
        Shape::Vector(item) => copy_shape(alloc, item.get()),
        _ => Ok(Shape::Never),
    }
}

/// The shape of a list's items; `Never` of another shape. It fails where memory is wanting.
pub(crate) fn list_item(alloc: Global, shape: &Shape) -> Result<Shape, AllocError>
    ensures { IfOk result (λ made. made ≡ list_item_of (out-Shape shape.now)) }
{
    match shape {
        Shape::List(item) => copy_shape(alloc, item.get()),
        _ => Ok(Shape::Never),
    }
}

/// A vector of items of which nothing is known. It fails where memory is wanting.
pub(crate) fn any_vector(alloc: Global) -> Result<Shape, AllocError>
    ensures { IfOk result (λ made. made ≡ V.Vector V.Never) }
{
    Ok(Shape::Vector(Boxed::new(alloc, Shape::Never)?))
}

/// A list of items of which nothing is known. It fails where memory is wanting.
pub(crate) fn any_list(alloc: Global) -> Result<Shape, AllocError>
    ensures { IfOk result (λ made. made ≡ V.List V.Never) }
{
    Ok(Shape::List(Boxed::new(alloc, Shape::Never)?))
}
