//! Shapes with others in the place of their variables.
ghost use Rattle.std.specs.Prelude.{◌≡◌, IfOk, map};
ghost use Rattle.sail_types.specs.Shapes.{at, put};

use sail_base::{Boxed, Items};
use sail_types::{Shape, copy_shape};
use std::alloc::{AllocError, Global};

/// A shape with what is known of its variables in their place; a variable past them is a hole. It fails where
/// memory is wanting.
#[cycle(put)]
pub fn put_shape(alloc: Global, shape: &Shape, known: &[Shape]) -> Result<Shape, AllocError>
    ensures { IfOk result (λ made. made ≡ put (at known.now) shape.now) }
{
    match shape {
        Shape::Unit => Ok(Shape::Unit),
        Shape::Bool => Ok(Shape::Bool),
        Shape::Bit => Ok(Shape::Bit),
        Shape::Bits => Ok(Shape::Bits),
        Shape::Int => Ok(Shape::Int),
        Shape::String => Ok(Shape::String),
        Shape::List(item) => {
            let item = put_shape(alloc, item.get(), known)?;
            Ok(Shape::List(Boxed::new(alloc, item)?))
        }
        Shape::Vector(item) => {
            let item = put_shape(alloc, item.get(), known)?;
            Ok(Shape::Vector(Boxed::new(alloc, item)?))
        }
        Shape::Tuple(parts) => Ok(Shape::Tuple(put_shapes(alloc, parts.as_slice(), known)?)),
        Shape::Named(place, arguments) => Ok(Shape::Named(
            *place,
            put_shapes(alloc, arguments.as_slice(), known)?,
        )),
        Shape::Variable(position) => known_shape(alloc, known, *position),
        Shape::Hole => Ok(Shape::Hole),
        Shape::Never => Ok(Shape::Never),
    }
}

/// Shapes with what is known of their variables in their place. It fails where memory is wanting.
#[cycle(put)]
pub fn put_shapes(
    alloc: Global,
    shapes: &[Shape],
    known: &[Shape],
) -> Result<Items<Shape>, AllocError>
    ensures { IfOk result (λ made. made ≡ map (put (at known.now)) shapes.now) }
{
    let mut made = Items::new(alloc);
    for shape in shapes {
        made.push(put_shape(alloc, shape, known)?)?;
    }
    Ok(made)
}

/// What is known of a variable.
fn known_shape(alloc: Global, known: &[Shape], position: u32) -> Result<Shape, AllocError>
    ensures { IfOk result (λ made. made ≡ at known.now position) }
{
    match known.get(position as usize) {
        None => Ok(Shape::Hole),
        Some(shape) => copy_shape(alloc, shape),
    }
}
