//! The shapes of types, and what shapes have in common.
ghost use Rattle.std.specs.Prelude.{◌≡◌, ◌↔◌, IsTrue, IfOk, map, length};
ghost use Rattle.sail_types.specs.Shapes.{shape, shares, each_shares};

use crate::shapes::Shape;
use crate::small::{both, same_place};
use crate::types::Typ;
use sail_base::{Boxed, Items};
use std::alloc::{AllocError, Global};

/// The shape of a type: the type without its numbers. It fails where memory is wanting.
#[cycle(shape_of)]
pub fn shape_of(alloc: Global, typ: &Typ) -> Result<Shape, AllocError>
    ensures { IfOk result (λ made. made ≡ shape typ.now) }
{
    match typ {
        Typ::Unit => Ok(Shape::Unit),
        Typ::Bool => Ok(Shape::Bool),
        Typ::Truth(_) => Ok(Shape::Bool),
        Typ::Bit => Ok(Shape::Bit),
        Typ::Bits(_) => Ok(Shape::Bits),
        Typ::Int(_) => Ok(Shape::Int),
        Typ::Range(_, _) => Ok(Shape::Int),
        Typ::String => Ok(Shape::String),
        Typ::List(item) => {
            let item = shape_of(alloc, item.get())?;
            Ok(Shape::List(Boxed::new(alloc, item)?))
        }
        Typ::Vector(_, item) => {
            let item = shape_of(alloc, item.get())?;
            Ok(Shape::Vector(Boxed::new(alloc, item)?))
        }
        Typ::Tuple(parts) => Ok(Shape::Tuple(shapes_of(alloc, parts.as_slice())?)),
        Typ::Named(place, _, arguments) => Ok(Shape::Named(
            *place,
            shapes_of(alloc, arguments.as_slice())?,
        )),
        Typ::Variable(position) => Ok(Shape::Variable(*position)),
        Typ::Exists(_, _, typ) => shape_of(alloc, typ.get()),
    }
}

/// The shapes of types, in order. It fails where memory is wanting.
#[cycle(shape_of)]
pub fn shapes_of(alloc: Global, types: &[Typ]) -> Result<Items<Shape>, AllocError>
    ensures { IfOk result (λ made. made ≡ map shape types.now) }
{
    let mut made = Items::new(alloc);
    for typ in types {
        made.push(shape_of(alloc, typ)?)?;
    }
    Ok(made)
}

/// The same shape once more. It fails where memory is wanting.
#[cycle(copy_shape)]
pub fn copy_shape(alloc: Global, shape: &Shape) -> Result<Shape, AllocError>
    ensures { IfOk result (λ copy. copy ≡ shape.now) }
{
    match shape {
        Shape::Unit => Ok(Shape::Unit),
        Shape::Bool => Ok(Shape::Bool),
        Shape::Bit => Ok(Shape::Bit),
        Shape::Bits => Ok(Shape::Bits),
        Shape::Int => Ok(Shape::Int),
        Shape::String => Ok(Shape::String),
        Shape::List(item) => {
            let item = copy_shape(alloc, item.get())?;
            Ok(Shape::List(Boxed::new(alloc, item)?))
        }
        Shape::Vector(item) => {
            let item = copy_shape(alloc, item.get())?;
            Ok(Shape::Vector(Boxed::new(alloc, item)?))
        }
        Shape::Tuple(parts) => Ok(Shape::Tuple(copy_shapes(alloc, parts.as_slice())?)),
        Shape::Named(place, arguments) => Ok(Shape::Named(
            *place,
            copy_shapes(alloc, arguments.as_slice())?,
        )),
        Shape::Variable(position) => Ok(Shape::Variable(*position)),
        Shape::Hole => Ok(Shape::Hole),
        Shape::Never => Ok(Shape::Never),
    }
}

/// The same shapes once more, in order. It fails where memory is wanting.
#[cycle(copy_shape)]
pub fn copy_shapes(alloc: Global, shapes: &[Shape]) -> Result<Items<Shape>, AllocError>
    ensures { IfOk result (λ copy. copy ≡ shapes.now) }
{
    let mut copies = Items::new(alloc);
    for shape in shapes {
        copies.push(copy_shape(alloc, shape)?)?;
    }
    Ok(copies)
}

/// Whether two shapes are the same.
#[cycle(same_shape)]
pub fn same_shape(a: &Shape, b: &Shape) -> bool
    ensures { IsTrue result ↔ (a.now ≡ b.now) }
{
    match (a, b) {
        (Shape::Unit, Shape::Unit) => true,
        (Shape::Bool, Shape::Bool) => true,
        (Shape::Bit, Shape::Bit) => true,
        (Shape::Bits, Shape::Bits) => true,
        (Shape::Int, Shape::Int) => true,
        (Shape::String, Shape::String) => true,
        (Shape::List(item), Shape::List(other)) => same_shape(item.get(), other.get()),
        (Shape::Vector(item), Shape::Vector(other)) => same_shape(item.get(), other.get()),
        (Shape::Tuple(parts), Shape::Tuple(others)) => {
            same_shapes(parts.as_slice(), others.as_slice())
        }
        (Shape::Named(place, arguments), Shape::Named(other, others)) => both(
            same_place(*place, *other),
            same_shapes(arguments.as_slice(), others.as_slice()),
        ),
        (Shape::Variable(position), Shape::Variable(other)) => same_place(*position, *other),
        (Shape::Hole, Shape::Hole) => true,
        (Shape::Never, Shape::Never) => true,
        _ => false,
    }
}

/// Whether two lists of shapes are the same.
#[cycle(same_shape)]
pub fn same_shapes(a: &[Shape], b: &[Shape]) -> bool
    ensures { IsTrue result ↔ (a.now ≡ b.now) }
{
    if a.len() != b.len() {
        return false;
    }
    let mut at = 0;
    for item in a {
        if !same_shape(item, &b[at]) {
            return false;
        }
        at += 1;
    }
    true
}

/// Whether two shapes may have a value in common.
#[cycle(may_share)]
pub fn may_share(a: &Shape, b: &Shape) -> bool
    ensures { result ≡ shares a.now b.now }
{
    match (a, b) {
        (Shape::Variable(_), _) => true,
        (_, Shape::Variable(_)) => true,
        (Shape::Unit, Shape::Unit) => true,
        (Shape::Bool, Shape::Bool) => true,
        (Shape::Bit, Shape::Bit) => true,
        (Shape::Bits, Shape::Bits) => true,
        (Shape::Int, Shape::Int) => true,
        (Shape::String, Shape::String) => true,
        (Shape::List(_), Shape::List(_)) => true,
        (Shape::Vector(_), Shape::Vector(_)) => true,
        (Shape::Tuple(parts), Shape::Tuple(others)) => {
            parts_may_share(parts.as_slice(), others.as_slice())
        }
        (Shape::Named(place, _), Shape::Named(other, _)) => *place == *other,
        (Shape::Hole, Shape::Hole) => true,
        (Shape::Never, Shape::Never) => true,
        _ => false,
    }
}

/// Whether lists of shapes are as long, and each two may have a value in common.
#[cycle(may_share)]
pub fn parts_may_share(a: &[Shape], b: &[Shape]) -> bool
    ensures { result ≡ each_shares (map shares a.now) b.now }
{
    if a.len() != b.len() {
        return false;
    }
    for index in 0..a.len() {
        if !may_share(&a[index], &b[index]) {
            return false;
        }
    }
    true
}
