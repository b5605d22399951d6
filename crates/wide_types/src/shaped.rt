//! The shapes that a type of a shape gives to its Type variables.
ghost use Rattle.std.specs.Prelude.{◌≡◌, map, nat_eq, IfOk};
ghost use Rattle.std.specs.Option.{option_copied};
ghost use Rattle.sail_types.specs.Places.{only};
ghost use Rattle.sail_types.specs.declared.shapes.Shape.{out-Shape};
ghost use Rattle.wide_types.specs.Widening as wide;

use crate::kept::part_shapes;
use sail_base::Items;
use sail_types::{Shape, Typ, copy_shape};
use std::alloc::{AllocError, Global};

/// A shape, where a Type variable is this one.
fn shape_if(position: u32, variable: usize, shape: &Shape) -> Option<&Shape>
    ensures { option_copied result ≡ only (nat_eq position variable) shape.now }
{
    if position as usize == variable {
        Some(shape)
    } else {
        None
    }
}

/// The shape that a type of this shape gives to a Type variable: that at its first place; none where it has none.
#[cycle(shaped)]
fn shaped<'a>(typ: &Typ, variable: usize, shape: &'a Shape) -> Option<&'a Shape>
    ensures { option_copied result ≡ wide.shaped typ.now variable shape.now }
{
    match typ {
        Typ::List(item) => shaped_inside(item.get(), variable, shape),
        Typ::Vector(_, item) => shaped_inside(item.get(), variable, shape),
        Typ::Tuple(parts) => shaped_among(parts.as_slice(), variable, part_shapes(shape)),
        Typ::Named(_, _, parts) => shaped_among(parts.as_slice(), variable, part_shapes(shape)),
        Typ::Variable(position) => shape_if(*position, variable, shape),
        Typ::Exists(_, _, inside) => shaped(inside.get(), variable, shape),
        _ => None,
    }
}

/// The same of the type of the items of a list or a vector of this shape.
#[cycle(shaped)]
fn shaped_inside<'a>(item: &Typ, variable: usize, shape: &'a Shape) -> Option<&'a Shape>
    ensures { option_copied result ≡ wide.inside_shaped (wide.shaped item.now) variable (out-Shape shape.now) }
{
    match shape {
        Shape::List(inner) => shaped(item, variable, inner.get()),
        Shape::Vector(inner) => shaped(item, variable, inner.get()),
        _ => None,
    }
}

/// The same of the first of several types that has such a place.
#[cycle(shaped)]
fn shaped_among<'a>(types: &[Typ], variable: usize, shapes: &'a [Shape]) -> Option<&'a Shape>
    ensures { option_copied result ≡ wide.shaped_among (map wide.shaped types.now) variable shapes.now }
{
    for index in 0..types.len().min(shapes.len()) {
        match shaped(&types[index], variable, &shapes[index]) {
            None => {}
            Some(found) => return Some(found),
        }
    }
    None
}

/// A shape that was found; a hole where none was. It fails where memory is wanting.
fn shape_or_hole(alloc: Global, found: Option<&Shape>) -> Result<Shape, AllocError>
    ensures { IfOk result (λ made. made ≡ wide.shape_or_hole (option_copied found.entry)) }
{
    match found {
        None => Ok(Shape::Hole),
        Some(shape) => copy_shape(alloc, shape),
    }
}

/// The shapes that a type of this shape gives to so many Type variables; holes for those that have no place in it. It fails where memory is
/// wanting.
pub(crate) fn variable_shapes(
    alloc: Global,
    typ: &Typ,
    shape: &Shape,
    count: usize,
) -> Result<Items<Shape>, AllocError>
    ensures { IfOk result (λ made. made ≡ wide.variable_shapes 0 count typ.now shape.now) }
{
    let mut made = Items::new(alloc);
    for variable in 0..count {
        made.push(shape_or_hole(alloc, shaped(typ, variable, shape))?)?;
    }
    Ok(made)
}
