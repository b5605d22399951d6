//! What a callee's Type variables stand for.
ghost use Rattle.std.specs.Prelude.{◌≡◌, IfOk, map};
ghost use Rattle.shape_joins.specs.Learning.{learn, learn_all, also, holes as holes_for};
ghost use Rattle.shape_joins.specs.Parts.{learnt};

use crate::joining::join_shapes;
use sail_base::Items;
use sail_types::Shape;
use std::alloc::{AllocError, Global};

/// A hole for each of so many variables. It fails where memory is wanting.
pub fn holes(alloc: Global, count: usize) -> Result<Items<Shape>, AllocError>
    ensures { IfOk result (λ made. made ≡ holes_for count) }
{
    let mut made = Items::new(alloc);
    for _at in 0..count {
        made.push(Shape::Hole)?;
    }
    Ok(made)
}

/// A parameter's shape is this argument's: what is known of the variables then. False where it can't be; what is
/// known then says nothing. It fails where memory is wanting.
#[cycle(learn)]
pub fn learn_shape(
    alloc: Global,
    param: &Shape,
    shape: &Shape,
    known: &mut Items<Shape>,
) -> Result<bool, AllocError>
    ensures { IfOk result (λ fine. learn param.now shape.now known.old ≡ learnt fine known.new) }
{
    match (param, shape) {
        (Shape::Variable(position), _) => also_shape(alloc, known, *position, shape),
        (Shape::Unit, Shape::Unit | Shape::Hole | Shape::Never) => Ok(true),
        (Shape::Bool, Shape::Bool | Shape::Hole | Shape::Never) => Ok(true),
        (Shape::Bit, Shape::Bit | Shape::Hole | Shape::Never) => Ok(true),
        (Shape::Bits, Shape::Bits | Shape::Hole | Shape::Never) => Ok(true),
        (Shape::Int, Shape::Int | Shape::Hole | Shape::Never) => Ok(true),
        (Shape::String, Shape::String | Shape::Hole | Shape::Never) => Ok(true),
        (Shape::List(param), Shape::List(item)) => learn_shape(
            alloc,
            param.get(),
            item.get(),
            known,
        ),
        (Shape::List(_), Shape::Hole | Shape::Never) => Ok(true),
        (Shape::Vector(param), Shape::Vector(item)) => learn_shape(
            alloc,
            param.get(),
            item.get(),
            known,
        ),
        (Shape::Vector(_), Shape::Hole | Shape::Never) => Ok(true),
        (Shape::Tuple(params), Shape::Tuple(shapes)) => learn_shapes(
            alloc,
            params.as_slice(),
            shapes.as_slice(),
            known,
        ),
        (Shape::Tuple(_), Shape::Hole | Shape::Never) => Ok(true),
        (Shape::Named(place, params), Shape::Named(other, shapes)) => {
            if *place == *other {
                learn_shapes(alloc, params.as_slice(), shapes.as_slice(), known)
            } else {
                Ok(false)
            }
        }
        (Shape::Named(_, _), Shape::Hole | Shape::Never) => Ok(true),
        _ => Ok(false),
    }
}

/// Likewise of several parameters and as many arguments, from left to right. It fails where memory is wanting.
#[cycle(learn)]
pub fn learn_shapes(
    alloc: Global,
    params: &[Shape],
    shapes: &[Shape],
    known: &mut Items<Shape>,
) -> Result<bool, AllocError>
    ensures { IfOk result (λ fine. learn_all (map learn params.now) shapes.now known.old ≡ learnt fine known.new) }
{
    if params.len() != shapes.len() {
        return Ok(false);
    }
    for index in 0..params.len() {
        if !learn_shape(alloc, &params[index], &shapes[index], known)? {
            return Ok(false);
        }
    }
    Ok(true)
}

/// A variable stands for this shape too.
fn also_shape(
    alloc: Global,
    known: &mut Items<Shape>,
    position: u32,
    shape: &Shape,
) -> Result<bool, AllocError>
    ensures { IfOk result (λ fine. also known.old position shape.now ≡ learnt fine known.new) }
{
    let joined = match known.get(position as usize) {
        None => return Ok(false),
        Some(old) => join_shapes(alloc, old, shape)?,
    };
    match joined {
        None => Ok(false),
        Some(joined) => {
            known.set(position as usize, joined);
            Ok(true)
        }
    }
}
