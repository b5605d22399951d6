//! The widest type of a shape.
ghost use Rattle.std.specs.Prelude.{◌≡◌, ◌++◌, map, slice_get, IfOk, OnOk};
ghost use Rattle.value_indices.specs.Walking as walk;
ghost use Rattle.value_indices.specs.declared.indices.Reading.TheVariants as R;
ghost use Rattle.wide_types.specs.Widening as wide;

use sail_base::{Boxed, Items, Kind};
use sail_types::{Con, Index, Num, Parameter, Shape, Types};
use std::alloc::{AllocError, Global};
use value_indices::{Indices, Reading, Walking, zero_num};

/// The type that is widened of values of these indices.
pub(crate) fn widened_of(alloc: Global, indices: Indices) -> Result<Reading, AllocError>
    ensures { IfOk result (λ made. made ≡ R.Widened indices) }
{
    Ok(Reading::Widened(Boxed::new(alloc, indices)?))
}

/// Puts a fresh number or truth, as the kind of a parameter has it, behind others; nothing for a type. It fails where memory is
/// wanting, and where variables are too many.
#[tactic(auto, using(value_indices::proofs::Walks::walks, crate::proofs::Turns::nothing_made))]
pub fn push_fresh_index(
    alloc: Global,
    walked: &mut Walking,
    parameter: &Parameter,
    indices: &mut Items<Index>,
) -> Result<(), AllocError>
    ensures indices { OnOk result (indices.new
        ≡ indices.old ++ walk.got (wide.fresh_index parameter.now parameter.now.kind) (walk.seen walked.old)) }
    ensures walked { OnOk result (walk.seen walked.new ≡ walk.run (wide.fresh_index parameter.now parameter.now.kind) (walk.seen walked.old)) }
{
    match parameter.kind {
        Kind::Int => {
            let number = Num::variable(alloc, walked.fresh()?)?;
            indices.push(Index::Number(number))
        }
        Kind::Bool => {
            let truth = walked.fresh()?;
            indices.push(Index::Truth(Con::Holds(truth)))
        }
        Kind::Type => Ok(()),
    }
}

/// Fresh numbers and truths for these parameters, in order. It fails where memory is wanting, and where variables are too many.
pub fn fresh_indices(
    alloc: Global,
    walked: &mut Walking,
    parameters: &[Parameter],
) -> Result<Items<Index>, AllocError>
    ensures value { IfOk result (λ made. made ≡ walk.got (wide.fresh_indices parameters.now) (walk.seen walked.old)) }
    ensures walked { OnOk result (walk.seen walked.new ≡ walk.run (wide.fresh_indices parameters.now) (walk.seen walked.old)) }
{
    let mut made = Items::new(alloc);
    for parameter in parameters {
        push_fresh_index(alloc, walked, parameter, &mut made)?;
    }
    Ok(made)
}

/// The parameters of the type at a place in the table; none where there is no such type.
pub fn parameters_of(types: &Types, place: u32) -> &[Parameter]
    ensures { result.now ≡ wide.parameters_of (slice_get types.now.definitions place) }
{
    match types.definitions.get(place as usize) {
        Some(definition) => definition.parameters.as_slice(),
        None => &[],
    }
}

/// The widest type of a shape: any integer, any truth, fresh numbers. It fails where memory is wanting, and where variables are too
/// many.
#[cycle(widest_of)]
pub fn widest_of(
    alloc: Global,
    walked: &mut Walking,
    types: &Types,
    shape: &Shape,
) -> Result<Reading, AllocError>
    ensures value { IfOk result (λ made. made ≡ walk.got (wide.widest_of types.now shape.now) (walk.seen walked.old)) }
    ensures walked { OnOk result (walk.seen walked.new ≡ walk.run (wide.widest_of types.now shape.now) (walk.seen walked.old)) }
{
    match shape {
        Shape::Unit => widened_of(alloc, Indices::Unit),
        Shape::Bool => widened_of(alloc, Indices::Truth(Con::Truth(true))),
        Shape::Bit => widened_of(alloc, Indices::Bit),
        Shape::Bits => {
            let variable = walked.fresh()?;
            let width = Num::variable(alloc, variable)?;
            widened_of(alloc, Indices::Bits(width))
        }
        Shape::Int => widened_of(alloc, Indices::Integer(zero_num(alloc))),
        Shape::String => widened_of(alloc, Indices::String),
        Shape::List(item) => {
            let item = widest_of(alloc, walked, types, item.get())?;
            widened_of(alloc, Indices::List(Boxed::new(alloc, item)?))
        }
        Shape::Vector(item) => {
            let variable = walked.fresh()?;
            let length = Num::variable(alloc, variable)?;
            let item = widest_of(alloc, walked, types, item.get())?;
            widened_of(alloc, Indices::Vector(length, Boxed::new(alloc, item)?))
        }
        Shape::Tuple(parts) => {
            let parts = widest_of_each(alloc, walked, types, parts.as_slice())?;
            Ok(Reading::Parts(parts))
        }
        Shape::Named(place, arguments) => {
            let numbers = fresh_indices(alloc, walked, parameters_of(types, *place))?;
            let arguments = widest_of_each(alloc, walked, types, arguments.as_slice())?;
            widened_of(alloc, Indices::Named(*place, numbers, arguments))
        }
        Shape::Variable(position) => widened_of(alloc, Indices::Variable(*position)),
        Shape::Hole => Ok(Reading::Hole),
        Shape::Never => Ok(Reading::Hole),
    }
}

#[cycle(widest_of)]
fn widest_of_each(
    alloc: Global,
    walked: &mut Walking,
    types: &Types,
    shapes: &[Shape],
) -> Result<Items<Reading>, AllocError>
    ensures value { IfOk result (λ made. made ≡ walk.got (wide.in_turn (map (wide.widest_of types.now) shapes.now)) (walk.seen walked.old)) }
    ensures walked { OnOk result (walk.seen walked.new
        ≡ walk.run (wide.in_turn (map (wide.widest_of types.now) shapes.now)) (walk.seen walked.old)) }
{
    let mut made = Items::new(alloc);
    for shape in shapes {
        made.push(widest_of(alloc, walked, types, shape)?)?;
    }
    Ok(made)
}
