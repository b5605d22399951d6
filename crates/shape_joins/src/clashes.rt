//! Members of an overload that clash.
ghost use Rattle.std.specs.Prelude.{◌≡◌, ◌++◌, IfOk, OnOk, map};
ghost use Rattle.shape_joins.specs.Numbering.{variables, variables_in, first_place as first_place_of, alike, each_alike, overlaps};

use sail_base::Items;
use sail_types::{Shape, parts_may_share};
use std::alloc::{AllocError, Global};

/// Adds the variables in a shape, from left to right.
#[cycle(push_variables)]
fn push_variables(shape: &Shape, found: &mut Items<u32>) -> Result<(), AllocError>
    ensures { OnOk result (found.new ≡ found.old ++ variables shape.now) }
{
    match shape {
        Shape::Variable(position) => found.push(*position),
        Shape::List(item) => push_variables(item.get(), found),
        Shape::Vector(item) => push_variables(item.get(), found),
        Shape::Tuple(parts) => push_all_variables(parts.as_slice(), found),
        Shape::Named(_, arguments) => push_all_variables(arguments.as_slice(), found),
        _ => Ok(()),
    }
}

#[cycle(push_variables)]
fn push_all_variables(shapes: &[Shape], found: &mut Items<u32>) -> Result<(), AllocError>
    ensures { OnOk result (found.new ≡ found.old ++ variables_in shapes.now) }
{
    for shape in shapes {
        push_variables(shape, found)?;
    }
    Ok(())
}

/// The place at which a variable comes first, and the end where it doesn't.
fn first_place(variables: &[u32], variable: u32) -> usize
    ensures { result ≡ first_place_of variables.now variable }
{
    let mut place = 0;
    for other in variables {
        if *other == variable {
            return place;
        }
        place += 1;
    }
    place
}

/// Whether two shapes are the same where variables go by their first places in these lists.
#[cycle(alike)]
fn are_alike(a: &Shape, b: &Shape, variables: &[u32], others: &[u32]) -> bool
    ensures { result ≡ alike variables.now others.now a.now b.now }
{
    match (a, b) {
        (Shape::Variable(position), Shape::Variable(other)) => {
            first_place(variables, *position) == first_place(others, *other)
        }
        (Shape::Unit, Shape::Unit) => true,
        (Shape::Bool, Shape::Bool) => true,
        (Shape::Bit, Shape::Bit) => true,
        (Shape::Bits, Shape::Bits) => true,
        (Shape::Int, Shape::Int) => true,
        (Shape::String, Shape::String) => true,
        (Shape::List(item), Shape::List(other)) => are_alike(
            item.get(),
            other.get(),
            variables,
            others,
        ),
        (Shape::Vector(item), Shape::Vector(other)) => are_alike(
            item.get(),
            other.get(),
            variables,
            others,
        ),
        (Shape::Tuple(a), Shape::Tuple(b)) => all_alike(
            a.as_slice(),
            b.as_slice(),
            variables,
            others,
        ),
        (Shape::Named(place, a), Shape::Named(other, b)) => {
            *place == *other && all_alike(a.as_slice(), b.as_slice(), variables, others)
        }
        (Shape::Hole, Shape::Hole) => true,
        (Shape::Never, Shape::Never) => true,
        _ => false,
    }
}

#[cycle(alike)]
fn all_alike(a: &[Shape], b: &[Shape], variables: &[u32], others: &[u32]) -> bool
    ensures { result ≡ each_alike (map (alike variables.now others.now) a.now) b.now }
{
    if a.len() != b.len() {
        return false;
    }
    for index in 0..a.len() {
        if !are_alike(&a[index], &b[index], variables, others) {
            return false;
        }
    }
    true
}

/// Whether members of an overload with these parameters clash: both lists are as long, they may share values,
/// and they differ by more than the names of their variables. It fails where memory is wanting.
pub fn overlap(alloc: Global, a: &[Shape], b: &[Shape]) -> Result<bool, AllocError>
    ensures { IfOk result (λ found. found ≡ overlaps a.now b.now) }
{
    if !parts_may_share(a, b) {
        return Ok(false);
    }
    let mut variables = Items::new(alloc);
    push_all_variables(a, &mut variables)?;
    let mut others = Items::new(alloc);
    push_all_variables(b, &mut others)?;
    Ok(!all_alike(a, b, variables.as_slice(), others.as_slice()))
}
