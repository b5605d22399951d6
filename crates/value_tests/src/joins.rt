use sail_base::{Boxed, Items};
use sail_types::{Shape, same_shape, same_shapes};
use shape_joins::{holes, join_shapes, learn_shapes, overlap, put_shape};
use std::alloc::{AllocError, Global};
use std::test::Fail;

fn list(alloc: Global, item: Shape) -> Result<Shape, AllocError> {
    Ok(Shape::List(Boxed::new(alloc, item)?))
}

fn one(alloc: Global, a: Shape) -> Result<Items<Shape>, AllocError> {
    let mut items = Items::new(alloc);
    items.push(a)?;
    Ok(items)
}

fn two(alloc: Global, a: Shape, b: Shape) -> Result<Items<Shape>, AllocError> {
    let mut items = one(alloc, a)?;
    items.push(b)?;
    Ok(items)
}

/// `option(S)`
fn option(alloc: Global, item: Shape) -> Result<Shape, AllocError> {
    Ok(Shape::Named(0, one(alloc, item)?))
}

/// Whether two shapes are this one together, or none.
fn is_join(alloc: Global, a: Shape, b: Shape, wanted: Option<Shape>) -> Result<bool, AllocError> {
    match (join_shapes(alloc, &a, &b)?, wanted) {
        (Some(found), Some(wanted)) => Ok(same_shape(&found, &wanted)),
        (found, wanted) => Ok(found.is_none() && wanted.is_none()),
    }
}

/// An empty list takes the wanted shape, and `None()` the payload that stands beside it.
#[test]
fn open_shapes_take_what_is_wanted(rt: HostRuntime) -> Result<(), Fail> {
    let alloc = rt.alloc();
    let open = list(alloc, Shape::Hole)?;
    let wanted = list(alloc, Shape::Int)?;
    assert!(rt; is_join(alloc, open, list(alloc, Shape::Int)?, Some(wanted))?);
    let open = Shape::Tuple(two(alloc, Shape::Bool, option(alloc, Shape::Hole)?)?);
    let beside = Shape::Tuple(two(alloc, Shape::Never, option(alloc, Shape::Bits)?)?);
    let wanted = Shape::Tuple(two(alloc, Shape::Bool, option(alloc, Shape::Bits)?)?);
    assert!(rt; is_join(alloc, open, beside, Some(wanted))?);
    assert!(rt; is_join(alloc, Shape::Hole, Shape::Never, Some(Shape::Hole))?);
    assert!(rt; is_join(alloc, Shape::Unit, Shape::Never, Some(Shape::Unit))?);
    Ok(())
}

#[test]
fn other_shapes_are_none_together(rt: HostRuntime) -> Result<(), Fail> {
    let alloc = rt.alloc();
    assert!(rt; is_join(alloc, Shape::Int, Shape::Bits, None)?);
    let integers = list(alloc, Shape::Int)?;
    assert!(rt; is_join(alloc, integers, list(alloc, Shape::Bool)?, None)?);
    let first = Shape::Named(0, Items::new(alloc));
    let second = Shape::Named(1, Items::new(alloc));
    assert!(rt; is_join(alloc, first, second, None)?);
    Ok(())
}

#[test]
fn variables_stand_for_what_arguments_tell(rt: HostRuntime) -> Result<(), Fail> {
    let alloc = rt.alloc();
    // `pick : ('a, option('a)) -> 'a`: of `pick(3, None())` 'a is int, and `pick(3, Some(true))` is none
    let parameters = two(
        alloc,
        Shape::Variable(0),
        option(alloc, Shape::Variable(0))?,
    )?;
    let none = two(alloc, Shape::Int, option(alloc, Shape::Hole)?)?;
    let mut known = holes(alloc, 1)?;
    assert!(rt; learn_shapes(alloc, parameters.as_slice(), none.as_slice(), &mut known)?);
    assert!(rt; same_shapes(known.as_slice(), &[Shape::Int]));
    let payload = option(alloc, Shape::Variable(0))?;
    let put = put_shape(alloc, &payload, known.as_slice())?;
    assert!(rt; same_shape(&put, &option(alloc, Shape::Int)?));
    let other = two(alloc, Shape::Int, option(alloc, Shape::Bool)?)?;
    let mut known = holes(alloc, 1)?;
    assert!(rt; !learn_shapes(alloc, parameters.as_slice(), other.as_slice(), &mut known)?);
    Ok(())
}

/// Whether members of these parameters clash.
fn clash(alloc: Global, a: Items<Shape>, b: Items<Shape>) -> Result<bool, AllocError> {
    overlap(alloc, a.as_slice(), b.as_slice())
}

/// `list(int) -> int` and `list(bool) -> int` share the empty list.
#[test]
fn members_that_may_share_values_clash(rt: HostRuntime) -> Result<(), Fail> {
    let alloc = rt.alloc();
    let integers = one(alloc, list(alloc, Shape::Int)?)?;
    let truths = one(alloc, list(alloc, Shape::Bool)?)?;
    assert!(rt; clash(alloc, integers, truths)?);
    Ok(())
}

#[test]
fn members_that_variables_tell_apart_clash(rt: HostRuntime) -> Result<(), Fail> {
    let alloc = rt.alloc();
    let any = one(alloc, Shape::Variable(0))?;
    assert!(rt; clash(alloc, any, one(alloc, Shape::Int)?)?);
    let same = two(alloc, Shape::Variable(0), Shape::Variable(0))?;
    let other = two(alloc, Shape::Variable(0), Shape::Variable(1))?;
    assert!(rt; clash(alloc, same, other)?);
    Ok(())
}

/// `int -> int` twice, and `'a -> int` beside `'b -> int`, are equal; other counts and other heads never clash.
#[test]
fn equal_members_and_others_dont_clash(rt: HostRuntime) -> Result<(), Fail> {
    let alloc = rt.alloc();
    assert!(rt; !clash(alloc, one(alloc, Shape::Int)?, one(alloc, Shape::Int)?)?);
    let first = one(alloc, Shape::Variable(0))?;
    assert!(rt; !clash(alloc, first, one(alloc, Shape::Variable(1))?)?);
    Ok(())
}

#[test]
fn members_of_other_counts_and_heads_dont_clash(rt: HostRuntime) -> Result<(), Fail> {
    let alloc = rt.alloc();
    let single = one(alloc, Shape::Int)?;
    assert!(rt; !clash(alloc, single, two(alloc, Shape::Int, Shape::Int)?)?);
    assert!(rt; !clash(alloc, one(alloc, Shape::Int)?, one(alloc, Shape::Bits)?)?);
    Ok(())
}
