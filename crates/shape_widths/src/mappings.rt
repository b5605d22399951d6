//! Mappings in patterns.
ghost use Rattle.std.specs.Prelude.{◌≡◌, ◌++◌, ◌*◌, suc, IfOk, OnOk};
ghost use Rattle.shape_rules.specs.Patterns.{which_of, which_side as which_side_of, overlap_at as overlap_of};
ghost use Rattle.shape_rules.specs.Findings.{first_failure};
ghost use Rattle.shape_widths.specs.Known.{which, side_faults, direction_at as direction_at_of, given_at as given_at_of};

use sail_base::{Place, Text};
use sail_types::{Shape, may_share, shape_of};
use shape_joins::join_shapes;
use shape_rules::{First, Mapping, ShapeError};
use std::alloc::{AllocError, Global};

/// Which side of a mapping a shape has.
#[derive(Clone, Copy, PartialEq, Eq, Debug)]
pub enum Matched {
    /// The left one.
    Forwards,
    /// The right one.
    Backwards,
    /// Neither.
    Neither,
    /// The sides may share values.
    Either,
}

/// Which of two sides a shape has. It fails where memory is wanting.
fn side_of(alloc: Global, left: &Shape, right: &Shape, shape: &Shape) -> Result<Matched, AllocError>
    ensures { IfOk result (λ found. which found ≡ which_of left.now right.now shape.now) }
{
    if may_share(left, right) {
        return Ok(Matched::Either);
    }
    if join_shapes(alloc, left, shape)?.is_some() {
        return Ok(Matched::Forwards);
    }
    if join_shapes(alloc, right, shape)?.is_some() {
        return Ok(Matched::Backwards);
    }
    Ok(Matched::Neither)
}

/// Which side of a mapping a shape has. It fails where memory is wanting.
pub fn which_side(alloc: Global, mapping: &Mapping, shape: &Shape) -> Result<Matched, AllocError>
    ensures { IfOk result (λ found. which found ≡ which_side_of mapping.now shape.now) }
{
    let left = shape_of(alloc, &mapping.left)?;
    let right = shape_of(alloc, &mapping.right)?;
    side_of(alloc, &left, &right, shape)
}

/// The number of the direction from a mapping's left side to its right one. It fails for a mapping behind 2^31 others, of which memory
/// is taken to hold fewer.
pub fn forwards_of(mapping: &Mapping) -> Result<u32, AllocError>
    ensures { IfOk result (λ direction. direction ≡ 2 * mapping.now.number) }
{
    if mapping.number < 2147483648 {
        Ok(2 * mapping.number)
    } else {
        Err(AllocError)
    }
}

/// The number of the direction from a mapping's right side to its left one. It fails likewise.
pub fn backwards_of(mapping: &Mapping) -> Result<u32, AllocError>
    ensures { IfOk result (λ direction. direction ≡ suc (2 * mapping.now.number)) }
{
    if mapping.number < 2147483648 {
        Ok(2 * mapping.number + 1)
    } else {
        Err(AllocError)
    }
}

/// A name with more behind it. It fails where memory is wanting.
fn extended(alloc: Global, name: &Text, more: &str) -> Result<Text, AllocError>
    ensures { IfOk result (λ made. made ≡ name.now ++ more.now) }
{
    let mut text = String::from_str(alloc, name.as_str())?;
    text.push_str(more)?;
    Text::new(alloc, text.as_str())
}

/// The failure of a mapping whose sides may share values (M13). It fails where memory is wanting.
pub fn overlap_at(alloc: Global, place: Place, mapping: &Mapping) -> Result<ShapeError, AllocError>
    ensures { IfOk result (λ made. made ≡ overlap_of place mapping.now) }
{
    let first = extended(alloc, &mapping.name, "_forwards")?;
    let second = extended(alloc, &mapping.name, "_backwards")?;
    Ok(ShapeError::Overlap {
        place,
        first,
        second,
    })
}

/// The number of the direction from the side that is matched. It fails as `forwards_of`.
pub fn direction_at(mapping: &Mapping, side: Matched) -> Result<u32, AllocError>
    ensures { IfOk result (λ direction. direction ≡ direction_at_of mapping.now (which side)) }
{
    match side {
        Matched::Forwards => forwards_of(mapping),
        Matched::Backwards => backwards_of(mapping),
        Matched::Neither => forwards_of(mapping),
        Matched::Either => forwards_of(mapping),
    }
}

/// The shape of what a mapping gives where this side is matched; `Never` where it isn't one. It fails where memory is wanting.
pub fn given_at(alloc: Global, mapping: &Mapping, side: Matched) -> Result<Shape, AllocError>
    ensures { IfOk result (λ given. given ≡ given_at_of mapping.now (which side)) }
{
    match side {
        Matched::Forwards => shape_of(alloc, &mapping.right),
        Matched::Backwards => shape_of(alloc, &mapping.left),
        Matched::Neither => Ok(Shape::Never),
        Matched::Either => Ok(Shape::Never),
    }
}

/// Notes a mapping of which neither side is matched (M14), or whose sides may share values (M13). The one error is want of memory.
pub fn note_side(
    alloc: Global,
    place: Place,
    mapping: &Mapping,
    side: Matched,
    first: &mut First,
) -> Result<(), AllocError>
    ensures { OnOk result (first.new.error ≡ first_failure first.old.error (side_faults place mapping.now (which side))) }
{
    match side {
        Matched::Forwards => {}
        Matched::Backwards => {}
        Matched::Neither => first.note(ShapeError::IllShaped {
            place,
            mismatch: None,
        }),
        Matched::Either => first.note(overlap_at(alloc, place, mapping)?),
    }
    Ok(())
}
