//! Widths of the parts of a concatenation.
ghost use Rattle.std.specs.Prelude.{◌≡◌, ◌∷◌, IfOk, OnOk, true};
ghost use Rattle.sail_types.specs.Sums.{and_then, difference};
ghost use Rattle.value_indices.specs.Steps.{each};
ghost use Rattle.value_indices.specs.Walking as walk;
ghost use Rattle.pattern_leaves.specs.Widths as spec;

use crate::exponents::one_condition;
use sail_base::{Items, Place};
use sail_types::{Con, Num, add, copy_num, subtract};
use std::alloc::{AllocError, Global};
use value_indices::{Indices, Made, Walking, at_most, equal, number_or_fresh};

/// The same number once more. It fails where memory is wanting.
fn copy_number(alloc: Global, number: &Option<Num>) -> Result<Option<Num>, AllocError>
    ensures { IfOk result (λ made. made ≡ number.now) }
{
    match number {
        None => Ok(None),
        Some(number) => Ok(Some(copy_num(alloc, number)?)),
    }
}

/// A sum with one number more, where both it and what comes of it can be said. It fails where memory is wanting.
fn sum_of(alloc: Global, total: Option<Num>, width: &Num) -> Result<Option<Num>, AllocError>
    ensures { IfOk result (λ made. made ≡ spec.sum_of total width.now) }
{
    match total {
        None => Ok(None),
        Some(total) => add(alloc, &total, width),
    }
}

/// The sum of those widths before this one that are known, if there are any, with this one. It fails where memory is wanting.
fn with_width(
    alloc: Global,
    total: Option<Option<Num>>,
    width: &Option<Num>,
) -> Result<Option<Option<Num>>, AllocError>
    ensures { IfOk result (λ made. made ≡ spec.with_width total width.now) }
{
    match width {
        None => Ok(total),
        Some(width) => match total {
            None => Ok(Some(Some(copy_num(alloc, width)?))),
            Some(total) => Ok(Some(sum_of(alloc, total, width)?)),
        },
    }
}

/// The sum of the widths that are known, from the left; none where it can't be said. It fails where memory is wanting.
pub fn first_sum(alloc: Global, widths: &[Option<Num>]) -> Result<Option<Num>, AllocError>
    ensures { IfOk result (λ made. made ≡ spec.first_sum widths.now) }
{
    let mut total = None;
    for width in widths {
        total = with_width(alloc, total, width)?;
    }
    match total {
        None => Ok(Some(Num::constant(alloc, 0))),
        Some(total) => Ok(total),
    }
}

/// Whether all of the widths are known.
fn all_known(widths: &[Option<Num>]) -> bool
    ensures { result ≡ spec.all_known widths.now }
{
    for width in widths {
        if width.is_none() {
            return false;
        }
    }
    true
}

/// Whether one of the parts at most has the rest.
fn one_rest(widths: &[Option<Num>]) -> bool
    ensures { result ≡ spec.one_rest true widths.now }
{
    let mut may = true;
    for width in widths {
        if width.is_none() {
            if !may {
                return false;
            }
            may = false;
        }
    }
    true
}

/// What is left of a width beside the sum of others; none where it can't be said. It fails where memory is wanting.
pub fn rest_of(alloc: Global, width: &Num, total: &Option<Num>) -> Result<Option<Num>, AllocError>
    ensures { IfOk result (λ made. made ≡ and_then total.now (difference width.now)) }
{
    match total {
        None => Ok(None),
        Some(total) => subtract(alloc, width, total),
    }
}

/// What a concatenation owes: that the widths make up that of the value, or leave some of it to one part, and what is false where more than one part
/// would have it. It fails where memory is wanting.
pub fn cut_conditions(
    alloc: Global,
    width: &Num,
    total: Option<Num>,
    widths: &[Option<Num>],
) -> Result<Items<Option<Con>>, AllocError>
    ensures { IfOk result (λ made. made ≡ spec.cut_conditions width.now total widths.now) }
{
    if one_rest(widths) {
        cut_condition(alloc, width, total, all_known(widths))
    } else {
        one_condition(alloc, Some(Con::Truth(false)))
    }
}

/// That the widths make up that of the value, or leave some of it. It fails where memory is wanting.
fn cut_condition(
    alloc: Global,
    width: &Num,
    total: Option<Num>,
    are_all_known: bool,
) -> Result<Items<Option<Con>>, AllocError>
    ensures { IfOk result (λ made. made ≡ spec.cut_condition width.now total are_all_known) }
{
    let width = copy_num(alloc, width)?;
    match total {
        None => one_condition(alloc, None),
        Some(total) => {
            if are_all_known {
                one_condition(alloc, Some(equal(total, width)))
            } else {
                one_condition(alloc, Some(at_most(total, width)))
            }
        }
    }
}

/// The value of a part of a concatenation; of one that isn't known the rest. The one error is want of memory.
fn cut_width(
    alloc: Global,
    place: Place,
    rest: &Option<Num>,
    width: &Option<Num>,
    walking: &mut Walking,
) -> Result<Indices, AllocError>
    ensures made { IfOk result (λ made. made ≡ walk.got (spec.cut_width place rest.now width.now) (walk.seen walking.old)) }
    ensures walked { OnOk result (walk.seen walking.new ≡ walk.run (spec.cut_width place rest.now width.now) (walk.seen walking.old)) }
{
    match width {
        None => bits_of(alloc, place, rest, walking),
        Some(_) => bits_of(alloc, place, width, walking),
    }
}

/// Bits of a width, fresh where it can't be said. The one error is want of memory.
fn bits_of(
    alloc: Global,
    place: Place,
    width: &Option<Num>,
    walking: &mut Walking,
) -> Result<Indices, AllocError>
    ensures made { IfOk result (λ made. made ≡ walk.got (spec.bits_part place width.now) (walk.seen walking.old)) }
    ensures walked { OnOk result (walk.seen walking.new ≡ walk.run (spec.bits_part place width.now) (walk.seen walking.old)) }
{
    let width = copy_number(alloc, width)?;
    let number = number_or_fresh(alloc, walking, width)?;
    sized_bits(alloc, place, number, walking)
}

/// Bits of this width, whose size is noted. It fails where memory is wanting.
fn sized_bits(
    alloc: Global,
    place: Place,
    number: Num,
    walking: &mut Walking,
) -> Result<Indices, AllocError>
    ensures made { IfOk result (λ made. made ≡ walk.got (spec.sized_bits place number) (walk.seen walking.old)) }
    ensures walked { OnOk result (walk.seen walking.new ≡ walk.run (spec.sized_bits place number) (walk.seen walking.old)) }
{
    let width = copy_num(alloc, &number)?;
    walking.note_sizes(place, Made::ByIndices(Indices::Bits(width)))?;
    Ok(Indices::Bits(number))
}

/// The values of the parts of a concatenation, each of which has its size noted at the place. The one error is want of memory.
pub fn cut_widths(
    alloc: Global,
    place: Place,
    rest: &Option<Num>,
    widths: &[Option<Num>],
    walking: &mut Walking,
) -> Result<Items<Indices>, AllocError>
    ensures made { IfOk result (λ made. made ≡ walk.got (each (spec.cut_width place rest.now) widths.now) (walk.seen walking.old)) }
    ensures walked { OnOk result (walk.seen walking.new ≡ walk.run (each (spec.cut_width place rest.now) widths.now) (walk.seen walking.old)) }
{
    let mut parts = Items::new(alloc);
    for width in widths {
        parts.push(cut_width(alloc, place, rest, width, walking)?)?;
    }
    Ok(parts)
}
