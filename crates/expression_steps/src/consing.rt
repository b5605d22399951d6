//! `a :: b`: what is wanted of both, and what is made of them.
ghost use Rattle.std.specs.Prelude.{◌≡◌, [], ◌∷◌, IfOk, OnOk};
ghost use Rattle.value_indices.specs.Walking as walk;
ghost use Rattle.value_indices.specs.declared.indices.Reading.{out-Reading};
ghost use Rattle.pattern_leaves.specs.Settings.{around_of};
ghost use Rattle.call_notes.specs.Noted as noted;
ghost use Rattle.expression_steps.specs.Coded as coded;
ghost use Rattle.expression_steps.specs.Values as value_spec;

use crate::aims::{list_aim, wanted_item};
use crate::ends::{cons_before, list_indices};
use crate::knowing::place_of;
use call_notes::{Aim, node_ended, wrong_value};
use pattern_leaves::Around;
use sail_base::{Items, Place};
use sail_core::Core;
use sail_types::Shape;
use std::alloc::{AllocError, Global};
use value_indices::{Indices, Reading, Walking, copy_indices};

/// So many parts, if there are two; else none.
pub(crate) fn two_or_none(count: usize) -> usize
    ensures { result ≡ value_spec.two_or_none count }
{
    if count == 2 { 2 } else { 0 }
}

/// What is wanted of both parts of `a :: b`; nothing where no type is. It fails where memory is wanting.
pub(crate) fn cons_aims(alloc: Global, aim: &Aim) -> Result<Items<Aim>, AllocError>
    ensures { IfOk result (λ made. made
        ≡ value_spec.cons_aims (out-Reading (value_spec.wanted_item aim.now)) (value_spec.wanted_item aim.now)) }
{
    let wanted = wanted_item(alloc, aim)?;
    let mut made = Items::new(alloc);
    match &wanted {
        Reading::Hole => Ok(made),
        _ => {
            let list = list_aim(alloc, &wanted)?;
            made.push(Aim::due(wanted))?;
            made.push(list)?;
            Ok(made)
        }
    }
}

/// `a :: b` of these, as the node of a number makes it, which is noted. It fails where memory is wanting.
fn pair_ended(
    alloc: Global,
    walking: &mut Walking,
    number: u32,
    item: &Indices,
    list: &Indices,
    value: Indices,
) -> Result<Indices, AllocError>
    ensures value { IfOk result (λ made. made
        ≡ walk.got (noted.node_ended number (item.now ∷ list.now ∷ []) value) (walk.seen walking.old)) }
    ensures walked { OnOk result (walk.seen walking.new
        ≡ walk.run (noted.node_ended number (item.now ∷ list.now ∷ []) value) (walk.seen walking.old)) }
{
    let mut operands = Items::new(alloc);
    operands.push(copy_indices(alloc, item)?)?;
    operands.push(copy_indices(alloc, list)?)?;
    node_ended(alloc, walking, number, operands.as_slice(), value)
}

/// The same where no type of items is wanted. It fails where memory is wanting, and where variables are too many.
#[tactic(auto, using(value_indices::proofs::Walks::walks))]
fn cons_found(
    alloc: Global,
    walking: &mut Walking,
    around: &Around<'_>,
    shape: &Shape,
    place: Place,
    number: u32,
    value: &Indices,
    list: &Indices,
) -> Result<Indices, AllocError>
    ensures value { IfOk result (λ made. made
        ≡ walk.got (value_spec.cons_found (around_of around.now) shape.now place number value.now list.now) (walk.seen walking.old)) }
    ensures walked { OnOk result (walk.seen walking.new
        ≡ walk.run (value_spec.cons_found (around_of around.now) shape.now place number value.now list.now) (walk.seen walking.old)) }
{
    let made = cons_before(alloc, walking, around, shape, place, value, list)?;
    pair_ended(alloc, walking, number, value, list, made)
}

/// `a :: b` of these, where this type of items is wanted. It fails where memory is wanting, and where variables are too many.
#[tactic(auto, using(value_indices::proofs::Walks::walks))]
fn cons_made(
    alloc: Global,
    walking: &mut Walking,
    around: &Around<'_>,
    shape: &Shape,
    place: Place,
    number: u32,
    wanted: Reading,
    value: &Indices,
    list: &Indices,
) -> Result<Indices, AllocError>
    ensures value { IfOk result (λ made. made ≡ walk.got (value_spec.cons_made (around_of around.now) shape.now place number (out-Reading wanted)
        wanted value.now list.now) (walk.seen walking.old)) }
    ensures walked { OnOk result (walk.seen walking.new ≡ walk.run (value_spec.cons_made (around_of around.now) shape.now place number
        (out-Reading wanted) wanted value.now list.now) (walk.seen walking.old)) }
{
    match &wanted {
        Reading::Hole => cons_found(alloc, walking, around, shape, place, number, value, list),
        _ => {
            let made = list_indices(alloc, wanted)?;
            pair_ended(alloc, walking, number, value, list, made)
        }
    }
}

/// `a :: b` of what its parts gave, if they are two. It fails where memory is wanting, and where variables are too many.
#[tactic(auto, using(value_indices::proofs::Walks::walks))]
pub(crate) fn cons_ended(
    alloc: Global,
    walking: &mut Walking,
    around: &Around<'_>,
    shape: &Shape,
    place: Place,
    number: u32,
    aim: &Aim,
    parts: &[Core],
    values: &[Indices],
) -> Result<Indices, AllocError>
    ensures value { IfOk result (λ made. made ≡ walk.got (value_spec.cons_ended (around_of around.now) shape.now place number (value_spec.wanted_item
        aim.now) (coded.each_part parts.now) values.now) (walk.seen walking.old)) }
    ensures walked { OnOk result (walk.seen walking.new ≡ walk.run (value_spec.cons_ended (around_of around.now) shape.now place number
        (value_spec.wanted_item aim.now) (coded.each_part parts.now) values.now) (walk.seen walking.old)) }
{
    match parts {
        [first, _] => match values {
            [value, list] => {
                let wanted = wanted_item(alloc, aim)?;
                cons_made(
                    alloc,
                    walking,
                    around,
                    shape,
                    place_of(first),
                    number,
                    wanted,
                    value,
                    list,
                )
            }
            _ => wrong_value(alloc, walking, place),
        },
        _ => wrong_value(alloc, walking, place),
    }
}
