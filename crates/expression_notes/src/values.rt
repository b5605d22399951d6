//! Vectors and lists.
ghost use Rattle.std.specs.Prelude.{◌≡◌, ◌++◌, IfOk, OnOk};
ghost use Rattle.value_indices.specs.Walking as walk;
ghost use Rattle.pattern_leaves.specs.Settings.{around_of};
ghost use Rattle.expression_forms.specs.Scopes.{scope_of};
ghost use Rattle.expression_steps.specs.Coded as coded;
ghost use Rattle.expression_steps.specs.Values as value_spec;

use crate::expressions::walk_expression;
use crate::parts::walk_each;
use call_arguments::without_holes;
use call_notes::Aim;
use expression_forms::Scope;
use expression_steps::{
    filled_here, first_item, is_hole, owe_item, place_of, repeated, row_of, wanted_item,
};
use pattern_leaves::Around;
use sail_base::{Items, Place};
use sail_core::Core;
use sail_types::Shape;
use std::alloc::{AllocError, Global};
use value_indices::{Indices, Reading, Walking};

/// Items that owe this type, behind others. It fails where memory is wanting, and where variables are too many.
#[cycle(walk)]
#[tactic(auto, using(value_indices::proofs::Walks::walks, expression_steps::proofs::Masses::weights))]
fn walk_like(
    alloc: Global,
    walking: &mut Walking,
    around: &Around<'_>,
    scope: &Scope<'_>,
    before: Items<Indices>,
    items: &[Core],
    reading: &Reading,
) -> Result<Items<Indices>, AllocError>
    ensures value { IfOk result (λ made. made ≡ before ++ walk.got (value_spec.items_like (coded.each_part items.now) (around_of around.now)
        (scope_of scope.now) reading.now) (walk.seen walking.old)) }
    ensures walked { OnOk result (walk.seen walking.new ≡ walk.run (value_spec.items_like (coded.each_part items.now) (around_of around.now)
        (scope_of scope.now) reading.now) (walk.seen walking.old)) }
{
    let mut made = before;
    for item in items {
        let value = walk_expression(alloc, walking, around, scope, item, &Aim::Free)?;
        owe_item(alloc, walking, around, place_of(item), reading, &value)?;
        made.push(value)?;
    }
    Ok(made)
}

/// Items of which no type is wanted, behind the widened type of the first, which each owes: of a hole in it is only what never ends. It fails
/// where memory is wanting, and where variables are too many.
#[cycle(walk)]
#[tactic(auto, using(value_indices::proofs::Walks::walks, expression_steps::proofs::Masses::weights))]
fn walk_first(
    alloc: Global,
    walking: &mut Walking,
    around: &Around<'_>,
    scope: &Scope<'_>,
    items: &[Core],
    shape: &Shape,
) -> Result<(Reading, Items<Indices>), AllocError>
    ensures value { IfOk result (λ made. made ≡ walk.got (value_spec.items_free (coded.each_part items.now) (around_of around.now)
        (scope_of scope.now) shape.now) (walk.seen walking.old)) }
    ensures walked { OnOk result (walk.seen walking.new ≡ walk.run (value_spec.items_free (coded.each_part items.now) (around_of around.now)
        (scope_of scope.now) shape.now) (walk.seen walking.old)) }
{
    match items {
        [] => Ok((Reading::Hole, Items::new(alloc))),
        [first, others @ ..] => {
            let value = walk_expression(alloc, walking, around, scope, first, &Aim::Free)?;
            let reading = filled_here(alloc, walking, around, shape, &value)?;
            let allowed = without_holes(alloc, &reading)?;
            owe_item(alloc, walking, around, place_of(first), &allowed, &value)?;
            let one = first_item(alloc, value)?;
            let values = walk_like(alloc, walking, around, scope, one, others, &allowed)?;
            Ok((reading, values))
        }
    }
}

/// A vector or a list, of items of this shape: of the type that is wanted, if one is, and else of the widened type of the first, which each
/// owes. It fails where memory is wanting, and where variables are too many.
#[cycle(walk)]
#[tactic(auto, using(value_indices::proofs::Walks::walks))]
pub(crate) fn walk_row(
    alloc: Global,
    walking: &mut Walking,
    around: &Around<'_>,
    scope: &Scope<'_>,
    place: Place,
    number: u32,
    is_list: bool,
    shape: &Shape,
    items: &[Core],
    aim: &Aim,
) -> Result<Indices, AllocError>
    ensures value { IfOk result (λ made. made ≡ walk.got (value_spec.row_walk place number is_list shape.now (coded.each_part items.now)
        (around_of around.now) (scope_of scope.now) aim.now) (walk.seen walking.old)) }
    ensures walked { OnOk result (walk.seen walking.new ≡ walk.run (value_spec.row_walk place number is_list shape.now (coded.each_part items.now)
        (around_of around.now) (scope_of scope.now) aim.now) (walk.seen walking.old)) }
{
    let wanted = wanted_item(alloc, aim)?;
    if is_hole(&wanted) {
        let row = walk_first(alloc, walking, around, scope, items, shape)?;
        row_of(alloc, walking, place, number, is_list, row)
    } else {
        let aims = repeated(alloc, items.len(), &wanted)?;
        let values = walk_each(alloc, walking, around, scope, items, aims.as_slice())?;
        row_of(alloc, walking, place, number, is_list, (wanted, values))
    }
}
