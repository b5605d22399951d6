//! Walks over parts.
ghost use Rattle.std.specs.Prelude.{◌≡◌, IfOk, OnOk, slice_get};
ghost use Rattle.value_indices.specs.Walking as walk;
ghost use Rattle.pattern_leaves.specs.Settings.{around_of};
ghost use Rattle.call_arguments.specs.declared.aims.Aim.TheVariants as Aims;
ghost use Rattle.expression_forms.specs.Scopes.{scope_of};
ghost use Rattle.expression_steps.specs.Coded as coded;
ghost use Rattle.expression_steps.specs.Expressions.{part};
ghost use Rattle.expression_steps.specs.Parts as part_spec;

use crate::expressions::walk_expression;
use call_notes::{Aim, integer_number};
use expression_forms::{Scope, truth_of};
use expression_steps::place_of;
use pattern_leaves::Around;
use sail_base::Items;
use sail_core::Core;
use sail_types::{Con, Num};
use std::alloc::{AllocError, Global};
use value_indices::{Indices, Walking};

/// What is wanted of the part at an index; nothing where nothing is said.
fn aim_at<'a>(aims: &'a [Aim], index: usize, free: &'a Aim) -> &'a Aim
    requires { free.now ≡ Aims.Free }
    ensures { result.now ≡ coded.aim_or_free (slice_get aims.now index) }
{
    match aims.get(index) {
        None => free,
        Some(aim) => aim,
    }
}

/// The walk over parts from left to right, each with what is wanted of it; of those behind nothing is. It fails where memory is wanting,
/// and where variables are too many.
#[cycle(walk)]
#[tactic(auto, using(value_indices::proofs::Walks::walks, expression_steps::proofs::Masses::weights))]
pub(crate) fn walk_each(
    alloc: Global,
    walking: &mut Walking,
    around: &Around<'_>,
    scope: &Scope<'_>,
    parts: &[Core],
    aims: &[Aim],
) -> Result<Items<Indices>, AllocError>
    ensures value { IfOk result (λ made. made ≡ walk.got (part_spec.each_walk (coded.each_part parts.now) (around_of around.now) (scope_of scope.now)
        aims.now) (walk.seen walking.old)) }
    ensures walked { OnOk result (walk.seen walking.new ≡ walk.run (part_spec.each_walk (coded.each_part parts.now) (around_of around.now)
        (scope_of scope.now) aims.now) (walk.seen walking.old)) }
{
    let mut made = Items::new(alloc);
    let free = Aim::Free;
    for (index, core) in parts.iter().enumerate() {
        let aim = aim_at(&*aims, index, &free);
        made.push(walk_expression(alloc, walking, around, scope, core, aim)?)?;
    }
    Ok(made)
}

/// The condition of an expression; none of one that never ends normally, and of what is no truth, which owes what is false. It fails where
/// memory is wanting, and where variables are too many.
#[cycle(walk)]
#[tactic(auto, using(value_indices::proofs::Walks::walks))]
pub(crate) fn walk_truth(
    alloc: Global,
    walking: &mut Walking,
    around: &Around<'_>,
    scope: &Scope<'_>,
    core: &Core,
) -> Result<Option<Con>, AllocError>
    ensures value { IfOk result (λ made. made ≡ walk.got (part_spec.truth_walk (part core.now) (around_of around.now) (scope_of scope.now))
        (walk.seen walking.old)) }
    ensures walked { OnOk result (walk.seen walking.new ≡ walk.run (part_spec.truth_walk (part core.now) (around_of around.now) (scope_of scope.now))
        (walk.seen walking.old)) }
{
    let value = walk_expression(alloc, walking, around, scope, core, &Aim::Free)?;
    truth_of(alloc, walking, place_of(core), &value)
}

/// The numbers of indexes or bounds, as far as each gives one; none where one doesn't. It fails where memory is wanting, and where
/// variables are too many.
#[cycle(walk)]
#[tactic(auto, using(value_indices::proofs::Walks::walks))]
pub(crate) fn walk_numbers(
    alloc: Global,
    walking: &mut Walking,
    around: &Around<'_>,
    scope: &Scope<'_>,
    parts: &[Core],
) -> Result<Option<Items<Num>>, AllocError>
    ensures value { IfOk result (λ made. made ≡ walk.got (part_spec.numbers_walk (coded.each_part parts.now) (around_of around.now)
        (scope_of scope.now)) (walk.seen walking.old)) }
    ensures walked { OnOk result (walk.seen walking.new ≡ walk.run (part_spec.numbers_walk (coded.each_part parts.now) (around_of around.now)
        (scope_of scope.now)) (walk.seen walking.old)) }
{
    let mut made = Items::new(alloc);
    for core in parts {
        let value = walk_expression(alloc, walking, around, scope, core, &Aim::Free)?;
        match integer_number(alloc, walking, place_of(core), &value)? {
            None => return Ok(None),
            Some(number) => made.push(number)?,
        }
    }
    Ok(Some(made))
}
