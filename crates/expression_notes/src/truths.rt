//! Operators on truths, and guards.
ghost use Rattle.std.specs.Prelude.{◌≡◌, IfOk, OnOk};
ghost use Rattle.value_indices.specs.Walking as walk;
ghost use Rattle.pattern_leaves.specs.Settings.{around_of};
ghost use Rattle.expression_forms.specs.Scopes.{scope_of};
ghost use Rattle.expression_steps.specs.Coded as coded;
ghost use Rattle.expression_steps.specs.Parts as part_spec;
ghost use Rattle.expression_steps.specs.Statements as statement_spec;

use crate::expressions::walk_expression;
use crate::parts::walk_truth;
use call_notes::{Aim, wrong_value};
use expression_forms::Scope;
use expression_steps::{joined, place_of, under_or_not};
use pattern_leaves::Around;
use sail_base::Place;
use sail_core::Core;
use std::alloc::{AllocError, Global};
use value_indices::{Indices, Walking};

/// `a & b` and `a | b` on truths: the right one is walked where the left one is true, or false. It fails where memory is wanting, and where
/// variables are too many.
#[cycle(walk)]
#[tactic(auto, using(value_indices::proofs::Walks::walks))]
pub(crate) fn walk_joined(
    alloc: Global,
    walking: &mut Walking,
    around: &Around<'_>,
    scope: &Scope<'_>,
    place: Place,
    is_or: bool,
    parts: &[Core],
) -> Result<Indices, AllocError>
    ensures value { IfOk result (λ made. made ≡ walk.got (part_spec.two place (λ a b. statement_spec.joined_walk is_or a b (around_of around.now)
        (scope_of scope.now)) (coded.each_part parts.now)) (walk.seen walking.old)) }
    ensures walked { OnOk result (walk.seen walking.new ≡ walk.run (part_spec.two place (λ a b. statement_spec.joined_walk is_or a b
        (around_of around.now) (scope_of scope.now)) (coded.each_part parts.now)) (walk.seen walking.old)) }
{
    match parts {
        [left, right] => match walk_truth(alloc, walking, around, scope, left)? {
            None => Ok(Indices::Never),
            Some(condition) => {
                let given = under_or_not(alloc, is_or, &condition)?;
                walking.remember()?;
                walking.assume(given)?;
                let value = walk_expression(alloc, walking, around, scope, right, &Aim::Free)?;
                walking.restore()?;
                joined(alloc, walking, is_or, place_of(right), condition, &value)
            }
        },
        _ => wrong_value(alloc, walking, place),
    }
}

/// A guard, which is in force in its case, and what it guards, by both parts. It fails where memory is wanting, and where variables are too
/// many.
#[cycle(walk)]
#[tactic(auto, using(value_indices::proofs::Walks::walks))]
pub(crate) fn walk_guarded(
    alloc: Global,
    walking: &mut Walking,
    around: &Around<'_>,
    scope: &Scope<'_>,
    place: Place,
    parts: &[Core],
    aim: &Aim,
) -> Result<Indices, AllocError>
    ensures value { IfOk result (λ made. made ≡ walk.got (part_spec.two place (λ a b. statement_spec.guarded a b (around_of around.now)
        (scope_of scope.now) aim.now) (coded.each_part parts.now)) (walk.seen walking.old)) }
    ensures walked { OnOk result (walk.seen walking.new ≡ walk.run (part_spec.two place (λ a b. statement_spec.guarded a b (around_of around.now)
        (scope_of scope.now) aim.now) (coded.each_part parts.now)) (walk.seen walking.old)) }
{
    match parts {
        [guard, body] => match walk_truth(alloc, walking, around, scope, guard)? {
            None => Ok(Indices::Never),
            Some(condition) => {
                walking.assume(condition)?;
                walk_expression(alloc, walking, around, scope, body, aim)
            }
        },
        _ => wrong_value(alloc, walking, place),
    }
}
