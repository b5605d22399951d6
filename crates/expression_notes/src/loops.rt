//! Walks over loops.
ghost use Rattle.std.specs.Prelude.{◌≡◌, IfOk, OnOk};
ghost use Rattle.value_indices.specs.Walking as walk;
ghost use Rattle.pattern_leaves.specs.Settings.{around_of};
ghost use Rattle.expression_forms.specs.Scopes.{scope_of};
ghost use Rattle.expression_steps.specs.Coded as coded;
ghost use Rattle.expression_steps.specs.Expressions.{part};
ghost use Rattle.expression_steps.specs.Parts as part_spec;
ghost use Rattle.expression_steps.specs.Statements as statement_spec;

use crate::expressions::walk_expression;
use crate::parts::{walk_numbers, walk_truth};
use call_notes::{Aim, integer_number, wrong_value};
use expression_forms::Scope;
use expression_steps::{begin_turn, bounds_of, first_parts, natural_aim, place_of};
use pattern_leaves::Around;
use sail_base::{Place, Text};
use sail_core::{Core, Counting};
use std::alloc::{AllocError, Global};
use value_indices::{Indices, Walking};

/// `foreach (x from a to b by s) e`. It fails where memory is wanting, and where variables are too many.
#[cycle(walk)]
#[tactic(auto, using(expression_steps::proofs::Masses::weights))]
pub(crate) fn walk_foreach(
    alloc: Global,
    walking: &mut Walking,
    around: &Around<'_>,
    scope: &Scope<'_>,
    place: Place,
    name: &Text,
    way: Counting,
    parts: &[Core],
) -> Result<Indices, AllocError>
    ensures value { IfOk result (λ made. made ≡ walk.got (part_spec.four place (λ a b c body. statement_spec.foreach_walk place name.now way a b c
        body (around_of around.now) (scope_of scope.now)) (coded.each_part parts.now)) (walk.seen walking.old)) }
    ensures walked { OnOk result (walk.seen walking.new ≡ walk.run (part_spec.four place (λ a b c body. statement_spec.foreach_walk place name.now way
        a b c body (around_of around.now) (scope_of scope.now)) (coded.each_part parts.now)) (walk.seen walking.old)) }
{
    match parts {
        [_, _, _, body] => {
            let three = first_parts(parts, 3);
            let numbers = walk_numbers(alloc, walking, around, scope, three)?;
            match bounds_of(alloc, numbers)? {
                None => Ok(Indices::Never),
                Some(bounds) => {
                    let found = begin_turn(alloc, walking, place, name, way, &bounds)?;
                    let inside = (&*scope).with(found.as_slice());
                    walk_expression(alloc, walking, around, &inside, body, &Aim::Free)?;
                    walking.restore()?;
                    Ok(Indices::Unit)
                }
            }
        }
        _ => wrong_value(alloc, walking, place),
    }
}

/// A measure, which has to be an integer and not negative, with an end of its own. It fails where memory is wanting, and where variables are
/// too many.
#[cycle(walk)]
fn walk_measure(
    alloc: Global,
    walking: &mut Walking,
    around: &Around<'_>,
    scope: &Scope<'_>,
    core: &Core,
) -> Result<(), AllocError>
    ensures { OnOk result (walk.seen walking.new ≡ walk.run (statement_spec.measure_walk (part core.now) (around_of around.now)
        (scope_of scope.now)) (walk.seen walking.old)) }
{
    let aim = natural_aim(alloc);
    walking.remember()?;
    let value = walk_expression(alloc, walking, around, scope, core, &aim)?;
    integer_number(alloc, walking, place_of(core), &value)?;
    walking.restore()?;
    Ok(())
}

/// The condition or the body of a turn, with an end of its own; the condition has to be a truth. It fails where memory is wanting, and
/// where variables are too many.
#[cycle(walk)]
fn walk_turn(
    alloc: Global,
    walking: &mut Walking,
    around: &Around<'_>,
    scope: &Scope<'_>,
    is_condition: bool,
    core: &Core,
) -> Result<(), AllocError>
    ensures { OnOk result (walk.seen walking.new ≡ walk.run (statement_spec.turn_part is_condition (part core.now) (around_of around.now)
        (scope_of scope.now)) (walk.seen walking.old)) }
{
    walking.remember()?;
    if is_condition {
        walk_truth(alloc, walking, around, scope, core)?;
        walking.restore()?;
        Ok(())
    } else {
        walk_expression(alloc, walking, around, scope, core, &Aim::Free)?;
        walking.restore()?;
        Ok(())
    }
}

/// `while` and `repeat`: a measure, and two parts in the order of the text, each with an end of its own: of a `while` the condition comes
/// first, of a `repeat` the body. It fails where memory is wanting, and where variables are too many.
#[cycle(walk)]
#[tactic(auto, using(expression_steps::proofs::Masses::weights))]
pub(crate) fn walk_loop(
    alloc: Global,
    walking: &mut Walking,
    around: &Around<'_>,
    scope: &Scope<'_>,
    place: Place,
    is_while: bool,
    parts: &[Core],
) -> Result<Indices, AllocError>
    ensures value { IfOk result (λ made. made ≡ walk.got (part_spec.three place (λ measure a b. statement_spec.loop_walk is_while measure a b
        (around_of around.now) (scope_of scope.now)) (coded.each_part parts.now)) (walk.seen walking.old)) }
    ensures walked { OnOk result (walk.seen walking.new ≡ walk.run (part_spec.three place (λ measure a b. statement_spec.loop_walk is_while measure a b
        (around_of around.now) (scope_of scope.now)) (coded.each_part parts.now)) (walk.seen walking.old)) }
{
    match parts {
        [measure, first, second] => {
            walk_measure(alloc, walking, around, scope, measure)?;
            walk_turn(alloc, walking, around, scope, is_while, first)?;
            walk_turn(alloc, walking, around, scope, !is_while, second)?;
            Ok(Indices::Unit)
        }
        _ => wrong_value(alloc, walking, place),
    }
}
