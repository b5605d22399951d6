//! Walks over ways that meet: `if`, `match` and `try`.
ghost use Rattle.std.specs.Prelude.{◌≡◌, IfOk, OnOk};
ghost use Rattle.value_indices.specs.Walking as walk;
ghost use Rattle.pattern_leaves.specs.Settings.{around_of};
ghost use Rattle.call_arguments.specs.Aims.{wanted as wanted_by};
ghost use Rattle.expression_forms.specs.Scopes.{scope_of};
ghost use Rattle.expression_steps.specs.Coded as coded;
ghost use Rattle.expression_steps.specs.Expressions.{part};
ghost use Rattle.expression_steps.specs.Parts as part_spec;
ghost use Rattle.expression_steps.specs.Statements as statement_spec;

use crate::expressions::walk_expression;
use crate::parts::walk_truth;
use call_notes::{Aim, wrong_value};
use expression_forms::{Scope, negated, thrown};
use expression_steps::{
    Way, catch_at, either_ways, end_way, is_free, match_ways, met_value, open_way, try_ways,
    unit_of,
};
use pattern_leaves::Around;
use sail_base::Place;
use sail_core::{Arm, Core};
use sail_types::{Con, Shape, copy_con};
use std::alloc::{AllocError, Global};
use value_indices::{Indices, Walking};

/// A way of this shape behind others, with an end of its own: it owes what is kept of the first one; the first that ends normally. Where a
/// type is wanted nothing is owed of the first. It fails where memory is wanting, and where variables are too many.
#[cycle(walk)]
fn walk_branch(
    alloc: Global,
    walking: &mut Walking,
    around: &Around<'_>,
    scope: &Scope<'_>,
    way: &Way<'_>,
    aim: &Aim,
    is_free: bool,
    before: u32,
    shape: &Shape,
    first: Option<Indices>,
) -> Result<Option<Indices>, AllocError>
    ensures value { IfOk result (λ made. made ≡ walk.got (statement_spec.one_way (around_of around.now) is_free before shape.now
        (coded.way_seen (around_of around.now) (scope_of scope.now) aim.now way.now) first) (walk.seen walking.old)) }
    ensures walked { OnOk result (walk.seen walking.new ≡ walk.run (statement_spec.one_way (around_of around.now) is_free before shape.now
        (coded.way_seen (around_of around.now) (scope_of scope.now) aim.now way.now) first) (walk.seen walking.old)) }
{
    walking.remember()?;
    let found = open_way(alloc, walking, around, way)?;
    let inside = (&*scope).with(found.as_slice());
    let aim = aim.branch(alloc)?;
    let core = way.core();
    let value = walk_expression(alloc, walking, around, &inside, core, &aim)?;
    end_way(
        alloc, walking, around, core, is_free, before, shape, first, value,
    )
}

/// The value of ways of this shape: with a wanted type that type, opened; else the widened type of the first that ends normally. It fails
/// where memory is wanting, and where variables are too many.
#[cycle(walk)]
fn walk_ways(
    alloc: Global,
    walking: &mut Walking,
    around: &Around<'_>,
    scope: &Scope<'_>,
    place: Place,
    number: u32,
    shape: &Shape,
    ways: &[Way<'_>],
    aim: &Aim,
) -> Result<Indices, AllocError>
    ensures value { IfOk result (λ made. made ≡ walk.got (statement_spec.meeting (around_of around.now) place number shape.now (wanted_by aim.now)
        (coded.ways_seen (around_of around.now) (scope_of scope.now) aim.now ways.now)) (walk.seen walking.old)) }
    ensures walked { OnOk result (walk.seen walking.new ≡ walk.run (statement_spec.meeting (around_of around.now) place number shape.now (wanted_by aim.now)
        (coded.ways_seen (around_of around.now) (scope_of scope.now) aim.now ways.now)) (walk.seen walking.old)) }
{
    let before = walking.next();
    let free = is_free(aim);
    let mut first = None;
    for way in ways {
        first = walk_branch(
            alloc, walking, around, scope, way, aim, free, before, shape, first,
        )?;
    }
    met_value(
        alloc,
        walking,
        around,
        place,
        number,
        shape,
        aim,
        before,
        first.as_ref(),
    )
}

/// `if c then a else b`, of this shape: its condition and its value; none where there is no condition. It fails where memory is wanting, and
/// where variables are too many.
#[cycle(walk)]
fn walk_either<'a>(
    alloc: Global,
    walking: &mut Walking,
    around: &Around<'_>,
    scope: &Scope<'_>,
    place: Place,
    number: u32,
    shape: &Shape,
    condition: &Core,
    then: &'a Core,
    otherwise: &'a Core,
    aim: &Aim,
) -> Result<Option<(Con, Indices)>, AllocError>
    ensures value { IfOk result (λ made. made ≡ walk.got (statement_spec.either_walk place number shape.now (part condition.now) (part then.now)
        (part otherwise.now) (around_of around.now) (scope_of scope.now) aim.now) (walk.seen walking.old)) }
    ensures walked { OnOk result (walk.seen walking.new ≡ walk.run (statement_spec.either_walk place number shape.now (part condition.now) (part then.now)
        (part otherwise.now) (around_of around.now) (scope_of scope.now) aim.now) (walk.seen walking.old)) }
{
    match walk_truth(alloc, walking, around, scope, condition)? {
        None => Ok(None),
        Some(given) => {
            let other = negated(alloc, copy_con(alloc, &given)?)?;
            let ways = either_ways(&given, &other, &*then, &*otherwise);
            let value = walk_ways(
                alloc, walking, around, scope, place, number, shape, &ways, aim,
            )?;
            Ok(Some((given, value)))
        }
    }
}

/// `if` of two or three parts, of this shape: its condition and its value; none where there is no condition, and of other parts. Without
/// `else` the value is `()`, and so has its body to be. It fails where memory is wanting, and where variables are too many.
#[cycle(walk)]
#[tactic(auto, using(value_indices::proofs::Walks::walks, expression_steps::proofs::Masses::weights))]
pub(crate) fn walk_branches(
    alloc: Global,
    walking: &mut Walking,
    around: &Around<'_>,
    scope: &Scope<'_>,
    place: Place,
    number: u32,
    shape: &Shape,
    parts: &[Core],
    aim: &Aim,
) -> Result<Option<(Con, Indices)>, AllocError>
    ensures value { IfOk result (λ made. made ≡ walk.got (statement_spec.branches_forms place number shape.now (coded.each_part parts.now)
        (around_of around.now) (scope_of scope.now) aim.now) (walk.seen walking.old)) }
    ensures walked { OnOk result (walk.seen walking.new ≡ walk.run (statement_spec.branches_forms place number shape.now (coded.each_part parts.now)
        (around_of around.now) (scope_of scope.now) aim.now) (walk.seen walking.old)) }
{
    match parts {
        [] => Ok(None),
        [_] => Ok(None),
        [condition, body] => match walk_truth(alloc, walking, around, scope, condition)? {
            None => Ok(None),
            Some(met) => {
                walking.remember()?;
                walking.assume(copy_con(alloc, &met)?)?;
                let given = walk_expression(alloc, walking, around, scope, body, &Aim::Free)?;
                unit_of(alloc, walking, body, &given)?;
                walking.restore()?;
                Ok(Some((met, Indices::Unit)))
            }
        },
        [test, then, otherwise] => walk_either(
            alloc, walking, around, scope, place, number, shape, test, then, otherwise, aim,
        ),
        _ => Ok(None),
    }
}

/// `match e { .. }` and `try e catch { .. }`, of this shape: of a `try` e is the first way. It fails where memory is wanting, and where
/// variables are too many.
#[cycle(walk)]
#[tactic(auto, using(expression_steps::proofs::Masses::weights))]
pub(crate) fn walk_cases<'a>(
    alloc: Global,
    walking: &mut Walking,
    around: &Around<'_>,
    scope: &Scope<'_>,
    place: Place,
    number: u32,
    is_try: bool,
    shape: &Shape,
    arms: &'a [Arm],
    parts: &'a [Core],
    aim: &Aim,
) -> Result<Indices, AllocError>
    ensures value { IfOk result (λ made. made ≡ walk.got (part_spec.led place (λ a bodies. statement_spec.cases_walk is_try place number shape.now
        arms.now a bodies (around_of around.now) (scope_of scope.now) aim.now) (coded.each_part parts.now)) (walk.seen walking.old)) }
    ensures walked { OnOk result (walk.seen walking.new ≡ walk.run (part_spec.led place (λ a bodies. statement_spec.cases_walk is_try place number
        shape.now arms.now a bodies (around_of around.now) (scope_of scope.now) aim.now) (coded.each_part parts.now)) (walk.seen walking.old)) }
{
    match parts {
        [] => wrong_value(alloc, walking, place),
        [core, bodies @ ..] => {
            if is_try {
                let sent = thrown(alloc, around.exception);
                catch_at(alloc, walking, number, &sent)?;
                let ways = try_ways(alloc, place, number, &*arms, &*core, &*bodies, &sent)?;
                walk_ways(
                    alloc,
                    walking,
                    around,
                    scope,
                    place,
                    number,
                    shape,
                    ways.as_slice(),
                    aim,
                )
            } else {
                let value = walk_expression(alloc, walking, around, scope, core, &Aim::Free)?;
                let cases = match_ways(alloc, place, number, &*arms, &*bodies, &value)?;
                walk_ways(
                    alloc,
                    walking,
                    around,
                    scope,
                    place,
                    number,
                    shape,
                    cases.as_slice(),
                    aim,
                )
            }
        }
    }
}
