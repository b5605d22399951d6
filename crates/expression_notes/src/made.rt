//! Walks over parts from left to right: with what is wanted of each from the start, over new values of fields, and over what comes to what is
//! wanted of it.
ghost use Rattle.std.specs.Prelude.{◌≡◌, IfOk, OnOk};
ghost use Rattle.value_indices.specs.Walking as walk;
ghost use Rattle.pattern_leaves.specs.Settings.{around_of};
ghost use Rattle.expression_forms.specs.Scopes.{scope_of};
ghost use Rattle.expression_steps.specs.Coded as coded;
ghost use Rattle.expression_steps.specs.Expressions as spec;
ghost use Rattle.expression_steps.specs.Parts as part_spec;
ghost use Rattle.expression_steps.specs.Values as value_spec;

use crate::expressions::walk_expression;
use crate::parts::walk_each;
use call_notes::{Aim, wrong_value};
use expression_forms::{Scope, cast_ended};
use expression_steps::{
    first_parts, made_aims, made_count, made_end, no_struct, with_aims, with_ended,
};
use pattern_leaves::Around;
use sail_base::Place;
use sail_core::{Core, Kind};
use std::alloc::{AllocError, Global};
use value_indices::{Indices, Walking};

/// A node of a kind whose parts are walked from left to right, each with what is wanted of it from the start, or that has none. It fails
/// where memory is wanting, and where variables are too many.
#[cycle(walk)]
#[tactic(auto, using(value_indices::proofs::Walks::walks, expression_steps::proofs::Masses::weights))]
pub(crate) fn walk_made(
    alloc: Global,
    walking: &mut Walking,
    around: &Around<'_>,
    scope: &Scope<'_>,
    place: Place,
    number: u32,
    kind: &Kind,
    parts: &[Core],
    aim: &Aim,
) -> Result<Indices, AllocError>
    ensures value { IfOk result (λ made. made ≡ walk.got (spec.made_plain place number kind.now (coded.each_part parts.now) (around_of around.now)
        (scope_of scope.now) aim.now) (walk.seen walking.old)) }
    ensures walked { OnOk result (walk.seen walking.new ≡ walk.run (spec.made_plain place number kind.now (coded.each_part parts.now)
        (around_of around.now) (scope_of scope.now) aim.now) (walk.seen walking.old)) }
{
    let aims = made_aims(alloc, around, kind, parts.len(), aim)?;
    let count = made_count(alloc, around, kind, parts.len())?;
    let first = first_parts(parts, count);
    let values = walk_each(alloc, walking, around, scope, first, aims.as_slice())?;
    made_end(
        alloc, walking, around, scope, place, number, kind, parts, aim, values,
    )
}

/// `{ e with f = e }`, by the place of the struct in the table and those of the fields as they are written. It fails where memory is
/// wanting, and where variables are too many.
#[cycle(walk)]
#[tactic(auto, using(value_indices::proofs::Walks::walks, expression_steps::proofs::Masses::weights))]
pub(crate) fn walk_with(
    alloc: Global,
    walking: &mut Walking,
    around: &Around<'_>,
    scope: &Scope<'_>,
    place: Place,
    number: u32,
    named: u32,
    fields: &[u32],
    parts: &[Core],
) -> Result<Indices, AllocError>
    ensures value { IfOk result (λ made. made ≡ walk.got (part_spec.led place (λ a values. value_spec.with_walk place number named fields.now a values
        (around_of around.now) (scope_of scope.now)) (coded.each_part parts.now)) (walk.seen walking.old)) }
    ensures walked { OnOk result (walk.seen walking.new ≡ walk.run (part_spec.led place (λ a values. value_spec.with_walk place number named fields.now a
        values (around_of around.now) (scope_of scope.now)) (coded.each_part parts.now)) (walk.seen walking.old)) }
{
    match parts {
        [] => wrong_value(alloc, walking, place),
        [base, others @ ..] => {
            let value = walk_expression(alloc, walking, around, scope, base, &Aim::Free)?;
            match with_aims(alloc, around, named, fields, others.len(), &value)? {
                None => no_struct(alloc, walking, place, &value),
                Some(aims) => {
                    let others = first_parts(others, aims.len());
                    let values = walk_each(alloc, walking, around, scope, others, aims.as_slice())?;
                    with_ended(
                        alloc, walking, around, place, number, named, fields, value, values,
                    )
                }
            }
        }
    }
}

/// A value that comes to what is wanted of it. It fails where memory is wanting, and where variables are too many.
#[cycle(walk)]
#[tactic(auto, using(value_indices::proofs::Walks::walks, expression_steps::proofs::Masses::weights))]
pub(crate) fn walk_place(
    alloc: Global,
    walking: &mut Walking,
    around: &Around<'_>,
    scope: &Scope<'_>,
    place: Place,
    number: u32,
    parts: &[Core],
    aim: &Aim,
) -> Result<Indices, AllocError>
    ensures value { IfOk result (λ made. made ≡ walk.got (part_spec.one place (λ a. spec.place_walk number a (around_of around.now)
        (scope_of scope.now) aim.now) (coded.each_part parts.now)) (walk.seen walking.old)) }
    ensures walked { OnOk result (walk.seen walking.new ≡ walk.run (part_spec.one place (λ a. spec.place_walk number a (around_of around.now)
        (scope_of scope.now) aim.now) (coded.each_part parts.now)) (walk.seen walking.old)) }
{
    match parts {
        [core] => {
            let value = walk_expression(alloc, walking, around, scope, core, aim)?;
            cast_ended(alloc, walking, number, aim, value)
        }
        _ => wrong_value(alloc, walking, place),
    }
}
