//! Ways into values: parts that are read, and parts that are replaced.
ghost use Rattle.std.specs.Prelude.{◌≡◌, IfOk, OnOk};
ghost use Rattle.std.specs.Option.{option_copied};
ghost use Rattle.value_indices.specs.Walking as walk;
ghost use Rattle.pattern_leaves.specs.Settings.{around_of};
ghost use Rattle.expression_forms.specs.Scopes.{scope_of};
ghost use Rattle.expression_steps.specs.Coded as coded;
ghost use Rattle.expression_steps.specs.Expressions.{part};
ghost use Rattle.expression_steps.specs.Values as value_spec;

use crate::expressions::walk_expression;
use crate::parts::walk_numbers;
use call_notes::{Aim, wrong_value};
use expression_forms::{Reached, Scope, if_never_value, read_suffix};
use expression_steps::{
    behind, first_parts, indexes_of, is_nested, left_after, left_at, no_way, put_aim, put_ended,
    reach, value_of, way_reached,
};
use pattern_leaves::Around;
use sail_base::Place;
use sail_core::{Core, Suffix, Way};
use std::alloc::{AllocError, Global};
use value_indices::{Indices, Walking};

/// A way into a value: the part that it reaches, if there is such a part, and how many parts of the expression have been taken; none where
/// an index gives no number. It fails where memory is wanting, and where variables are too many.
#[cycle(walk)]
#[tactic(auto, using(value_indices::proofs::Walks::walks))]
pub(crate) fn walk_way(
    alloc: Global,
    walking: &mut Walking,
    around: &Around<'_>,
    scope: &Scope<'_>,
    place: Place,
    parts: &[Core],
    at: usize,
    value: &Indices,
    way: Way,
) -> Result<Option<(Option<Reached>, usize)>, AllocError>
    ensures value { IfOk result (λ made. coded.taken_in parts.now made ≡ walk.got (value_spec.way_walk place (coded.left_behind parts.now at)
        (around_of around.now) (scope_of scope.now) value.now way) (walk.seen walking.old)) }
    ensures walked { OnOk result (walk.seen walking.new ≡ walk.run (value_spec.way_walk place (coded.left_behind parts.now at) (around_of around.now)
        (scope_of scope.now) value.now way) (walk.seen walking.old)) }
{
    let left = left_at(parts, at);
    let count = indexes_of(way);
    if left.len() < count {
        return no_way(alloc, walking, place);
    }
    match walk_numbers(alloc, walking, around, scope, first_parts(left, count))? {
        None => Ok(None),
        Some(numbers) => way_reached(
            alloc,
            walking,
            around,
            value,
            way,
            numbers.as_slice(),
            behind(at, count),
        ),
    }
}

/// A part of a value by one suffix after the other, of a target or to be taken out, and how many parts of the expression have been taken. It
/// fails where memory is wanting, and where variables are too many.
#[cycle(walk)]
#[tactic(auto, using(value_indices::proofs::Walks::walks))]
pub(crate) fn walk_suffixes(
    alloc: Global,
    walking: &mut Walking,
    around: &Around<'_>,
    scope: &Scope<'_>,
    is_target: bool,
    suffixes: &[Suffix],
    parts: &[Core],
    at: usize,
    value: Indices,
) -> Result<Option<(Indices, usize)>, AllocError>
    ensures value { IfOk result (λ made. coded.passed_in parts.now made ≡ walk.got (value_spec.suffixes_walk is_target suffixes.now
        (around_of around.now) (scope_of scope.now) (coded.left_behind parts.now at) value) (walk.seen walking.old)) }
    ensures walked { OnOk result (walk.seen walking.new ≡ walk.run (value_spec.suffixes_walk is_target suffixes.now (around_of around.now)
        (scope_of scope.now) (coded.left_behind parts.now at) value) (walk.seen walking.old)) }
{
    let mut value = value;
    let mut at = at;
    for suffix in suffixes {
        let place = suffix.place;
        match walk_way(
            alloc, walking, around, scope, place, parts, at, &value, suffix.way,
        )? {
            None => return Ok(None),
            Some((reached, left)) => {
                value = read_suffix(
                    alloc,
                    walking,
                    is_target,
                    place,
                    suffix.number,
                    &value,
                    reached.as_ref(),
                )?;
                at = left;
            }
        }
    }
    Ok(Some((value, at)))
}

/// `e.f[i]`, by its parts: no more indexes than the suffixes take, unless the value never ends. It fails where memory is wanting, and where variables are too many.
#[cycle(walk)]
#[tactic(auto, using(value_indices::proofs::Walks::walks))]
pub(crate) fn walk_part(
    alloc: Global,
    walking: &mut Walking,
    around: &Around<'_>,
    scope: &Scope<'_>,
    place: Place,
    suffixes: &[Suffix],
    parts: &[Core],
) -> Result<Indices, AllocError>
    ensures value { IfOk result (λ made. made ≡ walk.got (value_spec.part_forms place suffixes.now (coded.each_part parts.now)
        (around_of around.now) (scope_of scope.now)) (walk.seen walking.old)) }
    ensures walked { OnOk result (walk.seen walking.new ≡ walk.run (value_spec.part_forms place suffixes.now (coded.each_part parts.now)
        (around_of around.now) (scope_of scope.now)) (walk.seen walking.old)) }
{
    match parts {
        [] => wrong_value(alloc, walking, place),
        [base, indexes @ ..] => {
            let value = walk_expression(alloc, walking, around, scope, base, &Aim::Free)?;
            let left = left_after(suffixes, indexes.len());
            if left != 0 {
                return if_never_value(alloc, walking, place, &value);
            }
            let found = walk_suffixes(
                alloc, walking, around, scope, false, suffixes, indexes, 0, value,
            )?;
            Ok(value_of(found))
        }
    }
}

/// A value of which a part is replaced, if there is such a part. It fails where memory is wanting, and where variables are too many.
#[cycle(walk)]
#[tactic(auto, using(value_indices::proofs::Walks::walks))]
fn updated(
    alloc: Global,
    walking: &mut Walking,
    around: &Around<'_>,
    scope: &Scope<'_>,
    place: Place,
    number: u32,
    core: &Core,
    value: Indices,
    reached: Option<&Reached>,
) -> Result<Indices, AllocError>
    ensures value { IfOk result (λ made. made ≡ walk.got (value_spec.updated place number (part core.now) (around_of around.now) (scope_of scope.now) value
        (option_copied reached.entry)) (walk.seen walking.old)) }
    ensures walked { OnOk result (walk.seen walking.new ≡ walk.run (value_spec.updated place number (part core.now) (around_of around.now)
        (scope_of scope.now) value (option_copied reached.entry)) (walk.seen walking.old)) }
{
    match reached {
        None => if_never_value(alloc, walking, place, &value),
        Some(reached) => {
            let aim = put_aim(alloc, &reached.typ)?;
            let new = walk_expression(alloc, walking, around, scope, core, &aim)?;
            let nested = is_nested(core);
            put_ended(
                alloc, walking, around, place, number, nested, value, reached, &new,
            )
        }
    }
}

/// `[v with i = e]` and `[v with h .. l = e]`, by the way and the parts. It fails where memory is wanting, and where variables are too many.
#[cycle(walk)]
#[tactic(auto, using(value_indices::proofs::Walks::walks))]
pub(crate) fn walk_update(
    alloc: Global,
    walking: &mut Walking,
    around: &Around<'_>,
    scope: &Scope<'_>,
    place: Place,
    number: u32,
    way: Way,
    parts: &[Core],
) -> Result<Indices, AllocError>
    ensures value { IfOk result (λ made. made ≡ walk.got (value_spec.update_forms place number way (coded.each_part parts.now) (around_of around.now)
        (scope_of scope.now)) (walk.seen walking.old)) }
    ensures walked { OnOk result (walk.seen walking.new ≡ walk.run (value_spec.update_forms place number way (coded.each_part parts.now)
        (around_of around.now) (scope_of scope.now)) (walk.seen walking.old)) }
{
    match parts {
        [base, indexes @ .., core] => {
            let count = indexes_of(way);
            if indexes.len() != count {
                return wrong_value(alloc, walking, place);
            }
            let value = walk_expression(alloc, walking, around, scope, base, &Aim::Free)?;
            match walk_numbers(alloc, walking, around, scope, indexes)? {
                None => Ok(Indices::Never),
                Some(numbers) => {
                    let reached = reach(alloc, walking, around, &value, way, numbers.as_slice())?;
                    updated(
                        alloc,
                        walking,
                        around,
                        scope,
                        place,
                        number,
                        core,
                        value,
                        reached.as_ref(),
                    )
                }
            }
        }
        _ => wrong_value(alloc, walking, place),
    }
}
