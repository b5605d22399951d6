//! Mappings: each clause forwards, then backwards.
ghost use Rattle.std.specs.Prelude.{◌≡◌, ◌==◌, ◌&&◌, OnOk, length, min, option_map};
ghost use Rattle.sail_core.specs.declared.tree.Core.{out-Core};
ghost use Rattle.value_indices.specs.Walking as walk;
ghost use Rattle.pattern_leaves.specs.Settings.{around_of};
ghost use Rattle.function_notes.specs.Functions as spec;

use crate::clauses::{Common, end_clauses, lesser, walk_clause};
use call_arguments::Aim;
use pattern_leaves::Around;
use sail_base::{Items, Place};
use sail_core::{Arm, Core, Direction, Giver, Kind};
use std::alloc::{AllocError, Global};
use type_arguments::copy_typ;
use value_indices::{Reading, Walking};

/// A direction with the arms and the bodies of its clauses.
#[derive(Clone, Copy)]
struct Side<'a> {
    direction: &'a Direction,
    arms: &'a [Arm],
    bodies: &'a [Core],
}

/// A clause of a direction, with so many behind it. The one error is want of memory, also of numbers for variables.
fn walk_direction(
    alloc: Global,
    walking: &mut Walking,
    place: Place,
    around: &Around<'_>,
    direction: &Direction,
    behind: usize,
    arm: &Arm,
    body: &Core,
) -> Result<(), AllocError>
    ensures { OnOk result (walk.seen walking.new ≡ walk.run (spec.direction_walk place (around_of around.now) direction.now behind arm.now
        body.now) (walk.seen walking.old)) }
{
    let typ = copy_typ(alloc, &direction.result)?;
    let aim = Aim::due(Reading::Of(typ, Items::new(alloc), Items::new(alloc)));
    let mut types = Items::new(alloc);
    types.push(copy_typ(alloc, &direction.parameter)?)?;
    let common = Common {
        place,
        number: direction.body.number,
        types: types.as_slice(),
        aim: &aim,
        is_declared: true,
    };
    let giver = Giver::Arm(direction.body.number, behind);
    walk_clause(alloc, walking, around, &common, giver, &[], arm, body)?;
    Ok(())
}

/// How many clauses a side has whole.
fn clause_count(side: &Side<'_>) -> usize
    ensures { result ≡ min (length side.now.arms.now) (length side.now.bodies.now) }
{
    lesser(side.arms.len(), side.bodies.len())
}

/// Whether a side has exactly so many clauses.
fn has_clauses(side: &Side<'_>, count: usize) -> bool
    ensures { result ≡ (length side.now.arms.now == count) && (length side.now.bodies.now == count) }
{
    side.arms.len() == count && side.bodies.len() == count
}

/// How many clauses both sides have whole.
fn common_count(first: &Side<'_>, second: &Side<'_>) -> usize
    ensures { result ≡ min (min (length first.now.arms.now) (length first.now.bodies.now))
        (min (length second.now.arms.now) (length second.now.bodies.now)) }
{
    lesser(clause_count(first), clause_count(second))
}

/// Whether both sides have exactly so many clauses.
fn have_clauses(first: &Side<'_>, second: &Side<'_>, count: usize) -> bool
    ensures { result ≡ ((length first.now.arms.now == count) && (length first.now.bodies.now == count))
        && ((length second.now.arms.now == count) && (length second.now.bodies.now == count)) }
{
    has_clauses(first, count) && has_clauses(second, count)
}

/// Clauses of both directions of a mapping. The one error is want of memory, also of numbers for variables.
fn walk_both(
    alloc: Global,
    walking: &mut Walking,
    around: &Around<'_>,
    place: Place,
    forwards: &Side<'_>,
    backwards: &Side<'_>,
) -> Result<(), AllocError>
    ensures { OnOk result (walk.seen walking.new ≡ walk.run (spec.both_walk place (around_of around.now) forwards.now.direction.now
        backwards.now.direction.now forwards.now.arms.now forwards.now.bodies.now backwards.now.arms.now backwards.now.bodies.now)
        (walk.seen walking.old)) }
{
    let count = common_count(forwards, backwards);
    let arms = forwards.arms;
    let bodies = forwards.bodies;
    let backs = backwards.arms;
    let givens = backwards.bodies;
    for at in 0..count {
        let arm = &arms[at];
        let body = &bodies[at];
        let left = arms.len() - at - 1;
        walk_direction(
            alloc,
            walking,
            place,
            around,
            forwards.direction,
            left,
            arm,
            body,
        )?;
        let back = &backs[at];
        let given = &givens[at];
        let before = backs.len() - at - 1;
        walk_direction(
            alloc,
            walking,
            place,
            around,
            backwards.direction,
            before,
            back,
            given,
        )?;
    }
    let all = have_clauses(forwards, backwards, count);
    end_clauses(alloc, walking, place, all)
}

/// The arms of clauses; none where a node has none.
fn arms_of(core: &Core) -> Option<&[Arm]>
    ensures { option_map (λ arms. arms.now) result ≡ spec.clause_arms (out-Core core.now).kind }
{
    match &core.kind {
        Kind::Clauses(arms) => Some(arms.as_slice()),
        _ => None,
    }
}

/// A mapping. The one error is want of memory, also of numbers for variables.
pub fn walk_mapping(
    alloc: Global,
    walking: &mut Walking,
    around: &Around<'_>,
    forwards: &Direction,
    backwards: &Direction,
) -> Result<(), AllocError>
    ensures { OnOk result (walk.seen walking.new ≡ walk.run (spec.mapping_walk (around_of around.now) forwards.now backwards.now)
        (walk.seen walking.old)) }
{
    let place = forwards.place;
    match arms_of(&forwards.body) {
        None => walking.wrong(alloc, place),
        Some(arms) => match arms_of(&backwards.body) {
            None => walking.wrong(alloc, place),
            Some(backs) => {
                let first = Side {
                    direction: forwards,
                    arms,
                    bodies: forwards.body.parts.as_slice(),
                };
                let second = Side {
                    direction: backwards,
                    arms: backs,
                    bodies: backwards.body.parts.as_slice(),
                };
                walk_both(alloc, walking, around, place, &first, &second)
            }
        },
    }
}
