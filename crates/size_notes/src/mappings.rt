//! Mappings: each clause forwards, then backwards.
ghost use Rattle.std.specs.Prelude.{◌≡◌, IfOk, OnOk, length, min};
ghost use Rattle.value_indices.specs.Walking as walk;
ghost use Rattle.pattern_leaves.specs.Settings.{around_of};
ghost use Rattle.size_splits.specs.Bodies.{body_read};
ghost use Rattle.size_notes.specs.Bodies as spec;
ghost use Rattle.size_notes.specs.Reading.{IsAtRest};

use crate::clauses::{arms_of, read_clause};
use crate::steps::ended_body;
use call_arguments::Aim;
use constraint_gen::{Common, lesser};
use pattern_leaves::Around;
use sail_base::{Items, Place};
use sail_core::{Arm, Core, Direction, Giver};
use sail_types::Con;
use size_splits::BodySteps;
use std::alloc::{AllocError, Global};
use type_arguments::copy_typ;
use value_indices::{Reading, Walking};

/// A direction with the arms and the bodies of its clauses.
#[derive(Clone, Copy)]
struct Side<'a> {
    direction: &'a Direction,
    arms: &'a [Arm],
    cores: &'a [Core],
}

/// What is read of a clause of a direction, with so many behind it. It fails where memory is wanting, and where variables are too many.
fn read_way(
    alloc: Global,
    body: &mut Walking,
    place: Place,
    around: &Around<'_>,
    direction: &Direction,
    behind: usize,
    arm: &Arm,
    core: &Core,
) -> Result<(), AllocError>
    requires { IsAtRest (walk.seen body.old) }
    ensures { OnOk result (walk.seen body.new ≡ walk.run (spec.way_read place (around_of around.now) direction.now behind arm.now core.now)
        (walk.seen body.old)) }
{
    let typ = copy_typ(alloc, &direction.result)?;
    let aim = Aim::due(Reading::Of(typ, Items::new(alloc), Items::new(alloc)));
    let mut types = Items::new(alloc);
    types.push(copy_typ(alloc, &direction.parameter)?)?;
    let common = Common {
        place,
        number: direction.body.number,
        types: types.as_slice(),
        aim: &aim,
        is_declared: true,
    };
    let free = Con::Truth(true);
    let giver = Giver::Arm(direction.body.number, behind);
    read_clause(alloc, body, around, &common, &free, giver, arm, core)
}

/// How many clauses both sides have whole.
fn common_count(first: &Side<'_>, second: &Side<'_>) -> usize
    ensures { result ≡ min (min (length first.now.arms.now) (length first.now.cores.now))
        (min (length second.now.arms.now) (length second.now.cores.now)) }
{
    let one = lesser(first.arms.len(), first.cores.len());
    let other = lesser(second.arms.len(), second.cores.len());
    lesser(one, other)
}

/// What is read of clauses of both directions of a mapping. It fails where memory is wanting, and where variables are too many.
fn read_both(
    alloc: Global,
    body: &mut Walking,
    around: &Around<'_>,
    place: Place,
    forwards: &Side<'_>,
    backwards: &Side<'_>,
) -> Result<(), AllocError>
    requires { IsAtRest (walk.seen body.old) }
    ensures { OnOk result (walk.seen body.new ≡ walk.run (spec.both_read place (around_of around.now) forwards.now.direction.now
        backwards.now.direction.now forwards.now.arms.now forwards.now.cores.now backwards.now.arms.now backwards.now.cores.now)
        (walk.seen body.old)) }
{
    let count = common_count(forwards, backwards);
    let arms = forwards.arms;
    let cores = forwards.cores;
    let backs = backwards.arms;
    let givens = backwards.cores;
    for at in 0..count {
        let arm = &arms[at];
        let core = &cores[at];
        let left = arms.len() - at - 1;
        read_way(
            alloc,
            body,
            place,
            around,
            forwards.direction,
            left,
            arm,
            core,
        )?;
        let back = &backs[at];
        let given = &givens[at];
        let before = backs.len() - at - 1;
        read_way(
            alloc,
            body,
            place,
            around,
            backwards.direction,
            before,
            back,
            given,
        )?;
    }
    Ok(())
}

/// What is read of a mapping. It fails where memory is wanting, and where variables are too many.
pub fn read_mapping(
    alloc: Global,
    around: &Around<'_>,
    forwards: &Direction,
    backwards: &Direction,
) -> Result<BodySteps, AllocError>
    ensures { IfOk result (λ body. body_read body ≡ spec.body_of (spec.mapping_read (around_of around.now) forwards.now backwards.now)) }
{
    let mut body = Walking::new(alloc, 0);
    let first = Side {
        direction: forwards,
        arms: arms_of(&forwards.body),
        cores: forwards.body.parts.as_slice(),
    };
    let second = Side {
        direction: backwards,
        arms: arms_of(&backwards.body),
        cores: backwards.body.parts.as_slice(),
    };
    read_both(alloc, &mut body, around, forwards.place, &first, &second)?;
    ended_body(alloc, body)
}
