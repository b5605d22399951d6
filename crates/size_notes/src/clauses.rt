//! Clauses, each a walk of its own.
ghost use Rattle.std.specs.Prelude.{◌≡◌, IfOk, OnOk};
ghost use Rattle.value_indices.specs.Walking as walk;
ghost use Rattle.pattern_leaves.specs.Settings.{around_of};
ghost use Rattle.size_notes.specs.Bodies as spec;
ghost use Rattle.size_notes.specs.Reading.{IsAtRest};

use crate::behind::push_core;
use crate::parameters::read_beforehand;
use crate::steps::append_alone;
use call_arguments::Aim;
use constraint_gen::{Common, constrain, lesser, make_last, unwritten, walk_written};
use pattern_leaves::Around;
use sail_base::{Items, Place};
use sail_core::{Arm, Core, Giver, Kind};
use sail_types::{Con, Typ};
use std::alloc::{AllocError, Global};
use value_indices::{Made, Reading, Walking, copy_reading};

/// A clause under the constraint of its function: the types of its parameters, then its walk. It fails where memory is wanting, and where
/// variables are too many.
#[tactic(auto, using(value_indices::proofs::Walks::walks))]
fn walk_inside(
    alloc: Global,
    walking: &mut Walking,
    around: &Around<'_>,
    common: &Common<'_>,
    constraint: &Con,
    giver: Giver,
    arm: &Arm,
    core: &Core,
) -> Result<(), AllocError>
    ensures { OnOk result (walk.seen walking.new ≡ walk.run (spec.clause_inside constraint.now common.now.place giver
        (around_of around.now) common.now.types.now common.now.aim.now common.now.is_declared arm.now core.now) (walk.seen walking.old)) }
{
    constrain(alloc, walking, constraint)?;
    read_beforehand(
        alloc,
        walking,
        around,
        common.types,
        common.is_declared,
        arm,
    )?;
    walk_written(alloc, walking, around, common, giver, &[], arm, core)?;
    Ok(())
}

/// The walk over a clause by itself, where variables are counted from this number on. It fails where memory is wanting, and where
/// variables are too many.
fn walk_alone(
    alloc: Global,
    next: u32,
    around: &Around<'_>,
    common: &Common<'_>,
    constraint: &Con,
    giver: Giver,
    arm: &Arm,
    core: &Core,
) -> Result<Walking, AllocError>
    ensures { IfOk result (λ inner. walk.seen inner ≡ walk.restored (walk.run (spec.clause_inside constraint.now common.now.place giver
        (around_of around.now) common.now.types.now common.now.aim.now common.now.is_declared arm.now core.now)
        (walk.remembering (walk.begun next)))) }
{
    let mut inner = Walking::new(alloc, next);
    inner.remember()?;
    walk_inside(
        alloc, &mut inner, around, common, constraint, giver, arm, core,
    )?;
    inner.restore()?;
    Ok(inner)
}

/// A body as its types are read: of what no `val` declares, the one before it is of no matter.
fn sized_body(is_declared: bool, core: &Core) -> &Core
    ensures { result.now ≡ spec.sized_body is_declared core.now }
{
    if is_declared { core } else { unwritten(core) }
}

/// What is read of a clause. It fails where memory is wanting, and where variables are too many.
pub fn read_clause(
    alloc: Global,
    body: &mut Walking,
    around: &Around<'_>,
    common: &Common<'_>,
    constraint: &Con,
    giver: Giver,
    arm: &Arm,
    core: &Core,
) -> Result<(), AllocError>
    requires { IsAtRest (walk.seen body.old) }
    ensures { OnOk result (walk.seen body.new ≡ walk.run (spec.clause_read constraint.now common.now.place giver
        (around_of around.now) common.now.types.now common.now.aim.now common.now.is_declared arm.now core.now) (walk.seen body.old)) }
{
    let inner = walk_alone(
        alloc,
        body.next(),
        around,
        common,
        constraint,
        giver,
        arm,
        core,
    )?;
    let mut behind = Items::new(alloc);
    let sized = sized_body(common.is_declared, core);
    push_core(alloc, &mut behind, around.numbers, sized)?;
    append_alone(alloc, body, inner, behind.as_slice())
}

/// What is read of clauses of these arms, over as many bodies. It fails where memory is wanting, and where variables are too many.
fn read_arms(
    alloc: Global,
    body: &mut Walking,
    around: &Around<'_>,
    common: &Common<'_>,
    constraint: &Con,
    arms: &[Arm],
    cores: &[Core],
) -> Result<(), AllocError>
    requires { IsAtRest (walk.seen body.old) }
    ensures { OnOk result (walk.seen body.new ≡ walk.run (spec.arms_read constraint.now common.now.place common.now.number
        (around_of around.now) common.now.types.now common.now.aim.now common.now.is_declared arms.now cores.now) (walk.seen body.old)) }
{
    let count = lesser(arms.len(), cores.len());
    for at in 0..count {
        let arm = &arms[at];
        let core = &cores[at];
        let giver = Giver::Arm(common.number, arms.len() - at - 1);
        read_clause(alloc, body, around, common, constraint, giver, arm, core)?;
    }
    Ok(())
}

/// The arms of clauses; none of any other node.
pub fn arms_of(core: &Core) -> &[Arm]
    ensures { result.now ≡ spec.kind_arms (spec.core_kind core.now) }
{
    match &core.kind {
        Kind::Clauses(arms) => arms.as_slice(),
        _ => &[],
    }
}

/// What is read of the clauses of a function or a measure. It fails where memory is wanting, and where variables are too many.
pub fn read_clauses(
    alloc: Global,
    body: &mut Walking,
    around: &Around<'_>,
    constraint: &Con,
    types: &[Typ],
    aim: &Aim,
    is_declared: bool,
    core: &Core,
) -> Result<(), AllocError>
    requires { IsAtRest (walk.seen body.old) }
    ensures { OnOk result (walk.seen body.new ≡ walk.run (spec.clauses_read constraint.now (around_of around.now) types.now aim.now
        is_declared core.now) (walk.seen body.old)) }
{
    let common = Common {
        place: core.place,
        number: core.number,
        types,
        aim,
        is_declared,
    };
    read_arms(
        alloc,
        body,
        around,
        &common,
        constraint,
        arms_of(core),
        core.parts.as_slice(),
    )
}

/// The sizes of the type of what the clauses of a function give, at its place. It fails where memory is wanting.
fn read_result(
    alloc: Global,
    walking: &mut Walking,
    place: Place,
    reading: &Reading,
) -> Result<(), AllocError>
    ensures { OnOk result (walk.seen walking.new ≡ walk.run (spec.result_read place reading.now) (walk.seen walking.old)) }
{
    let reading = copy_reading(alloc, reading)?;
    walking.note_sizes(place, Made::ByType(reading))
}

/// What the clauses of a function at a place give, under its constraint: the sizes of its type are read before. It fails where memory is
/// wanting, and where variables are too many.
#[tactic(auto, using(value_indices::proofs::Walks::walks))]
fn last_inside(
    alloc: Global,
    walking: &mut Walking,
    constraint: &Con,
    place: Place,
    number: u32,
    reading: &Reading,
) -> Result<(), AllocError>
    ensures { OnOk result (walk.seen walking.new ≡ walk.run (spec.last_inside constraint.now place number reading.now) (walk.seen walking.old)) }
{
    constrain(alloc, walking, constraint)?;
    read_result(alloc, walking, place, reading)?;
    make_last(alloc, walking, number, reading)
}

/// The same in a walk by itself, where variables are counted from this number on. It fails where memory is wanting, and where variables are
/// too many.
fn last_alone(
    alloc: Global,
    next: u32,
    constraint: &Con,
    place: Place,
    number: u32,
    reading: &Reading,
) -> Result<Walking, AllocError>
    ensures { IfOk result (λ inner. walk.seen inner ≡ walk.restored (walk.run (spec.last_inside constraint.now place number reading.now)
        (walk.remembering (walk.begun next)))) }
{
    let mut inner = Walking::new(alloc, next);
    inner.remember()?;
    last_inside(alloc, &mut inner, constraint, place, number, reading)?;
    inner.restore()?;
    Ok(inner)
}

/// What is read of that. It fails where memory is wanting, and where variables are too many.
pub fn read_last(
    alloc: Global,
    body: &mut Walking,
    constraint: &Con,
    place: Place,
    number: u32,
    reading: &Reading,
) -> Result<(), AllocError>
    requires { IsAtRest (walk.seen body.old) }
    ensures { OnOk result (walk.seen body.new ≡ walk.run (spec.last_read constraint.now place number reading.now) (walk.seen body.old)) }
{
    let inner = last_alone(alloc, body.next(), constraint, place, number, reading)?;
    append_alone(alloc, body, inner, &[])
}
