//! What assignments owe.
ghost use Rattle.std.specs.Prelude.{◌≡◌, map, IfOk, OnOk};
ghost use Rattle.value_indices.specs.Walking as walk;
ghost use Rattle.pattern_leaves.specs.Settings.{around_of};
ghost use Rattle.expression_forms.specs.Spots.{spot_of};
ghost use Rattle.expression_forms.specs.Scopes.{scope_of};
ghost use Rattle.expression_steps.specs.Coded as coded;
ghost use Rattle.expression_steps.specs.Targets as target_spec;
ghost use Rattle.expression_notes.specs.Chains.{written_back};

use crate::expressions::walk_expression;
use crate::parts::{walk_each, walk_numbers};
use crate::reading::{walk_suffixes, walk_way};
use call_notes::{Aim, callee_types, wrong_value};
use expression_forms::{Scope, Spot};
use expression_steps::{
    argument_aims, behind, call_found, first_parts, has_no_way, is_nested, late_count, late_found,
    left_at, no_spot, part_found, read_ahead, spot_name, spot_register, tuple_found,
};
use pattern_leaves::Around;
use sail_base::{Items, Place};
use sail_core::{Core, Suffix, Target, TargetKind};
use std::alloc::{AllocError, Global};
use value_indices::{Indices, Walking, copy_indices};

/// A part of a spot, if it is there: all but the last suffix are read. It fails where memory is wanting, and where variables are too many.
#[cycle(walk)]
#[tactic(auto, using(value_indices::proofs::Walks::walks))]
fn spot_within(
    alloc: Global,
    walking: &mut Walking,
    around: &Around<'_>,
    scope: &Scope<'_>,
    place: Place,
    number: u32,
    suffixes: &[Suffix],
    base: Spot,
    parts: &[Core],
    at: usize,
) -> Result<Option<(Spot, usize)>, AllocError>
    ensures value { IfOk result (λ made. coded.spotted_in (around_of around.now) parts.now made ≡ walk.got (target_spec.part_of place number suffixes.now
        (around_of around.now) (scope_of scope.now) (spot_of (around_of around.now) base) (coded.left_behind parts.now at)) (walk.seen walking.old)) }
    ensures walked { OnOk result (walk.seen walking.new ≡ walk.run (target_spec.part_of place number suffixes.now (around_of around.now) (scope_of
        scope.now) (spot_of (around_of around.now) base) (coded.left_behind parts.now at)) (walk.seen walking.old)) }
{
    let held = base.read(alloc, walking, around)?;
    match suffixes {
        [] => no_spot(alloc, walking, place),
        [read @ .., last] => {
            let value = copy_indices(alloc, &held)?;
            match walk_suffixes(alloc, walking, around, scope, true, read, parts, at, value)? {
                None => Ok(None),
                Some((value, at)) => {
                    let reached = walk_way(
                        alloc, walking, around, scope, last.place, parts, at, &value, last.way,
                    )?;
                    part_found(alloc, number, last, base, held, reached)
                }
            }
        }
    }
}

/// A part of what is there late: it is read, then come the indexes of all suffixes, then the ways. It fails where memory is wanting, and where
/// variables are too many.
#[cycle(walk)]
#[tactic(auto, using(value_indices::proofs::Walks::walks))]
fn spot_late(
    alloc: Global,
    walking: &mut Walking,
    around: &Around<'_>,
    scope: &Scope<'_>,
    place: Place,
    number: u32,
    suffixes: &[Suffix],
    base: Spot,
    parts: &[Core],
    at: usize,
) -> Result<Option<(Spot, usize)>, AllocError>
    ensures value { IfOk result (λ made. coded.spotted_in (around_of around.now) parts.now made ≡ walk.got (target_spec.spotted_late place number
        suffixes.now (around_of around.now) (scope_of scope.now) (spot_of (around_of around.now) base) (coded.left_behind parts.now at))
        (walk.seen walking.old)) }
    ensures walked { OnOk result (walk.seen walking.new ≡ walk.run (target_spec.spotted_late place number suffixes.now (around_of around.now)
        (scope_of scope.now) (spot_of (around_of around.now) base) (coded.left_behind parts.now at)) (walk.seen walking.old)) }
{
    let left = left_at(parts, at);
    let many = left.len();
    if has_no_way(suffixes, many) {
        return no_spot(alloc, walking, place);
    }
    let ahead = read_ahead(alloc, walking, around, &base)?;
    let count = late_count(suffixes, many);
    match walk_numbers(alloc, walking, around, scope, first_parts(left, count))? {
        None => Ok(None),
        Some(numbers) => late_found(
            alloc,
            walking,
            around,
            place,
            number,
            suffixes,
            base,
            ahead,
            numbers.as_slice(),
            behind(at, count),
        ),
    }
}

/// A part of what a target is, if it is there. It fails where memory is wanting, and where variables are too many.
#[cycle(walk)]
#[tactic(auto, using(value_indices::proofs::Walks::walks))]
fn spot_part(
    alloc: Global,
    walking: &mut Walking,
    around: &Around<'_>,
    scope: &Scope<'_>,
    place: Place,
    number: u32,
    suffixes: &[Suffix],
    found: Option<(Spot, usize)>,
    parts: &[Core],
) -> Result<Option<(Spot, usize)>, AllocError>
    ensures value { IfOk result (λ made. coded.spotted_in (around_of around.now) parts.now made ≡ walk.got (target_spec.then_spot (target_spec.part_within
        place number suffixes.now (around_of around.now) (scope_of scope.now)) (coded.spotted_in (around_of around.now) parts.now found))
        (walk.seen walking.old)) }
    ensures walked { OnOk result (walk.seen walking.new ≡ walk.run (target_spec.then_spot (target_spec.part_within place number suffixes.now
        (around_of around.now) (scope_of scope.now)) (coded.spotted_in (around_of around.now) parts.now found)) (walk.seen walking.old)) }
{
    match found {
        None => Ok(None),
        Some((base, at)) => {
            if !base.is_base() {
                return no_spot(alloc, walking, place);
            }
            if base.is_late() {
                spot_late(
                    alloc, walking, around, scope, place, number, suffixes, base, parts, at,
                )
            } else {
                spot_within(
                    alloc, walking, around, scope, place, number, suffixes, base, parts, at,
                )
            }
        }
    }
}

/// Targets in order. It fails where memory is wanting, and where variables are too many.
#[cycle(walk)]
#[tactic(auto, using(value_indices::proofs::Walks::walks))]
fn spot_each(
    alloc: Global,
    walking: &mut Walking,
    around: &Around<'_>,
    scope: &Scope<'_>,
    targets: &[Target],
    parts: &[Core],
    at: usize,
) -> Result<Option<(Items<Spot>, usize)>, AllocError>
    ensures value { IfOk result (λ made. coded.spotted_all_in (around_of around.now) parts.now made ≡ walk.got (target_spec.each_spot (map
        target_spec.spotting targets.now) (around_of around.now) (scope_of scope.now) (coded.left_behind parts.now at)) (walk.seen walking.old)) }
    ensures walked { OnOk result (walk.seen walking.new ≡ walk.run (target_spec.each_spot (map target_spec.spotting targets.now)
        (around_of around.now) (scope_of scope.now) (coded.left_behind parts.now at)) (walk.seen walking.old)) }
{
    let mut at = at;
    let mut spots = Items::new(alloc);
    for target in targets {
        match spot_target(alloc, walking, around, scope, target, parts, at)? {
            None => return Ok(None),
            Some((spot, left)) => {
                spots.push(spot)?;
                at = left;
            }
        }
    }
    Ok(Some((spots, at)))
}

/// What a target is, if it is there, and how many parts of the assignment have been taken for its arguments and indexes. It fails where
/// memory is wanting, and where variables are too many.
#[cycle(walk)]
#[tactic(auto, using(value_indices::proofs::Walks::walks))]
fn spot_target(
    alloc: Global,
    walking: &mut Walking,
    around: &Around<'_>,
    scope: &Scope<'_>,
    target: &Target,
    parts: &[Core],
    at: usize,
) -> Result<Option<(Spot, usize)>, AllocError>
    ensures value { IfOk result (λ made. coded.spotted_in (around_of around.now) parts.now made ≡ walk.got (target_spec.spotting target.now
        (around_of around.now) (scope_of scope.now) (coded.left_behind parts.now at)) (walk.seen walking.old)) }
    ensures walked { OnOk result (walk.seen walking.new ≡ walk.run (target_spec.spotting target.now (around_of around.now) (scope_of scope.now)
        (coded.left_behind parts.now at)) (walk.seen walking.old)) }
{
    let place = target.place;
    let number = target.number;
    let targets = target.parts.as_slice();
    match &target.kind {
        TargetKind::Variable(name) => spot_name(
            alloc, walking, around, scope, place, number, name, targets, parts, at,
        ),
        TargetKind::Register(register) => spot_register(
            alloc, walking, around, scope, place, number, *register, targets, parts, at,
        ),
        TargetKind::Call(count, reader, writer) => match targets {
            [] => {
                let arguments = first_parts(left_at(parts, at), *count as usize);
                let aims = argument_aims(alloc, callee_types(around, writer.callee))?;
                let values = walk_each(alloc, walking, around, scope, arguments, aims.as_slice())?;
                call_found(
                    alloc, place, number, *reader, *writer, arguments, values, at,
                )
            }
            _ => no_spot(alloc, walking, place),
        },
        TargetKind::Tuple => {
            let found = spot_each(alloc, walking, around, scope, targets, parts, at)?;
            Ok(tuple_found(place, number, found))
        }
        TargetKind::Part(suffixes) => match targets {
            [base] => {
                let found = spot_target(alloc, walking, around, scope, base, parts, at)?;
                let suffixes = suffixes.as_slice();
                spot_part(
                    alloc, walking, around, scope, place, number, suffixes, found, parts,
                )
            }
            _ => no_spot(alloc, walking, place),
        },
    }
}

/// The assignment of the one part that is left to the last of the targets. It fails where memory is wanting, and where variables are too
/// many.
#[cycle(walk)]
#[tactic(auto, using(value_indices::proofs::Walks::walks))]
fn assign_last(
    alloc: Global,
    walking: &mut Walking,
    around: &Around<'_>,
    scope: &Scope<'_>,
    place: Place,
    spot: &Spot,
    parts: &[Core],
) -> Result<Indices, AllocError>
    ensures value { IfOk result (λ made. made ≡ walk.got (target_spec.assigned_one place (around_of around.now) (scope_of scope.now) (spot_of
        (around_of around.now) spot.now) (coded.each_part parts.now)) (walk.seen walking.old)) }
    ensures walked { OnOk result (walk.seen walking.new ≡ walk.run (target_spec.assigned_one place (around_of around.now) (scope_of scope.now)
        (spot_of (around_of around.now) spot.now) (coded.each_part parts.now)) (walk.seen walking.old)) }
{
    match parts {
        [core] => {
            let aim = Aim::given(spot.typ(alloc, around)?);
            let value = walk_expression(alloc, walking, around, scope, core, &aim)?;
            spot.assign(alloc, walking, around, place, is_nested(core), &value)
        }
        _ => wrong_value(alloc, walking, place),
    }
}

/// A value that stands behind targets, which is written to the last of them, and what each gives to the one before it. It fails where memory
/// is wanting.
fn assign_back(
    alloc: Global,
    walking: &mut Walking,
    around: &Around<'_>,
    place: Place,
    spots: &[Spot],
    value: Indices,
) -> Result<Indices, AllocError>
    ensures value { IfOk result (λ made. made ≡ walk.got (written_back place (map (spot_of (around_of around.now)) spots.now) value)
        (walk.seen walking.old)) }
    ensures walked { OnOk result (walk.seen walking.new ≡ walk.run (written_back place (map (spot_of (around_of around.now)) spots.now) value)
        (walk.seen walking.old)) }
{
    let mut value = value;
    let mut left = spots.len();
    while left > 0 {
        left -= 1;
        value = spots[left].assign(alloc, walking, around, place, false, &value)?;
    }
    Ok(value)
}

/// An assignment to what a target is, and to others behind it, if there are some. It fails where memory is wanting, and where variables are
/// too many.
#[cycle(walk)]
#[tactic(auto, using(value_indices::proofs::Walks::walks))]
fn assign_to(
    alloc: Global,
    walking: &mut Walking,
    around: &Around<'_>,
    scope: &Scope<'_>,
    place: Place,
    targets: &[Target],
    spot: Spot,
    parts: &[Core],
    at: usize,
) -> Result<Indices, AllocError>
    ensures value { IfOk result (λ made. made ≡ walk.got (target_spec.assigned_to place (map target_spec.spotting targets.now) (target_spec.assigned
        place (map target_spec.spotting targets.now) (around_of around.now) (scope_of scope.now)) (around_of around.now) (scope_of scope.now) (spot_of
        (around_of around.now) spot) (coded.left_behind parts.now at)) (walk.seen walking.old)) }
    ensures walked { OnOk result (walk.seen walking.new ≡ walk.run (target_spec.assigned_to place (map target_spec.spotting targets.now)
        (target_spec.assigned place (map target_spec.spotting targets.now) (around_of around.now) (scope_of scope.now)) (around_of around.now)
        (scope_of scope.now) (spot_of (around_of around.now) spot) (coded.left_behind parts.now at)) (walk.seen walking.old)) }
{
    let mut spot = spot;
    let mut at = at;
    let mut before: Items<Spot> = Items::new(alloc);
    for target in targets {
        match spot_target(alloc, walking, around, scope, target, parts, at)? {
            None => {
                before.push(spot)?;
                return assign_back(
                    alloc,
                    walking,
                    around,
                    place,
                    before.as_slice(),
                    Indices::Never,
                );
            }
            Some((inner, left)) => {
                before.push(spot)?;
                spot = inner;
                at = left;
            }
        }
    }
    let left = left_at(parts, at);
    let value = assign_last(alloc, walking, around, scope, place, &spot, left)?;
    assign_back(alloc, walking, around, place, before.as_slice(), value)
}

/// `a = b = e`, by the targets, and the parts behind so many that have been taken. It fails where memory is wanting, and where variables
/// are too many.
#[cycle(walk)]
#[tactic(auto, using(value_indices::proofs::Walks::walks))]
pub(crate) fn assign(
    alloc: Global,
    walking: &mut Walking,
    around: &Around<'_>,
    scope: &Scope<'_>,
    place: Place,
    targets: &[Target],
    parts: &[Core],
    at: usize,
) -> Result<Indices, AllocError>
    ensures value { IfOk result (λ made. made ≡ walk.got (target_spec.assigned place (map target_spec.spotting targets.now) (around_of around.now)
        (scope_of scope.now) (coded.left_behind parts.now at)) (walk.seen walking.old)) }
    ensures walked { OnOk result (walk.seen walking.new ≡ walk.run (target_spec.assigned place (map target_spec.spotting targets.now)
        (around_of around.now) (scope_of scope.now) (coded.left_behind parts.now at)) (walk.seen walking.old)) }
{
    match targets {
        [] => wrong_value(alloc, walking, place),
        [target, others @ ..] => {
            match spot_target(alloc, walking, around, scope, target, parts, at)? {
                None => Ok(Indices::Never),
                Some((spot, at)) => assign_to(
                    alloc, walking, around, scope, place, others, spot, parts, at,
                ),
            }
        }
    }
}
