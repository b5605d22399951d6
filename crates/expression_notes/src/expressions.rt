//! The walk over an expression.
ghost use Rattle.std.specs.Prelude.{◌≡◌, IfOk, OnOk};
ghost use Rattle.value_indices.specs.Walking as walk;
ghost use Rattle.pattern_leaves.specs.Settings.{around_of};
ghost use Rattle.expression_forms.specs.Scopes.{scope_of};
ghost use Rattle.expression_steps.specs.Coded as coded;
ghost use Rattle.expression_steps.specs.Expressions as spec;
ghost use Rattle.expression_steps.specs.Expressions.{part};
ghost use Rattle.expression_steps.specs.Parts.{Part};

use crate::branches::{walk_branches, walk_cases};
use crate::loops::{walk_foreach, walk_loop};
use crate::made::{walk_made, walk_place, walk_with};
use crate::reading::{walk_part, walk_update};
use crate::statements::{walk_block, walk_in};
use crate::targets::assign;
use crate::truths::{walk_guarded, walk_joined};
use crate::values::walk_row;
use call_notes::{Aim, settled, wrong_value};
use expression_forms::Scope;
use expression_steps::{Binding, end_node, goes_inward, if_end, is_made, makes_value};
use pattern_leaves::Around;
use sail_base::Place;
use sail_core::{Core, Giver, Kind, Way};
use std::alloc::{AllocError, Global};
use value_indices::{Indices, Walking};

/// A kind that takes a wanted type further in, or owes it by itself. It fails where memory is wanting, and where variables are too many.
#[cycle(walk)]
#[tactic(auto, using(value_indices::proofs::Walks::walks, expression_steps::proofs::Masses::weights))]
fn walk_inward(
    alloc: Global,
    walking: &mut Walking,
    around: &Around<'_>,
    scope: &Scope<'_>,
    place: Place,
    number: u32,
    kind: &Kind,
    parts: &[Core],
    aim: &Aim,
) -> Result<Indices, AllocError>
    ensures value { IfOk result (λ made. made ≡ walk.got (spec.inward place number kind.now (coded.each_part parts.now) (around_of around.now)
        (scope_of scope.now) aim.now) (walk.seen walking.old)) }
    ensures walked { OnOk result (walk.seen walking.new ≡ walk.run (spec.inward place number kind.now (coded.each_part parts.now) (around_of around.now)
        (scope_of scope.now) aim.now) (walk.seen walking.old)) }
{
    match kind {
        Kind::Cast(None) => walk_place(alloc, walking, around, scope, place, number, parts, aim),
        Kind::Block(statements) => {
            walk_block(
                alloc,
                walking,
                around,
                scope,
                place,
                number,
                statements.as_slice(),
                parts,
                aim,
            )
        }
        Kind::Let(arm) => {
            let giver = Giver::Arm(number, 0);
            let binding = Binding::Let(place, arm);
            walk_in(
                alloc, walking, around, scope, place, giver, &binding, parts, aim,
            )
        }
        Kind::Var(name, written) => {
            let giver = Giver::Arm(number, 0);
            let binding = Binding::Var(name, written);
            walk_in(
                alloc, walking, around, scope, place, giver, &binding, parts, aim,
            )
        }
        Kind::If(shape) => {
            let met = walk_branches(
                alloc, walking, around, scope, place, number, shape, parts, aim,
            )?;
            if_end(alloc, walking, around, place, parts, aim, met)
        }
        Kind::Match(arms, shape) => {
            walk_cases(
                alloc,
                walking,
                around,
                scope,
                place,
                number,
                false,
                shape,
                arms.as_slice(),
                parts,
                aim,
            )
        }
        Kind::Try(arms, shape) => {
            walk_cases(
                alloc,
                walking,
                around,
                scope,
                place,
                number,
                true,
                shape,
                arms.as_slice(),
                parts,
                aim,
            )
        }
        Kind::When => walk_guarded(alloc, walking, around, scope, place, parts, aim),
        _ => wrong_value(alloc, walking, place),
    }
}

/// A kind whose parts depend on one another. It fails where memory is wanting, and where variables are too many.
#[cycle(walk)]
#[tactic(auto, using(value_indices::proofs::Walks::walks))]
fn walk_parted(
    alloc: Global,
    walking: &mut Walking,
    around: &Around<'_>,
    scope: &Scope<'_>,
    place: Place,
    number: u32,
    kind: &Kind,
    parts: &[Core],
    aim: &Aim,
) -> Result<Indices, AllocError>
    ensures value { IfOk result (λ made. made ≡ walk.got (spec.parted place number kind.now (coded.each_part parts.now) (around_of around.now)
        (scope_of scope.now) aim.now) (walk.seen walking.old)) }
    ensures walked { OnOk result (walk.seen walking.new ≡ walk.run (spec.parted place number kind.now (coded.each_part parts.now) (around_of around.now)
        (scope_of scope.now) aim.now) (walk.seen walking.old)) }
{
    match kind {
        Kind::And => walk_joined(alloc, walking, around, scope, place, false, parts),
        Kind::Or => walk_joined(alloc, walking, around, scope, place, true, parts),
        Kind::Vector(shape) => {
            walk_row(
                alloc, walking, around, scope, place, number, false, shape, parts, aim,
            )
        }
        Kind::List(shape) => {
            walk_row(
                alloc, walking, around, scope, place, number, true, shape, parts, aim,
            )
        }
        Kind::With(named, fields) => {
            walk_with(
                alloc,
                walking,
                around,
                scope,
                place,
                number,
                *named,
                fields.as_slice(),
                parts,
            )
        }
        Kind::Part(suffixes) => {
            walk_part(
                alloc,
                walking,
                around,
                scope,
                place,
                suffixes.as_slice(),
                parts,
            )
        }
        Kind::WithItem => {
            walk_update(
                alloc,
                walking,
                around,
                scope,
                place,
                number,
                Way::Item,
                parts,
            )
        }
        Kind::WithSlice => {
            walk_update(
                alloc,
                walking,
                around,
                scope,
                place,
                number,
                Way::Slice,
                parts,
            )
        }
        Kind::Assign(targets) => {
            assign(
                alloc,
                walking,
                around,
                scope,
                place,
                targets.as_slice(),
                parts,
                0,
            )
        }
        Kind::Foreach(name, way) => {
            walk_foreach(alloc, walking, around, scope, place, name, *way, parts)
        }
        Kind::While => walk_loop(alloc, walking, around, scope, place, true, parts),
        Kind::Repeat => walk_loop(alloc, walking, around, scope, place, false, parts),
        _ => wrong_value(alloc, walking, place),
    }
}

/// Any other kind: parts from left to right, each with what is wanted of it from the start, or parts that depend on one another. It fails
/// where memory is wanting, and where variables are too many.
#[cycle(walk)]
#[tactic(auto, using(value_indices::proofs::Walks::walks, expression_steps::proofs::Masses::weights))]
fn walk_plain(
    alloc: Global,
    walking: &mut Walking,
    around: &Around<'_>,
    scope: &Scope<'_>,
    place: Place,
    number: u32,
    kind: &Kind,
    parts: &[Core],
    aim: &Aim,
) -> Result<Indices, AllocError>
    ensures value { IfOk result (λ made. made ≡ walk.got (spec.plain place number kind.now (coded.each_part parts.now) (around_of around.now)
        (scope_of scope.now) aim.now) (walk.seen walking.old)) }
    ensures walked { OnOk result (walk.seen walking.new ≡ walk.run (spec.plain place number kind.now (coded.each_part parts.now)
        (around_of around.now) (scope_of scope.now) aim.now) (walk.seen walking.old)) }
{
    if is_made(kind) {
        walk_made(
            alloc, walking, around, scope, place, number, kind, parts, aim,
        )
    } else {
        walk_parted(
            alloc, walking, around, scope, place, number, kind, parts, aim,
        )
    }
}

/// The walk over an expression of which this is wanted: what it owes and makes known is written down, and what is known of its value is
/// given. It fails where memory is wanting, and where variables are too many.
#[cycle(walk)]
#[tactic(auto, using(value_indices::proofs::Walks::walks))]
pub fn walk_expression(
    alloc: Global,
    walking: &mut Walking,
    around: &Around<'_>,
    scope: &Scope<'_>,
    core: &Core,
    aim: &Aim,
) -> Result<Indices, AllocError>
    ensures value { IfOk result (λ made. made ≡ walk.got (Part.walk (part core.now) (around_of around.now) (scope_of scope.now) aim.now)
        (walk.seen walking.old)) }
    ensures walked { OnOk result (walk.seen walking.new ≡ walk.run (Part.walk (part core.now) (around_of around.now) (scope_of scope.now) aim.now)
        (walk.seen walking.old)) }
{
    if goes_inward(&core.kind) {
        let value = walk_inward(
            alloc,
            walking,
            around,
            scope,
            core.place,
            core.number,
            &core.kind,
            core.parts.as_slice(),
            aim,
        )?;
        end_node(alloc, walking, core.number, makes_value(&core.kind), value)
    } else {
        let plain = walk_plain(
            alloc,
            walking,
            around,
            scope,
            core.place,
            core.number,
            &core.kind,
            core.parts.as_slice(),
            aim,
        )?;
        let ended = settled(alloc, walking, around, core.place, aim, plain)?;
        end_node(alloc, walking, core.number, makes_value(&core.kind), ended)
    }
}
