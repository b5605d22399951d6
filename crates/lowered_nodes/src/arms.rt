//! Arms and branches: what is noted in one is gone behind it.
ghost use Rattle.std.specs.Prelude.{◌≡◌, ℕ, [], ◌∷◌, true, OnOk};
ghost use Rattle.sail_types.specs.declared.shapes.Shape.TheVariants as shape;
ghost use Rattle.sail_core.specs.declared.tree.Kind.TheVariants as kind;
ghost use Rattle.lowered_pieces.specs.Emitted.{Emits, no_labels};
ghost use Rattle.lowered_pieces.specs.Places.{Naming};
ghost use Rattle.lowered_pieces.specs.Forms.{enter_code};
ghost use Rattle.lowered_steps.specs.declared.tails.Tail.{Tail};
ghost use Rattle.lowered_steps.specs.Setting.{kit_for};
ghost use Rattle.lowered_steps.specs.Stands.{depths_of};
ghost use Rattle.lowered_steps.specs.Tails.{tail_of};
ghost use Rattle.lowered_nodes.specs.Walk as spec;

use crate::bindings::put_block;
use crate::branches::put_again;
use crate::operands::put_held;
use crate::walk::{Walk, put_node};
use lowered_ends::{arm_steps, list_arm, list_noted, made_ends, node_ends};
use lowered_pieces::Coding;
use lowered_slots::Place;
use lowered_steps::{
    Levels, Making, Matched, Scope, Stand, Tail, depth_here, depth_of, end_arm, further, put_looks,
    put_made, put_thrown,
};
use model_state::Cause;
use sail_base::{Items, Place as TextPlace};
use sail_core::{Arm, Core, Giver, Statement};
use std::alloc::AllocError;

/// What is done where no arm is taken.
#[derive(Clone, Copy)]
pub enum Otherwise {
    /// The run stops at this place.
    Stops(TextPlace),
    /// What is matched was thrown, and is thrown on.
    Throws,
    /// No.
    Falls,
}

/// Branches begin with what was noted before them. It fails where memory is wanting.
fn put_enter<'x>(
    walk: &'x Walk<'x>,
    coding: &mut Coding,
    levels: &'x Levels<'x>,
    noted: &'x [u32],
) -> Result<(), AllocError>
    ensures { OnOk result (Emits coding.old coding.new
        (λ name first. enter_code (kit_for walk.now.setting.now name) (depths_of levels.now) noted.now) no_labels) }
{
    match noted {
        [] => Ok(()),
        [variable, rest @ ..] => {
            let integer = walk.setting.integer;
            let inner = Place::Number(*variable, further(depth_here(&*levels)?, 1)?);
            let outer = Place::Number(*variable, depth_of(*variable, &*levels)?);
            coding.put_copy(inner, integer, outer, integer)?;
            put_enter(&*walk, coding, &*levels, rest)
        }
    }
}

/// A branch, or a turn of a loop: what is noted in it is gone behind it. It fails where memory is wanting.
#[cycle(lowering)]
pub fn put_inside<'x>(
    walk: &'x Walk<'x>,
    coding: &mut Coding,
    stand: &'x Stand<'x>,
    tail: &'x Tail<'x>,
    node: &'x Core,
) -> Result<(), AllocError>
    requires { (name : Naming) → spec.node_ok walk.now name node.now ≡ true }
    ensures { OnOk result (spec.Puts coding.old coding.new walk.now stand.now tail.now (λ name. spec.inside_for walk.now name node.now)) }
{
    let mut noted = Items::new(walk.alloc);
    list_noted(walk.alloc, &mut noted, walk.setting, walk.around, &*node)?;
    put_enter(&*walk, coding, stand.levels, noted.as_slice())?;
    let levels = Levels::Within(noted.as_slice(), stand.levels);
    let stand = Stand {
        levels: &levels,
        ..*stand
    };
    put_node(&*walk, coding, &stand, &*tail, &*node)
}

/// One arm: what it looks at, and its body once for all types. It fails where memory is wanting.
#[cycle(lowering)]
pub fn put_arm<'x>(
    walk: &'x Walk<'x>,
    coding: &mut Coding,
    stand: &'x Stand<'x>,
    tail: &'x Tail<'x>,
    giver: Giver,
    matched: &Matched<'_>,
    arm: &'x Arm,
    number: u32,
    statements: &'x [Statement],
    parts: &'x [Core],
) -> Result<(), AllocError>
    requires { (name : Naming) → spec.block_ok walk.now name statements.now parts.now ≡ true }
    ensures { OnOk result (spec.Puts coding.old coding.new walk.now stand.now tail.now
        (λ name. spec.arm_for walk.now name giver matched.now arm.now number statements.now parts.now)) }
{
    let hand = put_looks(
        walk.alloc,
        coding,
        walk.setting,
        giver,
        matched,
        arm_steps(&*arm),
        &*stand,
    )?;
    let scope = Scope::Inside(hand.names.as_slice(), stand.scope);
    let inner = Stand {
        scope: &scope,
        temp: hand.free,
        ..*stand
    };
    put_block(
        &*walk,
        coding,
        &inner,
        &Tail::Moves(hand.free, &*stand, &*tail),
        number,
        &*statements,
        &*parts,
    )
}

/// An arm, and the others behind it: what is noted in it is gone behind it. It fails where memory is wanting.
#[cycle(lowering)]
fn put_choice<'x>(
    walk: &'x Walk<'x>,
    coding: &mut Coding,
    stand: &'x Stand<'x>,
    tail: &'x Tail<'x>,
    node: u32,
    matched: &Matched<'_>,
    arm: &'x Arm,
    rest: &'x [Arm],
    bodies: &'x [Core],
    otherwise: Otherwise,
) -> Result<(), AllocError>
    requires { (name : Naming) → spec.all_lowered_for walk.now name bodies.now ≡ true }
    ensures { OnOk result (spec.Puts coding.old coding.new walk.now stand.now tail.now
        (λ name. spec.first_for walk.now name node matched.now (arm.now ∷ rest.now) bodies.now otherwise)) }
{
    match bodies {
        [] => Ok(()),
        [body, others @ ..] => {
            let giver = Giver::Arm(node, rest.len());
            let label = coding.take_labels(2)?;
            let end = further(label, 1)?;
            put_taken(
                &*walk, coding, &*stand, &*tail, giver, matched, &*arm, node, body, label,
            )?;
            end_arm(coding, end, label)?;
            put_first(
                &*walk, coding, &*stand, &*tail, node, matched, &*rest, others, otherwise,
            )?;
            coding.put_label(end)
        }
    }
}

/// An arm whose body is this one, inside of what was noted before; where it isn't taken, it goes on at a label. It fails where memory is wanting.
#[cycle(lowering)]
fn put_taken<'x>(
    walk: &'x Walk<'x>,
    coding: &mut Coding,
    stand: &'x Stand<'x>,
    tail: &'x Tail<'x>,
    giver: Giver,
    matched: &Matched<'_>,
    arm: &'x Arm,
    node: u32,
    body: &'x Core,
    label: u32,
) -> Result<(), AllocError>
    requires { (name : Naming) → spec.node_ok walk.now name body.now ≡ true }
    ensures { OnOk result (Emits coding.old coding.new
        (λ name first. spec.taken_for walk.now name giver matched.now arm.now body.now stand.now tail.now label first)
        (λ name. (spec.armed_for walk.now name giver matched.now arm.now body.now).labels (tail_of walk.now.setting.now name tail.now).labels)) }
{
    let mut noted = Items::new(walk.alloc);
    list_arm(
        walk.alloc,
        &mut noted,
        walk.setting,
        walk.around,
        giver,
        &*body,
    )?;
    put_enter(&*walk, coding, stand.levels, noted.as_slice())?;
    let levels = Levels::Within(noted.as_slice(), stand.levels);
    let inner = Stand {
        levels: &levels,
        on_no: label,
        ..*stand
    };
    put_armed(
        &*walk, coding, &inner, &*tail, giver, matched, &*arm, &*body,
    )
}

/// An arm whose body is one node: what it looks at, and its body once for all types. It fails where memory is wanting.
#[cycle(lowering)]
fn put_armed<'x>(
    walk: &'x Walk<'x>,
    coding: &mut Coding,
    stand: &'x Stand<'x>,
    tail: &'x Tail<'x>,
    giver: Giver,
    matched: &Matched<'_>,
    arm: &'x Arm,
    body: &'x Core,
) -> Result<(), AllocError>
    requires { (name : Naming) → spec.node_ok walk.now name body.now ≡ true }
    ensures { OnOk result (spec.Puts coding.old coding.new walk.now stand.now tail.now
        (λ name. spec.armed_for walk.now name giver matched.now arm.now body.now)) }
{
    let hand = put_looks(
        walk.alloc,
        coding,
        walk.setting,
        giver,
        matched,
        arm_steps(&*arm),
        &*stand,
    )?;
    let scope = Scope::Inside(hand.names.as_slice(), stand.scope);
    let inner = Stand {
        scope: &scope,
        temp: hand.free,
        ..*stand
    };
    let moves = Tail::Moves(hand.free, &*stand, &*tail);
    put_node(&*walk, coding, &inner, &moves, &*body)
}

/// Arms, the first that is taken; what is noted in one is gone behind it. It fails where memory is wanting.
#[cycle(lowering)]
pub fn put_first<'x>(
    walk: &'x Walk<'x>,
    coding: &mut Coding,
    stand: &'x Stand<'x>,
    tail: &'x Tail<'x>,
    node: u32,
    matched: &Matched<'_>,
    arms: &'x [Arm],
    bodies: &'x [Core],
    otherwise: Otherwise,
) -> Result<(), AllocError>
    requires { (name : Naming) → spec.all_lowered_for walk.now name bodies.now ≡ true }
    ensures { OnOk result (spec.Puts coding.old coding.new walk.now stand.now tail.now
        (λ name. spec.first_for walk.now name node matched.now arms.now bodies.now otherwise)) }
{
    match arms {
        [] => put_no_arm(&*walk, coding, &*stand, matched, &*bodies, otherwise),
        [arm, rest @ ..] => {
            put_choice(
                &*walk, coding, &*stand, &*tail, node, matched, arm, rest, &*bodies, otherwise,
            )
        }
    }
}

/// Where there is no arm, and so no body. It fails where memory is wanting.
fn put_no_arm<'x>(
    walk: &'x Walk<'x>,
    coding: &mut Coding,
    stand: &'x Stand<'x>,
    matched: &Matched<'_>,
    bodies: &'x [Core],
    otherwise: Otherwise,
) -> Result<(), AllocError>
    ensures { (node : ℕ) (tail : Tail) → OnOk result (spec.Puts coding.old coding.new walk.now stand.now tail
        (λ name. spec.first_for walk.now name node matched.now [] bodies.now otherwise)) }
{
    match bodies {
        [] => put_otherwise(&*walk, coding, &*stand, matched, otherwise),
        _ => Ok(()),
    }
}

/// What is done where no arm is taken of what is matched. It fails where memory is wanting.
fn put_otherwise<'x>(
    walk: &'x Walk<'x>,
    coding: &mut Coding,
    stand: &'x Stand<'x>,
    matched: &Matched<'_>,
    otherwise: Otherwise,
) -> Result<(), AllocError>
    ensures { (tail : Tail) → OnOk result (spec.Puts coding.old coding.new walk.now stand.now tail
        (λ name. spec.otherwise_for walk.now name matched.now otherwise)) }
{
    match otherwise {
        Otherwise::Stops(place) => coding.put_stop(Cause::MatchFailure(place)),
        Otherwise::Falls => coding.put_goto(stand.on_no),
        Otherwise::Throws => {
            put_thrown(walk.alloc, coding, walk.setting, matched, &*stand)?;
            coding.put_goto(stand.on_throw)
        }
    }
}

/// What is thrown in a node is matched where it is caught. It fails where memory is wanting.
#[cycle(lowering)]
pub fn put_try<'x>(
    walk: &'x Walk<'x>,
    coding: &mut Coding,
    stand: &'x Stand<'x>,
    tail: &'x Tail<'x>,
    number: u32,
    arms: &'x [Arm],
    value: &'x Core,
    bodies: &'x [Core],
) -> Result<(), AllocError>
    requires { (name : Naming) → spec.try_ok walk.now name arms.now value.now bodies.now ≡ true }
    ensures { OnOk result (spec.Puts coding.old coding.new walk.now stand.now tail.now
        (λ name. spec.try_for walk.now name number arms.now value.now bodies.now)) }
{
    let label = coding.take_labels(2)?;
    let end = further(label, 1)?;
    let inner = Stand {
        on_throw: label,
        ..*stand
    };
    put_inside(&*walk, coding, &inner, &*tail, &*value)?;
    end_arm(coding, end, label)?;
    put_made(
        walk.alloc,
        coding,
        walk.setting,
        &*stand,
        &Tail::Stays,
        number,
        0,
        0,
        &Making::Caught,
    )?;
    let ends = made_ends(walk.alloc, walk.setting, number, 0)?;
    let matched = Matched::InHand(&ends);
    put_first(
        &*walk,
        coding,
        &*stand,
        &*tail,
        number,
        &matched,
        &*arms,
        &*bodies,
        Otherwise::Throws,
    )?;
    coding.put_label(end)
}

/// A value matched by arms. It fails where memory is wanting.
#[cycle(lowering)]
pub fn put_match<'x>(
    walk: &'x Walk<'x>,
    coding: &mut Coding,
    stand: &'x Stand<'x>,
    tail: &'x Tail<'x>,
    arms: &'x Items<Arm>,
    node: &'x Core,
) -> Result<(), AllocError>
    requires { (name : Naming) → spec.as_ok walk.now name (kind.Match arms.now shape.Unit) node.now ≡ true }
    ensures { OnOk result (spec.Puts coding.old coding.new walk.now stand.now tail.now
        (λ name. spec.as_for walk.now name (kind.Match arms.now shape.Unit) node.now)) }
{
    match node.parts.as_slice() {
        [] => Ok(()),
        [value, bodies @ ..] => {
            let number = node.number;
            put_held(&*walk, coding, &*stand, value)?;
            let ends = node_ends(walk.alloc, walk.setting, walk.around, value)?;
            let matched = Matched::InHand(&ends);
            let meets = Tail::Meets(walk.setting.cases(number, 1), &*stand);
            put_first(
                &*walk,
                coding,
                &*stand,
                &meets,
                number,
                &matched,
                arms.as_slice(),
                bodies,
                Otherwise::Stops(node.place),
            )?;
            put_again(&*walk, coding, &*stand, &*tail, number)
        }
    }
}

/// What is thrown in a part is matched by arms. It fails where memory is wanting.
#[cycle(lowering)]
pub fn put_caught<'x>(
    walk: &'x Walk<'x>,
    coding: &mut Coding,
    stand: &'x Stand<'x>,
    tail: &'x Tail<'x>,
    arms: &'x Items<Arm>,
    node: &'x Core,
) -> Result<(), AllocError>
    requires { (name : Naming) → spec.as_ok walk.now name (kind.Try arms.now shape.Unit) node.now ≡ true }
    ensures { OnOk result (spec.Puts coding.old coding.new walk.now stand.now tail.now
        (λ name. spec.as_for walk.now name (kind.Try arms.now shape.Unit) node.now)) }
{
    match node.parts.as_slice() {
        [] => Ok(()),
        [value, bodies @ ..] => {
            let number = node.number;
            let meets = Tail::Meets(walk.setting.cases(number, 1), &*stand);
            let arms = arms.as_slice();
            put_try(&*walk, coding, &*stand, &meets, number, arms, value, bodies)?;
            put_again(&*walk, coding, &*stand, &*tail, number)
        }
    }
}

/// The clauses of a function; where none is taken, the function says No. It fails where memory is wanting.
#[cycle(lowering)]
pub fn put_clauses<'x>(
    walk: &'x Walk<'x>,
    coding: &mut Coding,
    stand: &'x Stand<'x>,
    tail: &'x Tail<'x>,
    arms: &'x Items<Arm>,
    node: &'x Core,
) -> Result<(), AllocError>
    requires { (name : Naming) → spec.as_ok walk.now name (kind.Clauses arms.now) node.now ≡ true }
    ensures { OnOk result (spec.Puts coding.old coding.new walk.now stand.now tail.now
        (λ name. spec.as_for walk.now name (kind.Clauses arms.now) node.now)) }
{
    put_first(
        &*walk,
        coding,
        &*stand,
        &*tail,
        node.number,
        &Matched::Arguments(walk.around.given),
        arms.as_slice(),
        node.parts.as_slice(),
        Otherwise::Falls,
    )
}
