//! Loops: a turn takes a tick.
ghost use Rattle.std.specs.Prelude.{◌≡◌, true, OnOk};
ghost use Rattle.sail_core.specs.declared.tree.Kind.TheVariants as kind;
ghost use Rattle.lowered_pieces.specs.Counted.{next_code, turn_code};
ghost use Rattle.lowered_pieces.specs.Emitted.{Emits, no_labels};
ghost use Rattle.lowered_pieces.specs.Places.{Naming};
ghost use Rattle.lowered_pieces.specs.Forms.{fallen_code};
ghost use Rattle.lowered_steps.specs.Setting.{kit_for};
ghost use Rattle.lowered_nodes.specs.Walk as spec;

use crate::arms::put_inside;
use crate::operands::put_held;
use crate::walk::Walk;
use jib::{Literal, Operation};
use lowered_pieces::Coding;
use lowered_slots::Place;
use lowered_steps::{Named, Scope, Stand, Tail, count_names, end_arm, further, put_nothing};
use model_state::Cause;
use sail_base::{Items, Place as TextPlace, Text};
use sail_core::{Core, Counting};
use sail_types::Row;
use std::alloc::AllocError;

/// The largest integer of a model.
const LARGEST: i128 = 85070591730234615865843651857942052864;

/// The measure of a turn has to be below that of the turn before, and not below 0 there. It fails where memory is wanting.
fn put_fallen<'x>(
    walk: &'x Walk<'x>,
    coding: &mut Coding,
    place: TextPlace,
    temp: u32,
    label: u32,
) -> Result<(), AllocError>
    ensures { OnOk result (Emits coding.old coding.new
        (λ name first. fallen_code (kit_for walk.now.setting.now name) place temp label) no_labels) }
{
    let integer = walk.setting.integer;
    let truth = walk.setting.truth;
    let before = Place::Temp(temp);
    let measure = Place::Temp(further(temp, 1)?);
    let found = Place::Temp(further(temp, 2)?);
    let below = Operation::Builtin(Row::LtInt);
    coding.put_apply_two(walk.alloc, found, truth, below, measure, before, integer)?;
    coding.put_jump_if(found, truth, label)?;
    coding.put_apply_at(
        walk.alloc,
        found,
        truth,
        below,
        before,
        integer,
        integer,
        Literal::Integer(0),
    )?;
    coding.put_jump_if(found, truth, label)?;
    coding.put_stop(Cause::Measure(place))?;
    coding.put_label(label)?;
    coding.put_copy(before, integer, measure, integer)
}

/// `while`: the test stands behind the body. It fails where memory is wanting.
#[cycle(lowering)]
pub fn put_while<'x>(
    walk: &'x Walk<'x>,
    coding: &mut Coding,
    stand: &'x Stand<'x>,
    tail: &'x Tail<'x>,
    node: &'x Core,
) -> Result<(), AllocError>
    requires { (name : Naming) → spec.as_ok walk.now name kind.While node.now ≡ true }
    ensures { OnOk result (spec.Puts coding.old coding.new walk.now stand.now tail.now
        (λ name. spec.as_for walk.now name kind.While node.now)) }
{
    match node.parts.as_slice() {
        [measure, test, body] => {
            let label = coding.take_labels(3)?;
            let at_test = further(label, 1)?;
            let fallen = further(label, 2)?;
            let turn = Stand {
                temp: further(stand.temp, 1)?,
                ..*stand
            };
            let integer = walk.setting.integer;
            coding.put_constant(Place::Temp(stand.temp), integer, Literal::Integer(-1))?;
            coding.put_goto(at_test)?;
            coding.put_label(label)?;
            coding.put_tick()?;
            put_inside(&*walk, coding, &turn, &Tail::Stays, measure)?;
            put_fallen(&*walk, coding, node.place, stand.temp, fallen)?;
            put_inside(&*walk, coding, &turn, &Tail::Stays, body)?;
            coding.put_label(at_test)?;
            put_inside(&*walk, coding, &turn, &Tail::Stays, test)?;
            coding.put_jump_if(Place::Temp(turn.temp), walk.setting.truth, label)?;
            put_nothing(walk.alloc, coding, walk.setting, &*stand, &*tail)
        }
        _ => Ok(()),
    }
}

/// `repeat`: the jump back is where the test is false. It fails where memory is wanting.
#[cycle(lowering)]
pub fn put_repeat<'x>(
    walk: &'x Walk<'x>,
    coding: &mut Coding,
    stand: &'x Stand<'x>,
    tail: &'x Tail<'x>,
    node: &'x Core,
) -> Result<(), AllocError>
    requires { (name : Naming) → spec.as_ok walk.now name kind.Repeat node.now ≡ true }
    ensures { OnOk result (spec.Puts coding.old coding.new walk.now stand.now tail.now
        (λ name. spec.as_for walk.now name kind.Repeat node.now)) }
{
    match node.parts.as_slice() {
        [measure, body, test] => {
            let label = coding.take_labels(3)?;
            let fallen = further(label, 1)?;
            let end = further(label, 2)?;
            let turn = Stand {
                temp: further(stand.temp, 1)?,
                ..*stand
            };
            let integer = walk.setting.integer;
            coding.put_constant(Place::Temp(stand.temp), integer, Literal::Integer(-1))?;
            coding.put_label(label)?;
            coding.put_tick()?;
            put_inside(&*walk, coding, &turn, &Tail::Stays, measure)?;
            put_fallen(&*walk, coding, node.place, stand.temp, fallen)?;
            put_inside(&*walk, coding, &turn, &Tail::Stays, body)?;
            put_inside(&*walk, coding, &turn, &Tail::Stays, test)?;
            coding.put_jump_if(Place::Temp(turn.temp), walk.setting.truth, end)?;
            end_arm(coding, label, end)?;
            put_nothing(walk.alloc, coding, walk.setting, &*stand, &*tail)
        }
        _ => Ok(()),
    }
}

/// The next number of a `foreach`; past all integers it ends at a label. It fails where memory is wanting.
fn put_next<'x>(
    walk: &'x Walk<'x>,
    coding: &mut Coding,
    counting: Counting,
    temp: u32,
    end: u32,
) -> Result<(), AllocError>
    ensures { OnOk result (Emits coding.old coding.new
        (λ name first. next_code (kit_for walk.now.setting.now name) counting temp end) no_labels) }
{
    let integer = walk.setting.integer;
    let truth = walk.setting.truth;
    let number = Place::Temp(temp);
    let step = Place::Temp(further(temp, 2)?);
    let found = Place::Temp(further(temp, 3)?);
    let takes = Operation::Builtin(Row::SubInt);
    let below = Operation::Builtin(Row::LtInt);
    let largest = Literal::Integer(LARGEST);
    match counting {
        Counting::Up => {
            coding.put_apply_of(
                walk.alloc, found, integer, takes, integer, largest, step, integer,
            )?;
            coding.put_apply_two(walk.alloc, found, truth, below, found, number, integer)?;
            coding.put_jump_if(found, truth, end)?;
            let adds = Operation::Builtin(Row::AddInt);
            coding.put_apply_two(walk.alloc, number, integer, adds, number, step, integer)
        }
        Counting::Down => {
            coding.put_apply_at(
                walk.alloc, found, integer, takes, step, integer, integer, largest,
            )?;
            coding.put_apply_two(walk.alloc, found, truth, below, number, found, integer)?;
            coding.put_jump_if(found, truth, end)?;
            coding.put_apply_two(walk.alloc, number, integer, takes, number, step, integer)
        }
    }
}

/// One more turn of a `foreach` at a label, where the number still counts. It fails where memory is wanting.
fn put_turn<'x>(
    walk: &'x Walk<'x>,
    coding: &mut Coding,
    counting: Counting,
    temp: u32,
    label: u32,
) -> Result<(), AllocError>
    ensures { OnOk result (Emits coding.old coding.new
        (λ name first. turn_code (kit_for walk.now.setting.now name) counting temp label) no_labels) }
{
    let integer = walk.setting.integer;
    let truth = walk.setting.truth;
    let number = Place::Temp(temp);
    let last = Place::Temp(further(temp, 1)?);
    let found = Place::Temp(further(temp, 3)?);
    let within = Operation::Builtin(Row::LteqInt);
    match counting {
        Counting::Up => {
            coding.put_apply_two(walk.alloc, found, truth, within, number, last, integer)?;
            coding.put_jump_if(found, truth, label)
        }
        Counting::Down => {
            coding.put_apply_two(walk.alloc, found, truth, within, last, number, integer)?;
            coding.put_jump_if(found, truth, label)
        }
    }
}

/// A `foreach`, by its parts.
#[derive(Clone, Copy)]
pub struct Counted<'a> {
    /// The name of the number.
    pub name: &'a Text,
    /// Which way it counts.
    pub counting: Counting,
    /// The first number.
    pub first: &'a Core,
    /// The last one that counts.
    pub last: &'a Core,
    /// The step.
    pub step: &'a Core,
    /// What is done in each turn.
    pub body: &'a Core,
}

/// The first number of a `foreach`, the last one that counts, and the step come in hand. It fails where memory is wanting.
#[cycle(lowering)]
fn put_bounds<'x>(
    walk: &'x Walk<'x>,
    coding: &mut Coding,
    stand: &'x Stand<'x>,
    counted: &'x Counted<'x>,
) -> Result<(), AllocError>
    requires { (name : Naming) → spec.counted_ok walk.now name counted.now ≡ true }
    ensures { OnOk result (Emits coding.old coding.new (λ name first. spec.bounds_for walk.now name counted.now stand.now first)
        (λ name. spec.bounds_count walk.now name counted.now)) }
{
    put_held(&*walk, coding, &*stand, counted.first)?;
    let second = Stand {
        temp: further(stand.temp, 1)?,
        ..*stand
    };
    put_held(&*walk, coding, &second, counted.last)?;
    let third = Stand {
        temp: further(second.temp, 1)?,
        ..*stand
    };
    put_held(&*walk, coding, &third, counted.step)
}

/// A turn of a `foreach`, with the number under its name, in a place of its own. It fails where memory is wanting.
#[cycle(lowering)]
fn put_body<'x>(
    walk: &'x Walk<'x>,
    coding: &mut Coding,
    stand: &'x Stand<'x>,
    counted: &'x Counted<'x>,
) -> Result<(), AllocError>
    requires { (name : Naming) → spec.node_ok walk.now name counted.now.body.now ≡ true }
    ensures { OnOk result (Emits coding.old coding.new (λ name first. spec.body_for walk.now name counted.now stand.now first)
        (λ name. spec.body_count walk.now name counted.now)) }
{
    let integer = walk.setting.integer;
    let place = Place::Local(count_names(stand.scope)?);
    coding.put_copy(place, integer, Place::Temp(stand.temp), integer)?;
    let mut names = Items::new(walk.alloc);
    names.push(Named {
        name: counted.name,
        place,
    })?;
    let scope = Scope::Inside(names.as_slice(), stand.scope);
    let turn = Stand {
        scope: &scope,
        temp: further(stand.temp, 3)?,
        ..*stand
    };
    put_inside(&*walk, coding, &turn, &Tail::Stays, counted.body)
}

/// `foreach`: the test stands behind the body. It fails where memory is wanting.
#[cycle(lowering)]
pub fn put_foreach<'x>(
    walk: &'x Walk<'x>,
    coding: &mut Coding,
    stand: &'x Stand<'x>,
    tail: &'x Tail<'x>,
    counted: &'x Counted<'x>,
) -> Result<(), AllocError>
    requires { (name : Naming) → spec.counted_ok walk.now name counted.now ≡ true }
    ensures { OnOk result (spec.Puts coding.old coding.new walk.now stand.now tail.now (λ name. spec.foreach_for walk.now name counted.now)) }
{
    let label = coding.take_labels(3)?;
    let at_test = further(label, 1)?;
    let end = further(label, 2)?;
    put_bounds(&*walk, coding, &*stand, &*counted)?;
    coding.put_goto(at_test)?;
    coding.put_label(label)?;
    coding.put_tick()?;
    put_body(&*walk, coding, &*stand, &*counted)?;
    put_next(&*walk, coding, counted.counting, stand.temp, end)?;
    coding.put_label(at_test)?;
    put_turn(&*walk, coding, counted.counting, stand.temp, label)?;
    coding.put_label(end)?;
    put_nothing(walk.alloc, coding, walk.setting, &*stand, &*tail)
}

/// The same by its parts. It fails where memory is wanting.
#[cycle(lowering)]
pub fn put_counted<'x>(
    walk: &'x Walk<'x>,
    coding: &mut Coding,
    stand: &'x Stand<'x>,
    tail: &'x Tail<'x>,
    name: &'x Text,
    counting: Counting,
    node: &'x Core,
) -> Result<(), AllocError>
    requires { (naming : Naming) → spec.as_ok walk.now naming (kind.Foreach name.now counting) node.now ≡ true }
    ensures { OnOk result (spec.Puts coding.old coding.new walk.now stand.now tail.now
        (λ naming. spec.as_for walk.now naming (kind.Foreach name.now counting) node.now)) }
{
    match node.parts.as_slice() {
        [first, last, step, body] => {
            let counted = Counted {
                name: &*name,
                counting,
                first,
                last,
                step,
                body,
            };
            put_foreach(&*walk, coding, &*stand, &*tail, &counted)
        }
        _ => Ok(()),
    }
}
