//! Directions of mappings, which are functions that give an option.
ghost use Rattle.std.specs.Prelude.{◌≡◌, true, OnOk};
ghost use Rattle.sail_core.specs.declared.tree.Callee.TheVariants as callee;
ghost use Rattle.sail_core.specs.declared.tree.Kind.TheVariants as kind;
ghost use Rattle.lowered_pieces.specs.Emitted.{Emits, no_labels};
ghost use Rattle.lowered_pieces.specs.Places.{Naming};
ghost use Rattle.lowered_pieces.specs.Mapped.{none_piece};
ghost use Rattle.lowered_steps.specs.Hands.{types_of};
ghost use Rattle.lowered_steps.specs.Setting.{kit_for};
ghost use Rattle.lowered_nodes.specs.Walk as spec;

use crate::operands::{only_type, put_held};
use crate::walk::{Walk, put_node};
use jib::{Literal, Operation, Source};
use lowered_ends::{fixed_type, is_one, node_ends, option_of};
use lowered_pieces::Coding;
use lowered_slots::Place;
use lowered_steps::{
    Ends, Making, Mapped, Stand, Tail, end_arm, further, put_made, put_retype, put_tail,
};
use model_state::Cause;
use sail_base::{Items, Place as TextPlace};
use sail_core::Core;
use sail_types::Typ;
use size_values::Sized;
use std::alloc::AllocError;

/// What a direction gives, as an option, and `None` where it says No. It fails where memory is wanting.
pub fn put_optional<'x>(
    walk: &'x Walk<'x>,
    coding: &mut Coding,
    stand: &'x Stand<'x>,
    tail: &'x Tail<'x>,
    typ: &'x Typ,
    value: &'x Core,
) -> Result<(), AllocError>
    requires { (name : Naming) → spec.node_ok walk.now name value.now ≡ true }
    ensures { OnOk result (spec.Puts coding.old coding.new walk.now stand.now tail.now (λ name. spec.optional_for walk.now name typ.now value.now)) }
{
    let payload = fixed_type(walk.alloc, walk.setting.types, &*typ)?;
    let option = option_of(walk.alloc, &payload)?;
    let label = coding.take_labels(2)?;
    let end = further(label, 1)?;
    let failing = Stand {
        on_no: label,
        ..*stand
    };
    let wraps = Tail::Wraps(&option, &payload, &failing, &*tail);
    put_node(&*walk, coding, &failing, &wraps, &*value)?;
    end_arm(coding, end, label)?;
    put_none(&*walk, coding, &*stand, &*tail, &option)?;
    coding.put_label(end)
}

/// `None` of an option's type, and then what comes behind is done with it. It fails where memory is wanting.
fn put_none<'x>(
    walk: &'x Walk<'x>,
    coding: &mut Coding,
    stand: &'x Stand<'x>,
    tail: &'x Tail<'x>,
    option: &'x Sized,
) -> Result<(), AllocError>
    ensures { OnOk result (spec.Puts coding.old coding.new walk.now stand.now tail.now
        (λ name. none_piece (kit_for walk.now.setting.now name) option.now)) }
{
    let number = walk.setting.number(&*option)?;
    let place = Place::Temp(stand.temp);
    let mut sources = Items::new(walk.alloc);
    sources.push(Source::Constant(walk.setting.unit, Literal::Unit))?;
    coding.put_apply(place, number, Operation::Construct(1), sources)?;
    put_tail(walk.alloc, coding, walk.setting, &*tail, &*option)
}

/// A call of a direction, whose operand has one type; the run stops where it gives `None`. It fails where memory is wanting.
#[cycle(lowering)]
pub fn put_applied<'x>(
    walk: &'x Walk<'x>,
    coding: &mut Coding,
    stand: &'x Stand<'x>,
    tail: &'x Tail<'x>,
    direction: u32,
    node: &'x Core,
    value: &'x Core,
) -> Result<(), AllocError>
    requires { (name : Naming) → spec.node_ok walk.now name value.now ≡ true }
    ensures { OnOk result (spec.Puts coding.old coding.new walk.now stand.now tail.now
        (λ name. spec.applied_for walk.now name direction node.now value.now)) }
{
    let label = coding.take_labels(2)?;
    let behind = further(label, 1)?;
    put_held(&*walk, coding, &*stand, &*value)?;
    match walk.setting.direction(direction) {
        Some(mapped) => {
            let ends = node_ends(walk.alloc, walk.setting, walk.around, &*value)?;
            put_direction(&*walk, coding, &*stand, mapped, &ends, node.place, label)?;
            end_arm(coding, behind, label)?;
            coding.put_stop(Cause::MatchFailure(node.place))?;
            coding.put_label(behind)?;
            let payload = walk.setting.number(&mapped.payload)?;
            put_made(
                walk.alloc,
                coding,
                walk.setting,
                &*stand,
                &*tail,
                node.number,
                1,
                1,
                &Making::Answers(payload),
            )
        }
        None => Err(AllocError),
    }
}

/// The same by its only part. It fails where memory is wanting.
#[cycle(lowering)]
pub fn put_crossing<'x>(
    walk: &'x Walk<'x>,
    coding: &mut Coding,
    stand: &'x Stand<'x>,
    tail: &'x Tail<'x>,
    direction: u32,
    node: &'x Core,
) -> Result<(), AllocError>
    requires { (name : Naming) → spec.as_ok walk.now name (kind.Call (callee.Applies direction)) node.now ≡ true }
    ensures { OnOk result (spec.Puts coding.old coding.new walk.now stand.now tail.now
        (λ name. spec.as_for walk.now name (kind.Call (callee.Applies direction)) node.now)) }
{
    match node.parts.as_slice() {
        [value] => put_applied(&*walk, coding, &*stand, &*tail, direction, &*node, value),
        _ => Ok(()),
    }
}

/// A value in hand of one type comes to another. It fails where memory is wanting.
fn put_operand<'x>(
    walk: &'x Walk<'x>,
    coding: &mut Coding,
    temp: u32,
    ends: &'x Ends<'x>,
    takes: u32,
) -> Result<(), AllocError>
    ensures { OnOk result (Emits coding.old coding.new (λ name first. spec.operand_for walk.now name temp (types_of ends.now) takes) no_labels) }
{
    if is_one(&*ends) {
        let from = only_type(walk.setting, &*ends)?;
        put_retype(walk.alloc, coding, walk.setting, temp, from, takes)
    } else {
        Ok(())
    }
}

/// A value in hand comes to the type that a direction takes, the direction is called, with a tick, and the payload of what it gives is taken out; what is
/// `None` goes to a label. It fails where memory is wanting.
fn put_direction<'x>(
    walk: &'x Walk<'x>,
    coding: &mut Coding,
    stand: &'x Stand<'x>,
    mapped: &'x Mapped,
    ends: &'x Ends<'x>,
    place: TextPlace,
    label: u32,
) -> Result<(), AllocError>
    ensures { OnOk result (Emits coding.old coding.new
        (λ name first. spec.direction_for walk.now name stand.now mapped.now (types_of ends.now) place label) no_labels) }
{
    let takes = walk.setting.number(&mapped.takes)?;
    let gives = walk.setting.number(&mapped.gives)?;
    let payload = walk.setting.number(&mapped.payload)?;
    let hand = Place::Temp(stand.temp);
    put_operand(&*walk, coding, stand.temp, &*ends, takes)?;
    coding.put_tick()?;
    let mut arguments = Items::new(walk.alloc);
    arguments.push(coding.source(hand, takes)?)?;
    coding.put_call(
        hand,
        gives,
        mapped.function,
        arguments,
        stand.on_throw,
        place,
    )?;
    coding.put_payload(hand, payload, hand, gives, 0, label)
}
