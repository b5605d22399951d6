//! Calls: the instance goes by the numbers that are noted.
ghost use Rattle.std.specs.Prelude.{◌≡◌, true, OnOk};
ghost use Rattle.sail_core.specs.declared.tree.Callee.TheVariants as callee;
ghost use Rattle.sail_core.specs.declared.tree.Core.{out-Core};
ghost use Rattle.sail_core.specs.declared.tree.Kind.TheVariants as kind;
ghost use Rattle.lowered_pieces.specs.Emitted.{Emits};
ghost use Rattle.lowered_pieces.specs.Places.{Naming};
ghost use Rattle.lowered_pieces.specs.Frames.{ArmsPut};
ghost use Rattle.lowered_pieces.specs.Forms.{kit_at, picked_by};
ghost use Rattle.lowered_steps.specs.Setting.{kit_for};
ghost use Rattle.lowered_steps.specs.Stands.{depths_of};
ghost use Rattle.lowered_nodes.specs.Walk as spec;

use crate::mappings::put_crossing;
use crate::operands::{put_all, put_made_of, put_state_row};
use crate::walk::Walk;
use jib::{Operation, has_state};
use lowered_ends::called_function;
use lowered_pieces::Coding;
use lowered_slots::Place;
use lowered_steps::{
    Making, Order, Stand, Tail, as_number, begin_arm, begin_arms, end_arm, end_arms, further,
    list_sources, put_made,
};
use sail_base::Place as TextPlace;
use sail_core::{Callee, Core};
use sail_types::Row;
use sized_nodes::Lead;
use std::alloc::AllocError;

/// A call of a function.
#[derive(Clone, Copy)]
pub struct Calling {
    /// Where it stands in the model's text.
    pub place: TextPlace,
    /// The number of its node.
    pub node: u32,
    /// How many arguments it has.
    pub count: usize,
}

/// A call of the instance to which it leads, and what comes behind. It fails where memory is wanting.
fn put_lead<'x>(
    walk: &'x Walk<'x>,
    coding: &mut Coding,
    stand: &'x Stand<'x>,
    tail: &'x Tail<'x>,
    calling: Calling,
    lead: &'x Lead,
) -> Result<(), AllocError>
    ensures { OnOk result (Emits coding.old coding.new (λ name. spec.lead_for walk.now name stand.now tail.now calling lead.now)
        (λ name. spec.lead_labels walk.now name tail.now calling)) }
{
    let answer = walk.around.answer(walk.alloc, lead.instance)?;
    let typ = walk.setting.number(&answer)?;
    let takes = lead.takes.as_slice();
    let arguments = list_sources(walk.alloc, coding, walk.setting, stand.temp, takes)?;
    coding.put_call(
        Place::Temp(stand.temp),
        typ,
        called_function(walk.around.before, lead.instance)?,
        arguments,
        stand.on_throw,
        calling.place,
    )?;
    put_made(
        walk.alloc,
        coding,
        walk.setting,
        &*stand,
        &*tail,
        calling.node,
        1,
        calling.count,
        &Making::Answers(typ),
    )
}

/// So for each of these leads, with tests before all but the last. It fails where memory is wanting.
fn put_leads<'x>(
    walk: &'x Walk<'x>,
    coding: &mut Coding,
    stand: &'x Stand<'x>,
    tail: &'x Tail<'x>,
    calling: Calling,
    free: u32,
    end: u32,
    leads: &'x [Lead],
) -> Result<(), AllocError>
    ensures { OnOk result (ArmsPut picked_by (λ name. kit_at (kit_for walk.now.setting.now name) (depths_of stand.now.levels.now)) free
        (λ name. spec.lead_labels walk.now name tail.now calling) (λ name. spec.lead_for walk.now name stand.now tail.now calling) end leads.now
        coding.old coding.new) }
{
    match leads {
        [] => Ok(()),
        [only] => put_lead(&*walk, coding, &*stand, &*tail, calling, only),
        [first, rest @ ..] => {
            let picked = first.picked.as_slice();
            let levels = stand.levels;
            let next = begin_arm(walk.alloc, coding, walk.setting, levels, free, picked)?;
            put_lead(&*walk, coding, &*stand, &*tail, calling, first)?;
            end_arm(coding, end, next)?;
            put_leads(&*walk, coding, &*stand, &*tail, calling, free, end, rest)
        }
    }
}

/// A call of a function whose arguments are in hand: its instance goes by the numbers that are noted. It fails where memory is wanting.
pub fn put_calling<'x>(
    walk: &'x Walk<'x>,
    coding: &mut Coding,
    stand: &'x Stand<'x>,
    tail: &'x Tail<'x>,
    calling: Calling,
) -> Result<(), AllocError>
    ensures { OnOk result (Emits coding.old coding.new (λ name first. spec.leads_for walk.now name stand.now tail.now calling first)
        (λ name. spec.leads_labels walk.now name tail.now calling)) }
{
    let leads = walk.setting.leads(calling.node);
    let free = further(stand.temp, as_number(calling.count)?)?;
    let end = begin_arms(coding, leads.len())?;
    put_leads(&*walk, coding, &*stand, &*tail, calling, free, end, leads)?;
    end_arms(coding, leads.len(), end)
}

/// A call of a function. It fails where memory is wanting.
#[cycle(lowering)]
pub fn put_call<'x>(
    walk: &'x Walk<'x>,
    coding: &mut Coding,
    stand: &'x Stand<'x>,
    tail: &'x Tail<'x>,
    node: &'x Core,
) -> Result<(), AllocError>
    requires { (name : Naming) → spec.all_lowered_for walk.now name (out-Core node.now).parts ≡ true }
    ensures { OnOk result (spec.Puts coding.old coding.new walk.now stand.now tail.now (λ name. spec.call_for walk.now name node.now)) }
{
    put_all(&*walk, coding, &*stand, node.parts.as_slice())?;
    let calling = Calling {
        place: node.place,
        node: node.number,
        count: node.parts.len(),
    };
    put_calling(&*walk, coding, &*stand, &*tail, calling)
}

/// What is called: a function, a builtin, a constructor, or a direction of a mapping. It fails where memory is wanting.
#[cycle(lowering)]
pub fn put_callee<'x>(
    walk: &'x Walk<'x>,
    coding: &mut Coding,
    stand: &'x Stand<'x>,
    tail: &'x Tail<'x>,
    callee: Callee,
    node: &'x Core,
) -> Result<(), AllocError>
    requires { (name : Naming) → spec.as_ok walk.now name (kind.Call callee) node.now ≡ true }
    ensures { OnOk result (spec.Puts coding.old coding.new walk.now stand.now tail.now
        (λ name. spec.as_for walk.now name (kind.Call callee) node.now)) }
{
    match callee {
        Callee::Function(_) => put_call(&*walk, coding, &*stand, &*tail, &*node),
        Callee::Row(row) => put_row(&*walk, coding, &*stand, &*tail, row, &*node),
        Callee::Constructor(union, constructor) => {
            let making = Making::Constructs(union, constructor);
            put_made_of(&*walk, coding, &*stand, &*tail, &making, &*node)
        }
        Callee::Converts(_) => Ok(()),
        Callee::Applies(direction) => {
            put_crossing(&*walk, coding, &*stand, &*tail, direction, &*node)
        }
    }
}

/// A builtin, also of the state. It fails where memory is wanting.
#[cycle(lowering)]
fn put_row<'x>(
    walk: &'x Walk<'x>,
    coding: &mut Coding,
    stand: &'x Stand<'x>,
    tail: &'x Tail<'x>,
    row: Row,
    node: &'x Core,
) -> Result<(), AllocError>
    requires { (name : Naming) → spec.as_ok walk.now name (kind.Call (callee.Row row)) node.now ≡ true }
    ensures { OnOk result (spec.Puts coding.old coding.new walk.now stand.now tail.now
        (λ name. spec.as_for walk.now name (kind.Call (callee.Row row)) node.now)) }
{
    if has_state(row) {
        put_state_row(&*walk, coding, &*stand, &*tail, row, &*node)
    } else {
        let making = Making::Works(Operation::Builtin(row), Order::Forwards);
        put_made_of(&*walk, coding, &*stand, &*tail, &making, &*node)
    }
}
