//! Operands in hand, and values that are made of them.
ghost use Rattle.std.specs.Prelude.{◌≡◌, ◌+◌, true, List, ◌++◌, None, IfOk, OnOk};
ghost use Rattle.sail_core.specs.declared.tree.Core.{out-Core};
ghost use Rattle.sail_core.specs.declared.tree.Kind.TheVariants as kind;
ghost use Rattle.jib.specs.declared.code.Source.{Source};
ghost use Rattle.lowered_pieces.specs.Emitted.{Emits, Grows, Sourced};
ghost use Rattle.lowered_pieces.specs.Places.{Naming};
ghost use Rattle.lowered_pieces.specs.Forms.{all_code, all_labels, cases_ends, code_of, count_of};
ghost use Rattle.lowered_steps.specs.Hands.{types_of};
ghost use Rattle.lowered_steps.specs.Setting.{kit_for, number_for};
ghost use Rattle.lowered_steps.specs.Stands.{stand_of};
ghost use Rattle.lowered_steps.specs.Tails.{tail_of};
ghost use Rattle.lowered_ends.specs.Around.{piece_for};
ghost use Rattle.lowered_nodes.specs.Walk as spec;

use crate::walk::{Walk, put_node};
use jib::{Operation, Source};
use lowered_ends::node_ends;
use lowered_pieces::Coding;
use lowered_slots::Place;
use lowered_steps::{
    Ends, Making, Order, Setting, Stand, Tail, further, put_made, put_notes, put_tail,
};
use sail_base::Items;
use sail_core::Core;
use sail_types::Row;
use size_values::Sized;
use sized_nodes::Case;
use std::alloc::AllocError;

/// A form whose value stays in hand, with this place in hand free. It fails where memory is wanting.
#[cycle(lowering)]
pub fn put_held<'x>(
    walk: &'x Walk<'x>,
    coding: &mut Coding,
    stand: &'x Stand<'x>,
    node: &'x Core,
) -> Result<(), AllocError>
    requires { (name : Naming) → spec.node_ok walk.now name node.now ≡ true }
    ensures { OnOk result (Emits coding.old coding.new
        (λ name first. code_of (piece_for walk.now.setting.now walk.now.around.now name node.now) (stand_of stand.now) first)
        (λ name. count_of (piece_for walk.now.setting.now walk.now.around.now name node.now))) }
{
    put_node(&*walk, coding, &*stand, &Tail::Stays, &*node)
}

/// Operands from left to right, each in the next place in hand. It fails where memory is wanting.
#[cycle(lowering)]
pub fn put_all<'x>(
    walk: &'x Walk<'x>,
    coding: &mut Coding,
    stand: &'x Stand<'x>,
    nodes: &'x [Core],
) -> Result<(), AllocError>
    requires { (name : Naming) → spec.all_lowered_for walk.now name nodes.now ≡ true }
    ensures { OnOk result (Emits coding.old coding.new
        (λ name first. all_code (kit_for walk.now.setting.now name) (number_for walk.now.setting.now) (spec.pieces_for walk.now name nodes.now)
        (stand_of stand.now) first)
        (λ name. all_labels (kit_for walk.now.setting.now name) (number_for walk.now.setting.now) (spec.pieces_for walk.now name nodes.now))) }
{
    match nodes {
        [] => Ok(()),
        [first, rest @ ..] => {
            put_held(&*walk, coding, &*stand, first)?;
            let next = Stand {
                temp: further(stand.temp, 1)?,
                ..*stand
            };
            put_all(&*walk, coding, &next, rest)
        }
    }
}

/// The value of a node is made of operands. It fails where memory is wanting.
#[cycle(lowering)]
pub fn put_made_of<'x>(
    walk: &'x Walk<'x>,
    coding: &mut Coding,
    stand: &'x Stand<'x>,
    tail: &'x Tail<'x>,
    making: &'x Making<'x>,
    node: &'x Core,
) -> Result<(), AllocError>
    requires { (name : Naming) → spec.all_lowered_for walk.now name (out-Core node.now).parts ≡ true }
    ensures { OnOk result (spec.Puts coding.old coding.new walk.now stand.now tail.now (λ name. spec.made_for walk.now name making.now node.now)) }
{
    let count = node.parts.len();
    put_all(&*walk, coding, &*stand, node.parts.as_slice())?;
    put_made(
        walk.alloc,
        coding,
        walk.setting,
        &*stand,
        &*tail,
        node.number,
        count,
        count,
        &*making,
    )
}

/// A value that comes to its type at a node of its own. It fails where memory is wanting.
#[cycle(lowering)]
pub fn put_cast<'x>(
    walk: &'x Walk<'x>,
    coding: &mut Coding,
    stand: &'x Stand<'x>,
    tail: &'x Tail<'x>,
    number: u32,
    value: &'x Core,
) -> Result<(), AllocError>
    requires { (name : Naming) → spec.node_ok walk.now name value.now ≡ true }
    ensures { OnOk result (spec.Puts coding.old coding.new walk.now stand.now tail.now (λ name. spec.cast_for walk.now name number value.now)) }
{
    put_held(&*walk, coding, &*stand, &*value)?;
    put_made(
        walk.alloc,
        coding,
        walk.setting,
        &*stand,
        &*tail,
        number,
        1,
        1,
        &Making::Casts,
    )
}

/// The same where the value is the only part of that node. It fails where memory is wanting.
#[cycle(lowering)]
pub fn put_own_cast<'x>(
    walk: &'x Walk<'x>,
    coding: &mut Coding,
    stand: &'x Stand<'x>,
    tail: &'x Tail<'x>,
    node: &'x Core,
) -> Result<(), AllocError>
    requires { (name : Naming) → spec.as_ok walk.now name (kind.Cast None) node.now ≡ true }
    ensures { OnOk result (spec.Puts coding.old coding.new walk.now stand.now tail.now
        (λ name. spec.as_for walk.now name (kind.Cast None) node.now)) }
{
    match node.parts.as_slice() {
        [value] => put_cast(&*walk, coding, &*stand, &*tail, node.number, value),
        _ => Ok(()),
    }
}

/// The only one of these fields, where there is one.
fn only_field(fields: &[u32]) -> Option<u32>
    ensures { result ≡ spec.only_of fields.now }
{
    match fields {
        [] => None,
        [field] => Some(*field),
        _ => None,
    }
}

/// A struct with other fields. It fails where memory is wanting.
#[cycle(lowering)]
pub fn put_with<'x>(
    walk: &'x Walk<'x>,
    coding: &mut Coding,
    stand: &'x Stand<'x>,
    tail: &'x Tail<'x>,
    fields: &'x Items<u32>,
    node: &'x Core,
) -> Result<(), AllocError>
    requires { (name : Naming) → spec.as_ok walk.now name (kind.With 0 fields.now) node.now ≡ true }
    ensures { OnOk result (spec.Puts coding.old coding.new walk.now stand.now tail.now
        (λ name. spec.as_for walk.now name (kind.With 0 fields.now) node.now)) }
{
    match only_field(fields.as_slice()) {
        Some(field) => {
            let making = Making::Works(Operation::WithField(field), Order::Forwards);
            put_made_of(&*walk, coding, &*stand, &*tail, &making, &*node)
        }
        None => {
            let making = Making::Changes(fields.as_slice());
            put_made_of(&*walk, coding, &*stand, &*tail, &making, &*node)
        }
    }
}

/// A vector with another item. It fails where memory is wanting.
#[cycle(lowering)]
pub fn put_with_item<'x>(
    walk: &'x Walk<'x>,
    coding: &mut Coding,
    stand: &'x Stand<'x>,
    tail: &'x Tail<'x>,
    node: &'x Core,
) -> Result<(), AllocError>
    requires { (name : Naming) → spec.as_ok walk.now name kind.WithItem node.now ≡ true }
    ensures { OnOk result (spec.Puts coding.old coding.new walk.now stand.now tail.now
        (λ name. spec.as_for walk.now name kind.WithItem node.now)) }
{
    match node.parts.as_slice() {
        [_, _, _] => {
            let making = Making::Works(Operation::WithItem, Order::Forwards);
            put_made_of(&*walk, coding, &*stand, &*tail, &making, &*node)
        }
        _ => Ok(()),
    }
}

/// A vector with another slice. It fails where memory is wanting.
#[cycle(lowering)]
pub fn put_with_slice<'x>(
    walk: &'x Walk<'x>,
    coding: &mut Coding,
    stand: &'x Stand<'x>,
    tail: &'x Tail<'x>,
    node: &'x Core,
) -> Result<(), AllocError>
    requires { (name : Naming) → spec.as_ok walk.now name kind.WithSlice node.now ≡ true }
    ensures { OnOk result (spec.Puts coding.old coding.new walk.now stand.now tail.now
        (λ name. spec.as_for walk.now name kind.WithSlice node.now)) }
{
    match node.parts.as_slice() {
        [_, _, _, _] => {
            let making = Making::Works(Operation::WithSlice, Order::Forwards);
            put_made_of(&*walk, coding, &*stand, &*tail, &making, &*node)
        }
        _ => Ok(()),
    }
}

/// A builtin of the state, whose operands have one type each, and then its only case. It fails where memory is wanting.
#[cycle(lowering)]
pub fn put_state_row<'x>(
    walk: &'x Walk<'x>,
    coding: &mut Coding,
    stand: &'x Stand<'x>,
    tail: &'x Tail<'x>,
    row: Row,
    node: &'x Core,
) -> Result<(), AllocError>
    requires { (name : Naming) → spec.all_lowered_for walk.now name (out-Core node.now).parts ≡ true }
    ensures { OnOk result (spec.Puts coding.old coding.new walk.now stand.now tail.now (λ name. spec.state_for walk.now name row node.now)) }
{
    match walk.setting.cases(node.number, node.parts.len()) {
        [only] => {
            put_all(&*walk, coding, &*stand, node.parts.as_slice())?;
            let mut sources = Items::new(walk.alloc);
            list_operands(
                &*walk,
                coding,
                stand.temp,
                node.parts.as_slice(),
                &mut sources,
            )?;
            let gives = walk.setting.number(&only.gives)?;
            coding.put_apply(
                Place::Temp(stand.temp),
                gives,
                Operation::Builtin(row),
                sources,
            )?;
            put_noted_tail(&*walk, coding, &*stand, &*tail, node.number, &only.gives)
        }
        _ => Ok(()),
    }
}

/// Operands in hand from a place on, each of its only type, behind others. They fail where memory is wanting.
fn list_operands<'x>(
    walk: &'x Walk<'x>,
    coding: &mut Coding,
    temp: u32,
    nodes: &'x [Core],
    sources: &mut Items<Source>,
) -> Result<(), AllocError>
    ensures read { (by : Naming → List Source) → Sourced coding.old.slots sources.old by → OnOk result (Sourced coding.new.slots sources.new
        (λ name. by name ++ spec.operands_for walk.now name temp nodes.now)) }
    ensures grown { OnOk result (Grows coding.old coding.new) }
{
    match nodes {
        [] => Ok(()),
        [first, rest @ ..] => {
            let ends = node_ends(walk.alloc, walk.setting, walk.around, first)?;
            let typ = only_type(walk.setting, &ends)?;
            let source = coding.source(Place::Temp(temp), typ)?;
            sources.push(source)?;
            list_operands(&*walk, coding, further(temp, 1)?, rest, sources)
        }
    }
}

/// The number of the type of the only case; that of `()` where there isn't one. It fails where there are 2^32 types or more.
fn only_case(setting: &Setting<'_>, cases: &[Case]) -> Result<u32, AllocError>
    ensures { IfOk result (λ typ. typ ≡ spec.only_number setting.now (cases_ends cases.now)) }
{
    match cases {
        [] => Ok(setting.unit),
        [only] => setting.number(&only.gives),
        [_, _, ..] => Ok(setting.unit),
    }
}

/// The number of the only type that is said; that of `()` where there isn't one. It fails where there are 2^32 types or more.
pub fn only_type(setting: &Setting<'_>, ends: &Ends<'_>) -> Result<u32, AllocError>
    ensures { IfOk result (λ typ. typ ≡ spec.only_number setting.now (types_of ends.now)) }
{
    match ends {
        Ends::Unsaid => Ok(setting.unit),
        Ends::Cases(cases) => only_case(setting, cases),
        Ends::One(typ) => setting.number(typ),
    }
}

/// What a value gives is noted, and then what comes behind is done with it. It fails where memory is wanting.
fn put_noted_tail<'x>(
    walk: &'x Walk<'x>,
    coding: &mut Coding,
    stand: &'x Stand<'x>,
    tail: &'x Tail<'x>,
    node: u32,
    typ: &'x Sized,
) -> Result<(), AllocError>
    ensures { OnOk result (Emits coding.old coding.new (λ name first. spec.noted_code walk.now name stand.now tail.now node typ.now first)
        (λ name. (tail_of walk.now.setting.now name tail.now).labels)) }
{
    put_notes(
        walk.alloc,
        coding,
        walk.setting,
        stand.levels,
        stand.temp,
        node,
        &*typ,
    )?;
    put_tail(walk.alloc, coding, walk.setting, &*tail, &*typ)
}
