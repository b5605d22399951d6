//! New values of registers and of variables, and of parts of them.
ghost use Rattle.std.specs.Prelude.{◌≡◌, [], ◌∷◌, IfOk, OnOk};
ghost use Rattle.lowered_pieces.specs.Chains.{many};
ghost use Rattle.lowered_pieces.specs.Emitted.{Emits, no_labels};
ghost use Rattle.lowered_pieces.specs.Frames.{ArmsPut};
ghost use Rattle.lowered_pieces.specs.Forms.{kit_at, picked_in};
ghost use Rattle.lowered_pieces.specs.Nodes.{cases_at};
ghost use Rattle.lowered_pieces.specs.Writes.{takes_all, target_spot};
ghost use Rattle.lowered_steps.specs.Setting.{kit_for, nodes_in};
ghost use Rattle.lowered_steps.specs.Stands.{depths_of, stand_of};
ghost use Rattle.lowered_steps.specs.Cells as spec;

use crate::chains::{begin_arm, begin_arms, end_arm, end_arms};
use crate::moves::{put_cast, put_kept};
use crate::notes::put_notes;
use crate::parts::component_type;
use crate::setting::{Setting, further};
use crate::stands::{Stand, place_in};
use crate::stores::{count_indexes, put_replaced};
use jib::Operation;
use lowered_pieces::Coding;
use lowered_slots::Place;
use sail_base::Text;
use sail_core::{Suffix, Target, TargetKind};
use size_values::Sized;
use sized_nodes::Case;
use std::alloc::{AllocError, Global};

/// What holds a value.
#[derive(Clone, Copy)]
pub enum Holder<'a> {
    /// A register.
    Register(u32),
    /// The newest variable of a name.
    Variable(&'a Text),
}

/// The value of a holder, or a part of it.
#[derive(Clone, Copy)]
pub struct Cell<'a> {
    /// The number of the node where the new value comes to its type.
    pub number: u32,
    /// That of the node where the whole is read.
    pub read: u32,
    /// What holds it.
    pub holder: Holder<'a>,
    /// The way to the part; none where it is the whole.
    pub suffixes: &'a [Suffix],
}

/// A register or a variable, where a target of this kind is one.
fn alone_of(number: u32, kind: &TargetKind) -> Option<Cell<'_>>
    ensures { spec.cell_in result ≡ spec.alone number kind.now }
{
    match kind {
        TargetKind::Register(register) => Some(Cell {
            number,
            read: number,
            holder: Holder::Register(*register),
            suffixes: &[],
        }),
        TargetKind::Variable(name) => Some(Cell {
            number,
            read: number,
            holder: Holder::Variable(name),
            suffixes: &[],
        }),
        TargetKind::Part(_) => None,
        TargetKind::Tuple => None,
        TargetKind::Call(_, _, _) => None,
    }
}

/// A whole, where a target is one.
fn whole_of(target: &Target) -> Option<Cell<'_>>
    ensures { spec.cell_in result ≡ spec.whole_only (target_spot target.now) }
{
    match target.parts.as_slice() {
        [] => alone_of(target.number, &target.kind),
        [_, ..] => None,
    }
}

/// A part of a whole, where there is a way to it.
fn part_of<'a>(number: u32, whole: Option<Cell<'a>>, suffixes: &'a [Suffix]) -> Option<Cell<'a>>
    ensures { spec.cell_in result ≡ spec.part_if number (spec.cell_in whole.entry) suffixes.now }
{
    match whole {
        Some(whole) => match suffixes {
            [] => None,
            [_, ..] => Some(Cell {
                number,
                read: whole.number,
                holder: whole.holder,
                suffixes,
            }),
        },
        None => None,
    }
}

/// What a target is, where it is a register or a variable, or a part of one.
pub fn cell_of(target: &Target) -> Option<Cell<'_>>
    ensures { spec.cell_in result ≡ spec.only_cell (target_spot target.now) }
{
    let parts = target.parts.as_slice();
    match &target.kind {
        TargetKind::Register(_) => whole_of(target),
        TargetKind::Variable(_) => whole_of(target),
        TargetKind::Part(suffixes) => match parts {
            [] => None,
            [base] => part_of(target.number, whole_of(base), suffixes.as_slice()),
            [_, _, ..] => None,
        },
        TargetKind::Tuple => None,
        TargetKind::Call(_, _, _) => None,
    }
}

/// How many indexes the cells of targets take. It fails where there are 2^32 or more.
pub fn count_all(targets: &[Target]) -> Result<u32, AllocError>
    ensures { IfOk result (λ count. count ≡ takes_all (spec.cells_of targets.now)) }
{
    match targets {
        [] => Ok(0),
        [first, rest @ ..] => {
            let behind = count_all(rest)?;
            match cell_of(first) {
                Some(cell) => further(count_indexes(cell.suffixes)?, behind),
                None => Ok(behind),
            }
        }
    }
}

/// The value in hand, of this type, goes to its holder. It fails where memory is wanting.
fn put_store(
    alloc: Global,
    coding: &mut Coding,
    setting: &Setting<'_>,
    holder: Holder<'_>,
    stand: &Stand<'_>,
    typ: &Sized,
) -> Result<(), AllocError>
    ensures { OnOk result (Emits coding.old coding.new (λ name first. spec.stored setting.now name holder.entry stand.now typ.now) no_labels) }
{
    match holder {
        Holder::Register(register) => {
            let number = setting.number(typ)?;
            coding.put_write(register, Place::Temp(stand.temp), number)
        }
        Holder::Variable(name) => {
            let place = place_in(name, stand.scope);
            let types = setting.reads_as(name);
            put_kept(alloc, coding, setting, place, stand.temp, types, typ)
        }
    }
}

/// What a holder holds comes to hand in a case. It fails where memory is wanting.
fn put_held(
    coding: &mut Coding,
    setting: &Setting<'_>,
    holder: Holder<'_>,
    stand: &Stand<'_>,
    case: &Case,
) -> Result<(), AllocError>
    ensures { OnOk result (Emits coding.old coding.new (λ name first. spec.held setting.now name holder.entry (stand_of stand.now) case.now) no_labels) }
{
    let place = Place::Temp(stand.temp);
    match holder {
        Holder::Register(register) => {
            let gives = setting.number(&case.gives)?;
            coding.put_register(place, gives, register)
        }
        Holder::Variable(name) => {
            let gives = setting.number(&case.gives)?;
            let from = place_in(name, stand.scope);
            coding.put_copy(place, gives, from, gives)
        }
    }
}

/// The whole in hand, of this type, gets a new part, which stands in a place at a type, its numbers are noted, and it goes to its holder. It fails where
/// memory is wanting.
fn put_renewed(
    alloc: Global,
    coding: &mut Coding,
    setting: &Setting<'_>,
    cell: &Cell<'_>,
    indexes: u32,
    stand: &Stand<'_>,
    given: u32,
    part: u32,
    typ: &Sized,
) -> Result<(), AllocError>
    ensures { OnOk result (Emits coding.old coding.new
        (λ name first. spec.renewed setting.now name cell.now indexes given part stand.now typ.now) no_labels) }
{
    put_replaced(
        alloc,
        coding,
        setting,
        cell.suffixes,
        indexes,
        stand.temp,
        typ,
        given,
        part,
    )?;
    put_notes(
        alloc,
        coding,
        setting,
        stand.levels,
        stand.temp,
        cell.read,
        typ,
    )?;
    put_store(alloc, coding, setting, cell.holder, stand, typ)
}

/// So behind the read of the whole in a case. It fails where memory is wanting.
fn put_renewed_arm(
    alloc: Global,
    coding: &mut Coding,
    setting: &Setting<'_>,
    cell: &Cell<'_>,
    indexes: u32,
    stand: &Stand<'_>,
    given: u32,
    part: u32,
    case: &Case,
) -> Result<(), AllocError>
    ensures { OnOk result (Emits coding.old coding.new
        (λ name. spec.renewed_arm setting.now name cell.now indexes given part stand.now case.now) no_labels) }
{
    put_held(coding, setting, cell.holder, stand, case)?;
    let gives = &case.gives;
    let levels = stand.levels;
    put_notes(alloc, coding, setting, levels, stand.temp, cell.read, gives)?;
    put_renewed(
        alloc, coding, setting, cell, indexes, stand, given, part, gives,
    )
}

/// So in each of these cases, with tests before all but the last. It fails where memory is wanting.
fn put_renewed_rest(
    alloc: Global,
    coding: &mut Coding,
    setting: &Setting<'_>,
    cell: &Cell<'_>,
    indexes: u32,
    stand: &Stand<'_>,
    given: u32,
    part: u32,
    end: u32,
    cases: &[Case],
) -> Result<(), AllocError>
    ensures { OnOk result (ArmsPut picked_in (λ name. kit_at (kit_for setting.now name) (depths_of stand.now.levels.now)) stand.now.temp no_labels
        (λ name. spec.renewed_arm setting.now name cell.now indexes given part stand.now) end cases.now coding.old coding.new) }
{
    match cases {
        [] => Ok(()),
        [only] => put_renewed_arm(
            alloc, coding, setting, cell, indexes, stand, given, part, only,
        ),
        [first, rest @ ..] => {
            let picked = first.picked.as_slice();
            let next = begin_arm(alloc, coding, setting, stand.levels, stand.temp, picked)?;
            put_renewed_arm(
                alloc, coding, setting, cell, indexes, stand, given, part, first,
            )?;
            end_arm(coding, end, next)?;
            put_renewed_rest(
                alloc, coding, setting, cell, indexes, stand, given, part, end, rest,
            )
        }
    }
}

/// The whole is read to a place that is free, and gets a new part. It fails where memory is wanting.
fn put_part(
    alloc: Global,
    coding: &mut Coding,
    setting: &Setting<'_>,
    cell: &Cell<'_>,
    indexes: u32,
    stand: &Stand<'_>,
    given: u32,
    part: u32,
) -> Result<(), AllocError>
    ensures { OnOk result (Emits coding.old coding.new (λ name. spec.part_code setting.now name cell.now indexes given part stand.now)
        (λ name. many 0 (cases_at cell.now.read 0 (nodes_in setting.now)))) }
{
    let cases = setting.cases(cell.read, 0);
    let count = cases.len();
    let end = begin_arms(coding, count)?;
    put_renewed_rest(
        alloc, coding, setting, cell, indexes, stand, given, part, end, cases,
    )?;
    end_arms(coding, count, end)
}

/// What is done with a new value in hand once it has its type. It fails where memory is wanting.
fn put_typed(
    alloc: Global,
    coding: &mut Coding,
    setting: &Setting<'_>,
    cell: &Cell<'_>,
    indexes: u32,
    stand: &Stand<'_>,
    typ: &Sized,
) -> Result<(), AllocError>
    ensures { OnOk result (Emits coding.old coding.new (λ name. spec.typed setting.now name cell.now indexes stand.now typ.now)
        (λ name. spec.typed_count setting.now name cell.now)) }
{
    match cell.suffixes {
        [] => put_store(alloc, coding, setting, cell.holder, stand, typ),
        [_, ..] => {
            let next = further(stand.temp, 1)?;
            let behind = Stand {
                temp: next,
                ..*stand
            };
            let part = setting.number(typ)?;
            let given = stand.temp;
            put_part(alloc, coding, setting, cell, indexes, &behind, given, part)
        }
    }
}

/// A new value in hand comes to its type in a case, and goes where it is to. It fails where memory is wanting.
fn put_cell_arm(
    alloc: Global,
    coding: &mut Coding,
    setting: &Setting<'_>,
    cell: &Cell<'_>,
    indexes: u32,
    stand: &Stand<'_>,
    case: &Case,
) -> Result<(), AllocError>
    ensures { OnOk result (Emits coding.old coding.new (λ name. spec.cell_arm setting.now name cell.now indexes stand.now case.now)
        (λ name. spec.typed_count setting.now name cell.now)) }
{
    put_cast(alloc, coding, setting, stand.temp, case)?;
    let gives = &case.gives;
    let levels = stand.levels;
    put_notes(
        alloc,
        coding,
        setting,
        levels,
        stand.temp,
        cell.number,
        gives,
    )?;
    put_typed(alloc, coding, setting, cell, indexes, stand, gives)
}

/// So in each of these cases, with tests before all but the last. It fails where memory is wanting.
fn put_cell_rest(
    alloc: Global,
    coding: &mut Coding,
    setting: &Setting<'_>,
    cell: &Cell<'_>,
    indexes: u32,
    stand: &Stand<'_>,
    free: u32,
    end: u32,
    cases: &[Case],
) -> Result<(), AllocError>
    ensures { OnOk result (ArmsPut picked_in (λ name. kit_at (kit_for setting.now name) (depths_of stand.now.levels.now)) free
        (λ name. spec.typed_count setting.now name cell.now) (λ name. spec.cell_arm setting.now name cell.now indexes stand.now) end cases.now
        coding.old coding.new) }
{
    match cases {
        [] => Ok(()),
        [only] => put_cell_arm(alloc, coding, setting, cell, indexes, stand, only),
        [first, rest @ ..] => {
            let picked = first.picked.as_slice();
            let next = begin_arm(alloc, coding, setting, stand.levels, free, picked)?;
            put_cell_arm(alloc, coding, setting, cell, indexes, stand, first)?;
            end_arm(coding, end, next)?;
            put_cell_rest(
                alloc, coding, setting, cell, indexes, stand, free, end, rest,
            )
        }
    }
}

/// A new value in hand goes to a cell, whose indexes stand from a place on. It fails where memory is wanting.
pub fn put_cell(
    alloc: Global,
    coding: &mut Coding,
    setting: &Setting<'_>,
    cell: &Cell<'_>,
    indexes: u32,
    stand: &Stand<'_>,
) -> Result<(), AllocError>
    ensures { OnOk result (Emits coding.old coding.new (λ name. spec.cell_code_of setting.now name cell.now indexes stand.now)
        (λ name. spec.cell_count setting.now name cell.now)) }
{
    let cases = setting.cases(cell.number, 1);
    let free = further(stand.temp, 1)?;
    let count = cases.len();
    let end = begin_arms(coding, count)?;
    put_cell_rest(
        alloc, coding, setting, cell, indexes, stand, free, end, cases,
    )?;
    end_arms(coding, count, end)
}

/// A part of the tuple in hand, of this type, comes to the place behind it. It fails where memory is wanting.
fn put_component(
    alloc: Global,
    coding: &mut Coding,
    setting: &Setting<'_>,
    at: u32,
    stand: &Stand<'_>,
    typ: &Sized,
) -> Result<(), AllocError>
    ensures { OnOk result (Emits coding.old coding.new (λ name first. spec.component_of setting.now name at stand.now typ.now ∷ []) no_labels) }
{
    let inner = component_type(alloc, typ, at as usize)?;
    let part = setting.number(&inner)?;
    let whole = setting.number(typ)?;
    let next = further(stand.temp, 1)?;
    let op = Operation::Field(at);
    let from = Place::Temp(stand.temp);
    coding.put_apply_one(alloc, Place::Temp(next), part, op, from, whole)
}

/// The parts of a tuple in hand, of this type, go to the cells of targets, one after the other, from one part on. It fails where memory is wanting.
pub fn put_several(
    alloc: Global,
    coding: &mut Coding,
    setting: &Setting<'_>,
    targets: &[Target],
    at: u32,
    indexes: u32,
    stand: &Stand<'_>,
    typ: &Sized,
) -> Result<(), AllocError>
    ensures { OnOk result (Emits coding.old coding.new (λ name. spec.several_of setting.now name (spec.cells_of targets.now) at indexes stand.now typ.now)
        (λ name. spec.several_count setting.now name (spec.cells_of targets.now))) }
{
    match targets {
        [] => Ok(()),
        [first, rest @ ..] => match cell_of(first) {
            None => put_several(alloc, coding, setting, rest, at, indexes, stand, typ),
            Some(cell) => {
                put_component(alloc, coding, setting, at, stand, typ)?;
                let place = further(stand.temp, 1)?;
                let behind = Stand {
                    temp: place,
                    ..*stand
                };
                put_cell(alloc, coding, setting, &cell, indexes, &behind)?;
                let next = further(at, 1)?;
                let takes = count_indexes(cell.suffixes)?;
                let more = further(indexes, takes)?;
                put_several(alloc, coding, setting, rest, next, more, stand, typ)
            }
        },
    }
}
