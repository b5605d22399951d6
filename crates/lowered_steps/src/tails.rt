//! What is done with a value in hand.
ghost use Rattle.std.specs.Prelude.{◌+◌, [], ◌∷◌, OnOk};
ghost use Rattle.jib.specs.declared.code.Literal.TheVariants as literal;
ghost use Rattle.lowered_pieces.specs.Chains.{by_case, many};
ghost use Rattle.lowered_pieces.specs.Emitted.{Emits, no_labels};
ghost use Rattle.lowered_pieces.specs.Frames.{ArmsPut};
ghost use Rattle.lowered_pieces.specs.Forms.{constant_code, kit_at, live_code, met_arm, picked_in, unit_piece};
ghost use Rattle.lowered_pieces.specs.Moves.{retype};
ghost use Rattle.lowered_steps.specs.Setting.{kit_for, number_for};
ghost use Rattle.lowered_steps.specs.Stands.{depths_of, stand_of};
ghost use Rattle.lowered_steps.specs.Tails.{tail_of};

use crate::cells::{Cell, count_all, put_cell, put_several};
use crate::chains::{begin_arm, begin_arms, end_arm, end_arms};
use crate::moves::{put_kept, put_retype};
use crate::parts::is_never;
use crate::setting::{Setting, further};
use crate::stands::{Stand, count_names};
use crate::stores::count_indexes;
use jib::{Literal, Operation};
use lowered_pieces::Coding;
use lowered_slots::Place;
use sail_base::Text;
use sail_core::Target;
use size_values::Sized;
use sized_nodes::Case;
use std::alloc::{AllocError, Global};

/// What is done with a value in hand, where it was made.
#[derive(Clone, Copy)]
pub enum Tail<'a> {
    /// It stays in hand.
    Stays,
    /// It is thrown.
    Throws(&'a Stand<'a>),
    /// It is what the function gives.
    Returns(&'a Stand<'a>),
    /// It goes to the place of the next variable, which has this name.
    Binds(&'a Text, &'a Stand<'a>),
    /// It comes to the type that a node with these cases gives, where ways meet.
    Meets(&'a [Case], &'a Stand<'a>),
    /// It goes to a cell, whose indexes stand before it from where its assignment does, and then `()` is in hand, for what comes behind.
    Gives(&'a Cell<'a>, &'a Stand<'a>, &'a Tail<'a>),
    /// Its parts go to the cells of these targets, and then `()` is in hand, for what comes behind.
    Shares(&'a [Target], &'a Stand<'a>, &'a Tail<'a>),
    /// It is the payload of an option: the type of the option, and that of its payload.
    Wraps(&'a Sized, &'a Sized, &'a Stand<'a>, &'a Tail<'a>),
    /// It stands in this place, and comes to the one where it is wanted, for what comes behind.
    Moves(u32, &'a Stand<'a>, &'a Tail<'a>),
}

/// A value in hand of a type comes to another where ways meet; nothing is put where it doesn't exist. It fails where memory is wanting.
fn put_met_arm(
    alloc: Global,
    coding: &mut Coding,
    setting: &Setting<'_>,
    temp: u32,
    typ: &Sized,
    gives: &Sized,
) -> Result<(), AllocError>
    ensures { OnOk result (Emits coding.old coding.new (λ name first. live_code (typ.now ∷ [])
        (retype (kit_for setting.now name) temp (number_for setting.now typ.now) (number_for setting.now gives.now))) no_labels) }
{
    if is_never(typ) {
        Ok(())
    } else {
        let from = setting.number(typ)?;
        let to = setting.number(gives)?;
        put_retype(alloc, coding, setting, temp, from, to)
    }
}

/// A value of a type comes to those of cases, with tests before all but the last. It fails where memory is wanting.
fn put_met_rest(
    alloc: Global,
    coding: &mut Coding,
    setting: &Setting<'_>,
    stand: &Stand<'_>,
    typ: &Sized,
    end: u32,
    cases: &[Case],
) -> Result<(), AllocError>
    ensures { OnOk result (ArmsPut picked_in (λ name. kit_at (kit_for setting.now name) (depths_of stand.now.levels.now)) (stand.now.temp + 1) no_labels
        (λ name. met_arm (kit_for setting.now name) (number_for setting.now) typ.now (stand_of stand.now)) end cases.now coding.old coding.new) }
{
    match cases {
        [] => Ok(()),
        [only] => put_met_arm(alloc, coding, setting, stand.temp, typ, &only.gives),
        [first, rest @ ..] => {
            let free = further(stand.temp, 1)?;
            let picked = first.picked.as_slice();
            let next = begin_arm(alloc, coding, setting, stand.levels, free, picked)?;
            put_met_arm(alloc, coding, setting, stand.temp, typ, &first.gives)?;
            end_arm(coding, end, next)?;
            put_met_rest(alloc, coding, setting, stand, typ, end, rest)
        }
    }
}

/// A value comes to the type of the case that is present. It fails where memory is wanting.
fn put_met(
    alloc: Global,
    coding: &mut Coding,
    setting: &Setting<'_>,
    cases: &[Case],
    stand: &Stand<'_>,
    typ: &Sized,
) -> Result<(), AllocError>
    ensures { OnOk result (Emits coding.old coding.new (λ name first.
        by_case picked_in (kit_at (kit_for setting.now name) (depths_of stand.now.levels.now)) (stand.now.temp + 1) 0
        (met_arm (kit_for setting.now name) (number_for setting.now) typ.now (stand_of stand.now)) first cases.now) (λ name. many 0 cases.now)) }
{
    let count = cases.len();
    let end = begin_arms(coding, count)?;
    put_met_rest(alloc, coding, setting, stand, typ, end, cases)?;
    end_arms(coding, count, end)
}

/// What is done with a value of this type. It fails where memory is wanting.
pub fn put_tail(
    alloc: Global,
    coding: &mut Coding,
    setting: &Setting<'_>,
    tail: &Tail<'_>,
    typ: &Sized,
) -> Result<(), AllocError>
    ensures { OnOk result (Emits coding.old coding.new (λ name first. (tail_of setting.now name tail.now).code typ.now first)
        (λ name. (tail_of setting.now name tail.now).labels)) }
{
    match tail {
        Tail::Stays => Ok(()),
        Tail::Throws(stand) => {
            let number = setting.number(typ)?;
            coding.put_copy(
                Place::Raised,
                setting.exception,
                Place::Temp(stand.temp),
                number,
            )?;
            coding.put_goto(stand.on_throw)
        }
        Tail::Returns(stand) => {
            let number = setting.number(typ)?;
            coding.put_end(Place::Temp(stand.temp), number)
        }
        Tail::Binds(text, stand) => {
            let local = Place::Local(count_names(stand.scope)?);
            let types = setting.reads_as(text);
            put_kept(alloc, coding, setting, local, stand.temp, types, typ)
        }
        Tail::Meets(cases, stand) => put_met(alloc, coding, setting, cases, stand, typ),
        Tail::Gives(cell, stand, behind) => {
            let takes = count_indexes(cell.suffixes)?;
            let given = further(stand.temp, takes)?;
            let higher = Stand {
                temp: given,
                ..**stand
            };
            put_cell(alloc, coding, setting, cell, stand.temp, &higher)?;
            put_unit(coding, setting, stand.temp)?;
            put_tail(alloc, coding, setting, behind, setting.nothing)
        }
        Tail::Shares(targets, stand, behind) => {
            let takes = count_all(targets)?;
            let given = further(stand.temp, takes)?;
            let higher = Stand {
                temp: given,
                ..**stand
            };
            put_several(alloc, coding, setting, targets, 0, stand.temp, &higher, typ)?;
            put_unit(coding, setting, stand.temp)?;
            put_tail(alloc, coding, setting, behind, setting.nothing)
        }
        Tail::Wraps(option, payload, stand, behind) => {
            let from = setting.number(typ)?;
            let number = setting.number(payload)?;
            let gives = setting.number(option)?;
            let place = Place::Temp(stand.temp);
            put_retype(alloc, coding, setting, stand.temp, from, number)?;
            coding.put_apply_one(alloc, place, gives, Operation::Construct(0), place, number)?;
            put_tail(alloc, coding, setting, behind, option)
        }
        Tail::Moves(temp, stand, behind) => {
            if *temp == stand.temp {
                put_tail(alloc, coding, setting, behind, typ)
            } else {
                let number = setting.number(typ)?;
                let place = Place::Temp(stand.temp);
                coding.put_copy(place, number, Place::Temp(*temp), number)?;
                put_tail(alloc, coding, setting, behind, typ)
            }
        }
    }
}

/// `()` comes to a place in hand. It fails where memory is wanting.
fn put_unit(coding: &mut Coding, setting: &Setting<'_>, temp: u32) -> Result<(), AllocError>
    ensures { OnOk result (Emits coding.old coding.new
        (λ name first. constant_code (kit_for setting.now name) (number_for setting.now setting.now.nothing.now) literal.Unit temp) no_labels) }
{
    let number = setting.number(setting.nothing)?;
    coding.put_constant(Place::Temp(temp), number, Literal::Unit)
}

/// `()` is in hand, and then what is done with it. It fails where memory is wanting.
pub fn put_nothing(
    alloc: Global,
    coding: &mut Coding,
    setting: &Setting<'_>,
    stand: &Stand<'_>,
    tail: &Tail<'_>,
) -> Result<(), AllocError>
    ensures { OnOk result (Emits coding.old coding.new
        (λ name first. (unit_piece (kit_for setting.now name)).ended (tail_of setting.now name tail.now) (stand_of stand.now) first)
        (λ name. (tail_of setting.now name tail.now).labels)) }
{
    put_unit(coding, setting, stand.temp)?;
    put_tail(alloc, coding, setting, tail, setting.nothing)
}
