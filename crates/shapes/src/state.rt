//! Registers, with their initial values.
ghost use Rattle.std.specs.Prelude.{◌≡◌, map, [], ◌∷◌, ◌++◌, IfOk, OnOk};
ghost use Rattle.shape_rules.specs.Around.{setting_of};
ghost use Rattle.shape_rules.specs.Findings.{first_failure};
ghost use Rattle.shape_rules.specs.Written.{joined, shape_in as shape_written, typ_in as typ_written};
ghost use Rattle.shapes.specs.Failures.{initial_found, initial_faults, written_faults, state_faults};
ghost use Rattle.shapes.specs.Resolved.{register_if, register_of, register_text, register_text_of, registers_with, register_opening, register_openings};
ghost use Rattle.shapes.specs.Resolved.{initial_openings, initials_openings};

use crate::openings::opening;
use core_numbers::take_number;
use model_state::Register;
use sail_base::{Boxed, Items, Place, Text};
use sail_core::{Opening, OpeningKind, RegisterText};
use sail_syntax::{Def, Exp, TyExp};
use sail_types::Typ;
use shape_calls::missing;
use shape_clauses::elaborate;
use shape_declarations::note_register;
use shape_rules::{Around, First, Locals};
use std::alloc::{AllocError, Global};
use std::mem;
use written_types::{numbers_in, shape_in, typ_in};

/// The registers of a model, how each is written, and their initial values.
#[derive(Drop)]
pub(crate) struct State {
    pub(crate) registers: Items<Register>,
    pub(crate) texts: Items<RegisterText>,
    pub(crate) initials: Items<Opening>,
}

/// A register, where its type stands for one, behind others.
fn push_register(
    name: &Text,
    typ: Option<Typ>,
    registers: &mut Items<Register>,
) -> Result<(), AllocError>
    ensures { OnOk result (registers.new ≡ registers.old ++ register_if name.now typ) }
{
    match typ {
        None => Ok(()),
        Some(typ) => registers.push(Register {
            name: name.clone()?,
            typ,
        }),
    }
}

/// The initial value of the register of this number, which is plain, and notes its failures.
fn read_initial(
    alloc: Global,
    around: &Around<'_>,
    number: u32,
    place: Place,
    typ: &TyExp,
    value: &Exp,
    first: &mut First,
) -> Result<Opening, AllocError>
    ensures opening { IfOk result (λ made. made ≡ register_opening (setting_of around.now) number place typ.now value.now) }
    ensures failures { OnOk result (first.new.error ≡ first_failure first.old.error
        (initial_found (setting_of around.now) (shape_written (setting_of around.now).within typ.now) value.now).faults) }
{
    let want = shape_in(alloc, typ, &around.scope)?;
    let inside = around.plainly();
    let mut locals = Locals::new(alloc);
    let mut made = elaborate(alloc, value, &inside, &mut locals, &want, first)?;
    let core = mem::replace(&mut made.core, missing(alloc, place));
    opening(alloc, place, OpeningKind::Register(number), core)
}

/// The initial value of the register of this number, where it has one, behind others, and notes its failures.
fn push_initial(
    alloc: Global,
    around: &Around<'_>,
    number: u32,
    place: Place,
    typ: &TyExp,
    initial: &Option<Boxed<Exp>>,
    initials: &mut Items<Opening>,
    first: &mut First,
) -> Result<(), AllocError>
    ensures initials { OnOk result (initials.new ≡ initials.old ++ register_openings (setting_of around.now) number place typ.now initial.now) }
    ensures failures { OnOk result (first.new.error ≡ first_failure first.old.error
        (initial_faults (setting_of around.now) (shape_written (setting_of around.now).within typ.now) initial.now)) }
{
    match initial {
        None => Ok(()),
        Some(value) => {
            let opening = read_initial(alloc, around, number, place, typ, value.get(), first)?;
            initials.push(opening)
        }
    }
}

/// A register of this number, and notes its failures.
#[tactic(auto, using(shape_rules::proofs::Firsts::first_failure_append))]
fn push_written(
    alloc: Global,
    around: &Around<'_>,
    number: u32,
    place: Place,
    name: &Text,
    typ: &TyExp,
    initial: &Option<Boxed<Exp>>,
    state: &mut State,
    first: &mut First,
) -> Result<(), AllocError>
    ensures registers { OnOk result (state.new.registers
        ≡ state.old.registers ++ register_if name.now (typ_written (setting_of around.now).within typ.now)) }
    ensures texts { OnOk result (state.new.texts ≡ state.old.texts ++ register_text (setting_of around.now) place typ.now ∷ []) }
    ensures initials { OnOk result (state.new.initials
        ≡ state.old.initials ++ register_openings (setting_of around.now) number place typ.now initial.now) }
    ensures failures { OnOk result (first.new.error
        ≡ first_failure first.old.error (written_faults (setting_of around.now) typ.now initial.now)) }
{
    let read = typ_in(alloc, typ, &around.scope)?;
    note_register(alloc, around.types, &around.scope, typ, &read, first)?;
    push_initial(
        alloc,
        around,
        number,
        place,
        typ,
        initial,
        &mut state.initials,
        first,
    )?;
    let numbers = numbers_in(alloc, typ, &around.scope)?;
    state.texts.push(RegisterText { place, numbers })?;
    push_register(name, read, &mut state.registers)
}

/// A register of this number, where a definition is one, and notes its failures. Gives how many there are then.
fn push_state(
    alloc: Global,
    around: &Around<'_>,
    number: u32,
    definition: &Def,
    state: &mut State,
    first: &mut First,
) -> Result<u32, AllocError>
    ensures number { IfOk result (λ after. after ≡ registers_with number definition.now) }
    ensures registers { OnOk result (state.new.registers ≡ state.old.registers ++ register_of (setting_of around.now) definition.now) }
    ensures texts { OnOk result (state.new.texts ≡ state.old.texts ++ register_text_of (setting_of around.now) definition.now) }
    ensures initials { OnOk result (state.new.initials ≡ state.old.initials ++ initial_openings (setting_of around.now) number definition.now) }
    ensures failures { OnOk result (first.new.error ≡ first_failure first.old.error (state_faults (setting_of around.now) definition.now)) }
{
    match definition {
        Def::Register {
            place,
            name,
            typ,
            initial,
        } => {
            push_written(
                alloc, around, number, *place, &name.text, typ, initial, state, first,
            )?;
            let mut next = number;
            take_number(&mut next)?;
            Ok(next)
        }
        _ => Ok(number),
    }
}

/// The registers of a model, in text order, and notes their failures. The one error is want of memory.
#[tactic(auto, using(shape_rules::proofs::Firsts::first_failure_append))]
pub(crate) fn read_state(
    alloc: Global,
    definitions: &[Def],
    around: &Around<'_>,
    first: &mut First,
) -> Result<State, AllocError>
    ensures registers { IfOk result (λ made. made.registers ≡ joined (map (register_of (setting_of around.now)) definitions.now)) }
    ensures texts { IfOk result (λ made. made.texts ≡ joined (map (register_text_of (setting_of around.now)) definitions.now)) }
    ensures initials { IfOk result (λ made. made.initials ≡ initials_openings (setting_of around.now) 0 definitions.now) }
    ensures failures { OnOk result (first.new.error
        ≡ first_failure first.old.error (joined (map (state_faults (setting_of around.now)) definitions.now))) }
{
    let mut state = State {
        registers: Items::new(alloc),
        texts: Items::new(alloc),
        initials: Items::new(alloc),
    };
    let mut number = 0;
    for definition in definitions {
        number = push_state(alloc, around, number, definition, &mut state, first)?;
    }
    Ok(state)
}
