//! Values that go from one place to another, or get another type.
ghost use Rattle.std.specs.Prelude.{◌≡◌, [], ◌∷◌, IfOk, OnOk};
ghost use Rattle.lowered_pieces.specs.Emitted.{Emits, no_labels};
ghost use Rattle.lowered_pieces.specs.Forms.{first_type, live_code};
ghost use Rattle.lowered_pieces.specs.Moves.{kept_all, kept_as, kept_code, move, retype};
ghost use Rattle.lowered_pieces.specs.Places.{Naming};
ghost use Rattle.lowered_steps.specs.Setting.{kit_for, number_for};

use crate::parts::is_dead;
use crate::setting::Setting;
use jib::Operation;
use lowered_pieces::Coding;
use lowered_slots::Place;
use size_values::Sized;
use sized_nodes::Case;
use std::alloc::{AllocError, Global};

/// A value goes to a place at one type from another at another. It fails where memory is wanting.
pub fn put_move(
    alloc: Global,
    coding: &mut Coding,
    setting: &Setting<'_>,
    to: Place,
    typ: u32,
    from: Place,
    other: u32,
) -> Result<(), AllocError>
    ensures { OnOk result (Emits coding.old coding.new (λ name first. move (kit_for setting.now name) to typ from other ∷ []) no_labels) }
{
    if other == typ {
        coding.put_copy(to, typ, from, other)
    } else {
        coding.put_apply_one(alloc, to, typ, Operation::Same, from, other)
    }
}

/// A value in hand gets another type. It fails where memory is wanting.
pub fn put_retype(
    alloc: Global,
    coding: &mut Coding,
    setting: &Setting<'_>,
    temp: u32,
    from: u32,
    to: u32,
) -> Result<(), AllocError>
    ensures { OnOk result (Emits coding.old coding.new (λ name first. retype (kit_for setting.now name) temp from to) no_labels) }
{
    if from == to {
        Ok(())
    } else {
        coding.put_apply_one(
            alloc,
            Place::Temp(temp),
            to,
            Operation::Same,
            Place::Temp(temp),
            from,
        )
    }
}

/// A value in hand goes to a place at another type as well. It fails where memory is wanting.
fn put_kept_as(
    alloc: Global,
    coding: &mut Coding,
    setting: &Setting<'_>,
    place: Place,
    to: u32,
    temp: u32,
    from: u32,
) -> Result<(), AllocError>
    ensures { OnOk result (Emits coding.old coding.new (λ name first. kept_as (kit_for setting.now name) place to temp from) no_labels) }
{
    if from == to {
        Ok(())
    } else {
        coding.put_apply_one(alloc, place, to, Operation::Same, Place::Temp(temp), from)
    }
}

/// So at several types. It fails where memory is wanting.
fn put_kept_all(
    alloc: Global,
    coding: &mut Coding,
    setting: &Setting<'_>,
    place: Place,
    temp: u32,
    from: u32,
    types: &[Sized],
) -> Result<(), AllocError>
    ensures { OnOk result (Emits coding.old coding.new (λ name first. kept_all (kit_for setting.now name) place temp from types.now) no_labels) }
{
    match types {
        [] => Ok(()),
        [first, rest @ ..] => {
            let to = setting.number(first)?;
            put_kept_as(alloc, coding, setting, place, to, temp, from)?;
            put_kept_all(alloc, coding, setting, place, temp, from, rest)
        }
    }
}

/// A value in hand of a type goes to the place of a variable, which is read at these types. It fails where memory is wanting.
pub fn put_kept(
    alloc: Global,
    coding: &mut Coding,
    setting: &Setting<'_>,
    place: Place,
    temp: u32,
    types: &[Sized],
    typ: &Sized,
) -> Result<(), AllocError>
    ensures { OnOk result (Emits coding.old coding.new (λ name first. kept_code (kit_for setting.now name) place temp types.now typ.now) no_labels) }
{
    let from = setting.number(typ)?;
    coding.put_copy(place, from, Place::Temp(temp), from)?;
    put_kept_all(alloc, coding, setting, place, temp, from, types)
}

/// The number of the first of these types; that of `()` where there is none. It fails where there are 2^32 types or more.
pub fn first_number(setting: &Setting<'_>, types: &[Sized]) -> Result<u32, AllocError>
    ensures { IfOk result (λ number. (name : Naming) → number ≡ first_type (kit_for setting.now name) (number_for setting.now) types.now) }
{
    match types {
        [] => Ok(setting.unit),
        [first, ..] => setting.number(first),
    }
}

/// A value in hand comes to the type of a case; nothing is put where it doesn't exist. It fails where memory is wanting.
pub fn put_cast(
    alloc: Global,
    coding: &mut Coding,
    setting: &Setting<'_>,
    temp: u32,
    case: &Case,
) -> Result<(), AllocError>
    ensures { OnOk result (Emits coding.old coding.new (λ name first. live_code case.now.takes
        (retype (kit_for setting.now name) temp (first_type (kit_for setting.now name) (number_for setting.now) case.now.takes)
        (number_for setting.now case.now.gives))) no_labels) }
{
    let operands = case.takes.as_slice();
    if is_dead(operands) {
        Ok(())
    } else {
        let gives = setting.number(&case.gives)?;
        let takes = first_number(setting, operands)?;
        put_retype(alloc, coding, setting, temp, takes, gives)
    }
}
