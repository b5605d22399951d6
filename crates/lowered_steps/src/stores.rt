//! New parts of values: what stands on the way to the part is taken out, gets it, and is put back.
ghost use Rattle.std.specs.Prelude.{◌≡◌, ◌+◌, List, [], ◌∷◌, ◌++◌, IfOk, OnOk};
ghost use Rattle.jib.specs.declared.code.Source.{Source};
ghost use Rattle.lowered_pieces.specs.Emitted.{Emits, Grows, Sourced, no_labels};
ghost use Rattle.lowered_pieces.specs.Places.{Naming};
ghost use Rattle.lowered_pieces.specs.Writes.{index_sources, put_op as put_op_of, put_step, replaced_code, take_op as take_op_of, taken_step};
ghost use Rattle.lowered_pieces.specs.Writes.{takes_in, takes_of};
ghost use Rattle.lowered_steps.specs.Setting.{kit_for};
ghost use Rattle.lowered_steps.specs.Stores as spec;

use crate::parts::way_type;
use crate::setting::{Setting, further};
use jib::{Operation, Source};
use lowered_pieces::Coding;
use lowered_slots::Place;
use sail_base::Items;
use sail_core::{Suffix, Way};
use size_values::Sized;
use std::alloc::{AllocError, Global};

/// How many indexes a way takes.
fn takes(way: &Way) -> u32
    ensures { result ≡ takes_of way.now }
{
    match way {
        Way::Field(_, _) => 0,
        Way::Item => 1,
        Way::Slice => 2,
    }
}

/// How many indexes suffixes take. It fails where there are 2^32 or more.
pub fn count_indexes(suffixes: &[Suffix]) -> Result<u32, AllocError>
    ensures { IfOk result (λ count. count ≡ takes_in suffixes.now) }
{
    match suffixes {
        [] => Ok(0),
        [first, rest @ ..] => {
            let behind = count_indexes(rest)?;
            further(takes(&first.way), behind)
        }
    }
}

/// What takes out a part.
fn take_op(way: &Way) -> Operation
    ensures { result ≡ take_op_of way.now }
{
    match way {
        Way::Field(_, field) => Operation::Field(*field),
        Way::Item => Operation::Item,
        Way::Slice => Operation::Slice,
    }
}

/// What puts in a new part.
fn put_op(way: &Way) -> Operation
    ensures { result ≡ put_op_of way.now }
{
    match way {
        Way::Field(_, field) => Operation::WithField(*field),
        Way::Item => Operation::WithItem,
        Way::Slice => Operation::WithSlice,
    }
}

/// An index in hand at a place, behind what is read before it. It fails where memory is wanting.
fn push_index(
    coding: &mut Coding,
    setting: &Setting<'_>,
    index: u32,
    sources: &mut Items<Source>,
) -> Result<(), AllocError>
    ensures read { (by : Naming → List Source) → Sourced coding.old.slots sources.old by → OnOk result (Sourced coding.new.slots sources.new
        (λ name. by name ++ spec.temp_at name index setting.now.integer ∷ [])) }
    ensures grown { OnOk result (Grows coding.old coding.new) }
{
    let source = coding.source(Place::Temp(index), setting.integer)?;
    sources.push(source)
}

/// Two of them, from a place on.
fn push_two(
    coding: &mut Coding,
    setting: &Setting<'_>,
    indexes: u32,
    sources: &mut Items<Source>,
) -> Result<(), AllocError>
    ensures read { (by : Naming → List Source) → Sourced coding.old.slots sources.old by → OnOk result (Sourced coding.new.slots sources.new
        (λ name. by name ++ spec.temp_at name indexes setting.now.integer ∷ spec.temp_at name (indexes + 1) setting.now.integer ∷ [])) }
    ensures grown { OnOk result (Grows coding.old coding.new) }
{
    push_index(coding, setting, indexes, sources)?;
    let behind = further(indexes, 1)?;
    push_index(coding, setting, behind, sources)
}

/// The indexes that a way takes, from a place on, behind what is read before them. It fails where memory is wanting.
fn push_indexes(
    coding: &mut Coding,
    setting: &Setting<'_>,
    way: &Way,
    indexes: u32,
    sources: &mut Items<Source>,
) -> Result<(), AllocError>
    ensures read { (by : Naming → List Source) → Sourced coding.old.slots sources.old by → OnOk result (Sourced coding.new.slots sources.new
        (λ name. by name ++ index_sources setting.now.types.now (kit_for setting.now name) way.now indexes)) }
    ensures grown { OnOk result (Grows coding.old coding.new) }
{
    match way {
        Way::Field(_, _) => Ok(()),
        Way::Item => push_index(coding, setting, indexes, sources),
        Way::Slice => push_two(coding, setting, indexes, sources),
    }
}

/// What an operation reads of a value in hand, and the indexes that a way takes behind it. It fails where memory is wanting.
fn list_whole(
    alloc: Global,
    coding: &mut Coding,
    setting: &Setting<'_>,
    way: &Way,
    indexes: u32,
    temp: u32,
    whole: u32,
) -> Result<Items<Source>, AllocError>
    ensures read { IfOk result (λ sources. Sourced coding.new.slots sources (λ name.
        spec.whole_sources setting.now name way.now indexes temp whole)) }
    ensures grown { OnOk result (Grows coding.old coding.new) }
{
    let mut sources = Items::new(alloc);
    let source = coding.source(Place::Temp(temp), whole)?;
    sources.push(source)?;
    push_indexes(coding, setting, way, indexes, &mut sources)?;
    Ok(sources)
}

/// A part of the value in hand is taken out to the place behind it. It fails where memory is wanting.
fn put_taken(
    alloc: Global,
    coding: &mut Coding,
    setting: &Setting<'_>,
    way: &Way,
    indexes: u32,
    temp: u32,
    typ: &Sized,
) -> Result<(), AllocError>
    ensures { OnOk result (Emits coding.old coding.new (λ name first.
        spec.one (taken_step setting.now.types.now (kit_for setting.now name) way.now indexes temp typ.now)) no_labels) }
{
    let whole = setting.number(typ)?;
    let inner = way_type(alloc, setting.types, way, typ)?;
    let part = setting.number(&inner)?;
    let sources = list_whole(alloc, coding, setting, way, indexes, temp, whole)?;
    let next = further(temp, 1)?;
    coding.put_apply(Place::Temp(next), part, take_op(way), sources)
}

/// The value in hand gets a new part, which stands in a place at a type. It fails where memory is wanting.
fn put_part(
    alloc: Global,
    coding: &mut Coding,
    setting: &Setting<'_>,
    way: &Way,
    indexes: u32,
    temp: u32,
    typ: &Sized,
    given: u32,
    part: u32,
) -> Result<(), AllocError>
    ensures { OnOk result (Emits coding.old coding.new (λ name first.
        spec.one (put_step setting.now.types.now (kit_for setting.now name) way.now indexes temp typ.now (spec.temp_at name given part))) no_labels) }
{
    let whole = setting.number(typ)?;
    let mut sources = list_whole(alloc, coding, setting, way, indexes, temp, whole)?;
    let source = coding.source(Place::Temp(given), part)?;
    sources.push(source)?;
    coding.put_apply(Place::Temp(temp), whole, put_op(way), sources)
}

/// The value in hand gets a new part at the end of suffixes. It fails where memory is wanting.
pub fn put_replaced(
    alloc: Global,
    coding: &mut Coding,
    setting: &Setting<'_>,
    suffixes: &[Suffix],
    indexes: u32,
    temp: u32,
    typ: &Sized,
    given: u32,
    part: u32,
) -> Result<(), AllocError>
    ensures { OnOk result (Emits coding.old coding.new (λ name first.
        replaced_code setting.now.types.now (kit_for setting.now name) suffixes.now indexes temp typ.now (spec.temp_at name given part)) no_labels) }
{
    match suffixes {
        [] => Ok(()),
        [only] => put_part(
            alloc, coding, setting, &only.way, indexes, temp, typ, given, part,
        ),
        [first, rest @ ..] => {
            let way = &first.way;
            put_taken(alloc, coding, setting, way, indexes, temp, typ)?;
            let inner = way_type(alloc, setting.types, way, typ)?;
            let next = further(indexes, takes(way))?;
            let behind = further(temp, 1)?;
            put_replaced(
                alloc, coding, setting, rest, next, behind, &inner, given, part,
            )?;
            let number = setting.number(&inner)?;
            put_part(
                alloc, coding, setting, way, indexes, temp, typ, behind, number,
            )
        }
    }
}
