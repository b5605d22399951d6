//! How a value is opened into parts.
ghost use Rattle.std.specs.Prelude.{◌≡◌, ◌+◌, ◌*◌, pos, [], ◌∷◌, ◌++◌, map, IfOk, OnOk};
ghost use Rattle.sail_types.specs.declared.table.Types.{Types as TypeTable};
ghost use Rattle.jib.specs.declared.code.Literal.TheVariants as literal;
ghost use Rattle.jib.specs.declared.code.Instruction.TheVariants as code;
ghost use Rattle.size_values.specs.declared.sized.Sized.{out-Sized};
ghost use Rattle.sail_core.specs.Making.{one_item};
ghost use Rattle.sail_core.specs.declared.patterns.Head.TheVariants as kind;
ghost use Rattle.lowered_pieces.specs.Arms.{constant_of, fields_code, fields_held, first_code, head_taken, list_code, list_held, part_at};
ghost use Rattle.lowered_pieces.specs.Arms.{payload_taken, rest_at, test_code};
ghost use Rattle.lowered_pieces.specs.Emitted.{Emits, no_labels};
ghost use Rattle.lowered_pieces.specs.Places.{Kit};
ghost use Rattle.lowered_steps.specs.Hands as spec;
ghost use Rattle.lowered_steps.specs.Setting.{kit_for};

use crate::hands::Held;
use crate::literals::copy_literal;
use crate::parts::{component_type, item_type, payload_type};
use crate::setting::{Setting, further};
use crate::words::put_word_parts;
use jib::Operation;
use lowered_pieces::Coding;
use lowered_slots::Place;
use sail_base::Items;
use sail_core::{Head, Literal};
use sail_types::Row;
use size_values::{Sized, copy_sized};
use std::alloc::{AllocError, Global};

/// So many parts of a tuple from one on are taken out, to places from one on, and come behind others. It fails where memory is wanting.
fn put_fields(
    alloc: Global,
    coding: &mut Coding,
    setting: &Setting<'_>,
    value: &Held,
    from: u32,
    free: u32,
    count: u32,
    parts: &mut Items<Held>,
) -> Result<(), AllocError>
    ensures code { OnOk result (Emits coding.old coding.new
        (λ name first. fields_code setting.now.types.now (kit_for setting.now name) (spec.held_of value.now) from free count) no_labels) }
    ensures parts { OnOk result (map spec.held_of parts.new ≡ map spec.held_of parts.old
        ++ fields_held setting.now.types.now (kit_for setting.now (λ place typ. 0)) (spec.held_of value.now) from free count) }
{
    if count == 0 {
        return Ok(());
    }
    let whole = setting.number(&value.typ)?;
    let typ = component_type(alloc, &value.typ, from as usize)?;
    let number = setting.number(&typ)?;
    let place = Place::Temp(free);
    let op = Operation::Field(from);
    coding.put_apply_one(alloc, place, number, op, value.place, whole)?;
    parts.push(Held { place, typ })?;
    put_fields(
        alloc,
        coding,
        setting,
        value,
        further(from, 1)?,
        further(free, 1)?,
        count - 1,
        parts,
    )
}

/// A count as a constant.
fn count_literal(count: u32) -> jib::Literal
    ensures { result ≡ literal.Integer (pos count) }
{
    jib::Literal::Integer(count as i128)
}

/// So many items of a vector are taken out, the one with the highest index first. It fails where memory is wanting.
fn put_items(
    alloc: Global,
    coding: &mut Coding,
    setting: &Setting<'_>,
    value: &Held,
    count: u32,
    free: u32,
    parts: &mut Items<Held>,
) -> Result<(), AllocError>
    ensures code { OnOk result (Emits coding.old coding.new
        (λ name first. spec.items_code setting.now.types.now (kit_for setting.now name) (spec.held_of value.now) count free) no_labels) }
    ensures parts { OnOk result (map spec.held_of parts.new ≡ map spec.held_of parts.old
        ++ spec.items_held setting.now.types.now (kit_for setting.now (λ place typ. 0)) (spec.held_of value.now) count free) }
{
    if count == 0 {
        return Ok(());
    }
    let whole = setting.number(&value.typ)?;
    let typ = item_type(alloc, &value.typ)?;
    let number = setting.number(&typ)?;
    let place = Place::Temp(free);
    coding.put_apply_at(
        alloc,
        place,
        number,
        Operation::Item,
        value.place,
        whole,
        setting.integer,
        count_literal(count - 1),
    )?;
    parts.push(Held { place, typ })?;
    let next = further(free, 1)?;
    put_items(alloc, coding, setting, value, count - 1, next, parts)
}

/// The payload of a value of a constructor is taken out, and opened where it is a tuple of parts; what is of another goes to a label. The first
/// place that is free then. It fails where memory is wanting.
fn put_payload(
    alloc: Global,
    coding: &mut Coding,
    setting: &Setting<'_>,
    value: &Held,
    union: u32,
    constructor: u32,
    count: u32,
    free: u32,
    fail: u32,
    parts: &mut Items<Held>,
) -> Result<u32, AllocError>
    ensures code { OnOk result (Emits coding.old coding.new (λ name first.
        (payload_taken setting.now.types.now (kit_for setting.now name) (spec.held_of value.now) union constructor count free fail).code) no_labels) }
    ensures parts { OnOk result (map spec.held_of parts.new ≡ map spec.held_of parts.old
        ++ (payload_taken setting.now.types.now (kit_for setting.now (λ place typ. 0)) (spec.held_of value.now) union constructor count free fail).parts) }
    ensures free { IfOk result (λ next. next ≡
        (payload_taken setting.now.types.now (kit_for setting.now (λ place typ. 0)) (spec.held_of value.now) union constructor count free fail).free) }
{
    let whole = setting.number(&value.typ)?;
    let typ = payload_type(alloc, setting.types, union, constructor, &value.typ)?;
    let number = setting.number(&typ)?;
    let place = Place::Temp(free);
    coding.put_payload(place, number, value.place, whole, constructor, fail)?;
    let taken = Held { place, typ };
    let next = further(free, 1)?;
    if count == 1 {
        parts.push(taken)?;
        Ok(next)
    } else {
        put_fields(alloc, coding, setting, &taken, 0, next, count, parts)?;
        further(next, count)
    }
}

/// The places that so many parts of a tuple from one on would take, from a place on, behind others. It fails where memory is wanting.
fn hold_fields(
    alloc: Global,
    value: &Held,
    from: u32,
    free: u32,
    count: u32,
    parts: &mut Items<Held>,
) -> Result<(), AllocError>
    ensures { (types : TypeTable) → (kit : Kit) → OnOk result (map spec.held_of parts.new ≡ map spec.held_of parts.old
        ++ fields_held types kit (spec.held_of value.now) from free count) }
{
    if count == 0 {
        return Ok(());
    }
    let typ = component_type(alloc, &value.typ, from as usize)?;
    let place = Place::Temp(free);
    parts.push(Held { place, typ })?;
    let behind = further(from, 1)?;
    let next = further(free, 1)?;
    hold_fields(alloc, value, behind, next, count - 1, parts)
}

/// The places that the parts of a payload would take, where a value is none of its union. The first place that is free then. It fails where memory
/// is wanting.
fn skip_payload(
    alloc: Global,
    coding: &mut Coding,
    setting: &Setting<'_>,
    value: &Held,
    union: u32,
    constructor: u32,
    count: u32,
    free: u32,
    fail: u32,
    parts: &mut Items<Held>,
) -> Result<u32, AllocError>
    ensures code { OnOk result (Emits coding.old coding.new (λ name first. code.Goto fail ∷ []) no_labels) }
    ensures parts { OnOk result (map spec.held_of parts.new ≡ map spec.held_of parts.old
        ++ (payload_taken setting.now.types.now (kit_for setting.now (λ place typ. 0)) (spec.held_of value.now) union constructor count free fail).parts) }
    ensures free { IfOk result (λ next. next ≡
        (payload_taken setting.now.types.now (kit_for setting.now (λ place typ. 0)) (spec.held_of value.now) union constructor count free fail).free) }
{
    coding.put_goto(fail)?;
    let typ = payload_type(alloc, setting.types, union, constructor, &value.typ)?;
    let taken = Held {
        place: Place::Temp(free),
        typ,
    };
    let next = further(free, 1)?;
    if count == 1 {
        parts.push(taken)?;
        Ok(next)
    } else {
        hold_fields(alloc, &taken, 0, next, count, parts)?;
        further(next, count)
    }
}

/// Whether a type is the union at a place.
fn is_union(union: u32, typ: &Sized) -> bool
    ensures { result ≡ spec.is_union union (out-Sized typ.now) }
{
    match typ {
        Sized::Named(place, _, _) => *place == union,
        _ => false,
    }
}

/// A value that is another one than a literal goes to a label. It fails where memory is wanting.
fn put_literal_test(
    alloc: Global,
    coding: &mut Coding,
    setting: &Setting<'_>,
    value: &Held,
    literal: &Literal,
    free: u32,
    fail: u32,
) -> Result<(), AllocError>
    ensures { OnOk result (Emits coding.old coding.new
        (λ name first. test_code setting.now.types.now (kit_for setting.now name) (spec.held_of value.now) free (constant_of literal.now) fail)
        no_labels) }
{
    let typ = setting.number(&value.typ)?;
    coding.put_apply_of(
        alloc,
        Place::Temp(free),
        setting.truth,
        Operation::Builtin(Row::Neq),
        typ,
        copy_literal(alloc, literal)?,
        value.place,
        typ,
    )?;
    coding.put_jump_if(Place::Temp(free), setting.truth, fail)
}

/// The first item of a list is taken out, and comes behind other parts; the list of the others stands behind it. An empty list goes to a label. It
/// fails where memory is wanting.
fn put_first_item(
    alloc: Global,
    coding: &mut Coding,
    setting: &Setting<'_>,
    value: &Held,
    free: u32,
    fail: u32,
    parts: &mut Items<Held>,
) -> Result<Held, AllocError>
    ensures code { OnOk result (Emits coding.old coding.new
        (λ name first. first_code setting.now.types.now (kit_for setting.now name) (spec.held_of value.now) free fail) no_labels) }
    ensures parts { OnOk result (map spec.held_of parts.new ≡ map spec.held_of parts.old
        ++ part_at setting.now.types.now (kit_for setting.now (λ place typ. 0)) one_item (spec.held_of value.now) free ∷ []) }
    ensures rest { IfOk result (λ rest. spec.held_of rest ≡
        rest_at setting.now.types.now (kit_for setting.now (λ place typ. 0)) (spec.held_of value.now) free) }
{
    let whole = setting.number(&value.typ)?;
    let place = Place::Temp(free);
    coding.put_apply_one(
        alloc,
        place,
        setting.truth,
        Operation::IsEmpty,
        value.place,
        whole,
    )?;
    coding.put_jump_if(place, setting.truth, fail)?;
    let typ = item_type(alloc, &value.typ)?;
    let number = setting.number(&typ)?;
    coding.put_apply_at(
        alloc,
        place,
        number,
        Operation::Item,
        value.place,
        whole,
        setting.integer,
        jib::Literal::Integer(0),
    )?;
    let behind = Place::Temp(further(free, 1)?);
    coding.put_apply_one(alloc, behind, whole, Operation::Rest, value.place, whole)?;
    parts.push(Held { place, typ })?;
    Ok(Held {
        place: behind,
        typ: copy_sized(alloc, &value.typ)?,
    })
}

/// The items of a list of just so many are taken out, and come behind other parts; another list goes to a label. It fails where memory is wanting.
fn put_list(
    alloc: Global,
    coding: &mut Coding,
    setting: &Setting<'_>,
    value: &Held,
    count: u32,
    free: u32,
    fail: u32,
    parts: &mut Items<Held>,
) -> Result<(), AllocError>
    ensures code { OnOk result (Emits coding.old coding.new
        (λ name first. list_code setting.now.types.now (kit_for setting.now name) (spec.held_of value.now) count free fail) no_labels) }
    ensures parts { OnOk result (map spec.held_of parts.new ≡ map spec.held_of parts.old
        ++ list_held setting.now.types.now (kit_for setting.now (λ place typ. 0)) (spec.held_of value.now) count free) }
{
    if count == 0 {
        return put_end_test(alloc, coding, setting, value, free, fail);
    }
    let rest = put_first_item(alloc, coding, setting, value, free, fail, parts)?;
    let next = further(free, 2)?;
    put_list(alloc, coding, setting, &rest, count - 1, next, fail, parts)
}

/// A list with an item goes to a label. It fails where memory is wanting.
fn put_end_test(
    alloc: Global,
    coding: &mut Coding,
    setting: &Setting<'_>,
    value: &Held,
    free: u32,
    fail: u32,
) -> Result<(), AllocError>
    ensures { OnOk result (Emits coding.old coding.new
        (λ name first. list_code setting.now.types.now (kit_for setting.now name) (spec.held_of value.now) 0 free fail) no_labels) }
{
    let whole = setting.number(&value.typ)?;
    let truth = setting.truth;
    let place = Place::Temp(free);
    coding.put_apply_one(alloc, place, truth, Operation::IsEmpty, value.place, whole)?;
    let turned = Operation::Builtin(Row::NotBool);
    coding.put_apply_one(alloc, place, truth, turned, place, truth)?;
    coding.put_jump_if(place, truth, fail)
}

/// A value is opened by a constructor of a union: the payload of one of this union; any other goes to a label. The first place that is free then. It
/// fails where memory is wanting.
fn put_of_union(
    alloc: Global,
    coding: &mut Coding,
    setting: &Setting<'_>,
    value: &Held,
    union: u32,
    constructor: u32,
    count: u32,
    free: u32,
    fail: u32,
    parts: &mut Items<Held>,
) -> Result<u32, AllocError>
    ensures code { OnOk result (Emits coding.old coding.new (λ name first. (head_taken setting.now.types.now (kit_for setting.now name)
        (spec.held_of value.now) (kind.Constructor union constructor) count free fail).code) no_labels) }
    ensures parts { OnOk result (map spec.held_of parts.new ≡ map spec.held_of parts.old ++ (head_taken setting.now.types.now
        (kit_for setting.now (λ place typ. 0)) (spec.held_of value.now) (kind.Constructor union constructor) count free fail).parts) }
    ensures free { IfOk result (λ next. next ≡ (head_taken setting.now.types.now (kit_for setting.now (λ place typ. 0)) (spec.held_of value.now)
        (kind.Constructor union constructor) count free fail).free) }
{
    if is_union(union, &value.typ) {
        put_payload(
            alloc,
            coding,
            setting,
            value,
            union,
            constructor,
            count,
            free,
            fail,
            parts,
        )
    } else {
        skip_payload(
            alloc,
            coding,
            setting,
            value,
            union,
            constructor,
            count,
            free,
            fail,
            parts,
        )
    }
}

/// The first place that is free behind a list of so many items, each with a place for the others behind it, and its end.
fn behind_list(free: u32, count: u32) -> Result<u32, AllocError>
    ensures { IfOk result (λ next. next ≡ free + 2 * count + 1) }
{
    let items = further(free, count)?;
    let tests = further(count, 1)?;
    further(items, tests)
}

/// A value is opened into parts, which come behind others; one that doesn't match goes to a label. The first place that is free then. It fails
/// where memory is wanting.
pub fn put_head(
    alloc: Global,
    coding: &mut Coding,
    setting: &Setting<'_>,
    value: &Held,
    head: &Head,
    count: u32,
    free: u32,
    fail: u32,
    parts: &mut Items<Held>,
) -> Result<u32, AllocError>
    ensures code { OnOk result (Emits coding.old coding.new (λ name first.
        (head_taken setting.now.types.now (kit_for setting.now name) (spec.held_of value.now) head.now count free fail).code) no_labels) }
    ensures parts { OnOk result (map spec.held_of parts.new ≡ map spec.held_of parts.old
        ++ (head_taken setting.now.types.now (kit_for setting.now (λ place typ. 0)) (spec.held_of value.now) head.now count free fail).parts) }
    ensures free { IfOk result (λ next. next ≡
        (head_taken setting.now.types.now (kit_for setting.now (λ place typ. 0)) (spec.held_of value.now) head.now count free fail).free) }
{
    match head {
        Head::Is(literal) => {
            put_literal_test(alloc, coding, setting, value, literal, free, fail)?;
            Ok(free)
        }
        Head::Tuple => {
            put_fields(alloc, coding, setting, value, 0, free, count, parts)?;
            further(free, count)
        }
        Head::Constructor(union, constructor) => put_of_union(
            alloc,
            coding,
            setting,
            value,
            *union,
            *constructor,
            count,
            free,
            fail,
            parts,
        ),
        Head::Vector => {
            put_items(alloc, coding, setting, value, count, free, parts)?;
            further(free, count)
        }
        Head::List => {
            put_list(alloc, coding, setting, value, count, free, fail, parts)?;
            behind_list(free, count)
        }
        Head::Cons => {
            let rest = put_first_item(alloc, coding, setting, value, free, fail, parts)?;
            parts.push(rest)?;
            further(free, 2)
        }
        Head::Cut(widths) => {
            let widths = widths.as_slice();
            put_word_parts(alloc, coding, setting, value, widths, free, parts)?;
            further(free, count)
        }
    }
}
