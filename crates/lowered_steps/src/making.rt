//! Values that nodes make: by the case that is present, the value comes to its place, its numbers are noted, and what comes behind is done with it.
ghost use Rattle.std.specs.Prelude.{◌≡◌, true, List, [], ◌∷◌, ◌++◌, map, reverse, slice_set, IfOk, OnOk};
ghost use Rattle.jib.specs.declared.code.Literal.TheVariants as literal;
ghost use Rattle.jib.specs.declared.code.Source.{Source};
ghost use Rattle.jib.specs.declared.code.Source.TheVariants as read;
ghost use Rattle.jib.specs.declared.code.Target.TheVariants as write;
ghost use Rattle.jib.specs.declared.code.Instruction.TheVariants as code;
ghost use Rattle.sail_core.specs.declared.tree.Giver.TheVariants as giver;
ghost use Rattle.sized_meanings.specs.Present.{gives_at};
ghost use Rattle.lowered_pieces.specs.Chains.{many};
ghost use Rattle.lowered_pieces.specs.Emitted.{Emits, Grows, Sourced, no_labels};
ghost use Rattle.lowered_pieces.specs.Frames.{ArmsPut};
ghost use Rattle.lowered_pieces.specs.Forms.{construct_code, in_fields, kit_at, live_code, made_arm, made_code, numbers_of, picked_in};
ghost use Rattle.lowered_pieces.specs.Forms.{set_fields};
ghost use Rattle.lowered_pieces.specs.Fields.{fields_out, with_code};
ghost use Rattle.lowered_pieces.specs.Moves.{sources as sources_of};
ghost use Rattle.lowered_pieces.specs.Nodes.{cases_at};
ghost use Rattle.lowered_pieces.specs.Places.{Naming};
ghost use Rattle.lowered_slots.specs.declared.slots.Place.TheVariants as place;
ghost use Rattle.lowered_steps.specs.Makers.{all_slots, is_slot, maker_of, order_of};
ghost use Rattle.lowered_steps.specs.Setting.{kit_for, number_for, nodes_in};
ghost use Rattle.lowered_steps.specs.Stands.{depths_of, stand_of};
ghost use Rattle.lowered_steps.specs.Tails.{tail_of};

use crate::chains::{begin_arm, begin_arms, end_arm, end_arms};
use crate::moves::{first_number, put_cast, put_move, put_retype};
use crate::notes::put_notes;
use crate::parts::{field_types, is_dead, payload_type};
use crate::setting::{Setting, as_number, further};
use crate::stands::{Stand, place_in};
use crate::tails::{Tail, put_tail};
use jib::{Literal, Operation, Source};
use lowered_pieces::Coding;
use lowered_slots::Place;
use sail_base::{Items, Text};
use size_values::Sized;
use sized_nodes::Case;
use std::alloc::{AllocError, Global};

/// The order in which an operation takes its operands.
#[derive(Clone, Copy)]
pub enum Order<'a> {
    /// As they are in hand.
    Forwards,
    /// The last first.
    Backwards,
    /// Each at the place of its field.
    Fields(&'a [u32]),
}

/// How a value comes to its place in a case.
#[derive(Clone, Copy)]
pub enum Making<'a> {
    /// From the place of a name.
    Local(&'a Text),
    /// From the place of a variable, at the type that the case gives.
    Variable(&'a Text),
    /// From a register.
    Register(u32),
    /// From an opening.
    Opening(u32),
    /// From where what is thrown stands.
    Caught,
    /// It is there at another type.
    Casts,
    /// An operation makes it of operands in hand.
    Works(Operation, Order<'a>),
    /// It is a struct in hand with the values behind it in these fields.
    Changes(&'a [u32]),
    /// A constructor makes it of arguments in hand: the union's place in the table, and its own in the union.
    Constructs(u32, u32),
    /// A call gave it at this type.
    Answers(u32),
    /// It is there.
    Again,
}

/// Operands in hand from a place on, of these types, behind others. They fail where memory is wanting.
fn list_from(
    coding: &mut Coding,
    setting: &Setting<'_>,
    temp: u32,
    types: &[Sized],
    sources: &mut Items<Source>,
) -> Result<(), AllocError>
    ensures read { (by : Naming → List Source) → Sourced coding.old.slots sources.old by → OnOk result (Sourced coding.new.slots sources.new (λ name.
        by name ++ sources_of (kit_for setting.now name) temp (numbers_of (kit_for setting.now name) (number_for setting.now) types.now))) }
    ensures grown { OnOk result (Grows coding.old coding.new) }
{
    match types {
        [] => Ok(()),
        [first, rest @ ..] => {
            let number = setting.number(first)?;
            let source = coding.source(Place::Temp(temp), number)?;
            sources.push(source)?;
            let next = further(temp, 1)?;
            list_from(coding, setting, next, rest, sources)
        }
    }
}

/// Operands in hand from a place on, of these types. They fail where memory is wanting.
pub fn list_sources(
    alloc: Global,
    coding: &mut Coding,
    setting: &Setting<'_>,
    temp: u32,
    types: &[Sized],
) -> Result<Items<Source>, AllocError>
    ensures read { IfOk result (λ sources. Sourced coding.new.slots sources (λ name.
        sources_of (kit_for setting.now name) temp (numbers_of (kit_for setting.now name) (number_for setting.now) types.now))) }
    ensures grown { OnOk result (Grows coding.old coding.new) }
{
    let mut sources = Items::new(alloc);
    list_from(coding, setting, temp, types, &mut sources)?;
    Ok(sources)
}

/// The last of these operands first.
pub fn turned(sources: Items<Source>) -> Items<Source>
    ensures { result ≡ reverse sources }
{
    let mut items = sources.into_vec();
    items.reverse();
    Items::from_vec(items)
}

/// A source of `()` for each of these fields, behind others. They fail where memory is wanting.
fn push_units(unit: u32, fields: &[u32], units: &mut Items<Source>) -> Result<(), AllocError>
    ensures { OnOk result (units.new ≡ units.old ++ map (λ field. read.Constant unit literal.Unit) fields.now) }
{
    match fields {
        [] => Ok(()),
        [_, rest @ ..] => {
            units.push(Source::Constant(unit, Literal::Unit))?;
            push_units(unit, rest, units)
        }
    }
}

/// A source of `()` for each of these fields. They fail where memory is wanting.
fn units(alloc: Global, unit: u32, fields: &[u32]) -> Result<Items<Source>, AllocError>
    ensures { IfOk result (λ units. units ≡ map (λ field. read.Constant unit literal.Unit) fields.now) }
{
    let mut units = Items::new(alloc);
    push_units(unit, fields, &mut units)?;
    Ok(units)
}

/// An operand comes to a place, where there is one.
fn place_one(at: u32, source: &Source, placed: &mut Items<Source>)
    requires slot { is_slot source.now ≡ true }
    ensures { placed.new ≡ slice_set placed.old at source.now }
{
    let at = at as usize;
    if at < placed.len() {
        placed.set(at, copy_source(source));
    }
}

/// Each of these operands comes to the place of its field, where there is one.
pub fn place_each(fields: &[u32], sources: &[Source], placed: &mut Items<Source>)
    requires slots { all_slots sources.now ≡ true }
    ensures { placed.new ≡ set_fields fields.now sources.now placed.old }
{
    match fields {
        [] => {}
        [field, fields @ ..] => match sources {
            [] => {}
            [source, sources @ ..] => {
                place_one(*field, source, placed);
                place_each(fields, sources, placed);
            }
        },
    }
}

/// Each of these operands at the place of its field. It fails where memory is wanting.
pub fn placed(
    alloc: Global,
    unit: u32,
    fields: &[u32],
    sources: &[Source],
) -> Result<Items<Source>, AllocError>
    requires slots { all_slots sources.now ≡ true }
    ensures { IfOk result (λ placed. placed ≡ in_fields (read.Constant unit literal.Unit) fields.now sources.now) }
{
    let mut placed = units(alloc, unit, fields)?;
    place_each(fields, sources, &mut placed);
    Ok(placed)
}

/// The same once more, of what a slot has.
fn copy_source(source: &Source) -> Source
    requires slot { is_slot source.now ≡ true }
    ensures { result ≡ source.now }
{
    match source {
        Source::Slot(slot) => Source::Slot(*slot),
        _ => Source::Slot(0),
    }
}

/// Operands in the order in which an operation takes them. They fail where memory is wanting.
fn ordered(
    alloc: Global,
    setting: &Setting<'_>,
    order: Order<'_>,
    sources: Items<Source>,
) -> Result<Items<Source>, AllocError>
    requires slots { all_slots sources ≡ true }
    ensures { IfOk result (λ ordered. (name : Naming) → ordered ≡ order_of setting.now name order.entry sources) }
{
    match order {
        Order::Forwards => Ok(sources),
        Order::Backwards => Ok(turned(sources)),
        Order::Fields(fields) => placed(alloc, setting.unit, fields, sources.as_slice()),
    }
}

/// What an operation makes of operands in hand, which exist. It fails where memory is wanting.
fn put_operation(
    alloc: Global,
    coding: &mut Coding,
    setting: &Setting<'_>,
    temp: u32,
    op: Operation,
    order: Order<'_>,
    case: &Case,
) -> Result<(), AllocError>
    ensures { OnOk result (Emits coding.old coding.new (λ name first. code.Apply (write.Slot (name (place.Temp temp) (number_for setting.now case.now.gives))) op
        (order_of setting.now name order.entry
        (sources_of (kit_for setting.now name) temp (numbers_of (kit_for setting.now name) (number_for setting.now) case.now.takes))) ∷ [])
        no_labels) }
{
    let gives = setting.number(&case.gives)?;
    let listed = list_sources(alloc, coding, setting, temp, case.takes.as_slice())?;
    let sources = ordered(alloc, setting, order, listed)?;
    coding.put_apply(Place::Temp(temp), gives, op, sources)
}

/// What an operation makes of operands in hand; nothing where one of them doesn't exist. It fails where memory is wanting.
fn put_work(
    alloc: Global,
    coding: &mut Coding,
    setting: &Setting<'_>,
    temp: u32,
    op: Operation,
    order: Order<'_>,
    case: &Case,
) -> Result<(), AllocError>
    ensures { OnOk result (Emits coding.old coding.new (λ name first. live_code case.now.takes
        (code.Apply (write.Slot (name (place.Temp temp) (number_for setting.now case.now.gives))) op (order_of setting.now name order.entry
        (sources_of (kit_for setting.now name) temp (numbers_of (kit_for setting.now name) (number_for setting.now) case.now.takes))) ∷ []))
        no_labels) }
{
    if is_dead(case.takes.as_slice()) {
        Ok(())
    } else {
        put_operation(alloc, coding, setting, temp, op, order, case)
    }
}

/// What a constructor makes of arguments in hand, which exist: none is `()`, and several are a tuple. It fails where memory is wanting.
fn put_constructor(
    alloc: Global,
    coding: &mut Coding,
    setting: &Setting<'_>,
    temp: u32,
    union: u32,
    constructor: u32,
    case: &Case,
) -> Result<(), AllocError>
    ensures { OnOk result (Emits coding.old coding.new (λ name first.
        construct_code (kit_for setting.now name) (number_for setting.now) setting.now.types.now union constructor temp case.now.takes case.now.gives)
        no_labels) }
{
    let gives = setting.number(&case.gives)?;
    let place = Place::Temp(temp);
    match case.takes.as_slice() {
        [] => {
            let mut sources = Items::new(alloc);
            sources.push(Source::Constant(setting.unit, Literal::Unit))?;
            coding.put_apply(place, gives, Operation::Construct(constructor), sources)
        }
        [only] => {
            let number = setting.number(only)?;
            coding.put_apply_one(
                alloc,
                place,
                gives,
                Operation::Construct(constructor),
                place,
                number,
            )
        }
        _ => {
            let payload = payload_type(alloc, setting.types, union, constructor, &case.gives)?;
            let number = setting.number(&payload)?;
            let sources = list_sources(alloc, coding, setting, temp, case.takes.as_slice())?;
            coding.put_apply(place, number, Operation::Build, sources)?;
            coding.put_apply_one(
                alloc,
                place,
                gives,
                Operation::Construct(constructor),
                place,
                number,
            )
        }
    }
}

/// What a constructor makes of arguments in hand; nothing where one of them doesn't exist. It fails where memory is wanting.
fn put_constructed(
    alloc: Global,
    coding: &mut Coding,
    setting: &Setting<'_>,
    temp: u32,
    union: u32,
    constructor: u32,
    case: &Case,
) -> Result<(), AllocError>
    ensures { OnOk result (Emits coding.old coding.new (λ name first. live_code case.now.takes
        (construct_code (kit_for setting.now name) (number_for setting.now) setting.now.types.now union constructor temp case.now.takes case.now.gives))
        no_labels) }
{
    if is_dead(case.takes.as_slice()) {
        Ok(())
    } else {
        put_constructor(alloc, coding, setting, temp, union, constructor, case)
    }
}

/// Fields of these types, from one on, are taken out of the value at a place, to places from one on. It fails where memory is wanting.
fn put_fields_out(
    alloc: Global,
    coding: &mut Coding,
    setting: &Setting<'_>,
    from: Place,
    whole: u32,
    field: u32,
    temp: u32,
    types: &[Sized],
) -> Result<(), AllocError>
    ensures { OnOk result (Emits coding.old coding.new (λ name first.
        fields_out (kit_for setting.now name) (number_for setting.now) setting.now.types.now (read.Slot (name from whole)) field temp types.now)
        no_labels) }
{
    match types {
        [] => Ok(()),
        [first, rest @ ..] => {
            let number = setting.number(first)?;
            let place = Place::Temp(temp);
            let op = Operation::Field(field);
            coding.put_apply_one(alloc, place, number, op, from, whole)?;
            let next = further(temp, 1)?;
            let behind = further(field, 1)?;
            put_fields_out(alloc, coding, setting, from, whole, behind, next, rest)
        }
    }
}

/// A struct of this type in hand, with the values of these types behind it in these fields: it is built of them and of the other fields' old values.
/// It fails where memory is wanting.
fn put_rebuilt(
    alloc: Global,
    coding: &mut Coding,
    setting: &Setting<'_>,
    temp: u32,
    fields: &[u32],
    typ: &Sized,
    rest: &[Sized],
    gives: &Sized,
) -> Result<(), AllocError>
    ensures { OnOk result (Emits coding.old coding.new (λ name first.
        with_code (kit_for setting.now name) (number_for setting.now) setting.now.types.now fields.now temp (typ.now ∷ rest.now) gives.now) no_labels) }
{
    let place = Place::Temp(temp);
    let whole = setting.number(typ)?;
    let types = field_types(alloc, setting.types, typ)?;
    let olds = types.as_slice();
    let behind = further(temp, 1)?;
    let count = as_number(rest.len())?;
    let free = further(behind, count)?;
    put_fields_out(alloc, coding, setting, place, whole, 0, free, olds)?;
    let sources = list_sources(alloc, coding, setting, behind, rest)?;
    let mut parts = list_sources(alloc, coding, setting, free, olds)?;
    place_each(fields, sources.as_slice(), &mut parts);
    let number = setting.number(gives)?;
    coding.put_apply(place, number, Operation::Build, parts)
}

/// A struct in hand with the values behind it in these fields, in a case where they exist. It fails where memory is wanting.
fn put_change(
    alloc: Global,
    coding: &mut Coding,
    setting: &Setting<'_>,
    temp: u32,
    fields: &[u32],
    case: &Case,
) -> Result<(), AllocError>
    ensures { OnOk result (Emits coding.old coding.new (λ name first.
        with_code (kit_for setting.now name) (number_for setting.now) setting.now.types.now fields.now temp case.now.takes case.now.gives) no_labels) }
{
    match case.takes.as_slice() {
        [] => Ok(()),
        [first, rest @ ..] => {
            let gives = &case.gives;
            put_rebuilt(alloc, coding, setting, temp, fields, first, rest, gives)
        }
    }
}

/// A struct in hand with the values behind it in these fields, in a case; nothing where one of them doesn't exist. It fails where memory is wanting.
fn put_changed(
    alloc: Global,
    coding: &mut Coding,
    setting: &Setting<'_>,
    temp: u32,
    fields: &[u32],
    case: &Case,
) -> Result<(), AllocError>
    ensures { OnOk result (Emits coding.old coding.new (λ name first. live_code case.now.takes
        (with_code (kit_for setting.now name) (number_for setting.now) setting.now.types.now fields.now temp case.now.takes case.now.gives)) no_labels) }
{
    if is_dead(case.takes.as_slice()) {
        Ok(())
    } else {
        put_change(alloc, coding, setting, temp, fields, case)
    }
}

/// A value comes to its place in a case. It fails where memory is wanting.
fn put_making(
    alloc: Global,
    coding: &mut Coding,
    setting: &Setting<'_>,
    stand: &Stand<'_>,
    making: &Making<'_>,
    case: &Case,
) -> Result<(), AllocError>
    ensures { OnOk result (Emits coding.old coding.new (λ name first. maker_of setting.now name making.now (stand_of stand.now) case.now) no_labels) }
{
    let place = Place::Temp(stand.temp);
    match making {
        Making::Local(name) => {
            let gives = setting.number(&case.gives)?;
            let takes = first_number(setting, case.takes.as_slice())?;
            let from = place_in(name, stand.scope);
            put_move(alloc, coding, setting, place, gives, from, takes)
        }
        Making::Register(register) => {
            let gives = setting.number(&case.gives)?;
            coding.put_register(place, gives, *register)
        }
        Making::Opening(opening) => {
            let gives = setting.number(&case.gives)?;
            coding.put_opening(place, gives, *opening)
        }
        Making::Caught => {
            let gives = setting.number(&case.gives)?;
            coding.put_copy(place, gives, Place::Raised, setting.exception)
        }
        Making::Casts => put_cast(alloc, coding, setting, stand.temp, case),
        Making::Works(op, order) => {
            put_work(alloc, coding, setting, stand.temp, *op, *order, case)
        }
        Making::Changes(fields) => { put_changed(alloc, coding, setting, stand.temp, fields, case) }
        Making::Constructs(union, constructor) => put_constructed(
            alloc,
            coding,
            setting,
            stand.temp,
            *union,
            *constructor,
            case,
        ),
        Making::Answers(typ) => {
            let gives = setting.number(&case.gives)?;
            put_retype(alloc, coding, setting, stand.temp, *typ, gives)
        }
        Making::Again => Ok(()),
        Making::Variable(name) => {
            let gives = setting.number(&case.gives)?;
            let from = place_in(name, stand.scope);
            coding.put_copy(place, gives, from, gives)
        }
    }
}

/// The value of a node in a case, what it gives noted, and what comes behind done with it. It fails where memory is wanting.
fn put_made_arm(
    alloc: Global,
    coding: &mut Coding,
    setting: &Setting<'_>,
    stand: &Stand<'_>,
    tail: &Tail<'_>,
    node: u32,
    making: &Making<'_>,
    case: &Case,
) -> Result<(), AllocError>
    ensures { OnOk result (Emits coding.old coding.new (λ name.
        made_arm (kit_for setting.now name) (number_for setting.now) (maker_of setting.now name making.now)
        (gives_at (nodes_in setting.now) (giver.Node node)) (tail_of setting.now name tail.now) (stand_of stand.now) case.now)
        (λ name. (tail_of setting.now name tail.now).labels)) }
{
    put_making(alloc, coding, setting, stand, making, case)?;
    let levels = stand.levels;
    put_notes(
        alloc,
        coding,
        setting,
        levels,
        stand.temp,
        node,
        &case.gives,
    )?;
    put_tail(alloc, coding, setting, tail, &case.gives)
}

/// So in each of these cases, with tests before all but the last. It fails where memory is wanting.
fn put_made_rest(
    alloc: Global,
    coding: &mut Coding,
    setting: &Setting<'_>,
    stand: &Stand<'_>,
    tail: &Tail<'_>,
    node: u32,
    free: u32,
    making: &Making<'_>,
    end: u32,
    cases: &[Case],
) -> Result<(), AllocError>
    ensures { OnOk result (ArmsPut picked_in (λ name. kit_at (kit_for setting.now name) (depths_of stand.now.levels.now)) free
        (λ name. (tail_of setting.now name tail.now).labels)
        (λ name. made_arm (kit_for setting.now name) (number_for setting.now) (maker_of setting.now name making.now)
        (gives_at (nodes_in setting.now) (giver.Node node)) (tail_of setting.now name tail.now) (stand_of stand.now)) end cases.now
        coding.old coding.new) }
{
    match cases {
        [] => Ok(()),
        [only] => put_made_arm(alloc, coding, setting, stand, tail, node, making, only),
        [first, rest @ ..] => {
            let picked = first.picked.as_slice();
            let next = begin_arm(alloc, coding, setting, stand.levels, free, picked)?;
            put_made_arm(alloc, coding, setting, stand, tail, node, making, first)?;
            end_arm(coding, end, next)?;
            put_made_rest(
                alloc, coding, setting, stand, tail, node, free, making, end, rest,
            )
        }
    }
}

/// The value of a node is made by the case that is present, where so many values are in hand. It fails where memory is wanting.
pub fn put_made(
    alloc: Global,
    coding: &mut Coding,
    setting: &Setting<'_>,
    stand: &Stand<'_>,
    tail: &Tail<'_>,
    node: u32,
    taken: usize,
    operands: usize,
    making: &Making<'_>,
) -> Result<(), AllocError>
    ensures { OnOk result (Emits coding.old coding.new (λ name first.
        made_code (kit_for setting.now name) (number_for setting.now) taken (maker_of setting.now name making.now)
        (cases_at node operands (nodes_in setting.now)) (gives_at (nodes_in setting.now) (giver.Node node))
        (tail_of setting.now name tail.now) (stand_of stand.now) first)
        (λ name. many (tail_of setting.now name tail.now).labels (cases_at node operands (nodes_in setting.now)))) }
{
    let cases = setting.cases(node, operands);
    let free = further(stand.temp, as_number(taken)?)?;
    let count = cases.len();
    let end = begin_arms(coding, count)?;
    put_made_rest(
        alloc, coding, setting, stand, tail, node, free, making, end, cases,
    )?;
    end_arms(coding, count, end)
}
