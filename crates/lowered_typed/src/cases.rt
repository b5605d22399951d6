//! Whether the cases of a node fit the code that makes its value.
ghost use Rattle.std.specs.Prelude.{◌≡◌, ◌++◌, ◌&&◌, ◌||◌, true, IfOk, OnOk};
ghost use Rattle.lowered_pieces.specs.Forms.{dead, in_fields as in_fields_of};
ghost use Rattle.lowered_steps.specs.Makers.{all_slots};
ghost use Rattle.lowered_validity.specs.Typing as typing;
ghost use Rattle.lowered_typed.specs.Asked as spec;
ghost use Rattle.lowered_typed.specs.Here as here;
ghost use Rattle.lowered_typed.specs.Judged as judged;
ghost use Rattle.lowered_typed.specs.Judging.{cases_typed, signs_here, tables_here};

use crate::signs::Judge;
use crate::structs::changes;
use crate::works::{
    are_small, both, comes, either, first_number, numbers, operands_from, unit_number, works,
    works_alone, works_on,
};
use jib::{Literal, Operation, Source};
use lowered_steps::{is_dead, is_never, payload_type, placed, turned};
use sail_base::Items;
use size_values::{Sized, copy_sized};
use sized_nodes::{Case, Lead};
use std::alloc::AllocError;

/// The order of an operation's operands.
#[derive(Clone, Copy)]
pub enum Order<'a> {
    /// From left to right.
    Forwards,
    /// From right to left.
    Backwards,
    /// Each at the place of its field.
    Fields(&'a [u32]),
}

/// What is asked of a case.
#[derive(Clone, Copy)]
pub enum Asked<'a> {
    /// Nothing.
    Nothing,
    /// What a name holds comes to the case's type.
    Casts,
    /// The value in hand does, where it exists.
    Recasts,
    /// A value of the type of this number does.
    From(u32),
    /// A source of the type of this number is of the case's type.
    Sourced(Option<u32>),
    /// The operation takes and gives values of the case's types, where its operands exist.
    Works(Operation, Order<'a>),
    /// So does this constructor of a union.
    Constructs(u32, u32),
    /// A struct is built of others in these fields, and of its own in the rest.
    Changes(&'a [u32]),
}

/// Whether a type has a number. It fails where there are 2^32 types or more.
pub fn is_known(judge: &Judge<'_>, typ: &Sized) -> Result<bool, AllocError>
    ensures { IfOk result (λ answer. answer ≡ (tables_here judge.now).known typ.now) }
{
    match typ {
        Sized::Never => Ok(true),
        _ => {
            let number = judge.setting.number(typ)?;
            Ok((number as usize) < judge.setting.numbered.len())
        }
    }
}

/// Operands in slots, each at the place of its field. They fail where memory is wanting.
fn in_fields(
    judge: &Judge<'_>,
    fields: &[u32],
    sources: Items<Source>,
) -> Result<Items<Source>, AllocError>
    requires slots { all_slots sources ≡ true }
    ensures { IfOk result (λ placed. placed ≡ in_fields_of (here.no_value judge.now) fields.now sources) }
{
    let unit = unit_number(judge)?;
    let listed = sources.as_slice();
    let made = placed(judge.alloc, unit, fields, listed)?;
    Ok(made)
}

/// Operands in slots, in this order. They fail where memory is wanting.
fn ordered(
    judge: &Judge<'_>,
    types: &[Sized],
    order: Order<'_>,
) -> Result<Items<Source>, AllocError>
    ensures { IfOk result (λ sources. sources
        ≡ spec.order_of judge.now order.entry (typing.operands 0 (here.numbers judge.now types.now))) }
{
    let sources = operands_from(judge, 0, types)?;
    match order {
        Order::Forwards => Ok(sources),
        Order::Backwards => Ok(turned(sources)),
        Order::Fields(fields) => in_fields(judge, fields, sources),
    }
}

/// Whether an operation takes and gives values of these types, where its operands exist. It fails where memory is wanting.
fn is_work(
    judge: &Judge<'_>,
    operation: Operation,
    order: Order<'_>,
    case: &Case,
) -> Result<bool, AllocError>
    ensures { IfOk result (λ answer. answer ≡ here.is_work judge.now operation (spec.order_of judge.now order.entry) case.now) }
{
    let takes = case.takes.as_slice();
    let sources = ordered(judge, takes, order)?;
    let one = is_dead(takes);
    let other = works(judge, operation, sources.as_slice(), takes, &case.gives)?;
    let any = either(one, other);
    Ok(any)
}

/// Whether a tuple of values of these types is taken by a constructor. It fails where memory is wanting.
fn constructs_tuple(
    judge: &Judge<'_>,
    constructor: u32,
    types: &[Sized],
    payload: &Sized,
    gives: &Sized,
) -> Result<bool, AllocError>
    ensures { IfOk result (λ answer. answer ≡ judged.tuple_right judge.now constructor types.now payload.now gives.now) }
{
    let sources = operands_from(judge, 0, types)?;
    let one = works(judge, Operation::Build, sources.as_slice(), types, payload)?;
    let other = works_on(judge, Operation::Construct(constructor), payload, gives)?;
    let all = both(one, other);
    Ok(all)
}

/// Whether a constructor takes values of these types, and gives one of that. It fails where memory is wanting.
fn constructs(
    judge: &Judge<'_>,
    union: u32,
    constructor: u32,
    types: &[Sized],
    gives: &Sized,
) -> Result<bool, AllocError>
    ensures { IfOk result (λ answer. answer ≡ here.is_payload judge.now union constructor types.now gives.now) }
{
    match types {
        [] => {
            let number = unit_number(judge)?;
            let unit = Source::Constant(number, Literal::Unit);
            works_alone(judge, Operation::Construct(constructor), unit, gives)
        }
        [one] => works_on(judge, Operation::Construct(constructor), one, gives),
        [_, _, ..] => {
            let payload = payload_type(
                judge.alloc,
                judge.setting.types,
                union,
                constructor,
                gives,
            )?;
            constructs_tuple(judge, constructor, types, &payload, gives)
        }
    }
}

/// Whether a source of the type of this number is of another's.
fn is_source(source: Option<u32>, gives: u32) -> bool
    ensures { result ≡ judged.is_of source gives }
{
    match source {
        Some(number) => number == gives,
        None => false,
    }
}

/// Whether the first of these values comes to the type of this number. It fails where there are 2^32 types or more.
fn is_cast(judge: &Judge<'_>, takes: &[Sized], gives: u32) -> Result<bool, AllocError>
    ensures { IfOk result (λ answer. answer ≡ typing.comes (signs_here judge.now) (here.first_number judge.now takes.now) gives) }
{
    let from = first_number(judge, takes)?;
    let answer = comes(judge, from, gives);
    Ok(answer)
}

/// Whether it does, where these values exist. It fails where there are 2^32 types or more.
fn is_recast(judge: &Judge<'_>, takes: &[Sized], gives: u32) -> Result<bool, AllocError>
    ensures { IfOk result (λ answer. answer ≡ (dead takes.now || typing.comes (signs_here judge.now) (here.first_number judge.now takes.now) gives)) }
{
    let one = is_dead(takes);
    let other = is_cast(judge, takes, gives)?;
    let any = either(one, other);
    Ok(any)
}

/// Whether a struct of a case is built anew with others in these fields, where they exist. It fails where memory is wanting.
fn is_changed(judge: &Judge<'_>, fields: &[u32], case: &Case) -> Result<bool, AllocError>
    ensures { IfOk result (λ answer. answer ≡ here.is_changed judge.now fields.now case.now) }
{
    let takes = case.takes.as_slice();
    let one = is_dead(takes);
    let other = changes(judge, fields, takes, &case.gives)?;
    let any = either(one, other);
    Ok(any)
}

/// Whether a constructor takes the values of a case, where they exist. It fails where memory is wanting.
fn is_constructed(
    judge: &Judge<'_>,
    union: u32,
    constructor: u32,
    case: &Case,
) -> Result<bool, AllocError>
    ensures { IfOk result (λ answer. answer ≡ here.is_constructed judge.now union constructor case.now) }
{
    let takes = case.takes.as_slice();
    let one = is_dead(takes);
    let other = constructs(judge, union, constructor, takes, &case.gives)?;
    let any = either(one, other);
    Ok(any)
}

/// Whether a case is as it is asked. It fails where memory is wanting.
fn is_as_asked(judge: &Judge<'_>, asked: Asked<'_>, case: &Case) -> Result<bool, AllocError>
    ensures { IfOk result (λ answer. answer ≡ spec.asked judge.now asked.entry case.now) }
{
    let gives = judge.setting.number(&case.gives)?;
    match asked {
        Asked::Nothing => Ok(true),
        Asked::Casts => is_cast(judge, case.takes.as_slice(), gives),
        Asked::Recasts => is_recast(judge, case.takes.as_slice(), gives),
        Asked::From(from) => Ok(comes(judge, from, gives)),
        Asked::Sourced(source) => Ok(is_source(source, gives)),
        Asked::Works(operation, order) => is_work(judge, operation, order, case),
        Asked::Changes(fields) => is_changed(judge, fields, case),
        Asked::Constructs(union, constructor) => is_constructed(judge, union, constructor, case),
    }
}

/// Whether the numbers of a case are small, and its type has a number. It fails where there are 2^32 types or more.
fn is_there(judge: &Judge<'_>, case: &Case) -> Result<bool, AllocError>
    ensures { IfOk result (λ answer. answer ≡ (typing.picks_small case.now.picked && (tables_here judge.now).known case.now.gives)) }
{
    let one = are_small(case.picked.as_slice());
    let other = is_known(judge, &case.gives)?;
    let all = both(one, other);
    Ok(all)
}

/// Whether so is a case that is as it is asked. It fails where memory is wanting.
fn is_case(judge: &Judge<'_>, asked: Asked<'_>, case: &Case) -> Result<bool, AllocError>
    ensures { IfOk result (λ answer. answer
        ≡ ((typing.picks_small case.now.picked && (tables_here judge.now).known case.now.gives) && spec.asked judge.now asked.entry case.now)) }
{
    let one = is_there(judge, case)?;
    let other = is_as_asked(judge, asked, case)?;
    let all = both(one, other);
    Ok(all)
}

/// Whether all cases are as they are asked. It fails where memory is wanting.
#[tactic(auto, using(crate::proofs::Bools::chains))]
pub fn are_as_asked(judge: &Judge<'_>, asked: Asked<'_>, cases: &[Case]) -> Result<bool, AllocError>
    ensures { IfOk result (λ answer. answer ≡ cases_typed judge.now (spec.asked judge.now asked.entry) cases.now) }
{
    match cases {
        [] => Ok(true),
        [case, rest @ ..] => {
            let one = is_case(judge, asked, case)?;
            let other = are_as_asked(judge, asked, rest)?;
            let all = both(one, other);
            Ok(all)
        }
    }
}

/// The types that cases give come behind others. They fail where memory is wanting.
pub fn put_gives(
    judge: &Judge<'_>,
    cases: &[Case],
    types: &mut Items<Sized>,
) -> Result<(), AllocError>
    ensures { OnOk result (types.new ≡ types.old ++ typing.gives_in cases.now) }
{
    match cases {
        [] => Ok(()),
        [first, rest @ ..] => {
            let copy = copy_sized(judge.alloc, &first.gives)?;
            types.push(copy)?;
            put_gives(judge, rest, types)
        }
    }
}

/// Whether a value of this type comes to the types of the cases. It fails where memory is wanting.
fn comes_from(judge: &Judge<'_>, typ: &Sized, cases: &[Case]) -> Result<bool, AllocError>
    ensures { IfOk result (λ answer. answer ≡ judged.come_right judge.now typ.now cases.now) }
{
    let from = judge.setting.number(typ)?;
    are_as_asked(judge, Asked::From(from), cases)
}

/// Whether a value of this type comes to the types of the cases, where it exists. It fails where memory is wanting.
fn is_met(judge: &Judge<'_>, typ: &Sized, cases: &[Case]) -> Result<bool, AllocError>
    ensures { IfOk result (λ answer. answer ≡ judged.met_right judge.now typ.now cases.now) }
{
    if is_never(typ) {
        are_as_asked(judge, Asked::Nothing, cases)
    } else {
        comes_from(judge, typ, cases)
    }
}

/// Whether values of each of these types, where they exist, come to the types of the cases. It fails where memory is wanting.
fn meets(judge: &Judge<'_>, types: &[Sized], cases: &[Case]) -> Result<bool, AllocError>
    ensures { IfOk result (λ answer. answer ≡ here.meets judge.now types.now cases.now) }
{
    match types {
        [] => Ok(true),
        [first, rest @ ..] => {
            let one = is_met(judge, first, cases)?;
            let other = meets(judge, rest, cases)?;
            let all = both(one, other);
            Ok(all)
        }
    }
}

/// Whether values of each of these types come to the types of the cases, which have numbers. It fails where memory is wanting.
pub fn meet(judge: &Judge<'_>, types: &[Sized], cases: &[Case]) -> Result<bool, AllocError>
    ensures { IfOk result (λ answer. answer ≡ here.meet_right judge.now types.now cases.now) }
{
    let one = meets(judge, types, cases)?;
    let other = are_as_asked(judge, Asked::Nothing, cases)?;
    let all = both(one, other);
    Ok(all)
}

/// Whether the first numbers are the second.
fn are_same(numbers: &[u32], others: &[u32]) -> bool
    ensures { result ≡ typing.nats_eq numbers.now others.now }
{
    match numbers {
        [] => others.is_empty(),
        [number, rest @ ..] => match others {
            [] => false,
            [other, more @ ..] => *number == *other && are_same(rest, more),
        },
    }
}

/// Whether what a call leads to may be called, and takes its arguments. It fails where memory is wanting.
fn is_taken(judge: &Judge<'_>, lead: &Lead) -> Result<bool, AllocError>
    ensures { IfOk result (λ answer. answer ≡ here.is_lead judge.now ((signs_here judge.now).parameters lead.now.instance) lead.now.takes) }
{
    let takes = numbers(judge, lead.takes.as_slice())?;
    match judge.signs.called.get(lead.instance) {
        Some(called) => {
            let one = called.cycle <= judge.signs.cycle;
            let other = are_same(takes.as_slice(), called.parameters.as_slice());
            let all = both(one, other);
            Ok(all)
        }
        None => Ok(false),
    }
}

/// Whether what a call leads to gives what comes to the types of the cases. It fails where memory is wanting.
fn is_answered(judge: &Judge<'_>, cases: &[Case], lead: &Lead) -> Result<bool, AllocError>
    ensures { IfOk result (λ answer. answer ≡ judged.answered judge.now cases.now lead.now) }
{
    let answer = judge.around.answer(judge.alloc, lead.instance)?;
    let from = judge.setting.number(&answer)?;
    are_as_asked(judge, Asked::From(from), cases)
}

/// Whether a call that leads here fits. It fails where memory is wanting.
fn is_lead(judge: &Judge<'_>, cases: &[Case], lead: &Lead) -> Result<bool, AllocError>
    ensures { IfOk result (λ answer. answer ≡ judged.lead_right judge.now cases.now lead.now) }
{
    let first = are_small(lead.picked.as_slice());
    let second = is_taken(judge, lead)?;
    let one = both(first, second);
    let other = is_answered(judge, cases, lead)?;
    let all = both(one, other);
    Ok(all)
}

/// Whether what a call leads to takes its arguments, and gives what comes to the types of the cases. It fails where memory is wanting.
#[tactic(auto, using(crate::proofs::Bools::chains))]
pub fn are_leads(judge: &Judge<'_>, cases: &[Case], leads: &[Lead]) -> Result<bool, AllocError>
    ensures { IfOk result (λ answer. answer ≡ here.leads_right judge.now cases.now leads.now) }
{
    match leads {
        [] => Ok(true),
        [first, rest @ ..] => {
            let one = is_lead(judge, cases, first)?;
            let other = are_leads(judge, cases, rest)?;
            let all = both(one, other);
            Ok(all)
        }
    }
}
