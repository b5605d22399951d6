//! Whether calls fit their cases: of functions, builtins, constructors, and directions of mappings.
ghost use Rattle.std.specs.Prelude.{◌≡◌, nat_lt, slice_get, IfOk};
ghost use Rattle.lowered_pieces.specs.Forms.{cases_ends};
ghost use Rattle.lowered_pieces.specs.Gathered.{only_end};
ghost use Rattle.lowered_steps.specs.Hands.{types_of};
ghost use Rattle.lowered_steps.specs.Setting.{mapped_of, ways_for};
ghost use Rattle.lowered_typed.specs.Here as here;
ghost use Rattle.lowered_typed.specs.Judged as judged;
ghost use Rattle.lowered_typed.specs.Judging.{is_asked, turned_in};

use crate::cases::{Asked, Order, are_as_asked, are_leads, is_known};
use crate::ends::{first_ends, push_operand_types};
use crate::heads::has_payload;
use crate::signs::Judge;
use crate::works::{both, comes, operands_from, works};
use jib::{Operation, has_state};
use lowered_steps::{Ends, Mapped};
use sail_base::Items;
use sail_core::{Callee, Core};
use sail_types::Row;
use size_values::Sized;
use sized_nodes::Case;
use std::alloc::AllocError;

/// Whether a builtin of the state takes operands of these types, and gives what its only case does. It fails where memory is wanting.
fn is_state(
    judge: &Judge<'_>,
    row: Row,
    cases: &[Case],
    types: &[Sized],
) -> Result<bool, AllocError>
    ensures { IfOk result (λ answer. answer ≡ here.state_right judge.now row cases.now types.now) }
{
    match cases {
        [] => Ok(false),
        [only] => {
            let one = is_known(judge, &only.gives)?;
            let sources = operands_from(judge, 0, types)?;
            let other = works(
                judge,
                Operation::Builtin(row),
                sources.as_slice(),
                types,
                &only.gives,
            )?;
            let all = both(one, other);
            Ok(all)
        }
        [_, _, ..] => Ok(false),
    }
}

/// Whether a builtin of the state fits, with operands of the only types that they have. It fails where memory is wanting.
fn is_state_asked(
    judge: &Judge<'_>,
    row: Row,
    cases: &[Case],
    parts: &[Core],
) -> Result<bool, AllocError>
    ensures { IfOk result (λ answer. answer ≡ judged.state_asked judge.now row cases.now (judged.all_here judge.now parts.now)) }
{
    let mut types = Items::new(judge.alloc);
    push_operand_types(judge, parts, &mut types)?;
    let one = !judge.signs.is_pure;
    let other = is_state(judge, row, cases, types.as_slice())?;
    let all = both(one, other);
    Ok(all)
}

/// Whether a builtin fits its cases. It fails where memory is wanting.
fn is_row_asked(
    judge: &Judge<'_>,
    row: Row,
    cases: &[Case],
    parts: &[Core],
) -> Result<bool, AllocError>
    ensures { IfOk result (λ answer. answer ≡ judged.row_here judge.now row cases.now (judged.all_here judge.now parts.now)) }
{
    if has_state(row) {
        is_state_asked(judge, row, cases, parts)
    } else {
        let works = Asked::Works(Operation::Builtin(row), Order::Forwards);
        are_as_asked(judge, works, cases)
    }
}

/// Whether what the only case gives comes to the type of this number. It fails where there are 2^32 types or more.
fn only_moves(judge: &Judge<'_>, cases: &[Case], to: u32) -> Result<bool, AllocError>
    ensures { IfOk result (λ answer. answer ≡ judged.comes_to judge.now (only_end (cases_ends cases.now)) to) }
{
    match cases {
        [] => Ok(true),
        [only] => {
            let from = judge.setting.number(&only.gives)?;
            Ok(comes(judge, from, to))
        }
        [_, _, ..] => Ok(true),
    }
}

/// Whether a value comes to the type that a direction takes, where one type is said of it. It fails where there are 2^32 types or more.
fn moves_to(judge: &Judge<'_>, ends: &Ends<'_>, takes: &Sized) -> Result<bool, AllocError>
    ensures { IfOk result (λ answer. answer ≡ here.moves_to judge.now (only_end (types_of ends.now)) takes.now) }
{
    let to = judge.setting.number(takes)?;
    match ends {
        Ends::Unsaid => Ok(true),
        Ends::Cases(cases) => only_moves(judge, *cases, to),
        Ends::One(typ) => {
            let from = judge.setting.number(typ)?;
            Ok(comes(judge, from, to))
        }
    }
}

/// Whether a direction takes such a value, and its payload comes to what cases give. It fails where memory is wanting.
fn is_mapped(
    judge: &Judge<'_>,
    mapped: &Mapped,
    cases: &[Case],
    ends: &Ends<'_>,
) -> Result<bool, AllocError>
    ensures { IfOk result (λ answer. answer ≡ judged.mapped_asked judge.now (mapped_of mapped.now) cases.now (only_end (types_of ends.now))) }
{
    let first = moves_to(judge, ends, &mapped.takes)?;
    let option = judge.setting.number(&mapped.gives)?;
    let payload = judge.setting.number(&mapped.payload)?;
    let one = has_payload(judge, option, 0, payload);
    let other = are_as_asked(judge, Asked::From(payload), cases)?;
    let rest = both(one, other);
    let all = both(first, rest);
    Ok(all)
}

/// Whether a direction is made, and is of the same cycle or a lower one.
fn is_made(judge: &Judge<'_>, direction: u32) -> bool
    ensures { result ≡ turned_in judge.now.signs.now.cycle (slice_get judge.now.signs.now.turned.now direction) }
{
    match judge.signs.turned.get(direction as usize) {
        Some(turned) => match turned {
            Some(cycle) => *cycle <= judge.signs.cycle,
            None => false,
        },
        None => false,
    }
}

/// Whether its function has a lower number than this one.
fn is_before(judge: &Judge<'_>, direction: u32) -> bool
    ensures { result ≡ nat_lt (ways_for judge.now.setting.now direction).function judge.now.signs.now.below }
{
    match judge.setting.direction(direction) {
        Some(mapped) => mapped.function < judge.signs.below,
        None => 0 < judge.signs.below,
    }
}

/// Whether a direction may be asked from here.
pub fn may_turn(judge: &Judge<'_>, direction: u32) -> bool
    ensures { result ≡ is_asked judge.now.setting.now judge.now.signs.now direction }
{
    let one = is_made(judge, direction);
    let other = is_before(judge, direction);
    both(one, other)
}

/// Whether a call of a direction fits, which may be called. It fails where memory is wanting.
fn is_turned(
    judge: &Judge<'_>,
    direction: u32,
    node: u32,
    parts: &[Core],
) -> Result<bool, AllocError>
    ensures { IfOk result (λ answer. answer ≡ judged.turned_asked judge.now direction node (judged.all_here judge.now parts.now)) }
{
    match judge.setting.direction(direction) {
        Some(mapped) => {
            let ends = first_ends(judge, parts)?;
            is_mapped(judge, mapped, judge.setting.cases(node, 1), &ends)
        }
        None => {
            let none = Mapped {
                function: 0,
                takes: Sized::Never,
                gives: Sized::Never,
                payload: Sized::Never,
            };
            let ends = first_ends(judge, parts)?;
            is_mapped(judge, &none, judge.setting.cases(node, 1), &ends)
        }
    }
}

/// Whether a call of a direction fits. It fails where memory is wanting.
#[tactic(auto, using(crate::proofs::Parts::parts_here))]
fn is_applied_asked(
    judge: &Judge<'_>,
    direction: u32,
    node: u32,
    parts: &[Core],
) -> Result<bool, AllocError>
    ensures { IfOk result (λ answer. answer ≡ judged.applied_asked judge.now direction node (judged.all_here judge.now parts.now)) }
{
    let first = parts.len() == 1;
    let second = !judge.signs.is_pure;
    let one = may_turn(judge, direction);
    let other = is_turned(judge, direction, node, parts)?;
    let rest = both(one, other);
    let behind = both(second, rest);
    let all = both(first, behind);
    Ok(all)
}

/// Whether a call of a function fits, with so many arguments. It fails where memory is wanting.
fn is_function_asked(judge: &Judge<'_>, node: u32, count: usize) -> Result<bool, AllocError>
    ensures { IfOk result (λ answer. answer ≡ judged.function_asked judge.now node count) }
{
    let one = !judge.signs.is_pure;
    let other = are_leads(
        judge,
        judge.setting.cases(node, count),
        judge.setting.leads(node),
    )?;
    let all = both(one, other);
    Ok(all)
}

/// Whether a call fits its cases. It fails where memory is wanting.
#[tactic(auto, using(crate::proofs::Parts::parts_here))]
pub fn is_call_asked(
    judge: &Judge<'_>,
    callee: Callee,
    node: u32,
    parts: &[Core],
) -> Result<bool, AllocError>
    ensures { IfOk result (λ answer. answer ≡ judged.call_asked judge.now callee node (judged.all_here judge.now parts.now)) }
{
    let count = parts.len();
    match callee {
        Callee::Function(_) => is_function_asked(judge, node, count),
        Callee::Row(row) => is_row_asked(judge, row, judge.setting.cases(node, count), parts),
        Callee::Constructor(union, constructor) => are_as_asked(
            judge,
            Asked::Constructs(union, constructor),
            judge.setting.cases(node, count),
        ),
        Callee::Applies(direction) => is_applied_asked(judge, direction, node, parts),
        Callee::Converts(_) => Ok(false),
    }
}
