//! Whether the code of a node has its types.
ghost use Rattle.std.specs.Prelude.{◌≡◌, ◌&&◌, [], drop, IfOk};
ghost use Rattle.lowered_steps.specs.Setting.{reads_at};
ghost use Rattle.lowered_validity.specs.Typing as typing;
ghost use Rattle.lowered_typed.specs.Here as here;
ghost use Rattle.lowered_typed.specs.Judged as judged;
ghost use Rattle.lowered_typed.specs.Judging.{typed};

use crate::arms::is_end_typed;
use crate::cases::{Asked, are_as_asked};
use crate::counts::has_count;
use crate::ends::ends_of;
use crate::kinds::{are_kept, is_kind_asked};
use crate::signs::Judge;
use crate::types::put_types;
use crate::works::both;
use sail_base::{Items, Text};
use sail_core::{Arm, Core, Kind, Statement};
use std::alloc::AllocError;

/// Whether the code of all nodes has its types. It fails where memory is wanting.
#[cycle(is_typed)]
fn are_typed(judge: &Judge<'_>, nodes: &[Core]) -> Result<bool, AllocError>
    ensures { IfOk result (λ answer. answer ≡ typing.all_right (judged.all_here judge.now nodes.now)) }
{
    for node in nodes {
        let one = is_typed(judge, node)?;
        if !one {
            return Ok(false);
        }
    }
    Ok(true)
}

/// Whether an arm fits the value of a node. It fails where memory is wanting.
fn is_defined(judge: &Judge<'_>, arm: &Arm, value: &Core) -> Result<bool, AllocError>
    ensures { IfOk result (λ answer. answer ≡ here.ends_right judge.now arm.now (typed judge.now value.now).ends) }
{
    let ends = ends_of(judge, value)?;
    is_end_typed(judge, arm, &ends)
}

/// Whether a value comes to all types at which variables of a name are read. It fails where memory is wanting.
fn is_declared(judge: &Judge<'_>, name: &Text, value: &Core) -> Result<bool, AllocError>
    ensures { IfOk result (λ answer. answer ≡ here.kept_right judge.now (reads_at judge.now.setting.now.reads.now name.now) (typed judge.now value.now).types) }
{
    let mut types = Items::new(judge.alloc);
    put_types(judge, value, &mut types)?;
    are_kept(judge, judge.setting.reads_as(name), types.as_slice())
}

/// Whether a statement fits its value. It fails where memory is wanting.
fn is_statement(judge: &Judge<'_>, statement: &Statement, value: &Core) -> Result<bool, AllocError>
    ensures { IfOk result (λ answer. answer ≡ judged.statement_asked judge.now statement.now (typed judge.now value.now)) }
{
    match statement {
        Statement::Evaluate => Ok(true),
        Statement::Declare(name, _) => is_declared(judge, name, value),
        Statement::Define(_, arm) => is_defined(judge, arm, value),
    }
}

/// Whether the code of the value of a statement has its types, and the statement fits it. It fails where memory is wanting.
#[cycle(is_typed)]
fn is_step_typed(judge: &Judge<'_>, statement: &Statement, value: &Core) -> Result<bool, AllocError>
    ensures { IfOk result (λ answer. answer ≡ ((typed judge.now value.now).right && judged.statement_asked judge.now statement.now (typed judge.now value.now))) }
{
    let begins = is_typed(judge, value)?;
    let one = is_statement(judge, statement, value)?;
    let all = both(begins, one);
    Ok(all)
}

/// The parts of a block behind so many statements.
fn parts_behind(parts: &[Core], count: usize) -> &[Core]
    ensures { result.now ≡ drop count parts.now }
{
    if count < parts.len() {
        &parts[count..]
    } else {
        &[]
    }
}

/// Whether the code of the value of a block has its types, behind all statements. It fails where memory is wanting.
#[cycle(is_typed)]
fn is_last_typed(judge: &Judge<'_>, parts: &[Core]) -> Result<bool, AllocError>
    ensures { IfOk result (λ answer. answer ≡ here.block_right judge.now [] (judged.all_here judge.now parts.now)) }
{
    match parts {
        [] => Ok(true),
        [value] => is_typed(judge, value),
        [_, _, ..] => Ok(false),
    }
}

/// Whether the code of a block has its types. It fails where memory is wanting.
#[cycle(is_typed)]
fn is_block_typed(
    judge: &Judge<'_>,
    statements: &[Statement],
    parts: &[Core],
) -> Result<bool, AllocError>
    ensures { IfOk result (λ answer. answer ≡ here.block_right judge.now statements.now (judged.all_here judge.now parts.now)) }
{
    for at in 0..statements.len() {
        match parts.get(at) {
            Some(value) => {
                let one = is_step_typed(judge, &statements[at], value)?;
                if !one {
                    return Ok(false);
                }
            }
            None => return Ok(false),
        }
    }
    is_last_typed(judge, parts_behind(parts, statements.len()))
}

/// Whether the code of the parts of a kind has its types. It fails where memory is wanting.
#[cycle(is_typed)]
fn are_parts_typed(judge: &Judge<'_>, kind: &Kind, parts: &[Core]) -> Result<bool, AllocError>
    ensures { IfOk result (λ answer. answer ≡ judged.kind_parts judge.now kind.now (judged.all_here judge.now parts.now)) }
{
    match kind {
        Kind::Block(statements) => is_block_typed(judge, statements.as_slice(), parts),
        _ => are_typed(judge, parts),
    }
}

/// Whether a kind with these parts fits, and the code of its parts has its types. It fails where memory is wanting.
#[tactic(auto, using(crate::proofs::Parts::parts_here))]
#[cycle(is_typed)]
fn is_kind_typed(
    judge: &Judge<'_>,
    kind: &Kind,
    number: u32,
    parts: &[Core],
) -> Result<bool, AllocError>
    ensures { IfOk result (λ answer. answer ≡ judged.kind_judged judge.now kind.now number (judged.all_here judge.now parts.now)) }
{
    let first = has_count(kind, parts.len());
    let one = is_kind_asked(judge, kind, number, parts)?;
    let other = are_parts_typed(judge, kind, parts)?;
    let rest = both(one, other);
    let all = both(first, rest);
    Ok(all)
}

/// Whether the code of a node has its types. It fails where memory is wanting.
#[tactic(auto, using(crate::proofs::Parts::node_right))]
#[cycle(is_typed)]
pub fn is_typed(judge: &Judge<'_>, node: &Core) -> Result<bool, AllocError>
    ensures { IfOk result (λ answer. answer ≡ (typed judge.now node.now).right) }
{
    is_kind_typed(judge, &node.kind, node.number, node.parts.as_slice())
}

/// Whether a value comes to the type of the result at a node of this number. It fails where memory is wanting.
fn is_last(judge: &Judge<'_>, last: u32) -> Result<bool, AllocError>
    ensures { IfOk result (λ answer. answer ≡ judged.last_asked judge.now last) }
{
    let cases = judge.setting.cases(last, 1);
    let one = are_as_asked(judge, Asked::Recasts, cases)?;
    let other = are_as_asked(judge, Asked::Sourced(Some(judge.signs.result)), cases)?;
    let all = both(one, other);
    Ok(all)
}

/// Whether the code of a body has its types, and its value comes to the type of the result at a node of its own. It fails where memory is wanting.
pub fn is_result_typed(judge: &Judge<'_>, last: u32, body: &Core) -> Result<bool, AllocError>
    ensures { IfOk result (λ answer. answer ≡ here.result_right judge.now last (typed judge.now body.now)) }
{
    let one = is_typed(judge, body)?;
    let other = is_last(judge, last)?;
    let all = both(one, other);
    Ok(all)
}
