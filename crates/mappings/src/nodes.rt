//! Nodes: their places, numbers and parts stay, and what they are is without mappings.
ghost use Rattle.std.specs.Prelude.{◌≡◌, map, option_map, IfOk};
ghost use Rattle.mappings.specs.Rewriting as freed;

use crate::patterns::{free_arm, free_arms};
use crate::targets::{free_callee, free_targets};
use sail_base::Items;
use sail_core::{Core, Kind, Statement};
use std::alloc::{AllocError, Global};

fn free_statement(alloc: Global, statement: Statement) -> Result<Statement, AllocError>
    ensures { IfOk result (λ made. made ≡ freed.free_statement statement) }
{
    match statement {
        Statement::Define(place, arm) => Ok(Statement::Define(place, free_arm(alloc, arm)?)),
        statement => Ok(statement),
    }
}

fn free_statements(
    alloc: Global,
    statements: Items<Statement>,
) -> Result<Items<Statement>, AllocError>
    ensures { IfOk result (λ made. made ≡ map freed.free_statement statements) }
{
    let mut made = Items::new(alloc);
    for statement in statements.into_vec() {
        made.push(free_statement(alloc, statement)?)?;
    }
    Ok(made)
}

fn free_kind(alloc: Global, kind: Kind) -> Result<Kind, AllocError>
    ensures { IfOk result (λ made. made ≡ freed.free_kind kind) }
{
    match kind {
        Kind::Call(callee) => Ok(Kind::Call(free_callee(callee))),
        Kind::Assign(targets) => Ok(Kind::Assign(free_targets(alloc, targets)?)),
        Kind::Block(statements) => Ok(Kind::Block(free_statements(alloc, statements)?)),
        Kind::Let(arm) => Ok(Kind::Let(free_arm(alloc, arm)?)),
        Kind::Match(arms, shape) => Ok(Kind::Match(free_arms(alloc, arms)?, shape)),
        Kind::Try(arms, shape) => Ok(Kind::Try(free_arms(alloc, arms)?, shape)),
        Kind::Clauses(arms) => Ok(Kind::Clauses(free_arms(alloc, arms)?)),
        kind => Ok(kind),
    }
}

/// The core without mappings. It fails where memory is wanting.
#[cycle(free_core)]
pub(crate) fn free_core(alloc: Global, core: Core) -> Result<Core, AllocError>
    ensures { IfOk result (λ made. made ≡ freed.free_core core) }
{
    let Core {
        place,
        number,
        kind,
        parts,
    } = core;
    let kind = free_kind(alloc, kind)?;
    let parts = free_cores(alloc, parts)?;
    Ok(Core {
        place,
        number,
        kind,
        parts,
    })
}

#[cycle(free_core)]
fn free_cores(alloc: Global, cores: Items<Core>) -> Result<Items<Core>, AllocError>
    ensures { IfOk result (λ made. made ≡ map freed.free_core cores) }
{
    let mut made = Items::new(alloc);
    for core in cores.into_vec() {
        made.push(free_core(alloc, core)?)?;
    }
    Ok(made)
}

/// The core without mappings, where there is one. It fails where memory is wanting.
pub(crate) fn free_measure(alloc: Global, measure: Option<Core>) -> Result<Option<Core>, AllocError>
    ensures { IfOk result (λ made. made ≡ option_map freed.free_core measure) }
{
    match measure {
        None => Ok(None),
        Some(measure) => Ok(Some(free_core(alloc, measure)?)),
    }
}
