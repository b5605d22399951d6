//! Nodes: their places, numbers and parts stay, and their arms are flat.
ghost use Rattle.std.specs.Prelude.{◌≡◌, map, option_map, IfOk};
ghost use Rattle.match_rewrite.specs.Rewriting as flat;

use crate::arms::{flat_arm, flat_arms};
use sail_base::Items;
use sail_core::{Core, Kind, Statement};
use std::alloc::{AllocError, Global};

fn flat_statement(alloc: Global, statement: Statement) -> Result<Statement, AllocError>
    ensures { IfOk result (λ made. made ≡ flat.flat_statement statement) }
{
    match statement {
        Statement::Define(place, arm) => Ok(Statement::Define(place, flat_arm(alloc, arm)?)),
        statement => Ok(statement),
    }
}

fn flat_statements(
    alloc: Global,
    statements: Items<Statement>,
) -> Result<Items<Statement>, AllocError>
    ensures { IfOk result (λ made. made ≡ map flat.flat_statement statements) }
{
    let mut made = Items::new(alloc);
    for statement in statements.into_vec() {
        made.push(flat_statement(alloc, statement)?)?;
    }
    Ok(made)
}

fn flat_kind(alloc: Global, kind: Kind) -> Result<Kind, AllocError>
    ensures { IfOk result (λ made. made ≡ flat.flat_kind kind) }
{
    match kind {
        Kind::Block(statements) => Ok(Kind::Block(flat_statements(alloc, statements)?)),
        Kind::Let(arm) => Ok(Kind::Let(flat_arm(alloc, arm)?)),
        Kind::Match(arms, shape) => Ok(Kind::Match(flat_arms(alloc, arms)?, shape)),
        Kind::Try(arms, shape) => Ok(Kind::Try(flat_arms(alloc, arms)?, shape)),
        Kind::Clauses(arms) => Ok(Kind::Clauses(flat_arms(alloc, arms)?)),
        kind => Ok(kind),
    }
}

/// The core with flat arms. It fails where memory is wanting, or where an arm would have 2^32 values in hand.
#[cycle(flat_core)]
pub(crate) fn flat_core(alloc: Global, core: Core) -> Result<Core, AllocError>
    ensures { IfOk result (λ made. made ≡ flat.flat_core core) }
{
    let Core {
        place,
        number,
        kind,
        parts,
    } = core;
    let kind = flat_kind(alloc, kind)?;
    let parts = flat_cores(alloc, parts)?;
    Ok(Core {
        place,
        number,
        kind,
        parts,
    })
}

#[cycle(flat_core)]
fn flat_cores(alloc: Global, cores: Items<Core>) -> Result<Items<Core>, AllocError>
    ensures { IfOk result (λ made. made ≡ map flat.flat_core cores) }
{
    let mut made = Items::new(alloc);
    for core in cores.into_vec() {
        made.push(flat_core(alloc, core)?)?;
    }
    Ok(made)
}

/// The core with flat arms, where there is one, likewise.
pub(crate) fn flat_measure(alloc: Global, measure: Option<Core>) -> Result<Option<Core>, AllocError>
    ensures { IfOk result (λ made. made ≡ option_map flat.flat_core measure) }
{
    match measure {
        None => Ok(None),
        Some(measure) => Ok(Some(flat_core(alloc, measure)?)),
    }
}
