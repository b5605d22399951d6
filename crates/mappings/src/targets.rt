//! Calls, and what is assigned to: a call enters a direction as a function.
ghost use Rattle.std.specs.Prelude.{◌≡◌, map, option_map, IfOk};
ghost use Rattle.mappings.specs.Rewriting as freed;

use sail_base::Items;
use sail_core::{Callee, Caller, Target, TargetKind};
use std::alloc::{AllocError, Global};

/// What is called once directions are functions.
pub(crate) fn free_callee(callee: Callee) -> Callee
    ensures { result ≡ freed.free_callee callee }
{
    match callee {
        Callee::Converts(direction) => Callee::Applies(direction),
        callee => callee,
    }
}

fn free_caller(caller: Caller) -> Caller
    ensures { result ≡ freed.free_caller caller }
{
    let callee = free_callee(caller.callee);
    Caller {
        callee,
        number: caller.number,
    }
}

fn free_reader(reader: Option<Caller>) -> Option<Caller>
    ensures { result ≡ option_map freed.free_caller reader }
{
    match reader {
        None => None,
        Some(caller) => Some(free_caller(caller)),
    }
}

fn free_target_kind(kind: TargetKind) -> TargetKind
    ensures { result ≡ freed.free_target_kind kind }
{
    match kind {
        TargetKind::Call(count, reader, writer) => {
            TargetKind::Call(count, free_reader(reader), free_caller(writer))
        }
        kind => kind,
    }
}

#[cycle(free_target)]
fn free_target(alloc: Global, target: Target) -> Result<Target, AllocError>
    ensures { IfOk result (λ made. made ≡ freed.free_target target) }
{
    let Target {
        place,
        number,
        kind,
        parts,
    } = target;
    let kind = free_target_kind(kind);
    let parts = free_targets(alloc, parts)?;
    Ok(Target {
        place,
        number,
        kind,
        parts,
    })
}

/// The targets without mappings, in order. It fails where memory is wanting.
#[cycle(free_target)]
pub(crate) fn free_targets(
    alloc: Global,
    targets: Items<Target>,
) -> Result<Items<Target>, AllocError>
    ensures { IfOk result (λ made. made ≡ map freed.free_target targets) }
{
    let mut made = Items::new(alloc);
    for target in targets.into_vec() {
        made.push(free_target(alloc, target)?)?;
    }
    Ok(made)
}
