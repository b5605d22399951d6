ghost use Rattle.std.specs.Prelude.{◌≡◌, map, IfOk, OnOk};
ghost use Rattle.core_numbers.specs.Numbers.{kind_numbered, numbered, each_numbered};

use crate::counting::take_number;
use crate::targets::{number_suffixes, number_targets};
use sail_base::Items;
use sail_core::{Core, Kind};
use std::alloc::{AllocError, Global};

fn number_kind(alloc: Global, kind: Kind, next: &mut u32) -> Result<Kind, AllocError>
    ensures made { IfOk result (λ made. made ≡ (kind_numbered kind next.old).it) }
    ensures next { OnOk result (next.new ≡ (kind_numbered kind next.old).next) }
{
    match kind {
        Kind::Part(suffixes) => {
            let suffixes = number_suffixes(alloc, suffixes, next)?;
            Ok(Kind::Part(suffixes))
        }
        Kind::Assign(targets) => {
            let targets = number_targets(alloc, targets, next)?;
            Ok(Kind::Assign(targets))
        }
        kind => Ok(kind),
    }
}

/// A definition's tree with its numbers, from the next one on; what comes next then stands behind them. The one error is want of
/// memory, which ends before numbers do.
#[cycle(number)]
pub fn number_nodes(alloc: Global, core: Core, next: &mut u32) -> Result<Core, AllocError>
    ensures made { IfOk result (λ made. made ≡ (numbered core next.old).it) }
    ensures next { OnOk result (next.new ≡ (numbered core next.old).next) }
{
    let Core {
        place,
        number: _,
        kind,
        parts,
    } = core;
    let number = take_number(next)?;
    let kind = number_kind(alloc, kind, next)?;
    let parts = number_all(alloc, parts, next)?;
    Ok(Core {
        place,
        number,
        kind,
        parts,
    })
}

/// Trees with their numbers, in order.
#[cycle(number)]
fn number_all(alloc: Global, cores: Items<Core>, next: &mut u32) -> Result<Items<Core>, AllocError>
    ensures made { IfOk result (λ made. made ≡ (each_numbered (map numbered cores) next.old).it) }
    ensures next { OnOk result (next.new ≡ (each_numbered (map numbered cores) next.old).next) }
{
    let mut made = Items::new(alloc);
    for core in cores.into_vec() {
        made.push(number_nodes(alloc, core, next)?)?;
    }
    Ok(made)
}
