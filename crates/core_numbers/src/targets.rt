ghost use Rattle.std.specs.Prelude.{◌≡◌, map, IfOk, OnOk};
ghost use Rattle.core_numbers.specs.Numbers.{suffix_numbered, caller_numbered, reader_numbered, each_numbered};
ghost use Rattle.core_numbers.specs.Numbers.{target_kind_numbered, target_numbered};

use crate::counting::take_number;
use sail_base::Items;
use sail_core::{Caller, Suffix, Target, TargetKind};
use std::alloc::{AllocError, Global};

fn number_suffix(suffix: Suffix, next: &mut u32) -> Result<Suffix, AllocError>
    ensures made { IfOk result (λ made. made ≡ (suffix_numbered suffix next.old).it) }
    ensures next { OnOk result (next.new ≡ (suffix_numbered suffix next.old).next) }
{
    let number = take_number(next)?;
    Ok(Suffix {
        place: suffix.place,
        number,
        way: suffix.way,
    })
}

/// Suffixes with their numbers, in order. The one error is want of memory.
pub fn number_suffixes(
    alloc: Global,
    suffixes: Items<Suffix>,
    next: &mut u32,
) -> Result<Items<Suffix>, AllocError>
    ensures made { IfOk result (λ made. made ≡ (each_numbered (map suffix_numbered suffixes) next.old).it) }
    ensures next { OnOk result (next.new ≡ (each_numbered (map suffix_numbered suffixes) next.old).next) }
{
    let mut made = Items::new(alloc);
    for suffix in suffixes.into_vec() {
        made.push(number_suffix(suffix, next)?)?;
    }
    Ok(made)
}

fn number_caller(caller: Caller, next: &mut u32) -> Result<Caller, AllocError>
    ensures made { IfOk result (λ made. made ≡ (caller_numbered caller next.old).it) }
    ensures next { OnOk result (next.new ≡ (caller_numbered caller next.old).next) }
{
    let number = take_number(next)?;
    Ok(Caller {
        callee: caller.callee,
        number,
    })
}

fn number_reader(reader: Option<Caller>, next: &mut u32) -> Result<Option<Caller>, AllocError>
    ensures made { IfOk result (λ made. made ≡ (reader_numbered reader next.old).it) }
    ensures next { OnOk result (next.new ≡ (reader_numbered reader next.old).next) }
{
    match reader {
        None => Ok(None),
        Some(caller) => Ok(Some(number_caller(caller, next)?)),
    }
}

fn number_target_kind(
    alloc: Global,
    kind: TargetKind,
    next: &mut u32,
) -> Result<TargetKind, AllocError>
    ensures made { IfOk result (λ made. made ≡ (target_kind_numbered kind next.old).it) }
    ensures next { OnOk result (next.new ≡ (target_kind_numbered kind next.old).next) }
{
    match kind {
        TargetKind::Call(count, reader, writer) => {
            let reader = number_reader(reader, next)?;
            let writer = number_caller(writer, next)?;
            Ok(TargetKind::Call(count, reader, writer))
        }
        TargetKind::Part(suffixes) => {
            let suffixes = number_suffixes(alloc, suffixes, next)?;
            Ok(TargetKind::Part(suffixes))
        }
        kind => Ok(kind),
    }
}

/// A target with its numbers: its own, those in its kind, then those of the targets inside.
#[cycle(number_target)]
fn number_target(alloc: Global, target: Target, next: &mut u32) -> Result<Target, AllocError>
    ensures made { IfOk result (λ made. made ≡ (target_numbered target next.old).it) }
    ensures next { OnOk result (next.new ≡ (target_numbered target next.old).next) }
{
    let Target {
        place,
        number: _,
        kind,
        parts,
    } = target;
    let number = take_number(next)?;
    let kind = number_target_kind(alloc, kind, next)?;
    let parts = number_targets(alloc, parts, next)?;
    Ok(Target {
        place,
        number,
        kind,
        parts,
    })
}

/// Targets with their numbers, in order. The one error is want of memory.
#[cycle(number_target)]
pub fn number_targets(
    alloc: Global,
    targets: Items<Target>,
    next: &mut u32,
) -> Result<Items<Target>, AllocError>
    ensures made { IfOk result (λ made. made ≡ (each_numbered (map target_numbered targets) next.old).it) }
    ensures next { OnOk result (next.new ≡ (each_numbered (map target_numbered targets) next.old).next) }
{
    let mut made = Items::new(alloc);
    for target in targets.into_vec() {
        made.push(number_target(alloc, target, next)?)?;
    }
    Ok(made)
}
