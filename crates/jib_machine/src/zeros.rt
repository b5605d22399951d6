//! Which slots have to begin with the zeros of their types: those that are read somewhere without a write since the last label.
ghost use Rattle.std.specs.Prelude.{◌≡◌, ◌∷◌, [], true, false, IfOk, slice_index_or};
ghost use Rattle.jib_machine.specs.parts.Unread.{reads_slot, read_among, sources_in, target_slot, slot_written, is_slot, written_behind};
ghost use Rattle.jib_machine.specs.parts.Unread.{needed_from, is_needed, is_short, needs_in, all_needs};

use jib::{Function, Instruction, Source, Target};
use sail_base::Items;
use std::alloc::{AllocError, Global};

/// How many pairs of an instruction and a slot are looked at for one function; where there are more, each slot is needed.
const MOST: usize = 1_048_576;

fn is_read(source: &Source, slot: usize) -> bool
    ensures { result ≡ reads_slot slot source.now }
{
    match source {
        Source::Slot(other) => slot == *other as usize,
        _ => false,
    }
}

/// Whether a slot is read among sources.
fn are_read(sources: &[Source], slot: usize) -> bool
    ensures { result ≡ read_among slot sources.now }
{
    for source in sources {
        if is_read(source, slot) {
            return true;
        }
    }
    false
}

fn is_read_once(source: &Source, slot: usize) -> bool
    ensures { result ≡ read_among slot (source.now ∷ []) }
{
    is_read(source, slot)
}

/// Whether an instruction reads a slot.
fn reads(instruction: &Instruction, slot: usize) -> bool
    ensures { result ≡ read_among slot (sources_in instruction.now) }
{
    match instruction {
        Instruction::Copy(_, source) => is_read_once(source, slot),
        Instruction::Apply(_, _, sources) => are_read(sources.as_slice(), slot),
        Instruction::Call(call) => are_read(call.arguments.as_slice(), slot),
        Instruction::JumpIf(source, _) => is_read_once(source, slot),
        Instruction::Payload(_, source, _, _) => is_read_once(source, slot),
        Instruction::End(source) => is_read_once(source, slot),
        Instruction::Throw(source) => is_read_once(source, slot),
        Instruction::Measure(source) => is_read_once(source, slot),
        _ => false,
    }
}

fn is_target(target: Target, slot: usize) -> bool
    ensures { result ≡ is_slot slot (target_slot target) }
{
    match target {
        Target::Slot(other) => other as usize == slot,
        Target::Register(_) => false,
    }
}

/// Whether an instruction writes a slot where the next one follows.
fn writes(instruction: &Instruction, slot: usize) -> bool
    ensures { result ≡ is_slot slot (slot_written instruction.now) }
{
    match instruction {
        Instruction::Copy(target, _) => is_target(*target, slot),
        Instruction::Apply(target, _, _) => is_target(*target, slot),
        Instruction::Call(call) => call.slot as usize == slot,
        Instruction::Payload(other, _, _, _) => *other as usize == slot,
        _ => false,
    }
}

/// Whether a slot was written since the last label, behind an instruction.
fn is_written(instruction: &Instruction, slot: usize, before: bool) -> bool
    ensures { result ≡ written_behind slot instruction.now before }
{
    match instruction {
        Instruction::Label(_) => false,
        _ => writes(instruction, slot) || before,
    }
}

/// Whether a slot is read anywhere without a write since the last label.
fn is_read_first(code: &[Instruction], slot: usize) -> bool
    ensures { result ≡ is_needed slot code.now }
{
    let mut written = false;
    for instruction in code {
        if !written && reads(instruction, slot) {
            return true;
        }
        written = is_written(instruction, slot, written);
    }
    false
}

/// Whether a function is short enough to be looked at.
fn can_be_looked_at(code: &[Instruction], count: usize) -> bool
    ensures { result ≡ is_short code.now count }
{
    match code.len().checked_mul(count) {
        Some(pairs) => pairs <= MOST,
        None => false,
    }
}

/// For each of so many slots of some code, whether it has to begin with the zero of its type; empty where there is too much to be
/// looked at.
fn needs_of(alloc: Global, code: &[Instruction], count: usize) -> Result<Items<bool>, AllocError>
    ensures { IfOk result (λ needs. needs ≡ needs_in code.now count) }
{
    let mut needs = Items::new(alloc);
    if can_be_looked_at(code, count) {
        for slot in 0..count {
            needs.push(is_read_first(code, slot))?;
        }
    }
    Ok(needs)
}

/// The same for each function.
pub fn needs_of_all(alloc: Global, functions: &[Function]) -> Result<Items<Items<bool>>, AllocError>
    ensures { IfOk result (λ needs. needs ≡ all_needs functions.now) }
{
    let mut needs = Items::new(alloc);
    for function in functions {
        needs.push(needs_of(alloc, function.code.as_slice(), function.slots.len())?)?;
    }
    Ok(needs)
}

/// Whether a slot has to begin with the zero of its type; so where that isn't known.
pub fn is_needed_at(needs: &[bool], slot: usize) -> bool
    ensures { result ≡ slice_index_or needs.now slot true }
{
    match needs.get(slot) {
        Some(needed) => *needed,
        None => true,
    }
}
