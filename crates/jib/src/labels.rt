//! Where labels are set, and where jumps lead.
ghost use Rattle.std.specs.Prelude.{◌≡◌, ◌<◌, IfSome, length};
ghost use Rattle.std.specs.Option.{option_copied};
ghost use Rattle.jib.specs.Valid.{is_tick, is_label, place_from, aim, lands, lands_at, set_here, is_end};

use crate::code::Instruction;

/// Whether it is a tick.
pub fn ticks(instruction: Option<&Instruction>) -> bool
    ensures { result ≡ is_tick (option_copied instruction.entry) }
{
    match instruction {
        Some(Instruction::Tick) => true,
        _ => false,
    }
}

fn sets(label: u32, instruction: &Instruction) -> bool
    ensures { result ≡ is_label label instruction.now }
{
    match instruction {
        Instruction::Label(other) => *other == label,
        _ => false,
    }
}

/// The first place of a label in a function's code; none where it isn't set.
#[tactic(auto, using(crate::proofs::EachLaws::eaches))]
pub fn label_place(code: &[Instruction], label: u32) -> Option<usize>
    ensures first { result ≡ place_from label 0 code.now }
    ensures within { IfSome result (λ place. place < length code.now) }
{
    for (place, instruction) in code.iter().enumerate() {
        if sets(label, instruction) {
            return Some(place);
        }
    }
    None
}

fn label_of(instruction: &Instruction) -> Option<u32>
    ensures { result ≡ aim instruction.now }
{
    match instruction {
        Instruction::JumpIf(_, label) => Some(*label),
        Instruction::Payload(_, _, _, label) => Some(*label),
        Instruction::Goto(label) => Some(*label),
        Instruction::Call(call) => Some(call.on_throw),
        _ => None,
    }
}

fn leads(code: &[Instruction], place: usize, label: u32) -> bool
    ensures { result ≡ lands_at code.now place (place_from label 0 code.now) }
{
    match label_place(code, label) {
        None => false,
        Some(found) => place < found || ticks(code.get(found + 1)),
    }
}

/// Whether an instruction's jump leads further on, or to a label directly before a tick.
pub fn leads_right(code: &[Instruction], place: usize, instruction: &Instruction) -> bool
    ensures { result ≡ lands code.now place (aim instruction.now) }
{
    match label_of(instruction) {
        None => true,
        Some(label) => leads(code, place, label),
    }
}

/// Whether a label is set at no place before this one.
pub fn first_here(code: &[Instruction], place: usize, instruction: &Instruction) -> bool
    ensures { result ≡ set_here code.now place instruction.now }
{
    match instruction {
        Instruction::Label(label) => match label_place(code, *label) {
            None => false,
            Some(found) => found == place,
        },
        _ => true,
    }
}

/// Whether it ends the function's run or goes elsewhere.
pub fn ends(instruction: Option<&Instruction>) -> bool
    ensures { result ≡ is_end (option_copied instruction.entry) }
{
    match instruction {
        Some(Instruction::End(_)) => true,
        Some(Instruction::Throw(_)) => true,
        Some(Instruction::Stop(_)) => true,
        Some(Instruction::Goto(_)) => true,
        Some(Instruction::NoMeasure) => true,
        _ => false,
    }
}
