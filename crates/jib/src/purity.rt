//! Functions that work out a value without the state.
ghost use Rattle.std.specs.Prelude.{◌≡◌};
ghost use Rattle.std.specs.Option.{option_copied};
ghost use Rattle.jib.specs.declared.code.Instruction.TheVariants as I;
ghost use Rattle.jib.specs.Valid.{is_quiet, all_quiet, is_slot, is_stateless, is_pure_function, is_pure_instruction, keeps_pure};

use crate::code::{Call, Function, Instruction, Module, Operation, Source, Target};
use crate::sorts::has_state;
use crate::typing::function_at;

fn quiet(source: &Source) -> bool
    ensures { result ≡ is_quiet 0 source.now }
{
    match source {
        Source::Register(_) => false,
        _ => true,
    }
}

fn quiet_at(index: usize, source: &Source) -> bool
    ensures { result ≡ is_quiet index source.now }
{
    let _place: usize = index;
    match source {
        Source::Register(_) => false,
        _ => true,
    }
}

#[tactic(auto, using(crate::proofs::EachLaws::eaches))]
fn each_quiet(sources: &[Source]) -> bool
    ensures { result ≡ all_quiet sources.now }
{
    for (index, source) in sources.iter().enumerate() {
        if !quiet_at(index, source) {
            return false;
        }
    }
    true
}

fn slotted(target: Target) -> bool
    ensures { result ≡ is_slot target }
{
    match target {
        Target::Slot(_) => true,
        Target::Register(_) => false,
    }
}

fn stateless(operation: Operation) -> bool
    ensures { result ≡ is_stateless operation }
{
    match operation {
        Operation::Builtin(row) => !has_state(row),
        _ => true,
    }
}

fn pure_function(function: Option<&Function>) -> bool
    ensures { result ≡ is_pure_function (option_copied function.entry) }
{
    match function {
        None => false,
        Some(function) => function.is_pure,
    }
}

fn pure_call(program: &Module, call: &Call) -> bool
    ensures { result ≡ is_pure_instruction program.now (I.Call call.now) }
{
    pure_function(function_at(program, call.function)) && each_quiet(call.arguments.as_slice())
}

fn pure_instruction(program: &Module, instruction: &Instruction) -> bool
    ensures { result ≡ is_pure_instruction program.now instruction.now }
{
    match instruction {
        Instruction::Copy(target, source) => slotted(*target) && quiet(source),
        Instruction::Apply(target, operation, sources) => {
            slotted(*target) && stateless(*operation) && each_quiet(sources.as_slice())
        }
        Instruction::Call(call) => pure_call(program, call),
        Instruction::JumpIf(source, _) => quiet(source),
        Instruction::Payload(_, source, _, _) => quiet(source),
        Instruction::End(source) => quiet(source),
        Instruction::Throw(source) => quiet(source),
        Instruction::Measure(source) => quiet(source),
        Instruction::Tick => false,
        _ => true,
    }
}

/// Whether an instruction may stand in a function: a pure one has pure instructions alone.
pub fn pure_kept(program: &Module, function: &Function, instruction: &Instruction) -> bool
    ensures { result ≡ keeps_pure program.now function.now instruction.now }
{
    !function.is_pure || pure_instruction(program, instruction)
}
