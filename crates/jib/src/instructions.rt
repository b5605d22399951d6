//! Whether an instruction uses slots, registers, openings and constants at their types.
ghost use Rattle.std.specs.Prelude.{◌≡◌, slice_get};
ghost use Rattle.jib.specs.Valid.{call_right, is_cause, typed, instruction_right};

use crate::code::{Call, Function, Instruction, Module};
use crate::labels::{first_here, leads_right, ticks};
use crate::operands::{operation_right, sources_given, sources_there};
use crate::purity::pure_kept;
use crate::types::Sort;
use crate::typing::{function_at, is_sort, number_at, payload_typ, same, typ_from, typ_to};
use model_state::Cause;

fn call_is_right(program: &Module, function: &Function, number: usize, call: &Call) -> bool
    ensures { result ≡ call_right program.now function.now number call.now (slice_get program.now.functions call.now.function) }
{
    match function_at(program, call.function) {
        None => false,
        Some(found) => {
            let ticking = ticks(found.code.as_slice().get(0)) || (call.function as usize) < number;
            sources_given(
                program,
                function,
                found.parameters.as_slice(),
                call.arguments.as_slice(),
            ) && same(
                number_at(function.slots.as_slice(), call.slot),
                Some(found.result),
            ) && found.cycle <= function.cycle
                && found.lets <= function.lets
                && ticking
        }
    }
}

fn cause_right(cause: &Cause) -> bool
    ensures { result ≡ is_cause cause.now }
{
    match cause {
        Cause::StepsDone => false,
        _ => true,
    }
}

fn is_typed(program: &Module, function: &Function, number: usize, instruction: &Instruction) -> bool
    ensures { result ≡ typed program.now function.now number instruction.now }
{
    match instruction {
        Instruction::Copy(target, source) => same(
            typ_from(program, function, source),
            typ_to(program, function, *target),
        ),
        Instruction::Apply(target, operation, sources) => {
            let typ = typ_to(program, function, *target);
            typ.is_some()
                && sources_there(program, function, sources.as_slice())
                && operation_right(program, function, *operation, sources.as_slice(), typ)
        }
        Instruction::Call(call) => call_is_right(program, function, number, call),
        Instruction::JumpIf(source, _) => {
            is_sort(program, typ_from(program, function, source), Sort::Truth)
        }
        Instruction::Payload(slot, source, constructor, _) => same(
            number_at(function.slots.as_slice(), *slot),
            payload_typ(program, typ_from(program, function, source), *constructor),
        ),
        Instruction::End(source) => {
            same(typ_from(program, function, source), Some(function.result))
        }
        Instruction::Throw(source) => {
            same(typ_from(program, function, source), Some(program.exception))
        }
        Instruction::Stop(cause) => cause_right(cause),
        Instruction::Measure(source) => {
            is_sort(program, typ_from(program, function, source), Sort::Integer)
        }
        _ => true,
    }
}

/// Whether an instruction keeps its rules at its place in the function of this number.
pub fn instruction_is_right(
    program: &Module,
    function: &Function,
    number: usize,
    place: usize,
    instruction: &Instruction,
) -> bool
    ensures { result ≡ instruction_right program.now function.now number place instruction.now }
{
    let code = function.code.as_slice();
    is_typed(program, function, number, instruction)
        && leads_right(code, place, instruction)
        && first_here(code, place, instruction)
        && pure_kept(program, function, instruction)
}
