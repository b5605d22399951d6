//! The check of a module.
ghost use Rattle.std.specs.Prelude.{◌≡◌, false, slice_get, length, ◌-◌, IfSome, IsTrue, MatchOption};
ghost use Rattle.jib.specs.Operands.{each};
ghost use Rattle.jib.specs.Valid.{before as before_of, typ_right, is_typ, all_typs, instruction_right, is_end, parameter_right, function_right};
ghost use Rattle.jib.specs.Valid.{register_right, opened_by, opening_right, valid};

use crate::checked::Checked;
use crate::code::{Function, Instruction, Module, Opening};
use crate::instructions::instruction_is_right;
use crate::labels::ends;
use crate::types::ValueType;
use crate::typing::{function_at, number_at, same};

fn before(number: usize, index: usize, typ: u32) -> bool
    ensures { result ≡ before_of number index typ }
{
    let _place: usize = index;
    (typ as usize) < number
}

#[tactic(auto, using(crate::proofs::EachLaws::eaches))]
fn all_before(number: usize, types: &[u32]) -> bool
    ensures { result ≡ each (before_of number) 0 types.now }
{
    for (index, typ) in types.iter().enumerate() {
        if !before(number, index, *typ) {
            return false;
        }
    }
    true
}

fn typ_is_right(number: usize, typ: &ValueType) -> bool
    ensures { result ≡ typ_right number typ.now }
{
    match typ {
        ValueType::Bits(width) => *width <= 128,
        ValueType::Enum(_, members) => 0 < *members,
        ValueType::Vector(length, item) => *length <= 4096 && (*item as usize) < number,
        ValueType::Tuple(parts) => all_before(number, parts.as_slice()),
        ValueType::Struct(_, fields) => all_before(number, fields.as_slice()),
        ValueType::Union(_, payloads) => {
            0 < payloads.len() && all_before(number, payloads.as_slice())
        }
        _ => true,
    }
}

/// Whether all types of a table are: their widths, their lengths, and the types inside them.
#[tactic(auto, using(crate::proofs::EachLaws::eaches))]
pub fn are_typs(types: &[ValueType]) -> bool
    ensures { result ≡ each typ_right 0 types.now }
{
    for (number, typ) in types.iter().enumerate() {
        if !typ_is_right(number, typ) {
            return false;
        }
    }
    true
}

fn has_typ(program: &Module, index: usize, typ: u32) -> bool
    ensures { result ≡ is_typ program.now index typ }
{
    let _place: usize = index;
    (typ as usize) < program.types.len()
}

#[tactic(auto, using(crate::proofs::EachLaws::eaches))]
fn has_typs(program: &Module, types: &[u32]) -> bool
    ensures { result ≡ all_typs program.now types.now }
{
    for (index, typ) in types.iter().enumerate() {
        if !has_typ(program, index, *typ) {
            return false;
        }
    }
    true
}

#[tactic(auto, using(crate::proofs::EachLaws::eaches))]
fn code_is_right(program: &Module, function: &Function, number: usize) -> bool
    ensures { result ≡ each (instruction_right program.now function.now number) 0 function.now.code }
{
    for (place, instruction) in function.code.as_slice().iter().enumerate() {
        if !instruction_is_right(program, function, number, place, instruction) {
            return false;
        }
    }
    true
}

fn parameter_is_right(slots: &[u32], index: usize, typ: u32) -> bool
    ensures { result ≡ parameter_right slots.now index typ }
{
    match slots.split_first() {
        None => false,
        Some((_, rest)) => same(rest.get(index).copied(), Some(typ)),
    }
}

#[tactic(auto, using(crate::proofs::EachLaws::eaches))]
fn parameters_are_right(slots: &[u32], parameters: &[u32]) -> bool
    ensures { result ≡ each (parameter_right slots.now) 0 parameters.now }
{
    for (index, typ) in parameters.iter().enumerate() {
        if !parameter_is_right(slots, index, *typ) {
            return false;
        }
    }
    true
}

fn last_ends(code: &[Instruction]) -> bool
    ensures { result ≡ is_end (slice_get code.now (length code.now - 1)) }
{
    if code.len() == 0 {
        return false;
    }
    ends(code.get(code.len() - 1))
}

fn function_is_right(program: &Module, number: usize, function: &Function) -> bool
    ensures { result ≡ function_right program.now number function.now }
{
    let slots = function.slots.as_slice();
    same(number_at(slots, 0), Some(program.exception))
        && parameters_are_right(slots, function.parameters.as_slice())
        && has_typs(program, slots)
        && has_typ(program, 0, function.result)
        && last_ends(function.code.as_slice())
        && code_is_right(program, function, number)
}

#[tactic(auto, using(crate::proofs::EachLaws::eaches))]
fn functions_are_right(program: &Module) -> bool
    ensures { result ≡ each (function_right program.now) 0 program.now.functions }
{
    for (number, function) in program.functions.as_slice().iter().enumerate() {
        if !function_is_right(program, number, function) {
            return false;
        }
    }
    true
}

fn register_is_right(program: &Module, typ: u32, register: Option<u32>) -> bool
    ensures { result ≡ register_right program.now typ register }
{
    match register {
        None => true,
        Some(index) => same(number_at(program.registers.as_slice(), index), Some(typ)),
    }
}

fn opening_is_right(program: &Module, number: usize, opening: Opening) -> bool
    ensures { result ≡ opening_right program.now number opening }
{
    match function_at(program, opening.function) {
        None => false,
        Some(found) => found.parameters.len() == 0
            && found.is_pure
            && (found.lets as usize) <= number
            && register_is_right(program, found.result, opening.register),
    }
}

#[tactic(auto, using(crate::proofs::EachLaws::eaches))]
fn openings_are_right(program: &Module) -> bool
    ensures { result ≡ each (opening_right program.now) 0 program.now.openings }
{
    for (number, opening) in program.openings.as_slice().iter().enumerate() {
        if !opening_is_right(program, number, *opening) {
            return false;
        }
    }
    true
}

/// The module, where each of its rules is kept; none where one is broken.
pub fn validate(program: Module) -> Option<Checked>
    ensures same { MatchOption result (valid program ≡ false) (λ checked. checked.program ≡ program) }
    ensures kept { IfSome result (λ checked. IsTrue (valid checked.program)) }
{
    if are_typs(program.types.as_slice())
        && has_typ(&program, 0, program.exception)
        && has_typs(&program, program.registers.as_slice())
        && functions_are_right(&program)
        && openings_are_right(&program)
    {
        Some(Checked { program })
    } else {
        None
    }
}
