//! The text of the model. Each call that can fail does so where memory is wanting.
ghost use Rattle.std.specs.Prelude.{◌≡◌, ◌<◌, ◌≤◌, ◌*◌, ◌++◌, IfOk, OnOk, length};
ghost use Rattle.sail_gen.specs.Draws.{state_after};
ghost use Rattle.sail_gen.specs.Model as spec;

use crate::draws::Draws;
use sail_base::{dec_text, hex_text};
use std::alloc::{AllocError, Global};

/// The operators that a function may have, by number.
const OPERATORS: [u8; 4] = *b"+^&|";

/// The text of the model of so many functions, whose operators and constants are drawn. It is no longer than a model's file may be.
pub fn model_text(alloc: Global, draws: &mut Draws, size: u32) -> Result<Vec<u8>, AllocError>
    requires state { draws.old.state < 65537 }
    requires size { size ≤ 4000 }
    ensures text { IfOk result (λ text. text.items ≡ spec.model_text draws.old.state size) }
    ensures short { IfOk result (λ text. length text.items ≤ 4194304) }
    ensures state { OnOk result (draws.new.state ≡ state_after draws.old.state (2 * size)) }
    ensures below { OnOk result (draws.new.state < 65537) }
{
    let text = written(alloc, draws, size)?;
    Ok(text)
}

/// The same text, of whatever length.
fn written(alloc: Global, draws: &mut Draws, size: u32) -> Result<Vec<u8>, AllocError>
    requires state { draws.old.state < 65537 }
    requires size { size ≤ 4000 }
    ensures text { IfOk result (λ text. text.items ≡ spec.model_text draws.old.state size) }
    ensures state { OnOk result (draws.new.state ≡ state_after draws.old.state (2 * size)) }
    ensures below { OnOk result (draws.new.state < 65537) }
{
    let mut out = Vec::from_slice(alloc, b"register PC : bits(64)\nregister A : bits(8)\n")?;
    push_functions(alloc, &mut out, draws, size)?;
    out.extend_from_slice(b"val reset : (range(0, 7), bits(64)) -> unit\n")?;
    out.extend_from_slice(b"function reset(h, e) = { PC = e }\nval step : unit -> bool\n")?;
    out.extend_from_slice(b"function step() = { match mem_read(2, PC) { ")?;
    push_cases(alloc, &mut out, size)?;
    out.extend_from_slice(b"_ => return false }; PC = PC + 2; true }\n")?;
    Ok(out)
}

/// Puts the functions of the numbers from 0 on, whose operators and constants are drawn in turn.
fn push_functions(
    alloc: Global,
    out: &mut Vec<u8>,
    draws: &mut Draws,
    size: u32,
) -> Result<(), AllocError>
    requires state { draws.old.state < 65537 }
    requires size { size ≤ 4000 }
    ensures text { OnOk result (out.new.items ≡ out.old.items ++ spec.functions_text draws.old.state size) }
    ensures state { OnOk result (draws.new.state ≡ state_after draws.old.state (2 * size)) }
    ensures below { OnOk result (draws.new.state < 65537) }
{
    for number in 0..size {
        let operator = draws.draw(4);
        let constant = draws.draw(256);
        push_function(alloc, out, number, operator, constant as u8)?;
    }
    Ok(())
}

/// Puts the function of a number, of an operator by its number and a constant.
fn push_function(
    alloc: Global,
    out: &mut Vec<u8>,
    number: u32,
    operator: u32,
    constant: u8,
) -> Result<(), AllocError>
    requires { operator < 4 }
    ensures { OnOk result (out.new.items ≡ out.old.items ++ spec.function_text number operator constant) }
{
    push_signature(alloc, out, number)?;
    push_body(alloc, out, number, operator, constant)
}

/// Puts the signature of the function of a number.
fn push_signature(alloc: Global, out: &mut Vec<u8>, number: u32) -> Result<(), AllocError>
    ensures { OnOk result (out.new.items ≡ out.old.items ++ spec.signature_text number) }
{
    out.extend_from_slice(b"val ")?;
    push_name(alloc, out, number)?;
    out.extend_from_slice(b" : bits(8) -> bits(8)\n")
}

/// Puts the body of the function of a number, of an operator by its number and a constant.
fn push_body(
    alloc: Global,
    out: &mut Vec<u8>,
    number: u32,
    operator: u32,
    constant: u8,
) -> Result<(), AllocError>
    requires { operator < 4 }
    ensures { OnOk result (out.new.items ≡ out.old.items ++ spec.body_text number operator constant) }
{
    let digits = hex_text(alloc, &[constant])?;
    out.extend_from_slice(b"function ")?;
    push_name(alloc, out, number)?;
    out.extend_from_slice(b"(x) = x ")?;
    out.push(OPERATORS[operator as usize])?;
    out.extend_from_slice(b" 0x")?;
    out.extend_from_slice(digits.as_bytes())?;
    out.extend_from_slice(b"\n")
}

/// Puts the cases of the numbers from 0 on.
fn push_cases(alloc: Global, out: &mut Vec<u8>, size: u32) -> Result<(), AllocError>
    requires { size ≤ 4000 }
    ensures { OnOk result (out.new.items ≡ out.old.items ++ spec.cases_text size) }
{
    for number in 0..size {
        push_case(alloc, out, number as u16)?;
    }
    Ok(())
}

/// Puts the case of a number.
fn push_case(alloc: Global, out: &mut Vec<u8>, number: u16) -> Result<(), AllocError>
    ensures { OnOk result (out.new.items ≡ out.old.items ++ spec.case_text number) }
{
    let digits = hex_text(alloc, &number.to_be_bytes())?;
    out.extend_from_slice(b"0x")?;
    out.extend_from_slice(digits.as_bytes())?;
    out.extend_from_slice(b" => { A = ")?;
    push_name(alloc, out, u32::from(number))?;
    out.extend_from_slice(b"(A) }, ")
}

/// Puts the name of the function of a number.
fn push_name(alloc: Global, out: &mut Vec<u8>, number: u32) -> Result<(), AllocError>
    ensures { OnOk result (out.new.items ≡ out.old.items ++ spec.function_name number) }
{
    let digits = dec_text(alloc, i128::from(number))?;
    out.extend_from_slice(b"f")?;
    out.extend_from_slice(digits.as_bytes())
}
