//! The report of a run, and RAM as it was placed.
ghost use Rattle.std.specs.Prelude.{◌≡◌, ◌+◌, ◌-◌, ◌≤◌, ◌++◌, ◌^◌, length, slice_get, Some, OnOk, IfOk};
ghost use Rattle.mem_store.specs.Bytes.{IsMapped};
ghost use Rattle.model_state.specs.Report.{report_text, cause_text, place_text, number_text, string_text, head_text};
ghost use Rattle.model_state.specs.Report.{stop_line, count_line, address_text, bytes_text, register_text};
ghost use Rattle.model_state.specs.Report.{registers_text, hart_text, harts_text, byte_at, same_byte, byte_text};
ghost use Rattle.model_state.specs.Report.{is_changed, row_text, memory_text};

use super::{Hart, Register, State};
use crate::cause::Cause;
use mem_store::Memory;
use sail_base::{Place, Text, Word};
use sail_types::{Types, Value, push_bits, push_integer, push_value};
use std::alloc::{AllocError, Global};
use std::marker::Model;

/// RAM as it stood once the image was placed.
#[derive(Debug, Drop)]
pub struct Start {
    base: u64,
    bytes: Vec<u8>,
}

impl Model for Start {
    ghost use Rattle.model_state.specs.RunState.{Placed};

    ghost Value = { Placed };

    ghost view = { λ start. record { base = start.base; bytes = start.bytes.items } };
}

impl Start {
    /// The bytes of a memory as they stand. The one error is want of memory.
    pub fn of<M: Memory>(alloc: Global, memory: &M) -> Result<Start, AllocError>
        ensures base { IfOk result (λ start. start.base ≡ M.base memory.now) }
        ensures bytes { IfOk result (λ start. start.bytes ≡ M.bytes memory.now) }
    {
        let base = memory.base();
        let bytes = bytes_of(alloc, memory)?;
        Ok(Start { base, bytes })
    }

    /// The byte at an address; none outside RAM.
    fn byte(&self, at: u64) -> Option<u8>
        ensures { result ≡ byte_at self.now.base self.now.bytes at }
    {
        if at < self.base {
            return None;
        }
        self.bytes.get((at - self.base) as usize).copied()
    }
}

/// The bytes of a memory, in order. The one error is want of memory.
fn bytes_of<M: Memory>(alloc: Global, memory: &M) -> Result<Vec<u8>, AllocError>
    ensures { IfOk result (λ bytes. bytes.items ≡ M.bytes memory.now) }
{
    let mut bytes = Vec::new(alloc);
    let (base, size) = (memory.base(), memory.size());
    for i in 0..size {
        bytes.push(byte_in(memory, base + i))?;
    }
    Ok(bytes)
}

/// The byte at an address that is there.
fn byte_in<M: Memory>(memory: &M, at: u64) -> u8
    requires { IsMapped (M.base memory.now) (length (M.bytes memory.now)) 1 at }
    ensures { slice_get (M.bytes memory.now) (at - M.base memory.now) ≡ Some result }
{
    memory.read(1, at).bits() as u8
}

/// The byte at an address of a memory; none outside it.
fn byte_of<M: Memory>(memory: &M, at: u64) -> Option<u8>
    ensures { result ≡ byte_at (M.base memory.now) (M.bytes memory.now) at }
{
    if memory.mapped(1, at) {
        Some(byte_in(memory, at))
    } else {
        None
    }
}

/// The report of a run that stopped for a cause, after so many steps: the console's bytes, the cause and the
/// counts, the registers of each hart, and each row of sixteen bytes of RAM that isn't as it was once the image was
/// placed.
///
/// The one error is want of memory.
#[tactic(auto, using(std::proofs::Common::append_assoc))]
pub fn report<M: Memory>(
    alloc: Global,
    state: &State<M>,
    start: &Start,
    cause: &Cause,
    steps: u32,
) -> Result<Vec<u8>, AllocError>
    requires base { start.now.base ≡ state.now.base }
    requires size { length start.now.bytes ≡ length state.now.bytes }
    ensures { IfOk result (λ text. text.items ≡ report_text state.now start.now.bytes cause.now steps) }
{
    let mut out = Vec::new(alloc);
    out.extend_from_slice(state.console.as_slice())?;
    push_head(&mut out, cause, steps, state.console.len())?;
    push_harts(&mut out, state)?;
    push_memory(&mut out, &state.memory, start)?;
    out.extend_from_slice(b"== end\n")?;
    Ok(out)
}

/// The lines on the cause and the counts.
#[tactic(auto, using(std::proofs::Common::append_assoc))]
fn push_head(out: &mut Vec<u8>, cause: &Cause, steps: u32, console: usize) -> Result<(), AllocError>
    ensures { OnOk result (out.new.items ≡ out.old.items ++ head_text cause.now steps console) }
{
    out.extend_from_slice(b"== report\n")?;
    push_stop(out, cause)?;
    push_count(out, b"steps ", steps as usize)?;
    push_count(out, b"console ", console)
}

fn push_stop(out: &mut Vec<u8>, cause: &Cause) -> Result<(), AllocError>
    ensures { OnOk result (out.new.items ≡ out.old.items ++ stop_line cause.now) }
{
    out.extend_from_slice(b"stop ")?;
    push_cause(out, cause)?;
    out.extend_from_slice(b"\n")
}

fn push_count(out: &mut Vec<u8>, name: &[u8], n: usize) -> Result<(), AllocError>
    ensures { OnOk result (out.new.items ≡ out.old.items ++ count_line name.now n) }
{
    out.extend_from_slice(name)?;
    push_integer(out, n as i128)?;
    out.extend_from_slice(b"\n")
}

fn push_cause(out: &mut Vec<u8>, cause: &Cause) -> Result<(), AllocError>
    ensures { OnOk result (out.new.items ≡ out.old.items ++ cause_text cause.now) }
{
    match cause {
        Cause::StepsDone => out.extend_from_slice(b"steps-done"),
        Cause::AllRest => out.extend_from_slice(b"all-rest"),
        Cause::Exit(place) => push_at(out, b"exit ", *place),
        Cause::MatchFailure(place) => push_at(out, b"match-failure ", *place),
        Cause::Assertion(place, text) => {
            push_at(out, b"assertion ", *place)?;
            push_string(out, text)
        }
        Cause::Exception(name) => {
            out.extend_from_slice(b"exception ")?;
            out.extend_from_slice(name.as_bytes())
        }
        Cause::Measure(place) => push_at(out, b"measure ", *place),
        Cause::WorkLimit => out.extend_from_slice(b"work-limit"),
        Cause::BadAddress(a) => {
            out.extend_from_slice(b"bad-address ")?;
            push_address(out, *a)
        }
        Cause::ConsoleFull => out.extend_from_slice(b"console-full"),
    }
}

/// A word and a place as file, line and column.
fn push_at(out: &mut Vec<u8>, word: &[u8], place: Place) -> Result<(), AllocError>
    ensures { OnOk result (out.new.items ≡ out.old.items ++ (word.now ++ place_text place)) }
{
    out.extend_from_slice(word)?;
    push_integer(out, place.file as i128)?;
    out.extend_from_slice(b":")?;
    push_integer(out, place.line as i128)?;
    out.extend_from_slice(b":")?;
    push_integer(out, place.column as i128)
}

/// An assertion's string behind a space; nothing where it has none.
fn push_string(out: &mut Vec<u8>, text: &Option<Text>) -> Result<(), AllocError>
    ensures { OnOk result (out.new.items ≡ out.old.items ++ string_text text.now) }
{
    match text {
        None => Ok(()),
        Some(text) => {
            out.extend_from_slice(b" \"")?;
            out.extend_from_slice(text.as_bytes())?;
            out.extend_from_slice(b"\"")
        }
    }
}

/// The registers of each hart.
fn push_harts<M: Memory>(out: &mut Vec<u8>, state: &State<M>) -> Result<(), AllocError>
    ensures { OnOk result (out.new.items ≡ out.old.items ++ harts_text state.now) }
{
    let registers = state.registers.as_slice();
    for number in 0..state.harts.len() {
        let hart = &state.harts[number];
        push_hart(out, &state.types, registers, number, hart)?;
    }
    Ok(())
}

#[tactic(auto, using(std::proofs::Common::append_assoc))]
fn push_hart(
    out: &mut Vec<u8>,
    types: &Types,
    registers: &[Register],
    number: usize,
    hart: &Hart,
) -> Result<(), AllocError>
    ensures { OnOk result (out.new.items ≡ out.old.items ++ hart_text types.now registers.now number hart.now) }
{
    out.extend_from_slice(b"hart ")?;
    push_integer(out, number as i128)?;
    out.extend_from_slice(b"\n")?;
    push_registers(out, types, registers, hart.registers.as_slice())
}

fn push_registers(
    out: &mut Vec<u8>,
    types: &Types,
    registers: &[Register],
    values: &[Value],
) -> Result<(), AllocError>
    ensures { OnOk result (out.new.items ≡ out.old.items ++ registers_text types.now registers.now values.now) }
{
    let mut index = 0;
    for register in registers {
        let Some(value) = values.get(index) else {
            return Ok(());
        };
        push_register(out, types, register, value)?;
        index += 1;
    }
    Ok(())
}

fn push_register(
    out: &mut Vec<u8>,
    types: &Types,
    register: &Register,
    value: &Value,
) -> Result<(), AllocError>
    ensures { OnOk result (out.new.items ≡ out.old.items ++ register_text types.now register.now value.now) }
{
    out.extend_from_slice(register.name.as_bytes())?;
    out.extend_from_slice(b" = ")?;
    push_value(out, types, value)?;
    out.extend_from_slice(b"\n")
}

/// Each row of memory that isn't as it was placed.
fn push_memory<M: Memory>(out: &mut Vec<u8>, memory: &M, start: &Start) -> Result<(), AllocError>
    requires base { start.now.base ≡ M.base memory.now }
    ensures { OnOk result (out.new.items ≡ out.old.items ++ memory_text (M.base memory.now) start.now.bytes (M.bytes memory.now)) }
{
    let (base, size) = (memory.base(), memory.size());
    let first = base / 16;
    let end = ((base as u128 + size as u128 + 15) / 16) as u64;
    for row in first..end {
        let at = 16 * row;
        if is_changed_row(memory, start, at) {
            push_row(out, memory, at)?;
        }
    }
    Ok(())
}

/// Whether a byte of the sixteen from an address on isn't as it was placed.
fn is_changed_row<M: Memory>(memory: &M, start: &Start, row: u64) -> bool
    requires base { start.now.base ≡ M.base memory.now }
    requires end { row + 16 ≤ 2 ^ 64 }
    ensures { result ≡ is_changed (M.base memory.now) start.now.bytes (M.bytes memory.now) row }
{
    for k in 0..16 {
        if !is_same(byte_of(memory, row + k), start.byte(row + k)) {
            return true;
        }
    }
    false
}

/// Whether two bytes are one, or neither is there.
fn is_same(a: Option<u8>, b: Option<u8>) -> bool
    ensures { result ≡ same_byte a b }
{
    match (a, b) {
        (Some(a), Some(b)) => a == b,
        (None, None) => true,
        _ => false,
    }
}

/// A row: its address and its sixteen bytes, `--` for those outside RAM.
#[tactic(auto, using(std::proofs::Common::append_assoc))]
fn push_row<M: Memory>(out: &mut Vec<u8>, memory: &M, row: u64) -> Result<(), AllocError>
    requires { row + 16 ≤ 2 ^ 64 }
    ensures { OnOk result (out.new.items ≡ out.old.items ++ row_text (M.base memory.now) (M.bytes memory.now) row) }
{
    out.extend_from_slice(b"mem ")?;
    push_address(out, row)?;
    out.extend_from_slice(b" ")?;
    push_bytes(out, memory, row)?;
    out.extend_from_slice(b"\n")
}

/// An address as 16 digits behind `0x`.
#[tactic(auto, unfolding(crate::specs::Report::address_text))]
fn push_address(out: &mut Vec<u8>, a: u64) -> Result<(), AllocError>
    ensures { OnOk result (out.new.items ≡ out.old.items ++ address_text a) }
{
    push_bits(out, Word::new(64, a as u128))
}

/// The sixteen bytes of a row.
fn push_bytes<M: Memory>(out: &mut Vec<u8>, memory: &M, row: u64) -> Result<(), AllocError>
    requires { row + 16 ≤ 2 ^ 64 }
    ensures { OnOk result (out.new.items ≡ out.old.items ++ bytes_text (M.base memory.now) (M.bytes memory.now) row) }
{
    for k in 0..16 {
        push_byte(out, byte_of(memory, row + k))?;
    }
    Ok(())
}

/// The two digits of a byte, and `--` for none.
fn push_byte(out: &mut Vec<u8>, byte: Option<u8>) -> Result<(), AllocError>
    ensures { OnOk result (out.new.items ≡ out.old.items ++ byte_text byte) }
{
    match byte {
        None => out.extend_from_slice(b"--"),
        Some(byte) => {
            let mut digits = [0u8; 2];
            let _ = hex::encode_to_slice([byte], &mut digits);
            out.extend_from_slice(&digits)
        }
    }
}
