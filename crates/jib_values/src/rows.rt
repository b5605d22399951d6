//! The builtins of the state, by their values.
ghost use Rattle.std.specs.Prelude.{◌≡◌, ◌∷◌, ◌≤◌, [], false, true, IfOk};
ghost use Rattle.sail_types.specs.declared.values.Value.TheVariants as V;
ghost use Rattle.sail_types.specs.declared.rows.Row.TheVariants as W;
ghost use Rattle.model_state.specs.StateRows.{state_row as state_row_of, read_result};
ghost use Rattle.model_state.specs.laws.Results.{ended_with};
ghost use Rattle.jib_values.specs.Results.{MadeIs, made_ended, is_made, byte_width};

use crate::results::Made;
use mem_store::Memory;
use model_state::{RowError, State};
use sail_base::{Text, Word};
use sail_types::{Row, Value};
use std::alloc::AllocError;

/// What a builtin of the state comes to with these values; nothing where its condition fails or it is none of the state.
pub fn state_row<M: Memory>(
    state: &mut State<M>,
    hart: u8,
    row: Row,
    values: &[Value],
) -> Result<Made, AllocError>
    ensures { IfOk result (λ made. MadeIs (state_row_of row hart state.old values.now) made state.old state.new) }
{
    match row {
        Row::MemRead => match values {
            [Value::Integer(w), Value::Bits(a)] => read(state, hart, w, *a),
            _ => Ok(Made::Nothing),
        },
        Row::MemReserve => match values {
            [Value::Integer(w), Value::Bits(a)] => reserve(state, hart, w, *a),
            _ => Ok(Made::Nothing),
        },
        Row::MemWrite => match values {
            [Value::Integer(w), Value::Bits(a), Value::Bits(v)] => write(state, hart, w, *a, *v),
            _ => Ok(Made::Nothing),
        },
        Row::MemWriteCond => match values {
            [Value::Integer(w), Value::Bits(a), Value::Bits(v)] => {
                write_cond(state, hart, w, *a, *v)
            }
            _ => Ok(Made::Nothing),
        },
        Row::MemMapped => match values {
            [Value::Integer(w), Value::Bits(a)] => Ok(mapped(state, hart, w, *a)),
            _ => Ok(Made::Nothing),
        },
        Row::Print => match values {
            [Value::String(text)] => print(state, hart, text),
            _ => Ok(Made::Nothing),
        },
        Row::PrintEndline => match values {
            [Value::String(text)] => print_endline(state, hart, text),
            _ => Ok(Made::Nothing),
        },
        Row::ConsolePut => match values {
            [Value::Bits(b)] => console_put(state, hart, *b),
            _ => Ok(Made::Nothing),
        },
        _ => Ok(Made::Nothing),
    }
}

/// The width in bytes that an integer is, from 1 to 16; 0 where it is none.
fn width_of(w: &i128) -> u8
    ensures width { result ≡ byte_width w.now }
    ensures most { result ≤ 16 }
{
    if 1 <= *w && *w <= 16 { *w as u8 } else { 0 }
}

/// What a builtin that gives a word comes to.
fn word_made(given: Result<Word, RowError>) -> Result<Made, AllocError>
    ensures { IfOk result (λ made. made_ended made ≡ ended_with V.Bits given) }
{
    match given {
        Ok(word) => Ok(Made::Result(Value::Bits(word))),
        Err(error) => Ok(Made::Stop(error.into_stop()?)),
    }
}

/// What a builtin that gives a truth comes to.
fn truth_made(given: Result<bool, RowError>) -> Result<Made, AllocError>
    ensures { IfOk result (λ made. made_ended made ≡ ended_with V.Truth given) }
{
    match given {
        Ok(truth) => Ok(Made::Result(Value::Truth(truth))),
        Err(error) => Ok(Made::Stop(error.into_stop()?)),
    }
}

/// What a builtin that gives nothing comes to.
fn unit_made(given: Result<(), RowError>) -> Result<Made, AllocError>
    ensures ended { IfOk result (λ made. made_ended made ≡ ended_with (λ done. V.Unit) given) }
    ensures there { IfOk result (λ made. is_made made ≡ true) }
{
    match given {
        Ok(()) => Ok(Made::Result(Value::Unit)),
        Err(error) => Ok(Made::Stop(error.into_stop()?)),
    }
}

fn read<M: Memory>(state: &State<M>, hart: u8, w: &i128, a: Word) -> Result<Made, AllocError>
    ensures { IfOk result (λ made. MadeIs (state_row_of W.MemRead hart state.now (V.Integer w.now ∷ V.Bits a ∷ [])) made state.now state.now) }
{
    let width = width_of(w);
    if width == 0 || a.width() != 64 {
        return Ok(Made::Nothing);
    }
    let _hart: u8 = hart;
    word_made(state.mem_read(width, a.bits() as u64))
}

/// A hart that isn't there reads and reserves nothing.
fn reserve<M: Memory>(state: &mut State<M>, hart: u8, w: &i128, a: Word) -> Result<Made, AllocError>
    ensures { IfOk result (λ made. MadeIs (state_row_of W.MemReserve hart state.old (V.Integer w.now ∷ V.Bits a ∷ [])) made state.old state.new) }
{
    let width = width_of(w);
    if width == 0 || a.width() != 64 {
        return Ok(Made::Nothing);
    }
    if hart < state.harts() {
        word_made(state.mem_reserve(hart, width, a.bits() as u64))
    } else {
        let made = word_made(state.mem_read(width, a.bits() as u64))?;
        Ok(made)
    }
}

fn write<M: Memory>(
    state: &mut State<M>,
    hart: u8,
    w: &i128,
    a: Word,
    v: Word,
) -> Result<Made, AllocError>
    ensures { IfOk result (λ made. MadeIs (state_row_of W.MemWrite hart state.old (V.Integer w.now ∷ V.Bits a ∷ V.Bits v ∷ [])) made state.old state.new) }
{
    let width = width_of(w);
    if width == 0 || a.width() != 64 || v.width() != 8 * width {
        return Ok(Made::Nothing);
    }
    unit_made(state.mem_write(hart, width, a.bits() as u64, v))
}

/// A hart that isn't there has reserved nothing, so it writes nothing.
fn write_cond<M: Memory>(
    state: &mut State<M>,
    hart: u8,
    w: &i128,
    a: Word,
    v: Word,
) -> Result<Made, AllocError>
    ensures { IfOk result (λ made. MadeIs (state_row_of W.MemWriteCond hart state.old (V.Integer w.now ∷ V.Bits a ∷ V.Bits v ∷ [])) made state.old state.new) }
{
    let width = width_of(w);
    if width == 0 || a.width() != 64 || v.width() != 8 * width {
        return Ok(Made::Nothing);
    }
    if hart < state.harts() {
        truth_made(state.mem_write_cond(hart, width, a.bits() as u64, v))
    } else {
        let made = not_there(state, width, a.bits() as u64)?;
        Ok(made)
    }
}

/// What a conditional write of a hart that isn't there comes to.
fn not_there<M: Memory>(state: &State<M>, width: u8, address: u64) -> Result<Made, AllocError>
    requires some { 1 ≤ width }
    requires most { width ≤ 16 }
    ensures { IfOk result (λ made. made_ended made ≡ ended_with (λ word. V.Truth false) (read_result state.now width address)) }
{
    match state.mem_read(width, address) {
        Ok(_) => Ok(Made::Result(Value::Truth(false))),
        Err(error) => Ok(Made::Stop(error.into_stop()?)),
    }
}

fn mapped<M: Memory>(state: &State<M>, hart: u8, w: &i128, a: Word) -> Made
    ensures { MadeIs (state_row_of W.MemMapped hart state.now (V.Integer w.now ∷ V.Bits a ∷ [])) result state.now state.now }
{
    let width = width_of(w);
    let _hart: u8 = hart;
    if width == 0 || a.width() != 64 {
        return Made::Nothing;
    }
    Made::Result(Value::Truth(state.mem_mapped(width, a.bits() as u64)))
}

fn print<M: Memory>(state: &mut State<M>, hart: u8, text: &Text) -> Result<Made, AllocError>
    ensures { IfOk result (λ made. MadeIs (state_row_of W.Print hart state.old (V.String text.now ∷ [])) made state.old state.new) }
{
    let _hart: u8 = hart;
    let made = unit_made(state.print(text.as_bytes()))?;
    Ok(made)
}

fn print_endline<M: Memory>(state: &mut State<M>, hart: u8, text: &Text) -> Result<Made, AllocError>
    ensures { IfOk result (λ made. MadeIs (state_row_of W.PrintEndline hart state.old (V.String text.now ∷ [])) made state.old state.new) }
{
    let _hart: u8 = hart;
    let made = unit_made(state.print_endline(text.as_bytes()))?;
    Ok(made)
}

fn console_put<M: Memory>(state: &mut State<M>, hart: u8, b: Word) -> Result<Made, AllocError>
    ensures { IfOk result (λ made. MadeIs (state_row_of W.ConsolePut hart state.old (V.Bits b ∷ [])) made state.old state.new) }
{
    let _hart: u8 = hart;
    if b.width() != 8 {
        return Ok(Made::Nothing);
    }
    let made = unit_made(state.console_put(b))?;
    Ok(made)
}
