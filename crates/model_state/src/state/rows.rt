//! The builtins that read or write the state.
ghost use Rattle.std.specs.Prelude.{◌≡◌, ◌+◌, ◌*◌, ◌<◌, ◌≤◌, ◌++◌, [], ◌∷◌, length, map};
ghost use Rattle.sail_base.specs.Bits.{value_of};
ghost use Rattle.model_state.specs.StateRows.{reservation, touches, covers, after_write, with_reservation, is_there};
ghost use Rattle.model_state.specs.StateRows.{read_result, reserve_state, write_result, write_state};
ghost use Rattle.model_state.specs.StateRows.{write_cond_result, write_cond_state, Puts};

use super::{Hart, Reservation, State};
use crate::cause::{Cause, RowError};
use mem_store::Memory;
use sail_base::Word;

/// How many bytes the console takes.
const CONSOLE: usize = 1_048_576;

impl<M: Memory> State<M> {
    /// `mem_read`: the word of `w` bytes, from 1 to 16, at address `a`.
    ///
    /// It stops with `BadAddress` where these bytes aren't all in RAM; there is no other error.
    pub fn mem_read(&self, w: u8, a: u64) -> Result<Word, RowError>
        requires some { 1 ≤ w }
        requires most { w ≤ 16 }
        ensures { result ≡ read_result self.now w a }
    {
        if !self.memory.mapped(w, a) {
            return Err(RowError::Stop(Cause::BadAddress(a)));
        }
        Ok(self.memory.read(w, a))
    }

    /// `mem_reserve`: a read, and from then on these bytes are the hart's reservation, in place of an older one.
    ///
    /// It stops with `BadAddress` where these bytes aren't all in RAM, and the state is as before.
    pub fn mem_reserve(&mut self, hart: u8, w: u8, a: u64) -> Result<Word, RowError>
        requires there { hart < length self.old.harts }
        requires some { 1 ≤ w }
        requires most { w ≤ 16 }
        ensures word { result ≡ read_result self.old w a }
        ensures state { self.new ≡ reserve_state hart self.old w a }
    {
        if !self.memory.mapped(w, a) {
            return Err(RowError::Stop(Cause::BadAddress(a)));
        }
        let word = self.memory.read(w, a);
        self.set_reservation(hart, Some(Reservation { place: a, width: w }));
        Ok(word)
    }

    /// `mem_write`: puts a word of `w` bytes, from 1 to 16, at address `a`. It ends each reservation of which it
    /// touches a byte, of whatever hart.
    ///
    /// It stops with `BadAddress` where these bytes aren't all in RAM, and the state is as before.
    pub fn mem_write(&mut self, _hart: u8, w: u8, a: u64, v: Word) -> Result<(), RowError>
        requires some { 1 ≤ w }
        requires most { w ≤ 16 }
        requires width { length v ≡ 8 * w }
        ensures result { result ≡ write_result self.old w a }
        ensures state { self.new ≡ write_state self.old w a v }
    {
        if !self.memory.mapped(w, a) {
            return Err(RowError::Stop(Cause::BadAddress(a)));
        }
        self.memory.write(w, a, v);
        end_touched(&mut self.harts, w, a);
        Ok(())
    }

    /// `mem_write_cond`: writes as `mem_write` does and answers true where the hart's reservation covers the bytes;
    /// else it writes nothing and answers false. Either way the hart's reservation ends.
    ///
    /// It stops with `BadAddress` where these bytes aren't all in RAM, and the state is as before.
    pub fn mem_write_cond(&mut self, hart: u8, w: u8, a: u64, v: Word) -> Result<bool, RowError>
        requires there { hart < length self.old.harts }
        requires some { 1 ≤ w }
        requires most { w ≤ 16 }
        requires width { length v ≡ 8 * w }
        ensures result { result ≡ write_cond_result hart self.old w a }
        ensures state { self.new ≡ write_cond_state hart self.old w a v }
    {
        if !self.memory.mapped(w, a) {
            return Err(RowError::Stop(Cause::BadAddress(a)));
        }
        let done = is_covered(self.reservation(hart), w, a);
        if done {
            self.memory.write(w, a, v);
            end_touched(&mut self.harts, w, a);
        }
        self.set_reservation(hart, None);
        Ok(done)
    }

    /// `mem_mapped`: whether the `w` bytes at address `a` are all in RAM.
    pub fn mem_mapped(&self, w: u8, a: u64) -> bool
        ensures { result ≡ is_there self.now w a }
    {
        self.memory.mapped(w, a)
    }

    /// `print`: puts the bytes of a text on the console, which takes 1,048,576 in all.
    ///
    /// It stops with `ConsoleFull` where not all fit, once those that fit are put. `OutOfMemory` comes only where
    /// the console wanted memory.
    pub fn print(&mut self, text: &[u8]) -> Result<(), RowError>
        ensures { Puts self.old text.now self.new result }
    {
        let room = CONSOLE - self.console.len();
        if text.len() > room {
            self.console.extend_from_slice(&text[..room])?;
            return Err(RowError::Stop(Cause::ConsoleFull));
        }
        self.console.extend_from_slice(text)?;
        Ok(())
    }

    /// `print_endline`: puts the bytes of a text and a line feed on the console, like [`State::print`].
    pub fn print_endline(&mut self, text: &[u8]) -> Result<(), RowError>
        ensures { Puts self.old (text.now ++ 10 ∷ []) self.new result }
    {
        self.print(text)?;
        self.print(b"\n")
    }

    /// `console_put`: puts one byte on the console, like [`State::print`].
    pub fn console_put(&mut self, b: Word) -> Result<(), RowError>
        requires { length b ≡ 8 }
        ensures { Puts self.old (value_of b ∷ []) self.new result }
    {
        self.print(&[b.bits() as u8])
    }

    /// The reservation of a hart that is there.
    fn reservation(&self, hart: u8) -> Option<Reservation>
        requires { hart < length self.now.harts }
        ensures { result ≡ reservation self.now hart }
    {
        self.harts[hart as usize].reservation
    }

    /// Gives a hart that is there this reservation, or none, in place of an older one.
    fn set_reservation(&mut self, hart: u8, kept: Option<Reservation>)
        requires { hart < length self.old.harts }
        ensures { self.new ≡ with_reservation hart kept self.old }
    {
        let hart = &mut self.harts[hart as usize];
        hart.reservation = kept;
    }
}

/// Ends each reservation of which a write of `w` bytes at `a` touches a byte.
fn end_touched(harts: &mut [Hart], w: u8, a: u64)
    ensures { harts.new ≡ map (after_write w a) harts.old }
{
    for hart in harts.iter_mut() {
        end_if_touched(hart, w, a);
    }
}

/// Ends a hart's reservation where a write of `w` bytes at `a` touches a byte of it.
fn end_if_touched(hart: &mut Hart, w: u8, a: u64)
    ensures { hart.new ≡ after_write w a hart.old }
{
    if is_touched(hart.reservation, w, a) {
        hart.reservation = None;
    }
}

/// Whether a write of `w` bytes at `a` touches a reserved byte; no sum wraps.
fn is_touched(kept: Option<Reservation>, w: u8, a: u64) -> bool
    ensures { result ≡ touches w a kept }
{
    match kept {
        Some(kept) => (a as u128) < end(kept.place, kept.width) && (kept.place as u128) < end(a, w),
        None => false,
    }
}

/// Whether the `w` bytes at `a` are all reserved; no sum wraps.
fn is_covered(kept: Option<Reservation>, w: u8, a: u64) -> bool
    ensures { result ≡ covers w a kept }
{
    match kept {
        Some(kept) => kept.place <= a && end(a, w) <= end(kept.place, kept.width),
        None => false,
    }
}

/// The address behind `w` bytes at `a`, which may be 2^64 and more.
fn end(a: u64, w: u8) -> u128
    ensures { result ≡ a + w }
{
    a as u128 + w as u128
}
