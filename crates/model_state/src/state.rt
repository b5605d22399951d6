ghost use Rattle.std.specs.Prelude.{◌≡◌, ◌<◌, ◌≤◌, length, IsSome, Some};
ghost use Rattle.std.specs.Option.{option_copied};
ghost use Rattle.model_state.specs.RunState.{register_value, with_register};
ghost use Rattle.model_state.specs.Folds.{rests, set_rests, all_rest};
ghost use Rattle.sail_types.specs.declared.values.Value.TheVariants as V;

mod fresh;
mod registers;
mod reporting;
mod rows;

use mem_store::Memory;
pub use registers::Registers;
pub use reporting::{Start, report};
use sail_base::{Items, Text, Word};
use sail_types::{Typ, Types, Value};
use std::marker::Model;

/// A register of a model.
pub struct Register {
    /// Its name.
    pub name: Text,
    /// Its type.
    pub typ: Typ,
}

impl Drop for Register {
    fn drop(self) {
        let Register { name: _, typ: _ } = self;
    }
}

/// The bytes that a hart has reserved.
#[derive(Clone, Copy, Debug, Drop)]
pub struct Reservation {
    /// The address of the first.
    pub place: u64,
    /// How many there are.
    pub width: u8,
}

/// What each hart has for itself.
pub struct Hart {
    /// The values of the registers, in the order of the model's text.
    pub registers: Registers,
    /// Its reservation, if it has one.
    pub reservation: Option<Reservation>,
    /// Whether it rests.
    pub rests: bool,
}

impl Drop for Hart {
    fn drop(self) {
        let Hart {
            registers: _,
            reservation: _,
            rests: _,
        } = self;
    }
}

/// The state of a run of 1 to 8 harts over a memory.
#[derive(Drop)]
pub struct State<M: Memory> {
    types: Types,
    registers: Items<Register>,
    harts: Vec<Hart>,
    console: Vec<u8>,
    memory: M,
}

impl<M: Memory> Model for State<M> {
    ghost use Rattle.std.specs.Prelude.{◌≤◌, length};
    ghost use Rattle.model_state.specs.RunState.{RunState};
    ghost use Rattle.std.specs.Coded.{codes};
    ghost use Rattle.sail_types.specs.contracts.types.Typ as typ;
    ghost use Rattle.sail_types.specs.contracts.values.Value as value;

    ghost Value = { RunState };

    ghost coded = { Prim.hlevel (codes, typ.the_row.coded, value.the_row.coded) };

    ghost view = { λ state. record {
      types = state.types;
      registers = state.registers;
      harts = state.harts.items;
      base = M.base state.memory;
      bytes = M.bytes state.memory;
      console = state.console.items;
    } };

    ghost invariant = { λ state. record { few : length state.harts.items ≤ 8; fits : length state.console.items ≤ 1048576 } };
}

impl<M: Memory> State<M> {
    /// How many harts there are, from 1 to 8.
    pub fn harts(&self) -> u8
        ensures count { result ≡ length self.now.harts }
        ensures few { result ≤ 8 }
    {
        self.harts.len() as u8
    }

    /// The value of a register of a hart, both by their places from 0; they are there.
    pub fn register(&self, hart: u8, index: u32) -> &Value
        requires { IsSome (register_value self.now hart index) }
        ensures { Some result.now ≡ register_value self.now hart index }
    {
        let hart = &self.harts[hart as usize];
        &hart.registers.as_slice()[index as usize]
    }

    /// The value of a register of a hart, both by their places from 0; none where it isn't there.
    pub fn find_register(&self, hart: u8, index: u32) -> Option<&Value>
        ensures { option_copied result ≡ register_value self.now hart index }
    {
        let hart = self.harts.get(hart as usize)?;
        hart.registers.get(index as usize)
    }

    /// Gives a register of a hart a value, both by their places from 0; they are there. Nothing else changes.
    pub fn set_register(&mut self, hart: u8, index: u32, value: Value)
        requires { IsSome (register_value self.old hart index) }
        ensures { self.new ≡ with_register hart index value self.old }
    {
        let hart = &mut self.harts[hart as usize];
        hart.registers.set(index as usize, value);
    }

    /// Gives a register of a hart a value, both by their places from 0, and answers the one that it had; they are there. It
    /// takes no memory, and nothing else changes.
    pub fn replace_register(&mut self, hart: u8, index: u32, value: Value) -> Value
        requires { IsSome (register_value self.old hart index) }
        ensures value { Some result ≡ register_value self.old hart index }
        ensures state { self.new ≡ with_register hart index value self.old }
    {
        let hart = &mut self.harts[hart as usize];
        hart.registers.replace(index as usize, value)
    }

    /// Gives a register of a hart these bits, both by their places from 0; they are there. Nothing else changes. It is
    /// what [`State::set_register`] does with the value of these bits, in less time.
    pub fn set_bits(&mut self, hart: u8, index: u32, bits: Word)
        requires { IsSome (register_value self.old hart index) }
        ensures { self.new ≡ with_register hart index (V.Bits bits) self.old }
    {
        let hart = &mut self.harts[hart as usize];
        hart.registers.set_bits(index as usize, bits);
    }

    /// Whether a hart that is there rests.
    pub fn rests(&self, hart: u8) -> bool
        requires { hart < length self.now.harts }
        ensures { result ≡ rests self.now hart }
    {
        self.harts[hart as usize].rests
    }

    /// Lets a hart that is there rest from now on.
    pub fn set_rests(&mut self, hart: u8)
        requires { hart < length self.old.harts }
        ensures { self.new ≡ set_rests hart self.old }
    {
        let hart = &mut self.harts[hart as usize];
        hart.rests = true;
    }

    /// Whether all harts rest.
    pub fn all_rest(&self) -> bool
        ensures { result ≡ all_rest self.now }
    {
        self.harts.iter().all(|hart| hart.rests)
    }

    /// The memory.
    pub fn memory(&self) -> &M
        ensures base { M.base result.now ≡ self.now.base }
        ensures bytes { M.bytes result.now ≡ self.now.bytes }
    {
        &self.memory
    }
}
