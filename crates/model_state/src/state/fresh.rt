//! The state at the beginning.
ghost use Rattle.std.specs.Prelude.{◌≡◌, ◌≤◌, map, replicate, IfOk};
ghost use Rattle.model_state.specs.RunState.{fresh, fresh_hart, zero_value};

use super::{Hart, Register, Registers, State};
use mem_store::Memory;
use sail_base::Items;
use sail_types::{Types, Value, zero_of};
use std::alloc::{AllocError, Global};

impl<M: Memory + Drop> State<M> {
    /// The state of 1 to 8 harts over a memory, which is as handed in: every register has its type's zero (`()`
    /// where the type has none), no hart has a reservation or rests, and the console is empty.
    ///
    /// The one error is want of memory.
    pub fn new(
        alloc: Global,
        types: Types,
        registers: Items<Register>,
        harts: u8,
        memory: M,
    ) -> Result<State<M>, AllocError>
        requires some { 1 ≤ harts }
        requires most { harts ≤ 8 }
        ensures { IfOk result (λ state. state ≡ fresh types registers harts (M.base memory) (M.bytes memory)) }
    {
        let each = fresh_harts(alloc, &types, registers.as_slice(), harts)?;
        Ok(State {
            types,
            registers,
            harts: each,
            console: Vec::new(alloc),
            memory,
        })
    }
}

/// So many harts at the beginning. The one error is want of memory.
fn fresh_harts(
    alloc: Global,
    types: &Types,
    registers: &[Register],
    count: u8,
) -> Result<Vec<Hart>, AllocError>
    ensures { IfOk result (λ harts. harts.items ≡ replicate count (fresh_hart types.now registers.now)) }
{
    let mut harts = Vec::new(alloc);
    for _ in 0..count {
        let registers = zeros(alloc, types, registers)?;
        harts.push(Hart {
            registers: Registers::new(registers),
            reservation: None,
            rests: false,
        })?;
    }
    Ok(harts)
}

/// The zero of each register's type. The one error is want of memory.
fn zeros(alloc: Global, types: &Types, registers: &[Register]) -> Result<Items<Value>, AllocError>
    ensures { IfOk result (λ values. values ≡ map (zero_value types.now) registers.now) }
{
    let mut values = Items::new(alloc);
    for register in registers {
        values.push(zero(alloc, types, register)?)?;
    }
    Ok(values)
}

/// The zero of a register's type. The one error is want of memory.
fn zero(alloc: Global, types: &Types, register: &Register) -> Result<Value, AllocError>
    ensures { IfOk result (λ value. value ≡ zero_value types.now register.now) }
{
    match zero_of(alloc, types, &register.typ)? {
        Some(value) => Ok(value),
        None => Ok(Value::Unit),
    }
}
