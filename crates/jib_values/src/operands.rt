//! Operands, which are copied only where they stand nowhere.
ghost use Rattle.std.specs.Prelude.{◌≡◌, IfOk, map};
ghost use Rattle.jib_values.specs.Operands.{value_in};
ghost use Rattle.jib_values.specs.Sources.{source_value};

use crate::reading::{copied, lent, value_of};
use jib::Source;
use mem_store::Memory;
use model_state::State;
use sail_base::Items;
use sail_types::Value;
use std::alloc::{AllocError, Global};

/// The value of a source.
#[derive(Drop)]
pub enum Operand<'a> {
    /// It stands in a slot, a register or a let.
    Lent(&'a Value),
    /// It is a constant, or unit where nothing stands.
    Made(Value),
}

impl<'a> Operand<'a> {
    /// The value, lent.
    pub fn get(&self) -> &Value
        ensures { result.now ≡ value_in self.now }
    {
        match self {
            Operand::Lent(value) => value,
            Operand::Made(value) => value,
        }
    }
}

/// The value of a source, without a copy where it stands somewhere.
pub fn operand_of<'a, M: Memory>(
    alloc: Global,
    lets: &'a Items<Value>,
    hart: u8,
    state: &'a State<M>,
    slots: &'a [Value],
    source: &Source,
) -> Result<Operand<'a>, AllocError>
    ensures { IfOk result (λ operand. value_in operand ≡ source_value lets.now hart state.now slots.now source.now) }
{
    match lent(lets, hart, state, slots, source) {
        Some(value) => Ok(Operand::Lent(value)),
        None => {
            let value = value_of(alloc, lets, hart, state, slots, source)?;
            Ok(Operand::Made(value))
        }
    }
}

/// Copies of operands, in order.
pub fn copies(alloc: Global, operands: &[Operand<'_>]) -> Result<Items<Value>, AllocError>
    ensures { IfOk result (λ values. values ≡ map value_in operands.now) }
{
    let mut values = Items::new(alloc);
    for operand in operands {
        values.push(copied(alloc, operand.get())?)?;
    }
    Ok(values)
}
