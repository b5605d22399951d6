//! The machine as what takes a model's steps.
ghost use Rattle.std.specs.Prelude.{◌≡◌, IfOk};
ghost use Rattle.jib_machine.specs.Events as spec;

use crate::machine::Machine;
use crate::opened::initial;
use mem_store::Memory;
use model_state::{Ended, State, Stepper};
use sail_base::Word;
use sail_types::Value;
use std::alloc::{AllocError, Global};

/// The arguments of `step`.
fn step_arguments(alloc: Global) -> Result<Vec<Value>, AllocError>
    ensures { IfOk result (λ arguments. arguments.items ≡ spec.step_arguments) }
{
    let mut arguments = Vec::with_capacity(alloc, 1)?;
    arguments.push(Value::Unit)?;
    Ok(arguments)
}

/// The arguments of `reset`: the number of a hart and the entry of the program.
fn reset_arguments(alloc: Global, hart: u8, entry: u64) -> Result<Vec<Value>, AllocError>
    ensures { IfOk result (λ arguments. arguments.items ≡ spec.reset_arguments hart entry) }
{
    let mut arguments = Vec::with_capacity(alloc, 2)?;
    arguments.push(Value::Integer(hart as i128))?;
    arguments.push(Value::Bits(Word::new(64, entry as u128)))?;
    Ok(arguments)
}

impl Stepper for Machine {
    ghost use Rattle.jib_machine.specs.Events.{events};

    ghost meaning = { λ machine. events machine.program machine.kept machine.types machine.registers machine.entries machine.opened machine.lets };

    /// Sets the registers that have initial values, up to the first that stopped.
    fn init<M: Memory>(
        &mut self,
        alloc: Global,
        state: &mut State<M>,
    ) -> Result<Ended, AllocError> {
        let ended = initial(alloc, self, state)?;
        Ok(ended)
    }

    /// Calls `reset` with the number of the hart and the entry.
    fn reset<M: Memory>(
        &mut self,
        alloc: Global,
        state: &mut State<M>,
        hart: u8,
        entry: u64,
    ) -> Result<Ended, AllocError> {
        let arguments = reset_arguments(alloc, hart, entry)?;
        let ended = self.call(alloc, state, hart, self.entries.reset, arguments)?;
        Ok(ended)
    }

    /// Calls `step`.
    fn step<M: Memory>(
        &mut self,
        alloc: Global,
        state: &mut State<M>,
        hart: u8,
    ) -> Result<Ended, AllocError> {
        let arguments = step_arguments(alloc)?;
        let ended = self.call(alloc, state, hart, self.entries.step, arguments)?;
        Ok(ended)
    }
}
