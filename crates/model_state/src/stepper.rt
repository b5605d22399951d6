ghost use Rattle.std.specs.Prelude.{◌≡◌, ◌<◌, length, OnOk, IfOk};
ghost use Rattle.model_state.specs.Folds.{Meaning, Keeps, IsNotDone};

use crate::cause::Ended;
use crate::state::State;
use mem_store::Memory;
use std::alloc::{AllocError, Global};

/// Whatever takes the steps of a model's harts.
///
/// Its meaning is the model's: the registers, and what each call comes to from the state before. A call doesn't
/// change it, gives its ending and leaves its state; the one error is want of memory, after which the run is over
/// and the state isn't looked at.
pub trait Stepper {
    /// The registers, and what `init`, `reset` and `step` come to.
    ghost meaning: { Self → Meaning };

    /// Works out the lets and the initial values of the registers, which are set alike for all harts.
    fn init<M: Memory>(&mut self, alloc: Global, state: &mut State<M>) -> Result<Ended, AllocError>
        requires registers { state.old.registers ≡ (meaning self.old).registers }
        ensures same { meaning self.new ≡ meaning self.old }
        ensures ended { IfOk result (λ ended. ended ≡ ((meaning self.old).init state.old).ended) }
        ensures state { OnOk result (state.new ≡ ((meaning self.old).init state.old).state) }
        ensures keeps { OnOk result (Keeps state.old state.new) }
        ensures not_done { IfOk result IsNotDone };

    /// Calls `reset` of a hart that is there, at the program's entry.
    fn reset<M: Memory>(
        &mut self,
        alloc: Global,
        state: &mut State<M>,
        hart: u8,
        entry: u64,
    ) -> Result<Ended, AllocError>
        requires registers { state.old.registers ≡ (meaning self.old).registers }
        requires there { hart < length state.old.harts }
        ensures same { meaning self.new ≡ meaning self.old }
        ensures ended { IfOk result (λ ended. ended ≡ ((meaning self.old).reset hart entry state.old).ended) }
        ensures state { OnOk result (state.new ≡ ((meaning self.old).reset hart entry state.old).state) }
        ensures keeps { OnOk result (Keeps state.old state.new) }
        ensures not_done { IfOk result IsNotDone };

    /// Calls `step` of a hart that is there; `false` says that the hart rests from now on.
    fn step<M: Memory>(
        &mut self,
        alloc: Global,
        state: &mut State<M>,
        hart: u8,
    ) -> Result<Ended, AllocError>
        requires registers { state.old.registers ≡ (meaning self.old).registers }
        requires there { hart < length state.old.harts }
        ensures same { meaning self.new ≡ meaning self.old }
        ensures ended { IfOk result (λ ended. ended ≡ ((meaning self.old).step hart state.old).ended) }
        ensures state { OnOk result (state.new ≡ ((meaning self.old).step hart state.old).state) }
        ensures keeps { OnOk result (Keeps state.old state.new) }
        ensures not_done { IfOk result IsNotDone };
}
