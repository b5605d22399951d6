//! What compiling the texts of a model gives, and whatever compiles them.
ghost use Rattle.std.specs.Prelude.{◌≡◌, ◌≤◌, true, List, length, IfOk, IfErr};
ghost use Rattle.std.specs.List.{All};
ghost use Rattle.model_tokens.specs.Files.{IsShort};
ghost use Rattle.sail_compile.specs.Engines.{IsCompiled, IsTried, Meant};
ghost use Rattle.sail_compile.specs.parts.Told.{Tells};

use crate::models::{Accepted, ModelError};
use model_state::Stepper;
use sail_base::Items;
use std::alloc::Global;

/// What takes the steps of a model's harts, if it is there.
#[derive(Drop)]
pub enum Running<S> {
    /// The model isn't to be run.
    NotWanted,
    /// The engine doesn't run it.
    NotRun,
    /// It is there.
    Runs(S),
}

/// What compiling the texts of a model gives.
#[derive(Drop)]
pub struct Compiled<S> {
    /// What the texts are.
    pub accepted: Accepted,
    /// What takes the steps.
    pub run: Running<S>,
}

/// Whatever compiles the texts of a model and takes its steps.
///
/// It accepts and refuses as every other does, by the phases: engines differ in what they mean by accepted texts, and in which they run.
pub trait Engine {
    /// What takes the steps.
    type Run: Stepper + Drop;

    /// What it may mean by the gathered definitions of texts, and which it leaves.
    ghost engine: { Self → Meant };

    /// Judges the texts of a model, 1 to 64 of at most 4,194,304 bytes each, and makes what takes its steps where the model is to be run. The errors are the
    /// first refusal of the first phase that refuses them, and want of memory.
    fn compile(
        &mut self,
        alloc: Global,
        texts: &[Items<u8>],
        for_run: bool,
    ) -> Result<Compiled<Self::Run>, ModelError>
        requires few { length texts.now ≤ 64 }
        requires short { All IsShort texts.now }
        ensures compiled { IfOk result (IsCompiled Self.Run.meaning (engine self.old) texts.now) }
        ensures tried { for_run ≡ true → IfOk result (λ made. IsTried made.run) }
        ensures refused { IfErr result (Tells texts.now) };
}
