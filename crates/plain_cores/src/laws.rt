//! The laws: a function's contract is what one of them says, and it does nothing.
ghost use Rattle.plain_cores.specs.Ending.{DecidedCoresEnd};
ghost use Rattle.plain_cores.specs.Laws.{PlainCoresDecide};

/// The core that is found of an expression as the grammar has those of top-level lets, initial values and measures decides.
pub fn plain_cores_decide()
    ensures { PlainCoresDecide }
{}

/// A core that decides ends neither with No nor by throwing, where what it calls doesn't.
pub fn decided_cores_end()
    ensures { DecidedCoresEnd }
{}
