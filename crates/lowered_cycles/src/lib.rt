//! That a call finds the measure that is before it: of its cycle of the model, since one cycle of the module has the functions of one cycle of the model.
#![tactic(auto)]

ghost use Rattle.lowered_cycles.specs.Laws.{CyclesAgree};

/// Where functions have one number of a cycle of calls in the module just where they are in one cycle of the model, and calls lead to the same number or a
/// lower one, each call finds the measure that is before it.
pub fn cycles_agree()
    ensures agree { CyclesAgree }
{}
