//! That a call finds the measure that is before it, in the module of a model.
#![tactic(auto)]

ghost use Rattle.module_cycles.specs.Laws.{ModelsAgree};

use lowered_cycles::cycles_agree;

/// In the module of a model each call finds the measure that is before it: its functions have numbers of cycles that are decided to fit.
pub fn models_agree()
    ensures agree { ModelsAgree }
{
    cycles_agree();
}
