//! That the module of a model keeps all rules, by the laws of its code.
ghost use Rattle.jib_lower.specs.Laws.{ModulesAreValid};

use lowered_laws::{functions_own_labels, openings_own_labels};
use lowered_slots::slots_typed;
use lowered_validity::{codes_are_right, functions_are_right};

/// The module of a model is valid.
pub fn modules_are_valid()
    ensures valid { ModulesAreValid }
{
    functions_are_right();
    codes_are_right();
    functions_own_labels();
    openings_own_labels();
    slots_typed();
}
