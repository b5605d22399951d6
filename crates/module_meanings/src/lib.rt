//! That the machine of the module of a text does as the text means: laws alone.
#![tactic(auto)]

ghost use Rattle.module_meanings.specs.Laws as spec;

use accepted_models::accepted_models_mean_text;
use jib_lower::modules_are_valid;
use module_cycles::models_agree;
use safe_models::{lowered_events_mean, tabled_cores_go};
use sized_meanings::sized_models_are_alike;

/// The module of a core is made of it: each instance has its code, calls go where they do in the core, and its openings have the values of
/// the names of top-level lets.
pub fn modules_are_made()
    ensures { spec.ModulesAreMade }
{
    models_agree();
    modules_are_valid();
}

/// What the openings of the module come to sets registers as the core's do, or stops where they stop.
pub fn modules_start()
    ensures { spec.ModulesStart }
{
    modules_are_valid();
}

/// The machine of the module of an accepted text does as the text means, where the obligations of the core with the numbers of its cycles hold: its start,
/// and `reset` and `step` of each hart.
pub fn machines_mean_texts()
    ensures { spec.MachinesMeanTexts }
{
    accepted_models_mean_text();
    lowered_events_mean();
    modules_are_made();
    modules_start();
    sized_models_are_alike();
    tabled_cores_go();
}

/// What the engine of flat code means by the definitions of an accepted text is what they mean.
pub fn engines_mean_texts()
    ensures { spec.EnginesMeanTexts }
{
    machines_mean_texts();
}
