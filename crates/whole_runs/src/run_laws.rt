//! The law of whole runs: the function's contract is it, and it does nothing.
//!
//! `specs/Runs` says when no part of a run is stuck, `specs/Safe` what is known of a model whose runs are so.
ghost use Rattle.whole_runs.specs.Safe.{ModelsRunSafely};

use checked_meaning::models_are_alike;
use sail_core::models_keep;

/// Where all obligations of a model hold and it stands as is said, the top-level lets and initial values, `reset` of each hart and each `step`
/// aren't stuck, under the checked meaning and plainly, and leave registers that belong to their types: so in a whole run, from its start through
/// every event of every schedule of harts that are there.
pub fn models_run_safely()
    ensures { ModelsRunSafely }
{
    models_are_alike();
    models_keep();
}
