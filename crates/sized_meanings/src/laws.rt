//! Laws of the meaning under constant sizes: each function's contract is one.
ghost use Rattle.sized_meanings.specs.Laws.{PresentCasesAreFound, PresentLeadsAreFound, SizedModelsAreAlike};

use checked_meaning::models_are_alike;

/// The start of a model under constant sizes, `reset` and each event are stuck, or come to what they come to plainly, by whichever numbers cases
/// are chosen.
pub fn sized_models_are_alike()
    ensures { SizedModelsAreAlike }
{
    models_are_alike();
}

/// Where cases ask for the numbers of the same variables, and those of one of them are noted, one with the same numbers is present.
pub fn present_cases_are_found()
    ensures { PresentCasesAreFound }
{}

/// The same of the leads of a call.
pub fn present_leads_are_found()
    ensures { PresentLeadsAreFound }
{}
