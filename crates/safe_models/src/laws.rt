//! The laws: each function's contract is one, and it does nothing.
//!
//! `specs/Laws` names them all.
ghost use Rattle.safe_models.specs.Laws as spec;

use accepted_models::accepted_models_mean_text;
use covering_laws::{lists_cover, models_are_read, tables_cover};
use known_texts::{definitions_are_signed, nothing_fails};
use lowered_laws::events_answer;
use sail_compile::obligations_of_accepted_texts_hold;
use sized_meanings::sized_models_are_alike;
use text_progress::parsed_texts_are_written;
use whole_runs::models_run_safely;

/// In an accepted text each Int or Bool variable of a function has a place among the parameters, the first one that of its kind, and no
/// other variable has one.
pub fn variables_have_places()
    ensures { spec.VariablesHavePlaces }
{}

/// In the core of a text the constraint of a function names the function's own variables alone, each by its kind.
pub fn constraints_are_own()
    ensures { spec.ConstraintsAreOwn }
{}

/// Fields and payloads of the types of a text as the grammar has it name no Type variables but those of their own definition, and no tuple
/// among payloads has one part.
pub fn tables_are_narrow()
    ensures { spec.TablesAreNarrow }
{}

/// Types of registers name no variable.
pub fn registers_are_closed()
    ensures { spec.RegistersAreClosed }
{}

/// Types of mappings of an accepted text name no variable.
pub fn mappings_are_closed()
    ensures { spec.MappingsAreClosed }
{}

/// The core of an accepted text is such as the forms of expressions take a model.
pub fn models_of_texts_stand()
    ensures { spec.ModelsOfTextsStand }
{}

/// Where a pattern of an accepted text stands, members and constructors are in the table of types, and widths are over the own variables of what
/// is around.
pub fn patterns_of_texts_meant()
    ensures { spec.PatternsOfTextsMeant }
{}

/// Clauses of a function that pass the tests stand.
pub fn clauses_stand()
    ensures { spec.ClausesStand }
{}

/// So do both directions of a mapping.
pub fn ways_stand()
    ensures { spec.WaysStandBoth }
{}

/// So does a value that a top-level let binds or a register begins with.
pub fn values_stand()
    ensures { spec.ValuesStand }
{}

/// Functions and mappings of a model that passes the test stand, where its tables do.
pub fn tested_models_stand()
    ensures { spec.TestedModelsStand }
{}

/// Openings of a model that pass the test stand.
pub fn tested_openings_stand()
    ensures { spec.TestedOpeningsStand }
{}

/// The core of an accepted text stands.
pub fn fitting_texts_stand()
    ensures { spec.FittingTextsStand }
{}

/// Patterns of an accepted text stand.
pub fn patterns_of_texts_pass()
    ensures { spec.PatternsOfTextsPass }
{}

/// The core of an accepted text passes the test of models.
pub fn accepted_texts_fit()
    ensures { spec.AcceptedTextsFit }
{}

/// Its openings pass theirs.
pub fn accepted_openings_fit()
    ensures { spec.AcceptedOpeningsFit }
{}

/// In the state in which a run begins registers belong to their types, where the type of each has a zero.
pub fn fresh_states_belong()
    ensures { spec.FreshStatesFit }
{}

/// Where the core of a text does what the text does and no part of a run of the core is stuck, none of the text is, and registers belong to their
/// types between its parts.
pub fn texts_run_safely()
    ensures { spec.TextsRunSafely }
{}

/// Texts that the program accepts are never stuck, where the obligations of their cores hold and instances cover the rest: not in their top-level lets
/// and initial values, not in `reset` of a hart, and in no event of any schedule; and registers belong to their types behind each.
pub fn accepted_cores_run_safely()
    ensures { spec.AcceptedCoresRunSafely }
{
    accepted_models_mean_text();
    definitions_are_signed();
    fitting_texts_stand();
    nothing_fails();
    parsed_texts_are_written();
    models_run_safely();
    texts_run_safely();
}

/// The obligations of the core without numbers of cycles of calls hold, as the program has checked.
pub fn accepted_models_run_safely()
    ensures { spec.AcceptedModelsRunSafely }
{
    obligations_of_accepted_texts_hold();
    accepted_cores_run_safely();
}

/// Mappings of an accepted text have ranks: what patterns of a mapping name is of a lower one, in its guards and in what they match as well.
pub fn ways_of_texts_fall()
    ensures { spec.WaysOfTextsFall }
{}

/// A list of instances that is tested covers what is read of its core, where such ranks are given.
pub fn tested_lists_cover()
    ensures { spec.TestedListsCover }
{
    models_are_read();
}

/// Texts that the program accepts are never stuck, where their lists of instances are tested.
pub fn tested_models_run_safely()
    ensures { spec.TestedModelsRunSafely }
{
    accepted_models_run_safely();
    parsed_texts_are_written();
    tested_lists_cover();
    ways_of_texts_fall();
}

/// A list of instances that is found without refusal covers what is read of its core.
pub fn found_lists_cover()
    ensures { spec.FoundListsCover }
{
    lists_cover();
}

/// Texts that the program accepts, and whose instances are found without refusal, are never stuck.
pub fn listed_models_run_safely()
    ensures { spec.ListedModelsRunSafely }
{
    accepted_models_run_safely();
    parsed_texts_are_written();
    found_lists_cover();
    ways_of_texts_fall();
}

/// Texts that the program accepts are never stuck.
pub fn accepted_texts_run_safely()
    ensures { spec.AcceptedTextsRunSafely }
{
    listed_models_run_safely();
}

/// Tables that are whole cover what is read of their core, where such ranks are given.
pub fn whole_tables_cover()
    ensures { spec.WholeTablesCover }
{
    tables_cover();
}

/// Where the tables of the core of a text that the program accepts are whole and its obligations hold, no part of a run is stuck in which values
/// carry the types that they tell, whatever the numbers of its cycles of calls.
pub fn tabled_cores_go()
    ensures { spec.TabledCoresGo }
{
    definitions_are_signed();
    fitting_texts_stand();
    models_run_safely();
    nothing_fails();
    parsed_texts_are_written();
    ways_of_texts_fall();
    whole_tables_cover();
}

/// Where the tables of a text that the program accepts are whole, no part of a run is stuck in which values carry the types that they tell.
pub fn tabled_texts_go()
    ensures { spec.TabledTextsGo }
{
    obligations_of_accepted_texts_hold();
    tabled_cores_go();
}

/// An event of a core that isn't stuck where cases go by noted numbers is a call of the module that is made of it.
pub fn events_come()
    ensures { spec.EventsCome }
{
    events_answer();
}

/// `reset` and `step` of an accepted text whose instances are found enter instances.
pub fn events_enter()
    ensures { spec.EventsEnter }
{
    definitions_are_signed();
    nothing_fails();
    parsed_texts_are_written();
}

/// Where the tables of an accepted text are whole without the numbers that values give themselves, `reset` and `step` of its module come to
/// what they come to in the model.
pub fn lowered_events_mean()
    ensures { spec.LoweredEventsMean }
{
    events_come();
    events_enter();
    sized_models_are_alike();
    tabled_cores_go();
}
