//! Laws of the code of forms: each function's contract is one, and it does nothing.
ghost use Rattle.lowered_laws.specs.FormLaws.{FunctionsOwnLabels, NodesSimulate, NodesOwnLabels, OpeningsOwnLabels};
ghost use Rattle.lowered_laws.specs.Opened.{NamesAnswer, ValuesAnswer};
ghost use Rattle.lowered_laws.specs.Modules.{CallsAnswer, EventsAnswer};
ghost use Rattle.lowered_laws.specs.Crossings.{CrossingsKnown};
ghost use Rattle.lowered_laws.specs.Returning.{BodiesStay, WorldsStay};

/// The code of a node does what the node means under the sizes of an instance, where each call with fewer ticks goes well: its value comes to
/// the place for it, what it throws to the handler, and a stop or a return ends the run.
pub fn nodes_simulate()
    ensures simulate { NodesSimulate }
{}

/// The code of a node sets labels of its own alone, each at most once, where what is done with its value does.
pub fn nodes_own_labels()
    ensures own { NodesOwnLabels }
{}

/// The code of a function sets each label at most once.
pub fn functions_own_labels()
    ensures own { FunctionsOwnLabels }
{}

/// So does the code of an initial value, and that of a name of a top-level `let`.
pub fn openings_own_labels()
    ensures own { OpeningsOwnLabels }
{}

/// The code of an initial value gives what the value comes to, and that of a name of a top-level `let` what the pattern binds to the name.
pub fn openings_answer()
    ensures values { ValuesAnswer }
    ensures names { NamesAnswer }
{}

/// Each call does what its function means, however many calls are inside one another: where a module has the code of whatever may be entered, and
/// a call finds the measure that is before it.
pub fn calls_answer()
    ensures answer { CallsAnswer }
{}

/// Each event does what the function means that it enters, where calls do and the module has the code of whatever an event may enter.
pub fn events_answer()
    ensures answer { EventsAnswer }
{}

/// A body without `return` never ends with one.
pub fn bodies_stay()
    ensures stay { BodiesStay }
{}

/// Nothing that a call does returns to what is around it, where no direction of a mapping has a `return`.
pub fn worlds_stay()
    ensures stay { WorldsStay }
{}

/// Where all directions that a body calls are among some, it is lowered as where every direction may be called.
pub fn crossings_known()
    ensures known { CrossingsKnown }
{}
