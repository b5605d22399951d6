//! Laws of the meaning: each function's contract is one, and it does nothing.
ghost use Rattle.sail_core.specs.Laws.{NumbersDontMatter, BlocksAreNests, BlocksDeclare};
ghost use Rattle.sail_core.specs.Sentences.{AssignmentsRead, GuardsComeLater, NoTurnNoTick, TicksFirst};
ghost use Rattle.sail_core.specs.Steady.{NodesAreSteady, ModelsKeep};

/// The numbers of nodes are for other readings: whatever they are, a core means the same.
pub fn numbers_dont_matter()
    ensures { NumbersDontMatter }
{}

/// A block means what the nest of its statements means: a `let` or `var` of a block is a `let .. in` or `var .. in` over the
/// rest of it.
pub fn blocks_are_nests()
    ensures lets { BlocksAreNests }
    ensures vars { BlocksDeclare }
{}

/// However a node ends, in a world whose calls do so too, no tick came back, accesses and the console's bytes were only added to,
/// the names in scope and the machine's registers, harts and RAM are those of before, and no stop is the schedule's end.
pub fn nodes_are_steady()
    ensures { NodesAreSteady }
{}

/// So do the start of each model and its events, which is what is wanted of what takes the steps of harts.
pub fn models_keep()
    ensures { ModelsKeep }
{}

/// In `R[i] = e` the index comes first, then the new value, and then the register is read and written. Where a pattern doesn't
/// match, its guard and body aren't looked at. A `while` whose condition is false takes no tick. A call without a tick left stops
/// the run before its measure is looked at.
pub fn orders_of_evaluation()
    ensures assignments { AssignmentsRead }
    ensures guards { GuardsComeLater }
    ensures turns { NoTurnNoTick }
    ensures ticks { TicksFirst }
{}
