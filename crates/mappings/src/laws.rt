//! Laws of the rewriting: each function's contract is one, and it does nothing.
ghost use Rattle.mappings.specs.Laws.{KeepsRuns, KeepsMeaning, IsMapFree};
ghost use Rattle.mappings.specs.Sizes.{PatternsAtMostDouble, KeepsNumbers, NumbersDirections};

/// Under every reading that keeps parts, a model without mappings runs as the resolved one.
pub fn runs_are_kept<X>()
    ensures { KeepsRuns X }
{}

/// A model without mappings means what the resolved one means, and it has none.
pub fn meaning_is_kept()
    ensures meaning { KeepsMeaning }
    ensures fragment { IsMapFree }
{}

/// A pattern gets at most twice as large, and the nodes of a core stay, with their numbers; the one new node of a direction has the
/// greatest number that there is.
pub fn sizes_are_kept()
    ensures patterns { PatternsAtMostDouble }
    ensures numbers { KeepsNumbers }
    ensures directions { NumbersDirections }
{}
