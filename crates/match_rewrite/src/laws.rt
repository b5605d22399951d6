//! Laws of the rewriting: each function's contract is one, and it does nothing.
ghost use Rattle.match_rewrite.specs.Laws.{KeepsRuns, KeepsMeaning, IsFlat};
ghost use Rattle.match_rewrite.specs.Sizes.{NoMoreStepsThanNodes, KeepsNumbers};

/// Under every reading, a model with flat arms runs as the one with nested patterns.
pub fn runs_are_kept<X>()
    ensures { KeepsRuns X }
{}

/// A model with flat arms means what the one with nested patterns means, and without mappings it is flat.
pub fn meaning_is_kept()
    ensures meaning { KeepsMeaning }
    ensures fragment { IsFlat }
{}

/// A pattern has no more steps than it had nodes, and the nodes of a core stay, with their numbers.
pub fn sizes_are_kept()
    ensures steps { NoMoreStepsThanNodes }
    ensures numbers { KeepsNumbers }
{}
