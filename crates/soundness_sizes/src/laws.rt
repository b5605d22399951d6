//! Laws of what reads type variables: each function's contract is one, and it does nothing.
ghost use Rattle.soundness_sizes.specs.Laws.{ConstraintsAreFine, SizesAreFine};

/// A `sizeof` ends well beside its walk.
pub fn sizes_are_fine()
    ensures { SizesAreFine }
{}

/// So does a `constraint`.
pub fn constraints_are_fine()
    ensures { ConstraintsAreFine }
{}
