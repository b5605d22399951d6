//! Laws of forms that bind names: each function's contract is one, and it does nothing.
ghost use Rattle.soundness_binding.specs.Laws.{BlocksAreFine, LetsAreFine, PatternsMatch, VarsAreFine};

/// A `let` whose pattern stands ends well beside its walk, where its value and its body do.
pub fn lets_are_fine()
    ensures { LetsAreFine }
{}

/// So does a `var`.
pub fn vars_are_fine()
    ensures { VarsAreFine }
{}

/// So does a block in which the pattern of each `let` stands, where its statements do.
pub fn blocks_are_fine()
    ensures { BlocksAreFine }
{}

/// Patterns that stand match wherever expressions do.
pub fn patterns_match()
    ensures { PatternsMatch }
{}
