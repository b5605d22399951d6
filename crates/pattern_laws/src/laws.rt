//! Laws of patterns: each function's contract is one, and it does nothing.
ghost use Rattle.pattern_laws.specs.Laws.{ArmsAreSound, LetsAreSound, PatternsAreSound};

/// Where the obligations of a pattern hold, its run is never stuck on a value that has the indices that the walk knows; where it matches, each
/// name has the indices that the walk gives it, and all that the walk takes to be known from there on is true.
pub fn patterns_are_sound()
    ensures { PatternsAreSound }
{}

/// So it is with an arm that looks at several values.
pub fn arms_are_sound()
    ensures { ArmsAreSound }
{}

/// So it is with the pattern of a `let`.
pub fn lets_are_sound()
    ensures { LetsAreSound }
{}
