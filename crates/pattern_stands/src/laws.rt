//! The laws: the function's contract is what they say, and it does nothing.
ghost use Rattle.pattern_stands.specs.Laws.{PatternsStand, WidthsAreGiven};

/// The core that is found of a pattern without a failure binds the names that are found, by the rules of shapes; and its width as a
/// part of a word is a number over what variables stand for.
pub fn patterns_stand()
    ensures patterns { PatternsStand }
    ensures widths { WidthsAreGiven }
{}
