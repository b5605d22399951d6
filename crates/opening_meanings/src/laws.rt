//! Laws of top-level lets and initial values: each function's contract is one, and it does nothing.
ghost use Rattle.opening_meanings.specs.Names.{PlainExpressionsCallNothing, PlainPatternsCallNothing};
ghost use Rattle.opening_meanings.specs.Openings.{InitialsOpenAlike, LetsOpenAlike, RegistersStillFit};
ghost use Rattle.opening_meanings.specs.Worlds.{OpeningWorldsAreDescribed};

/// A plain expression in whose names the tables find no failure calls no function, mapping or overload: the same is found of it, and of
/// the patterns in it, where there are none.
pub fn plain_expressions_call_nothing()
    ensures expressions { PlainExpressionsCallNothing }
    ensures patterns { PlainPatternsCallNothing }
{}

/// Names mean the same in the worlds of the core and of the text in which openings are worked out, but for functions, mappings and
/// overloads.
pub fn opening_worlds_are_described()
    ensures { OpeningWorldsAreDescribed }
{}

/// A top-level let and an initial value do in the core what they do in the text: both give the same values, which have the shapes that
/// are found, or both stop for one cause, or both come to no end; and registers keep their shapes.
pub fn openings_are_alike()
    ensures lets { LetsOpenAlike }
    ensures initials { InitialsOpenAlike }
    ensures registers { RegistersStillFit }
{}
