//! Laws of the definitions of a text that has tables: each function's contract is one, and it does nothing.
ghost use Rattle.known_texts.specs.KnownTexts.{AcceptedTextsMeanText, DefinitionsAreKnown, DefinitionsAreSigned, NamesAreKnown, OpeningsAreKnown};
ghost use Rattle.known_texts.specs.KnownTexts.{SignaturesAreWhole, UnionsAreKnown};

/// Each function and mapping of a text that the tables accept has a signature.
pub fn definitions_are_signed()
    ensures { DefinitionsAreSigned }
{}

/// The types of a signature leave nothing open, and each named type in them has its arguments.
pub fn signatures_are_whole()
    ensures { SignaturesAreWhole }
{}

/// Each constructor of a text that the tables accept is found by its name at its place in the table.
pub fn unions_are_known()
    ensures { UnionsAreKnown }
{}

/// Names in a text that the tables accept mean to shapes what the tables know of them.
pub fn names_are_known()
    ensures { NamesAreKnown }
{}

/// Each definition of a text that the tables accept, and that isn't refused for its shapes, is known as the meaning of texts asks.
pub fn definitions_are_known()
    ensures { DefinitionsAreKnown }
{}

/// Each top-level let and each initial value of a text that the tables accept is known as the meaning of openings asks.
pub fn openings_are_known()
    ensures { OpeningsAreKnown }
{}

/// The core of a text that the tables accept, and that isn't refused for its shapes, does what the text does, from the start through every event.
pub fn accepted_texts_mean_text()
    ensures { AcceptedTextsMeanText }
{}
