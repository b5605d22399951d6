//! Laws of the definitions of a text that the tables know: each function's contract is one, and it does nothing.
ghost use Rattle.known_texts.specs.Functions.{FunctionsAreEntered};
ghost use Rattle.known_texts.specs.Known.{TextsAreRight};
ghost use Rattle.known_texts.specs.TextLaws.{AddedStand, DirectionsAreCounted, NamesStand};
ghost use Rattle.known_texts.specs.Opened.{TextsOpenAlike, WholeTextsMeanText};
ghost use Rattle.known_texts.specs.Openings.{NothingIsOpened};
ghost use Rattle.known_texts.specs.Overloads.{NamesDoNotClash, OperatorsDoNotClash};
ghost use Rattle.known_texts.specs.Values.{ValuesStand};
ghost use Rattle.known_texts.specs.Whole.{TextsMeanText};

/// Where each definition of a text is known, each name that can be called means on both sides the same function, direction, mapping,
/// constructor, builtin or overload, and each operator has the same members; both have as many directions of mappings, and the core
/// has a function of a name at its place among the functions.
pub fn names_stand()
    ensures names { NamesStand }
    ensures added { AddedStand }
    ensures directions { DirectionsAreCounted }
    ensures entered { FunctionsAreEntered }
{}

/// Where shapes find no clash in the overloads of a text, no two members of one share values.
pub fn overloads_do_not_clash()
    ensures names { NamesDoNotClash }
    ensures operators { OperatorsDoNotClash }
{}

/// Registers, names of top-level lets and members of enums are the same on both sides, where no name is defined twice and lets have
/// the same values.
pub fn values_stand()
    ensures { ValuesStand }
{}

/// A text without a top-level let and without an initial value of a register opens nothing on either side.
pub fn nothing_is_opened()
    ensures { NothingIsOpened }
{}

/// Where the tables know each definition of a text, and nothing is refused for its shapes, each function and each direction of a mapping
/// that its core has does what its clauses do; and so the core does what the text does, from the start through every event, where its
/// openings do.
pub fn texts_mean_text()
    ensures definitions { TextsAreRight }
    ensures texts { TextsMeanText }
{}

/// Where the tables know the definitions of a text and its openings, and nothing is refused for its shapes, top-level lets and initial
/// values are alike on both sides: in text order, each over the lets before it, they give the same values, of their shapes, stop for one
/// cause or come to no end. So the core of such a text does what the text does, from the start through every event.
pub fn whole_texts_mean_text()
    ensures openings { TextsOpenAlike }
    ensures texts { WholeTextsMeanText }
{}
