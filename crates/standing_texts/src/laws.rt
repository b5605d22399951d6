//! Laws of accepted texts: each function's contract is one, and it does nothing.
ghost use Rattle.standing_texts.specs.Bodies.{DirectionsPass, FunctionsPass, TextsRead};
ghost use Rattle.standing_texts.specs.Openings.{OpeningsPass};

/// Nodes of bodies and measures pass the tests of their kinds.
pub fn functions_pass()
    ensures { FunctionsPass }
{}

/// So do those of both directions of each mapping.
pub fn directions_pass()
    ensures { DirectionsPass }
{}

/// The types that are written in an accepted text read.
pub fn texts_read()
    ensures { TextsRead }
{}

/// Nodes of the values of openings pass theirs too, and so do the patterns of top-level lets.
pub fn openings_pass()
    ensures { OpeningsPass }
{}
