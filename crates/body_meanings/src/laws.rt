//! Laws of bodies: each function's contract is one, and it does nothing.
ghost use Rattle.body_meanings.specs.Bodies.{FunctionsAreRight, MeasuresAreRight};
ghost use Rattle.body_meanings.specs.Callees.{DirectionsKeepCalls, DirectionsKeepWays, FunctionsKeepCalls};
ghost use Rattle.body_meanings.specs.Calls.{EnteredCallsAgree, EnteredDirectionsAgree};
ghost use Rattle.body_meanings.specs.Directions.{DirectionsAreRight};
ghost use Rattle.body_meanings.specs.Numbers.{NumbersMeanNothing};
ghost use Rattle.body_meanings.specs.Sides.{SidesAreRight};
ghost use Rattle.body_meanings.specs.Standing.{FunctionsStand};
ghost use Rattle.body_meanings.specs.Widths.{WidthsAreGiven};

/// The clauses of a function, tried in order, do in the core what they do as they are written, and so does its measure.
pub fn bodies_are_right()
    ensures functions { FunctionsAreRight }
    ensures measures { MeasuresAreRight }
{}

/// A side of a mapping's clause that is read as an expression means in the core what it means as it is written.
pub fn sides_are_right()
    ensures { SidesAreRight }
{}

/// A call of a function that is entered does the same on both sides and keeps shapes, where its body and its measure do, and so does a
/// direction of a mapping: callees at one depth make those at the next.
pub fn calls_are_entered_alike()
    ensures calls { EnteredCallsAgree }
    ensures directions { EnteredDirectionsAgree }
{}

/// The numbers that a definition's nodes get change nothing in what its core means.
pub fn numbers_mean_nothing()
    ensures { NumbersMeanNothing }
{}

/// The function that a core has of a definition is that of the text: its body and its measure do what the clauses and the measure do.
pub fn functions_stand()
    ensures { FunctionsStand }
{}

/// A side of a mapping's clause gives each bare name of the other side the same width for the text as for the core.
pub fn widths_are_given()
    ensures { WidthsAreGiven }
{}

/// Both directions of a mapping do in the core what they do as they are written.
pub fn directions_are_right()
    ensures { DirectionsAreRight }
{}

/// Callees at one depth stand at the next: calls of functions and of directions of mappings keep shapes and do the same; and so do
/// directions in patterns, by how many may be inside one another.
pub fn callees_keep_calls()
    ensures functions { FunctionsKeepCalls }
    ensures directions { DirectionsKeepCalls }
    ensures ways { DirectionsKeepWays }
{}
