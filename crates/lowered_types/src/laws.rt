//! Laws of the table of a module's types: each function's contract is one, and it does nothing.
ghost use Rattle.lowered_types.specs.Laws.{PartsKnown, TypesHave};

/// A value that has the sizes of a type that has a number belongs to the type of this number.
pub fn types_have()
    ensures { TypesHave }
{}

/// With a type the types of its parts have numbers.
pub fn parts_known()
    ensures { PartsKnown }
{}
