//! Laws of the definitions: each function's contract is one, and it does nothing.
ghost use Rattle.shape_rules.specs.Sentences.{FirstIsLeast, FirstIsThere, FirstIsKept, LastIsInnermost, OthersStay};
ghost use Rattle.shape_rules.specs.Sentences.{WildcardsTakeAll, NamesBind, SidesAreExpressions, TypesGiveWidths};

/// The first of some failures is one of them, and none of them stands before it; there is one unless there is no failure. What was
/// noted before counts as they do.
pub fn first_failures_are_least()
    ensures least { FirstIsLeast }
    ensures there { FirstIsThere }
    ensures kept { FirstIsKept }
{}

/// Of the names that a pattern binds the last is the innermost, and a name that it doesn't bind is the local that it was.
pub fn inner_locals_hide()
    ensures last { LastIsInnermost }
    ensures others { OthersStay }
{}

/// A wildcard takes whatever comes, and a bare name that is no member of an enum binds it.
pub fn names_bind_what_comes()
    ensures wildcards { WildcardsTakeAll }
    ensures names { NamesBind }
{}

/// Names, literals and lists in the side of a mapping are found as in an expression, and a type that is written in it gives the widths
/// of the names in its part.
pub fn sides_are_expressions()
    ensures sides { SidesAreExpressions }
    ensures widths { TypesGiveWidths }
{}
