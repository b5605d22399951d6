//! Laws of assignments: each function's contract is one, and it does nothing.
ghost use Rattle.soundness_targets.specs.Laws.{AssignmentsAreFine};

/// An assignment to `var`s and registers, to parts of them, by calls, and to tuples of these, one target or several in a row, ends
/// well beside its walk, where the indexes and arguments of its targets and its value do: each name's new value is of the name's type, which
/// is as it was.
pub fn assignments_are_fine()
    ensures { AssignmentsAreFine }
{}
