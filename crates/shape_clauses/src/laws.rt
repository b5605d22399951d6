//! A law of the directions: the function's contract is it, and it does nothing.
ghost use Rattle.shape_clauses.specs.Laws.{DirectionsDiffer};

/// In a mapping no number stands twice: its backwards direction is numbered from where the forwards one ends.
pub fn directions_differ()
    ensures { DirectionsDiffer }
{}
