//! Laws of what lowered code keeps of the rules of a valid module: each function's contract is one, and it does nothing.
ghost use Rattle.lowered_validity.specs.Laws.{NodesAreRight, CalledAreRight, EventsAreRight, ValuesAreRight, CodesAreRight, DirectionsAreRight, NamesAreRight};

/// The code of a node of which it is decided that it has its types has them wherever it stands, and goes to labels that are set further on, or directly
/// before a tick, alone.
pub fn nodes_are_right()
    ensures { NodesAreRight }
{}

/// So has the code of a function whose measure and body are so decided: of one that calls enter, of one that events enter, of an initial value, of
/// a direction of a mapping, and of a name of a top-level `let`; its last instruction ends it.
pub fn functions_are_right()
    ensures called { CalledAreRight }
    ensures events { EventsAreRight }
    ensures values { ValuesAreRight }
    ensures directions { DirectionsAreRight }
    ensures names { NamesAreRight }
{}

/// Code that keeps the rules by itself, sets each label at most once and has a slot for all that it uses is valid, instruction by instruction.
pub fn codes_are_right()
    ensures { CodesAreRight }
{}
