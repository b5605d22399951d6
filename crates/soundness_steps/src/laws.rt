//! Laws of a node beside its walk: each function's contract is one, and it does nothing.
ghost use Rattle.soundness_steps.specs.Laws.{NodesMakeValues, NodesNoteNumbers};

/// A node makes its value of operands of these types, at a type that is right there.
pub fn nodes_make_values()
    ensures { NodesMakeValues }
{}

/// The numbers that a value gives are noted behind it.
pub fn nodes_note_numbers()
    ensures { NodesNoteNumbers }
{}
