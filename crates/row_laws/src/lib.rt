//! The law of the builtins beside the walk of their calls: each function's contract is one, and it does nothing.
//!
//! When the notes of a walk are met stands in `specs/Met`, how the run of a builtin ends in `specs/Laws`.
#![tactic(auto)]

ghost use Rattle.row_laws.specs.Laws.{RowsAreSound};

/// Where what is in force is true and the notes of its call are met, a builtin isn't stuck, and what it gives has the indices that the walk
/// takes to be known of it. It leaves registers and names in scope as they are.
pub fn rows_are_sound()
    ensures { RowsAreSound }
{}
