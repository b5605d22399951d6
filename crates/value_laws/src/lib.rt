//! Laws of what a walk over a definition knows of values: each function's contract is one, and it does nothing.
//!
//! Which values have indices, and which belong to a type of the walk, stands in `specs/Belonging`, what is known behind a step of a walk in
//! `specs/Known`.
#![tactic(auto)]

ghost use Rattle.value_laws.specs.Laws.{OpeningIsSound, OpeningKeeps};

/// What is taken to be known of a value of a type is so: for some integers of the new variables all that comes into force is true, and the
/// value has the indices that the type is opened to.
pub fn opening_is_sound()
    ensures { OpeningIsSound }
{}

/// Each other value with these indices belongs to the type too.
pub fn openings_keep()
    ensures { OpeningKeeps }
{}
