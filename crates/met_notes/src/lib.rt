//! A law of what a model's walks note: the function's contract is it, and it does nothing.
//!
//! `specs/Met` says what is asked of instances, and of which walks all is met then.
#![tactic(auto)]

ghost use Rattle.met_notes.specs.Met.{NotesAreMet};

/// Where all obligations of a model hold, and instances cover the notes of its bodies but goals, all that the walks over its definitions note is met.
pub fn notes_are_met()
    ensures { NotesAreMet }
{}
