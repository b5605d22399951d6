//! Laws of the notes of a model's bodies: each function's contract is one, and it does nothing.
//!
//! `specs/Notes` says which notes are others than goals, and that a body's notes are all of them; `specs/Ways` through which directions of mappings a
//! walk goes, and that all of them are of the model.
#![tactic(auto)]

ghost use Rattle.note_laws.specs.Notes.{BodiesHaveNotes};
ghost use Rattle.note_laws.specs.Ways.{WaysAreNamed, WaysAreOfModel};

/// What is so of each note of the bodies that instances are read from is so of each note but goals of the walks that obligations come from.
pub fn bodies_have_notes()
    ensures { BodiesHaveNotes }
{}

/// What is read of a mapping goes through those directions alone that the patterns of both of its directions name.
pub fn ways_are_named()
    ensures { WaysAreNamed }
{}

/// Whatever is read of a model, all mappings that it names are of the model.
pub fn ways_are_of_model()
    ensures { WaysAreOfModel }
{}
