//! Laws of what instances cover: where the bodies of an accepted list of instances are tested, all that their walks note, but goals, is met.
//!
//! `specs/Given`, `specs/Tested` and `specs/Covered` have the tests, `specs/Laws`, `specs/Covered`, `specs/Closed` and `specs/Tables` the laws.
#![tactic(auto)]

ghost use Rattle.covering_laws.specs.Closed.{ListsAreRead};
ghost use Rattle.covering_laws.specs.Covered.{ModelsAreRead};
ghost use Rattle.covering_laws.specs.Laws.{BodiesAreMet};
ghost use Rattle.covering_laws.specs.Listed.{ListsCover};
ghost use Rattle.covering_laws.specs.Tables.{TablesCover};

/// The notes of bodies that are tested are met by the cases of their tables. It does nothing.
pub fn bodies_are_met()
    ensures { BodiesAreMet }
{}

/// A model whose accepted list of instances is tested is read: its functions, mappings and openings. It does nothing.
pub fn models_are_read()
    ensures { ModelsAreRead }
{}

/// Of what is found without refusal sizes are constants within their limits, and what is called is found. It does nothing.
pub fn lists_are_read()
    ensures { ListsAreRead }
{}

/// Of an accepted list all that walks note, but goals, is met by checks by which a value may be of any type. It does nothing.
pub fn lists_cover()
    ensures { ListsCover }
{}

/// An accepted list whose tables are whole covers its model by them: its functions, mappings and openings, by whichever numbers cases are chosen.
/// It does nothing.
pub fn tables_cover()
    ensures { TablesCover }
{}
