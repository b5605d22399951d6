//! The obligation of a goal.
ghost use Rattle.std.specs.Prelude.{◌≡◌, IfOk, map};
ghost use Rattle.sail_types.specs.Texts.{atom_text};
ghost use Rattle.obligations.specs.Owed as spec;

use crate::closing::{variables, with_closing};
use crate::connected::connected;
use crate::obligation::Obligation;
use sail_base::{Items, Place, Text};
use sail_types::{Atom, Con, push_atom};
use std::alloc::{AllocError, Global};

/// The facts of an obligation. It fails where memory is wanting.
fn facts_for(alloc: Global, facts: &[Con], goal: &Con) -> Result<Items<Con>, AllocError>
    ensures { IfOk result (λ made. made ≡ spec.facts_for facts.now goal.now) }
{
    let made = connected(alloc, facts, goal)?;
    with_closing(alloc, made, goal)
}

/// A variable as it is printed, by the names of all variables. It fails where memory is wanting.
fn name_of(alloc: Global, names: &[Text], atom: &Atom) -> Result<Items<u8>, AllocError>
    ensures { IfOk result (λ name. name ≡ atom_text names.now atom.now) }
{
    let mut name = Vec::new(alloc);
    push_atom(&mut name, names, atom)?;
    Ok(Items::from_vec(name))
}

/// Variables as they are printed. It fails where memory is wanting.
fn names_of(alloc: Global, names: &[Text], atoms: &[Atom]) -> Result<Items<Items<u8>>, AllocError>
    ensures { IfOk result (λ made. made ≡ map (atom_text names.now) atoms.now) }
{
    let mut made = Items::new(alloc);
    for atom in atoms {
        made.push(name_of(alloc, names, atom)?)?;
    }
    Ok(made)
}

/// The obligation of a goal at a place, where these facts are in force and all variables have these names: with those of the facts
/// that are connected to the goal, and those that close it. It fails where memory is wanting.
pub fn owed(
    alloc: Global,
    names: &[Text],
    facts: &[Con],
    goal: Con,
    place: Place,
) -> Result<Obligation, AllocError>
    ensures { IfOk result (λ made. made ≡ spec.owed names.now facts.now goal place) }
{
    let facts = facts_for(alloc, facts, &goal)?;
    let atoms = variables(alloc, facts.as_slice(), &goal)?;
    let names = names_of(alloc, names, atoms.as_slice())?;
    Ok(Obligation {
        facts,
        goal,
        place,
        names,
    })
}
