//! What is kept of the facts that stand.
ghost use Rattle.std.specs.Prelude.{◌≡◌, ◌∷◌, [], ◌++◌, List, IfOk};
ghost use Rattle.sail_types.specs.declared.numbers.Con.{Con};
ghost use Rattle.entail.specs.Levels.{level_of, facts_of, AreKept};

use crate::alternatives::{Alternatives, one_alternative, with_choice};
use linear::{choose, push_variables};
use sail_base::Items;
use sail_types::{Atom, Con, copy_atom};
use std::alloc::{AllocError, Global};

/// What is kept of facts: their variables in order of first appearance, and their alternatives.
pub struct Level {
    pub atoms: Items<Atom>,
    pub alternatives: Alternatives,
}

impl Drop for Level {
    fn drop(self) {
        let Level {
            atoms: _,
            alternatives: _,
        } = self;
    }
}

/// A fact, and what is kept of it and of those before it.
pub struct Prefix {
    pub fact: Con,
    pub level: Level,
}

impl Drop for Prefix {
    fn drop(self) {
        let Prefix { fact: _, level: _ } = self;
    }
}

/// What is kept of no fact.
pub fn first_level(alloc: Global) -> Result<Level, AllocError>
    ensures { IfOk result (λ level. level ≡ level_of []) }
{
    Ok(Level {
        atoms: Items::new(alloc),
        alternatives: one_alternative(alloc)?,
    })
}

/// Variables once more.
pub fn copy_atoms(alloc: Global, atoms: &[Atom]) -> Result<Items<Atom>, AllocError>
    ensures { IfOk result (λ copies. copies ≡ atoms.now) }
{
    let mut copies = Items::new(alloc);
    for atom in atoms {
        copies.push(copy_atom(alloc, atom)?)?;
    }
    Ok(copies)
}

/// What is kept of facts with one more.
pub fn next_level(alloc: Global, level: &Level, fact: &Con) -> Result<Level, AllocError>
    ensures { IfOk result (λ next. (facts : List Con) → level.now ≡ level_of facts → next ≡ level_of (facts ++ fact.now ∷ [])) }
{
    let mut atoms = copy_atoms(alloc, level.atoms.as_slice())?;
    push_variables(alloc, &mut atoms, fact)?;
    let choice = choose(alloc, fact, true, atoms.as_slice())?;
    let alternatives = with_choice(alloc, &level.alternatives, choice)?;
    Ok(Level {
        atoms,
        alternatives,
    })
}

/// What is kept of all facts that stand.
pub fn last_level<'a>(first: &'a Level, prefixes: &'a [Prefix]) -> &'a Level
    requires none { first.now ≡ level_of [] }
    requires each { AreKept [] prefixes.now }
    ensures { result.now ≡ level_of (facts_of prefixes.now) }
{
    if prefixes.is_empty() {
        first
    } else {
        &prefixes[prefixes.len() - 1].level
    }
}
