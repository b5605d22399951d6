//! The variables of a problem.
ghost use Rattle.std.specs.Prelude.{◌≡◌, IfOk, OnOk, map};
ghost use Rattle.std.specs.List.{fold, list_any};
ghost use Rattle.sail_types.specs.Sums.{eq_atom};
ghost use Rattle.linear.specs.Choices.{atoms_of, joined, variables_in, with_atom, place_of};
ghost use Rattle.linear.specs.Cases.{variables_of};

use crate::problem::Problem;
use sail_base::Items;
use sail_types::{Atom, Con, Num, copy_atom, same_atom};
use std::alloc::{AllocError, Global};

/// Whether a variable is one of a list.
fn is_among(atoms: &[Atom], atom: &Atom) -> bool
    ensures { result ≡ list_any (eq_atom atom.now) atoms.now }
{
    for other in atoms {
        if is_atom(atom, other) {
            return true;
        }
    }
    false
}

/// Whether two variables are the same.
fn is_atom(first: &Atom, second: &Atom) -> bool
    ensures { result ≡ eq_atom first.now second.now }
{
    same_atom(first, second)
}

/// The place of a variable in a list, or its length.
pub fn place_in(atoms: &[Atom], atom: &Atom) -> usize
    ensures { result ≡ place_of atoms.now atom.now }
{
    let mut place = 0;
    for other in atoms {
        if is_atom(atom, other) {
            return place;
        }
        place += 1;
    }
    place
}

/// Puts a variable at the end, where it isn't there.
fn push_atom(alloc: Global, atoms: &mut Items<Atom>, atom: &Atom) -> Result<(), AllocError>
    ensures { OnOk result (atoms.new ≡ with_atom atoms.old atom.now) }
{
    if is_among(atoms.as_slice(), atom) {
        return Ok(());
    }
    atoms.push(copy_atom(alloc, atom)?)
}

/// Puts the variables of a number.
fn push_atoms(alloc: Global, atoms: &mut Items<Atom>, number: &Num) -> Result<(), AllocError>
    ensures { OnOk result (atoms.new ≡ fold with_atom atoms.old (atoms_of number.now)) }
{
    for term in number.terms.as_slice() {
        push_atom(alloc, atoms, &term.atom)?;
    }
    Ok(())
}

/// Puts the variables of a constraint that aren't there at the end, in order of first appearance. The one error is want of memory.
#[cycle(variables)]
pub fn push_variables(alloc: Global, atoms: &mut Items<Atom>, con: &Con) -> Result<(), AllocError>
    ensures { OnOk result (atoms.new ≡ fold with_atom atoms.old (variables_in con.now)) }
{
    match con {
        Con::Truth(_) => Ok(()),
        Con::Holds(variable) => push_atom(alloc, atoms, &Atom::Variable(*variable)),
        Con::Compare(_, left, right) => {
            push_atoms(alloc, atoms, left)?;
            push_atoms(alloc, atoms, right)
        }
        Con::OneOf(number, _) => push_atoms(alloc, atoms, number),
        Con::Not(part) => push_variables(alloc, atoms, part.get()),
        Con::All(parts) => push_all_variables(alloc, atoms, parts.as_slice()),
        Con::Any(parts) => push_all_variables(alloc, atoms, parts.as_slice()),
    }
}

/// Puts the variables of several constraints.
#[cycle(variables)]
fn push_all_variables(
    alloc: Global,
    atoms: &mut Items<Atom>,
    cons: &[Con],
) -> Result<(), AllocError>
    ensures { OnOk result (atoms.new ≡ fold with_atom atoms.old (joined (map variables_in cons.now))) }
{
    for con in cons {
        push_variables(alloc, atoms, con)?;
    }
    Ok(())
}

/// The variables of a problem, in order of first appearance in the facts and then the goal.
pub fn list_variables(alloc: Global, problem: &Problem) -> Result<Items<Atom>, AllocError>
    ensures { IfOk result (λ atoms. atoms ≡ variables_of problem.now) }
{
    let mut atoms = Items::new(alloc);
    push_all_variables(alloc, &mut atoms, problem.facts.as_slice())?;
    push_variables(alloc, &mut atoms, &problem.goal)?;
    Ok(atoms)
}
