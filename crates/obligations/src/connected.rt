//! The facts that count for a goal.
ghost use Rattle.std.specs.Prelude.{◌≡◌, ◌∷◌, [], ◌++◌, IfOk, OnOk, length, map};
ghost use Rattle.std.specs.List.{list_any};
ghost use Rattle.sail_types.specs.Sums.{eq_atom};
ghost use Rattle.linear.specs.Choices.{atoms_of, joined, variables_in};
ghost use Rattle.obligations.specs.Connected.{has_atom, shares, sharing, spread_for, connected};
ghost use Rattle.obligations.specs.Spreading.{spread_once, AreSame};

use linear::push_variables;
use sail_base::Items;
use sail_types::{Atom, Con, Num, copy_con, same_atom};
use std::alloc::{AllocError, Global};

/// Whether two variables are the same.
fn is_atom(first: &Atom, second: &Atom) -> bool
    ensures { result ≡ eq_atom first.now second.now }
{
    same_atom(first, second)
}

/// Whether a variable is one of these.
fn has_atom(atoms: &[Atom], atom: &Atom) -> bool
    ensures { result ≡ has_atom atoms.now atom.now }
{
    for other in atoms {
        if is_atom(atom, other) {
            return true;
        }
    }
    false
}

/// Whether a number has one of these variables.
fn has_any(number: &Num, atoms: &[Atom]) -> bool
    ensures { result ≡ shares (atoms_of number.now) atoms.now }
{
    for term in number.terms.as_slice() {
        if has_atom(atoms, &term.atom) {
            return true;
        }
    }
    false
}

/// Whether a condition has one of these variables.
#[cycle(sharing)]
fn is_sharing(con: &Con, atoms: &[Atom]) -> bool
    ensures { result ≡ shares (variables_in con.now) atoms.now }
{
    match con {
        Con::Truth(_) => false,
        Con::Holds(variable) => has_atom(atoms, &Atom::Variable(*variable)),
        Con::Compare(_, left, right) => has_any(left, atoms) || has_any(right, atoms),
        Con::OneOf(number, _) => has_any(number, atoms),
        Con::Not(part) => is_sharing(part.get(), atoms),
        Con::All(parts) => are_sharing(parts.as_slice(), atoms),
        Con::Any(parts) => are_sharing(parts.as_slice(), atoms),
    }
}

/// Whether one of several conditions has one of these variables.
#[cycle(sharing)]
fn are_sharing(cons: &[Con], atoms: &[Atom]) -> bool
    ensures { result ≡ shares (joined (map variables_in cons.now)) atoms.now }
{
    for con in cons {
        if is_sharing(con, atoms) {
            return true;
        }
    }
    false
}

/// Puts to variables those of each fact that shares one. The one error is want of memory.
fn spread(alloc: Global, facts: &[Con], atoms: &mut Items<Atom>) -> Result<(), AllocError>
    ensures { OnOk result (atoms.new ≡ spread_once facts.now atoms.old) }
{
    for fact in facts {
        if is_sharing(fact, atoms.as_slice()) {
            push_variables(alloc, atoms, fact)?;
        }
    }
    Ok(())
}

/// Puts to variables those of the facts that are connected to them. The one error is want of memory.
fn spread_all(alloc: Global, facts: &[Con], atoms: &mut Items<Atom>) -> Result<(), AllocError>
    ensures { OnOk result (AreSame atoms.new (spread_for (length facts.now) facts.now atoms.old)) }
{
    for round in 0..facts.len() {
        let count = atoms.len();
        spread(alloc, facts, atoms)?;
        if atoms.len() == count {
            return Ok(());
        }
    }
    Ok(())
}

/// The facts that share one of these variables. It fails where memory is wanting.
fn sharing(alloc: Global, facts: &[Con], atoms: &[Atom]) -> Result<Items<Con>, AllocError>
    ensures { IfOk result (λ made. made ≡ sharing atoms.now facts.now) }
{
    let mut made = Items::new(alloc);
    for fact in facts {
        if is_sharing(fact, atoms) {
            made.push(copy_con(alloc, fact)?)?;
        }
    }
    Ok(made)
}

/// The same facts once more. It fails where memory is wanting.
fn copy_facts(alloc: Global, facts: &[Con]) -> Result<Items<Con>, AllocError>
    ensures { IfOk result (λ copies. copies ≡ facts.now) }
{
    let mut copies = Items::new(alloc);
    for fact in facts {
        copies.push(copy_con(alloc, fact)?)?;
    }
    Ok(copies)
}

/// The facts that are connected to a goal; all of them, where it has no variable. It fails where memory is wanting.
pub fn connected(alloc: Global, facts: &[Con], goal: &Con) -> Result<Items<Con>, AllocError>
    ensures { IfOk result (λ made. made ≡ connected facts.now (variables_in goal.now)) }
{
    let mut atoms = Items::new(alloc);
    push_variables(alloc, &mut atoms, goal)?;
    if atoms.is_empty() {
        return copy_facts(alloc, facts);
    }
    spread_all(alloc, facts, &mut atoms)?;
    sharing(alloc, facts, atoms.as_slice())
}
