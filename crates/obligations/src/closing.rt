//! The facts that close an obligation.
ghost use Rattle.std.specs.Prelude.{◌≡◌, ◌++◌, IfOk, OnOk, map};
ghost use Rattle.std.specs.List.{fold};
ghost use Rattle.sail_types.specs.Sums.{is_constant};
ghost use Rattle.sail_types.specs.declared.numbers.Atom.{out-Atom};
ghost use Rattle.linear.specs.Choices.{joined, variables_in, with_atom};
ghost use Rattle.linear.specs.Cases.{variables_of};
ghost use Rattle.row_types.specs.Formulas as formulas;
ghost use Rattle.obligations.specs.Closing as spec;

use crate::naming::{any_number, has_number};
use linear::push_variables;
use sail_base::Items;
use sail_types::{Atom, Comparison, Con, Num, copy_atom};
use std::alloc::{AllocError, Global};

/// `t <= u`
fn at_most(low: Num, high: Num) -> Con
    ensures { result ≡ formulas.at_most low high }
{
    Con::Compare(Comparison::LessEqual, low, high)
}

/// Whether a number has no variable.
fn is_constant(number: &Num) -> bool
    ensures { result ≡ is_constant number.now }
{
    number.terms.is_empty()
}

/// Puts that a variable is from one integer to another: two facts, the lower bound first. The one error is want of memory.
fn push_between(
    alloc: Global,
    facts: &mut Items<Con>,
    low: i128,
    atom: &Atom,
    high: i128,
) -> Result<(), AllocError>
    ensures { OnOk result (facts.new ≡ facts.old ++ spec.between low atom.now high) }
{
    let number = Num::of_atom(alloc, copy_atom(alloc, atom)?)?;
    facts.push(at_most(Num::constant(alloc, low), number))?;
    let number = Num::of_atom(alloc, copy_atom(alloc, atom)?)?;
    facts.push(at_most(number, Num::constant(alloc, high)))
}

/// Puts that a power of two is from 1 to the largest integer, where its exponent isn't constant. The one error is want of memory.
fn push_power(alloc: Global, facts: &mut Items<Con>, atom: &Atom) -> Result<(), AllocError>
    ensures { OnOk result (facts.new ≡ facts.old ++ spec.power_form atom.now (out-Atom atom.now)) }
{
    match atom {
        Atom::Variable(_) => Ok(()),
        Atom::Power(exponent) => {
            if is_constant(exponent.get()) {
                return Ok(());
            }
            push_between(
                alloc,
                facts,
                1,
                atom,
                85070591730234615865843651857942052864,
            )
        }
    }
}

/// Puts this of each variable. The one error is want of memory.
fn push_powers(alloc: Global, facts: &mut Items<Con>, atoms: &[Atom]) -> Result<(), AllocError>
    ensures { OnOk result (facts.new ≡ facts.old ++ spec.power_facts atoms.now) }
{
    for atom in atoms {
        push_power(alloc, facts, atom)?;
    }
    Ok(())
}

/// Puts that each of these variables is from 0 to 1. The one error is want of memory.
fn push_truth_facts(alloc: Global, facts: &mut Items<Con>, atoms: &[Atom]) -> Result<(), AllocError>
    ensures { OnOk result (facts.new ≡ facts.old ++ spec.truth_facts atoms.now) }
{
    for atom in atoms {
        push_between(alloc, facts, 0, atom, 1)?;
    }
    Ok(())
}

/// Puts the Bool variables of a condition that aren't there at the end, in order of first appearance. The one error is want of memory.
#[cycle(truths)]
fn push_truths(alloc: Global, atoms: &mut Items<Atom>, con: &Con) -> Result<(), AllocError>
    ensures { OnOk result (atoms.new ≡ fold with_atom atoms.old (spec.truths_in con.now)) }
{
    match con {
        Con::Truth(_) => Ok(()),
        Con::Holds(_) => push_variables(alloc, atoms, con),
        Con::Compare(_, _, _) => Ok(()),
        Con::OneOf(_, _) => Ok(()),
        Con::Not(part) => push_truths(alloc, atoms, part.get()),
        Con::All(parts) => push_all_truths(alloc, atoms, parts.as_slice()),
        Con::Any(parts) => push_all_truths(alloc, atoms, parts.as_slice()),
    }
}

/// Puts those of several conditions.
#[cycle(truths)]
fn push_all_truths(alloc: Global, atoms: &mut Items<Atom>, cons: &[Con]) -> Result<(), AllocError>
    ensures { OnOk result (atoms.new ≡ fold with_atom atoms.old (joined (map spec.truths_in cons.now))) }
{
    for con in cons {
        push_truths(alloc, atoms, con)?;
    }
    Ok(())
}

/// Puts the variables of several conditions that aren't there at the end, in order of first appearance. The one error is want of memory.
fn push_each(alloc: Global, atoms: &mut Items<Atom>, cons: &[Con]) -> Result<(), AllocError>
    ensures { OnOk result (atoms.new ≡ fold with_atom atoms.old (joined (map variables_in cons.now))) }
{
    for con in cons {
        push_variables(alloc, atoms, con)?;
    }
    Ok(())
}

/// The variables of facts and a goal, in order of first appearance. It fails where memory is wanting.
pub fn variables(alloc: Global, facts: &[Con], goal: &Con) -> Result<Items<Atom>, AllocError>
    ensures { IfOk result (λ atoms. atoms ≡ variables_of (record { facts = facts.now; goal = goal.now })) }
{
    let mut atoms = Items::new(alloc);
    push_each(alloc, &mut atoms, facts)?;
    push_variables(alloc, &mut atoms, goal)?;
    Ok(atoms)
}

/// The Bool variables of facts and a goal, in order of first appearance. It fails where memory is wanting.
fn truths(alloc: Global, facts: &[Con], goal: &Con) -> Result<Items<Atom>, AllocError>
    ensures { IfOk result (λ atoms. atoms ≡ spec.truths_of facts.now goal.now) }
{
    let mut atoms = Items::new(alloc);
    push_all_truths(alloc, &mut atoms, facts)?;
    push_truths(alloc, &mut atoms, goal)?;
    Ok(atoms)
}

/// Whether a number of facts or a goal names a variable; a power is a number.
fn is_numbered(facts: &[Con], goal: &Con, atom: &Atom) -> bool
    ensures { result ≡ spec.is_numbered facts.now goal.now (out-Atom atom.now) }
{
    match atom {
        Atom::Variable(variable) => any_number(*variable, facts) || has_number(*variable, goal),
        Atom::Power(_) => true,
    }
}

/// Of Bool variables those that no number of facts or a goal names. It fails where memory is wanting.
fn unnumbered(
    alloc: Global,
    facts: &[Con],
    goal: &Con,
    atoms: &[Atom],
) -> Result<Items<Atom>, AllocError>
    ensures { IfOk result (λ made. made ≡ spec.unnumbered facts.now goal.now atoms.now) }
{
    let mut made = Items::new(alloc);
    for atom in atoms {
        if !is_numbered(facts, goal, atom) {
            made.push(copy_atom(alloc, atom)?)?;
        }
    }
    Ok(made)
}

/// Facts with those that close an obligation of them and a goal. It fails where memory is wanting.
pub fn with_closing(alloc: Global, facts: Items<Con>, goal: &Con) -> Result<Items<Con>, AllocError>
    ensures { IfOk result (λ made. made ≡ spec.with_closing facts goal.now) }
{
    let atoms = variables(alloc, facts.as_slice(), goal)?;
    let truths = truths(alloc, facts.as_slice(), goal)?;
    let bits = unnumbered(alloc, facts.as_slice(), goal, truths.as_slice())?;
    let mut made = facts;
    push_powers(alloc, &mut made, atoms.as_slice())?;
    push_truth_facts(alloc, &mut made, bits.as_slice())?;
    Ok(made)
}
