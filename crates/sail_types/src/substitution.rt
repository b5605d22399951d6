//! Numbers with others in the place of their variables.
ghost use Rattle.std.specs.Prelude.{◌≡◌, IfOk, map};
ghost use Rattle.sail_types.specs.Sums.{substituted, substituted_atom, plus_each, plus_became, became, zero_num, subst as subst_of, read};
ghost use Rattle.sail_types.specs.Replacing.{number_by};

use crate::numbers::{Atom, Index, Num, Term};
use crate::sums::{copy_num, plus, plus_constant, power};
use std::alloc::{AllocError, Global};

/// What stands in the place of variables.
#[derive(Clone, Copy)]
pub enum Replacing<'a> {
    /// A number in the place of one variable; the others stay.
    One(u32, &'a Num),
    /// These in the place of the variables from 0 on; 0 for one that is no Int variable of the list.
    Each(&'a [Index]),
}

/// What stands in the place of a variable. It fails where memory is wanting.
fn replaced(alloc: Global, by: &Replacing<'_>, variable: u32) -> Result<Num, AllocError>
    ensures { IfOk result (λ made. made ≡ number_by by.now variable) }
{
    match by {
        Replacing::One(one, number) => {
            if *one == variable {
                copy_num(alloc, number)
            } else {
                Num::variable(alloc, variable)
            }
        }
        Replacing::Each(indices) => match indices.get(variable as usize) {
            Some(Index::Number(number)) => copy_num(alloc, number),
            _ => Ok(Num::constant(alloc, 0)),
        },
    }
}

#[cycle(substitute)]
fn replace_in_atom(
    alloc: Global,
    atom: &Atom,
    by: &Replacing<'_>,
) -> Result<Option<Num>, AllocError>
    ensures { IfOk result (λ made. made ≡ substituted_atom (number_by by.now) atom.now) }
{
    match atom {
        Atom::Variable(variable) => Ok(Some(replaced(alloc, by, *variable)?)),
        Atom::Power(t) => match replace(alloc, t.get(), by)? {
            None => Ok(None),
            Some(t) => Ok(Some(power(alloc, t)?)),
        },
    }
}

/// A number with these in the place of its variables, made term by term; none where a number past the
/// largest integer stands on the way. It fails where memory is wanting.
#[cycle(substitute)]
pub fn replace(alloc: Global, number: &Num, by: &Replacing<'_>) -> Result<Option<Num>, AllocError>
    ensures { IfOk result (λ made. made ≡ substituted (number_by by.now) number.now) }
{
    match replace_in_terms(alloc, number.terms.as_slice(), by)? {
        None => Ok(None),
        Some(sum) => Ok(plus_constant(sum, number.constant)),
    }
}

#[cycle(substitute)]
fn replace_in_terms(
    alloc: Global,
    terms: &[Term],
    by: &Replacing<'_>,
) -> Result<Option<Num>, AllocError>
    ensures { IfOk result (λ made. made ≡ plus_each (map (became (number_by by.now)) terms.now) zero_num) }
{
    let mut sum = Num::constant(alloc, 0);
    for term in terms {
        match plus_replaced(alloc, term, by, sum)? {
            None => return Ok(None),
            Some(next) => sum = next,
        }
    }
    Ok(Some(sum))
}

/// Adds a term with what its atom becomes.
#[cycle(substitute)]
fn plus_replaced(
    alloc: Global,
    term: &Term,
    by: &Replacing<'_>,
    sum: Num,
) -> Result<Option<Num>, AllocError>
    ensures { IfOk result (λ made. made ≡ plus_became (became (number_by by.now) term.now) sum) }
{
    match replace_in_atom(alloc, &term.atom, by)? {
        None => Ok(None),
        Some(atom) => plus(alloc, term.coefficient, &atom, sum),
    }
}

/// A number with another in the place of one variable; none where a number past the largest integer stands
/// on the way. It fails where memory is wanting.
pub fn subst(
    alloc: Global,
    number: &Num,
    variable: u32,
    by: &Num,
) -> Result<Option<Num>, AllocError>
    ensures { IfOk result (λ made. made ≡ subst_of number.now variable by.now) }
{
    replace(alloc, number, &Replacing::One(variable, by))
}

/// A number read under what its variables stand for; none where a number past the largest integer stands
/// on the way. It fails where memory is wanting.
pub fn read_number(
    alloc: Global,
    number: &Num,
    indices: &[Index],
) -> Result<Option<Num>, AllocError>
    ensures { IfOk result (λ made. made ≡ read indices.now number.now) }
{
    replace(alloc, number, &Replacing::Each(indices))
}
