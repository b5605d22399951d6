//! Numbers under what their variables are.
ghost use Rattle.std.specs.Prelude.{◌≡◌, IfOk, map, pos};
ghost use Rattle.size_values.specs.Numbers as spec;

use crate::constants::Constant;
use crate::variables::Variables;
use sail_base::Items;
use sail_types::{Atom, Index, Num, Term, small_power, small_product, small_sum};
use std::alloc::{AllocError, Global};

/// The largest integer.
const LARGEST: i128 = 1 << 126;

/// The variable, where it isn't constant.
fn free_variable(variable: u32, variables: &Variables<'_>) -> Option<u32>
    ensures { result ≡ spec.free_variable (spec.meant variables.now) variable }
{
    match variables.number(variable) {
        Some(_) => None,
        None => Some(variable),
    }
}

/// The first variable of a number that isn't constant, from the left.
#[cycle(free)]
pub fn first_free(number: &Num, variables: &Variables<'_>) -> Option<u32>
    ensures { result ≡ spec.first_free (spec.meant variables.now) number.now }
{
    free_in_terms(number.terms.as_slice(), variables)
}

#[cycle(free)]
fn free_in_terms(terms: &[Term], variables: &Variables<'_>) -> Option<u32>
    ensures { result ≡ spec.first_of (map (spec.free_in_term (spec.meant variables.now)) terms.now) }
{
    for term in terms {
        match free_in_term(term, variables) {
            None => {}
            Some(variable) => return Some(variable),
        }
    }
    None
}

#[cycle(free)]
fn free_in_term(term: &Term, variables: &Variables<'_>) -> Option<u32>
    ensures { result ≡ spec.free_in_term (spec.meant variables.now) term.now }
{
    free_in_atom(&term.atom, variables)
}

#[cycle(free)]
fn free_in_atom(atom: &Atom, variables: &Variables<'_>) -> Option<u32>
    ensures { result ≡ spec.free_in_atom (spec.meant variables.now) atom.now }
{
    match atom {
        Atom::Variable(variable) => free_variable(*variable, variables),
        Atom::Power(exponent) => first_free(exponent.get(), variables),
    }
}

/// The integer that a number is: none where a variable isn't constant, where a number past the largest integer stands on the way, or
/// a power of an exponent outside 0 to 126.
#[cycle(value)]
pub fn value_of(number: &Num, variables: &Variables<'_>) -> Option<i128>
    ensures { result ≡ spec.value_of (spec.meant variables.now) number.now }
{
    match sum_of_terms(number.terms.as_slice(), variables) {
        None => None,
        Some(sum) => small_sum(sum, number.constant),
    }
}

#[cycle(value)]
fn sum_of_terms(terms: &[Term], variables: &Variables<'_>) -> Option<i128>
    ensures { result ≡ spec.added (pos 0) (map (spec.value_of_term (spec.meant variables.now)) terms.now) }
{
    let mut sum = 0;
    for term in terms {
        let Some(value) = value_of_term(term, variables) else {
            return None;
        };
        let Some(next) = small_sum(sum, value) else {
            return None;
        };
        sum = next;
    }
    Some(sum)
}

#[cycle(value)]
fn value_of_term(term: &Term, variables: &Variables<'_>) -> Option<i128>
    ensures { result ≡ spec.value_of_term (spec.meant variables.now) term.now }
{
    match value_of_atom(&term.atom, variables) {
        None => None,
        Some(value) => small_product(term.coefficient, value),
    }
}

#[cycle(value)]
fn value_of_atom(atom: &Atom, variables: &Variables<'_>) -> Option<i128>
    ensures { result ≡ spec.value_of_atom (spec.meant variables.now) atom.now }
{
    match atom {
        Atom::Variable(variable) => variables.number(*variable),
        Atom::Power(exponent) => match value_of(exponent.get(), variables) {
            None => None,
            Some(exponent) => small_power(exponent),
        },
    }
}

/// A value, the largest integer where there is none.
#[tactic(auto, unfolding(sail_types::specs::Limits::largest))]
fn at_most_largest(value: Option<i128>) -> i128
    ensures { result ≡ spec.at_most_largest value }
{
    match value {
        Some(value) => value,
        None => LARGEST,
    }
}

/// A number, where its variables are these: it isn't constant where one of them isn't; one past the largest integer counts as that.
/// It fails where memory is wanting.
pub fn constant_under(
    alloc: Global,
    number: &Num,
    variables: &Variables<'_>,
) -> Result<Constant, AllocError>
    ensures { IfOk result (λ made. made ≡ spec.constant_under (spec.meant variables.now) number.now) }
{
    match first_free(number, variables) {
        Some(variable) => variables.constant(alloc, variable),
        None => Ok(Constant::Number(at_most_largest(value_of(number, variables)))),
    }
}

/// The same where it is constant.
pub fn constant_number(number: &Num, variables: &Variables<'_>) -> Option<i128>
    ensures { result ≡ spec.number_in (spec.constant_under (spec.meant variables.now) number.now) }
{
    match first_free(number, variables) {
        Some(variable) => variables.number(variable),
        None => Some(at_most_largest(value_of(number, variables))),
    }
}

/// What an Int or Bool variable stands for, where the variables are these; 0 for a Bool variable. It fails where memory is wanting.
pub fn index_under(
    alloc: Global,
    index: &Index,
    variables: &Variables<'_>,
) -> Result<Constant, AllocError>
    ensures { IfOk result (λ made. made ≡ spec.index_under (spec.meant variables.now) index.now) }
{
    match index {
        Index::Number(number) => constant_under(alloc, number, variables),
        Index::Truth(_) => Ok(Constant::Number(0)),
    }
}

/// The same of several. They fail where memory is wanting.
pub fn indices_under(
    alloc: Global,
    indices: &[Index],
    variables: &Variables<'_>,
) -> Result<Items<Constant>, AllocError>
    ensures { IfOk result (λ made. made ≡ map (spec.index_under (spec.meant variables.now)) indices.now) }
{
    let mut made = Items::new(alloc);
    for index in indices {
        made.push(index_under(alloc, index, variables)?)?;
    }
    Ok(made)
}

/// Whether a variable of a walk is in what an Int variable stands for.
pub fn names_variable(variable: u32, index: &Index) -> bool
    ensures { result ≡ spec.names_variable variable index.now }
{
    match index {
        Index::Number(number) => constant_number(number, &Variables::AllBut(variable)).is_none(),
        Index::Truth(_) => false,
    }
}
