//! Sums, products and substitutions of numbers.
ghost use Rattle.sail_types.specs.Limits.{small_power as small_power_of};
ghost use Rattle.std.specs.Prelude.{if◌then◌else◌, ◌≡◌, ◌↔◌, ◌<◌, ◌+ℤ◌, IsTrue, IfOk, length, position};
ghost use Rattle.sail_types.specs.Sums.{eq_atom, atom_of, coefficient_at, constant as const_num, variable, placed_term, with_term, kept};
ghost use Rattle.sail_types.specs.Sums.{plus_term as plus_term_of, plus_terms as plus_terms_of, plus_constant as plus_constant_of, plus as plus_of};
ghost use Rattle.sail_types.specs.Sums.{sum, difference, product, power_num, of_atom, is_constant, constant_of};

use crate::numbers::{Atom, Num, Term};
use crate::small::{both, is_small, same_integer, small_power, small_product, small_sum};
use sail_base::{Boxed, Items};
use std::alloc::{AllocError, Global};

impl Num {
    /// The number that is this integer. It takes no memory.
    pub fn constant(alloc: Global, constant: i128) -> Num
        ensures { result ≡ const_num constant }
    {
        Num {
            terms: Items::new(alloc),
            constant,
        }
    }

    /// The number that is this atom alone. It fails where memory is wanting.
    pub fn of_atom(alloc: Global, atom: Atom) -> Result<Num, AllocError>
        ensures { IfOk result (λ made. made ≡ of_atom atom) }
    {
        let mut terms = Items::new(alloc);
        terms.push(Term {
            coefficient: 1,
            atom,
        })?;
        Ok(Num { terms, constant: 0 })
    }

    /// The number that is this variable alone. It fails where memory is wanting.
    pub fn variable(alloc: Global, number: u32) -> Result<Num, AllocError>
        ensures { IfOk result (λ made. made ≡ variable number) }
    {
        Num::of_atom(alloc, Atom::Variable(number))
    }
}

/// Whether two atoms are the same variable, or powers with the same exponent.
#[cycle(same_num)]
pub fn same_atom(a: &Atom, b: &Atom) -> bool
    ensures { IsTrue result ↔ (a.now ≡ b.now) }
{
    match (a, b) {
        (Atom::Variable(i), Atom::Variable(j)) => *i == *j,
        (Atom::Power(t), Atom::Power(u)) => same_num(t.get(), u.get()),
        _ => false,
    }
}

#[tactic(auto, using(crate::proofs::Trees::same_parts))]
/// Whether two numbers are the same: the same terms in the same order, and the same constant.
#[cycle(same_num)]
pub fn same_num(a: &Num, b: &Num) -> bool
    ensures { IsTrue result ↔ (a.now ≡ b.now) }
{
    both(
        same_terms(a.terms.as_slice(), b.terms.as_slice()),
        same_integer(&a.constant, &b.constant),
    )
}

#[cycle(same_num)]
fn same_terms(a: &[Term], b: &[Term]) -> bool
    ensures { IsTrue result ↔ (a.now ≡ b.now) }
{
    if a.len() != b.len() {
        return false;
    }
    let mut at = 0;
    for item in a {
        if !same_term(item, &b[at]) {
            return false;
        }
        at += 1;
    }
    true
}

#[cycle(same_num)]
fn same_term(a: &Term, b: &Term) -> bool
    ensures { IsTrue result ↔ (a.now ≡ b.now) }
{
    both(
        same_integer(&a.coefficient, &b.coefficient),
        same_atom(&a.atom, &b.atom),
    )
}

/// The same atom once more. It fails where memory is wanting.
#[cycle(copy_num)]
pub fn copy_atom(alloc: Global, atom: &Atom) -> Result<Atom, AllocError>
    ensures { IfOk result (λ copy. copy ≡ atom.now) }
{
    match atom {
        Atom::Variable(number) => Ok(Atom::Variable(*number)),
        Atom::Power(t) => Ok(Atom::Power(Boxed::new(alloc, copy_num(alloc, t.get())?)?)),
    }
}

/// The same number once more. It fails where memory is wanting.
#[cycle(copy_num)]
pub fn copy_num(alloc: Global, n: &Num) -> Result<Num, AllocError>
    ensures { IfOk result (λ copy. copy ≡ n.now) }
{
    let terms = copy_terms(alloc, n.terms.as_slice())?;
    Ok(Num {
        terms,
        constant: n.constant,
    })
}

#[cycle(copy_num)]
fn copy_terms(alloc: Global, terms: &[Term]) -> Result<Items<Term>, AllocError>
    ensures { IfOk result (λ copy. copy ≡ terms.now) }
{
    let mut copies = Items::new(alloc);
    for term in terms {
        copies.push(copy_term(alloc, term)?)?;
    }
    Ok(copies)
}

#[cycle(copy_num)]
fn copy_term(alloc: Global, term: &Term) -> Result<Term, AllocError>
    ensures { IfOk result (λ copy. copy ≡ term.now) }
{
    let atom = copy_atom(alloc, &term.atom)?;
    Ok(Term {
        coefficient: term.coefficient,
        atom,
    })
}

/// The test of the definitions on two atoms.
fn is_atom(a: &Atom, b: &Atom) -> bool
    ensures { result ≡ eq_atom a.now b.now }
{
    same_atom(a, b)
}

/// The index of the first term with this atom.
fn position_of(terms: &[Term], atom: &Atom) -> Option<usize>
    ensures { result ≡ position (λ t. eq_atom (atom_of t) atom.now) terms.now }
{
    terms.iter().position(|term| is_atom(&term.atom, atom))
}

/// Gives a term this coefficient and this atom, or takes it out where the coefficient is 0.
fn put_term(terms: &mut Vec<Term>, index: usize, coefficient: i128, atom: Atom)
    requires { index < length terms.old.items }
    ensures { terms.new.items ≡ placed_term terms.old.items index coefficient atom }
{
    if coefficient == 0 {
        let _ = terms.remove(index);
    } else {
        terms[index] = Term { coefficient, atom };
    }
}

/// Adds to the coefficient of a term; one that becomes 0 is taken out. It is false, and the terms are
/// unchanged, where the coefficient would be past the largest integer.
#[tactic(auto, using(crate::proofs::TermSums::at_item))]
fn merge(terms: &mut Vec<Term>, index: usize, coefficient: i128, atom: Atom) -> bool
    requires { index < length terms.old.items }
    ensures { with_term terms.old.items index (coefficient_at terms.old.items index +ℤ coefficient) atom ≡ kept result terms.new.items }
{
    match small_sum(terms[index].coefficient, coefficient) {
        None => false,
        Some(sum) => {
            put_term(terms, index, sum, atom);
            true
        }
    }
}

/// Adds a term: to the first one with its atom, else behind all. It is false where a coefficient would be
/// past the largest integer; it fails where memory is wanting.
fn plus_term(terms: &mut Vec<Term>, coefficient: i128, atom: Atom) -> Result<bool, AllocError>
    ensures { IfOk result (λ fine. plus_term_of terms.old.items coefficient atom ≡ kept fine terms.new.items) }
{
    if !is_small(coefficient) {
        return Ok(false);
    }
    match position_of(terms.as_slice(), &atom) {
        Some(index) => Ok(merge(terms, index, coefficient, atom)),
        None => {
            if coefficient != 0 {
                terms.push(Term { coefficient, atom })?;
            }
            Ok(true)
        }
    }
}

/// Adds so many times these terms, one after another.
fn plus_terms(
    alloc: Global,
    times: i128,
    from: &[Term],
    terms: &mut Vec<Term>,
) -> Result<bool, AllocError>
    ensures { IfOk result (λ fine. plus_terms_of times from.now terms.old.items ≡ kept fine terms.new.items) }
{
    for term in from {
        let Some(coefficient) = small_product(times, term.coefficient) else {
            return Ok(false);
        };
        if !plus_term(terms, coefficient, copy_atom(alloc, &term.atom)?)? {
            return Ok(false);
        }
    }
    Ok(true)
}

/// Adds a constant. There is none where it or the sum is past the largest integer.
pub fn plus_constant(number: Num, constant: i128) -> Option<Num>
    ensures { result ≡ plus_constant_of constant number }
{
    if !is_small(constant) {
        return None;
    }
    let (terms, before) = number.into_parts();
    match small_sum(before, constant) {
        None => None,
        Some(constant) => Some(Num { terms, constant }),
    }
}

/// A number with so many times another, added term by term and then its constant; none where a number past
/// the largest integer stands on the way. It fails where memory is wanting.
pub fn plus(alloc: Global, times: i128, other: &Num, number: Num) -> Result<Option<Num>, AllocError>
    ensures { IfOk result (λ made. made ≡ plus_of times other.now number) }
{
    let (terms, constant) = number.into_parts();
    let mut terms = terms.into_vec();
    if !plus_terms(alloc, times, other.terms.as_slice(), &mut terms)? {
        return Ok(None);
    }
    let terms = Items::from_vec(terms);
    match small_product(times, other.constant) {
        None => Ok(None),
        Some(more) => Ok(plus_constant(Num { terms, constant }, more)),
    }
}

/// The sum of two numbers, the terms of the first one first; none where a number past the largest integer
/// stands on the way. It fails where memory is wanting.
pub fn add(alloc: Global, a: &Num, b: &Num) -> Result<Option<Num>, AllocError>
    ensures { IfOk result (λ made. made ≡ sum a.now b.now) }
{
    plus(alloc, 1, b, copy_num(alloc, a)?)
}

/// The difference of two numbers; none where a number past the largest integer stands on the way. It fails
/// where memory is wanting.
pub fn subtract(alloc: Global, a: &Num, b: &Num) -> Result<Option<Num>, AllocError>
    ensures { IfOk result (λ made. made ≡ difference a.now b.now) }
{
    plus(alloc, -1, b, copy_num(alloc, a)?)
}

/// The product of two numbers; none where neither is constant, and where a number past the largest integer
/// stands on the way. It fails where memory is wanting.
pub fn multiply(alloc: Global, a: &Num, b: &Num) -> Result<Option<Num>, AllocError>
    ensures { IfOk result (λ made. made ≡ product a.now b.now) }
{
    let zero = Num::constant(alloc, 0);
    if a.terms.is_empty() {
        plus(alloc, a.constant, b, zero)
    } else if b.terms.is_empty() {
        plus(alloc, b.constant, a, zero)
    } else {
        Ok(None)
    }
}

/// 2 to a number: a constant where that is one from 0 to 126, elsewhere an atom. It fails where memory is
/// wanting.
pub fn power(alloc: Global, exponent: Num) -> Result<Num, AllocError>
    ensures { IfOk result (λ made. made ≡ power_num exponent) }
{
    match constant_power(&exponent) {
        Some(value) => Ok(Num::constant(alloc, value)),
        None => Num::of_atom(alloc, Atom::Power(Boxed::new(alloc, exponent)?)),
    }
}

/// 2 to a number that is constant and from 0 to 126.
fn constant_power(exponent: &Num) -> Option<i128>
    ensures { result ≡ (if is_constant exponent.now then small_power_of (constant_of exponent.now) else None) }
{
    if exponent.terms.is_empty() {
        small_power(exponent.constant)
    } else {
        None
    }
}
