//! Constraints on the variables x and y.
use sail_base::Items;
use sail_types::{Atom, Comparison, Con, Num, Term};
use std::alloc::{AllocError, Global};

/// The 126th power of two, the largest integer of the language.
pub(crate) const LARGEST: i128 = 1 << 126;

/// The least integer of the language.
pub(crate) const LEAST: i128 = -(1 << 126);

/// 1 less.
pub(crate) const PAST_LEAST: i128 = -(1 << 126) - 1;

/// Puts so many of a variable.
fn put_term(terms: &mut Items<Term>, variable: u32, coefficient: i128) -> Result<(), AllocError> {
    if coefficient != 0 {
        terms.push(Term {
            coefficient,
            atom: Atom::Variable(variable),
        })?;
    }
    Ok(())
}

/// The sum of so many x and so many y.
pub(crate) fn sum(alloc: Global, x: i128, y: i128) -> Result<Num, AllocError> {
    let mut terms = Items::new(alloc);
    put_term(&mut terms, 0, x)?;
    put_term(&mut terms, 1, y)?;
    Ok(Num { terms, constant: 0 })
}

/// The sum of so many x and so many y, compared with a number.
pub(crate) fn compare(
    alloc: Global,
    how: Comparison,
    x: i128,
    y: i128,
    z: i128,
) -> Result<Con, AllocError> {
    Ok(Con::Compare(how, sum(alloc, x, y)?, Num::constant(alloc, z)))
}
