//! The numbers and constraints that the table is written in.
ghost use Rattle.std.specs.Prelude.{◌≡◌, IfOk, [], ◌∷◌};
ghost use Rattle.sail_types.specs.Sums.{constant, variable as variable_of};
ghost use Rattle.row_types.specs.Formulas.{times as times_of, plus_times as plus_times_of};
ghost use Rattle.row_types.specs.Formulas.{times_power as times_power_of, at_most as at_most_of, equal as equal_of};
ghost use Rattle.row_types.specs.Formulas.{within as within_of, as_wide as as_wide_of};

use sail_base::{Boxed, Items};
use sail_types::{Atom, Comparison, Con, Num, Term, copy_num};
use std::alloc::{AllocError, Global};

/// The largest integer.
pub const MOST: i128 = 1 << 126;

/// The least integer.
pub const LEAST: i128 = -MOST;

/// So many times the number of an argument, and an integer.
pub fn times(
    alloc: Global,
    coefficient: i128,
    argument: u32,
    constant: i128,
) -> Result<Num, AllocError>
    ensures { IfOk result (λ made. made ≡ times_of coefficient argument constant) }
{
    let mut terms = Items::new(alloc);
    terms.push(Term {
        coefficient,
        atom: Atom::Variable(argument),
    })?;
    Ok(Num { terms, constant })
}

/// A number, so many times another, and an integer.
pub fn plus_times(
    alloc: Global,
    first: u32,
    coefficient: i128,
    second: u32,
    constant: i128,
) -> Result<Num, AllocError>
    ensures { IfOk result (λ made. made ≡ plus_times_of first coefficient second constant) }
{
    let mut terms = Items::new(alloc);
    terms.push(Term {
        coefficient: 1,
        atom: Atom::Variable(first),
    })?;
    terms.push(Term {
        coefficient,
        atom: Atom::Variable(second),
    })?;
    Ok(Num { terms, constant })
}

/// So many times 2 to the number of the first argument and an integer, and an integer.
pub fn times_power(
    alloc: Global,
    coefficient: i128,
    more: i128,
    constant: i128,
) -> Result<Num, AllocError>
    ensures { IfOk result (λ made. made ≡ times_power_of coefficient more constant) }
{
    let exponent = Boxed::new(alloc, times(alloc, 1, 0, more)?)?;
    let mut terms = Items::new(alloc);
    terms.push(Term {
        coefficient,
        atom: Atom::Power(exponent),
    })?;
    Ok(Num { terms, constant })
}

/// `low <= variable`
pub fn at_least(alloc: Global, low: i128, number: u32) -> Result<Con, AllocError>
    ensures { IfOk result (λ made. made ≡ at_most_of (constant low) (variable_of number)) }
{
    let number = Num::variable(alloc, number)?;
    Ok(Con::Compare(Comparison::LessEqual, Num::constant(alloc, low), number))
}

/// `first <= second`, both variables.
pub fn at_most(alloc: Global, first: u32, second: u32) -> Result<Con, AllocError>
    ensures { IfOk result (λ made. made ≡ at_most_of (variable_of first) (variable_of second)) }
{
    let first = Num::variable(alloc, first)?;
    Ok(Con::Compare(Comparison::LessEqual, first, Num::variable(alloc, second)?))
}

/// `variable <= high`
pub fn up_to(alloc: Global, number: u32, high: i128) -> Result<Con, AllocError>
    ensures { IfOk result (λ made. made ≡ at_most_of (variable_of number) (constant high)) }
{
    let number = Num::variable(alloc, number)?;
    Ok(Con::Compare(Comparison::LessEqual, number, Num::constant(alloc, high)))
}

/// `variable == t`
pub fn equal(alloc: Global, number: u32, to: Num) -> Result<Con, AllocError>
    ensures { IfOk result (λ made. made ≡ equal_of (variable_of number) to) }
{
    Ok(Con::Compare(Comparison::Equal, Num::variable(alloc, number)?, to))
}

/// One constraint alone.
pub fn one(alloc: Global, con: Con) -> Result<Items<Con>, AllocError>
    ensures { IfOk result (λ made. made ≡ con ∷ []) }
{
    let mut constraints = Items::new(alloc);
    constraints.push(con)?;
    Ok(constraints)
}

/// Two constraints.
pub fn two(alloc: Global, con: Con, other: Con) -> Result<Items<Con>, AllocError>
    ensures { IfOk result (λ made. made ≡ con ∷ other ∷ []) }
{
    let mut constraints = Items::new(alloc);
    constraints.push(con)?;
    constraints.push(other)?;
    Ok(constraints)
}

/// `low <= t` and `t <= high`
pub fn within(alloc: Global, low: i128, number: &Num, high: i128) -> Result<Items<Con>, AllocError>
    ensures { IfOk result (λ made. made ≡ within_of low number.now high) }
{
    let below = Con::Compare(
        Comparison::LessEqual,
        Num::constant(alloc, low),
        copy_num(alloc, number)?,
    );
    let above = Con::Compare(
        Comparison::LessEqual,
        copy_num(alloc, number)?,
        Num::constant(alloc, high),
    );
    two(alloc, below, above)
}

/// Both arguments are as wide.
pub fn as_wide(alloc: Global) -> Result<Items<Con>, AllocError>
    ensures { IfOk result (λ made. made ≡ as_wide_of) }
{
    one(alloc, equal(alloc, 0, Num::variable(alloc, 1)?)?)
}
