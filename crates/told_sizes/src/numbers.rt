//! Numbers that are known, those that are said where a type is opened, and those that a value tells.
ghost use Rattle.std.specs.Prelude.{◌≡◌, IfOk, map};
ghost use Rattle.sail_types.specs.Places.{atom_is as atom_is_of, is_variable as is_variable_of};
ghost use Rattle.sail_types.specs.declared.numbers.Atom.{out-Atom};
ghost use Rattle.size_values.specs.Numbers as numbers;
ghost use Rattle.told_sizes.specs.Exact as spec;

use crate::small::{both, same_integer};
use sail_base::Items;
use sail_types::{Atom, Index, Num, read_number};
use size_values::{Constant, Variables, value_of};
use std::alloc::{AllocError, Global};

/// Whether a number is known where its variables are these, with none past the largest integer on the way.
pub fn is_exact(number: &Num, variables: &Variables<'_>) -> bool
    ensures { result ≡ spec.is_exact (numbers.meant variables.now) number.now }
{
    value_of(number, variables).is_some()
}

/// The same of what an Int variable stands for; a truth isn't a size.
pub fn is_exact_index(index: &Index, variables: &Variables<'_>) -> bool
    ensures { result ≡ spec.is_exact_index (numbers.meant variables.now) index.now }
{
    match index {
        Index::Number(number) => is_exact(number, variables),
        Index::Truth(_) => false,
    }
}

/// A number as a constant, where it is known.
fn open_of(number: Option<i128>) -> Constant
    ensures { result ≡ spec.open_of number }
{
    match number {
        None => Constant::Open(0),
        Some(number) => Constant::Number(number),
    }
}

/// Numbers as constants, where they are known. They fail where memory is wanting.
pub fn open_constants(
    alloc: Global,
    numbers: &[Option<i128>],
) -> Result<Items<Constant>, AllocError>
    ensures { IfOk result (λ made. made ≡ map spec.open_of numbers.now) }
{
    let mut made = Items::new(alloc);
    for number in numbers {
        made.push(open_of(*number))?;
    }
    Ok(made)
}

/// What an Int or Bool variable stands for, as a constant where it is exact.
fn exact_index(index: &Index, variables: &Variables<'_>) -> Constant
    ensures { result ≡ spec.exact_index (numbers.meant variables.now) index.now }
{
    match index {
        Index::Number(number) => open_of(value_of(number, variables)),
        Index::Truth(_) => Constant::Open(0),
    }
}

/// The same of several. They fail where memory is wanting.
pub fn exact_constants(
    alloc: Global,
    indices: &[Index],
    variables: &Variables<'_>,
) -> Result<Items<Constant>, AllocError>
    ensures { IfOk result (λ made. made ≡ spec.exact_constants (numbers.meant variables.now) indices.now) }
{
    let mut made = Items::new(alloc);
    for index in indices {
        made.push(exact_index(index, variables))?;
    }
    Ok(made)
}

/// Whether two numbers are there and the same.
fn is_same(a: Option<i128>, b: Option<i128>) -> bool
    ensures { result ≡ spec.is_same a b }
{
    match (a, b) {
        (Some(a), Some(b)) => same_integer(a, b),
        _ => false,
    }
}

/// What a size is that is said by what the variables of its type stand for, where the variables of the walk are these. It fails where memory is
/// wanting.
fn said_value(
    alloc: Global,
    number: &Num,
    indices: &[Index],
    variables: &Variables<'_>,
) -> Result<Option<i128>, AllocError>
    ensures { IfOk result (λ value. value ≡ spec.said_value (numbers.meant variables.now) indices.now number.now) }
{
    match read_number(alloc, number, indices)? {
        None => Ok(None),
        Some(said) => Ok(value_of(&said, variables)),
    }
}

/// Whether a size can be said by what the variables of its type stand for, and is one integer both ways. It fails where memory is wanting.
pub fn is_said(
    alloc: Global,
    number: &Num,
    indices: &[Index],
    constants: &[Constant],
    variables: &Variables<'_>,
) -> Result<bool, AllocError>
    ensures { IfOk result (λ said. said ≡ spec.is_said (numbers.meant variables.now) indices.now constants.now number.now) }
{
    let value = said_value(alloc, number, indices, variables)?;
    Ok(is_same(value, value_of(number, &Variables::Arguments(constants))))
}

/// The same of what is given to an Int variable; a truth isn't a size.
pub fn is_said_index(
    alloc: Global,
    index: &Index,
    indices: &[Index],
    constants: &[Constant],
    variables: &Variables<'_>,
) -> Result<bool, AllocError>
    ensures { IfOk result (λ said. said ≡ spec.is_said_index (numbers.meant variables.now) indices.now constants.now index.now) }
{
    match index {
        Index::Number(number) => is_said(alloc, number, indices, constants, variables),
        Index::Truth(_) => Ok(false),
    }
}

/// Whether a type binds the variable.
fn is_bound(constant: &Constant) -> bool
    ensures { result ≡ spec.is_bound constant.now }
{
    match constant {
        Constant::Bound(_) => true,
        _ => false,
    }
}

/// Whether an atom is this variable.
fn atom_is(variable: usize, atom: &Atom) -> bool
    ensures { result ≡ atom_is_of variable (out-Atom atom.now) }
{
    match atom {
        Atom::Variable(number) => *number as usize == variable,
        Atom::Power(_) => false,
    }
}

/// Whether a number is this variable alone.
fn is_variable(variable: usize, number: &Num) -> bool
    ensures { result ≡ is_variable_of variable number.now }
{
    match number.terms.as_slice() {
        [term] => number.constant == 0 && term.coefficient == 1 && atom_is(variable, &term.atom),
        _ => false,
    }
}

/// Whether a number is a variable alone that a type binds.
fn is_bound_alone(constants: &[Constant], number: &Num) -> bool
    ensures { result ≡ spec.is_bound_alone 0 constants.now number.now }
{
    let mut index = 0;
    for constant in constants {
        if both(is_bound(constant), is_variable(index, number)) {
            return true;
        }
        index += 1;
    }
    false
}

/// Whether a size is a variable alone that a type binds, which the value tells, or can be said. It fails where memory is wanting.
pub fn is_told(
    alloc: Global,
    number: &Num,
    indices: &[Index],
    constants: &[Constant],
    variables: &Variables<'_>,
) -> Result<bool, AllocError>
    ensures { IfOk result (λ told. told ≡ spec.is_told (numbers.meant variables.now) indices.now constants.now number.now) }
{
    if is_bound_alone(constants, number) {
        return Ok(true);
    }
    is_said(alloc, number, indices, constants, variables)
}

/// The same of what is given to an Int variable; a truth isn't a size.
pub fn is_told_index(
    alloc: Global,
    index: &Index,
    indices: &[Index],
    constants: &[Constant],
    variables: &Variables<'_>,
) -> Result<bool, AllocError>
    ensures { IfOk result (λ told. told ≡ spec.is_told_index (numbers.meant variables.now) indices.now constants.now index.now) }
{
    match index {
        Index::Number(number) => is_told(alloc, number, indices, constants, variables),
        Index::Truth(_) => Ok(false),
    }
}
