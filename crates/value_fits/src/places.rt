//! The number that indices give to a variable of a type.
ghost use Rattle.std.specs.Prelude.{◌≡◌, map, IfOk};
ghost use Rattle.sail_types.specs.Places.{atom_is as atom_is_of, is_variable as is_variable_of, form_is as form_is_of, only};
ghost use Rattle.sail_types.specs.declared.numbers.Atom.{out-Atom};
ghost use Rattle.sail_types.specs.declared.numbers.Con.{out-Con};
ghost use Rattle.sail_types.specs.declared.numbers.Index.TheVariants as N;
ghost use Rattle.value_fits.specs.Fitting.{placed as placed_of, among};

use crate::pairs::pair_count;
use sail_types::{Atom, Con, Index, Num, Typ, copy_con, copy_num};
use std::alloc::{AllocError, Global};
use value_indices::Indices;

/// Whether an atom is this variable.
fn atom_is(variable: u32, atom: &Atom) -> bool
    ensures { result ≡ atom_is_of variable (out-Atom atom.now) }
{
    match atom {
        Atom::Variable(number) => *number == variable,
        Atom::Power(_) => false,
    }
}

/// Whether a number is this variable alone.
fn is_variable(variable: u32, number: &Num) -> bool
    ensures { result ≡ is_variable_of variable number.now }
{
    match number.terms.as_slice() {
        [term] => number.constant == 0 && term.coefficient == 1 && atom_is(variable, &term.atom),
        _ => false,
    }
}

/// Whether a constraint is this variable alone.
fn truth_is(variable: u32, con: &Con) -> bool
    ensures { result ≡ form_is_of variable (out-Con con.now) }
{
    match con {
        Con::Holds(number) => *number == variable,
        _ => false,
    }
}

/// A number, where the number of a type is this variable alone.
fn number_at(
    alloc: Global,
    variable: u32,
    number: &Num,
    given: &Num,
) -> Result<Option<Index>, AllocError>
    ensures { IfOk result (λ made. made ≡ only (is_variable_of variable number.now) (N.Number given.now)) }
{
    if is_variable(variable, number) {
        Ok(Some(Index::Number(copy_num(alloc, given)?)))
    } else {
        Ok(None)
    }
}

/// A truth, where the constraint of a type is this variable alone.
fn truth_at(
    alloc: Global,
    variable: u32,
    con: &Con,
    given: &Con,
) -> Result<Option<Index>, AllocError>
    ensures { IfOk result (λ made. made ≡ only (form_is_of variable (out-Con con.now)) (N.Truth given.now)) }
{
    if truth_is(variable, con) {
        Ok(Some(Index::Truth(copy_con(alloc, given)?)))
    } else {
        Ok(None)
    }
}

/// The number or truth that a value of these indices gives to a variable of a type, at its first place; none where it gives none. It
/// fails where memory is wanting, and where binders are too many.
#[cycle(placed)]
pub fn placed(
    alloc: Global,
    typ: &Typ,
    variable: u32,
    value: &Indices,
) -> Result<Option<Index>, AllocError>
    ensures { IfOk result (λ made. made ≡ placed_of typ.now variable value.now) }
{
    match (typ, value) {
        (Typ::Exists(_, _, inside), _) => match variable.checked_add(1) {
            None => Err(AllocError),
            Some(variable) => placed(alloc, inside.get(), variable, value),
        },
        (Typ::Int(number), Indices::Integer(given)) => number_at(alloc, variable, number, given),
        (Typ::Truth(con), Indices::Truth(given)) => truth_at(alloc, variable, con, given),
        (Typ::Bits(width), Indices::Bits(given)) => number_at(alloc, variable, width, given),
        (Typ::Vector(length, _), Indices::Vector(given, _)) => {
            number_at(alloc, variable, length, given)
        }
        (Typ::Tuple(types), Indices::Tuple(values)) => placed_among(
            alloc,
            types.as_slice(),
            variable,
            values.as_slice(),
        ),
        _ => Ok(None),
    }
}

/// The number or truth that the first of several values gives to a variable of their types; none where none does. It fails where
/// memory is wanting, and where binders are too many.
#[cycle(placed)]
pub fn placed_among(
    alloc: Global,
    types: &[Typ],
    variable: u32,
    values: &[Indices],
) -> Result<Option<Index>, AllocError>
    ensures { IfOk result (λ made. made ≡ among (map placed_of types.now) variable values.now) }
{
    let count = pair_count(types.len(), values.len());
    for index in 0..count {
        let found = placed(alloc, &types[index], variable, &values[index])?;
        if found.is_some() {
            return Ok(found);
        }
    }
    Ok(None)
}
