//! The places that give a callee's variables their numbers.
ghost use Rattle.std.specs.Prelude.{◌≡◌, IfOk, OnOk};
ghost use Rattle.sail_types.specs.declared.numbers.Atom.{out-Atom};
ghost use Rattle.sail_types.specs.declared.numbers.Con.{out-Con};
ghost use Rattle.value_fits.specs.Fitting.{placed as placed_of};
ghost use Rattle.call_arguments.specs.Placing as places;

use crate::counts::small;
use sail_base::Items;
use sail_types::{Atom, Con, Index, Num, Typ, read_con, read_number};
use std::alloc::{AllocError, Global};
use value_fits::{Fitted, number_fits, placed, truth_fits};
use value_indices::Indices;

/// The variable that an atom is; none where it is a power.
fn atom_variable(atom: &Atom) -> Option<u32>
    ensures { result ≡ places.atom_variable (out-Atom atom.now) }
{
    match atom {
        Atom::Variable(number) => Some(*number),
        Atom::Power(_) => None,
    }
}

/// The variable that a number is; none where it is something else.
pub fn number_variable(number: &Num) -> Option<u32>
    ensures { result ≡ places.variable_in number.now }
{
    if number.constant != 0 {
        return None;
    }
    match number.terms.as_slice() {
        [term] => {
            if term.coefficient == 1 {
                atom_variable(&term.atom)
            } else {
                None
            }
        }
        _ => None,
    }
}

/// The variable that a condition is; none where it is something else.
pub fn con_variable(con: &Con) -> Option<u32>
    ensures { result ≡ places.form_variable (out-Con con.now) }
{
    match con {
        Con::Holds(number) => Some(*number),
        _ => None,
    }
}

/// Whether the place of a variable has been.
fn is_placed(known: &[u32], variable: u32) -> bool
    ensures { result ≡ places.is_placed known.now variable }
{
    for number in known {
        if variable == *number {
            return true;
        }
    }
    false
}

/// Whether a place gives the number of a variable that has none yet; that has one then. It fails where memory is wanting.
pub fn gives_number(known: &mut Items<u32>, variable: Option<u32>) -> Result<bool, AllocError>
    ensures gives { IfOk result (λ gives. gives ≡ places.gives_number known.old variable) }
    ensures placed { OnOk result (known.new ≡ places.placed_behind known.old variable) }
{
    match variable {
        None => Ok(false),
        Some(variable) => {
            if is_placed(known.as_slice(), variable) {
                Ok(false)
            } else {
                known.push(variable)?;
                Ok(true)
            }
        }
    }
}

/// Takes note that a variable of a type has its place, where a value of that type gives it a number. It fails where memory is wanting, and
/// where binders are too many.
fn place_one(
    alloc: Global,
    typ: &Typ,
    value: &Indices,
    variable: u32,
    known: &mut Items<u32>,
) -> Result<(), AllocError>
    ensures { OnOk result (known.new ≡ places.placed_by (placed_of typ.now variable value.now) variable known.old) }
{
    match placed(alloc, typ, variable, value)? {
        None => Ok(()),
        Some(_) => {
            gives_number(known, Some(variable))?;
            Ok(())
        }
    }
}

/// The same of so many variables. It fails where memory is wanting, and where binders are too many.
pub fn place_within(
    alloc: Global,
    typ: &Typ,
    value: &Indices,
    variables: usize,
    known: &mut Items<u32>,
) -> Result<(), AllocError>
    ensures { OnOk result (known.new ≡ places.placed_within typ.now value.now variables known.old) }
{
    for variable in 0..variables {
        place_one(alloc, typ, value, small(variable)?, known)?;
    }
    Ok(())
}

/// What has to be true for a number to be what another is where its variables stand for these arguments; nothing where that gives the
/// number of a variable. It fails where memory is wanting.
pub fn number_placed(
    alloc: Global,
    indices: &[Index],
    wanted: &Num,
    known: &mut Items<u32>,
    number: &Num,
    next: u32,
) -> Result<Fitted, AllocError>
    ensures fitted { IfOk result (λ made. made ≡ places.Placing.fitted (places.number_placed indices.now wanted.now known.old number.now next)) }
    ensures placed { OnOk result (known.new ≡ places.Placing.placed (places.number_placed indices.now wanted.now known.old number.now next)) }
{
    if gives_number(known, number_variable(wanted))? {
        return Ok(Fitted::nothing(alloc, next));
    }
    let wanted = read_number(alloc, wanted, indices)?;
    let conditions = number_fits(alloc, number, wanted)?;
    Ok(Fitted::says(alloc, conditions, next))
}

/// What has to be true for a truth to be what another is where its variables stand for these arguments; nothing where that gives the
/// truth of a variable. It fails where memory is wanting.
pub fn truth_placed(
    alloc: Global,
    indices: &[Index],
    wanted: &Con,
    known: &mut Items<u32>,
    truth: &Con,
    next: u32,
) -> Result<Fitted, AllocError>
    ensures fitted { IfOk result (λ made. made ≡ places.Placing.fitted (places.truth_placed indices.now wanted.now known.old truth.now next)) }
    ensures placed { OnOk result (known.new ≡ places.Placing.placed (places.truth_placed indices.now wanted.now known.old truth.now next)) }
{
    if gives_number(known, con_variable(wanted))? {
        return Ok(Fitted::nothing(alloc, next));
    }
    let wanted = read_con(alloc, wanted, indices)?;
    let conditions = truth_fits(alloc, truth, wanted)?;
    Ok(Fitted::says(alloc, conditions, next))
}
