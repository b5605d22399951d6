//! What is noted at a node that makes a value: what it makes of its operands, and the numbers of variables that the value gives.
ghost use Rattle.std.specs.Prelude.{◌≡◌, ◌++◌, map, IfOk, OnOk};
ghost use Rattle.sail_types.specs.declared.numbers.Atom.{out-Atom};
ghost use Rattle.value_indices.specs.Walking as walk;
ghost use Rattle.value_indices.specs.declared.notes.Made.TheVariants as Makes;
ghost use Rattle.call_arguments.specs.Placing.{atom_variable as atom_variable_of, variable_in};
ghost use Rattle.call_notes.specs.Noted as noted;

use crate::ends::opened_at;
use pattern_leaves::{Bound, Held};
use sail_base::{Items, Place};
use sail_core::Giver;
use sail_types::{Atom, Num};
use std::alloc::{AllocError, Global};
use value_indices::{Indices, Made, Reading, Walking, copy_each, copy_indices, copy_reading};

/// Notes that the node of a number makes a value of a type of these operands. It fails where memory is wanting.
pub fn made_by_type(
    alloc: Global,
    walking: &mut Walking,
    number: u32,
    operands: &[Indices],
    reading: &Reading,
) -> Result<(), AllocError>
    ensures { OnOk result (walk.seen walking.new
        ≡ walk.run (noted.node_made number operands.now (Makes.ByType reading.now)) (walk.seen walking.old)) }
{
    let operands = copy_each(alloc, operands)?;
    let reading = copy_reading(alloc, reading)?;
    walking.note_made(number, operands, Made::ByType(reading))
}

/// Notes that the node of a number makes a value of these indices of these operands. It fails where memory is wanting.
pub fn made_by_value(
    alloc: Global,
    walking: &mut Walking,
    number: u32,
    operands: &[Indices],
    value: &Indices,
) -> Result<(), AllocError>
    ensures { OnOk result (walk.seen walking.new
        ≡ walk.run (noted.node_made number operands.now (Makes.ByIndices value.now)) (walk.seen walking.old)) }
{
    let operands = copy_each(alloc, operands)?;
    let value = copy_indices(alloc, value)?;
    walking.note_made(number, operands, Made::ByIndices(value))
}

/// The value that the node of a number makes of these operands, noted. It fails where memory is wanting.
#[tactic(auto, using(value_indices::proofs::Walks::walks))]
pub fn node_ended(
    alloc: Global,
    walking: &mut Walking,
    number: u32,
    operands: &[Indices],
    value: Indices,
) -> Result<Indices, AllocError>
    ensures value { IfOk result (λ made. made ≡ walk.got (noted.node_ended number operands.now value) (walk.seen walking.old)) }
    ensures walked { OnOk result (walk.seen walking.new ≡ walk.run (noted.node_ended number operands.now value) (walk.seen walking.old)) }
{
    made_by_value(alloc, walking, number, operands, &value)?;
    Ok(value)
}

/// A value of a type that the node of a number makes of these operands, opened at a place; that, and then its sizes, are noted before. It
/// fails where memory is wanting, and where variables are too many.
#[tactic(auto, using(value_indices::proofs::Walks::walks))]
pub fn made_opened(
    alloc: Global,
    walking: &mut Walking,
    place: Place,
    number: u32,
    operands: &[Indices],
    reading: &Reading,
) -> Result<Indices, AllocError>
    ensures value { IfOk result (λ made. made
        ≡ walk.got (noted.made_opened place number operands.now reading.now) (walk.seen walking.old)) }
    ensures walked { OnOk result (walk.seen walking.new
        ≡ walk.run (noted.made_opened place number operands.now reading.now) (walk.seen walking.old)) }
{
    made_by_type(alloc, walking, number, operands, reading)?;
    opened_at(alloc, walking, place, reading)
}

/// The variable that an atom is; none where it is a power.
fn atom_variable(atom: &Atom) -> Option<u32>
    ensures { result ≡ atom_variable_of (out-Atom atom.now) }
{
    match atom {
        Atom::Variable(number) => Some(*number),
        Atom::Power(_) => None,
    }
}

/// The variable that a number is; none where it is something else.
fn number_variable(number: &Num) -> Option<u32>
    ensures { result ≡ variable_in number.now }
{
    if number.constant != 0 {
        return None;
    }
    match number.terms.as_slice() {
        [term] => {
            if term.coefficient == 1 {
                atom_variable(&term.atom)
            } else {
                None
            }
        }
        _ => None,
    }
}

/// The number of a variable is noted from here on, if there is one. It fails where memory is wanting.
#[tactic(auto, using(value_indices::proofs::Walks::walks))]
fn give_variable(walking: &mut Walking, variable: Option<u32>) -> Result<(), AllocError>
    ensures { OnOk result (walk.seen walking.new ≡ walk.run (noted.number_given variable) (walk.seen walking.old)) }
{
    match variable {
        None => Ok(()),
        Some(variable) => walking.give_number(variable),
    }
}

/// The numbers that a value gives are noted from here on. It fails where memory is wanting.
#[cycle(numbers_given)]
#[tactic(auto, using(value_indices::proofs::Walks::walks))]
fn give_numbers(walking: &mut Walking, value: &Indices) -> Result<(), AllocError>
    ensures { OnOk result (walk.seen walking.new ≡ walk.run (noted.numbers_given value.now) (walk.seen walking.old)) }
{
    match value {
        Indices::Integer(number) => give_variable(walking, number_variable(number)),
        Indices::Bits(width) => give_variable(walking, number_variable(width)),
        Indices::Vector(length, _) => give_variable(walking, number_variable(length)),
        Indices::Tuple(parts) => give_each(walking, parts.as_slice()),
        _ => Ok(()),
    }
}

/// Those that the parts of a tuple give. They fail where memory is wanting.
#[cycle(numbers_given)]
fn give_each(walking: &mut Walking, parts: &[Indices]) -> Result<(), AllocError>
    ensures { OnOk result (walk.seen walking.new
        ≡ walk.run (noted.all_given (map noted.numbers_given parts.now)) (walk.seen walking.old)) }
{
    for part in parts {
        give_numbers(walking, part)?;
    }
    Ok(())
}

/// Notes what gives the numbers of a value: they are noted from here on. It fails where memory is wanting.
#[tactic(auto, using(value_indices::proofs::Walks::walks))]
pub fn note_numbers_by(
    alloc: Global,
    walking: &mut Walking,
    giver: Giver,
    value: &Indices,
) -> Result<(), AllocError>
    ensures { OnOk result (walk.seen walking.new ≡ walk.run (noted.numbers_by giver value.now) (walk.seen walking.old)) }
{
    let given = copy_indices(alloc, value)?;
    walking.note_given(giver, given)?;
    give_numbers(walking, value)
}

/// Notes that the node of a number gives the numbers of a value: they are noted from here on. It fails where memory is wanting.
pub fn note_numbers(
    alloc: Global,
    walking: &mut Walking,
    number: u32,
    value: &Indices,
) -> Result<(), AllocError>
    ensures { OnOk result (walk.seen walking.new ≡ walk.run (noted.numbers_noted number value.now) (walk.seen walking.old)) }
{
    note_numbers_by(alloc, walking, Giver::Node(number), value)
}

/// The value that the node of a number gives, whose numbers are noted from here on. It fails where memory is wanting.
#[tactic(auto, using(value_indices::proofs::Walks::walks))]
pub fn node_given(
    alloc: Global,
    walking: &mut Walking,
    number: u32,
    value: Indices,
) -> Result<Indices, AllocError>
    ensures value { IfOk result (λ made. made ≡ walk.got (noted.node_given number value) (walk.seen walking.old)) }
    ensures walked { OnOk result (walk.seen walking.new ≡ walk.run (noted.node_given number value) (walk.seen walking.old)) }
{
    note_numbers(alloc, walking, number, &value)?;
    Ok(value)
}

/// What a name holds; nothing of a `var`. It fails where memory is wanting.
fn name_indices(alloc: Global, name: &Bound) -> Result<Indices, AllocError>
    ensures { IfOk result (λ made. made ≡ noted.name_indices name.now) }
{
    match &name.held {
        Held::Value(indices) => copy_indices(alloc, indices),
        Held::Var(_) => Ok(Indices::Unit),
    }
}

/// These, and what names hold behind them, in order. It fails where memory is wanting.
fn with_names(
    alloc: Global,
    values: &[Indices],
    names: &[Bound],
) -> Result<Items<Indices>, AllocError>
    ensures { IfOk result (λ made. made ≡ values.now ++ map noted.name_indices names.now) }
{
    let mut made = copy_each(alloc, values)?;
    for name in names {
        made.push(name_indices(alloc, name)?)?;
    }
    Ok(made)
}

/// The names that an arm binds over these values: the numbers of both are noted from here on. It fails where memory is wanting.
#[tactic(auto, using(value_indices::proofs::Walks::walks))]
pub fn names_given(
    alloc: Global,
    walking: &mut Walking,
    giver: Giver,
    values: &[Indices],
    found: Items<Bound>,
) -> Result<Items<Bound>, AllocError>
    ensures value { IfOk result (λ made. made ≡ walk.got (noted.names_given giver values.now found) (walk.seen walking.old)) }
    ensures walked { OnOk result (walk.seen walking.new ≡ walk.run (noted.names_given giver values.now found) (walk.seen walking.old)) }
{
    let held = Indices::Tuple(with_names(alloc, values, found.as_slice())?);
    note_numbers_by(alloc, walking, giver, &held)?;
    Ok(found)
}
