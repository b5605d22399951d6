//! What has to be constant at a step, and whether it is.
ghost use Rattle.std.specs.Prelude.{◌≡◌, ◌||◌, ◌++◌, IfOk, OnOk};
ghost use Rattle.std.specs.List.{list_any};
ghost use Rattle.call_notes.specs.Rows as rows;
ghost use Rattle.size_values.specs.Numbers as numbers;
ghost use Rattle.size_splits.specs.Reading as reading;
ghost use Rattle.size_splits.specs.Sizing as spec;

use sail_base::Items;
use sail_core::Callee;
use sail_types::{Index, Num, Row, Types, copy_con, copy_index, copy_num};
use size_values::{Variables, constant_number, is_one_open, reading_sizes, value_sizes};
use std::alloc::{AllocError, Global};
use value_indices::{Indices, Reading, Step};

/// Which variables of a function are size variables; none where there is no such function.
pub fn flags_of(sizing: &[Items<bool>], function: u32) -> &[bool]
    ensures { result.now ≡ spec.flags_of sizing.now function }
{
    match sizing.get(function as usize) {
        None => &[],
        Some(flags) => flags.as_slice(),
    }
}

/// Puts what is given to a variable at the end, if that is a size variable. The one error is want of memory.
fn push_where(
    alloc: Global,
    made: &mut Items<Index>,
    flag: bool,
    index: &Index,
) -> Result<(), AllocError>
    ensures { OnOk result (made.new ≡ made.old ++ spec.index_where flag index.now) }
{
    if flag {
        return made.push(copy_index(alloc, index)?);
    }
    Ok(())
}

/// What is given to size variables, in order. It fails where memory is wanting.
fn indices_where(
    alloc: Global,
    flags: &[bool],
    indices: &[Index],
) -> Result<Items<Index>, AllocError>
    ensures { IfOk result (λ made. made ≡ spec.indices_where flags.now indices.now) }
{
    let mut made = Items::new(alloc);
    for at in 0..flags.len() {
        if at >= indices.len() {
            return Ok(made);
        }
        push_where(alloc, &mut made, flags[at], &indices[at])?;
    }
    Ok(made)
}

/// Whether the first operand of a builtin has to be constant: the width of an access.
fn is_access(row: Row) -> bool
    ensures { result ≡ spec.is_access row }
{
    match row {
        Row::MemRead => true,
        Row::MemReserve => true,
        Row::MemWrite => true,
        Row::MemWriteCond => true,
        Row::MemMapped => true,
        _ => false,
    }
}

/// What stands for an argument: an integer itself, the width of bits, the length of a vector, a truth itself; 0 for any other. It fails
/// where memory is wanting.
fn argument_index(alloc: Global, value: &Indices) -> Result<Index, AllocError>
    ensures { IfOk result (λ made. made ≡ rows.argument_index value.now) }
{
    match value {
        Indices::Integer(number) => Ok(Index::Number(copy_num(alloc, number)?)),
        Indices::Bits(width) => Ok(Index::Number(copy_num(alloc, width)?)),
        Indices::Vector(length, _) => Ok(Index::Number(copy_num(alloc, length)?)),
        Indices::Truth(con) => Ok(Index::Truth(copy_con(alloc, con)?)),
        _ => Ok(Index::Number(Num::constant(alloc, 0))),
    }
}

/// What stands for the first operand, if there is one. It fails where memory is wanting.
fn first_index(alloc: Global, operands: &[Indices]) -> Result<Items<Index>, AllocError>
    ensures { IfOk result (λ made. made ≡ spec.first_index operands.now) }
{
    let mut made = Items::new(alloc);
    if let Some(operand) = operands.get(0) {
        made.push(argument_index(alloc, operand)?)?;
    }
    Ok(made)
}

/// What has to be constant among the numbers of a call: those that are given to size variables of a function, the width of an access. It
/// fails where memory is wanting.
pub fn given_indices(
    alloc: Global,
    sizing: &[Items<bool>],
    callee: &Callee,
    operands: &[Indices],
    indices: &[Index],
) -> Result<Items<Index>, AllocError>
    ensures { IfOk result (λ made. made ≡ spec.given_indices sizing.now callee.now operands.now indices.now) }
{
    match callee {
        Callee::Function(function) => indices_where(alloc, flags_of(sizing, *function), indices),
        Callee::Row(row) => if is_access(*row) {
            first_index(alloc, operands)
        } else {
            Ok(Items::new(alloc))
        },
        _ => Ok(Items::new(alloc)),
    }
}

/// Whether what is given isn't constant, where the variables are these.
fn is_open_index(index: &Index, variables: &Variables<'_>) -> bool
    ensures { result ≡ spec.is_open_index (numbers.meant variables.now) index.now }
{
    match index {
        Index::Number(number) => match constant_number(number, variables) {
            Some(_) => false,
            None => true,
        },
        Index::Truth(_) => false,
    }
}

/// Whether one of these isn't constant, where the variables are these.
fn is_open_in_indices(indices: &[Index], variables: &Variables<'_>) -> bool
    ensures { result ≡ list_any (spec.is_open_index (numbers.meant variables.now)) indices.now }
{
    for index in indices {
        if is_open_index(index, variables) {
            return true;
        }
    }
    false
}

/// Whether a size of one of these types isn't constant, where the variables are these. It fails where memory is wanting.
fn is_open_in_readings(
    alloc: Global,
    types: &Types,
    readings: &[Reading],
    variables: &Variables<'_>,
) -> Result<bool, AllocError>
    ensures { IfOk result (λ is. is ≡ list_any (spec.is_open_reading types.now (numbers.meant variables.now)) readings.now) }
{
    for reading in readings {
        let sizes = reading_sizes(alloc, types, reading, variables)?;
        if is_one_open(sizes.as_slice()) {
            return Ok(true);
        }
    }
    Ok(false)
}

/// Whether something isn't constant that has to be in a call, where the variables are these. It fails where memory is wanting.
fn is_open_call(
    alloc: Global,
    types: &Types,
    given: &[Index],
    readings: &[Reading],
    variables: &Variables<'_>,
) -> Result<bool, AllocError>
    ensures { IfOk result (λ is. is ≡ (list_any (spec.is_open_index (numbers.meant variables.now)) given.now
        || list_any (spec.is_open_reading types.now (numbers.meant variables.now)) readings.now)) }
{
    if is_open_in_indices(given, variables) {
        return Ok(true);
    }
    is_open_in_readings(alloc, types, readings, variables)
}

/// Whether something isn't constant that has to be at a step that makes this, where the variables are these. It fails where memory is
/// wanting.
pub fn is_open_value(
    alloc: Global,
    types: &Types,
    sizing: &[Items<bool>],
    step: &Step,
    indices: &Indices,
    variables: &Variables<'_>,
) -> Result<bool, AllocError>
    ensures { IfOk result (λ is. is ≡ reading.is_open_value types.now sizing.now (numbers.meant variables.now) step.now indices.now) }
{
    match step {
        Step::Sizes(_, _) => {
            let sizes = value_sizes(alloc, types, indices, variables)?;
            Ok(is_one_open(sizes.as_slice()))
        }
        Step::Calls(_, _, operands, callee, numbers, readings) => {
            let operands = operands.as_slice();
            let given = given_indices(alloc, sizing, callee, operands, numbers.as_slice())?;
            is_open_call(
                alloc,
                types,
                given.as_slice(),
                readings.as_slice(),
                variables,
            )
        }
        _ => Ok(false),
    }
}

/// Whether a variable is in what has to be constant at a step that makes this. It fails where memory is wanting.
pub fn value_names(
    alloc: Global,
    types: &Types,
    sizing: &[Items<bool>],
    variable: u32,
    step: &Step,
    indices: &Indices,
) -> Result<bool, AllocError>
    ensures { IfOk result (λ is. is ≡ reading.value_names types.now sizing.now variable step.now indices.now) }
{
    let variables = Variables::AllBut(variable);
    is_open_value(alloc, types, sizing, step, indices, &variables)
}
