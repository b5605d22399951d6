//! What has to be constant at a call, and what it leads to.
ghost use Rattle.std.specs.Prelude.{◌≡◌, List, IfOk, map, min};
ghost use Rattle.size_values.specs.Sized.{number_where};
ghost use Rattle.size_values.specs.Sizes.{joined, reading_sizes as reading_sizes_of};
ghost use Rattle.size_values.specs.declared.constants.Picked.{Picked as Taken};
ghost use Rattle.monomorph.specs.Found.{outcome};
ghost use Rattle.monomorph.specs.Reading as spec;

use crate::error::MonoError;
use crate::found::{Found, add, add_mapping};
use crate::inside::Inside;
use crate::refusals::{constants_refused, sizes_refused};
use sail_base::{Items, Place};
use sail_core::Callee;
use sail_types::Index;
use size_splits::{flags_of, given_indices};
use size_values::{
    Constant, Picked, Size, Variables, indices_under, reading_sizes, readings_sized,
};
use sized_nodes::Instance;
use std::alloc::{AllocError, Global};
use value_indices::{Indices, Reading};

/// A call that is read.
#[derive(Clone, Copy)]
pub struct Call<'a> {
    /// Where it stands.
    pub place: Place,
    /// Its operands.
    pub operands: &'a [Indices],
    /// What is called.
    pub callee: Callee,
    /// What is given to Int and Bool variables.
    pub numbers: &'a [Index],
    /// What is given to Type variables.
    pub types: &'a [Reading],
}

/// The number that is given to a variable, if it is a size variable.
fn number_given(is_size: &bool, constant: &Constant) -> Option<i128>
    ensures { result ≡ number_where is_size.now constant.now }
{
    if !*is_size {
        return None;
    }
    match constant {
        Constant::Number(number) => Some(*number),
        _ => Some(0),
    }
}

/// The lesser one of two counts.
pub fn lesser(first: usize, second: usize) -> usize
    ensures { result ≡ min first second }
{
    if first < second { first } else { second }
}

/// The numbers that are given to size variables, each at its place. It fails where memory is wanting.
fn given(
    alloc: Global,
    flags: &[bool],
    constants: &[Constant],
) -> Result<Items<Option<i128>>, AllocError>
    ensures { IfOk result (λ made. made ≡ spec.given flags.now constants.now) }
{
    let mut made = Items::new(alloc);
    let count = lesser(flags.len(), constants.len());
    for at in 0..count {
        let flag = &flags[at];
        let constant = &constants[at];
        made.push(number_given(flag, constant))?;
    }
    Ok(made)
}

/// The instance of a function that is called where these numbers are taken, of those that are given to its Int and Bool variables, and of these
/// types. It fails where memory is wanting.
pub fn instance_of(
    alloc: Global,
    inside: &Inside<'_>,
    picked: &[Picked],
    function: u32,
    numbers: &[Index],
    types: &[Reading],
) -> Result<Instance, AllocError>
    ensures { IfOk result (λ made. made ≡ spec.instance_of (spec.inside_of inside.now) (spec.under (spec.inside_of inside.now) picked.now) function
        numbers.now types.now) }
{
    let variables = Variables::Known(inside.numbers, picked);
    let constants = indices_under(alloc, numbers, &variables)?;
    let flags = flags_of(inside.sizing, function);
    let numbers = given(alloc, flags, constants.as_slice())?;
    let types = readings_sized(alloc, inside.types, inside.own, types, &variables)?;
    Ok(Instance {
        function,
        numbers,
        types,
    })
}

/// Adds the mapping of a direction, of which it has two. It fails where memory is wanting.
pub fn add_direction(
    found: &mut Items<Found>,
    direction: u32,
) -> Result<Option<MonoError>, AllocError>
    ensures { (picked : List Taken) → IfOk result (λ refused. outcome refused found.new ≡ spec.read_way direction picked found.old) }
{
    add_mapping(found, direction / 2)?;
    Ok(None)
}

/// Adds what a call leads to. It fails where memory is wanting.
fn add_callee(
    alloc: Global,
    inside: &Inside<'_>,
    call: &Call<'_>,
    picked: &[Picked],
    found: &mut Items<Found>,
) -> Result<Option<MonoError>, AllocError>
    ensures { IfOk result (λ refused. outcome refused found.new ≡ spec.called (spec.inside_of inside.now) call.now.place
        (spec.under (spec.inside_of inside.now) picked.now) call.now.callee call.now.numbers.now call.now.types.now found.old) }
{
    match call.callee {
        Callee::Function(function) => {
            let instance = instance_of(alloc, inside, picked, function, call.numbers, call.types)?;
            add(found, call.place, instance)
        }
        Callee::Converts(direction) => add_direction(found, direction),
        Callee::Applies(direction) => add_direction(found, direction),
        _ => Ok(None),
    }
}

/// Why a number that is given to a size variable is refused, if one is. It fails where memory is wanting.
fn numbers_refused(
    alloc: Global,
    inside: &Inside<'_>,
    call: &Call<'_>,
    picked: &[Picked],
) -> Result<Option<MonoError>, AllocError>
    ensures { IfOk result (λ refused. refused ≡ spec.numbers_refused (spec.inside_of inside.now) call.now.place call.now.operands.now
        call.now.callee call.now.numbers.now picked.now) }
{
    let variables = Variables::Known(inside.numbers, picked);
    let indices = given_indices(
        alloc,
        inside.sizing,
        &call.callee,
        call.operands,
        call.numbers,
    )?;
    let constants = indices_under(alloc, indices.as_slice(), &variables)?;
    constants_refused(alloc, call.place, inside.names, constants.as_slice())
}

/// The sizes in what is given to Type variables. It fails where memory is wanting.
fn sizes_given(
    alloc: Global,
    inside: &Inside<'_>,
    picked: &[Picked],
    types: &[Reading],
) -> Result<Items<Size>, AllocError>
    ensures { IfOk result (λ made. made ≡ joined (map (reading_sizes_of inside.now.types.now (spec.under (spec.inside_of inside.now) picked.now)) types.now)) }
{
    let variables = Variables::Known(inside.numbers, picked);
    let mut made = Items::new(alloc);
    for reading in types {
        made.append(reading_sizes(alloc, inside.types, reading, &variables)?)?;
    }
    Ok(made)
}

/// Why a size in what is given to a Type variable is refused, if one is. It fails where memory is wanting.
fn types_refused(
    alloc: Global,
    inside: &Inside<'_>,
    call: &Call<'_>,
    picked: &[Picked],
) -> Result<Option<MonoError>, AllocError>
    ensures { IfOk result (λ refused. refused ≡ spec.types_refused (spec.inside_of inside.now) call.now.place call.now.types.now picked.now) }
{
    let sizes = sizes_given(alloc, inside, picked, call.types)?;
    sizes_refused(alloc, call.place, inside.names, sizes.as_slice())
}

/// Reads a call where these numbers are taken. It fails where memory is wanting.
pub fn read_call(
    alloc: Global,
    inside: &Inside<'_>,
    call: &Call<'_>,
    picked: &[Picked],
    found: &mut Items<Found>,
) -> Result<Option<MonoError>, AllocError>
    ensures { IfOk result (λ refused. outcome refused found.new ≡ spec.read_call (spec.inside_of inside.now) call.now.place call.now.operands.now
        call.now.callee call.now.numbers.now call.now.types.now picked.now found.old) }
{
    if let Some(refused) = numbers_refused(alloc, inside, call, picked)? {
        return Ok(Some(refused));
    }
    if let Some(refused) = types_refused(alloc, inside, call, picked)? {
        return Ok(Some(refused));
    }
    add_callee(alloc, inside, call, picked, found)
}
