//! What a callee's variables stand for in a call.
ghost use Rattle.std.specs.Prelude.{◌≡◌, ◌≤◌, [], ◌++◌, map, IfOk, OnOk};
ghost use Rattle.std.specs.Option.{option_copied};
ghost use Rattle.sail_types.specs.declared.types.Typ.{out-Typ};
ghost use Rattle.value_fits.specs.Fitting.{placed, among};
ghost use Rattle.value_indices.specs.Walking as walk;
ghost use Rattle.call_arguments.specs.Callees as callees;

use crate::aims::Aim;
use crate::closed::{is_closed, is_numberless};
use crate::counts::small;
use crate::through::under;
use crate::typed::types_from;
use sail_base::{Items, Kind};
use sail_types::{Con, Index, Num, Parameter, Typ};
use std::alloc::{AllocError, Global};
use value_fits::placed_among;
use value_indices::{Indices, Reading, Walking, copy_readings};
use wide_types::push_fresh_index;

/// What is wanted of an argument: its parameter's type, where that names no variable. It fails where memory is wanting.
pub fn argument_aim(alloc: Global, typ: &Typ) -> Result<Aim, AllocError>
    ensures { IfOk result (λ made. made ≡ callees.argument_aim typ.now) }
{
    if is_closed(typ)? {
        Ok(Aim::given(under(alloc, typ, &[], &[])?))
    } else {
        Ok(Aim::Free)
    }
}

/// What stands for a variable: what an argument gives; 0 or false where none does.
fn or_zero(alloc: Global, kind: Kind, found: Option<Index>) -> Index
    ensures { result ≡ callees.or_zero kind found }
{
    if let Some(index) = found {
        return index;
    }
    match kind {
        Kind::Int => Index::Number(Num::constant(alloc, 0)),
        Kind::Bool => Index::Truth(Con::Truth(false)),
        Kind::Type => Index::Number(Num::constant(alloc, 0)),
    }
}

/// What stands for an Int or Bool variable of a callee.
fn number_at(
    alloc: Global,
    variable: usize,
    kind: Kind,
    types: &[Typ],
    arguments: &[Indices],
) -> Result<Index, AllocError>
    ensures { IfOk result (λ made. made ≡ callees.or_zero kind (among (map placed types.now) variable arguments.now)) }
{
    let variable = small(variable)?;
    let found = placed_among(alloc, types, variable, arguments)?;
    Ok(or_zero(alloc, kind, found))
}

/// What the Int and Bool variables of a callee stand for: each the number of the first argument that gives it, by the types of the
/// parameters; 0 or false where none does. It fails where memory is wanting, and where binders are too many.
pub fn numbers_from(
    alloc: Global,
    variables: &[Parameter],
    types: &[Typ],
    arguments: &[Indices],
) -> Result<Items<Index>, AllocError>
    ensures { IfOk result (λ made. made ≡ callees.numbers_from 0 variables.now types.now arguments.now) }
{
    let mut made = Items::new(alloc);
    for position in 0..variables.len() {
        let variable = &variables[position];
        made.push(number_at(alloc, position, variable.kind, types, arguments)?)?;
    }
    Ok(made)
}

/// The types of so many parts of a payload: those of a tuple of as many, or the one.
fn payload_parts(count: usize, typ: &Typ) -> &[Typ]
    ensures { result.now ≡ callees.payload_form count typ.now (out-Typ typ.now) }
{
    match typ {
        Typ::Tuple(types) => {
            if count == types.len() {
                types.as_slice()
            } else {
                std::slice::from_ref(typ)
            }
        }
        _ => std::slice::from_ref(typ),
    }
}

/// The types of so many arguments of a constructor with this payload; none where there is no such one.
pub fn payload_types<'a>(count: usize, payload: Option<&'a Typ>) -> &'a [Typ]
    ensures { result.now ≡ callees.payload_types count (option_copied payload.entry) }
{
    match payload {
        None => &[],
        Some(typ) => payload_parts(count, typ),
    }
}

/// What is wanted of an argument of a constructor, or a field: its type where that is known, since it names no Int or Bool variable, and
/// no Type variable but where a wanted type gives them. It fails where memory is wanting.
pub fn part_aim(alloc: Global, known: &Option<Items<Reading>>, typ: &Typ) -> Result<Aim, AllocError>
    ensures { IfOk result (λ made. made ≡ callees.part_aim known.now typ.now) }
{
    match known {
        None => {
            if is_closed(typ)? {
                Ok(Aim::due(under(alloc, typ, &[], &[])?))
            } else {
                Ok(Aim::Free)
            }
        }
        Some(readings) => {
            if is_numberless(typ)? {
                Ok(Aim::due(under(alloc, typ, &[], readings.as_slice())?))
            } else {
                Ok(Aim::Free)
            }
        }
    }
}

/// Whether what is wanted of such an argument was owed by it. It fails where binders are too many.
pub fn was_due(known: &Option<Items<Reading>>, typ: &Typ) -> Result<bool, AllocError>
    ensures { IfOk result (λ was. was ≡ callees.was_due known.now typ.now) }
{
    match known {
        None => is_closed(typ),
        Some(_) => is_numberless(typ),
    }
}

/// Whether parameters of this kind have a number.
fn is_number_kind(kind: Kind) -> bool
    ensures { result ≡ callees.is_number_kind kind }
{
    match kind {
        Kind::Int => true,
        Kind::Bool => true,
        Kind::Type => false,
    }
}

/// One where parameters of this kind have a type, and nothing where they have a number.
fn type_count(kind: Kind) -> usize
    ensures count { result ≡ callees.type_count kind }
    ensures within { result ≤ 1 }
{
    if is_number_kind(kind) { 0 } else { 1 }
}

/// How many parameters have a type.
pub fn type_parameters(parameters: &[Parameter]) -> usize
    ensures { result ≡ callees.type_parameters parameters.now }
{
    let mut count = 0;
    for parameter in parameters {
        count += type_count(parameter.kind);
    }
    count
}

/// The number of the next variable behind a parameter. It fails where variables are too many.
fn variable_behind(variable: u32, kind: Kind) -> Result<u32, AllocError>
    ensures { IfOk result (λ next. next ≡ callees.variable_behind variable kind) }
{
    if is_number_kind(kind) {
        match variable.checked_add(1) {
            None => Err(AllocError),
            Some(next) => Ok(next),
        }
    } else {
        Ok(variable)
    }
}

/// Puts the number of a parameter, which an argument gave or which is any, behind others.
#[tactic(auto, using(value_indices::proofs::Walks::walks))]
fn push_found(
    alloc: Global,
    walking: &mut Walking,
    parameter: &Parameter,
    found: Option<Index>,
    indices: &mut Items<Index>,
) -> Result<(), AllocError>
    ensures indices { OnOk result (indices.new ≡ indices.old ++ walk.got (callees.index_if parameter.now found) (walk.seen walking.old)) }
    ensures walked { OnOk result (walk.seen walking.new ≡ walk.run (callees.index_if parameter.now found) (walk.seen walking.old)) }
{
    match found {
        None => push_fresh_index(alloc, walking, parameter, indices),
        Some(index) => indices.push(index),
    }
}

/// Puts the number of a parameter behind others; nothing of one that has a type.
#[tactic(auto, using(value_indices::proofs::Walks::walks))]
fn push_index(
    alloc: Global,
    walking: &mut Walking,
    variable: u32,
    parameter: &Parameter,
    types: &[Typ],
    arguments: &[Indices],
    indices: &mut Items<Index>,
) -> Result<(), AllocError>
    ensures indices { OnOk result (indices.new
        ≡ indices.old ++ walk.got (callees.index_of variable parameter.now types.now arguments.now) (walk.seen walking.old)) }
    ensures walked { OnOk result (walk.seen walking.new
        ≡ walk.run (callees.index_of variable parameter.now types.now arguments.now) (walk.seen walking.old)) }
{
    if is_number_kind(parameter.kind) {
        let found = placed_among(alloc, types, variable, arguments)?;
        push_found(alloc, walking, parameter, found, indices)
    } else {
        Ok(())
    }
}

/// The numbers of the parameters of a named type, each that of the first argument that gives it; a number that no argument gives is any.
/// It fails where memory is wanting, and where variables are too many.
pub fn indices_from(
    alloc: Global,
    walking: &mut Walking,
    parameters: &[Parameter],
    types: &[Typ],
    arguments: &[Indices],
) -> Result<Items<Index>, AllocError>
    ensures value { IfOk result (λ made. made
        ≡ walk.got (callees.indices_from 0 (callees.number_parameters parameters.now) types.now arguments.now) (walk.seen walking.old)) }
    ensures walked { OnOk result (walk.seen walking.new
        ≡ walk.run (callees.indices_from 0 (callees.number_parameters parameters.now) types.now arguments.now) (walk.seen walking.old)) }
{
    let mut made = Items::new(alloc);
    let mut variable = 0;
    for parameter in parameters {
        push_index(
            alloc, walking, variable, parameter, types, arguments, &mut made,
        )?;
        variable = variable_behind(variable, parameter.kind)?;
    }
    Ok(made)
}

/// The types of the parameters of a named type: those of a wanted type, or what the arguments give. It fails where memory is wanting,
/// and where variables are too many.
pub fn types_or(
    alloc: Global,
    from: u32,
    known: &Option<Items<Reading>>,
    parameters: &[Parameter],
    types: &[Typ],
    arguments: &[Indices],
) -> Result<Items<Reading>, AllocError>
    ensures { IfOk result (λ made. made
        ≡ callees.types_or known.now (callees.types_from from 0 (callees.type_parameters parameters.now) types.now arguments.now)) }
{
    match known {
        None => types_from(alloc, from, type_parameters(parameters), types, arguments),
        Some(readings) => copy_readings(alloc, readings.as_slice()),
    }
}
