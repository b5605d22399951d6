//! Types and values as types whose sizes are constants.
ghost use Rattle.std.specs.Prelude.{◌≡◌, IfOk, map};
ghost use Rattle.size_values.specs.Hanging as hanging;
ghost use Rattle.size_values.specs.Numbers as numbers;
ghost use Rattle.size_values.specs.Sizes as sizes;
ghost use Rattle.size_values.specs.Sized as spec;

use crate::constants::Constant;
use crate::hanging::{open_under, settle};
use crate::numbers::{constant_number, indices_under};
use crate::sized::{Sized, copy_sized};
use crate::sizes::{bound_before, fields_of};
use crate::values::only_open;
use crate::variables::Variables;
use sail_base::{Boxed, Items};
use sail_types::{Num, Typ, Types, deepest};
use std::alloc::{AllocError, Global};
use value_indices::{Indices, Reading};

/// Whether a size of the fields and payloads of the named type at a place hangs on the argument at an index, where it has so many and this is what
/// is marked.
fn hangs_under(
    alloc: Global,
    types: &Types,
    marks: &Option<Items<Items<bool>>>,
    place: u32,
    count: usize,
    index: usize,
) -> Result<bool, AllocError>
    ensures { IfOk result (λ hangs. hangs ≡ hanging.open_under marks.now (sizes.fields_of types.now place) (sizes.only_open index count)) }
{
    let constants = only_open(alloc, index, count)?;
    open_under(alloc, marks, fields_of(types, place), constants.as_slice())
}

/// Whether a size of the fields and payloads of the named type at a place hangs on the argument at an index, where it has so many. It fails where
/// memory is wanting.
pub fn hangs_on(
    alloc: Global,
    types: &Types,
    place: u32,
    count: usize,
    index: usize,
) -> Result<bool, AllocError>
    ensures { IfOk result (λ hangs. hangs ≡ spec.hangs_on types.now place count index) }
{
    let marks = settle(
        alloc,
        types.definitions.as_slice(),
        deepest(),
        Items::new(alloc),
    )?;
    hangs_under(alloc, types, &marks, place, count, index)
}

/// The integer that a constant is; 0 where it isn't one.
fn integer_of(constant: &Constant) -> i128
    ensures { result ≡ spec.integer_of constant.now }
{
    match constant {
        Constant::Number(number) => *number,
        _ => 0,
    }
}

/// The integer that a number is; 0 where it isn't constant.
fn integer_under(number: &Num, variables: &Variables<'_>) -> i128
    ensures { result ≡ spec.integer_of (numbers.constant_under (numbers.meant variables.now) number.now) }
{
    match constant_number(number, variables) {
        Some(number) => number,
        None => 0,
    }
}

/// The number of an argument, where a size hangs on it.
fn number_where(hangs: bool, constant: &Constant) -> Option<i128>
    ensures { result ≡ spec.number_where hangs constant.now }
{
    if hangs {
        Some(integer_of(constant))
    } else {
        None
    }
}

/// The numbers of the arguments of the named type at a place, where a size of its fields and payloads hangs on them. They fail where memory is wanting.
pub fn named_numbers(
    alloc: Global,
    types: &Types,
    place: u32,
    constants: &[Constant],
) -> Result<Items<Option<i128>>, AllocError>
    ensures { IfOk result (λ made. made ≡ spec.named_numbers types.now place constants.now) }
{
    let mut made = Items::new(alloc);
    if constants.is_empty() {
        return Ok(made);
    }
    let marks = settle(
        alloc,
        types.definitions.as_slice(),
        deepest(),
        Items::new(alloc),
    )?;
    let mut index = 0;
    for constant in constants {
        let hangs = hangs_under(alloc, types, &marks, place, constants.len(), index)?;
        made.push(number_where(hangs, constant))?;
        index += 1;
    }
    Ok(made)
}

/// The type that a Type variable stands for; that of what doesn't exist where there is none.
fn sized_at(alloc: Global, own: &[Sized], position: u32) -> Result<Sized, AllocError>
    ensures { IfOk result (λ made. made ≡ spec.sized_at own.now position) }
{
    match own.get(position as usize) {
        Some(sized) => copy_sized(alloc, sized),
        None => Ok(Sized::Never),
    }
}

/// A type, where its Int and Bool variables are these, and its Type variables stand for these. It fails where memory is wanting.
#[cycle(typ_sized)]
pub fn typ_sized(
    alloc: Global,
    types: &Types,
    own: &[Sized],
    typ: &Typ,
    constants: &[Constant],
) -> Result<Sized, AllocError>
    ensures { IfOk result (λ made. made ≡ spec.typ_sized types.now own.now typ.now constants.now) }
{
    match typ {
        Typ::Unit => Ok(Sized::Unit),
        Typ::Bool => Ok(Sized::Bool),
        Typ::Truth(_) => Ok(Sized::Bool),
        Typ::Bit => Ok(Sized::Bit),
        Typ::Bits(width) => {
            Ok(Sized::Bits(integer_under(width, &Variables::Arguments(constants))))
        }
        Typ::Int(_) => Ok(Sized::Int),
        Typ::Range(_, _) => Ok(Sized::Int),
        Typ::String => Ok(Sized::String),
        Typ::List(item) => {
            let item = typ_sized(alloc, types, own, item.get(), constants)?;
            Ok(Sized::List(Boxed::new(alloc, item)?))
        }
        Typ::Vector(length, item) => {
            let length = integer_under(length, &Variables::Arguments(constants));
            let item = typ_sized(alloc, types, own, item.get(), constants)?;
            Ok(Sized::Vector(length, Boxed::new(alloc, item)?))
        }
        Typ::Tuple(parts) => {
            let parts = types_sized(alloc, types, own, parts.as_slice(), constants)?;
            Ok(Sized::Tuple(parts))
        }
        Typ::Named(place, arguments, parts) => {
            let variables = Variables::Arguments(constants);
            let arguments = indices_under(alloc, arguments.as_slice(), &variables)?;
            let numbers = named_numbers(alloc, types, *place, arguments.as_slice())?;
            let parts = types_sized(alloc, types, own, parts.as_slice(), constants)?;
            Ok(Sized::Named(*place, numbers, parts))
        }
        Typ::Variable(position) => sized_at(alloc, own, *position),
        Typ::Exists(name, _, part) => {
            let constants = bound_before(alloc, name, constants)?;
            typ_sized(alloc, types, own, part.get(), constants.as_slice())
        }
    }
}

/// The same of several types.
#[cycle(typ_sized)]
fn types_sized(
    alloc: Global,
    types: &Types,
    own: &[Sized],
    parts: &[Typ],
    constants: &[Constant],
) -> Result<Items<Sized>, AllocError>
    ensures { IfOk result (λ made. made ≡ spec.each_sized (map (spec.typ_sized types.now own.now) parts.now) constants.now) }
{
    let mut made = Items::new(alloc);
    for part in parts {
        made.push(typ_sized(alloc, types, own, part, constants)?)?;
    }
    Ok(made)
}

/// These types, or those of the function around where there are none.
fn types_or_own<'a>(types: &'a [Sized], own: &'a [Sized]) -> &'a [Sized]
    ensures { result.now ≡ spec.types_or_own types.now own.now }
{
    if types.is_empty() { own } else { types }
}

/// The same where the Type variables stand for these, or for those of the function around where there are none.
fn typ_sized_by(
    alloc: Global,
    types: &Types,
    own: &[Sized],
    parts: &[Sized],
    typ: &Typ,
    constants: &[Constant],
) -> Result<Sized, AllocError>
    ensures { IfOk result (λ made. made ≡ spec.typ_sized types.now (spec.types_or_own parts.now own.now) typ.now constants.now) }
{
    typ_sized(alloc, types, types_or_own(parts, own), typ, constants)
}

/// The type of a value of these indices, where the variables of the walk are these, and the Type variables of the function around it
/// stand for these types. It fails where memory is wanting.
#[cycle(value_sized)]
pub fn value_sized(
    alloc: Global,
    types: &Types,
    own: &[Sized],
    indices: &Indices,
    variables: &Variables<'_>,
) -> Result<Sized, AllocError>
    ensures { IfOk result (λ made. made ≡ spec.value_sized types.now own.now (numbers.meant variables.now) indices.now) }
{
    match indices {
        Indices::Never => Ok(Sized::Never),
        Indices::Unit => Ok(Sized::Unit),
        Indices::Truth(_) => Ok(Sized::Bool),
        Indices::Bit => Ok(Sized::Bit),
        Indices::Bits(width) => Ok(Sized::Bits(integer_under(width, variables))),
        Indices::Integer(_) => Ok(Sized::Int),
        Indices::String => Ok(Sized::String),
        Indices::List(item) => {
            let item = reading_sized(alloc, types, own, item.get(), variables)?;
            Ok(Sized::List(Boxed::new(alloc, item)?))
        }
        Indices::Vector(length, item) => {
            let length = integer_under(length, variables);
            let item = reading_sized(alloc, types, own, item.get(), variables)?;
            Ok(Sized::Vector(length, Boxed::new(alloc, item)?))
        }
        Indices::Tuple(parts) => {
            let parts = values_sized(alloc, types, own, parts.as_slice(), variables)?;
            Ok(Sized::Tuple(parts))
        }
        Indices::Named(place, arguments, parts) => {
            let arguments = indices_under(alloc, arguments.as_slice(), variables)?;
            let numbers = named_numbers(alloc, types, *place, arguments.as_slice())?;
            let parts = readings_sized(alloc, types, own, parts.as_slice(), variables)?;
            Ok(Sized::Named(*place, numbers, parts))
        }
        Indices::Variable(position) => sized_at(alloc, own, *position),
    }
}

/// The same of several values.
#[cycle(value_sized)]
fn values_sized(
    alloc: Global,
    types: &Types,
    own: &[Sized],
    parts: &[Indices],
    variables: &Variables<'_>,
) -> Result<Items<Sized>, AllocError>
    ensures { IfOk result (λ made. made ≡ map (spec.value_sized types.now own.now (numbers.meant variables.now)) parts.now) }
{
    let mut made = Items::new(alloc);
    for part in parts {
        made.push(value_sized(alloc, types, own, part, variables)?)?;
    }
    Ok(made)
}

/// The type of a value of this type, which isn't opened, where the variables of the walk are these, and the Type variables of the
/// function around it stand for these types. It fails where memory is wanting.
#[cycle(value_sized)]
pub fn reading_sized(
    alloc: Global,
    types: &Types,
    own: &[Sized],
    reading: &Reading,
    variables: &Variables<'_>,
) -> Result<Sized, AllocError>
    ensures { IfOk result (λ made. made ≡ spec.reading_sized types.now own.now (numbers.meant variables.now) reading.now) }
{
    match reading {
        Reading::Of(typ, arguments, parts) => {
            let arguments = indices_under(alloc, arguments.as_slice(), variables)?;
            let parts = readings_sized(alloc, types, own, parts.as_slice(), variables)?;
            typ_sized_by(
                alloc,
                types,
                own,
                parts.as_slice(),
                typ,
                arguments.as_slice(),
            )
        }
        Reading::Widened(indices) => value_sized(alloc, types, own, indices.get(), variables),
        Reading::Parts(parts) => {
            let parts = readings_sized(alloc, types, own, parts.as_slice(), variables)?;
            Ok(Sized::Tuple(parts))
        }
        Reading::Hole => Ok(Sized::Never),
    }
}

/// The same of several types.
#[cycle(value_sized)]
pub fn readings_sized(
    alloc: Global,
    types: &Types,
    own: &[Sized],
    parts: &[Reading],
    variables: &Variables<'_>,
) -> Result<Items<Sized>, AllocError>
    ensures { IfOk result (λ made. made ≡ map (spec.reading_sized types.now own.now (numbers.meant variables.now)) parts.now) }
{
    let mut made = Items::new(alloc);
    for part in parts {
        made.push(reading_sized(alloc, types, own, part, variables)?)?;
    }
    Ok(made)
}
