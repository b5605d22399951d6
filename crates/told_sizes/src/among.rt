//! Types and values whose sizes name no variables but those that are constant.
ghost use Rattle.std.specs.Prelude.{◌≡◌, ◌∷◌, true, IfOk, length, map};
ghost use Rattle.size_values.specs.Numbers as numbers;
ghost use Rattle.told_sizes.specs.Among as spec;
ghost use Rattle.told_sizes.specs.Exact as exact;

use crate::arguments::args_among;
use crate::small::both;
use sail_base::Items;
use sail_types::{Index, Num, Typ, Types};
use size_values::{Constant, Variables, copy_constant, first_free};
use std::alloc::{AllocError, Global};
use value_indices::{Indices, Reading};

/// Whether each variable of a number is constant.
#[tactic(auto, using(crate::proofs::Free::among_free))]
fn num_among(number: &Num, variables: &Variables<'_>) -> bool
    ensures { result ≡ spec.num_among (spec.has_in (numbers.meant variables.now)) number.now }
{
    first_free(number, variables).is_none()
}

/// The same of what an Int or Bool variable stands for; a truth is in no size.
pub fn index_among(index: &Index, variables: &Variables<'_>) -> bool
    ensures { result ≡ spec.index_among (spec.has_in (numbers.meant variables.now)) index.now }
{
    match index {
        Index::Number(number) => num_among(number, variables),
        Index::Truth(_) => true,
    }
}

/// A constant where this is so.
fn flagged(is_so: bool) -> Constant
    ensures { result ≡ spec.flagged is_so }
{
    if is_so {
        Constant::Number(0)
    } else {
        Constant::Open(0)
    }
}

/// Constants, where what is given to variables names no others. They fail where memory is wanting.
fn flags_of(
    alloc: Global,
    indices: &[Index],
    variables: &Variables<'_>,
) -> Result<Items<Constant>, AllocError>
    ensures { IfOk result (λ made. made ≡ map (spec.flag_of (spec.has_in (numbers.meant variables.now))) indices.now) }
{
    let mut made = Items::new(alloc);
    for index in indices {
        made.push(flagged(index_among(index, variables)))?;
    }
    Ok(made)
}

/// Constants with one more in front. They fail where memory is wanting.
fn known_before(alloc: Global, constants: &[Constant]) -> Result<Items<Constant>, AllocError>
    ensures { IfOk result (λ made. made ≡ spec.flagged true ∷ constants.now) }
{
    let mut made = Items::new(alloc);
    made.push(Constant::Number(0))?;
    for constant in constants {
        made.push(copy_constant(alloc, constant)?)?;
    }
    Ok(made)
}

/// Whether a size of a type names no variables of it but those that are constant.
fn size_among(number: &Num, constants: &[Constant]) -> bool
    ensures { result ≡ spec.num_among (spec.at (map spec.is_known constants.now)) number.now }
{
    num_among(number, &Variables::Arguments(constants))
}

/// The same of the arguments of a named type. It fails where memory is wanting.
fn sizes_among(
    alloc: Global,
    types: &Types,
    place: u32,
    arguments: &[Index],
    constants: &[Constant],
) -> Result<bool, AllocError>
    ensures { IfOk result (λ are. are
        ≡ spec.args_among types.now (spec.at (map spec.is_known constants.now)) place (length arguments.now) 0 arguments.now) }
{
    args_among(
        alloc,
        types,
        place,
        arguments,
        &Variables::Arguments(constants),
    )
}

/// Whether the sizes of a type name no variables of it but those that are constant. It fails where memory is wanting.
#[cycle(typ_among)]
pub fn typ_among(
    alloc: Global,
    types: &Types,
    typ: &Typ,
    constants: &[Constant],
) -> Result<bool, AllocError>
    ensures { IfOk result (λ among. among ≡ spec.typ_among types.now typ.now (map spec.is_known constants.now)) }
{
    match typ {
        Typ::Bits(width) => Ok(size_among(width, constants)),
        Typ::List(item) => typ_among(alloc, types, item.get(), constants),
        Typ::Vector(length, item) => {
            let among = typ_among(alloc, types, item.get(), constants)?;
            Ok(both(size_among(length, constants), among))
        }
        Typ::Tuple(parts) => all_among(alloc, types, parts.as_slice(), constants),
        Typ::Named(place, arguments, parts) => {
            let are = sizes_among(alloc, types, *place, arguments.as_slice(), constants)?;
            let among = all_among(alloc, types, parts.as_slice(), constants)?;
            Ok(both(are, among))
        }
        Typ::Exists(_, _, part) => {
            let constants = known_before(alloc, constants)?;
            typ_among(alloc, types, part.get(), constants.as_slice())
        }
        _ => Ok(true),
    }
}

/// The same of each of these.
#[cycle(typ_among)]
fn all_among(
    alloc: Global,
    types: &Types,
    parts: &[Typ],
    constants: &[Constant],
) -> Result<bool, AllocError>
    ensures { IfOk result (λ among. among ≡ spec.all_among (map (spec.typ_among types.now) parts.now) (map spec.is_known constants.now)) }
{
    for part in parts {
        if !typ_among(alloc, types, part, constants)? {
            return Ok(false);
        }
    }
    Ok(true)
}

/// The same of a type whose variables stand for these. It fails where memory is wanting.
#[tactic(auto, using(crate::proofs::Free::flags_known))]
fn of_among(
    alloc: Global,
    types: &Types,
    typ: &Typ,
    arguments: &[Index],
    variables: &Variables<'_>,
) -> Result<bool, AllocError>
    ensures { IfOk result (λ among. among
        ≡ spec.typ_among types.now typ.now (map (spec.index_among (spec.has_in (numbers.meant variables.now))) arguments.now)) }
{
    let constants = flags_of(alloc, arguments, variables)?;
    typ_among(alloc, types, typ, constants.as_slice())
}

/// Whether the sizes of a value of these indices name no variables of the walk but those that are constant. It fails where memory is wanting.
#[cycle(value_among)]
pub fn value_among(
    alloc: Global,
    types: &Types,
    indices: &Indices,
    variables: &Variables<'_>,
) -> Result<bool, AllocError>
    ensures { IfOk result (λ among. among ≡ spec.value_among types.now (spec.has_in (numbers.meant variables.now)) indices.now) }
{
    match indices {
        Indices::Bits(width) => Ok(num_among(width, variables)),
        Indices::List(item) => reading_among(alloc, types, item.get(), variables),
        Indices::Vector(length, item) => {
            let among = reading_among(alloc, types, item.get(), variables)?;
            Ok(both(num_among(length, variables), among))
        }
        Indices::Tuple(parts) => values_among(alloc, types, parts.as_slice(), variables),
        Indices::Named(place, arguments, parts) => {
            let are = args_among(alloc, types, *place, arguments.as_slice(), variables)?;
            let among = readings_among(alloc, types, parts.as_slice(), variables)?;
            Ok(both(are, among))
        }
        _ => Ok(true),
    }
}

/// The same of each of these.
#[cycle(value_among)]
fn values_among(
    alloc: Global,
    types: &Types,
    parts: &[Indices],
    variables: &Variables<'_>,
) -> Result<bool, AllocError>
    ensures { IfOk result (λ among. among
        ≡ exact.all_of (map (spec.value_among types.now (spec.has_in (numbers.meant variables.now))) parts.now)) }
{
    for part in parts {
        if !value_among(alloc, types, part, variables)? {
            return Ok(false);
        }
    }
    Ok(true)
}

/// The same of a value of this type, which isn't opened. It fails where memory is wanting.
#[cycle(value_among)]
pub fn reading_among(
    alloc: Global,
    types: &Types,
    reading: &Reading,
    variables: &Variables<'_>,
) -> Result<bool, AllocError>
    ensures { IfOk result (λ among. among ≡ spec.reading_among types.now (spec.has_in (numbers.meant variables.now)) reading.now) }
{
    match reading {
        Reading::Of(typ, arguments, parts) => {
            let are = readings_among(alloc, types, parts.as_slice(), variables)?;
            let among = of_among(alloc, types, typ, arguments.as_slice(), variables)?;
            Ok(both(are, among))
        }
        Reading::Widened(indices) => value_among(alloc, types, indices.get(), variables),
        Reading::Parts(parts) => readings_among(alloc, types, parts.as_slice(), variables),
        Reading::Hole => Ok(true),
    }
}

/// The same of each of these.
#[cycle(value_among)]
fn readings_among(
    alloc: Global,
    types: &Types,
    parts: &[Reading],
    variables: &Variables<'_>,
) -> Result<bool, AllocError>
    ensures { IfOk result (λ among. among
        ≡ exact.all_of (map (spec.reading_among types.now (spec.has_in (numbers.meant variables.now))) parts.now)) }
{
    for part in parts {
        if !reading_among(alloc, types, part, variables)? {
            return Ok(false);
        }
    }
    Ok(true)
}
