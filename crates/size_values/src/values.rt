//! The sizes in values, and the variables in them.
ghost use Rattle.std.specs.Prelude.{◌≡◌, IfOk, map};
ghost use Rattle.size_values.specs.Numbers as numbers;
ghost use Rattle.size_values.specs.Sizes as spec;

use crate::constants::Constant;
use crate::numbers::indices_under;
use crate::sizes::{Size, is_one_open, join_sizes, named_typ_sizes, one_size, typ_sizes};
use crate::variables::Variables;
use sail_base::Items;
use sail_types::{Typ, Types};
use std::alloc::{AllocError, Global};
use value_indices::{Indices, Reading};

/// The sizes in a value of these indices, from the left, where the variables of the walk are these. They fail where memory is wanting.
#[cycle(values)]
pub fn value_sizes(
    alloc: Global,
    types: &Types,
    indices: &Indices,
    variables: &Variables<'_>,
) -> Result<Items<Size>, AllocError>
    ensures { IfOk result (λ made. made ≡ spec.value_sizes types.now (numbers.meant variables.now) indices.now) }
{
    match indices {
        Indices::Bits(width) => one_size(alloc, 128, width, variables),
        Indices::List(item) => reading_sizes(alloc, types, item.get(), variables),
        Indices::Vector(length, item) => {
            let mut made = one_size(alloc, 4096, length, variables)?;
            made.append(reading_sizes(alloc, types, item.get(), variables)?)?;
            Ok(made)
        }
        Indices::Tuple(parts) => sizes_of_values(alloc, types, parts.as_slice(), variables),
        Indices::Named(place, arguments, parts) => {
            let arguments = indices_under(alloc, arguments.as_slice(), variables)?;
            let parts = sizes_of_readings(alloc, types, parts.as_slice(), variables)?;
            named_typ_sizes(alloc, types, *place, arguments.as_slice(), parts.as_slice())
        }
        _ => Ok(Items::new(alloc)),
    }
}

/// The sizes in several values.
#[cycle(values)]
fn sizes_of_values(
    alloc: Global,
    types: &Types,
    parts: &[Indices],
    variables: &Variables<'_>,
) -> Result<Items<Size>, AllocError>
    ensures { IfOk result (λ made. made ≡ spec.joined (map (spec.value_sizes types.now (numbers.meant variables.now)) parts.now)) }
{
    let mut made = Items::new(alloc);
    for part in parts {
        made.append(value_sizes(alloc, types, part, variables)?)?;
    }
    Ok(made)
}

/// The sizes in a value of this type, which isn't opened, from the left, where the variables of the walk are these. They fail where
/// memory is wanting.
#[cycle(values)]
pub fn reading_sizes(
    alloc: Global,
    types: &Types,
    reading: &Reading,
    variables: &Variables<'_>,
) -> Result<Items<Size>, AllocError>
    ensures { IfOk result (λ made. made ≡ spec.reading_sizes types.now (numbers.meant variables.now) reading.now) }
{
    match reading {
        Reading::Of(typ, arguments, parts) => {
            let arguments = indices_under(alloc, arguments.as_slice(), variables)?;
            let parts = sizes_of_readings(alloc, types, parts.as_slice(), variables)?;
            typ_sizes(alloc, types, typ, arguments.as_slice(), parts.as_slice())
        }
        Reading::Widened(indices) => value_sizes(alloc, types, indices.get(), variables),
        Reading::Parts(parts) => {
            let parts = sizes_of_readings(alloc, types, parts.as_slice(), variables)?;
            join_sizes(alloc, parts.as_slice())
        }
        Reading::Hole => Ok(Items::new(alloc)),
    }
}

/// The sizes in each of these types.
#[cycle(values)]
fn sizes_of_readings(
    alloc: Global,
    types: &Types,
    parts: &[Reading],
    variables: &Variables<'_>,
) -> Result<Items<Items<Size>>, AllocError>
    ensures { IfOk result (λ made. made ≡ map (spec.reading_sizes types.now (numbers.meant variables.now)) parts.now) }
{
    let mut made = Items::new(alloc);
    for part in parts {
        made.push(reading_sizes(alloc, types, part, variables)?)?;
    }
    Ok(made)
}

/// Whether a variable of the walk is in a size of a value of these indices. It fails where memory is wanting.
pub fn value_names(
    alloc: Global,
    types: &Types,
    variable: u32,
    indices: &Indices,
) -> Result<bool, AllocError>
    ensures { IfOk result (λ names. names ≡ spec.value_names types.now variable indices.now) }
{
    let sizes = value_sizes(alloc, types, indices, &Variables::AllBut(variable))?;
    Ok(is_one_open(sizes.as_slice()))
}

/// Whether a variable of the walk is in a size of a value of this type. It fails where memory is wanting.
pub fn reading_names(
    alloc: Global,
    types: &Types,
    variable: u32,
    reading: &Reading,
) -> Result<bool, AllocError>
    ensures { IfOk result (λ names. names ≡ spec.reading_names types.now variable reading.now) }
{
    let sizes = reading_sizes(alloc, types, reading, &Variables::AllBut(variable))?;
    Ok(is_one_open(sizes.as_slice()))
}

/// Open at that index, 0 at all others.
fn open_at(chosen: usize, index: usize) -> Constant
    ensures { result ≡ spec.open_at chosen index }
{
    if chosen == index {
        Constant::Open(0)
    } else {
        Constant::Number(0)
    }
}

/// So many constants, all 0 but the one at an index, which is open. They fail where memory is wanting.
pub fn only_open(alloc: Global, chosen: usize, count: usize) -> Result<Items<Constant>, AllocError>
    ensures { IfOk result (λ made. made ≡ spec.only_open chosen count) }
{
    let mut made = Items::new(alloc);
    for index in 0..count {
        made.push(open_at(chosen, index))?;
    }
    Ok(made)
}

/// Whether a variable of a type, which has so many of its own, is in a size of it. It fails where memory is wanting.
pub fn typ_names(
    alloc: Global,
    types: &Types,
    count: usize,
    variable: u32,
    typ: &Typ,
) -> Result<bool, AllocError>
    ensures { IfOk result (λ names. names ≡ spec.typ_names types.now count variable typ.now) }
{
    let constants = only_open(alloc, variable as usize, count)?;
    let sizes = typ_sizes(alloc, types, typ, constants.as_slice(), &[])?;
    Ok(is_one_open(sizes.as_slice()))
}
