//! Types of the walk whose sizes a value tells where it is opened.
ghost use Rattle.std.specs.Prelude.{◌≡◌, IfOk, map};
ghost use Rattle.std.specs.List.{list_all};
ghost use Rattle.sail_types.specs.Zero.{deepest as deepest_of};
ghost use Rattle.size_values.specs.Numbers as numbers;
ghost use Rattle.told_sizes.specs.Exact as spec;

use crate::settling::typ_settles;
use crate::telling::front_tells;
use sail_types::{Index, Typ, Types, deepest};
use size_values::Variables;
use std::alloc::{AllocError, Global};
use told_sizes::{both, exact_constants};
use value_indices::Reading;

/// How many Type variables there are: those of a type, or the function's.
pub fn or_own(own: usize, count: usize) -> usize
    ensures { result ≡ spec.or_own own count }
{
    if count == 0 { own } else { count }
}

/// Whether the sizes of a type stay what they are where a value of it is opened, where so many Type variables are the function's. It fails where memory
/// is wanting.
fn of_settles(
    alloc: Global,
    types: &Types,
    count: usize,
    typ: &Typ,
    indices: &[Index],
    variables: &Variables<'_>,
) -> Result<bool, AllocError>
    ensures { IfOk result (λ settles. settles ≡ spec.typ_settles types.now (numbers.meant variables.now) deepest_of typ.now count indices.now
        (spec.exact_constants (numbers.meant variables.now) indices.now)) }
{
    let constants = exact_constants(alloc, indices, variables)?;
    typ_settles(
        alloc,
        types,
        deepest(),
        typ,
        count,
        indices,
        constants.as_slice(),
        variables,
    )
}

/// The same of a type of the walk, where the function around it has so many Type variables.
#[cycle(reading_settles)]
pub fn reading_settles(
    alloc: Global,
    types: &Types,
    own: usize,
    reading: &Reading,
    variables: &Variables<'_>,
) -> Result<bool, AllocError>
    ensures { IfOk result (λ settles. settles ≡ spec.reading_settles types.now own (numbers.meant variables.now) reading.now) }
{
    match reading {
        Reading::Of(typ, arguments, parts) => {
            let settle = all_settle(alloc, types, own, parts.as_slice(), variables)?;
            let count = or_own(own, parts.len());
            let settles = of_settles(alloc, types, count, typ, arguments.as_slice(), variables)?;
            Ok(both(settle, settles))
        }
        Reading::Parts(parts) => all_settle(alloc, types, own, parts.as_slice(), variables),
        _ => Ok(true),
    }
}

/// The same of each of these.
#[cycle(reading_settles)]
fn all_settle(
    alloc: Global,
    types: &Types,
    own: usize,
    parts: &[Reading],
    variables: &Variables<'_>,
) -> Result<bool, AllocError>
    ensures { IfOk result (λ settle. settle ≡ spec.all_of (map (spec.reading_settles types.now own (numbers.meant variables.now)) parts.now)) }
{
    for part in parts {
        if !reading_settles(alloc, types, own, part, variables)? {
            return Ok(false);
        }
    }
    Ok(true)
}

/// The same of each argument of a type.
fn each_settles(
    alloc: Global,
    types: &Types,
    own: usize,
    parts: &[Reading],
    variables: &Variables<'_>,
) -> Result<bool, AllocError>
    ensures { IfOk result (λ settle. settle ≡ list_all (spec.reading_settles types.now own (numbers.meant variables.now)) parts.now) }
{
    for part in parts {
        if !reading_settles(alloc, types, own, part, variables)? {
            return Ok(false);
        }
    }
    Ok(true)
}

/// Whether a value of a type tells its sizes, where its Int and Bool variables stand for these, and it has so many Type variables. It fails where memory
/// is wanting.
pub fn of_tells(
    alloc: Global,
    types: &Types,
    count: usize,
    typ: &Typ,
    indices: &[Index],
    variables: &Variables<'_>,
) -> Result<bool, AllocError>
    ensures { IfOk result (λ tells. tells ≡ spec.front_tells types.now (numbers.meant variables.now) deepest_of typ.now count indices.now
        (spec.exact_constants (numbers.meant variables.now) indices.now)) }
{
    let constants = exact_constants(alloc, indices, variables)?;
    front_tells(
        alloc,
        types,
        deepest(),
        typ,
        count,
        indices,
        constants.as_slice(),
        variables,
    )
}

/// Whether a value of a type of the walk tells the sizes at which it is opened, where the variables of the walk are these, and the function around it
/// has so many Type variables. It fails where memory is wanting.
pub fn reading_tells(
    alloc: Global,
    types: &Types,
    own: usize,
    reading: &Reading,
    variables: &Variables<'_>,
) -> Result<bool, AllocError>
    ensures { IfOk result (λ tells. tells ≡ spec.reading_tells types.now own (numbers.meant variables.now) reading.now) }
{
    match reading {
        Reading::Of(typ, arguments, parts) => {
            let settle = each_settles(alloc, types, own, parts.as_slice(), variables)?;
            let count = or_own(own, parts.len());
            let tells = of_tells(alloc, types, count, typ, arguments.as_slice(), variables)?;
            Ok(both(settle, tells))
        }
        _ => reading_settles(alloc, types, own, reading, variables),
    }
}
