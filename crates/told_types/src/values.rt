//! Values and types of the walk all of whose sizes are constants for certain.
ghost use Rattle.std.specs.Prelude.{◌≡◌, [], IfOk, map};
ghost use Rattle.sail_types.specs.Zero.{deepest as deepest_of};
ghost use Rattle.size_values.specs.Numbers as numbers;
ghost use Rattle.told_sizes.specs.Exact as exact;
ghost use Rattle.told_sizes.specs.Passing as spec;

use crate::passing::{named_passes, typ_passes};
use crate::readings::or_own;
use sail_types::{Index, Typ, Types, deepest};
use size_values::Variables;
use std::alloc::{AllocError, Global};
use told_sizes::{both, exact_constants, is_exact, is_one_of};
use value_indices::{Indices, Reading};

/// Whether all sizes of a named type under these arguments are constants for certain, where it has so many Type arguments. It fails where memory is
/// wanting.
fn applied_passes(
    alloc: Global,
    types: &Types,
    place: u32,
    arguments: &[Index],
    count: usize,
    variables: &Variables<'_>,
) -> Result<bool, AllocError>
    ensures { IfOk result (λ passes. passes
        ≡ exact.named_passes types.now (exact.typ_passes types.now deepest_of) (numbers.meant variables.now) place arguments.now count []) }
{
    named_passes(
        alloc,
        types,
        deepest(),
        place,
        arguments,
        count,
        variables,
        &[],
    )
}

/// The same of a type of so many Type variables whose other ones stand for these.
fn of_passes(
    alloc: Global,
    types: &Types,
    typ: &Typ,
    count: usize,
    arguments: &[Index],
    variables: &Variables<'_>,
) -> Result<bool, AllocError>
    ensures { IfOk result (λ passes. passes
        ≡ exact.typ_passes types.now deepest_of typ.now [] count (exact.exact_constants (numbers.meant variables.now) arguments.now)) }
{
    let constants = exact_constants(alloc, arguments, variables)?;
    typ_passes(
        alloc,
        types,
        deepest(),
        typ,
        &[],
        count,
        constants.as_slice(),
    )
}

/// Whether all sizes of a value of these indices are constants for certain, where the function around it has so many Type variables. It fails where
/// memory is wanting.
#[cycle(value_passes)]
pub fn value_passes(
    alloc: Global,
    types: &Types,
    own: usize,
    indices: &Indices,
    variables: &Variables<'_>,
) -> Result<bool, AllocError>
    ensures { IfOk result (λ passes. passes ≡ spec.value_passes types.now own (numbers.meant variables.now) indices.now) }
{
    match indices {
        Indices::Bits(width) => Ok(is_exact(width, variables)),
        Indices::List(item) => reading_passes(alloc, types, own, item.get(), variables),
        Indices::Vector(length, item) => {
            let passes = reading_passes(alloc, types, own, item.get(), variables)?;
            Ok(both(is_exact(length, variables), passes))
        }
        Indices::Tuple(parts) => values_pass(alloc, types, own, parts.as_slice(), variables),
        Indices::Named(place, arguments, parts) => {
            let parts = parts.as_slice();
            let pass = readings_pass(alloc, types, own, parts, variables)?;
            let arguments = arguments.as_slice();
            let passes = applied_passes(alloc, types, *place, arguments, parts.len(), variables)?;
            Ok(both(pass, passes))
        }
        Indices::Variable(position) => Ok(is_one_of(*position, own)),
        _ => Ok(true),
    }
}

/// The same of each of these.
#[cycle(value_passes)]
fn values_pass(
    alloc: Global,
    types: &Types,
    own: usize,
    parts: &[Indices],
    variables: &Variables<'_>,
) -> Result<bool, AllocError>
    ensures { IfOk result (λ pass. pass
        ≡ exact.all_of (map (spec.value_passes types.now own (numbers.meant variables.now)) parts.now)) }
{
    for part in parts {
        if !value_passes(alloc, types, own, part, variables)? {
            return Ok(false);
        }
    }
    Ok(true)
}

/// The same of a value of this type. It fails where memory is wanting.
#[cycle(value_passes)]
pub fn reading_passes(
    alloc: Global,
    types: &Types,
    own: usize,
    reading: &Reading,
    variables: &Variables<'_>,
) -> Result<bool, AllocError>
    ensures { IfOk result (λ passes. passes ≡ spec.reading_passes types.now own (numbers.meant variables.now) reading.now) }
{
    match reading {
        Reading::Of(typ, arguments, parts) => {
            let parts = parts.as_slice();
            let pass = readings_pass(alloc, types, own, parts, variables)?;
            let count = or_own(own, parts.len());
            let passes = of_passes(alloc, types, typ, count, arguments.as_slice(), variables)?;
            Ok(both(pass, passes))
        }
        Reading::Widened(indices) => value_passes(alloc, types, own, indices.get(), variables),
        Reading::Parts(parts) => readings_pass(alloc, types, own, parts.as_slice(), variables),
        Reading::Hole => Ok(true),
    }
}

/// The same of each of these.
#[cycle(value_passes)]
fn readings_pass(
    alloc: Global,
    types: &Types,
    own: usize,
    parts: &[Reading],
    variables: &Variables<'_>,
) -> Result<bool, AllocError>
    ensures { IfOk result (λ pass. pass
        ≡ exact.all_of (map (spec.reading_passes types.now own (numbers.meant variables.now)) parts.now)) }
{
    for part in parts {
        if !reading_passes(alloc, types, own, part, variables)? {
            return Ok(false);
        }
    }
    Ok(true)
}
