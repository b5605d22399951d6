//! Sizes where numbers are taken: that those of values and types are constants for certain, and that a value tells those of its type.
ghost use Rattle.std.specs.Prelude.{◌≡◌, IfOk};
ghost use Rattle.std.specs.List.{list_all};
ghost use Rattle.value_indices.specs.declared.notes.Made.TheVariants as Makes;
ghost use Rattle.monomorph.specs.Reading.{inside_of};
ghost use Rattle.tabled_cores.specs.Notes as spec;

use monomorph::Inside;
use sail_base::Items;
use size_values::{Picked, Variables};
use split_combinations::counted;
use std::alloc::{AllocError, Global};
use told_types::{reading_passes, reading_tells, value_passes};
use value_indices::{Fact, Indices, Made, Reading};

/// Whether all sizes of a value are constants for certain. It fails where memory is wanting.
pub fn one_passes(
    alloc: Global,
    inside: &Inside<'_>,
    picked: &[Picked],
    indices: &Indices,
) -> Result<bool, AllocError>
    ensures { IfOk result (λ passes. passes ≡ spec.one_passes (inside_of inside.now) picked.now indices.now) }
{
    let variables = Variables::Known(inside.numbers, picked);
    value_passes(alloc, inside.types, inside.own.len(), indices, &variables)
}

/// The same of several values.
pub fn values_pass(
    alloc: Global,
    inside: &Inside<'_>,
    picked: &[Picked],
    values: &[Indices],
) -> Result<bool, AllocError>
    ensures { IfOk result (λ pass. pass ≡ spec.values_pass (inside_of inside.now) picked.now values.now) }
{
    for indices in values {
        if !one_passes(alloc, inside, picked, indices)? {
            return Ok(false);
        }
    }
    Ok(true)
}

/// The same of types.
pub fn readings_pass(
    alloc: Global,
    inside: &Inside<'_>,
    picked: &[Picked],
    readings: &[Reading],
) -> Result<bool, AllocError>
    ensures { IfOk result (λ pass. pass ≡ spec.readings_pass (inside_of inside.now) picked.now readings.now) }
{
    let variables = Variables::Known(inside.numbers, picked);
    for reading in readings {
        if !reading_passes(alloc, inside.types, inside.own.len(), reading, &variables)? {
            return Ok(false);
        }
    }
    Ok(true)
}

/// Whether a value of a type tells its sizes where these numbers are taken. It fails where memory is wanting.
pub fn tells(
    alloc: Global,
    inside: &Inside<'_>,
    reading: &Reading,
    picked: &[Picked],
) -> Result<bool, AllocError>
    ensures { IfOk result (λ tells. tells ≡ spec.tells (inside_of inside.now) reading.now picked.now) }
{
    let variables = Variables::Known(inside.numbers, picked);
    reading_tells(alloc, inside.types, inside.own.len(), reading, &variables)
}

/// The same under each of these combinations.
fn tells_each(
    alloc: Global,
    inside: &Inside<'_>,
    reading: &Reading,
    combinations: &[Items<Picked>],
) -> Result<bool, AllocError>
    ensures { IfOk result (λ tell. tell ≡ list_all (spec.tells (inside_of inside.now) reading.now) combinations.now) }
{
    for picked in combinations {
        if !tells(alloc, inside, reading, picked.as_slice())? {
            return Ok(false);
        }
    }
    Ok(true)
}

/// The same under each combination that counts where these facts are in force.
fn reading_given(
    alloc: Global,
    inside: &Inside<'_>,
    facts: &[Fact],
    reading: &Reading,
) -> Result<bool, AllocError>
    ensures { IfOk result (λ given. given ≡ spec.type_given (inside_of inside.now) facts.now (Makes.ByType reading.now)) }
{
    let combinations = counted(alloc, inside.numbers, inside.split, facts, &[])?;
    tells_each(alloc, inside, reading, combinations.as_slice())
}

/// Whether what is made tells the sizes of its type. It fails where memory is wanting.
pub fn type_given(
    alloc: Global,
    inside: &Inside<'_>,
    facts: &[Fact],
    made: &Made,
) -> Result<bool, AllocError>
    ensures { IfOk result (λ given. given ≡ spec.type_given (inside_of inside.now) facts.now made.now) }
{
    match made {
        Made::ByIndices(_) => Ok(true),
        Made::ByType(reading) => reading_given(alloc, inside, facts, reading),
    }
}
