//! The cases of a node.
ghost use Rattle.std.specs.Prelude.{◌≡◌, ◌++◌, IfOk, OnOk};
ghost use Rattle.monomorph.specs.Reading.{inside_of};
ghost use Rattle.sized_trees.specs.Cases as spec;

use crate::combinations::{Choice, picked_by};
use crate::within::all_within;
use monomorph::Inside;
use sail_base::Items;
use size_values::{Picked, Sized, Variables, reading_sizes, value_sized, value_sizes};
use sized_nodes::Case;
use std::alloc::{AllocError, Global};
use value_indices::{Indices, Reading};

/// Whether the sizes of a value are constants within their limits, where these numbers are taken. It fails where memory is wanting.
fn value_within(
    alloc: Global,
    inside: &Inside<'_>,
    picked: &[Picked],
    indices: &Indices,
) -> Result<bool, AllocError>
    ensures { IfOk result (λ within. within ≡ spec.value_within (inside_of inside.now) picked.now indices.now) }
{
    let variables = Variables::Known(inside.numbers, picked);
    let sizes = value_sizes(alloc, inside.types, indices, &variables)?;
    Ok(all_within(sizes.as_slice()))
}

/// The same of several values.
pub fn values_within(
    alloc: Global,
    inside: &Inside<'_>,
    picked: &[Picked],
    values: &[Indices],
) -> Result<bool, AllocError>
    ensures { IfOk result (λ within. within ≡ spec.values_within (inside_of inside.now) picked.now values.now) }
{
    for indices in values {
        if !value_within(alloc, inside, picked, indices)? {
            return Ok(false);
        }
    }
    Ok(true)
}

/// Whether the sizes of a type are constants within their limits, where these numbers are taken. It fails where memory is wanting.
fn reading_within(
    alloc: Global,
    inside: &Inside<'_>,
    picked: &[Picked],
    reading: &Reading,
) -> Result<bool, AllocError>
    ensures { IfOk result (λ within. within ≡ spec.reading_within (inside_of inside.now) picked.now reading.now) }
{
    let variables = Variables::Known(inside.numbers, picked);
    let sizes = reading_sizes(alloc, inside.types, reading, &variables)?;
    Ok(all_within(sizes.as_slice()))
}

/// The same of several types.
pub fn readings_within(
    alloc: Global,
    inside: &Inside<'_>,
    picked: &[Picked],
    readings: &[Reading],
) -> Result<bool, AllocError>
    ensures { IfOk result (λ within. within ≡ spec.readings_within (inside_of inside.now) picked.now readings.now) }
{
    for reading in readings {
        if !reading_within(alloc, inside, picked, reading)? {
            return Ok(false);
        }
    }
    Ok(true)
}

/// The types of values, where these numbers are taken. They fail where memory is wanting.
pub fn all_sized(
    alloc: Global,
    inside: &Inside<'_>,
    picked: &[Picked],
    values: &[Indices],
) -> Result<Items<Sized>, AllocError>
    ensures { IfOk result (λ made. made ≡ spec.all_sized_under (inside_of inside.now) picked.now values.now) }
{
    let variables = Variables::Known(inside.numbers, picked);
    let mut made = Items::new(alloc);
    for indices in values {
        let sized = value_sized(alloc, inside.types, inside.own, indices, &variables)?;
        made.push(sized)?;
    }
    Ok(made)
}

/// The type of a value, where these numbers are taken. It fails where memory is wanting.
fn sized_under(
    alloc: Global,
    inside: &Inside<'_>,
    picked: &[Picked],
    value: &Indices,
) -> Result<Sized, AllocError>
    ensures { IfOk result (λ sized. sized ≡ spec.sized_under (inside_of inside.now) picked.now value.now) }
{
    let variables = Variables::Known(inside.numbers, picked);
    value_sized(alloc, inside.types, inside.own, value, &variables)
}

/// Whether all sizes of a case are constants within their limits. It fails where memory is wanting.
fn case_within(
    alloc: Global,
    inside: &Inside<'_>,
    operands: &[Indices],
    value: &Indices,
    choice: &Choice,
) -> Result<bool, AllocError>
    ensures { IfOk result (λ within. within ≡ spec.case_within (inside_of inside.now) operands.now value.now choice.now) }
{
    if values_within(alloc, inside, choice.noted.as_slice(), operands)? {
        let picked = picked_by(alloc, choice)?;
        value_within(alloc, inside, picked.as_slice(), value)
    } else {
        Ok(false)
    }
}

/// What a node takes and gives, where these numbers are taken. It fails where memory is wanting.
fn case_of(
    alloc: Global,
    inside: &Inside<'_>,
    operands: &[Indices],
    value: &Indices,
    choice: &Choice,
) -> Result<Case, AllocError>
    ensures { IfOk result (λ case. case ≡ spec.case_of (inside_of inside.now) operands.now value.now choice.now) }
{
    let takes = all_sized(alloc, inside, choice.noted.as_slice(), operands)?;
    let picked = picked_by(alloc, choice)?;
    let gives = sized_under(alloc, inside, picked.as_slice(), value)?;
    Ok(Case {
        picked,
        takes,
        gives,
    })
}

/// Its case, if all sizes are constants within their limits. It fails where memory is wanting.
pub fn case_under(
    alloc: Global,
    inside: &Inside<'_>,
    operands: &[Indices],
    value: &Indices,
    choice: &Choice,
) -> Result<Option<Case>, AllocError>
    ensures { IfOk result (λ case. case ≡ spec.case_under (inside_of inside.now) operands.now value.now choice.now) }
{
    if case_within(alloc, inside, operands, value, choice)? {
        Ok(Some(case_of(alloc, inside, operands, value, choice)?))
    } else {
        Ok(None)
    }
}

/// Puts a case, if there is one. It fails where memory is wanting.
fn push_case(cases: &mut Items<Case>, case: Option<Case>) -> Result<(), AllocError>
    ensures { OnOk result (cases.new ≡ cases.old ++ spec.one_or_none case) }
{
    match case {
        Some(case) => cases.push(case),
        None => Ok(()),
    }
}

/// The cases of a node where these numbers are taken. They fail where memory is wanting.
pub fn cases_under(
    alloc: Global,
    inside: &Inside<'_>,
    operands: &[Indices],
    value: &Indices,
    choices: &[Choice],
) -> Result<Items<Case>, AllocError>
    ensures { IfOk result (λ cases. cases ≡ spec.cases_under (inside_of inside.now) operands.now value.now choices.now) }
{
    let mut cases = Items::new(alloc);
    for choice in choices {
        let case = case_under(alloc, inside, operands, value, choice)?;
        push_case(&mut cases, case)?;
    }
    Ok(cases)
}
