//! Sizes that are refused.
ghost use Rattle.std.specs.Prelude.{◌≡◌, IfOk};
ghost use Rattle.monomorph.specs.Refusals as spec;

use crate::error::MonoError;
use sail_base::{Items, Place, Text};
use size_values::{Constant, Size};
use std::alloc::{AllocError, Global};

/// The largest integer.
const LARGEST: i128 = 1 << 126;

/// The name of a variable. It fails where memory is wanting.
fn name_of(alloc: Global, names: &[Text], variable: u32) -> Result<Text, AllocError>
    ensures { IfOk result (λ name. name ≡ spec.name_of names.now variable) }
{
    match names.get(variable as usize) {
        Some(name) => name.clone(),
        None => Text::new(alloc, "#"),
    }
}

/// Why a number that is given is refused: one past the largest integer counts as that, so that isn't given.
#[tactic(auto, unfolding(sail_types::specs::Limits::largest))]
fn given_refused(place: Place, number: i128) -> Option<MonoError>
    ensures { result ≡ spec.given_refused place number }
{
    if LARGEST <= number {
        Some(MonoError::WidthLimit(place, number))
    } else {
        None
    }
}

/// Why a number at a place isn't constant or is the largest integer, where it is so. It fails where memory is wanting.
fn constant_refused(
    alloc: Global,
    place: Place,
    names: &[Text],
    constant: &Constant,
) -> Result<Option<MonoError>, AllocError>
    ensures { IfOk result (λ refused. refused ≡ spec.constant_refused place names.now constant.now) }
{
    match constant {
        Constant::Number(number) => Ok(given_refused(place, *number)),
        Constant::Open(variable) => {
            let name = name_of(alloc, names, *variable)?;
            Ok(Some(MonoError::SizeOpen(place, name)))
        }
        Constant::Bound(name) => Ok(Some(MonoError::SizeOpen(place, name.clone()?))),
    }
}

/// Why the first of these numbers that isn't constant or is the largest integer is refused. It fails where memory is wanting.
pub fn constants_refused(
    alloc: Global,
    place: Place,
    names: &[Text],
    constants: &[Constant],
) -> Result<Option<MonoError>, AllocError>
    ensures { IfOk result (λ refused. refused ≡ spec.constants_refused place names.now constants.now) }
{
    for constant in constants {
        if let Some(refused) = constant_refused(alloc, place, names, constant)? {
            return Ok(Some(refused));
        }
    }
    Ok(None)
}

/// Why a constant size is refused, where it is below 0 or past its limit.
fn limit_refused(place: Place, largest: u32, number: i128) -> Option<MonoError>
    ensures { result ≡ spec.limit_refused place largest number }
{
    if 0 <= number && number <= largest as i128 {
        None
    } else {
        Some(MonoError::WidthLimit(place, number))
    }
}

/// Why a size is refused, where it isn't constant, below 0 or past its limit. It fails where memory is wanting.
pub fn size_refused(
    alloc: Global,
    place: Place,
    names: &[Text],
    size: &Size,
) -> Result<Option<MonoError>, AllocError>
    ensures { IfOk result (λ refused. refused ≡ spec.size_refused place names.now size.now) }
{
    match &size.number {
        Constant::Number(number) => Ok(limit_refused(place, size.largest, *number)),
        _ => constant_refused(alloc, place, names, &size.number),
    }
}

/// Why the first of these sizes that is refused is so. It fails where memory is wanting.
pub fn sizes_refused(
    alloc: Global,
    place: Place,
    names: &[Text],
    sizes: &[Size],
) -> Result<Option<MonoError>, AllocError>
    ensures { IfOk result (λ refused. refused ≡ spec.sizes_refused place names.now sizes.now) }
{
    for size in sizes {
        if let Some(refused) = size_refused(alloc, place, names, size)? {
            return Ok(Some(refused));
        }
    }
    Ok(None)
}
