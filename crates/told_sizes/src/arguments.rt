//! Arguments of named types: those on which a size of the fields and payloads hangs are tested.
ghost use Rattle.std.specs.Prelude.{◌≡◌, IfOk, length};
ghost use Rattle.size_values.specs.Numbers as numbers;
ghost use Rattle.size_values.specs.Sized as sized;
ghost use Rattle.told_sizes.specs.Among as among;
ghost use Rattle.told_sizes.specs.Exact as spec;

use crate::among::index_among;
use crate::numbers::{is_exact_index, is_said_index, is_told_index};
use sail_types::{Index, Types};
use size_values::{Constant, Variables, hangs_on};
use std::alloc::{AllocError, Global};

/// Whether an argument fits, if a size hangs on it: the one at an index of so many. It fails where memory is wanting.
#[tactic(auto, using(crate::proofs::Only::only_true, crate::proofs::Only::only_false))]
fn fits_where(
    alloc: Global,
    types: &Types,
    place: u32,
    count: usize,
    index: usize,
    fits: bool,
) -> Result<bool, AllocError>
    ensures { IfOk result (λ is. is ≡ spec.only_if (sized.hangs_on types.now place count index) fits) }
{
    if fits {
        return Ok(true);
    }
    let hangs = hangs_on(alloc, types, place, count, index)?;
    Ok(!hangs)
}

/// Whether those on which a size hangs are exact. It fails where memory is wanting.
pub fn are_exact(
    alloc: Global,
    types: &Types,
    place: u32,
    arguments: &[Index],
    variables: &Variables<'_>,
) -> Result<bool, AllocError>
    ensures { IfOk result (λ are. are ≡ spec.are_exact types.now (numbers.meant variables.now) place (length arguments.now) 0 arguments.now) }
{
    let mut index = 0;
    for argument in arguments {
        let fits = is_exact_index(argument, variables);
        if !fits_where(alloc, types, place, arguments.len(), index, fits)? {
            return Ok(false);
        }
        index += 1;
    }
    Ok(true)
}

/// Whether they can be said. It fails where memory is wanting.
pub fn are_said(
    alloc: Global,
    types: &Types,
    place: u32,
    arguments: &[Index],
    indices: &[Index],
    constants: &[Constant],
    variables: &Variables<'_>,
) -> Result<bool, AllocError>
    ensures { IfOk result (λ are. are ≡ spec.are_said types.now (numbers.meant variables.now) place (length arguments.now) 0 indices.now constants.now
        arguments.now) }
{
    let mut index = 0;
    for argument in arguments {
        let fits = is_said_index(alloc, argument, indices, constants, variables)?;
        if !fits_where(alloc, types, place, arguments.len(), index, fits)? {
            return Ok(false);
        }
        index += 1;
    }
    Ok(true)
}

/// Whether they are told. It fails where memory is wanting.
pub fn are_told(
    alloc: Global,
    types: &Types,
    place: u32,
    arguments: &[Index],
    indices: &[Index],
    constants: &[Constant],
    variables: &Variables<'_>,
) -> Result<bool, AllocError>
    ensures { IfOk result (λ are. are ≡ spec.are_told types.now (numbers.meant variables.now) place (length arguments.now) 0 indices.now constants.now
        arguments.now) }
{
    let mut index = 0;
    for argument in arguments {
        let fits = is_told_index(alloc, argument, indices, constants, variables)?;
        if !fits_where(alloc, types, place, arguments.len(), index, fits)? {
            return Ok(false);
        }
        index += 1;
    }
    Ok(true)
}

/// Whether they name no variables but those that are constant. It fails where memory is wanting.
pub fn args_among(
    alloc: Global,
    types: &Types,
    place: u32,
    arguments: &[Index],
    variables: &Variables<'_>,
) -> Result<bool, AllocError>
    ensures { IfOk result (λ are. are ≡ among.args_among types.now (among.has_in (numbers.meant variables.now)) place (length arguments.now) 0
        arguments.now) }
{
    let mut index = 0;
    for argument in arguments {
        let fits = index_among(argument, variables);
        if !fits_where(alloc, types, place, arguments.len(), index, fits)? {
            return Ok(false);
        }
        index += 1;
    }
    Ok(true)
}
