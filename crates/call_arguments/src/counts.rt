//! Counts of items.
ghost use Rattle.std.specs.Prelude.{◌≡◌, IfOk, min};

use std::alloc::AllocError;

/// A position in a list of at most 2^32 items; a longer one is more than memory is taken to hold.
pub fn small(position: usize) -> Result<u32, AllocError>
    ensures { IfOk result (λ small. small ≡ position) }
{
    match u32::try_from(position) {
        Ok(small) => Ok(small),
        Err(_) => Err(AllocError),
    }
}

/// The lesser of two counts.
pub fn least_of_two(one: usize, other: usize) -> usize
    ensures { result ≡ min one other }
{
    if one < other { one } else { other }
}

/// The least of three counts.
pub fn least_of_three(one: usize, other: usize, third: usize) -> usize
    ensures { result ≡ min one (min other third) }
{
    least_of_two(one, least_of_two(other, third))
}
