//! Named types that are read by then, with the numbers on which their sizes hang.
ghost use Rattle.std.specs.Prelude.{◌≡◌, ◌∷◌, IfOk, map};
ghost use Rattle.size_values.specs.Numbers as numbers;
ghost use Rattle.told_sizes.specs.Exact as spec;

use crate::small::{both, same_count, same_place};
use sail_base::Items;
use sail_types::{Index, Types};
use size_values::{Variables, indices_under, named_numbers, same_numbers};
use std::alloc::{AllocError, Global};

/// A named type that is applied.
#[derive(Drop)]
pub struct Applied {
    /// Its place in the table.
    pub place: u32,
    /// How many Type arguments it has.
    pub count: usize,
    /// The numbers of its Int and Bool arguments, where a size of its fields and payloads hangs on them.
    pub numbers: Items<Option<i128>>,
}

/// The named type at a place under these arguments, where the variables are these. It fails where memory is wanting.
pub fn applied_at(
    alloc: Global,
    types: &Types,
    place: u32,
    arguments: &[Index],
    count: usize,
    variables: &Variables<'_>,
) -> Result<Applied, AllocError>
    ensures { IfOk result (λ made. made ≡ spec.applied_at types.now (numbers.meant variables.now) place arguments.now count) }
{
    let constants = indices_under(alloc, arguments, variables)?;
    let numbers = named_numbers(alloc, types, place, constants.as_slice())?;
    Ok(Applied {
        place,
        count,
        numbers,
    })
}

/// The same once more.
fn copy_applied(alloc: Global, applied: &Applied) -> Result<Applied, AllocError>
    ensures { IfOk result (λ copy. copy ≡ applied.now) }
{
    let numbers = Items::from_slice(alloc, applied.numbers.as_slice())?;
    Ok(Applied {
        place: applied.place,
        count: applied.count,
        numbers,
    })
}

/// Whether two are the same.
fn is_applied(a: &Applied, b: &Applied) -> bool
    ensures { result ≡ spec.is_applied a.now b.now }
{
    let numbers = same_numbers(a.numbers.as_slice(), b.numbers.as_slice());
    both(
        same_place(a.place, b.place),
        both(same_count(a.count, b.count), numbers),
    )
}

/// Whether one is among those that were seen.
pub fn was_seen(applied: &Applied, seen: &[Applied]) -> bool
    ensures { result ≡ spec.was_seen applied.now seen.now }
{
    for other in seen {
        if is_applied(applied, other) {
            return true;
        }
    }
    false
}

/// Those that are seen with one more in front. They fail where memory is wanting.
pub fn with_first(
    alloc: Global,
    applied: &Applied,
    seen: &[Applied],
) -> Result<Items<Applied>, AllocError>
    ensures { IfOk result (λ made. made ≡ applied.now ∷ seen.now) }
{
    let mut made = Items::new(alloc);
    made.push(copy_applied(alloc, applied)?)?;
    for other in seen {
        made.push(copy_applied(alloc, other)?)?;
    }
    Ok(made)
}
