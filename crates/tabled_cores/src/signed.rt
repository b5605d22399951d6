//! Parameters: that under each combination of numbers an argument tells its type.
ghost use Rattle.std.specs.Prelude.{◌≡◌, IfOk};
ghost use Rattle.std.specs.List.{list_all};
ghost use Rattle.monomorph.specs.Reading.{inside_of};
ghost use Rattle.tabled_cores.specs.Signed as spec;

use crate::made::made_tested;
use function_notes::{own_indices, reading_of};
use monomorph::Inside;
use sail_core::Function;
use sail_types::{Index, Typ, Types};
use sized_nodes::Instance;
use std::alloc::{AllocError, Global};
use value_indices::{Made, Walking};

/// Whether a type is so, where the function's variables stand for these. It fails where memory is wanting, and where variables are too many.
fn typ_signed(
    alloc: Global,
    given: bool,
    inside: &Inside<'_>,
    numbers: &[Index],
    typ: &Typ,
) -> Result<bool, AllocError>
    ensures { IfOk result (λ signed. signed ≡ spec.typ_signed given (inside_of inside.now) numbers.now typ.now) }
{
    let reading = reading_of(alloc, typ, numbers)?;
    made_tested(alloc, given, inside, &[], &[], &Made::ByType(reading))
}

/// The same of several types.
fn all_signed(
    alloc: Global,
    given: bool,
    inside: &Inside<'_>,
    numbers: &[Index],
    parts: &[Typ],
) -> Result<bool, AllocError>
    ensures { IfOk result (λ signed. signed ≡ list_all (spec.typ_signed given (inside_of inside.now) numbers.now) parts.now) }
{
    for typ in parts {
        if !typ_signed(alloc, given, inside, numbers, typ)? {
            return Ok(false);
        }
    }
    Ok(true)
}

/// Whether the parameters of a function are so for an instance. It fails where memory is wanting, and where variables are too many.
#[tactic(auto, unfolding(value_indices::specs::Walking::got, value_indices::specs::Walking::run))]
pub fn parameters_signed(
    alloc: Global,
    given: bool,
    types: &Types,
    instance: &Instance,
    function: &Function,
) -> Result<bool, AllocError>
    ensures { IfOk result (λ signed. signed ≡ spec.parameters_signed given types.now instance.now function.now) }
{
    let mut walking = Walking::new(alloc, 0);
    let numbers = own_indices(alloc, &mut walking, function.variables.as_slice())?;
    let inside = Inside {
        types,
        sizing: &[],
        numbers: instance.numbers.as_slice(),
        own: instance.types.as_slice(),
        variables: walking.next(),
        names: &[],
        split: &[],
    };
    all_signed(
        alloc,
        given,
        &inside,
        numbers.as_slice(),
        function.parameters.as_slice(),
    )
}
