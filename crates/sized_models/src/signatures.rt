//! The types of parameters and results.
ghost use Rattle.std.specs.Prelude.{◌≡◌, IfOk};
ghost use Rattle.monomorph.specs.Reading.{inside_of};
ghost use Rattle.sized_trees.specs.Trees as spec;

use crate::bodies::told_at;
use monomorph::{Inside, own_indices, reading_of};
use sail_base::Items;
use sail_core::Function;
use sail_types::{Index, Typ, Types};
use sized_nodes::{Instance, Signature, Told};
use std::alloc::{AllocError, Global};
use value_indices::{Made, Walking};

/// A type, as a value of it tells it, where its variables stand for these. It fails where memory is wanting, and where variables are too
/// many.
fn type_told(
    alloc: Global,
    inside: &Inside<'_>,
    numbers: &[Index],
    typ: &Typ,
) -> Result<Told, AllocError>
    ensures { IfOk result (λ told. told ≡ spec.type_told (inside_of inside.now) numbers.now typ.now) }
{
    let reading = reading_of(alloc, typ, numbers)?;
    told_at(alloc, inside, &[], &[], &Made::ByType(reading))
}

/// The same of several types.
fn types_told(
    alloc: Global,
    inside: &Inside<'_>,
    numbers: &[Index],
    parts: &[Typ],
) -> Result<Items<Told>, AllocError>
    ensures { IfOk result (λ made. made ≡ spec.types_told (inside_of inside.now) numbers.now parts.now) }
{
    let mut made = Items::new(alloc);
    for typ in parts {
        made.push(type_told(alloc, inside, numbers, typ)?)?;
    }
    Ok(made)
}

/// The types of parameters and of a result. They fail where memory is wanting, and where variables are too many.
fn signature_of(
    alloc: Global,
    inside: &Inside<'_>,
    numbers: &[Index],
    function: &Function,
) -> Result<Signature, AllocError>
    ensures { IfOk result (λ signature. signature ≡ spec.signature_of (inside_of inside.now) numbers.now function.now) }
{
    let parameters = types_told(alloc, inside, numbers, function.parameters.as_slice())?;
    let result = type_told(alloc, inside, numbers, &function.result)?;
    Ok(Signature { parameters, result })
}

/// The types of an instance's parameters and of its result. They fail where memory is wanting, and where variables are too many.
#[tactic(auto, unfolding(value_indices::specs::Walking::got, value_indices::specs::Walking::run))]
pub fn signature_under(
    alloc: Global,
    types: &Types,
    instance: &Instance,
    function: &Function,
) -> Result<Signature, AllocError>
    ensures { IfOk result (λ signature. signature ≡ spec.signature_under types.now instance.now function.now) }
{
    let mut walking = Walking::new(alloc, 0);
    let numbers = own_indices(alloc, &mut walking, function.variables.as_slice())?;
    let inside = Inside {
        types,
        sizing: &[],
        numbers: instance.numbers.as_slice(),
        own: instance.types.as_slice(),
        variables: walking.next(),
        names: &[],
        split: &[],
    };
    signature_of(alloc, &inside, numbers.as_slice(), function)
}
