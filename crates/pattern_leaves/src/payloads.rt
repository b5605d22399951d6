//! Payloads of constructors.
ghost use Rattle.std.specs.Prelude.{◌≡◌, [], ◌∷◌, IfOk, map};
ghost use Rattle.std.specs.Option.{option_copied};
ghost use Rattle.sail_types.specs.Named.{payload as payload_in};
ghost use Rattle.sail_types.specs.declared.types.Typ.{out-Typ};
ghost use Rattle.value_indices.specs.declared.indices.Reading.TheVariants as R;
ghost use Rattle.pattern_leaves.specs.Payloads as spec;

use sail_base::Items;
use sail_types::{Index, Typ, Types};
use std::alloc::{AllocError, Global};
use type_arguments::{copy_indices, copy_typ};
use value_indices::{Reading, copy_readings};

/// The payload of a constructor, by the union's place in the table and its own in the union; none where there is no such one.
pub fn payload(types: &Types, place: u32, constructor: u32) -> Option<&Typ>
    ensures { option_copied result ≡ payload_in types.now place constructor }
{
    match types.constructors(place).get(constructor as usize) {
        Some(field) => Some(&field.typ),
        None => None,
    }
}

/// The type of a payload, or those of the parts of one that is a tuple, where there are so many patterns. It fails where memory is
/// wanting.
pub fn payload_readings(
    alloc: Global,
    count: usize,
    payload: Option<&Typ>,
    numbers: &[Index],
    types: &[Reading],
) -> Result<Items<Reading>, AllocError>
    ensures { IfOk result (λ made. made
        ≡ spec.payload_readings (spec.payload_types count (option_copied payload.entry)) numbers.now types.now) }
{
    match payload {
        None => Ok(Items::new(alloc)),
        Some(typ) => {
            if count == 1 {
                one_reading(alloc, typ, numbers, types)
            } else {
                part_readings(alloc, typ, numbers, types)
            }
        }
    }
}

/// The types of the parts of a tuple; of another type that one. It fails where memory is wanting.
fn part_readings(
    alloc: Global,
    typ: &Typ,
    numbers: &[Index],
    types: &[Reading],
) -> Result<Items<Reading>, AllocError>
    ensures { IfOk result (λ made. made
        ≡ spec.payload_readings (spec.part_types typ.now (out-Typ typ.now)) numbers.now types.now) }
{
    match typ {
        Typ::Tuple(parts) => each_reading(alloc, parts.as_slice(), numbers, types),
        _ => one_reading(alloc, typ, numbers, types),
    }
}

/// One type under what its variables stand for. It fails where memory is wanting.
fn one_reading(
    alloc: Global,
    typ: &Typ,
    numbers: &[Index],
    types: &[Reading],
) -> Result<Items<Reading>, AllocError>
    ensures { IfOk result (λ made. made ≡ R.Of typ.now numbers.now types.now ∷ []) }
{
    let mut readings = Items::new(alloc);
    readings.push(reading_of(alloc, typ, numbers, types)?)?;
    Ok(readings)
}

/// Each type under what its variables stand for. It fails where memory is wanting.
fn each_reading(
    alloc: Global,
    parts: &[Typ],
    numbers: &[Index],
    types: &[Reading],
) -> Result<Items<Reading>, AllocError>
    ensures { IfOk result (λ made. made ≡ map (λ t. R.Of t numbers.now types.now) parts.now) }
{
    let mut readings = Items::new(alloc);
    for part in parts {
        readings.push(reading_of(alloc, part, numbers, types)?)?;
    }
    Ok(readings)
}

/// A type under what its variables stand for. It fails where memory is wanting.
fn reading_of(
    alloc: Global,
    typ: &Typ,
    numbers: &[Index],
    types: &[Reading],
) -> Result<Reading, AllocError>
    ensures { IfOk result (λ made. made ≡ R.Of typ.now numbers.now types.now) }
{
    let typ = copy_typ(alloc, typ)?;
    let numbers = copy_indices(alloc, numbers)?;
    let types = copy_readings(alloc, types)?;
    Ok(Reading::Of(typ, numbers, types))
}
