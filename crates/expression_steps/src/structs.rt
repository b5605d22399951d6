//! Structs: what is wanted of the values of their fields, and what is made of these.
ghost use Rattle.std.specs.Prelude.{◌≡◌, IfOk, OnOk};
ghost use Rattle.value_indices.specs.Walking as walk;
ghost use Rattle.value_indices.specs.declared.indices.Indices.{out-Indices};
ghost use Rattle.pattern_leaves.specs.Settings.{around_of};
ghost use Rattle.expression_steps.specs.Coded as coded;
ghost use Rattle.expression_steps.specs.Values as value_spec;

use crate::aims::{field_aims, part_aims};
use crate::calls::named_made;
use crate::filling::any_holed;
use call_notes::{Aim, node_ended, wrong_value};
use expression_forms::{fields_of, is_struct};
use pattern_leaves::Around;
use sail_base::{Items, Place};
use sail_core::Core;
use sail_types::{Index, Typ};
use std::alloc::{AllocError, Global};
use value_indices::{Indices, Reading, Walking};

/// What is wanted of the values of fields, by the place of their struct in the table and theirs as they are written. It fails where memory
/// is wanting, and where binders are too many.
pub(crate) fn struct_aims(
    alloc: Global,
    around: &Around<'_>,
    named: u32,
    fields: &[u32],
) -> Result<Items<Aim>, AllocError>
    ensures { IfOk result (λ made. made ≡ value_spec.struct_aims (around_of around.now) named fields.now) }
{
    let types = fields_of(alloc, around, named, fields)?;
    part_aims(alloc, &None, types.as_slice())
}

/// How many of these fields there are. It fails where memory is wanting.
pub(crate) fn struct_count(
    alloc: Global,
    around: &Around<'_>,
    named: u32,
    fields: &[u32],
) -> Result<usize, AllocError>
    ensures { IfOk result (λ made. made ≡ value_spec.struct_count (around_of around.now) named fields.now) }
{
    let types = fields_of(alloc, around, named, fields)?;
    Ok(types.len())
}

/// What the node of a number makes of the values of these fields, which is noted. It fails where memory is wanting, and where variables are
/// too many.
#[tactic(auto, using(value_indices::proofs::Walks::walks))]
pub(crate) fn struct_made(
    alloc: Global,
    walking: &mut Walking,
    around: &Around<'_>,
    number: u32,
    named: u32,
    fields: &[u32],
    parts: &[Core],
    values: &[Indices],
) -> Result<Indices, AllocError>
    ensures value { IfOk result (λ made. made ≡ walk.got (value_spec.struct_made (around_of around.now) number named fields.now
        (coded.each_part parts.now) values.now) (walk.seen walking.old)) }
    ensures walked { OnOk result (walk.seen walking.new ≡ walk.run (value_spec.struct_made (around_of around.now) number named fields.now
        (coded.each_part parts.now) values.now) (walk.seen walking.old)) }
{
    let types = fields_of(alloc, around, named, fields)?;
    let value = named_made(
        alloc,
        walking,
        around,
        named,
        parts,
        &None,
        types.as_slice(),
        values,
    )?;
    node_ended(alloc, walking, number, values, value)
}

/// What is wanted of new values of fields of these types, by what the variables of their struct stand for.
fn new_aims(
    alloc: Global,
    types: &[Typ],
    indices: &[Index],
    readings: &[Reading],
) -> Result<Items<Aim>, AllocError>
    ensures { IfOk result (λ made. made ≡ value_spec.new_aims types.now indices.now readings.now) }
{
    if any_holed(readings) {
        part_aims(alloc, &None, types)
    } else {
        field_aims(alloc, types, indices, readings)
    }
}

/// Whether each of these fields is there, of these types, and one of so many values for it.
fn one_for_each(fields: &[u32], types: &[Typ], count: usize) -> bool
    ensures { result ≡ value_spec.one_for_each fields.now types.now count }
{
    fields.len() == types.len() && count == types.len()
}

/// What is wanted of so many new values of these fields, of these types; none where there isn't one for each.
fn some_aims(
    alloc: Global,
    fields: &[u32],
    types: &[Typ],
    count: usize,
    indices: &[Index],
    readings: &[Reading],
) -> Result<Option<Items<Aim>>, AllocError>
    ensures { IfOk result (λ made. made ≡ value_spec.some_aims fields.now types.now count indices.now readings.now) }
{
    if one_for_each(fields, types, count) {
        Ok(Some(new_aims(alloc, types, indices, readings)?))
    } else {
        Ok(None)
    }
}

/// What is wanted of so many new values of fields of a struct; none of a value that is not of this struct, and where there isn't one for each
/// field. It fails where memory is wanting, and where binders are too many.
pub fn with_aims(
    alloc: Global,
    around: &Around<'_>,
    named: u32,
    fields: &[u32],
    count: usize,
    value: &Indices,
) -> Result<Option<Items<Aim>>, AllocError>
    ensures { IfOk result (λ made. made ≡ value_spec.with_aims (around_of around.now) named fields.now count (out-Indices value.now)) }
{
    match value {
        Indices::Named(own, indices, readings) => {
            if is_struct(around, named, *own, readings.as_slice()) {
                let types = fields_of(alloc, around, named, fields)?;
                some_aims(
                    alloc,
                    fields,
                    types.as_slice(),
                    count,
                    indices.as_slice(),
                    readings.as_slice(),
                )
            } else {
                Ok(None)
            }
        }
        _ => Ok(None),
    }
}

/// What a value gives that is not of the struct: what never ends normally stays so, any other one owes what is false. It fails where memory is
/// wanting.
#[tactic(auto, using(value_indices::proofs::Walks::walks))]
pub fn no_struct(
    alloc: Global,
    walking: &mut Walking,
    place: Place,
    value: &Indices,
) -> Result<Indices, AllocError>
    ensures value { IfOk result (λ made. made ≡ walk.got (value_spec.no_struct place (out-Indices value.now)) (walk.seen walking.old)) }
    ensures walked { OnOk result (walk.seen walking.new ≡ walk.run (value_spec.no_struct place (out-Indices value.now)) (walk.seen walking.old)) }
{
    match value {
        Indices::Never => Ok(Indices::Never),
        _ => wrong_value(alloc, walking, place),
    }
}
