//! Struct literals, and structs with other fields.
ghost use Rattle.std.specs.Prelude.{◌≡◌, [], None, map, option_map, IfOk, OnOk};
ghost use Rattle.sail_types.specs.Named.{fields as fields_of};
ghost use Rattle.shape_rules.specs.Around.{setting_of};
ghost use Rattle.shape_rules.specs.Findings.{first_failure};
ghost use Rattle.shape_rules.specs.Values as spec;
ghost use Rattle.shape_calls.specs.Made.{made_of};
ghost use Rattle.shape_forms.specs.Structs as form;
ghost use Rattle.shape_forms.specs.Structs.{named_of};
ghost use Rattle.shape_walks.specs.Trees.{field_value};
ghost use Rattle.shape_walks.specs.Walks.{begun};
ghost use Rattle.shape_walks.specs.declared.walks.Plan.TheVariants as P;

use sail_base::{Items, Place};
use sail_core::Kind;
use sail_syntax::{FieldValue, Name};
use sail_types::{Shape, Types, copy_shapes, shape_of};
use shape_calls::{
    Made, field_count, field_in, named_place, note_base, over, settled, small_place,
    variables_of_type,
};
use shape_joins::holes;
use shape_rules::{Around, First, ShapeError};
use shape_walks::{Plan, Walk, known_shapes};
use std::alloc::{AllocError, Global};

/// Fields of a struct, as they are written.
#[derive(Drop)]
struct FoundFields {
    /// Their places in the struct.
    places: Items<u32>,
    /// Their shapes, over the struct's variables.
    shapes: Items<Shape>,
}

/// The fields of these names of the struct at a place in the table; none where it lacks one. The one error is want of memory.
#[tactic(auto, using(crate::proofs::FieldNames::named_more, crate::proofs::FieldNames::named_all, crate::proofs::FieldNames::field_name))]
fn fields_named(
    alloc: Global,
    types: &Types,
    place: u32,
    fields: &[FieldValue],
) -> Result<Option<FoundFields>, AllocError>
    ensures { IfOk result (λ found. option_map named_of found ≡ spec.fields_named (map field_value fields.now) (fields_of types.now place)) }
{
    let mut places = Items::new(alloc);
    let mut shapes = Items::new(alloc);
    for field in fields {
        match field_in(types, place, field.name.text.as_str())? {
            Some(found) => {
                places.push(found.place)?;
                shapes.push(shape_of(alloc, found.typ)?)?;
            }
            None => return Ok(None),
        }
    }
    Ok(Some(FoundFields { places, shapes }))
}

/// Whether the struct at a place in the table has just these fields. The one error is want of memory.
fn has_just(
    alloc: Global,
    types: &Types,
    place: u32,
    fields: &[FieldValue],
) -> Result<bool, AllocError>
    ensures { IfOk result (λ made. made ≡ spec.has_just (map field_value fields.now) (fields_of types.now place)) }
{
    match types.fields(place) {
        Some(known) => {
            let is_whole = known.len() == fields.len();
            let found = fields_named(alloc, types, place, fields)?;
            Ok(found.is_some() && is_whole)
        }
        None => Ok(false),
    }
}

/// The structs that have just these fields, by their places in the table. The one error is want of memory.
fn structs_with(
    alloc: Global,
    around: &Around<'_>,
    fields: &[FieldValue],
) -> Result<Items<u32>, AllocError>
    ensures { IfOk result (λ places. places
        ≡ spec.structs_from (setting_of around.now) (map field_value fields.now) 0 (setting_of around.now).types.definitions) }
{
    let mut places = Items::new(alloc);
    let mut place = 0;
    for definition in around.types.definitions.as_slice() {
        let at = small_place(place)?;
        if has_just(alloc, around.types, at, fields)? {
            places.push(at)?;
        }
        place += 1;
    }
    Ok(places)
}

/// The one of some places; none where there are others.
#[tactic(auto, using(crate::proofs::FieldNames::one_place, crate::proofs::FieldNames::other_count))]
fn only_one(places: &[u32]) -> Option<u32>
    ensures { result ≡ spec.only_one places.now }
{
    if places.len() == 1 {
        places.get(0).copied()
    } else {
        None
    }
}

/// The struct of a literal: that of its name, or without one the one struct that has just its fields. The one error is want of memory.
fn struct_place(
    alloc: Global,
    around: &Around<'_>,
    name: &Option<Name>,
    fields: &[FieldValue],
) -> Result<Option<u32>, AllocError>
    ensures { IfOk result (λ place. place ≡ spec.struct_place (setting_of around.now) name.now (map field_value fields.now)) }
{
    match name {
        Some(name) => Ok(around.struct_named(name.text.as_str())),
        None => Ok(only_one(structs_with(alloc, around, fields)?.as_slice())),
    }
}

/// What a struct literal is to be: its struct's place in the table, the places of its fields, and what is wanted of their values.
#[derive(Drop)]
pub struct StructPlan {
    /// The struct's place in the table.
    pub at: u32,
    /// The places of the fields.
    pub places: Items<u32>,
    /// What is wanted of their values.
    pub walk: Walk,
}

/// Fields of a struct, by their places.
#[derive(Drop)]
pub struct WithFields {
    /// The struct's place in the table.
    pub at: u32,
    /// The places of the fields.
    pub places: Items<u32>,
}

/// What a struct with other fields is to be.
#[derive(Drop)]
pub struct WithPlan {
    /// The fields; none, where the base is no struct that has them.
    pub fields: Option<WithFields>,
    /// What is wanted of their values.
    pub walk: Walk,
}

/// What a struct literal is to be; none, where it fails, which is noted. The one error is want of memory.
pub fn plan_struct(
    alloc: Global,
    place: Place,
    around: &Around<'_>,
    name: &Option<Name>,
    fields: &[FieldValue],
    first: &mut First,
) -> Result<Option<StructPlan>, AllocError>
    ensures plan { IfOk result (λ made. made ≡ form.struct_plan_of (setting_of around.now) name.now (map field_value fields.now)) }
    ensures failures { OnOk result (first.new.error
        ≡ first_failure first.old.error (form.struct_faults place (setting_of around.now) name.now (map field_value fields.now))) }
{
    match struct_place(alloc, around, name, fields)? {
        Some(at) => {
            let made = plan_struct_at(alloc, around, at, fields)?;
            note_count(
                place,
                field_count(around.types, at),
                fields.len(),
                &made,
                first,
            );
            Ok(made)
        }
        None => {
            let mismatch = None;
            first.note(ShapeError::IllShaped { place, mismatch });
            Ok(None)
        }
    }
}

/// What a literal of the struct at this place in the table is to be; none, where it hasn't just these fields.
fn plan_struct_at(
    alloc: Global,
    around: &Around<'_>,
    at: u32,
    fields: &[FieldValue],
) -> Result<Option<StructPlan>, AllocError>
    ensures { IfOk result (λ made. made ≡ form.struct_plan_at (setting_of around.now) (map field_value fields.now) at) }
{
    match fields_named(alloc, around.types, at, fields)? {
        Some(FoundFields { places, shapes }) => {
            if field_count(around.types, at) == fields.len() {
                let known = holes(alloc, variables_of_type(around, at))?;
                let walk = Walk::new(alloc, Plan::Params(shapes, known));
                Ok(Some(StructPlan { at, places, walk }))
            } else {
                Ok(None)
            }
        }
        None => Ok(None),
    }
}

/// Notes that a literal has other fields than its struct.
fn note_count(
    place: Place,
    wanted: usize,
    found: usize,
    made: &Option<StructPlan>,
    first: &mut First,
)
    ensures { first.new.error ≡ first_failure first.old.error (form.count_faults place wanted found made.now) }
{
    if made.is_none() {
        first.note(ShapeError::Arity {
            place,
            wanted,
            found,
        });
    }
}

/// A struct literal of field values that were found. The one error is want of memory.
#[tactic(auto, unfolding(crate::specs::Structs::struct_made))]
pub fn finish_struct(
    alloc: Global,
    place: Place,
    at: u32,
    places: Items<u32>,
    walk: Walk,
    want: &Shape,
    first: &mut First,
) -> Result<Made, AllocError>
    ensures made { IfOk result (λ made. made ≡ made_of (form.struct_made place want.now at places walk)) }
    ensures failures { OnOk result (first.new.error ≡ first_failure first.old.error (form.struct_made place want.now at places walk).faults) }
{
    let Walk { plan, cores, .. } = walk;
    let known = known_shapes(alloc, plan);
    let core = over(place, Kind::Struct(at, places), cores);
    settled(alloc, place, want, Shape::Named(at, known), core, first)
}

/// What a struct with other fields is to be, whose base has this shape: a field's value is wanted as what is known of the struct's
/// variables by the base and by the values before it. The one error is want of memory.
fn with_of(
    alloc: Global,
    around: &Around<'_>,
    shape: &Shape,
    fields: &[FieldValue],
) -> Result<WithPlan, AllocError>
    ensures { IfOk result (λ made. made ≡ form.with_plan_of (setting_of around.now) (map field_value fields.now) shape.now) }
{
    let Some(named) = named_place(shape) else {
        return Ok(without(alloc));
    };
    let Some(FoundFields { places, shapes }) = fields_named(
        alloc,
        around.types,
        named.place,
        fields,
    )?
    else {
        return Ok(without(alloc));
    };
    let known = copy_shapes(alloc, named.arguments)?;
    let at = named.place;
    Ok(WithPlan {
        fields: Some(WithFields { at, places }),
        walk: Walk::new(alloc, Plan::Params(shapes, known)),
    })
}

/// What is wanted where a base is no struct that has the fields: nothing.
fn without(alloc: Global) -> WithPlan
    ensures { result ≡ record { fields = None; walk = begun (P.Each []) } }
{
    WithPlan {
        fields: None,
        walk: Walk::new(alloc, Plan::Each(Items::new(alloc))),
    }
}

/// What a struct with other fields is to be, whose base stands here and has this shape; notes a base that is no struct that has them.
/// The one error is want of memory.
pub fn plan_with(
    alloc: Global,
    at_base: Place,
    around: &Around<'_>,
    shape: &Shape,
    fields: &[FieldValue],
    first: &mut First,
) -> Result<WithPlan, AllocError>
    ensures plan { IfOk result (λ made. made ≡ form.with_plan_of (setting_of around.now) (map field_value fields.now) shape.now) }
    ensures failures { OnOk result (first.new.error ≡ first_failure first.old.error
        (form.with_faults at_base shape.now (form.with_plan_of (setting_of around.now) (map field_value fields.now) shape.now).fields)) }
{
    let made = with_of(alloc, around, shape, fields)?;
    if made.fields.is_none() {
        note_base(at_base, shape, &None, first);
    }
    Ok(made)
}

/// A struct with other fields, the values of which were found. The one error is want of memory.
#[tactic(auto, unfolding(crate::specs::Structs::with_made_of))]
pub fn finish_with(
    alloc: Global,
    place: Place,
    base: Made,
    fields: Option<WithFields>,
    walk: Walk,
    want: &Shape,
    first: &mut First,
) -> Result<Made, AllocError>
    ensures made { IfOk result (λ made. made ≡ made_of (form.with_made_of place want.now base fields walk)) }
    ensures failures { OnOk result (first.new.error ≡ first_failure first.old.error (form.with_made_of place want.now base fields walk).faults) }
{
    let Walk { plan, cores, .. } = walk;
    let mut parts = Items::new(alloc);
    base.into_shape(&mut parts)?;
    parts.append(cores)?;
    match fields {
        Some(WithFields { at, places }) => {
            let shape = Shape::Named(at, known_shapes(alloc, plan));
            let core = over(place, Kind::With(at, places), parts);
            settled(alloc, place, want, shape, core, first)
        }
        None => {
            let core = over(place, Kind::With(0, Items::new(alloc)), parts);
            settled(alloc, place, want, Shape::Never, core, first)
        }
    }
}
