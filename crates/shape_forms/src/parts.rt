//! Ways into values, and the indexes in them.
ghost use Rattle.std.specs.Prelude.{◌≡◌, ◌++◌, None, option_map, IfOk, OnOk};
ghost use Rattle.sail_types.specs.declared.shapes.Shape.{out-Shape};
ghost use Rattle.shape_rules.specs.Around.{setting_of};
ghost use Rattle.shape_rules.specs.Targets as target;
ghost use Rattle.shape_rules.specs.Values as spec;
ghost use Rattle.shape_rules.specs.Findings.{first_failure};
ghost use Rattle.shape_calls.specs.Made.{made_of};
ghost use Rattle.shape_calls.specs.Ways.{led_of};
ghost use Rattle.shape_forms.specs.Over.{over_found};
ghost use Rattle.shape_walks.specs.Trees.{suffix_part, index_part};

use crate::over::settle_over;
use sail_base::{Boxed, Items, Place};
use sail_core::{Core, Kind, Suffix as Step};
use sail_syntax::{Index, Suffix};
use sail_types::{Shape, copy_shape};
use shape_calls::{Inside, Made, given_on, into_field, into_item, into_slice, suffix_at};
use shape_rules::{Around, First};
use std::alloc::{AllocError, Global};

/// What a suffix finds in a value of this shape. The one error is want of memory.
pub fn led(
    alloc: Global,
    suffix: &Suffix,
    shape: &Shape,
    around: &Around<'_>,
) -> Result<Option<Inside>, AllocError>
    ensures { IfOk result (λ inside. option_map led_of inside ≡ target.led_form (setting_of around.now) (suffix_part suffix.now) (out-Shape shape.now)) }
{
    match suffix {
        Suffix::Field(name) => into_field(alloc, around, name.text.as_str(), shape),
        Suffix::At(_, index) => led_index(alloc, index, shape),
    }
}

/// The item or slice that an index finds in a value of this shape. The one error is want of memory.
pub fn led_index(alloc: Global, index: &Index, shape: &Shape) -> Result<Option<Inside>, AllocError>
    ensures { IfOk result (λ inside. option_map led_of inside ≡ target.led_index (index_part index.now).last (out-Shape shape.now)) }
{
    match &index.last {
        None => into_item(alloc, shape),
        Some(_) => Ok(into_slice(shape)),
    }
}

/// The way to what a suffix found goes behind others. The one error is want of memory.
pub fn push_step(
    place: Place,
    inside: &Option<Inside>,
    steps: &mut Items<Step>,
) -> Result<(), AllocError>
    ensures { OnOk result (steps.new ≡ steps.old ++ target.suffixes_if place (option_map led_of inside.now)) }
{
    match inside {
        Some(inside) => steps.push(suffix_at(place, inside.way)),
        None => Ok(()),
    }
}

/// What the node of an update is.
fn update_kind(index: &Index) -> Kind
    ensures { result ≡ spec.update_kind (index_part index.now).last }
{
    match &index.last {
        None => Kind::WithItem,
        Some(_) => Kind::WithSlice,
    }
}

/// A value with another item of this shape: a vector is one of what both come to.
fn with_item(alloc: Global, whole: Shape, found: &Shape) -> Result<Shape, AllocError>
    ensures { IfOk result (λ shape. shape ≡ spec.updated_shape None (out-Shape whole) whole found.now) }
{
    match &whole {
        Shape::Vector(item) => {
            let item = given_on(alloc, copy_shape(alloc, item.get())?, found)?;
            Ok(Shape::Vector(Boxed::new(alloc, item)?))
        }
        _ => Ok(whole),
    }
}

/// The shape of a value with another item or slice of this shape.
fn updated_shape(
    alloc: Global,
    index: &Index,
    whole: Shape,
    found: &Shape,
) -> Result<Shape, AllocError>
    ensures { IfOk result (λ shape. shape ≡ spec.updated_shape (index_part index.now).last (out-Shape whole) whole found.now) }
{
    match &index.last {
        None => with_item(alloc, whole, found),
        Some(_) => Ok(whole),
    }
}

/// A value with another item or slice, where a shape is wanted (`Never`, where none is): notes where it isn't the wanted one. The one
/// error is want of memory.
pub fn finish_update(
    alloc: Global,
    place: Place,
    index: &Index,
    whole: Shape,
    found: &Shape,
    cores: Items<Core>,
    want: &Shape,
    first: &mut First,
) -> Result<Made, AllocError>
    ensures made { IfOk result (λ made. made ≡ made_of (over_found place want.now
        (spec.updated_shape (index_part index.now).last (out-Shape whole) whole found.now) (spec.update_kind (index_part index.now).last) cores)) }
    ensures failures { OnOk result (first.new.error ≡ first_failure first.old.error (over_found place want.now
        (spec.updated_shape (index_part index.now).last (out-Shape whole) whole found.now) (spec.update_kind (index_part index.now).last) cores).faults) }
{
    let shape = updated_shape(alloc, index, whole, found)?;
    settle_over(alloc, place, want, shape, update_kind(index), cores, first)
}
