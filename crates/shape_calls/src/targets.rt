//! Ways into values, and names that are assigned to.
ghost use Rattle.std.specs.Prelude.{◌≡◌, ◌∷◌, ◌++◌, [], IfOk, OnOk, option_map};
ghost use Rattle.std.specs.Option.{option_copied};
ghost use Rattle.sail_types.specs.Named.{fields as fields_of};
ghost use Rattle.sail_types.specs.declared.shapes.Shape.{out-Shape};
ghost use Rattle.shape_rules.specs.Findings.{first_failure};
ghost use Rattle.shape_rules.specs.Around.{setting_of};
ghost use Rattle.shape_rules.specs.Targets as spec;
ghost use Rattle.shape_calls.specs.Ways.{in_struct_of, led_of, aim_of};

use sail_base::{Items, Place};
use sail_core::{Core, Suffix, Target, TargetKind, Way};
use sail_syntax::Name;
use sail_types::{Field, Shape, Typ, Types, copy_shape, shape_of};
use shape_joins::put_shape;
use shape_rules::{Around, First, Local, Meant, ShapeError};
use std::alloc::{AllocError, Global};

/// A field of a struct.
#[derive(Clone, Copy)]
pub struct FoundField<'t> {
    /// Its place in the struct.
    pub place: u32,
    /// Its type, over the struct's parameters.
    pub typ: &'t Typ,
}

/// A part of a value.
#[derive(Drop)]
pub struct Inside {
    /// The way to it.
    pub way: Way,
    /// Its shape.
    pub shape: Shape,
}

/// What is found of a target.
#[derive(Drop)]
pub struct Aim {
    /// The shape of what is assigned; `Never` where the target failed.
    pub shape: Shape,
    /// The target, whose nodes have no numbers yet.
    pub target: Target,
    /// The arguments and indexes in it.
    pub parts: Items<Core>,
    /// The shape of the assignment: of what a writer gives, and else unit; `Never` where the target failed.
    pub answer: Shape,
}

impl Aim {
    /// The shape of what is assigned; the target and its parts go behind others. The one error is want of memory.
    pub fn into_shape(
        self,
        targets: &mut Items<Target>,
        parts: &mut Items<Core>,
    ) -> Result<Shape, AllocError>
        ensures shape { IfOk result (λ shape. shape ≡ self.shape) }
        ensures targets { OnOk result (targets.new ≡ targets.old ++ self.target ∷ []) }
        ensures parts { OnOk result (parts.new ≡ parts.old ++ self.parts) }
    {
        let Aim {
            shape,
            target,
            parts: own,
            ..
        } = self;
        parts.append(own)?;
        targets.push(target)?;
        Ok(shape)
    }
}

/// A place in a list of at most 2^32 items; a longer one is more than memory is taken to hold.
pub fn small_place(place: usize) -> Result<u32, AllocError>
    ensures { IfOk result (λ small. small ≡ place) }
{
    match u32::try_from(place) {
        Ok(small) => Ok(small),
        Err(_) => Err(AllocError),
    }
}

/// The first field of a name; none where there is no such field. The one error is want of memory.
pub fn field_named<'t>(
    fields: &'t [Field],
    name: &str,
) -> Result<Option<FoundField<'t>>, AllocError>
    ensures { IfOk result (λ found. option_map in_struct_of found ≡ spec.field_named name.now fields.now) }
{
    let mut place = 0;
    for field in fields {
        if field.name.as_str() == name {
            let typ = &field.typ;
            let place = small_place(place)?;
            return Ok(Some(FoundField { place, typ }));
        }
        place += 1;
    }
    Ok(None)
}

/// The field of a name of the struct at a place in the table; none where that is no struct with such a field. The one error is want of
/// memory.
pub fn field_in<'t>(
    types: &'t Types,
    place: u32,
    name: &str,
) -> Result<Option<FoundField<'t>>, AllocError>
    ensures { IfOk result (λ found. option_map in_struct_of found ≡ spec.field_in name.now (fields_of types.now place)) }
{
    match types.fields(place) {
        Some(fields) => field_named(fields, name),
        None => Ok(None),
    }
}

/// A field of a struct that has these arguments.
fn field_led(
    alloc: Global,
    place: u32,
    arguments: &[Shape],
    field: FoundField<'_>,
) -> Result<Inside, AllocError>
    ensures { IfOk result (λ inside. Some (led_of inside) ≡ spec.field_led place arguments.now (Some (in_struct_of field.entry))) }
{
    let shape = shape_of(alloc, field.typ)?;
    let shape = put_shape(alloc, &shape, arguments)?;
    Ok(Inside {
        way: Way::Field(place, field.place),
        shape,
    })
}

/// The field of a name in a value of this shape; none where it has none. The one error is want of memory.
pub fn into_field(
    alloc: Global,
    around: &Around<'_>,
    name: &str,
    shape: &Shape,
) -> Result<Option<Inside>, AllocError>
    ensures { IfOk result (λ inside. option_map led_of inside ≡ spec.into_field (setting_of around.now) name.now (out-Shape shape.now)) }
{
    match shape {
        Shape::Named(place, arguments) => match field_in(around.types, *place, name)? {
            Some(field) => Ok(Some(field_led(alloc, *place, arguments.as_slice(), field)?)),
            None => Ok(None),
        },
        _ => Ok(None),
    }
}

/// The item at an index in a value of this shape; none where it has none. The one error is want of memory.
pub fn into_item(alloc: Global, shape: &Shape) -> Result<Option<Inside>, AllocError>
    ensures { IfOk result (λ inside. option_map led_of inside ≡ spec.into_item (out-Shape shape.now)) }
{
    match shape {
        Shape::Bits => Ok(Some(Inside {
            way: Way::Item,
            shape: Shape::Bit,
        })),
        Shape::Vector(item) => Ok(Some(Inside {
            way: Way::Item,
            shape: copy_shape(alloc, item.get())?,
        })),
        _ => Ok(None),
    }
}

/// The slice in a value of this shape; none where it has none.
pub fn into_slice(shape: &Shape) -> Option<Inside>
    ensures { option_map led_of result ≡ spec.into_slice (out-Shape shape.now) }
{
    match shape {
        Shape::Bits => Some(Inside {
            way: Way::Slice,
            shape: Shape::Bits,
        }),
        _ => None,
    }
}

/// Whether a shape isn't known, so that its value may have every part.
pub fn is_open(shape: &Shape) -> bool
    ensures { result ≡ spec.is_open shape.now }
{
    match shape {
        Shape::Hole => true,
        Shape::Never => true,
        _ => false,
    }
}

/// Notes a base that has no such part, at the base.
pub fn note_base(place: Place, shape: &Shape, inside: &Option<Inside>, first: &mut First)
    ensures { first.new.error ≡ first_failure first.old.error (spec.base_faults place shape.now (option_map led_of inside.now)) }
{
    if inside.is_none() && !is_open(shape) {
        first.note(ShapeError::IllShaped {
            place,
            mismatch: None,
        });
    }
}

/// The shape of what is inside; `Never` where nothing is.
pub fn shape_inside(inside: Option<Inside>) -> Shape
    ensures { result ≡ spec.led_shape (option_map led_of inside) }
{
    match inside {
        Some(inside) => inside.shape,
        None => Shape::Never,
    }
}

/// What follows a base, without a number yet.
pub fn suffix_at(place: Place, way: Way) -> Suffix
    ensures { result ≡ spec.suffix_at place way }
{
    Suffix {
        place,
        number: 0,
        way,
    }
}

/// A target without targets inside, whose assignment is `()`.
pub fn aimed(alloc: Global, shape: Shape, place: Place, kind: TargetKind) -> Aim
    ensures { result ≡ aim_of (spec.aimed shape place kind) }
{
    Aim {
        shape,
        target: Target {
            place,
            number: 0,
            kind,
            parts: Items::new(alloc),
        },
        parts: Items::new(alloc),
        answer: Shape::Unit,
    }
}

/// What stands in the place of a target that failed, whose assignment is `Never`.
pub fn aimed_nowhere(alloc: Global, place: Place) -> Aim
    ensures { result ≡ aim_of (spec.aimed_nowhere place []) }
{
    let nowhere = aimed(alloc, Shape::Never, place, TargetKind::Register(0));
    Aim {
        answer: Shape::Never,
        ..nowhere
    }
}

/// A name that no local has, as a target: a register. The one error is want of memory.
pub fn register_aimed(alloc: Global, name: &Name, meant: Option<&Meant>) -> Result<Aim, AllocError>
    ensures { IfOk result (λ aim. aim ≡ aim_of (spec.register_aimed name.now (option_copied meant.entry))) }
{
    match meant {
        Some(Meant::Register(place, shape)) => {
            let shape = copy_shape(alloc, shape)?;
            Ok(aimed(alloc, shape, name.place, TargetKind::Register(*place)))
        }
        _ => Ok(aimed_nowhere(alloc, name.place)),
    }
}

/// A name as a target: a `var`, else a register. The one error is want of memory.
pub fn name_aimed(
    alloc: Global,
    name: &Name,
    local: Option<&Local>,
    meant: Option<&Meant>,
) -> Result<Aim, AllocError>
    ensures { IfOk result (λ aim. aim ≡ aim_of (spec.name_aimed name.now (option_copied local.entry) (option_copied meant.entry))) }
{
    match local {
        Some(local) => {
            let shape = copy_shape(alloc, &local.shape)?;
            let text = name.text.clone()?;
            Ok(aimed(alloc, shape, name.place, TargetKind::Variable(text)))
        }
        None => register_aimed(alloc, name, meant),
    }
}
