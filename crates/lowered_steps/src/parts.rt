//! The types of parts.
ghost use Rattle.std.specs.Prelude.{◌≡◌, map, IfOk};
ghost use Rattle.std.specs.Option.{option_copied};
ghost use Rattle.size_values.specs.declared.sized.Sized.{out-Sized};
ghost use Rattle.sail_types.specs.Named.{fields as fields_at, payload as payload_type};
ghost use Rattle.sail_types.specs.declared.table.Types.{Types as TypeTable};
ghost use Rattle.sail_core.specs.declared.targets.Way.TheVariants as ways;
ghost use Rattle.checked_meaning.specs.Fits as fits;
ghost use Rattle.checked_meaning.specs.Items.{component_typ, constant_of, item_typ, payload_of, payload_typ};
ghost use Rattle.lowered_pieces.specs.Fields.{field_types_of, types_under};
ghost use Rattle.lowered_pieces.specs.Forms as forms;
ghost use Rattle.lowered_pieces.specs.Writes.{way_typ};

use sail_base::Items;
use sail_core::Way;
use sail_types::{Field, Form, Typ, Types};
use size_values::{Constant, Sized, copy_sized, typ_sized};
use std::alloc::{AllocError, Global};

/// Whether a type is that of what doesn't exist.
pub fn is_never(typ: &Sized) -> bool
    ensures { result ≡ forms.is_never typ.now }
{
    match typ {
        Sized::Never => true,
        _ => false,
    }
}

/// Whether one of these types is that of what doesn't exist: nothing is ever made of values of such types.
pub fn is_dead(types: &[Sized]) -> bool
    ensures { result ≡ forms.dead types.now }
{
    for typ in types {
        if is_never(typ) {
            return true;
        }
    }
    false
}

/// The type of a part of a tuple; that of what doesn't exist where there is none. It fails where memory is wanting.
pub fn component_type(alloc: Global, typ: &Sized, at: usize) -> Result<Sized, AllocError>
    ensures { IfOk result (λ part. part ≡ component_typ at (out-Sized typ.now)) }
{
    match typ {
        Sized::Tuple(parts) => match parts.get(at) {
            Some(part) => copy_sized(alloc, part),
            None => Ok(Sized::Never),
        },
        _ => Ok(Sized::Never),
    }
}

/// The type of the items of a list or a vector; that of what doesn't exist where it is none. It fails where memory is wanting.
pub fn item_type(alloc: Global, typ: &Sized) -> Result<Sized, AllocError>
    ensures { IfOk result (λ item. item ≡ item_typ (out-Sized typ.now)) }
{
    match typ {
        Sized::List(item) => copy_sized(alloc, item.get()),
        Sized::Vector(_, item) => copy_sized(alloc, item.get()),
        _ => Ok(Sized::Never),
    }
}

/// The types of fields under numbers and arguments. They fail where memory is wanting.
fn fields_under(
    alloc: Global,
    types: &Types,
    numbers: &[Option<i128>],
    arguments: &[Sized],
    fields: &[Field],
) -> Result<Items<Sized>, AllocError>
    ensures { IfOk result (λ made. made ≡ fits.fields_under types.now numbers.now arguments.now fields.now) }
{
    let constants = constants_of(alloc, numbers)?;
    let mut made = Items::new(alloc);
    for field in fields {
        let typ = typ_sized(alloc, types, arguments, &field.typ, constants.as_slice())?;
        made.push(typ)?;
    }
    Ok(made)
}

/// The types of the fields of the struct at a place, under numbers and arguments; none of another form. They fail where memory is wanting.
fn struct_types(
    alloc: Global,
    types: &Types,
    place: u32,
    numbers: &[Option<i128>],
    arguments: &[Sized],
) -> Result<Items<Sized>, AllocError>
    ensures { IfOk result (λ parts. parts ≡ types_under types.now numbers.now arguments.now (fields_at types.now place)) }
{
    match types.definitions.get(place as usize) {
        Some(definition) => match &definition.form {
            Form::Struct(fields) => {
                fields_under(alloc, types, numbers, arguments, fields.as_slice())
            }
            _ => Ok(Items::new(alloc)),
        },
        None => Ok(Items::new(alloc)),
    }
}

/// The types of the fields of a struct, under its arguments; none of another type. They fail where memory is wanting.
pub fn field_types(alloc: Global, types: &Types, typ: &Sized) -> Result<Items<Sized>, AllocError>
    ensures { IfOk result (λ parts. parts ≡ field_types_of types.now (out-Sized typ.now)) }
{
    match typ {
        Sized::Named(place, numbers, arguments) => {
            let numbers = numbers.as_slice();
            struct_types(alloc, types, *place, numbers, arguments.as_slice())
        }
        _ => Ok(Items::new(alloc)),
    }
}

/// The type of an item of a list, a vector or a word; that of what doesn't exist where it is none. It fails where memory is wanting.
fn inner_type(alloc: Global, typ: &Sized) -> Result<Sized, AllocError>
    ensures { (types : TypeTable) → IfOk result (λ part. part ≡ way_typ types ways.Item typ.now) }
{
    match typ {
        Sized::Bits(_) => Ok(Sized::Bit),
        Sized::List(item) => copy_sized(alloc, item.get()),
        Sized::Vector(_, item) => copy_sized(alloc, item.get()),
        _ => Ok(Sized::Never),
    }
}

/// The type of the part at a way into a value of a type; of a slice that of what doesn't exist. It fails where memory is wanting.
pub fn way_type(alloc: Global, types: &Types, way: &Way, typ: &Sized) -> Result<Sized, AllocError>
    ensures { IfOk result (λ part. part ≡ way_typ types.now way.now typ.now) }
{
    match way {
        Way::Field(_, field) => {
            let parts = field_types(alloc, types, typ)?;
            match parts.get(*field as usize) {
                Some(part) => copy_sized(alloc, part),
                None => Ok(Sized::Never),
            }
        }
        Way::Item => inner_type(alloc, typ),
        Way::Slice => Ok(Sized::Never),
    }
}

/// The type of a constructor's payload, as the table has it.
fn written_payload<'a>(types: &'a Types, union: u32, constructor: u32) -> Option<&'a Typ>
    ensures { option_copied result ≡ payload_type types.now union constructor }
{
    match types.definitions.get(union as usize) {
        Some(definition) => match &definition.form {
            Form::Union(constructors) => match constructors.get(constructor as usize) {
                Some(field) => Some(&field.typ),
                None => None,
            },
            _ => None,
        },
        None => None,
    }
}

/// A size as a constant; one that is no integer is 0.
fn one_constant(size: &Option<i128>) -> Constant
    ensures { result ≡ constant_of size.now }
{
    match size {
        Some(number) => Constant::Number(*number),
        None => Constant::Number(0),
    }
}

/// Sizes as constants; one that is no integer is 0. They fail where memory is wanting.
fn constants_of(alloc: Global, numbers: &[Option<i128>]) -> Result<Items<Constant>, AllocError>
    ensures { IfOk result (λ constants. constants ≡ map constant_of numbers.now) }
{
    let mut constants = Items::new(alloc);
    for number in numbers {
        constants.push(one_constant(number))?;
    }
    Ok(constants)
}

/// A type as a table has it under numbers and arguments; that of what doesn't exist where there is none. It fails where memory is wanting.
fn payload_under(
    alloc: Global,
    types: &Types,
    numbers: &[Option<i128>],
    arguments: &[Sized],
    written: Option<&Typ>,
) -> Result<Sized, AllocError>
    ensures { IfOk result (λ payload. payload ≡ payload_of types.now numbers.now arguments.now (option_copied written.entry)) }
{
    match written {
        Some(payload) => {
            let constants = constants_of(alloc, numbers)?;
            typ_sized(alloc, types, arguments, payload, constants.as_slice())
        }
        None => Ok(Sized::Never),
    }
}

/// The type of a constructor's payload, under the arguments of a union; that of what doesn't exist where there is none. It fails where memory is
/// wanting.
pub fn payload_type(
    alloc: Global,
    types: &Types,
    union: u32,
    constructor: u32,
    typ: &Sized,
) -> Result<Sized, AllocError>
    ensures { IfOk result (λ payload. payload ≡ payload_typ types.now union constructor (out-Sized typ.now)) }
{
    match typ {
        Sized::Named(_, numbers, arguments) => {
            let written = written_payload(types, union, constructor);
            let numbers = numbers.as_slice();
            payload_under(alloc, types, numbers, arguments.as_slice(), written)
        }
        _ => Ok(Sized::Never),
    }
}
