//! The sizes of registers.
ghost use Rattle.std.specs.Prelude.{◌≡◌, ◌++◌, ◌∷◌, IfOk, OnOk, map};
ghost use Rattle.size_values.specs.declared.constants.Constant.TheVariants as C;
ghost use Rattle.monomorph.specs.Lasts as spec;

use crate::error::MonoError;
use crate::refusals::{size_refused, sizes_refused};
use model_state::Register;
use sail_base::{Items, Place, Text};
use sail_core::RegisterText;
use sail_types::{Num, Typ, Types};
use size_notes::size_places;
use size_values::{Constant, Size, Variables, constant_under, copy_constants, reading_sizes};
use std::alloc::{AllocError, Global};
use type_arguments::copy_typ;
use value_indices::Reading;

/// Constants behind what a type binds. It fails where memory is wanting.
fn bound_before(
    alloc: Global,
    name: &Text,
    constants: &[Constant],
) -> Result<Items<Constant>, AllocError>
    ensures { IfOk result (λ made. made ≡ C.Bound name.now ∷ constants.now) }
{
    let mut made = Items::new(alloc);
    made.push(Constant::Bound(name.clone()?))?;
    made.append(copy_constants(alloc, constants)?)?;
    Ok(made)
}

/// A size, where what the type binds is this. It fails where memory is wanting.
fn size_of(
    alloc: Global,
    largest: u32,
    constants: &[Constant],
    number: &Num,
) -> Result<Size, AllocError>
    ensures { IfOk result (λ made. made ≡ spec.size_in largest constants.now number.now) }
{
    let number = constant_under(alloc, number, &Variables::Arguments(constants))?;
    Ok(Size { largest, number })
}

/// Puts the sizes in a type as it is written, where what it binds is this. It fails where memory is wanting.
#[cycle(text_sizes)]
fn push_text_sizes(
    alloc: Global,
    made: &mut Items<Size>,
    constants: &[Constant],
    typ: &Typ,
) -> Result<(), AllocError>
    ensures { OnOk result (made.new ≡ made.old ++ spec.text_sizes typ.now constants.now) }
{
    match typ {
        Typ::Bits(width) => made.push(size_of(alloc, 128, constants, width)?),
        Typ::Vector(length, item) => {
            made.push(size_of(alloc, 4096, constants, length)?)?;
            push_text_sizes(alloc, made, constants, item.get())
        }
        Typ::List(item) => push_text_sizes(alloc, made, constants, item.get()),
        Typ::Tuple(parts) => push_each_text(alloc, made, constants, parts.as_slice()),
        Typ::Named(_, _, types) => push_each_text(alloc, made, constants, types.as_slice()),
        Typ::Exists(name, _, part) => {
            let inner = bound_before(alloc, name, constants)?;
            push_text_sizes(alloc, made, inner.as_slice(), part.get())
        }
        _ => Ok(()),
    }
}

/// Puts those in several types. It fails where memory is wanting.
#[cycle(text_sizes)]
fn push_each_text(
    alloc: Global,
    made: &mut Items<Size>,
    constants: &[Constant],
    types: &[Typ],
) -> Result<(), AllocError>
    ensures { OnOk result (made.new ≡ made.old ++ spec.each_text (map spec.text_sizes types.now) constants.now) }
{
    for typ in types {
        push_text_sizes(alloc, made, constants, typ)?;
    }
    Ok(())
}

/// Why the first of these sizes that is refused at its place is so. It fails where memory is wanting.
fn written_refused(
    alloc: Global,
    places: &[Place],
    sizes: &[Size],
) -> Result<Option<MonoError>, AllocError>
    ensures { IfOk result (λ refused. refused ≡ spec.written_refused places.now sizes.now) }
{
    let mut left = sizes;
    for place in places {
        match left {
            [] => return Ok(None),
            [size, rest @ ..] => {
                if let Some(refused) = size_refused(alloc, *place, &[], size)? {
                    return Ok(Some(refused));
                }
                left = rest;
            }
        }
    }
    Ok(None)
}

/// Why a size that is written in a register's type is refused, if one is. It fails where memory is wanting.
fn text_refused(
    alloc: Global,
    register: &Register,
    text: &RegisterText,
) -> Result<Option<MonoError>, AllocError>
    ensures { IfOk result (λ refused. refused ≡ spec.text_refused register.now text.now) }
{
    let places = size_places(alloc, text.numbers.as_slice())?;
    let mut sizes = Items::new(alloc);
    push_text_sizes(alloc, &mut sizes, &[], &register.typ)?;
    written_refused(alloc, places.as_slice(), sizes.as_slice())
}

/// Why a size of a register is refused, with those of fields and payloads, if one is. It fails where memory is wanting.
fn whole_refused(
    alloc: Global,
    types: &Types,
    register: &Register,
    text: &RegisterText,
) -> Result<Option<MonoError>, AllocError>
    ensures { IfOk result (λ refused. refused ≡ spec.whole_refused types.now register.now text.now) }
{
    let typ = copy_typ(alloc, &register.typ)?;
    let reading = Reading::Of(typ, Items::new(alloc), Items::new(alloc));
    let sizes = reading_sizes(alloc, types, &reading, &Variables::Known(&[], &[]))?;
    sizes_refused(alloc, text.place, &[], sizes.as_slice())
}

/// Why a register is refused, if it is. It fails where memory is wanting.
pub fn register_refused(
    alloc: Global,
    types: &Types,
    register: &Register,
    text: &RegisterText,
) -> Result<Option<MonoError>, AllocError>
    ensures { IfOk result (λ refused. refused ≡ spec.register_refused types.now register.now text.now) }
{
    match text_refused(alloc, register, text)? {
        Some(refused) => Ok(Some(refused)),
        None => whole_refused(alloc, types, register, text),
    }
}
