//! Shapes, numbers and values as refusals and the report print them. A text is put behind a list of bytes;
//! each call fails where memory is wanting.
ghost use Rattle.std.specs.Prelude.{◌≡◌, ◌++◌, map, codes, OnOk};
ghost use Rattle.std.specs.Fmt.{signed_decimal};
ghost use Rattle.sail_types.specs.Texts.{shape_text, num_text, atom_text, term_text, coefficient_text, constant_text, joined, listed};
ghost use Rattle.sail_types.specs.Texts.{bracketed, arguments_text, name_text, text_at};

use crate::numbers::{Atom, Num, Term};
use crate::shapes::Shape;
use crate::table::Types;
use itoa::Buffer;
use sail_base::Text;
use std::alloc::AllocError;

/// Puts a number's decimal text behind others.
pub fn push_integer(out: &mut Vec<u8>, n: i128) -> Result<(), AllocError>
    ensures { OnOk result (out.new.items ≡ out.old.items ++ signed_decimal n) }
{
    let mut buffer = Buffer::new();
    out.extend_from_slice(buffer.format(n).as_bytes())
}

/// Puts a name of the list; nothing past its end.
fn push_name(out: &mut Vec<u8>, names: &[Text], index: u32) -> Result<(), AllocError>
    ensures { OnOk result (out.new.items ≡ out.old.items ++ text_at names.now index) }
{
    match names.get(index as usize) {
        None => Ok(()),
        Some(name) => out.extend_from_slice(name.as_bytes()),
    }
}

/// Puts the name of a named type; nothing where there is none of this place.
fn push_type_name(out: &mut Vec<u8>, types: &Types, place: u32) -> Result<(), AllocError>
    ensures { OnOk result (out.new.items ≡ out.old.items ++ name_text types.now place) }
{
    match types.definitions.get(place as usize) {
        None => Ok(()),
        Some(definition) => out.extend_from_slice(definition.name.as_bytes()),
    }
}

/// Puts a shape's text, its Type variables printing as these names.
#[cycle(push_shape)]
pub fn push_shape(
    out: &mut Vec<u8>,
    types: &Types,
    names: &[Text],
    shape: &Shape,
) -> Result<(), AllocError>
    ensures { OnOk result (out.new.items ≡ out.old.items ++ shape_text types.now names.now shape.now) }
{
    match shape {
        Shape::Unit => out.extend_from_slice(b"unit"),
        Shape::Bool => out.extend_from_slice(b"bool"),
        Shape::Bit => out.extend_from_slice(b"bit"),
        Shape::Bits => out.extend_from_slice(b"bits"),
        Shape::Int => out.extend_from_slice(b"int"),
        Shape::String => out.extend_from_slice(b"string"),
        Shape::List(item) => {
            out.extend_from_slice(b"list")?;
            push_bracketed(out, types, names, item.get())
        }
        Shape::Vector(item) => {
            out.extend_from_slice(b"vector")?;
            push_bracketed(out, types, names, item.get())
        }
        Shape::Tuple(parts) => push_tuple(out, types, names, parts.as_slice()),
        Shape::Named(place, arguments) => {
            push_type_name(out, types, *place)?;
            push_arguments(out, types, names, arguments.as_slice())
        }
        Shape::Variable(position) => push_name(out, names, *position),
        Shape::Hole => out.extend_from_slice(b"_"),
        Shape::Never => out.extend_from_slice(b"_"),
    }
}

#[cycle(push_shape)]
fn push_bracketed(
    out: &mut Vec<u8>,
    types: &Types,
    names: &[Text],
    shape: &Shape,
) -> Result<(), AllocError>
    ensures { OnOk result (out.new.items ≡ out.old.items ++ bracketed (shape_text types.now names.now shape.now)) }
{
    out.extend_from_slice(b"(")?;
    push_shape(out, types, names, shape)?;
    out.extend_from_slice(b")")
}

#[cycle(push_shape)]
fn push_arguments(
    out: &mut Vec<u8>,
    types: &Types,
    names: &[Text],
    shapes: &[Shape],
) -> Result<(), AllocError>
    ensures { OnOk result (out.new.items ≡ out.old.items ++ arguments_text (map (shape_text types.now names.now) shapes.now)) }
{
    if shapes.is_empty() {
        Ok(())
    } else {
        push_tuple(out, types, names, shapes)
    }
}

#[cycle(push_shape)]
fn push_tuple(
    out: &mut Vec<u8>,
    types: &Types,
    names: &[Text],
    shapes: &[Shape],
) -> Result<(), AllocError>
    ensures { OnOk result (out.new.items ≡ out.old.items ++ bracketed (listed (map (shape_text types.now names.now) shapes.now))) }
{
    out.extend_from_slice(b"(")?;
    push_shapes(out, types, names, shapes)?;
    out.extend_from_slice(b")")
}

#[cycle(push_shape)]
fn push_shapes(
    out: &mut Vec<u8>,
    types: &Types,
    names: &[Text],
    shapes: &[Shape],
) -> Result<(), AllocError>
    ensures { OnOk result (out.new.items ≡ out.old.items ++ listed (map (shape_text types.now names.now) shapes.now)) }
{
    let mut first = true;
    for shape in shapes {
        if !first {
            out.extend_from_slice(b", ")?;
        }
        push_shape(out, types, names, shape)?;
        first = false;
    }
    Ok(())
}

/// Puts a number's text, its variables printing as these names.
#[cycle(push_num)]
pub fn push_number(out: &mut Vec<u8>, names: &[Text], number: &Num) -> Result<(), AllocError>
    ensures { OnOk result (out.new.items ≡ out.old.items ++ num_text names.now number.now) }
{
    let terms = number.terms.as_slice();
    if terms.is_empty() {
        return push_integer(out, number.constant);
    }
    push_terms(out, names, terms)?;
    push_constant(out, number.constant)
}

/// Puts the text of what a coefficient multiplies.
#[cycle(push_num)]
pub fn push_atom(out: &mut Vec<u8>, names: &[Text], atom: &Atom) -> Result<(), AllocError>
    ensures { OnOk result (out.new.items ≡ out.old.items ++ atom_text names.now atom.now) }
{
    match atom {
        Atom::Variable(number) => push_name(out, names, *number),
        Atom::Power(exponent) => {
            out.extend_from_slice(b"2 ^ (")?;
            push_number(out, names, exponent.get())?;
            out.extend_from_slice(b")")
        }
    }
}

#[cycle(push_num)]
fn push_terms(out: &mut Vec<u8>, names: &[Text], terms: &[Term]) -> Result<(), AllocError>
    ensures { OnOk result (out.new.items ≡ out.old.items ++ joined (codes " + ") (map (term_text names.now) terms.now)) }
{
    let mut first = true;
    for term in terms {
        if !first {
            out.extend_from_slice(b" + ")?;
        }
        push_term(out, names, term)?;
        first = false;
    }
    Ok(())
}

#[cycle(push_num)]
fn push_term(out: &mut Vec<u8>, names: &[Text], term: &Term) -> Result<(), AllocError>
    ensures { OnOk result (out.new.items ≡ out.old.items ++ term_text names.now term.now) }
{
    push_coefficient(out, term.coefficient)?;
    push_atom(out, names, &term.atom)
}

fn push_coefficient(out: &mut Vec<u8>, coefficient: i128) -> Result<(), AllocError>
    ensures { OnOk result (out.new.items ≡ out.old.items ++ coefficient_text coefficient) }
{
    if coefficient == 1 {
        return Ok(());
    }
    push_integer(out, coefficient)?;
    out.extend_from_slice(b" * ")
}

fn push_constant(out: &mut Vec<u8>, constant: i128) -> Result<(), AllocError>
    ensures { OnOk result (out.new.items ≡ out.old.items ++ constant_text constant) }
{
    if constant == 0 {
        return Ok(());
    }
    out.extend_from_slice(b" + ")?;
    push_integer(out, constant)
}
