//! The sizes in types: widths of bits and lengths of vectors.
ghost use Rattle.std.specs.Prelude.{◌≡◌, ◌∷◌, ◌++◌, ◌||◌, [], IfOk, OnOk, map};
ghost use Rattle.sail_types.specs.Named.{field_types};
ghost use Rattle.sail_types.specs.declared.types.Typ.{out-Typ};
ghost use Rattle.size_values.specs.declared.constants.Constant.TheVariants as C;
ghost use Rattle.size_values.specs.Numbers as numbers;
ghost use Rattle.size_values.specs.Sizes as spec;

use crate::constants::{Constant, copy_constant};
use crate::listed::{Applied, Listed, list_sizes, none_listed, put_read, was_read};
use crate::numbers::{constant_under, indices_under};
use crate::small::either;
use crate::variables::Variables;
use sail_base::{Items, Text};
use sail_types::{Field, Form, Num, Typ, Types, deepest};
use std::alloc::{AllocError, Global};

/// A size.
pub struct Size {
    /// The largest that it may be: 128 for a width, 4,096 for a length.
    pub largest: u32,
    /// What it is.
    pub number: Constant,
}

impl Drop for Size {
    fn drop(self) {
        let Size {
            largest: _,
            number: _,
        } = self;
    }
}

/// One size alone. It fails where memory is wanting.
pub fn one_size(
    alloc: Global,
    largest: u32,
    number: &Num,
    variables: &Variables<'_>,
) -> Result<Items<Size>, AllocError>
    ensures { IfOk result (λ made. made ≡ spec.size largest (numbers.constant_under (numbers.meant variables.now) number.now) ∷ []) }
{
    let number = constant_under(alloc, number, variables)?;
    let mut made = Items::new(alloc);
    made.push(Size { largest, number })?;
    Ok(made)
}

/// The same size once more.
fn copy_size(alloc: Global, size: &Size) -> Result<Size, AllocError>
    ensures { IfOk result (λ copy. copy ≡ size.now) }
{
    let number = copy_constant(alloc, &size.number)?;
    Ok(Size {
        largest: size.largest,
        number,
    })
}

/// The same sizes once more. They fail where memory is wanting.
pub fn copy_sizes(alloc: Global, sizes: &[Size]) -> Result<Items<Size>, AllocError>
    ensures { IfOk result (λ copy. copy ≡ sizes.now) }
{
    let mut copies = Items::new(alloc);
    for size in sizes {
        copies.push(copy_size(alloc, size)?)?;
    }
    Ok(copies)
}

/// All of them in one list. It fails where memory is wanting.
pub fn join_sizes(alloc: Global, lists: &[Items<Size>]) -> Result<Items<Size>, AllocError>
    ensures { IfOk result (λ made. made ≡ spec.joined lists.now) }
{
    let mut made = Items::new(alloc);
    for sizes in lists {
        made.append(copy_sizes(alloc, sizes.as_slice())?)?;
    }
    Ok(made)
}

/// Lists one size more, where the variables are these. The one error is want of memory.
fn list_size(
    alloc: Global,
    largest: u32,
    number: &Num,
    constants: &[Constant],
    listed: &mut Listed,
) -> Result<(), AllocError>
    ensures { OnOk result (listed.new ≡ spec.listing (spec.size largest
        (numbers.constant_under (numbers.argument_of constants.now) number.now) ∷ []) listed.old) }
{
    let size = one_size(alloc, largest, number, &Variables::Arguments(constants))?;
    list_sizes(listed, size)
}

/// The sizes in what a Type variable stands for.
fn sizes_at(alloc: Global, own: &[Items<Size>], position: u32) -> Result<Items<Size>, AllocError>
    ensures { IfOk result (λ made. made ≡ spec.sizes_at own.now position) }
{
    match own.get(position as usize) {
        Some(sizes) => copy_sizes(alloc, sizes.as_slice()),
        None => Ok(Items::new(alloc)),
    }
}

/// Constants behind a variable that a type binds under this name. They fail where memory is wanting.
pub fn bound_before(
    alloc: Global,
    name: &Text,
    constants: &[Constant],
) -> Result<Items<Constant>, AllocError>
    ensures { IfOk result (λ made. made ≡ C.Bound name.now ∷ constants.now) }
{
    let mut made = Items::new(alloc);
    made.push(Constant::Bound(name.clone()?))?;
    for constant in constants {
        made.push(copy_constant(alloc, constant)?)?;
    }
    Ok(made)
}

/// The fields of a struct, or the constructors of a union with their payloads.
pub fn form_fields(form: &Form) -> &[Field]
    ensures { result.now ≡ spec.form_fields form.now }
{
    match form {
        Form::Struct(fields) => fields.as_slice(),
        Form::Union(constructors) => constructors.as_slice(),
        Form::Enum(_) => &[],
    }
}

/// Those of the named type at a place in the table.
pub fn fields_of(types: &Types, place: u32) -> &[Field]
    ensures { result.now ≡ spec.fields_of types.now place }
{
    match types.definitions.get(place as usize) {
        Some(definition) => form_fields(&definition.form),
        None => &[],
    }
}

/// Places with one more.
fn with_place(alloc: Global, places: &[u32], place: u32) -> Result<Items<u32>, AllocError>
    ensures { IfOk result (λ made. made ≡ places.now ++ place ∷ []) }
{
    let mut made = Items::from_slice(alloc, places)?;
    made.push(place)?;
    Ok(made)
}

/// Whether a place is among these.
fn is_among(place: u32, places: &[u32]) -> bool
    ensures { result ≡ spec.is_among place places.now }
{
    for other in places {
        if place == *other {
            return true;
        }
    }
    false
}

/// Whether the named type at a place is one of those around, or was read under these arguments.
fn is_passed(place: u32, around: &[u32], arguments: &[Constant], read: &[Applied]) -> bool
    ensures { result ≡ (spec.is_among place around.now || spec.was_read place arguments.now read.now) }
{
    either(is_among(place, around), was_read(place, arguments, read))
}

/// Lists the sizes in a type, through types inside types to this depth. The one error is want of memory.
#[cycle(sizes)]
#[tactic(auto, using(crate::proofs::Depths::below))]
fn list_within(
    alloc: Global,
    types: &Types,
    depth: usize,
    typ: &Typ,
    around: &[u32],
    constants: &[Constant],
    own: &[Items<Size>],
    listed: &mut Listed,
) -> Result<(), AllocError>
    ensures { OnOk result (listed.new
        ≡ spec.listed_within types.now depth typ.now around.now constants.now own.now listed.old) }
{
    if depth == 0 {
        return Ok(());
    }
    list_form(alloc, types, depth - 1, typ, around, constants, own, listed)
}

/// Lists the sizes in a type, those in the types inside it to this depth.
#[cycle(sizes)]
fn list_form(
    alloc: Global,
    types: &Types,
    depth: usize,
    typ: &Typ,
    around: &[u32],
    constants: &[Constant],
    own: &[Items<Size>],
    listed: &mut Listed,
) -> Result<(), AllocError>
    ensures { OnOk result (listed.new
        ≡ spec.form_listed types.now (spec.listed_within types.now depth) (out-Typ typ.now) around.now constants.now own.now listed.old) }
{
    match typ {
        Typ::Bits(width) => list_size(alloc, 128, width, constants, listed),
        Typ::List(item) => {
            list_within(
                alloc,
                types,
                depth,
                item.get(),
                around,
                constants,
                own,
                listed,
            )
        }
        Typ::Vector(length, item) => {
            list_size(alloc, 4096, length, constants, listed)?;
            list_within(
                alloc,
                types,
                depth,
                item.get(),
                around,
                constants,
                own,
                listed,
            )
        }
        Typ::Tuple(parts) => {
            let parts = parts.as_slice();
            list_each(alloc, types, depth, parts, around, constants, own, listed)
        }
        Typ::Named(place, arguments, parts) => {
            let parts = parts.as_slice();
            list_each(alloc, types, depth, parts, around, constants, own, listed)?;
            let variables = Variables::Arguments(constants);
            let arguments = indices_under(alloc, arguments.as_slice(), &variables)?;
            let arguments = arguments.as_slice();
            list_named(alloc, types, depth, *place, around, arguments, listed)
        }
        Typ::Variable(position) => list_sizes(listed, sizes_at(alloc, own, *position)?),
        Typ::Exists(name, _, part) => {
            let constants = bound_before(alloc, name, constants)?;
            let constants = constants.as_slice();
            list_within(
                alloc,
                types,
                depth,
                part.get(),
                around,
                constants,
                own,
                listed,
            )
        }
        _ => Ok(()),
    }
}

/// Lists the sizes in each of these types.
#[cycle(sizes)]
fn list_each(
    alloc: Global,
    types: &Types,
    depth: usize,
    parts: &[Typ],
    around: &[u32],
    constants: &[Constant],
    own: &[Items<Size>],
    listed: &mut Listed,
) -> Result<(), AllocError>
    ensures { OnOk result (listed.new
        ≡ spec.each_listed (map (spec.listed_within types.now depth) parts.now) around.now constants.now own.now listed.old) }
{
    for part in parts {
        list_within(alloc, types, depth, part, around, constants, own, listed)?;
    }
    Ok(())
}

/// Lists the sizes in the fields and payloads of the named type at a place, unless it is one around or was read under these arguments.
#[cycle(sizes)]
fn list_named(
    alloc: Global,
    types: &Types,
    depth: usize,
    place: u32,
    around: &[u32],
    arguments: &[Constant],
    listed: &mut Listed,
) -> Result<(), AllocError>
    ensures { OnOk result (listed.new
        ≡ spec.fields_listed types.now (spec.listed_within types.now depth) place around.now arguments.now listed.old) }
{
    if is_passed(place, around, arguments, listed.read.as_slice()) {
        return Ok(());
    }
    put_read(alloc, listed, place, arguments)?;
    let around = with_place(alloc, around, place)?;
    let around = around.as_slice();
    list_fields(
        alloc,
        types,
        depth,
        fields_of(types, place),
        around,
        arguments,
        listed,
    )
}

/// Lists the sizes in these fields.
#[cycle(sizes)]
fn list_fields(
    alloc: Global,
    types: &Types,
    depth: usize,
    fields: &[Field],
    around: &[u32],
    constants: &[Constant],
    listed: &mut Listed,
) -> Result<(), AllocError>
    ensures { OnOk result (listed.new
        ≡ spec.each_listed (map (spec.listed_within types.now depth) (field_types fields.now)) around.now constants.now [] listed.old) }
{
    for field in fields {
        list_within(
            alloc,
            types,
            depth,
            &field.typ,
            around,
            constants,
            &[],
            listed,
        )?;
    }
    Ok(())
}

/// The sizes in a type, from the left, where its Int and Bool variables are these, and what its Type variables stand for has these
/// sizes; those of a named type under the same arguments once. What the type itself binds isn't constant. They fail where memory is
/// wanting.
pub fn typ_sizes(
    alloc: Global,
    types: &Types,
    typ: &Typ,
    constants: &[Constant],
    own: &[Items<Size>],
) -> Result<Items<Size>, AllocError>
    ensures { IfOk result (λ made. made ≡ spec.typ_sizes types.now typ.now constants.now own.now) }
{
    let mut listed = none_listed(alloc);
    list_within(
        alloc,
        types,
        deepest(),
        typ,
        &[],
        constants,
        own,
        &mut listed,
    )?;
    Ok(listed.sizes)
}

/// The sizes in the named type at a place in the table under its arguments. They fail where memory is wanting.
pub fn named_typ_sizes(
    alloc: Global,
    types: &Types,
    place: u32,
    constants: &[Constant],
    own: &[Items<Size>],
) -> Result<Items<Size>, AllocError>
    ensures { IfOk result (λ made. made ≡ spec.named_typ_sizes types.now place constants.now own.now) }
{
    let mut listed = none_listed(alloc);
    list_sizes(&mut listed, join_sizes(alloc, own)?)?;
    list_named(alloc, types, deepest(), place, &[], constants, &mut listed)?;
    Ok(listed.sizes)
}

/// Whether one of these sizes isn't constant.
pub fn is_one_open(sizes: &[Size]) -> bool
    ensures { result ≡ spec.is_one_open sizes.now }
{
    for size in sizes {
        match &size.number {
            Constant::Number(_) => {}
            _ => return true,
        }
    }
    false
}
