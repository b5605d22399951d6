//! The sizes in types that are written.
ghost use Rattle.std.specs.Prelude.{◌≡◌, ◌++◌, [], IfOk, OnOk, map};
ghost use Rattle.std.specs.List.{list_any};
ghost use Rattle.linear.specs.Choices.{joined};
ghost use Rattle.sail_types.specs.declared.types.Typ.TheVariants as typ;
ghost use Rattle.size_notes.specs.Regions.{kept};
ghost use Rattle.size_notes.specs.Written as spec;

use crate::regions::{Region, inward, kept, numbers_under, under};
use sail_base::{Boxed, Items, Place, Text};
use sail_core::{Role, Written, WrittenNumber};
use sail_types::{Atom, Index, Num, Term, Typ, copy_num, read_number};
use std::alloc::{AllocError, Global};
use type_arguments::copy_indices;
use value_indices::{Indices, Reading, largest_num};

/// What is read of a part of a written type.
pub enum TypePart {
    /// Of a width or a length; nothing where it names what the type binds and opens.
    Number(Option<Indices>),
    /// Of the fields or payloads of a named type.
    Named(Indices),
}

impl Drop for TypePart {
    fn drop(self) {
        match self {
            TypePart::Number(_) => {}
            TypePart::Named(_) => {}
        }
    }
}

/// What is written with a size: a width or a length at its number or at the name through which it comes, a named type at the written type.
pub struct WrittenSize {
    /// Where it is written.
    pub place: Place,
    /// What has its sizes and no others.
    pub size: Indices,
}

impl Drop for WrittenSize {
    fn drop(self) {
        let WrittenSize { place: _, size: _ } = self;
    }
}

impl WrittenSize {
    /// Its place, and what has the size.
    pub fn into_parts(self) -> (Place, Indices)
        ensures place { result.0 ≡ self.place }
        ensures size { result.1 ≡ self.size }
    {
        let WrittenSize { place, size } = self;
        (place, size)
    }
}

/// Whether a number names one of the first so many variables.
#[cycle(names_bound)]
fn names_bound(depth: u32, number: &Num) -> bool
    ensures { result ≡ spec.names_bound depth number.now }
{
    any_names_bound(depth, number.terms.as_slice())
}

#[cycle(names_bound)]
fn any_names_bound(depth: u32, terms: &[Term]) -> bool
    ensures { result ≡ list_any (λ t. t) (map (spec.term_names_bound depth) terms.now) }
{
    for term in terms {
        if term_names_bound(depth, term) {
            return true;
        }
    }
    false
}

#[cycle(names_bound)]
fn term_names_bound(depth: u32, term: &Term) -> bool
    ensures { result ≡ spec.term_names_bound depth term.now }
{
    atom_names_bound(depth, &term.atom)
}

#[cycle(names_bound)]
fn atom_names_bound(depth: u32, atom: &Atom) -> bool
    ensures { result ≡ spec.atom_names_bound depth atom.now }
{
    match atom {
        Atom::Variable(number) => *number < depth,
        Atom::Power(exponent) => names_bound(depth, exponent.get()),
    }
}

/// A number under what its variables stand for; past the largest integer it counts as the largest. It fails where memory is wanting.
fn number_in(alloc: Global, numbers: &[Index], number: &Num) -> Result<Num, AllocError>
    ensures { IfOk result (λ made. made ≡ spec.number_in numbers.now number.now) }
{
    match read_number(alloc, number, numbers)? {
        Some(made) => Ok(made),
        None => Ok(largest_num(alloc)),
    }
}

/// What has a width, unless that names what the type binds and opens. It fails where memory is wanting.
fn width_in(
    alloc: Global,
    region: &Region,
    numbers: &[Index],
    width: &Num,
) -> Result<Option<Indices>, AllocError>
    ensures { IfOk result (λ made. made ≡ spec.width_in region.now numbers.now width.now) }
{
    match region {
        Region::Opened(depth) => {
            if names_bound(*depth, width) {
                return Ok(None);
            }
            Ok(Some(Indices::Bits(number_in(alloc, numbers, width)?)))
        }
        Region::Kept(names) => {
            let bits = Typ::Bits(copy_num(alloc, width)?);
            Ok(Some(kept(alloc, names.as_slice(), numbers, bits)?))
        }
    }
}

/// What has a length, unless that names what the type binds and opens. It fails where memory is wanting.
fn length_in(
    alloc: Global,
    region: &Region,
    numbers: &[Index],
    length: &Num,
) -> Result<Option<Indices>, AllocError>
    ensures { IfOk result (λ made. made ≡ spec.length_in region.now numbers.now length.now) }
{
    match region {
        Region::Opened(depth) => {
            if names_bound(*depth, length) {
                return Ok(None);
            }
            let number = number_in(alloc, numbers, length)?;
            let item = Boxed::new(alloc, Reading::Hole)?;
            Ok(Some(Indices::Vector(number, item)))
        }
        Region::Kept(names) => {
            let length = copy_num(alloc, length)?;
            let items = Typ::Vector(length, Boxed::new(alloc, Typ::Unit)?);
            Ok(Some(kept(alloc, names.as_slice(), numbers, items)?))
        }
    }
}

/// What has the sizes of the fields or payloads of a named type. It fails where memory is wanting.
fn fields_of(
    alloc: Global,
    names: &[Text],
    numbers: &[Index],
    place: u32,
    arguments: &[Index],
) -> Result<Indices, AllocError>
    ensures { IfOk result (λ made. made ≡ kept names.now numbers.now (typ.Named place arguments.now [])) }
{
    let arguments = copy_indices(alloc, arguments)?;
    let named = Typ::Named(place, arguments, Items::new(alloc));
    kept(alloc, names, numbers, named)
}

/// Puts what has the sizes of the fields or payloads of a named type, unless it stands under a variable that is opened. It fails where
/// memory is wanting.
fn push_named(
    alloc: Global,
    made: &mut Items<TypePart>,
    region: &Region,
    numbers: &[Index],
    place: u32,
    arguments: &[Index],
) -> Result<(), AllocError>
    ensures { OnOk result (made.new ≡ made.old ++ spec.named_in region.now numbers.now place arguments.now) }
{
    match region {
        Region::Opened(depth) => {
            if *depth == 0 {
                made.push(TypePart::Named(fields_of(alloc, &[], numbers, place, arguments)?))
            } else {
                Ok(())
            }
        }
        Region::Kept(names) => made.push(TypePart::Named(fields_of(
            alloc,
            names.as_slice(),
            numbers,
            place,
            arguments,
        )?)),
    }
}

/// Puts what is read of a type, from the left. It fails where memory is wanting.
#[cycle(type_sizes)]
fn push_type_sizes(
    alloc: Global,
    made: &mut Items<TypePart>,
    region: &Region,
    numbers: &[Index],
    typ: &Typ,
) -> Result<(), AllocError>
    ensures { OnOk result (made.new ≡ made.old ++ spec.type_sizes typ.now region.now numbers.now) }
{
    match typ {
        Typ::Bits(width) => {
            made.push(TypePart::Number(width_in(alloc, region, numbers, width)?))
        }
        Typ::Vector(length, item) => {
            made.push(TypePart::Number(length_in(alloc, region, numbers, length)?))?;
            let inner = inward(alloc, region)?;
            push_type_sizes(alloc, made, &inner, numbers, item.get())
        }
        Typ::List(item) => {
            let inner = inward(alloc, region)?;
            push_type_sizes(alloc, made, &inner, numbers, item.get())
        }
        Typ::Tuple(parts) => push_each_sizes(alloc, made, region, numbers, parts.as_slice()),
        Typ::Named(place, arguments, types) => {
            push_named(alloc, made, region, numbers, *place, arguments.as_slice())?;
            let inner = inward(alloc, region)?;
            push_each_sizes(alloc, made, &inner, numbers, types.as_slice())
        }
        Typ::Exists(name, _, part) => {
            let inner = under(alloc, name, region)?;
            let known = numbers_under(alloc, region, numbers)?;
            push_type_sizes(alloc, made, &inner, known.as_slice(), part.get())
        }
        _ => Ok(()),
    }
}

/// Puts what is read of several types. It fails where memory is wanting.
#[cycle(type_sizes)]
fn push_each_sizes(
    alloc: Global,
    made: &mut Items<TypePart>,
    region: &Region,
    numbers: &[Index],
    types: &[Typ],
) -> Result<(), AllocError>
    ensures { OnOk result (made.new ≡ made.old ++ spec.each_sizes region.now numbers.now (map spec.type_sizes types.now)) }
{
    for typ in types {
        push_type_sizes(alloc, made, region, numbers, typ)?;
    }
    Ok(())
}

/// Whether a number is for a width or a length.
fn is_size(role: Role) -> bool
    ensures { result ≡ spec.is_size role }
{
    matches!(role, Role::Width | Role::Length)
}

/// The places of widths and lengths. It fails where memory is wanting.
pub fn size_places(alloc: Global, numbers: &[WrittenNumber]) -> Result<Items<Place>, AllocError>
    ensures { IfOk result (λ places. places ≡ spec.size_places numbers.now) }
{
    let mut places = Items::new(alloc);
    for number in numbers {
        push_place(&mut places, number)?;
    }
    Ok(places)
}

/// Puts the place of a number that is a size. It fails where memory is wanting.
fn push_place(places: &mut Items<Place>, number: &WrittenNumber) -> Result<(), AllocError>
    ensures { OnOk result (places.new ≡ places.old ++ spec.size_place number.now) }
{
    if is_size(number.role) {
        places.push(number.place)?;
    }
    Ok(())
}

/// Puts a size at the first of these places, if there are both. It fails where memory is wanting.
fn push_first(
    made: &mut Items<WrittenSize>,
    places: &[Place],
    size: Option<Indices>,
) -> Result<(), AllocError>
    ensures { OnOk result (made.new ≡ made.old ++ spec.placed_first places.now size) }
{
    match size {
        None => Ok(()),
        Some(size) => match places {
            [] => Ok(()),
            [place, ..] => made.push(WrittenSize {
                place: *place,
                size,
            }),
        },
    }
}

/// The places behind the first.
fn other_places(places: &[Place]) -> &[Place]
    ensures { result.now ≡ spec.other_places places.now }
{
    match places {
        [] => places,
        [_, rest @ ..] => rest,
    }
}

impl TypePart {
    /// Puts it as it is written: at the first of these places where it is a number, else at the type. It fails where memory is wanting.
    fn push_to(
        self,
        made: &mut Items<WrittenSize>,
        place: Place,
        places: &[Place],
    ) -> Result<(), AllocError>
        ensures { OnOk result (made.new ≡ made.old ++ spec.placed_part place places.now self) }
    {
        match self {
            TypePart::Number(size) => push_first(made, places, size),
            TypePart::Named(size) => made.push(WrittenSize { place, size }),
        }
    }
}

/// The places of the numbers behind a part.
fn places_behind<'a>(places: &'a [Place], part: &TypePart) -> &'a [Place]
    ensures { result.now ≡ spec.places_behind places.now part.now }
{
    match part {
        TypePart::Number(_) => other_places(places),
        TypePart::Named(_) => places,
    }
}

/// Puts what is read of the parts of a type: numbers at these places, as long as there are any, all else at the type. It fails where memory
/// is wanting.
fn push_placed(
    made: &mut Items<WrittenSize>,
    place: Place,
    places: &[Place],
    parts: Items<TypePart>,
) -> Result<(), AllocError>
    ensures { OnOk result (made.new ≡ made.old ++ spec.placed_sizes place places.now parts) }
{
    let mut left = places;
    for part in parts.into_vec() {
        let behind = places_behind(left, &part);
        part.push_to(made, place, left)?;
        left = behind;
    }
    Ok(())
}

/// Puts the sizes of a written type, where the variables around it stand for these. It fails where memory is wanting.
pub fn push_written(
    alloc: Global,
    made: &mut Items<WrittenSize>,
    numbers: &[Index],
    written: &Written,
) -> Result<(), AllocError>
    ensures { OnOk result (made.new ≡ made.old ++ spec.written_sizes numbers.now written.now) }
{
    let places = size_places(alloc, written.numbers.as_slice())?;
    let mut parts = Items::new(alloc);
    push_type_sizes(alloc, &mut parts, &Region::Opened(0), numbers, &written.typ)?;
    push_placed(made, written.place, places.as_slice(), parts)
}
