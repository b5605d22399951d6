//! The table of a module's types. The types inside one stand before it, but for the item of a list.
ghost use Rattle.std.specs.Prelude.{◌≡◌, ℕ, ℤ, true, nat_lt, List, [], ◌∷◌, Option, None, Some, IfErr, IfOk, IsFalse, IsTrue, OnOk, false, length, map, slice_get};
ghost use Rattle.sail_types.specs.Named.{in_form};
ghost use Rattle.size_values.specs.declared.sized.Sized.{Sized, out-Sized};
ghost use Rattle.size_values.specs.declared.sized.Sized.TheVariants as S;
ghost use Rattle.jib.specs.declared.types.ValueType.TheVariants as value;
ghost use Rattle.checked_meaning.specs.Fits as fits;
ghost use Rattle.checked_meaning.specs.Items.{constant_of};
ghost use Rattle.lowered_types.specs.Table.{all_known, form_parts, form_value, natural, type_in};
ghost use Rattle.lowered_types.specs.Table as spec;
ghost use Rattle.lowered_pieces.specs.Emitted.{Begins};
ghost use Rattle.lowered_tables.specs.Built.{Grown, NoValueType, OrMemory, SomeNoValueType, Stands, all_inside, sizes_fit, value_at};
ghost use Rattle.lowered_tables.specs.Built as built;

use jib::ValueType;
use sail_base::Items;
use sail_types::{Field, Form, Types};
use size_values::{Constant, Sized, copy_all_sized, copy_sized, same_sized, typ_sized};
use std::alloc::{AllocError, Global};

/// The types that have a number, while more get one.
#[derive(Drop)]
pub struct TypeList {
    /// The types, in order of their numbers.
    pub numbered: Items<Sized>,
}

/// The types that have a number, and the value type of each.
#[derive(Drop)]
pub struct Table {
    /// The types, in order of their numbers.
    pub numbered: Items<Sized>,
    /// The value type of each.
    pub types: Items<ValueType>,
}

/// Why a type gets no number.
#[derive(Clone, Copy, Debug)]
pub enum TableError {
    /// Memory is wanting.
    Memory,
    /// Types are nested more deeply than 1,000, or one inside another has no number.
    TooDeep,
    /// A width is above 128 or a length above 4,096, or one is below 0.
    TooWide,
}

impl From<AllocError> for TableError {
    ghost use Rattle.lowered_tables.specs.declared.tables.TableError.{TableError};

    ghost from_gives = { λ e r. r ≡ TableError.Memory };

    fn from(_: AllocError) -> TableError {
        TableError::Memory
    }
}

/// How deeply types may be nested.
const DEPTH: u32 = 1_000;

/// A list where what doesn't exist alone has a number. It fails where memory is wanting.
pub fn new_list(alloc: Global) -> Result<TypeList, AllocError>
    ensures { IfOk result (λ list. list.numbered ≡ S.Never ∷ []) }
{
    let mut numbered = Items::new(alloc);
    numbered.push(Sized::Never)?;
    Ok(TypeList { numbered })
}

/// The number of the first type that is this one; where there is none, how many there are.
fn find(typ: &Sized, numbered: &[Sized]) -> usize
    ensures { result ≡ type_in numbered.now typ.now }
{
    for at in 0..numbered.len() {
        if same_sized(&numbered[at], typ) {
            return at;
        }
    }
    numbered.len()
}

/// Whether a type has a number.
fn has_number(numbered: &[Sized], typ: &Sized) -> bool
    ensures { result ≡ built.has_number numbered.now typ.now }
{
    find(typ, numbered) < numbered.len()
}

/// Whether all these types have numbers.
fn have_numbers(numbered: &[Sized], types: &[Sized]) -> bool
    ensures known { IsTrue result → all_known numbered.now types.now ≡ true }
    ensures no { IsFalse result → built.all_have numbered.now types.now ≡ false }
{
    for typ in types {
        if !has_number(numbered, typ) {
            return false;
        }
    }
    true
}

/// A number of a type. It fails where there are 2^32 or more, which is long after memory does.
fn as_number(count: usize) -> Result<u32, AllocError>
    ensures { IfOk result (λ number. number ≡ count) }
{
    match u32::try_from(count) {
        Ok(number) => Ok(number),
        Err(_) => Err(AllocError),
    }
}

/// The numbers of types. They fail where memory is wanting.
fn numbers(alloc: Global, numbered: &[Sized], types: &[Sized]) -> Result<Items<u32>, AllocError>
    ensures { IfOk result (λ numbers. numbers ≡ map (type_in numbered.now) types.now) }
{
    let mut numbers = Items::new(alloc);
    for typ in types {
        numbers.push(as_number(find(typ, numbered))?)?;
    }
    Ok(numbers)
}

/// A size as a constant; one that is no integer is 0.
fn one_constant(size: &Option<i128>) -> Constant
    ensures { result ≡ constant_of size.now }
{
    match size {
        Some(number) => Constant::Number(*number),
        None => Constant::Number(0),
    }
}

/// Sizes as constants; one that is no integer is 0. They fail where memory is wanting.
fn constants_of(alloc: Global, sizes: &[Option<i128>]) -> Result<Items<Constant>, AllocError>
    ensures { IfOk result (λ constants. constants ≡ map constant_of sizes.now) }
{
    let mut constants = Items::new(alloc);
    for size in sizes {
        constants.push(one_constant(size))?;
    }
    Ok(constants)
}

/// The types of fields under the arguments of a named type. They fail where memory is wanting.
fn fields_under(
    alloc: Global,
    types: &Types,
    sizes: &[Option<i128>],
    arguments: &[Sized],
    fields: &[Field],
) -> Result<Items<Sized>, AllocError>
    ensures { IfOk result (λ made. made ≡ fits.fields_under types.now sizes.now arguments.now fields.now) }
{
    let constants = constants_of(alloc, sizes)?;
    let mut made = Items::new(alloc);
    for field in fields {
        let typ = typ_sized(alloc, types, arguments, &field.typ, constants.as_slice())?;
        made.push(typ)?;
    }
    Ok(made)
}

/// The types inside a named type, by its definition. They fail where memory is wanting.
fn named_parts(
    alloc: Global,
    types: &Types,
    place: u32,
    sizes: &[Option<i128>],
    arguments: &[Sized],
) -> Result<Items<Sized>, AllocError>
    ensures { IfOk result (λ parts. parts ≡ in_form [] (spec.named_parts types.now sizes.now arguments.now)
        (slice_get types.now.definitions place)) }
{
    match types.definitions.get(place as usize) {
        Some(definition) => match &definition.form {
            Form::Struct(fields) => {
                fields_under(alloc, types, sizes, arguments, fields.as_slice())
            }
            Form::Union(constructors) => {
                fields_under(alloc, types, sizes, arguments, constructors.as_slice())
            }
            Form::Enum(_) => Ok(Items::new(alloc)),
        },
        None => Ok(Items::new(alloc)),
    }
}

/// One type as a list. It fails where memory is wanting.
fn one_part(alloc: Global, part: &Sized) -> Result<Items<Sized>, AllocError>
    ensures { IfOk result (λ parts. parts ≡ part.now ∷ []) }
{
    let mut parts = Items::new(alloc);
    parts.push(copy_sized(alloc, part)?)?;
    Ok(parts)
}

/// The types inside a type. They fail where memory is wanting.
fn parts_of(alloc: Global, types: &Types, typ: &Sized) -> Result<Items<Sized>, AllocError>
    ensures { IfOk result (λ parts. parts ≡ form_parts types.now (out-Sized typ.now)) }
{
    match typ {
        Sized::List(item) => one_part(alloc, item.get()),
        Sized::Vector(_, item) => one_part(alloc, item.get()),
        Sized::Tuple(parts) => Ok(copy_all_sized(alloc, parts.as_slice())?),
        Sized::Named(place, sizes, arguments) => {
            let sizes = sizes.as_slice();
            named_parts(alloc, types, *place, sizes, arguments.as_slice())
        }
        _ => Ok(Items::new(alloc)),
    }
}

/// A width from 0 to 128. It fails where it is none.
fn as_width(width: i128) -> Result<u8, TableError>
    ensures narrow { IfOk result (λ narrow. narrow ≡ natural width) }
    ensures left { IfErr result (OrMemory (built.width_fits width ≡ false)) }
{
    if width < 0 || width > 128 {
        return Err(TableError::TooWide);
    }
    match u8::try_from(width) {
        Ok(width) => Ok(width),
        Err(_) => Err(TableError::TooWide),
    }
}

/// A length from 0 to 4,096. It fails where it is none.
fn as_length(length: i128) -> Result<u16, TableError>
    ensures narrow { IfOk result (λ narrow. narrow ≡ natural length) }
    ensures left { IfErr result (OrMemory (built.length_fits length ≡ false)) }
{
    if length < 0 || length > 4_096 {
        return Err(TableError::TooWide);
    }
    match u16::try_from(length) {
        Ok(length) => Ok(length),
        Err(_) => Err(TableError::TooWide),
    }
}

/// The number of the one type inside another; 0 where there isn't one.
fn only_number(inside: &[u32]) -> u32
    ensures { (number : ℕ) → inside.now ≡ number ∷ [] → result ≡ number }
{
    match inside {
        [number] => *number,
        _ => 0,
    }
}

/// The value type of a named type, where the types inside it, in order, have these numbers. It fails where it has too many members.
fn named_value(types: &Types, place: u32, inside: Items<u32>) -> Result<ValueType, AllocError>
    ensures { (number : Sized → ℕ) → (sizes : List (Option ℤ)) → (arguments : List Sized)
        → inside ≡ map number (in_form [] (spec.named_parts types.now sizes arguments) (slice_get types.now.definitions place))
        → IfOk result (λ made. made ≡ in_form value.Unit (spec.named_value types.now number place sizes arguments)
        (slice_get types.now.definitions place)) }
{
    match types.definitions.get(place as usize) {
        Some(definition) => match &definition.form {
            Form::Struct(_) => Ok(ValueType::Struct(place, inside)),
            Form::Union(_) => Ok(ValueType::Union(place, inside)),
            Form::Enum(members) => {
                let count = as_number(members.len())?;
                Ok(ValueType::Enum(place, count))
            }
        },
        None => Ok(ValueType::Unit),
    }
}

/// The value type of a type, where the types inside it, in order, have these numbers. It fails where a size is none of its.
fn value_type(types: &Types, typ: &Sized, inside: Items<u32>) -> Result<ValueType, TableError>
    ensures made { (number : Sized → ℕ) → inside ≡ map number (form_parts types.now (out-Sized typ.now))
        → IfOk result (λ made. made ≡ form_value types.now number (out-Sized typ.now)) }
    ensures left { IfErr result (OrMemory (sizes_fit (out-Sized typ.now) ≡ false)) }
{
    match typ {
        Sized::Never => Ok(ValueType::Unit),
        Sized::Unit => Ok(ValueType::Unit),
        Sized::Bool => Ok(ValueType::Truth),
        Sized::Bit => Ok(ValueType::Bit),
        Sized::Bits(width) => Ok(ValueType::Bits(as_width(*width)?)),
        Sized::Int => Ok(ValueType::Integer),
        Sized::String => Ok(ValueType::String),
        Sized::List(_) => Ok(ValueType::List(only_number(inside.as_slice()))),
        Sized::Vector(length, _) => {
            let length = as_length(*length)?;
            Ok(ValueType::Vector(length, only_number(inside.as_slice())))
        }
        Sized::Tuple(_) => Ok(ValueType::Tuple(inside)),
        Sized::Named(place, _, _) => Ok(named_value(types, *place, inside)?),
    }
}

/// A type gets the next number, unless it has one. It fails where memory is wanting.
fn put_type(alloc: Global, list: &mut TypeList, typ: &Sized) -> Result<(), AllocError>
    ensures grown { OnOk result (Grown list.old list.new typ.now) }
    ensures put { OnOk result (list.new.numbered ≡ built.with_type list.old.numbered typ.now) }
{
    if has_number(list.numbered.as_slice(), typ) {
        return Ok(());
    }
    let copy = copy_sized(alloc, typ)?;
    list.numbered.push(copy)?;
    Ok(())
}

/// A type of lists gets a number. It fails where memory is wanting.
fn put_list(alloc: Global, list: &mut TypeList, typ: &Sized) -> Result<(), AllocError>
    ensures begins { OnOk result (Begins list.old.numbered list.new.numbered) }
    ensures put { OnOk result (list.new.numbered ≡ built.with_list list.old.numbered typ.now) }
{
    match typ {
        Sized::List(_) => put_type(alloc, list, typ),
        _ => Ok(()),
    }
}

/// A type gets a number, and before it the types inside it; but a list before its item, in which it may stand. It fails where types are nested too
/// deeply, and where memory is wanting.
fn add_below(
    alloc: Global,
    types: &Types,
    list: &mut TypeList,
    typ: &Sized,
    depth: u32,
) -> Result<(), TableError>
    ensures grown { OnOk result (Grown list.old list.new typ.now) }
    ensures listed { OnOk result (built.numbered_below types.now depth list.old.numbered typ.now ≡ Some list.new.numbered) }
    ensures left { IfErr result (OrMemory (built.numbered_below types.now depth list.old.numbered typ.now ≡ None)) }
{
    if has_number(list.numbered.as_slice(), typ) {
        return Ok(());
    }
    if depth == 0 {
        return Err(TableError::TooDeep);
    }
    put_list(alloc, list, typ)?;
    let parts = parts_of(alloc, types, typ)?;
    let inside = parts.as_slice();
    for part in inside {
        add_below(alloc, types, list, part, depth - 1)?;
    }
    put_type(alloc, list, typ)?;
    Ok(())
}

/// A type gets a number, behind those of the types inside it. It fails where types are nested too deeply, and where memory is wanting.
pub fn add_type(
    alloc: Global,
    types: &Types,
    list: &mut TypeList,
    typ: &Sized,
) -> Result<(), TableError>
    ensures grown { OnOk result (Grown list.old list.new typ.now) }
    ensures listed { OnOk result (built.with_number types.now list.old.numbered typ.now ≡ Some list.new.numbered) }
    ensures left { IfErr result (OrMemory (built.with_number types.now list.old.numbered typ.now ≡ None)) }
{
    add_below(alloc, types, list, typ, DEPTH)
}

/// So do each of these types. It fails as for one.
pub fn add_all(
    alloc: Global,
    types: &Types,
    list: &mut TypeList,
    all: &[Sized],
) -> Result<(), TableError>
    ensures known { OnOk result (all_known list.new.numbered all.now ≡ true) }
    ensures grown { OnOk result (Begins list.old.numbered list.new.numbered) }
    ensures listed { OnOk result (built.with_numbers types.now list.old.numbered all.now ≡ Some list.new.numbered) }
    ensures left { IfErr result (OrMemory (built.with_numbers types.now list.old.numbered all.now ≡ None)) }
{
    for typ in all {
        add_type(alloc, types, list, typ)?;
    }
    Ok(())
}

/// The value type of a type, where the types inside it have numbers. It fails where one hasn't, where a size is none of its, and where memory is
/// wanting.
fn value_in(
    alloc: Global,
    types: &Types,
    numbered: &[Sized],
    typ: &Sized,
) -> Result<ValueType, TableError>
    ensures value { IfOk result (λ value. value ≡ value_at types.now numbered.now typ.now) }
    ensures inside { OnOk result (all_known numbered.now (form_parts types.now (out-Sized typ.now)) ≡ true) }
    ensures left { IfErr result (OrMemory (NoValueType types.now numbered.now typ.now)) }
{
    let inside = parts_of(alloc, types, typ)?;
    let parts = inside.as_slice();
    if have_numbers(numbered, parts) {
        let places = numbers(alloc, numbered, parts)?;
        return value_type(types, typ, places);
    }
    Err(TableError::TooDeep)
}

/// The value types of types that all have numbers. It fails as for one.
fn values_of(
    alloc: Global,
    types: &Types,
    numbered: &[Sized],
) -> Result<Items<ValueType>, TableError>
    ensures values { IfOk result (λ values. values ≡ map (value_at types.now numbered.now) numbered.now) }
    ensures inside { OnOk result (all_inside types.now numbered.now numbered.now ≡ true) }
    ensures left { IfErr result (OrMemory (SomeNoValueType types.now numbered.now numbered.now)) }
{
    let mut values = Items::new(alloc);
    for typ in numbered {
        values.push(value_in(alloc, types, numbered, typ)?)?;
    }
    Ok(values)
}

/// The table of these types. It fails where the types inside one have no numbers, where a size is none of its type's, and where memory is wanting.
pub fn table_of(alloc: Global, types: &Types, list: TypeList) -> Result<Table, TableError>
    requires { Begins (S.Never ∷ []) list.numbered }
    ensures stands { IfOk result (Stands types.now) }
    ensures same { IfOk result (λ table. table.numbered ≡ list.numbered) }
    ensures values { IfOk result (λ table. table.types ≡ map (value_at types.now table.numbered) table.numbered) }
    ensures left { IfErr result (OrMemory (SomeNoValueType types.now list.numbered list.numbered)) }
{
    let TypeList { numbered } = list;
    let values = values_of(alloc, types, numbered.as_slice())?;
    Ok(Table {
        numbered,
        types: values,
    })
}
