//! What is wanted of the parts of an expression, and the names that it binds.
ghost use Rattle.std.specs.Prelude.{◌≡◌, [], ◌∷◌, map, replicate, None, IfOk};
ghost use Rattle.std.specs.Option.{option_copied};
ghost use Rattle.value_indices.specs.declared.indices.Indices.TheVariants as I;
ghost use Rattle.value_indices.specs.declared.indices.Reading.TheVariants as R;
ghost use Rattle.pattern_leaves.specs.Settings.{around_of};
ghost use Rattle.call_arguments.specs.Aims.{aimed, each_under, is_hole as is_hole_of, of_wanted, part_types as part_types_of};
ghost use Rattle.call_arguments.specs.Aims.{type_arguments as type_arguments_of};
ghost use Rattle.call_arguments.specs.declared.aims.Aim.TheVariants as Aims;
ghost use Rattle.expression_steps.specs.Calls as call_spec;
ghost use Rattle.expression_steps.specs.Expressions as spec;
ghost use Rattle.expression_steps.specs.Statements as statement_spec;
ghost use Rattle.expression_steps.specs.Values as value_spec;

use call_arguments::type_parameters;
use call_notes::{Aim, argument_aim, item_type, part_aim, part_types, type_arguments, under};
use pattern_leaves::{Around, Bound, written_in};
use sail_base::{Boxed, Items};
use sail_core::Written;
use sail_types::{Index, Num, Typ};
use std::alloc::{AllocError, Global};
use value_indices::{Indices, Reading, copy_reading, largest_num};
use wide_types::parameters_of;

/// What is wanted of arguments for parameters of these types. It fails where memory is wanting, and where binders are too many.
pub fn argument_aims(alloc: Global, types: &[Typ]) -> Result<Items<Aim>, AllocError>
    ensures { IfOk result (λ made. made ≡ call_spec.argument_aims types.now) }
{
    let mut made = Items::new(alloc);
    for typ in types {
        made.push(argument_aim(alloc, typ)?)?;
    }
    Ok(made)
}

/// What is wanted of arguments of a constructor, or fields, of these types. It fails where memory is wanting, and where binders are too
/// many.
pub(crate) fn part_aims(
    alloc: Global,
    known: &Option<Items<Reading>>,
    types: &[Typ],
) -> Result<Items<Aim>, AllocError>
    ensures { IfOk result (λ made. made ≡ call_spec.part_aims known.now types.now) }
{
    let mut made = Items::new(alloc);
    for typ in types {
        made.push(part_aim(alloc, known, typ)?)?;
    }
    Ok(made)
}

/// The Type arguments of a type that is wanted; none where none is. It fails where memory is wanting.
fn wanted_arguments(
    alloc: Global,
    wanted: Option<&Reading>,
) -> Result<Option<Items<Reading>>, AllocError>
    ensures { IfOk result (λ made. made ≡ of_wanted None type_arguments_of (option_copied wanted.entry)) }
{
    match wanted {
        None => Ok(None),
        Some(wanted) => type_arguments(alloc, wanted),
    }
}

/// These types, if they are so many.
fn so_many(count: usize, known: Option<Items<Reading>>) -> Option<Items<Reading>>
    ensures { result ≡ call_spec.so_many count known }
{
    match known {
        None => None,
        Some(readings) => {
            if readings.len() == count {
                Some(readings)
            } else {
                None
            }
        }
    }
}

/// The Type arguments of the type that is wanted, where a union, by its place in the table, has as many Type variables; else none. It fails
/// where memory is wanting.
pub(crate) fn known_arguments(
    alloc: Global,
    around: &Around<'_>,
    union: u32,
    aim: &Aim,
) -> Result<Option<Items<Reading>>, AllocError>
    ensures { IfOk result (λ made. made ≡ call_spec.known_arguments (around_of around.now) union aim.now) }
{
    let known = wanted_arguments(alloc, aim.wanted())?;
    let count = type_parameters(parameters_of(around.types, union));
    Ok(so_many(count, known))
}

/// The types of the parts of a tuple that is wanted. It fails where memory is wanting.
fn wanted_parts(alloc: Global, wanted: Option<&Reading>) -> Result<Items<Reading>, AllocError>
    ensures { IfOk result (λ made. made ≡ of_wanted [] part_types_of (option_copied wanted.entry)) }
{
    match wanted {
        None => Ok(Items::new(alloc)),
        Some(wanted) => part_types(alloc, wanted),
    }
}

/// What is wanted of parts of a tuple of which these types are. It fails where memory is wanting.
fn each_part_aim(alloc: Global, readings: &[Reading]) -> Result<Items<Aim>, AllocError>
    ensures { IfOk result (λ made. made ≡ map (aimed Aims.PartOf) readings.now) }
{
    let mut made = Items::new(alloc);
    for reading in readings {
        made.push(Aim::part_of(copy_reading(alloc, reading)?))?;
    }
    Ok(made)
}

/// What is wanted of the parts of a tuple of which this is wanted. It fails where memory is wanting.
pub(crate) fn tuple_aims(alloc: Global, aim: &Aim) -> Result<Items<Aim>, AllocError>
    ensures { IfOk result (λ made. made ≡ value_spec.tuple_aims aim.now) }
{
    let parts = wanted_parts(alloc, aim.wanted())?;
    each_part_aim(alloc, parts.as_slice())
}

/// What is wanted of fields of these types, under what the variables of their struct stand for. It fails where memory is wanting.
pub(crate) fn field_aims(
    alloc: Global,
    types: &[Typ],
    indices: &[Index],
    readings: &[Reading],
) -> Result<Items<Aim>, AllocError>
    ensures { IfOk result (λ made. made ≡ value_spec.due_aims (each_under indices.now readings.now types.now)) }
{
    let mut made = Items::new(alloc);
    for typ in types {
        made.push(Aim::due(under(alloc, typ, indices, readings)?))?;
    }
    Ok(made)
}

/// The type of the items of a vector or a list that is wanted; a hole where none is known. It fails where memory is wanting.
pub fn wanted_item(alloc: Global, aim: &Aim) -> Result<Reading, AllocError>
    ensures { IfOk result (λ made. made ≡ value_spec.wanted_item aim.now) }
{
    match aim.wanted() {
        None => Ok(Reading::Hole),
        Some(wanted) => item_type(alloc, wanted),
    }
}

/// A list of items of this type is wanted, and owed. It fails where memory is wanting.
pub(crate) fn list_aim(alloc: Global, reading: &Reading) -> Result<Aim, AllocError>
    ensures { IfOk result (λ made. made ≡ Aims.Due (R.Widened (I.List reading.now))) }
{
    let item = Boxed::new(alloc, copy_reading(alloc, reading)?)?;
    let list = Boxed::new(alloc, Indices::List(item))?;
    Ok(Aim::Due(Reading::Widened(list)))
}

/// Whether this is no type.
pub fn is_hole(reading: &Reading) -> bool
    ensures { result ≡ is_hole_of reading.now }
{
    match reading {
        Reading::Hole => true,
        _ => false,
    }
}

/// This type, of each of so many items, which owe it at their places. It fails where memory is wanting.
pub fn repeated(alloc: Global, count: usize, reading: &Reading) -> Result<Items<Aim>, AllocError>
    ensures { IfOk result (λ made. made ≡ replicate count (aimed Aims.Due reading.now)) }
{
    let mut made = Items::new(alloc);
    for index in 0..count {
        made.push(Aim::due(copy_reading(alloc, reading)?))?;
    }
    Ok(made)
}

/// What is wanted where this type is written. It fails where memory is wanting.
pub fn written_aim(
    alloc: Global,
    around: &Around<'_>,
    written: Option<&Written>,
) -> Result<Aim, AllocError>
    ensures { IfOk result (λ made. made ≡ statement_spec.written_aim (around_of around.now) (option_copied written.entry)) }
{
    match written {
        None => Ok(Aim::Free),
        Some(written) => Ok(Aim::given(written_in(alloc, around, written)?)),
    }
}

/// What is wanted of a measure: an integer from 0 on, which it owes. It takes no memory.
pub fn natural_aim(alloc: Global) -> Aim
    ensures { result ≡ Aims.Due statement_spec.natural_type }
{
    let natural = Typ::Range(Num::constant(alloc, 0), largest_num(alloc));
    Aim::Due(Reading::Of(natural, Items::new(alloc), Items::new(alloc)))
}

/// The type of what is thrown: the union `exception`, by its place in the table. It fails where memory is wanting.
pub(crate) fn thrown_type(alloc: Global, union: u32) -> Result<Reading, AllocError>
    ensures { IfOk result (λ made. made ≡ spec.thrown_type union) }
{
    let value = Indices::Named(union, Items::new(alloc), Items::new(alloc));
    Ok(Reading::Widened(Boxed::new(alloc, value)?))
}

/// What is wanted of what is thrown: a value of the union `exception`, by its place in the table. It fails where memory is wanting.
pub(crate) fn thrown_aim(alloc: Global, exception: Option<u32>) -> Result<Aim, AllocError>
    ensures { IfOk result (λ made. made ≡ spec.thrown_aim exception) }
{
    match exception {
        None => Ok(Aim::Free),
        Some(union) => Ok(Aim::Given(thrown_type(alloc, union)?)),
    }
}

/// An option of a value of this type. It fails where memory is wanting.
pub(crate) fn option_indices(alloc: Global, typ: &Typ) -> Result<Indices, AllocError>
    ensures { IfOk result (λ made. made ≡ spec.option_indices typ.now) }
{
    let mut types = Items::new(alloc);
    types.push(under(alloc, typ, &[], &[])?)?;
    Ok(Indices::Named(0, Items::new(alloc), types))
}

/// The same once more. It fails where memory is wanting.
pub(crate) fn copy_aim(alloc: Global, aim: &Aim) -> Result<Aim, AllocError>
    ensures { IfOk result (λ made. made ≡ aim.now) }
{
    match aim {
        Aim::Free => Ok(Aim::Free),
        Aim::Given(reading) => Ok(Aim::Given(copy_reading(alloc, reading)?)),
        Aim::PartOf(reading) => Ok(Aim::PartOf(copy_reading(alloc, reading)?)),
        Aim::Due(reading) => Ok(Aim::Due(copy_reading(alloc, reading)?)),
    }
}

/// What is wanted of one part alone. It fails where memory is wanting.
pub(crate) fn one_aim(alloc: Global, aim: Aim) -> Result<Items<Aim>, AllocError>
    ensures { IfOk result (λ made. made ≡ aim ∷ []) }
{
    let mut made = Items::new(alloc);
    made.push(aim)?;
    Ok(made)
}

/// One name. It fails where memory is wanting.
pub(crate) fn one_name(alloc: Global, bound: Bound) -> Result<Items<Bound>, AllocError>
    ensures { IfOk result (λ made. made ≡ bound ∷ []) }
{
    let mut made = Items::new(alloc);
    made.push(bound)?;
    Ok(made)
}
