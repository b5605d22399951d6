//! The types of sources, targets and operands.
ghost use Rattle.std.specs.Prelude.{◌≡◌, slice_get};
ghost use Rattle.std.specs.Option.{option_copied};
ghost use Rattle.jib.specs.Typing.{same as same_of, literal_has, literal_typ, let_typ, source_typ, target_typ, operand_typ};
ghost use Rattle.jib.specs.Typing.{typ_at as typ_of, sort_at as sort_of_typ, is_sort as is_sort_of, part_typ as part_typ_of, payload_typ as payload_typ_of};
ghost use Rattle.jib.specs.Typing.{is_item as is_item_of, item_is as item_is_of};

use crate::code::{Function, Literal, Module, Source, Target};
use crate::types::{Sort, ValueType};
use sail_types::is_small;

/// Whether both are there, and they are the same.
pub fn same(a: Option<u32>, b: Option<u32>) -> bool
    ensures { result ≡ same_of a b }
{
    match a {
        None => false,
        Some(a) => match b {
            None => false,
            Some(b) => a == b,
        },
    }
}

/// The type of a number; none where the table has none, or there is no number.
pub fn typ_at(program: &Module, number: Option<u32>) -> Option<&ValueType>
    ensures { option_copied result ≡ typ_of program.now number }
{
    match number {
        None => None,
        Some(number) => program.types.as_slice().get(number as usize),
    }
}

/// The sort of the type of a number.
pub fn sort_at(program: &Module, number: Option<u32>) -> Option<Sort>
    ensures { result ≡ sort_of_typ program.now number }
{
    match typ_at(program, number) {
        None => None,
        Some(typ) => Some(typ.sort()),
    }
}

/// Whether the type of a number has this sort.
pub fn is_sort(program: &Module, number: Option<u32>, sort: Sort) -> bool
    ensures { result ≡ is_sort_of program.now number sort }
{
    match sort_at(program, number) {
        None => false,
        Some(found) => found.is(sort),
    }
}

/// The type of a part of a tuple or a struct, whose type has this number.
pub fn part_typ(program: &Module, number: Option<u32>, place: u32) -> Option<u32>
    ensures { result ≡ part_typ_of program.now number place }
{
    match typ_at(program, number) {
        None => None,
        Some(typ) => typ.part(place),
    }
}

/// The type of a constructor's payload, of a union whose type has this number.
pub fn payload_typ(program: &Module, number: Option<u32>, constructor: u32) -> Option<u32>
    ensures { result ≡ payload_typ_of program.now number constructor }
{
    match typ_at(program, number) {
        None => None,
        Some(typ) => typ.payload(constructor),
    }
}

/// Whether the first is the type of the items of the second.
pub fn is_item(program: &Module, item: Option<u32>, whole: Option<u32>) -> bool
    ensures { result ≡ is_item_of program.now item whole }
{
    match typ_at(program, whole) {
        None => false,
        Some(typ) => item_is(program, item, typ),
    }
}

fn item_is(program: &Module, item: Option<u32>, whole: &ValueType) -> bool
    ensures { result ≡ item_is_of program.now item whole.now }
{
    match whole {
        ValueType::Bits(_) => is_sort(program, item, Sort::Bit),
        ValueType::List(typ) => same(item, Some(*typ)),
        ValueType::Vector(_, typ) => same(item, Some(*typ)),
        _ => false,
    }
}

/// Whether a constant belongs to a type.
fn literal_is(typ: &ValueType, literal: &Literal) -> bool
    ensures { result ≡ literal_has typ.now literal.now }
{
    match literal {
        Literal::Unit => matches!(typ, ValueType::Unit),
        Literal::Integer(number) => matches!(typ, ValueType::Integer) && is_small(*number),
        Literal::Truth(_) => matches!(typ, ValueType::Truth),
        Literal::Bit(_) => matches!(typ, ValueType::Bit),
        Literal::Bits(word) => match typ {
            ValueType::Bits(width) => word.width() == *width,
            _ => false,
        },
        Literal::String(_) => matches!(typ, ValueType::String),
        Literal::Member(place, member) => match typ {
            ValueType::Enum(other, count) => *place == *other && *member < *count,
            _ => false,
        },
    }
}

/// The type that stands with a constant, by its number, where the constant belongs to it; none where it doesn't.
pub fn literal(program: &Module, number: u32, literal: &Literal) -> Option<u32>
    ensures { result ≡ literal_typ program.now number literal.now }
{
    match program.types.as_slice().get(number as usize) {
        None => None,
        Some(typ) => if literal_is(typ, literal) {
            Some(number)
        } else {
            None
        },
    }
}

/// The number at an index.
pub fn number_at(numbers: &[u32], index: u32) -> Option<u32>
    ensures { result ≡ slice_get numbers.now index }
{
    numbers.get(index as usize).copied()
}

/// The function of a number.
pub fn function_at(program: &Module, number: u32) -> Option<&Function>
    ensures { option_copied result ≡ slice_get program.now.functions number }
{
    program.functions.as_slice().get(number as usize)
}

fn let_at(program: &Module, function: &Function, index: u32) -> Option<u32>
    ensures { result ≡ let_typ program.now function.now index }
{
    if index < function.lets {
        match program.openings.as_slice().get(index as usize) {
            None => None,
            Some(opening) => match function_at(program, opening.function) {
                None => None,
                Some(found) => Some(found.result),
            },
        }
    } else {
        None
    }
}

/// The type of a source, by its number.
pub fn typ_from(program: &Module, function: &Function, source: &Source) -> Option<u32>
    ensures { result ≡ source_typ program.now function.now source.now }
{
    match source {
        Source::Slot(slot) => number_at(function.slots.as_slice(), *slot),
        Source::Register(index) => number_at(program.registers.as_slice(), *index),
        Source::Let(index) => let_at(program, function, *index),
        Source::Constant(typ, constant) => literal(program, *typ, constant),
    }
}

/// The type of a target, by its number.
pub fn typ_to(program: &Module, function: &Function, target: Target) -> Option<u32>
    ensures { result ≡ target_typ program.now function.now target }
{
    match target {
        Target::Slot(slot) => number_at(function.slots.as_slice(), slot),
        Target::Register(index) => number_at(program.registers.as_slice(), index),
    }
}

/// The type of an operand, by its number.
pub fn operand(
    program: &Module,
    function: &Function,
    sources: &[Source],
    index: usize,
) -> Option<u32>
    ensures { result ≡ operand_typ program.now function.now sources.now index }
{
    match sources.get(index) {
        None => None,
        Some(source) => typ_from(program, function, source),
    }
}
