//! The types of what operations take and give.
ghost use Rattle.std.specs.Prelude.{◌≡◌};
ghost use Rattle.jib.specs.Operands.{each, has_sort as has_sort_of, is_taken, all_taken, compared as are_compared, builtin_typed};
ghost use Rattle.jib.specs.Operands.{is_given, all_given, all_of, makes as makes_of, some_makes, alike as are_alike};
ghost use Rattle.jib.specs.Operands.{between as are_between, is_there, all_there, operation_typed};
ghost use Rattle.jib.specs.Typing.{same as same_of, source_typ};
ghost use Rattle.jib.specs.declared.code.Operation.TheVariants as O;

use crate::code::{Function, Module, Operation, Source};
use crate::sorts::{comparable, gives, takes};
use crate::types::{Sort, ValueType};
use crate::typing::{
    is_item, is_sort, operand, part_typ, payload_typ, same, sort_at, typ_at, typ_from,
};
use sail_types::Row;

fn has_sort(program: &Module, number: Option<u32>, sort: Option<Sort>) -> bool
    ensures { result ≡ has_sort_of program.now number sort }
{
    match sort {
        None => false,
        Some(sort) => is_sort(program, number, sort),
    }
}

fn taken(
    program: &Module,
    function: &Function,
    sorts: &[Sort],
    index: usize,
    source: &Source,
) -> bool
    ensures { result ≡ is_taken program.now function.now sorts.now index source.now }
{
    has_sort(
        program,
        typ_from(program, function, source),
        sorts.get(index).copied(),
    )
}

#[tactic(auto, using(crate::proofs::EachLaws::eaches))]
fn each_taken(program: &Module, function: &Function, sorts: &[Sort], sources: &[Source]) -> bool
    ensures { result ≡ each (is_taken program.now function.now sorts.now) 0 sources.now }
{
    for (index, source) in sources.iter().enumerate() {
        if !taken(program, function, sorts, index, source) {
            return false;
        }
    }
    true
}

fn sorts_taken(program: &Module, function: &Function, sorts: &[Sort], sources: &[Source]) -> bool
    ensures { result ≡ all_taken program.now function.now sorts.now sources.now }
{
    sources.len() == sorts.len() && each_taken(program, function, sorts, sources)
}

fn compared(program: &Module, first: Option<u32>, second: Option<u32>) -> bool
    ensures { result ≡ are_compared program.now first second }
{
    match sort_at(program, first) {
        None => false,
        Some(sort) => comparable(sort) && is_sort(program, second, sort),
    }
}

/// Whether the operands and the target of a builtin have its types.
fn builtin_right(
    program: &Module,
    function: &Function,
    row: Row,
    sources: &[Source],
    target: Option<u32>,
) -> bool
    ensures { result ≡ builtin_typed program.now function.now row sources.now target }
{
    let count = sources.len();
    let first = operand(program, function, sources, 0);
    let second = operand(program, function, sources, 1);
    match row {
        Row::Eq => {
            count == 2 && compared(program, first, second) && is_sort(program, target, Sort::Truth)
        }
        Row::Neq => {
            count == 2 && compared(program, first, second) && is_sort(program, target, Sort::Truth)
        }
        Row::Length => count == 1
            && (is_sort(program, first, Sort::Bits) || is_sort(program, first, Sort::Vector))
            && is_sort(program, target, Sort::Integer),
        Row::VectorInit => count == 2
            && is_sort(program, first, Sort::Integer)
            && is_sort(program, target, Sort::Vector)
            && is_item(program, second, target),
        _ => {
            sorts_taken(program, function, takes(row), sources)
                && is_sort(program, target, gives(row))
        }
    }
}

fn given(
    program: &Module,
    function: &Function,
    types: &[u32],
    index: usize,
    source: &Source,
) -> bool
    ensures { result ≡ is_given program.now function.now types.now index source.now }
{
    same(
        typ_from(program, function, source),
        types.get(index).copied(),
    )
}

#[tactic(auto, using(crate::proofs::EachLaws::eaches))]
fn each_given(program: &Module, function: &Function, types: &[u32], sources: &[Source]) -> bool
    ensures { result ≡ each (is_given program.now function.now types.now) 0 sources.now }
{
    for (index, source) in sources.iter().enumerate() {
        if !given(program, function, types, index, source) {
            return false;
        }
    }
    true
}

/// Whether there are as many sources as types, each of its type.
pub fn sources_given(
    program: &Module,
    function: &Function,
    types: &[u32],
    sources: &[Source],
) -> bool
    ensures { result ≡ all_given program.now function.now types.now sources.now }
{
    sources.len() == types.len() && each_given(program, function, types, sources)
}

fn is_of(program: &Module, function: &Function, typ: u32, source: &Source) -> bool
    ensures { result ≡ same_of (source_typ program.now function.now source.now) (Some typ) }
{
    same(typ_from(program, function, source), Some(typ))
}

#[tactic(auto, using(crate::proofs::EachLaws::eaches))]
fn items_given(program: &Module, function: &Function, typ: u32, sources: &[Source]) -> bool
    ensures { result ≡ all_of program.now function.now typ sources.now }
{
    for (index, source) in sources.iter().enumerate() {
        let _place: usize = index;
        if !is_of(program, function, typ, source) {
            return false;
        }
    }
    true
}

fn makes(program: &Module, function: &Function, sources: &[Source], typ: &ValueType) -> bool
    ensures { result ≡ makes_of program.now function.now sources.now typ.now }
{
    match typ {
        ValueType::Tuple(parts) => sources_given(program, function, parts.as_slice(), sources),
        ValueType::Struct(_, fields) => {
            sources_given(program, function, fields.as_slice(), sources)
        }
        ValueType::Vector(length, item) => {
            sources.len() == *length as usize && items_given(program, function, *item, sources)
        }
        ValueType::List(item) => items_given(program, function, *item, sources),
        _ => false,
    }
}

fn built(program: &Module, function: &Function, sources: &[Source], target: Option<u32>) -> bool
    ensures { result ≡ operation_typed program.now function.now O.Build sources.now target }
{
    match typ_at(program, target) {
        None => false,
        Some(typ) => makes(program, function, sources, typ),
    }
}

/// Whether two types, by their numbers, are of one sort.
pub fn alike(program: &Module, first: Option<u32>, second: Option<u32>) -> bool
    ensures { result ≡ are_alike program.now first second }
{
    has_sort(program, first, sort_at(program, second))
}

fn between(program: &Module, function: &Function, sources: &[Source]) -> bool
    ensures { result ≡ are_between program.now function.now sources.now }
{
    is_sort(
        program,
        operand(program, function, sources, 1),
        Sort::Integer,
    ) && is_sort(
        program,
        operand(program, function, sources, 2),
        Sort::Integer,
    )
}

fn item_replaced(
    program: &Module,
    function: &Function,
    sources: &[Source],
    target: Option<u32>,
) -> bool
    ensures { result ≡ operation_typed program.now function.now O.WithItem sources.now target }
{
    sources.len() == 3
        && same(operand(program, function, sources, 0), target)
        && is_sort(
            program,
            operand(program, function, sources, 1),
            Sort::Integer,
        )
        && is_item(program, operand(program, function, sources, 2), target)
}

fn slice_replaced(
    program: &Module,
    function: &Function,
    sources: &[Source],
    target: Option<u32>,
) -> bool
    ensures { result ≡ operation_typed program.now function.now O.WithSlice sources.now target }
{
    sources.len() == 4
        && same(operand(program, function, sources, 0), target)
        && between(program, function, sources)
        && is_sort(program, operand(program, function, sources, 3), Sort::Bits)
        && is_sort(program, target, Sort::Bits)
}

fn source_there(program: &Module, function: &Function, source: &Source) -> bool
    ensures { result ≡ is_there (source_typ program.now function.now source.now) }
{
    typ_from(program, function, source).is_some()
}

/// Whether each source is there.
#[tactic(auto, using(crate::proofs::EachLaws::eaches))]
pub fn sources_there(program: &Module, function: &Function, sources: &[Source]) -> bool
    ensures { result ≡ all_there program.now function.now sources.now }
{
    for (index, source) in sources.iter().enumerate() {
        let _place: usize = index;
        if !source_there(program, function, source) {
            return false;
        }
    }
    true
}

/// Whether the operands and the target of an operation have its types.
pub fn operation_right(
    program: &Module,
    function: &Function,
    operation: Operation,
    sources: &[Source],
    target: Option<u32>,
) -> bool
    ensures { result ≡ operation_typed program.now function.now operation sources.now target }
{
    let count = sources.len();
    let first = operand(program, function, sources, 0);
    let second = operand(program, function, sources, 1);
    match operation {
        Operation::Builtin(row) => builtin_right(program, function, row, sources, target),
        Operation::Same => count == 1 && alike(program, first, target),
        Operation::Build => built(program, function, sources, target),
        Operation::Construct(constructor) => {
            count == 1 && same(first, payload_typ(program, target, constructor))
        }
        Operation::Field(place) => count == 1 && same(target, part_typ(program, first, place)),
        Operation::WithField(place) => {
            count == 2 && same(first, target) && same(second, part_typ(program, target, place))
        }
        Operation::Item => {
            count == 2 && is_item(program, target, first) && is_sort(program, second, Sort::Integer)
        }
        Operation::Slice => {
            count == 3
                && is_sort(program, first, Sort::Bits)
                && between(program, function, sources)
                && is_sort(program, target, Sort::Bits)
        }
        Operation::WithItem => item_replaced(program, function, sources, target),
        Operation::WithSlice => slice_replaced(program, function, sources, target),
        Operation::Cons => {
            count == 2
                && is_item(program, first, target)
                && same(second, target)
                && is_sort(program, target, Sort::List)
        }
        Operation::Rest => {
            count == 1 && same(first, target) && is_sort(program, target, Sort::List)
        }
        Operation::IsEmpty => {
            count == 1
                && is_sort(program, first, Sort::List)
                && is_sort(program, target, Sort::Truth)
        }
    }
}
