//! Whether what a pattern's head opens has the type for it, and the types of what it takes out.
ghost use Rattle.std.specs.Prelude.{◌≡◌, ◌++◌, ◌∷◌, [], ◌-◌, pos, IfOk, OnOk};
ghost use Rattle.size_values.specs.declared.sized.Sized.{out-Sized};
ghost use Rattle.size_values.specs.declared.sized.Sized.TheVariants as sized;
ghost use Rattle.sail_core.specs.Patterns.{solved};
ghost use Rattle.lowered_pieces.specs.Arms.{is_union as is_union_of};
ghost use Rattle.lowered_pieces.specs.Arms.{part_width as part_width_of};
ghost use Rattle.lowered_steps.specs.Setting.{size_for};
ghost use Rattle.lowered_typed.specs.Here as here;
ghost use Rattle.lowered_typed.specs.Judged as judged;

use crate::signs::Judge;
use crate::works::{
    both, integer_number, is_comparable, is_constant, payload_number, push_copies, works,
    works_alone, works_on,
};
use jib::{Literal, Operation, Source};
use lowered_steps::{
    as_integer, component_type, copy_literal, further, item_type, part_width, payload_type,
    sum_widths, word_width,
};
use sail_base::{Items, Word};
use sail_core::{Head, Literal as CoreLiteral};
use sail_types::Num;
use size_values::{Sized, copy_sized};
use std::alloc::AllocError;

// ---- parts of tuples, and items

/// Whether so many parts of a tuple can be taken out, from one on. It fails where memory is wanting.
pub fn are_parts(
    judge: &Judge<'_>,
    whole: &Sized,
    first: u32,
    count: u32,
) -> Result<bool, AllocError>
    ensures { IfOk result (λ answer. answer ≡ here.fields_right judge.now whole.now first count) }
{
    if count == 0 {
        return Ok(true);
    }
    let typ = component_type(judge.alloc, whole, first as usize)?;
    let next = further(first, 1)?;
    let one = works_on(judge, Operation::Field(first), whole, &typ)?;
    let other = are_parts(judge, whole, next, count - 1)?;
    let all = both(one, other);
    Ok(all)
}

/// Their types come behind others. They fail where memory is wanting.
fn push_parts(
    judge: &Judge<'_>,
    whole: &Sized,
    first: u32,
    count: u32,
    types: &mut Items<Sized>,
) -> Result<(), AllocError>
    ensures { OnOk result (types.new ≡ types.old ++ here.fields_typ judge.now whole.now first count) }
{
    if count == 0 {
        return Ok(());
    }
    let typ = component_type(judge.alloc, whole, first as usize)?;
    types.push(typ)?;
    let next = further(first, 1)?;
    push_parts(judge, whole, next, count - 1, types)
}

/// Whether the item of a vector or a list at a place can be taken out. It fails where memory is wanting.
#[tactic(auto, using(crate::proofs::Fixed::fixed))]
fn is_item(judge: &Judge<'_>, whole: &Sized, at: u32) -> Result<bool, AllocError>
    ensures { IfOk result (λ answer. answer ≡ judged.item_right judge.now whole.now at) }
{
    let typ = item_type(judge.alloc, whole)?;
    let integer = integer_number(judge)?;
    let index = Source::Constant(integer, Literal::Integer(at as i128));
    let sources = [Source::Slot(0), index];
    works(
        judge,
        Operation::Item,
        &sources,
        std::slice::from_ref(whole),
        &typ,
    )
}

/// Whether the first items can be, so many. It fails where memory is wanting.
fn are_items(judge: &Judge<'_>, whole: &Sized, count: u32) -> Result<bool, AllocError>
    ensures { IfOk result (λ answer. answer ≡ here.items_right judge.now whole.now count) }
{
    if count == 0 {
        return Ok(true);
    }
    let one = is_item(judge, whole, count - 1)?;
    let other = are_items(judge, whole, count - 1)?;
    let all = both(one, other);
    Ok(all)
}

/// The types of so many items come behind others. They fail where memory is wanting.
fn push_items(
    judge: &Judge<'_>,
    whole: &Sized,
    count: u32,
    types: &mut Items<Sized>,
) -> Result<(), AllocError>
    ensures { OnOk result (types.new ≡ types.old ++ here.items_typ judge.now whole.now count) }
{
    if count == 0 {
        return Ok(());
    }
    let typ = item_type(judge.alloc, whole)?;
    types.push(typ)?;
    push_items(judge, whole, count - 1, types)
}

/// Whether a list of this type can be asked whether it is empty, and taken apart into its first item and the rest. It fails where memory is wanting.
#[tactic(auto, using(crate::proofs::Fixed::fixed))]
fn is_opened(judge: &Judge<'_>, whole: &Sized) -> Result<bool, AllocError>
    ensures { IfOk result (λ answer. answer ≡ here.list_right judge.now whole.now) }
{
    let first = works_on(judge, Operation::IsEmpty, whole, &Sized::Bool)?;
    let one = is_item(judge, whole, 0)?;
    let other = works_on(judge, Operation::Rest, whole, whole)?;
    let rest = both(one, other);
    let all = both(first, rest);
    Ok(all)
}

// ---- payloads

/// Whether a type is that of a union.
fn is_union(union: u32, whole: &Sized) -> bool
    ensures { result ≡ is_union_of union (out-Sized whole.now) }
{
    match whole {
        Sized::Named(place, _, _) => union == *place,
        _ => false,
    }
}

/// Whether a constructor of the type of this number has a payload of the type of that one.
pub fn has_payload(judge: &Judge<'_>, whole: u32, constructor: u32, payload: u32) -> bool
    ensures { result ≡ judged.has_payload judge.now whole constructor payload }
{
    match payload_number(judge, whole, constructor) {
        Some(found) => found == payload,
        None => false,
    }
}

/// Whether so many parts of a payload can be taken out. It fails where memory is wanting.
fn are_payload(judge: &Judge<'_>, payload: &Sized, count: u32) -> Result<bool, AllocError>
    ensures { IfOk result (λ answer. answer ≡ here.payload_right judge.now payload.now count) }
{
    if count == 1 {
        Ok(true)
    } else {
        are_parts(judge, payload, 0, count)
    }
}

/// Whether a payload of a constructor can be taken out of a value of this type, with so many parts. It fails where memory is wanting.
fn is_payload(
    judge: &Judge<'_>,
    union: u32,
    constructor: u32,
    whole: &Sized,
    count: u32,
) -> Result<bool, AllocError>
    ensures { IfOk result (λ answer. answer ≡ judged.payload_fits judge.now union constructor whole.now count) }
{
    let first = is_union(union, whole);
    let payload = payload_type(judge.alloc, judge.setting.types, union, constructor, whole)?;
    let number = judge.setting.number(&payload)?;
    let union = judge.setting.number(whole)?;
    let one = has_payload(judge, union, constructor, number);
    let other = are_payload(judge, &payload, count)?;
    let rest = both(one, other);
    let all = both(first, rest);
    Ok(all)
}

/// The types of a payload, or of its parts, come behind others. They fail where memory is wanting.
fn push_payload(
    judge: &Judge<'_>,
    payload: &Sized,
    count: u32,
    types: &mut Items<Sized>,
) -> Result<(), AllocError>
    ensures { OnOk result (types.new ≡ types.old ++ here.payload_parts judge.now payload.now count) }
{
    if count == 1 {
        push_copies(judge.alloc, std::slice::from_ref(payload), types)
    } else {
        push_parts(judge, payload, 0, count, types)
    }
}

// ---- constants

/// Whether a value of a type may be compared with a constant. It fails where memory is wanting.
fn is_tested(judge: &Judge<'_>, whole: &Sized, literal: &CoreLiteral) -> Result<bool, AllocError>
    ensures { IfOk result (λ answer. answer ≡ judged.test_right judge.now whole.now literal.now) }
{
    let number = judge.setting.number(whole)?;
    let constant = copy_literal(judge.alloc, literal)?;
    let one = is_constant(judge, number, &constant);
    let other = is_comparable(judge, number);
    let all = both(one, other);
    Ok(all)
}

// ---- words

/// Whether no bits can be taken out of a word. It fails where memory is wanting.
fn is_no_cut(judge: &Judge<'_>) -> Result<bool, AllocError>
    ensures { IfOk result (λ answer. answer ≡ judged.no_cut_right judge.now) }
{
    let typ = Sized::Bits(0);
    let number = judge.setting.number(&typ)?;
    let empty = Literal::Bits(Word::zeros(0));
    let source = Source::Constant(number, empty);
    works_alone(judge, Operation::Same, source, &typ)
}

/// Whether so many bits can be taken out of a word of which so many are left. It fails where memory is wanting, and where numbers pass all integers.
fn is_cut(judge: &Judge<'_>, whole: &Sized, left: u128, width: u128) -> Result<bool, AllocError>
    ensures { IfOk result (λ answer. answer ≡ judged.cut_fits judge.now whole.now left width) }
{
    if width == 0 {
        return is_no_cut(judge);
    }
    let integer = integer_number(judge)?;
    let first = left.saturating_sub(1);
    let last = left.saturating_sub(width);
    let highest = as_integer(first)?;
    let lowest = as_integer(last)?;
    let bits = as_integer(width)?;
    let sources = [
        Source::Slot(0),
        Source::Constant(integer, Literal::Integer(highest)),
        Source::Constant(integer, Literal::Integer(lowest)),
    ];
    let typ = Sized::Bits(bits);
    works(
        judge,
        Operation::Slice,
        &sources,
        std::slice::from_ref(whole),
        &typ,
    )
}

/// The width of a part of a word: the one that is written, or else this one.
fn width_of(judge: &Judge<'_>, width: &Option<Num>, rest: u128) -> u128
    ensures { result ≡ solved rest (part_width_of (size_for judge.now.setting.now) width.now) }
{
    match part_width(judge.setting, width) {
        Some(width) => width,
        None => rest,
    }
}

/// Whether parts of these widths can be taken out of a word of which so many bits are left, where one that isn't written has this width. It fails where
/// memory is wanting, and where numbers pass all integers.
fn are_cut(
    judge: &Judge<'_>,
    whole: &Sized,
    left: u128,
    rest: u128,
    widths: &[Option<Num>],
) -> Result<bool, AllocError>
    ensures { IfOk result (λ answer. answer ≡ here.cut_right judge.now whole.now left (judged.widths_by judge.now rest widths.now)) }
{
    match widths {
        [] => Ok(true),
        [first, others @ ..] => {
            let width = width_of(judge, first, rest);
            let behind = left.saturating_sub(width);
            let one = is_cut(judge, whole, left, width)?;
            let other = are_cut(judge, whole, behind, rest, others)?;
            let all = both(one, other);
            Ok(all)
        }
    }
}

/// The type of words of a width comes behind others. It fails where memory is wanting, and where the width passes all integers.
fn push_bits(width: u128, types: &mut Items<Sized>) -> Result<(), AllocError>
    ensures { OnOk result (types.new ≡ types.old ++ sized.Bits (pos width) ∷ []) }
{
    let bits = as_integer(width)?;
    let typ = Sized::Bits(bits);
    types.push(typ)
}

/// The types of parts of these widths come behind others, where one that isn't written has this width. They fail where memory is wanting, and where a
/// width passes all integers.
fn push_cut(
    judge: &Judge<'_>,
    rest: u128,
    widths: &[Option<Num>],
    types: &mut Items<Sized>,
) -> Result<(), AllocError>
    ensures { OnOk result (types.new ≡ types.old ++ here.cut_types judge.now (judged.widths_by judge.now rest widths.now)) }
{
    match widths {
        [] => Ok(()),
        [first, others @ ..] => {
            let width = width_of(judge, first, rest);
            push_bits(width, types)?;
            push_cut(judge, rest, others, types)
        }
    }
}

/// The width of the part that has none written. It fails where the widths that are written pass all numbers.
fn rest_width(judge: &Judge<'_>, whole: &Sized, widths: &[Option<Num>]) -> Result<u128, AllocError>
    ensures { IfOk result (λ rest. rest ≡ judged.rest_width judge.now whole.now widths.now) }
{
    let known = sum_widths(judge.setting, widths)?;
    let all = word_width(whole);
    let rest = all.saturating_sub(known);
    Ok(rest)
}

// ---- heads

/// Whether a head fits a value of this type, with so many parts. It fails where memory is wanting.
pub fn is_head(
    judge: &Judge<'_>,
    whole: &Sized,
    head: &Head,
    count: u32,
) -> Result<bool, AllocError>
    ensures { IfOk result (λ answer. answer ≡ here.head_right judge.now whole.now head.now count) }
{
    match head {
        Head::Is(literal) => is_tested(judge, whole, literal),
        Head::Tuple => are_parts(judge, whole, 0, count),
        Head::Constructor(union, constructor) => {
            is_payload(judge, *union, *constructor, whole, count)
        }
        Head::Vector => are_items(judge, whole, count),
        Head::List => is_opened(judge, whole),
        Head::Cons => is_opened(judge, whole),
        Head::Cut(widths) => {
            let listed = widths.as_slice();
            let rest = rest_width(judge, whole, listed)?;
            let left = word_width(whole);
            are_cut(judge, whole, left, rest, listed)
        }
    }
}

/// The types of the first item of a list and of the rest come behind others. They fail where memory is wanting.
fn push_first(judge: &Judge<'_>, whole: &Sized, types: &mut Items<Sized>) -> Result<(), AllocError>
    ensures { OnOk result (types.new ≡ types.old ++ judged.first_and_rest judge.now whole.now) }
{
    let item = item_type(judge.alloc, whole)?;
    let copy = copy_sized(judge.alloc, whole)?;
    types.push(item)?;
    types.push(copy)
}

/// The types of what a head takes out of a value of this type come behind others. They fail where memory is wanting, and where a width passes all integers.
pub fn push_head(
    judge: &Judge<'_>,
    whole: &Sized,
    head: &Head,
    count: u32,
    types: &mut Items<Sized>,
) -> Result<(), AllocError>
    ensures { OnOk result (types.new ≡ types.old ++ here.head_types judge.now whole.now head.now count) }
{
    match head {
        Head::Is(_) => Ok(()),
        Head::Tuple => push_parts(judge, whole, 0, count, types),
        Head::Constructor(union, constructor) => {
            let payload = payload_type(
                judge.alloc,
                judge.setting.types,
                *union,
                *constructor,
                whole,
            )?;
            push_payload(judge, &payload, count, types)
        }
        Head::Vector => push_items(judge, whole, count, types),
        Head::List => push_items(judge, whole, count, types),
        Head::Cons => { push_first(judge, whole, types) }
        Head::Cut(widths) => {
            let listed = widths.as_slice();
            let rest = rest_width(judge, whole, listed)?;
            push_cut(judge, rest, listed, types)
        }
    }
}
