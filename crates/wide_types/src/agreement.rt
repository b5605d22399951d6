//! What another way owes where ways meet: that the numbers which are kept of the first are its own.
ghost use Rattle.std.specs.Prelude.{◌≡◌, ◌++◌, IfOk, OnOk};
ghost use Rattle.value_indices.specs.declared.indices.Indices.{out-Indices};
ghost use Rattle.wide_types.specs.Widening as wide;

use crate::below::{is_below, is_con_below};
use sail_base::{Boxed, Items};
use sail_types::{Con, Index, Num, copy_con, copy_num};
use std::alloc::{AllocError, Global};
use value_indices::{Indices, Reading, Walking, equal, opened};

/// What is known of any value of a type, with variables from that one on. It fails where memory is wanting, and where variables are
/// too many.
pub fn value_of_type(alloc: Global, before: u32, reading: &Reading) -> Result<Indices, AllocError>
    ensures { IfOk result (λ made. made ≡ wide.value_of_type before reading.now) }
{
    let mut walked = Walking::new(alloc, before);
    opened(alloc, &mut walked, reading)
}

/// That a way has the number of the first, where that is kept.
fn push_same_num(
    alloc: Global,
    before: u32,
    first: &Num,
    other: &Num,
    conditions: &mut Items<Option<Con>>,
) -> Result<(), AllocError>
    ensures { OnOk result (conditions.new ≡ conditions.old ++ wide.same_num before first.now other.now) }
{
    if is_below(before, first) {
        let other = copy_num(alloc, other)?;
        conditions.push(Some(equal(other, copy_num(alloc, first)?)))
    } else {
        Ok(())
    }
}

/// `not(c) | d`
fn implies(alloc: Global, con: &Con, other: &Con) -> Result<Con, AllocError>
    ensures { IfOk result (λ made. made ≡ wide.implies con.now other.now) }
{
    let con = copy_con(alloc, con)?;
    let mut parts = Items::new(alloc);
    parts.push(Con::Not(Boxed::new(alloc, con)?))?;
    parts.push(copy_con(alloc, other)?)?;
    Ok(Con::Any(parts))
}

/// That a way has the truth of the first, where that is kept.
fn push_same_truth(
    alloc: Global,
    before: u32,
    first: &Con,
    other: &Con,
    conditions: &mut Items<Option<Con>>,
) -> Result<(), AllocError>
    ensures { OnOk result (conditions.new ≡ conditions.old ++ wide.same_truth before first.now other.now) }
{
    if is_con_below(before, first) {
        conditions.push(Some(implies(alloc, other, first)?))?;
        conditions.push(Some(implies(alloc, first, other)?))
    } else {
        Ok(())
    }
}

/// That a way has the number or the truth of the first.
fn push_same_index(
    alloc: Global,
    before: u32,
    first: &Index,
    other: &Index,
    conditions: &mut Items<Option<Con>>,
) -> Result<(), AllocError>
    ensures { OnOk result (conditions.new ≡ conditions.old ++ wide.same_index before first.now other.now) }
{
    match (first, other) {
        (Index::Number(first), Index::Number(other)) => push_same_num(
            alloc, before, first, other, conditions,
        ),
        (Index::Truth(first), Index::Truth(other)) => push_same_truth(
            alloc, before, first, other, conditions,
        ),
        _ => conditions.push(Some(Con::Truth(false))),
    }
}

/// Likewise of each two at the same place.
#[tactic(auto, using(crate::proofs::Agreed::indices_end, crate::proofs::Agreed::other_indices_end))]
fn push_same_indices(
    alloc: Global,
    before: u32,
    first: &[Index],
    others: &[Index],
    conditions: &mut Items<Option<Con>>,
) -> Result<(), AllocError>
    ensures { OnOk result (conditions.new ≡ conditions.old ++ wide.same_indices before first.now others.now) }
{
    for index in 0..first.len() {
        if index >= others.len() {
            return Ok(());
        }
        push_same_index(alloc, before, &first[index], &others[index], conditions)?;
    }
    Ok(())
}

/// Whether two values are of one form: another that never ends is of each, and of what never ends there is no other.
fn is_alike(first: &Indices, other: &Indices) -> bool
    ensures { result ≡ wide.alike (out-Indices first.now) (out-Indices other.now) }
{
    match (first, other) {
        (Indices::Never, Indices::Never) => true,
        (Indices::Never, _) => false,
        (_, Indices::Never) => true,
        (Indices::Unit, Indices::Unit) => true,
        (Indices::Truth(_), Indices::Truth(_)) => true,
        (Indices::Bit, Indices::Bit) => true,
        (Indices::Bits(_), Indices::Bits(_)) => true,
        (Indices::Integer(_), Indices::Integer(_)) => true,
        (Indices::String, Indices::String) => true,
        (Indices::List(_), Indices::List(_)) => true,
        (Indices::Vector(_, _), Indices::Vector(_, _)) => true,
        (Indices::Tuple(parts), Indices::Tuple(found)) => parts.len() == found.len(),
        (Indices::Named(place, numbers, types), Indices::Named(other, others, found)) => {
            *place == *other && numbers.len() == others.len() && types.len() == found.len()
        }
        (Indices::Variable(position), Indices::Variable(other)) => *position == *other,
        _ => false,
    }
}

/// What another way owes of a value, through types inside types to this depth: what is false, where they aren't of one form.
#[tactic(auto, using(crate::proofs::Agreed::depths))]
#[cycle(agree)]
fn push_agreement(
    alloc: Global,
    depth: usize,
    before: u32,
    first: &Indices,
    other: &Indices,
    conditions: &mut Items<Option<Con>>,
) -> Result<(), AllocError>
    ensures { OnOk result (conditions.new ≡ conditions.old ++ wide.agrees_within depth before first.now other.now) }
{
    if depth == 0 || !is_alike(first, other) {
        return conditions.push(Some(Con::Truth(false)));
    }
    push_form_agreement(alloc, depth - 1, before, first, other, conditions)
}

/// What another way owes of a value, whose parts are within this depth.
#[cycle(agree)]
fn push_form_agreement(
    alloc: Global,
    depth: usize,
    before: u32,
    first: &Indices,
    other: &Indices,
    conditions: &mut Items<Option<Con>>,
) -> Result<(), AllocError>
    ensures { OnOk result (conditions.new
        ≡ conditions.old ++ wide.form_agrees (wide.agrees_within depth before) before (out-Indices first.now) (out-Indices other.now)) }
{
    match (first, other) {
        (Indices::Bits(width), Indices::Bits(found)) => push_same_num(
            alloc, before, width, found, conditions,
        ),
        (Indices::List(item), Indices::List(found)) => push_type_agreement(
            alloc,
            depth,
            before,
            item.get(),
            found.get(),
            conditions,
        ),
        (Indices::Vector(length, item), Indices::Vector(count, found)) => {
            push_same_num(alloc, before, length, count, conditions)?;
            push_type_agreement(alloc, depth, before, item.get(), found.get(), conditions)
        }
        (Indices::Tuple(parts), Indices::Tuple(found)) => push_part_agreements(
            alloc,
            depth,
            before,
            parts.as_slice(),
            found.as_slice(),
            conditions,
        ),
        (Indices::Named(_, numbers, types), Indices::Named(_, others, found)) => {
            push_same_indices(
                alloc,
                before,
                numbers.as_slice(),
                others.as_slice(),
                conditions,
            )?;
            push_type_agreements(
                alloc,
                depth,
                before,
                types.as_slice(),
                found.as_slice(),
                conditions,
            )
        }
        _ => Ok(()),
    }
}

/// What another way owes of a type: what it owes of any value of it.
#[cycle(agree)]
fn push_type_agreement(
    alloc: Global,
    depth: usize,
    before: u32,
    first: &Reading,
    other: &Reading,
    conditions: &mut Items<Option<Con>>,
) -> Result<(), AllocError>
    ensures { OnOk result (conditions.new
        ≡ conditions.old ++ wide.types_agree (wide.agrees_within depth before) before first.now other.now) }
{
    let first = value_of_type(alloc, before, first)?;
    let other = value_of_type(alloc, before, other)?;
    push_agreement(alloc, depth, before, &first, &other, conditions)
}

/// What another way owes of each two parts at the same place.
#[tactic(auto, using(crate::proofs::Agreed::parts_end, crate::proofs::Agreed::other_parts_end))]
#[cycle(agree)]
fn push_part_agreements(
    alloc: Global,
    depth: usize,
    before: u32,
    first: &[Indices],
    others: &[Indices],
    conditions: &mut Items<Option<Con>>,
) -> Result<(), AllocError>
    ensures { OnOk result (conditions.new
        ≡ conditions.old ++ wide.each_agrees (wide.agrees_within depth before) first.now others.now) }
{
    for index in 0..first.len() {
        if index >= others.len() {
            return Ok(());
        }
        push_agreement(
            alloc,
            depth,
            before,
            &first[index],
            &others[index],
            conditions,
        )?;
    }
    Ok(())
}

/// What another way owes of each two types at the same place.
#[tactic(auto, using(crate::proofs::Agreed::types_end, crate::proofs::Agreed::other_types_end))]
#[cycle(agree)]
fn push_type_agreements(
    alloc: Global,
    depth: usize,
    before: u32,
    first: &[Reading],
    others: &[Reading],
    conditions: &mut Items<Option<Con>>,
) -> Result<(), AllocError>
    ensures { OnOk result (conditions.new
        ≡ conditions.old ++ wide.each_type_agrees (wide.agrees_within depth before) before first.now others.now) }
{
    for index in 0..first.len() {
        if index >= others.len() {
            return Ok(());
        }
        push_type_agreement(
            alloc,
            depth,
            before,
            &first[index],
            &others[index],
            conditions,
        )?;
    }
    Ok(())
}

/// What a way of these second indices owes where the first way has the others: the numbers that are kept of it, its own number first,
/// through types inside types to this depth. Kept are those that only name variables before that one. It fails where memory is
/// wanting, and where variables are too many.
pub fn agrees_within(
    alloc: Global,
    depth: usize,
    before: u32,
    first: &Indices,
    other: &Indices,
) -> Result<Items<Option<Con>>, AllocError>
    ensures { IfOk result (λ made. made ≡ wide.agrees_within depth before first.now other.now) }
{
    let mut conditions = Items::new(alloc);
    push_agreement(alloc, depth, before, first, other, &mut conditions)?;
    Ok(conditions)
}
