//! Whether an operation takes and gives values of these types.
ghost use Rattle.std.specs.Prelude.{◌≡◌, ◌&&◌, ◌||◌, ◌++◌, ◌∷◌, [], Some, slice_get, IfOk, OnOk};
ghost use Rattle.jib.specs.Operands.{some_comparable};
ghost use Rattle.jib.specs.Typing.{literal_some, payload_typ as payload_typ_of, sort_at as sort_at_of};
ghost use Rattle.lowered_validity.specs.Typing as typing;
ghost use Rattle.lowered_typed.specs.Here as here;
ghost use Rattle.lowered_typed.specs.Judging.{signs_here};

use crate::signs::Judge;
use jib::{
    Function, Literal, Operation, Source, alike, comparable, literal as typ_of_literal,
    operation_right, payload_typ, sort_at,
};
use lowered_steps::further;
use sail_base::Items;
use size_values::{Picked, Sized, copy_sized};
use std::alloc::{AllocError, Global};

/// Whether both hold.
pub fn both(one: bool, other: bool) -> bool
    ensures { result ≡ (one && other) }
{
    one && other
}

/// Whether one of them holds.
pub fn either(one: bool, other: bool) -> bool
    ensures { result ≡ (one || other) }
{
    one || other
}

/// The numbers of types come behind others. They fail where there are 2^32 types or more, and where memory is wanting.
fn push_numbers(
    judge: &Judge<'_>,
    types: &[Sized],
    numbers: &mut Items<u32>,
) -> Result<(), AllocError>
    ensures { OnOk result (numbers.new ≡ numbers.old ++ here.numbers judge.now types.now) }
{
    match types {
        [] => Ok(()),
        [first, rest @ ..] => {
            let number = judge.setting.number(first)?;
            numbers.push(number)?;
            push_numbers(judge, rest, numbers)
        }
    }
}

/// The numbers of types. They fail where there are 2^32 types or more, and where memory is wanting.
pub fn numbers(judge: &Judge<'_>, types: &[Sized]) -> Result<Items<u32>, AllocError>
    ensures { IfOk result (λ numbers. numbers ≡ here.numbers judge.now types.now) }
{
    let mut numbers = Items::new(judge.alloc);
    push_numbers(judge, types, &mut numbers)?;
    Ok(numbers)
}

/// Copies of types come behind others. They fail where memory is wanting.
pub fn push_copies(
    alloc: Global,
    types: &[Sized],
    copies: &mut Items<Sized>,
) -> Result<(), AllocError>
    ensures { OnOk result (copies.new ≡ copies.old ++ types.now) }
{
    match types {
        [] => Ok(()),
        [first, rest @ ..] => {
            let copy = copy_sized(alloc, first)?;
            copies.push(copy)?;
            push_copies(alloc, rest, copies)
        }
    }
}

/// The types, and others behind them. They fail where memory is wanting.
pub fn joined(alloc: Global, types: &[Sized], others: &[Sized]) -> Result<Items<Sized>, AllocError>
    ensures { IfOk result (λ joined. joined ≡ types.now ++ others.now) }
{
    let mut joined = Items::new(alloc);
    push_copies(alloc, types, &mut joined)?;
    push_copies(alloc, others, &mut joined)?;
    Ok(joined)
}

/// Operands in slots from one on come behind others, one for each of these numbers. They fail where memory is wanting.
pub fn push_operands(
    slot: u32,
    numbers: &[u32],
    sources: &mut Items<Source>,
) -> Result<(), AllocError>
    ensures { OnOk result (sources.new ≡ sources.old ++ typing.operands slot numbers.now) }
{
    match numbers {
        [] => Ok(()),
        [_, rest @ ..] => {
            sources.push(Source::Slot(slot))?;
            let next = further(slot, 1)?;
            push_operands(next, rest, sources)
        }
    }
}

/// Operands of these types in slots from one on. They fail where memory is wanting.
pub fn operands_from(
    judge: &Judge<'_>,
    slot: u32,
    types: &[Sized],
) -> Result<Items<Source>, AllocError>
    ensures { IfOk result (λ sources. sources ≡ typing.operands slot (here.numbers judge.now types.now)) }
{
    let slots = numbers(judge, types)?;
    let listed = slots.as_slice();
    let mut sources = Items::new(judge.alloc);
    push_operands(slot, listed, &mut sources)?;
    Ok(sources)
}

/// The number of the type of `()`. It fails where there are 2^32 types or more.
#[tactic(auto, using(crate::proofs::Fixed::fixed))]
pub fn unit_number(judge: &Judge<'_>) -> Result<u32, AllocError>
    ensures { IfOk result (λ number. number ≡ here.unit_number judge.now) }
{
    judge.setting.number(&Sized::Unit)
}

/// That of the type of integers. It fails where there are 2^32 types or more.
#[tactic(auto, using(crate::proofs::Fixed::fixed))]
pub fn integer_number(judge: &Judge<'_>) -> Result<u32, AllocError>
    ensures { IfOk result (λ number. number ≡ here.integer_number judge.now) }
{
    judge.setting.number(&Sized::Int)
}

/// The number of the first type; that of `()` where there is none. It fails where there are 2^32 types or more.
#[tactic(auto, using(crate::proofs::Fixed::fixed))]
pub fn first_number(judge: &Judge<'_>, types: &[Sized]) -> Result<u32, AllocError>
    ensures { IfOk result (λ number. number ≡ here.first_number judge.now types.now) }
{
    match types {
        [] => unit_number(judge),
        [first, ..] => judge.setting.number(first),
    }
}

/// A function that has slots of these types alone.
fn with_slots(judge: &Judge<'_>, slots: Items<u32>) -> Function
    ensures { result ≡ typing.with_slots slots }
{
    Function {
        parameters: Items::new(judge.alloc),
        result: 0,
        slots,
        cycle: 0,
        lets: 0,
        is_pure: false,
        code: Items::new(judge.alloc),
    }
}

/// Whether the operation takes operands of these types from these sources, and gives a value of this one. It fails where memory is wanting.
pub fn works(
    judge: &Judge<'_>,
    operation: Operation,
    sources: &[Source],
    types: &[Sized],
    gives: &Sized,
) -> Result<bool, AllocError>
    ensures { IfOk result (λ answer. answer ≡ here.works judge.now operation sources.now types.now gives.now) }
{
    let slots = numbers(judge, types)?;
    let function = with_slots(judge, slots);
    let target = judge.setting.number(gives)?;
    let right = operation_right(
        judge.signs.shell,
        &function,
        operation,
        sources,
        Some(target),
    );
    Ok(right)
}

/// Whether the operation takes one value of this type, and gives one of that. It fails where memory is wanting.
pub fn works_on(
    judge: &Judge<'_>,
    operation: Operation,
    takes: &Sized,
    gives: &Sized,
) -> Result<bool, AllocError>
    ensures { IfOk result (λ answer. answer ≡ here.works judge.now operation typing.one_operand (takes.now ∷ []) gives.now) }
{
    let source = [Source::Slot(0)];
    works(
        judge,
        operation,
        &source,
        std::slice::from_ref(takes),
        gives,
    )
}

/// Whether it takes no value, but this one in place of it, and gives one of a type. It fails where memory is wanting.
pub fn works_alone(
    judge: &Judge<'_>,
    operation: Operation,
    source: Source,
    gives: &Sized,
) -> Result<bool, AllocError>
    ensures { IfOk result (λ answer. answer ≡ here.works judge.now operation (source ∷ []) [] gives.now) }
{
    let sources = [source];
    works(judge, operation, &sources, &[], gives)
}

/// Whether a value of the first type may come to the second.
pub fn comes(judge: &Judge<'_>, from: u32, to: u32) -> bool
    ensures { result ≡ typing.comes (signs_here judge.now) from to }
{
    from == to || alike(judge.signs.shell, Some(from), Some(to))
}

/// Whether a constant is of the type of this number.
pub fn is_constant(judge: &Judge<'_>, number: u32, literal: &Literal) -> bool
    ensures { result ≡ literal_some (slice_get judge.now.signs.now.shell.now.types number) literal.now }
{
    typ_of_literal(judge.signs.shell, number, literal).is_some()
}

/// Whether values of the type of this number can be compared.
pub fn is_comparable(judge: &Judge<'_>, number: u32) -> bool
    ensures { result ≡ some_comparable (sort_at_of judge.now.signs.now.shell.now (Some number)) }
{
    match sort_at(judge.signs.shell, Some(number)) {
        Some(sort) => comparable(sort),
        None => false,
    }
}

/// The type of the payload of a constructor of the type of this number; none where there is none.
pub fn payload_number(judge: &Judge<'_>, number: u32, constructor: u32) -> Option<u32>
    ensures { result ≡ payload_typ_of judge.now.signs.now.shell.now (Some number) constructor }
{
    payload_typ(judge.signs.shell, Some(number), constructor)
}

/// Whether constants may have these numbers.
pub fn are_small(picked: &[Picked]) -> bool
    ensures { result ≡ typing.picks_small picked.now }
{
    match picked {
        [] => true,
        [first, rest @ ..] => sail_types::is_small(first.number) && are_small(rest),
    }
}
