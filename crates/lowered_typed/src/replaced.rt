//! Whether parts of registers can be taken out and put back.
ghost use Rattle.std.specs.Prelude.{◌≡◌, IfOk};
ghost use Rattle.lowered_validity.specs.Typing as typing;
ghost use Rattle.lowered_typed.specs.Here as here;
ghost use Rattle.lowered_typed.specs.Judged as judged;
ghost use Rattle.lowered_typed.specs.Judging.{cases_typed};

use crate::cases::is_known;
use crate::signs::Judge;
use crate::works::{are_small, both, works, works_on};
use jib::{Operation, Source};
use lowered_steps::way_type;
use sail_core::{Suffix, Way};
use size_values::{Sized, copy_sized};
use sized_nodes::Case;
use std::alloc::AllocError;

/// Whether an operation takes a value of this type and an integer, and gives one of that. It fails where memory is wanting.
fn works_at(
    judge: &Judge<'_>,
    operation: Operation,
    whole: &Sized,
    gives: &Sized,
) -> Result<bool, AllocError>
    ensures { IfOk result (λ answer. answer ≡ judged.works_at judge.now operation whole.now gives.now) }
{
    let old = copy_sized(judge.alloc, whole)?;
    let sources = [Source::Slot(0), Source::Slot(1)];
    let types = [old, Sized::Int];
    works(judge, operation, &sources, &types, gives)
}

/// Whether an operation takes a value of this type and two integers, and gives one of that. It fails where memory is wanting.
fn works_between(
    judge: &Judge<'_>,
    operation: Operation,
    whole: &Sized,
    gives: &Sized,
) -> Result<bool, AllocError>
    ensures { IfOk result (λ answer. answer ≡ judged.works_between judge.now operation whole.now gives.now) }
{
    let old = copy_sized(judge.alloc, whole)?;
    let sources = [Source::Slot(0), Source::Slot(1), Source::Slot(2)];
    let types = [old, Sized::Int, Sized::Int];
    works(judge, operation, &sources, &types, gives)
}

/// Whether a part on this way can be taken out of a value of this type. It fails where memory is wanting.
fn is_taken(judge: &Judge<'_>, way: &Way, whole: &Sized) -> Result<bool, AllocError>
    ensures { IfOk result (λ answer. answer ≡ here.is_taken judge.now way.now whole.now) }
{
    let part = way_type(judge.alloc, judge.setting.types, way, whole)?;
    match way {
        Way::Field(_, field) => works_on(judge, Operation::Field(*field), whole, &part),
        Way::Item => works_at(judge, Operation::Item, whole, &part),
        Way::Slice => works_between(judge, Operation::Slice, whole, &part),
    }
}

/// Whether one of this type can be put back. It fails where memory is wanting.
#[tactic(auto, using(crate::proofs::Fixed::fixed))]
fn is_put(judge: &Judge<'_>, way: &Way, whole: &Sized, part: &Sized) -> Result<bool, AllocError>
    ensures { IfOk result (λ answer. answer ≡ here.is_put judge.now way.now whole.now part.now) }
{
    let old = copy_sized(judge.alloc, whole)?;
    let new = copy_sized(judge.alloc, part)?;
    match way {
        Way::Field(_, field) => works(
            judge,
            Operation::WithField(*field),
            &[Source::Slot(0), Source::Slot(1)],
            &[old, new],
            whole,
        ),
        Way::Item => works(
            judge,
            Operation::WithItem,
            &[Source::Slot(0), Source::Slot(1), Source::Slot(2)],
            &[old, Sized::Int, new],
            whole,
        ),
        Way::Slice => works(
            judge,
            Operation::WithSlice,
            &[
                Source::Slot(0),
                Source::Slot(1),
                Source::Slot(2),
                Source::Slot(3),
            ],
            &[old, Sized::Int, Sized::Int, new],
            whole,
        ),
    }
}

/// Whether a value of this type gets a new part on these ways. It fails where memory is wanting.
fn is_replaced(
    judge: &Judge<'_>,
    suffixes: &[Suffix],
    whole: &Sized,
    new: &Sized,
) -> Result<bool, AllocError>
    ensures { IfOk result (λ answer. answer ≡ here.replaces judge.now suffixes.now whole.now new.now) }
{
    match suffixes {
        [] => Ok(true),
        [last] => is_put(judge, &last.way, whole, new),
        [first, rest @ ..] => {
            let part = way_type(judge.alloc, judge.setting.types, &first.way, whole)?;
            let begins = is_taken(judge, &first.way, whole)?;
            let one = is_replaced(judge, rest, &part, new)?;
            let other = is_put(judge, &first.way, whole, &part)?;
            let goes = both(one, other);
            let all = both(begins, goes);
            Ok(all)
        }
    }
}

/// Whether so does a value of what a case gives. It fails where memory is wanting.
fn is_case_replaced(
    judge: &Judge<'_>,
    suffixes: &[Suffix],
    case: &Case,
    new: &Sized,
) -> Result<bool, AllocError>
    ensures { IfOk result (λ answer. answer ≡ judged.case_replaced judge.now suffixes.now case.now new.now) }
{
    let first = are_small(case.picked.as_slice());
    let second = is_known(judge, &case.gives)?;
    let one = both(first, second);
    let other = is_replaced(judge, suffixes, &case.gives, new)?;
    let all = both(one, other);
    Ok(all)
}

/// Whether so do values of what all these cases give. It fails where memory is wanting.
#[tactic(auto, using(crate::proofs::Bools::chains))]
fn are_replaced(
    judge: &Judge<'_>,
    suffixes: &[Suffix],
    cases: &[Case],
    new: &Sized,
) -> Result<bool, AllocError>
    ensures { IfOk result (λ answer. answer ≡ cases_typed judge.now (λ c. here.replaces judge.now suffixes.now c.gives new.now) cases.now) }
{
    match cases {
        [] => Ok(true),
        [first, rest @ ..] => {
            let one = is_case_replaced(judge, suffixes, first, new)?;
            let other = are_replaced(judge, suffixes, rest, new)?;
            let all = both(one, other);
            Ok(all)
        }
    }
}

/// Whether so do values of what all these cases give, with new parts of what those give. It fails where memory is wanting.
pub fn all_replaced(
    judge: &Judge<'_>,
    suffixes: &[Suffix],
    old: &[Case],
    new: &[Case],
) -> Result<bool, AllocError>
    ensures { IfOk result (λ answer. answer ≡ here.replaces_all judge.now suffixes.now old.now (typing.gives_in new.now)) }
{
    match new {
        [] => Ok(true),
        [first, rest @ ..] => {
            let one = are_replaced(judge, suffixes, old, &first.gives)?;
            let other = all_replaced(judge, suffixes, old, rest)?;
            let all = both(one, other);
            Ok(all)
        }
    }
}
