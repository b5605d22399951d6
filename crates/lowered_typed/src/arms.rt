//! Whether arms fit the types of what they match.
ghost use Rattle.std.specs.Prelude.{◌≡◌, ◌++◌, IfOk, OnOk};
ghost use Rattle.lowered_pieces.specs.Arms.{steps_in};
ghost use Rattle.lowered_steps.specs.Hands.{types_of};
ghost use Rattle.lowered_steps.specs.Setting.{number_for, ways_for};
ghost use Rattle.lowered_pieces.specs.Forms.{cases_ends};
ghost use Rattle.lowered_typed.specs.Here as here;
ghost use Rattle.lowered_typed.specs.Judged as judged;

use crate::calls::may_turn;
use crate::cases::is_known;
use crate::heads::{is_head, push_head};
use crate::signs::Judge;
use crate::works::{are_small, both, comes, joined};
use lowered_steps::Ends;
use sail_base::{Items, Text};
use sail_core::{Arm, Step};
use size_values::{Sized, copy_sized};
use sized_nodes::Case;
use std::alloc::AllocError;

/// Whether all types have numbers. It fails where there are 2^32 types or more.
fn are_known(judge: &Judge<'_>, types: &[Sized]) -> Result<bool, AllocError>
    ensures { IfOk result (λ answer. answer ≡ here.are_known judge.now types.now) }
{
    match types {
        [] => Ok(true),
        [first, rest @ ..] => {
            let one = is_known(judge, first)?;
            let other = are_known(judge, rest)?;
            let all = both(one, other);
            Ok(all)
        }
    }
}

/// The type of a value of an arm by its number; that of `()` where there is none. It fails where memory is wanting.
#[tactic(auto, using(crate::proofs::Fixed::fixed))]
fn at_hand(judge: &Judge<'_>, types: &[Sized], value: u32) -> Result<Sized, AllocError>
    ensures { IfOk result (λ typ. typ ≡ here.typ_at_hand judge.now types.now value) }
{
    match types {
        [] => Ok(Sized::Unit),
        [first, rest @ ..] => {
            if value == 0 {
                copy_sized(judge.alloc, first)
            } else {
                at_hand(judge, rest, value - 1)
            }
        }
    }
}

/// The number of the type that a direction takes. It fails where there are 2^32 types or more.
fn taken_number(judge: &Judge<'_>, direction: u32) -> Result<u32, AllocError>
    ensures { IfOk result (λ number. number ≡ number_for judge.now.setting.now (ways_for judge.now.setting.now direction).takes) }
{
    match judge.setting.direction(direction) {
        Some(mapped) => judge.setting.number(&mapped.takes),
        None => judge.setting.number(&Sized::Never),
    }
}

/// The type of the option that a direction gives. It fails where memory is wanting.
fn given_option(judge: &Judge<'_>, direction: u32) -> Result<Sized, AllocError>
    ensures { IfOk result (λ typ. typ ≡ (ways_for judge.now.setting.now direction).gives) }
{
    match judge.setting.direction(direction) {
        Some(mapped) => copy_sized(judge.alloc, &mapped.gives),
        None => Ok(Sized::Never),
    }
}

/// Whether a direction may be asked with a value of this type. It fails where there are 2^32 types or more.
fn may_see(judge: &Judge<'_>, direction: u32, typ: &Sized) -> Result<bool, AllocError>
    ensures { IfOk result (λ answer. answer ≡ here.sees_right judge.now direction typ.now) }
{
    let first = !judge.signs.is_pure;
    let one = may_turn(judge, direction);
    let from = judge.setting.number(typ)?;
    let to = taken_number(judge, direction)?;
    let other = comes(judge, from, to);
    let rest = both(one, other);
    let all = both(first, rest);
    Ok(all)
}

/// Whether a step of an arm fits, where its values have these types. It fails where memory is wanting.
fn is_step(judge: &Judge<'_>, step: &Step, types: &[Sized]) -> Result<bool, AllocError>
    ensures { IfOk result (λ answer. answer ≡ here.step_right judge.now step.now types.now) }
{
    match step {
        Step::Opens(value, head, count) => {
            let whole = at_hand(judge, types, *value)?;
            is_head(judge, &whole, head, *count)
        }
        Step::Names(_, _) => Ok(true),
        Step::Sees(value, direction) => {
            let whole = at_hand(judge, types, *value)?;
            may_see(judge, *direction, &whole)
        }
    }
}

/// The types of what a step takes out come behind others. They fail where memory is wanting.
fn push_step(
    judge: &Judge<'_>,
    step: &Step,
    types: &[Sized],
    parts: &mut Items<Sized>,
) -> Result<(), AllocError>
    ensures { OnOk result (parts.new ≡ parts.old ++ here.step_types judge.now step.now types.now) }
{
    match step {
        Step::Opens(value, head, count) => {
            let whole = at_hand(judge, types, *value)?;
            push_head(judge, &whole, head, *count, parts)
        }
        Step::Names(_, _) => Ok(()),
        Step::Sees(_, direction) => {
            let option = given_option(judge, *direction)?;
            parts.push(option)
        }
    }
}

/// The types of what a step takes out. They fail where memory is wanting.
fn step_types(judge: &Judge<'_>, step: &Step, types: &[Sized]) -> Result<Items<Sized>, AllocError>
    ensures { IfOk result (λ parts. parts ≡ here.step_types judge.now step.now types.now) }
{
    let mut parts = Items::new(judge.alloc);
    push_step(judge, step, types, &mut parts)?;
    Ok(parts)
}

/// Whether the steps of an arm fit, where its values begin with these types; those that it takes out come behind them. It fails where memory is wanting.
fn are_steps(judge: &Judge<'_>, steps: &[Step], types: &[Sized]) -> Result<bool, AllocError>
    ensures { IfOk result (λ answer. answer ≡ here.steps_right judge.now steps.now types.now) }
{
    match steps {
        [] => Ok(true),
        [first, rest @ ..] => {
            let begins = is_step(judge, first, types)?;
            let parts = step_types(judge, first, types)?;
            let taken = parts.as_slice();
            let one = are_known(judge, taken)?;
            let inside = joined(judge.alloc, types, taken)?;
            let behind = inside.as_slice();
            let other = are_steps(judge, rest, behind)?;
            let goes = both(one, other);
            let all = both(begins, goes);
            Ok(all)
        }
    }
}

/// The steps of a flat arm; none of another.
fn steps_of(arm: &Arm) -> &[Step]
    ensures { result.now ≡ steps_in arm.now }
{
    match arm {
        Arm::Flat(_, steps) => steps.as_slice(),
        Arm::Nested(_) => &[],
    }
}

/// Whether an arm fits values of these types. It fails where memory is wanting.
pub fn is_arm_typed(judge: &Judge<'_>, arm: &Arm, given: &[Sized]) -> Result<bool, AllocError>
    ensures { IfOk result (λ answer. answer ≡ here.arm_right judge.now arm.now given.now) }
{
    let one = are_known(judge, given)?;
    let other = are_steps(judge, steps_of(arm), given)?;
    let all = both(one, other);
    Ok(all)
}

/// Whether an arm fits a value of what a case gives. It fails where memory is wanting.
fn is_given(judge: &Judge<'_>, arm: &Arm, case: &Case) -> Result<bool, AllocError>
    ensures { IfOk result (λ answer. answer ≡ judged.given_right judge.now arm.now case.now) }
{
    let one = are_small(case.picked.as_slice());
    let other = is_arm_typed(judge, arm, std::slice::from_ref(&case.gives))?;
    let all = both(one, other);
    Ok(all)
}

/// Whether an arm fits a value of what each case gives. It fails where memory is wanting.
#[tactic(auto, using(crate::proofs::Bools::chains))]
fn are_given(judge: &Judge<'_>, arm: &Arm, cases: &[Case]) -> Result<bool, AllocError>
    ensures { IfOk result (λ answer. answer ≡ here.ends_right judge.now arm.now (cases_ends cases.now)) }
{
    match cases {
        [] => Ok(true),
        [first, rest @ ..] => {
            let one = is_given(judge, arm, first)?;
            let other = are_given(judge, arm, rest)?;
            let all = both(one, other);
            Ok(all)
        }
    }
}

/// Whether an arm fits a value of each of these types. It fails where memory is wanting.
pub fn is_end_typed(judge: &Judge<'_>, arm: &Arm, ends: &Ends<'_>) -> Result<bool, AllocError>
    ensures { IfOk result (λ answer. answer ≡ here.ends_right judge.now arm.now (types_of ends.now)) }
{
    match ends {
        Ends::Unsaid => Ok(true),
        Ends::Cases(cases) => are_given(judge, arm, *cases),
        Ends::One(typ) => is_arm_typed(judge, arm, std::slice::from_ref(typ)),
    }
}

/// Whether arms fit a value of each of these types. It fails where memory is wanting.
pub fn are_ends_typed(judge: &Judge<'_>, arms: &[Arm], ends: &Ends<'_>) -> Result<bool, AllocError>
    ensures { IfOk result (λ answer. answer ≡ judged.all_end_right judge.now arms.now (types_of ends.now)) }
{
    for arm in arms {
        let one = is_end_typed(judge, arm, ends)?;
        if !one {
            return Ok(false);
        }
    }
    Ok(true)
}

/// Whether arms fit values of these types. It fails where memory is wanting.
pub fn are_arms_typed(judge: &Judge<'_>, arms: &[Arm], given: &[Sized]) -> Result<bool, AllocError>
    ensures { IfOk result (λ answer. answer ≡ judged.all_given_right judge.now arms.now given.now) }
{
    for arm in arms {
        let one = is_arm_typed(judge, arm, given)?;
        if !one {
            return Ok(false);
        }
    }
    Ok(true)
}

/// The type of what a name holds, the first that is so called, where the values of an arm begin with these types; none where there is no such name. It fails
/// where memory is wanting.
#[cycle(name_type)]
pub fn name_type(
    judge: &Judge<'_>,
    steps: &[Step],
    types: &[Sized],
    text: &Text,
) -> Result<Option<Sized>, AllocError>
    ensures { IfOk result (λ typ. typ ≡ here.name_typ judge.now steps.now types.now text.now) }
{
    match steps {
        [] => Ok(None),
        [first, rest @ ..] => match first {
            Step::Names(value, name) => {
                if *name == *text {
                    let typ = at_hand(judge, types, *value)?;
                    Ok(Some(typ))
                } else {
                    name_type(judge, rest, types, text)
                }
            }
            Step::Opens(_, _, _) => behind_step(judge, first, rest, types, text),
            Step::Sees(_, _) => behind_step(judge, first, rest, types, text),
        },
    }
}

/// That of a name behind a step that opens a value. It fails where memory is wanting.
#[cycle(name_type)]
fn behind_step(
    judge: &Judge<'_>,
    first: &Step,
    rest: &[Step],
    types: &[Sized],
    text: &Text,
) -> Result<Option<Sized>, AllocError>
    ensures { IfOk result (λ typ. typ ≡ here.name_typ judge.now rest.now (types.now ++ here.step_types judge.now first.now types.now) text.now) }
{
    let parts = step_types(judge, first, types)?;
    let all = joined(judge.alloc, types, parts.as_slice())?;
    name_type(judge, rest, all.as_slice(), text)
}
