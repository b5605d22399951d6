//! What facts tell of the combinations of split variables.
ghost use Rattle.std.specs.Prelude.{◌≡◌, ◌&&◌, ◌||◌, IfOk, OnOk, map};
ghost use Rattle.std.specs.List.{list_all};
ghost use Rattle.value_indices.specs.Force.{IsInForce};
ghost use Rattle.value_indices.specs.Walking.{Written, step_read};
ghost use Rattle.size_values.specs.Numbers.{known_of, meant};
ghost use Rattle.size_splits.specs.Telling as spec;

use crate::force::follow;
use crate::names::names_it;
use sail_base::Items;
use sail_types::{Con, Num, copy_con};
use size_values::{Picked, Variables, first_free};
use std::alloc::{AllocError, Global};
use value_indices::{Fact, Step};

/// Whether each variable of a number is constant.
fn is_constant(number: &Num, variables: &Variables<'_>) -> bool
    ensures { result ≡ spec.is_constant (meant variables.now) number.now }
{
    match first_free(number, variables) {
        None => true,
        Some(_) => false,
    }
}

/// Whether each variable of both numbers is.
fn are_constant(number: &Num, other: &Num, variables: &Variables<'_>) -> bool
    ensures { result ≡ (spec.is_constant (meant variables.now) number.now && spec.is_constant (meant variables.now) other.now) }
{
    is_constant(number, variables) && is_constant(other, variables)
}

/// Whether each variable of a condition is.
#[cycle(all_constant)]
fn all_constant(condition: &Con, variables: &Variables<'_>) -> bool
    ensures { result ≡ spec.all_constant (meant variables.now) condition.now }
{
    match condition {
        Con::Truth(_) => true,
        Con::Holds(_) => false,
        Con::Compare(_, left, right) => are_constant(left, right, variables),
        Con::OneOf(number, _) => is_constant(number, variables),
        Con::Not(part) => all_constant(part.get(), variables),
        Con::All(parts) => each_constant(parts.as_slice(), variables),
        Con::Any(parts) => each_constant(parts.as_slice(), variables),
    }
}

/// Whether each variable of these conditions is.
#[cycle(all_constant)]
fn each_constant(conditions: &[Con], variables: &Variables<'_>) -> bool
    ensures { result ≡ list_all (λ is. is) (map (spec.all_constant (meant variables.now)) conditions.now) }
{
    for condition in conditions {
        if !all_constant(condition, variables) {
            return false;
        }
    }
    true
}

/// Whether a condition names one of these variables.
fn names_one(split: &[u32], condition: &Con) -> bool
    ensures { result ≡ spec.names_one split.now condition.now }
{
    for variable in split {
        if names_it(*variable, condition) {
            return true;
        }
    }
    false
}

/// Whether a condition tells something, where these variables are split, and constant too.
fn tells(condition: &Con, split: &[u32], variables: &Variables<'_>) -> bool
    ensures { result ≡ (spec.all_constant (meant variables.now) condition.now || spec.names_one split.now condition.now) }
{
    all_constant(condition, variables) || names_one(split, condition)
}

/// A number for each of these variables. It fails where memory is wanting.
fn any_numbers(alloc: Global, split: &[u32]) -> Result<Items<Picked>, AllocError>
    ensures { IfOk result (λ made. made ≡ map spec.any_number split.now) }
{
    let mut made = Items::new(alloc);
    for variable in split {
        let variable = *variable;
        made.push(Picked {
            variable,
            number: 0,
        })?;
    }
    Ok(made)
}

/// What a condition tells where these numbers are known, and these variables split. It fails where memory is wanting.
fn told_condition(
    alloc: Global,
    numbers: &[Option<i128>],
    split: &[u32],
    condition: &Con,
) -> Result<Con, AllocError>
    ensures { IfOk result (λ made. made ≡ spec.told_condition (known_of numbers.now) split.now condition.now) }
{
    let any = any_numbers(alloc, split)?;
    let variables = Variables::Known(numbers, any.as_slice());
    if tells(condition, split, &variables) {
        copy_con(alloc, condition)
    } else {
        Ok(Con::Truth(true))
    }
}

/// What a fact tells there. It fails where memory is wanting.
fn told(
    alloc: Global,
    numbers: &[Option<i128>],
    split: &[u32],
    fact: &Fact,
) -> Result<Fact, AllocError>
    ensures { IfOk result (λ made. made ≡ spec.told (known_of numbers.now) split.now fact.now) }
{
    match fact {
        Fact::Holds(condition) => {
            let condition = told_condition(alloc, numbers, split, condition)?;
            Ok(Fact::Holds(condition))
        }
        Fact::IsGiven(variable) => Ok(Fact::IsGiven(*variable)),
    }
}

/// A step that brings something into force, by what that tells there. It fails where memory is wanting.
fn told_step(
    alloc: Global,
    numbers: &[Option<i128>],
    split: &[u32],
    step: &Step,
) -> Result<Option<Step>, AllocError>
    ensures { IfOk result (λ made. made ≡ spec.told_step (known_of numbers.now) split.now step.now) }
{
    match step {
        Step::Assumes(fact) => {
            let fact = told(alloc, numbers, split, fact)?;
            Ok(Some(Step::Assumes(fact)))
        }
        Step::Claims(condition) => {
            let condition = told_condition(alloc, numbers, split, condition)?;
            Ok(Some(Step::Claims(condition)))
        }
        _ => Ok(None),
    }
}

/// What is in force behind this step, too, is kept by what it tells of the combinations where these numbers are known, and these variables
/// split. It fails where memory is wanting.
pub fn follow_telling(
    alloc: Global,
    numbers: &[Option<i128>],
    split: &[u32],
    step: &Step,
    facts: &mut Vec<Fact>,
    marks: &mut Items<usize>,
) -> Result<(), AllocError>
    ensures { OnOk result ((w : Written)
        → IsInForce (spec.told_in (known_of numbers.now) split.now w) facts.old.items marks.old
        → IsInForce (spec.told_in (known_of numbers.now) split.now (step_read w step.now)) facts.new.items marks.new) }
{
    match told_step(alloc, numbers, split, step)? {
        Some(told) => follow(alloc, &told, facts, marks)?,
        None => follow(alloc, step, facts, marks)?,
    }
    Ok(())
}
