//! The numbers that an opened variable takes.
ghost use Rattle.std.specs.Prelude.{◌≡◌, [], IfOk, OnOk, map};
ghost use Rattle.std.specs.List.{list_any};
ghost use Rattle.std.specs.Ordering.{int_eq};
ghost use Rattle.sail_types.specs.declared.numbers.Con.{out-Con};
ghost use Rattle.size_values.specs.Numbers.{meant};
ghost use Rattle.size_splits.specs.Reading.{pointed};
ghost use Rattle.size_splits.specs.Splits as spec;

use crate::names::{is_variable, names_it};
use sail_base::Items;
use sail_types::{Comparison, Con};
use size_values::{Variables, value_of};
use std::alloc::{AllocError, Global};

/// The integers from one up to another, if they are at most so many; of an empty range the lower end alone. It fails where memory is
/// wanting.
fn up_to(
    alloc: Global,
    count: u32,
    low: i128,
    high: i128,
) -> Result<Option<Items<i128>>, AllocError>
    ensures { IfOk result (λ made. made ≡ spec.up_to count low high) }
{
    let mut made = Items::new(alloc);
    let mut next = low;
    for _at in 0..count {
        made.push(next)?;
        if next >= high {
            return Ok(Some(made));
        }
        next += 1;
    }
    Ok(None)
}

/// The same of at most 64.
#[tactic(auto, unfolding(crate::specs::Splits::few_from))]
fn few_from(alloc: Global, low: i128, high: i128) -> Result<Option<Items<i128>>, AllocError>
    ensures { IfOk result (λ made. made ≡ spec.few_from low high) }
{
    up_to(alloc, 64, low, high)
}

/// The same where there are both ends.
fn range_between(
    alloc: Global,
    low: Option<i128>,
    high: Option<i128>,
) -> Result<Option<Items<i128>>, AllocError>
    ensures { IfOk result (λ made. made ≡ spec.range_between low high) }
{
    match (low, high) {
        (Some(low), Some(high)) => few_from(alloc, low, high),
        _ => Ok(None),
    }
}

/// Whether it is `<=`.
fn is_at_most(how: Comparison) -> bool
    ensures { result ≡ spec.is_at_most how }
{
    match how {
        Comparison::LessEqual => true,
        _ => false,
    }
}

/// The constant that a condition says a variable isn't below.
fn lower_end(variables: &Variables<'_>, variable: u32, condition: &Con) -> Option<i128>
    ensures { result ≡ spec.lower_end (meant variables.now) variable (out-Con condition.now) }
{
    match condition {
        Con::Compare(how, low, number) => if is_at_most(*how) && is_variable(variable, number) {
            value_of(low, variables)
        } else {
            None
        },
        _ => None,
    }
}

/// The constant that a condition says a variable isn't above.
fn upper_end(variables: &Variables<'_>, variable: u32, condition: &Con) -> Option<i128>
    ensures { result ≡ spec.upper_end (meant variables.now) variable (out-Con condition.now) }
{
    match condition {
        Con::Compare(how, number, high) => if is_at_most(*how) && is_variable(variable, number) {
            value_of(high, variables)
        } else {
            None
        },
        _ => None,
    }
}

/// The range that a condition and the one behind it give a variable. It fails where memory is wanting.
fn range_of(
    alloc: Global,
    variables: &Variables<'_>,
    variable: u32,
    condition: &Con,
    behind: &[&Con],
) -> Result<Option<Items<i128>>, AllocError>
    ensures { IfOk result (λ made. made ≡ spec.range_of (meant variables.now) variable condition.now (map pointed behind.now)) }
{
    match behind {
        [] => Ok(None),
        [next, ..] => {
            let low = lower_end(variables, variable, condition);
            range_between(alloc, low, upper_end(variables, variable, next))
        }
    }
}

/// Whether an integer is one of these.
fn is_one_of(integer: i128, integers: &[i128]) -> bool
    ensures { result ≡ list_any (int_eq integer) integers.now }
{
    for other in integers {
        if integer == *other {
            return true;
        }
    }
    false
}

/// Puts an integer at the end, if it isn't there. The one error is want of memory.
fn push_once(made: &mut Items<i128>, integer: i128) -> Result<(), AllocError>
    ensures { OnOk result (made.new ≡ spec.one_more made.old integer) }
{
    if is_one_of(integer, made.as_slice()) {
        return Ok(());
    }
    made.push(integer)
}

/// These integers, each once, if they are at most 64. It fails where memory is wanting.
fn few_once(alloc: Global, integers: &[i128]) -> Result<Option<Items<i128>>, AllocError>
    ensures { IfOk result (λ made. made ≡ spec.at_most_64 (spec.once_more [] integers.now)) }
{
    let made = each_once(alloc, integers)?;
    if made.len() < 65 {
        Ok(Some(made))
    } else {
        Ok(None)
    }
}

/// These integers, each once, in order. It fails where memory is wanting.
fn each_once(alloc: Global, integers: &[i128]) -> Result<Items<i128>, AllocError>
    ensures { IfOk result (λ made. made ≡ spec.once_more [] integers.now) }
{
    let mut made = Items::new(alloc);
    for integer in integers {
        push_once(&mut made, *integer)?;
    }
    Ok(made)
}

/// The set in which a condition says that a variable is. It fails where memory is wanting.
fn set_in(alloc: Global, variable: u32, condition: &Con) -> Result<Option<Items<i128>>, AllocError>
    ensures { IfOk result (λ made. made ≡ spec.set_in variable (out-Con condition.now)) }
{
    match condition {
        Con::OneOf(number, choices) => if is_variable(variable, number) {
            few_once(alloc, choices.as_slice())
        } else {
            Ok(None)
        },
        _ => Ok(None),
    }
}

/// The set in which the first of these conditions that says so says that a variable is. It fails where memory is wanting.
fn first_set(
    alloc: Global,
    variable: u32,
    conditions: &[Con],
) -> Result<Option<Items<i128>>, AllocError>
    ensures { IfOk result (λ made. made ≡ spec.first_set variable conditions.now) }
{
    for condition in conditions {
        if let Some(set) = set_in(alloc, variable, condition)? {
            return Ok(Some(set));
        }
    }
    Ok(None)
}

/// The set in which a condition says that a variable is, by itself or as one of several. It fails where memory is wanting.
fn set_of(alloc: Global, variable: u32, condition: &Con) -> Result<Option<Items<i128>>, AllocError>
    ensures { IfOk result (λ made. made ≡ spec.set_of variable (out-Con condition.now)) }
{
    match condition {
        Con::All(parts) => first_set(alloc, variable, parts.as_slice()),
        _ => set_in(alloc, variable, condition),
    }
}

/// The numbers that a variable takes by a condition that names it and the one behind it. It fails where memory is wanting.
fn domain_at(
    alloc: Global,
    variables: &Variables<'_>,
    variable: u32,
    condition: &Con,
    behind: &[&Con],
) -> Result<Option<Items<i128>>, AllocError>
    ensures { IfOk result (λ made. made ≡ spec.domain_at (meant variables.now) variable condition.now (map pointed behind.now)) }
{
    match set_of(alloc, variable, condition)? {
        Some(set) => Ok(Some(set)),
        None => range_of(alloc, variables, variable, condition, behind),
    }
}

/// The numbers that a variable takes by the first of these conditions that names it; none where no condition does, and where it is neither
/// a set nor a constant range of at most 64. It fails where memory is wanting.
pub fn domain(
    alloc: Global,
    variables: &Variables<'_>,
    variable: u32,
    conditions: &[&Con],
) -> Result<Option<Items<i128>>, AllocError>
    ensures { IfOk result (λ made. made ≡ spec.domain (meant variables.now) variable (map pointed conditions.now)) }
{
    for at in 0..conditions.len() {
        if names_it(variable, conditions[at]) {
            let behind = &conditions[at + 1..];
            return domain_at(alloc, variables, variable, conditions[at], behind);
        }
    }
    Ok(None)
}
