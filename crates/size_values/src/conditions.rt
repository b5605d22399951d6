//! Conditions under what their variables are.
ghost use Rattle.std.specs.Prelude.{◌≡◌, map, true, false};
ghost use Rattle.std.specs.List.{list_any};
ghost use Rattle.std.specs.Ordering.{int_eq};
ghost use Rattle.sail_types.specs.Numbers.{compares as compares_so};
ghost use Rattle.value_indices.specs.Steps.{conditions};
ghost use Rattle.size_values.specs.Numbers as spec;

use crate::numbers::value_of;
use crate::small::{both, either};
use crate::variables::Variables;
use sail_types::{Comparison, Con, Num};
use value_indices::Fact;

/// Whether two integers compare so.
fn compares(how: Comparison, first: i128, second: i128) -> bool
    ensures { result ≡ compares_so how first second }
{
    match how {
        Comparison::Less => first < second,
        Comparison::LessEqual => first <= second,
        Comparison::Equal => first == second,
        Comparison::NotEqual => first != second,
        Comparison::GreaterEqual => first >= second,
        Comparison::Greater => first > second,
    }
}

/// Whether an integer is one of these.
fn is_one_of(integer: i128, integers: &[i128]) -> bool
    ensures { result ≡ list_any (int_eq integer) integers.now }
{
    for other in integers {
        if integer == *other {
            return true;
        }
    }
    false
}

/// Whether two numbers compare so, where both are constant.
fn compared(how: Comparison, t: &Num, u: &Num, variables: &Variables<'_>) -> Option<bool>
    ensures { result ≡ spec.compared (spec.meant variables.now) how t.now u.now }
{
    let Some(first) = value_of(t, variables) else {
        return None;
    };
    match value_of(u, variables) {
        None => None,
        Some(second) => Some(compares(how, first, second)),
    }
}

/// Whether a condition is true; none where not all of it is constant, and where a number past the largest integer would be in it.
#[cycle(truth)]
pub fn truth_of(condition: &Con, variables: &Variables<'_>) -> Option<bool>
    ensures { result ≡ spec.truth_of (spec.meant variables.now) condition.now }
{
    match condition {
        Con::Truth(truth) => Some(*truth),
        Con::Holds(_) => None,
        Con::Compare(how, t, u) => compared(*how, t, u, variables),
        Con::OneOf(t, integers) => match value_of(t, variables) {
            None => None,
            Some(integer) => Some(is_one_of(integer, integers.as_slice())),
        },
        Con::Not(inner) => match truth_of(inner.get(), variables) {
            None => None,
            Some(truth) => Some(!truth),
        },
        Con::All(parts) => every(parts.as_slice(), variables),
        Con::Any(parts) => some(parts.as_slice(), variables),
    }
}

/// Whether each of them is.
#[cycle(truth)]
fn every(parts: &[Con], variables: &Variables<'_>) -> Option<bool>
    ensures { result ≡ spec.every true (map (spec.truth_of (spec.meant variables.now)) parts.now) }
{
    let mut before = true;
    for part in parts {
        match truth_of(part, variables) {
            None => return None,
            Some(truth) => before = both(before, truth),
        }
    }
    Some(before)
}

/// Whether one of them is.
#[cycle(truth)]
fn some(parts: &[Con], variables: &Variables<'_>) -> Option<bool>
    ensures { result ≡ spec.some false (map (spec.truth_of (spec.meant variables.now)) parts.now) }
{
    let mut before = false;
    for part in parts {
        match truth_of(part, variables) {
            None => return None,
            Some(truth) => before = either(before, truth),
        }
    }
    Some(before)
}

/// Whether a condition isn't constant and false.
fn is_possible(condition: &Con, variables: &Variables<'_>) -> bool
    ensures { result ≡ spec.not_false (spec.truth_of (spec.meant variables.now) condition.now) }
{
    match truth_of(condition, variables) {
        None => true,
        Some(truth) => truth,
    }
}

/// Whether no condition among these facts is constant and false.
pub fn may_hold(facts: &[Fact], variables: &Variables<'_>) -> bool
    ensures { result ≡ spec.may_hold (spec.meant variables.now) (conditions facts.now) }
{
    for fact in facts {
        match fact {
            Fact::Holds(condition) => {
                if !is_possible(condition, variables) {
                    return false;
                }
            }
            Fact::IsGiven(_) => {}
        }
    }
    true
}
