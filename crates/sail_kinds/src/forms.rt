ghost use Rattle.std.specs.Prelude.{◌≡◌, [], ◌∷◌, Some, IfOk, OnOk};
ghost use Rattle.sail_types.specs.declared.numbers.Con.TheVariants as C;
ghost use Rattle.type_arguments.specs.declared.normal.Normal.TheVariants as N;
ghost use Rattle.sail_kinds.specs.Failures.{first_failure};
ghost use Rattle.sail_kinds.specs.Repeated.{clashes, is_none_of};
ghost use Rattle.sail_kinds.specs.Normal.{made_of, made_of_both, power_at as power_at_of, negated as negated_of, not_of as not_of_of, one_of as one_of_of};
ghost use Rattle.sail_kinds.specs.Normal.{computed as computed_of, connected as connected_of, is_connective as is_connective_of};
ghost use Rattle.sail_kinds.specs.Normal.{existential as existential_of, bound as bound_of, meant as meant_of};

use crate::error::TableError;
use crate::first::First;
use crate::kinds::{made, opened};
use crate::scope::Meaning;
use sail_base::{Boxed, Items, Place};
use sail_syntax::{Name, TypeOperator};
use sail_types::{Comparison, Con, Index, Num, Typ, add, multiply, power, small_power, subtract};
use std::alloc::{AllocError, Global};
use type_arguments::{Normal, applied};

/// 2 to a number, at the operator.
pub(crate) fn power_at(
    alloc: Global,
    place: Place,
    exponent: Option<Num>,
    first: &mut First,
) -> Result<Option<Normal>, AllocError>
    ensures failures { OnOk result (first.new.error ≡ first_failure first.old.error (made_of (power_at_of place) exponent).failures) }
    ensures normal { IfOk result (λ normal. normal ≡ (made_of (power_at_of place) exponent).normal) }
{
    let Some(exponent) = exponent else {
        return Ok(None);
    };
    if exponent.terms.is_empty() && small_power(exponent.constant).is_none() {
        first.note(TableError::IllKinded {
            place,
            mismatch: None,
        });
        return Ok(None);
    }
    Ok(Some(Normal::Number(power(alloc, exponent)?)))
}

/// The number with the other sign, at the operator.
pub(crate) fn negated(
    alloc: Global,
    place: Place,
    number: Option<Num>,
    first: &mut First,
) -> Result<Option<Normal>, AllocError>
    ensures failures { OnOk result (first.new.error ≡ first_failure first.old.error (made_of (negated_of place) number).failures) }
    ensures normal { IfOk result (λ normal. normal ≡ (made_of (negated_of place) number).normal) }
{
    let Some(number) = number else {
        return Ok(None);
    };
    let zero = Num::constant(alloc, 0);
    Ok(made(place, subtract(alloc, &zero, &number)?, first))
}

/// The opposite of a constraint.
pub(crate) fn not_of(alloc: Global, constraint: Option<Con>) -> Result<Option<Normal>, AllocError>
    ensures calm { (made_of not_of_of constraint).failures ≡ [] }
    ensures normal { IfOk result (λ normal. normal ≡ (made_of not_of_of constraint).normal) }
{
    match constraint {
        Some(c) => Ok(Some(Normal::Constraint(Con::Not(Boxed::new(alloc, c)?)))),
        None => Ok(None),
    }
}

/// A number that is one of these.
pub(crate) fn one_of(
    alloc: Global,
    number: Option<Num>,
    choices: &[i128],
) -> Result<Option<Normal>, AllocError>
    ensures calm { (made_of (one_of_of choices.now) number).failures ≡ [] }
    ensures normal { IfOk result (λ normal. normal ≡ (made_of (one_of_of choices.now) number).normal) }
{
    match number {
        Some(n) => {
            let choices = Items::from_slice(alloc, choices)?;
            Ok(Some(Normal::Constraint(Con::OneOf(n, choices))))
        }
        None => Ok(None),
    }
}

fn compared(how: Comparison, n: Num, m: Num) -> Option<Normal>
    ensures { result ≡ Some (N.Constraint (C.Compare how n m)) }
{
    Some(Normal::Constraint(Con::Compare(how, n, m)))
}

fn computed(
    alloc: Global,
    operator: TypeOperator,
    place: Place,
    n: Num,
    m: Num,
    first: &mut First,
) -> Result<Option<Normal>, AllocError>
    ensures failures { OnOk result (first.new.error ≡ first_failure first.old.error (computed_of operator place n m).failures) }
    ensures normal { IfOk result (λ normal. normal ≡ (computed_of operator place n m).normal) }
{
    match operator {
        TypeOperator::Star => Ok(made(place, multiply(alloc, &n, &m)?, first)),
        TypeOperator::Plus => Ok(made(place, add(alloc, &n, &m)?, first)),
        TypeOperator::Minus => Ok(made(place, subtract(alloc, &n, &m)?, first)),
        TypeOperator::Equal => Ok(compared(Comparison::Equal, n, m)),
        TypeOperator::NotEqual => Ok(compared(Comparison::NotEqual, n, m)),
        TypeOperator::Less => Ok(compared(Comparison::Less, n, m)),
        TypeOperator::LessEqual => Ok(compared(Comparison::LessEqual, n, m)),
        TypeOperator::Greater => Ok(compared(Comparison::Greater, n, m)),
        TypeOperator::GreaterEqual => Ok(compared(Comparison::GreaterEqual, n, m)),
        TypeOperator::And => Ok(None),
        TypeOperator::Or => Ok(None),
    }
}

/// Two numbers at an operator between numbers.
pub(crate) fn both_computed(
    alloc: Global,
    operator: TypeOperator,
    place: Place,
    left: Option<Num>,
    right: Option<Num>,
    first: &mut First,
) -> Result<Option<Normal>, AllocError>
    ensures failures { OnOk result (first.new.error ≡ first_failure first.old.error (made_of_both (computed_of operator place) left right).failures) }
    ensures normal { IfOk result (λ normal. normal ≡ (made_of_both (computed_of operator place) left right).normal) }
{
    match (left, right) {
        (Some(n), Some(m)) => computed(alloc, operator, place, n, m, first),
        _ => Ok(None),
    }
}

pub(crate) fn is_connective(operator: TypeOperator) -> bool
    ensures { result ≡ is_connective_of operator }
{
    match operator {
        TypeOperator::And => true,
        TypeOperator::Or => true,
        _ => false,
    }
}

fn pair(alloc: Global, c: Con, d: Con) -> Result<Items<Con>, AllocError>
    ensures { IfOk result (λ two. two ≡ c ∷ d ∷ []) }
{
    let mut operands = Items::new(alloc);
    operands.push(c)?;
    operands.push(d)?;
    Ok(operands)
}

fn connected(alloc: Global, operator: TypeOperator, c: Con, d: Con) -> Result<Normal, AllocError>
    ensures calm { (connected_of operator c d).failures ≡ [] }
    ensures normal { IfOk result (λ normal. Some normal ≡ (connected_of operator c d).normal) }
{
    let operands = pair(alloc, c, d)?;
    match operator {
        TypeOperator::And => Ok(Normal::Constraint(Con::All(operands))),
        _ => Ok(Normal::Constraint(Con::Any(operands))),
    }
}

/// Two constraints at `&` or `|`.
pub(crate) fn both_connected(
    alloc: Global,
    operator: TypeOperator,
    left: Option<Con>,
    right: Option<Con>,
) -> Result<Option<Normal>, AllocError>
    ensures calm { OnOk result ((made_of_both (connected_of operator) left right).failures ≡ []) }
    ensures normal { IfOk result (λ normal. normal ≡ (made_of_both (connected_of operator) left right).normal) }
{
    match (left, right) {
        (Some(c), Some(d)) => Ok(Some(connected(alloc, operator, c, d)?)),
        _ => Ok(None),
    }
}

/// One binder for each name around a type, the last of which is the innermost and has the constraint.
fn existential(alloc: Global, names: &[Name], constraint: Con, typ: Typ) -> Result<Typ, AllocError>
    ensures { IfOk result (λ t. t ≡ existential_of names.now constraint typ) }
{
    let mut constraint = constraint;
    let mut typ = typ;
    let mut left = names.len();
    while left > 0 {
        left -= 1;
        let part = Boxed::new(alloc, typ)?;
        typ = Typ::Exists(names[left].text.clone()?, constraint, part);
        constraint = Con::Truth(true);
    }
    Ok(typ)
}

/// A list of variables around a type and its constraint; nothing where two of them have one name.
pub(crate) fn bound(
    alloc: Global,
    names: &[Name],
    is_clear: bool,
    constraint: Option<Con>,
    typ: Option<Typ>,
) -> Result<Option<Normal>, AllocError>
    requires { is_clear ≡ is_none_of (clashes names.now) }
    ensures calm { OnOk result ((made_of_both (bound_of names.now) constraint typ).failures ≡ []) }
    ensures normal { IfOk result (λ normal. normal ≡ (made_of_both (bound_of names.now) constraint typ).normal) }
{
    match (constraint, typ) {
        (Some(c), Some(t)) => {
            if is_clear {
                Ok(Some(Normal::Typ(existential(alloc, names, c, t)?)))
            } else {
                Ok(None)
            }
        }
        _ => Ok(None),
    }
}

/// What a type's meaning is at these arguments, at its name.
pub(crate) fn meant(
    alloc: Global,
    place: Place,
    meaning: &Meaning,
    indices: Items<Index>,
    types: Items<Typ>,
    first: &mut First,
) -> Result<Option<Normal>, AllocError>
    ensures failures { OnOk result (first.new.error ≡ first_failure first.old.error (meant_of place meaning.now indices types).failures) }
    ensures normal { IfOk result (λ normal. normal ≡ (meant_of place meaning.now indices types).normal) }
{
    match meaning {
        Meaning::Alias(normal) => {
            let normal = applied(alloc, indices.as_slice(), types.as_slice(), normal)?;
            Ok(opened(place, normal, first))
        }
        Meaning::Defined(number) => Ok(Some(Normal::Typ(Typ::Named(*number, indices, types)))),
        Meaning::Unknown => Ok(None),
    }
}
