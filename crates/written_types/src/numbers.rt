ghost use Rattle.std.specs.Prelude.{◌≡◌, ◌++◌, map, option_map, IfOk, OnOk};
ghost use Rattle.sail_kinds.specs.Scopes.{within};
ghost use Rattle.shape_rules.specs.Written.{piece, pieces_numbers, piece_numbers_if, numbers_in, written, is_alias, meaning_is_alias, own_role, own_size, exponent, exponents_in, number_in};
ghost use Rattle.shape_rules.specs.Written.{compares_form, side, side_of};

use crate::reading::{number_in, typ_in};
use crate::sizes::{push_exponents, push_sized, push_sizes_if};
use sail_base::{Boxed, Items, Place};
use sail_core::{Role, Written, WrittenNumber};
use sail_kinds::{Binders, Meaning, Scope, builtin};
use sail_syntax::{TyExp, TypeOperator, TypePrefix};
use std::alloc::{AllocError, Global};

/// The numbers in a written type, in the order of the text: widths, lengths and sides of comparisons where they stand, each side behind
/// the numbers in it, exponents at their `^`, and the widths and lengths that come through a name that stands for another type, at that
/// name, behind the exponents in its arguments. The one error is want of memory.
pub fn numbers_in(
    alloc: Global,
    text: &TyExp,
    scope: &Scope<'_>,
) -> Result<Items<WrittenNumber>, AllocError>
    ensures { IfOk result (λ numbers. numbers ≡ numbers_in (within scope.now) text.now) }
{
    let mut numbers = Items::new(alloc);
    push_numbers(alloc, text, scope, &mut numbers)?;
    Ok(numbers)
}

/// A written type as the core has it; none where it stands for none. The one error is want of memory.
pub fn written(
    alloc: Global,
    text: &TyExp,
    scope: &Scope<'_>,
) -> Result<Option<Written>, AllocError>
    ensures { IfOk result (λ made. made ≡ written (within scope.now) text.now) }
{
    let Some(typ) = typ_in(alloc, text, scope)? else {
        return Ok(None);
    };
    let numbers = numbers_in(alloc, text, scope)?;
    Ok(Some(Written {
        place: text.place(),
        typ,
        numbers,
    }))
}

#[cycle(numbers)]
fn push_numbers(
    alloc: Global,
    text: &TyExp,
    scope: &Scope<'_>,
    numbers: &mut Items<WrittenNumber>,
) -> Result<(), AllocError>
    ensures { OnOk result (numbers.new ≡ numbers.old ++ numbers_in (within scope.now) text.now) }
{
    match text {
        TyExp::Named(name, arguments) => {
            if is_alias(alloc, name.text.as_str(), scope)? {
                push_exponents_in(alloc, arguments.as_slice(), scope, numbers)?;
                let typ = typ_in(alloc, text, scope)?;
                push_sizes_if(alloc, name.place, typ, numbers)
            } else {
                push_own(
                    alloc,
                    name.text.as_str(),
                    arguments.as_slice(),
                    scope,
                    numbers,
                )?;
                push_each(alloc, arguments.as_slice(), scope, numbers)
            }
        }
        TyExp::Prefix(place, prefix, part) => {
            let part = part.get();
            push_exponent(alloc, *prefix, *place, part, scope, numbers)?;
            push_numbers(alloc, part, scope, numbers)
        }
        TyExp::Infix {
            operator,
            left,
            right,
            ..
        } => {
            push_operand(alloc, *operator, left.get(), scope, numbers)?;
            push_operand(alloc, *operator, right.get(), scope, numbers)
        }
        TyExp::OneOf(_, part, _) => {
            let part = part.get();
            push_numbers(alloc, part, scope, numbers)?;
            push_side(alloc, part, scope, numbers)
        }
        TyExp::Tuple(_, parts) => push_each(alloc, parts.as_slice(), scope, numbers),
        TyExp::Exists {
            variables,
            constraint,
            typ,
            ..
        } => {
            let binders = Binders::Exists(variables.as_slice(), scope.variables());
            let inside = scope.with_variables(&binders);
            push_if(alloc, constraint, &inside, numbers)?;
            push_numbers(alloc, typ.get(), &inside, numbers)
        }
        _ => Ok(()),
    }
}

/// The numbers in an operand, and the operand where it is compared.
#[cycle(numbers)]
fn push_operand(
    alloc: Global,
    operator: TypeOperator,
    part: &TyExp,
    scope: &Scope<'_>,
    numbers: &mut Items<WrittenNumber>,
) -> Result<(), AllocError>
    ensures { OnOk result (numbers.new ≡ numbers.old
        ++ (numbers_in (within scope.now) part.now ++ side_of operator (piece part.now) (within scope.now))) }
{
    push_numbers(alloc, part, scope, numbers)?;
    push_side_of(alloc, operator, part, scope, numbers)
}

/// The exponents in the arguments of a name that stands for another type.
#[cycle(numbers)]
fn push_exponents_in(
    alloc: Global,
    arguments: &[TyExp],
    scope: &Scope<'_>,
    numbers: &mut Items<WrittenNumber>,
) -> Result<(), AllocError>
    ensures { OnOk result (numbers.new ≡ numbers.old ++ exponents_in (pieces_numbers (map piece arguments.now) (within scope.now))) }
{
    let mut found = Items::new(alloc);
    push_each(alloc, arguments, scope, &mut found)?;
    push_exponents(found, numbers)
}

#[cycle(numbers)]
fn push_each(
    alloc: Global,
    parts: &[TyExp],
    scope: &Scope<'_>,
    numbers: &mut Items<WrittenNumber>,
) -> Result<(), AllocError>
    ensures { OnOk result (numbers.new ≡ numbers.old ++ pieces_numbers (map piece parts.now) (within scope.now)) }
{
    for part in parts {
        push_numbers(alloc, part, scope, numbers)?;
    }
    Ok(())
}

#[cycle(numbers)]
fn push_if(
    alloc: Global,
    part: &Option<Boxed<TyExp>>,
    scope: &Scope<'_>,
    numbers: &mut Items<WrittenNumber>,
) -> Result<(), AllocError>
    ensures { OnOk result (numbers.new ≡ numbers.old ++ piece_numbers_if (option_map piece part.now) (within scope.now)) }
{
    match part {
        Some(part) => push_numbers(alloc, part.get(), scope, numbers),
        None => Ok(()),
    }
}

/// Puts the exponent behind `2 ^` behind others.
fn push_exponent(
    alloc: Global,
    prefix: TypePrefix,
    place: Place,
    part: &TyExp,
    scope: &Scope<'_>,
    numbers: &mut Items<WrittenNumber>,
) -> Result<(), AllocError>
    ensures { OnOk result (numbers.new ≡ numbers.old ++ exponent prefix place (number_in (within scope.now) part.now)) }
{
    match prefix {
        TypePrefix::Power => {
            let number = number_in(alloc, part, scope)?;
            push_sized(Role::Exponent, place, number, numbers)
        }
        _ => Ok(()),
    }
}

/// Puts an operand behind others, where it is compared.
fn push_side_of(
    alloc: Global,
    operator: TypeOperator,
    part: &TyExp,
    scope: &Scope<'_>,
    numbers: &mut Items<WrittenNumber>,
) -> Result<(), AllocError>
    ensures { OnOk result (numbers.new ≡ numbers.old ++ side_of operator (piece part.now) (within scope.now)) }
{
    if compares(operator) {
        push_side(alloc, part, scope, numbers)
    } else {
        Ok(())
    }
}

/// Puts a side of a comparison behind others.
fn push_side(
    alloc: Global,
    part: &TyExp,
    scope: &Scope<'_>,
    numbers: &mut Items<WrittenNumber>,
) -> Result<(), AllocError>
    ensures { OnOk result (numbers.new ≡ numbers.old ++ side (piece part.now) (within scope.now)) }
{
    let number = number_in(alloc, part, scope)?;
    push_sized(Role::Side, part.place(), number, numbers)
}

/// Whether an operator compares numbers.
fn compares(operator: TypeOperator) -> bool
    ensures { result ≡ compares_form operator }
{
    match operator {
        TypeOperator::Equal => true,
        TypeOperator::NotEqual => true,
        TypeOperator::Less => true,
        TypeOperator::LessEqual => true,
        TypeOperator::Greater => true,
        TypeOperator::GreaterEqual => true,
        _ => false,
    }
}

/// Puts the size that the first argument of a type of the language is behind others.
fn push_own(
    alloc: Global,
    name: &str,
    arguments: &[TyExp],
    scope: &Scope<'_>,
    numbers: &mut Items<WrittenNumber>,
) -> Result<(), AllocError>
    ensures { OnOk result (numbers.new ≡ numbers.old ++ own_size name.now (within scope.now) (map piece arguments.now)) }
{
    let [argument, ..] = arguments else {
        return Ok(());
    };
    let Some(role) = own_role(name) else {
        return Ok(());
    };
    let number = number_in(alloc, argument, scope)?;
    push_sized(role, argument.place(), number, numbers)
}

/// What the first argument of a type of the language is the size of.
fn own_role(name: &str) -> Option<Role>
    ensures { result ≡ own_role name.now }
{
    match name {
        "bits" => Some(Role::Width),
        "bitvector" => Some(Role::Width),
        "vector" => Some(Role::Length),
        _ => None,
    }
}

/// Whether the model defines a name to stand for another type. The one error is want of memory.
fn is_alias(alloc: Global, name: &str, scope: &Scope<'_>) -> Result<bool, AllocError>
    ensures { IfOk result (λ is. is ≡ is_alias name.now (within scope.now)) }
{
    if builtin(alloc, name)?.is_some() {
        return Ok(false);
    }
    match scope.named(name) {
        Some(typ) => Ok(stands_for_another(&typ.meaning)),
        None => Ok(false),
    }
}

fn stands_for_another(meaning: &Meaning) -> bool
    ensures { result ≡ meaning_is_alias meaning.now }
{
    match meaning {
        Meaning::Alias(_) => true,
        _ => false,
    }
}
