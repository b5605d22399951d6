//! What exponents owe where they are written.
ghost use Rattle.std.specs.Prelude.{◌≡◌, [], ◌∷◌, IfOk, OnOk, pos, option_map};
ghost use Rattle.std.specs.Option.{option_copied};
ghost use Rattle.sail_types.specs.Sums.{constant, is_constant as is_constant_number};
ghost use Rattle.sail_core.specs.declared.written.WrittenNumber.{WrittenNumber};
ghost use Rattle.value_indices.specs.Opening as opening;
ghost use Rattle.value_indices.specs.Walking as walk;
ghost use Rattle.pattern_leaves.specs.Settings as settings;

use crate::around::Around;
use sail_base::Items;
use sail_core::{Role, WrittenNumber};
use sail_types::{Con, Num, copy_num, read_number};
use std::alloc::{AllocError, Global};
use value_indices::{Walking, at_most};

/// One condition. It fails where memory is wanting.
pub fn one_condition(
    alloc: Global,
    condition: Option<Con>,
) -> Result<Items<Option<Con>>, AllocError>
    ensures { IfOk result (λ made. made ≡ condition ∷ []) }
{
    let mut conditions = Items::new(alloc);
    conditions.push(condition)?;
    Ok(conditions)
}

/// That a number isn't below 0. It fails where memory is wanting.
fn from_zero(alloc: Global, number: Option<&Num>) -> Result<Option<Con>, AllocError>
    ensures { IfOk result (λ made. made ≡ option_map (opening.at_most (constant (pos 0))) (option_copied number.entry)) }
{
    match number {
        None => Ok(None),
        Some(number) => {
            let number = copy_num(alloc, number)?;
            Ok(Some(at_most(Num::constant(alloc, 0), number)))
        }
    }
}

/// That a number isn't past the largest exponent. It fails where memory is wanting.
fn up_to_largest(alloc: Global, number: Option<&Num>) -> Result<Option<Con>, AllocError>
    ensures { IfOk result (λ made. made ≡ option_map (λ u. opening.at_most u (constant (pos 126))) (option_copied number.entry)) }
{
    match number {
        None => Ok(None),
        Some(number) => {
            let number = copy_num(alloc, number)?;
            Ok(Some(at_most(number, Num::constant(alloc, 126))))
        }
    }
}

/// That an exponent is from 0 to 126. It fails where memory is wanting.
fn fine_exponent(alloc: Global, number: Option<&Num>) -> Result<Items<Option<Con>>, AllocError>
    ensures { IfOk result (λ made. made ≡ settings.fine_exponent (option_copied number.entry)) }
{
    let mut conditions = Items::new(alloc);
    conditions.push(from_zero(alloc, number)?)?;
    conditions.push(up_to_largest(alloc, number)?)?;
    Ok(conditions)
}

/// Whether a number has no variables and no powers in it.
fn is_constant(number: &Num) -> bool
    ensures { result ≡ is_constant_number number.now }
{
    number.terms.is_empty()
}

/// What an exponent owes: nothing where it is constant. It fails where memory is wanting.
fn exponent_owed(alloc: Global, number: Option<&Num>) -> Result<Items<Option<Con>>, AllocError>
    ensures { IfOk result (λ made. made ≡ settings.exponent_owed (option_copied number.entry)) }
{
    match number {
        None => fine_exponent(alloc, None),
        Some(number) => {
            if is_constant(number) {
                Ok(Items::new(alloc))
            } else {
                fine_exponent(alloc, Some(number))
            }
        }
    }
}

/// What a number of a written type owes: an exponent alone owes something. It fails where memory is wanting.
pub fn number_owed(
    alloc: Global,
    around: &Around<'_>,
    number: &WrittenNumber,
) -> Result<Items<Option<Con>>, AllocError>
    ensures { IfOk result (λ made. made
        ≡ settings.number_owed (settings.around_of around.now) number.now (WrittenNumber.role number.now)) }
{
    match number.role {
        Role::Exponent => {
            let read = read_number(alloc, &number.number, around.numbers)?;
            exponent_owed(alloc, read.as_ref())
        }
        _ => Ok(Items::new(alloc)),
    }
}

/// Owes what the exponents of a written type owe, each at its place. The one error is want of memory.
pub fn owe_exponents(
    alloc: Global,
    around: &Around<'_>,
    numbers: &[WrittenNumber],
    walking: &mut Walking,
) -> Result<(), AllocError>
    ensures { OnOk result (walk.seen walking.new
        ≡ walk.run (settings.exponents_owed (settings.around_of around.now) numbers.now) (walk.seen walking.old)) }
{
    for number in numbers {
        let conditions = number_owed(alloc, around, number)?;
        walking.owe(alloc, number.place, conditions)?;
    }
    Ok(())
}
