//! Sizes, put behind others.
ghost use Rattle.std.specs.Prelude.{◌≡◌, ◌++◌, ◌∷◌, [], map, OnOk, Some};
ghost use Rattle.shape_rules.specs.Written.{sized, sizes_at, sizes_if, joined, is_exponent as is_of_exponent, exponents_in};

use sail_base::{Items, Place};
use sail_core::{Role, WrittenNumber};
use sail_types::{Num, Typ, copy_num};
use std::alloc::{AllocError, Global};

/// Puts a number of a written type behind others, where it stands for one. The one error is want of memory.
pub(crate) fn push_sized(
    role: Role,
    place: Place,
    number: Option<Num>,
    numbers: &mut Items<WrittenNumber>,
) -> Result<(), AllocError>
    ensures { OnOk result (numbers.new ≡ numbers.old ++ sized role place number) }
{
    let Some(number) = number else {
        return Ok(());
    };
    numbers.push(WrittenNumber {
        place,
        number,
        role,
    })
}

fn is_exponent(role: Role) -> bool
    ensures { result ≡ is_of_exponent role }
{
    match role {
        Role::Exponent => true,
        _ => false,
    }
}

fn push_if_exponent(
    number: WrittenNumber,
    numbers: &mut Items<WrittenNumber>,
) -> Result<(), AllocError>
    ensures { OnOk result (numbers.new ≡ numbers.old ++ exponents_in (number ∷ [])) }
{
    if is_exponent(number.role) {
        numbers.push(number)
    } else {
        Ok(())
    }
}

/// Puts the exponents among numbers behind others. The one error is want of memory.
pub(crate) fn push_exponents(
    found: Items<WrittenNumber>,
    numbers: &mut Items<WrittenNumber>,
) -> Result<(), AllocError>
    ensures { OnOk result (numbers.new ≡ numbers.old ++ exponents_in found) }
{
    for number in found.into_vec() {
        push_if_exponent(number, numbers)?;
    }
    Ok(())
}

/// Puts the widths and lengths of what a name stands for behind others, all at that name. The one error is want of memory.
pub(crate) fn push_sizes_if(
    alloc: Global,
    place: Place,
    typ: Option<Typ>,
    numbers: &mut Items<WrittenNumber>,
) -> Result<(), AllocError>
    ensures { OnOk result (numbers.new ≡ numbers.old ++ sizes_if place typ) }
{
    match typ {
        Some(typ) => push_sizes(alloc, place, &typ, numbers),
        None => Ok(()),
    }
}

#[cycle(sizes)]
fn push_sizes(
    alloc: Global,
    place: Place,
    typ: &Typ,
    numbers: &mut Items<WrittenNumber>,
) -> Result<(), AllocError>
    ensures { OnOk result (numbers.new ≡ numbers.old ++ sizes_at place typ.now) }
{
    match typ {
        Typ::Bits(n) => push_copied(alloc, Role::Width, place, n, numbers),
        Typ::Vector(n, item) => {
            push_copied(alloc, Role::Length, place, n, numbers)?;
            push_sizes(alloc, place, item.get(), numbers)
        }
        Typ::List(item) => push_sizes(alloc, place, item.get(), numbers),
        Typ::Tuple(parts) => push_each_sizes(alloc, place, parts.as_slice(), numbers),
        Typ::Named(_, _, arguments) => {
            push_each_sizes(alloc, place, arguments.as_slice(), numbers)
        }
        Typ::Exists(_, _, part) => push_sizes(alloc, place, part.get(), numbers),
        _ => Ok(()),
    }
}

#[cycle(sizes)]
fn push_each_sizes(
    alloc: Global,
    place: Place,
    types: &[Typ],
    numbers: &mut Items<WrittenNumber>,
) -> Result<(), AllocError>
    ensures { OnOk result (numbers.new ≡ numbers.old ++ joined (map (sizes_at place) types.now)) }
{
    for typ in types {
        push_sizes(alloc, place, typ, numbers)?;
    }
    Ok(())
}

fn push_copied(
    alloc: Global,
    role: Role,
    place: Place,
    number: &Num,
    numbers: &mut Items<WrittenNumber>,
) -> Result<(), AllocError>
    ensures { OnOk result (numbers.new ≡ numbers.old ++ sized role place (Some number.now)) }
{
    let number = copy_num(alloc, number)?;
    push_sized(role, place, Some(number), numbers)
}
