//! Whether the numbers by which the cases of a node go are the same behind its value.
ghost use Rattle.std.specs.Prelude.{◌≡◌, map};
ghost use Rattle.lowered_pieces.specs.Keeping as spec;
ghost use Rattle.lowered_steps.specs.Found.{indices_of};
ghost use Rattle.lowered_ends.specs.Keeping.{are_kept};

use call_arguments::number_variable;
use size_values::{Picked, Sized, same_sized};
use sized_nodes::Case;
use value_indices::Indices;

/// Whether a variable is another one.
fn is_other(own: Option<u32>, variable: u32) -> bool
    ensures { result ≡ spec.is_other own variable }
{
    match own {
        None => true,
        Some(other) => other != variable,
    }
}

/// Whether a width or a length leaves the number of a variable as it is, if that is this one.
fn is_again(own: Option<u32>, size: &i128, variable: u32, number: &i128) -> bool
    ensures { result ≡ spec.is_again own size.now variable number.now }
{
    is_other(own, variable) || *size == *number
}

/// Whether a value of this type leaves the number of a variable as it is, if that is this one.
#[cycle(keeps)]
fn keeps(indices: &Indices, sized: &Sized, variable: u32, number: &i128) -> bool
    ensures { result ≡ spec.keeps indices.now sized.now variable number.now }
{
    match (indices, sized) {
        (Indices::Integer(given), Sized::Int) => is_other(number_variable(given), variable),
        (Indices::Bits(width), Sized::Bits(size)) => {
            is_again(number_variable(width), size, variable, number)
        }
        (Indices::Vector(length, _), Sized::Vector(size, _)) => {
            is_again(number_variable(length), size, variable, number)
        }
        (Indices::Tuple(parts), Sized::Tuple(types)) => {
            all_keep(parts.as_slice(), types.as_slice(), variable, number)
        }
        _ => true,
    }
}

/// Whether the parts of a tuple do.
#[cycle(keeps)]
fn all_keep(parts: &[Indices], types: &[Sized], variable: u32, number: &i128) -> bool
    ensures { result ≡ are_kept parts.now types.now variable number.now }
{
    for at in 0..parts.len() {
        match types.get(at) {
            Some(typ) => {
                if !keeps(&parts[at], typ, variable, number) {
                    return false;
                }
            }
            None => return true,
        }
    }
    true
}

/// Whether a value does by all these indices.
fn each_keeps(given: &[&Indices], sized: &Sized, variable: u32, number: &i128) -> bool
    ensures { result ≡ spec.all_keep (map indices_of given.now) sized.now variable number.now }
{
    match given {
        [] => true,
        [first, rest @ ..] => {
            keeps(first, sized, variable, number) && each_keeps(rest, sized, variable, number)
        }
    }
}

/// Whether a value of this type leaves these numbers as they are.
fn picked_kept(given: &[&Indices], sized: &Sized, picked: &[Picked]) -> bool
    ensures { result ≡ spec.picked_kept (map indices_of given.now) sized.now picked.now }
{
    match picked {
        [] => true,
        [first, rest @ ..] => {
            each_keeps(given, sized, first.variable, &first.number)
                && picked_kept(given, sized, rest)
        }
    }
}

/// Whether numbers are of the same variables.
fn asks_alike(picked: &[Picked], others: &[Picked]) -> bool
    ensures { result ≡ spec.asks_alike picked.now others.now }
{
    match picked {
        [] => others.is_empty(),
        [first, rest @ ..] => match others {
            [] => false,
            [other, more @ ..] => first.variable == other.variable && asks_alike(rest, more),
        },
    }
}

/// Whether the values of these cases leave their numbers as they are, which are of the same variables as these.
fn cases_kept(given: &[&Indices], picked: &[Picked], cases: &[Case]) -> bool
    ensures { result ≡ spec.cases_kept (map indices_of given.now) picked.now cases.now }
{
    match cases {
        [] => true,
        [first, rest @ ..] => {
            asks_alike(picked, first.picked.as_slice())
                && (picked_kept(given, &first.gives, first.picked.as_slice())
                    && cases_kept(given, picked, rest))
        }
    }
}

/// Whether the values of cases leave the numbers as they are by which the cases go, where these indices say which numbers they give.
pub fn all_kept(given: &[&Indices], cases: &[Case]) -> bool
    ensures { result ≡ spec.all_kept (map indices_of given.now) cases.now }
{
    match cases {
        [] => true,
        [first, ..] => cases_kept(given, first.picked.as_slice(), cases),
    }
}

/// Whether all cases give this type.
fn all_give(typ: &Sized, cases: &[Case]) -> bool
    ensures { result ≡ spec.all_give typ.now cases.now }
{
    match cases {
        [] => true,
        [first, rest @ ..] => same_sized(typ, &first.gives) && all_give(typ, rest),
    }
}

/// Whether all cases give one type, or there is none.
pub fn give_one(cases: &[Case]) -> bool
    ensures { result ≡ spec.give_one cases.now }
{
    match cases {
        [] => true,
        [first, rest @ ..] => all_give(&first.gives, rest),
    }
}
