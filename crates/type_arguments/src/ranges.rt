//! Types that nothing belongs to.
ghost use Rattle.std.specs.Prelude.{◌≡◌, map};
ghost use Rattle.std.specs.List.{list_any};
ghost use Rattle.type_arguments.specs.Applied.{applied as applied_of};
ghost use Rattle.type_arguments.specs.Ranges.{is_negative as is_negative_of, is_empty_range as is_empty_range_of, is_void as is_void_of};
ghost use Rattle.type_arguments.specs.Ranges.{is_void_normal as is_void_normal_of};

use crate::normal::Normal;
use sail_types::{Num, Typ};

/// Whether a number is a constant below 0.
fn is_negative(number: &Num) -> bool
    ensures { result ≡ is_negative_of number.now }
{
    number.terms.is_empty() && number.constant < 0
}

/// Whether both ends are constant, the second below the first.
fn is_empty_range(low: &Num, high: &Num) -> bool
    ensures { result ≡ is_empty_range_of low.now high.now }
{
    low.terms.is_empty() && high.terms.is_empty() && high.constant < low.constant
}

/// Whether a negative constant width, or a range with constant ends the second below the first, stands
/// anywhere in a type.
#[cycle(is_void)]
pub fn is_void(typ: &Typ) -> bool
    ensures { result ≡ is_void_of typ.now }
{
    match typ {
        Typ::Bits(width) => is_negative(width),
        Typ::Range(low, high) => is_empty_range(low, high),
        Typ::List(item) => is_void(item.get()),
        Typ::Vector(_, item) => is_void(item.get()),
        Typ::Tuple(parts) => is_any_void(parts.as_slice()),
        Typ::Named(_, _, arguments) => is_any_void(arguments.as_slice()),
        Typ::Exists(_, _, part) => is_void(part.get()),
        _ => false,
    }
}

#[cycle(is_void)]
fn is_any_void(parts: &[Typ]) -> bool
    ensures { result ≡ list_any (λ is. is) (map is_void_of parts.now) }
{
    for part in parts {
        if is_void(part) {
            return true;
        }
    }
    false
}

/// Whether such a width or range stands in what a type's text stands for.
pub fn is_void_normal(normal: &Normal) -> bool
    ensures { result ≡ is_void_normal_of normal.now }
{
    match normal {
        Normal::Typ(typ) => is_void(typ),
        _ => false,
    }
}
