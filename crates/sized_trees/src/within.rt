//! Sizes that are constants within their limits.
ghost use Rattle.std.specs.Prelude.{◌≡◌};
ghost use Rattle.sized_trees.specs.Within as spec;

use size_values::{Constant, Size};

/// Whether a size is a constant that isn't below 0 or past its limit.
fn is_within(size: &Size) -> bool
    ensures { result ≡ spec.is_within size.now }
{
    match &size.number {
        Constant::Number(number) => 0 <= *number && *number <= size.largest as i128,
        _ => false,
    }
}

/// Whether each of these sizes is a constant that isn't below 0 or past its limit.
pub fn all_within(sizes: &[Size]) -> bool
    ensures { result ≡ spec.all_within sizes.now }
{
    for size in sizes {
        if !is_within(size) {
            return false;
        }
    }
    true
}

/// Whether a constant is a number.
fn is_number(constant: &Constant) -> bool
    ensures { result ≡ spec.is_number constant.now }
{
    match constant {
        Constant::Number(_) => true,
        _ => false,
    }
}

/// Whether each of these constants is a number.
pub fn all_numbers(constants: &[Constant]) -> bool
    ensures { result ≡ spec.all_numbers constants.now }
{
    for constant in constants {
        if !is_number(constant) {
            return false;
        }
    }
    true
}
