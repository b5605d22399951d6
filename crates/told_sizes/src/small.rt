//! Truths put together, and what is the same.
ghost use Rattle.std.specs.Prelude.{◌≡◌, ◌&&◌, nat_eq};
ghost use Rattle.std.specs.Ordering.{int_eq};
ghost use Rattle.told_sizes.specs.Exact as spec;

/// Whether both are true.
pub fn both(a: bool, b: bool) -> bool
    ensures { result ≡ (a && b) }
{
    a && b
}

/// Whether two integers are the same.
pub fn same_integer(a: i128, b: i128) -> bool
    ensures { result ≡ int_eq a b }
{
    a == b
}

/// Whether two places are the same.
pub fn same_place(a: u32, b: u32) -> bool
    ensures { result ≡ nat_eq a b }
{
    a == b
}

/// Whether two counts are the same.
pub fn same_count(a: usize, b: usize) -> bool
    ensures { result ≡ nat_eq a b }
{
    a == b
}

/// Whether a variable is one of so many.
#[tactic(auto, using(crate::proofs::Counts::one_of, crate::proofs::Counts::none_of))]
pub fn is_one_of(position: u32, count: usize) -> bool
    ensures { result ≡ spec.is_one_of position count }
{
    (position as usize) < count
}
