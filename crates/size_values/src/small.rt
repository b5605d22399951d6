//! Truths put together, and what is the same.
ghost use Rattle.std.specs.Prelude.{◌≡◌, ◌&&◌, ◌||◌, nat_eq};
ghost use Rattle.std.specs.Ordering.{int_eq};

/// Whether both are true.
pub fn both(a: bool, b: bool) -> bool
    ensures { result ≡ (a && b) }
{
    a && b
}

/// Whether one of them is true.
pub fn either(a: bool, b: bool) -> bool
    ensures { result ≡ (a || b) }
{
    a || b
}

/// Whether two integers are the same.
pub fn same_integer(a: i128, b: i128) -> bool
    ensures { result ≡ int_eq a b }
{
    a == b
}

/// Whether two places are the same.
pub fn same_place(a: u32, b: u32) -> bool
    ensures { result ≡ nat_eq a b }
{
    a == b
}
