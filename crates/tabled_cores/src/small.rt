//! Truths put together.
ghost use Rattle.std.specs.Prelude.{◌≡◌, ◌&&◌, ◌||◌};
ghost use Rattle.told_sizes.specs.Exact.{only_if as only_if_of};

/// Whether both are true.
pub fn both(a: bool, b: bool) -> bool
    ensures { result ≡ (a && b) }
{
    a && b
}

/// Whether one of both is true.
pub fn either(a: bool, b: bool) -> bool
    ensures { result ≡ (a || b) }
{
    a || b
}

/// Whether the second is true, if the first is.
pub fn only_if(a: bool, b: bool) -> bool
    ensures { result ≡ only_if_of a b }
{
    if a { b } else { true }
}
