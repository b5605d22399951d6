//! The parts of an expression of which some have been taken.
ghost use Rattle.std.specs.Prelude.{◌≡◌, ◌+◌, ◌<◌, ◌^◌, drop, take};

use sail_core::Core;

/// The parts that are left, of which so many have been taken.
pub fn left_at(parts: &[Core], at: usize) -> &[Core]
    ensures { result.now ≡ drop at parts.now }
{
    if at < parts.len() { &parts[at..] } else { &[] }
}

/// So many parts, or all.
pub fn first_parts(parts: &[Core], count: usize) -> &[Core]
    ensures { result.now ≡ take count parts.now }
{
    if count < parts.len() {
        &parts[..count]
    } else {
        parts
    }
}

/// So many parts more have been taken, which were left.
pub fn behind(at: usize, count: usize) -> usize
    requires { at + count < 2 ^ 64 }
    ensures { result ≡ at + count }
{
    at + count
}
