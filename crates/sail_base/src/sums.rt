//! Sums and greatest common divisors of integers that fit 128 bits, or the word that they do not.
ghost use Rattle.std.specs.Prelude.{◌≡◌, ℕ, ◌^◌, ◌+ℤ◌, ◌≤ℤ◌, MatchOption, FitsSigned, unsigned_abs, pos};
ghost use Rattle.std.specs.Int.{w128, IsGcd};

/// The sum of two integers, or `None` exactly where it is not from -2^127 to 2^127 - 1.
pub fn sum(a: i128, b: i128) -> Option<i128>
    ensures { MatchOption result (FitsSigned w128 (a +ℤ b) → ⊥) (λ s. s ≡ a +ℤ b) }
{
    a.checked_add(b)
}

/// The greatest common divisor of two integers, which is never negative, or `None` exactly where it is 2^127.
pub fn gcd(a: i128, b: i128) -> Option<i128>
    ensures { MatchOption result (IsGcd (unsigned_abs a) (unsigned_abs b) (2 ^ 127))
        (λ g. (pos 0 ≤ℤ g) × IsGcd (unsigned_abs a) (unsigned_abs b) (unsigned_abs g)) }
{
    let g = gcd_of(a.unsigned_abs(), b.unsigned_abs());
    if g < 1 << 127 { Some(g as i128) } else { None }
}

/// The greatest common divisor of two numbers; of 0 and 0 it is 0.
fn gcd_of(a: u128, b: u128) -> u128
    ensures { IsGcd a b result }
{
    let mut x = a;
    let mut y = b;
    while y != 0 {
        let rest = x % y;
        x = y;
        y = rest;
    }
    x
}
