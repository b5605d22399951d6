ghost use Rattle.std.specs.Prelude.{◌≡◌, ◌↔◌, IsTrue, ◌*ℤ◌, ◌+ℤ◌, MatchOption, false};
ghost use Rattle.sail_types.specs.Limits.{is_small as is_small_integer, small_power as small_power_of};

use sail_base::{Text, Word};

/// The largest integer of a model.
pub const LARGEST: u128 = 1 << 126;

/// Whether both are true. Both are known where it is called, so that a caller has no branch.
pub fn both(a: bool, b: bool) -> bool
    ensures { IsTrue result ↔ (IsTrue a × IsTrue b) }
{
    a && b
}

/// Whether two integers are the same.
pub fn same_integer(a: &i128, b: &i128) -> bool
    ensures { IsTrue result ↔ (a.now ≡ b.now) }
{
    *a == *b
}

/// Whether an integer is from the least to the largest.
#[tactic(auto, unfolding(crate::specs::Limits::largest))]
pub fn is_small(z: i128) -> bool
    ensures { result ≡ is_small_integer z }
{
    z.unsigned_abs() <= LARGEST
}

#[tactic(auto, using(crate::proofs::Limits::past))]
/// The sum of two integers, where it is from the least to the largest.
pub fn small_sum(a: i128, b: i128) -> Option<i128>
    ensures { MatchOption result (is_small_integer (a +ℤ b) ≡ false) (λ c. (c ≡ a +ℤ b) × IsTrue (is_small_integer c)) }
{
    match a.checked_add(b) {
        None => None,
        Some(sum) => if is_small(sum) { Some(sum) } else { None },
    }
}

#[tactic(auto, using(crate::proofs::Limits::past))]
/// The product of two integers, where it is from the least to the largest.
pub fn small_product(a: i128, b: i128) -> Option<i128>
    ensures { MatchOption result (is_small_integer (a *ℤ b) ≡ false) (λ c. (c ≡ a *ℤ b) × IsTrue (is_small_integer c)) }
{
    match a.checked_mul(b) {
        None => None,
        Some(product) => if is_small(product) {
            Some(product)
        } else {
            None
        },
    }
}

/// 2 to an exponent from 0 to 126; none for another one.
pub fn small_power(exponent: i128) -> Option<i128>
    ensures { result ≡ small_power_of exponent }
{
    if 0 <= exponent && exponent < 127 {
        Some(1 << exponent)
    } else {
        None
    }
}

/// Whether two places in a table are the same.
pub fn same_place(a: u32, b: u32) -> bool
    ensures { IsTrue result ↔ (a ≡ b) }
{
    a == b
}

/// Whether two truth values are the same.
pub fn same_truth(a: bool, b: bool) -> bool
    ensures { IsTrue result ↔ (a ≡ b) }
{
    a == b
}

/// Whether two lists hold the same integers in the same order.
pub fn same_integers(a: &[i128], b: &[i128]) -> bool
    ensures { IsTrue result ↔ (a.now ≡ b.now) }
{
    a == b
}

/// Whether two words are as wide and have the same bits.
pub fn same_word(a: &Word, b: &Word) -> bool
    ensures { IsTrue result ↔ (a.now ≡ b.now) }
{
    *a == *b
}

/// Whether two texts have the same bytes.
pub fn same_text(a: &Text, b: &Text) -> bool
    ensures { IsTrue result ↔ (a.now ≡ b.now) }
{
    *a == *b
}
