//! Laws of the definitions: each function's contract is one, and it does nothing.
ghost use Rattle.std.specs.Prelude.{◌≡◌, ◌+ℤ◌, ◌-ℤ◌, ◌*ℤ◌, ℕ, Some, unwrap_or};
ghost use Rattle.sail_types.specs.Before.{before};
ghost use Rattle.sail_types.specs.Limits.{small_power};
ghost use Rattle.sail_types.specs.Numbers.{Assignment, number};
ghost use Rattle.sail_types.specs.Sums.{sum, difference, product, power_num, substituted};
ghost use Rattle.sail_types.specs.declared.numbers.Num.{Num as Number};

/// Under every assignment a sum is the sum of the integers that its parts are, and a difference, a product
/// and a power likewise.
pub fn sums_keep_numbers()
    ensures sum { (nu : Assignment) (a b m : Number) → sum a b ≡ Some m → number nu m ≡ number nu a +ℤ number nu b }
    ensures difference { (nu : Assignment) (a b m : Number) → difference a b ≡ Some m → number nu m ≡ number nu a -ℤ number nu b }
    ensures product { (nu : Assignment) (a b m : Number) → product a b ≡ Some m → number nu m ≡ number nu a *ℤ number nu b }
    ensures power { (nu : Assignment) (n : Number) → number nu (power_num n) ≡ unwrap_or (small_power (number nu n)) (nu.beyond n).value }
{}

/// With others in the place of its variables a number is, under an assignment, what it was under that which
/// gives each variable the number of what stands in its place, and each power that of what it becomes.
pub fn substitution_keeps_numbers()
    ensures { (by : ℕ → Number) (nu : Assignment) (n m : Number) → substituted by n ≡ Some m → number nu m ≡ number (before by nu) n }
{}
