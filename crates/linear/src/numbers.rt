//! Integers of at most 2^127 - 1 in size: their sums, products and divisors.
ghost use Rattle.std.specs.Prelude.{◌≡◌, ◌<◌, ◌+ℤ◌, ◌*ℤ◌, ◌-ℤ◌, ◌↔◌, SomeIff, IsTrue, int_div, int_rem, int_lt, pos, neg_ℤ, unsigned_abs, ◌^◌};
ghost use Rattle.std.specs.Int.{IsGcd};
ghost use Rattle.linear.specs.Numbers.{is_within, gcd, is_zero};

use std::marker::Model;

/// An integer of at most 2^127 - 1 in size, which contracts see as that integer.
#[derive(Clone, Copy, Debug)]
pub struct Number {
    value: i128,
}

impl Model for Number {
    ghost use Rattle.std.specs.Prelude.{ℤ, IsTrue};
    ghost use Rattle.std.specs.Coded.{coded_ℤ};
    ghost use Rattle.linear.specs.Numbers.{is_within};

    ghost Value = { ℤ };

    ghost coded = { coded_ℤ };

    ghost view = { λ number. number.value };

    ghost invariant = { λ number. IsTrue (is_within number.value) };

    ghost inverse = { λ z. record { value = z } };
}

impl Number {
    /// An integer as a number, or `None` where it is past 2^127 - 1 in size.
    pub fn new(value: i128) -> Option<Number>
        ensures { SomeIff result (IsTrue (is_within value)) value }
    {
        if value == i128::MIN {
            None
        } else {
            Some(Number { value })
        }
    }

    /// The integer.
    pub fn value(self) -> i128
        ensures { result ≡ self }
    {
        self.value
    }

    /// The sum of two numbers, or `None` exactly where it is past 2^127 - 1 in size.
    pub fn plus(self, other: Number) -> Option<Number>
        ensures { SomeIff result (IsTrue (is_within (self +ℤ other))) (self +ℤ other) }
    {
        match self.value.checked_add(other.value) {
            Some(found) => Number::new(found),
            None => None,
        }
    }

    /// The product of two numbers, or `None` exactly where it is past 2^127 - 1 in size.
    pub fn times(self, other: Number) -> Option<Number>
        ensures { SomeIff result (IsTrue (is_within (self *ℤ other))) (self *ℤ other) }
    {
        match self.value.checked_mul(other.value) {
            Some(found) => Number::new(found),
            None => None,
        }
    }

    /// The number less another, or `None` exactly where that is past 2^127 - 1 in size.
    pub fn less(self, other: Number) -> Option<Number>
        ensures { SomeIff result (IsTrue (is_within (self -ℤ other))) (self -ℤ other) }
    {
        match self.value.checked_sub(other.value) {
            Some(found) => Number::new(found),
            None => None,
        }
    }

    /// The number with the other sign.
    pub fn negated(self) -> Number
        ensures { result ≡ neg_ℤ self }
    {
        Number { value: -self.value }
    }

    /// The number divided by another that is not 0, rounded toward 0.
    pub fn over(self, other: Number) -> Number
        requires { IsTrue (is_zero other) → ⊥ }
        ensures { result ≡ int_div self other }
    {
        Number {
            value: self.value / other.value,
        }
    }

    /// Whether the number is a multiple of another that is not 0.
    pub fn is_multiple_of(self, other: Number) -> bool
        requires { IsTrue (is_zero other) → ⊥ }
        ensures { result ≡ is_zero (int_rem self other) }
    {
        self.value % other.value == 0
    }

    /// Whether the number is below another.
    pub fn is_below(self, other: Number) -> bool
        ensures { result ≡ int_lt self other }
    {
        self.value < other.value
    }

    /// The greatest number that divides this one and another; it is 0 where both are 0.
    pub fn divisor_with(self, other: Number) -> Number
        ensures { result ≡ gcd self other }
    {
        Number {
            value: divisor_of_sizes(self.size(), other.size()) as i128,
        }
    }

    /// The number without its sign.
    pub fn size(self) -> u128
        ensures size { result ≡ unsigned_abs self }
        ensures small { result < 2 ^ 127 }
    {
        self.value.unsigned_abs()
    }

    /// Whether the number is 0.
    pub fn is_zero(self) -> bool
        ensures { result ≡ is_zero self }
    {
        self.value == 0
    }

    /// Whether two numbers are the same.
    pub fn is(self, other: Number) -> bool
        ensures { result ≡ is_zero (self -ℤ other) }
    {
        self.value == other.value
    }

    /// The number 1.
    pub fn one() -> Number
        ensures { result ≡ pos 1 }
    {
        Number { value: 1 }
    }

    /// The number 0.
    pub fn zero() -> Number
        ensures { result ≡ pos 0 }
    {
        Number { value: 0 }
    }
}

/// The greatest number that divides both; it is 0 where both are 0.
fn divisor_of_sizes(a: u128, b: u128) -> u128
    ensures { IsGcd a b result }
{
    let mut x = a;
    let mut y = b;
    while y != 0 {
        let rest = x % y;
        x = y;
        y = rest;
    }
    x
}
