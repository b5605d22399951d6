//! Rows of integers and of truths.
ghost use Rattle.std.specs.Prelude.{◌≡◌, ◌+ℤ◌, ◌-ℤ◌, ◌*ℤ◌, neg_ℤ, unsigned_abs, pos, false, true, replicate, IfOk};
ghost use Rattle.std.specs.Prelude.{int_div, int_rem, int_le, if◌then◌else◌};
ghost use Rattle.std.specs.Int.{int_div_euclid, int_rem_euclid};
ghost use Rattle.std.specs.Ordering.{int_eq};
ghost use Rattle.std.specs.Prelude.{not};
ghost use Rattle.sail_base.specs.Bits.{bits_of_int};
ghost use Rattle.sail_types.specs.Limits.{small_power as small_power_of};
ghost use Rattle.sail_types.specs.Sums.{and_then};
ghost use Rattle.builtins.specs.RowValues.{an_integer as an_integer_of, a_word as a_word_of, natural, where_};
ghost use Rattle.builtins.specs.RowValues.{on_integer as on_integer_of, on_integers as on_integers_of};
ghost use Rattle.builtins.specs.RowValues.{on_truth as on_truth_of};

use crate::made::{a_word, an_integer, natural_integer};
use crate::texts::decimal;
use sail_base::Word;
use sail_types::{Row, Value, small_power, small_product, small_sum};
use std::alloc::{AllocError, Global};

/// A row of one integer.
pub fn on_integer(alloc: Global, row: Row, i: i128) -> Result<Option<Value>, AllocError>
    ensures { IfOk result (λ made. made ≡ on_integer_of row i) }
{
    match row {
        Row::NegInt => Ok(negated(i)),
        Row::Pow2 => Ok(power(i)),
        Row::AbsInt => Ok(absolute(i)),
        Row::Zeros => Ok(zeros(i)),
        Row::Ones => Ok(ones(i)),
        Row::DecStr => decimal(alloc, i),
        _ => Ok(None),
    }
}

#[tactic(auto, using(crate::proofs::Past::past))]
fn negated(i: i128) -> Option<Value>
    ensures { result ≡ an_integer_of (neg_ℤ i) }
{
    match i.checked_neg() {
        None => None,
        Some(z) => an_integer(z),
    }
}

fn power(i: i128) -> Option<Value>
    ensures { result ≡ and_then (small_power_of i) an_integer_of }
{
    match small_power(i) {
        None => None,
        Some(z) => an_integer(z),
    }
}

fn absolute(i: i128) -> Option<Value>
    ensures { result ≡ an_integer_of (pos (unsigned_abs i)) }
{
    natural_integer(i.unsigned_abs())
}

fn zeros(i: i128) -> Option<Value>
    ensures { result ≡ natural i (λ n. a_word_of (replicate n false)) }
{
    if 0 <= i && i <= 128 {
        a_word(Word::zeros(i as u8))
    } else {
        None
    }
}

fn ones(i: i128) -> Option<Value>
    ensures { result ≡ natural i (λ n. a_word_of (replicate n true)) }
{
    if 0 <= i && i <= 128 {
        a_word(Word::ones(i as u8))
    } else {
        None
    }
}

/// A row of two integers.
pub fn on_integers(row: Row, i: i128, j: i128) -> Option<Value>
    ensures { result ≡ on_integers_of row i j }
{
    match row {
        Row::AddInt => added(i, j),
        Row::SubInt => subtracted(i, j),
        Row::MultInt => multiplied(i, j),
        Row::MinInt => an_integer(if i <= j { i } else { j }),
        Row::MaxInt => an_integer(if i <= j { j } else { i }),
        Row::EdivInt => divided_down(i, j),
        Row::EmodInt => rest_down(i, j),
        Row::TdivInt => divided(i, j),
        Row::TmodInt => rest(i, j),
        Row::LtInt => Some(Value::Truth(i < j)),
        Row::LteqInt => Some(Value::Truth(i <= j)),
        Row::GtInt => Some(Value::Truth(j < i)),
        Row::GteqInt => Some(Value::Truth(j <= i)),
        Row::ToBits => low_bits(i, j),
        _ => None,
    }
}

fn added(i: i128, j: i128) -> Option<Value>
    ensures { result ≡ an_integer_of (i +ℤ j) }
{
    match small_sum(i, j) {
        None => None,
        Some(z) => Some(Value::Integer(z)),
    }
}

#[tactic(auto, using(crate::proofs::Past::past))]
fn subtracted(i: i128, j: i128) -> Option<Value>
    ensures { result ≡ an_integer_of (i -ℤ j) }
{
    match i.checked_sub(j) {
        None => None,
        Some(z) => an_integer(z),
    }
}

fn multiplied(i: i128, j: i128) -> Option<Value>
    ensures { result ≡ an_integer_of (i *ℤ j) }
{
    match small_product(i, j) {
        None => None,
        Some(z) => Some(Value::Integer(z)),
    }
}

/// The quotient rounded down, by a positive integer.
fn divided_down(i: i128, j: i128) -> Option<Value>
    ensures { result ≡ where_ (int_le (pos 1) j) (an_integer_of (int_div_euclid i j)) }
{
    if 1 <= j {
        an_integer(i.div_euclid(j))
    } else {
        None
    }
}

/// What the quotient rounded down leaves, which isn't negative.
fn rest_down(i: i128, j: i128) -> Option<Value>
    ensures { result ≡ where_ (int_le (pos 1) j) (an_integer_of (int_rem_euclid i j)) }
{
    if 1 <= j {
        an_integer(i.rem_euclid(j))
    } else {
        None
    }
}

/// The quotient rounded toward zero.
fn divided(i: i128, j: i128) -> Option<Value>
    ensures { result ≡ where_ (not (int_eq j (pos 0))) (an_integer_of (int_div i j)) }
{
    if j == 0 {
        return None;
    }
    match i.checked_div(j) {
        None => None,
        Some(z) => an_integer(z),
    }
}

/// What the quotient rounded toward zero leaves, with the sign of the dividend.
fn rest(i: i128, j: i128) -> Option<Value>
    ensures { result ≡ where_ (not (int_eq j (pos 0))) (an_integer_of (int_rem i j)) }
{
    if j == 0 {
        return None;
    }
    if j == -1 {
        return an_integer(0);
    }
    an_integer(i % j)
}

/// So many low bits of an integer.
#[tactic(auto, using(crate::proofs::Wide::too_wide, sail_base::specs::laws::WordParts::word_widths))]
fn low_bits(width: i128, i: i128) -> Option<Value>
    ensures { result ≡ natural width (λ n. a_word_of (bits_of_int n i)) }
{
    if 0 <= width && width <= 128 {
        a_word(Word::of_int(width as u8, i))
    } else {
        None
    }
}

/// A row of one truth.
pub fn on_truth(row: Row, b: bool) -> Option<Value>
    ensures { result ≡ on_truth_of row b }
{
    match row {
        Row::NotBool => Some(Value::Truth(!b)),
        Row::BoolToBits => a_word(Word::of_bool(b)),
        _ => None,
    }
}
