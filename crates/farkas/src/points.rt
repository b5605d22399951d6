//! Points that show a case open.
ghost use Rattle.std.specs.Prelude.{◌≡◌, ◌<◌, ◌+◌, ◌^◌, ◌*ℤ◌, ◌-ℤ◌, IfOk, drop, Some};
ghost use Rattle.std.specs.List.{fold};
ghost use Rattle.linear.specs.Numbers.{is_zero, gcd, gcd_of, scaled};
ghost use Rattle.farkas.specs.Points.{limited, part, lowest, spent, bound_of, is_under, greatest_of, least_of};
ghost use Rattle.farkas.specs.Points.{bounded, no_bounds, value_of, value_within, all_limited, with_value};
ghost use Rattle.farkas.specs.Points.{with_others, lessened, tightened, extended, went_back, least_point, point_of};

use crate::elimination::Held;
use linear::{Number, Row, coefficient};
use sail_base::Items;
use std::alloc::{AllocError, Global};

/// A fraction in lowest terms, its denominator above 0.
#[derive(Clone, Copy, Debug)]
pub struct Fraction {
    pub top: Number,
    pub bottom: Number,
}

/// The greatest lower and the least upper bound of a variable so far.
#[derive(Clone, Copy, Debug)]
pub struct Bounds {
    pub low: Option<Fraction>,
    pub high: Option<Fraction>,
}

/// Rational values for the variables of a problem, in order: each is its numerator over the one denominator, which is above 0.
#[derive(Debug)]
pub struct Point {
    pub denominator: Number,
    pub numerators: Items<Number>,
}

impl Drop for Point {
    fn drop(self) {
        let Point {
            denominator: _,
            numerators: _,
        } = self;
    }
}

/// A number over a common part.
fn part(number: Number, common: Number) -> Number
    ensures { result ≡ part number common }
{
    if common.is_zero() {
        number
    } else {
        number.over(common)
    }
}

/// A fraction in lowest terms.
fn lowest(top: Number, bottom: Number) -> Fraction
    ensures { result ≡ lowest top bottom }
{
    let common = top.divisor_with(bottom);
    if bottom.is_below(Number::zero()) {
        Fraction {
            top: part(top.negated(), common),
            bottom: part(bottom.negated(), common),
        }
    } else {
        Fraction {
            top: part(top, common),
            bottom: part(bottom, common),
        }
    }
}

/// A product within the limit.
fn product(first: Number, second: Number) -> Option<Number>
    ensures { result ≡ limited (first *ℤ second) }
{
    first.times(second)
}

/// A number less the coefficients from a place on, each times its variable's numerator.
fn spent(whole: Number, coefficients: &[Number], from: usize, values: &[Number]) -> Option<Number>
    ensures { result ≡ spent whole (drop from coefficients.now) values.now }
{
    let mut rest = whole;
    let mut place = from;
    for value in values {
        if place >= coefficients.len() {
            return Some(rest);
        }
        match lessened(rest, coefficients[place], *value) {
            None => return None,
            Some(found) => rest = found,
        }
        place += 1;
    }
    Some(rest)
}

/// A number less the product of two others.
fn lessened(whole: Number, first: Number, second: Number) -> Option<Number>
    ensures { result ≡ lessened whole first second }
{
    match product(first, second) {
        None => None,
        Some(found) => difference(whole, found),
    }
}

/// A difference within the limit.
fn difference(first: Number, second: Number) -> Option<Number>
    ensures { result ≡ limited (first -ℤ second) }
{
    first.less(second)
}

/// What a row leaves of a variable.
fn bound_from(variable: usize, point: &Point, row: &Row) -> Option<Fraction>
    requires small { variable + 1 < 2 ^ 64 }
    ensures { result ≡ bound_of variable point.now row.now }
{
    match product(row.bound, point.denominator) {
        None => None,
        Some(whole) => match spent(
            whole,
            row.coefficients.as_slice(),
            variable + 1,
            point.numerators.as_slice(),
        ) {
            None => None,
            Some(top) => match product(coefficient(row, variable), point.denominator) {
                None => None,
                Some(bottom) => Some(lowest(top, bottom)),
            },
        },
    }
}

/// Whether a fraction is below another.
fn is_under(first: Fraction, second: Fraction) -> Option<bool>
    ensures { result ≡ is_under first second }
{
    match product(first.top, second.bottom) {
        None => None,
        Some(left) => match product(second.top, first.bottom) {
            None => None,
            Some(right) => Some(left.is_below(right)),
        },
    }
}

/// The greater one of two lower bounds.
fn greatest_of(old: Option<Fraction>, new: Fraction) -> Option<Fraction>
    ensures { result ≡ greatest_of old new }
{
    match old {
        None => Some(new),
        Some(old) => match is_under(old, new) {
            None => None,
            Some(under) => Some(if under { new } else { old }),
        },
    }
}

/// The lesser one of two upper bounds.
fn least_of(old: Option<Fraction>, new: Fraction) -> Option<Fraction>
    ensures { result ≡ least_of old new }
{
    match old {
        None => Some(new),
        Some(old) => match is_under(new, old) {
            None => None,
            Some(under) => Some(if under { new } else { old }),
        },
    }
}

/// The bounds with one row more, in which the variable stands.
fn tightened(variable: usize, bounds: Bounds, row: &Row, new: Fraction) -> Option<Bounds>
    ensures { result ≡ tightened variable bounds row.now new }
{
    if coefficient(row, variable).is_below(Number::zero()) {
        match greatest_of(bounds.low, new) {
            None => None,
            Some(low) => Some(Bounds {
                low: Some(low),
                high: bounds.high,
            }),
        }
    } else {
        match least_of(bounds.high, new) {
            None => None,
            Some(high) => Some(Bounds {
                low: bounds.low,
                high: Some(high),
            }),
        }
    }
}

/// The bounds with one row more.
fn bounded(variable: usize, point: &Point, bounds: Bounds, held: &Held) -> Option<Bounds>
    requires small { variable + 1 < 2 ^ 64 }
    ensures { result ≡ bounded variable point.now (Some bounds) held.now }
{
    if coefficient(&held.row, variable).is_zero() {
        return Some(bounds);
    }
    match bound_from(variable, point, &held.row) {
        None => None,
        Some(new) => tightened(variable, bounds, &held.row, new),
    }
}

/// The bounds that the rows give.
fn all_bounds(variable: usize, point: &Point, stage: &[Held]) -> Option<Bounds>
    requires small { variable + 1 < 2 ^ 64 }
    ensures { result ≡ fold (bounded variable point.now) (Some no_bounds) stage.now }
{
    let mut bounds = Bounds {
        low: None,
        high: None,
    };
    for held in stage {
        match bounded(variable, point, bounds, held) {
            None => return None,
            Some(found) => bounds = found,
        }
    }
    Some(bounds)
}

/// The greatest lower bound, else the least upper bound, else 0.
fn value_of(bounds: Bounds) -> Fraction
    ensures { result ≡ value_of bounds }
{
    match bounds.low {
        Some(low) => low,
        None => match bounds.high {
            Some(high) => high,
            None => Fraction {
                top: Number::zero(),
                bottom: Number::one(),
            },
        },
    }
}

/// The point with a value for one variable more, before the others.
fn with_value(alloc: Global, point: &Point, value: Fraction) -> Result<Option<Point>, AllocError>
    ensures { IfOk result (λ o. o ≡ with_value point.now value) }
{
    let common = point.denominator.divisor_with(value.bottom);
    let own = part(point.denominator, common);
    match product(own, value.bottom) {
        None => Ok(None),
        Some(denominator) => match product(value.top, own) {
            None => Ok(None),
            Some(numerator) => with_others(
                alloc,
                denominator,
                numerator,
                part(value.bottom, common),
                point,
            ),
        },
    }
}

/// A point of a first numerator and the others, each times the same.
fn with_others(
    alloc: Global,
    denominator: Number,
    numerator: Number,
    times: Number,
    point: &Point,
) -> Result<Option<Point>, AllocError>
    ensures { IfOk result (λ o. o ≡ with_others denominator numerator (scaled times point.now.numerators)) }
{
    let mut numerators = Items::new(alloc);
    numerators.push(numerator)?;
    for value in point.numerators.as_slice() {
        match product(times, *value) {
            None => return Ok(None),
            Some(found) => numerators.push(found)?,
        }
    }
    Ok(Some(Point {
        denominator,
        numerators,
    }))
}

/// The point with a value for a variable, from the rows that were kept before it went.
fn extended(
    alloc: Global,
    variable: usize,
    stage: &[Held],
    point: &Point,
) -> Result<Option<Point>, AllocError>
    requires small { variable + 1 < 2 ^ 64 }
    ensures { IfOk result (λ o. o ≡ extended variable stage.now point.now) }
{
    match all_bounds(variable, point, stage) {
        None => Ok(None),
        Some(bounds) => with_value(alloc, point, value_of(bounds)),
    }
}

/// A point over the least denominator.
fn least_point(alloc: Global, point: &Point) -> Result<Point, AllocError>
    ensures { IfOk result (λ p. p ≡ least_point point.now) }
{
    let mut common = Number::zero().divisor_with(point.denominator);
    for value in point.numerators.as_slice() {
        common = common.divisor_with(*value);
    }
    let mut numerators = Items::new(alloc);
    for value in point.numerators.as_slice() {
        numerators.push(part(*value, common))?;
    }
    Ok(Point {
        denominator: part(point.denominator, common),
        numerators,
    })
}

/// The point of a case, from the rows that were kept before each variable, or `None` where a number is past the limit.
pub fn point_from(alloc: Global, stages: &[Items<Held>]) -> Result<Option<Point>, AllocError>
    ensures { IfOk result (λ o. o ≡ point_of stages.now) }
{
    let mut point = Point {
        denominator: Number::one(),
        numerators: Items::new(alloc),
    };
    let mut left = stages.len();
    while left > 0 {
        left -= 1;
        match extended(alloc, left, stages[left].as_slice(), &point)? {
            None => return Ok(None),
            Some(found) => point = found,
        }
    }
    Ok(Some(least_point(alloc, &point)?))
}
