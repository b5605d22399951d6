//! Literals in patterns.
ghost use Rattle.std.specs.Prelude.{◌≡◌, IfOk, OnOk};
ghost use Rattle.value_indices.specs.declared.indices.Indices.{out-Indices};
ghost use Rattle.value_indices.specs.Walking as walk;
ghost use Rattle.pattern_leaves.specs.Literals as spec;

use crate::exponents::one_condition;
use crate::names::Bound;
use sail_base::{Items, Place};
use sail_core::Literal;
use sail_types::{Num, copy_num};
use std::alloc::{AllocError, Global};
use value_indices::{Indices, Walking, equal};

/// A pattern that looks at a value which no model that was resolved has there. The one error is want of memory.
pub fn wrong_pattern(
    alloc: Global,
    place: Place,
    walking: &mut Walking,
) -> Result<Items<Bound>, AllocError>
    ensures found { IfOk result (λ found. found ≡ walk.got (spec.wrong_pattern place) (walk.seen walking.old)) }
    ensures walked { OnOk result (walk.seen walking.new ≡ walk.run (spec.wrong_pattern place) (walk.seen walking.old)) }
{
    walking.wrong(alloc, place)?;
    Ok(Items::new(alloc))
}

/// A literal. The one error is want of memory.
pub fn meet_literal(
    alloc: Global,
    place: Place,
    in_case: bool,
    literal: &Literal,
    indices: &Indices,
    walking: &mut Walking,
) -> Result<Items<Bound>, AllocError>
    ensures found { IfOk result (λ found. found
        ≡ walk.got (spec.literal_met place in_case literal.now (out-Indices indices.now)) (walk.seen walking.old)) }
    ensures walked { OnOk result (walk.seen walking.new
        ≡ walk.run (spec.literal_met place in_case literal.now (out-Indices indices.now)) (walk.seen walking.old)) }
{
    match indices {
        Indices::Never => Ok(Items::new(alloc)),
        Indices::Integer(number) => meet_integer(alloc, place, in_case, literal, number, walking),
        Indices::Bits(width) => meet_bits(alloc, place, literal, width, walking),
        _ => meet_where(alloc, place, is_of(literal, indices), walking),
    }
}

/// Whether a literal that owes nothing is one of values of these indices.
fn is_of(literal: &Literal, indices: &Indices) -> bool
    ensures { result ≡ spec.is_of literal.now (out-Indices indices.now) }
{
    match literal {
        Literal::Unit => matches!(indices, Indices::Unit),
        Literal::Truth(_) => matches!(indices, Indices::Truth(_)),
        Literal::Bit(_) => matches!(indices, Indices::Bit),
        Literal::String(_) => matches!(indices, Indices::String),
        Literal::Member(own, _) => is_of_enum(*own, indices),
        _ => false,
    }
}

/// Whether values of these indices are of this enum.
fn is_of_enum(own: u32, indices: &Indices) -> bool
    ensures { result ≡ spec.is_of_enum own (out-Indices indices.now) }
{
    match indices {
        Indices::Named(named, _, _) => own == *named,
        _ => false,
    }
}

/// A literal that owes nothing, where it is one of the values. The one error is want of memory.
fn meet_where(
    alloc: Global,
    place: Place,
    is_of: bool,
    walking: &mut Walking,
) -> Result<Items<Bound>, AllocError>
    ensures found { IfOk result (λ found. found ≡ walk.got (spec.met_where place is_of) (walk.seen walking.old)) }
    ensures walked { OnOk result (walk.seen walking.new ≡ walk.run (spec.met_where place is_of) (walk.seen walking.old)) }
{
    if is_of {
        Ok(Items::new(alloc))
    } else {
        wrong_pattern(alloc, place, walking)
    }
}

/// A literal that is matched with an integer, which makes its number known in a case. The one error is want of memory.
fn meet_integer(
    alloc: Global,
    place: Place,
    in_case: bool,
    literal: &Literal,
    number: &Num,
    walking: &mut Walking,
) -> Result<Items<Bound>, AllocError>
    ensures found { IfOk result (λ found. found
        ≡ walk.got (spec.with_integer place in_case number.now literal.now) (walk.seen walking.old)) }
    ensures walked { OnOk result (walk.seen walking.new
        ≡ walk.run (spec.with_integer place in_case number.now literal.now) (walk.seen walking.old)) }
{
    match literal {
        Literal::Integer(z) => know_integer(alloc, in_case, *z, number, walking),
        _ => wrong_pattern(alloc, place, walking),
    }
}

/// An integer that is this one, which is known in a case. The one error is want of memory.
fn know_integer(
    alloc: Global,
    in_case: bool,
    z: i128,
    number: &Num,
    walking: &mut Walking,
) -> Result<Items<Bound>, AllocError>
    ensures found { IfOk result (λ found. found ≡ walk.got (spec.integer_met in_case z number.now) (walk.seen walking.old)) }
    ensures walked { OnOk result (walk.seen walking.new ≡ walk.run (spec.integer_met in_case z number.now) (walk.seen walking.old)) }
{
    if in_case {
        let number = copy_num(alloc, number)?;
        walking.assume(equal(number, Num::constant(alloc, z)))?;
        Ok(Items::new(alloc))
    } else {
        Ok(Items::new(alloc))
    }
}

/// A literal that is matched with bits, which are as wide. The one error is want of memory.
fn meet_bits(
    alloc: Global,
    place: Place,
    literal: &Literal,
    width: &Num,
    walking: &mut Walking,
) -> Result<Items<Bound>, AllocError>
    ensures found { IfOk result (λ found. found
        ≡ walk.got (spec.with_bits place width.now literal.now) (walk.seen walking.old)) }
    ensures walked { OnOk result (walk.seen walking.new
        ≡ walk.run (spec.with_bits place width.now literal.now) (walk.seen walking.old)) }
{
    match literal {
        Literal::Bits(bits) => owe_bits(alloc, place, bits.width(), width, walking),
        _ => wrong_pattern(alloc, place, walking),
    }
}

/// Bits that have to be as wide as this. The one error is want of memory.
fn owe_bits(
    alloc: Global,
    place: Place,
    own: u8,
    width: &Num,
    walking: &mut Walking,
) -> Result<Items<Bound>, AllocError>
    ensures found { IfOk result (λ found. found ≡ walk.got (spec.bits_met place own width.now) (walk.seen walking.old)) }
    ensures walked { OnOk result (walk.seen walking.new ≡ walk.run (spec.bits_met place own width.now) (walk.seen walking.old)) }
{
    let width = copy_num(alloc, width)?;
    let own = Num::constant(alloc, own as i128);
    let conditions = one_condition(alloc, Some(equal(own, width)))?;
    walking.owe(alloc, place, conditions)?;
    Ok(Items::new(alloc))
}
