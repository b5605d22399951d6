//! Conditions: what a truth says, and what operators on truths make.
ghost use Rattle.std.specs.Prelude.{◌≡◌, [], ◌∷◌, IfOk, OnOk};
ghost use Rattle.sail_types.specs.declared.numbers.Con.TheVariants as C;
ghost use Rattle.value_indices.specs.Walking as walk;
ghost use Rattle.expression_forms.specs.Truths as truths;

use call_notes::wrong_value;
use sail_base::{Boxed, Items, Place};
use sail_types::{Con, copy_con};
use std::alloc::{AllocError, Global};
use value_indices::{Indices, Walking};

/// The condition that a truth is; none of what never ends normally, and of what is no truth, which owes what is false. It fails where
/// memory is wanting.
#[tactic(auto, using(value_indices::proofs::Walks::walks))]
pub fn truth_of(
    alloc: Global,
    walking: &mut Walking,
    place: Place,
    value: &Indices,
) -> Result<Option<Con>, AllocError>
    ensures value { IfOk result (λ made. made ≡ walk.got (truths.truth_of place value.now) (walk.seen walking.old)) }
    ensures walked { OnOk result (walk.seen walking.new ≡ walk.run (truths.truth_of place value.now) (walk.seen walking.old)) }
{
    match value {
        Indices::Truth(condition) => {
            let condition = copy_con(alloc, condition)?;
            Ok(Some(condition))
        }
        Indices::Never => Ok(None),
        _ => {
            walking.wrong(alloc, place)?;
            Ok(None)
        }
    }
}

/// Two conditions, in order. It fails where memory is wanting.
fn two(alloc: Global, first: Con, second: Con) -> Result<Items<Con>, AllocError>
    ensures { IfOk result (λ made. made ≡ first ∷ second ∷ []) }
{
    let mut made = Items::new(alloc);
    made.push(first)?;
    made.push(second)?;
    Ok(made)
}

/// A condition, and the right operand of `&` at a place, which is false where that never ends normally. It fails where memory is
/// wanting.
#[tactic(auto, using(value_indices::proofs::Walks::walks))]
pub fn and_right(
    alloc: Global,
    walking: &mut Walking,
    place: Place,
    left: Con,
    right: &Indices,
) -> Result<Indices, AllocError>
    ensures value { IfOk result (λ made. made ≡ walk.got (truths.and_right place left right.now) (walk.seen walking.old)) }
    ensures walked { OnOk result (walk.seen walking.new ≡ walk.run (truths.and_right place left right.now) (walk.seen walking.old)) }
{
    match right {
        Indices::Truth(condition) => {
            let both = two(alloc, left, copy_con(alloc, condition)?)?;
            Ok(Indices::Truth(Con::All(both)))
        }
        Indices::Never => Ok(Indices::Truth(Con::Truth(false))),
        _ => wrong_value(alloc, walking, place),
    }
}

/// A condition, and the right operand of `|` at a place, which is true where that never ends normally. It fails where memory is
/// wanting.
#[tactic(auto, using(value_indices::proofs::Walks::walks))]
pub fn or_right(
    alloc: Global,
    walking: &mut Walking,
    place: Place,
    left: Con,
    right: &Indices,
) -> Result<Indices, AllocError>
    ensures value { IfOk result (λ made. made ≡ walk.got (truths.or_right place left right.now) (walk.seen walking.old)) }
    ensures walked { OnOk result (walk.seen walking.new ≡ walk.run (truths.or_right place left right.now) (walk.seen walking.old)) }
{
    match right {
        Indices::Truth(condition) => {
            let either = two(alloc, left, copy_con(alloc, condition)?)?;
            Ok(Indices::Truth(Con::Any(either)))
        }
        Indices::Never => Ok(Indices::Truth(Con::Truth(true))),
        _ => wrong_value(alloc, walking, place),
    }
}

/// `not(c)`. It fails where memory is wanting.
pub fn negated(alloc: Global, condition: Con) -> Result<Con, AllocError>
    ensures { IfOk result (λ made. made ≡ C.Not condition) }
{
    Ok(Con::Not(Boxed::new(alloc, condition)?))
}

/// What is claimed behind an `if` that is a statement: where one branch never ends normally, the other one's fact. It fails where memory
/// is wanting.
pub fn claim_of(
    alloc: Global,
    then_never_ends: bool,
    else_never_ends: bool,
    condition: Con,
) -> Result<Option<Con>, AllocError>
    ensures { IfOk result (λ made. made ≡ truths.claim_of then_never_ends else_never_ends condition) }
{
    match (then_never_ends, else_never_ends) {
        (true, false) => Ok(Some(negated(alloc, condition)?)),
        (false, true) => Ok(Some(condition)),
        _ => Ok(None),
    }
}
