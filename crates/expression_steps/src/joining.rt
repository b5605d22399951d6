//! What joins two truths.
ghost use Rattle.std.specs.Prelude.{◌≡◌, IfOk, OnOk};
ghost use Rattle.value_indices.specs.Walking as walk;
ghost use Rattle.expression_steps.specs.Statements as statement_spec;

use expression_forms::{and_right, negated, or_right};
use sail_base::Place;
use sail_types::{Con, copy_con};
use std::alloc::{AllocError, Global};
use value_indices::{Indices, Walking};

/// The condition under which the right one of two truths is walked: the left one, or that it is false. It fails where memory is wanting.
pub fn under_or_not(alloc: Global, is_or: bool, condition: &Con) -> Result<Con, AllocError>
    ensures { IfOk result (λ made. made ≡ statement_spec.under_or_not is_or condition.now) }
{
    if is_or {
        negated(alloc, copy_con(alloc, condition)?)
    } else {
        copy_con(alloc, condition)
    }
}

/// The value of `a & b` or `a | b`, by the left one's condition and the right one's value, at the latter's place. It fails where memory is
/// wanting.
#[tactic(auto, using(value_indices::proofs::Walks::walks))]
pub fn joined(
    alloc: Global,
    walking: &mut Walking,
    is_or: bool,
    place: Place,
    condition: Con,
    value: &Indices,
) -> Result<Indices, AllocError>
    ensures value { IfOk result (λ made. made ≡ walk.got (statement_spec.joined is_or place condition value.now) (walk.seen walking.old)) }
    ensures walked { OnOk result (walk.seen walking.new ≡ walk.run (statement_spec.joined is_or place condition value.now) (walk.seen walking.old)) }
{
    if is_or {
        or_right(alloc, walking, place, condition, value)
    } else {
        and_right(alloc, walking, place, condition, value)
    }
}
