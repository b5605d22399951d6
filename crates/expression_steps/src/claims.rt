//! What is in force behind statements.
ghost use Rattle.std.specs.Prelude.{◌≡◌, IfOk, OnOk};
ghost use Rattle.value_indices.specs.Walking as walk;
ghost use Rattle.expression_steps.specs.Coded as coded;
ghost use Rattle.expression_steps.specs.Statements as statement_spec;

use crate::ends::wrong_state;
use crate::knowing::never_ends;
use expression_forms::claim_of;
use sail_base::Place;
use sail_core::Core;
use sail_types::Con;
use std::alloc::{AllocError, Global};
use value_indices::{Indices, Walking};

/// The condition of an `if`, where it was met; none where it wasn't.
fn met_condition(met: Option<(Con, Indices)>) -> Option<Con>
    ensures { result ≡ statement_spec.met_condition met }
{
    match met {
        None => None,
        Some((condition, _)) => Some(condition),
    }
}

/// What is claimed behind branches of which these never end normally, where the condition was met. It fails where memory is wanting.
fn claim_met(
    alloc: Global,
    then_never_ends: bool,
    else_never_ends: bool,
    condition: Option<Con>,
) -> Result<Option<Con>, AllocError>
    ensures { IfOk result (λ made. made ≡ statement_spec.claim_met then_never_ends else_never_ends condition) }
{
    match condition {
        None => Ok(None),
        Some(condition) => claim_of(alloc, then_never_ends, else_never_ends, condition),
    }
}

/// What is claimed behind an `if` of these parts that is a statement. It fails where memory is wanting.
#[tactic(auto, using(value_indices::proofs::Walks::walks))]
pub fn claim_behind(
    alloc: Global,
    walking: &mut Walking,
    place: Place,
    parts: &[Core],
    met: Option<(Con, Indices)>,
) -> Result<Option<Con>, AllocError>
    ensures value { IfOk result (λ made. made ≡ walk.got (statement_spec.claim_behind place (coded.each_part parts.now) met)
        (walk.seen walking.old)) }
    ensures walked { OnOk result (walk.seen walking.new ≡ walk.run (statement_spec.claim_behind place (coded.each_part parts.now) met)
        (walk.seen walking.old)) }
{
    match parts {
        [_, body] => claim_met(alloc, never_ends(body), false, met_condition(met)),
        [_, then, otherwise] => claim_met(
            alloc,
            never_ends(then),
            never_ends(otherwise),
            met_condition(met),
        ),
        _ => wrong_state(alloc, walking, place),
    }
}
