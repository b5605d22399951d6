//! Two lists, pair by pair.
ghost use Rattle.std.specs.Prelude.{◌≡◌, IfOk, min};
ghost use Rattle.value_fits.specs.Fitting.{also, ended as ended_at};

use crate::fitted::Fitted;
use std::alloc::{AllocError, Global};

/// How many pairs two lists of these lengths have.
pub fn pair_count(one: usize, other: usize) -> usize
    ensures { result ≡ min one other }
{
    if one < other { one } else { other }
}

/// What was said of pairs, and what is false where they aren't all. It fails where memory is wanting.
#[tactic(auto, using(crate::proofs::EachPair::joined_nothing))]
pub fn ended(alloc: Global, made: Fitted, is_all: bool) -> Result<Fitted, AllocError>
    ensures { IfOk result (λ all. all ≡ also made (ended_at is_all)) }
{
    if is_all {
        return Ok(made);
    }
    let more = Fitted::never(alloc, made.next)?;
    made.also(more)
}
