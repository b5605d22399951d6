//! The order of the functions of directions of mappings: a function asks those alone that stand before it.
ghost use Rattle.std.specs.Prelude.{◌≡◌, ◌++◌, IfOk, OnOk};
ghost use Rattle.jib_lower.specs.Crossings.{calls_of as spec_calls};
ghost use Rattle.jib_lower.specs.Order.{Ordered, all_among, made_in};
ghost use Rattle.jib_lower.specs.Rounds as spec;

use crate::crossings::{calls_of, is_in};
use lowered_steps::further;
use sail_base::Items;
use sail_core::CoreModel;
use std::alloc::{AllocError, Global};

/// The directions from one on that have a number of a cycle come behind others. They fail where memory is wanting.
fn push_made(
    direction: u32,
    turned: &[Option<u32>],
    made: &mut Items<u32>,
) -> Result<(), AllocError>
    ensures { OnOk result (made.new ≡ made.old ++ made_in direction turned.now) }
{
    match turned {
        [] => Ok(()),
        [first, rest @ ..] => {
            let next = further(direction, 1)?;
            match first {
                Some(_) => {
                    made.push(direction)?;
                    push_made(next, rest, made)
                }
                None => push_made(next, rest, made),
            }
        }
    }
}

/// Whether directions are all among others.
fn are_among(directions: &[u32], others: &[u32]) -> bool
    ensures { result ≡ all_among directions.now others.now }
{
    match directions {
        [] => true,
        [first, rest @ ..] => is_in(*first, others) && are_among(rest, others),
    }
}

/// Whether all that a direction asks are placed.
fn is_ready(calls: &[Items<u32>], placed: &[u32], direction: u32) -> bool
    ensures { result ≡ spec.is_ready calls.now placed.now direction }
{
    match calls.get(direction as usize) {
        Some(asked) => are_among(asked.as_slice(), placed),
        None => true,
    }
}

/// A direction comes behind those that are placed, where all that it asks are, and else behind those that are left. It fails where memory is wanting.
fn place_one(
    calls: &[Items<u32>],
    direction: u32,
    placed: &mut Items<u32>,
    left: &mut Items<u32>,
) -> Result<(), AllocError>
    ensures placed { OnOk result (placed.new ≡ spec.with_placed calls.now placed.old direction) }
    ensures left { OnOk result (left.new ≡ spec.with_left calls.now placed.old left.old direction) }
{
    let ready = is_ready(calls, placed.as_slice(), direction);
    if ready {
        placed.push(direction)
    } else {
        left.push(direction)
    }
}

/// So each of several directions, one after the other.
fn place_all(
    calls: &[Items<u32>],
    directions: &[u32],
    placed: &mut Items<u32>,
    left: &mut Items<u32>,
) -> Result<(), AllocError>
    ensures placed { OnOk result (placed.new ≡ spec.all_placed calls.now placed.old directions.now) }
    ensures left { OnOk result (left.new ≡ spec.all_left calls.now placed.old left.old directions.now) }
{
    for direction in directions {
        place_one(calls, *direction, placed, left)?;
    }
    Ok(())
}

/// Directions come behind others. They fail where memory is wanting.
fn join(mut placed: Items<u32>, left: Items<u32>) -> Result<Items<u32>, AllocError>
    ensures { IfOk result (λ order. order ≡ placed ++ left) }
{
    for direction in left.into_vec() {
        placed.push(direction)?;
    }
    Ok(placed)
}

/// The directions that are placed, and behind them those that are left, in rounds, of which there are at most so many. They fail where memory is wanting.
fn in_rounds(
    alloc: Global,
    calls: &[Items<u32>],
    steps: usize,
    mut placed: Items<u32>,
    left: Items<u32>,
) -> Result<Items<u32>, AllocError>
    ensures { IfOk result (λ order. order ≡ spec.in_rounds calls.now steps placed left) }
{
    if steps == 0 {
        return join(placed, left);
    }
    let mut next = Items::new(alloc);
    let many = left.len();
    let directions = left.as_slice();
    place_all(calls, directions, &mut placed, &mut next)?;
    let count = next.len();
    if count == many {
        join(placed, next)
    } else {
        in_rounds(alloc, calls, steps - 1, placed, next)
    }
}

/// The directions that have a number of a cycle, in an order: where some order has each behind those that it asks, this one has. It fails where memory is
/// wanting.
pub fn order_of(
    alloc: Global,
    core: &CoreModel,
    turned: &[Option<u32>],
) -> Result<Items<u32>, AllocError>
    ensures { IfOk result (Ordered (spec_calls core.now.directions) (made_in 0 turned.now)) }
{
    let calls = calls_of(alloc, core)?;
    let mut made = Items::new(alloc);
    push_made(0, turned, &mut made)?;
    let steps = made.len();
    let lists = calls.as_slice();
    in_rounds(alloc, lists, steps, Items::new(alloc), made)
}
