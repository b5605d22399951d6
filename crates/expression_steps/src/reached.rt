//! What ways into values reach, once their indexes have been walked.
ghost use Rattle.std.specs.Prelude.{◌≡◌, List, IfOk, OnOk};
ghost use Rattle.sail_core.specs.declared.tree.Core.{Core};
ghost use Rattle.value_indices.specs.Walking as walk;
ghost use Rattle.pattern_leaves.specs.Settings.{around_of};
ghost use Rattle.expression_steps.specs.Coded as coded;
ghost use Rattle.expression_steps.specs.Values as value_spec;

use expression_forms::{Ends, Reached, into_field, into_item, into_slice, with_width};
use pattern_leaves::Around;
use sail_core::{Suffix, Way};
use sail_types::{Num, copy_num};
use std::alloc::{AllocError, Global};
use value_indices::{Indices, Walking};

/// How many indexes a way has.
pub fn indexes_of(way: Way) -> usize
    ensures { result ≡ value_spec.indexes_of way }
{
    match way {
        Way::Field(_, _) => 0,
        Way::Item => 1,
        Way::Slice => 2,
    }
}

/// How many of so many indexes are left behind those that suffixes take.
pub fn left_after(suffixes: &[Suffix], count: usize) -> usize
    ensures { result ≡ value_spec.left_after suffixes.now count }
{
    let mut left = count;
    for suffix in suffixes {
        left = left.saturating_sub(indexes_of(suffix.way));
    }
    left
}

/// The slice of a value between two ends, if there is such a part. It fails where memory is wanting, and where variables are too many.
#[tactic(auto, using(value_indices::proofs::Walks::walks))]
fn reach_slice(
    alloc: Global,
    walking: &mut Walking,
    value: &Indices,
    high: &Num,
    low: &Num,
) -> Result<Option<Reached>, AllocError>
    ensures value { IfOk result (λ made. made ≡ walk.got (value_spec.slice_between value.now high.now low.now) (walk.seen walking.old)) }
    ensures walked { OnOk result (walk.seen walking.new ≡ walk.run (value_spec.slice_between value.now high.now low.now) (walk.seen walking.old)) }
{
    let high = copy_num(alloc, high)?;
    let low = copy_num(alloc, low)?;
    match with_width(alloc, walking, high, low)? {
        None => Ok(None),
        Some(ends) => {
            let Ends { high, low, width } = ends;
            into_slice(alloc, &high, &low, width, value)
        }
    }
}

/// The part of a value that a way with indexes of these numbers reaches, if there is such a part. It fails where memory is wanting, and
/// where variables are too many.
#[tactic(auto, using(value_indices::proofs::Walks::walks))]
pub fn reach(
    alloc: Global,
    walking: &mut Walking,
    around: &Around<'_>,
    value: &Indices,
    way: Way,
    numbers: &[Num],
) -> Result<Option<Reached>, AllocError>
    ensures value { IfOk result (λ made. made
        ≡ walk.got (value_spec.reached_by (around_of around.now) value.now way numbers.now) (walk.seen walking.old)) }
    ensures walked { OnOk result (walk.seen walking.new
        ≡ walk.run (value_spec.reached_by (around_of around.now) value.now way numbers.now) (walk.seen walking.old)) }
{
    match way {
        Way::Field(named, field) => into_field(alloc, around, named, field, value),
        Way::Item => match numbers {
            [index] => into_item(alloc, index, value),
            _ => Ok(None),
        },
        Way::Slice => match numbers {
            [high, low] => reach_slice(alloc, walking, value, high, low),
            _ => Ok(None),
        },
    }
}

/// The same, where so many parts have been taken. It fails where memory is wanting, and where variables are too many.
pub fn way_reached(
    alloc: Global,
    walking: &mut Walking,
    around: &Around<'_>,
    value: &Indices,
    way: Way,
    numbers: &[Num],
    at: usize,
) -> Result<Option<(Option<Reached>, usize)>, AllocError>
    ensures value { IfOk result (λ made. (parts : List Core) → coded.taken_in parts made ≡ value_spec.taken (walk.got (value_spec.reached_by
        (around_of around.now) value.now way numbers.now) (walk.seen walking.old)) (coded.left_behind parts at)) }
    ensures walked { OnOk result (walk.seen walking.new
        ≡ walk.run (value_spec.reached_by (around_of around.now) value.now way numbers.now) (walk.seen walking.old)) }
{
    let reached = reach(alloc, walking, around, value, way, numbers)?;
    Ok(Some((reached, at)))
}

/// The value on the way; none where there is none.
pub fn value_of(found: Option<(Indices, usize)>) -> Indices
    ensures { result ≡ coded.value_passed found }
{
    match found {
        None => Indices::Never,
        Some((value, _)) => value,
    }
}
