//! The steps that a closing row stands on.
ghost use Rattle.std.specs.Prelude.{◌≡◌, ◌≤◌, ◌<◌, ◌+◌, ◌^◌, IfOk, [], ◌∷◌, ◌++◌, ◌-◌, replicate, if◌then◌else◌};
ghost use Rattle.std.specs.Prelude.{true, false, slice_set, slice_index, slice_index_or, reverse, length};
ghost use Rattle.farkas.specs.Pruning.{marked, last_marked, renumbered, pruned, up_to, stood_on};

use crate::certificate::Step;
use sail_base::Items;
use std::alloc::{AllocError, Global};

/// Marks a row, if there is one of that number.
fn mark(marks: &mut Items<bool>, number: usize)
    ensures { marks.new ≡ slice_set marks.old number true }
{
    if number < marks.len() {
        marks.set(number, true);
    }
}

/// Whether a row is marked.
fn is_marked(marks: &Items<bool>, number: usize) -> bool
    ensures { result ≡ slice_index_or marks.now number false }
{
    let all = marks.as_slice();
    if number < all.len() {
        all[number]
    } else {
        false
    }
}

/// Marks the two rows of a step whose own row has this number and is marked.
fn mark_rows(marks: &mut Items<bool>, number: usize, step: &Step)
    ensures { marks.new ≡ (if slice_index_or marks.old number false
        then slice_set (slice_set marks.old step.now.first true) step.now.second true else marks.old) }
{
    if is_marked(marks, number) {
        mark(marks, step.first);
        mark(marks, step.second);
    }
}

/// The last row marked alone.
fn last_marked(alloc: Global, last: usize) -> Result<Items<bool>, AllocError>
    requires { last < 2 ^ 64 - 1 }
    ensures { IfOk result (λ marks. marks ≡ replicate last false ++ true ∷ []) }
{
    let mut marks = Items::new(alloc);
    for _ in 0..last {
        marks.push(false)?;
    }
    marks.push(true)?;
    Ok(marks)
}

/// The rows that the last one stands on, marked.
fn marked(alloc: Global, count: usize, steps: &[Step]) -> Result<Items<bool>, AllocError>
    requires few { count ≤ 4096 }
    ensures { IfOk result (λ marks. marks ≡ marked count (reverse steps.now) (last_marked count steps.now)) }
{
    let mut marks = last_marked(alloc, count + steps.len())?;
    let mut left = steps.len();
    while left > 0 {
        left -= 1;
        mark_rows(&mut marks, count + left + 1, &steps[left]);
    }
    Ok(marks)
}

/// The numbers from 0 to another.
fn up_to(alloc: Global, last: usize) -> Result<Items<usize>, AllocError>
    requires few { last ≤ 4096 }
    ensures { IfOk result (λ numbers. numbers ≡ up_to last) }
{
    let mut numbers = Items::new(alloc);
    numbers.push(0)?;
    for number in 0..last {
        numbers.push(number + 1)?;
    }
    Ok(numbers)
}

/// The number at a place, or 0 past the end.
fn number_at(numbers: &Items<usize>, place: usize) -> usize
    ensures { result ≡ slice_index numbers.now place }
{
    let all = numbers.as_slice();
    if place < all.len() { all[place] } else { 0 }
}

/// A step over new numbers.
fn renumbered(numbers: &Items<usize>, step: &Step) -> Step
    ensures { result ≡ renumbered numbers.now step.now }
{
    Step {
        first: number_at(numbers, step.first),
        first_times: step.first_times,
        second: number_at(numbers, step.second),
        second_times: step.second_times,
        divisor: step.divisor,
    }
}

/// The steps that the last one stands on, renumbered.
pub fn stood_on_by_last(
    alloc: Global,
    count: usize,
    steps: &[Step],
) -> Result<Items<Step>, AllocError>
    requires few { count ≤ 4096 }
    ensures { IfOk result (λ kept. kept ≡ stood_on count steps.now) }
{
    let marks = marked(alloc, count, steps)?;
    let mut numbers = up_to(alloc, count)?;
    let mut kept = Items::new(alloc);
    let mut before = count;
    for step in steps {
        if is_marked(&marks, numbers.len()) {
            kept.push(renumbered(&numbers, step))?;
            before += 1;
            numbers.push(before)?;
        } else {
            numbers.push(0)?;
        }
    }
    Ok(kept)
}
