//! Parts of what is there late, as what a call gives: its read, and the ways into it, once the indexes have been walked.
ghost use Rattle.std.specs.Prelude.{◌≡◌, ◌++◌, List, Some, drop, length, take, IfOk, OnOk};
ghost use Rattle.sail_core.specs.declared.tree.Core.{Core};
ghost use Rattle.value_indices.specs.Steps as steps;
ghost use Rattle.value_indices.specs.Walking as walk;
ghost use Rattle.pattern_leaves.specs.Settings as settings;
ghost use Rattle.pattern_leaves.specs.Settings.{around_of};
ghost use Rattle.expression_forms.specs.Spots as spots;
ghost use Rattle.expression_steps.specs.Coded as coded;
ghost use Rattle.expression_steps.specs.Targets as target_spec;

use crate::reached::{indexes_of, left_after, reach};
use expression_forms::{Known, Reached, Spot, late_bound, owes_itself, read_suffix};
use pattern_leaves::Around;
use sail_base::{Items, Place};
use sail_core::{Suffix, Way};
use sail_types::Num;
use std::alloc::{AllocError, Global};
use value_indices::{Fact, Indices, Walking, copy_facts, copy_indices};

/// What is there late, as it is read before a run reads it.
#[derive(Drop)]
pub struct Ahead {
    /// The variable from which on it is read.
    pub before: u32,
    /// What its read gives.
    pub held: Indices,
    /// What is known of it.
    pub facts: Items<Fact>,
}

/// What the last of some suffixes reaches in what is there late.
#[derive(Drop)]
pub struct Late {
    /// The suffix's place.
    pub place: Place,
    /// Its way.
    pub way: Way,
    /// The part, if there is one.
    pub reached: Option<Reached>,
}

/// So many numbers, or all.
fn first_numbers(numbers: &[Num], count: usize) -> &[Num]
    ensures { result.now ≡ take count numbers.now }
{
    if count < numbers.len() {
        &numbers[..count]
    } else {
        numbers
    }
}

/// The numbers behind so many.
fn other_numbers(numbers: &[Num], count: usize) -> &[Num]
    ensures { result.now ≡ drop count numbers.now }
{
    if count < numbers.len() {
        &numbers[count..]
    } else {
        &[]
    }
}

/// What is known of a spot that is read from a variable on, whatever is in force before it. It fails where memory is wanting, and where
/// variables are too many.
fn known_ahead(
    alloc: Global,
    around: &Around<'_>,
    base: &Spot,
    before: u32,
) -> Result<Items<Fact>, AllocError>
    ensures { IfOk result (λ facts. facts
        ≡ spots.known_from before (spots.Spot.read (spots.spot_of (around_of around.now) base.now))) }
{
    let mut aside = Walking::new(alloc, before);
    base.read(alloc, &mut aside, around)?;
    aside.into_facts(alloc)
}

/// What is there late, read in a scope of its own. It fails where memory is wanting, and where variables are too many.
pub fn read_ahead(
    alloc: Global,
    walking: &mut Walking,
    around: &Around<'_>,
    base: &Spot,
) -> Result<Ahead, AllocError>
    ensures value { IfOk result (λ made. made
        ≡ walk.got (target_spec.read_ahead (spots.spot_of (around_of around.now) base.now)) (walk.seen walking.old)) }
    ensures walked { OnOk result (walk.seen walking.new
        ≡ walk.run (target_spec.read_ahead (spots.spot_of (around_of around.now) base.now)) (walk.seen walking.old)) }
{
    let before = walking.next();
    walking.remember()?;
    let held = base.read(alloc, walking, around)?;
    walking.restore()?;
    let facts = known_ahead(alloc, around, base, before)?;
    Ok(Ahead {
        before,
        held,
        facts,
    })
}

/// What the last suffix reaches, by the value before it and the numbers that are left. It fails where memory is wanting, and where variables
/// are too many.
#[tactic(auto, using(value_indices::proofs::Walks::walks))]
fn last_late(
    alloc: Global,
    walking: &mut Walking,
    around: &Around<'_>,
    suffix: &Suffix,
    value: &Indices,
    numbers: &[Num],
) -> Result<Option<Late>, AllocError>
    ensures value { IfOk result (λ made. made ≡ walk.got (target_spec.last_late (around_of around.now) suffix.now (target_spec.onward_to numbers.now
        value.now)) (walk.seen walking.old)) }
    ensures walked { OnOk result (walk.seen walking.new ≡ walk.run (target_spec.last_late (around_of around.now) suffix.now (target_spec.onward_to
        numbers.now value.now)) (walk.seen walking.old)) }
{
    let own = first_numbers(numbers, indexes_of(suffix.way));
    let reached = reach(alloc, walking, around, value, suffix.way, own)?;
    Ok(Some(Late {
        place: suffix.place,
        way: suffix.way,
        reached,
    }))
}

/// The same behind suffixes that are read. It fails where memory is wanting, and where variables are too many.
fn suffixes_late(
    alloc: Global,
    walking: &mut Walking,
    around: &Around<'_>,
    read: &[Suffix],
    last: &Suffix,
    numbers: &[Num],
    value: Indices,
) -> Result<Option<Late>, AllocError>
    ensures value { IfOk result (λ made. made ≡ walk.got (steps.bind (target_spec.read_late (around_of around.now) read.now numbers.now value)
        (target_spec.last_late (around_of around.now) last.now)) (walk.seen walking.old)) }
    ensures walked { OnOk result (walk.seen walking.new ≡ walk.run (steps.bind (target_spec.read_late (around_of around.now) read.now numbers.now value)
        (target_spec.last_late (around_of around.now) last.now)) (walk.seen walking.old)) }
{
    let mut value = value;
    let mut left = numbers;
    for suffix in read {
        let count = indexes_of(suffix.way);
        let own = first_numbers(left, count);
        let reached = reach(alloc, walking, around, &value, suffix.way, own)?;
        value = read_suffix(
            alloc,
            walking,
            true,
            suffix.place,
            suffix.number,
            &value,
            reached.as_ref(),
        )?;
        left = other_numbers(left, count);
    }
    last_late(alloc, walking, around, last, &value, left)
}

/// The ways into what is there late. It fails where memory is wanting, and where variables are too many.
fn part_late(
    alloc: Global,
    walking: &mut Walking,
    around: &Around<'_>,
    place: Place,
    suffixes: &[Suffix],
    numbers: &[Num],
    held: &Indices,
) -> Result<Option<Late>, AllocError>
    ensures value { IfOk result (λ made. made ≡ walk.got (target_spec.part_late place suffixes.now (around_of around.now) numbers.now held.now)
        (walk.seen walking.old)) }
    ensures walked { OnOk result (walk.seen walking.new ≡ walk.run (target_spec.part_late place suffixes.now (around_of around.now) numbers.now
        held.now) (walk.seen walking.old)) }
{
    match suffixes {
        [] => {
            walking.wrong(alloc, place)?;
            Ok(None)
        }
        [read @ .., last] => {
            let held = copy_indices(alloc, held)?;
            suffixes_late(alloc, walking, around, read, last, numbers, held)
        }
    }
}

/// What ways into what is there late make known from a variable on. It fails where memory is wanting, and where variables are too many.
fn known_late(
    alloc: Global,
    around: &Around<'_>,
    place: Place,
    suffixes: &[Suffix],
    numbers: &[Num],
    held: &Indices,
    from: u32,
) -> Result<Items<Fact>, AllocError>
    ensures { IfOk result (λ facts. facts
        ≡ spots.known_from from (target_spec.part_late place suffixes.now (around_of around.now) numbers.now held.now)) }
{
    let mut aside = Walking::new(alloc, from);
    part_late(alloc, &mut aside, around, place, suffixes, numbers, held)?;
    aside.into_facts(alloc)
}

/// The ways into what is there late, in a scope of their own where what is known of it is in force. It fails where memory is wanting, and
/// where variables are too many.
fn ways_late(
    alloc: Global,
    walking: &mut Walking,
    around: &Around<'_>,
    place: Place,
    suffixes: &[Suffix],
    numbers: &[Num],
    ahead: &Ahead,
) -> Result<Option<Late>, AllocError>
    ensures value { IfOk result (λ made. made ≡ walk.got (target_spec.ways_late place suffixes.now (around_of around.now) numbers.now ahead.now)
        (walk.seen walking.old)) }
    ensures walked { OnOk result (walk.seen walking.new ≡ walk.run (target_spec.ways_late place suffixes.now (around_of around.now) numbers.now
        ahead.now) (walk.seen walking.old)) }
{
    walking.remember()?;
    walking.assume_facts(copy_facts(alloc, ahead.facts.as_slice())?)?;
    let found = part_late(
        alloc,
        walking,
        around,
        place,
        suffixes,
        numbers,
        &ahead.held,
    )?;
    walking.restore()?;
    Ok(found)
}

/// Where such a part owes, in a target at a place: by an index at its bracket.
fn late_place(place: Place, late: &Late) -> Place
    ensures { result ≡ target_spec.late_place place late.now }
{
    if owes_itself(late.way) {
        late.place
    } else {
        place
    }
}

/// A part of what is there late, by what the ways from a variable on reach and make known. It fails where memory is wanting.
fn late_spot(
    alloc: Global,
    place: Place,
    number: u32,
    base: Spot,
    ahead: Ahead,
    from: u32,
    more: Items<Fact>,
    found: Option<Late>,
    at: usize,
) -> Result<Option<(Spot, usize)>, AllocError>
    ensures { IfOk result (λ made. (around : settings.Around) (parts : List Core) → coded.spotted_in around parts made
        ≡ target_spec.late_spotted place around number (spots.spot_of around base) ahead from more (coded.left_behind parts at) found) }
{
    match found {
        None => Ok(None),
        Some(late) => {
            let owing = late_place(place, &late);
            let Late {
                place: _,
                way: _,
                reached,
            } = late;
            let Ahead {
                before,
                held,
                mut facts,
            } = ahead;
            facts.append(more)?;
            let bound = late_bound(before, from, &held);
            let known = Known {
                before: bound,
                facts,
            };
            let spot = Spot::late(alloc, owing, number, base, held, reached, known)?;
            Ok(Some((spot, at)))
        }
    }
}

/// A part of what is there late, by suffixes with indexes of these numbers. It fails where memory is wanting, and where variables are too
/// many.
pub fn late_found(
    alloc: Global,
    walking: &mut Walking,
    around: &Around<'_>,
    place: Place,
    number: u32,
    suffixes: &[Suffix],
    base: Spot,
    ahead: Ahead,
    numbers: &[Num],
    at: usize,
) -> Result<Option<(Spot, usize)>, AllocError>
    ensures value { IfOk result (λ made. (parts : List Core) → coded.spotted_in (around_of around.now) parts made ≡ walk.got (target_spec.known_late
        place number suffixes.now (around_of around.now) (spots.spot_of (around_of around.now) base) ahead (coded.left_behind parts at) numbers.now)
        (walk.seen walking.old)) }
    ensures walked { OnOk result ((parts : List Core) → walk.seen walking.new ≡ walk.run (target_spec.known_late place number suffixes.now
        (around_of around.now) (spots.spot_of (around_of around.now) base) ahead (coded.left_behind parts at) numbers.now) (walk.seen walking.old)) }
{
    let from = walking.next();
    let found = ways_late(alloc, walking, around, place, suffixes, numbers, &ahead)?;
    let known = known_late(alloc, around, place, suffixes, numbers, &ahead.held, from)?;
    late_spot(alloc, place, number, base, ahead, from, known, found, at)
}

/// How many of so many parts some suffixes take.
pub fn late_count(suffixes: &[Suffix], left: usize) -> usize
    ensures { result ≡ target_spec.count_taken suffixes.now left }
{
    left.saturating_sub(left_after(suffixes, left))
}

/// Whether suffixes take more indexes than so many.
fn is_short(suffixes: &[Suffix], count: usize) -> bool
    ensures { result ≡ target_spec.is_short suffixes.now count }
{
    let mut left = count;
    for suffix in suffixes {
        let taken = indexes_of(suffix.way);
        if left < taken {
            return true;
        }
        left -= taken;
    }
    false
}

/// Whether there is no way by some suffixes with so many indexes: there is no suffix, or they take more.
pub fn has_no_way(suffixes: &[Suffix], count: usize) -> bool
    ensures { result ≡ target_spec.has_no_way suffixes.now count }
{
    match suffixes {
        [] => true,
        _ => is_short(suffixes, count),
    }
}
