//! Where ways meet.
ghost use Rattle.std.specs.Prelude.{◌≡◌, IfOk, OnOk};
ghost use Rattle.std.specs.Option.{option_copied};
ghost use Rattle.pattern_leaves.specs.Settings.{around_of};
ghost use Rattle.value_indices.specs.Walking as walk;
ghost use Rattle.expression_forms.specs.Inside as inside;
ghost use Rattle.expression_forms.specs.Meeting as meeting;

use crate::inside::{is_value_below, is_value_told, is_value_whole};
use call_notes::{is_never, note_value};
use pattern_leaves::Around;
use sail_base::{Items, Place};
use sail_types::{Shape, Types, deepest};
use std::alloc::{AllocError, Global};
use value_fits::{Fitted, Wanted, fits, owe_fit};
use value_indices::{Indices, Walking};
use wide_types::{agrees_within, met, spell_value};

/// Whether a way gives no value.
fn gives_none(never_ends: bool, value: &Indices) -> bool
    ensures { result ≡ meeting.gives_none never_ends value.now }
{
    never_ends || is_never(value)
}

/// A value in which holes are filled by the widest types of the shape. The numbers of these are variables from that one on, which are counted
/// here alone. It fails where memory is wanting, and where variables are too many.
fn filled_aside(
    alloc: Global,
    types: &Types,
    before: u32,
    shape: &Shape,
    value: &Indices,
) -> Result<Indices, AllocError>
    ensures { IfOk result (λ made. made ≡ meeting.filled_aside types.now before shape.now value.now) }
{
    let mut aside = Walking::new(alloc, before);
    met(alloc, &mut aside, types, before, shape, value)
}

/// The value of a first way of this shape, without holes. It fails where memory is wanting, and where variables are too many.
fn filled_first(
    alloc: Global,
    types: &Types,
    before: u32,
    shape: &Shape,
    value: Indices,
) -> Result<Indices, AllocError>
    ensures { IfOk result (λ made. made ≡ meeting.filled_first (inside.is_value_whole value) types.now before shape.now value) }
{
    if is_value_whole(&value) {
        Ok(value)
    } else {
        filled_aside(alloc, types, before, shape, &value)
    }
}

/// A way of this shape, if it ends normally, with a value: the first one. It fails where memory is wanting, and where variables are too
/// many.
pub fn first_way(
    alloc: Global,
    around: &Around<'_>,
    before: u32,
    shape: &Shape,
    never_ends: bool,
    value: Indices,
) -> Result<Option<Indices>, AllocError>
    ensures { IfOk result (λ made. made ≡ meeting.first_way (around_of around.now) before shape.now never_ends value) }
{
    if gives_none(never_ends, &value) {
        Ok(None)
    } else {
        let filled = filled_first(alloc, around.types, before, shape, value)?;
        Ok(Some(filled))
    }
}

/// What has to be true for a later way to be of the type of the first as it stands, which names only variables before that one, and in which
/// nothing is a hole. It fails where memory is wanting, and where variables are too many.
fn as_first(
    alloc: Global,
    types: &Types,
    before: u32,
    first: &Indices,
    value: &Indices,
    next: u32,
) -> Result<Fitted, AllocError>
    ensures { IfOk result (λ made. made ≡ meeting.as_first types.now before first.now value.now next) }
{
    if is_value_whole(first) && is_value_below(before, first) {
        let wanted = Wanted::Widened(first);
        fits(alloc, types, value, &wanted, next)
    } else {
        Fitted::never(alloc, next)
    }
}

/// What has to be true for a later way to agree with the first, both of which are spelled out too: by their numbers, or as a whole. It
/// fails where memory is wanting, and where variables are too many.
fn agrees_spelled(
    alloc: Global,
    types: &Types,
    before: u32,
    first: &Indices,
    value: &Indices,
    spelled: &Indices,
    other: &Indices,
    next: u32,
) -> Result<Fitted, AllocError>
    ensures { IfOk result (λ made. made
        ≡ meeting.agrees_spelled types.now before first.now value.now spelled.now other.now next) }
{
    if is_value_told(spelled) && is_value_told(other) {
        let conditions = agrees_within(alloc, deepest(), before, spelled, other)?;
        Ok(Fitted::says(alloc, conditions, next))
    } else {
        as_first(alloc, types, before, first, value, next)
    }
}

/// What has to be true for a later way to agree with the first. It fails where memory is wanting, and where variables are too many.
fn agrees(
    alloc: Global,
    types: &Types,
    before: u32,
    first: &Indices,
    value: &Indices,
    next: u32,
) -> Result<Fitted, AllocError>
    ensures { IfOk result (λ made. made ≡ meeting.agrees types.now before first.now value.now next) }
{
    let spelled = spell_value(alloc, first)?;
    let other = spell_value(alloc, value)?;
    agrees_spelled(alloc, types, before, first, value, &spelled, &other, next)
}

/// The same, unless there is nothing to agree. It fails where memory is wanting, and where variables are too many.
fn agrees_unless(
    alloc: Global,
    none: bool,
    types: &Types,
    before: u32,
    first: &Indices,
    value: &Indices,
    next: u32,
) -> Result<Fitted, AllocError>
    ensures { IfOk result (λ made. made ≡ meeting.agrees_unless none types.now before first.now value.now next) }
{
    if none {
        return Ok(Fitted::nothing(alloc, next));
    }
    agrees(alloc, types, before, first, value, next)
}

/// Owes, at the place of a later way, that it agrees with the first; nothing where the later one gives no value. It fails where memory is
/// wanting, and where variables are too many.
#[tactic(auto, using(value_fits::proofs::Owed::owed))]
pub fn like_first(
    alloc: Global,
    walking: &mut Walking,
    around: &Around<'_>,
    place: Place,
    never_ends: bool,
    before: u32,
    first: &Indices,
    value: &Indices,
) -> Result<(), AllocError>
    ensures { OnOk result (walk.seen walking.new
        ≡ walk.run (meeting.like_first (around_of around.now) place never_ends before first.now value.now) (walk.seen walking.old)) }
{
    let none = gives_none(never_ends, value);
    let made = agrees_unless(
        alloc,
        none,
        around.types,
        before,
        first,
        value,
        walking.next(),
    )?;
    owe_fit(alloc, walking, place, made)
}

/// The value where ways of this shape meet of which no type is wanted, by the first that ends normally; there is none where there is
/// no such way. Its sizes are noted. It fails where memory is wanting, and where variables are too many.
#[tactic(auto, using(value_indices::proofs::Walks::walks))]
pub fn met_ways(
    alloc: Global,
    walking: &mut Walking,
    around: &Around<'_>,
    place: Place,
    before: u32,
    shape: &Shape,
    first: Option<&Indices>,
) -> Result<Indices, AllocError>
    ensures value { IfOk result (λ made. made
        ≡ walk.got (meeting.met_ways (around_of around.now) place before shape.now (option_copied first.entry)) (walk.seen walking.old)) }
    ensures walked { OnOk result (walk.seen walking.new
        ≡ walk.run (meeting.met_ways (around_of around.now) place before shape.now (option_copied first.entry)) (walk.seen walking.old)) }
{
    match first {
        None => Ok(Indices::Never),
        Some(first) => {
            let value = met(alloc, walking, around.types, before, shape, first)?;
            note_value(alloc, walking, place, &value)?;
            Ok(value)
        }
    }
}

/// What is thrown: a value of the union `exception`, which has no arguments; none where there is no such union. It takes no memory.
pub fn thrown(alloc: Global, exception: Option<u32>) -> Indices
    ensures { result ≡ meeting.thrown exception }
{
    match exception {
        None => Indices::Never,
        Some(union) => Indices::Named(union, Items::new(alloc), Items::new(alloc)),
    }
}
