//! The walk over a pattern that opens a value into parts.
ghost use Rattle.std.specs.Prelude.{◌≡◌, map, length, nat_eq, IfOk, OnOk};
ghost use Rattle.sail_types.specs.Named.{payload as payload_in};
ghost use Rattle.sail_core.specs.declared.patterns.Head.TheVariants as H;
ghost use Rattle.value_indices.specs.declared.indices.Indices.{out-Indices};
ghost use Rattle.value_indices.specs.Walking as walk;
ghost use Rattle.pattern_notes.specs.Patterns as patterns;
ghost use Rattle.pattern_leaves.specs.Payloads as payloads;
ghost use Rattle.pattern_leaves.specs.Settings as settings;

use crate::matching::Matching;
use crate::several::{
    match_cons, match_constructor, match_cut, match_items, match_never, match_parts, match_vector,
};
use call_arguments::{parameters_of, type_parameters};
use pattern_leaves::{Around, Bound, meet_literal, wrong_pattern};
use sail_base::{Items, Place};
use sail_core::{Head, Pattern};
use sail_types::{Index, Num};
use std::alloc::{AllocError, Global};
use value_indices::{Indices, Reading, Walking};

/// A head over these parts; of a value that doesn't exist names are of none. The one error is want of memory.
#[cycle(matched)]
pub(crate) fn match_opened(
    alloc: Global,
    place: Place,
    head: &Head,
    parts: &[Pattern],
    around: &Around<'_>,
    how: Matching,
    indices: &Indices,
    walking: &mut Walking,
) -> Result<Items<Bound>, AllocError>
    ensures found { IfOk result (λ found. found
        ≡ walk.got (patterns.opens_met place head.now (map patterns.look parts.now) (settings.around_of around.now) how (out-Indices indices.now))
        (walk.seen walking.old)) }
    ensures walked { OnOk result (walk.seen walking.new
        ≡ walk.run (patterns.opens_met place head.now (map patterns.look parts.now) (settings.around_of around.now) how (out-Indices indices.now))
        (walk.seen walking.old)) }
{
    match indices {
        Indices::Never => match_never(alloc, parts, around, how, walking),
        _ => match_head(alloc, place, head, parts, around, how, indices, walking),
    }
}

/// A head over these parts, of a value that exists. The one error is want of memory.
#[cycle(matched)]
fn match_head(
    alloc: Global,
    place: Place,
    head: &Head,
    parts: &[Pattern],
    around: &Around<'_>,
    how: Matching,
    indices: &Indices,
    walking: &mut Walking,
) -> Result<Items<Bound>, AllocError>
    ensures found { IfOk result (λ found. found
        ≡ walk.got (patterns.head_met place head.now (map patterns.look parts.now) (settings.around_of around.now) how (out-Indices indices.now))
        (walk.seen walking.old)) }
    ensures walked { OnOk result (walk.seen walking.new
        ≡ walk.run (patterns.head_met place head.now (map patterns.look parts.now) (settings.around_of around.now) how (out-Indices indices.now))
        (walk.seen walking.old)) }
{
    match head {
        Head::Is(literal) => meet_literal(alloc, place, how.in_case, literal, indices, walking),
        Head::Tuple => match_tuple(alloc, place, parts, around, how, indices, walking),
        Head::Constructor(union, constructor) => {
            match_union(
                alloc,
                place,
                *union,
                *constructor,
                parts,
                around,
                how,
                indices,
                walking,
            )
        }
        Head::Vector => match_items_of_vector(alloc, place, parts, around, how, indices, walking),
        Head::List => match_list(alloc, place, parts, around, how, indices, walking),
        Head::Cons => match_first(alloc, place, parts, around, how, indices, walking),
        Head::Cut(widths) => {
            match_bits(
                alloc,
                place,
                widths.as_slice(),
                parts,
                around,
                how,
                indices,
                walking,
            )
        }
    }
}

/// A tuple. The one error is want of memory.
#[cycle(matched)]
fn match_tuple(
    alloc: Global,
    place: Place,
    parts: &[Pattern],
    around: &Around<'_>,
    how: Matching,
    indices: &Indices,
    walking: &mut Walking,
) -> Result<Items<Bound>, AllocError>
    ensures found { IfOk result (λ found. found
        ≡ walk.got (patterns.head_met place H.Tuple (map patterns.look parts.now) (settings.around_of around.now) how (out-Indices indices.now))
        (walk.seen walking.old)) }
    ensures walked { OnOk result (walk.seen walking.new
        ≡ walk.run (patterns.head_met place H.Tuple (map patterns.look parts.now) (settings.around_of around.now) how (out-Indices indices.now))
        (walk.seen walking.old)) }
{
    match indices {
        Indices::Tuple(values) => match_parts(
            alloc,
            place,
            parts,
            around,
            how,
            values.as_slice(),
            walking,
        ),
        _ => wrong_pattern(alloc, place, walking),
    }
}

/// Whether a value of a named type, by its place in the table and its Type arguments, is of the union at the first place: it has as many of them
/// as that has Type variables.
fn is_union(around: &Around<'_>, union: u32, own: u32, types: &[Reading]) -> bool
    ensures { result ≡ patterns.is_union (settings.around_of around.now) union own types.now }
{
    union == own && types.len() == type_parameters(parameters_of(around.types, union))
}

/// A constructor. The one error is want of memory.
#[cycle(matched)]
fn match_union(
    alloc: Global,
    place: Place,
    union: u32,
    constructor: u32,
    parts: &[Pattern],
    around: &Around<'_>,
    how: Matching,
    indices: &Indices,
    walking: &mut Walking,
) -> Result<Items<Bound>, AllocError>
    ensures found { IfOk result (λ found. found
        ≡ walk.got (patterns.head_met place (H.Constructor union constructor) (map patterns.look parts.now) (settings.around_of around.now) how
        (out-Indices indices.now))
        (walk.seen walking.old)) }
    ensures walked { OnOk result (walk.seen walking.new
        ≡ walk.run (patterns.head_met place (H.Constructor union constructor) (map patterns.look parts.now) (settings.around_of around.now) how
        (out-Indices indices.now))
        (walk.seen walking.old)) }
{
    match indices {
        Indices::Named(own, numbers, types) => {
            match_own(
                alloc,
                place,
                union,
                *own,
                constructor,
                parts,
                around,
                how,
                numbers.as_slice(),
                types.as_slice(),
                walking,
            )
        }
        _ => wrong_pattern(alloc, place, walking),
    }
}

/// A constructor, of the union that the value is of or of another one. The one error is want of memory.
#[cycle(matched)]
fn match_own(
    alloc: Global,
    place: Place,
    union: u32,
    own: u32,
    constructor: u32,
    parts: &[Pattern],
    around: &Around<'_>,
    how: Matching,
    numbers: &[Index],
    types: &[Reading],
    walking: &mut Walking,
) -> Result<Items<Bound>, AllocError>
    ensures found { IfOk result (λ found. found
        ≡ walk.got (patterns.union_met place (patterns.is_union (settings.around_of around.now) union own types.now)
        (patterns.constructor_met place (map patterns.look parts.now) (settings.around_of around.now) how
        (payloads.payload_readings (payloads.payload_types (length parts.now) (payload_in around.now.types.now union constructor))
        numbers.now types.now))) (walk.seen walking.old)) }
    ensures walked { OnOk result (walk.seen walking.new
        ≡ walk.run (patterns.union_met place (patterns.is_union (settings.around_of around.now) union own types.now)
        (patterns.constructor_met place (map patterns.look parts.now) (settings.around_of around.now) how
        (payloads.payload_readings (payloads.payload_types (length parts.now) (payload_in around.now.types.now union constructor))
        numbers.now types.now))) (walk.seen walking.old)) }
{
    if is_union(around, union, own, types) {
        match_constructor(
            alloc,
            place,
            union,
            constructor,
            parts,
            around,
            how,
            numbers,
            types,
            walking,
        )
    } else {
        wrong_pattern(alloc, place, walking)
    }
}

/// A vector. The one error is want of memory.
#[cycle(matched)]
fn match_items_of_vector(
    alloc: Global,
    place: Place,
    parts: &[Pattern],
    around: &Around<'_>,
    how: Matching,
    indices: &Indices,
    walking: &mut Walking,
) -> Result<Items<Bound>, AllocError>
    ensures found { IfOk result (λ found. found
        ≡ walk.got (patterns.head_met place H.Vector (map patterns.look parts.now) (settings.around_of around.now) how (out-Indices indices.now))
        (walk.seen walking.old)) }
    ensures walked { OnOk result (walk.seen walking.new
        ≡ walk.run (patterns.head_met place H.Vector (map patterns.look parts.now) (settings.around_of around.now) how (out-Indices indices.now))
        (walk.seen walking.old)) }
{
    match indices {
        Indices::Vector(length, item) => match_vector(
            alloc,
            place,
            parts,
            around,
            how,
            length,
            item.get(),
            walking,
        ),
        _ => wrong_pattern(alloc, place, walking),
    }
}

/// A list of just so many items. The one error is want of memory.
#[cycle(matched)]
fn match_list(
    alloc: Global,
    place: Place,
    parts: &[Pattern],
    around: &Around<'_>,
    how: Matching,
    indices: &Indices,
    walking: &mut Walking,
) -> Result<Items<Bound>, AllocError>
    ensures found { IfOk result (λ found. found
        ≡ walk.got (patterns.head_met place H.List (map patterns.look parts.now) (settings.around_of around.now) how (out-Indices indices.now))
        (walk.seen walking.old)) }
    ensures walked { OnOk result (walk.seen walking.new
        ≡ walk.run (patterns.head_met place H.List (map patterns.look parts.now) (settings.around_of around.now) how (out-Indices indices.now))
        (walk.seen walking.old)) }
{
    match indices {
        Indices::List(item) => match_items(alloc, place, parts, around, how, item.get(), walking),
        _ => wrong_pattern(alloc, place, walking),
    }
}

/// A list of a first item and the others. The one error is want of memory.
#[cycle(matched)]
fn match_first(
    alloc: Global,
    place: Place,
    parts: &[Pattern],
    around: &Around<'_>,
    how: Matching,
    indices: &Indices,
    walking: &mut Walking,
) -> Result<Items<Bound>, AllocError>
    ensures found { IfOk result (λ found. found
        ≡ walk.got (patterns.head_met place H.Cons (map patterns.look parts.now) (settings.around_of around.now) how (out-Indices indices.now))
        (walk.seen walking.old)) }
    ensures walked { OnOk result (walk.seen walking.new
        ≡ walk.run (patterns.head_met place H.Cons (map patterns.look parts.now) (settings.around_of around.now) how (out-Indices indices.now))
        (walk.seen walking.old)) }
{
    match indices {
        Indices::List(item) => match_cons(alloc, place, parts, around, how, item.get(), walking),
        _ => wrong_pattern(alloc, place, walking),
    }
}

/// A concatenation. The one error is want of memory.
#[cycle(matched)]
fn match_bits(
    alloc: Global,
    place: Place,
    widths: &[Option<Num>],
    parts: &[Pattern],
    around: &Around<'_>,
    how: Matching,
    indices: &Indices,
    walking: &mut Walking,
) -> Result<Items<Bound>, AllocError>
    ensures found { IfOk result (λ found. found
        ≡ walk.got (patterns.head_met place (H.Cut widths.now) (map patterns.look parts.now) (settings.around_of around.now) how (out-Indices indices.now))
        (walk.seen walking.old)) }
    ensures walked { OnOk result (walk.seen walking.new
        ≡ walk.run (patterns.head_met place (H.Cut widths.now) (map patterns.look parts.now) (settings.around_of around.now) how (out-Indices indices.now))
        (walk.seen walking.old)) }
{
    match indices {
        Indices::Bits(width) => match_cut(alloc, place, parts, around, how, widths, width, walking),
        _ => wrong_pattern(alloc, place, walking),
    }
}
