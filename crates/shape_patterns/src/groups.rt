//! Patterns with parts: groups, concatenations, `::`, `as` and types that are written.
ghost use Rattle.std.specs.Prelude.{◌≡◌, ◌++◌, ◌∷◌, length, map, replicate, slice_get, IfOk, OnOk};
ghost use Rattle.sail_syntax.specs.declared.words.Brackets.TheVariants as B;
ghost use Rattle.sail_types.specs.declared.shapes.Shape.TheVariants as V;
ghost use Rattle.shape_rules.specs.Around.{setting_of};
ghost use Rattle.shape_rules.specs.Findings.{first_failure};
ghost use Rattle.shape_rules.specs.Patterns.{piece, look as look_of, or_never, each_looked, group_look, concat_look, cons_look, as_look, typed_look};
ghost use Rattle.shape_widths.specs.Known.{widths_of};
ghost use Rattle.shape_widths.specs.Parts.{further};
ghost use Rattle.shape_patterns.specs.Pieces.{pieces_of, tuple_look};

use crate::leaves::{look_only_unit, look_unit, typed_form};
use crate::looking::look;
use crate::nodes::{cons, constant_of, opens, over_one};
use crate::shapes::{
    any_list, any_tuple, any_vector, list_item, note_shape, see_as, tuple_parts, vector_item,
};
use sail_base::{Boxed, Items, Place};
use sail_core::{Form, Head, Pattern};
use sail_syntax::{Brackets, Joined, Name, Pat, TyExp};
use sail_types::Shape;
use shape_rules::{Around, First, Local};
use shape_widths::{Given, cut, note_written, shape_in, written};
use std::alloc::{AllocError, Global};

/// Patterns in brackets. The one error is want of memory.
#[cycle(look)]
pub(crate) fn look_group(
    alloc: Global,
    place: Place,
    brackets: Brackets,
    parts: &[Pat],
    around: &Around<'_>,
    widths: &[Given],
    subject: &Shape,
    binds: &mut Items<Local>,
    first: &mut First,
) -> Result<Pattern, AllocError>
    ensures pattern { IfOk result (λ made. made
        ≡ (group_look place brackets (map piece parts.now) (setting_of around.now) (widths_of widths.now) subject.now).pattern) }
    ensures binds { OnOk result (binds.new
        ≡ binds.old ++ (group_look place brackets (map piece parts.now) (setting_of around.now) (widths_of widths.now) subject.now).binds) }
    ensures failures { OnOk result (first.new.error
        ≡ first_failure first.old.error (group_look place brackets (map piece parts.now) (setting_of around.now) (widths_of widths.now) subject.now).faults) }
{
    match brackets {
        Brackets::Tuple => {
            if parts.is_empty() {
                look_unit(alloc, place, subject, first)
            } else {
                look_tuple(alloc, place, parts, around, widths, subject, binds, first)
            }
        }
        Brackets::Vector => look_vector(alloc, place, parts, around, widths, subject, binds, first),
        Brackets::List => look_list(alloc, place, parts, around, widths, subject, binds, first),
    }
}

/// A tuple. The one error is want of memory.
#[tactic(auto, using(shape_rules::proofs::Firsts::first_failure_append, crate::proofs::Parts::as_many))]
#[cycle(look)]
pub(crate) fn look_tuple(
    alloc: Global,
    place: Place,
    parts: &[Pat],
    around: &Around<'_>,
    widths: &[Given],
    subject: &Shape,
    binds: &mut Items<Local>,
    first: &mut First,
) -> Result<Pattern, AllocError>
    ensures pattern { IfOk result (λ made. made ≡ (tuple_look place (map piece parts.now) (setting_of around.now) (widths_of widths.now) subject.now).pattern) }
    ensures binds { OnOk result (binds.new
        ≡ binds.old ++ (tuple_look place (map piece parts.now) (setting_of around.now) (widths_of widths.now) subject.now).binds) }
    ensures failures { OnOk result (first.new.error
        ≡ first_failure first.old.error (tuple_look place (map piece parts.now) (setting_of around.now) (widths_of widths.now) subject.now).faults) }
{
    let own = any_tuple(alloc, parts.len())?;
    let seen = see_as(alloc, place, subject, &own, first)?;
    let patterns = look_each(
        alloc,
        parts,
        around,
        widths,
        tuple_parts(&seen),
        binds,
        first,
    )?;
    Ok(opens(place, Head::Tuple, patterns))
}

/// A vector. The one error is want of memory.
#[tactic(auto, using(shape_rules::proofs::Firsts::first_failure_append))]
#[cycle(look)]
fn look_vector(
    alloc: Global,
    place: Place,
    parts: &[Pat],
    around: &Around<'_>,
    widths: &[Given],
    subject: &Shape,
    binds: &mut Items<Local>,
    first: &mut First,
) -> Result<Pattern, AllocError>
    ensures pattern { IfOk result (λ made. made
        ≡ (group_look place B.Vector (map piece parts.now) (setting_of around.now) (widths_of widths.now) subject.now).pattern) }
    ensures binds { OnOk result (binds.new
        ≡ binds.old ++ (group_look place B.Vector (map piece parts.now) (setting_of around.now) (widths_of widths.now) subject.now).binds) }
    ensures failures { OnOk result (first.new.error
        ≡ first_failure first.old.error (group_look place B.Vector (map piece parts.now) (setting_of around.now) (widths_of widths.now) subject.now).faults) }
{
    let own = any_vector(alloc)?;
    note_shape(alloc, place, subject, &own, first)?;
    let item = vector_item(alloc, subject)?;
    let patterns = look_same(alloc, parts, around, widths, &item, binds, first)?;
    Ok(opens(place, Head::Vector, patterns))
}

/// A list of just so many items. The one error is want of memory.
#[tactic(auto, using(shape_rules::proofs::Firsts::first_failure_append))]
#[cycle(look)]
fn look_list(
    alloc: Global,
    place: Place,
    parts: &[Pat],
    around: &Around<'_>,
    widths: &[Given],
    subject: &Shape,
    binds: &mut Items<Local>,
    first: &mut First,
) -> Result<Pattern, AllocError>
    ensures pattern { IfOk result (λ made. made
        ≡ (group_look place B.List (map piece parts.now) (setting_of around.now) (widths_of widths.now) subject.now).pattern) }
    ensures binds { OnOk result (binds.new
        ≡ binds.old ++ (group_look place B.List (map piece parts.now) (setting_of around.now) (widths_of widths.now) subject.now).binds) }
    ensures failures { OnOk result (first.new.error
        ≡ first_failure first.old.error (group_look place B.List (map piece parts.now) (setting_of around.now) (widths_of widths.now) subject.now).faults) }
{
    let own = any_list(alloc)?;
    note_shape(alloc, place, subject, &own, first)?;
    let item = list_item(alloc, subject)?;
    let patterns = look_same(alloc, parts, around, widths, &item, binds, first)?;
    Ok(opens(place, Head::List, patterns))
}

/// A concatenation. The one error is want of memory.
#[tactic(auto, using(shape_rules::proofs::Firsts::first_failure_append))]
#[cycle(look)]
pub(crate) fn look_concat(
    alloc: Global,
    place: Place,
    head: &Pat,
    second: &Pat,
    more: &[Joined],
    around: &Around<'_>,
    widths: &[Given],
    subject: &Shape,
    binds: &mut Items<Local>,
    first: &mut First,
) -> Result<Pattern, AllocError>
    ensures pattern { IfOk result (λ made. made
        ≡ (concat_look place (piece head.now ∷ piece second.now ∷ map further more.now) (setting_of around.now) (widths_of widths.now) subject.now).pattern) }
    ensures binds { OnOk result (binds.new
        ≡ binds.old ++ (concat_look place (piece head.now ∷ piece second.now ∷ map further more.now) (setting_of around.now)
        (widths_of widths.now) subject.now).binds) }
    ensures failures { OnOk result (first.new.error
        ≡ first_failure first.old.error (concat_look place (piece head.now ∷ piece second.now ∷ map further more.now) (setting_of around.now)
        (widths_of widths.now) subject.now).faults) }
{
    note_shape(alloc, place, subject, &Shape::Bits, first)?;
    let widths_of_parts = cut(alloc, head, second, more, around, widths, first)?;
    let patterns = look_cut(alloc, head, second, more, around, widths, binds, first)?;
    Ok(opens(place, Head::Cut(widths_of_parts), patterns))
}

/// The parts of a concatenation, each matched with bits. The one error is want of memory.
#[tactic(auto, using(shape_rules::proofs::Firsts::first_failure_append))]
#[cycle(look)]
fn look_cut(
    alloc: Global,
    head: &Pat,
    second: &Pat,
    more: &[Joined],
    around: &Around<'_>,
    widths: &[Given],
    binds: &mut Items<Local>,
    first: &mut First,
) -> Result<Items<Pattern>, AllocError>
    ensures patterns { IfOk result (λ made. made
        ≡ (each_looked (piece head.now ∷ piece second.now ∷ map further more.now) (setting_of around.now) (widths_of widths.now) (replicate (length
        (piece head.now ∷ piece second.now ∷ map further more.now)) V.Bits)).patterns) }
    ensures binds { OnOk result (binds.new
        ≡ binds.old ++ (each_looked (piece head.now ∷ piece second.now ∷ map further more.now) (setting_of around.now) (widths_of widths.now) (replicate
        (length (piece head.now ∷ piece second.now ∷ map further more.now)) V.Bits)).binds) }
    ensures failures { OnOk result (first.new.error
        ≡ first_failure first.old.error (each_looked (piece head.now ∷ piece second.now ∷ map further more.now) (setting_of around.now)
        (widths_of widths.now) (replicate (length (piece head.now ∷ piece second.now ∷ map further more.now)) V.Bits)).faults) }
{
    let mut patterns = Items::new(alloc);
    patterns.push(look(alloc, head, around, widths, &Shape::Bits, binds, first)?)?;
    patterns.push(look(alloc, second, around, widths, &Shape::Bits, binds, first)?)?;
    look_further(alloc, more, around, widths, &mut patterns, binds, first)?;
    Ok(patterns)
}

/// Puts the further parts of a concatenation behind others. The one error is want of memory.
#[tactic(auto, using(shape_rules::proofs::Firsts::first_failure_append))]
#[cycle(look)]
fn look_further(
    alloc: Global,
    more: &[Joined],
    around: &Around<'_>,
    widths: &[Given],
    patterns: &mut Items<Pattern>,
    binds: &mut Items<Local>,
    first: &mut First,
) -> Result<(), AllocError>
    ensures patterns { OnOk result (patterns.new
        ≡ patterns.old ++ (each_looked (map further more.now) (setting_of around.now) (widths_of widths.now) (replicate (length
        (map further more.now)) V.Bits)).patterns) }
    ensures binds { OnOk result (binds.new
        ≡ binds.old ++ (each_looked (map further more.now) (setting_of around.now) (widths_of widths.now) (replicate (length
        (map further more.now)) V.Bits)).binds) }
    ensures failures { OnOk result (first.new.error
        ≡ first_failure first.old.error (each_looked (map further more.now) (setting_of around.now) (widths_of widths.now) (replicate (length
        (map further more.now)) V.Bits)).faults) }
{
    for next in more {
        patterns.push(look(
            alloc,
            &next.part,
            around,
            widths,
            &Shape::Bits,
            binds,
            first,
        )?)?;
    }
    Ok(())
}

/// A list of a first item and the others. The one error is want of memory.
#[tactic(auto, using(shape_rules::proofs::Firsts::first_failure_append))]
#[cycle(look)]
pub(crate) fn look_cons(
    alloc: Global,
    place: Place,
    head: &Pat,
    tail: &Pat,
    around: &Around<'_>,
    widths: &[Given],
    subject: &Shape,
    binds: &mut Items<Local>,
    first: &mut First,
) -> Result<Pattern, AllocError>
    ensures pattern { IfOk result (λ made. made
        ≡ (cons_look place (piece head.now) (piece tail.now) (setting_of around.now) (widths_of widths.now) subject.now).pattern) }
    ensures binds { OnOk result (binds.new
        ≡ binds.old ++ (cons_look place (piece head.now) (piece tail.now) (setting_of around.now) (widths_of widths.now) subject.now).binds) }
    ensures failures { OnOk result (first.new.error
        ≡ first_failure first.old.error (cons_look place (piece head.now) (piece tail.now) (setting_of around.now) (widths_of widths.now) subject.now).faults) }
{
    let own = any_list(alloc)?;
    note_shape(alloc, place, subject, &own, first)?;
    let item = list_item(alloc, subject)?;
    let head = look(alloc, head, around, widths, &item, binds, first)?;
    let list = Shape::List(Boxed::new(alloc, item)?);
    let tail = look(alloc, tail, around, widths, &list, binds, first)?;
    cons(alloc, place, head, tail)
}

/// A pattern with a name, which is bound behind those of the pattern. The one error is want of memory.
#[cycle(look)]
pub(crate) fn look_as(
    alloc: Global,
    place: Place,
    part: &Pat,
    name: &Name,
    around: &Around<'_>,
    widths: &[Given],
    subject: &Shape,
    binds: &mut Items<Local>,
    first: &mut First,
) -> Result<Pattern, AllocError>
    ensures pattern { IfOk result (λ made. made
        ≡ (as_look place (piece part.now) name.now (setting_of around.now) (widths_of widths.now) subject.now).pattern) }
    ensures binds { OnOk result (binds.new
        ≡ binds.old ++ (as_look place (piece part.now) name.now (setting_of around.now) (widths_of widths.now) subject.now).binds) }
    ensures failures { OnOk result (first.new.error
        ≡ first_failure first.old.error (as_look place (piece part.now) name.now (setting_of around.now) (widths_of widths.now) subject.now).faults) }
{
    let part = look(alloc, part, around, widths, subject, binds, first)?;
    binds.push(constant_of(alloc, name, subject)?)?;
    let text = name.text.clone()?;
    over_one(alloc, place, Form::As(text), part)
}

/// A pattern with a type. The one error is want of memory.
#[tactic(auto, using(shape_rules::proofs::Firsts::first_failure_append))]
#[cycle(look)]
pub(crate) fn look_typed(
    alloc: Global,
    place: Place,
    part: &Pat,
    typ: &TyExp,
    around: &Around<'_>,
    widths: &[Given],
    subject: &Shape,
    binds: &mut Items<Local>,
    first: &mut First,
) -> Result<Pattern, AllocError>
    ensures pattern { IfOk result (λ made. made
        ≡ (typed_look place (piece part.now) typ.now (setting_of around.now) (widths_of widths.now) subject.now).pattern) }
    ensures binds { OnOk result (binds.new
        ≡ binds.old ++ (typed_look place (piece part.now) typ.now (setting_of around.now) (widths_of widths.now) subject.now).binds) }
    ensures failures { OnOk result (first.new.error
        ≡ first_failure first.old.error (typed_look place (piece part.now) typ.now (setting_of around.now) (widths_of widths.now) subject.now).faults) }
{
    note_written(alloc, typ, &around.scope, first)?;
    let own = shape_in(alloc, typ, &around.scope)?;
    let seen = see_as(alloc, place, subject, &own, first)?;
    let part = look(alloc, part, around, widths, &seen, binds, first)?;
    let form = typed_form(written(alloc, typ, &around.scope)?);
    over_one(alloc, place, form, part)
}

/// Several patterns, each matched with values of its shape; of `Never`, where there are no more shapes. As `look` of each, in order.
/// The one error is want of memory.
#[tactic(auto, using(shape_rules::proofs::Firsts::first_failure_append, crate::proofs::Parts::each_more))]
#[cycle(look)]
pub fn look_each(
    alloc: Global,
    parts: &[Pat],
    around: &Around<'_>,
    widths: &[Given],
    subjects: &[Shape],
    binds: &mut Items<Local>,
    first: &mut First,
) -> Result<Items<Pattern>, AllocError>
    ensures patterns { IfOk result (λ made. made ≡ (each_looked (map piece parts.now) (setting_of around.now) (widths_of widths.now) subjects.now).patterns) }
    ensures binds { OnOk result (binds.new
        ≡ binds.old ++ (each_looked (map piece parts.now) (setting_of around.now) (widths_of widths.now) subjects.now).binds) }
    ensures failures { OnOk result (first.new.error
        ≡ first_failure first.old.error (each_looked (map piece parts.now) (setting_of around.now) (widths_of widths.now) subjects.now).faults) }
{
    let mut patterns = Items::new(alloc);
    for (index, part) in parts.iter().enumerate() {
        patterns.push(look_at(alloc, part, around, widths, subjects, index, binds, first)?)?;
    }
    Ok(patterns)
}

/// A pattern that is matched with values of the shape at an index. The one error is want of memory.
#[cycle(look)]
fn look_at(
    alloc: Global,
    pattern: &Pat,
    around: &Around<'_>,
    widths: &[Given],
    subjects: &[Shape],
    index: usize,
    binds: &mut Items<Local>,
    first: &mut First,
) -> Result<Pattern, AllocError>
    ensures pattern { IfOk result (λ made. made
        ≡ (look_of pattern.now (setting_of around.now) (widths_of widths.now) (or_never (slice_get subjects.now index))).pattern) }
    ensures binds { OnOk result (binds.new
        ≡ binds.old ++ (look_of pattern.now (setting_of around.now) (widths_of widths.now) (or_never (slice_get subjects.now index))).binds) }
    ensures failures { OnOk result (first.new.error
        ≡ first_failure first.old.error (look_of pattern.now (setting_of around.now) (widths_of widths.now) (or_never (slice_get subjects.now index))).faults) }
{
    match subjects.get(index) {
        Some(subject) => look(alloc, pattern, around, widths, subject, binds, first),
        None => look(alloc, pattern, around, widths, &Shape::Never, binds, first),
    }
}

/// Several patterns, each matched with values of one shape. The one error is want of memory.
#[tactic(auto, using(shape_rules::proofs::Firsts::first_failure_append))]
#[cycle(look)]
fn look_same(
    alloc: Global,
    parts: &[Pat],
    around: &Around<'_>,
    widths: &[Given],
    subject: &Shape,
    binds: &mut Items<Local>,
    first: &mut First,
) -> Result<Items<Pattern>, AllocError>
    ensures patterns { IfOk result (λ made. made
        ≡ (each_looked (map piece parts.now) (setting_of around.now) (widths_of widths.now) (replicate (length (map piece parts.now)) subject.now)).patterns) }
    ensures binds { OnOk result (binds.new
        ≡ binds.old ++ (each_looked (map piece parts.now) (setting_of around.now) (widths_of widths.now) (replicate (length
        (map piece parts.now)) subject.now)).binds) }
    ensures failures { OnOk result (first.new.error
        ≡ first_failure first.old.error (each_looked (map piece parts.now) (setting_of around.now) (widths_of widths.now) (replicate (length
        (map piece parts.now)) subject.now)).faults) }
{
    let mut patterns = Items::new(alloc);
    for part in parts {
        patterns.push(look(alloc, part, around, widths, subject, binds, first)?)?;
    }
    Ok(patterns)
}

/// `()` alone, or several patterns. The one error is want of memory.
#[cycle(look)]
pub(crate) fn look_pieces(
    alloc: Global,
    place: Place,
    is_unit: bool,
    parts: &[Pat],
    around: &Around<'_>,
    widths: &[Given],
    subjects: &[Shape],
    binds: &mut Items<Local>,
    first: &mut First,
) -> Result<Items<Pattern>, AllocError>
    ensures patterns { IfOk result (λ made. made
        ≡ (each_looked (pieces_of place is_unit parts.now) (setting_of around.now) (widths_of widths.now) subjects.now).patterns) }
    ensures binds { OnOk result (binds.new
        ≡ binds.old ++ (each_looked (pieces_of place is_unit parts.now) (setting_of around.now) (widths_of widths.now) subjects.now).binds) }
    ensures failures { OnOk result (first.new.error
        ≡ first_failure first.old.error (each_looked (pieces_of place is_unit parts.now) (setting_of around.now) (widths_of widths.now) subjects.now).faults) }
{
    if is_unit {
        look_only_unit(alloc, place, subjects, first)
    } else {
        look_each(alloc, parts, around, widths, subjects, binds, first)
    }
}
