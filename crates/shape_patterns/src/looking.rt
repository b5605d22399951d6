//! What each pattern looks at, what it binds, and its failures.
ghost use Rattle.std.specs.Prelude.{◌≡◌, ◌++◌, [], map, IfOk, OnOk};
ghost use Rattle.sail_core.specs.declared.patterns.Head.TheVariants as H;
ghost use Rattle.shape_joins.specs.Learning.{learn};
ghost use Rattle.shape_rules.specs.Around.{setting_of};
ghost use Rattle.shape_rules.specs.Findings.{first_failure};
ghost use Rattle.shape_rules.specs.Patterns.{piece, look as look_of, nevers as nevers_of};
ghost use Rattle.shape_rules.specs.Patterns.{construct_look, callee_look, direction_of, callee_head, direction_look, constructor_look};
ghost use Rattle.shape_rules.specs.Patterns.{constructor_parts, pieces_for, mapping_look_as, which_side as which_side_of, maps, as_one};
ghost use Rattle.shape_widths.specs.Known.{widths_of};
ghost use Rattle.shape_patterns.specs.Pieces.{pieces_of};

use crate::callees::{any_answer, is_bare, part_count, payload_shapes};
use crate::groups::{
    look_as, look_concat, look_cons, look_group, look_pieces, look_tuple, look_typed,
};
use crate::leaves::{look_literal, look_name, look_negative, look_unit, note_first};
use crate::nodes::{leaf, opens, over_one};
use crate::shapes::note_shape;
use sail_base::{Items, Place};
use sail_core::{Callee, Form, Head, Pattern};
use sail_syntax::{Name, Pat};
use sail_types::Shape;
use shape_rules::{Around, Candidate, Doing, First, Local, Mapping, Meant, ShapeError};
use shape_widths::{Given, direction_at, given_at, note_side, which_side, written};
use std::alloc::{AllocError, Global};

/// What a pattern looks at, where it is matched with values of a shape (`Never`, where none is known); puts what it binds behind other
/// names, in the order in which it is bound, and notes its failures. Of bare identifiers some widths may be known.
///
/// A failure is a shape that isn't that of what is matched (M14), a mapping whose sides may share values (M13), a wrong count of
/// parts of a constructor (M15), a variable in a written type that gets no number (M17), and a second part of unknown width
/// in a concatenation (M18). The one error is want of memory.
#[tactic(auto, using(crate::proofs::Opened::of_Wildcard, crate::proofs::Opened::of_Constant, crate::proofs::Opened::of_Negative, crate::proofs::Opened::of_Bind, crate::proofs::Opened::of_Construct, crate::proofs::Opened::of_Group, crate::proofs::Opened::of_Concat, crate::proofs::Opened::of_Cons, crate::proofs::Opened::of_As, crate::proofs::Opened::of_Typed))]
#[cycle(look)]
pub fn look(
    alloc: Global,
    pattern: &Pat,
    around: &Around<'_>,
    widths: &[Given],
    subject: &Shape,
    binds: &mut Items<Local>,
    first: &mut First,
) -> Result<Pattern, AllocError>
    ensures pattern { IfOk result (λ made. made ≡ (look_of pattern.now (setting_of around.now) (widths_of widths.now) subject.now).pattern) }
    ensures binds { OnOk result (binds.new ≡ binds.old ++ (look_of pattern.now (setting_of around.now) (widths_of widths.now) subject.now).binds) }
    ensures failures { OnOk result (first.new.error
        ≡ first_failure first.old.error (look_of pattern.now (setting_of around.now) (widths_of widths.now) subject.now).faults) }
{
    match pattern {
        Pat::Wildcard(place) => Ok(leaf(alloc, *place, Form::Any)),
        Pat::Constant(place, literal) => look_literal(alloc, *place, literal, subject, first),
        Pat::Negative(place, n) => look_negative(alloc, *place, *n, subject, first),
        Pat::Bind(name) => look_name(alloc, name, around, subject, binds, first),
        Pat::Construct(name, parts) => look_construct(
            alloc,
            name,
            parts.as_slice(),
            around,
            widths,
            subject,
            binds,
            first,
        ),
        Pat::Group(place, brackets, parts) => {
            look_group(
                alloc,
                *place,
                *brackets,
                parts.as_slice(),
                around,
                widths,
                subject,
                binds,
                first,
            )
        }
        Pat::Concat {
            place,
            first: head,
            second,
            more,
        } => {
            look_concat(
                alloc,
                *place,
                head.get(),
                second.get(),
                more.as_slice(),
                around,
                widths,
                subject,
                binds,
                first,
            )
        }
        Pat::Cons(place, head, tail) => {
            look_cons(
                alloc,
                *place,
                head.get(),
                tail.get(),
                around,
                widths,
                subject,
                binds,
                first,
            )
        }
        Pat::As(place, part, name) => look_as(
            alloc,
            *place,
            part.get(),
            name,
            around,
            widths,
            subject,
            binds,
            first,
        ),
        Pat::Typed(place, part, typ) => look_typed(
            alloc,
            *place,
            part.get(),
            typ,
            around,
            widths,
            subject,
            binds,
            first,
        ),
    }
}

/// `id(p, q)`. The one error is want of memory.
#[cycle(look)]
fn look_construct(
    alloc: Global,
    name: &Name,
    parts: &[Pat],
    around: &Around<'_>,
    widths: &[Given],
    subject: &Shape,
    binds: &mut Items<Local>,
    first: &mut First,
) -> Result<Pattern, AllocError>
    ensures pattern { IfOk result (λ made. made
        ≡ (construct_look name.now (map piece parts.now) ((setting_of around.now).value name.now.text) (setting_of around.now)
        (widths_of widths.now) subject.now).pattern) }
    ensures binds { OnOk result (binds.new
        ≡ binds.old ++ (construct_look name.now (map piece parts.now) ((setting_of around.now).value name.now.text) (setting_of around.now)
        (widths_of widths.now) subject.now).binds) }
    ensures failures { OnOk result (first.new.error
        ≡ first_failure first.old.error (construct_look name.now (map piece parts.now) ((setting_of around.now).value name.now.text) (setting_of around.now)
        (widths_of widths.now) subject.now).faults) }
{
    match around.value(name.text.as_str()) {
        Some(Meant::Callee(callee)) => look_callee(
            alloc, name, callee, parts, around, widths, subject, binds, first,
        ),
        Some(Meant::Mapping(mapping)) => look_mapping(
            alloc, name.place, mapping, parts, around, widths, subject, binds, first,
        ),
        _ => Ok(leaf(alloc, name.place, Form::Any)),
    }
}

/// A constructor, or a direction of a mapping. The one error is want of memory.
#[cycle(look)]
fn look_callee(
    alloc: Global,
    name: &Name,
    callee: &Candidate,
    parts: &[Pat],
    around: &Around<'_>,
    widths: &[Given],
    subject: &Shape,
    binds: &mut Items<Local>,
    first: &mut First,
) -> Result<Pattern, AllocError>
    ensures pattern { IfOk result (λ made. made
        ≡ (callee_look name.now (map piece parts.now) callee.now (direction_of callee.now.doing) (callee_head callee.now.doing) (setting_of around.now)
        (widths_of widths.now) subject.now).pattern) }
    ensures binds { OnOk result (binds.new
        ≡ binds.old ++ (callee_look name.now (map piece parts.now) callee.now (direction_of callee.now.doing) (callee_head callee.now.doing)
        (setting_of around.now) (widths_of widths.now) subject.now).binds) }
    ensures failures { OnOk result (first.new.error
        ≡ first_failure first.old.error (callee_look name.now (map piece parts.now) callee.now (direction_of callee.now.doing) (callee_head callee.now.doing)
        (setting_of around.now) (widths_of widths.now) subject.now).faults) }
{
    match callee.doing {
        Doing::Calls(Callee::Converts(direction)) => look_direction(
            alloc, name, direction, callee, parts, around, widths, subject, binds, first,
        ),
        Doing::Calls(Callee::Constructor(union, constructor)) => {
            look_constructor(
                alloc,
                name,
                union,
                constructor,
                callee,
                parts,
                around,
                widths,
                subject,
                binds,
                first,
            )
        }
        _ => Ok(leaf(alloc, name.place, Form::Any)),
    }
}

/// A constructor with its parts. The one error is want of memory.
#[tactic(auto, using(crate::proofs::Parts::bare_pieces))]
#[cycle(look)]
fn look_constructor(
    alloc: Global,
    name: &Name,
    union: u32,
    constructor: u32,
    callee: &Candidate,
    parts: &[Pat],
    around: &Around<'_>,
    widths: &[Given],
    subject: &Shape,
    binds: &mut Items<Local>,
    first: &mut First,
) -> Result<Pattern, AllocError>
    ensures pattern { IfOk result (λ made. made
        ≡ (constructor_look name.now (H.Constructor union constructor) callee.now (pieces_for name.now.place callee.now.params (map piece parts.now))
        (setting_of around.now) (widths_of widths.now) subject.now).pattern) }
    ensures binds { OnOk result (binds.new
        ≡ binds.old ++ (constructor_look name.now (H.Constructor union constructor) callee.now (pieces_for name.now.place callee.now.params
        (map piece parts.now)) (setting_of around.now) (widths_of widths.now) subject.now).binds) }
    ensures failures { OnOk result (first.new.error
        ≡ first_failure first.old.error (constructor_look name.now (H.Constructor union constructor) callee.now (pieces_for name.now.place callee.now.params
        (map piece parts.now)) (setting_of around.now) (widths_of widths.now) subject.now).faults) }
{
    let is_unit = is_bare(callee.params.as_slice(), parts);
    look_counted(
        alloc,
        name,
        union,
        constructor,
        callee,
        is_unit,
        parts,
        around,
        widths,
        subject,
        binds,
        first,
    )
}

/// A constructor with `()` or with parts. The one error is want of memory.
#[tactic(auto, using(crate::proofs::Parts::counted))]
#[cycle(look)]
fn look_counted(
    alloc: Global,
    name: &Name,
    union: u32,
    constructor: u32,
    callee: &Candidate,
    is_unit: bool,
    parts: &[Pat],
    around: &Around<'_>,
    widths: &[Given],
    subject: &Shape,
    binds: &mut Items<Local>,
    first: &mut First,
) -> Result<Pattern, AllocError>
    ensures pattern { IfOk result (λ made. made
        ≡ (constructor_look name.now (H.Constructor union constructor) callee.now (pieces_of name.now.place is_unit parts.now) (setting_of around.now)
        (widths_of widths.now) subject.now).pattern) }
    ensures binds { OnOk result (binds.new
        ≡ binds.old ++ (constructor_look name.now (H.Constructor union constructor) callee.now (pieces_of name.now.place is_unit parts.now)
        (setting_of around.now) (widths_of widths.now) subject.now).binds) }
    ensures failures { OnOk result (first.new.error
        ≡ first_failure first.old.error (constructor_look name.now (H.Constructor union constructor) callee.now (pieces_of name.now.place is_unit parts.now)
        (setting_of around.now) (widths_of widths.now) subject.now).faults) }
{
    let found = part_count(is_unit, parts);
    if callee.params.len() != found {
        first.note(ShapeError::Arity {
            place: name.place,
            wanted: callee.params.len(),
            found,
        });
        let patterns = look_pieces(
            alloc,
            name.place,
            is_unit,
            parts,
            around,
            widths,
            &[],
            binds,
            first,
        )?;
        return Ok(opens(name.place, Head::Constructor(union, constructor), patterns));
    }
    look_payload(
        alloc,
        name,
        union,
        constructor,
        callee,
        is_unit,
        parts,
        around,
        widths,
        subject,
        binds,
        first,
    )
}

/// A constructor with as many parts as it takes. The one error is want of memory.
#[tactic(auto, using(shape_rules::proofs::Firsts::first_failure_append))]
#[cycle(look)]
fn look_payload(
    alloc: Global,
    name: &Name,
    union: u32,
    constructor: u32,
    callee: &Candidate,
    is_unit: bool,
    parts: &[Pat],
    around: &Around<'_>,
    widths: &[Given],
    subject: &Shape,
    binds: &mut Items<Local>,
    first: &mut First,
) -> Result<Pattern, AllocError>
    ensures pattern { IfOk result (λ made. made
        ≡ (constructor_parts name.now (H.Constructor union constructor) callee.now (pieces_of name.now.place is_unit parts.now)
        (learn callee.now.answer subject.now (nevers_of callee.now.variables)) (setting_of around.now) (widths_of widths.now) subject.now).pattern) }
    ensures binds { OnOk result (binds.new
        ≡ binds.old ++ (constructor_parts name.now (H.Constructor union constructor) callee.now (pieces_of name.now.place is_unit parts.now)
        (learn callee.now.answer subject.now (nevers_of callee.now.variables)) (setting_of around.now) (widths_of widths.now) subject.now).binds) }
    ensures failures { OnOk result (first.new.error
        ≡ first_failure first.old.error (constructor_parts name.now (H.Constructor union constructor) callee.now (pieces_of name.now.place is_unit parts.now)
        (learn callee.now.answer subject.now (nevers_of callee.now.variables)) (setting_of around.now) (widths_of widths.now) subject.now).faults) }
{
    let own = any_answer(alloc, callee)?;
    note_shape(alloc, name.place, subject, &own, first)?;
    let shapes = payload_shapes(alloc, callee, subject)?;
    let patterns = look_pieces(
        alloc,
        name.place,
        is_unit,
        parts,
        around,
        widths,
        shapes.as_slice(),
        binds,
        first,
    )?;
    Ok(opens(name.place, Head::Constructor(union, constructor), patterns))
}

/// A direction of a mapping, by its name. The one error is want of memory.
#[tactic(auto, using(shape_rules::proofs::Firsts::first_failure_append))]
#[cycle(look)]
fn look_direction(
    alloc: Global,
    name: &Name,
    direction: u32,
    callee: &Candidate,
    parts: &[Pat],
    around: &Around<'_>,
    widths: &[Given],
    subject: &Shape,
    binds: &mut Items<Local>,
    first: &mut First,
) -> Result<Pattern, AllocError>
    ensures pattern { IfOk result (λ made. made
        ≡ (direction_look name.now direction callee.now (map piece parts.now) (setting_of around.now) (widths_of widths.now) subject.now).pattern) }
    ensures binds { OnOk result (binds.new
        ≡ binds.old ++ (direction_look name.now direction callee.now (map piece parts.now) (setting_of around.now) (widths_of widths.now) subject.now).binds) }
    ensures failures { OnOk result (first.new.error
        ≡ first_failure first.old.error (direction_look name.now direction callee.now (map piece parts.now) (setting_of around.now)
        (widths_of widths.now) subject.now).faults) }
{
    note_first(alloc, name.place, subject, callee.params.as_slice(), first)?;
    look_maps(
        alloc,
        name.place,
        direction,
        parts,
        around,
        widths,
        &callee.answer,
        binds,
        first,
    )
}

/// A direction of a mapping that gives values of a shape. The one error is want of memory.
#[cycle(look)]
fn look_maps(
    alloc: Global,
    place: Place,
    direction: u32,
    parts: &[Pat],
    around: &Around<'_>,
    widths: &[Given],
    given: &Shape,
    binds: &mut Items<Local>,
    first: &mut First,
) -> Result<Pattern, AllocError>
    ensures pattern { IfOk result (λ made. made
        ≡ (maps place direction [] (as_one place (map piece parts.now) (setting_of around.now) (widths_of widths.now) given.now)).pattern) }
    ensures binds { OnOk result (binds.new
        ≡ binds.old ++ (maps place direction [] (as_one place (map piece parts.now) (setting_of around.now) (widths_of widths.now) given.now)).binds) }
    ensures failures { OnOk result (first.new.error
        ≡ first_failure first.old.error (maps place direction [] (as_one place (map piece parts.now) (setting_of around.now)
        (widths_of widths.now) given.now)).faults) }
{
    let part = look_one(alloc, place, parts, around, widths, given, binds, first)?;
    over_one(alloc, place, Form::Maps(direction), part)
}

/// A mapping, in the direction from the side that is matched. The one error is want of memory.
#[tactic(auto, using(shape_rules::proofs::Firsts::first_failure_append, crate::proofs::Parts::mapping_looked))]
#[cycle(look)]
fn look_mapping(
    alloc: Global,
    place: Place,
    mapping: &Mapping,
    parts: &[Pat],
    around: &Around<'_>,
    widths: &[Given],
    subject: &Shape,
    binds: &mut Items<Local>,
    first: &mut First,
) -> Result<Pattern, AllocError>
    ensures pattern { IfOk result (λ made. made
        ≡ (mapping_look_as place mapping.now (map piece parts.now) (which_side_of mapping.now subject.now) (setting_of around.now)
        (widths_of widths.now) subject.now).pattern) }
    ensures binds { OnOk result (binds.new
        ≡ binds.old ++ (mapping_look_as place mapping.now (map piece parts.now) (which_side_of mapping.now subject.now) (setting_of around.now)
        (widths_of widths.now) subject.now).binds) }
    ensures failures { OnOk result (first.new.error
        ≡ first_failure first.old.error (mapping_look_as place mapping.now (map piece parts.now) (which_side_of mapping.now subject.now)
        (setting_of around.now) (widths_of widths.now) subject.now).faults) }
{
    let side = which_side(alloc, mapping, subject)?;
    note_side(alloc, place, mapping, side, first)?;
    let direction = direction_at(mapping, side)?;
    let given = given_at(alloc, mapping, side)?;
    look_maps(
        alloc, place, direction, parts, around, widths, &given, binds, first,
    )
}

/// What is one value: `()`, a pattern, or a tuple of several. The one error is want of memory.
#[cycle(look)]
pub fn look_one(
    alloc: Global,
    place: Place,
    parts: &[Pat],
    around: &Around<'_>,
    widths: &[Given],
    subject: &Shape,
    binds: &mut Items<Local>,
    first: &mut First,
) -> Result<Pattern, AllocError>
    ensures pattern { IfOk result (λ made. made ≡ (as_one place (map piece parts.now) (setting_of around.now) (widths_of widths.now) subject.now).pattern) }
    ensures binds { OnOk result (binds.new
        ≡ binds.old ++ (as_one place (map piece parts.now) (setting_of around.now) (widths_of widths.now) subject.now).binds) }
    ensures failures { OnOk result (first.new.error
        ≡ first_failure first.old.error (as_one place (map piece parts.now) (setting_of around.now) (widths_of widths.now) subject.now).faults) }
{
    match parts {
        [] => look_unit(alloc, place, subject, first),
        [part] => look(alloc, part, around, widths, subject, binds, first),
        _ => look_tuple(alloc, place, parts, around, widths, subject, binds, first),
    }
}
