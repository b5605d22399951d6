//! Calls by the name of their callee.
ghost use Rattle.std.specs.Prelude.{◌≡◌, ◌<◌, ◌∷◌, [], map, IfOk, OnOk};
ghost use denote.Param.Weighed.{most};
ghost use Rattle.sail_syntax.specs.declared.patterns.Pat.{size-Pat as the_size};
ghost use Rattle.sail_types.specs.Rows.{row_members as row_members_of};
ghost use Rattle.shape_rules.specs.Around.{setting_of};
ghost use Rattle.shape_rules.specs.Calls as calls;
ghost use Rattle.shape_rules.specs.Findings.{first_failure};
ghost use Rattle.shape_rules.specs.Sides.{read_side};
ghost use Rattle.shape_rules.specs.Targets.{elaborations};
ghost use Rattle.shape_rules.specs.Values as values;
ghost use Rattle.shape_calls.specs.Made.{made_of};
ghost use Rattle.shape_walks.specs.Walks.{want_of, took, one_faults};
ghost use Rattle.shape_sides.specs.Walkers.{Elaborates};

use crate::sides::{listed, place_of_side};
use crate::walkers::Walker;
use sail_base::Place;
use sail_syntax::{Brackets, Name, Pat};
use sail_types::{Row, Shape, row_members};
use shape_calls::{Made, does_convert, member_candidate, refused, unknown};
use shape_rules::{Around, Candidate, First, Locals, Mapping, Meant};
use shape_walks::{Head, Walk, mapping_taken, take_noted};
use std::alloc::{AllocError, Global};

/// A call by the name of its callee. The one error is want of memory.
#[tactic(auto, using(shape_rules::proofs::Firsts::first_failure_append))]
pub(crate) fn call_named<
    F: Fn(Global, &Pat, &Around<'_>, &Locals, &Shape, &mut First) -> Result<Made, AllocError>,
>(
    walker: &Walker<'_, F>,
    name: &Name,
    parts: &[Pat],
    around: &Around<'_>,
    locals: &Locals,
    want: &Shape,
    first: &mut First,
) -> Result<Made, AllocError>
    requires walker { Elaborates (the_size walker.now.whole.now) (F.pre walker.now.part) (F.post walker.now.part) }
    requires parts { most the_size parts.now < the_size walker.now.whole.now }
    ensures made { IfOk result (λ made. made
        ≡ made_of (values.call_named name.now (map read_side parts.now) (setting_of around.now) locals.now want.now)) }
    ensures failures { OnOk result (first.new.error ≡ first_failure first.old.error
        (values.call_named name.now (map read_side parts.now) (setting_of around.now) locals.now want.now).faults) }
{
    let alloc = walker.alloc;
    match around.value(name.text.as_str()) {
        Some(Meant::Callee(callee)) => {
            callee_called(
                walker, name.place, callee, parts, around, locals, want, first,
            )
        }
        Some(Meant::Row(row)) => {
            row_called(walker, name, *row, parts, around, locals, want, first)
        }
        Some(Meant::Mapping(mapping)) => {
            mapping_called(
                walker, name.place, mapping, parts, around, locals, want, first,
            )
        }
        Some(Meant::Overload(members)) => {
            let head = Head::Members(name, members.as_slice());
            listed(walker, head, parts, around, locals, want, first)
        }
        _ => Ok(unknown(alloc, name.place)),
    }
}

/// A call of one callee. The one error is want of memory.
#[tactic(auto, using(shape_rules::proofs::Firsts::first_failure_append))]
pub(crate) fn callee_called<
    F: Fn(Global, &Pat, &Around<'_>, &Locals, &Shape, &mut First) -> Result<Made, AllocError>,
>(
    walker: &Walker<'_, F>,
    place: Place,
    callee: &Candidate,
    parts: &[Pat],
    around: &Around<'_>,
    locals: &Locals,
    want: &Shape,
    first: &mut First,
) -> Result<Made, AllocError>
    requires walker { Elaborates (the_size walker.now.whole.now) (F.pre walker.now.part) (F.post walker.now.part) }
    requires parts { most the_size parts.now < the_size walker.now.whole.now }
    ensures made { IfOk result (λ made. made
        ≡ made_of (values.callee_called place callee.now (map read_side parts.now) (setting_of around.now) locals.now want.now)) }
    ensures failures { OnOk result (first.new.error ≡ first_failure first.old.error
        (values.callee_called place callee.now (map read_side parts.now) (setting_of around.now) locals.now want.now).faults) }
{
    if does_convert(callee.doing) {
        value_called(walker, place, callee, parts, around, locals, want, first)
    } else {
        let head = Head::One(place, callee);
        listed(walker, head, parts, around, locals, want, first)
    }
}

/// A call of a builtin by its name. The one error is want of memory.
#[tactic(auto, using(crate::proofs::Called::row_several, shape_rules::proofs::Firsts::first_failure_append))]
pub(crate) fn row_called<
    F: Fn(Global, &Pat, &Around<'_>, &Locals, &Shape, &mut First) -> Result<Made, AllocError>,
>(
    walker: &Walker<'_, F>,
    name: &Name,
    row: Row,
    parts: &[Pat],
    around: &Around<'_>,
    locals: &Locals,
    want: &Shape,
    first: &mut First,
) -> Result<Made, AllocError>
    requires walker { Elaborates (the_size walker.now.whole.now) (F.pre walker.now.part) (F.post walker.now.part) }
    requires parts { most the_size parts.now < the_size walker.now.whole.now }
    ensures made { IfOk result (λ made. made
        ≡ made_of (calls.row_called name.now.place name.now.text (map calls.member_candidate (row_members_of (setting_of around.now).types row))
        (values.unit_found name.now.place) (elaborations (map read_side parts.now)) (setting_of around.now) locals.now want.now)) }
    ensures failures { OnOk result (first.new.error ≡ first_failure first.old.error
        (calls.row_called name.now.place name.now.text (map calls.member_candidate (row_members_of (setting_of around.now).types row))
        (values.unit_found name.now.place) (elaborations (map read_side parts.now)) (setting_of around.now) locals.now want.now).faults) }
{
    let alloc = walker.alloc;
    let members = row_members(alloc, around.types, row)?;
    match members.as_slice() {
        [member] => {
            let callee = member_candidate(alloc, member)?;
            let head = Head::One(name.place, &callee);
            listed(walker, head, parts, around, locals, want, first)
        }
        members => {
            let head = Head::Rows(name, members);
            listed(walker, head, parts, around, locals, want, first)
        }
    }
}

/// Arguments as one value: `()` where there is none, and a tuple where there are several. The one error is want of memory.
#[tactic(auto, using(shape_rules::proofs::Firsts::first_failure_append))]
pub(crate) fn one_value<
    F: Fn(Global, &Pat, &Around<'_>, &Locals, &Shape, &mut First) -> Result<Made, AllocError>,
>(
    walker: &Walker<'_, F>,
    place: Place,
    parts: &[Pat],
    around: &Around<'_>,
    locals: &Locals,
    want: &Shape,
    first: &mut First,
) -> Result<Made, AllocError>
    requires walker { Elaborates (the_size walker.now.whole.now) (F.pre walker.now.part) (F.post walker.now.part) }
    requires parts { most the_size parts.now < the_size walker.now.whole.now }
    ensures made { IfOk result (λ made. made
        ≡ made_of ((values.as_one place (map read_side parts.now)).elaborate (setting_of around.now) locals.now want.now)) }
    ensures failures { OnOk result (first.new.error ≡ first_failure first.old.error
        ((values.as_one place (map read_side parts.now)).elaborate (setting_of around.now) locals.now want.now).faults) }
{
    match parts {
        [part] => walker.elaborate(part, around, locals, want, first),
        _ => {
            let head = Head::Group(place, Brackets::Tuple);
            listed(walker, head, parts, around, locals, want, first)
        }
    }
}

/// Where the value of arguments stands: a written one where it does, else at the call.
pub(crate) fn value_place(place: Place, parts: &[Pat]) -> Place
    ensures { result ≡ (values.as_one place (map read_side parts.now)).place }
{
    match parts {
        [part] => place_of_side(part),
        _ => place,
    }
}

/// One part more of a walk: the value of arguments.
#[tactic(auto, using(shape_walks::proofs::Taught::one_noted, shape_calls::proofs::Apart::some_noted))]
pub(crate) fn push_value<
    F: Fn(Global, &Pat, &Around<'_>, &Locals, &Shape, &mut First) -> Result<Made, AllocError>,
>(
    walker: &Walker<'_, F>,
    place: Place,
    parts: &[Pat],
    around: &Around<'_>,
    locals: &Locals,
    walk: Walk,
    first: &mut First,
) -> Result<Walk, AllocError>
    requires walker { Elaborates (the_size walker.now.whole.now) (F.pre walker.now.part) (F.post walker.now.part) }
    requires parts { most the_size parts.now < the_size walker.now.whole.now }
    ensures walk { IfOk result (λ next. next
        ≡ took walk ((values.as_one place (map read_side parts.now)).elaborate (setting_of around.now) locals.now (want_of walk))) }
    ensures failures { OnOk result (first.new.error ≡ first_failure first.old.error
        (one_faults walk ((values.as_one place (map read_side parts.now)).elaborate (setting_of around.now) locals.now (want_of walk)))) }
{
    let alloc = walker.alloc;
    let want = walk.want(alloc)?;
    let mut apart = First::none();
    let made = one_value(walker, place, parts, around, locals, &want, &mut apart)?;
    take_noted(alloc, walk, made, apart, first)
}

/// A call of what takes one value. The one error is want of memory.
#[tactic(auto, using(crate::proofs::Called::value_is, crate::proofs::Called::value_refused, shape_rules::proofs::Firsts::first_failure_append))]
pub(crate) fn value_called<
    F: Fn(Global, &Pat, &Around<'_>, &Locals, &Shape, &mut First) -> Result<Made, AllocError>,
>(
    walker: &Walker<'_, F>,
    place: Place,
    callee: &Candidate,
    parts: &[Pat],
    around: &Around<'_>,
    locals: &Locals,
    want: &Shape,
    first: &mut First,
) -> Result<Made, AllocError>
    requires walker { Elaborates (the_size walker.now.whole.now) (F.pre walker.now.part) (F.post walker.now.part) }
    requires parts { most the_size parts.now < the_size walker.now.whole.now }
    ensures made { IfOk result (λ made. made
        ≡ made_of (calls.one_called place callee.now ((values.as_one place (map read_side parts.now)).elaborate ∷ [])
        (setting_of around.now) locals.now want.now)) }
    ensures failures { OnOk result (first.new.error ≡ first_failure first.old.error
        (calls.one_called place callee.now ((values.as_one place (map read_side parts.now)).elaborate ∷ [])
        (setting_of around.now) locals.now want.now).faults) }
{
    let alloc = walker.alloc;
    let head = Head::One(place, callee);
    if let Some(error) = head.count_failure(1) {
        return Ok(refused(alloc, error, first));
    }
    let begun = head.begin(alloc, 1, want)?;
    let walk = push_value(walker, place, parts, around, locals, begun, first)?;
    head.finish(alloc, around, walk, want, first)
}

/// A call of a mapping, whose direction goes by the side that its value has. The one error is want of memory.
#[tactic(auto, using(shape_calls::proofs::Apart::noted_apart, shape_calls::proofs::Apart::some_noted, shape_walks::proofs::Formed::mapping_is, shape_rules::proofs::Firsts::first_failure_append))]
pub(crate) fn mapping_called<
    F: Fn(Global, &Pat, &Around<'_>, &Locals, &Shape, &mut First) -> Result<Made, AllocError>,
>(
    walker: &Walker<'_, F>,
    place: Place,
    mapping: &Mapping,
    parts: &[Pat],
    around: &Around<'_>,
    locals: &Locals,
    want: &Shape,
    first: &mut First,
) -> Result<Made, AllocError>
    requires walker { Elaborates (the_size walker.now.whole.now) (F.pre walker.now.part) (F.post walker.now.part) }
    requires parts { most the_size parts.now < the_size walker.now.whole.now }
    ensures made { IfOk result (λ made. made ≡ made_of (values.mapping_called place mapping.now
        (values.as_one place (map read_side parts.now)) (setting_of around.now) locals.now want.now)) }
    ensures failures { OnOk result (first.new.error ≡ first_failure first.old.error (values.mapping_called place mapping.now
        (values.as_one place (map read_side parts.now)) (setting_of around.now) locals.now want.now).faults) }
{
    let alloc = walker.alloc;
    let mut apart = First::none();
    let made = one_value(
        walker,
        place,
        parts,
        around,
        locals,
        &Shape::Never,
        &mut apart,
    )?;
    let at_value = value_place(place, parts);
    mapping_taken(alloc, place, at_value, mapping, made, apart, want, first)
}
