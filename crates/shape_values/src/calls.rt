//! Calls by the name of their callee.
ghost use Rattle.std.specs.Prelude.{◌≡◌, ◌<◌, ◌∷◌, ◌++◌, [], map, IfOk, OnOk};
ghost use Rattle.sail_types.specs.Rows.{row_members as row_members_of};
ghost use Rattle.shape_rules.specs.Around.{setting_of};
ghost use Rattle.shape_rules.specs.Calls as calls;
ghost use Rattle.shape_rules.specs.Findings.{first_failure};
ghost use Rattle.shape_rules.specs.Values as values;
ghost use Rattle.shape_rules.specs.Expressions.{part};
ghost use Rattle.shape_calls.specs.Made.{made_of};
ghost use Rattle.shape_rules.specs.Targets.{elaborations};
ghost use Rattle.shape_walks.specs.Walks.{want_of, took, one_faults};
ghost use Rattle.sail_syntax.specs.declared.expressions.Exp.{size-Exp as the_size};
ghost use denote.Param.Weighed.{most};
ghost use Rattle.shape_values.specs.Walkers.{Elaborates};

use crate::walkers::Walker;
use crate::walks::listed;
use sail_base::Place;
use sail_syntax::{Brackets, Exp, Name};
use sail_types::{Row, Shape, row_members};
use shape_calls::{Made, does_convert, member_candidate, refused, unknown};
use shape_rules::{Around, Candidate, First, Locals, Mapping, Meant};
use shape_walks::{Head, Walk, mapping_taken, take_noted, value_place};
use std::alloc::{AllocError, Global};

/// A call by the name of its callee, of arguments in two lists. The one error is want of memory.
#[tactic(auto, using(shape_rules::proofs::Firsts::first_failure_append))]
pub fn call_named<
    F: Fn(Global, &Exp, &Around<'_>, &mut Locals, &Shape, &mut First) -> Result<Made, AllocError>,
>(
    walker: &Walker<'_, F>,
    name: &Name,
    front: &[Exp],
    back: &[Exp],
    around: &Around<'_>,
    locals: &mut Locals,
    want: &Shape,
    first: &mut First,
) -> Result<Made, AllocError>
    requires parts { Elaborates (the_size walker.now.whole.now) (F.pre walker.now.part) (F.post walker.now.part) }
    requires front { most the_size front.now < the_size walker.now.whole.now }
    requires back { most the_size back.now < the_size walker.now.whole.now }
    ensures made { IfOk result (λ made. made
        ≡ made_of (values.call_named name.now (map part front.now ++ map part back.now) (setting_of around.now) locals.old want.now)) }
    ensures failures { OnOk result (first.new.error ≡ first_failure first.old.error
        (values.call_named name.now (map part front.now ++ map part back.now) (setting_of around.now) locals.old want.now).faults) }
    ensures locals { OnOk result (locals.new ≡ locals.old) }
{
    let alloc = walker.alloc;
    match around.value(name.text.as_str()) {
        Some(Meant::Callee(callee)) => {
            if does_convert(callee.doing) {
                value_called(
                    walker, name.place, callee, front, back, around, locals, want, first,
                )
            } else {
                let head = Head::One(name.place, callee);
                listed(walker, head, front, back, around, locals, want, first)
            }
        }
        Some(Meant::Row(row)) => {
            row_called(walker, name, *row, front, back, around, locals, want, first)
        }
        Some(Meant::Mapping(mapping)) => mapping_called(
            walker, name.place, mapping, front, back, around, locals, want, first,
        ),
        Some(Meant::Overload(members)) => {
            let head = Head::Members(name, members.as_slice());
            listed(walker, head, front, back, around, locals, want, first)
        }
        _ => Ok(unknown(alloc, name.place)),
    }
}

/// A call of a builtin by its name.
#[tactic(auto, using(crate::proofs::CalledWalks::row_one, crate::proofs::CalledWalks::row_several, shape_rules::proofs::Firsts::first_failure_append))]
fn row_called<
    F: Fn(Global, &Exp, &Around<'_>, &mut Locals, &Shape, &mut First) -> Result<Made, AllocError>,
>(
    walker: &Walker<'_, F>,
    name: &Name,
    row: Row,
    front: &[Exp],
    back: &[Exp],
    around: &Around<'_>,
    locals: &mut Locals,
    want: &Shape,
    first: &mut First,
) -> Result<Made, AllocError>
    requires parts { Elaborates (the_size walker.now.whole.now) (F.pre walker.now.part) (F.post walker.now.part) }
    requires front { most the_size front.now < the_size walker.now.whole.now }
    requires back { most the_size back.now < the_size walker.now.whole.now }
    ensures made { IfOk result (λ made. made
        ≡ made_of (calls.row_called name.now.place name.now.text (map calls.member_candidate (row_members_of (setting_of around.now).types row))
        (values.unit_found name.now.place) (elaborations (map part front.now ++ map part back.now)) (setting_of around.now) locals.old want.now)) }
    ensures failures { OnOk result (first.new.error ≡ first_failure first.old.error
        (calls.row_called name.now.place name.now.text (map calls.member_candidate (row_members_of (setting_of around.now).types row))
        (values.unit_found name.now.place) (elaborations (map part front.now ++ map part back.now)) (setting_of around.now) locals.old want.now).faults) }
    ensures locals { OnOk result (locals.new ≡ locals.old) }
{
    let alloc = walker.alloc;
    let members = row_members(alloc, around.types, row)?;
    match members.as_slice() {
        [member] => {
            let callee = member_candidate(alloc, member)?;
            let head = Head::One(name.place, &callee);
            listed(walker, head, front, back, around, locals, want, first)
        }
        members => {
            let head = Head::Rows(name, members);
            listed(walker, head, front, back, around, locals, want, first)
        }
    }
}

/// Arguments as one value: a tuple, where there are several.
#[tactic(auto, using(crate::proofs::CalledWalks::one_front, crate::proofs::CalledWalks::one_back, crate::proofs::CalledWalks::several_value, shape_rules::proofs::Firsts::first_failure_append))]
fn one_value<
    F: Fn(Global, &Exp, &Around<'_>, &mut Locals, &Shape, &mut First) -> Result<Made, AllocError>,
>(
    walker: &Walker<'_, F>,
    place: Place,
    front: &[Exp],
    back: &[Exp],
    around: &Around<'_>,
    locals: &mut Locals,
    want: &Shape,
    first: &mut First,
) -> Result<Made, AllocError>
    requires parts { Elaborates (the_size walker.now.whole.now) (F.pre walker.now.part) (F.post walker.now.part) }
    requires front { most the_size front.now < the_size walker.now.whole.now }
    requires back { most the_size back.now < the_size walker.now.whole.now }
    ensures made { IfOk result (λ made. made
        ≡ made_of ((values.as_one place (map part front.now ++ map part back.now)).elaborate (setting_of around.now) locals.old want.now)) }
    ensures failures { OnOk result (first.new.error ≡ first_failure first.old.error
        ((values.as_one place (map part front.now ++ map part back.now)).elaborate (setting_of around.now) locals.old want.now).faults) }
    ensures locals { OnOk result (locals.new ≡ locals.old) }
{
    let head = Head::Group(place, Brackets::Tuple);
    match front {
        [] => match back {
            [] => listed(walker, head, front, back, around, locals, want, first),
            [only] => walker.elaborate(only, around, locals, want, first),
            _ => listed(walker, head, front, back, around, locals, want, first),
        },
        [only] => match back {
            [] => walker.elaborate(only, around, locals, want, first),
            _ => listed(walker, head, front, back, around, locals, want, first),
        },
        _ => listed(walker, head, front, back, around, locals, want, first),
    }
}

/// Arguments as one value, as one part more of a walk.
#[tactic(auto, using(shape_walks::proofs::Taught::one_noted, shape_calls::proofs::Apart::some_noted))]
fn push_value<
    F: Fn(Global, &Exp, &Around<'_>, &mut Locals, &Shape, &mut First) -> Result<Made, AllocError>,
>(
    walker: &Walker<'_, F>,
    place: Place,
    front: &[Exp],
    back: &[Exp],
    around: &Around<'_>,
    locals: &mut Locals,
    walk: Walk,
    first: &mut First,
) -> Result<Walk, AllocError>
    requires parts { Elaborates (the_size walker.now.whole.now) (F.pre walker.now.part) (F.post walker.now.part) }
    requires front { most the_size front.now < the_size walker.now.whole.now }
    requires back { most the_size back.now < the_size walker.now.whole.now }
    ensures walk { IfOk result (λ next. next ≡ took walk ((values.as_one place (map part front.now ++ map part back.now)).elaborate
        (setting_of around.now) locals.old (want_of walk))) }
    ensures failures { OnOk result (first.new.error ≡ first_failure first.old.error
        (one_faults walk ((values.as_one place (map part front.now ++ map part back.now)).elaborate (setting_of around.now) locals.old (want_of walk)))) }
    ensures locals { OnOk result (locals.new ≡ locals.old) }
{
    let alloc = walker.alloc;
    let want = walk.want(alloc)?;
    let mut apart = First::none();
    let made = one_value(
        walker, place, front, back, around, locals, &want, &mut apart,
    )?;
    take_noted(alloc, walk, made, apart, first)
}

/// A call of what takes one value.
#[tactic(auto, using(crate::proofs::CalledWalks::value_walked, crate::proofs::CalledWalks::value_refused, shape_rules::proofs::Firsts::first_failure_append))]
fn value_called<
    F: Fn(Global, &Exp, &Around<'_>, &mut Locals, &Shape, &mut First) -> Result<Made, AllocError>,
>(
    walker: &Walker<'_, F>,
    place: Place,
    callee: &Candidate,
    front: &[Exp],
    back: &[Exp],
    around: &Around<'_>,
    locals: &mut Locals,
    want: &Shape,
    first: &mut First,
) -> Result<Made, AllocError>
    requires parts { Elaborates (the_size walker.now.whole.now) (F.pre walker.now.part) (F.post walker.now.part) }
    requires front { most the_size front.now < the_size walker.now.whole.now }
    requires back { most the_size back.now < the_size walker.now.whole.now }
    ensures made { IfOk result (λ made. made
        ≡ made_of (calls.one_called place callee.now ((values.as_one place (map part front.now ++ map part back.now)).elaborate ∷ [])
        (setting_of around.now) locals.old want.now)) }
    ensures failures { OnOk result (first.new.error ≡ first_failure first.old.error
        (calls.one_called place callee.now ((values.as_one place (map part front.now ++ map part back.now)).elaborate ∷ [])
        (setting_of around.now) locals.old want.now).faults) }
    ensures locals { OnOk result (locals.new ≡ locals.old) }
{
    let alloc = walker.alloc;
    let head = Head::One(place, callee);
    if let Some(error) = head.count_failure(1) {
        return Ok(refused(alloc, error, first));
    }
    let begun = head.begin(alloc, 1, want)?;
    let walk = push_value(walker, place, front, back, around, locals, begun, first)?;
    head.finish(alloc, around, walk, want, first)
}

/// A call of a mapping, whose direction goes by the side that its value has.
#[tactic(auto, using(shape_walks::proofs::Formed::mapping_is, shape_calls::proofs::Apart::noted_apart, shape_calls::proofs::Apart::some_noted, shape_rules::proofs::Firsts::first_failure_append))]
fn mapping_called<
    F: Fn(Global, &Exp, &Around<'_>, &mut Locals, &Shape, &mut First) -> Result<Made, AllocError>,
>(
    walker: &Walker<'_, F>,
    place: Place,
    mapping: &Mapping,
    front: &[Exp],
    back: &[Exp],
    around: &Around<'_>,
    locals: &mut Locals,
    want: &Shape,
    first: &mut First,
) -> Result<Made, AllocError>
    requires parts { Elaborates (the_size walker.now.whole.now) (F.pre walker.now.part) (F.post walker.now.part) }
    requires front { most the_size front.now < the_size walker.now.whole.now }
    requires back { most the_size back.now < the_size walker.now.whole.now }
    ensures made { IfOk result (λ made. made ≡ made_of (values.mapping_called place mapping.now
        (values.as_one place (map part front.now ++ map part back.now)) (setting_of around.now) locals.old want.now)) }
    ensures failures { OnOk result (first.new.error ≡ first_failure first.old.error (values.mapping_called place mapping.now
        (values.as_one place (map part front.now ++ map part back.now)) (setting_of around.now) locals.old want.now).faults) }
    ensures locals { OnOk result (locals.new ≡ locals.old) }
{
    let alloc = walker.alloc;
    let mut apart = First::none();
    let made = one_value(
        walker,
        place,
        front,
        back,
        around,
        locals,
        &Shape::Never,
        &mut apart,
    )?;
    let at_value = value_place(place, front, back);
    mapping_taken(alloc, place, at_value, mapping, made, apart, want, first)
}
