//! What is assigned to, and assignments.
ghost use Rattle.std.specs.Prelude.{◌≡◌, ◌<◌, ◌∷◌, ◌++◌, [], map, IfOk, OnOk};
ghost use Rattle.shape_rules.specs.Around.{setting_of};
ghost use Rattle.shape_rules.specs.Findings.{first_failure};
ghost use Rattle.shape_rules.specs.Targets as target;
ghost use Rattle.shape_rules.specs.Statements as spec;
ghost use Rattle.shape_rules.specs.Expressions.{part};
ghost use Rattle.shape_calls.specs.Made.{made_of};
ghost use Rattle.shape_calls.specs.Ways.{aim_of};
ghost use Rattle.shape_forms.specs.Aims.{read_of, call_read, callee_read, part_aimed_at};
ghost use Rattle.shape_walks.specs.Trees.{target_part, further_part, suffix_part};
ghost use Rattle.sail_syntax.specs.declared.expressions.Target.{size-Target as further_size};
ghost use Rattle.sail_syntax.specs.declared.expressions.Suffix.{size-Suffix as suffix_size};
ghost use Rattle.sail_syntax.specs.declared.expressions.LExp.{size-LExp as target_size};
ghost use Rattle.sail_syntax.specs.declared.expressions.Exp.{size-Exp as the_size};
ghost use denote.Param.Weighed.{most};
ghost use Rattle.shape_values.specs.Walkers.{Elaborates};

use crate::parts::walked;
use sail_base::{Items, Place};
use sail_core::{Core, Kind, Target};
use sail_syntax::{Exp, LExp, Name, Suffix, Target as Further};
use sail_types::Shape;
use shape_calls::{Aim, Made, aimed_nowhere, callees_of, name_aimed, note_apart, one_of};
use shape_forms::{
    aim_callee, aim_member, note_answer, note_inner, part_aimed, read_member, read_one,
    settle_over, tuple_aimed,
};
use shape_rules::{Around, Candidate, First, Locals, ShapeError};
use shape_values::{Walker, call_named, push_all, push_part};
use shape_walks::{Head, Plan, Walk, last_place, target_place_of};
use std::alloc::{AllocError, Global};

/// `a = b = e`; `f(a) = e` is the call `f(a, e)`. The one error is want of memory.
#[tactic(auto, using(crate::proofs::Assigned::assigned_call, crate::proofs::Assigned::assigned_chain, crate::proofs::Assigned::assigned_plain, shape_rules::proofs::Firsts::first_failure_append))]
pub fn assign<
    F: Fn(Global, &Exp, &Around<'_>, &mut Locals, &Shape, &mut First) -> Result<Made, AllocError>,
>(
    walker: &Walker<'_, F>,
    place: Place,
    target: &LExp,
    more: &[Further],
    value: &Exp,
    around: &Around<'_>,
    locals: &mut Locals,
    want: &Shape,
    first: &mut First,
) -> Result<Made, AllocError>
    requires parts { Elaborates (the_size walker.now.whole.now) (F.pre walker.now.part) (F.post walker.now.part) }
    requires target { target_size target.now < the_size walker.now.whole.now }
    requires more { most further_size more.now < the_size walker.now.whole.now }
    requires value { the_size value.now < the_size walker.now.whole.now }
    ensures made { IfOk result (λ made. made ≡ made_of (spec.assign_found place (target_part target.now) (map further_part more.now)
        (part value.now) (setting_of around.now) locals.old want.now)) }
    ensures failures { OnOk result (first.new.error ≡ first_failure first.old.error (spec.assign_found place (target_part target.now)
        (map further_part more.now) (part value.now) (setting_of around.now) locals.old want.now).faults) }
    ensures locals { OnOk result (locals.new ≡ locals.old) }
{
    match target {
        LExp::ToCall(name, args) => match more {
            [] => {
                let back = std::slice::from_ref(value);
                call_named(
                    walker,
                    name,
                    args.as_slice(),
                    back,
                    around,
                    locals,
                    want,
                    first,
                )
            }
            _ => assign_to(
                walker, place, target, more, value, around, locals, want, first,
            ),
        },
        _ => assign_to(
            walker, place, target, more, value, around, locals, want, first,
        ),
    }
}

/// `a = b = e`, of which a isn't the only target where it is a call.
#[tactic(auto, using(shape_rules::proofs::Firsts::first_failure_append), unfolding(shape_forms::specs::Over::over_found))]
fn assign_to<
    F: Fn(Global, &Exp, &Around<'_>, &mut Locals, &Shape, &mut First) -> Result<Made, AllocError>,
>(
    walker: &Walker<'_, F>,
    place: Place,
    target: &LExp,
    more: &[Further],
    value: &Exp,
    around: &Around<'_>,
    locals: &mut Locals,
    want: &Shape,
    first: &mut First,
) -> Result<Made, AllocError>
    requires parts { Elaborates (the_size walker.now.whole.now) (F.pre walker.now.part) (F.post walker.now.part) }
    requires target { target_size target.now < the_size walker.now.whole.now }
    requires more { most further_size more.now < the_size walker.now.whole.now }
    requires value { the_size value.now < the_size walker.now.whole.now }
    ensures made { IfOk result (λ made. made ≡ made_of (spec.assign_to place ((target_part target.now).aim (setting_of around.now) locals.old)
        (map further_part more.now) (part value.now) (setting_of around.now) locals.old want.now)) }
    ensures failures { OnOk result (first.new.error ≡ first_failure first.old.error
        (spec.assign_to place ((target_part target.now).aim (setting_of around.now) locals.old)
        (map further_part more.now) (part value.now) (setting_of around.now) locals.old want.now).faults) }
    ensures locals { OnOk result (locals.new ≡ locals.old) }
{
    let alloc = walker.alloc;
    let Aim {
        shape,
        target,
        mut parts,
        answer,
    } = aim_chained(walker, place, target, around, locals, first)?;
    let mut targets = Items::new(alloc);
    targets.push(target)?;
    push_right(
        walker,
        more,
        value,
        around,
        locals,
        shape,
        &mut targets,
        &mut parts,
        first,
    )?;
    let kind = Kind::Assign(targets);
    settle_over(alloc, place, want, answer, kind, parts, first)
}

/// What stands on the right of a target to which this shape is assigned: further targets, and the value behind them.
#[tactic(auto, using(shape_rules::proofs::Firsts::first_failure_append))]
fn push_right<
    F: Fn(Global, &Exp, &Around<'_>, &mut Locals, &Shape, &mut First) -> Result<Made, AllocError>,
>(
    walker: &Walker<'_, F>,
    more: &[Further],
    value: &Exp,
    around: &Around<'_>,
    locals: &mut Locals,
    mut wanted: Shape,
    targets: &mut Items<Target>,
    parts: &mut Items<Core>,
    first: &mut First,
) -> Result<(), AllocError>
    requires parts { Elaborates (the_size walker.now.whole.now) (F.pre walker.now.part) (F.post walker.now.part) }
    requires more { most further_size more.now < the_size walker.now.whole.now }
    requires value { the_size value.now < the_size walker.now.whole.now }
    ensures targets { OnOk result (targets.new ≡ targets.old
        ++ (spec.righted (map further_part more.now) (part value.now) (setting_of around.now) locals.old wanted).targets) }
    ensures parts { OnOk result (parts.new ≡ parts.old
        ++ (spec.righted (map further_part more.now) (part value.now) (setting_of around.now) locals.old wanted).parts) }
    ensures failures { OnOk result (first.new.error ≡ first_failure first.old.error
        (spec.righted (map further_part more.now) (part value.now) (setting_of around.now) locals.old wanted).faults) }
    ensures locals { OnOk result (locals.new ≡ locals.old) }
{
    for further in more {
        wanted = push_further(
            walker, further, around, locals, &wanted, targets, parts, first,
        )?;
    }
    push_part(walker, value, around, locals, &wanted, parts, first)?;
    Ok(())
}

/// A further target of a chain, where another shape than that of its assignment may be wanted of it. Gives the shape of what is assigned.
#[tactic(auto, using(shape_rules::proofs::Firsts::first_failure_append))]
fn push_further<
    F: Fn(Global, &Exp, &Around<'_>, &mut Locals, &Shape, &mut First) -> Result<Made, AllocError>,
>(
    walker: &Walker<'_, F>,
    further: &Further,
    around: &Around<'_>,
    locals: &mut Locals,
    want: &Shape,
    targets: &mut Items<Target>,
    parts: &mut Items<Core>,
    first: &mut First,
) -> Result<Shape, AllocError>
    requires parts { Elaborates (the_size walker.now.whole.now) (F.pre walker.now.part) (F.post walker.now.part) }
    requires further { further_size further.now < the_size walker.now.whole.now }
    ensures shape { IfOk result (λ shape. shape ≡ ((further_part further.now).to.aim (setting_of around.now) locals.old).shape) }
    ensures targets { OnOk result (targets.new
        ≡ targets.old ++ ((further_part further.now).to.aim (setting_of around.now) locals.old).target ∷ []) }
    ensures parts { OnOk result (parts.new ≡ parts.old ++ ((further_part further.now).to.aim (setting_of around.now) locals.old).parts) }
    ensures failures { OnOk result (first.new.error ≡ first_failure first.old.error
        (spec.inner_faults (further_part further.now).place want.now ((further_part further.now).to.aim (setting_of around.now) locals.old).answer
        ++ spec.chained_faults (further_part further.now).place ((further_part further.now).to.aim (setting_of around.now) locals.old))) }
    ensures locals { OnOk result (locals.new ≡ locals.old) }
{
    let alloc = walker.alloc;
    let mut apart = First::none();
    let place = further.place;
    let aim = aim_chained(walker, place, further.to.get(), around, locals, &mut apart)?;
    note_inner(alloc, place, want, &aim.answer, apart, first)?;
    aim.into_shape(targets, parts)
}

/// A target of a chain, whose assignment stands here; notes an answer of which a part isn't known, unless something in the target failed.
fn aim_chained<
    F: Fn(Global, &Exp, &Around<'_>, &mut Locals, &Shape, &mut First) -> Result<Made, AllocError>,
>(
    walker: &Walker<'_, F>,
    place: Place,
    target: &LExp,
    around: &Around<'_>,
    locals: &mut Locals,
    first: &mut First,
) -> Result<Aim, AllocError>
    requires parts { Elaborates (the_size walker.now.whole.now) (F.pre walker.now.part) (F.post walker.now.part) }
    requires target { target_size target.now < the_size walker.now.whole.now }
    ensures aim { IfOk result (λ aim. aim ≡ aim_of ((target_part target.now).aim (setting_of around.now) locals.old)) }
    ensures failures { OnOk result (first.new.error ≡ first_failure first.old.error
        (spec.chained_faults place ((target_part target.now).aim (setting_of around.now) locals.old))) }
    ensures locals { OnOk result (locals.new ≡ locals.old) }
{
    let mut apart = First::none();
    let aim = aim(walker, target, around, locals, &mut apart)?;
    note_answer(place, apart.error.is_some(), &aim.answer, first);
    note_apart(first, apart);
    Ok(aim)
}

/// A target, which goes behind others, as its arguments and indexes do. Gives the shape of what is assigned.
#[cycle(aim)]
#[tactic(auto, using(shape_rules::proofs::Firsts::first_failure_append))]
fn push_target<
    F: Fn(Global, &Exp, &Around<'_>, &mut Locals, &Shape, &mut First) -> Result<Made, AllocError>,
>(
    walker: &Walker<'_, F>,
    target: &LExp,
    around: &Around<'_>,
    locals: &mut Locals,
    targets: &mut Items<Target>,
    parts: &mut Items<Core>,
    first: &mut First,
) -> Result<Shape, AllocError>
    requires parts { Elaborates (the_size walker.now.whole.now) (F.pre walker.now.part) (F.post walker.now.part) }
    requires target { target_size target.now < the_size walker.now.whole.now }
    ensures shape { IfOk result (λ shape. shape ≡ ((target_part target.now).aim (setting_of around.now) locals.old).shape) }
    ensures targets { OnOk result (targets.new ≡ targets.old ++ ((target_part target.now).aim (setting_of around.now) locals.old).target ∷ []) }
    ensures parts { OnOk result (parts.new ≡ parts.old ++ ((target_part target.now).aim (setting_of around.now) locals.old).parts) }
    ensures failures { OnOk result (first.new.error ≡ first_failure first.old.error
        ((target_part target.now).aim (setting_of around.now) locals.old).faults) }
    ensures locals { OnOk result (locals.new ≡ locals.old) }
{
    let aim = aim(walker, target, around, locals, first)?;
    aim.into_shape(targets, parts)
}

/// A target.
#[cycle(aim)]
#[tactic(auto, using(crate::proofs::AimedWalks::name_faults, shape_rules::proofs::Firsts::first_failure_append))]
fn aim<
    F: Fn(Global, &Exp, &Around<'_>, &mut Locals, &Shape, &mut First) -> Result<Made, AllocError>,
>(
    walker: &Walker<'_, F>,
    target: &LExp,
    around: &Around<'_>,
    locals: &mut Locals,
    first: &mut First,
) -> Result<Aim, AllocError>
    requires parts { Elaborates (the_size walker.now.whole.now) (F.pre walker.now.part) (F.post walker.now.part) }
    requires target { target_size target.now < the_size walker.now.whole.now }
    ensures aim { IfOk result (λ aim. aim ≡ aim_of ((target_part target.now).aim (setting_of around.now) locals.old)) }
    ensures failures { OnOk result (first.new.error ≡ first_failure first.old.error
        ((target_part target.now).aim (setting_of around.now) locals.old).faults) }
    ensures locals { OnOk result (locals.new ≡ locals.old) }
{
    let alloc = walker.alloc;
    match target {
        LExp::ToName(name) => {
            let text = name.text.as_str();
            name_aimed(alloc, name, locals.find(text), around.value(text))
        }
        LExp::ToCall(name, args) => {
            aim_call(walker, name, args.as_slice(), around, locals, first)
        }
        LExp::ToTuple(place, targets) => {
            aim_tuple(walker, *place, targets.as_slice(), around, locals, first)
        }
        LExp::ToPart(place, base, suffixes) => {
            let base = base.get();
            aim_part(
                walker,
                *place,
                base,
                suffixes.as_slice(),
                around,
                locals,
                first,
            )
        }
    }
}

/// `(a, b)`.
#[cycle(aim)]
#[tactic(auto, using(shape_rules::proofs::Firsts::first_failure_append))]
fn aim_tuple<
    F: Fn(Global, &Exp, &Around<'_>, &mut Locals, &Shape, &mut First) -> Result<Made, AllocError>,
>(
    walker: &Walker<'_, F>,
    place: Place,
    targets: &[LExp],
    around: &Around<'_>,
    locals: &mut Locals,
    first: &mut First,
) -> Result<Aim, AllocError>
    requires parts { Elaborates (the_size walker.now.whole.now) (F.pre walker.now.part) (F.post walker.now.part) }
    requires targets { most target_size targets.now < the_size walker.now.whole.now }
    ensures aim { IfOk result (λ aim. aim
        ≡ aim_of (target.tuple_aimed place (target.each_aimed (map target_part targets.now) (setting_of around.now) locals.old))) }
    ensures failures { OnOk result (first.new.error ≡ first_failure first.old.error
        (target.each_aimed (map target_part targets.now) (setting_of around.now) locals.old).faults) }
    ensures locals { OnOk result (locals.new ≡ locals.old) }
{
    let alloc = walker.alloc;
    let mut shapes = Items::new(alloc);
    let mut inside = Items::new(alloc);
    let mut parts = Items::new(alloc);
    for target in targets {
        let shape = push_target(
            walker,
            target,
            around,
            locals,
            &mut inside,
            &mut parts,
            first,
        )?;
        shapes.push(shape)?;
    }
    Ok(tuple_aimed(place, shapes, inside, parts))
}

/// `f(a)`.
#[tactic(auto, using(crate::proofs::AimedWalks::looked_aim, crate::proofs::AimedWalks::looked_faults, shape_rules::proofs::Firsts::first_failure_append))]
fn aim_call<
    F: Fn(Global, &Exp, &Around<'_>, &mut Locals, &Shape, &mut First) -> Result<Made, AllocError>,
>(
    walker: &Walker<'_, F>,
    name: &Name,
    args: &[Exp],
    around: &Around<'_>,
    locals: &mut Locals,
    first: &mut First,
) -> Result<Aim, AllocError>
    requires parts { Elaborates (the_size walker.now.whole.now) (F.pre walker.now.part) (F.post walker.now.part) }
    requires args { most the_size args.now < the_size walker.now.whole.now }
    ensures aim { IfOk result (λ aim. aim ≡ aim_of (target.call_aim name.now (map part args.now) (setting_of around.now) locals.old)) }
    ensures failures { OnOk result (first.new.error ≡ first_failure first.old.error
        (target.call_aim name.now (map part args.now) (setting_of around.now) locals.old).faults) }
    ensures locals { OnOk result (locals.new ≡ locals.old) }
{
    let alloc = walker.alloc;
    let meant = around.value(name.text.as_str());
    let callees = callees_of(alloc, around.types, meant)?;
    match one_of(meant, callees.as_slice()) {
        Some(callee) => aim_one(walker, name, callee, args, around, locals, first),
        None => {
            let begun = Walk::new(alloc, Plan::Each(Items::new(alloc)));
            let walk = push_all(walker, args, around, locals, begun, first)?;
            aim_member(alloc, name, callees.as_slice(), walk, first)
        }
    }
}

/// `f(a)` of one callee, which is called with one argument more.
#[tactic(auto, using(crate::proofs::AimedWalks::counted_is, crate::proofs::AimedWalks::miscounted_is, shape_rules::proofs::Firsts::first_failure_append), unfolding(shape_walks::specs::Heads::head_walk))]
fn aim_one<
    F: Fn(Global, &Exp, &Around<'_>, &mut Locals, &Shape, &mut First) -> Result<Made, AllocError>,
>(
    walker: &Walker<'_, F>,
    name: &Name,
    callee: &Candidate,
    args: &[Exp],
    around: &Around<'_>,
    locals: &mut Locals,
    first: &mut First,
) -> Result<Aim, AllocError>
    requires parts { Elaborates (the_size walker.now.whole.now) (F.pre walker.now.part) (F.post walker.now.part) }
    requires args { most the_size args.now < the_size walker.now.whole.now }
    ensures aim { IfOk result (λ aim. aim
        ≡ aim_of (target.callee_counted name.now callee.now (map part args.now) (setting_of around.now) locals.old)) }
    ensures failures { OnOk result (first.new.error ≡ first_failure first.old.error
        (target.callee_counted name.now callee.now (map part args.now) (setting_of around.now) locals.old).faults) }
    ensures locals { OnOk result (locals.new ≡ locals.old) }
{
    let alloc = walker.alloc;
    let wanted = callee.params.len();
    let found = args.len() + 1;
    if wanted != found {
        let place = name.place;
        first.note(ShapeError::Arity {
            place,
            wanted,
            found,
        });
        return Ok(aimed_nowhere(alloc, place));
    }
    let begun = Head::One(name.place, callee).begin(alloc, wanted, &Shape::Never)?;
    let walk = push_all(walker, args, around, locals, begun, first)?;
    aim_callee(alloc, name, callee, args.len(), walk)
}

/// `a.f[i]`.
#[cycle(aim)]
#[tactic(auto, using(shape_rules::proofs::Firsts::first_failure_append))]
fn aim_part<
    F: Fn(Global, &Exp, &Around<'_>, &mut Locals, &Shape, &mut First) -> Result<Made, AllocError>,
>(
    walker: &Walker<'_, F>,
    first_place: Place,
    base: &LExp,
    suffixes: &[Suffix],
    around: &Around<'_>,
    locals: &mut Locals,
    first: &mut First,
) -> Result<Aim, AllocError>
    requires parts { Elaborates (the_size walker.now.whole.now) (F.pre walker.now.part) (F.post walker.now.part) }
    requires base { target_size base.now < the_size walker.now.whole.now }
    requires suffixes { most suffix_size suffixes.now < the_size walker.now.whole.now }
    ensures aim { IfOk result (λ aim. aim ≡ aim_of (part_aimed_at first_place (target_part base.now) (map suffix_part suffixes.now)
        (setting_of around.now) locals.old)) }
    ensures failures { OnOk result (first.new.error ≡ first_failure first.old.error (part_aimed_at first_place (target_part base.now)
        (map suffix_part suffixes.now) (setting_of around.now) locals.old).faults) }
    ensures locals { OnOk result (locals.new ≡ locals.old) }
{
    let alloc = walker.alloc;
    let Aim {
        shape,
        target,
        mut parts,
        answer,
    } = aim_base(walker, base, around, locals, first)?;
    let mut ways = Items::new(alloc);
    let base_place = target_place_of(base);
    let shape = walked(
        walker,
        suffixes,
        first_place,
        base_place,
        shape,
        around,
        locals,
        &mut ways,
        &mut parts,
        first,
    )?;
    let last = last_place(first_place, suffixes);
    part_aimed(alloc, last, shape, target, ways, parts, answer)
}

/// The base of a part, whose shape is that of what is read.
#[cycle(aim)]
#[tactic(auto, using(shape_rules::proofs::Firsts::first_failure_append))]
fn aim_base<
    F: Fn(Global, &Exp, &Around<'_>, &mut Locals, &Shape, &mut First) -> Result<Made, AllocError>,
>(
    walker: &Walker<'_, F>,
    base: &LExp,
    around: &Around<'_>,
    locals: &mut Locals,
    first: &mut First,
) -> Result<Aim, AllocError>
    requires parts { Elaborates (the_size walker.now.whole.now) (F.pre walker.now.part) (F.post walker.now.part) }
    requires base { target_size base.now < the_size walker.now.whole.now }
    ensures aim { IfOk result (λ aim. aim ≡ aim_of (read_of (target_part base.now) (setting_of around.now) locals.old)) }
    ensures failures { OnOk result (first.new.error ≡ first_failure first.old.error
        (read_of (target_part base.now) (setting_of around.now) locals.old).faults) }
    ensures locals { OnOk result (locals.new ≡ locals.old) }
{
    match base {
        LExp::ToCall(name, args) => {
            aim_read(walker, name, args.as_slice(), around, locals, first)
        }
        _ => aim(walker, base, around, locals, first),
    }
}

/// `f(a)` as the base of a part.
#[tactic(auto, using(shape_rules::proofs::Firsts::first_failure_append))]
fn aim_read<
    F: Fn(Global, &Exp, &Around<'_>, &mut Locals, &Shape, &mut First) -> Result<Made, AllocError>,
>(
    walker: &Walker<'_, F>,
    name: &Name,
    args: &[Exp],
    around: &Around<'_>,
    locals: &mut Locals,
    first: &mut First,
) -> Result<Aim, AllocError>
    requires parts { Elaborates (the_size walker.now.whole.now) (F.pre walker.now.part) (F.post walker.now.part) }
    requires args { most the_size args.now < the_size walker.now.whole.now }
    ensures aim { IfOk result (λ aim. aim ≡ aim_of (call_read name.now (map part args.now) (setting_of around.now) locals.old)) }
    ensures failures { OnOk result (first.new.error ≡ first_failure first.old.error
        (call_read name.now (map part args.now) (setting_of around.now) locals.old).faults) }
    ensures locals { OnOk result (locals.new ≡ locals.old) }
{
    let alloc = walker.alloc;
    let meant = around.value(name.text.as_str());
    let held = callees_of(alloc, around.types, meant)?;
    let callees = held.as_slice();
    match one_of(meant, callees) {
        Some(callee) => read_callee(walker, name, callee, callees, args, around, locals, first),
        None => {
            let begun = Walk::new(alloc, Plan::Each(Items::new(alloc)));
            let walk = push_all(walker, args, around, locals, begun, first)?;
            read_member(alloc, name, callees, walk, first)
        }
    }
}

/// `f(a)` of one callee as the base of a part. It is read by its arguments with nothing wanted, the failures of which are not noted again.
#[tactic(auto, using(crate::proofs::AimedWalks::args_shapes, shape_rules::proofs::Firsts::first_failure_append))]
fn read_callee<
    F: Fn(Global, &Exp, &Around<'_>, &mut Locals, &Shape, &mut First) -> Result<Made, AllocError>,
>(
    walker: &Walker<'_, F>,
    name: &Name,
    callee: &Candidate,
    callees: &[Candidate],
    args: &[Exp],
    around: &Around<'_>,
    locals: &mut Locals,
    first: &mut First,
) -> Result<Aim, AllocError>
    requires parts { Elaborates (the_size walker.now.whole.now) (F.pre walker.now.part) (F.post walker.now.part) }
    requires args { most the_size args.now < the_size walker.now.whole.now }
    ensures aim { IfOk result (λ aim. aim ≡ aim_of (callee_read name.now callee.now callees.now args.now (setting_of around.now) locals.old)) }
    ensures failures { OnOk result (first.new.error ≡ first_failure first.old.error
        (callee_read name.now callee.now callees.now args.now (setting_of around.now) locals.old).faults) }
    ensures locals { OnOk result (locals.new ≡ locals.old) }
{
    let alloc = walker.alloc;
    let aimed = aim_one(walker, name, callee, args, around, locals, first)?;
    let begun = Walk::new(alloc, Plan::Each(Items::new(alloc)));
    let mut apart = First::none();
    let walk = push_all(walker, args, around, locals, begun, &mut apart)?;
    let shapes = walk.shapes.as_slice();
    read_one(
        alloc,
        name,
        callee,
        callees,
        aimed,
        args.len(),
        shapes,
        first,
    )
}
