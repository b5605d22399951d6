//! `if`, `match` and `try`.
ghost use Rattle.std.specs.Prelude.{◌≡◌, ◌<◌, ◌∷◌, ◌++◌, [], Some, None, map, IfOk, OnOk};
ghost use Rattle.sail_types.specs.declared.shapes.Shape.TheVariants as V;
ghost use Rattle.shape_rules.specs.Around.{setting_of};
ghost use Rattle.shape_rules.specs.Findings.{first_failure};
ghost use Rattle.shape_rules.specs.Statements as spec;
ghost use Rattle.shape_rules.specs.Expressions.{part};
ghost use Rattle.shape_calls.specs.Made.{made_of};
ghost use Rattle.shape_walks.specs.Trees.{case_part};
ghost use Rattle.shape_forms.specs.Steps.{cased, case_bodied, case_faults};
ghost use Rattle.sail_syntax.specs.declared.expressions.Case.{size-Case as case_size};
ghost use Rattle.sail_syntax.specs.declared.expressions.Exp.{size-Exp as the_size};
ghost use denote.Param.Weighed.{most};
ghost use Rattle.shape_values.specs.Walkers.{Elaborates};

use sail_base::{Items, Place};
use sail_core::{Arm, Core, Kind};
use sail_syntax::{Case, Exp};
use sail_types::{Shape, copy_shape};
use shape_calls::{Made, given_on, over};
use shape_forms::{enter_pattern, settle_over};
use shape_rules::{Around, First, Locals};
use shape_values::{Walker, push_branch, push_cast, push_part};
use shape_walks::place_of;
use std::alloc::{AllocError, Global};

/// `if c then a else b`. The one error is want of memory.
#[tactic(auto, using(shape_rules::proofs::Firsts::first_failure_append))]
pub fn if_else<
    F: Fn(Global, &Exp, &Around<'_>, &mut Locals, &Shape, &mut First) -> Result<Made, AllocError>,
>(
    walker: &Walker<'_, F>,
    place: Place,
    condition: &Exp,
    then: &Exp,
    otherwise: &Exp,
    around: &Around<'_>,
    locals: &mut Locals,
    want: &Shape,
    first: &mut First,
) -> Result<Made, AllocError>
    requires parts { Elaborates (the_size walker.now.whole.now) (F.pre walker.now.part) (F.post walker.now.part) }
    requires condition { the_size condition.now < the_size walker.now.whole.now }
    requires then { the_size then.now < the_size walker.now.whole.now }
    requires otherwise { the_size otherwise.now < the_size walker.now.whole.now }
    ensures made { IfOk result (λ made. made ≡ made_of
        (spec.if_found place (part condition.now) (part then.now) (Some (part otherwise.now)) (setting_of around.now) locals.old want.now)) }
    ensures failures { OnOk result (first.new.error ≡ first_failure first.old.error
        (spec.if_found place (part condition.now) (part then.now) (Some (part otherwise.now)) (setting_of around.now) locals.old want.now).faults) }
    ensures locals { OnOk result (locals.new ≡ locals.old) }
{
    let alloc = walker.alloc;
    let mut parts = Items::new(alloc);
    push_part(
        walker,
        condition,
        around,
        locals,
        &Shape::Bool,
        &mut parts,
        first,
    )?;
    let given = copy_shape(alloc, want)?;
    let given = push_branch(walker, then, around, locals, given, &mut parts, first)?;
    let shape = push_branch(walker, otherwise, around, locals, given, &mut parts, first)?;
    let kind = Kind::If(copy_shape(alloc, &shape)?);
    let core = over(place, kind, parts);
    Ok(Made { shape, core })
}

/// `if c then a`, which is `()`. The one error is want of memory.
#[tactic(auto, using(shape_rules::proofs::Firsts::first_failure_append), unfolding(shape_forms::specs::Over::over_found))]
pub fn if_alone<
    F: Fn(Global, &Exp, &Around<'_>, &mut Locals, &Shape, &mut First) -> Result<Made, AllocError>,
>(
    walker: &Walker<'_, F>,
    place: Place,
    condition: &Exp,
    then: &Exp,
    around: &Around<'_>,
    locals: &mut Locals,
    want: &Shape,
    first: &mut First,
) -> Result<Made, AllocError>
    requires parts { Elaborates (the_size walker.now.whole.now) (F.pre walker.now.part) (F.post walker.now.part) }
    requires condition { the_size condition.now < the_size walker.now.whole.now }
    requires then { the_size then.now < the_size walker.now.whole.now }
    ensures made { IfOk result (λ made. made ≡ made_of
        (spec.if_found place (part condition.now) (part then.now) None (setting_of around.now) locals.old want.now)) }
    ensures failures { OnOk result (first.new.error ≡ first_failure first.old.error
        (spec.if_found place (part condition.now) (part then.now) None (setting_of around.now) locals.old want.now).faults) }
    ensures locals { OnOk result (locals.new ≡ locals.old) }
{
    let alloc = walker.alloc;
    let mut parts = Items::new(alloc);
    push_part(
        walker,
        condition,
        around,
        locals,
        &Shape::Bool,
        &mut parts,
        first,
    )?;
    push_cast(
        walker,
        then,
        around,
        locals,
        &Shape::Unit,
        &mut parts,
        first,
    )?;
    settle_over(
        alloc,
        place,
        want,
        Shape::Unit,
        Kind::If(Shape::Unit),
        parts,
        first,
    )
}

/// `match e { .. }`. The one error is want of memory.
#[tactic(auto, using(shape_rules::proofs::Firsts::first_failure_append))]
pub fn match_cases<
    F: Fn(Global, &Exp, &Around<'_>, &mut Locals, &Shape, &mut First) -> Result<Made, AllocError>,
>(
    walker: &Walker<'_, F>,
    place: Place,
    cases: &[Case],
    value: &Exp,
    around: &Around<'_>,
    locals: &mut Locals,
    want: &Shape,
    first: &mut First,
) -> Result<Made, AllocError>
    requires parts { Elaborates (the_size walker.now.whole.now) (F.pre walker.now.part) (F.post walker.now.part) }
    requires cases { most case_size cases.now < the_size walker.now.whole.now }
    requires value { the_size value.now < the_size walker.now.whole.now }
    ensures made { IfOk result (λ made. made ≡ made_of (spec.match_of place (part value.now) (map case_part cases.now) (setting_of around.now)
        locals.old want.now ((part value.now).elaborate (setting_of around.now) locals.old V.Never))) }
    ensures failures { OnOk result (first.new.error ≡ first_failure first.old.error (spec.match_of place (part value.now) (map case_part cases.now)
        (setting_of around.now) locals.old want.now ((part value.now).elaborate (setting_of around.now) locals.old V.Never)).faults) }
    ensures locals { OnOk result (locals.new ≡ locals.old) }
{
    let alloc = walker.alloc;
    let mut parts = Items::new(alloc);
    let subject = push_cast(
        walker,
        value,
        around,
        locals,
        &Shape::Never,
        &mut parts,
        first,
    )?;
    let given = copy_shape(alloc, want)?;
    let mut arms = Items::new(alloc);
    let shape = push_cases(
        walker, cases, &subject, around, locals, given, &mut arms, &mut parts, first,
    )?;
    let kind = Kind::Match(arms, copy_shape(alloc, &shape)?);
    let core = over(place, kind, parts);
    Ok(Made { shape, core })
}

/// `try e catch { .. }`: e is the first branch. The one error is want of memory.
#[tactic(auto, using(shape_rules::proofs::Firsts::first_failure_append))]
pub fn try_cases<
    F: Fn(Global, &Exp, &Around<'_>, &mut Locals, &Shape, &mut First) -> Result<Made, AllocError>,
>(
    walker: &Walker<'_, F>,
    place: Place,
    cases: &[Case],
    value: &Exp,
    around: &Around<'_>,
    locals: &mut Locals,
    want: &Shape,
    first: &mut First,
) -> Result<Made, AllocError>
    requires parts { Elaborates (the_size walker.now.whole.now) (F.pre walker.now.part) (F.post walker.now.part) }
    requires cases { most case_size cases.now < the_size walker.now.whole.now }
    requires value { the_size value.now < the_size walker.now.whole.now }
    ensures made { IfOk result (λ made. made ≡ made_of (spec.try_of place (part value.now) (map case_part cases.now) (setting_of around.now)
        locals.old want.now ((part value.now).elaborate (setting_of around.now) locals.old want.now))) }
    ensures failures { OnOk result (first.new.error ≡ first_failure first.old.error (spec.try_of place (part value.now) (map case_part cases.now)
        (setting_of around.now) locals.old want.now ((part value.now).elaborate (setting_of around.now) locals.old want.now)).faults) }
    ensures locals { OnOk result (locals.new ≡ locals.old) }
{
    let alloc = walker.alloc;
    let mut parts = Items::new(alloc);
    let given = copy_shape(alloc, want)?;
    let given = push_branch(walker, value, around, locals, given, &mut parts, first)?;
    let thrown = around.thrown(alloc);
    let mut arms = Items::new(alloc);
    let shape = push_cases(
        walker, cases, &thrown, around, locals, given, &mut arms, &mut parts, first,
    )?;
    let kind = Kind::Try(arms, copy_shape(alloc, &shape)?);
    let core = over(place, kind, parts);
    Ok(Made { shape, core })
}

/// The cases of a `match` or a `try` over values of this shape: arms and bodies go behind others. Gives the shape of all.
#[tactic(auto, using(shape_rules::proofs::Firsts::first_failure_append))]
fn push_cases<
    F: Fn(Global, &Exp, &Around<'_>, &mut Locals, &Shape, &mut First) -> Result<Made, AllocError>,
>(
    walker: &Walker<'_, F>,
    cases: &[Case],
    subject: &Shape,
    around: &Around<'_>,
    locals: &mut Locals,
    want: Shape,
    arms: &mut Items<Arm>,
    bodies: &mut Items<Core>,
    first: &mut First,
) -> Result<Shape, AllocError>
    requires parts { Elaborates (the_size walker.now.whole.now) (F.pre walker.now.part) (F.post walker.now.part) }
    requires cases { most case_size cases.now < the_size walker.now.whole.now }
    ensures shape { IfOk result (λ shape. shape
        ≡ (spec.cases_found (map case_part cases.now) (setting_of around.now) locals.old subject.now want).shape) }
    ensures arms { OnOk result (arms.new ≡ arms.old
        ++ (spec.cases_found (map case_part cases.now) (setting_of around.now) locals.old subject.now want).arms) }
    ensures bodies { OnOk result (bodies.new ≡ bodies.old
        ++ (spec.cases_found (map case_part cases.now) (setting_of around.now) locals.old subject.now want).bodies) }
    ensures failures { OnOk result (first.new.error ≡ first_failure first.old.error
        (spec.cases_found (map case_part cases.now) (setting_of around.now) locals.old subject.now want).faults) }
    ensures locals { OnOk result (locals.new ≡ locals.old) }
{
    let mut given = want;
    for case in cases {
        given = push_case(
            walker, case, subject, around, locals, given, arms, bodies, first,
        )?;
    }
    Ok(given)
}

/// One case. Gives the shape of its body and of those before it.
#[tactic(auto, using(shape_forms::proofs::Left::left_behind, shape_rules::proofs::Firsts::first_failure_append))]
fn push_case<
    F: Fn(Global, &Exp, &Around<'_>, &mut Locals, &Shape, &mut First) -> Result<Made, AllocError>,
>(
    walker: &Walker<'_, F>,
    case: &Case,
    subject: &Shape,
    around: &Around<'_>,
    locals: &mut Locals,
    want: Shape,
    arms: &mut Items<Arm>,
    bodies: &mut Items<Core>,
    first: &mut First,
) -> Result<Shape, AllocError>
    requires parts { Elaborates (the_size walker.now.whole.now) (F.pre walker.now.part) (F.post walker.now.part) }
    requires case { case_size case.now < the_size walker.now.whole.now }
    ensures shape { IfOk result (λ shape. shape ≡ (cased (case_part case.now) (setting_of around.now) locals.old subject.now want).shape) }
    ensures arms { OnOk result (arms.new ≡ arms.old ++ (cased (case_part case.now) (setting_of around.now) locals.old subject.now want).arm ∷ []) }
    ensures bodies { OnOk result (bodies.new
        ≡ bodies.old ++ (cased (case_part case.now) (setting_of around.now) locals.old subject.now want).body ∷ []) }
    ensures failures { OnOk result (first.new.error ≡ first_failure first.old.error
        (cased (case_part case.now) (setting_of around.now) locals.old subject.now want).faults) }
    ensures locals { OnOk result (locals.new ≡ locals.old) }
{
    let alloc = walker.alloc;
    let outside = locals.len();
    let arm = enter_pattern(alloc, &case.pattern, around, locals, subject, first)?;
    let shape = push_body(walker, case, around, locals, &want, bodies, first)?;
    locals.leave(outside)?;
    arms.push(arm)?;
    given_on(alloc, want, &shape)
}

/// The body of a case behind its guard, where the names of its pattern are in scope.
#[tactic(auto, using(shape_rules::proofs::Firsts::first_failure_append))]
fn push_body<
    F: Fn(Global, &Exp, &Around<'_>, &mut Locals, &Shape, &mut First) -> Result<Made, AllocError>,
>(
    walker: &Walker<'_, F>,
    case: &Case,
    around: &Around<'_>,
    locals: &mut Locals,
    want: &Shape,
    bodies: &mut Items<Core>,
    first: &mut First,
) -> Result<Shape, AllocError>
    requires parts { Elaborates (the_size walker.now.whole.now) (F.pre walker.now.part) (F.post walker.now.part) }
    requires case { case_size case.now < the_size walker.now.whole.now }
    ensures shape { IfOk result (λ shape. shape ≡ ((case_part case.now).body.elaborate (setting_of around.now) locals.old want.now).shape) }
    ensures bodies { OnOk result (bodies.new ≡ bodies.old ++ case_bodied (case_part case.now) (setting_of around.now) locals.old want.now ∷ []) }
    ensures failures { OnOk result (first.new.error ≡ first_failure first.old.error
        (case_faults (case_part case.now) (setting_of around.now) locals.old want.now)) }
    ensures locals { OnOk result (locals.new ≡ locals.old) }
{
    let alloc = walker.alloc;
    let body = case.body.get();
    match &case.guard {
        None => push_cast(walker, body, around, locals, want, bodies, first),
        Some(guard) => {
            let guard = guard.get();
            let mut parts = Items::new(alloc);
            push_part(
                walker,
                guard,
                around,
                locals,
                &Shape::Bool,
                &mut parts,
                first,
            )?;
            let shape = push_cast(walker, body, around, locals, want, &mut parts, first)?;
            bodies.push(over(place_of(guard), Kind::When, parts))?;
            Ok(shape)
        }
    }
}
