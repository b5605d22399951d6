//! Walks over parts, and single parts of other forms.
ghost use Rattle.std.specs.Prelude.{◌≡◌, ◌<◌, ◌∷◌, ◌++◌, [], map, IfOk, OnOk};
ghost use Rattle.shape_rules.specs.Around.{setting_of};
ghost use Rattle.shape_rules.specs.Findings.{first_failure, given_on, cast};
ghost use Rattle.shape_rules.specs.Values as values;
ghost use Rattle.shape_rules.specs.Expressions.{elaborate as elaborated, part};
ghost use Rattle.shape_calls.specs.Made.{made_of};
ghost use Rattle.shape_walks.specs.Walks.{want_of, took, one_faults, each_taken, each_faults};
ghost use Rattle.shape_walks.specs.Heads.{head_found};
ghost use Rattle.shape_walks.specs.Trees.{elaborates};
ghost use Rattle.sail_syntax.specs.declared.expressions.Exp.{size-Exp as the_size};
ghost use denote.Param.Weighed.{most};
ghost use Rattle.shape_values.specs.Walkers.{Elaborates};

use crate::walkers::Walker;
use sail_base::{Items, Operator, Place};
use sail_core::Core;
use sail_syntax::Exp;
use sail_types::Shape;
use shape_calls::{Made, given_on, refused};
use shape_rules::{Around, First, Locals};
use shape_walks::{Head, Walk, count_of, finish_infix, place_of, take_noted, turn};
use std::alloc::{AllocError, Global};

/// One part more of a walk.
#[tactic(auto, using(shape_walks::proofs::Taught::one_noted, shape_calls::proofs::Apart::some_noted))]
pub(crate) fn push_one<
    F: Fn(Global, &Exp, &Around<'_>, &mut Locals, &Shape, &mut First) -> Result<Made, AllocError>,
>(
    walker: &Walker<'_, F>,
    expression: &Exp,
    around: &Around<'_>,
    locals: &mut Locals,
    walk: Walk,
    first: &mut First,
) -> Result<Walk, AllocError>
    requires parts { Elaborates (the_size walker.now.whole.now) (F.pre walker.now.part) (F.post walker.now.part) }
    requires expression { the_size expression.now < the_size walker.now.whole.now }
    ensures walk { IfOk result (λ next. next ≡ took walk (elaborated expression.now (setting_of around.now) locals.old (want_of walk))) }
    ensures failures { OnOk result (first.new.error ≡ first_failure first.old.error
        (one_faults walk (elaborated expression.now (setting_of around.now) locals.old (want_of walk)))) }
    ensures locals { OnOk result (locals.new ≡ locals.old) }
{
    let alloc = walker.alloc;
    let want = walk.want(alloc)?;
    let mut apart = First::none();
    let made = walker.elaborate(expression, around, locals, &want, &mut apart)?;
    take_noted(alloc, walk, made, apart, first)
}

/// Parts more of a walk: each is elaborated where the walk wants its shape, and its failures are noted in order. The one error is want
/// of memory.
#[tactic(auto, using(shape_rules::proofs::Firsts::first_failure_append))]
pub fn push_all<
    F: Fn(Global, &Exp, &Around<'_>, &mut Locals, &Shape, &mut First) -> Result<Made, AllocError>,
>(
    walker: &Walker<'_, F>,
    expressions: &[Exp],
    around: &Around<'_>,
    locals: &mut Locals,
    mut walk: Walk,
    first: &mut First,
) -> Result<Walk, AllocError>
    requires parts { Elaborates (the_size walker.now.whole.now) (F.pre walker.now.part) (F.post walker.now.part) }
    requires expressions { most the_size expressions.now < the_size walker.now.whole.now }
    ensures walk { IfOk result (λ next. next ≡ each_taken (elaborates expressions.now) (setting_of around.now) locals.old walk) }
    ensures failures { OnOk result (first.new.error ≡ first_failure first.old.error
        (each_faults (elaborates expressions.now) (setting_of around.now) locals.old walk)) }
    ensures locals { OnOk result (locals.new ≡ locals.old) }
{
    for expression in expressions {
        walk = push_one(walker, expression, around, locals, walk, first)?;
    }
    Ok(walk)
}

/// A form over two lists of expressions, one behind the other; with none the head alone, and where their count is wrong a failure of
/// that (M15). The one error is want of memory.
#[tactic(auto, using(shape_walks::proofs::Listed::listed_is, shape_walks::proofs::Listed::listed_refused, shape_walks::proofs::Listed::listed_bare, shape_rules::proofs::Firsts::first_failure_append))]
pub fn listed<
    F: Fn(Global, &Exp, &Around<'_>, &mut Locals, &Shape, &mut First) -> Result<Made, AllocError>,
>(
    walker: &Walker<'_, F>,
    head: Head<'_>,
    front: &[Exp],
    back: &[Exp],
    around: &Around<'_>,
    locals: &mut Locals,
    want: &Shape,
    first: &mut First,
) -> Result<Made, AllocError>
    requires parts { Elaborates (the_size walker.now.whole.now) (F.pre walker.now.part) (F.post walker.now.part) }
    requires front { most the_size front.now < the_size walker.now.whole.now }
    requires back { most the_size back.now < the_size walker.now.whole.now }
    ensures made { IfOk result (λ made. made
        ≡ made_of (head_found head.entry (map part front.now ++ map part back.now) (setting_of around.now) locals.old want.now)) }
    ensures failures { OnOk result (first.new.error ≡ first_failure first.old.error
        (head_found head.entry (map part front.now ++ map part back.now) (setting_of around.now) locals.old want.now).faults) }
    ensures locals { OnOk result (locals.new ≡ locals.old) }
{
    let alloc = walker.alloc;
    let count = count_of(front, back);
    if count == 0 {
        return head.bare(alloc, around, want, first);
    }
    if let Some(error) = head.count_failure(count) {
        return Ok(refused(alloc, error, first));
    }
    let begun = head.begin(alloc, count, want)?;
    let fronted = push_all(walker, front, around, locals, begun, first)?;
    let walk = push_all(walker, back, around, locals, fronted, first)?;
    head.finish(alloc, around, walk, want, first)
}

/// An operator between two operands.
#[tactic(auto, using(shape_walks::proofs::Infixes::infix_walked, shape_rules::proofs::Firsts::first_failure_append))]
pub fn infix<
    F: Fn(Global, &Exp, &Around<'_>, &mut Locals, &Shape, &mut First) -> Result<Made, AllocError>,
>(
    walker: &Walker<'_, F>,
    place: Place,
    operator: Operator,
    left: &Exp,
    right: &Exp,
    around: &Around<'_>,
    locals: &mut Locals,
    want: &Shape,
    first: &mut First,
) -> Result<Made, AllocError>
    requires parts { Elaborates (the_size walker.now.whole.now) (F.pre walker.now.part) (F.post walker.now.part) }
    requires left { the_size left.now < the_size walker.now.whole.now }
    requires right { the_size right.now < the_size walker.now.whole.now }
    ensures made { IfOk result (λ made. made
        ≡ made_of (values.infix_found place operator (part left.now) (part right.now) (setting_of around.now) locals.old want.now)) }
    ensures failures { OnOk result (first.new.error ≡ first_failure first.old.error
        (values.infix_found place operator (part left.now) (part right.now) (setting_of around.now) locals.old want.now).faults) }
    ensures locals { OnOk result (locals.new ≡ locals.old) }
{
    let alloc = walker.alloc;
    let begun = Head::Infix(place, operator).begin(alloc, 2, want)?;
    let one = push_one(walker, left, around, locals, begun, first)?;
    let turned = turn(alloc, operator, one)?;
    let walk = push_one(walker, right, around, locals, turned, first)?;
    finish_infix(alloc, place, operator, around, walk, want, first)
}

/// An expression as a part of another: its core goes behind others. The one error is want of memory.
#[tactic(auto, using(shape_rules::proofs::Firsts::first_failure_append))]
pub fn push_part<
    F: Fn(Global, &Exp, &Around<'_>, &mut Locals, &Shape, &mut First) -> Result<Made, AllocError>,
>(
    walker: &Walker<'_, F>,
    expression: &Exp,
    around: &Around<'_>,
    locals: &mut Locals,
    want: &Shape,
    parts: &mut Items<Core>,
    first: &mut First,
) -> Result<Shape, AllocError>
    requires parts { Elaborates (the_size walker.now.whole.now) (F.pre walker.now.part) (F.post walker.now.part) }
    requires expression { the_size expression.now < the_size walker.now.whole.now }
    ensures shape { IfOk result (λ shape. shape ≡ (elaborated expression.now (setting_of around.now) locals.old want.now).shape) }
    ensures parts { OnOk result (parts.new ≡ parts.old ++ (elaborated expression.now (setting_of around.now) locals.old want.now).core ∷ []) }
    ensures failures { OnOk result (first.new.error ≡ first_failure first.old.error
        (elaborated expression.now (setting_of around.now) locals.old want.now).faults) }
    ensures locals { OnOk result (locals.new ≡ locals.old) }
{
    let made = walker.elaborate(expression, around, locals, want, first)?;
    made.into_shape(parts)
}

/// The same, where its value comes to the type that is wanted of it. The one error is want of memory.
#[tactic(auto, using(shape_rules::proofs::Firsts::first_failure_append))]
pub fn push_cast<
    F: Fn(Global, &Exp, &Around<'_>, &mut Locals, &Shape, &mut First) -> Result<Made, AllocError>,
>(
    walker: &Walker<'_, F>,
    expression: &Exp,
    around: &Around<'_>,
    locals: &mut Locals,
    want: &Shape,
    parts: &mut Items<Core>,
    first: &mut First,
) -> Result<Shape, AllocError>
    requires parts { Elaborates (the_size walker.now.whole.now) (F.pre walker.now.part) (F.post walker.now.part) }
    requires expression { the_size expression.now < the_size walker.now.whole.now }
    ensures shape { IfOk result (λ shape. shape ≡ (elaborated expression.now (setting_of around.now) locals.old want.now).shape) }
    ensures parts { OnOk result (parts.new ≡ parts.old
        ++ cast (elaborated expression.now (setting_of around.now) locals.old want.now).core (part expression.now).place ∷ []) }
    ensures failures { OnOk result (first.new.error ≡ first_failure first.old.error
        (elaborated expression.now (setting_of around.now) locals.old want.now).faults) }
    ensures locals { OnOk result (locals.new ≡ locals.old) }
{
    let alloc = walker.alloc;
    let made = walker.elaborate(expression, around, locals, want, first)?;
    made.into_cast_shape(alloc, place_of(expression), parts)
}

/// An expression as a branch of another: its core goes behind others, and its shape to those behind it. The one error is want of
/// memory.
#[tactic(auto, using(shape_rules::proofs::Firsts::first_failure_append))]
pub fn push_branch<
    F: Fn(Global, &Exp, &Around<'_>, &mut Locals, &Shape, &mut First) -> Result<Made, AllocError>,
>(
    walker: &Walker<'_, F>,
    expression: &Exp,
    around: &Around<'_>,
    locals: &mut Locals,
    want: Shape,
    parts: &mut Items<Core>,
    first: &mut First,
) -> Result<Shape, AllocError>
    requires parts { Elaborates (the_size walker.now.whole.now) (F.pre walker.now.part) (F.post walker.now.part) }
    requires expression { the_size expression.now < the_size walker.now.whole.now }
    ensures shape { IfOk result (λ shape. shape
        ≡ given_on want (elaborated expression.now (setting_of around.now) locals.old want).shape) }
    ensures parts { OnOk result (parts.new ≡ parts.old
        ++ cast (elaborated expression.now (setting_of around.now) locals.old want).core (part expression.now).place ∷ []) }
    ensures failures { OnOk result (first.new.error ≡ first_failure first.old.error
        (elaborated expression.now (setting_of around.now) locals.old want).faults) }
    ensures locals { OnOk result (locals.new ≡ locals.old) }
{
    let alloc = walker.alloc;
    let shape = push_cast(walker, expression, around, locals, &want, parts, first)?;
    given_on(alloc, want, &shape)
}
