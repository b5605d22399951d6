//! What is made of a side.
ghost use Rattle.std.specs.Prelude.{◌≡◌, ◌<◌, pos, ◌-ℤ◌, map, IfOk, OnOk};
ghost use denote.Param.Weighed.{most};
ghost use Rattle.sail_syntax.specs.declared.patterns.Pat.{size-Pat as the_size};
ghost use Rattle.sail_syntax.specs.declared.patterns.Joined.{size-Joined as further_size};
ghost use Rattle.sail_types.specs.declared.shapes.Shape.TheVariants as V;
ghost use Rattle.sail_core.specs.declared.patterns.Literal.TheVariants as L;
ghost use Rattle.sail_core.specs.declared.tree.Kind.TheVariants as K;
ghost use Rattle.shape_rules.specs.Around.{setting_of};
ghost use Rattle.shape_rules.specs.Findings.{first_failure, leaf as leaf_of, settled as settled_of};
ghost use Rattle.shape_rules.specs.Sides as sides;
ghost use Rattle.shape_rules.specs.Sides.{read_side};
ghost use Rattle.shape_rules.specs.Values as values;
ghost use Rattle.shape_calls.specs.Made.{made_of};
ghost use Rattle.shape_walks.specs.Walks.{want_of, took, one_faults, each_taken, each_faults};
ghost use Rattle.shape_walks.specs.Heads.{head_found};
ghost use Rattle.shape_sides.specs.Trees.{elaborates, further_part};
ghost use Rattle.shape_sides.specs.Walkers.{Elaborates};

use crate::calls::call_named;
use crate::walkers::Walker;
use sail_base::{Items, Operator, Place};
use sail_core::{Kind, Literal};
use sail_syntax::{Joined, Pat, TyExp};
use sail_types::Shape;
use shape_calls::{Made, constant_found, leaf, name_found, refused, settled, unknown};
use shape_forms::settle_over;
use shape_rules::{Around, First, Locals};
use shape_walks::{Head, Walk, finish_infix, take_noted, turn};
use std::alloc::{AllocError, Global};
use written_types::{note_written, shape_in, written};

/// The shape and the core of a side as an expression, where a shape is wanted (`Never`, where none is); notes its failures. A bare
/// identifier is what has its name, a local first; nothing is bound.
///
/// A failure is a form of another shape than is wanted, or that has none (M14), a mapping whose sides may share values (M13), a wrong
/// count of arguments (M15), operands that no member of an operator or an overload takes (M16), and a variable in a written type that
/// gets no number (M17). The one error is want of memory, of which a number past those of 128 bits is taken to want too much.
pub fn elaborate_side(
    alloc: Global,
    side: &Pat,
    around: &Around<'_>,
    locals: &Locals,
    want: &Shape,
    first: &mut First,
) -> Result<Made, AllocError>
    ensures made { IfOk result (λ made. made ≡ made_of ((read_side side.now).elaborate (setting_of around.now) locals.now want.now)) }
    ensures failures { OnOk result (first.new.error ≡ first_failure first.old.error
        ((read_side side.now).elaborate (setting_of around.now) locals.now want.now).faults) }
{
    let walker = Walker {
        alloc,
        whole: side,
        part: elaborate_side,
    };
    match side {
        Pat::Wildcard(place) => Ok(unknown(alloc, *place)),
        Pat::Constant(place, literal) => constant_found(alloc, *place, literal, want, first),
        Pat::Negative(place, n) => negative(alloc, *place, *n, want, first),
        Pat::Bind(name) => {
            let local = locals.find(name.text.as_str());
            let meant = around.value(name.text.as_str());
            name_found(alloc, name, local, meant, want, first)
        }
        Pat::Construct(name, parts) => {
            call_named(&walker, name, parts.as_slice(), around, locals, want, first)
        }
        Pat::Group(place, brackets, parts) => listed(
            &walker,
            Head::Group(*place, *brackets),
            parts.as_slice(),
            around,
            locals,
            want,
            first,
        ),
        Pat::Concat {
            place,
            first: head,
            second,
            more,
        } => joined(
            &walker,
            *place,
            head.get(),
            second.get(),
            more.as_slice(),
            around,
            locals,
            want,
            first,
        ),
        Pat::Cons(place, head, tail) => infix(
            &walker,
            *place,
            Operator::Cons,
            head.get(),
            tail.get(),
            around,
            locals,
            want,
            first,
        ),
        Pat::As(_, part, _) => walker.elaborate(part.get(), around, locals, want, first),
        Pat::Typed(place, part, typ) => {
            typed(
                &walker,
                *place,
                part.get(),
                typ,
                around,
                locals,
                want,
                first,
            )
        }
    }
}

/// Where a side stands.
#[tactic(auto, using(crate::proofs::SidePlaces::place_is))]
pub fn place_of_side(side: &Pat) -> Place
    ensures { result ≡ (read_side side.now).place }
{
    side.place()
}

/// `-n`. The one error is want of memory, of which a number past those of 128 bits is taken to want too much.
pub(crate) fn negative(
    alloc: Global,
    place: Place,
    n: i128,
    want: &Shape,
    first: &mut First,
) -> Result<Made, AllocError>
    ensures made { IfOk result (λ made. made
        ≡ made_of (settled_of place want.now V.Int (λ s. leaf_of place (K.Constant (L.Integer (pos 0 -ℤ n)))))) }
    ensures failures { OnOk result (first.new.error ≡ first_failure first.old.error
        (settled_of place want.now V.Int (λ s. leaf_of place (K.Constant (L.Integer (pos 0 -ℤ n))))).faults) }
{
    match 0_i128.checked_sub(n) {
        Some(negative) => {
            let core = leaf(alloc, place, Kind::Constant(Literal::Integer(negative)));
            settled(alloc, place, want, Shape::Int, core, first)
        }
        None => Err(AllocError),
    }
}

/// One part more of a walk.
#[tactic(auto, using(shape_walks::proofs::Taught::one_noted, shape_calls::proofs::Apart::some_noted))]
pub(crate) fn push_one<
    F: Fn(Global, &Pat, &Around<'_>, &Locals, &Shape, &mut First) -> Result<Made, AllocError>,
>(
    walker: &Walker<'_, F>,
    side: &Pat,
    around: &Around<'_>,
    locals: &Locals,
    walk: Walk,
    first: &mut First,
) -> Result<Walk, AllocError>
    requires walker { Elaborates (the_size walker.now.whole.now) (F.pre walker.now.part) (F.post walker.now.part) }
    requires side { the_size side.now < the_size walker.now.whole.now }
    ensures walk { IfOk result (λ next. next
        ≡ took walk ((read_side side.now).elaborate (setting_of around.now) locals.now (want_of walk))) }
    ensures failures { OnOk result (first.new.error ≡ first_failure first.old.error
        (one_faults walk ((read_side side.now).elaborate (setting_of around.now) locals.now (want_of walk)))) }
{
    let alloc = walker.alloc;
    let want = walk.want(alloc)?;
    let mut apart = First::none();
    let made = walker.elaborate(side, around, locals, &want, &mut apart)?;
    take_noted(alloc, walk, made, apart, first)
}

/// Parts more of a walk.
#[tactic(auto, using(shape_rules::proofs::Firsts::first_failure_append))]
pub(crate) fn push_all<
    F: Fn(Global, &Pat, &Around<'_>, &Locals, &Shape, &mut First) -> Result<Made, AllocError>,
>(
    walker: &Walker<'_, F>,
    parts: &[Pat],
    around: &Around<'_>,
    locals: &Locals,
    mut walk: Walk,
    first: &mut First,
) -> Result<Walk, AllocError>
    requires walker { Elaborates (the_size walker.now.whole.now) (F.pre walker.now.part) (F.post walker.now.part) }
    requires parts { most the_size parts.now < the_size walker.now.whole.now }
    ensures walk { IfOk result (λ next. next ≡ each_taken (elaborates parts.now) (setting_of around.now) locals.now walk) }
    ensures failures { OnOk result (first.new.error ≡ first_failure first.old.error
        (each_faults (elaborates parts.now) (setting_of around.now) locals.now walk)) }
{
    for part in parts {
        walk = push_one(walker, part, around, locals, walk, first)?;
    }
    Ok(walk)
}

/// A form over a list of parts.
#[tactic(auto, using(crate::proofs::Listed::listed_is, crate::proofs::Listed::listed_refused, crate::proofs::Listed::listed_bare, shape_rules::proofs::Firsts::first_failure_append))]
pub(crate) fn listed<
    F: Fn(Global, &Pat, &Around<'_>, &Locals, &Shape, &mut First) -> Result<Made, AllocError>,
>(
    walker: &Walker<'_, F>,
    head: Head<'_>,
    parts: &[Pat],
    around: &Around<'_>,
    locals: &Locals,
    want: &Shape,
    first: &mut First,
) -> Result<Made, AllocError>
    requires walker { Elaborates (the_size walker.now.whole.now) (F.pre walker.now.part) (F.post walker.now.part) }
    requires parts { most the_size parts.now < the_size walker.now.whole.now }
    ensures made { IfOk result (λ made. made
        ≡ made_of (head_found head.entry (map read_side parts.now) (setting_of around.now) locals.now want.now)) }
    ensures failures { OnOk result (first.new.error ≡ first_failure first.old.error
        (head_found head.entry (map read_side parts.now) (setting_of around.now) locals.now want.now).faults) }
{
    let alloc = walker.alloc;
    let count = parts.len();
    if count == 0 {
        return head.bare(alloc, around, want, first);
    }
    if let Some(error) = head.count_failure(count) {
        return Ok(refused(alloc, error, first));
    }
    let begun = head.begin(alloc, count, want)?;
    let walk = push_all(walker, parts, around, locals, begun, first)?;
    head.finish(alloc, around, walk, want, first)
}

/// An operator between two operands.
#[tactic(auto, using(shape_walks::proofs::Infixes::infix_walked, shape_rules::proofs::Firsts::first_failure_append))]
pub(crate) fn infix<
    F: Fn(Global, &Pat, &Around<'_>, &Locals, &Shape, &mut First) -> Result<Made, AllocError>,
>(
    walker: &Walker<'_, F>,
    place: Place,
    operator: Operator,
    left: &Pat,
    right: &Pat,
    around: &Around<'_>,
    locals: &Locals,
    want: &Shape,
    first: &mut First,
) -> Result<Made, AllocError>
    requires walker { Elaborates (the_size walker.now.whole.now) (F.pre walker.now.part) (F.post walker.now.part) }
    requires left { the_size left.now < the_size walker.now.whole.now }
    requires right { the_size right.now < the_size walker.now.whole.now }
    ensures made { IfOk result (λ made. made
        ≡ made_of (values.infix_found place operator (read_side left.now) (read_side right.now) (setting_of around.now) locals.now want.now)) }
    ensures failures { OnOk result (first.new.error ≡ first_failure first.old.error
        (values.infix_found place operator (read_side left.now) (read_side right.now) (setting_of around.now) locals.now want.now).faults) }
{
    let alloc = walker.alloc;
    let begun = Head::Infix(place, operator).begin(alloc, 2, want)?;
    let one = push_one(walker, left, around, locals, begun, first)?;
    let turned = turn(alloc, operator, one)?;
    let walk = push_one(walker, right, around, locals, turned, first)?;
    finish_infix(alloc, place, operator, around, walk, want, first)
}

/// A concatenation of at least two parts: each `@` has the part before it to the left, and the whole rest to the right.
#[cycle(joined)]
#[tactic(auto, using(shape_rules::proofs::Firsts::first_failure_append))]
pub(crate) fn joined<
    F: Fn(Global, &Pat, &Around<'_>, &Locals, &Shape, &mut First) -> Result<Made, AllocError>,
>(
    walker: &Walker<'_, F>,
    place: Place,
    head: &Pat,
    second: &Pat,
    more: &[Joined],
    around: &Around<'_>,
    locals: &Locals,
    want: &Shape,
    first: &mut First,
) -> Result<Made, AllocError>
    requires walker { Elaborates (the_size walker.now.whole.now) (F.pre walker.now.part) (F.post walker.now.part) }
    requires head { the_size head.now < the_size walker.now.whole.now }
    requires second { the_size second.now < the_size walker.now.whole.now }
    requires more { most further_size more.now < the_size walker.now.whole.now }
    ensures made { IfOk result (λ made. made ≡ made_of ((sides.append_part place (read_side head.now) (read_side second.now)
        (map further_part more.now)).elaborate (setting_of around.now) locals.now want.now)) }
    ensures failures { OnOk result (first.new.error ≡ first_failure first.old.error ((sides.append_part place (read_side head.now)
        (read_side second.now) (map further_part more.now)).elaborate (setting_of around.now) locals.now want.now).faults) }
{
    match more {
        [] => infix(
            walker,
            place,
            Operator::Append,
            head,
            second,
            around,
            locals,
            want,
            first,
        ),
        [next, rest @ ..] => infix_joined(
            walker,
            place,
            Operator::Append,
            head,
            next.place,
            second,
            &next.part,
            rest,
            around,
            locals,
            want,
            first,
        ),
    }
}

/// An operator between a part and a concatenation of at least two parts.
#[cycle(joined)]
#[tactic(auto, using(shape_walks::proofs::Infixes::infix_walked, shape_rules::proofs::Firsts::first_failure_append))]
pub(crate) fn infix_joined<
    F: Fn(Global, &Pat, &Around<'_>, &Locals, &Shape, &mut First) -> Result<Made, AllocError>,
>(
    walker: &Walker<'_, F>,
    place: Place,
    operator: Operator,
    head: &Pat,
    next: Place,
    second: &Pat,
    third: &Pat,
    more: &[Joined],
    around: &Around<'_>,
    locals: &Locals,
    want: &Shape,
    first: &mut First,
) -> Result<Made, AllocError>
    requires walker { Elaborates (the_size walker.now.whole.now) (F.pre walker.now.part) (F.post walker.now.part) }
    requires head { the_size head.now < the_size walker.now.whole.now }
    requires second { the_size second.now < the_size walker.now.whole.now }
    requires third { the_size third.now < the_size walker.now.whole.now }
    requires more { most further_size more.now < the_size walker.now.whole.now }
    ensures made { IfOk result (λ made. made ≡ made_of (values.infix_found place operator (read_side head.now)
        (sides.append_part next (read_side second.now) (read_side third.now) (map further_part more.now)) (setting_of around.now)
        locals.now want.now)) }
    ensures failures { OnOk result (first.new.error ≡ first_failure first.old.error (values.infix_found place operator (read_side head.now)
        (sides.append_part next (read_side second.now) (read_side third.now) (map further_part more.now)) (setting_of around.now)
        locals.now want.now).faults) }
{
    let alloc = walker.alloc;
    let begun = Head::Infix(place, operator).begin(alloc, 2, want)?;
    let one = push_one(walker, head, around, locals, begun, first)?;
    let turned = turn(alloc, operator, one)?;
    let walk = push_joined(
        walker, next, second, third, more, around, locals, turned, first,
    )?;
    finish_infix(alloc, place, operator, around, walk, want, first)
}

/// One part more of a walk: a concatenation of at least two parts.
#[cycle(joined)]
#[tactic(auto, using(shape_walks::proofs::Taught::one_noted, shape_calls::proofs::Apart::some_noted))]
pub(crate) fn push_joined<
    F: Fn(Global, &Pat, &Around<'_>, &Locals, &Shape, &mut First) -> Result<Made, AllocError>,
>(
    walker: &Walker<'_, F>,
    place: Place,
    head: &Pat,
    second: &Pat,
    more: &[Joined],
    around: &Around<'_>,
    locals: &Locals,
    walk: Walk,
    first: &mut First,
) -> Result<Walk, AllocError>
    requires walker { Elaborates (the_size walker.now.whole.now) (F.pre walker.now.part) (F.post walker.now.part) }
    requires head { the_size head.now < the_size walker.now.whole.now }
    requires second { the_size second.now < the_size walker.now.whole.now }
    requires more { most further_size more.now < the_size walker.now.whole.now }
    ensures walk { IfOk result (λ next. next ≡ took walk ((sides.append_part place (read_side head.now) (read_side second.now)
        (map further_part more.now)).elaborate (setting_of around.now) locals.now (want_of walk))) }
    ensures failures { OnOk result (first.new.error ≡ first_failure first.old.error (one_faults walk ((sides.append_part place
        (read_side head.now) (read_side second.now) (map further_part more.now)).elaborate (setting_of around.now) locals.now (want_of walk)))) }
{
    let alloc = walker.alloc;
    let want = walk.want(alloc)?;
    let mut apart = First::none();
    let made = joined(
        walker, place, head, second, more, around, locals, &want, &mut apart,
    )?;
    take_noted(alloc, walk, made, apart, first)
}

/// `p : T`. The one error is want of memory.
#[tactic(auto, using(shape_rules::proofs::Firsts::first_failure_append), unfolding(shape_forms::specs::Over::over_found))]
pub(crate) fn typed<
    F: Fn(Global, &Pat, &Around<'_>, &Locals, &Shape, &mut First) -> Result<Made, AllocError>,
>(
    walker: &Walker<'_, F>,
    place: Place,
    part: &Pat,
    typ: &TyExp,
    around: &Around<'_>,
    locals: &Locals,
    want: &Shape,
    first: &mut First,
) -> Result<Made, AllocError>
    requires walker { Elaborates (the_size walker.now.whole.now) (F.pre walker.now.part) (F.post walker.now.part) }
    requires part { the_size part.now < the_size walker.now.whole.now }
    ensures made { IfOk result (λ made. made
        ≡ made_of (values.typed_found place (read_side part.now) typ.now (setting_of around.now) locals.now want.now)) }
    ensures failures { OnOk result (first.new.error ≡ first_failure first.old.error
        (values.typed_found place (read_side part.now) typ.now (setting_of around.now) locals.now want.now).faults) }
{
    let alloc = walker.alloc;
    let shape = shape_in(alloc, typ, &around.scope)?;
    let made = walker.elaborate(part, around, locals, &shape, first)?;
    let mut parts = Items::new(alloc);
    made.into_shape(&mut parts)?;
    note_written(alloc, typ, &around.scope, first)?;
    let kind = Kind::Cast(written(alloc, typ, &around.scope)?);
    settle_over(alloc, place, want, shape, kind, parts, first)
}
