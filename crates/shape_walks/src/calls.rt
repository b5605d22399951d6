//! Directions of mappings, and operators on truths.
ghost use Rattle.std.specs.Prelude.{◌≡◌, ◌++◌, map, slice_get, is_some, IfOk, OnOk};
ghost use Rattle.sail_types.specs.declared.shapes.Shape.{out-Shape};
ghost use Rattle.shape_rules.specs.Around.{setting_of};
ghost use Rattle.shape_rules.specs.Expressions.{part};
ghost use Rattle.shape_rules.specs.Findings.{first_failure};
ghost use Rattle.shape_rules.specs.Values as spec;
ghost use Rattle.shape_patterns.specs.Known.{which as which_of};
ghost use Rattle.shape_calls.specs.Made.{made_of};
ghost use Rattle.shape_calls.specs.Apart.{note_of};
ghost use Rattle.shape_walks.specs.Calls.{one_taken, direction_made, mapping_made, first_is_truth, is_truths, turned, truths_of, infix_made, place_or};
ghost use Rattle.shape_walks.specs.Calls.{first_is_variable, is_undecided};

use crate::heads::{Head, count_of};
use crate::places::place_of;
use crate::walks::{Plan, Walk};
use sail_base::{Items, Operator, Place, Text};
use sail_core::{Callee, Core, Kind};
use sail_syntax::Exp;
use sail_types::{Shape, shape_of};
use shape_calls::{
    Made, has_never, is_truth, logical_kind, note_apart, operator_text, over, refused, settled,
    unknown,
};
use shape_patterns::{Matched, backwards_of, forwards_of, overlap_at, which_side};
use shape_rules::{Around, First, Mapping, ShapeError};
use std::alloc::{AllocError, Global};

/// A call of a direction of a mapping: which one hangs on a part that failed, where its value is unsure. The one error is want of memory.
fn one_way(
    alloc: Global,
    place: Place,
    direction: u32,
    answer: Shape,
    is_unsure: bool,
    cores: Items<Core>,
    want: &Shape,
    first: &mut First,
) -> Result<Made, AllocError>
    ensures made { IfOk result (λ made. made ≡ made_of (one_taken place want.now direction answer is_unsure cores)) }
    ensures failures { OnOk result (first.new.error
        ≡ first_failure first.old.error (one_taken place want.now direction answer is_unsure cores).faults) }
{
    if is_unsure {
        Ok(unknown(alloc, place))
    } else {
        let kind = Kind::Call(Callee::Converts(direction));
        settled(alloc, place, want, answer, over(place, kind, cores), first)
    }
}

/// The direction of a mapping that goes by the side that its value has. Notes where it has neither, or where the sides may share
/// values. The one error is want of memory.
fn direction_taken(
    alloc: Global,
    place: Place,
    at_value: Place,
    mapping: &Mapping,
    which: Matched,
    is_unsure: bool,
    cores: Items<Core>,
    want: &Shape,
    first: &mut First,
) -> Result<Made, AllocError>
    ensures made { IfOk result (λ made. made ≡ made_of (direction_made place at_value want.now mapping.now is_unsure cores (which_of which))) }
    ensures failures { OnOk result (first.new.error
        ≡ first_failure first.old.error (direction_made place at_value want.now mapping.now is_unsure cores (which_of which)).faults) }
{
    match which {
        Matched::Forwards => {
            let direction = forwards_of(mapping)?;
            let answer = shape_of(alloc, &mapping.right)?;
            one_way(
                alloc, place, direction, answer, is_unsure, cores, want, first,
            )
        }
        Matched::Backwards => {
            let direction = backwards_of(mapping)?;
            let answer = shape_of(alloc, &mapping.left)?;
            one_way(
                alloc, place, direction, answer, is_unsure, cores, want, first,
            )
        }
        Matched::Neither => {
            let error = ShapeError::IllShaped {
                place: at_value,
                mismatch: None,
            };
            Ok(refused(alloc, error, first))
        }
        Matched::Either => {
            let error = overlap_at(alloc, place, mapping)?;
            Ok(refused(alloc, error, first))
        }
    }
}

/// Whether the first of arguments is a truth, or fits every shape.
fn begins_with_truth(shapes: &[Shape]) -> bool
    ensures { result ≡ first_is_truth shapes.now }
{
    match shapes.get(0) {
        Some(shape) => is_truth(shape),
        None => false,
    }
}

/// Whether a shape is that of a type variable.
fn is_variable(shape: &Shape) -> bool
    ensures { result ≡ spec.is_variable_form (out-Shape shape.now) }
{
    match shape {
        Shape::Variable(_) => true,
        _ => false,
    }
}

/// Whether the first of arguments is of a type variable.
fn begins_with_variable(shapes: &[Shape]) -> bool
    ensures { result ≡ first_is_variable shapes.now }
{
    match shapes.get(0) {
        Some(shape) => is_variable(shape),
        None => false,
    }
}

/// A call of a mapping on this value, the failures of which were noted apart: its direction goes by the side that the value has. The
/// one error is want of memory.
#[tactic(auto, unfolding(crate::specs::Calls::mapping_made))]
pub fn mapping_taken(
    alloc: Global,
    place: Place,
    at_value: Place,
    mapping: &Mapping,
    made: Made,
    apart: First,
    want: &Shape,
    first: &mut First,
) -> Result<Made, AllocError>
    ensures made { IfOk result (λ next. next ≡ made_of (mapping_made place at_value want.now mapping.now made (is_some apart.error))) }
    ensures failures { OnOk result (first.new.error ≡ first_failure (note_of first.old.error apart.error)
        (mapping_made place at_value want.now mapping.now made (is_some apart.error)).faults) }
{
    let is_unsure = apart.error.is_some() && has_never(&made.shape);
    note_apart(first, apart);
    let mut cores = Items::new(alloc);
    let shape = made.into_shape(&mut cores)?;
    let which = which_side(alloc, mapping, &shape)?;
    direction_taken(
        alloc, place, at_value, mapping, which, is_unsure, cores, want, first,
    )
}

/// Where the first of expressions stands; here, where there is none.
fn first_place(place: Place, expressions: &[Exp]) -> Place
    ensures { result ≡ place_or place (slice_get expressions.now 0) }
{
    match expressions.get(0) {
        Some(expression) => place_of(expression),
        None => place,
    }
}

/// Where the value of arguments stands: a written one where it does, else at the call.
#[tactic(auto, using(crate::proofs::ValuePlaces::one_value, crate::proofs::ValuePlaces::no_one_value))]
pub fn value_place(place: Place, first: &[Exp], last: &[Exp]) -> Place
    ensures { result ≡ (spec.as_one place (map part first.now ++ map part last.now)).place }
{
    if count_of(first, last) == 1 {
        first_place(first_place(place, last), first)
    } else {
        place
    }
}

/// Whether operands of `&` or `|` are truths, by the left one.
fn are_truths(operator: Operator, walk: &Walk) -> bool
    ensures { result ≡ is_truths operator walk.now }
{
    logical_kind(operator).is_some() && begins_with_truth(walk.shapes.as_slice())
}

/// Whether it isn't known of operands of `&` or `|` whether they are truths, by the left one.
fn are_undecided(operator: Operator, walk: &Walk) -> bool
    ensures { result ≡ is_undecided operator walk.now }
{
    logical_kind(operator).is_some() && begins_with_variable(walk.shapes.as_slice())
}

/// What is wanted of the right operand, behind the left one. The one error is want of memory.
#[tactic(auto, unfolding(crate::specs::Calls::turned))]
pub fn turn(alloc: Global, operator: Operator, walk: Walk) -> Result<Walk, AllocError>
    ensures { IfOk result (λ next. next ≡ turned operator walk) }
{
    if are_truths(operator, &walk) {
        let mut wants = Items::new(alloc);
        wants.push(Shape::Never)?;
        wants.push(Shape::Bool)?;
        Ok(Walk {
            plan: Plan::Each(wants),
            ..walk
        })
    } else {
        Ok(walk)
    }
}

/// An operator on operands that were found. Notes `&` or `|` on a value of a type variable, which may be a truth. The one error is want
/// of memory.
#[tactic(auto, unfolding(crate::specs::Calls::infix_made))]
pub fn finish_infix(
    alloc: Global,
    place: Place,
    operator: Operator,
    around: &Around<'_>,
    walk: Walk,
    want: &Shape,
    first: &mut First,
) -> Result<Made, AllocError>
    ensures made { IfOk result (λ made. made ≡ made_of (infix_made place operator (setting_of around.now) want.now walk)) }
    ensures failures { OnOk result (first.new.error
        ≡ first_failure first.old.error (infix_made place operator (setting_of around.now) want.now walk).faults) }
{
    if are_truths(operator, &walk) {
        let Walk { cores, .. } = walk;
        truths(alloc, place, logical_kind(operator), cores, want, first)
    } else if are_undecided(operator, &walk) {
        let name = Text::new(alloc, operator_text(operator))?;
        Ok(refused(alloc, ShapeError::NoMember { place, name }, first))
    } else {
        Head::Infix(place, operator).finish(alloc, around, walk, want, first)
    }
}

/// `&` or `|` of truths with these cores.
fn truths(
    alloc: Global,
    place: Place,
    kind: Option<Kind>,
    cores: Items<Core>,
    want: &Shape,
    first: &mut First,
) -> Result<Made, AllocError>
    ensures made { IfOk result (λ made. made ≡ made_of (truths_of place want.now cores kind)) }
    ensures failures { OnOk result (first.new.error ≡ first_failure first.old.error (truths_of place want.now cores kind).faults) }
{
    match kind {
        Some(kind) => {
            let core = over(place, kind, cores);
            settled(alloc, place, want, Shape::Bool, core, first)
        }
        None => Ok(unknown(alloc, place)),
    }
}
