//! What constructors hold.
ghost use Rattle.std.specs.Prelude.{◌≡◌, IfOk, OnOk};
ghost use Rattle.shape_rules.specs.Calls.{takes_unit as takes_unit_of};
ghost use Rattle.shape_rules.specs.Calls.{takes_unit_form};
ghost use Rattle.shape_joins.specs.Learning.{learn};
ghost use Rattle.shape_rules.specs.Patterns.{known_or_nevers, nevers as nevers_of};
ghost use Rattle.sail_types.specs.declared.shapes.Shape.{out-Shape};
ghost use Rattle.shape_patterns.specs.Pieces.{is_bare as is_bare_of, count_of, any_answer as any_answer_of, payload_shapes as payload_shapes_of};

use crate::shapes::nevers;
use sail_base::Items;
use sail_syntax::Pat;
use sail_types::Shape;
use shape_joins::{learn_shape, put_shape, put_shapes};
use shape_rules::Candidate;
use std::alloc::{AllocError, Global};

/// Whether `f()` and `C()` have the one argument `()`: there is one parameter, and it takes it.
pub fn takes_unit(params: &[Shape]) -> bool
    ensures { result ≡ takes_unit_of params.now }
{
    match params {
        [param] => can_be_unit(param),
        _ => false,
    }
}

/// Whether `()` has a shape.
fn can_be_unit(shape: &Shape) -> bool
    ensures { result ≡ takes_unit_form (out-Shape shape.now) }
{
    match shape {
        Shape::Unit => true,
        Shape::Variable(_) => true,
        _ => false,
    }
}

/// Whether `C()` holds `()`.
pub(crate) fn is_bare(params: &[Shape], parts: &[Pat]) -> bool
    ensures { result ≡ is_bare_of params.now parts.now }
{
    match parts {
        [] => takes_unit(params),
        _ => false,
    }
}

/// The count of the parts, where `C()` may hold `()`.
pub(crate) fn part_count(is_unit: bool, parts: &[Pat]) -> usize
    ensures { result ≡ count_of is_unit parts.now }
{
    if is_unit { 1 } else { parts.len() }
}

/// A union at arguments of which nothing is known. It fails where memory is wanting.
pub(crate) fn any_answer(alloc: Global, callee: &Candidate) -> Result<Shape, AllocError>
    ensures { IfOk result (λ made. made ≡ any_answer_of callee.now) }
{
    let known = nevers(alloc, callee.variables)?;
    put_shape(alloc, &callee.answer, known.as_slice())
}

/// What is known of a union's arguments where that shape is matched; nothing where that is no such union. It fails where memory is
/// wanting.
fn known_arguments(
    alloc: Global,
    callee: &Candidate,
    subject: &Shape,
) -> Result<Items<Shape>, AllocError>
    ensures { IfOk result (λ made. made ≡ known_or_nevers callee.now.variables (learn callee.now.answer subject.now (nevers_of callee.now.variables))) }
{
    let mut known = nevers(alloc, callee.variables)?;
    if learn_shape(alloc, &callee.answer, subject, &mut known)? {
        Ok(known)
    } else {
        nevers(alloc, callee.variables)
    }
}

/// The shapes of a constructor's parts where that shape is matched. It fails where memory is wanting.
pub(crate) fn payload_shapes(
    alloc: Global,
    callee: &Candidate,
    subject: &Shape,
) -> Result<Items<Shape>, AllocError>
    ensures { IfOk result (λ made. made ≡ payload_shapes_of callee.now subject.now) }
{
    let known = known_arguments(alloc, callee, subject)?;
    put_shapes(alloc, callee.params.as_slice(), known.as_slice())
}
