//! What callees take, and what a call of one gives.
ghost use Rattle.std.specs.Prelude.{◌≡◌, [], IfOk, OnOk, map, None};
ghost use Rattle.sail_types.specs.Shapes.{put, at};
ghost use Rattle.shape_joins.specs.Joins.{any_of};
ghost use Rattle.shape_joins.specs.Learning.{learn};
ghost use Rattle.shape_rules.specs.Findings as found;
ghost use Rattle.shape_rules.specs.Calls as spec;
ghost use Rattle.shape_rules.specs.Targets as target;
ghost use Rattle.shape_rules.specs.Values as value;
ghost use Rattle.shape_calls.specs.Made.{made_of, taught_by};

use crate::made::{Made, mismatched, over, settled};
use sail_base::{Items, Operator, Place, Prefix, Text};
use sail_core::{Callee, Caller, Core, Kind};
use sail_types::{Member, Shape, Typ, copy_shape, copy_shapes, row_name, shapes_of};
use shape_joins::{learn_shape, put_shape};
use shape_rules::{Candidate, Doing, First};
use std::alloc::{AllocError, Global};

/// The types of what takes a value of this type: those in a tuple, or the one.
pub fn parameters_of(typ: &Typ) -> &[Typ]
    ensures { result.now ≡ spec.parameters_of typ.now }
{
    match typ {
        Typ::Tuple(types) => types.as_slice(),
        _ => std::slice::from_ref(typ),
    }
}

/// The shapes of these types. The one error is want of memory.
pub fn param_shapes(alloc: Global, typ: &Typ) -> Result<Items<Shape>, AllocError>
    ensures { IfOk result (λ shapes. shapes ≡ spec.param_shapes typ.now) }
{
    shapes_of(alloc, parameters_of(typ))
}

/// Whether a shape is that of `()`.
pub fn is_unit(shape: &Shape) -> bool
    ensures { result ≡ spec.is_unit shape.now }
{
    match shape {
        Shape::Unit => true,
        _ => false,
    }
}

/// A member of a builtin as a callee. The one error is want of memory.
pub fn member_candidate(alloc: Global, member: &Member) -> Result<Candidate, AllocError>
    ensures { IfOk result (λ made. made ≡ spec.member_candidate member.now) }
{
    let name = Text::new(alloc, row_name(member.row))?;
    let params = copy_shapes(alloc, member.params.as_slice())?;
    let answer = copy_shape(alloc, &member.answer)?;
    Ok(Candidate {
        name,
        doing: Doing::Calls(Callee::Row(member.row)),
        variables: 1,
        params,
        answer,
    })
}

/// An operator's text.
pub fn operator_text(operator: Operator) -> &'static str
    ensures { result.now ≡ spec.operator_text operator }
{
    match operator {
        Operator::Caret => "^",
        Operator::Star => "*",
        Operator::ShiftLeft => "<<",
        Operator::ShiftRight => ">>",
        Operator::Plus => "+",
        Operator::Minus => "-",
        Operator::Append => "@",
        Operator::Cons => "::",
        Operator::Equal => "==",
        Operator::NotEqual => "!=",
        Operator::Less => "<",
        Operator::LessEqual => "<=",
        Operator::Greater => ">",
        Operator::GreaterEqual => ">=",
        Operator::LessUnsigned => "<_u",
        Operator::LessEqualUnsigned => "<=_u",
        Operator::GreaterUnsigned => ">_u",
        Operator::GreaterEqualUnsigned => ">=_u",
        Operator::LessSigned => "<_s",
        Operator::LessEqualSigned => "<=_s",
        Operator::GreaterSigned => ">_s",
        Operator::GreaterEqualSigned => ">=_s",
        Operator::And => "&",
        Operator::Or => "|",
    }
}

/// The text of an operator before its operand.
pub fn prefix_text(prefix: Prefix) -> &'static str
    ensures { result.now ≡ spec.prefix_text prefix }
{
    match prefix {
        Prefix::Negate => "-",
        Prefix::Power => "^",
        Prefix::Tilde => "~",
        Prefix::Not => "not",
    }
}

/// What is known of the first variable; a hole where there is none. The one error is want of memory.
fn first_known(alloc: Global, known: &[Shape]) -> Result<Shape, AllocError>
    ensures { IfOk result (λ shape. shape ≡ at known.now 0) }
{
    match known.get(0) {
        Some(shape) => copy_shape(alloc, shape),
        None => Ok(Shape::Hole),
    }
}

/// What a call's node is. The one error is want of memory.
pub fn doing_kind(alloc: Global, doing: Doing, known: &[Shape]) -> Result<Kind, AllocError>
    ensures { IfOk result (λ kind. kind ≡ spec.doing_kind doing known.now) }
{
    match doing {
        Doing::Calls(callee) => Ok(Kind::Call(callee)),
        Doing::Conses => Ok(Kind::Cons(first_known(alloc, known)?)),
    }
}

/// A call that does this and gives this, with what the callee's variables were solved to. The one error is want of memory.
pub fn call_solved(
    alloc: Global,
    place: Place,
    want: &Shape,
    doing: Doing,
    answer: Shape,
    known: &[Shape],
    cores: Items<Core>,
    first: &mut First,
) -> Result<Made, AllocError>
    ensures made { IfOk result (λ made. made
        ≡ made_of (found.settled place want.now answer (λ s. found.over place (spec.doing_kind doing known.now) cores))) }
    ensures failures { OnOk result (first.new.error
        ≡ found.first_failure first.old.error (found.settled place want.now answer (λ s. found.over place (spec.doing_kind doing known.now) cores)).faults) }
{
    let kind = doing_kind(alloc, doing, known)?;
    settled(alloc, place, want, answer, over(place, kind, cores), first)
}

/// A call of this callee, with what its variables were solved to. The one error is want of memory.
pub fn call_found(
    alloc: Global,
    place: Place,
    want: &Shape,
    callee: &Candidate,
    known: &[Shape],
    cores: Items<Core>,
    first: &mut First,
) -> Result<Made, AllocError>
    ensures made { IfOk result (λ made. made ≡ made_of (spec.call_found place want.now callee.now known.now cores)) }
    ensures failures { OnOk result (first.new.error
        ≡ found.first_failure first.old.error (spec.call_found place want.now callee.now known.now cores).faults) }
{
    let answer = put_shape(alloc, &callee.answer, known)?;
    call_solved(
        alloc,
        place,
        want,
        callee.doing,
        answer,
        known,
        cores,
        first,
    )
}

/// What is known once an argument is there, in which a failure was noted or not: what was known, where it teaches two shapes of one
/// variable. Notes that, where no failure was noted in it. The one error is want of memory.
pub fn known_behind(
    alloc: Global,
    param: &Shape,
    made: &Made,
    known: Items<Shape>,
    is_noted: bool,
    first: &mut First,
) -> Result<Items<Shape>, AllocError>
    ensures known { IfOk result (λ now. now ≡ spec.known_or known (learn param.now made.now.shape known)) }
    ensures failures { OnOk result (first.new.error ≡ found.first_failure first.old.error
        (taught_by (put (at known) param.now) made.now is_noted (learn param.now made.now.shape known))) }
{
    let mut learnt = copy_shapes(alloc, known.as_slice())?;
    if learn_shape(alloc, param, &made.shape, &mut learnt)? {
        Ok(learnt)
    } else {
        note_untaught(alloc, param, made, known.as_slice(), is_noted, first)?;
        Ok(known)
    }
}

/// Notes an argument that teaches two shapes of one variable, at the argument, where no failure was noted in it.
fn note_untaught(
    alloc: Global,
    param: &Shape,
    made: &Made,
    known: &[Shape],
    is_noted: bool,
    first: &mut First,
) -> Result<(), AllocError>
    ensures { OnOk result (first.new.error
        ≡ found.first_failure first.old.error (taught_by (put (at known.now) param.now) made.now is_noted None)) }
{
    if is_noted {
        return Ok(());
    }
    let wanted = put_shape(alloc, param, known)?;
    let shape = copy_shape(alloc, &made.shape)?;
    first.note(mismatched(alloc, made.core.place, &wanted, shape)?);
    Ok(())
}

/// What is called, where something is.
pub fn doing_callee(doing: Doing) -> Option<Callee>
    ensures { result ≡ target.doing_callee doing }
{
    match doing {
        Doing::Calls(callee) => Some(callee),
        Doing::Conses => None,
    }
}

/// A call that a target makes, without a number yet.
pub fn caller_of(callee: Callee) -> Caller
    ensures { result ≡ target.caller_of callee }
{
    Caller { callee, number: 0 }
}

/// The last parameter with what is known of its variables, which a new value comes to; `Never` where there is none. The one error is
/// want of memory.
pub fn last_param(alloc: Global, params: &[Shape], known: &[Shape]) -> Result<Shape, AllocError>
    ensures { IfOk result (λ shape. shape ≡ put (at known.now) (target.last_param params.now)) }
{
    match params.last() {
        Some(param) => put_shape(alloc, param, known),
        None => Ok(Shape::Never),
    }
}

/// Whether a call takes one value, as a direction of a mapping does.
pub fn does_convert(doing: Doing) -> bool
    ensures { result ≡ value.does_convert doing }
{
    match doing {
        Doing::Calls(Callee::Converts(_)) => true,
        _ => false,
    }
}

/// Whether a part of a shape isn't known.
#[cycle(has_never)]
pub fn has_never(shape: &Shape) -> bool
    ensures { result ≡ spec.has_never shape.now }
{
    match shape {
        Shape::Never => true,
        Shape::List(item) => has_never(item.get()),
        Shape::Vector(item) => has_never(item.get()),
        Shape::Tuple(parts) => have_never(parts.as_slice()),
        Shape::Named(_, arguments) => have_never(arguments.as_slice()),
        _ => false,
    }
}

#[cycle(has_never)]
fn have_never(parts: &[Shape]) -> bool
    ensures { result ≡ any_of (map spec.has_never parts.now) }
{
    for part in parts {
        if has_never(part) {
            return true;
        }
    }
    false
}
