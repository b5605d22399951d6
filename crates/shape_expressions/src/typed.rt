//! An expression at which a type is written.
ghost use Rattle.std.specs.Prelude.{◌≡◌, IfOk, OnOk};
ghost use Rattle.shape_rules.specs.Around.{setting_of};
ghost use Rattle.shape_rules.specs.Findings.{first_failure};
ghost use Rattle.shape_rules.specs.Values as values;
ghost use Rattle.shape_rules.specs.Expressions.{part};
ghost use Rattle.shape_calls.specs.Made.{made_of};

use crate::expressions::elaborate;
use sail_syntax::{Exp, TyExp};
use sail_types::Shape;
use shape_calls::Made;
use shape_rules::{Around, First, Locals};
use shape_statements::finish_typed;
use shape_walks::place_of;
use std::alloc::{AllocError, Global};
use written_types::shape_in;

/// The shape and the core of an expression at which a type is written: its value is wanted of the type's shape, and comes to the type.
/// It stands where the expression does.
///
/// Notes the failures of the expression and those of the type, and where the type's shape isn't the wanted one (`Never`, where none is
/// wanted); what is made is then of shape `Never`. The local names in scope are unchanged. The one error is want of memory.
#[tactic(auto, using(shape_rules::proofs::Firsts::first_failure_append), unfolding(shape_forms::specs::Over::over_found))]
pub fn elaborate_typed(
    alloc: Global,
    expression: &Exp,
    typ: &TyExp,
    around: &Around<'_>,
    locals: &mut Locals,
    want: &Shape,
    first: &mut First,
) -> Result<Made, AllocError>
    ensures made { IfOk result (λ made. made ≡ made_of
        (values.typed_found (part expression.now).place (part expression.now) typ.now (setting_of around.now) locals.old want.now)) }
    ensures failures { OnOk result (first.new.error ≡ first_failure first.old.error
        (values.typed_found (part expression.now).place (part expression.now) typ.now (setting_of around.now) locals.old want.now).faults) }
    ensures locals { OnOk result (locals.new ≡ locals.old) }
{
    let shape = shape_in(alloc, typ, &around.scope)?;
    let made = elaborate(alloc, expression, around, locals, &shape, first)?;
    let place = place_of(expression);
    finish_typed(alloc, place, made, typ, shape, around, want, first)
}
