//! `return`, `throw` and `exit`, types that are written at an expression, and `assert`.
ghost use Rattle.std.specs.Prelude.{◌≡◌, ◌<◌, ◌∷◌, ◌++◌, [], IfOk, OnOk};
ghost use Rattle.sail_core.specs.declared.tree.Kind.TheVariants as K;
ghost use Rattle.shape_rules.specs.Around.{setting_of};
ghost use Rattle.shape_rules.specs.Findings.{first_failure};
ghost use Rattle.shape_rules.specs.Values as values;
ghost use Rattle.shape_rules.specs.Statements as statements;
ghost use Rattle.shape_rules.specs.Expressions.{part};
ghost use Rattle.shape_rules.specs.Written.{written as written_of, written_faults};
ghost use Rattle.shape_calls.specs.Made.{made_of};
ghost use Rattle.shape_forms.specs.Over.{over_found};
ghost use Rattle.sail_syntax.specs.declared.expressions.Exp.{size-Exp as the_size};
ghost use Rattle.shape_values.specs.Walkers.{Elaborates};

use crate::walkers::Walker;
use crate::walks::{push_cast, push_part};
use sail_base::{Items, Place, Text};
use sail_core::Kind;
use sail_syntax::{Exp, Leaving, TyExp};
use sail_types::Shape;
use shape_calls::{Made, refused};
use shape_forms::{copy_text, settle_over};
use shape_rules::{Around, First, Locals, ShapeError};
use std::alloc::{AllocError, Global};
use written_types::{note_written, shape_in, written};

/// `return e`, `throw e` or `exit e`. A `return` without a function around it is refused, and its e isn't looked at. The one error is
/// want of memory.
#[tactic(auto, using(shape_rules::proofs::Firsts::first_failure_append))]
pub fn leave<
    F: Fn(Global, &Exp, &Around<'_>, &mut Locals, &Shape, &mut First) -> Result<Made, AllocError>,
>(
    walker: &Walker<'_, F>,
    place: Place,
    leaving: Leaving,
    value: &Exp,
    around: &Around<'_>,
    locals: &mut Locals,
    want: &Shape,
    first: &mut First,
) -> Result<Made, AllocError>
    requires parts { Elaborates (the_size walker.now.whole.now) (F.pre walker.now.part) (F.post walker.now.part) }
    requires value { the_size value.now < the_size walker.now.whole.now }
    ensures made { IfOk result (λ made. made
        ≡ made_of (values.leave_found place leaving (part value.now) (setting_of around.now) locals.old want.now)) }
    ensures failures { OnOk result (first.new.error ≡ first_failure first.old.error
        (values.leave_found place leaving (part value.now) (setting_of around.now) locals.old want.now).faults) }
    ensures locals { OnOk result (locals.new ≡ locals.old) }
{
    let alloc = walker.alloc;
    match leaving {
        Leaving::Return => give_back(walker, place, value, around, locals, want, first),
        Leaving::Throw => {
            let thrown = around.thrown(alloc);
            left(
                walker,
                place,
                Kind::Throw,
                value,
                &thrown,
                around,
                locals,
                want,
                first,
            )
        }
        Leaving::Exit => {
            left(
                walker,
                place,
                Kind::Exit,
                value,
                &Shape::Unit,
                around,
                locals,
                want,
                first,
            )
        }
    }
}

/// `return e`.
#[tactic(auto, using(shape_rules::proofs::Firsts::first_failure_append))]
fn give_back<
    F: Fn(Global, &Exp, &Around<'_>, &mut Locals, &Shape, &mut First) -> Result<Made, AllocError>,
>(
    walker: &Walker<'_, F>,
    place: Place,
    value: &Exp,
    around: &Around<'_>,
    locals: &mut Locals,
    want: &Shape,
    first: &mut First,
) -> Result<Made, AllocError>
    requires parts { Elaborates (the_size walker.now.whole.now) (F.pre walker.now.part) (F.post walker.now.part) }
    requires value { the_size value.now < the_size walker.now.whole.now }
    ensures made { IfOk result (λ made. made
        ≡ made_of (values.return_found place (part value.now) (setting_of around.now).answer (setting_of around.now) locals.old want.now)) }
    ensures failures { OnOk result (first.new.error ≡ first_failure first.old.error
        (values.return_found place (part value.now) (setting_of around.now).answer (setting_of around.now) locals.old want.now).faults) }
    ensures locals { OnOk result (locals.new ≡ locals.old) }
{
    let alloc = walker.alloc;
    match around.answer {
        Some(answer) => {
            left(
                walker,
                place,
                Kind::Return,
                value,
                answer,
                around,
                locals,
                want,
                first,
            )
        }
        None => {
            let mismatch = None;
            let error = ShapeError::IllShaped { place, mismatch };
            Ok(refused(alloc, error, first))
        }
    }
}

/// What ends the function, whose value is wanted as this shape.
#[tactic(auto, using(shape_rules::proofs::Firsts::first_failure_append), unfolding(shape_forms::specs::Over::over_found))]
fn left<
    F: Fn(Global, &Exp, &Around<'_>, &mut Locals, &Shape, &mut First) -> Result<Made, AllocError>,
>(
    walker: &Walker<'_, F>,
    place: Place,
    kind: Kind,
    value: &Exp,
    wanted: &Shape,
    around: &Around<'_>,
    locals: &mut Locals,
    want: &Shape,
    first: &mut First,
) -> Result<Made, AllocError>
    requires parts { Elaborates (the_size walker.now.whole.now) (F.pre walker.now.part) (F.post walker.now.part) }
    requires value { the_size value.now < the_size walker.now.whole.now }
    ensures made { IfOk result (λ made. made ≡ made_of (values.left_found place kind want.now (part value.now).place
        ((part value.now).elaborate (setting_of around.now) locals.old wanted.now))) }
    ensures failures { OnOk result (first.new.error ≡ first_failure first.old.error (values.left_found place kind want.now
        (part value.now).place ((part value.now).elaborate (setting_of around.now) locals.old wanted.now)).faults) }
    ensures locals { OnOk result (locals.new ≡ locals.old) }
{
    let alloc = walker.alloc;
    let mut parts = Items::new(alloc);
    push_cast(walker, value, around, locals, wanted, &mut parts, first)?;
    settle_over(alloc, place, want, Shape::Never, kind, parts, first)
}

/// `e : T`. The one error is want of memory.
#[tactic(auto, using(shape_rules::proofs::Firsts::first_failure_append), unfolding(shape_forms::specs::Over::over_found))]
pub fn typed<
    F: Fn(Global, &Exp, &Around<'_>, &mut Locals, &Shape, &mut First) -> Result<Made, AllocError>,
>(
    walker: &Walker<'_, F>,
    place: Place,
    value: &Exp,
    typ: &TyExp,
    around: &Around<'_>,
    locals: &mut Locals,
    want: &Shape,
    first: &mut First,
) -> Result<Made, AllocError>
    requires parts { Elaborates (the_size walker.now.whole.now) (F.pre walker.now.part) (F.post walker.now.part) }
    requires value { the_size value.now < the_size walker.now.whole.now }
    ensures made { IfOk result (λ made. made
        ≡ made_of (values.typed_found place (part value.now) typ.now (setting_of around.now) locals.old want.now)) }
    ensures failures { OnOk result (first.new.error ≡ first_failure first.old.error
        (values.typed_found place (part value.now) typ.now (setting_of around.now) locals.old want.now).faults) }
    ensures locals { OnOk result (locals.new ≡ locals.old) }
{
    let alloc = walker.alloc;
    let shape = shape_in(alloc, typ, &around.scope)?;
    let made = walker.elaborate(value, around, locals, &shape, first)?;
    finish_typed(alloc, place, made, typ, shape, around, want, first)
}

/// `e : T` of what was made of e, of which the shape of T was wanted. Notes the failures of T, and where its shape isn't the wanted one.
/// The one error is want of memory.
#[tactic(auto, using(shape_rules::proofs::Firsts::first_failure_append))]
pub fn finish_typed(
    alloc: Global,
    place: Place,
    made: Made,
    typ: &TyExp,
    shape: Shape,
    around: &Around<'_>,
    want: &Shape,
    first: &mut First,
) -> Result<Made, AllocError>
    ensures made { IfOk result (λ done. done ≡ made_of (over_found place want.now shape
        (K.Cast (written_of (setting_of around.now).within typ.now)) (made.core ∷ []))) }
    ensures failures { OnOk result (first.new.error ≡ first_failure first.old.error (written_faults (setting_of around.now).within typ.now
        ++ (over_found place want.now shape (K.Cast (written_of (setting_of around.now).within typ.now)) (made.core ∷ [])).faults)) }
{
    let mut parts = Items::new(alloc);
    made.into_shape(&mut parts)?;
    note_written(alloc, typ, &around.scope, first)?;
    let kind = Kind::Cast(written(alloc, typ, &around.scope)?);
    settle_over(alloc, place, want, shape, kind, parts, first)
}

/// `assert(e)`, with its text. The one error is want of memory.
#[tactic(auto, using(shape_rules::proofs::Firsts::first_failure_append), unfolding(shape_forms::specs::Over::over_found))]
pub fn assert<
    F: Fn(Global, &Exp, &Around<'_>, &mut Locals, &Shape, &mut First) -> Result<Made, AllocError>,
>(
    walker: &Walker<'_, F>,
    place: Place,
    condition: &Exp,
    text: &Option<Text>,
    around: &Around<'_>,
    locals: &mut Locals,
    want: &Shape,
    first: &mut First,
) -> Result<Made, AllocError>
    requires parts { Elaborates (the_size walker.now.whole.now) (F.pre walker.now.part) (F.post walker.now.part) }
    requires condition { the_size condition.now < the_size walker.now.whole.now }
    ensures made { IfOk result (λ made. made
        ≡ made_of (statements.assert_found place (part condition.now) text.now (setting_of around.now) locals.old want.now)) }
    ensures failures { OnOk result (first.new.error ≡ first_failure first.old.error
        (statements.assert_found place (part condition.now) text.now (setting_of around.now) locals.old want.now).faults) }
    ensures locals { OnOk result (locals.new ≡ locals.old) }
{
    let alloc = walker.alloc;
    let mut parts = Items::new(alloc);
    push_part(
        walker,
        condition,
        around,
        locals,
        &Shape::Bool,
        &mut parts,
        first,
    )?;
    let kind = Kind::Assert(copy_text(text)?);
    settle_over(alloc, place, want, Shape::Unit, kind, parts, first)
}
