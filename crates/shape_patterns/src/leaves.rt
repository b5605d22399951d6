//! Patterns without parts.
ghost use Rattle.std.specs.Prelude.{◌≡◌, ◌++◌, ◌∷◌, [], pos, ◌-ℤ◌, IfOk, OnOk};
ghost use Rattle.sail_core.specs.declared.patterns.Form.TheVariants as F;
ghost use Rattle.sail_core.specs.declared.patterns.Head.TheVariants as H;
ghost use Rattle.sail_core.specs.declared.patterns.Literal.TheVariants as L;
ghost use Rattle.sail_types.specs.declared.shapes.Shape.TheVariants as V;
ghost use Rattle.shape_rules.specs.Around.{setting_of};
ghost use Rattle.shape_rules.specs.Scopes.{constant};
ghost use Rattle.shape_rules.specs.Findings.{first_failure};
ghost use Rattle.shape_rules.specs.Patterns.{pattern, shape_faults, name_look, no_widths, first_param, typed_form as typed_form_of};
ghost use Rattle.shape_rules.specs.Patterns.{core_literal as core_literal_of, literal_shape as literal_shape_of};

use crate::nodes::{constant_of, is_value, leaf};
use crate::shapes::note_shape;
use sail_base::{Items, Place};
use sail_core::{Form, Literal as CoreLiteral, Pattern, Written};
use sail_syntax::{Literal, Name};
use sail_types::Shape;
use shape_rules::{Around, First, Local, Meant};
use shape_widths::{core_literal, literal_shape};
use std::alloc::{AllocError, Global};

/// This value of this shape alone. The one error is want of memory.
pub(crate) fn look_value(
    alloc: Global,
    place: Place,
    own: &Shape,
    literal: CoreLiteral,
    subject: &Shape,
    first: &mut First,
) -> Result<Pattern, AllocError>
    ensures pattern { IfOk result (λ made. made ≡ pattern place (F.Opens (H.Is literal)) []) }
    ensures failures { OnOk result (first.new.error ≡ first_failure first.old.error (shape_faults place subject.now own.now)) }
{
    note_shape(alloc, place, subject, own, first)?;
    Ok(is_value(alloc, place, literal))
}

/// `()`. The one error is want of memory.
pub(crate) fn look_unit(
    alloc: Global,
    place: Place,
    subject: &Shape,
    first: &mut First,
) -> Result<Pattern, AllocError>
    ensures pattern { IfOk result (λ made. made ≡ pattern place (F.Opens (H.Is L.Unit)) []) }
    ensures failures { OnOk result (first.new.error ≡ first_failure first.old.error (shape_faults place subject.now V.Unit)) }
{
    look_value(
        alloc,
        place,
        &Shape::Unit,
        CoreLiteral::Unit,
        subject,
        first,
    )
}

/// A literal. The one error is want of memory.
pub(crate) fn look_literal(
    alloc: Global,
    place: Place,
    literal: &Literal,
    subject: &Shape,
    first: &mut First,
) -> Result<Pattern, AllocError>
    ensures pattern { IfOk result (λ made. made ≡ pattern place (F.Opens (H.Is (core_literal_of literal.now))) []) }
    ensures failures { OnOk result (first.new.error ≡ first_failure first.old.error (shape_faults place subject.now (literal_shape_of literal.now))) }
{
    let value = core_literal(literal)?;
    let own = literal_shape(literal);
    look_value(alloc, place, &own, value, subject, first)
}

/// `-n`. The one error is want of memory, of which a number past those of 128 bits is taken to want too much.
pub(crate) fn look_negative(
    alloc: Global,
    place: Place,
    n: i128,
    subject: &Shape,
    first: &mut First,
) -> Result<Pattern, AllocError>
    ensures pattern { IfOk result (λ made. made ≡ pattern place (F.Opens (H.Is (L.Integer (pos 0 -ℤ n)))) []) }
    ensures failures { OnOk result (first.new.error ≡ first_failure first.old.error (shape_faults place subject.now V.Int)) }
{
    match 0_i128.checked_sub(n) {
        Some(negative) => look_value(
            alloc,
            place,
            &Shape::Int,
            CoreLiteral::Integer(negative),
            subject,
            first,
        ),
        None => Err(AllocError),
    }
}

/// A bare identifier, which binds, but where an enum has it. The one error is want of memory.
pub(crate) fn look_name(
    alloc: Global,
    name: &Name,
    around: &Around<'_>,
    subject: &Shape,
    binds: &mut Items<Local>,
    first: &mut First,
) -> Result<Pattern, AllocError>
    ensures pattern { IfOk result (λ made. made
        ≡ (name_look name.now ((setting_of around.now).value name.now.text) (setting_of around.now) no_widths subject.now).pattern) }
    ensures binds { OnOk result (binds.new
        ≡ binds.old ++ (name_look name.now ((setting_of around.now).value name.now.text) (setting_of around.now) no_widths subject.now).binds) }
    ensures failures { OnOk result (first.new.error
        ≡ first_failure first.old.error (name_look name.now ((setting_of around.now).value name.now.text)
        (setting_of around.now) no_widths subject.now).faults) }
{
    match around.value(name.text.as_str()) {
        Some(Meant::Member(place, member)) => {
            let own = Shape::Named(*place, Items::new(alloc));
            look_value(
                alloc,
                name.place,
                &own,
                CoreLiteral::Member(*place, *member),
                subject,
                first,
            )
        }
        _ => look_binding(alloc, name, subject, binds),
    }
}

/// An identifier that binds. The one error is want of memory.
fn look_binding(
    alloc: Global,
    name: &Name,
    subject: &Shape,
    binds: &mut Items<Local>,
) -> Result<Pattern, AllocError>
    ensures pattern { IfOk result (λ made. made ≡ pattern name.now.place (F.Binds name.now.text) []) }
    ensures binds { OnOk result (binds.new ≡ binds.old ++ constant name.now.text subject.now ∷ []) }
{
    binds.push(constant_of(alloc, name, subject)?)?;
    let text = name.text.clone()?;
    Ok(leaf(alloc, name.place, Form::Binds(text)))
}

/// Notes values that the first parameter of a direction doesn't take (M14). The one error is want of memory.
pub(crate) fn note_first(
    alloc: Global,
    place: Place,
    subject: &Shape,
    params: &[Shape],
    first: &mut First,
) -> Result<(), AllocError>
    ensures { OnOk result (first.new.error ≡ first_failure first.old.error (shape_faults place subject.now (first_param params.now))) }
{
    match params.first() {
        Some(param) => note_shape(alloc, place, subject, param, first),
        None => note_shape(alloc, place, subject, &Shape::Never, first),
    }
}

/// What a pattern with this type is; one of no type that is known looks at nothing.
pub(crate) fn typed_form(written: Option<Written>) -> Form
    ensures { result ≡ typed_form_of written }
{
    match written {
        Some(written) => Form::Typed(written),
        None => Form::Any,
    }
}

/// `()` alone. The one error is want of memory.
pub(crate) fn look_only_unit(
    alloc: Global,
    place: Place,
    subjects: &[Shape],
    first: &mut First,
) -> Result<Items<Pattern>, AllocError>
    ensures patterns { IfOk result (λ made. made ≡ pattern place (F.Opens (H.Is L.Unit)) [] ∷ []) }
    ensures failures { OnOk result (first.new.error ≡ first_failure first.old.error (shape_faults place (first_param subjects.now) V.Unit)) }
{
    let mut patterns = Items::new(alloc);
    let pattern = match subjects.first() {
        Some(subject) => look_unit(alloc, place, subject, first)?,
        None => look_unit(alloc, place, &Shape::Never, first)?,
    };
    patterns.push(pattern)?;
    Ok(patterns)
}
