//! Names that are bound, and written types.
ghost use Rattle.std.specs.Prelude.{◌≡◌, ◌∷◌, [], IfOk, OnOk};
ghost use Rattle.sail_core.specs.declared.patterns.Arm.TheVariants as A;
ghost use Rattle.sail_types.specs.declared.shapes.Shape.TheVariants as V;
ghost use Rattle.shape_rules.specs.Around.{setting_of};
ghost use Rattle.shape_rules.specs.Findings.{first_failure};
ghost use Rattle.shape_rules.specs.Scopes.{under, variable, constant};
ghost use Rattle.shape_rules.specs.Patterns.{look as look_of, no_widths, written_shape as written_shape_of};
ghost use Rattle.shape_rules.specs.Statements as spec;

use crate::openness::note_open;
use sail_base::{Items, Place};
use sail_core::{Arm, Counting, Pattern, Written};
use sail_syntax::{Direction, Name, Pat, TyExp};
use sail_types::Shape;
use shape_calls::has_never;
use shape_rules::{Around, First, Local, Locals, ShapeError};
use shape_walks::look;
use std::alloc::{AllocError, Global};
use written_types::{note_written, shape_in, written};

/// Notes the variables in a type, where one is written, that get no number.
pub fn note_typ(
    alloc: Global,
    typ: &Option<TyExp>,
    around: &Around<'_>,
    first: &mut First,
) -> Result<(), AllocError>
    ensures { OnOk result (first.new.error ≡ first_failure first.old.error (spec.typ_faults (setting_of around.now) typ.now)) }
{
    match typ {
        Some(typ) => note_written(alloc, typ, &around.scope, first),
        None => Ok(()),
    }
}

/// A type as the core has it, where one is written.
pub fn written_if(
    alloc: Global,
    typ: &Option<TyExp>,
    around: &Around<'_>,
) -> Result<Option<Written>, AllocError>
    ensures { IfOk result (λ made. made ≡ spec.written_if (setting_of around.now) typ.now) }
{
    match typ {
        Some(typ) => written(alloc, typ, &around.scope),
        None => Ok(None),
    }
}

/// The shape of a type; `Never`, where none is written.
pub fn written_shape(
    alloc: Global,
    typ: &Option<TyExp>,
    around: &Around<'_>,
) -> Result<Shape, AllocError>
    ensures { IfOk result (λ shape. shape ≡ written_shape_of (setting_of around.now) typ.now) }
{
    match typ {
        Some(typ) => shape_in(alloc, typ, &around.scope),
        None => Ok(Shape::Never),
    }
}

/// Puts a `var` in scope: of the written type's shape, and else of its value's.
pub fn enter_variable(
    alloc: Global,
    name: &Name,
    typ: &Option<TyExp>,
    around: &Around<'_>,
    shape: Shape,
    locals: &mut Locals,
) -> Result<(), AllocError>
    ensures { OnOk result (locals.new
        ≡ variable name.now.text (spec.declared_shape (setting_of around.now) typ.now shape) ∷ locals.old) }
{
    let shape = match typ {
        Some(typ) => shape_in(alloc, typ, &around.scope)?,
        None => shape,
    };
    let name = name.text.clone()?;
    locals.enter(Local {
        name,
        shape,
        is_variable: true,
    })
}

/// Notes a shape that leaves something open, where no type is written.
pub fn note_hole(place: Place, is_typed: bool, shape: &Shape, first: &mut First)
    ensures { first.new.error ≡ first_failure first.old.error (spec.hole_faults place is_typed shape.now) }
{
    if !is_typed {
        note_open(place, shape, first);
    }
}

/// Notes what a writer gives in a chain, where a part of its shape isn't known and nothing has failed.
pub fn note_answer(place: Place, is_failed: bool, shape: &Shape, first: &mut First)
    ensures { first.new.error ≡ first_failure first.old.error (spec.answer_faults place is_failed shape.now) }
{
    if !is_failed {
        if has_never(shape) {
            let mismatch = None;
            first.note(ShapeError::IllShaped { place, mismatch });
        } else {
            note_open(place, shape, first);
        }
    }
}

/// A pattern that is matched with values of this shape, as an arm; the names that it binds come into scope.
pub fn enter_pattern(
    alloc: Global,
    pattern: &Pat,
    around: &Around<'_>,
    locals: &mut Locals,
    subject: &Shape,
    first: &mut First,
) -> Result<Arm, AllocError>
    ensures arm { IfOk result (λ arm. arm
        ≡ A.Nested ((look_of pattern.now (setting_of around.now) no_widths subject.now).pattern ∷ [])) }
    ensures locals { OnOk result (locals.new
        ≡ under (look_of pattern.now (setting_of around.now) no_widths subject.now).binds locals.old) }
    ensures failures { OnOk result (first.new.error ≡ first_failure first.old.error
        (look_of pattern.now (setting_of around.now) no_widths subject.now).faults) }
{
    let mut binds = Items::new(alloc);
    let pattern = look(alloc, pattern, around, &[], subject, &mut binds, first)?;
    enter_all(locals, binds)?;
    nested(alloc, pattern)
}

/// An arm of one pattern.
fn nested(alloc: Global, pattern: Pattern) -> Result<Arm, AllocError>
    ensures { IfOk result (λ arm. arm ≡ A.Nested (pattern ∷ [])) }
{
    let mut patterns = Items::new(alloc);
    patterns.push(pattern)?;
    Ok(Arm::Nested(patterns))
}

/// Puts names in scope, the first of them first.
fn enter_all(locals: &mut Locals, binds: Items<Local>) -> Result<(), AllocError>
    ensures { OnOk result (locals.new ≡ under binds locals.old) }
{
    for local in binds.into_vec() {
        locals.enter(local)?;
    }
    Ok(())
}

/// Puts the name that a `foreach` counts by in scope.
pub fn enter_counter(name: &Name, locals: &mut Locals) -> Result<(), AllocError>
    ensures { OnOk result (locals.new ≡ constant name.now.text V.Int ∷ locals.old) }
{
    let name = name.text.clone()?;
    locals.enter(Local {
        name,
        shape: Shape::Int,
        is_variable: false,
    })
}

/// Which way a `foreach` counts.
pub fn counting(direction: Direction) -> Counting
    ensures { result ≡ spec.counting direction }
{
    match direction {
        Direction::Up => Counting::Up,
        Direction::Down => Counting::Down,
    }
}
