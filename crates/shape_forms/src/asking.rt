//! `sizeof` and `constraint`.
ghost use Rattle.std.specs.Prelude.{◌≡◌, IfOk, OnOk};
ghost use Rattle.shape_rules.specs.Around.{setting_of};
ghost use Rattle.shape_rules.specs.Findings.{first_failure};
ghost use Rattle.shape_rules.specs.Written.{number_in, constraint_in};
ghost use Rattle.shape_rules.specs.Statements as statements;
ghost use Rattle.shape_calls.specs.Made.{made_of};

use sail_base::{Place, Text};
use sail_core::Kind;
use sail_syntax::TyExp;
use sail_types::Shape;
use shape_calls::{Made, leaf, settled, unknown};
use shape_rules::{Around, First};
use std::alloc::{AllocError, Global};
use written_types::{constraint_in, note_written, number_in, numbers_in};

/// The same text, where there is one. The one error is want of memory.
pub fn copy_text(text: &Option<Text>) -> Result<Option<Text>, AllocError>
    ensures { IfOk result (λ copy. copy ≡ text.now) }
{
    match text {
        Some(text) => Ok(Some(text.clone()?)),
        None => Ok(None),
    }
}

/// `sizeof(t)`. The one error is want of memory.
pub fn size(
    alloc: Global,
    place: Place,
    typ: &TyExp,
    around: &Around<'_>,
    want: &Shape,
    first: &mut First,
) -> Result<Made, AllocError>
    ensures made { IfOk result (λ made. made ≡ made_of (statements.size_found place typ.now (setting_of around.now) want.now
        (number_in (setting_of around.now).within typ.now))) }
    ensures failures { OnOk result (first.new.error ≡ first_failure first.old.error (statements.size_found place typ.now (setting_of around.now)
        want.now (number_in (setting_of around.now).within typ.now)).faults) }
{
    match number_in(alloc, typ, &around.scope)? {
        None => Ok(unknown(alloc, place)),
        Some(number) => {
            note_written(alloc, typ, &around.scope, first)?;
            let kind = Kind::SizeOf(number, numbers_in(alloc, typ, &around.scope)?);
            let core = leaf(alloc, place, kind);
            settled(alloc, place, want, Shape::Int, core, first)
        }
    }
}

/// `constraint(C)`. The one error is want of memory.
pub fn truth(
    alloc: Global,
    place: Place,
    typ: &TyExp,
    around: &Around<'_>,
    want: &Shape,
    first: &mut First,
) -> Result<Made, AllocError>
    ensures made { IfOk result (λ made. made ≡ made_of (statements.truth_found place typ.now (setting_of around.now) want.now
        (constraint_in (setting_of around.now).within typ.now))) }
    ensures failures { OnOk result (first.new.error ≡ first_failure first.old.error (statements.truth_found place typ.now (setting_of around.now)
        want.now (constraint_in (setting_of around.now).within typ.now)).faults) }
{
    match constraint_in(alloc, typ, &around.scope)? {
        None => Ok(unknown(alloc, place)),
        Some(constraint) => {
            note_written(alloc, typ, &around.scope, first)?;
            let kind = Kind::Constraint(constraint, numbers_in(alloc, typ, &around.scope)?);
            let core = leaf(alloc, place, kind);
            settled(alloc, place, want, Shape::Bool, core, first)
        }
    }
}
