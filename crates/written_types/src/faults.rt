ghost use Rattle.std.specs.Prelude.{◌≡◌, map, OnOk};
ghost use Rattle.sail_kinds.specs.Scopes.{within};
ghost use Rattle.shape_rules.specs.Findings.{first_failure};
ghost use Rattle.shape_rules.specs.Written.{piece, pieces_faults, written_faults};
ghost use Rattle.written_types.specs.Parts.{untold_among};

use crate::bound::is_told;
use crate::reading::typ_in;
use sail_kinds::{Binders, Scope};
use sail_syntax::{Name, TyExp};
use sail_types::Typ;
use shape_rules::{First, ShapeError};
use std::alloc::{AllocError, Global};

/// Notes the type variables bound in a written type that get no number (M17), each where it is bound. The one error is want of memory.
#[cycle(note)]
pub fn note_written(
    alloc: Global,
    text: &TyExp,
    scope: &Scope<'_>,
    first: &mut First,
) -> Result<(), AllocError>
    ensures failures { OnOk result (first.new.error ≡ first_failure first.old.error (written_faults (within scope.now) text.now)) }
{
    match text {
        TyExp::Named(_, arguments) => note_each(alloc, arguments.as_slice(), scope, first),
        TyExp::Tuple(_, parts) => note_each(alloc, parts.as_slice(), scope, first),
        TyExp::Exists { variables, typ, .. } => {
            let binders = Binders::Exists(variables.as_slice(), scope.variables());
            let inside = scope.with_variables(&binders);
            let whole = typ_in(alloc, typ.get(), &inside)?;
            note_untold(variables.as_slice(), &whole, first)?;
            note_written(alloc, typ.get(), &inside, first)
        }
        _ => Ok(()),
    }
}

#[cycle(note)]
fn note_each(
    alloc: Global,
    parts: &[TyExp],
    scope: &Scope<'_>,
    first: &mut First,
) -> Result<(), AllocError>
    ensures failures { OnOk result (first.new.error ≡ first_failure first.old.error (pieces_faults (map piece parts.now) (within scope.now))) }
{
    for part in parts {
        note_written(alloc, part, scope, first)?;
    }
    Ok(())
}

/// Notes those of the variables of an existential type of which the type inside doesn't tell the number.
fn note_untold(names: &[Name], typ: &Option<Typ>, first: &mut First) -> Result<(), AllocError>
    ensures failures { OnOk result (first.new.error ≡ first_failure first.old.error (untold_among names.now typ.now names.now)) }
{
    for name in names {
        if !is_told(names, typ, name.text.as_str())? {
            first.note(ShapeError::NoNumber {
                place: name.place,
                name: name.text.clone()?,
            });
        }
    }
    Ok(())
}
