//! The types of registers.
ghost use Rattle.std.specs.Prelude.{◌≡◌, [], ◌∷◌, if◌then◌else◌, OnOk};
ghost use Rattle.sail_kinds.specs.Scopes.{within};
ghost use Rattle.shape_rules.specs.Findings.{first_failure, ill_shaped};
ghost use Rattle.shape_rules.specs.Written.{typ_in};
ghost use Rattle.shape_declarations.specs.Failures.{zero_faults, register_faults};

use crate::zeros::has_zero;
use sail_base::Place;
use sail_kinds::Scope;
use sail_syntax::TyExp;
use sail_types::{Typ, Types};
use shape_rules::{First, ShapeError};
use std::alloc::{AllocError, Global};
use written_types::note_written;

/// Notes that a type has no zero, where it is written (M14).
fn note_without_zero(place: Place, has_zero: bool, first: &mut First)
    ensures { first.new.error ≡ first_failure first.old.error (if has_zero then [] else ill_shaped place ∷ []) }
{
    if !has_zero {
        first.note(ShapeError::IllShaped {
            place,
            mismatch: None,
        });
    }
}

/// Notes that what is written has no zero, where it stands for a type.
fn note_zero(
    alloc: Global,
    types: &Types,
    text: &TyExp,
    typ: &Option<Typ>,
    first: &mut First,
) -> Result<(), AllocError>
    ensures { OnOk result (first.new.error ≡ first_failure first.old.error (zero_faults types.now text.now typ.now)) }
{
    match typ {
        None => Ok(()),
        Some(typ) => {
            let has_zero = has_zero(alloc, types, typ)?;
            note_without_zero(text.place(), has_zero, first);
            Ok(())
        }
    }
}

/// Notes the failures of the type of a register, which stands for this type: variables that get no number, and that it has no zero.
/// The one error is want of memory.
#[tactic(auto, using(shape_rules::proofs::Firsts::first_failure_append))]
pub fn note_register(
    alloc: Global,
    types: &Types,
    scope: &Scope<'_>,
    text: &TyExp,
    typ: &Option<Typ>,
    first: &mut First,
) -> Result<(), AllocError>
    requires { typ.now ≡ typ_in (within scope.now) text.now }
    ensures { OnOk result (first.new.error ≡ first_failure first.old.error (register_faults types.now (within scope.now) text.now)) }
{
    note_written(alloc, text, scope, first)?;
    note_zero(alloc, types, text, typ, first)
}
