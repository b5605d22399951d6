//! The numbers of the type variables that `{'n, ..}` binds.
ghost use Rattle.std.specs.Prelude.{◌≡◌, suc, IfOk, option_map};
ghost use Rattle.sail_kinds.specs.Scopes.{binder, variable_of};
ghost use Rattle.shape_rules.specs.Written.{told_if};
ghost use Rattle.written_types.specs.Parts.{int_found};

use crate::told::tells_number;
use sail_syntax::Name;
use sail_types::Typ;
use std::alloc::AllocError;

/// Whether a type tells the number of one of these variables, of which a name names the innermost; where there is no type there is
/// nothing to tell. It fails where the number would not fit.
pub(crate) fn is_told(names: &[Name], typ: &Option<Typ>, name: &str) -> Result<bool, AllocError>
    ensures { IfOk result (λ told. told ≡ told_if typ.now (variable_of name.now (binder names.now))) }
{
    match (number_among(names, name)?, typ) {
        (Some(number), Some(typ)) => Ok(tells_number(number, typ)),
        _ => Ok(true),
    }
}

/// The number of the innermost of these variables that has a name: the count of those behind it. It fails where it would not fit.
fn number_among(names: &[Name], name: &str) -> Result<Option<u32>, AllocError>
    ensures { IfOk result (λ number. option_map int_found number ≡ variable_of name.now (binder names.now)) }
{
    let mut number = None;
    for bound in names {
        number = if bound.text.as_str() == name {
            Some(0)
        } else {
            one_more(number)?
        };
    }
    Ok(number)
}

/// A number, and one more. It fails where it would not fit.
fn one_more(number: Option<u32>) -> Result<Option<u32>, AllocError>
    ensures { IfOk result (λ more. more ≡ option_map suc number) }
{
    let Some(number) = number else {
        return Ok(None);
    };
    match number.checked_add(1) {
        Some(more) => Ok(Some(more)),
        None => Err(AllocError),
    }
}
