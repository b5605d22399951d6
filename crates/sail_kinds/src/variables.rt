ghost use Rattle.std.specs.Prelude.{◌≡◌, ℕ, IfOk, Some, option_map};
ghost use Rattle.sail_kinds.specs.Scopes.{are_counted_together, seen_past, seen_behind, seen_behind_all, binder, variable_of, variables_of};

use crate::scope::{Binders, FoundVariable, Variable};
use sail_base::Kind;
use sail_syntax::Name;
use std::alloc::AllocError;

/// Whether variables of two kinds are counted together.
fn are_counted_together(a: Kind, b: Kind) -> bool
    ensures { result ≡ are_counted_together a b }
{
    match (a, b) {
        (Kind::Type, Kind::Type) => true,
        (Kind::Type, _) => false,
        (_, Kind::Type) => false,
        _ => true,
    }
}

/// What a variable is, seen from inside one more. It fails where the number would not fit.
fn see_past(kind: Kind, found: Option<FoundVariable>) -> Result<Option<FoundVariable>, AllocError>
    ensures { IfOk result (λ seen. seen ≡ option_map (seen_past kind) found) }
{
    let Some(found) = found else {
        return Ok(None);
    };
    if !are_counted_together(kind, found.kind) {
        return Ok(Some(found));
    }
    let Some(number) = found.number.checked_add(1) else {
        return Err(AllocError);
    };
    Ok(Some(FoundVariable {
        kind: found.kind,
        number,
    }))
}

/// What a name is behind one more variable. It fails where the number would not fit.
fn see_behind(
    name: &str,
    variable: &str,
    kind: Kind,
    outer: Option<FoundVariable>,
) -> Result<Option<FoundVariable>, AllocError>
    ensures { IfOk result (λ seen. seen ≡ seen_behind name.now (record { name = variable.now; kind = kind }) outer) }
{
    if variable == name {
        Ok(Some(FoundVariable { kind, number: 0 }))
    } else {
        see_past(kind, outer)
    }
}

/// The first of these variables with a name, which is the innermost. It fails where its number would not fit.
pub fn find_parameter(
    parameters: &[Variable],
    name: &str,
) -> Result<Option<FoundVariable>, AllocError>
    ensures { IfOk result (λ found. found ≡ variable_of name.now parameters.now) }
{
    let mut found = None;
    let mut left = parameters.len();
    while left > 0 {
        left -= 1;
        let parameter = &parameters[left];
        found = see_behind(name, parameter.name.as_str(), parameter.kind, found)?;
    }
    Ok(found)
}

/// The last of these names, which is the innermost, or else what the name is outside of them.
#[tactic(auto, using(crate::proofs::BinderNames::seen_more))]
fn find_name(
    names: &[Name],
    name: &str,
    outer: Option<FoundVariable>,
) -> Result<Option<FoundVariable>, AllocError>
    ensures { IfOk result (λ found. found ≡ seen_behind_all name.now (binder names.now) outer) }
{
    let mut found = outer;
    for binder in names {
        found = see_behind(name, binder.text.as_str(), Kind::Int, found)?;
    }
    Ok(found)
}

/// The innermost type variable of a name. It fails where its number would not fit.
pub(crate) fn find_variable(
    variables: &Binders<'_>,
    name: &str,
) -> Result<Option<FoundVariable>, AllocError>
    ensures { IfOk result (λ found. found ≡ variable_of name.now (variables_of variables.now)) }
{
    match variables {
        Binders::Parameters(parameters) => find_parameter(parameters, name),
        Binders::Exists(names, outer) => {
            let found = find_variable(outer, name)?;
            find_name(names, name, found)
        }
    }
}
