//! Type variables of a `val`.
ghost use Rattle.std.specs.Prelude.{◌≡◌, map, None, OnOk};
ghost use Rattle.std.specs.List.{list_any};
ghost use Rattle.sail_kinds.specs.Scopes.{within, type_named, own_of, variable_of};
ghost use Rattle.sail_signatures.specs.Signatures.{binding};
ghost use Rattle.shape_joins.specs.Joins.{any_of};
ghost use Rattle.shape_rules.specs.Findings.{first_failure};
ghost use Rattle.shape_rules.specs.Written.{tells_number as tells_number_of, untold};
ghost use Rattle.shape_models.specs.Models.{params_variables};
ghost use Rattle.shape_declarations.specs.Vals.{stands_in as stands_in_of, is_met as is_met_in, variable_faults, variables_faults, parameters_if};
ghost use Rattle.shape_declarations.specs.Vals.{first_bound, quantifier_faults, val_faults};

use sail_base::Kind;
use sail_kinds::{Binders, FoundVariable, Scope, TypeNames, Variable, find_parameter};
use sail_syntax::{Arrow, Name, Param, Quantifier, TyExp};
use sail_types::Typ;
use shape_calls::parameters_of;
use shape_rules::{First, ShapeError};
use std::alloc::{AllocError, Global};
use type_definitions::variables_of;
use written_types::{note_written, tells_number, typ_in};

/// Whether a Type variable stands in a type.
#[cycle(stands_in)]
fn stands_in(variable: u32, typ: &Typ) -> bool
    ensures { result ≡ stands_in_of variable typ.now }
{
    match typ {
        Typ::Variable(position) => variable == *position,
        Typ::List(item) => stands_in(variable, item.get()),
        Typ::Vector(_, item) => stands_in(variable, item.get()),
        Typ::Tuple(parts) => stands_in_part(variable, parts.as_slice()),
        Typ::Named(_, _, arguments) => stands_in_part(variable, arguments.as_slice()),
        Typ::Exists(_, _, inner) => stands_in(variable, inner.get()),
        _ => false,
    }
}

#[cycle(stands_in)]
fn stands_in_part(variable: u32, types: &[Typ]) -> bool
    ensures { result ≡ any_of (map (stands_in_of variable) types.now) }
{
    for typ in types {
        if stands_in(variable, typ) {
            return true;
        }
    }
    false
}

fn any_holds(variable: u32, types: &[Typ]) -> bool
    ensures { result ≡ list_any (stands_in_of variable) types.now }
{
    for typ in types {
        if stands_in(variable, typ) {
            return true;
        }
    }
    false
}

fn any_tells(variable: u32, types: &[Typ]) -> bool
    ensures { result ≡ list_any (tells_number_of variable) types.now }
{
    for typ in types {
        if tells_number(variable, typ) {
            return true;
        }
    }
    false
}

/// Whether parameters of these types say what a variable of this kind and number stands for.
fn is_met(kind: Kind, variable: u32, types: &[Typ]) -> bool
    ensures { result ≡ is_met_in kind variable types.now }
{
    match kind {
        Kind::Type => any_holds(variable, types),
        _ => any_tells(variable, types),
    }
}

/// Notes a variable that isn't met, where it is bound (M17).
fn note_unmet(is_met: bool, name: &Name, first: &mut First) -> Result<(), AllocError>
    ensures { OnOk result (first.new.error ≡ first_failure first.old.error (untold name.now is_met)) }
{
    if is_met {
        return Ok(());
    }
    first.note(ShapeError::NoNumber {
        place: name.place,
        name: name.text.clone()?,
    });
    Ok(())
}

/// Notes a variable that isn't met, where it is one.
fn note_variable(
    types: &[Typ],
    name: &Name,
    found: Option<FoundVariable>,
    first: &mut First,
) -> Result<(), AllocError>
    ensures { OnOk result (first.new.error ≡ first_failure first.old.error (variable_faults types.now name.now found)) }
{
    match found {
        None => Ok(()),
        Some(found) => note_unmet(is_met(found.kind, found.number, types), name, first),
    }
}

/// Notes each variable that isn't met.
#[tactic(auto, using(shape_rules::proofs::Firsts::first_failure_append))]
fn note_variables(
    parameters: &[Param],
    variables: &[Variable],
    types: &[Typ],
    first: &mut First,
) -> Result<(), AllocError>
    ensures { OnOk result (first.new.error ≡ first_failure first.old.error (variables_faults types.now variables.now parameters.now)) }
{
    for parameter in parameters {
        let found = find_parameter(variables, parameter.name.text.as_str())?;
        note_variable(types, &parameter.name, found, first)?;
    }
    Ok(())
}

/// Notes the first variable of a mapping, which binds none.
fn note_bound(parameters: &[Param], first: &mut First) -> Result<(), AllocError>
    ensures { OnOk result (first.new.error ≡ first_failure first.old.error (first_bound parameters.now)) }
{
    match parameters {
        [] => Ok(()),
        [parameter, ..] => note_unmet(false, &parameter.name, first),
    }
}

/// The types of parameters, where there is a type.
fn parameters_in(typ: &Option<Typ>) -> &[Typ]
    ensures { result.now ≡ parameters_if typ.now }
{
    match typ {
        None => &[],
        Some(typ) => parameters_of(typ),
    }
}

/// Notes the variables of a signature that aren't met.
fn note_quantifier(
    arrow: Arrow,
    parameters: &[Param],
    variables: &[Variable],
    from: &Option<Typ>,
    first: &mut First,
) -> Result<(), AllocError>
    ensures { OnOk result (first.new.error
        ≡ first_failure first.old.error (quantifier_faults arrow parameters.now variables.now from.now)) }
{
    match arrow {
        Arrow::Mapping => note_bound(parameters, first),
        Arrow::Function => note_variables(parameters, variables, parameters_in(from), first),
    }
}

/// Notes the failures of a `val` of these types, whose variables are these.
#[tactic(auto, using(shape_rules::proofs::Firsts::first_failure_append))]
fn note_parts(
    alloc: Global,
    arrow: Arrow,
    quantifier: &Quantifier,
    variables: &[Variable],
    from: &TyExp,
    to: &TyExp,
    scope: &Scope<'_>,
    first: &mut First,
) -> Result<(), AllocError>
    requires { (within scope.now).variables ≡ variables.now }
    ensures { OnOk result (first.new.error ≡ first_failure first.old.error
        (val_faults arrow quantifier.now.variables from.now to.now (within scope.now))) }
{
    let typ = typ_in(alloc, from, scope)?;
    note_quantifier(
        arrow,
        quantifier.variables.as_slice(),
        variables,
        &typ,
        first,
    )?;
    note_written(alloc, from, scope, first)?;
    note_written(alloc, to, scope, first)
}

/// Likewise where these types can be named.
fn note_parts_under(
    alloc: Global,
    names: &TypeNames<'_>,
    arrow: Arrow,
    quantifier: &Quantifier,
    variables: &[Variable],
    from: &TyExp,
    to: &TyExp,
    first: &mut First,
) -> Result<(), AllocError>
    requires { own_of names.now ≡ None }
    ensures { OnOk result (first.new.error ≡ first_failure first.old.error
        (val_faults arrow quantifier.now.variables from.now to.now (binding (type_named names.now) variables.now))) }
{
    let binders = Binders::Parameters(variables);
    let scope = Scope::new(names, &binders);
    note_parts(alloc, arrow, quantifier, variables, from, to, &scope, first)
}

/// Notes the failures of a `val` (M17), where these types can be named. The one error is want of memory.
pub(crate) fn note_val(
    alloc: Global,
    names: &TypeNames<'_>,
    arrow: Arrow,
    quantifier: &Quantifier,
    from: &TyExp,
    to: &TyExp,
    first: &mut First,
) -> Result<(), AllocError>
    requires { own_of names.now ≡ None }
    ensures { OnOk result (first.new.error ≡ first_failure first.old.error
        (val_faults arrow quantifier.now.variables from.now to.now
        (binding (type_named names.now) (params_variables quantifier.now.variables)))) }
{
    let variables = variables_of(alloc, quantifier.variables.as_slice())?;
    note_parts_under(
        alloc,
        names,
        arrow,
        quantifier,
        variables.as_slice(),
        from,
        to,
        first,
    )
}
