//! What the core keeps of a function's signature.
ghost use Rattle.std.specs.Option.{option_copied};
ghost use Rattle.std.specs.Prelude.{◌≡◌, ◌++◌, [], None, IfOk, OnOk};
ghost use Rattle.sail_types.specs.Sums.{and_then};
ghost use Rattle.sail_kinds.specs.Scopes.{within, type_named, own_of};
ghost use Rattle.sail_signatures.specs.Signatures.{binding};
ghost use Rattle.shape_models.specs.Models.{is_type_variable as is_of_type, params_variables};
ghost use Rattle.shape_models.specs.Sources.{tabled_by, IsSound};
ghost use Rattle.shape_declarations.specs.Signatures.{number_parameter as number_parameter_of, number_parameters as number_parameters_of};
ghost use Rattle.shape_declarations.specs.Signatures.{type_names as type_names_of, numbers_if, first_val};
ghost use Rattle.shape_declarations.specs.Signatures.{numbers_within, parameters_numbers, one_clause_numbers, clause_numbers};
ghost use Rattle.shape_declarations.specs.Signatures.{signature_numbers as signature_numbers_of};
ghost use Rattle.shape_declarations.specs.Parts.{declared_numbers as declared_numbers_of};

use crate::parts::find_val;
use sail_base::{Items, Kind, Text};
use sail_core::WrittenNumber;
use sail_kinds::{Binders, Scope, TypeNames, Variable};
use sail_syntax::{Def, FunctionClause, Pat, Quantifier, TyExp};
use sail_types::Parameter;
use shape_models::Source;
use shape_patterns::written_typ;
use std::alloc::{AllocError, Global};
use type_definitions::variables_of;
use written_types::numbers_in;

fn is_type(kind: Kind) -> bool
    ensures { result ≡ is_of_type kind }
{
    match kind {
        Kind::Type => true,
        _ => false,
    }
}

/// An Int or Bool variable as a parameter.
fn number_parameter(variable: &Variable) -> Result<Parameter, AllocError>
    ensures { IfOk result (λ made. made ≡ number_parameter_of variable.now) }
{
    let name = variable.name.clone()?;
    Ok(Parameter {
        name,
        kind: variable.kind,
    })
}

/// The Int and Bool variables among type variables, in order. The one error is want of memory.
pub fn number_parameters(
    alloc: Global,
    variables: &[Variable],
) -> Result<Items<Parameter>, AllocError>
    ensures { IfOk result (λ made. made ≡ number_parameters_of variables.now) }
{
    let mut made = Items::new(alloc);
    for variable in variables {
        if !is_type(variable.kind) {
            made.push(number_parameter(variable)?)?;
        }
    }
    Ok(made)
}

/// The names of the Type variables among type variables, in order. The one error is want of memory.
pub fn type_names(alloc: Global, variables: &[Variable]) -> Result<Items<Text>, AllocError>
    ensures { IfOk result (λ made. made ≡ type_names_of variables.now) }
{
    let mut made = Items::new(alloc);
    for variable in variables {
        if is_type(variable.kind) {
            made.push(variable.name.clone()?)?;
        }
    }
    Ok(made)
}

/// The numbers in a type or constraint that may be written.
fn push_numbers_if(
    alloc: Global,
    scope: &Scope<'_>,
    text: Option<&TyExp>,
    numbers: &mut Items<WrittenNumber>,
) -> Result<(), AllocError>
    ensures { OnOk result (numbers.new ≡ numbers.old ++ numbers_if (within scope.now) (option_copied text.entry)) }
{
    match text {
        None => Ok(()),
        Some(text) => numbers.append(numbers_in(alloc, text, scope)?),
    }
}

/// The numbers in a `val`, in order.
fn numbers_of_parts(
    alloc: Global,
    quantifier: &Quantifier,
    from: &TyExp,
    to: &TyExp,
    scope: &Scope<'_>,
) -> Result<Items<WrittenNumber>, AllocError>
    ensures { IfOk result (λ numbers. numbers ≡ numbers_within (within scope.now) quantifier.now from.now to.now) }
{
    let mut numbers = Items::new(alloc);
    push_numbers_if(alloc, scope, quantifier.constraint.as_ref(), &mut numbers)?;
    numbers.append(numbers_in(alloc, from, scope)?)?;
    numbers.append(numbers_in(alloc, to, scope)?)?;
    Ok(numbers)
}

/// Likewise under these variables, where these types can be named.
fn numbers_under(
    alloc: Global,
    names: &TypeNames<'_>,
    variables: &[Variable],
    quantifier: &Quantifier,
    from: &TyExp,
    to: &TyExp,
) -> Result<Items<WrittenNumber>, AllocError>
    requires { own_of names.now ≡ None }
    ensures { IfOk result (λ numbers. numbers
        ≡ numbers_within (binding (type_named names.now) variables.now) quantifier.now from.now to.now) }
{
    let binders = Binders::Parameters(variables);
    let scope = Scope::new(names, &binders);
    numbers_of_parts(alloc, quantifier, from, to, &scope)
}

/// Likewise under the variables that it binds.
fn numbers_of_val(
    alloc: Global,
    names: &TypeNames<'_>,
    quantifier: &Quantifier,
    from: &TyExp,
    to: &TyExp,
) -> Result<Items<WrittenNumber>, AllocError>
    requires { own_of names.now ≡ None }
    ensures { IfOk result (λ numbers. numbers
        ≡ numbers_within (binding (type_named names.now) (params_variables quantifier.now.variables)) quantifier.now from.now to.now) }
{
    let variables = variables_of(alloc, quantifier.variables.as_slice())?;
    numbers_under(alloc, names, variables.as_slice(), quantifier, from, to)
}

/// The numbers in a definition that is a `val`.
fn declared_numbers(
    alloc: Global,
    source: &Source<'_>,
    definition: Option<&Def>,
) -> Result<Option<Items<WrittenNumber>>, AllocError>
    requires { IsSound source.now }
    ensures { IfOk result (λ found. found
        ≡ and_then (option_copied definition.entry) (declared_numbers_of (tabled_by source.now))) }
{
    match definition {
        Some(
            Def::Val {
                quantifier,
                from,
                to,
                ..
            },
        ) => {
            let numbers = numbers_of_val(alloc, source.names, quantifier, from, to)?;
            Ok(Some(numbers))
        }
        _ => Ok(None),
    }
}

/// The numbers in the first `val` of a name, where it has one.
fn val_numbers(
    alloc: Global,
    source: &Source<'_>,
    name: &str,
) -> Result<Option<Items<WrittenNumber>>, AllocError>
    requires { IsSound source.now }
    ensures { IfOk result (λ found. found ≡ first_val (tabled_by source.now) name.now source.now.definitions.now) }
{
    declared_numbers(alloc, source, find_val(source, name))
}

/// The numbers in the parameters of a clause.
fn push_parameters_numbers(
    alloc: Global,
    scope: &Scope<'_>,
    parameters: &[Pat],
    numbers: &mut Items<WrittenNumber>,
) -> Result<(), AllocError>
    ensures { OnOk result (numbers.new ≡ numbers.old ++ parameters_numbers (within scope.now) parameters.now) }
{
    for parameter in parameters {
        push_numbers_if(alloc, scope, written_typ(parameter), numbers)?;
    }
    Ok(())
}

/// The numbers in a clause.
fn numbers_of_clause(
    alloc: Global,
    names: &TypeNames<'_>,
    clause: &FunctionClause,
) -> Result<Items<WrittenNumber>, AllocError>
    requires { own_of names.now ≡ None }
    ensures { IfOk result (λ numbers. numbers ≡ one_clause_numbers (binding (type_named names.now) []) clause.now) }
{
    let binders = Binders::Parameters(&[]);
    let scope = Scope::new(names, &binders);
    let mut numbers = Items::new(alloc);
    push_parameters_numbers(alloc, &scope, clause.parameters.as_slice(), &mut numbers)?;
    push_numbers_if(alloc, &scope, clause.result.as_ref(), &mut numbers)?;
    Ok(numbers)
}

/// The numbers in the first clause of a function.
fn numbers_of_clauses(
    alloc: Global,
    names: &TypeNames<'_>,
    clauses: &[FunctionClause],
) -> Result<Items<WrittenNumber>, AllocError>
    requires { own_of names.now ≡ None }
    ensures { IfOk result (λ numbers. numbers ≡ clause_numbers (binding (type_named names.now) []) clauses.now) }
{
    match clauses {
        [] => Ok(Items::new(alloc)),
        [clause, ..] => numbers_of_clause(alloc, names, clause),
    }
}

/// The widths, lengths, exponents and compared sides that are written in the signature of a function: in its `val`, or else in its one
/// clause. The one error is want of memory.
pub fn signature_numbers(
    alloc: Global,
    source: &Source<'_>,
    name: &str,
    clauses: &[FunctionClause],
) -> Result<Items<WrittenNumber>, AllocError>
    requires { IsSound source.now }
    ensures { IfOk result (λ numbers. numbers
        ≡ signature_numbers_of (tabled_by source.now) source.now.definitions.now name.now clauses.now) }
{
    match val_numbers(alloc, source, name)? {
        Some(numbers) => Ok(numbers),
        None => numbers_of_clauses(alloc, source.names, clauses),
    }
}
