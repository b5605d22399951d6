ghost use Rattle.std.specs.Prelude.{◌≡◌, IfOk, OnOk};
ghost use Rattle.sail_kinds.specs.Failures.{first_failure};
ghost use Rattle.sail_kinds.specs.Repeated.{clashes};
ghost use Rattle.type_definitions.specs.Defined.{names_of as names_in, kinds_of as kinds_in, variables_of as variables_in, table_parameters as parameters_in};

use sail_base::{Items, Kind};
use sail_kinds::{First, Variable, note_repeated};
use sail_syntax::{Name, Param};
use sail_types::Parameter;
use std::alloc::{AllocError, Global};

/// The names of parameters, in order. The one error is want of memory.
pub fn names_of(alloc: Global, parameters: &[Param]) -> Result<Items<Name>, AllocError>
    ensures { IfOk result (λ names. names ≡ names_in parameters.now) }
{
    let mut names = Items::new(alloc);
    for parameter in parameters {
        names.push(parameter.name.clone()?)?;
    }
    Ok(names)
}

/// The kinds of parameters, in order. The one error is want of memory.
pub fn kinds_of(alloc: Global, parameters: &[Param]) -> Result<Items<Kind>, AllocError>
    ensures { IfOk result (λ kinds. kinds ≡ kinds_in parameters.now) }
{
    let mut kinds = Items::new(alloc);
    for parameter in parameters {
        kinds.push(parameter.kind)?;
    }
    Ok(kinds)
}

/// The type variables that parameters are, in order. The one error is want of memory.
pub fn variables_of(alloc: Global, parameters: &[Param]) -> Result<Items<Variable>, AllocError>
    ensures { IfOk result (λ variables. variables ≡ variables_in parameters.now) }
{
    let mut variables = Items::new(alloc);
    for parameter in parameters {
        let name = parameter.name.text.clone()?;
        variables.push(Variable {
            name,
            kind: parameter.kind,
        })?;
    }
    Ok(variables)
}

/// The parameters as the table of types has them, in order. The one error is want of memory.
pub fn table_parameters(alloc: Global, parameters: &[Param]) -> Result<Items<Parameter>, AllocError>
    ensures { IfOk result (λ list. list ≡ parameters_in parameters.now) }
{
    let mut list = Items::new(alloc);
    for parameter in parameters {
        let name = parameter.name.text.clone()?;
        list.push(Parameter {
            name,
            kind: parameter.kind,
        })?;
    }
    Ok(list)
}

/// Notes the type variables that stand in a list a second time. The one error is want of memory.
pub fn note_parameters(
    alloc: Global,
    parameters: &[Param],
    first: &mut First,
) -> Result<(), AllocError>
    ensures { OnOk result (first.new.error ≡ first_failure first.old.error (clashes (names_in parameters.now))) }
{
    let names = names_of(alloc, parameters)?;
    note_repeated(alloc, names.as_slice(), first)?;
    Ok(())
}
