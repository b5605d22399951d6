ghost use Rattle.std.specs.Prelude.{◌≡◌, [], ◌∷◌, ◌++◌, IfOk};
ghost use Rattle.shape_models.specs.Models.{is_type_variable as is_of_type, type_variables as type_variables_in, function_candidate as function_called};
ghost use Rattle.shape_models.specs.Models.{direction_candidate as direction_called, variables_from, constructor_candidate as constructor_called};

use sail_base::{Items, Kind, Text};
use sail_core::Callee;
use sail_kinds::Variable;
use sail_signatures::Signature;
use sail_types::{Field, Shape, Typ, copy_shape, copy_shapes, shape_of};
use shape_calls::param_shapes;
use shape_rules::{Candidate, Doing};
use std::alloc::{AllocError, Global};

fn is_type_variable(kind: Kind) -> bool
    ensures { result ≡ is_of_type kind }
{
    match kind {
        Kind::Type => true,
        _ => false,
    }
}

/// The count of the Type variables among type variables.
pub fn type_variables(variables: &[Variable]) -> usize
    ensures { result ≡ type_variables_in variables.now }
{
    let mut count = 0;
    for variable in variables {
        if is_type_variable(variable.kind) {
            count += 1;
        }
    }
    count
}

/// The same callee once more. The one error is want of memory.
pub fn copy_candidate(alloc: Global, candidate: &Candidate) -> Result<Candidate, AllocError>
    ensures { IfOk result (λ copy. copy ≡ candidate.now) }
{
    let name = candidate.name.clone()?;
    let params = copy_shapes(alloc, candidate.params.as_slice())?;
    let answer = copy_shape(alloc, &candidate.answer)?;
    Ok(Candidate {
        name,
        doing: candidate.doing,
        variables: candidate.variables,
        params,
        answer,
    })
}

/// A function, by its number. The one error is want of memory.
pub(crate) fn function_candidate(
    alloc: Global,
    name: &Text,
    number: u32,
    signature: &Signature,
) -> Result<Candidate, AllocError>
    ensures { IfOk result (λ made. made ≡ function_called name.now number signature.now) }
{
    let variables = type_variables(signature.variables.as_slice());
    let name = name.clone()?;
    let params = param_shapes(alloc, &signature.from)?;
    let answer = shape_of(alloc, &signature.to)?;
    Ok(Candidate {
        name,
        doing: Doing::Calls(Callee::Function(number)),
        variables,
        params,
        answer,
    })
}

/// A direction of a mapping, by its number. The one error is want of memory.
pub(crate) fn direction_candidate(
    alloc: Global,
    name: &Text,
    direction: u32,
    from: &Typ,
    to: &Typ,
) -> Result<Candidate, AllocError>
    ensures { IfOk result (λ made. made ≡ direction_called name.now direction from.now to.now) }
{
    let name = name.clone()?;
    let mut params = Items::new(alloc);
    params.push(shape_of(alloc, from)?)?;
    let answer = shape_of(alloc, to)?;
    Ok(Candidate {
        name,
        doing: Doing::Calls(Callee::Converts(direction)),
        variables: 0,
        params,
        answer,
    })
}

/// A place or number as the core has it; a larger one is more than memory is taken to hold.
pub(crate) fn small(place: usize) -> Result<u32, AllocError>
    ensures { IfOk result (λ small. small ≡ place) }
{
    match u32::try_from(place) {
        Ok(small) => Ok(small),
        Err(_) => Err(AllocError),
    }
}

/// So many variables, in order.
fn variables(alloc: Global, count: usize) -> Result<Items<Shape>, AllocError>
    ensures { IfOk result (λ made. made ≡ variables_from 0 count) }
{
    let mut made = Items::new(alloc);
    for position in 0..count {
        made.push(Shape::Variable(small(position)?))?;
    }
    Ok(made)
}

/// A constructor of a union with so many Type parameters, by both places. The one error is want of memory.
pub(crate) fn constructor_candidate(
    alloc: Global,
    union_place: u32,
    place: u32,
    count: usize,
    payload: &Field,
) -> Result<Candidate, AllocError>
    ensures { IfOk result (λ made. made ≡ constructor_called union_place place count payload.now) }
{
    let name = payload.name.clone()?;
    let params = param_shapes(alloc, &payload.typ)?;
    let arguments = variables(alloc, count)?;
    Ok(Candidate {
        name,
        doing: Doing::Calls(Callee::Constructor(union_place, place)),
        variables: count,
        params,
        answer: Shape::Named(union_place, arguments),
    })
}
