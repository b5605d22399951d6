//! Calls of functions: that each leads to an instance under each combination of numbers, and that what it gives is constant for certain.
ghost use Rattle.std.specs.Prelude.{◌≡◌, IfOk};
ghost use Rattle.std.specs.List.{list_all};
ghost use Rattle.size_values.specs.Numbers.{meant};
ghost use Rattle.monomorph.specs.Reading.{inside_of};
ghost use Rattle.tabled_cores.specs.Notes as spec;

use crate::sizes::{readings_pass, values_pass};
use crate::small::{both, only_if};
use monomorph::Inside;
use sail_base::Items;
use sail_core::Callee;
use sail_types::Index;
use size_splits::flags_of;
use size_values::{Picked, Variables};
use sized_nodes::Instance;
use sized_trees::{FunctionCall, combinations_at, lead_under};
use std::alloc::{AllocError, Global};
use told_sizes::is_exact_index;
use value_indices::{Fact, Indices, Reading};

/// Whether what is given to each size variable is a constant, and as much is given as is asked for.
fn numbers_pass(flags: &[bool], numbers: &[Index], variables: &Variables<'_>) -> bool
    ensures { result ≡ spec.numbers_pass (meant variables.now) flags.now numbers.now }
{
    match flags {
        [] => match numbers {
            [] => true,
            [_, ..] => false,
        },
        [flag, flags @ ..] => match numbers {
            [] => false,
            [number, numbers @ ..] => both(
                only_if(*flag, is_exact_index(number, variables)),
                numbers_pass(flags, numbers, variables),
            ),
        },
    }
}

/// Whether a call leads to an instance where these numbers are taken. It fails where memory is wanting.
fn has_lead(
    alloc: Global,
    inside: &Inside<'_>,
    list: &[Instance],
    call: &FunctionCall<'_>,
    picked: &[Picked],
) -> Result<bool, AllocError>
    ensures { IfOk result (λ has. has ≡ spec.has_lead (inside_of inside.now) list.now call.now.operands.now call.now.function
        call.now.numbers.now call.now.types.now picked.now) }
{
    let lead = lead_under(alloc, inside, list, call, picked)?;
    Ok(lead.is_some())
}

/// Whether all that is given there is constant for certain. It fails where memory is wanting.
fn lead_passes(
    alloc: Global,
    inside: &Inside<'_>,
    call: &FunctionCall<'_>,
    picked: &[Picked],
) -> Result<bool, AllocError>
    ensures { IfOk result (λ passes. passes ≡ spec.lead_passes (inside_of inside.now) call.now.operands.now call.now.function
        call.now.numbers.now call.now.types.now picked.now) }
{
    let variables = Variables::Known(inside.numbers, picked);
    let numbers = numbers_pass(
        flags_of(inside.sizing, call.function),
        call.numbers,
        &variables,
    );
    let taken = values_pass(alloc, inside, picked, call.operands)?;
    let types = readings_pass(alloc, inside, picked, call.types)?;
    Ok(both(taken, both(types, numbers)))
}

/// Whether a call leads to an instance under each of these combinations.
fn all_have_leads(
    alloc: Global,
    inside: &Inside<'_>,
    list: &[Instance],
    call: &FunctionCall<'_>,
    combinations: &[Items<Picked>],
) -> Result<bool, AllocError>
    ensures { IfOk result (λ have. have ≡ list_all (spec.has_lead (inside_of inside.now) list.now call.now.operands.now call.now.function
        call.now.numbers.now call.now.types.now) combinations.now) }
{
    for picked in combinations {
        if !has_lead(alloc, inside, list, call, picked.as_slice())? {
            return Ok(false);
        }
    }
    Ok(true)
}

/// Whether all that is given is constant for certain under each of these.
fn all_pass(
    alloc: Global,
    inside: &Inside<'_>,
    call: &FunctionCall<'_>,
    combinations: &[Items<Picked>],
) -> Result<bool, AllocError>
    ensures { IfOk result (λ pass. pass ≡ list_all (spec.lead_passes (inside_of inside.now) call.now.operands.now call.now.function
        call.now.numbers.now call.now.types.now) combinations.now) }
{
    for picked in combinations {
        if !lead_passes(alloc, inside, call, picked.as_slice())? {
            return Ok(false);
        }
    }
    Ok(true)
}

/// Whether a call of a function is so. It fails where memory is wanting.
fn function_tested(
    alloc: Global,
    inside: &Inside<'_>,
    list: &[Instance],
    facts: &[Fact],
    call: &FunctionCall<'_>,
) -> Result<bool, AllocError>
    ensures { IfOk result (λ tested. tested ≡ spec.function_tested (inside_of inside.now) list.now facts.now call.now.operands.now
        call.now.function call.now.numbers.now call.now.types.now) }
{
    let combinations = combinations_at(alloc, inside, facts)?;
    let have = all_have_leads(alloc, inside, list, call, combinations.as_slice())?;
    let pass = all_pass(alloc, inside, call, combinations.as_slice())?;
    Ok(both(have, pass))
}

/// Whether a call is, if it is one of a function. It fails where memory is wanting.
pub fn call_tested(
    alloc: Global,
    inside: &Inside<'_>,
    list: &[Instance],
    facts: &[Fact],
    operands: &[Indices],
    callee: &Callee,
    numbers: &[Index],
    types: &[Reading],
) -> Result<bool, AllocError>
    ensures { IfOk result (λ tested. tested ≡ spec.call_tested (inside_of inside.now) list.now facts.now operands.now callee.now numbers.now
        types.now) }
{
    match callee {
        Callee::Function(function) => {
            let call = FunctionCall {
                operands,
                function: *function,
                numbers,
                types,
            };
            function_tested(alloc, inside, list, facts, &call)
        }
        _ => Ok(true),
    }
}
