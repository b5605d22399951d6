//! Where calls lead.
ghost use Rattle.std.specs.Prelude.{◌≡◌, ◌++◌, IfOk, OnOk, option_map};
ghost use Rattle.monomorph.specs.Reading.{inside_of};
ghost use Rattle.sized_trees.specs.Cases as spec;
ghost use Rattle.sized_trees.specs.Within as sizes;

use crate::cases::{all_sized, readings_within, values_within};
use crate::within::all_numbers;
use monomorph::{Inside, instance_of, same_instance};
use sail_base::Items;
use sail_core::Callee;
use sail_types::Index;
use size_splits::given_indices;
use size_values::{Picked, Variables, indices_under};
use sized_nodes::{Instance, Lead};
use std::alloc::{AllocError, Global};
use value_indices::{Indices, Reading};

/// A call of a function.
#[derive(Clone, Copy)]
pub struct FunctionCall<'a> {
    /// Its operands.
    pub operands: &'a [Indices],
    /// The function, by its place in the model.
    pub function: u32,
    /// What is given to Int and Bool variables.
    pub numbers: &'a [Index],
    /// What is given to Type variables.
    pub types: &'a [Reading],
}

/// The place of an instance among all.
fn place_in(list: &[Instance], instance: &Instance) -> Option<usize>
    ensures { result ≡ spec.place_in list.now instance.now }
{
    let mut at = 0;
    for other in list {
        if same_instance(instance, other) {
            return Some(at);
        }
        at += 1;
    }
    None
}

/// Whether what is given to size variables is constant, where these numbers are taken. It fails where memory is wanting.
fn numbers_within(
    alloc: Global,
    inside: &Inside<'_>,
    call: &FunctionCall<'_>,
    picked: &[Picked],
) -> Result<bool, AllocError>
    ensures { IfOk result (λ within. within
        ≡ sizes.all_numbers (spec.given_constants (inside_of inside.now) call.now.function call.now.numbers.now picked.now)) }
{
    let variables = Variables::Known(inside.numbers, picked);
    let callee = Callee::Function(call.function);
    let indices = given_indices(alloc, inside.sizing, &callee, call.operands, call.numbers)?;
    let constants = indices_under(alloc, indices.as_slice(), &variables)?;
    Ok(all_numbers(constants.as_slice()))
}

/// Whether all that is given at a call is constant within its limits. It fails where memory is wanting.
fn lead_within(
    alloc: Global,
    inside: &Inside<'_>,
    call: &FunctionCall<'_>,
    picked: &[Picked],
) -> Result<bool, AllocError>
    ensures { IfOk result (λ within. within ≡ spec.lead_within (inside_of inside.now) call.now.operands.now call.now.function
        call.now.numbers.now call.now.types.now picked.now) }
{
    if !values_within(alloc, inside, picked, call.operands)? {
        return Ok(false);
    }
    if !numbers_within(alloc, inside, call, picked)? {
        return Ok(false);
    }
    readings_within(alloc, inside, picked, call.types)
}

/// A lead to the instance at a place, if there is one. It fails where memory is wanting.
fn lead_to(
    alloc: Global,
    inside: &Inside<'_>,
    call: &FunctionCall<'_>,
    picked: &[Picked],
    place: Option<usize>,
) -> Result<Option<Lead>, AllocError>
    ensures { IfOk result (λ lead. lead ≡ option_map (spec.lead_to (inside_of inside.now) call.now.operands.now picked.now) place) }
{
    match place {
        None => Ok(None),
        Some(instance) => {
            let takes = all_sized(alloc, inside, picked, call.operands)?;
            let picked = Items::from_slice(alloc, picked)?;
            Ok(Some(Lead {
                picked,
                takes,
                instance,
            }))
        }
    }
}

/// Where a call leads, where these numbers are taken. It fails where memory is wanting.
fn lead_found(
    alloc: Global,
    inside: &Inside<'_>,
    list: &[Instance],
    call: &FunctionCall<'_>,
    picked: &[Picked],
) -> Result<Option<Lead>, AllocError>
    ensures { IfOk result (λ lead. lead ≡ spec.lead_found (inside_of inside.now) list.now call.now.operands.now call.now.function
        call.now.numbers.now call.now.types.now picked.now) }
{
    let instance = instance_of(
        alloc,
        inside,
        picked,
        call.function,
        call.numbers,
        call.types,
    )?;
    lead_to(alloc, inside, call, picked, place_in(list, &instance))
}

/// Where it leads, if all that is given is constant. It fails where memory is wanting.
pub fn lead_under(
    alloc: Global,
    inside: &Inside<'_>,
    list: &[Instance],
    call: &FunctionCall<'_>,
    picked: &[Picked],
) -> Result<Option<Lead>, AllocError>
    ensures { IfOk result (λ lead. lead ≡ spec.lead_under (inside_of inside.now) list.now call.now.operands.now call.now.function
        call.now.numbers.now call.now.types.now picked.now) }
{
    if lead_within(alloc, inside, call, picked)? {
        lead_found(alloc, inside, list, call, picked)
    } else {
        Ok(None)
    }
}

/// Puts a lead, if there is one. It fails where memory is wanting.
fn push_lead(leads: &mut Items<Lead>, lead: Option<Lead>) -> Result<(), AllocError>
    ensures { OnOk result (leads.new ≡ leads.old ++ spec.one_or_none lead) }
{
    match lead {
        Some(lead) => leads.push(lead),
        None => Ok(()),
    }
}

/// Where a call leads under these combinations. They fail where memory is wanting.
pub fn leads_under(
    alloc: Global,
    inside: &Inside<'_>,
    list: &[Instance],
    call: &FunctionCall<'_>,
    combinations: &[Items<Picked>],
) -> Result<Items<Lead>, AllocError>
    ensures { IfOk result (λ leads. leads ≡ spec.leads_under (inside_of inside.now) list.now call.now.operands.now call.now.function
        call.now.numbers.now call.now.types.now combinations.now) }
{
    let mut leads = Items::new(alloc);
    for picked in combinations {
        let lead = lead_under(alloc, inside, list, call, picked.as_slice())?;
        push_lead(&mut leads, lead)?;
    }
    Ok(leads)
}
