//! The obligations of a model, and its refusal where one isn't closed, or where a size is refused.
ghost use Rattle.std.specs.Prelude.{◌≡◌, IfOk, map};
ghost use Rattle.std.specs.Fmt.{signed_decimal};
ghost use Rattle.bidir_check.specs.Checking.{IsMet};
ghost use Rattle.sail_compile.specs.Checked.{checked_core};
ghost use Rattle.sail_compile.specs.Refusals as spec;
ghost use Rattle.sail_compile.specs.parts.Cycles as cycles;
ghost use Rattle.sail_compile.specs.parts.Told.{IsOfChecks, IsOfSizes};

use crate::refusals::named;
use crate::shape_refusals::text_of;
use bidir_check::{Certified, CheckError, check};
use constraint_gen::obligations;
use monomorph::MonoError;
use sail_base::{Items, Place, Refusal};
use sail_core::{CoreModel, Function};
use sail_types::push_integer;
use std::alloc::{AllocError, Global};

/// Forgets of a function which cycle of calls it is in.
fn forget_cycle(function: &mut Function)
    ensures { function.new ≡ cycles.without_cycle function.old }
{
    function.cycle = None;
}

/// Forgets it of each function.
fn forget_cycles(functions: &mut [Function])
    ensures { functions.new ≡ map cycles.without_cycle functions.old }
{
    for function in functions.iter_mut() {
        forget_cycle(function);
    }
}

/// A core without the numbers of its cycles of calls. It takes no memory.
fn without_cycles(core: CoreModel) -> CoreModel
    ensures { result ≡ cycles.without_cycles core }
{
    let CoreModel {
        types,
        exception,
        registers,
        register_texts,
        functions,
        directions,
        openings,
        reset,
        step,
    } = core;
    let mut functions = functions.into_vec();
    forget_cycles(functions.as_mut_slice());
    CoreModel {
        types,
        exception,
        registers,
        register_texts,
        functions: Items::from_vec(functions),
        directions,
        openings,
        reset,
        step,
    }
}

/// A core with a certificate for each of its obligations, or the first that isn't closed.
pub fn certify(alloc: Global, core: CoreModel) -> Result<Certified, CheckError>
    ensures { IsMet result (checked_core core) }
{
    let obligations = obligations(alloc, &core)?;
    check(alloc, core, obligations)
}

/// A core without the numbers of its cycles of calls, so.
pub fn check_core(alloc: Global, core: CoreModel) -> Result<Certified, CheckError>
    ensures { IsMet result (checked_core (cycles.without_cycles core)) }
{
    certify(alloc, without_cycles(core))
}

/// The refusal of a model of which an obligation isn't closed. The one error is want of memory, that of the check too.
pub fn check_refusal(alloc: Global, error: &CheckError) -> Result<Refusal, AllocError>
    ensures refused { IfOk result (λ refusal. refusal ≡ spec.check_refusal error.now) }
    ensures told { IfOk result (λ _. IsOfChecks error.now) }
{
    let mut bytes = Vec::new(alloc);
    error.push_detail(&mut bytes)?;
    let detail = text_of(alloc, bytes.as_slice())?;
    match error {
        CheckError::Open { place, .. } => Ok(Refusal {
            number: 20,
            place: *place,
            detail,
        }),
        CheckError::Limit { place, .. } => Ok(Refusal {
            number: 21,
            place: *place,
            detail,
        }),
        CheckError::OutOfMemory => Err(AllocError),
    }
}

/// The refusal of this number that tells an integer. It fails where memory is wanting.
fn told_integer(
    alloc: Global,
    number: u8,
    place: Place,
    integer: i128,
) -> Result<Refusal, AllocError>
    ensures { IfOk result (λ refusal. refusal ≡ spec.refusal number place (signed_decimal integer)) }
{
    let mut bytes = Vec::new(alloc);
    push_integer(&mut bytes, integer)?;
    let detail = text_of(alloc, bytes.as_slice())?;
    Ok(Refusal {
        number,
        place,
        detail,
    })
}

/// The refusal of a model of which a size is refused. The one error is want of memory, that of the list of instances too.
pub fn size_refusal(alloc: Global, error: &MonoError) -> Result<Refusal, AllocError>
    ensures refused { IfOk result (λ refusal. refusal ≡ spec.size_refusal error.now) }
    ensures told { IfOk result (λ _. IsOfSizes error.now) }
{
    match error {
        MonoError::SizeOpen(place, name) => named(25, *place, name),
        MonoError::WidthLimit(place, size) => told_integer(alloc, 26, *place, *size),
        MonoError::InstanceLimit(place, count) => told_integer(alloc, 27, *place, *count as i128),
        MonoError::OutOfMemory => Err(AllocError),
    }
}
