//! The engine of the program: flat code, and the machine that runs it.
ghost use Rattle.std.specs.Prelude.{◌≡◌, ◌+◌, Err, IfOk, IsTrue, None, Ok, Some, is_some};
ghost use Rattle.bidir_check.specs.Checking.{IsMet as IsChecked};
ghost use Rattle.jib_lower.specs.Errors.{OrMemory};
ghost use Rattle.jib_lower.specs.Lowerable.{NotLowerable};
ghost use Rattle.jib_lower.specs.Lowered.{LoweredBehind};
ghost use Rattle.mappings.specs.Rewriting.{without_mappings};
ghost use Rattle.match_rewrite.specs.Rewriting.{with_flat_arms};
ghost use Rattle.sail_core.specs.declared.model.CoreModel.{CoreModel as ACore};
ghost use Rattle.sized_trees.specs.Trees.{IsMet, sized_core as sizes_of};
ghost use Rattle.sized_nodes.specs.declared.trees.SizedCore.{SizedCore as Sizes};
ghost use Rattle.sail_compile.specs.Checked.{checked_core};
ghost use Rattle.sail_compile.specs.Engines.{IsNotWanted, IsTried};
ghost use Rattle.sail_compile.specs.Meanings.{entries as entered};
ghost use Rattle.sail_compile.specs.parts.Runs.{CodeRuns, CoreRuns, RunsCode, ZeroedRuns};

use crate::checking::certify;
use crate::compiled::{Compiled, Engine, Running};
use crate::models::{ModelError, read_models};
use crate::zeros::have_zeros;
use bidir_check::CheckError;
use jib_lower::{LowerError, Lowered, lower};
use jib_machine::{Entries, Machine};
use monomorph::MonoError;
use sail_base::Items;
use sail_core::CoreModel;
use sized_models::sized_core;
use sized_nodes::SizedCore;
use std::alloc::{AllocError, Global};

/// The engine that the program has.
#[derive(Clone, Copy, Debug)]
pub struct Jib;

impl Engine for Jib {
    type Run = Machine;

    ghost use Rattle.sail_compile.specs.Meanings.{jib};

    ghost engine = { λ engine. jib };

    /// Takes the phases in their order, certifies the core that they find with the numbers of its cycles of calls, looks whether its registers have zeros,
    /// lowers it to flat code, and makes the machine of it.
    fn compile(
        &mut self,
        alloc: Global,
        texts: &[Items<u8>],
        for_run: bool,
    ) -> Result<Compiled<Machine>, ModelError> {
        let made = read_models(alloc, texts, for_run)?;
        Ok(made)
    }
}

/// What takes the steps of a model, where it is to be run. It fails where memory is wanting.
pub fn run_of(alloc: Global, core: Option<CoreModel>) -> Result<Running<Machine>, AllocError>
    ensures runs { (written : ACore) → core ≡ Some written → IfOk result (CoreRuns written) }
    ensures tried { IsTrue (is_some core) → IfOk result IsTried }
    ensures none { core ≡ None → IfOk result IsNotWanted }
{
    match core {
        None => Ok(Running::NotWanted),
        Some(core) => checked_run(alloc, core),
    }
}

/// What takes the steps of a model, if each of its obligations has a certificate, each of its registers has a zero, it has constant sizes and is lowered.
/// It fails where memory is wanting.
fn checked_run(alloc: Global, core: CoreModel) -> Result<Running<Machine>, AllocError>
    ensures { IfOk result (CoreRuns core) }
{
    match certify(alloc, core) {
        Ok(certified) => zeroed_run(alloc, certified.into_core()),
        Err(error) => unless_open(&error),
    }
}

/// No machine, where an obligation of a model isn't closed. It fails where memory is wanting.
fn unless_open(error: &CheckError) -> Result<Running<Machine>, AllocError>
    ensures { (core : ACore) → IsChecked (Err error.now) (checked_core core) → IfOk result (CoreRuns core) }
{
    match error {
        CheckError::OutOfMemory => Err(AllocError),
        _ => Ok(Running::NotRun),
    }
}

/// What takes the steps of a model, if each of its registers has a zero, it has constant sizes and is lowered. It fails where memory is wanting.
fn zeroed_run(alloc: Global, core: CoreModel) -> Result<Running<Machine>, AllocError>
    ensures { IfOk result (ZeroedRuns core) }
{
    let zeroed = have_zeros(alloc, &core.types, core.registers.as_slice())?;
    if zeroed {
        code_of(alloc, core)
    } else {
        Ok(Running::NotRun)
    }
}

/// What takes the steps of a model, if it has constant sizes and is lowered. It fails where memory is wanting.
fn code_of(alloc: Global, core: CoreModel) -> Result<Running<Machine>, AllocError>
    ensures { IfOk result (CodeRuns core) }
{
    match sized_core(alloc, &core) {
        Ok(sized) => machine_of(alloc, core, &sized),
        Err(error) => unless_wanting(&error),
    }
}

/// No machine, where a model has no constant sizes. It fails where memory is wanting.
fn unless_wanting(error: &MonoError) -> Result<Running<Machine>, AllocError>
    ensures { (core : ACore) → IsMet (Err error.now) (sizes_of core) → IfOk result (CodeRuns core) }
{
    match error {
        MonoError::OutOfMemory => Err(AllocError),
        _ => Ok(Running::NotRun),
    }
}

/// The machine of a model with these sizes, if it is lowered. It fails where memory is wanting.
fn machine_of(
    alloc: Global,
    core: CoreModel,
    sized: &SizedCore,
) -> Result<Running<Machine>, AllocError>
    requires { sizes_of core ≡ Ok sized.now }
    ensures { IfOk result (CodeRuns core) }
{
    match lower(alloc, core, sized) {
        Ok(lowered) => {
            let machine = start(alloc, lowered)?;
            Ok(Running::Runs(machine))
        }
        Err(error) => unless_memory(error),
    }
}

/// No machine, where a model isn't lowered with these sizes. It fails where memory is wanting.
fn unless_memory(error: LowerError) -> Result<Running<Machine>, AllocError>
    ensures { (core : ACore) (sized : Sizes) → sizes_of core ≡ Ok sized → OrMemory (NotLowerable core sized) error → IfOk result (CodeRuns core) }
{
    match error {
        LowerError::Memory => Err(AllocError),
        _ => Ok(Running::NotRun),
    }
}

/// The number of the function at a place behind so many others. It fails where there are 2^32 functions or more.
fn behind(before: u32, place: u32) -> Result<u32, AllocError>
    ensures { IfOk result (λ number. number ≡ before + place) }
{
    match before.checked_add(place) {
        Some(number) => Ok(number),
        None => Err(AllocError),
    }
}

/// The functions that events enter, behind so many functions of directions. It fails where there are 2^32 functions or more.
fn entries_behind(before: u32) -> Result<Entries, AllocError>
    ensures { IfOk result (λ made. made ≡ entered before) }
{
    let reset = behind(before, 1)?;
    let step = behind(before, 3)?;
    Ok(Entries { reset, step })
}

/// The machine of a model that is lowered. It fails where memory is wanting.
fn start(alloc: Global, lowered: Lowered) -> Result<Machine, AllocError>
    ensures { (written : ACore) (sized : Sizes) → sizes_of written ≡ Ok sized → lowered.flat ≡ with_flat_arms (without_mappings written)
        → LoweredBehind written sized lowered.checked.program lowered.before → IfOk result (RunsCode written) }
{
    let Lowered {
        flat,
        checked,
        before,
    } = lowered;
    let CoreModel {
        types,
        exception: _,
        registers,
        register_texts: _,
        functions: _,
        directions: _,
        openings: _,
        reset: _,
        step: _,
    } = flat;
    let entries = entries_behind(before)?;
    Machine::new(alloc, checked, types, registers, entries)
}
