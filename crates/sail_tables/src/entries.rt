ghost use Rattle.std.specs.Prelude.{◌≡◌, ℕ, List, codes, bytes_eq, IfOk, OnOk, ◌&&◌};
ghost use Rattle.sail_syntax.specs.declared.definitions.Def.{Def as ADef};
ghost use Rattle.sail_globals.specs.Globals.{AreOf};
ghost use Rattle.sail_globals.specs.Namings.{all_namings};
ghost use Rattle.sail_kinds.specs.Failures.{first_failure};
ghost use Rattle.sail_signatures.specs.Starts.{is_reset as is_reset_signature, is_step as is_step_signature};
ghost use Rattle.sail_tables.specs.Refused.{signature_in, entry_failure, entry_failures};
ghost use Rattle.sail_tables.specs.Tabled.{signature_at};

use crate::signatures::held_signature;
use sail_base::{Place, Text};
use sail_globals::Globals;
use sail_kinds::{First, TableError};
use sail_signatures::{Signature, is_reset, is_step};
use std::alloc::{AllocError, Global};
use std::collections::HashMap;

/// Whether `reset` has its signature.
fn starts_so(signatures: &HashMap<&str, Option<Signature>>) -> bool
    ensures { result ≡ is_reset_signature (signature_at signatures.now (codes "reset")) }
{
    match held_signature(signatures, "reset") {
        Some(signature) => is_reset(signature),
        None => false,
    }
}

/// Whether `step` has its signature.
fn steps_so(signatures: &HashMap<&str, Option<Signature>>) -> bool
    ensures { result ≡ is_step_signature (signature_at signatures.now (codes "step")) }
{
    match held_signature(signatures, "step") {
        Some(signature) => is_step(signature),
        None => false,
    }
}

/// Notes that a function isn't there with its signature.
fn note_entry(
    alloc: Global,
    has_body: bool,
    has_signature: bool,
    end: Place,
    name: &str,
    first: &mut First,
) -> Result<(), AllocError>
    ensures { OnOk result (first.new.error ≡ first_failure first.old.error (entry_failure (has_body && has_signature) end name.now)) }
{
    if has_body && has_signature {
        return Ok(());
    }
    let name = Text::new(alloc, name)?;
    first.note(TableError::EntryMissing { place: end, name });
    Ok(())
}

/// Notes at the end of the last file that `reset` or `step` isn't there with its signature. The one error is want of memory.
pub(crate) fn note_entries(
    alloc: Global,
    globals: &Globals,
    signatures: &HashMap<&str, Option<Signature>>,
    end: Place,
    first: &mut First,
) -> Result<(), AllocError>
    ensures { OnOk result ((text : List ADef) → AreOf (all_namings text) globals.now
        → ((name : List ℕ) → signature_at signatures.now name ≡ signature_in text name)
        → first.new.error ≡ first_failure first.old.error (entry_failures text end)) }
{
    let has_reset = globals.has_function_body("reset");
    let starts = starts_so(signatures);
    note_entry(alloc, has_reset, starts, end, "reset", first)?;
    let has_step = globals.has_function_body("step");
    let steps = steps_so(signatures);
    note_entry(alloc, has_step, steps, end, "step", first)?;
    Ok(())
}
