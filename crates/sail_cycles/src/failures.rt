ghost use Rattle.std.specs.Prelude.{◌≡◌, List, OnOk};
ghost use Rattle.sail_syntax.specs.declared.definitions.Def.{Def as ADef};
ghost use Rattle.sail_kinds.specs.Failures.{first_failure};
ghost use Rattle.sail_names.specs.Known.{known_of};
ghost use Rattle.sail_signatures.specs.Parts.{AreOf};
ghost use Rattle.sail_cycles.specs.Cycles.{is_cyclic_at, reaches_itself, cycle_failures, all_cycle_failures};

use crate::graphs::number_of;
use call_graph::Cycles;
use sail_kinds::{First, TableError};
use sail_names::Names;
use sail_signatures::Callables;
use sail_syntax::Def;
use std::alloc::AllocError;

fn is_cyclic(cycles: &Cycles, number: Option<usize>) -> bool
    ensures { result ≡ reaches_itself (is_cyclic_at cycles.now) number }
{
    match number {
        None => false,
        Some(number) => number < cycles.node_count() && cycles.cycle_of(number).is_some(),
    }
}

/// Notes that a definition reaches itself that may not.
fn note_cycle(
    callables: &Callables<'_>,
    names: &Names,
    calls: &Cycles,
    patterns: &Cycles,
    definition: &Def,
    first: &mut First,
) -> Result<(), AllocError>
    ensures { OnOk result ((text : List ADef) → AreOf text callables.now → first.new.error ≡ first_failure first.old.error
        (cycle_failures text (known_of names.now) (is_cyclic_at calls.now) (is_cyclic_at patterns.now) definition.now)) }
{
    match definition {
        Def::Function { place, name, .. } => {
            let number = number_of(names, name.text.as_str());
            let measure = callables.parts(name.text.as_str()).measure;
            if is_cyclic(calls, number) && measure.is_none() {
                let name = name.text.clone()?;
                first.note(TableError::MeasureMissing {
                    place: *place,
                    name,
                });
            }
        }
        Def::Mapping { place, name, .. } => {
            let number = number_of(names, name.text.as_str());
            if is_cyclic(patterns, number) {
                let name = name.text.clone()?;
                first.note(TableError::MappingCycle {
                    place: *place,
                    name,
                });
            }
        }
        _ => {}
    }
    Ok(())
}

/// Notes each function of a text that lies in a cycle of calls and has no measure, and each mapping that reaches itself through
/// patterns. The one error is want of memory.
pub fn note_cycles(
    definitions: &[Def],
    callables: &Callables<'_>,
    names: &Names,
    calls: &Cycles,
    patterns: &Cycles,
    first: &mut First,
) -> Result<(), AllocError>
    requires { AreOf definitions.now callables.now }
    ensures { OnOk result (first.new.error ≡ first_failure first.old.error
        (all_cycle_failures definitions.now (known_of names.now) (is_cyclic_at calls.now) (is_cyclic_at patterns.now) definitions.now)) }
{
    for definition in definitions {
        note_cycle(callables, names, calls, patterns, definition, first)?;
    }
    Ok(())
}
