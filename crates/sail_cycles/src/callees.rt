ghost use Rattle.std.specs.Prelude.{◌≡◌, ◌++◌, OnOk, flat_map};
ghost use Rattle.sail_names.specs.Known.{known_of};
ghost use Rattle.sail_cycles.specs.Cycles.{clause_callees, side_callees, mapping_clause_callees, callees};

use crate::expressions::{Which, push_callees_of, push_pattern_callees};
use sail_base::Items;
use sail_names::Names;
use sail_syntax::{Def, FunctionClause, MappingClause, Side};
use std::alloc::AllocError;

fn push_clause(
    clause: &FunctionClause,
    names: &Names,
    which: Which,
    list: &mut Items<usize>,
) -> Result<(), AllocError>
    ensures { OnOk result (list.new ≡ list.old ++ clause_callees which (known_of names.now) clause.now) }
{
    for parameter in clause.parameters.as_slice() {
        push_pattern_callees(parameter, names, list)?;
    }
    push_callees_of(clause.body.get(), names, which, list)
}

fn push_clauses(
    clauses: &[FunctionClause],
    names: &Names,
    which: Which,
    list: &mut Items<usize>,
) -> Result<(), AllocError>
    ensures { OnOk result (list.new ≡ list.old ++ flat_map (clause_callees which (known_of names.now)) clauses.now) }
{
    for clause in clauses {
        push_clause(clause, names, which, list)?;
    }
    Ok(())
}

fn push_side(
    side: &Side,
    names: &Names,
    which: Which,
    list: &mut Items<usize>,
) -> Result<(), AllocError>
    ensures { OnOk result (list.new ≡ list.old ++ side_callees which (known_of names.now) side.now) }
{
    push_pattern_callees(&side.pattern, names, list)?;
    match &side.guard {
        None => Ok(()),
        Some(guard) => push_callees_of(guard.get(), names, which, list),
    }
}

fn push_mapping_clause(
    clause: &MappingClause,
    names: &Names,
    which: Which,
    list: &mut Items<usize>,
) -> Result<(), AllocError>
    ensures { OnOk result (list.new ≡ list.old ++ mapping_clause_callees which (known_of names.now) clause.now) }
{
    push_side(&clause.left, names, which, list)?;
    push_side(&clause.right, names, which, list)
}

fn push_mapping_clauses(
    clauses: &[MappingClause],
    names: &Names,
    which: Which,
    list: &mut Items<usize>,
) -> Result<(), AllocError>
    ensures { OnOk result (list.new ≡ list.old ++ flat_map (mapping_clause_callees which (known_of names.now)) clauses.now) }
{
    for clause in clauses {
        push_mapping_clause(clause, names, which, list)?;
    }
    Ok(())
}

/// Puts the numbers of what the body of a definition can enter at the end of a list. The one error is want of memory.
pub(crate) fn push_callees(
    definition: &Def,
    names: &Names,
    which: Which,
    list: &mut Items<usize>,
) -> Result<(), AllocError>
    ensures { OnOk result (list.new ≡ list.old ++ callees which (known_of names.now) definition.now) }
{
    match (which, definition) {
        (Which::CallsAndPatterns, Def::Function { clauses, .. }) => push_clauses(
            clauses.as_slice(),
            names,
            which,
            list,
        ),
        (_, Def::Mapping { clauses, .. }) => push_mapping_clauses(
            clauses.as_slice(),
            names,
            which,
            list,
        ),
        _ => Ok(()),
    }
}
