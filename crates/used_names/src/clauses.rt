ghost use Rattle.std.specs.Prelude.{◌≡◌, ◌++◌, [], OnOk};
ghost use Rattle.sail_syntax.specs.Bound.{names};
ghost use Rattle.sail_names.specs.Known.{known_of, setting_of};
ghost use Rattle.sail_names.specs.Locals.{behind};
ghost use Rattle.sail_names.specs.Patterns.{binds};
ghost use Rattle.sail_names.specs.Clauses as spec;

use crate::expressions::{push_expression, push_maybe};
use sail_base::Items;
use sail_kinds::TableError;
use sail_names::{Around, Locals, enter_parameters, enter_pattern, push_annotation, push_unless};
use sail_syntax::{FunctionClause, MappingClause, Pat, Side, names_of};
use std::alloc::{AllocError, Global};

/// Adds the failures of a clause of a function. The one error is want of memory.
pub fn push_function_clause(
    alloc: Global,
    clause: &FunctionClause,
    around: Around,
    failures: &mut Items<TableError>,
) -> Result<(), AllocError>
    ensures { OnOk result (failures.new ≡ failures.old ++ spec.function_clause_failures (setting_of around.entry) clause.now) }
{
    let mut locals = Locals::new(alloc);
    enter_parameters(
        alloc,
        clause.parameters.as_slice(),
        around,
        &mut locals,
        failures,
    )?;
    push_annotation(alloc, &clause.result, around, failures)?;
    push_expression(alloc, clause.body.get(), around, &mut locals, failures)
}

/// Adds the failures of a clause of a mapping. The one error is want of memory.
pub fn push_mapping_clause(
    alloc: Global,
    clause: &MappingClause,
    around: Around,
    failures: &mut Items<TableError>,
) -> Result<(), AllocError>
    ensures { OnOk result (failures.new ≡ failures.old ++ spec.mapping_clause_failures (setting_of around.entry) clause.now) }
{
    let mut forwards = Locals::new(alloc);
    push_side(alloc, &clause.left, around, &mut forwards, failures)?;
    push_values(alloc, &clause.right.pattern, around, &forwards, failures)?;
    let mut backwards = Locals::new(alloc);
    push_side(alloc, &clause.right, around, &mut backwards, failures)?;
    push_values(alloc, &clause.left.pattern, around, &backwards, failures)
}

/// Adds the failures of a side as it is matched, where no name is in scope before it.
fn push_side<'a>(
    alloc: Global,
    side: &'a Side,
    around: Around,
    locals: &mut Locals<'a>,
    failures: &mut Items<TableError>,
) -> Result<(), AllocError>
    requires { locals.old ≡ [] }
    ensures failures { OnOk result (failures.new ≡ failures.old ++ spec.side_failures (setting_of around.entry) side.now) }
    ensures locals { OnOk result (locals.new ≡ behind (binds (known_of around.entry.names.now) side.now.pattern) []) }
{
    enter_pattern(alloc, &side.pattern, around, locals, failures)?;
    push_maybe(alloc, &side.guard, around, locals, failures)
}

/// Adds the names of a side that are no values where these local names are in scope.
fn push_values(
    alloc: Global,
    pattern: &Pat,
    around: Around,
    locals: &Locals,
    failures: &mut Items<TableError>,
) -> Result<(), AllocError>
    ensures { OnOk result (failures.new ≡ failures.old ++ spec.values_failures (setting_of around.entry) locals.now (names pattern.now)) }
{
    let read = names_of(alloc, pattern)?;
    for name in read.as_slice() {
        push_unless(around.is_value(locals, name.text.as_str()), name, failures)?;
    }
    Ok(())
}
