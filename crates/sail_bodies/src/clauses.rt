ghost use Rattle.std.specs.Prelude.{◌≡◌, ◌++◌, OnOk, [], option_map};
ghost use Rattle.sail_kinds.specs.Failures.{first_failure};
ghost use Rattle.sail_names.specs.Known.{setting_of};
ghost use Rattle.sail_names.specs.Uses.{maybe, expression_failures};
ghost use Rattle.sail_bodies.specs.Bodies.{clauses_failures, measure_failures, sides_failures, mapping_failures, let_failures};

use sail_base::{Boxed, Items};
use sail_kinds::First;
use sail_names::{Around, Locals, enter_parameters, enter_pattern, note_all};
use sail_signatures::read_typ;
use sail_syntax::{Exp, FunctionClause, MappingClause, Pat, Sides};
use std::alloc::{AllocError, Global};
use used_names::{push_expression, push_function_clause, push_mapping_clause};

/// Notes the failures of the clauses of a function.
pub(crate) fn note_clauses(
    alloc: Global,
    clauses: &[FunctionClause],
    around: Around,
    first: &mut First,
) -> Result<(), AllocError>
    ensures { OnOk result (first.new.error ≡ first_failure first.old.error (clauses_failures (setting_of around.entry) clauses.now)) }
{
    let mut failures = Items::new(alloc);
    for clause in clauses {
        push_function_clause(alloc, clause, around, &mut failures)?;
    }
    note_all(failures, first);
    Ok(())
}

/// Notes the failures of a function's measure.
pub(crate) fn note_measure(
    alloc: Global,
    parameters: &[Pat],
    value: &Exp,
    around: Around,
    first: &mut First,
) -> Result<(), AllocError>
    ensures { OnOk result (first.new.error ≡ first_failure first.old.error (measure_failures (setting_of around.entry) parameters.now value.now)) }
{
    let mut locals = Locals::new(alloc);
    let mut failures = Items::new(alloc);
    enter_parameters(alloc, parameters, around, &mut locals, &mut failures)?;
    push_expression(alloc, value, around, &mut locals, &mut failures)?;
    note_all(failures, first);
    Ok(())
}

/// Notes the failures of the types of a mapping's sides, where it has them.
#[tactic(auto, using(sail_kinds::proofs::Firsts::first_failure_append))]
pub(crate) fn note_sides(
    alloc: Global,
    sides: &Option<Sides>,
    around: Around,
    first: &mut First,
) -> Result<(), AllocError>
    ensures { OnOk result (first.new.error ≡ first_failure first.old.error (sides_failures (setting_of around.entry) sides.now)) }
{
    if let Some(sides) = sides {
        read_typ(alloc, &sides.left, &around.scope, first)?;
        read_typ(alloc, &sides.right, &around.scope, first)?;
    }
    Ok(())
}

/// Notes the failures of the clauses of a mapping.
pub(crate) fn note_mapping_clauses(
    alloc: Global,
    clauses: &[MappingClause],
    around: Around,
    first: &mut First,
) -> Result<(), AllocError>
    ensures { OnOk result (first.new.error ≡ first_failure first.old.error (mapping_failures (setting_of around.entry) clauses.now)) }
{
    let mut failures = Items::new(alloc);
    for clause in clauses {
        push_mapping_clause(alloc, clause, around, &mut failures)?;
    }
    note_all(failures, first);
    Ok(())
}

/// Notes the failures of a top-level `let`.
pub(crate) fn note_let(
    alloc: Global,
    pattern: &Pat,
    value: &Exp,
    around: Around,
    first: &mut First,
) -> Result<(), AllocError>
    ensures { OnOk result (first.new.error ≡ first_failure first.old.error (let_failures (setting_of around.entry) pattern.now value.now)) }
{
    let mut bound = Locals::new(alloc);
    let mut locals = Locals::new(alloc);
    let mut failures = Items::new(alloc);
    enter_pattern(alloc, pattern, around, &mut bound, &mut failures)?;
    push_expression(alloc, value, around, &mut locals, &mut failures)?;
    note_all(failures, first);
    Ok(())
}

/// Notes the failures of the initial value of a register.
pub(crate) fn note_initial(
    alloc: Global,
    initial: &Option<Boxed<Exp>>,
    around: Around,
    first: &mut First,
) -> Result<(), AllocError>
    ensures { OnOk result (first.new.error ≡ first_failure first.old.error (maybe (option_map expression_failures initial.now) (setting_of around.entry) [])) }
{
    if let Some(initial) = initial {
        let mut locals = Locals::new(alloc);
        let mut failures = Items::new(alloc);
        push_expression(alloc, initial.get(), around, &mut locals, &mut failures)?;
        note_all(failures, first);
    }
    Ok(())
}
