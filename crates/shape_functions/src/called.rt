//! Functions and measures of a whole model.
ghost use Rattle.std.specs.Prelude.{◌≡◌, [], ◌∷◌, ◌++◌, List, map, IfOk, OnOk};
ghost use Rattle.sail_base.specs.declared.place.Place.{Place as APlace};
ghost use Rattle.sail_syntax.specs.declared.definitions.Def.{Def as ADef};
ghost use Rattle.sail_tables.specs.Tabled.{AreTables};
ghost use Rattle.shape_rules.specs.declared.locals.Local.{Local as ALocal};
ghost use Rattle.shape_rules.specs.Calls.{param_shapes as shapes_of_params};
ghost use Rattle.shape_rules.specs.Findings.{first_failure};
ghost use Rattle.shape_rules.specs.Written.{joined};
ghost use Rattle.shape_models.specs.Models.{Own, setting_of as setting_under};
ghost use Rattle.shape_models.specs.Sources.{tabled_by, IsSound, AreMeanings};
ghost use Rattle.shape_clauses.specs.Clauses.{clauses_faults};
ghost use Rattle.shape_clauses.specs.Functions.{signed_clauses, measure_clause as measure_clause_of, called_faults, measure_faults, function_faults};
ghost use Rattle.shape_clauses.specs.Functions.{functions_of, functions_if, function_in, cycle_in};
ghost use Rattle.shape_functions.specs.Parts.{held_setting};

use crate::functions::{measure_clause, read_function};
use crate::places::held_around;
use sail_base::{Items, Place, Text};
use sail_core::Function;
use sail_kinds::Binders;
use sail_signatures::Signature;
use sail_syntax::{Def, Exp, FunctionClause, Pat};
use sail_tables::Tables;
use shape_calls::param_shapes;
use shape_models::Source;
use shape_rules::{First, Meanings};
use std::alloc::{AllocError, Global};

/// A number of a cycle; it fails where that would not fit, which is long after memory ends.
fn small(cycle: Option<usize>) -> Result<Option<u32>, AllocError>
    ensures { IfOk result (λ made. made ≡ cycle) }
{
    match cycle {
        None => Ok(None),
        Some(cycle) => match u32::try_from(cycle) {
            Ok(cycle) => Ok(Some(cycle)),
            Err(_) => Err(AllocError),
        },
    }
}

/// The cycle of calls that a function is in.
fn cycle_of(tables: &Tables<'_>, name: &str) -> Result<Option<u32>, AllocError>
    ensures { IfOk result (λ cycle. (text : List ADef) (end : APlace) → AreTables text end tables.now
        → cycle ≡ cycle_in tables.now text name.now) }
{
    small(tables.cycle(name))
}

/// A function with a signature, behind others, and notes the failures of its clauses.
fn push_signed<'x>(
    alloc: Global,
    source: &Source<'x>,
    meanings: &'x Meanings,
    place: Place,
    name: &Text,
    clauses: &[FunctionClause],
    signature: &Signature,
    cycle: Option<u32>,
    functions: &mut Items<Function>,
    first: &mut First,
) -> Result<(), AllocError>
    requires { IsSound source.now }
    ensures functions { OnOk result (functions.new ≡ functions.old ++ function_in (tabled_by source.now) source.now.definitions.now
        (held_setting source.now meanings.now signature.now.variables) place name.now clauses.now signature.now cycle ∷ []) }
    ensures failures { OnOk result (first.new.error ≡ first_failure first.old.error (clauses_faults (signed_clauses
        (held_setting source.now meanings.now signature.now.variables) signature.now clauses.now))) }
{
    let binders = Binders::Parameters(signature.variables.as_slice());
    let inside = held_around(*source, meanings, &binders);
    let function = read_function(
        alloc, source, &inside, place, name, clauses, signature, cycle, first,
    )?;
    functions.push(function)
}

/// Likewise where a function may have a signature.
fn push_function<'x>(
    alloc: Global,
    source: &Source<'x>,
    meanings: &'x Meanings,
    place: Place,
    name: &Text,
    clauses: &[FunctionClause],
    signature: &Option<Signature>,
    cycle: Option<u32>,
    functions: &mut Items<Function>,
    first: &mut First,
) -> Result<(), AllocError>
    requires { IsSound source.now }
    ensures functions { OnOk result (functions.new ≡ functions.old ++ functions_if (tabled_by source.now) source.now.definitions.now
        (held_setting source.now meanings.now) place name.now clauses.now signature.now cycle) }
    ensures failures { OnOk result (first.new.error ≡ first_failure first.old.error (function_faults
        (held_setting source.now meanings.now) signature.now clauses.now)) }
{
    match signature {
        None => Ok(()),
        Some(signature) => push_signed(
            alloc, source, meanings, place, name, clauses, signature, cycle, functions, first,
        ),
    }
}

/// A function of this name, where it has a signature, in the cycle of calls that it is in by these tables.
fn push_named<'x>(
    alloc: Global,
    source: &Source<'x>,
    tables: &Tables<'_>,
    meanings: &'x Meanings,
    place: Place,
    name: &Text,
    clauses: &[FunctionClause],
    functions: &mut Items<Function>,
    first: &mut First,
) -> Result<(), AllocError>
    requires { IsSound source.now }
    ensures functions { OnOk result ((text : List ADef) (end : APlace) → AreTables text end tables.now
        → functions.new ≡ functions.old ++ functions_if (tabled_by source.now) source.now.definitions.now
        (held_setting source.now meanings.now) place name.now clauses.now ((tabled_by source.now).signature name.now)
        (cycle_in tables.now text name.now)) }
    ensures failures { OnOk result (first.new.error ≡ first_failure first.old.error (function_faults
        (held_setting source.now meanings.now) ((tabled_by source.now).signature name.now) clauses.now)) }
{
    let text = name.as_str();
    let signature = source.signature(alloc, text)?;
    let cycle = cycle_of(tables, text)?;
    push_function(
        alloc, source, meanings, place, name, clauses, &signature, cycle, functions, first,
    )
}

/// Notes the failures of a measure whose function has a signature.
fn note_signed<'x>(
    alloc: Global,
    source: &Source<'x>,
    meanings: &'x Meanings,
    signature: &Signature,
    place: Place,
    parameters: &[Pat],
    value: &Exp,
    first: &mut First,
) -> Result<(), AllocError>
    requires { IsSound source.now }
    ensures { OnOk result (first.new.error ≡ first_failure first.old.error (measure_clause_of
        (held_setting source.now meanings.now signature.now.variables) place (shapes_of_params signature.now.from) parameters.now
        value.now).faults) }
{
    let binders = Binders::Parameters(signature.variables.as_slice());
    let inside = held_around(*source, meanings, &binders);
    let params = param_shapes(alloc, &signature.from)?;
    measure_clause(
        alloc,
        &inside,
        place,
        params.as_slice(),
        parameters,
        value,
        first,
    )?;
    Ok(())
}

/// Likewise where a function may have a signature.
fn note_measure<'x>(
    alloc: Global,
    source: &Source<'x>,
    meanings: &'x Meanings,
    signature: &Option<Signature>,
    place: Place,
    parameters: &[Pat],
    value: &Exp,
    first: &mut First,
) -> Result<(), AllocError>
    requires { IsSound source.now }
    ensures { OnOk result (first.new.error ≡ first_failure first.old.error (measure_faults
        (held_setting source.now meanings.now) signature.now place parameters.now value.now)) }
{
    match signature {
        None => Ok(()),
        Some(signature) => note_signed(
            alloc, source, meanings, signature, place, parameters, value, first,
        ),
    }
}

/// Notes the failures of a measure of this name, where its function has a signature.
fn note_named<'x>(
    alloc: Global,
    source: &Source<'x>,
    meanings: &'x Meanings,
    name: &Text,
    place: Place,
    parameters: &[Pat],
    value: &Exp,
    first: &mut First,
) -> Result<(), AllocError>
    requires { IsSound source.now }
    ensures { OnOk result (first.new.error ≡ first_failure first.old.error (measure_faults
        (held_setting source.now meanings.now) ((tabled_by source.now).signature name.now) place parameters.now value.now)) }
{
    let signature = source.signature(alloc, name.as_str())?;
    note_measure(
        alloc, source, meanings, &signature, place, parameters, value, first,
    )
}

/// A function behind others, or a measure, and notes its failures.
fn push_called<'x>(
    alloc: Global,
    source: &Source<'x>,
    tables: &Tables<'_>,
    meanings: &'x Meanings,
    definition: &Def,
    functions: &mut Items<Function>,
    first: &mut First,
) -> Result<(), AllocError>
    requires { IsSound source.now }
    ensures functions { OnOk result ((text : List ADef) (end : APlace) → AreTables text end tables.now
        → functions.new ≡ functions.old ++ functions_of (tabled_by source.now) source.now.definitions.now
        (held_setting source.now meanings.now) (cycle_in tables.now text) definition.now) }
    ensures failures { OnOk result (first.new.error ≡ first_failure first.old.error (called_faults (tabled_by source.now)
        (held_setting source.now meanings.now) definition.now)) }
{
    match definition {
        Def::Function {
            place,
            name,
            clauses,
            ..
        } => push_named(
            alloc,
            source,
            tables,
            meanings,
            *place,
            &name.text,
            clauses.as_slice(),
            functions,
            first,
        ),
        Def::Measure {
            place,
            name,
            parameters,
            value,
        } => note_named(
            alloc,
            source,
            meanings,
            &name.text,
            *place,
            parameters.as_slice(),
            value.get(),
            first,
        ),
        _ => Ok(()),
    }
}

/// The functions among all definitions, and notes the failures of functions and measures.
fn push_each<'x>(
    alloc: Global,
    source: &Source<'x>,
    tables: &Tables<'_>,
    meanings: &'x Meanings,
    functions: &mut Items<Function>,
    first: &mut First,
) -> Result<(), AllocError>
    requires { IsSound source.now }
    ensures functions { OnOk result ((text : List ADef) (end : APlace) → AreTables text end tables.now
        → functions.new ≡ functions.old ++ joined (map (functions_of (tabled_by source.now) source.now.definitions.now
        (held_setting source.now meanings.now) (cycle_in tables.now text)) source.now.definitions.now)) }
    ensures failures { OnOk result (first.new.error ≡ first_failure first.old.error (joined (map (called_faults (tabled_by source.now)
        (held_setting source.now meanings.now)) source.now.definitions.now))) }
{
    let definitions = source.definitions;
    for definition in definitions {
        push_called(
            alloc, source, tables, meanings, definition, functions, first,
        )?;
    }
    Ok(())
}

/// The functions of a model, in text order, each with its measure and with the cycle of calls that it is in by these tables, and notes the
/// failures of functions and measures. The one error is want of memory.
pub fn read_called<'x>(
    alloc: Global,
    source: &Source<'x>,
    tables: &Tables<'_>,
    meanings: &'x Meanings,
    first: &mut First,
) -> Result<Items<Function>, AllocError>
    requires { IsSound source.now }
    ensures functions { IfOk result (λ made. (own : Own) (lets : List ALocal) (text : List ADef) (end : APlace)
        → AreMeanings (tabled_by source.now) own source.now.definitions.now lets meanings.now → AreTables text end tables.now
        → made ≡ joined (map (functions_of (tabled_by source.now) source.now.definitions.now
        (setting_under (tabled_by source.now) own source.now.definitions.now lets) (cycle_in tables.now text)) source.now.definitions.now)) }
    ensures failures { OnOk result ((own : Own) (lets : List ALocal)
        → AreMeanings (tabled_by source.now) own source.now.definitions.now lets meanings.now
        → first.new.error ≡ first_failure first.old.error (joined (map (called_faults (tabled_by source.now)
        (setting_under (tabled_by source.now) own source.now.definitions.now lets)) source.now.definitions.now))) }
{
    let mut functions = Items::new(alloc);
    push_each(alloc, source, tables, meanings, &mut functions, first)?;
    Ok(functions)
}
