//! Functions and their measures.
ghost use Rattle.std.specs.Prelude.{◌≡◌, ◌∷◌, ◌++◌, [], IfOk, OnOk};
ghost use Rattle.std.specs.Option.{option_copied};
ghost use Rattle.sail_types.specs.Sums.{and_then};
ghost use Rattle.core_numbers.specs.Numbers.{numbered};
ghost use Rattle.shape_rules.specs.Around.{setting_of};
ghost use Rattle.shape_rules.specs.Calls.{parameters_of as parameters_in};
ghost use Rattle.shape_rules.specs.Findings.{first_failure};
ghost use Rattle.shape_models.specs.Sources.{tabled_by, IsSound};
ghost use Rattle.shape_clauses.specs.Clauses.{clauses_arms, clauses_bodies, clauses_core, clauses_faults};
ghost use Rattle.shape_clauses.specs.Functions.{function_clause as function_clause_of, function_clauses as function_clauses_of};
ghost use Rattle.shape_clauses.specs.Functions.{signed_clauses, measure_clause as measure_clause_of, measure_of, measure_tree};
ghost use Rattle.shape_clauses.specs.Functions.{measure_core, function_with as function_with_of, function_in};
ghost use Rattle.shape_functions.specs.Parts.{measure_written};

use core_numbers::{number_nodes, take_number};
use sail_base::{Items, Place, Text};
use sail_core::{Core, Function};
use sail_signatures::Signature;
use sail_syntax::{Def, Exp, FunctionClause, Pat};
use sail_types::{Shape, Typ, copy_con, shape_of};
use shape_calls::{param_shapes, parameters_of};
use shape_clauses::{Clause, Clauses, read_clause};
use shape_declarations::{
    find_measure, is_declared, number_parameters, signature_numbers, type_names,
};
use shape_models::Source;
use shape_rules::{Around, First};
use std::alloc::{AllocError, Global};
use type_arguments::{copy_typ, copy_types};

/// A clause of a function whose parameters and result have these shapes: a `return` in it gives such a result.
fn function_clause(
    alloc: Global,
    around: &Around<'_>,
    params: &[Shape],
    answer: &Shape,
    clause: &FunctionClause,
    first: &mut First,
) -> Result<Clause, AllocError>
    ensures arm { IfOk result (λ made. made.arm ≡ (function_clause_of (setting_of around.now) params.now answer.now clause.now).arm) }
    ensures body { IfOk result (λ made. made.body ≡ (function_clause_of (setting_of around.now) params.now answer.now clause.now).body) }
    ensures failures { OnOk result (first.new.error ≡ first_failure first.old.error
        (function_clause_of (setting_of around.now) params.now answer.now clause.now).faults) }
{
    let inside = around.returning(answer);
    read_clause(
        alloc,
        &inside,
        clause.place,
        params,
        clause.parameters.as_slice(),
        clause.body.get(),
        &clause.result,
        answer,
        first,
    )
}

/// One more clause of a function, behind others.
fn push_clause(
    alloc: Global,
    around: &Around<'_>,
    params: &[Shape],
    answer: &Shape,
    clause: &FunctionClause,
    clauses: &mut Clauses,
    first: &mut First,
) -> Result<(), AllocError>
    ensures arms { OnOk result (clauses.new.arms
        ≡ clauses.old.arms ++ (function_clause_of (setting_of around.now) params.now answer.now clause.now).arm ∷ []) }
    ensures bodies { OnOk result (clauses.new.bodies
        ≡ clauses.old.bodies ++ (function_clause_of (setting_of around.now) params.now answer.now clause.now).body ∷ []) }
    ensures failures { OnOk result (first.new.error ≡ first_failure first.old.error
        (function_clause_of (setting_of around.now) params.now answer.now clause.now).faults) }
{
    let clause = function_clause(alloc, around, params, answer, clause, first)?;
    clauses.push(clause)
}

/// The clauses of a function whose parameters and result have these shapes.
fn function_clauses(
    alloc: Global,
    around: &Around<'_>,
    params: &[Shape],
    answer: &Shape,
    clauses: &[FunctionClause],
    first: &mut First,
) -> Result<Clauses, AllocError>
    ensures arms { IfOk result (λ made. made.arms
        ≡ clauses_arms (function_clauses_of (setting_of around.now) params.now answer.now clauses.now)) }
    ensures bodies { IfOk result (λ made. made.bodies
        ≡ clauses_bodies (function_clauses_of (setting_of around.now) params.now answer.now clauses.now)) }
    ensures failures { OnOk result (first.new.error ≡ first_failure first.old.error
        (clauses_faults (function_clauses_of (setting_of around.now) params.now answer.now clauses.now))) }
{
    let mut made = Clauses::new(alloc);
    for clause in clauses {
        push_clause(alloc, around, params, answer, clause, &mut made, first)?;
    }
    Ok(made)
}

/// The body of a function with this signature, with numbers from the next one on, and notes the failures of its clauses.
fn function_body(
    alloc: Global,
    around: &Around<'_>,
    place: Place,
    clauses: &[FunctionClause],
    signature: &Signature,
    next: &mut u32,
    first: &mut First,
) -> Result<Core, AllocError>
    ensures body { IfOk result (λ made. made
        ≡ (numbered (clauses_core place (signed_clauses (setting_of around.now) signature.now clauses.now)) next.old).it) }
    ensures next { OnOk result (next.new
        ≡ (numbered (clauses_core place (signed_clauses (setting_of around.now) signature.now clauses.now)) next.old).next) }
    ensures failures { OnOk result (first.new.error ≡ first_failure first.old.error
        (clauses_faults (signed_clauses (setting_of around.now) signature.now clauses.now))) }
{
    let params = param_shapes(alloc, &signature.from)?;
    let answer = shape_of(alloc, &signature.to)?;
    let made = function_clauses(alloc, around, params.as_slice(), &answer, clauses, first)?;
    number_nodes(alloc, made.into_core(place), next)
}

/// A measure over parameters of these shapes, which is a plain integer, and notes its failures. The one error is want of memory.
pub(crate) fn measure_clause(
    alloc: Global,
    around: &Around<'_>,
    place: Place,
    params: &[Shape],
    parameters: &[Pat],
    value: &Exp,
    first: &mut First,
) -> Result<Clause, AllocError>
    ensures arm { IfOk result (λ made. made.arm
        ≡ (measure_clause_of (setting_of around.now) place params.now parameters.now value.now).arm) }
    ensures body { IfOk result (λ made. made.body
        ≡ (measure_clause_of (setting_of around.now) place params.now parameters.now value.now).body) }
    ensures failures { OnOk result (first.new.error ≡ first_failure first.old.error
        (measure_clause_of (setting_of around.now) place params.now parameters.now value.now).faults) }
{
    let inside = around.plainly();
    read_clause(
        alloc,
        &inside,
        place,
        params,
        parameters,
        value,
        &None,
        &Shape::Int,
        first,
    )
}

/// A measure with numbers from the next one on. What fails in it is noted where it stands.
fn numbered_measure(
    alloc: Global,
    around: &Around<'_>,
    place: Place,
    params: &[Shape],
    parameters: &[Pat],
    value: &Exp,
    next: &mut u32,
) -> Result<Core, AllocError>
    ensures made { IfOk result (λ made. made ≡ (numbered (measure_tree (setting_of around.now) params.now
        (record { place = place; parameters = parameters.now; value = value.now })) next.old).it) }
    ensures next { OnOk result (next.new ≡ (numbered (measure_tree (setting_of around.now) params.now
        (record { place = place; parameters = parameters.now; value = value.now })) next.old).next) }
{
    let mut unused = First::none();
    let clause = measure_clause(alloc, around, place, params, parameters, value, &mut unused)?;
    let mut clauses = Clauses::new(alloc);
    clauses.push(clause)?;
    number_nodes(alloc, clauses.into_core(place), next)
}

/// A definition that is a measure, with numbers from the next one on.
fn written_measure(
    alloc: Global,
    around: &Around<'_>,
    definition: Option<&Def>,
    params: &[Shape],
    next: &mut u32,
) -> Result<Option<Core>, AllocError>
    ensures made { IfOk result (λ made. made
        ≡ (measure_core (setting_of around.now) params.now (and_then (option_copied definition.entry) measure_written) next.old).it) }
    ensures next { OnOk result (next.new
        ≡ (measure_core (setting_of around.now) params.now (and_then (option_copied definition.entry) measure_written) next.old).next) }
{
    match definition {
        Some(
            Def::Measure {
                place,
                parameters,
                value,
                ..
            },
        ) => {
            let made = numbered_measure(
                alloc,
                around,
                *place,
                params,
                parameters.as_slice(),
                value.get(),
                next,
            )?;
            Ok(Some(made))
        }
        _ => Ok(None),
    }
}

/// The first measure of a name, where it has one, with numbers from the next one on.
fn own_measure(
    alloc: Global,
    source: &Source<'_>,
    around: &Around<'_>,
    name: &str,
    params: &[Shape],
    next: &mut u32,
) -> Result<Option<Core>, AllocError>
    requires { IsSound source.now }
    ensures made { IfOk result (λ made. made
        ≡ (measure_core (setting_of around.now) params.now (measure_of name.now source.now.definitions.now) next.old).it) }
    ensures next { OnOk result (next.new
        ≡ (measure_core (setting_of around.now) params.now (measure_of name.now source.now.definitions.now) next.old).next) }
{
    written_measure(alloc, around, find_measure(source, name), params, next)
}

/// The types of what takes a value of this type.
fn parameter_types(alloc: Global, typ: &Typ) -> Result<Items<Typ>, AllocError>
    ensures { IfOk result (λ types. types ≡ parameters_in typ.now) }
{
    copy_types(alloc, parameters_of(typ))
}

/// A function with this signature, body and measure, of which the next number is where its arguments come in.
fn function_with(
    alloc: Global,
    source: &Source<'_>,
    place: Place,
    name: &Text,
    clauses: &[FunctionClause],
    signature: &Signature,
    cycle: Option<u32>,
    body: Core,
    measure: Option<Core>,
    next: u32,
) -> Result<Function, AllocError>
    requires { IsSound source.now }
    ensures { IfOk result (λ made. made ≡ function_with_of (tabled_by source.now) source.now.definitions.now place name.now clauses.now
        signature.now cycle body (record { it = measure; next = next })) }
{
    let mut next = next;
    let entry = take_number(&mut next)?;
    let last = take_number(&mut next)?;
    let is_declared = is_declared(source, name.as_str());
    let numbers = signature_numbers(alloc, source, name.as_str(), clauses)?;
    let name = name.clone()?;
    let variables = number_parameters(alloc, signature.variables.as_slice())?;
    let type_variables = type_names(alloc, signature.variables.as_slice())?;
    let parameters = parameter_types(alloc, &signature.from)?;
    let result = copy_typ(alloc, &signature.to)?;
    let constraint = copy_con(alloc, &signature.constraint)?;
    Ok(Function {
        place,
        name,
        variables,
        type_variables,
        constraint,
        parameters,
        result,
        is_declared,
        numbers,
        cycle,
        measure,
        body,
        entry,
        last,
    })
}

/// A function with this signature, which stands where its type variables can be named and lies in this cycle of calls, and notes the
/// failures of its clauses. The one error is want of memory.
pub(crate) fn read_function(
    alloc: Global,
    source: &Source<'_>,
    around: &Around<'_>,
    place: Place,
    name: &Text,
    clauses: &[FunctionClause],
    signature: &Signature,
    cycle: Option<u32>,
    first: &mut First,
) -> Result<Function, AllocError>
    requires { IsSound source.now }
    ensures function { IfOk result (λ made. made ≡ function_in (tabled_by source.now) source.now.definitions.now (setting_of around.now)
        place name.now clauses.now signature.now cycle) }
    ensures failures { OnOk result (first.new.error ≡ first_failure first.old.error
        (clauses_faults (signed_clauses (setting_of around.now) signature.now clauses.now))) }
{
    let mut next = 0;
    let body = function_body(alloc, around, place, clauses, signature, &mut next, first)?;
    let params = param_shapes(alloc, &signature.from)?;
    let measure = own_measure(
        alloc,
        source,
        around,
        name.as_str(),
        params.as_slice(),
        &mut next,
    )?;
    function_with(
        alloc, source, place, name, clauses, signature, cycle, body, measure, next,
    )
}
