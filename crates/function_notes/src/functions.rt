//! Functions and their measures.
ghost use Rattle.std.specs.Prelude.{◌≡◌, Some, IfOk, OnOk};
ghost use Rattle.sail_types.specs.declared.numbers.Con.{out-Con};
ghost use Rattle.value_indices.specs.Walking as walk;
ghost use Rattle.pattern_leaves.specs.Settings.{around_of};
ghost use Rattle.call_arguments.specs.Placing.{is_trivial_form};
ghost use Rattle.function_notes.specs.Functions as spec;

use crate::clauses::walk_clauses;
use call_arguments::Aim;
use call_notes::{made_by_value, note_numbers};
use expression_notes::natural_aim;
use model_state::Register;
use pattern_leaves::{Around, TopLevel};
use sail_base::{Items, Kind};
use sail_core::{Core, Direction, Function};
use sail_types::{Con, Index, Num, Parameter, Typ, Types, copy_con};
use std::alloc::{AllocError, Global};
use type_arguments::{copy_indices, copy_typ};
use value_indices::{Naming, Reading, Walking, open_reading};

/// What a type variable of this kind and number stands for: itself. It fails where memory is wanting.
fn variable_index(alloc: Global, kind: Kind, variable: u32) -> Result<Index, AllocError>
    ensures { IfOk result (λ made. made ≡ spec.variable_index kind variable) }
{
    match kind {
        Kind::Bool => Ok(Index::Truth(Con::Holds(variable))),
        _ => Ok(Index::Number(Num::variable(alloc, variable)?)),
    }
}

/// A type variable, which is the next variable. It fails where memory is wanting, and where variables are too many.
#[tactic(auto, using(value_indices::proofs::Walks::walks))]
fn own_index(alloc: Global, walking: &mut Walking, own: &Parameter) -> Result<Index, AllocError>
    ensures value { IfOk result (λ made. made ≡ walk.got (spec.own_index own.now) (walk.seen walking.old)) }
    ensures walked { OnOk result (walk.seen walking.new ≡ walk.run (spec.own_index own.now) (walk.seen walking.old)) }
{
    let variable = walking.fresh_named(own.name.clone()?)?;
    variable_index(alloc, own.kind, variable)
}

/// The type variables of a definition. It fails where memory is wanting, and where variables are too many.
#[tactic(auto, using(value_indices::proofs::Walks::walks))]
pub fn own_indices(
    alloc: Global,
    walking: &mut Walking,
    variables: &[Parameter],
) -> Result<Items<Index>, AllocError>
    ensures value { IfOk result (λ made. made ≡ walk.got (spec.own_indices variables.now) (walk.seen walking.old)) }
    ensures walked { OnOk result (walk.seen walking.new ≡ walk.run (spec.own_indices variables.now) (walk.seen walking.old)) }
{
    let mut made = Items::new(alloc);
    for own in variables {
        made.push(own_index(alloc, walking, own)?)?;
    }
    Ok(made)
}

/// Whether there is nothing to say.
fn is_trivial(con: &Con) -> bool
    ensures { result ≡ is_trivial_form (out-Con con.now) }
{
    match con {
        Con::Truth(truth) => *truth,
        _ => false,
    }
}

/// A constraint comes into force, as one fact. The one error is want of memory.
#[tactic(auto, using(value_indices::proofs::Walks::walks))]
pub fn constrain(alloc: Global, walking: &mut Walking, con: &Con) -> Result<(), AllocError>
    ensures { OnOk result (walk.seen walking.new ≡ walk.run (spec.constrained con.now) (walk.seen walking.old)) }
{
    if is_trivial(con) {
        return Ok(());
    }
    walking.assume(copy_con(alloc, con)?)
}

/// A type under what its variables stand for. It fails where memory is wanting.
pub fn reading_of(alloc: Global, typ: &Typ, numbers: &[Index]) -> Result<Reading, AllocError>
    ensures { IfOk result (λ made. made ≡ spec.reading_under typ.now numbers.now) }
{
    let typ = copy_typ(alloc, typ)?;
    Ok(Reading::Of(typ, copy_indices(alloc, numbers)?, Items::new(alloc)))
}

/// What is known inside a function of a model, whose type variables stand for these, and whose result is of this type.
pub fn inside<'a>(
    types: &'a Types,
    exception: Option<u32>,
    registers: &'a [Register],
    functions: &'a [Function],
    directions: &'a [Direction],
    lets: &'a [TopLevel],
    numbers: &'a [Index],
    answer: &'a Reading,
) -> Around<'a>
    ensures { around_of result ≡ record {
      types = types.now;
      exception = exception;
      registers = registers.now;
      functions = functions.now;
      directions = directions.now;
      lets = lets.now;
      numbers = numbers.now;
      answer = Some answer.now;
    } }
{
    Around {
        types,
        exception,
        registers,
        functions,
        directions,
        lets,
        numbers,
        answer: Some(answer),
    }
}

/// What the clauses of a function give comes to the type of its result, as the node of the last of its numbers makes it, which is noted. It
/// fails where memory is wanting, and where variables are too many.
#[tactic(auto, using(value_indices::proofs::Walks::walks))]
pub fn make_last(
    alloc: Global,
    walking: &mut Walking,
    number: u32,
    reading: &Reading,
) -> Result<(), AllocError>
    ensures { OnOk result (walk.seen walking.new ≡ walk.run (spec.last_made number reading.now) (walk.seen walking.old)) }
{
    let value = open_reading(alloc, walking, reading, false, &Naming::Unnamed)?;
    made_by_value(alloc, walking, number, std::slice::from_ref(&value), &value)?;
    note_numbers(alloc, walking, number, &value)
}

/// A function. The one error is want of memory, also of numbers for variables.
#[tactic(auto, using(value_indices::proofs::Walks::walks))]
pub fn walk_function(
    alloc: Global,
    walking: &mut Walking,
    around: &Around<'_>,
    function: &Function,
) -> Result<(), AllocError>
    ensures { OnOk result (walk.seen walking.new ≡ walk.run (spec.function_walk (around_of around.now) function.now) (walk.seen walking.old)) }
{
    let numbers = own_indices(alloc, walking, function.variables.as_slice())?;
    constrain(alloc, walking, &function.constraint)?;
    let answer = reading_of(alloc, &function.result, numbers.as_slice())?;
    let inner = inside(
        around.types,
        around.exception,
        around.registers,
        around.functions,
        around.directions,
        around.lets,
        numbers.as_slice(),
        &answer,
    );
    let aim = Aim::due(reading_of(alloc, &function.result, numbers.as_slice())?);
    walk_clauses(
        alloc,
        walking,
        &inner,
        function.parameters.as_slice(),
        function.numbers.as_slice(),
        &aim,
        function.is_declared,
        &function.body,
    )?;
    make_last(alloc, walking, function.last, &answer)
}

/// A function's measure. The one error is want of memory, also of numbers for variables.
#[tactic(auto, using(value_indices::proofs::Walks::walks))]
pub fn walk_measure(
    alloc: Global,
    walking: &mut Walking,
    around: &Around<'_>,
    function: &Function,
    measure: &Core,
) -> Result<(), AllocError>
    ensures { OnOk result (walk.seen walking.new ≡ walk.run (spec.measure_walk (around_of around.now) function.now measure.now)
        (walk.seen walking.old)) }
{
    let numbers = own_indices(alloc, walking, function.variables.as_slice())?;
    constrain(alloc, walking, &function.constraint)?;
    let answer = reading_of(alloc, &function.result, numbers.as_slice())?;
    let inner = inside(
        around.types,
        around.exception,
        around.registers,
        around.functions,
        around.directions,
        around.lets,
        numbers.as_slice(),
        &answer,
    );
    let aim = natural_aim(alloc);
    walk_clauses(
        alloc,
        walking,
        &inner,
        function.parameters.as_slice(),
        &[],
        &aim,
        true,
        measure,
    )
}
