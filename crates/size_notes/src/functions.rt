//! Functions and their measures.
ghost use Rattle.std.specs.Prelude.{◌≡◌, ◌++◌, IfOk, OnOk, map};
ghost use Rattle.value_indices.specs.Walking as walk;
ghost use Rattle.pattern_leaves.specs.Settings.{around_of};
ghost use Rattle.size_splits.specs.Bodies.{body_read};
ghost use Rattle.size_notes.specs.Bodies as spec;
ghost use Rattle.size_notes.specs.Reading.{IsAtRest};

use crate::clauses::{read_clauses, read_last};
use crate::steps::ended_body;
use call_arguments::Aim;
use constraint_gen::{inside, natural_aim, own_indices, reading_of};
use pattern_leaves::Around;
use sail_base::Items;
use sail_core::{Core, Function};
use sail_types::Index;
use size_splits::BodySteps;
use std::alloc::{AllocError, Global};
use value_indices::Walking;

/// What is read of a function's body, where its variables stand for these. It fails where memory is wanting, and where variables are too
/// many.
fn read_declared(
    alloc: Global,
    body: &mut Walking,
    around: &Around<'_>,
    function: &Function,
    numbers: &[Index],
) -> Result<(), AllocError>
    requires { IsAtRest (walk.seen body.old) }
    ensures { OnOk result (walk.seen body.new ≡ walk.run (spec.declared_read (around_of around.now) function.now numbers.now) (walk.seen body.old)) }
{
    let answer = reading_of(alloc, &function.result, numbers)?;
    let inner = inside(
        around.types,
        around.exception,
        around.registers,
        around.functions,
        around.directions,
        around.lets,
        numbers,
        &answer,
    );
    let aim = Aim::due(reading_of(alloc, &function.result, numbers)?);
    read_clauses(
        alloc,
        body,
        &inner,
        &function.constraint,
        function.parameters.as_slice(),
        &aim,
        function.is_declared,
        &function.body,
    )?;
    read_last(
        alloc,
        body,
        &function.constraint,
        function.place,
        function.last,
        &answer,
    )
}

/// What is read of a function's measure, where its variables stand for these. It fails where memory is wanting, and where variables are
/// too many.
fn read_measured(
    alloc: Global,
    body: &mut Walking,
    around: &Around<'_>,
    function: &Function,
    measure: &Core,
    numbers: &[Index],
) -> Result<(), AllocError>
    requires { IsAtRest (walk.seen body.old) }
    ensures { OnOk result (walk.seen body.new ≡ walk.run (spec.measured_read (around_of around.now) function.now measure.now numbers.now)
        (walk.seen body.old)) }
{
    let answer = reading_of(alloc, &function.result, numbers)?;
    let inner = inside(
        around.types,
        around.exception,
        around.registers,
        around.functions,
        around.directions,
        around.lets,
        numbers,
        &answer,
    );
    let aim = natural_aim(alloc);
    read_clauses(
        alloc,
        body,
        &inner,
        &function.constraint,
        function.parameters.as_slice(),
        &aim,
        true,
        measure,
    )
}

/// What is read of a function. It fails where memory is wanting, and where variables are too many.
fn read_function(
    alloc: Global,
    around: &Around<'_>,
    function: &Function,
) -> Result<BodySteps, AllocError>
    ensures { IfOk result (λ body. body_read body ≡ spec.body_of (spec.function_read (around_of around.now) function.now)) }
{
    let mut body = Walking::new(alloc, 0);
    let numbers = own_indices(alloc, &mut body, function.variables.as_slice())?;
    read_declared(alloc, &mut body, around, function, numbers.as_slice())?;
    ended_body(alloc, body)
}

/// What is read of a measure. It fails where memory is wanting, and where variables are too many.
fn read_measure(
    alloc: Global,
    around: &Around<'_>,
    function: &Function,
    measure: &Core,
) -> Result<BodySteps, AllocError>
    ensures { IfOk result (λ body. body_read body ≡ spec.body_of (spec.measure_read (around_of around.now) function.now measure.now)) }
{
    let mut body = Walking::new(alloc, 0);
    let numbers = own_indices(alloc, &mut body, function.variables.as_slice())?;
    read_measured(
        alloc,
        &mut body,
        around,
        function,
        measure,
        numbers.as_slice(),
    )?;
    ended_body(alloc, body)
}

/// Puts what is read of a function's measure, if it has one. It fails where memory is wanting, and where variables are too many.
fn push_measure(
    alloc: Global,
    made: &mut Items<BodySteps>,
    around: &Around<'_>,
    function: &Function,
) -> Result<(), AllocError>
    ensures { OnOk result (map body_read made.new ≡ map body_read made.old
        ++ spec.measure_bodies (around_of around.now) function.now function.now.measure) }
{
    match &function.measure {
        None => Ok(()),
        Some(measure) => made.push(read_measure(alloc, around, function, measure)?),
    }
}

/// What is read of a function and its measure, the measure first. It fails where memory is wanting, and where variables are too many.
pub fn function_bodies(
    alloc: Global,
    around: &Around<'_>,
    function: &Function,
) -> Result<Items<BodySteps>, AllocError>
    ensures { IfOk result (λ made. map body_read made ≡ spec.function_bodies (around_of around.now) function.now) }
{
    let mut made = Items::new(alloc);
    push_measure(alloc, &mut made, around, function)?;
    made.push(read_function(alloc, around, function)?)?;
    Ok(made)
}
