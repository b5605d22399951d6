//! Bodies, node by node.
ghost use Rattle.std.specs.Prelude.{◌≡◌, ◌++◌, IfOk, OnOk, map};
ghost use Rattle.value_indices.specs.Walking.{begun, steps_read};
ghost use Rattle.size_splits.specs.Bodies.{body_read};
ghost use Rattle.monomorph.specs.Lasts.{model_in};
ghost use Rattle.monomorph.specs.Reading.{inside_of};
ghost use Rattle.sized_trees.specs.Bodies as spec;

use monomorph::{Inside, Model};
use sail_base::Items;
use sail_core::{Callee, Giver};
use sail_types::Index;
use size_splits::{BodySteps, MadeValue, follow_telling, made_value, sizes_given};
use size_values::Sized;
use sized_nodes::{Instance, NodeSizes, Told};
use sized_trees::{FunctionCall, cases_under, choices_at, combinations_at, leads_under};
use split_combinations::splits;
use std::alloc::{AllocError, Global};
use value_indices::{Fact, Indices, Made, Reading, Step, copy_indices};

/// What a value is made as, with its cases. It fails where memory is wanting.
pub fn told_at(
    alloc: Global,
    inside: &Inside<'_>,
    facts: &[Fact],
    operands: &[Indices],
    made: &Made,
) -> Result<Told, AllocError>
    ensures { IfOk result (λ told. told ≡ spec.told_at (inside_of inside.now) facts.now operands.now made.now) }
{
    let MadeValue {
        indices,
        facts: opening,
    } = made_value(alloc, inside.variables, made, None)?;
    let own = sizes_given(alloc, inside.types, &indices)?;
    let choices = choices_at(alloc, inside, facts, opening.as_slice(), own.as_slice())?;
    let cases = cases_under(alloc, inside, operands, &indices, choices.as_slice())?;
    Ok(Told {
        value: indices,
        cases,
    })
}

/// Puts the cases of a node that makes a value. It fails where memory is wanting.
fn push_made(
    alloc: Global,
    nodes: &mut Items<NodeSizes>,
    inside: &Inside<'_>,
    facts: &[Fact],
    number: u32,
    operands: &[Indices],
    made: &Made,
) -> Result<(), AllocError>
    ensures { OnOk result (nodes.new ≡ nodes.old ++ spec.made_at (inside_of inside.now) facts.now number operands.now made.now) }
{
    let Told { value, cases } = told_at(alloc, inside, facts, operands, made)?;
    nodes.push(NodeSizes::Makes(number, value, cases))
}

/// Puts where a call of a function leads. It fails where memory is wanting.
fn push_function(
    alloc: Global,
    nodes: &mut Items<NodeSizes>,
    inside: &Inside<'_>,
    list: &[Instance],
    facts: &[Fact],
    number: u32,
    call: &FunctionCall<'_>,
) -> Result<(), AllocError>
    ensures { OnOk result (nodes.new ≡ nodes.old ++ spec.function_at (inside_of inside.now) list.now facts.now number call.now.operands.now
        call.now.function call.now.numbers.now call.now.types.now) }
{
    let combinations = combinations_at(alloc, inside, facts)?;
    let leads = leads_under(alloc, inside, list, call, combinations.as_slice())?;
    nodes.push(NodeSizes::Calls(number, leads))
}

/// Puts where a call leads, if it is one of a function. It fails where memory is wanting.
fn push_call(
    alloc: Global,
    nodes: &mut Items<NodeSizes>,
    inside: &Inside<'_>,
    list: &[Instance],
    facts: &[Fact],
    number: u32,
    operands: &[Indices],
    callee: &Callee,
    numbers: &[Index],
    types: &[Reading],
) -> Result<(), AllocError>
    ensures { OnOk result (nodes.new ≡ nodes.old ++ spec.at_call (inside_of inside.now) list.now facts.now number operands.now callee.now numbers.now
        types.now) }
{
    match callee {
        Callee::Function(function) => {
            let call = FunctionCall {
                operands,
                function: *function,
                numbers,
                types,
            };
            push_function(alloc, nodes, inside, list, facts, number, &call)
        }
        _ => Ok(()),
    }
}

/// Puts what a value, or what names hold, gives numbers to. It fails where memory is wanting.
fn push_given(
    alloc: Global,
    nodes: &mut Items<NodeSizes>,
    giver: Giver,
    indices: &Indices,
) -> Result<(), AllocError>
    ensures { OnOk result (nodes.new ≡ nodes.old ++ spec.given_at giver indices.now) }
{
    nodes.push(NodeSizes::Gives(giver, copy_indices(alloc, indices)?))
}

/// Puts what a step says of its node, under these facts. It fails where memory is wanting.
fn push_step(
    alloc: Global,
    nodes: &mut Items<NodeSizes>,
    inside: &Inside<'_>,
    list: &[Instance],
    facts: &[Fact],
    step: &Step,
) -> Result<(), AllocError>
    ensures { OnOk result (nodes.new ≡ nodes.old ++ spec.at_step (inside_of inside.now) list.now facts.now step.now) }
{
    match step {
        Step::Makes(number, operands, made) => push_made(
            alloc,
            nodes,
            inside,
            facts,
            *number,
            operands.as_slice(),
            made,
        ),
        Step::Calls(_, number, operands, callee, numbers, types) => push_call(
            alloc,
            nodes,
            inside,
            list,
            facts,
            *number,
            operands.as_slice(),
            callee,
            numbers.as_slice(),
            types.as_slice(),
        ),
        Step::Gives(giver, indices) => push_given(alloc, nodes, *giver, indices),
        _ => Ok(()),
    }
}

/// What steps say of their nodes, in order. It fails where memory is wanting.
fn at_steps(
    alloc: Global,
    inside: &Inside<'_>,
    list: &[Instance],
    steps: &[Step],
) -> Result<Items<NodeSizes>, AllocError>
    ensures { IfOk result (λ made. made ≡ spec.at_notes (inside_of inside.now) list.now (steps_read (begun 0) steps.now).notes) }
{
    let mut nodes = Items::new(alloc);
    let mut facts = Vec::new(alloc);
    let mut marks = Items::new(alloc);
    for at in 0..steps.len() {
        let step = &steps[at];
        push_step(alloc, &mut nodes, inside, list, facts.as_slice(), step)?;
        follow_telling(
            alloc,
            inside.numbers,
            inside.split,
            step,
            &mut facts,
            &mut marks,
        )?;
    }
    Ok(nodes)
}

/// What is constant at the nodes of a body, for these numbers and types. It fails where memory is wanting.
fn sized_body(
    alloc: Global,
    model: &Model<'_>,
    list: &[Instance],
    numbers: &[Option<i128>],
    own: &[Sized],
    body: &BodySteps,
) -> Result<Items<NodeSizes>, AllocError>
    ensures { IfOk result (λ made. made ≡ spec.sized_body (model_in model.now) list.now numbers.now own.now (body_read body.now)) }
{
    let types = &model.core.types;
    let split = splits(alloc, types, model.sizing, numbers, body)?;
    let inside = Inside {
        types,
        sizing: model.sizing,
        numbers,
        own,
        variables: body.variables,
        names: body.names.as_slice(),
        split: split.as_slice(),
    };
    at_steps(alloc, &inside, list, body.steps.as_slice())
}

/// The same of several bodies.
pub fn sized_bodies(
    alloc: Global,
    model: &Model<'_>,
    list: &[Instance],
    numbers: &[Option<i128>],
    own: &[Sized],
    bodies: &[BodySteps],
) -> Result<Items<Items<NodeSizes>>, AllocError>
    ensures { IfOk result (λ made. made ≡ spec.sized_bodies (model_in model.now) list.now numbers.now own.now (map body_read bodies.now)) }
{
    let mut made = Items::new(alloc);
    for body in bodies {
        made.push(sized_body(alloc, model, list, numbers, own, body)?)?;
    }
    Ok(made)
}
