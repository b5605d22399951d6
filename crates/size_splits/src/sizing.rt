//! Which variables of functions are size variables.
ghost use Rattle.std.specs.Prelude.{◌≡◌, ◌↔◌, IsTrue, IfOk, IfSome, OnOk, length, map};
ghost use Rattle.std.specs.List.{list_any};
ghost use Rattle.size_values.specs.Sizes as sizes;
ghost use Rattle.size_splits.specs.Bodies.{body_read, bodies_read};
ghost use Rattle.size_splits.specs.Reading as reading;
ghost use Rattle.size_splits.specs.Sizing as spec;

use crate::bodies::BodySteps;
use crate::given::value_names;
use crate::opened::step_value;
use sail_base::{Items, Kind};
use sail_core::{CoreModel, Function};
use sail_types::{Typ, Types};
use size_values::typ_names;
use std::alloc::{AllocError, Global};
use value_indices::Step;

/// Whether a variable is in what has to be constant at a step. It fails where memory is wanting.
fn step_names(
    alloc: Global,
    types: &Types,
    sizing: &[Items<bool>],
    variables: u32,
    variable: u32,
    step: &Step,
    behind: &[Step],
) -> Result<bool, AllocError>
    ensures { IfOk result (λ is. is ≡ reading.step_names types.now sizing.now variables variable step.now (reading.named_in behind.now)) }
{
    let value = step_value(alloc, variables, step, behind)?;
    value_names(alloc, types, sizing, variable, step, &value.indices)
}

/// Whether a variable is in what has to be constant at one of these steps. It fails where memory is wanting.
fn in_steps(
    alloc: Global,
    types: &Types,
    sizing: &[Items<bool>],
    variables: u32,
    variable: u32,
    steps: &[Step],
) -> Result<bool, AllocError>
    ensures { IfOk result (λ is. is ≡ reading.in_steps types.now sizing.now variables variable steps.now) }
{
    for at in 0..steps.len() {
        let behind = &steps[at + 1..];
        if step_names(
            alloc, types, sizing, variables, variable, &steps[at], behind,
        )? {
            return Ok(true);
        }
    }
    Ok(false)
}

/// Whether a variable is in what has to be constant in a body. It fails where memory is wanting.
fn in_body(
    alloc: Global,
    types: &Types,
    sizing: &[Items<bool>],
    variable: u32,
    body: &BodySteps,
) -> Result<bool, AllocError>
    ensures { IfOk result (λ is. is ≡ spec.in_body types.now sizing.now variable (body_read body.now)) }
{
    let steps = body.steps.as_slice();
    in_steps(alloc, types, sizing, body.variables, variable, steps)
}

/// Whether a variable is in what has to be constant in one of these bodies. It fails where memory is wanting.
fn in_bodies(
    alloc: Global,
    types: &Types,
    sizing: &[Items<bool>],
    variable: u32,
    bodies: &[BodySteps],
) -> Result<bool, AllocError>
    ensures { IfOk result (λ is. is ≡ list_any (spec.in_body types.now sizing.now variable) (map body_read bodies.now)) }
{
    for body in bodies {
        if in_body(alloc, types, sizing, variable, body)? {
            return Ok(true);
        }
    }
    Ok(false)
}

/// Whether a variable is in a size of one of these types, which are under so many variables. It fails where memory is wanting.
fn in_types(
    alloc: Global,
    types: &Types,
    count: usize,
    variable: u32,
    list: &[Typ],
) -> Result<bool, AllocError>
    ensures { IfOk result (λ is. is ≡ list_any (sizes.typ_names types.now count variable) list.now) }
{
    for typ in list {
        if typ_names(alloc, types, count, variable, typ)? {
            return Ok(true);
        }
    }
    Ok(false)
}

/// Whether a variable is in a size of a function's parameters or result. It fails where memory is wanting.
fn in_signature(
    alloc: Global,
    types: &Types,
    function: &Function,
    variable: u32,
) -> Result<bool, AllocError>
    ensures { IfOk result (λ is. is ≡ spec.in_signature types.now function.now variable) }
{
    let count = function.variables.len();
    if in_types(
        alloc,
        types,
        count,
        variable,
        function.parameters.as_slice(),
    )? {
        return Ok(true);
    }
    typ_names(alloc, types, count, variable, &function.result)
}

/// Whether variables of this kind stand for truths.
fn is_truth_kind(kind: Kind) -> bool
    ensures { result ≡ spec.is_truth_kind kind }
{
    match kind {
        Kind::Bool => true,
        Kind::Int => false,
        Kind::Type => false,
    }
}

/// Whether a variable of a function is a Bool variable.
fn is_truth(function: &Function, variable: u32) -> bool
    ensures { result ≡ spec.is_truth function.now variable }
{
    match function.variables.as_slice().get(variable as usize) {
        None => false,
        Some(parameter) => is_truth_kind(parameter.kind),
    }
}

/// Whether a variable of a function is a size variable, where those of its callees are these. It fails where memory is wanting.
fn is_size(
    alloc: Global,
    types: &Types,
    sizing: &[Items<bool>],
    function: &Function,
    bodies: &[BodySteps],
    variable: u32,
) -> Result<bool, AllocError>
    ensures { IfOk result (λ is. is ≡ spec.is_size types.now sizing.now function.now (map body_read bodies.now) variable) }
{
    if is_truth(function, variable) {
        return Ok(false);
    }
    if in_signature(alloc, types, function, variable)? {
        return Ok(true);
    }
    in_bodies(alloc, types, sizing, variable, bodies)
}

/// Which variables of a function are size variables, where those of its callees are these. It fails where memory is wanting, and where
/// variables are too many.
fn sizes_of(
    alloc: Global,
    types: &Types,
    sizing: &[Items<bool>],
    function: &Function,
    bodies: &[BodySteps],
) -> Result<Items<bool>, AllocError>
    ensures { IfOk result (λ made. made ≡
        spec.sizes_from types.now sizing.now function.now (map body_read bodies.now) (length function.now.variables) 0) }
{
    let Ok(count) = u32::try_from(function.variables.len()) else {
        return Err(AllocError);
    };
    let mut made = Items::new(alloc);
    for variable in 0..count {
        let is = is_size(alloc, types, sizing, function, bodies, variable)?;
        made.push(is)?;
    }
    Ok(made)
}

/// The same once more. It fails where memory is wanting.
fn copy_sizing(alloc: Global, sizing: &[Items<bool>]) -> Result<Items<Items<bool>>, AllocError>
    ensures { IfOk result (λ copy. copy ≡ sizing.now) }
{
    let mut copy = Items::new(alloc);
    for flags in sizing {
        copy.push(Items::from_slice(alloc, flags.as_slice())?)?;
    }
    Ok(copy)
}

/// Puts the size variables of the function at a place, which may be the next one. The one error is want of memory.
fn put_sizes(
    sizing: &mut Items<Items<bool>>,
    at: usize,
    sizes: Items<bool>,
) -> Result<(), AllocError>
    ensures { OnOk result (sizing.new ≡ spec.with_sizes sizing.old at sizes) }
{
    if at < sizing.len() {
        sizing.set(at, sizes);
        return Ok(());
    }
    sizing.push(sizes)
}

/// Which variables of functions are size variables, where those of their callees are these, of callees before them as it comes out here. It
/// fails where memory is wanting, and where variables are too many.
fn sizing_again(
    alloc: Global,
    types: &Types,
    sizing: &[Items<bool>],
    functions: &[Function],
    bodies: &[Items<BodySteps>],
) -> Result<Items<Items<bool>>, AllocError>
    ensures { IfOk result (λ made. made ≡ spec.sizing_again types.now sizing.now functions.now (bodies_read bodies.now)) }
{
    let mut found = copy_sizing(alloc, sizing)?;
    for at in 0..functions.len() {
        if at >= bodies.len() {
            return Ok(found);
        }
        let now = found.as_slice();
        let sizes = sizes_of(alloc, types, now, &functions[at], bodies[at].as_slice())?;
        put_sizes(&mut found, at, sizes)?;
    }
    Ok(found)
}

/// Whether two truths are the same.
fn same_flag(first: bool, other: bool) -> bool
    ensures { IsTrue result ↔ (first ≡ other) }
{
    first == other
}

/// Whether both say the same of each variable.
fn same_flags(first: &[bool], others: &[bool]) -> bool
    ensures { IsTrue result ↔ (first.now ≡ others.now) }
{
    if first.len() != others.len() {
        return false;
    }
    let mut at = 0;
    for flag in first {
        if !same_flag(*flag, others[at]) {
            return false;
        }
        at += 1;
    }
    true
}

/// Whether both say the same of each function.
fn same_sizing(first: &[Items<bool>], others: &[Items<bool>]) -> bool
    ensures { IsTrue result ↔ (first.now ≡ others.now) }
{
    if first.len() != others.len() {
        return false;
    }
    let mut at = 0;
    for flags in first {
        if !same_flags(flags.as_slice(), others[at].as_slice()) {
            return false;
        }
        at += 1;
    }
    true
}

/// Size variables, so many times again, or until nothing more comes to them. It fails where memory is wanting, and where variables are too
/// many.
fn settled(
    alloc: Global,
    types: &Types,
    before: Items<Items<bool>>,
    functions: &[Function],
    bodies: &[Items<BodySteps>],
    count: u32,
) -> Result<Items<Items<bool>>, AllocError>
    ensures { IfOk result (λ made. made ≡ spec.sizing_for count types.now before functions.now (bodies_read bodies.now)) }
{
    let mut sizing = before;
    for _at in 0..count {
        let now = sizing.as_slice();
        let next = sizing_again(alloc, types, now, functions, bodies)?;
        let again = next.as_slice();
        if same_sizing(again, now) {
            return Ok(next);
        }
        sizing = next;
    }
    Ok(sizing)
}

/// How many variables functions have; none past 2^32 - 1.
fn count_variables(functions: &[Function]) -> Option<u32>
    ensures { IfSome result (λ count. count ≡ spec.count_variables functions.now) }
{
    let mut count = 0_u32;
    for function in functions {
        let Ok(more) = u32::try_from(function.variables.len()) else {
            return None;
        };
        let Some(sum) = count.checked_add(more) else {
            return None;
        };
        count = sum;
    }
    Some(count)
}

/// Which variables of the functions of a model are size variables, where these are what is read of them, of each function its measure,
/// where it has one, and its body: those in a width or length of the signature or of a body, and those in what is given to a size variable
/// of a callee. It fails where memory is wanting, and where there are more than 2^32 - 1 variables.
pub fn sizing_of(
    alloc: Global,
    core: &CoreModel,
    bodies: &[Items<BodySteps>],
) -> Result<Items<Items<bool>>, AllocError>
    ensures { IfOk result (λ made. made ≡ spec.sizing_of core.now (bodies_read bodies.now)) }
{
    let functions = core.functions.as_slice();
    let Some(count) = count_variables(functions) else {
        return Err(AllocError);
    };
    let none = Items::new(alloc);
    let first = sizing_again(alloc, &core.types, none.as_slice(), functions, bodies)?;
    settled(alloc, &core.types, first, functions, bodies, count)
}
