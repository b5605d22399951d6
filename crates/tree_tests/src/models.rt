//! Models by hand.
use sail_base::{Items, Place, Text};
use sail_core::{Arm, Core, CoreModel, Form, Function, Kind, Literal, Pattern};
use sail_types::{Con, Parameter, Typ, Types};
use std::alloc::{AllocError, Global};

/// The place of all that is written by hand.
pub fn here() -> Place {
    Place {
        file: 1,
        line: 2,
        column: 3,
    }
}

/// The one parameter.
pub fn parameter(alloc: Global, number: u32) -> Result<Core, AllocError> {
    let name = Text::new(alloc, "x")?;
    Ok(Core::leaf(alloc, here(), number, Kind::Local(name)))
}

/// The patterns of parameters of these types: `x` for each.
fn patterns(alloc: Global, parameters: &[Typ]) -> Result<Items<Pattern>, AllocError> {
    let mut made = Items::new(alloc);
    for _ in parameters {
        let name = Text::new(alloc, "x")?;
        made.push(Pattern {
            place: here(),
            form: Form::Binds(name),
            parts: Items::new(alloc),
        })?;
    }
    Ok(made)
}

/// A function with a `val`: its clause is an arm of node 1, its body ends at node 2, and its value comes to the type of the result at node 9.
pub fn function(
    alloc: Global,
    variables: Items<Parameter>,
    parameters: Items<Typ>,
    gives: Typ,
    body: Core,
) -> Result<Function, AllocError> {
    let mut arms = Items::new(alloc);
    arms.push(Arm::Nested(patterns(alloc, parameters.as_slice())?))?;
    let ended = Core::over(alloc, here(), 2, Kind::Cast(None), body)?;
    let clauses = Core::over(alloc, here(), 1, Kind::Clauses(arms), ended)?;
    Ok(Function {
        place: here(),
        name: Text::new(alloc, "f")?,
        variables,
        type_variables: Items::new(alloc),
        constraint: Con::Truth(true),
        parameters,
        result: gives,
        is_declared: true,
        numbers: Items::new(alloc),
        cycle: None,
        measure: None,
        body: clauses,
        entry: 0,
        last: 9,
    })
}

/// `function reset() = ()`
fn reset(alloc: Global) -> Result<Function, AllocError> {
    let body = Core::leaf(alloc, here(), 3, Kind::Constant(Literal::Unit));
    function(alloc, Items::new(alloc), Items::new(alloc), Typ::Unit, body)
}

/// `function step() = e`, of this type.
fn step(alloc: Global, gives: Typ, body: Core) -> Result<Function, AllocError> {
    function(alloc, Items::new(alloc), Items::new(alloc), gives, body)
}

/// A model of one function, of `reset`, and of `step` with this result and body.
pub fn model(
    alloc: Global,
    first: Function,
    gives: Typ,
    body: Core,
) -> Result<CoreModel, AllocError> {
    let mut functions = Items::new(alloc);
    functions.push(first)?;
    functions.push(reset(alloc)?)?;
    functions.push(step(alloc, gives, body)?)?;
    Ok(CoreModel {
        types: Types {
            definitions: Items::new(alloc),
        },
        exception: None,
        registers: Items::new(alloc),
        register_texts: Items::new(alloc),
        functions,
        directions: Items::new(alloc),
        openings: Items::new(alloc),
        reset: 1,
        step: 2,
    })
}
