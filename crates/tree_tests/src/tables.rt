//! Two models, and what is constant at their nodes.
use crate::models::{function, here, model, parameter};
use crate::printed::printed;
use monomorph::MonoError;
use sail_base::{Items, Kind as Sort, Text, Word};
use sail_core::{Callee, Core, CoreModel, Kind, Literal};
use sail_types::{Num, Parameter, Row, Typ};
use sized_models::sized_core;
use std::alloc::{AllocError, Global};
use std::test::Fail;

/// A call of one argument.
pub fn call(
    alloc: Global,
    number: u32,
    callee: Callee,
    argument: Core,
) -> Result<Core, AllocError> {
    Core::over(alloc, here(), number, Kind::Call(callee), argument)
}

/// `forall 'n. bits('n) -> bits('n)`, `f(x) = x`; and `step() = f(0x00)`, which has 8 bits.
pub fn bits_of_any_width(alloc: Global) -> Result<CoreModel, AllocError> {
    let mut variables = Items::new(alloc);
    variables.push(Parameter {
        name: Text::new(alloc, "'n")?,
        kind: Sort::Int,
    })?;
    let mut parameters = Items::new(alloc);
    parameters.push(Typ::Bits(Num::variable(alloc, 0)?))?;
    let result = Typ::Bits(Num::variable(alloc, 0)?);
    let first = function(alloc, variables, parameters, result, parameter(alloc, 3)?)?;
    let zero = Kind::Constant(Literal::Bits(Word::new(8, 0)));
    let zero = Core::leaf(alloc, here(), 4, zero);
    let body = call(alloc, 3, Callee::Function(0), zero)?;
    let eight = Typ::Bits(Num::constant(alloc, 8));
    model(alloc, first, eight, body)
}

/// `range(1, 2) -> int`, `f(x) = length(zeros(x))`, by the builtins; and `step() = f(1)`.
pub fn widths_by_range(alloc: Global) -> Result<CoreModel, AllocError> {
    let mut parameters = Items::new(alloc);
    parameters.push(Typ::Range(Num::constant(alloc, 1), Num::constant(alloc, 2)))?;
    let zeros = call(alloc, 4, Callee::Row(Row::Zeros), parameter(alloc, 5)?)?;
    let body = call(alloc, 3, Callee::Row(Row::Length), zeros)?;
    let first = function(alloc, Items::new(alloc), parameters, numbers(alloc), body)?;
    let one = Core::leaf(alloc, here(), 4, Kind::Constant(Literal::Integer(1)));
    let body = call(alloc, 3, Callee::Function(0), one)?;
    model(alloc, first, numbers(alloc), body)
}

/// `range(0, 128)`
pub fn numbers(alloc: Global) -> Typ {
    Typ::Range(Num::constant(alloc, 0), Num::constant(alloc, 128))
}

/// The function stands third, behind `reset` and `step`; `step` has its literal at node 4, which makes nothing of parts.
const OF_ANY_WIDTH: &str = "function 1: () -> unit
arm of 1 before 0
makes 2
  (unit) -> unit
gives 2
makes 9
  (unit) -> unit
gives 9
function 2: () -> bits 8
arm of 1 before 0
calls 3
  (bits 8) to instance 2
makes 3
  (bits 8) -> bits 8
gives 3
makes 2
  (bits 8) -> bits 8
gives 2
makes 9
  (bits 8) -> bits 8
gives 9
function 0: (bits 8) -> bits 8
arm of 1 before 0
makes 3
  (bits 8) -> bits 8
gives 3
makes 2
  (bits 8) -> bits 8
gives 2
makes 9
  (bits 8) -> bits 8
gives 9
";

/// The variable that the parameter of the range opens, 0, is 1 or 2 at the nodes of the body, and not in force at the last one.
const BY_RANGE: &str = "function 1: () -> unit
arm of 1 before 0
makes 2
  (unit) -> unit
gives 2
makes 9
  (unit) -> unit
gives 9
function 2: () -> int
arm of 1 before 0
calls 3
  (int) to instance 2
makes 3
  (int) -> int
gives 3
makes 2
  (int) -> int
gives 2
makes 9
  (int) -> int
gives 9
function 0: (int) -> int
arm of 1 before 0
makes 5
  [0=1] (int) -> int
  [0=2] (int) -> int
gives 5
makes 4
  [0=1] (int) -> bits 1
  [0=2] (int) -> bits 2
gives 4
makes 3
  [0=1] (bits 1) -> int
  [0=2] (bits 2) -> int
gives 3
makes 2
  [0=1] (int) -> int
  [0=2] (int) -> int
gives 2
makes 9
  (int) -> int
gives 9
";

/// What is constant in a model, as text; none where it isn't accepted.
fn tables(alloc: Global, core: &CoreModel) -> Result<Option<Vec<u8>>, AllocError> {
    match sized_core(alloc, core) {
        Ok(sized) => Ok(Some(printed(alloc, &sized)?)),
        Err(refused) => match &refused {
            MonoError::OutOfMemory => Err(AllocError),
            _ => Ok(None),
        },
    }
}

#[test]
fn nodes_of_a_function_of_any_width(rt: HostRuntime) -> Result<(), Fail> {
    let alloc = rt.alloc();
    match tables(alloc, &bits_of_any_width(alloc)?)? {
        Some(text) => assert!(rt; text.as_slice() == OF_ANY_WIDTH.as_bytes()),
        None => assert!(rt; false),
    }
    Ok(())
}

#[test]
fn nodes_under_each_number_of_a_range(rt: HostRuntime) -> Result<(), Fail> {
    let alloc = rt.alloc();
    match tables(alloc, &widths_by_range(alloc)?)? {
        Some(text) => assert!(rt; text.as_slice() == BY_RANGE.as_bytes()),
        None => assert!(rt; false),
    }
    Ok(())
}
