//! A module by hand: a loop of many turns, and calls inside calls.
use crate::written::Line::{Apply, End, Enter, Goto, JumpIf, Label, Measure, Throw, Tick};
use crate::written::Read::{Integer, Slot};
use crate::written::{Head, Line, Type, called, function, machine, types};
use jib::Operation::Builtin;
use jib::{Module, Target};
use jib_machine::{Entries, Machine};
use sail_base::Items;
use sail_types::{Row, Value};
use std::alloc::{AllocError, Global};
use std::test::Fail;

const INTEGER: u32 = 0;

const TRUTH: u32 = 1;

const TYPES: &[Type] = &[Type::Integer, Type::Truth];

/// Of both functions.
const HEAD: Head = Head {
    parameters: &[INTEGER],
    result: INTEGER,
    slots: &[INTEGER, INTEGER, TRUTH, INTEGER],
    cycle: 1,
    lets: 0,
    is_pure: false,
};

/// Counts up to its parameter.
const COUNTING: &[Line] = &[
    Label(0),
    Tick,
    Apply(Target::Slot(2), Builtin(Row::LtInt), &[Slot(3), Slot(1)]),
    JumpIf(Slot(2), 1),
    End(Slot(3)),
    Label(1),
    Apply(
        Target::Slot(3),
        Builtin(Row::AddInt),
        &[Slot(3), Integer(INTEGER, 1)],
    ),
    Goto(0),
];

/// Goes down to 0 by calls of itself, with its parameter as measure, and counts them: here it ends at 0.
const ENDS: &[Line] = &[
    Tick,
    Measure(Slot(1)),
    Apply(
        Target::Slot(2),
        Builtin(Row::LtInt),
        &[Integer(INTEGER, 0), Slot(1)],
    ),
    JumpIf(Slot(2), 1),
    End(Slot(3)),
    Label(1),
];

/// What it calls itself with: one less.
const FALLS: &[Line] = &[Apply(
    Target::Slot(3),
    Builtin(Row::AddInt),
    &[Slot(1), Integer(INTEGER, -1)],
)];

/// The same again.
const STAYS: &[Line] = &[Apply(
    Target::Slot(3),
    Builtin(Row::AddInt),
    &[Slot(1), Integer(INTEGER, 0)],
)];

/// The call, which is counted.
const ENTERS: &[Line] = &[
    Enter(3, 1, &[Slot(3)], 0),
    Apply(
        Target::Slot(3),
        Builtin(Row::AddInt),
        &[Slot(3), Integer(INTEGER, 1)],
    ),
    End(Slot(3)),
    Label(0),
    Throw(Slot(0)),
];

/// The module, in which the second function calls itself with this.
fn module(alloc: Global, next: &[Line]) -> Result<Module, AllocError> {
    let mut functions = Items::new(alloc);
    functions.push(function(alloc, &HEAD, &[COUNTING])?)?;
    functions.push(function(alloc, &HEAD, &[ENDS, next, ENTERS])?)?;
    Ok(Module {
        types: types(alloc, TYPES)?,
        exception: INTEGER,
        registers: Items::new(alloc),
        openings: Items::new(alloc),
        functions,
    })
}

/// The machine of the module.
fn made(alloc: Global, next: &[Line]) -> Result<Option<Machine>, AllocError> {
    let entries = Entries { reset: 0, step: 0 };
    machine(alloc, module(alloc, next)?, Items::new(alloc), entries)
}

/// The integer that a call of a function of a machine ends with.
fn given(
    alloc: Global,
    machine: &Machine,
    function: u32,
    argument: i128,
) -> Result<Option<i128>, AllocError> {
    let mut arguments = Vec::new(alloc);
    arguments.push(Value::Integer(argument))?;
    called(alloc, machine, Items::new(alloc), function, arguments)
}

/// The integer that a call of a function ends with.
fn given_once(
    alloc: Global,
    next: &[Line],
    function: u32,
    argument: i128,
) -> Result<Option<i128>, AllocError> {
    let Some(machine) = made(alloc, next)? else {
        return Ok(None);
    };
    given(alloc, &machine, function, argument)
}

/// Whether each of so many calls of the loop counts up to a number.
fn all_count(alloc: Global, calls: u32, turns: i128) -> Result<bool, AllocError> {
    let Some(machine) = made(alloc, FALLS)? else {
        return Ok(false);
    };
    for _ in 0..calls {
        if given(alloc, &machine, 0, turns)? != Some(turns) {
            return Ok(false);
        }
    }
    Ok(true)
}

#[test]
fn loops_and_calls_end(rt: HostRuntime) -> Result<(), Fail> {
    let alloc = rt.alloc();
    assert!(rt; given_once(alloc, FALLS, 0, 2_000)? == Some(2_000));
    assert!(rt; given_once(alloc, FALLS, 1, 1_000)? == Some(1_000));
    assert!(rt; given_once(alloc, STAYS, 1, 3)?.is_none());
    Ok(())
}

/// A call has 1,000,000 ticks: the loop takes one more than it turns.
#[test]
fn a_loop_turns_ten_million_times(rt: HostRuntime) -> Result<(), Fail> {
    let alloc = rt.alloc();
    assert!(rt; all_count(alloc, 16, 625_000)?);
    assert!(rt; given_once(alloc, FALLS, 0, 999_999)? == Some(999_999));
    assert!(rt; given_once(alloc, FALLS, 0, 1_000_000)?.is_none());
    Ok(())
}

#[test]
fn calls_nest_100_000_deep(rt: HostRuntime) -> Result<(), Fail> {
    let alloc = rt.alloc();
    assert!(rt; given_once(alloc, FALLS, 1, 100_000)? == Some(100_000));
    Ok(())
}
