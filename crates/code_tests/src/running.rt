//! What each instruction does, in functions by hand.
use crate::written::Line::{
    Apply, End, Enter, Goto, JumpIf, Label, Payload, Set, Throw, Tick, WorkLimit,
};
use crate::written::Read::{Bits, Integer, Register, Slot, Truth, Unit};
use crate::written::{Head, Line, Type, called, function, machine, types};
use jib::Operation::{
    Build, Builtin, Cons, Construct, Field, IsEmpty, Item, Rest, Same, Slice, WithField, WithItem,
    WithSlice,
};
use jib::{Module, Target};
use jib_machine::Entries;
use model_state::Register as ModelRegister;
use sail_base::{Items, Text};
use sail_types::{Row, Typ};
use std::alloc::{AllocError, Global};
use std::test::Fail;

const UNIT: u32 = 0;

const INTEGER: u32 = 1;

const TRUTH: u32 = 2;

const BYTE: u32 = 3;

const HALF: u32 = 4;

/// A union of an integer's constructor and a unit's; the exceptions are of this type too.
const OPTION: u32 = 5;

const INTEGERS: u32 = 6;

/// A vector of two integers.
const TWO: u32 = 7;

/// A tuple of an integer and a truth.
const PAIR: u32 = 8;

const TYPES: &[Type] = &[
    Type::Unit,
    Type::Integer,
    Type::Truth,
    Type::Bits(8),
    Type::Bits(4),
    Type::Union(0, &[INTEGER, UNIT]),
    Type::List(INTEGER),
    Type::Vector(2, INTEGER),
    Type::Tuple(&[INTEGER, TRUTH]),
];

/// The function of a case: its slot 1 is 1 at first and is what it gives, at label 0; label 1 takes an exception.
const CALLER: Head = Head {
    parameters: &[],
    result: INTEGER,
    slots: &[
        OPTION, INTEGER, TRUTH, BYTE, HALF, OPTION, INTEGERS, TWO, PAIR,
    ],
    cycle: 1,
    lets: 0,
    is_pure: false,
};

/// What stands before the instructions of a case.
const START: &[Line] = &[Tick, Set(Target::Slot(1), Integer(INTEGER, 1))];

/// What stands behind them.
const END: &[Line] = &[
    Label(0),
    End(Slot(1)),
    Label(1),
    Payload(1, Slot(0), 0, 2),
    Label(2),
    End(Slot(1)),
];

/// Gives a number twice, and throws a negative one.
const CALLEE: Head = Head {
    parameters: &[INTEGER],
    result: INTEGER,
    slots: &[OPTION, INTEGER, TRUTH],
    cycle: 0,
    lets: 0,
    is_pure: false,
};

const TWICE: &[Line] = &[
    Tick,
    Apply(
        Target::Slot(2),
        Builtin(Row::LtInt),
        &[Slot(1), Integer(INTEGER, 0)],
    ),
    JumpIf(Slot(2), 0),
    Apply(Target::Slot(1), Builtin(Row::AddInt), &[Slot(1), Slot(1)]),
    End(Slot(1)),
    Label(0),
    Apply(Target::Slot(0), Construct(0), &[Slot(1)]),
    Throw(Slot(0)),
];

/// The instructions of a case, and what it gives; -100 where the run stops.
type Case = (&'static [Line], i128);

const CASES: &[Case] = &[
    (&[Set(Target::Slot(1), Integer(INTEGER, 5))], 5),
    (
        &[Apply(
            Target::Slot(1),
            Builtin(Row::AddInt),
            &[Integer(INTEGER, 2), Integer(INTEGER, 3)],
        )],
        5,
    ),
    (
        &[Apply(
            Target::Slot(1),
            Builtin(Row::EdivInt),
            &[Integer(INTEGER, 2), Integer(INTEGER, 0)],
        )],
        0,
    ),
    (&[Apply(Target::Slot(1), Same, &[Integer(INTEGER, 6)])], 6),
    (
        &[
            Set(Target::Register(0), Integer(INTEGER, 17)),
            Set(Target::Slot(1), Register(0)),
        ],
        17,
    ),
    (&[Enter(1, 1, &[Integer(INTEGER, 21)], 1)], 42),
    (&[Enter(1, 1, &[Integer(INTEGER, -5)], 1)], -5),
    (&[Goto(0)], 1),
    (&[JumpIf(Truth(TRUTH, true), 0)], 1),
    (
        &[
            JumpIf(Truth(TRUTH, false), 0),
            Set(Target::Slot(1), Integer(INTEGER, 8)),
        ],
        8,
    ),
    (&[WorkLimit], -100),
    (
        &[
            Apply(Target::Slot(0), Construct(0), &[Integer(INTEGER, 1)]),
            Throw(Slot(0)),
        ],
        -100,
    ),
];

/// Builds the vector in slot 7, of 4 and 6, and the tuple in slot 8, of 3 and true.
const BUILT: &[Line] = &[
    Apply(
        Target::Slot(7),
        Build,
        &[Integer(INTEGER, 4), Integer(INTEGER, 6)],
    ),
    Apply(
        Target::Slot(8),
        Build,
        &[Integer(INTEGER, 3), Truth(TRUTH, true)],
    ),
];

/// Cases on vectors, tuples, unions, words and lists, once the vector and the tuple are built.
const PART_CASES: &[Case] = &[
    // an item of a vector, and one past its end
    (
        &[Apply(Target::Slot(1), Item, &[Slot(7), Integer(INTEGER, 1)])],
        6,
    ),
    (
        &[Apply(Target::Slot(1), Item, &[Slot(7), Integer(INTEGER, 2)])],
        0,
    ),
    // the first item of a vector in which 9 stands at an index
    (
        &[
            Apply(
                Target::Slot(7),
                WithItem,
                &[Slot(7), Integer(INTEGER, 0), Integer(INTEGER, 9)],
            ),
            Apply(Target::Slot(1), Item, &[Slot(7), Integer(INTEGER, 0)]),
        ],
        9,
    ),
    (
        &[
            Apply(
                Target::Slot(7),
                WithItem,
                &[Slot(7), Integer(INTEGER, 5), Integer(INTEGER, 9)],
            ),
            Apply(Target::Slot(1), Item, &[Slot(7), Integer(INTEGER, 0)]),
        ],
        4,
    ),
    // the first field of a tuple, and once 7 has replaced it
    (&[Apply(Target::Slot(1), Field(0), &[Slot(8)])], 3),
    (
        &[
            Apply(
                Target::Slot(8),
                WithField(0),
                &[Slot(8), Integer(INTEGER, 7)],
            ),
            Apply(Target::Slot(1), Field(0), &[Slot(8)]),
        ],
        7,
    ),
    // the integer of a value that a constructor of the union makes
    (
        &[
            Apply(Target::Slot(5), Construct(0), &[Integer(INTEGER, 11)]),
            Payload(1, Slot(5), 0, 0),
        ],
        11,
    ),
    (
        &[
            Apply(Target::Slot(5), Construct(1), &[Unit(UNIT)]),
            Payload(1, Slot(5), 0, 0),
        ],
        1,
    ),
    // the upper half of a byte, and a byte in which the lower half is replaced
    (
        &[
            Apply(
                Target::Slot(4),
                Slice,
                &[
                    Bits(BYTE, 8, 0xa5),
                    Integer(INTEGER, 7),
                    Integer(INTEGER, 4),
                ],
            ),
            Apply(Target::Slot(1), Builtin(Row::Unsigned), &[Slot(4)]),
        ],
        10,
    ),
    (
        &[
            Apply(
                Target::Slot(3),
                WithSlice,
                &[
                    Bits(BYTE, 8, 0xa5),
                    Integer(INTEGER, 3),
                    Integer(INTEGER, 0),
                    Bits(HALF, 4, 0xc),
                ],
            ),
            Apply(Target::Slot(1), Builtin(Row::Unsigned), &[Slot(3)]),
        ],
        172,
    ),
    // the first item of the rest of a list of 4 and 3, and a jump where a list is empty
    (
        &[
            Apply(Target::Slot(6), Cons, &[Integer(INTEGER, 3), Slot(6)]),
            Apply(Target::Slot(6), Cons, &[Integer(INTEGER, 4), Slot(6)]),
            Apply(Target::Slot(6), Rest, &[Slot(6)]),
            Apply(Target::Slot(1), Item, &[Slot(6), Integer(INTEGER, 0)]),
        ],
        3,
    ),
    (
        &[
            Apply(Target::Slot(2), IsEmpty, &[Slot(6)]),
            JumpIf(Slot(2), 0),
            Set(Target::Slot(1), Integer(INTEGER, 8)),
        ],
        1,
    ),
    // an item is set in a register of a vector, and one is read; in the third nothing went to the register before
    (
        &[
            Set(Target::Register(1), Slot(7)),
            Apply(
                Target::Register(1),
                WithItem,
                &[Register(1), Integer(INTEGER, 1), Integer(INTEGER, 9)],
            ),
            Apply(Target::Slot(1), Item, &[Register(1), Integer(INTEGER, 1)]),
        ],
        9,
    ),
    (
        &[
            Set(Target::Register(1), Slot(7)),
            Apply(
                Target::Register(1),
                WithItem,
                &[Register(1), Integer(INTEGER, 2), Integer(INTEGER, 9)],
            ),
            Apply(Target::Slot(1), Item, &[Register(1), Integer(INTEGER, 1)]),
        ],
        6,
    ),
    (
        &[
            Apply(
                Target::Register(1),
                WithItem,
                &[Register(1), Integer(INTEGER, 0), Integer(INTEGER, 9)],
            ),
            Apply(Target::Slot(1), Item, &[Register(1), Integer(INTEGER, 0)]),
        ],
        0,
    ),
    (
        &[
            Set(Target::Register(1), Slot(7)),
            Apply(
                Target::Register(1),
                WithItem,
                &[Register(1), Integer(INTEGER, -1), Integer(INTEGER, 9)],
            ),
            Apply(Target::Slot(1), Item, &[Register(1), Integer(INTEGER, 0)]),
        ],
        4,
    ),
];

/// The module of a case: its instructions, and what stands before them in its function.
fn module(alloc: Global, before: &[Line], case: &[Line]) -> Result<Module, AllocError> {
    let mut functions = Items::new(alloc);
    functions.push(function(alloc, &CALLER, &[START, before, case, END])?)?;
    functions.push(function(alloc, &CALLEE, &[TWICE])?)?;
    Ok(Module {
        types: types(alloc, TYPES)?,
        exception: OPTION,
        registers: Items::from_slice(alloc, &[INTEGER, TWO])?,
        openings: Items::new(alloc),
        functions,
    })
}

const NAMES: &[&str] = &["R", "S"];

fn registers(alloc: Global) -> Result<Items<ModelRegister>, AllocError> {
    let mut registers = Items::new(alloc);
    for name in NAMES {
        registers.push(ModelRegister {
            name: Text::new(alloc, name)?,
            typ: Typ::Bool,
        })?;
    }
    Ok(registers)
}

/// What a case gives; -100 where the run stops, and nothing where the module isn't valid.
fn given(alloc: Global, before: &[Line], case: &[Line]) -> Result<Option<i128>, AllocError> {
    let module = module(alloc, before, case)?;
    let entries = Entries { reset: 0, step: 0 };
    let Some(machine) = machine(alloc, module, registers(alloc)?, entries)? else {
        return Ok(None);
    };
    match called(
        alloc,
        &machine,
        registers(alloc)?,
        machine.step_entry(),
        Vec::new(alloc),
    )? {
        Some(n) => Ok(Some(n)),
        None => Ok(Some(-100)),
    }
}

#[test]
fn instructions_do_what_they_say(rt: HostRuntime) -> Result<(), Fail> {
    let alloc = rt.alloc();
    for (case, wanted) in CASES {
        assert!(rt; given(alloc, &[], case)? == Some(*wanted));
    }
    for (case, wanted) in PART_CASES {
        assert!(rt; given(alloc, BUILT, case)? == Some(*wanted));
    }
    Ok(())
}
