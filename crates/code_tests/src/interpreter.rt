//! A model of a small machine of 16 bits, as flat code: it reads its instructions from memory.
use crate::written::Line::{Apply, End, JumpIf, Label, Set};
use crate::written::Read::{Bits, Integer, Let, Register, Slot, Truth};
use crate::written::{Head, Line, Type, function, machine, no_types, types};
use jib::Operation::{Builtin, Slice};
use jib::{Module, Opening, Target};
use jib_machine::{Entries, Machine};
use mem_store::Flat;
use model_state::{Ended, Register as ModelRegister, State};
use sail_base::{Items, Text, Word};
use sail_types::{Num, Row, Typ, Value};
use std::alloc::{AllocError, Global};
use std::test::Fail;

const UNIT: u32 = 0;

const INTEGER: u32 = 1;

const TRUTH: u32 = 2;

const WORD: u32 = 3;

const ADDRESS: u32 = 4;

const CODE: u32 = 5;

const OPERAND: u32 = 6;

const TYPES: &[Type] = &[
    Type::Unit,
    Type::Integer,
    Type::Truth,
    Type::Bits(16),
    Type::Bits(64),
    Type::Bits(4),
    Type::Bits(12),
];

/// The registers: where the next instruction stands, and the accumulator.
const PLACE: Target = Target::Register(0);

const SUM: Target = Target::Register(1);

/// Reads the instruction, takes it apart, and goes on to the next.
const FETCH: &[Line] = &[
    Apply(
        Target::Slot(2),
        Builtin(Row::ZeroExtend),
        &[Integer(INTEGER, 64), Register(0)],
    ),
    Apply(
        Target::Slot(3),
        Builtin(Row::MemRead),
        &[Integer(INTEGER, 2), Slot(2)],
    ),
    Apply(
        Target::Slot(4),
        Slice,
        &[Slot(3), Integer(INTEGER, 15), Integer(INTEGER, 12)],
    ),
    Apply(
        Target::Slot(5),
        Slice,
        &[Slot(3), Integer(INTEGER, 11), Integer(INTEGER, 0)],
    ),
    Apply(PLACE, Builtin(Row::AddBits), &[Register(0), Let(0)]),
    Apply(
        Target::Slot(7),
        Builtin(Row::ZeroExtend),
        &[Integer(INTEGER, 16), Slot(5)],
    ),
    Apply(
        Target::Slot(2),
        Builtin(Row::ZeroExtend),
        &[Integer(INTEGER, 64), Slot(5)],
    ),
];

/// To the label of the operation; past them the machine rests.
const CHOOSE: &[Line] = &[
    Apply(
        Target::Slot(6),
        Builtin(Row::Eq),
        &[Slot(4), Bits(CODE, 4, 0)],
    ),
    JumpIf(Slot(6), 0),
    Apply(
        Target::Slot(6),
        Builtin(Row::Eq),
        &[Slot(4), Bits(CODE, 4, 1)],
    ),
    JumpIf(Slot(6), 1),
    Apply(
        Target::Slot(6),
        Builtin(Row::Eq),
        &[Slot(4), Bits(CODE, 4, 2)],
    ),
    JumpIf(Slot(6), 2),
    Apply(
        Target::Slot(6),
        Builtin(Row::Eq),
        &[Slot(4), Bits(CODE, 4, 3)],
    ),
    JumpIf(Slot(6), 3),
    Apply(
        Target::Slot(6),
        Builtin(Row::Eq),
        &[Slot(4), Bits(CODE, 4, 4)],
    ),
    JumpIf(Slot(6), 4),
    Apply(
        Target::Slot(6),
        Builtin(Row::Eq),
        &[Slot(4), Bits(CODE, 4, 5)],
    ),
    JumpIf(Slot(6), 5),
    End(Truth(TRUTH, false)),
];

/// 0 sets the accumulator, 1 adds to it, 2 takes away from it.
const SUMS: &[Line] = &[
    Label(0),
    Set(SUM, Slot(7)),
    End(Truth(TRUTH, true)),
    Label(1),
    Apply(SUM, Builtin(Row::AddBits), &[Register(1), Slot(7)]),
    End(Truth(TRUTH, true)),
    Label(2),
    Apply(SUM, Builtin(Row::SubBits), &[Register(1), Slot(7)]),
    End(Truth(TRUTH, true)),
];

/// 3 writes the accumulator to memory, 4 reads it from there, 5 jumps where it isn't zero.
const MOVES: &[Line] = &[
    Label(3),
    Apply(
        Target::Slot(1),
        Builtin(Row::MemWrite),
        &[Integer(INTEGER, 2), Slot(2), Register(1)],
    ),
    End(Truth(TRUTH, true)),
    Label(4),
    Apply(SUM, Builtin(Row::MemRead), &[Integer(INTEGER, 2), Slot(2)]),
    End(Truth(TRUTH, true)),
    Label(5),
    Apply(
        Target::Slot(6),
        Builtin(Row::Neq),
        &[Register(1), Bits(WORD, 16, 0)],
    ),
    JumpIf(Slot(6), 6),
    End(Truth(TRUTH, true)),
    Label(6),
    Set(PLACE, Slot(7)),
    End(Truth(TRUTH, true)),
];

const STEP: Head = Head {
    parameters: &[UNIT],
    result: TRUTH,
    slots: &[INTEGER, UNIT, ADDRESS, WORD, CODE, OPERAND, TRUTH, WORD],
    cycle: 0,
    lets: 1,
    is_pure: false,
};

/// Writes the program to memory, from the entry on. It counts down from a number: it writes the accumulator to memory, takes
/// one away, goes back while it isn't zero, adds 7, reads what was written last, and rests.
const WRITES: &[Line] = &[
    Apply(
        PLACE,
        Builtin(Row::Truncate),
        &[Slot(2), Integer(INTEGER, 16)],
    ),
    Apply(
        Target::Slot(3),
        Builtin(Row::MemWrite),
        &[Integer(INTEGER, 2), Slot(2), Bits(WORD, 16, 0x012c)],
    ),
    Apply(
        Target::Slot(2),
        Builtin(Row::AddBitsInt),
        &[Slot(2), Integer(INTEGER, 2)],
    ),
    Apply(
        Target::Slot(3),
        Builtin(Row::MemWrite),
        &[Integer(INTEGER, 2), Slot(2), Bits(WORD, 16, 0x3100)],
    ),
    Apply(
        Target::Slot(2),
        Builtin(Row::AddBitsInt),
        &[Slot(2), Integer(INTEGER, 2)],
    ),
    Apply(
        Target::Slot(3),
        Builtin(Row::MemWrite),
        &[Integer(INTEGER, 2), Slot(2), Bits(WORD, 16, 0x2001)],
    ),
    Apply(
        Target::Slot(2),
        Builtin(Row::AddBitsInt),
        &[Slot(2), Integer(INTEGER, 2)],
    ),
    Apply(
        Target::Slot(3),
        Builtin(Row::MemWrite),
        &[Integer(INTEGER, 2), Slot(2), Bits(WORD, 16, 0x5002)],
    ),
    Apply(
        Target::Slot(2),
        Builtin(Row::AddBitsInt),
        &[Slot(2), Integer(INTEGER, 2)],
    ),
    Apply(
        Target::Slot(3),
        Builtin(Row::MemWrite),
        &[Integer(INTEGER, 2), Slot(2), Bits(WORD, 16, 0x1007)],
    ),
    Apply(
        Target::Slot(2),
        Builtin(Row::AddBitsInt),
        &[Slot(2), Integer(INTEGER, 2)],
    ),
    Apply(
        Target::Slot(3),
        Builtin(Row::MemWrite),
        &[Integer(INTEGER, 2), Slot(2), Bits(WORD, 16, 0x4100)],
    ),
    Apply(
        Target::Slot(2),
        Builtin(Row::AddBitsInt),
        &[Slot(2), Integer(INTEGER, 2)],
    ),
    Apply(
        Target::Slot(3),
        Builtin(Row::MemWrite),
        &[Integer(INTEGER, 2), Slot(2), Bits(WORD, 16, 0xf000)],
    ),
    Apply(
        Target::Slot(2),
        Builtin(Row::AddBitsInt),
        &[Slot(2), Integer(INTEGER, 2)],
    ),
    End(Slot(3)),
];

const RESET: Head = Head {
    parameters: &[INTEGER, ADDRESS],
    result: UNIT,
    slots: &[INTEGER, INTEGER, ADDRESS, UNIT],
    cycle: 0,
    lets: 0,
    is_pure: false,
};

/// How many bytes an instruction has, which is a let.
const TWO: &[Line] = &[End(Bits(WORD, 16, 2))];

const SIZE: Head = Head {
    parameters: &[],
    result: WORD,
    slots: &[INTEGER],
    cycle: 0,
    lets: 0,
    is_pure: true,
};

const OPENING: Opening = Opening {
    function: 2,
    register: None,
};

fn module(alloc: Global) -> Result<Module, AllocError> {
    let mut functions = Items::new(alloc);
    functions.push(function(alloc, &STEP, &[FETCH, CHOOSE, SUMS, MOVES])?)?;
    functions.push(function(alloc, &RESET, &[WRITES])?)?;
    functions.push(function(alloc, &SIZE, &[TWO])?)?;
    Ok(Module {
        types: types(alloc, TYPES)?,
        exception: INTEGER,
        registers: Items::from_slice(alloc, &[WORD, WORD])?,
        openings: Items::from_slice(alloc, &[OPENING])?,
        functions,
    })
}

const NAMES: &[&str] = &["PLACE", "SUM"];

fn registers(alloc: Global) -> Result<Items<ModelRegister>, AllocError> {
    let mut registers = Items::new(alloc);
    for name in NAMES {
        registers.push(ModelRegister {
            name: Text::new(alloc, name)?,
            typ: Typ::Bits(Num::constant(alloc, 16)),
        })?;
    }
    Ok(registers)
}

/// Starts a machine at address 0.
fn begin(alloc: Global, machine: &Machine, state: &mut State<Flat>) -> Result<(), AllocError> {
    let mut arguments = Vec::new(alloc);
    arguments.push(Value::Integer(0))?;
    arguments.push(Value::Bits(Word::low(64, 0)))?;
    let _begun = machine.call(alloc, state, 0, 1, arguments)?;
    Ok(())
}

/// Takes one step; whether the machine goes on.
fn goes_on(alloc: Global, machine: &Machine, state: &mut State<Flat>) -> Result<bool, AllocError> {
    let mut arguments = Vec::new(alloc);
    arguments.push(Value::Unit)?;
    match &machine.call(alloc, state, 0, machine.step_entry(), arguments)? {
        Ended::Value(Value::Truth(true)) => Ok(true),
        _ => Ok(false),
    }
}

/// How many steps a started machine takes, at most so many, and the accumulator then.
fn steps(
    alloc: Global,
    machine: &Machine,
    state: &mut State<Flat>,
    most: u32,
) -> Result<Option<(u32, u128)>, AllocError> {
    for steps in 0..most {
        if !goes_on(alloc, machine, state)? {
            return Ok(match state.find_register(0, 1) {
                Some(Value::Bits(word)) => Some((steps, word.bits())),
                _ => None,
            });
        }
    }
    Ok(None)
}

/// How many steps the program takes, at most so many, and the accumulator then.
fn run(alloc: Global, most: u32) -> Result<Option<(u32, u128)>, AllocError> {
    let entries = Entries { reset: 1, step: 0 };
    let Some(machine) = machine(alloc, module(alloc)?, registers(alloc)?, entries)? else {
        return Ok(None);
    };
    let memory = Flat::new(alloc, 0, 65536)?;
    let mut state = State::new(alloc, no_types(alloc), registers(alloc)?, 1, memory)?;
    begin(alloc, &machine, &mut state)?;
    steps(alloc, &machine, &mut state, most)
}

#[test]
fn a_machine_of_16_bits_runs_its_program(rt: HostRuntime) -> Result<(), Fail> {
    let alloc = rt.alloc();
    assert!(rt; run(alloc, 2_000)? == Some((903, 1)));
    Ok(())
}
