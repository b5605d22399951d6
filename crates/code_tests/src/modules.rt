//! Modules by hand: one that keeps all rules, and for each rule some that break it alone.
use crate::written::Line::{
    End, Enter, Goto, JumpIf, Label, Measure, NoMeasure, Payload, Set, StepsDone, Throw, Tick,
    WorkLimit,
};
use crate::written::Read::{Bits, Integer, Let, Slot, Truth, Unit};
use crate::written::{
    Head, Line, Type, function, headed, instruction, push_lines, push_types, types,
};
use jib::{
    Checked, Function, Instruction, Module, Opening, Operation, Source, Target, ValueType,
    label_place, validate,
};
use sail_base::Items;
use sail_types::Row;
use std::alloc::{AllocError, Global};
use std::test::Fail;

const UNIT: u32 = 0;

const INTEGER: u32 = 1;

const TRUTH: u32 = 2;

const BYTE: u32 = 3;

const STRING: u32 = 4;

/// A union of an integer's constructor and a unit's; the exceptions are of this type too.
const OPTION: u32 = 5;

const INTEGERS: u32 = 6;

/// A vector of two integers.
const TWO: u32 = 7;

/// A tuple of an integer and a truth.
const PAIR: u32 = 8;

const BIT: u32 = 9;

/// What is changed in the module that keeps all rules.
#[derive(Clone, Copy)]
enum Change {
    Nothing,
    /// Bits of 129.
    Wide,
    /// A vector of a type that stands behind it.
    Forward,
    /// An enum without a member.
    Empty,
    /// A vector of 4,097.
    Long,
    /// A register of a type that isn't there.
    Register,
    /// Exceptions of a type that isn't there.
    Exception,
    /// A first slot that isn't for exceptions.
    FirstSlot,
    /// A parameter that isn't in its slot.
    Parameter,
    /// A result of a type that isn't there.
    Answer,
    /// A callee of a higher cycle.
    Cycle,
    /// A callee that reads more openings.
    Lets,
    /// An opening that isn't pure.
    Impure,
    /// An opening that reads itself.
    ReadsItself,
    /// An opening for a register of another type.
    OtherRegister,
}

const TYPES: &[Type] = &[
    Type::Unit,
    Type::Integer,
    Type::Truth,
    Type::Bits(8),
    Type::String,
    Type::Union(0, &[INTEGER, UNIT]),
    Type::List(INTEGER),
    Type::Vector(2, INTEGER),
    Type::Tuple(&[INTEGER, TRUTH]),
    Type::Bit,
];

const WIDE: &[Type] = &[Type::Bits(129)];

const FORWARD: &[Type] = &[Type::Vector(2, 10)];

const EMPTY: &[Type] = &[Type::Enum(1, 0)];

const LONG: &[Type] = &[Type::Vector(4097, BIT)];

/// The types that a change puts behind the others.
fn more_types(change: Change) -> &'static [Type] {
    match change {
        Change::Wide => WIDE,
        Change::Forward => FORWARD,
        Change::Empty => EMPTY,
        Change::Long => LONG,
        _ => &[],
    }
}

/// A slot for each type, the first for exceptions, and the last for unit.
const SLOTS: &[u32] = &[
    OPTION, INTEGER, TRUTH, BYTE, STRING, OPTION, INTEGERS, TWO, PAIR, BIT, UNIT,
];

const INTEGER_ALONE: &[u32] = &[INTEGER];

const TRUTH_ALONE: &[u32] = &[TRUTH];

const TWO_INTEGERS: &[u32] = &[INTEGER, INTEGER];

/// What stands behind the instruction in the first function.
const END: &[Line] = &[Label(0), End(Slot(1))];

/// A tick, the instruction, a label and the end.
fn code(alloc: Global, instruction: Instruction) -> Result<Items<Instruction>, AllocError> {
    let mut code = Items::new(alloc);
    code.push(Instruction::Tick)?;
    code.push(instruction)?;
    push_lines(alloc, &mut code, END)?;
    Ok(code)
}

fn caller(change: Change) -> Head {
    Head {
        parameters: match change {
            Change::Parameter => TRUTH_ALONE,
            _ => INTEGER_ALONE,
        },
        result: INTEGER,
        slots: match change {
            Change::FirstSlot => TWO_INTEGERS,
            _ => SLOTS,
        },
        cycle: 1,
        lets: 1,
        is_pure: false,
    }
}

/// Takes an integer and gives a truth.
fn callee(change: Change) -> Head {
    Head {
        parameters: &[INTEGER],
        result: TRUTH,
        slots: &[OPTION, INTEGER],
        cycle: match change {
            Change::Cycle => 2,
            _ => 1,
        },
        lets: match change {
            Change::Lets => 2,
            _ => 1,
        },
        is_pure: false,
    }
}

const GIVES_TRUE: &[Line] = &[Tick, End(Truth(TRUTH, true))];

/// Works out a byte.
fn initial(change: Change) -> Head {
    Head {
        parameters: &[],
        result: BYTE,
        slots: &[OPTION, BYTE],
        cycle: 0,
        lets: match change {
            Change::ReadsItself => 1,
            _ => 0,
        },
        is_pure: match change {
            Change::Impure => false,
            _ => true,
        },
    }
}

const GIVES_ZERO: &[Line] = &[Set(Target::Slot(1), Bits(BYTE, 8, 0)), End(Slot(1))];

const GIVES_ITSELF: &[Line] = &[Set(Target::Slot(1), Bits(BYTE, 8, 0)), End(Let(0))];

/// A function that throws always.
fn thrower(change: Change) -> Head {
    Head {
        parameters: &[],
        result: match change {
            Change::Answer => 10,
            _ => UNIT,
        },
        slots: &[OPTION],
        cycle: 0,
        lets: 0,
        is_pure: true,
    }
}

const THROWS: &[Line] = &[Throw(Slot(0))];

/// The functions of a module with this instruction in its first function, and one change.
fn functions(
    alloc: Global,
    change: Change,
    instruction: Instruction,
) -> Result<Items<Function>, AllocError> {
    let works_out = match change {
        Change::ReadsItself => GIVES_ITSELF,
        _ => GIVES_ZERO,
    };
    let mut functions = Items::new(alloc);
    functions.push(headed(alloc, &caller(change), code(alloc, instruction)?)?)?;
    functions.push(function(alloc, &callee(change), &[GIVES_TRUE])?)?;
    functions.push(function(alloc, &initial(change), &[works_out])?)?;
    functions.push(function(alloc, &thrower(change), &[THROWS])?)?;
    Ok(functions)
}

fn opening(change: Change) -> Opening {
    Opening {
        function: 2,
        register: match change {
            Change::OtherRegister => Some(1),
            _ => Some(0),
        },
    }
}

const REGISTERS: &[u32] = &[BYTE, TWO];

const UNKNOWN_REGISTERS: &[u32] = &[BYTE, TWO, 10];

fn all_types(alloc: Global, change: Change) -> Result<Items<ValueType>, AllocError> {
    let mut types = types(alloc, TYPES)?;
    push_types(alloc, &mut types, more_types(change))?;
    Ok(types)
}

/// A module with this instruction in its first function, and one change.
fn module(alloc: Global, change: Change, instruction: Instruction) -> Result<Module, AllocError> {
    let registers = match change {
        Change::Register => UNKNOWN_REGISTERS,
        _ => REGISTERS,
    };
    Ok(Module {
        types: all_types(alloc, change)?,
        exception: match change {
            Change::Exception => 10,
            _ => OPTION,
        },
        registers: Items::from_slice(alloc, registers)?,
        openings: Items::from_slice(alloc, &[opening(change)])?,
        functions: functions(alloc, change, instruction)?,
    })
}

fn is_valid(alloc: Global, change: Change, instruction: Instruction) -> Result<bool, AllocError> {
    let checked: Option<Checked> = validate(module(alloc, change, instruction)?);
    Ok(checked.is_some())
}

/// An operation, the slots that it takes and the one that it writes, and whether their types are right.
type Typing = (Operation, &'static [u32], u32, bool);

const OPERATIONS: &[Typing] = &[
    (Operation::Builtin(Row::AddInt), &[1, 1], 1, true),
    (Operation::Builtin(Row::AddInt), &[1], 1, false),
    (Operation::Builtin(Row::AddInt), &[1, 2], 1, false),
    (Operation::Builtin(Row::AddInt), &[1, 1], 3, false),
    (Operation::Builtin(Row::AddInt), &[1, 11], 1, false),
    (Operation::Builtin(Row::Eq), &[3, 3], 2, true),
    (Operation::Builtin(Row::Eq), &[3, 1], 2, false),
    (Operation::Builtin(Row::Neq), &[6, 6], 2, false),
    (Operation::Builtin(Row::Length), &[7], 1, true),
    (Operation::Builtin(Row::Length), &[6], 1, false),
    (Operation::Builtin(Row::VectorInit), &[1, 1], 7, true),
    (Operation::Builtin(Row::VectorInit), &[1, 2], 7, false),
    (Operation::Builtin(Row::MemRead), &[1, 3], 3, true),
    (Operation::Builtin(Row::MemWrite), &[1, 3, 3], 10, true),
    (Operation::Builtin(Row::MemWrite), &[1, 3], 10, false),
    (Operation::Builtin(Row::Print), &[4], 10, true),
    (Operation::Same, &[3], 3, true),
    (Operation::Same, &[3], 1, false),
    (Operation::Build, &[1, 2], 8, true),
    (Operation::Build, &[2, 1], 8, false),
    (Operation::Build, &[1, 1], 7, true),
    (Operation::Build, &[1], 7, false),
    (Operation::Build, &[1, 1, 1], 6, true),
    (Operation::Build, &[1], 1, false),
    (Operation::Construct(0), &[1], 5, true),
    (Operation::Construct(1), &[1], 5, false),
    (Operation::Construct(2), &[1], 5, false),
    (Operation::Field(1), &[8], 2, true),
    (Operation::Field(2), &[8], 2, false),
    (Operation::WithField(1), &[8, 2], 8, true),
    (Operation::WithField(0), &[8, 2], 8, false),
    (Operation::Item, &[7, 1], 1, true),
    (Operation::Item, &[3, 1], 9, true),
    (Operation::Item, &[3, 1], 1, false),
    (Operation::WithItem, &[7, 1, 1], 7, true),
    (Operation::WithItem, &[7, 1, 2], 7, false),
    (Operation::Slice, &[3, 1, 1], 3, true),
    (Operation::Slice, &[3, 1, 2], 3, false),
    (Operation::WithSlice, &[3, 1, 1, 3], 3, true),
    (Operation::WithSlice, &[3, 1, 1, 1], 3, false),
    (Operation::Cons, &[1, 6], 6, true),
    (Operation::Cons, &[2, 6], 6, false),
    (Operation::Rest, &[6], 6, true),
    (Operation::Rest, &[7], 7, false),
    (Operation::IsEmpty, &[6], 2, true),
    (Operation::IsEmpty, &[6], 1, false),
];

fn slots(alloc: Global, slots: &[u32]) -> Result<Items<Source>, AllocError> {
    let mut sources = Items::new(alloc);
    for slot in slots {
        sources.push(Source::Slot(*slot))?;
    }
    Ok(sources)
}

#[test]
fn operations_have_their_types(rt: HostRuntime) -> Result<(), Fail> {
    let alloc = rt.alloc();
    for (operation, taken, target, right) in OPERATIONS {
        let sources = slots(alloc, taken)?;
        let instruction = Instruction::Apply(Target::Slot(*target), *operation, sources);
        assert!(rt; is_valid(alloc, Change::Nothing, instruction)? == *right);
    }
    Ok(())
}

/// An instruction, and whether it keeps the rules.
const INSTRUCTIONS: &[(Line, bool)] = &[
    (Set(Target::Slot(INTEGER), Integer(INTEGER, 1 << 126)), true),
    (
        Set(Target::Slot(INTEGER), Integer(INTEGER, (1 << 126) + 1)),
        false,
    ),
    (Set(Target::Slot(BYTE), Bits(BYTE, 8, 1)), true),
    (Set(Target::Slot(BYTE), Bits(BYTE, 4, 1)), false),
    (Set(Target::Slot(INTEGERS), Unit(INTEGERS)), false),
    (Set(Target::Slot(1), Slot(2)), false),
    (Set(Target::Slot(11), Slot(1)), false),
    (Set(Target::Register(0), Slot(3)), true),
    (Set(Target::Register(1), Slot(3)), false),
    (Set(Target::Slot(3), Let(0)), true),
    (Set(Target::Slot(3), Let(1)), false),
    (Enter(2, 1, &[Slot(1)], 0), true),
    (Enter(1, 1, &[Slot(1)], 0), false),
    (Enter(2, 1, &[Slot(2)], 0), false),
    (Enter(2, 4, &[Slot(1)], 0), false),
    (Enter(2, 1, &[Slot(1)], 1), false),
    (Enter(3, 2, &[Slot(1)], 0), false),
    (JumpIf(Slot(2), 0), true),
    (JumpIf(Slot(1), 0), false),
    (JumpIf(Slot(2), 1), false),
    (Payload(1, Slot(5), 0, 0), true),
    (Payload(1, Slot(5), 1, 0), false),
    (Goto(0), true),
    (Label(0), false),
    (Label(1), true),
    (End(Slot(2)), false),
    (Throw(Slot(5)), true),
    (Throw(Slot(1)), false),
    (WorkLimit, true),
    (StepsDone, false),
    (NoMeasure, true),
    (Measure(Slot(1)), true),
    (Measure(Slot(2)), false),
    (Tick, true),
];

#[test]
fn instructions_keep_their_rules(rt: HostRuntime) -> Result<(), Fail> {
    let alloc = rt.alloc();
    for (line, right) in INSTRUCTIONS {
        let instruction = instruction(alloc, line)?;
        assert!(rt; is_valid(alloc, Change::Nothing, instruction)? == *right);
    }
    Ok(())
}

const CHANGES: &[(Change, bool)] = &[
    (Change::Nothing, true),
    (Change::Wide, false),
    (Change::Forward, false),
    (Change::Empty, false),
    (Change::Long, false),
    (Change::Register, false),
    (Change::Exception, false),
    (Change::FirstSlot, false),
    (Change::Parameter, false),
    (Change::Answer, false),
    (Change::Cycle, false),
    (Change::Lets, false),
    (Change::Impure, false),
    (Change::ReadsItself, false),
    (Change::OtherRegister, false),
];

/// A call that keeps the rules.
const CALL: Line = Enter(2, 1, &[Slot(1)], 0);

#[test]
fn modules_keep_their_rules(rt: HostRuntime) -> Result<(), Fail> {
    let alloc = rt.alloc();
    for (change, right) in CHANGES {
        let instruction = instruction(alloc, &CALL)?;
        assert!(rt; is_valid(alloc, *change, instruction)? == *right);
    }
    Ok(())
}

#[test]
fn labels_have_places(rt: HostRuntime) -> Result<(), Fail> {
    let alloc = rt.alloc();
    let code = code(alloc, Instruction::Goto(0))?;
    assert!(rt; label_place(code.as_slice(), 0) == Some(2));
    assert!(rt; label_place(code.as_slice(), 1) == None);
    Ok(())
}
