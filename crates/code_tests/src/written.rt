//! Modules as these tests write them: functions are tables, with an instruction in each row.
use jib::{
    Call, Function, Instruction, Literal, Module, Operation, Source, Target, ValueType, validate,
};
use jib_machine::{Entries, Machine};
use mem_store::Flat;
use model_state::{Cause, Ended, Register, State};
use sail_base::{Items, Place, Word};
use sail_types::{Types, Value};
use std::alloc::{AllocError, Global};

/// What an instruction reads. A constant stands behind the number of its type.
pub enum Read {
    Slot(u32),
    Register(u32),
    Let(u32),
    Unit(u32),
    Integer(u32, i128),
    Truth(u32, bool),
    /// The lowest bits of a number, this many.
    Bits(u32, u8, u128),
}

/// An instruction.
pub enum Line {
    /// The source's value goes to the target.
    Set(Target, Read),
    Apply(Target, Operation, &'static [Read]),
    /// A slot, a function, its arguments, and the label for an exception.
    Enter(u32, u32, &'static [Read], u32),
    JumpIf(Read, u32),
    Payload(u32, Read, u32, u32),
    Goto(u32),
    Label(u32),
    End(Read),
    Throw(Read),
    /// The run stops at its work limit.
    WorkLimit,
    /// The run stops since its steps are done.
    StepsDone,
    NoMeasure,
    Measure(Read),
    Tick,
}

/// The type of a slot or a register.
pub enum Type {
    Unit,
    Integer,
    Truth,
    Bit,
    String,
    Bits(u8),
    Enum(u32, u32),
    List(u32),
    Vector(u16, u32),
    Tuple(&'static [u32]),
    Union(u32, &'static [u32]),
}

/// A function without its code.
#[derive(Clone, Copy)]
pub struct Head {
    pub parameters: &'static [u32],
    pub result: u32,
    pub slots: &'static [u32],
    pub cycle: u32,
    pub lets: u32,
    pub is_pure: bool,
}

fn literal(width: u8, number: u128) -> Literal {
    if width <= 128 {
        Literal::Bits(Word::low(width, number))
    } else {
        Literal::Unit
    }
}

fn source(read: &Read) -> Source {
    match read {
        Read::Slot(slot) => Source::Slot(*slot),
        Read::Register(register) => Source::Register(*register),
        Read::Let(number) => Source::Let(*number),
        Read::Unit(typ) => Source::Constant(*typ, Literal::Unit),
        Read::Integer(typ, integer) => Source::Constant(*typ, Literal::Integer(*integer)),
        Read::Truth(typ, truth) => Source::Constant(*typ, Literal::Truth(*truth)),
        Read::Bits(typ, width, number) => Source::Constant(*typ, literal(*width, *number)),
    }
}

fn sources(alloc: Global, reads: &[Read]) -> Result<Items<Source>, AllocError> {
    let mut sources = Items::new(alloc);
    for read in reads {
        sources.push(source(read))?;
    }
    Ok(sources)
}

/// The instruction of a row.
pub fn instruction(alloc: Global, line: &Line) -> Result<Instruction, AllocError> {
    Ok(match line {
        Line::Set(target, read) => Instruction::Copy(*target, source(read)),
        Line::Apply(target, operation, reads) => {
            Instruction::Apply(*target, *operation, sources(alloc, reads)?)
        }
        Line::Enter(slot, function, reads, on_throw) => Instruction::Call(Call {
            slot: *slot,
            function: *function,
            arguments: sources(alloc, reads)?,
            on_throw: *on_throw,
            place: Place {
                file: 1,
                line: 1,
                column: 1,
            },
        }),
        Line::JumpIf(read, label) => Instruction::JumpIf(source(read), *label),
        Line::Payload(slot, read, constructor, label) => {
            Instruction::Payload(*slot, source(read), *constructor, *label)
        }
        Line::Goto(label) => Instruction::Goto(*label),
        Line::Label(label) => Instruction::Label(*label),
        Line::End(read) => Instruction::End(source(read)),
        Line::Throw(read) => Instruction::Throw(source(read)),
        Line::WorkLimit => Instruction::Stop(Cause::WorkLimit),
        Line::StepsDone => Instruction::Stop(Cause::StepsDone),
        Line::NoMeasure => Instruction::NoMeasure,
        Line::Measure(read) => Instruction::Measure(source(read)),
        Line::Tick => Instruction::Tick,
    })
}

/// Puts the instructions of rows behind others.
pub fn push_lines(
    alloc: Global,
    code: &mut Items<Instruction>,
    lines: &[Line],
) -> Result<(), AllocError> {
    for line in lines {
        code.push(instruction(alloc, line)?)?;
    }
    Ok(())
}

/// A function of this code.
pub fn headed(
    alloc: Global,
    head: &Head,
    code: Items<Instruction>,
) -> Result<Function, AllocError> {
    Ok(Function {
        parameters: Items::from_slice(alloc, head.parameters)?,
        result: head.result,
        slots: Items::from_slice(alloc, head.slots)?,
        cycle: head.cycle,
        lets: head.lets,
        is_pure: head.is_pure,
        code,
    })
}

/// A function whose code is these parts, one behind the other.
pub fn function(alloc: Global, head: &Head, parts: &[&[Line]]) -> Result<Function, AllocError> {
    let mut code = Items::new(alloc);
    for part in parts {
        push_lines(alloc, &mut code, part)?;
    }
    headed(alloc, head, code)
}

fn value_type(alloc: Global, typ: &Type) -> Result<ValueType, AllocError> {
    Ok(match typ {
        Type::Unit => ValueType::Unit,
        Type::Integer => ValueType::Integer,
        Type::Truth => ValueType::Truth,
        Type::Bit => ValueType::Bit,
        Type::String => ValueType::String,
        Type::Bits(width) => ValueType::Bits(*width),
        Type::Enum(place, count) => ValueType::Enum(*place, *count),
        Type::List(item) => ValueType::List(*item),
        Type::Vector(length, item) => ValueType::Vector(*length, *item),
        Type::Tuple(parts) => ValueType::Tuple(Items::from_slice(alloc, parts)?),
        Type::Union(place, payloads) => {
            ValueType::Union(*place, Items::from_slice(alloc, payloads)?)
        }
    })
}

/// Puts the types of rows behind others.
pub fn push_types(
    alloc: Global,
    types: &mut Items<ValueType>,
    rows: &[Type],
) -> Result<(), AllocError> {
    for row in rows {
        types.push(value_type(alloc, row)?)?;
    }
    Ok(())
}

/// The types of rows.
pub fn types(alloc: Global, rows: &[Type]) -> Result<Items<ValueType>, AllocError> {
    let mut types = Items::new(alloc);
    push_types(alloc, &mut types, rows)?;
    Ok(types)
}

/// No named types.
pub fn no_types(alloc: Global) -> Types {
    Types {
        definitions: Items::new(alloc),
    }
}

/// The machine of a module; none where the module isn't valid.
pub fn machine(
    alloc: Global,
    module: Module,
    registers: Items<Register>,
    entries: Entries,
) -> Result<Option<Machine>, AllocError> {
    let Some(checked) = validate(module) else {
        return Ok(None);
    };
    let machine = Machine::new(alloc, checked, no_types(alloc), registers, entries)?;
    Ok(Some(machine))
}

/// The integer that a call of a function of a machine ends with, from the zeros of its registers on; none where it ends otherwise.
pub fn called(
    alloc: Global,
    machine: &Machine,
    registers: Items<Register>,
    function: u32,
    arguments: Vec<Value>,
) -> Result<Option<i128>, AllocError> {
    let memory = Flat::new(alloc, 0, 16)?;
    let mut state = State::new(alloc, no_types(alloc), registers, 1, memory)?;
    match &machine.call(alloc, &mut state, 0, function, arguments)? {
        Ended::Value(Value::Integer(n)) => Ok(Some(*n)),
        _ => Ok(None),
    }
}
