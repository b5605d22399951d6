//! A machine as what takes a model's steps, started and run by the harts.
use crate::schedules::{are_below, fresh, name};
use harts::{run_order, start};
use jib::{
    Checked, Function, Instruction, Literal, Module, Opening, Operation, Source, Target, ValueType,
    validate,
};
use jib_machine::{Entries, Machine};
use sail_base::{Items, Word};
use sail_types::{Row, Types};
use std::alloc::{AllocError, Global};
use std::test::Fail;

const UNIT: u32 = 0;

const INTEGER: u32 = 1;

const TRUTH: u32 = 2;

const WORD: u32 = 3;

const ADDRESS: u32 = 4;

fn bits(typ: u32, word: Word) -> Source {
    Source::Constant(typ, Literal::Bits(word))
}

/// Two bytes.
fn bytes() -> Source {
    Source::Constant(INTEGER, Literal::Integer(2))
}

fn two(alloc: Global, a: Source, b: Source) -> Result<Items<Source>, AllocError> {
    let mut sources = Items::new(alloc);
    sources.push(a)?;
    sources.push(b)?;
    Ok(sources)
}

/// To write a word at an address.
fn write(alloc: Global, slot: u32, at: Source, word: Source) -> Result<Instruction, AllocError> {
    let mut sources = two(alloc, bytes(), at)?;
    sources.push(word)?;
    Ok(Instruction::Apply(
        Target::Slot(slot),
        Operation::Builtin(Row::MemWrite),
        sources,
    ))
}

/// Writes 3 at the entry.
fn reset(alloc: Global) -> Result<Function, AllocError> {
    let mut code = Items::new(alloc);
    code.push(write(alloc, 3, Source::Slot(2), bits(WORD, Word::low(16, 3)))?)?;
    code.push(Instruction::End(Source::Slot(3)))?;
    Ok(Function {
        parameters: Items::from_slice(alloc, &[INTEGER, ADDRESS])?,
        result: UNIT,
        slots: Items::from_slice(alloc, &[INTEGER, INTEGER, ADDRESS, UNIT])?,
        cycle: 0,
        lets: 0,
        is_pure: false,
        code,
    })
}

/// Takes the let away from the word at address 8, and rests once that is zero.
fn step(alloc: Global) -> Result<Function, AllocError> {
    let at = Word::low(64, 8);
    let mut code = Items::new(alloc);
    let read = two(alloc, bytes(), bits(ADDRESS, at))?;
    code.push(Instruction::Apply(Target::Slot(2), Operation::Builtin(Row::MemRead), read))?;
    let less = two(alloc, Source::Slot(2), Source::Let(0))?;
    code.push(Instruction::Apply(Target::Slot(2), Operation::Builtin(Row::SubBits), less))?;
    code.push(write(alloc, 1, bits(ADDRESS, at), Source::Slot(2))?)?;
    let some = two(alloc, Source::Slot(2), bits(WORD, Word::low(16, 0)))?;
    code.push(Instruction::Apply(Target::Slot(3), Operation::Builtin(Row::Neq), some))?;
    code.push(Instruction::End(Source::Slot(3)))?;
    Ok(Function {
        parameters: Items::from_slice(alloc, &[UNIT])?,
        result: TRUTH,
        slots: Items::from_slice(alloc, &[INTEGER, UNIT, WORD, TRUTH])?,
        cycle: 0,
        lets: 1,
        is_pure: false,
        code,
    })
}

/// The let is 1.
fn one(alloc: Global) -> Result<Function, AllocError> {
    let mut code = Items::new(alloc);
    code.push(Instruction::End(bits(WORD, Word::low(16, 1))))?;
    Ok(Function {
        parameters: Items::new(alloc),
        result: WORD,
        slots: Items::from_slice(alloc, &[INTEGER])?,
        cycle: 0,
        lets: 0,
        is_pure: true,
        code,
    })
}

fn program(alloc: Global) -> Result<Option<Checked>, AllocError> {
    let mut types = Items::new(alloc);
    types.push(ValueType::Unit)?;
    types.push(ValueType::Integer)?;
    types.push(ValueType::Truth)?;
    types.push(ValueType::Bits(16))?;
    types.push(ValueType::Bits(64))?;
    let mut functions = Items::new(alloc);
    functions.push(step(alloc)?)?;
    functions.push(reset(alloc)?)?;
    functions.push(one(alloc)?)?;
    let mut openings = Items::new(alloc);
    openings.push(Opening {
        function: 2,
        register: None,
    })?;
    Ok(validate(Module {
        types,
        exception: INTEGER,
        registers: Items::new(alloc),
        openings,
        functions,
    }))
}

/// The cause and the count of steps of a run of one hart.
fn ran(alloc: Global, events: u32) -> Result<(&'static str, u32), Fail> {
    let Some(checked) = program(alloc)? else {
        return Err("not valid".into());
    };
    let entries = Entries { reset: 1, step: 0 };
    let types = Types {
        definitions: Items::new(alloc),
    };
    let mut machine = Machine::new(alloc, checked, types, Items::new(alloc), entries)?;
    let mut state = fresh(alloc, 1)?;
    if let Some(cause) = start(alloc, &mut machine, &mut state, 8)? {
        return Ok((name(&cause), 0));
    }
    let order = [0];
    if !are_below(&order, state.harts()) {
        return Err("no such hart".into());
    }
    let ending = run_order(alloc, &mut machine, &mut state, &order, events)?;
    Ok((name(&ending.cause), ending.steps))
}

#[test]
fn a_machine_takes_the_steps_of_its_model(rt: HostRuntime) -> Result<(), Fail> {
    let alloc = rt.alloc();
    assert!(rt; ran(alloc, 2)? == ("steps-done", 2));
    assert!(rt; ran(alloc, 9)? == ("all-rest", 3));
    Ok(())
}
