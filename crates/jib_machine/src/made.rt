//! The machine of a module, and calls of its functions.
ghost use Rattle.std.specs.Prelude.{◌≡◌, List, [], IfOk};
ghost use Rattle.model_state.specs.RunState.{Access};
ghost use Rattle.jib.specs.Openings.{Calls, Opens};
ghost use Rattle.jib_machine.specs.parts.Tables.{aimed, aims, tables_for};
ghost use Rattle.jib_machine.specs.Events.{blank};
ghost use Rattle.jib.specs.Valid.{aim};

use crate::ended::ended;
use crate::entries::Entries;
use crate::machine::Machine;
use crate::opened::work_out;
use crate::zeros::needs_of_all;
use jib::{Checked, Function, Instruction, label_place};
use mem_store::Memory;
use model_state::{Ended, Register, State};
use sail_base::Items;
use sail_types::{Types, Value};
use std::alloc::{AllocError, Global};

/// How many ticks an event has.
const TICKS: u32 = 1_000_000;

/// The label that an instruction may go to.
fn label_of(instruction: &Instruction) -> Option<u32>
    ensures { result ≡ aim instruction.now }
{
    match instruction {
        Instruction::JumpIf(_, label) => Some(*label),
        Instruction::Payload(_, _, _, label) => Some(*label),
        Instruction::Goto(label) => Some(*label),
        Instruction::Call(call) => Some(call.on_throw),
        _ => None,
    }
}

/// Where an instruction of some code may jump to; 0 where it jumps nowhere.
fn aim_in(code: &[Instruction], instruction: &Instruction) -> usize
    ensures { result ≡ aimed code.now (aim instruction.now) }
{
    match label_of(instruction) {
        None => 0,
        Some(label) => label_place(code, label).unwrap_or(0),
    }
}

/// Where each instruction of some code may jump to.
fn table_of(alloc: Global, code: &[Instruction]) -> Result<Items<usize>, AllocError>
    ensures { IfOk result (λ table. table ≡ aims code.now code.now) }
{
    let mut table = Items::new(alloc);
    for instruction in code {
        table.push(aim_in(code, instruction))?;
    }
    Ok(table)
}

/// The tables of all functions.
fn tables_of(alloc: Global, functions: &[Function]) -> Result<Items<Items<usize>>, AllocError>
    ensures { IfOk result (λ tables. tables ≡ tables_for functions.now) }
{
    let mut tables = Items::new(alloc);
    for function in functions {
        tables.push(table_of(alloc, function.code.as_slice())?)?;
    }
    Ok(tables)
}

impl Machine {
    /// The machine of a valid module, with the named types and the registers of its model and the functions that its start
    /// and its events enter. The openings of the module are worked out, in order. It fails where memory is wanting.
    pub fn new(
        alloc: Global,
        checked: Checked,
        types: Types,
        registers: Items<Register>,
        entries: Entries,
    ) -> Result<Machine, AllocError>
        ensures program { IfOk result (λ machine. machine.program ≡ checked.program) }
        ensures types { IfOk result (λ machine. machine.types ≡ types) }
        ensures registers { IfOk result (λ machine. machine.registers ≡ registers) }
        ensures entries { IfOk result (λ machine. machine.entries ≡ entries) }
        ensures opened { IfOk result (λ machine. Opens checked.program types blank checked.program.openings [] machine.opened machine.lets) }
    {
        let Checked { program } = checked;
        let places = tables_of(alloc, program.functions.as_slice())?;
        let needs = needs_of_all(alloc, program.functions.as_slice())?;
        let openings = Items::from_slice(alloc, program.openings.as_slice())?;
        let mut machine = Machine {
            program,
            types,
            registers,
            entries,
            lets: Items::new(alloc),
            opened: Items::new(alloc),
            places,
            needs,
        };
        let endings = work_out(alloc, &mut machine, openings.as_slice())?;
        machine.opened = endings;
        Ok(machine)
    }

    /// The number of `step` in the module.
    pub fn step_entry(&self) -> u32
        ensures { result ≡ self.now.entries.step }
    {
        self.entries.step
    }

    /// Calls a function of the module by a hart, as the meaning of its code says, with the ticks of one event. It fails where
    /// memory is wanting; the run is over then.
    pub fn call<M: Memory>(
        &self,
        alloc: Global,
        state: &mut State<M>,
        hart: u8,
        entry: u32,
        arguments: Vec<Value>,
    ) -> Result<Ended, AllocError>
        ensures { IfOk result (λ ended. (accesses : List Access) × Calls self.now.program self.now.types self.now.lets hart 1000000 entry
            arguments.items state.old (record { ended = ended; state = state.new; accesses = accesses })) }
    {
        let ending = self.run(alloc, state, hart, entry, arguments, TICKS)?;
        let ended = ended(alloc, &self.types, ending)?;
        Ok(ended)
    }
}
