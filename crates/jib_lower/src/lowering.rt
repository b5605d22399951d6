//! The module of a model.
ghost use Rattle.std.specs.Prelude.{◌≡◌, ◌*◌, ◌++◌, Some, length, map, false, IfErr, IfOk, OnOk};
ghost use Rattle.mappings.specs.Rewriting.{without_mappings};
ghost use Rattle.match_rewrite.specs.Rewriting.{with_flat_arms};
ghost use Rattle.jib_lower.specs.Crossings.{calls_of, turned_by as spec_turned, turns_of};
ghost use Rattle.jib_lower.specs.Cycles.{NumbersFit};
ghost use Rattle.jib_lower.specs.Directions.{FunctionsMade};
ghost use Rattle.jib_lower.specs.Leads.{AllAlone, EachAlone};
ghost use Rattle.checked_meaning.specs.Items.{fixed_typ};
ghost use Rattle.lowered_types.specs.Table.{type_in};
ghost use Rattle.jib.specs.Operands.{each};
ghost use Rattle.jib.specs.Valid.{typ_right};
ghost use Rattle.lowered_tables.specs.Built.{value_at};
ghost use Rattle.jib_lower.specs.Errors.{OrMemory};
ghost use Rattle.jib_lower.specs.Left.{TypesLeft};
ghost use Rattle.jib_lower.specs.Lowerable.{FlatLeft, FunctionsLeft, NotLowerable, OpenedLeft, PartsLeft, SomeLeft};
ghost use Rattle.jib_lower.specs.Types.{numbered_types};
ghost use Rattle.jib_lower.specs.Lowered.{FlatBehind, LoweredBehind};
ghost use Rattle.jib_lower.specs.Order.{Ordered, made_in};
ghost use Rattle.jib_lower.specs.Parts.{FunctionsOf, ModelBy, OpenedOf, PartsOf};
ghost use Rattle.jib_lower.specs.Tabled.{ShellOf, TableOf};

use crate::directions::make_ways;
use crate::entering::all_mapped;
use crate::error::LowerError;
use crate::fitting::fitting_numbers;
use crate::instances::{Model, all_called, make_instances, number_of};
use crate::laws::modules_are_valid;
use crate::leads::{each_alone, instances_alone};
use crate::openings::{Opened, make_openings};
use crate::order::order_of;
use crate::turned::turned_by;
use crate::types::{are_small, exception_type, number_types, register_type};
use jib::{Checked, Function as Made, Module, ValueType, are_typs};
use lowered_steps::{Mapped, as_number, further};
use lowered_tables::{Table, TableError};
use lowered_typed::Called;
use mappings::rewrite as without_directions;
use match_rewrite::rewrite;
use model_state::Register;
use sail_base::Items;
use sail_core::{CoreModel, Fragment, model_in};
use sail_types::Types;
use size_values::Sized;
use sized_nodes::SizedCore;
use std::alloc::{AllocError, Global};
use tabled_models::core_tabled;

/// The table of a model's types, where these directions are made; their widths and lengths are small. It fails where a type gets no number, and where memory
/// is wanting.
fn small_table(
    alloc: Global,
    core: &CoreModel,
    sized: &SizedCore,
    turned: &[Option<u32>],
) -> Result<Table, LowerError>
    ensures is { IfOk result (λ table. TableOf core.now sized.now turned.now table) }
    ensures listed { IfOk result (λ table. numbered_types core.now sized.now turned.now ≡ Some table.numbered) }
    ensures values { IfOk result (λ table. table.types ≡ map (value_at core.now.types table.numbered) table.numbered) }
    ensures left { IfErr result (OrMemory (TypesLeft core.now sized.now turned.now)) }
{
    let table = number_types(alloc, core, sized, turned)?;
    let numbered = table.numbered.as_slice();
    let small = are_small(numbered);
    if small {
        Ok(table)
    } else {
        Err(LowerError::Table(TableError::TooWide))
    }
}

/// The types of registers, by their numbers, come behind others. They fail where memory is wanting.
fn push_registers(
    alloc: Global,
    types: &Types,
    numbered: &[Sized],
    registers: &[Register],
    numbers: &mut Items<u32>,
) -> Result<(), AllocError>
    ensures { OnOk result (numbers.new ≡ numbers.old ++ map (λ r. type_in numbered.now (fixed_typ types.now r.typ)) registers.now) }
{
    for register in registers {
        let typ = register_type(alloc, types, register)?;
        let number = number_of(numbered, &typ)?;
        numbers.push(number)?;
    }
    Ok(())
}

/// The types of registers, by their numbers. They fail where memory is wanting.
fn register_numbers(
    alloc: Global,
    core: &CoreModel,
    numbered: &[Sized],
) -> Result<Items<u32>, AllocError>
    ensures { IfOk result (λ numbers. numbers ≡ map (λ r. type_in numbered.now (fixed_typ core.now.types r.typ)) core.now.registers) }
{
    let registers = core.registers.as_slice();
    let mut numbers = Items::new(alloc);
    push_registers(alloc, &core.types, numbered, registers, &mut numbers)?;
    Ok(numbers)
}

/// The module without functions. It fails where a type of the table is none that modules have, and where memory is wanting.
fn make_shell(
    alloc: Global,
    core: &CoreModel,
    numbered: &[Sized],
    types: Items<ValueType>,
) -> Result<Module, LowerError>
    ensures shell { IfOk result (λ shell. ShellOf core.now numbered.now types shell) }
    ensures left { IfErr result (OrMemory (each typ_right 0 types ≡ false)) }
{
    let typ = exception_type(alloc, core.exception);
    let exception = number_of(numbered, &typ)?;
    let registers = register_numbers(alloc, core, numbered)?;
    let all = types.as_slice();
    let typs = are_typs(all);
    if typs {
        Ok(Module {
            types,
            exception,
            registers,
            openings: Items::new(alloc),
            functions: Items::new(alloc),
        })
    } else {
        Err(LowerError::Table(TableError::TooWide))
    }
}

/// What the code of a model is made by, beside the model and what its openings give.
#[derive(Drop)]
struct Parts {
    /// The types that have a number, in order.
    numbered: Items<Sized>,
    /// The module without functions.
    shell: Module,
    /// The type of exceptions.
    exception: Sized,
    /// The type of `()`.
    nothing: Sized,
    /// That of truths.
    truths: Sized,
    /// What calls enter, by the places of instances.
    called: Items<Called>,
    /// What is entered where directions of mappings are asked.
    directions: Items<Mapped>,
    /// The numbers of the cycles of directions, where they are made.
    turned: Items<Option<u32>>,
    /// The directions that are made, in the order of their functions.
    order: Items<u32>,
    /// How many functions stand before those of instances.
    before: u32,
    /// And before those of openings.
    opened_at: u32,
}

/// How many functions the instances of a model have. It fails where there are 2^32 or more.
fn count_functions(sized: &SizedCore) -> Result<u32, AllocError>
    ensures { IfOk result (λ count. count ≡ 2 * length sized.now.instances) }
{
    let many = sized.instances.len();
    let count = as_number(many)?;
    further(count, count)
}

/// The parts of a model of which directions with these numbers of cycles are made, in this order, where those of functions fit. It fails as `lower` does.
fn parts_of(
    alloc: Global,
    core: &CoreModel,
    sized: &SizedCore,
    cycles: &[u32],
    turned: Items<Option<u32>>,
    order: Items<u32>,
) -> Result<Parts, LowerError>
    requires fit { NumbersFit core.now.functions sized.now.instances sized.now.mappings (turns_of core.now) cycles.now }
    requires turned { turned ≡ spec_turned core.now sized.now cycles.now }
    requires ordered { Ordered (calls_of core.now.directions) (made_in 0 turned) order }
    ensures parts { IfOk result (λ parts. PartsOf core.now sized.now parts) }
    ensures left { IfErr result (OrMemory (PartsLeft core.now sized.now)) }
{
    let ways = turned.as_slice();
    let table = small_table(alloc, core, sized, ways)?;
    let Table { numbered, types } = table;
    let numbers = numbered.as_slice();
    let shell = make_shell(alloc, core, numbers, types)?;
    let called = all_called(alloc, core, sized, numbers, cycles, ways)?;
    let exception = exception_type(alloc, core.exception);
    let before = as_number(order.len())?;
    let many = count_functions(sized)?;
    let opened_at = further(before, many)?;
    let mapped = core.directions.as_slice();
    let directions = all_mapped(alloc, &core.types, order.as_slice(), mapped)?;
    Ok(Parts {
        numbered,
        shell,
        exception,
        nothing: Sized::Unit,
        truths: Sized::Bool,
        called,
        directions,
        turned,
        order,
        before,
        opened_at,
    })
}

/// What the code of a model is made by. It fails as `lower` does.
fn make_parts(alloc: Global, core: &CoreModel, sized: &SizedCore) -> Result<Parts, LowerError>
    ensures parts { IfOk result (λ parts. PartsOf core.now sized.now parts) }
    ensures left { IfErr result (OrMemory (PartsLeft core.now sized.now)) }
{
    let found = fitting_numbers(alloc, core, sized)?;
    let cycles = found.as_slice();
    let turned = turned_by(alloc, core, sized, cycles)?;
    let order = order_of(alloc, core, turned.as_slice())?;
    parts_of(alloc, core, sized, cycles, turned, order)
}

/// A model of these parts, where openings of these types are read, and these are of names.
fn model_by<'x>(
    core: &'x CoreModel,
    sized: &'x SizedCore,
    parts: &'x Parts,
    lets: &'x [u32],
    openings: &'x [u32],
) -> Model<'x>
    ensures is { ModelBy core.now sized.now parts.now result }
    ensures lets { result.lets.now ≡ lets.now }
    ensures openings { result.openings.now ≡ openings.now }
{
    let numbered = parts.numbered.as_slice();
    let called = parts.called.as_slice();
    let directions = parts.directions.as_slice();
    let turned = parts.turned.as_slice();
    let order = parts.order.as_slice();
    Model {
        core,
        sized,
        numbered,
        shell: &parts.shell,
        exception: &parts.exception,
        nothing: &parts.nothing,
        truths: &parts.truths,
        called,
        directions,
        turned,
        order,
        before: parts.before,
        lets,
        openings,
    }
}

/// The functions of openings, which stand behind those of directions and of instances. They fail as `lower` does.
fn opened_of<'x>(
    alloc: Global,
    core: &'x CoreModel,
    sized: &'x SizedCore,
    parts: &'x Parts,
) -> Result<Opened, LowerError>
    ensures opened { IfOk result (λ opened. OpenedOf core.now sized.now parts.now opened) }
    ensures left { IfErr result (OrMemory (OpenedLeft core.now sized.now parts.now)) }
{
    let bare = model_by(core, sized, parts, &[], &[]);
    make_openings(alloc, &bare, parts.opened_at)
}

/// Functions come behind others. They fail where memory is wanting.
fn push_all(functions: &mut Items<Made>, others: Items<Made>) -> Result<(), AllocError>
    ensures { OnOk result (functions.new ≡ functions.old ++ others) }
{
    for function in others.into_vec() {
        functions.push(function)?;
    }
    Ok(())
}

/// The functions of directions, and behind these those of instances. They fail as `lower` does.
fn make_functions<'x>(alloc: Global, model: &'x Model<'x>) -> Result<Items<Made>, LowerError>
    ensures made { IfOk result (λ functions. FunctionsMade model.now functions) }
    ensures left { IfErr result (OrMemory (SomeLeft model.now)) }
{
    let mut functions = make_ways(alloc, &*model)?;
    let called = make_instances(alloc, &*model)?;
    push_all(&mut functions, called)?;
    Ok(functions)
}

/// The functions of directions and of instances, which may read these openings. They fail as `lower` does.
fn functions_of<'x>(
    alloc: Global,
    core: &'x CoreModel,
    sized: &'x SizedCore,
    parts: &'x Parts,
    opened: &'x Opened,
) -> Result<Items<Made>, LowerError>
    ensures made { IfOk result (λ functions. FunctionsOf core.now sized.now parts.now opened.now functions) }
    ensures left { IfErr result (OrMemory (FunctionsLeft core.now sized.now parts.now opened.now)) }
{
    let lets = opened.types.as_slice();
    let openings = opened.names.as_slice();
    let model = model_by(core, sized, parts, lets, openings);
    make_functions(alloc, &model)
}

/// The module of a model.
#[derive(Drop)]
struct Placed {
    /// The module.
    program: Module,
    /// How many functions of directions stand before those of instances.
    before: u32,
}

/// The module of a model with flat arms, whose calls are told apart by the numbers of their nodes. It fails as `lower` does.
fn module_of(alloc: Global, core: &CoreModel, sized: &SizedCore) -> Result<Placed, LowerError>
    requires alone { AllAlone sized.now.instances }
    requires openings { EachAlone sized.now.openings }
    ensures made { IfOk result (λ placed. FlatBehind core.now sized.now placed.program placed.before) }
    ensures left { IfErr result (OrMemory (FlatLeft core.now sized.now)) }
{
    let parts = make_parts(alloc, core, sized)?;
    let opened = opened_of(alloc, &*core, &*sized, &parts)?;
    let mut functions = functions_of(alloc, &*core, &*sized, &parts, &opened)?;
    push_all(&mut functions, opened.functions)?;
    let before = parts.before;
    let shell = parts.shell;
    let Module {
        types,
        exception,
        registers,
        openings: _,
        functions: _,
    } = shell;
    let program = Module {
        types,
        exception,
        registers,
        openings: opened.openings,
        functions,
    };
    Ok(Placed { program, before })
}

/// The module of a model with flat arms. It fails as `lower` does.
fn lower_module(alloc: Global, core: &CoreModel, sized: &SizedCore) -> Result<Placed, LowerError>
    ensures made { IfOk result (λ placed. FlatBehind core.now sized.now placed.program placed.before) }
    ensures left { IfErr result (OrMemory (FlatLeft core.now sized.now)) }
{
    let instances = sized.instances.as_slice();
    let alone = instances_alone(instances);
    let openings = sized.openings.as_slice();
    let apart = each_alone(openings);
    if alone {
        if apart {
            module_of(alloc, core, sized)
        } else {
            Err(LowerError::NotThere)
        }
    } else {
        Err(LowerError::NotThere)
    }
}

/// A model that is lowered.
#[derive(Drop)]
pub struct Lowered {
    /// The model without mappings and with flat arms.
    pub flat: CoreModel,
    /// Its module.
    pub checked: Checked,
    /// How many functions of directions stand before those of instances.
    pub before: u32,
}

/// The module of a model as it is written, with the sizes of its nodes: first the functions of directions of mappings that are asked, each behind those that it
/// asks, then of the i-th instance the function 2i behind these, which calls enter, and the function 2i + 1, which events enter, and behind them those of
/// openings. It fails where the tables of the model aren't whole under the numbers that are noted before a value is there, where a tree isn't lowered here or a
/// case of it doesn't fit, where a type gets no number, and where memory is wanting.
pub fn lower(alloc: Global, written: CoreModel, sized: &SizedCore) -> Result<Lowered, LowerError>
    ensures flat { IfOk result (λ lowered. lowered.flat ≡ with_flat_arms (without_mappings written)) }
    ensures made { IfOk result (λ lowered. LoweredBehind written sized.now lowered.checked.program lowered.before) }
    ensures left { IfErr result (OrMemory (NotLowerable written sized.now)) }
{
    let tabled = core_tabled(alloc, false, &written)?;
    let resolved = model_in(Fragment::Resolved, &written);
    if tabled {
        if resolved {
            let free = without_directions(alloc, written)?;
            let flat = rewrite(alloc, free)?;
            let placed = lower_module(alloc, &flat, sized)?;
            modules_are_valid();
            let Placed { program, before } = placed;
            Ok(Lowered {
                flat,
                checked: Checked { program },
                before,
            })
        } else {
            Err(LowerError::NotResolved)
        }
    } else {
        Err(LowerError::NotTabled)
    }
}
