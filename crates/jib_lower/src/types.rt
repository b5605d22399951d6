//! The types that have a number in the module of a model: those that every model has, and those of all that its nodes, its instances and its registers
//! make and take.
ghost use Rattle.std.specs.Prelude.{ℕ, ◌≡◌, ◌≤◌, ◌<◌, ◌∷◌, [], None, map, pos, true, Some, IfErr, IfOk, IsTrue, OnOk};
ghost use Rattle.sail_types.specs.Limits.{is_small};
ghost use Rattle.size_values.specs.declared.sized.Sized.{out-Sized};
ghost use Rattle.size_values.specs.declared.sized.Sized.TheVariants as S;
ghost use Rattle.checked_meaning.specs.Items.{fixed_typ};
ghost use Rattle.lowered_types.specs.Table.{all_known, is_known};
ghost use Rattle.lowered_pieces.specs.Arms.{width_or, word_width};
ghost use Rattle.lowered_validity.specs.Laws.{sizes_small};
ghost use Rattle.lowered_pieces.specs.Emitted.{Begins};
ghost use Rattle.lowered_tables.specs.Built.{Stands, length_fits, sizes_fit, value_at, width_fits, with_numbers};
ghost use Rattle.jib_lower.specs.Types.{all_in_bodies, all_in_cases, all_in_instances, all_in_leads, all_in_nodes, all_in_registers, all_in_told, all_in_ways};
ghost use Rattle.jib_lower.specs.Types.{AllNarrow, all_small, exception_typ, in_signature};
ghost use Rattle.jib_lower.specs.Types as asked;
ghost use Rattle.jib_lower.specs.Errors.{OrMemory};
ghost use Rattle.jib_lower.specs.Left.{TypesLeft};

use crate::error::LowerError;
use crate::way_types::add_ways;
use lowered_tables::{Table, TypeList, add_all, add_type, new_list, table_of};
use model_state::Register;
use sail_base::Items;
use sail_core::CoreModel;
use sail_types::Types;
use size_values::{Sized, typ_sized};
use sized_nodes::{Case, Lead, NodeSizes, Signature, SizedCore, SizedInstance, Told};
use std::alloc::{AllocError, Global};

/// The type of exceptions: the union `exception`, where the model has one; else that of `()`.
pub fn exception_type(alloc: Global, exception: Option<u32>) -> Sized
    ensures { result ≡ exception_typ exception }
{
    match exception {
        Some(place) => Sized::Named(place, Items::new(alloc), Items::new(alloc)),
        None => Sized::Unit,
    }
}

/// Whether this can be a width of words.
fn is_width(width: i128) -> bool
    ensures small { IsTrue result → is_small width ≡ true }
    ensures narrow { IsTrue result → width_or (Some width) ≤ 128 }
    ensures fits { result ≡ width_fits width }
{
    0 <= width && width <= 128
}

/// Whether this can be a length.
fn is_length(length: i128) -> bool
    ensures small { IsTrue result → is_small length ≡ true }
    ensures fits { result ≡ length_fits length }
{
    0 <= length && length <= 4096
}

/// Whether the width or the length of a type is small.
fn has_small(typ: &Sized) -> bool
    ensures small { IsTrue result → sizes_small (out-Sized typ.now) ≡ true }
    ensures narrow { IsTrue result → word_width (out-Sized typ.now) ≤ 128 }
    ensures fits { result ≡ sizes_fit (out-Sized typ.now) }
{
    match typ {
        Sized::Bits(width) => is_width(*width),
        Sized::Vector(length, _) => is_length(*length),
        _ => true,
    }
}

/// Whether all widths and lengths are small.
pub fn are_small(numbered: &[Sized]) -> bool
    ensures small { IsTrue result → all_small numbered.now ≡ true }
    ensures narrow { IsTrue result → AllNarrow numbered.now }
    ensures fits { result ≡ asked.all_sizes_fit numbered.now }
{
    match numbered {
        [] => true,
        [first, rest @ ..] => has_small(first) && are_small(rest),
    }
}

/// The type of a register, which has no variable. It fails where memory is wanting.
pub fn register_type(alloc: Global, types: &Types, register: &Register) -> Result<Sized, AllocError>
    ensures { IfOk result (λ typ. typ ≡ fixed_typ types.now register.now.typ) }
{
    typ_sized(alloc, types, &[], &register.typ, &[])
}

/// The types of cases get numbers. It fails as for a type.
fn add_cases(
    alloc: Global,
    types: &Types,
    table: &mut TypeList,
    cases: &[Case],
) -> Result<(), LowerError>
    ensures known { OnOk result (all_in_cases table.new.numbered cases.now ≡ true) }
    ensures grown { OnOk result (Begins table.old.numbered table.new.numbered) }
    ensures listed { OnOk result (with_numbers types.now table.old.numbered (asked.types_in_cases cases.now) ≡ Some table.new.numbered) }
    ensures left { IfErr result (OrMemory (with_numbers types.now table.old.numbered (asked.types_in_cases cases.now) ≡ None)) }
{
    for case in cases {
        add_all(alloc, types, table, case.takes.as_slice())?;
        add_type(alloc, types, table, &case.gives)?;
    }
    Ok(())
}

/// The types of what calls take get numbers. It fails as for a type.
fn add_leads(
    alloc: Global,
    types: &Types,
    table: &mut TypeList,
    leads: &[Lead],
) -> Result<(), LowerError>
    ensures known { OnOk result (all_in_leads table.new.numbered leads.now ≡ true) }
    ensures grown { OnOk result (Begins table.old.numbered table.new.numbered) }
    ensures listed { OnOk result (with_numbers types.now table.old.numbered (asked.types_in_leads leads.now) ≡ Some table.new.numbered) }
    ensures left { IfErr result (OrMemory (with_numbers types.now table.old.numbered (asked.types_in_leads leads.now) ≡ None)) }
{
    for lead in leads {
        add_all(alloc, types, table, lead.takes.as_slice())?;
    }
    Ok(())
}

/// The types of what a node makes and takes get numbers. It fails as for a type.
fn add_node(
    alloc: Global,
    types: &Types,
    table: &mut TypeList,
    sizes: &NodeSizes,
) -> Result<(), LowerError>
    ensures known { OnOk result (all_in_nodes table.new.numbered (sizes.now ∷ []) ≡ true) }
    ensures grown { OnOk result (Begins table.old.numbered table.new.numbered) }
    ensures listed { OnOk result (with_numbers types.now table.old.numbered (asked.types_in_nodes (sizes.now ∷ [])) ≡ Some table.new.numbered) }
    ensures left { IfErr result (OrMemory (with_numbers types.now table.old.numbered (asked.types_in_nodes (sizes.now ∷ [])) ≡ None)) }
{
    match sizes {
        NodeSizes::Makes(_, _, cases) => add_cases(alloc, types, table, cases.as_slice()),
        NodeSizes::Calls(_, leads) => add_leads(alloc, types, table, leads.as_slice()),
        NodeSizes::Gives(_, _) => Ok(()),
    }
}

/// The types of what nodes make and take get numbers. It fails as for a type.
pub fn add_nodes(
    alloc: Global,
    types: &Types,
    table: &mut TypeList,
    nodes: &[NodeSizes],
) -> Result<(), LowerError>
    ensures known { OnOk result (all_in_nodes table.new.numbered nodes.now ≡ true) }
    ensures grown { OnOk result (Begins table.old.numbered table.new.numbered) }
    ensures listed { OnOk result (with_numbers types.now table.old.numbered (asked.types_in_nodes nodes.now) ≡ Some table.new.numbered) }
    ensures left { IfErr result (OrMemory (with_numbers types.now table.old.numbered (asked.types_in_nodes nodes.now) ≡ None)) }
{
    for sizes in nodes {
        add_node(alloc, types, table, sizes)?;
    }
    Ok(())
}

/// So do those of bodies. It fails as for a type.
fn add_bodies(
    alloc: Global,
    types: &Types,
    table: &mut TypeList,
    bodies: &[Items<NodeSizes>],
) -> Result<(), LowerError>
    ensures known { OnOk result (all_in_bodies table.new.numbered bodies.now ≡ true) }
    ensures grown { OnOk result (Begins table.old.numbered table.new.numbered) }
    ensures listed { OnOk result (with_numbers types.now table.old.numbered (asked.types_in_bodies bodies.now) ≡ Some table.new.numbered) }
    ensures left { IfErr result (OrMemory (with_numbers types.now table.old.numbered (asked.types_in_bodies bodies.now) ≡ None)) }
{
    for nodes in bodies {
        add_nodes(alloc, types, table, nodes.as_slice())?;
    }
    Ok(())
}

/// The types of what comes in get numbers. It fails as for a type.
fn add_told(
    alloc: Global,
    types: &Types,
    table: &mut TypeList,
    told: &[Told],
) -> Result<(), LowerError>
    ensures known { OnOk result (all_in_told table.new.numbered told.now ≡ true) }
    ensures grown { OnOk result (Begins table.old.numbered table.new.numbered) }
    ensures listed { OnOk result (with_numbers types.now table.old.numbered (asked.types_in_told told.now) ≡ Some table.new.numbered) }
    ensures left { IfErr result (OrMemory (with_numbers types.now table.old.numbered (asked.types_in_told told.now) ≡ None)) }
{
    for one in told {
        add_cases(alloc, types, table, one.cases.as_slice())?;
    }
    Ok(())
}

/// So do those of what comes in and goes out. It fails as for a type.
fn add_signature(
    alloc: Global,
    types: &Types,
    table: &mut TypeList,
    signature: &Option<Signature>,
) -> Result<(), LowerError>
    ensures known { OnOk result (in_signature table.new.numbered signature.now ≡ true) }
    ensures grown { OnOk result (Begins table.old.numbered table.new.numbered) }
    ensures listed { OnOk result (with_numbers types.now table.old.numbered (asked.types_in_signature signature.now) ≡ Some table.new.numbered) }
    ensures left { IfErr result (OrMemory (with_numbers types.now table.old.numbered (asked.types_in_signature signature.now) ≡ None)) }
{
    match signature {
        Some(signature) => {
            add_told(alloc, types, table, signature.parameters.as_slice())?;
            add_cases(alloc, types, table, signature.result.cases.as_slice())
        }
        None => Ok(()),
    }
}

/// The types of instances get numbers. It fails as for a type.
fn add_instances(
    alloc: Global,
    types: &Types,
    table: &mut TypeList,
    instances: &[SizedInstance],
) -> Result<(), LowerError>
    ensures known { OnOk result (all_in_instances table.new.numbered instances.now ≡ true) }
    ensures grown { OnOk result (Begins table.old.numbered table.new.numbered) }
    ensures listed { OnOk result (with_numbers types.now table.old.numbered (asked.types_in_instances instances.now) ≡ Some table.new.numbered) }
    ensures left { IfErr result (OrMemory (with_numbers types.now table.old.numbered (asked.types_in_instances instances.now) ≡ None)) }
{
    for instance in instances {
        add_signature(alloc, types, table, &instance.signature)?;
        add_bodies(alloc, types, table, instance.bodies.as_slice())?;
    }
    Ok(())
}

/// The types of registers get numbers. It fails as for a type.
fn add_registers(
    alloc: Global,
    types: &Types,
    table: &mut TypeList,
    registers: &[Register],
) -> Result<(), LowerError>
    ensures known { OnOk result (all_in_registers types.now table.new.numbered registers.now ≡ true) }
    ensures grown { OnOk result (Begins table.old.numbered table.new.numbered) }
    ensures listed { OnOk result (with_numbers types.now table.old.numbered (asked.types_in_registers types.now registers.now) ≡ Some table.new.numbered) }
    ensures left { IfErr result (OrMemory (with_numbers types.now table.old.numbered (asked.types_in_registers types.now registers.now) ≡ None)) }
{
    for register in registers {
        let typ = register_type(alloc, types, register)?;
        add_type(alloc, types, table, &typ)?;
    }
    Ok(())
}

/// The types that every model has get numbers. It fails as for a type.
fn add_basic(
    alloc: Global,
    types: &Types,
    table: &mut TypeList,
    exception: Option<u32>,
) -> Result<(), LowerError>
    ensures known { OnOk result (all_known table.new.numbered (S.Unit ∷ S.Bool ∷ S.Int ∷ exception_typ exception ∷ []) ≡ true) }
    ensures grown { OnOk result (Begins table.old.numbered table.new.numbered) }
    ensures listed { OnOk result (with_numbers types.now table.old.numbered (asked.basic_types exception) ≡ Some table.new.numbered) }
    ensures left { IfErr result (OrMemory (with_numbers types.now table.old.numbered (asked.basic_types exception) ≡ None)) }
{
    let all = [
        Sized::Unit,
        Sized::Bool,
        Sized::Int,
        exception_type(alloc, exception),
    ];
    Ok(add_all(alloc, types, table, &all)?)
}

/// Types of words of the first widths, so many, get numbers. It fails as for a type.
fn add_words(
    alloc: Global,
    types: &Types,
    table: &mut TypeList,
    count: u32,
) -> Result<(), LowerError>
    ensures known { OnOk result ((n : ℕ) → n < count → is_known table.new.numbered (S.Bits (pos n)) ≡ true) }
    ensures grown { OnOk result (Begins table.old.numbered table.new.numbered) }
    ensures listed { OnOk result (with_numbers types.now table.old.numbered (asked.word_types count) ≡ Some table.new.numbered) }
    ensures left { IfErr result (OrMemory (with_numbers types.now table.old.numbered (asked.word_types count) ≡ None)) }
{
    if count == 0 {
        return Ok(());
    }
    add_type(alloc, types, table, &Sized::Bits(i128::from(count - 1)))?;
    add_words(alloc, types, table, count - 1)
}

/// How many widths of words every model has.
const WIDTHS: u32 = 129;

/// The types that have a number in a model beside its directions. It fails where types are nested too deeply, and where memory is wanting.
fn list_types(alloc: Global, core: &CoreModel, sized: &SizedCore) -> Result<TypeList, LowerError>
    ensures never { IfOk result (λ list. Begins (S.Never ∷ []) list.numbered) }
    ensures instances { IfOk result (λ list. all_in_instances list.numbered sized.now.instances ≡ true) }
    ensures openings { IfOk result (λ list. all_in_bodies list.numbered sized.now.openings ≡ true) }
    ensures basic { IfOk result (λ list. all_known list.numbered (S.Unit ∷ S.Bool ∷ S.Int ∷ exception_typ core.now.exception ∷ []) ≡ true) }
    ensures registers { IfOk result (λ list. all_in_registers core.now.types list.numbered core.now.registers ≡ true) }
    ensures words { IfOk result (λ list. (n : ℕ) → n ≤ 128 → is_known list.numbered (S.Bits (pos n)) ≡ true) }
    ensures listed { IfOk result (λ list. asked.listed_types core.now sized.now ≡ Some list.numbered) }
    ensures left { IfErr result (OrMemory (asked.listed_types core.now sized.now ≡ None)) }
{
    let types = &core.types;
    let mut list = new_list(alloc)?;
    add_basic(alloc, types, &mut list, core.exception)?;
    add_words(alloc, types, &mut list, WIDTHS)?;
    add_registers(alloc, types, &mut list, core.registers.as_slice())?;
    add_instances(alloc, types, &mut list, sized.instances.as_slice())?;
    add_bodies(alloc, types, &mut list, sized.openings.as_slice())?;
    Ok(list)
}

/// The types that have a number in a model, where these directions are made. It fails where types are nested too deeply, and where memory is wanting.
fn list_all(
    alloc: Global,
    core: &CoreModel,
    sized: &SizedCore,
    turned: &[Option<u32>],
) -> Result<TypeList, LowerError>
    ensures never { IfOk result (λ list. Begins (S.Never ∷ []) list.numbered) }
    ensures instances { IfOk result (λ list. all_in_instances list.numbered sized.now.instances ≡ true) }
    ensures openings { IfOk result (λ list. all_in_bodies list.numbered sized.now.openings ≡ true) }
    ensures ways { IfOk result (λ list. all_in_ways list.numbered sized.now.mappings 0 core.now.directions turned.now ≡ true) }
    ensures basic { IfOk result (λ list. all_known list.numbered (S.Unit ∷ S.Bool ∷ S.Int ∷ exception_typ core.now.exception ∷ []) ≡ true) }
    ensures registers { IfOk result (λ list. all_in_registers core.now.types list.numbered core.now.registers ≡ true) }
    ensures words { IfOk result (λ list. (n : ℕ) → n ≤ 128 → is_known list.numbered (S.Bits (pos n)) ≡ true) }
    ensures listed { IfOk result (λ list. asked.numbered_types core.now sized.now turned.now ≡ Some list.numbered) }
    ensures left { IfErr result (OrMemory (asked.numbered_types core.now sized.now turned.now ≡ None)) }
{
    let mut list = list_types(alloc, core, sized)?;
    let mappings = sized.mappings.as_slice();
    let directions = core.directions.as_slice();
    add_ways(
        alloc,
        &core.types,
        &mut list,
        mappings,
        0,
        directions,
        turned,
    )?;
    Ok(list)
}

/// The table of a model's types, where these directions are made. It fails where types are nested too deeply, where a size isn't within its limit, and where
/// memory is wanting.
pub fn number_types(
    alloc: Global,
    core: &CoreModel,
    sized: &SizedCore,
    turned: &[Option<u32>],
) -> Result<Table, LowerError>
    ensures stands { IfOk result (λ table. Stands core.now.types table) }
    ensures instances { IfOk result (λ table. all_in_instances table.numbered sized.now.instances ≡ true) }
    ensures openings { IfOk result (λ table. all_in_bodies table.numbered sized.now.openings ≡ true) }
    ensures ways { IfOk result (λ table. all_in_ways table.numbered sized.now.mappings 0 core.now.directions turned.now ≡ true) }
    ensures basic { IfOk result (λ table. all_known table.numbered (S.Unit ∷ S.Bool ∷ S.Int ∷ exception_typ core.now.exception ∷ []) ≡ true) }
    ensures registers { IfOk result (λ table. all_in_registers core.now.types table.numbered core.now.registers ≡ true) }
    ensures words { IfOk result (λ table. (n : ℕ) → n ≤ 128 → is_known table.numbered (S.Bits (pos n)) ≡ true) }
    ensures listed { IfOk result (λ table. asked.numbered_types core.now sized.now turned.now ≡ Some table.numbered) }
    ensures values { IfOk result (λ table. table.types ≡ map (value_at core.now.types table.numbered) table.numbered) }
    ensures left { IfErr result (OrMemory (TypesLeft core.now sized.now turned.now)) }
{
    let list = list_all(alloc, core, sized, turned)?;
    let table = table_of(alloc, &core.types, list)?;
    Ok(table)
}
