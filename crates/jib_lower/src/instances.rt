//! The functions of all instances of a model.
ghost use Rattle.std.specs.Prelude.{◌≡◌, ◌+◌, [], ◌++◌, None, Some, map, slice_get, IfErr, IfOk, OnOk};
ghost use Rattle.lowered_types.specs.Table.{type_in};
ghost use Rattle.lowered_pieces.specs.Nodes.{told_as};
ghost use Rattle.jib_lower.specs.Instances.{CalledAre, InstancesMade, IsPlain, SettingOf, number_among};
ghost use Rattle.jib_lower.specs.Added as added;
ghost use Rattle.jib_lower.specs.Crossings.{turned_by, turns_of};
ghost use Rattle.jib_lower.specs.Cycles.{NumbersFit};
ghost use Rattle.jib_lower.specs.Errors.{OrMemory};
ghost use Rattle.jib_lower.specs.Left.{EntriesLeft, EntryLeft, InstanceLeft, InstancesLeft, NotPlain, PairLeft, SomeEntryLeft};

use crate::cycles::number_at;
use crate::error::LowerError;
use crate::functions::{Both, Head, make_judged};
use crate::plain::{are_plain_told, is_plain_told, told_type, told_types};
use crate::reads::function_reads;
use jib::{Function as Made, Module};
use lowered_ends::Around;
use lowered_steps::{Mapped, Setting, as_number, find};
use lowered_typed::{Called, Judge, Signs};
use sail_base::{Items, Place};
use sail_core::{CoreModel, Function};
use size_values::Sized;
use sized_nodes::{NodeSizes, Signature, SizedCore, SizedInstance, Told};
use std::alloc::{AllocError, Global};

/// What the code of all functions of a model is made by.
#[derive(Clone, Copy)]
pub struct Model<'a> {
    /// The model.
    pub core: &'a CoreModel,
    /// Its sizes.
    pub sized: &'a SizedCore,
    /// The types that have a number, in order.
    pub numbered: &'a [Sized],
    /// The module without its code.
    pub shell: &'a Module,
    /// The type of exceptions.
    pub exception: &'a Sized,
    /// The type of `()`.
    pub nothing: &'a Sized,
    /// That of truths.
    pub truths: &'a Sized,
    /// What calls enter, by the places of instances.
    pub called: &'a [Called],
    /// What is entered where directions of mappings are asked.
    pub directions: &'a [Mapped],
    /// The numbers of the cycles of directions, where they are made.
    pub turned: &'a [Option<u32>],
    /// The directions that are made, in the order of their functions, which stand before all others.
    pub order: &'a [u32],
    /// How many these are.
    pub before: u32,
    /// The types of the openings that functions may read.
    pub lets: &'a [u32],
    /// For each name of a top-level let the opening that gives its value.
    pub openings: &'a [u32],
}

/// The number of a type; where it has none, how many have one. It fails where there are 2^32 types or more.
pub fn number_of(numbered: &[Sized], typ: &Sized) -> Result<u32, AllocError>
    ensures { IfOk result (λ number. number ≡ number_among numbered.now typ.now) }
{
    let place = find(typ, numbered);
    let number = as_number(place)?;
    Ok(number)
}

/// What the code of a function is made by, whose trees have these nodes, read no variables and ask no directions. It fails where there are 2^32 types or more.
pub fn setting_of<'a>(
    model: &Model<'a>,
    bodies: &'a [Items<NodeSizes>],
    numbers: &'a [Option<i128>],
) -> Result<Setting<'a>, AllocError>
    ensures { IfOk result (λ setting. SettingOf model.now bodies.now numbers.now [] [] setting) }
{
    let unit = number_of(model.numbered, model.nothing)?;
    let truth = number_of(model.numbered, model.truths)?;
    let integer = number_of(model.numbered, &Sized::Int)?;
    let exception = number_of(model.numbered, model.exception)?;
    Ok(Setting {
        types: &model.core.types,
        numbered: model.numbered,
        unit,
        truth,
        integer,
        exception,
        nothing: model.nothing,
        truths: model.truths,
        bodies,
        numbers,
        reads: &[],
        directions: &[],
    })
}

/// The signature of an instance, where what comes in and goes out has one type. It fails where it has no constant sizes, and where it has several.
fn plain_signature(found: &SizedInstance, place: Place) -> Result<&Signature, LowerError>
    ensures plain { IfOk result (λ signature. IsPlain found.now signature.now) }
    ensures left { IfErr result (OrMemory (NotPlain found.now)) }
{
    match &found.signature {
        Some(signature) => {
            if are_plain_told(signature.parameters.as_slice()) && is_plain_told(&signature.result) {
                Ok(signature)
            } else {
                Err(LowerError::NotLowered(place))
            }
        }
        None => Err(LowerError::NotSized(place)),
    }
}

/// The function of an instance.
fn function_of<'a>(core: &'a CoreModel, found: &SizedInstance) -> Result<&'a Function, LowerError>
    ensures found { IfOk result (λ function. slice_get core.now.functions found.now.instance.function ≡ Some function.now) }
    ensures left { IfErr result (OrMemory (slice_get core.now.functions found.now.instance.function ≡ None)) }
{
    match core.functions.get(found.instance.function as usize) {
        Some(function) => Ok(function),
        None => Err(LowerError::NotThere),
    }
}

/// The numbers of the types of what comes in come behind others. They fail where memory is wanting.
fn push_told(
    alloc: Global,
    numbered: &[Sized],
    told: &[Told],
    numbers: &mut Items<u32>,
) -> Result<(), AllocError>
    ensures { OnOk result (numbers.new ≡ numbers.old ++ map (type_in numbered.now) (map told_as told.now)) }
{
    for one in told {
        let typ = told_type(alloc, one)?;
        let number = number_of(numbered, &typ)?;
        numbers.push(number)?;
    }
    Ok(())
}

/// What calls of an instance enter, the function of which has this number of its cycle. It fails where its signature is not plain, and where memory is
/// wanting.
fn called_of(
    alloc: Global,
    core: &CoreModel,
    numbered: &[Sized],
    found: &SizedInstance,
    cycle: u32,
) -> Result<Called, LowerError>
    ensures enters { IfOk result (λ called. added.EntersBy numbered.now found.now cycle called) }
    ensures left { IfErr result (OrMemory (EntryLeft core.now found.now)) }
{
    let function = function_of(core, found)?;
    let signature = plain_signature(found, function.place)?;
    let told = signature.parameters.as_slice();
    let mut parameters = Items::new(alloc);
    push_told(alloc, numbered, told, &mut parameters)?;
    Ok(Called { parameters, cycle })
}

/// What calls of these instances enter comes behind others. It fails where a signature is not plain, and where memory is wanting.
fn push_called(
    alloc: Global,
    core: &CoreModel,
    numbered: &[Sized],
    cycles: &[u32],
    instances: &[SizedInstance],
    called: &mut Items<Called>,
) -> Result<(), LowerError>
    ensures added { OnOk result (added.CalledAdded numbered.now cycles.now instances.now called.old called.new) }
    ensures left { IfErr result (OrMemory (SomeEntryLeft core.now instances.now)) }
{
    for found in instances {
        let cycle = number_at(cycles, found.instance.function);
        let one = called_of(alloc, core, numbered, found, cycle)?;
        called.push(one)?;
    }
    Ok(())
}

/// What calls enter, by the places of instances, where functions and directions have these numbers of cycles. It fails where a signature is not plain, and
/// where memory is wanting.
pub fn all_called(
    alloc: Global,
    core: &CoreModel,
    sized: &SizedCore,
    numbered: &[Sized],
    cycles: &[u32],
    turned: &[Option<u32>],
) -> Result<Items<Called>, LowerError>
    requires fit { NumbersFit core.now.functions sized.now.instances sized.now.mappings (turns_of core.now) cycles.now }
    requires turned { turned.now ≡ turned_by core.now sized.now cycles.now }
    ensures called { IfOk result (λ called. CalledAre core.now sized.now numbered.now called turned.now) }
    ensures left { IfErr result (OrMemory (EntriesLeft core.now sized.now)) }
{
    let instances = sized.instances.as_slice();
    let mut called = Items::new(alloc);
    push_called(alloc, core, numbered, cycles, instances, &mut called)?;
    Ok(called)
}

/// Both functions of an instance, the calls of which have this number of a cycle. It fails where a tree isn't lowered here or doesn't fit, and where memory
/// is wanting.
fn make_instance<'x>(
    alloc: Global,
    model: &'x Model<'x>,
    found: &'x SizedInstance,
    cycle: u32,
) -> Result<Both, LowerError>
    ensures made { IfOk result (λ both. added.MadeBy model.now found.now cycle both.called both.event) }
    ensures left { IfErr result (OrMemory (PairLeft model.now found.now cycle)) }
{
    let function = function_of(model.core, found)?;
    let signature = plain_signature(found, function.place)?;
    let parameters = signature.parameters.as_slice();
    let told = told_types(alloc, parameters)?;
    let given = told.as_slice();
    let bodies = found.bodies.as_slice();
    let numbers = found.instance.numbers.as_slice();
    let plain = setting_of(model, bodies, numbers)?;
    let reads = function_reads(alloc, &plain, function)?;
    let gives = told_type(alloc, &signature.result)?;
    let result = number_of(model.numbered, &gives)?;
    let lets = as_number(model.lets.len())?;
    let listed = reads.as_slice();
    let setting = Setting {
        reads: listed,
        directions: model.directions,
        ..plain
    };
    let instances = model.sized.instances.as_slice();
    let around = Around {
        instances,
        given,
        openings: model.openings,
        before: model.before,
    };
    let signs = Signs {
        shell: model.shell,
        lets: model.lets,
        result,
        is_pure: false,
        cycle,
        called: model.called,
        turned: model.turned,
        below: model.before,
    };
    let judge = Judge {
        alloc,
        setting: &setting,
        around: &around,
        signs: &signs,
    };
    let head = Head {
        given,
        result,
        cycle,
        lets,
        is_pure: false,
    };
    make_judged(&judge, function, &head)
}

/// Both functions of the instance at a place. It fails where a tree isn't lowered here or doesn't fit, and where memory is wanting.
fn make_at(
    alloc: Global,
    model: &Model<'_>,
    at: usize,
    found: &SizedInstance,
) -> Result<Both, LowerError>
    ensures made { IfOk result (λ both. added.MadeThere model.now at found.now both.called both.event) }
    ensures left { IfErr result (OrMemory (InstanceLeft model.now at found.now)) }
{
    match model.called.get(at) {
        Some(entered) => make_instance(alloc, model, found, entered.cycle),
        None => Err(LowerError::NotThere),
    }
}

/// The next place. It fails where it passes all numbers, which is long after memory does.
pub fn following(at: usize) -> Result<usize, AllocError>
    ensures { IfOk result (λ next. next ≡ at + 1) }
{
    match at.checked_add(1) {
        Some(next) => Ok(next),
        None => Err(AllocError),
    }
}

/// The functions of instances from one place on come behind the others: of each the one that calls enter, and behind it the one that events enter. It fails
/// where a tree isn't lowered here or doesn't fit, and where memory is wanting.
fn push_instances(
    alloc: Global,
    model: &Model<'_>,
    at: usize,
    instances: &[SizedInstance],
    functions: &mut Items<Made>,
) -> Result<(), LowerError>
    ensures added { OnOk result (added.InstancesAdded model.now at instances.now functions.old functions.new) }
    ensures left { IfErr result (OrMemory (InstancesLeft model.now at instances.now)) }
{
    let mut place = at;
    for found in instances {
        let both = make_at(alloc, model, place, found)?;
        functions.push(both.called)?;
        functions.push(both.event)?;
        place = following(place)?;
    }
    Ok(())
}

/// The functions of all instances: of each the one that calls enter, and behind it the one that events enter. It fails where a tree isn't lowered here
/// or doesn't fit, and where memory is wanting.
pub fn make_instances(alloc: Global, model: &Model<'_>) -> Result<Items<Made>, LowerError>
    ensures made { IfOk result (λ functions. InstancesMade model.now functions) }
    ensures left { IfErr result (OrMemory (InstancesLeft model.now 0 model.now.sized.now.instances)) }
{
    let instances = model.sized.instances.as_slice();
    let mut functions = Items::new(alloc);
    push_instances(alloc, model, 0, instances, &mut functions)?;
    Ok(functions)
}
