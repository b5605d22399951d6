//! The functions of a module that are made of instances: of each the one that calls enter, and behind it the one that events enter.
ghost use Rattle.std.specs.Prelude.{◌≡◌, length, map, nat_lt, true, IfErr, IfOk};
ghost use Rattle.lowered_pieces.specs.Places.{Naming};
ghost use Rattle.lowered_steps.specs.Setting.{number_for};
ghost use Rattle.jib_lower.specs.Functions as spec;
ghost use Rattle.jib_lower.specs.Functions.{FunctionMade, InstanceMade, are_types};
ghost use Rattle.jib_lower.specs.Errors.{OrMemory};
ghost use Rattle.jib_lower.specs.Left.{BothLeft, NoFunction};

use crate::error::LowerError;
use jib::Function as Made;
use lowered_ends::is_lowered;
use lowered_functions::{Walk, active_measure, put_called, put_event, slot_types};
use lowered_pieces::Coding;
use lowered_steps::Setting;
use lowered_typed::{Judge, is_result_typed, is_typed};
use sail_base::{Items, Place};
use sail_core::Function;
use size_values::Sized;
use std::alloc::{AllocError, Global};

/// Both functions of an instance.
#[derive(Drop)]
pub struct Both {
    /// The one that calls enter.
    pub called: Made,
    /// The one that events enter.
    pub event: Made,
}

/// The numbers of types. They fail where memory is wanting.
pub fn numbers(
    alloc: Global,
    setting: &Setting<'_>,
    types: &[Sized],
) -> Result<Items<u32>, AllocError>
    ensures { IfOk result (λ numbers. numbers ≡ map (number_for setting.now) types.now) }
{
    let mut numbers = Items::new(alloc);
    for typ in types {
        numbers.push(setting.number(typ)?)?;
    }
    Ok(numbers)
}

/// What is said of a function of the module beside its code.
#[derive(Clone, Copy)]
pub struct Head<'a> {
    /// The types of its parameters.
    pub given: &'a [Sized],
    /// The number of the type of its result.
    pub result: u32,
    /// The number of its cycle of calls.
    pub cycle: u32,
    /// How many openings it may read.
    pub lets: u32,
    /// Whether it is pure.
    pub is_pure: bool,
}

/// Whether this number is one of a type.
fn is_number(setting: &Setting<'_>, number: u32) -> bool
    ensures { result ≡ nat_lt number (length setting.now.numbered.now) }
{
    (number as usize) < setting.numbered.len()
}

/// Whether all these numbers are of types.
fn are_numbers(setting: &Setting<'_>, types: &[u32]) -> bool
    ensures { result ≡ are_types (length setting.now.numbered.now) types.now }
{
    for typ in types {
        if !is_number(setting, *typ) {
            return false;
        }
    }
    true
}

/// A function with this code. It fails where a type of a slot or of the result has no number, and where memory is wanting.
pub fn with_code(
    alloc: Global,
    setting: &Setting<'_>,
    head: &Head<'_>,
    place: Place,
    coding: Coding,
) -> Result<Made, LowerError>
    ensures made { IfOk result (λ made. FunctionMade setting.now head.now coding made) }
    ensures left { IfErr result (OrMemory (NoFunction setting.now head.now coding)) }
{
    let parameters = numbers(alloc, setting, head.given)?;
    let slots = slot_types(alloc, coding.slots.as_slice())?;
    let are = are_numbers(setting, slots.as_slice());
    let ends = is_number(setting, head.result);
    if are {
        if ends {
            Ok(Made {
                parameters,
                result: head.result,
                slots,
                cycle: head.cycle,
                lets: head.lets,
                is_pure: head.is_pure,
                code: coding.code,
            })
        } else {
            Err(LowerError::NotLowered(place))
        }
    } else {
        Err(LowerError::NotLowered(place))
    }
}

/// Whether the measure of a function that is in a cycle is lowered here. It fails where memory is wanting.
fn is_measure_able(walk: &Walk<'_>, function: &Function) -> Result<bool, AllocError>
    ensures { IfOk result (λ answer. (name : Naming) → answer ≡ spec.measure_able walk.now name function.now) }
{
    match active_measure(function) {
        Some(measure) => is_lowered(walk.alloc, walk.setting, walk.around, measure),
        None => Ok(true),
    }
}

/// Whether a function's trees are lowered here. It fails where memory is wanting.
fn is_able(walk: &Walk<'_>, function: &Function) -> Result<bool, AllocError>
    ensures { IfOk result (λ answer. (name : Naming) → answer ≡ spec.able_for walk.now name function.now) }
{
    let has_measure = is_measure_able(walk, function)?;
    if has_measure {
        is_lowered(walk.alloc, walk.setting, walk.around, &function.body)
    } else {
        Ok(false)
    }
}

/// Whether the code of the measure of a function that is in a cycle has its types. It fails where memory is wanting.
fn measure_fits(judge: &Judge<'_>, function: &Function) -> Result<bool, AllocError>
    ensures { IfOk result (λ answer. answer ≡ spec.measure_typed judge.now function.now) }
{
    match active_measure(function) {
        Some(measure) => is_typed(judge, measure),
        None => Ok(true),
    }
}

/// Whether the code of a function's trees has its types. It fails where memory is wanting.
fn fits(judge: &Judge<'_>, function: &Function) -> Result<bool, AllocError>
    ensures { IfOk result (λ answer. answer ≡ spec.typed_for judge.now function.now) }
{
    let has_measure = measure_fits(judge, function)?;
    if has_measure {
        is_result_typed(judge, function.last, &function.body)
    } else {
        Ok(false)
    }
}

/// Both functions of an instance whose trees are lowered here, and whose code has its types. It fails where a type of a slot or of the result has no
/// number, and where memory is wanting.
fn put_both(
    walk: &Walk<'_>,
    judge: &Judge<'_>,
    function: &Function,
    head: &Head<'_>,
) -> Result<Both, LowerError>
    requires able { (name : Naming) → spec.able_for walk.now name function.now ≡ true }
    requires typed { spec.typed_for judge.now function.now ≡ true }
    ensures made { IfOk result (λ both. InstanceMade walk.now judge.now function.now head.now both.called both.event) }
    ensures left { IfErr result (OrMemory (BothLeft walk.now judge.now function.now head.now)) }
{
    let called = put_called(&*walk, &*function, head.given)?;
    let event = put_event(&*walk, &*function, head.given)?;
    let entered = with_code(walk.alloc, walk.setting, head, function.place, called)?;
    let begun = with_code(walk.alloc, walk.setting, head, function.place, event)?;
    Ok(Both {
        called: entered,
        event: begun,
    })
}

/// Both functions of an instance. It fails where a tree isn't lowered here or a case of it doesn't fit, and where memory is wanting.
fn make_both(
    walk: &Walk<'_>,
    judge: &Judge<'_>,
    function: &Function,
    head: &Head<'_>,
) -> Result<Both, LowerError>
    requires setting { judge.now.setting.now ≡ walk.now.setting.now }
    requires around { judge.now.around.now ≡ walk.now.around.now }
    ensures made { IfOk result (λ both. InstanceMade walk.now judge.now function.now head.now both.called both.event) }
    ensures left { IfErr result (OrMemory (BothLeft walk.now judge.now function.now head.now)) }
{
    let able = is_able(walk, function)?;
    let typed = fits(judge, function)?;
    if able {
        if typed {
            put_both(walk, judge, function, head)
        } else {
            Err(LowerError::NotLowered(function.place))
        }
    } else {
        Err(LowerError::NotLowered(function.place))
    }
}

/// Both functions of an instance, made by what they are judged by. It fails where a tree isn't lowered here or a case of it doesn't fit, and where memory is
/// wanting.
pub fn make_judged(
    judge: &Judge<'_>,
    function: &Function,
    head: &Head<'_>,
) -> Result<Both, LowerError>
    ensures made { IfOk result (λ both. InstanceMade (spec.walk_by judge.now) judge.now function.now head.now both.called both.event) }
    ensures left { IfErr result (OrMemory (BothLeft (spec.walk_by judge.now) judge.now function.now head.now)) }
{
    let walk = Walk {
        alloc: judge.alloc,
        setting: judge.setting,
        around: judge.around,
    };
    make_both(&walk, judge, function, head)
}
