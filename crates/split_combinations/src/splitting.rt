//! Which variables that a body opens are split.
ghost use Rattle.std.specs.Prelude.{◌≡◌, ◌+◌, ◌++◌, ◌<◌, ◌^◌, IfOk, OnOk, length, map, replicate, None};
ghost use Rattle.sail_types.specs.Places.{first};
ghost use Rattle.value_indices.specs.Steps.{conditions};
ghost use Rattle.value_indices.specs.Walking.{begun};
ghost use Rattle.size_values.specs.Numbers.{known_of, meant};
ghost use Rattle.size_splits.specs.Bodies.{body_read};
ghost use Rattle.size_splits.specs.Reading as reading;
ghost use Rattle.size_splits.specs.Reading.{pointed};
ghost use Rattle.size_splits.specs.Splits as spec;

use sail_base::Items;
use sail_types::{Con, Types};
use size_splits::{
    BodySteps, MadeValue, conditions_of, domain, follow, is_open_value, step_value, value_names,
};
use size_values::Variables;
use std::alloc::{AllocError, Global};
use value_indices::{Fact, Indices, Step};

/// What bodies are read under: the types, the size variables, and the numbers of the instance.
#[derive(Drop)]
struct Setting<'a> {
    /// The named types.
    types: &'a Types,
    /// The size variables of functions.
    sizing: &'a [Items<bool>],
    /// What the variables are.
    variables: Variables<'a>,
}

/// Whether something isn't constant that has to be at a step that makes this. It fails where memory is wanting.
fn is_open(
    alloc: Global,
    setting: &Setting<'_>,
    step: &Step,
    indices: &Indices,
) -> Result<bool, AllocError>
    ensures { IfOk result (λ is. is ≡ reading.is_open_value setting.now.types.now setting.now.sizing.now (meant setting.now.variables) step.now
        indices.now) }
{
    is_open_value(
        alloc,
        setting.types,
        setting.sizing,
        step,
        indices,
        &setting.variables,
    )
}

/// The numbers that a variable takes under these conditions, if it is in what has to be constant at a step that makes this. It fails where
/// memory is wanting.
fn value_domain(
    alloc: Global,
    setting: &Setting<'_>,
    variable: u32,
    conditions: &[&Con],
    step: &Step,
    indices: &Indices,
) -> Result<Option<Items<i128>>, AllocError>
    ensures { IfOk result (λ made. made ≡ reading.value_domain setting.now.types.now setting.now.sizing.now (meant setting.now.variables) variable
        (map pointed conditions.now) step.now indices.now) }
{
    if value_names(
        alloc,
        setting.types,
        setting.sizing,
        variable,
        step,
        indices,
    )? {
        return domain(alloc, &setting.variables, variable, conditions);
    }
    Ok(None)
}

/// The numbers that a variable takes, where they aren't known already. It fails where memory is wanting.
fn known_or_domain(
    alloc: Global,
    setting: &Setting<'_>,
    known: &Option<Items<i128>>,
    variable: u32,
    conditions: &[&Con],
    step: &Step,
    indices: &Indices,
) -> Result<Option<Items<i128>>, AllocError>
    ensures { IfOk result (λ made. made ≡ first known.now (reading.value_domain setting.now.types.now setting.now.sizing.now
        (meant setting.now.variables) variable (map pointed conditions.now) step.now indices.now)) }
{
    match known {
        Some(numbers) => Ok(Some(Items::from_slice(alloc, numbers.as_slice())?)),
        None => value_domain(alloc, setting, variable, conditions, step, indices),
    }
}

/// The numbers that variables from one on take, where they aren't known already. It fails where memory is wanting.
fn value_domains(
    alloc: Global,
    setting: &Setting<'_>,
    known: &[Option<Items<i128>>],
    from: u32,
    conditions: &[&Con],
    step: &Step,
    indices: &Indices,
) -> Result<Items<Option<Items<i128>>>, AllocError>
    requires { from + length known.now < 2 ^ 32 }
    ensures { IfOk result (λ made. made ≡ reading.each_first known.now (reading.value_domains setting.now.types.now setting.now.sizing.now
        (meant setting.now.variables) (length known.now) from (map pointed conditions.now) step.now indices.now)) }
{
    let mut made = Items::new(alloc);
    let mut variable = from;
    for numbers in known {
        made.push(known_or_domain(alloc, setting, numbers, variable, conditions, step, indices)?)?;
        variable += 1;
    }
    Ok(made)
}

/// The same at a step that makes this, where these facts are in force. It fails where memory is wanting.
fn open_domains(
    alloc: Global,
    setting: &Setting<'_>,
    known: &[Option<Items<i128>>],
    from: u32,
    facts: &[Fact],
    step: &Step,
    value: &MadeValue,
) -> Result<Items<Option<Items<i128>>>, AllocError>
    requires { from + length known.now < 2 ^ 32 }
    ensures { IfOk result (λ made. made ≡ reading.each_first known.now (reading.value_domains setting.now.types.now setting.now.sizing.now
        (meant setting.now.variables) (length known.now) from (conditions (facts.now ++ value.now.facts)) step.now value.now.indices)) }
{
    let conditions = conditions_of(alloc, facts, value.facts.as_slice())?;
    let conditions = conditions.as_slice();
    value_domains(
        alloc,
        setting,
        known,
        from,
        conditions,
        step,
        &value.indices,
    )
}

/// What is known of the numbers that variables from one on take, behind a step where these facts are in force, in a body of so many
/// variables. It fails where memory is wanting, and where variables are too many.
fn step_domains(
    alloc: Global,
    setting: &Setting<'_>,
    known: Items<Option<Items<i128>>>,
    from: u32,
    variables: u32,
    facts: &[Fact],
    step: &Step,
    behind: &[Step],
) -> Result<Items<Option<Items<i128>>>, AllocError>
    requires { from + length known < 2 ^ 32 }
    ensures { IfOk result (λ made. made ≡ reading.each_first known (reading.step_domains setting.now.types.now setting.now.sizing.now
        variables (meant setting.now.variables) (length known) from facts.now step.now (reading.named_in behind.now))) }
{
    let value = step_value(alloc, variables, step, behind)?;
    let opens = is_open(alloc, setting, step, &value.indices)?;
    if opens {
        return open_domains(alloc, setting, known.as_slice(), from, facts, step, &value);
    }
    Ok(known)
}

/// Nothing known of so many variables. It fails where memory is wanting.
fn nothing_of(alloc: Global, count: u32) -> Result<Items<Option<Items<i128>>>, AllocError>
    ensures { IfOk result (λ made. made ≡ replicate count None) }
{
    let mut made = Items::new(alloc);
    for _at in 0..count {
        made.push(None)?;
    }
    Ok(made)
}

/// The numbers that so many variables from one on take, in a body of so many variables. It fails where memory is wanting, and where
/// variables are too many.
fn domains_of(
    alloc: Global,
    setting: &Setting<'_>,
    from: u32,
    count: u32,
    variables: u32,
    steps: &[Step],
) -> Result<Items<Option<Items<i128>>>, AllocError>
    requires { from + count < 2 ^ 32 }
    ensures { IfOk result (λ made. made ≡ reading.steps_domains setting.now.types.now setting.now.sizing.now variables
        (meant setting.now.variables) count from (begun 0) steps.now) }
{
    let mut known = nothing_of(alloc, count)?;
    let mut facts = Vec::new(alloc);
    let mut marks = Items::new(alloc);
    for at in 0..steps.len() {
        let step = &steps[at];
        let force = facts.as_slice();
        let behind = &steps[at + 1..];
        let next = step_domains(alloc, setting, known, from, variables, force, step, behind)?;
        follow(alloc, step, &mut facts, &mut marks)?;
        known = next;
    }
    Ok(known)
}

/// How many combinations there are with a variable more, if they are at most 64.
fn count_with(count: usize, numbers: &Option<Items<i128>>) -> Option<usize>
    ensures { result ≡ spec.count_with count numbers.now }
{
    match numbers {
        None => None,
        Some(numbers) => match count.checked_mul(numbers.len()) {
            None => None,
            Some(product) => if product < 65 { Some(product) } else { None },
        },
    }
}

/// Puts a variable at the end, if it is split where there are so many combinations by then; how many there are with it. The one error is
/// want of memory.
fn take(
    made: &mut Items<u32>,
    variable: u32,
    count: usize,
    numbers: &Option<Items<i128>>,
) -> Result<usize, AllocError>
    ensures made { OnOk result (made.new ≡ made.old ++ reading.taken_here variable (spec.count_with count numbers.now)) }
    ensures count { IfOk result (λ after. after ≡ reading.count_after count (spec.count_with count numbers.now)) }
{
    match count_with(count, numbers) {
        None => Ok(count),
        Some(product) => {
            made.push(variable)?;
            Ok(product)
        }
    }
}

/// The variables, from one on, that are split where they take these numbers. It fails where memory is wanting.
fn splits_by(
    alloc: Global,
    from: u32,
    domains: &[Option<Items<i128>>],
) -> Result<Items<u32>, AllocError>
    requires { from + length domains.now < 2 ^ 32 }
    ensures { IfOk result (λ made. made ≡ reading.splits_by from 1 domains.now) }
{
    let mut made = Items::new(alloc);
    let mut variable = from;
    let mut count = 1;
    for numbers in domains {
        let next = take(&mut made, variable, count, numbers)?;
        count = next;
        variable += 1;
    }
    Ok(made)
}

/// Which variables that a body opens are split, in order of opening, where those of its function have these numbers: those in a width or
/// length, or in what is given to a size variable, that have a constant range or stand in a set, as long as there are at most 64
/// combinations. It fails where memory is wanting, and where variables are too many.
pub fn splits(
    alloc: Global,
    types: &Types,
    sizing: &[Items<bool>],
    numbers: &[Option<i128>],
    body: &BodySteps,
) -> Result<Items<u32>, AllocError>
    ensures { IfOk result (λ made. made ≡
        spec.splits types.now sizing.now (known_of numbers.now) (length numbers.now) (body_read body.now)) }
{
    let variables = body.variables;
    let Ok(own) = u32::try_from(numbers.len()) else {
        return Ok(Items::new(alloc));
    };
    if own >= variables {
        return Ok(Items::new(alloc));
    }
    let setting = Setting {
        types,
        sizing,
        variables: Variables::Known(numbers, &[]),
    };
    let steps = body.steps.as_slice();
    let domains = domains_of(alloc, &setting, own, variables - own, variables, steps)?;
    let list = domains.as_slice();
    splits_by(alloc, own, list)
}
