//! Which directions of mappings are asked, by calls and by patterns, and to which these lead.
ghost use Rattle.std.specs.Prelude.{◌≡◌, ◌++◌, map, slice_get, IfOk, OnOk};
ghost use Rattle.lowered_pieces.specs.Functions.{measure_of};
ghost use Rattle.jib_lower.specs.Crossings as spec;

use crate::instances::following;
use lowered_ends::arm_steps;
use lowered_functions::active_measure;
use sail_base::Items;
use sail_core::{Arm, Callee, Core, CoreModel, Direction, Function, Kind, Statement, Step};
use sized_nodes::SizedInstance;
use std::alloc::{AllocError, Global};

// ---- the directions that are asked

/// A direction comes behind others, where it is what is called. It fails where memory is wanting.
fn push_callee(callee: &Callee, asked: &mut Items<u32>) -> Result<(), AllocError>
    ensures { OnOk result (asked.new ≡ asked.old ++ spec.called_as callee.now) }
{
    match callee {
        Callee::Applies(direction) => asked.push(*direction),
        _ => Ok(()),
    }
}

/// So does the direction that a step of a pattern asks.
fn push_step(step: &Step, asked: &mut Items<u32>) -> Result<(), AllocError>
    ensures { OnOk result (asked.new ≡ asked.old ++ spec.seen_as step.now) }
{
    match step {
        Step::Sees(_, direction) => asked.push(*direction),
        _ => Ok(()),
    }
}

/// So do those that steps ask.
fn push_steps(steps: &[Step], asked: &mut Items<u32>) -> Result<(), AllocError>
    ensures { OnOk result (asked.new ≡ asked.old ++ spec.seen_in steps.now) }
{
    for step in steps {
        push_step(step, asked)?;
    }
    Ok(())
}

/// So do those that the patterns of arms ask.
fn push_arms(arms: &[Arm], asked: &mut Items<u32>) -> Result<(), AllocError>
    ensures { OnOk result (asked.new ≡ asked.old ++ spec.seen_by arms.now) }
{
    for arm in arms {
        let steps = arm_steps(arm);
        push_steps(steps, asked)?;
    }
    Ok(())
}

/// So do those that the pattern of a statement asks.
fn push_statement(statement: &Statement, asked: &mut Items<u32>) -> Result<(), AllocError>
    ensures { OnOk result (asked.new ≡ asked.old ++ spec.stated_as statement.now) }
{
    match statement {
        Statement::Define(_, arm) => push_steps(arm_steps(arm), asked),
        _ => Ok(()),
    }
}

/// So do those that the patterns of statements ask.
fn push_statements(statements: &[Statement], asked: &mut Items<u32>) -> Result<(), AllocError>
    ensures { OnOk result (asked.new ≡ asked.old ++ spec.stated_in statements.now) }
{
    for statement in statements {
        push_statement(statement, asked)?;
    }
    Ok(())
}

/// The directions that a node itself asks come behind others. They fail where memory is wanting.
fn push_asked(kind: &Kind, asked: &mut Items<u32>) -> Result<(), AllocError>
    ensures { OnOk result (asked.new ≡ asked.old ++ spec.asked_here kind.now) }
{
    match kind {
        Kind::Call(callee) => push_callee(callee, asked),
        Kind::Let(arm) => push_steps(arm_steps(arm), asked),
        Kind::Match(arms, _) => push_arms(arms.as_slice(), asked),
        Kind::Try(arms, _) => push_arms(arms.as_slice(), asked),
        Kind::Clauses(arms) => push_arms(arms.as_slice(), asked),
        Kind::Block(statements) => push_statements(statements.as_slice(), asked),
        _ => Ok(()),
    }
}

/// The directions that a tree asks come behind others. They fail where memory is wanting.
#[cycle(list_asked)]
fn list_asked(tree: &Core, asked: &mut Items<u32>) -> Result<(), AllocError>
    ensures { OnOk result (asked.new ≡ asked.old ++ spec.asked_in tree.now) }
{
    push_asked(&tree.kind, asked)?;
    let parts = tree.parts.as_slice();
    list_all_asked(parts, asked)
}

/// So those of several trees.
#[cycle(list_asked)]
fn list_all_asked(trees: &[Core], asked: &mut Items<u32>) -> Result<(), AllocError>
    ensures { OnOk result (asked.new ≡ asked.old ++ spec.joined (map spec.asked_in trees.now)) }
{
    match trees {
        [] => Ok(()),
        [first, rest @ ..] => {
            list_asked(first, asked)?;
            list_all_asked(rest, asked)
        }
    }
}

/// So those of the measure of a function that is in a cycle.
fn list_measure(function: &Function, asked: &mut Items<u32>) -> Result<(), AllocError>
    ensures { OnOk result (asked.new ≡ asked.old ++ spec.asked_if (measure_of function.now.cycle function.now.measure)) }
{
    match active_measure(function) {
        Some(measure) => list_asked(measure, asked),
        None => Ok(()),
    }
}

/// The directions that a function asks, its measure with it. They fail where memory is wanting.
fn asked_by(alloc: Global, function: &Function) -> Result<Items<u32>, AllocError>
    ensures { IfOk result (λ asked. asked ≡ spec.asked_by function.now) }
{
    let mut asked = Items::new(alloc);
    list_asked(&function.body, &mut asked)?;
    list_measure(function, &mut asked)?;
    Ok(asked)
}

/// The directions that a direction asks. They fail where memory is wanting.
fn asked_in(alloc: Global, direction: &Direction) -> Result<Items<u32>, AllocError>
    ensures { IfOk result (λ asked. asked ≡ spec.asked_in direction.now.body) }
{
    let mut asked = Items::new(alloc);
    list_asked(&direction.body, &mut asked)?;
    Ok(asked)
}

/// What directions ask comes behind the same of others. It fails where memory is wanting.
fn push_calls(
    alloc: Global,
    directions: &[Direction],
    calls: &mut Items<Items<u32>>,
) -> Result<(), AllocError>
    ensures { OnOk result (calls.new ≡ calls.old ++ spec.calls_of directions.now) }
{
    for direction in directions {
        let asked = asked_in(alloc, direction)?;
        calls.push(asked)?;
    }
    Ok(())
}

/// What each of a model's directions asks. It fails where memory is wanting.
pub fn calls_of(alloc: Global, core: &CoreModel) -> Result<Items<Items<u32>>, AllocError>
    ensures { IfOk result (λ calls. calls ≡ spec.calls_of core.now.directions) }
{
    let mut calls = Items::new(alloc);
    let directions = core.directions.as_slice();
    push_calls(alloc, directions, &mut calls)?;
    Ok(calls)
}

// ---- and those that these lead to

/// Whether a direction is one of these.
pub fn is_in(direction: u32, seen: &[u32]) -> bool
    ensures { result ≡ spec.is_in direction seen.now }
{
    match seen {
        [] => false,
        [first, rest @ ..] => direction == *first || is_in(direction, rest),
    }
}

/// A direction comes behind others, where it isn't among them. It fails where memory is wanting.
fn add_one(direction: u32, seen: &mut Items<u32>) -> Result<(), AllocError>
    ensures { OnOk result (seen.new ≡ spec.with_one direction seen.old) }
{
    let there = is_in(direction, seen.as_slice());
    if there { Ok(()) } else { seen.push(direction) }
}

/// So several.
fn add_all(directions: &[u32], seen: &mut Items<u32>) -> Result<(), AllocError>
    ensures { OnOk result (seen.new ≡ spec.with_all directions.now seen.old) }
{
    for direction in directions {
        add_one(*direction, seen)?;
    }
    Ok(())
}

/// So those of a list at a place, where there is one.
fn add_list(lists: &[Items<u32>], at: u32, seen: &mut Items<u32>) -> Result<(), AllocError>
    ensures { OnOk result (seen.new ≡ spec.with_all (spec.list_at (slice_get lists.now at)) seen.old) }
{
    match lists.get(at as usize) {
        Some(list) => add_all(list.as_slice(), seen),
        None => Ok(()),
    }
}

/// So those that these ask.
fn add_behind(
    calls: &[Items<u32>],
    directions: &[u32],
    seen: &mut Items<u32>,
) -> Result<(), AllocError>
    ensures { OnOk result (seen.new ≡ spec.with_behind calls.now directions.now seen.old) }
{
    for direction in directions {
        add_list(calls, *direction, seen)?;
    }
    Ok(())
}

/// These directions once more. They fail where memory is wanting.
fn copy_all(alloc: Global, directions: &[u32]) -> Result<Items<u32>, AllocError>
    ensures { IfOk result (λ copy. copy ≡ directions.now) }
{
    let mut copy = Items::new(alloc);
    for direction in directions {
        copy.push(*direction)?;
    }
    Ok(copy)
}

/// These directions, and behind them those that they ask, each once. They fail where memory is wanting.
fn step(alloc: Global, calls: &[Items<u32>], seen: &[u32]) -> Result<Items<u32>, AllocError>
    ensures { IfOk result (λ next. next ≡ spec.with_behind calls.now seen.now seen.now) }
{
    let mut next = copy_all(alloc, seen)?;
    add_behind(calls, seen, &mut next)?;
    Ok(next)
}

/// All directions to which calls of these lead, with them, in at most so many steps. They fail where memory is wanting.
fn reach(
    alloc: Global,
    calls: &[Items<u32>],
    steps: usize,
    seen: Items<u32>,
) -> Result<Items<u32>, AllocError>
    ensures { IfOk result (λ all. all ≡ spec.reached calls.now steps seen) }
{
    if steps == 0 {
        return Ok(seen);
    }
    let next = step(alloc, calls, seen.as_slice())?;
    let many = next.len();
    let count = seen.len();
    if many == count {
        Ok(seen)
    } else {
        reach(alloc, calls, steps - 1, next)
    }
}

/// All directions to which calls of these lead, with them. They fail where memory is wanting.
pub fn leads_from(
    alloc: Global,
    calls: &[Items<u32>],
    directions: &[u32],
) -> Result<Items<u32>, AllocError>
    ensures { IfOk result (λ all. all ≡ spec.leads_from calls.now directions.now) }
{
    let mut first = Items::new(alloc);
    add_all(directions, &mut first)?;
    let steps = following(calls.len())?;
    reach(alloc, calls, steps, first)
}

/// The directions to which the calls of a function lead. They fail where memory is wanting.
fn turn_of(
    alloc: Global,
    calls: &[Items<u32>],
    function: &Function,
) -> Result<Items<u32>, AllocError>
    ensures { IfOk result (λ all. all ≡ spec.leads_from calls.now (spec.asked_by function.now)) }
{
    let asked = asked_by(alloc, function)?;
    leads_from(alloc, calls, asked.as_slice())
}

/// So those of several functions come behind those of others.
fn push_turns(
    alloc: Global,
    calls: &[Items<u32>],
    functions: &[Function],
    turns: &mut Items<Items<u32>>,
) -> Result<(), AllocError>
    ensures { OnOk result (turns.new ≡ turns.old ++ spec.turns_by calls.now functions.now) }
{
    for function in functions {
        let turn = turn_of(alloc, calls, function)?;
        turns.push(turn)?;
    }
    Ok(())
}

/// The directions to which the calls of a model's functions lead, by functions. They fail where memory is wanting.
pub fn turns_of(alloc: Global, core: &CoreModel) -> Result<Items<Items<u32>>, AllocError>
    ensures { IfOk result (λ turns. turns ≡ spec.turns_of core.now) }
{
    let calls = calls_of(alloc, core)?;
    let functions = core.functions.as_slice();
    let mut turns = Items::new(alloc);
    let all = calls.as_slice();
    push_turns(alloc, all, functions, &mut turns)?;
    Ok(turns)
}

/// Those to which the calls of instances lead, by their functions, come behind others, each once. They fail where memory is wanting.
pub fn add_wanted(
    turns: &[Items<u32>],
    instances: &[SizedInstance],
    seen: &mut Items<u32>,
) -> Result<(), AllocError>
    ensures { OnOk result (seen.new ≡ spec.wanted_by turns.now instances.now seen.old) }
{
    for found in instances {
        add_list(turns, found.instance.function, seen)?;
    }
    Ok(())
}
