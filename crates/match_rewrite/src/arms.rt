//! Patterns and arms: a step for each form that looks, asks or binds.
ghost use Rattle.std.specs.Prelude.{◌≡◌, ◌+◌, map, IfOk};
ghost use Rattle.sail_core.specs.declared.patterns.Form.TheVariants as form;
ghost use Rattle.match_rewrite.specs.Rewriting as flat;
ghost use Rattle.match_rewrite.specs.Pushed.{reached, added};

use sail_base::{Items, Text};
use sail_core::{Arm, Form, Head, Pattern, Step};
use std::alloc::{AllocError, Global};

/// A count of values. An arm that would have 2^32 of them in hand is past what memory is kept for.
fn count_of(length: usize) -> Result<u32, AllocError>
    ensures { IfOk result (λ count. count ≡ length) }
{
    if length < 4_294_967_296 {
        Ok(length as u32)
    } else {
        Err(AllocError)
    }
}

/// The number behind so many, likewise.
fn behind(number: u32, count: u32) -> Result<u32, AllocError>
    ensures { IfOk result (λ next. next ≡ number + count) }
{
    match number.checked_add(count) {
        Some(next) => Ok(next),
        None => Err(AllocError),
    }
}

/// A form with a count of parts that it hasn't, which means nothing: there is no value of the next number.
fn push_never(alloc: Global, next: u32, steps: &mut Items<Step>) -> Result<u32, AllocError>
    ensures { IfOk result (λ after. reached steps.new after ≡ added steps.old (flat.never next)) }
{
    let name = Text::new(alloc, "")?;
    steps.push(Step::Names(next, name))?;
    Ok(next)
}

/// The step of a name that is bound, where it has no parts.
fn push_name(
    alloc: Global,
    name: Text,
    parts: Items<Pattern>,
    at: u32,
    next: u32,
    steps: &mut Items<Step>,
) -> Result<u32, AllocError>
    ensures { IfOk result (λ after. reached steps.new after
        ≡ added steps.old (flat.flat_form (form.Binds name) (map flat.flat_pattern parts) at next)) }
{
    if parts.is_empty() {
        steps.push(Step::Names(at, name))?;
        Ok(next)
    } else {
        push_never(alloc, next, steps)
    }
}

/// The steps of a pattern for the value of a number, where further values come from the next number on; gives the next one then.
#[cycle(push_pattern)]
fn push_pattern(
    alloc: Global,
    pattern: Pattern,
    at: u32,
    next: u32,
    steps: &mut Items<Step>,
) -> Result<u32, AllocError>
    ensures { IfOk result (λ after. reached steps.new after ≡ added steps.old (flat.flat_pattern pattern at next)) }
{
    let Pattern {
        place: _,
        form,
        parts,
    } = pattern;
    push_form(alloc, form, parts, at, next, steps)
}

/// The steps of a form with these parts, likewise.
#[cycle(push_pattern)]
fn push_form(
    alloc: Global,
    form: Form,
    parts: Items<Pattern>,
    at: u32,
    next: u32,
    steps: &mut Items<Step>,
) -> Result<u32, AllocError>
    ensures { IfOk result (λ after. reached steps.new after
        ≡ added steps.old (flat.flat_form form (map flat.flat_pattern parts) at next)) }
{
    match form {
        Form::Any => {
            if parts.is_empty() {
                Ok(next)
            } else {
                push_never(alloc, next, steps)
            }
        }
        Form::Binds(name) => push_name(alloc, name, parts, at, next, steps),
        Form::As(name) => push_as(alloc, name, parts, at, next, steps),
        Form::Typed(_) => {
            if parts.len() == 1 {
                push_patterns(alloc, parts, at, next, steps)
            } else {
                push_never(alloc, next, steps)
            }
        }
        Form::Opens(head) => push_opened(alloc, head, parts, at, next, steps),
        Form::Maps(direction) => push_seen(alloc, direction, parts, at, next, steps),
        Form::Sees(direction) => push_seen(alloc, direction, parts, at, next, steps),
    }
}

/// The steps of a pattern, and then the name of the value.
#[cycle(push_pattern)]
fn push_as(
    alloc: Global,
    name: Text,
    parts: Items<Pattern>,
    at: u32,
    next: u32,
    steps: &mut Items<Step>,
) -> Result<u32, AllocError>
    ensures { IfOk result (λ after. reached steps.new after
        ≡ added steps.old (flat.flat_form (form.As name) (map flat.flat_pattern parts) at next)) }
{
    if parts.len() == 1 {
        let after = push_patterns(alloc, parts, at, next, steps)?;
        steps.push(Step::Names(at, name))?;
        Ok(after)
    } else {
        push_never(alloc, next, steps)
    }
}

/// The step of a head, and then those of its parts.
#[cycle(push_pattern)]
fn push_opened(
    alloc: Global,
    head: Head,
    parts: Items<Pattern>,
    at: u32,
    next: u32,
    steps: &mut Items<Step>,
) -> Result<u32, AllocError>
    ensures { IfOk result (λ after. reached steps.new after
        ≡ added steps.old (flat.flat_form (form.Opens head) (map flat.flat_pattern parts) at next)) }
{
    let count = count_of(parts.len())?;
    steps.push(Step::Opens(at, head, count))?;
    let free = behind(next, count)?;
    push_patterns(alloc, parts, next, free, steps)
}

/// The step of a direction, and then those of the pattern for what it gives.
#[cycle(push_pattern)]
fn push_seen(
    alloc: Global,
    direction: u32,
    parts: Items<Pattern>,
    at: u32,
    next: u32,
    steps: &mut Items<Step>,
) -> Result<u32, AllocError>
    ensures { IfOk result (λ after. reached steps.new after
        ≡ added steps.old (flat.flat_form (form.Sees direction) (map flat.flat_pattern parts) at next)) }
{
    if parts.len() == 1 {
        steps.push(Step::Sees(at, direction))?;
        let free = behind(next, 1)?;
        push_patterns(alloc, parts, next, free, steps)
    } else {
        push_never(alloc, next, steps)
    }
}

/// The steps of patterns for the values from a number on.
#[cycle(push_pattern)]
fn push_patterns(
    alloc: Global,
    patterns: Items<Pattern>,
    at: u32,
    next: u32,
    steps: &mut Items<Step>,
) -> Result<u32, AllocError>
    ensures { IfOk result (λ after. reached steps.new after
        ≡ added steps.old (flat.flat_parts (map flat.flat_pattern patterns) at next)) }
{
    let mut here = at;
    let mut free = next;
    for pattern in patterns.into_vec() {
        free = push_pattern(alloc, pattern, here, free, steps)?;
        here = behind(here, 1)?;
    }
    Ok(free)
}

/// The arm as steps. It fails where memory is wanting, or where it would have 2^32 values in hand.
pub(crate) fn flat_arm(alloc: Global, arm: Arm) -> Result<Arm, AllocError>
    ensures { IfOk result (λ made. made ≡ flat.flat_arm arm) }
{
    match arm {
        Arm::Nested(patterns) => {
            let count = count_of(patterns.len())?;
            let mut steps = Items::new(alloc);
            push_patterns(alloc, patterns, 0, count, &mut steps)?;
            Ok(Arm::Flat(count, steps))
        }
        Arm::Flat(count, steps) => Ok(Arm::Flat(count, steps)),
    }
}

/// The arms as steps, in order, likewise.
pub(crate) fn flat_arms(alloc: Global, arms: Items<Arm>) -> Result<Items<Arm>, AllocError>
    ensures { IfOk result (λ made. made ≡ map flat.flat_arm arms) }
{
    let mut made = Items::new(alloc);
    for arm in arms.into_vec() {
        made.push(flat_arm(alloc, arm)?)?;
    }
    Ok(made)
}
