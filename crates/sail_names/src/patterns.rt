ghost use Rattle.std.specs.Prelude.{◌≡◌, ◌++◌, ◌∷◌, [], map, OnOk, if◌then◌else◌};
ghost use Rattle.sail_names.specs.Known.{known_of, setting_of, is_member};
ghost use Rattle.sail_names.specs.Locals.{behind};
ghost use Rattle.sail_names.specs.Patterns.{joined, binds, binds_of_joined, uses_failures, uses_of_joined, pattern_failures, parameters_failures};
ghost use Rattle.sail_names.specs.parts.Scopes.{pointed};

use crate::around::Around;
use crate::failures::{push_clashes, push_type, push_unless};
use crate::locals::Locals;
use crate::names::Names;
use sail_base::{Items, Kind};
use sail_kinds::TableError;
use sail_syntax::{Joined, Name, Pat};
use std::alloc::{AllocError, Global};

/// Adds the failures of a pattern, and puts what it binds in scope. The one error is want of memory.
pub fn enter_pattern<'a>(
    alloc: Global,
    pattern: &'a Pat,
    around: Around,
    locals: &mut Locals<'a>,
    failures: &mut Items<TableError>,
) -> Result<(), AllocError>
    ensures failures { OnOk result (failures.new ≡ failures.old ++ pattern_failures (setting_of around.entry) pattern.now) }
    ensures locals { OnOk result (locals.new ≡ behind (binds (known_of around.entry.names.now) pattern.now) locals.old) }
{
    push_uses(alloc, pattern, around, failures)?;
    let mut bound = Vec::new(alloc);
    push_bound(pattern, around.names, &mut bound)?;
    push_clashes(alloc, bound.as_slice(), failures)?;
    bind_all(bound.as_slice(), locals)
}

/// Adds the failures of parameters, and puts what they bind in scope. The one error is want of memory.
pub fn enter_parameters<'a>(
    alloc: Global,
    patterns: &'a [Pat],
    around: Around,
    locals: &mut Locals<'a>,
    failures: &mut Items<TableError>,
) -> Result<(), AllocError>
    ensures failures { OnOk result (failures.new ≡ failures.old ++ parameters_failures (setting_of around.entry) patterns.now) }
    ensures locals { OnOk result (locals.new ≡ behind (joined (map (binds (known_of around.entry.names.now)) patterns.now)) locals.old) }
{
    push_all_uses(alloc, patterns, around, failures)?;
    let mut bound = Vec::new(alloc);
    push_all_bound(patterns, around.names, &mut bound)?;
    push_clashes(alloc, bound.as_slice(), failures)?;
    bind_all(bound.as_slice(), locals)
}

/// Puts names that are bound for good in scope.
fn bind_all<'a>(names: &[&'a Name], locals: &mut Locals<'a>) -> Result<(), AllocError>
    ensures { OnOk result (locals.new ≡ behind (map pointed names.now) locals.old) }
{
    for name in names {
        locals.bind(name)?;
    }
    Ok(())
}

/// Puts what a pattern binds at the end of a list.
#[cycle(bound)]
fn push_bound<'a>(
    pattern: &'a Pat,
    names: &Names,
    list: &mut Vec<&'a Name>,
) -> Result<(), AllocError>
    ensures { OnOk result (map pointed list.new.items ≡ map pointed list.old.items ++ binds (known_of names.now) pattern.now) }
{
    match pattern {
        Pat::Bind(name) => push_unless_member(name, names, list),
        Pat::Construct(_, parts) => push_all_bound(parts.as_slice(), names, list),
        Pat::Group(_, _, parts) => push_all_bound(parts.as_slice(), names, list),
        Pat::Concat {
            first,
            second,
            more,
            ..
        } => {
            push_bound(first.get(), names, list)?;
            push_bound(second.get(), names, list)?;
            push_joined_bound(more.as_slice(), names, list)
        }
        Pat::Cons(_, head, tail) => {
            push_bound(head.get(), names, list)?;
            push_bound(tail.get(), names, list)
        }
        Pat::As(_, part, name) => {
            push_bound(part.get(), names, list)?;
            push_name(name, list)
        }
        Pat::Typed(_, part, _) => push_bound(part.get(), names, list),
        _ => Ok(()),
    }
}

fn push_name<'a>(name: &'a Name, list: &mut Vec<&'a Name>) -> Result<(), AllocError>
    ensures { OnOk result (map pointed list.new.items ≡ map pointed list.old.items ++ name.now ∷ []) }
{
    list.push(name)?;
    Ok(())
}

fn push_unless_member<'a>(
    name: &'a Name,
    names: &Names,
    list: &mut Vec<&'a Name>,
) -> Result<(), AllocError>
    ensures { OnOk result (map pointed list.new.items ≡ map pointed list.old.items
        ++ (if is_member (known_of names.now) name.now.text then [] else name.now ∷ [])) }
{
    if names.is_member(name.text.as_str()) {
        return Ok(());
    }
    push_name(name, list)
}

#[cycle(bound)]
fn push_all_bound<'a>(
    patterns: &'a [Pat],
    names: &Names,
    list: &mut Vec<&'a Name>,
) -> Result<(), AllocError>
    ensures { OnOk result (map pointed list.new.items ≡ map pointed list.old.items ++ joined (map (binds (known_of names.now)) patterns.now)) }
{
    for pattern in patterns {
        push_bound(pattern, names, list)?;
    }
    Ok(())
}

#[cycle(bound)]
fn push_joined_bound<'a>(
    parts: &'a [Joined],
    names: &Names,
    list: &mut Vec<&'a Name>,
) -> Result<(), AllocError>
    ensures { OnOk result (map pointed list.new.items ≡ map pointed list.old.items ++ joined (map (binds_of_joined (known_of names.now)) parts.now)) }
{
    for further in parts {
        push_bound(&further.part, names, list)?;
    }
    Ok(())
}

/// Adds the failures of the names and types that a pattern uses.
#[cycle(uses)]
fn push_uses(
    alloc: Global,
    pattern: &Pat,
    around: Around,
    failures: &mut Items<TableError>,
) -> Result<(), AllocError>
    ensures { OnOk result (failures.new ≡ failures.old ++ uses_failures (setting_of around.entry) pattern.now) }
{
    match pattern {
        Pat::Construct(name, parts) => {
            push_unless(around.is_construction(name.text.as_str()), name, failures)?;
            push_all_uses(alloc, parts.as_slice(), around, failures)
        }
        Pat::Group(_, _, parts) => push_all_uses(alloc, parts.as_slice(), around, failures),
        Pat::Concat {
            first,
            second,
            more,
            ..
        } => {
            push_uses(alloc, first.get(), around, failures)?;
            push_uses(alloc, second.get(), around, failures)?;
            push_joined_uses(alloc, more.as_slice(), around, failures)
        }
        Pat::Cons(_, head, tail) => {
            push_uses(alloc, head.get(), around, failures)?;
            push_uses(alloc, tail.get(), around, failures)
        }
        Pat::As(_, part, _) => push_uses(alloc, part.get(), around, failures),
        Pat::Typed(_, part, typ) => {
            push_uses(alloc, part.get(), around, failures)?;
            push_type(alloc, typ, around, Kind::Type, failures)
        }
        _ => Ok(()),
    }
}

#[cycle(uses)]
fn push_all_uses(
    alloc: Global,
    patterns: &[Pat],
    around: Around,
    failures: &mut Items<TableError>,
) -> Result<(), AllocError>
    ensures { OnOk result (failures.new ≡ failures.old ++ joined (map (uses_failures (setting_of around.entry)) patterns.now)) }
{
    for pattern in patterns {
        push_uses(alloc, pattern, around, failures)?;
    }
    Ok(())
}

#[cycle(uses)]
fn push_joined_uses(
    alloc: Global,
    parts: &[Joined],
    around: Around,
    failures: &mut Items<TableError>,
) -> Result<(), AllocError>
    ensures { OnOk result (failures.new ≡ failures.old ++ joined (map (uses_of_joined (setting_of around.entry)) parts.now)) }
{
    for further in parts {
        push_uses(alloc, &further.part, around, failures)?;
    }
    Ok(())
}
