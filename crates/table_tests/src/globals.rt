use crate::definitions::{Row, definitions};
use sail_base::Text;
use sail_globals::{Called, Role, find_globals, find_members, find_namings, note_clashes};
use sail_kinds::{First, TableError};
use sail_syntax::Def;
use std::alloc::{AllocError, Global};
use std::test::Fail;

/// A direction of a mapping and a function of its name.
const DIRECTION: &[Row] = &[Row::Mapping((1, "m")), Row::Function((2, "m_backwards"))];

/// Two overloads of a name, which don't clash, and a register of a builtin's name.
const BUILTIN: &[Row] = &[
    Row::Overload((1, "f"), ""),
    Row::Overload((2, "f"), ""),
    Row::Register((3, "length")),
];

/// A function and a register of one name.
const TWICE: &[Row] = &[Row::Function((1, "f")), Row::Register((2, "f"))];

/// The line and the name of the first clash, 0 where there is none.
fn first_clash(alloc: Global, definitions: &[Def]) -> Result<(u32, Text), Fail> {
    let namings = find_namings(alloc, definitions)?;
    let mut first = First::none();
    note_clashes(alloc, namings.as_slice(), &mut first)?;
    match &first.error {
        Some(TableError::Clash { place, name }) => Ok((place.line, name.clone()?)),
        _ => Ok((0, Text::new(alloc, "")?)),
    }
}

/// Whether the first clash of a table is on this line, of this name.
fn clashes(alloc: Global, rows: &[Row], line: u32, name: &str) -> Result<bool, Fail> {
    let definitions = definitions(alloc, rows)?;
    let found = first_clash(alloc, definitions.as_slice())?;
    Ok(found.0 == line && found.1.is(name))
}

#[test]
fn names_clash(rt: HostRuntime) -> Result<(), Fail> {
    let alloc = rt.alloc();
    assert!(rt; clashes(alloc, DIRECTION, 2, "m_backwards")?);
    assert!(rt; clashes(alloc, BUILTIN, 3, "length")?);
    Ok(())
}

#[test]
fn names_have_meanings(rt: HostRuntime) -> Result<(), Fail> {
    let alloc = rt.alloc();
    let definitions = definitions(alloc, TWICE)?;
    let members = find_members(alloc, definitions.as_slice())?;
    assert!(rt; !members.has("f"));
    let namings = find_namings(alloc, definitions.as_slice())?;
    let globals = find_globals(alloc, namings.as_slice())?;
    assert!(rt; globals.meaning("f") == Some(Role::Defined(Called::Function)));
    assert!(rt; globals.has_function_body("f") && !globals.has_function_val("f"));
    assert!(rt; !globals.has_mapping_val("f") && !globals.has_mapping_body("f"));
    Ok(())
}
