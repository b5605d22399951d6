ghost use Rattle.std.specs.Prelude.{◌≡◌, ◌||◌, ℕ, List, bytes_eq, IfOk, OnOk};
ghost use Rattle.std.specs.HashSet.{contains_text};
ghost use Rattle.std.specs.List.{list_any};
ghost use Rattle.sail_names.specs.Known.{known_of};
ghost use Rattle.known_names.specs.Meanings.{is_struct_named, is_named, has_field, is_exception as is_exception_of, known_from};

use crate::entered::{find_entered, find_operators};
use crate::firsts::find_firsts;
use crate::values::find_values;
use sail_globals::Naming;
use sail_names::Names;
use sail_syntax::{Def, Member};
use std::alloc::{AllocError, Global};
use std::collections::HashSet;

fn add_name(alloc: Global, names: &mut HashSet<String>, name: &str) -> Result<(), AllocError>
    ensures { OnOk result ((other : List ℕ) → contains_text names.new other ≡ (contains_text names.old other || bytes_eq name.now other)) }
{
    names.insert(String::from_str(alloc, name)?)?;
    Ok(())
}

fn add_struct(
    alloc: Global,
    structs: &mut HashSet<String>,
    definition: &Def,
) -> Result<(), AllocError>
    ensures { OnOk result ((name : List ℕ) → contains_text structs.new name
        ≡ (contains_text structs.old name || is_struct_named name definition.now)) }
{
    match definition {
        Def::Struct { name, .. } => add_name(alloc, structs, name.text.as_str()),
        _ => Ok(()),
    }
}

/// The names of the structs of a text.
fn find_structs(alloc: Global, definitions: &[Def]) -> Result<HashSet<String>, AllocError>
    ensures { IfOk result (λ structs. (name : List ℕ) → contains_text structs name ≡ list_any (is_struct_named name) definitions.now) }
{
    let mut structs = HashSet::new(alloc);
    for definition in definitions {
        add_struct(alloc, &mut structs, definition)?;
    }
    Ok(structs)
}

fn add_members(
    alloc: Global,
    names: &mut HashSet<String>,
    members: &[Member],
) -> Result<(), AllocError>
    ensures { OnOk result ((name : List ℕ) → contains_text names.new name
        ≡ (contains_text names.old name || list_any (is_named name) members.now)) }
{
    for member in members {
        add_name(alloc, names, member.name.text.as_str())?;
    }
    Ok(())
}

fn add_fields(
    alloc: Global,
    names: &mut HashSet<String>,
    definition: &Def,
) -> Result<(), AllocError>
    ensures { OnOk result ((name : List ℕ) → contains_text names.new name
        ≡ (contains_text names.old name || has_field name definition.now)) }
{
    match definition {
        Def::Struct { fields, .. } => add_members(alloc, names, fields.as_slice()),
        _ => Ok(()),
    }
}

/// The names of the fields of all structs of a text.
fn find_fields(alloc: Global, definitions: &[Def]) -> Result<HashSet<String>, AllocError>
    ensures { IfOk result (λ fields. (name : List ℕ) → contains_text fields name ≡ list_any (has_field name) definitions.now) }
{
    let mut fields = HashSet::new(alloc);
    for definition in definitions {
        add_fields(alloc, &mut fields, definition)?;
    }
    Ok(fields)
}

fn is_exception(definition: &Def) -> bool
    ensures { result ≡ is_exception_of definition.now }
{
    match definition {
        Def::Union { name, .. } => name.text.is("exception"),
        _ => false,
    }
}

fn has_exception(definitions: &[Def]) -> bool
    ensures { result ≡ list_any is_exception_of definitions.now }
{
    for definition in definitions {
        if is_exception(definition) {
            return true;
        }
    }
    false
}

/// What the definitions of a text name, which take these names. The one error is want of memory.
pub fn find_names(
    alloc: Global,
    definitions: &[Def],
    namings: &[Naming],
) -> Result<Names, AllocError>
    ensures { IfOk result (λ names. known_of names ≡ known_from namings.now definitions.now) }
{
    let firsts = find_firsts(alloc, namings)?;
    let entered = find_entered(alloc, definitions, &firsts)?;
    Ok(Names {
        values: find_values(alloc, namings, &entered)?,
        structs: find_structs(alloc, definitions)?,
        fields: find_fields(alloc, definitions)?,
        has_exception: has_exception(definitions),
        operators: find_operators(alloc, definitions, &firsts)?,
    })
}
