ghost use Rattle.std.specs.Prelude.{◌≡◌, ℕ, List, IfOk, OnOk, find, option_map, bytes_eq, if◌then◌else◌};
ghost use Rattle.std.specs.HashMap.{get_by_text};
ghost use Rattle.std.specs.Option.{option_or};
ghost use Rattle.sail_types.specs.Rows.{row_name as name_of_row};
ghost use Rattle.sail_globals.specs.Clashes.{takes};
ghost use Rattle.known_names.specs.Held.{entered_at};
ghost use Rattle.known_names.specs.Meanings.{is_of_state as is_row_of_state, builtin_row, builtin_value, global_as, value_of};

use crate::entered::Entered;
use sail_base::Items;
use sail_globals::{Alone, Called, Naming, Role, Space};
use sail_names::Global as Named;
use sail_types::{ALL, Row, row_name};
use std::alloc::{AllocError, Global};
use std::collections::HashMap;

fn is_of_state(row: Row) -> bool
    ensures { result ≡ is_row_of_state row }
{
    match row {
        Row::MemRead
        | Row::MemReserve
        | Row::MemWrite
        | Row::MemWriteCond
        | Row::MemMapped
        | Row::Print
        | Row::PrintEndline
        | Row::ConsolePut => true,
        _ => false,
    }
}

fn named_row(row: Row) -> Named
    ensures { result ≡ builtin_row row }
{
    if is_of_state(row) {
        Named::StateBuiltin
    } else {
        Named::Builtin
    }
}

/// Gives a name a meaning, in the place of the one that it has, if any.
fn put(
    alloc: Global,
    values: &mut HashMap<String, Named>,
    name: &str,
    named: Named,
) -> Result<(), AllocError>
    ensures { OnOk result ((other : List ℕ) → get_by_text values.new other
        ≡ (if bytes_eq name.now other then Some named else get_by_text values.old other)) }
{
    values.insert(String::from_str(alloc, name)?, named)?;
    Ok(())
}

/// Puts a row under its name, unless the name has a meaning.
fn put_row(alloc: Global, values: &mut HashMap<String, Named>, row: Row) -> Result<(), AllocError>
    ensures { OnOk result ((name : List ℕ) → get_by_text values.new name
        ≡ option_or (get_by_text values.old name) (if bytes_eq (name_of_row row) name then Some (builtin_row row) else None)) }
{
    let name = row_name(row);
    let is_taken = values.contains_key(name);
    if is_taken {
        return Ok(());
    }
    put(alloc, values, name, named_row(row))?;
    Ok(())
}

/// The rows of this list, by name: of several of one name the first.
fn find_rows(alloc: Global, rows: &[Row]) -> Result<HashMap<String, Named>, AllocError>
    ensures { IfOk result (λ values. (name : List ℕ) → get_by_text values name
        ≡ option_map builtin_row (find (λ row. bytes_eq (name_of_row row) name) rows.now)) }
{
    let mut values: HashMap<String, Named> = HashMap::new(alloc);
    for row in rows {
        put_row(alloc, &mut values, *row)?;
    }
    Ok(values)
}

/// The builtins, `Some` and `None`.
fn find_builtins(alloc: Global) -> Result<HashMap<String, Named>, AllocError>
    ensures { IfOk result (λ values. (name : List ℕ) → get_by_text values name ≡ builtin_value name) }
{
    let mut values = find_rows(alloc, &ALL)?;
    put(alloc, &mut values, "Some", Named::Constructor)?;
    put(alloc, &mut values, "None", Named::Constructor)?;
    Ok(values)
}

fn called_as(called: Called, number: usize) -> Named
    ensures { (entered : List ℕ) → result ≡ global_as entered (Role.Declared called) number }
{
    match called {
        Called::Function => Named::Function(number),
        Called::Mapping => Named::Mapping(number),
        Called::Direction => Named::Direction(number),
    }
}

fn named_alone(what: Alone, number: usize) -> Named
    ensures { (entered : List ℕ) → result ≡ global_as entered (Role.Whole what) number }
{
    match what {
        Alone::Mapping => Named::Mapping(number),
        Alone::Direction => Named::Direction(number),
        Alone::Constructor => Named::Constructor,
        Alone::Member => Named::Member,
        Alone::Let => Named::Let(number),
        _ => Named::Register,
    }
}

/// What a name means that is taken in this role, calls of which, where it is an overload, can enter these.
fn named_as(
    alloc: Global,
    role: Role,
    number: usize,
    entered: &[usize],
) -> Result<Named, AllocError>
    ensures { IfOk result (λ named. named ≡ global_as entered.now role number) }
{
    match role {
        Role::Declared(called) | Role::Defined(called) => Ok(called_as(called, number)),
        Role::Overloaded => Ok(Named::Overload(Items::from_slice(alloc, entered)?)),
        Role::Whole(what) => Ok(named_alone(what, number)),
    }
}

/// Gives the name of a value the meaning with which it is taken, unless it has one.
fn put_value(
    alloc: Global,
    values: &mut HashMap<String, Named>,
    naming: &Naming,
    entered: &Entered<'_>,
) -> Result<(), AllocError>
    requires { naming.now.space ≡ Space.Values }
    ensures { OnOk result ((name : List ℕ) → get_by_text values.new name
        ≡ option_or (get_by_text values.old name) (if takes Space.Values name naming.now
        then Some (global_as (entered_at entered.now.names name) naming.now.role naming.now.definition) else None)) }
{
    let name = naming.name.as_str();
    let has_first = values.contains_key(name);
    if has_first {
        return Ok(());
    }
    let named = named_as(alloc, naming.role, naming.definition, entered.of(name))?;
    put(alloc, values, name, named)?;
    Ok(())
}

fn put_naming(
    alloc: Global,
    values: &mut HashMap<String, Named>,
    naming: &Naming,
    entered: &Entered<'_>,
) -> Result<(), AllocError>
    ensures { OnOk result ((name : List ℕ) → get_by_text values.new name
        ≡ option_or (get_by_text values.old name) (if takes Space.Values name naming.now
        then Some (global_as (entered_at entered.now.names name) naming.now.role naming.now.definition) else None)) }
{
    match naming.space {
        Space::Types => Ok(()),
        Space::Measures => Ok(()),
        Space::Values => put_value(alloc, values, naming, entered),
    }
}

/// What each name of a value means that these take: of definitions that take one name the first gives it its meaning.
pub(crate) fn find_values(
    alloc: Global,
    namings: &[Naming],
    entered: &Entered<'_>,
) -> Result<HashMap<String, Named>, AllocError>
    ensures { IfOk result (λ values. (name : List ℕ) → get_by_text values name ≡ value_of (entered_at entered.now.names) namings.now name) }
{
    let mut values = find_builtins(alloc)?;
    for naming in namings {
        put_naming(alloc, &mut values, naming, entered)?;
    }
    Ok(values)
}
