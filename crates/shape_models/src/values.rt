ghost use Rattle.std.specs.Prelude.{◌≡◌, ℕ, ◌+◌, length, List, Some, None, bytes_eq, if◌then◌else◌, find, IfOk, OnOk};
ghost use Rattle.std.specs.HashMap.{get_by_text};
ghost use Rattle.std.specs.Option.{option_or, option_copied};
ghost use Rattle.sail_types.specs.Rows.{row_named, row_name as name_of_row};
ghost use Rattle.shape_rules.specs.declared.callees.Meant.TheVariants as M;
ghost use Rattle.shape_models.specs.Models.{meant_in, or_row};
ghost use Rattle.shape_models.specs.Held.{has_own, over, lets_over};

use crate::entries::{Entry, more};
use sail_base::Items;
use sail_types::{ALL, Row, copy_shape, row_name};
use shape_rules::{Local, Meant};
use std::alloc::{AllocError, Global};
use std::collections::HashMap;

/// Gives a name a meaning, in the place of the one that it has, if any.
fn put(
    alloc: Global,
    values: &mut HashMap<String, Meant>,
    name: &str,
    meant: Meant,
) -> Result<(), AllocError>
    ensures { OnOk result ((other : List ℕ) → get_by_text values.new other
        ≡ (if bytes_eq name.now other then Some meant else get_by_text values.old other)) }
{
    values.insert(String::from_str(alloc, name)?, meant)?;
    Ok(())
}

/// Gives a name a meaning, unless it has one. The one error is want of memory.
pub(crate) fn put_new(
    alloc: Global,
    values: &mut HashMap<String, Meant>,
    name: &str,
    meant: Meant,
) -> Result<(), AllocError>
    ensures { OnOk result ((other : List ℕ) → get_by_text values.new other
        ≡ option_or (get_by_text values.old other) (if bytes_eq name.now other then Some meant else None)) }
{
    let is_taken = values.contains_key(name);
    if is_taken {
        return Ok(());
    }
    put(alloc, values, name, meant)?;
    Ok(())
}

fn put_entry(
    alloc: Global,
    values: &mut HashMap<String, Meant>,
    entry: Entry,
) -> Result<(), AllocError>
    ensures { OnOk result ((name : List ℕ) → get_by_text values.new name
        ≡ option_or (get_by_text values.old name) (if bytes_eq entry.name name then Some entry.meant else None)) }
{
    let Entry { name, meant } = entry;
    put_new(alloc, values, name.as_str(), meant)
}

/// What names mean by these entries: of several of one name the first. The one error is want of memory.
pub fn hold_entries(
    alloc: Global,
    entries: Items<Entry>,
) -> Result<HashMap<String, Meant>, AllocError>
    ensures { IfOk result (λ values. (name : List ℕ) → get_by_text values name ≡ meant_in entries name) }
{
    let mut values: HashMap<String, Meant> = HashMap::new(alloc);
    for entry in entries.into_vec() {
        put_entry(alloc, &mut values, entry)?;
    }
    Ok(values)
}

/// Gives these builtins their names, unless these mean something.
fn put_each_row(
    alloc: Global,
    values: &mut HashMap<String, Meant>,
    rows: &[Row],
) -> Result<(), AllocError>
    ensures { OnOk result ((name : List ℕ) → get_by_text values.new name
        ≡ or_row (get_by_text values.old name) (find (λ row. bytes_eq (name_of_row row) name) rows.now)) }
{
    for row in rows {
        put_new(alloc, values, row_name(*row), Meant::Row(*row))?;
    }
    Ok(())
}

/// Gives the builtins their names, unless these mean something. The one error is want of memory.
#[tactic(auto, unfolding(sail_types::specs::Rows::all_rows))]
pub(crate) fn put_rows(alloc: Global, values: &mut HashMap<String, Meant>) -> Result<(), AllocError>
    ensures { OnOk result ((name : List ℕ) → get_by_text values.new name ≡ or_row (get_by_text values.old name) (row_named name)) }
{
    put_each_row(alloc, values, &ALL)
}

/// Whether a definition or an earlier let gives a name its meaning, and no builtin or overload does.
fn is_own(meant: Option<&Meant>) -> bool
    ensures { result ≡ has_own (option_copied meant.entry) }
{
    match meant {
        None => false,
        Some(Meant::Row(_)) => false,
        Some(Meant::Overload(_)) => false,
        Some(_) => true,
    }
}

/// Adds a name that a top-level let binds, the one of this place among them: it stands before a builtin and an overload of its name.
fn put_let(
    alloc: Global,
    values: &mut HashMap<String, Meant>,
    place: u32,
    local: &Local,
) -> Result<(), AllocError>
    ensures { OnOk result ((name : List ℕ) → get_by_text values.new name
        ≡ (if bytes_eq local.now.name name then over (get_by_text values.old name) (M.Let place local.now.shape) else get_by_text values.old name)) }
{
    let name = local.name.as_str();
    let is_taken = is_own(values.get(name));
    if is_taken {
        return Ok(());
    }
    let shape = copy_shape(alloc, &local.shape)?;
    put(alloc, values, name, Meant::Let(place, shape))?;
    Ok(())
}

/// Adds the names that a top-level let binds, behind so many that earlier ones bind, and says how many there are then. The one error is
/// want of memory.
pub fn put_lets(
    alloc: Global,
    values: &mut HashMap<String, Meant>,
    count: u32,
    locals: &[Local],
) -> Result<u32, AllocError>
    ensures count { IfOk result (λ after. after ≡ count + length locals.now) }
    ensures values { OnOk result ((name : List ℕ) → get_by_text values.new name ≡ lets_over count locals.now (get_by_text values.old name) name) }
{
    let mut place = count;
    for local in locals {
        put_let(alloc, values, place, local)?;
        place = more(place)?;
    }
    Ok(place)
}
