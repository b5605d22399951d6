ghost use Rattle.std.specs.Prelude.{◌≡◌, ◌||◌, if◌then◌else◌, List, [], ◌∷◌, bytes_eq, codes, OnOk, is_some};
ghost use Rattle.sail_kinds.specs.Failures.{first_failure};
ghost use Rattle.sail_kinds.specs.declared.error.TableError.TheVariants as error;
ghost use Rattle.sail_globals.specs.declared.naming.Naming.{Naming as ANaming};
ghost use Rattle.sail_globals.specs.Globals.{has_val, has_body, AreOf};
ghost use Rattle.sail_globals.specs.declared.naming.Called.TheVariants as called;
ghost use Rattle.sail_declared.specs.Wanting.{declared, is_typed as is_typed_body, is_addable, member_failures};
ghost use Rattle.sail_declared.specs.Wanting.{members_failures, union_failures, wanting, all_wanting};

use crate::typed::is_typed;
use sail_base::{Items, Place};
use sail_globals::{Alone, Called, Globals, Role, Space, is_builtin};
use sail_kinds::{First, TableError};
use sail_syntax::{Arrow, Def, Extent, FunctionClause, Name, Param};
use std::alloc::AllocError;

/// Notes a name for which something is missing, unless nothing is.
fn note_missing(
    is_there: bool,
    place: Place,
    name: &Name,
    first: &mut First,
) -> Result<(), AllocError>
    ensures { OnOk result (first.new.error ≡ first_failure first.old.error (if is_there then [] else error.NoName place name.now.text ∷ [])) }
{
    if !is_there {
        let name = name.text.clone()?;
        first.note(TableError::NoName { place, name });
    }
    Ok(())
}

fn note_val(
    globals: &Globals,
    place: Place,
    name: &Name,
    arrow: Arrow,
    first: &mut First,
) -> Result<(), AllocError>
    ensures { OnOk result ((namings : List ANaming) → AreOf namings globals.now → first.new.error ≡ first_failure first.old.error
        (if has_body namings (declared arrow) name.now.text then [] else error.NoName place name.now.text ∷ [])) }
{
    let has_body = match arrow {
        Arrow::Function => globals.has_function_body(name.text.as_str()),
        Arrow::Mapping => globals.has_mapping_body(name.text.as_str()),
    };
    note_missing(has_body, place, name, first)
}

fn note_function(
    globals: &Globals,
    place: Place,
    extent: Extent,
    name: &Name,
    clauses: &[FunctionClause],
    first: &mut First,
) -> Result<(), AllocError>
    ensures { OnOk result ((namings : List ANaming) → AreOf namings globals.now → first.new.error ≡ first_failure first.old.error
        (if has_val namings called.Function name.now.text || is_typed_body extent clauses.now then [] else error.NoName place name.now.text ∷ [])) }
{
    let has_val = globals.has_function_val(name.text.as_str());
    let is_typed = is_typed(extent, clauses);
    note_missing(has_val || is_typed, place, name, first)
}

fn note_mapping(
    globals: &Globals,
    place: Place,
    name: &Name,
    has_sides: bool,
    first: &mut First,
) -> Result<(), AllocError>
    ensures { OnOk result ((namings : List ANaming) → AreOf namings globals.now → first.new.error ≡ first_failure first.old.error
        (if has_val namings called.Mapping name.now.text || has_sides then [] else error.NoName place name.now.text ∷ [])) }
{
    let has_val = globals.has_mapping_val(name.text.as_str());
    note_missing(has_val || has_sides, place, name, first)
}

fn note_measure(globals: &Globals, name: &Name, first: &mut First) -> Result<(), AllocError>
    ensures { OnOk result ((namings : List ANaming) → AreOf namings globals.now → first.new.error ≡ first_failure first.old.error
        (if has_val namings called.Function name.now.text || has_body namings called.Function name.now.text
        then [] else error.NoName name.now.place name.now.text ∷ [])) }
{
    let has_val = globals.has_function_val(name.text.as_str());
    let has_body = globals.has_function_body(name.text.as_str());
    note_missing(has_val || has_body, name.place, name, first)
}

/// Whether what takes a name in this role may be a member of an overload.
fn is_addable(role: Option<Role>) -> bool
    ensures { result ≡ is_addable role }
{
    match role {
        Some(Role::Declared(Called::Function)) => true,
        Some(Role::Declared(Called::Direction)) => true,
        Some(Role::Defined(Called::Function)) => true,
        Some(Role::Defined(Called::Direction)) => true,
        Some(Role::Whole(Alone::Direction)) => true,
        Some(Role::Whole(Alone::Constructor)) => true,
        _ => false,
    }
}

fn note_member(globals: &Globals, name: &Name, first: &mut First) -> Result<(), AllocError>
    ensures { OnOk result ((namings : List ANaming) → AreOf namings globals.now
        → first.new.error ≡ first_failure first.old.error (member_failures namings name.now)) }
{
    let is_builtin = is_builtin(Space::Values, name.text.as_str());
    let is_addable = is_addable(globals.meaning(name.text.as_str()));
    note_missing(is_builtin || is_addable, name.place, name, first)
}

fn note_members(globals: &Globals, names: &[Name], first: &mut First) -> Result<(), AllocError>
    ensures { OnOk result ((namings : List ANaming) → AreOf namings globals.now
        → first.new.error ≡ first_failure first.old.error (members_failures namings names.now)) }
{
    for name in names {
        note_member(globals, name, first)?;
    }
    Ok(())
}

fn note_union(place: Place, name: &Name, variables: &Items<Param>, first: &mut First)
    ensures { first.new.error ≡ first_failure first.old.error (union_failures place name.now.text variables.now) }
{
    if name.text.is("exception") && !variables.is_empty() {
        first.note(TableError::IllKinded {
            place,
            mismatch: None,
        });
    }
}

/// Notes what a definition lacks, among definitions that take these names. The one error is want of memory.
fn note_definition(globals: &Globals, definition: &Def, first: &mut First) -> Result<(), AllocError>
    ensures { OnOk result ((namings : List ANaming) → AreOf namings globals.now
        → first.new.error ≡ first_failure first.old.error (wanting namings definition.now)) }
{
    match definition {
        Def::Val {
            place,
            name,
            arrow,
            ..
        } => note_val(globals, *place, name, *arrow, first),
        Def::Function {
            place,
            extent,
            name,
            clauses,
        } => note_function(globals, *place, *extent, name, clauses.as_slice(), first),
        Def::Mapping {
            place,
            name,
            sides,
            ..
        } => note_mapping(globals, *place, name, sides.is_some(), first),
        Def::Measure { name, .. } => note_measure(globals, name, first),
        Def::Overload(_, _, members) => note_members(globals, members.as_slice(), first),
        Def::Union {
            place,
            name,
            variables,
            ..
        } => {
            note_union(*place, name, variables, first);
            Ok(())
        }
        _ => Ok(()),
    }
}

/// Notes what the definitions of a text lack, whose names are found in `globals`: a `val` without a body, a body
/// without types, a measure without its function, a member of an overload that can't be one; and parameters
/// of the union `exception`. The one error is want of memory.
pub fn note_wanting(
    globals: &Globals,
    definitions: &[Def],
    first: &mut First,
) -> Result<(), AllocError>
    ensures { OnOk result ((namings : List ANaming) → AreOf namings globals.now
        → first.new.error ≡ first_failure first.old.error (all_wanting namings definitions.now)) }
{
    for definition in definitions {
        note_definition(globals, definition, first)?;
    }
    Ok(())
}
