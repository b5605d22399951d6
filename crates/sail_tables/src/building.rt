ghost use Rattle.std.specs.Prelude.{◌≡◌, None, IfOk, OnOk, IfErr};
ghost use Rattle.sail_tables.specs.Refused.{IsFirstFailure, IsAccepted, IsRefusal};
ghost use Rattle.sail_tables.specs.Tabled.{AreTables};

use crate::entries::note_entries;
use crate::model_tables::Tables;
use crate::nesting::check_nesting;
use crate::overloads::{find_operators, find_overloads};
use crate::positions::{find_lets, find_registers};
use crate::signatures::find_signatures;
use known_names::find_names;
use sail_base::Place;
use sail_bodies::{Given, note_bodies};
use sail_cycles::{Which, cycles_of, note_cycles};
use sail_declared::note_wanting;
use sail_globals::{find_globals, find_namings, note_clashes};
use sail_kinds::{First, TableError};
use sail_signatures::find_callables;
use sail_syntax::Def;
use std::alloc::{AllocError, Global};
use type_definitions::define_all;

/// Reads a gathered text that ends here, and notes its failures.
fn read_all<'a>(
    alloc: Global,
    definitions: &'a [Def],
    end: Place,
    first: &mut First,
) -> Result<Tables<'a>, AllocError>
    requires { first.old.error ≡ None }
    ensures failures { OnOk result (IsFirstFailure definitions.now end first.new.error) }
    ensures tables { IfOk result (λ tables. AreTables definitions.now end tables) }
{
    check_nesting(alloc, definitions)?;
    let namings = find_namings(alloc, definitions)?;
    note_clashes(alloc, namings.as_slice(), first)?;
    let globals = find_globals(alloc, namings.as_slice())?;
    note_wanting(&globals, definitions, first)?;
    let types = define_all(alloc, definitions, first)?;
    let names = find_names(alloc, definitions, namings.as_slice())?;
    let callables = find_callables(alloc, definitions)?;
    let given = Given {
        definitions,
        callables: &callables,
        names: &names,
        types: &types,
    };
    note_bodies(alloc, given, first)?;
    let calls = cycles_of(alloc, definitions, &names, Which::CallsAndPatterns)?;
    let patterns = cycles_of(alloc, definitions, &names, Which::Patterns)?;
    note_cycles(definitions, &callables, &names, &calls, &patterns, first)?;
    let signatures = find_signatures(alloc, definitions, &callables, &types)?;
    note_entries(alloc, &globals, &signatures, end, first)?;
    Ok(Tables {
        definitions,
        types,
        names,
        callables,
        signatures,
        calls,
        lets: find_lets(alloc, definitions)?,
        registers: find_registers(alloc, definitions)?,
        overloads: find_overloads(alloc, definitions)?,
        operators: find_operators(alloc, definitions)?,
        end,
    })
}

/// The tables of a gathered text that ends here. The error is the first, by place and then by number, of all failures of its
/// definitions; `OutOfMemory` says nothing of them.
pub fn tables<'a>(
    alloc: Global,
    definitions: &'a [Def],
    end: Place,
) -> Result<Tables<'a>, TableError>
    ensures accepted { OnOk result (IsAccepted definitions.now end) }
    ensures tables { IfOk result (λ tables. AreTables definitions.now end tables) }
    ensures refused { IfErr result (λ error. IsRefusal definitions.now end error) }
{
    let mut first = First::none();
    let tables = read_all(alloc, definitions, end, &mut first)?;
    match first.error.take() {
        Some(error) => Err(error),
        None => Ok(tables),
    }
}
