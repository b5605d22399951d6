ghost use Rattle.std.specs.Prelude.{◌≡◌, List, [], ◌∷◌, ◌++◌, codes, IfOk, OnOk};
ghost use Rattle.shape_rules.specs.Findings.{first_failure};
ghost use Rattle.shape_models.specs.Models.{meant_in, entries, overloads_faults, gives_of, gives_by, directions_give};
ghost use Rattle.shape_models.specs.Sources.{tabled_by, IsSound, AreMeanings};

use crate::entries::find_entries;
use crate::overloads::{find_named, find_operators, note_named, note_operators, put_named};
use crate::source::Source;
use crate::values::{hold_entries, put_rows};
use sail_base::Items;
use sail_signatures::Signature;
use sail_syntax::Def;
use sail_types::Typ;
use shape_rules::{First, Meanings};
use std::alloc::{AllocError, Global};
use std::mem;

/// What both directions of a mapping give.
fn push_given(signature: Option<Signature>, given: &mut Items<Typ>) -> Result<(), AllocError>
    ensures { OnOk result (given.new ≡ given.old ++ gives_of signature) }
{
    match signature {
        None => Ok(()),
        Some(mut signature) => {
            given.push(mem::replace(&mut signature.to, Typ::Unit))?;
            given.push(mem::replace(&mut signature.from, Typ::Unit))
        }
    }
}

/// What the directions of a mapping give, behind others.
fn push_given_by(
    alloc: Global,
    source: &Source<'_>,
    definition: &Def,
    given: &mut Items<Typ>,
) -> Result<(), AllocError>
    requires { IsSound source.now }
    ensures { OnOk result (given.new ≡ given.old ++ gives_by (tabled_by source.now) definition.now) }
{
    match definition {
        Def::Mapping { name, .. } => {
            let signature = source.signature(alloc, name.text.as_str())?;
            push_given(signature, given)
        }
        _ => Ok(()),
    }
}

/// What directions give, by their numbers.
fn find_given(alloc: Global, source: &Source<'_>) -> Result<Items<Typ>, AllocError>
    requires { IsSound source.now }
    ensures { IfOk result (λ given. given ≡ directions_give (tabled_by source.now) source.now.definitions.now) }
{
    let mut given = Items::new(alloc);
    let definitions = source.definitions;
    for definition in definitions {
        push_given_by(alloc, source, definition, &mut given)?;
    }
    Ok(given)
}

/// What the definitions of a model mean, without top-level lets, and notes the members of overloads that clash. The one error is want
/// of memory.
#[tactic(auto, using(shape_rules::proofs::Firsts::first_failure_append))]
pub fn find_meanings(
    alloc: Global,
    source: &Source<'_>,
    first: &mut First,
) -> Result<Meanings, AllocError>
    requires { IsSound source.now }
    ensures failures { OnOk result (first.new.error ≡ first_failure first.old.error
        (overloads_faults source.now.types.now (meant_in (entries (tabled_by source.now) source.now.definitions.now)) source.now.definitions.now)) }
    ensures meanings { IfOk result (λ meanings. AreMeanings (tabled_by source.now)
        (meant_in (entries (tabled_by source.now) source.now.definitions.now)) source.now.definitions.now [] meanings) }
{
    let entries = find_entries(alloc, source)?;
    let mut values = hold_entries(alloc, entries)?;
    let named = find_named(alloc, source.types, &values, source.definitions)?;
    note_named(alloc, named.as_slice(), first)?;
    note_operators(alloc, source.types, &values, source.definitions, first)?;
    let added = find_operators(alloc, source.types, &values, source.definitions)?;
    put_rows(alloc, &mut values)?;
    put_named(alloc, &mut values, named)?;
    let given = find_given(alloc, source)?;
    let exception = source.find_exception();
    Ok(Meanings {
        values,
        added,
        exception,
        given,
    })
}
