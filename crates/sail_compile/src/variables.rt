//! The names that Type variables print as.
ghost use Rattle.std.specs.Prelude.{◌≡◌, List, None, IfOk};
ghost use Rattle.std.specs.Option.{option_copied};
ghost use Rattle.sail_base.specs.declared.place.Place.{Place as APlace};
ghost use Rattle.sail_syntax.specs.declared.definitions.Def.{Def as ADef};
ghost use Rattle.sail_tables.specs.Tabled.{AreTables};
ghost use Rattle.sail_compile.specs.Variables as spec;

use sail_base::{Items, Place, Text};
use sail_signatures::Signature;
use sail_syntax::{Def, FunctionClause};
use sail_tables::Tables;
use shape_declarations::type_names;
use std::alloc::{AllocError, Global};

/// A clause or a measure of a function.
#[derive(Drop)]
pub struct Begun {
    /// Where it begins.
    pub place: Place,
    /// The function's name.
    pub name: Text,
}

/// Whether a place stands before another.
fn stands_before(place: Place, other: Place) -> bool
    ensures { result ≡ spec.stands_before place other }
{
    if place.file != other.file {
        place.file < other.file
    } else if place.line != other.line {
        place.line < other.line
    } else {
        place.column < other.column
    }
}

fn is_later(kept: &Option<Begun>, place: Place) -> bool
    ensures { result ≡ spec.is_later kept.now place }
{
    match kept {
        None => true,
        Some(kept) => stands_before(kept.place, place),
    }
}

/// The one that was kept, or one that begins later than it and not behind a place.
fn later(
    at: Place,
    kept: Option<Begun>,
    name: &Text,
    place: Place,
) -> Result<Option<Begun>, AllocError>
    ensures { IfOk result (λ found. found ≡ spec.later at kept (spec.begun name.now place)) }
{
    if stands_before(at, place) {
        return Ok(kept);
    }
    if is_later(&kept, place) {
        let name = name.clone()?;
        return Ok(Some(Begun { place, name }));
    }
    Ok(kept)
}

/// Likewise of all clauses of a function.
fn latest_clause(
    at: Place,
    kept: Option<Begun>,
    name: &Text,
    clauses: &[FunctionClause],
) -> Result<Option<Begun>, AllocError>
    ensures { IfOk result (λ found. found ≡ spec.latest at kept (spec.clauses_begun name.now clauses.now)) }
{
    let mut latest = kept;
    for clause in clauses {
        latest = later(at, latest, name, clause.place)?;
    }
    Ok(latest)
}

/// Likewise of what begins in a definition.
fn latest_in(at: Place, kept: Option<Begun>, definition: &Def) -> Result<Option<Begun>, AllocError>
    ensures { IfOk result (λ found. found ≡ spec.latest at kept (spec.begins definition.now)) }
{
    match definition {
        Def::Function { name, clauses, .. } => {
            latest_clause(at, kept, &name.text, clauses.as_slice())
        }
        Def::Measure { place, name, .. } => later(at, kept, &name.text, *place),
        _ => Ok(kept),
    }
}

/// The clause or measure that begins last before a place, or there.
fn latest_begun(at: Place, definitions: &[Def]) -> Result<Option<Begun>, AllocError>
    ensures { IfOk result (λ found. found ≡ spec.latest at None (spec.all_begun definitions.now)) }
{
    let mut latest = None;
    for definition in definitions {
        latest = latest_in(at, latest, definition)?;
    }
    Ok(latest)
}

fn names_signed(alloc: Global, signature: Option<&Signature>) -> Result<Items<Text>, AllocError>
    ensures { IfOk result (λ names. names ≡ spec.names_signed (option_copied signature.entry)) }
{
    match signature {
        Some(signature) => type_names(alloc, signature.variables.as_slice()),
        None => Ok(Items::new(alloc)),
    }
}

/// The names that the Type variables in a shape print as that is found at a place.
pub fn names_at(alloc: Global, tables: &Tables<'_>, place: Place) -> Result<Items<Text>, AllocError>
    ensures { (text : List ADef) (end : APlace) → AreTables text end tables.now → IfOk result (λ names. names ≡ spec.names_at text place) }
{
    match latest_begun(place, tables.definitions)? {
        Some(begun) => names_signed(alloc, tables.signature(begun.name.as_str())),
        None => Ok(Items::new(alloc)),
    }
}
