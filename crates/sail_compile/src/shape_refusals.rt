//! The refusals of a model whose shapes fail.
ghost use Rattle.std.specs.Prelude.{◌≡◌, ◌++◌, ◌∷◌, [], List, IfOk, codes};
ghost use Rattle.sail_base.specs.declared.place.Place.{Place as APlace};
ghost use Rattle.sail_syntax.specs.declared.definitions.Def.{Def as ADef};
ghost use Rattle.sail_tables.specs.Tabled.{AreTables};
ghost use Rattle.sail_compile.specs.Refusals as spec;
ghost use Rattle.sail_compile.specs.Shaped.{shape_refusal_in};
ghost use Rattle.sail_compile.specs.parts.Told.{IsOfShapes};

use crate::refusals::{bare, counts_text, named};
use crate::variables::names_at;
use sail_base::{Refusal, Text};
use sail_tables::Tables;
use sail_types::{Types, push_shape};
use shape_rules::{Mismatch, ShapeError};
use std::alloc::{AllocError, Global};

/// The refusal of definitions that have these tables and whose shapes fail. The one error is want of memory, that of the shapes too.
pub fn shape_refusal(
    alloc: Global,
    tables: Tables<'_>,
    error: ShapeError,
) -> Result<Refusal, AllocError>
    ensures refused { (text : List ADef) (end : APlace) → AreTables text end tables.entry
        → IfOk result (λ refusal. refusal ≡ shape_refusal_in text error) }
    ensures told { IfOk result (λ _. IsOfShapes error) }
{
    let names = names_at(alloc, &tables, error.place())?;
    let types = Types {
        definitions: tables.types.table,
    };
    refusal_under(alloc, &types, names.as_slice(), &error)
}

/// Likewise by the table of types, and the names of the Type variables where it stands.
fn refusal_under(
    alloc: Global,
    types: &Types,
    names: &[Text],
    error: &ShapeError,
) -> Result<Refusal, AllocError>
    ensures refused { IfOk result (λ refusal. refusal ≡ spec.shape_refusal types.now names.now error.now) }
    ensures told { IfOk result (λ _. IsOfShapes error.now) }
{
    match error {
        ShapeError::Overlap {
            place,
            first,
            second,
        } => Ok(Refusal {
            number: 13,
            place: *place,
            detail: pair_text(alloc, first, second)?,
        }),
        ShapeError::IllShaped { place, mismatch } => Ok(Refusal {
            number: 14,
            place: *place,
            detail: shapes_text(alloc, types, names, mismatch)?,
        }),
        ShapeError::Arity {
            place,
            wanted,
            found,
        } => Ok(Refusal {
            number: 15,
            place: *place,
            detail: counts_text(alloc, *wanted, *found)?,
        }),
        ShapeError::NoMember { place, name } => named(16, *place, name),
        ShapeError::NoNumber { place, name } => named(17, *place, name),
        ShapeError::WidthUnknown { place } => bare(alloc, 18, *place),
        ShapeError::OutOfMemory => Err(AllocError),
    }
}

/// Two names with a blank between.
fn pair_text(alloc: Global, first: &Text, second: &Text) -> Result<Text, AllocError>
    ensures { IfOk result (λ text. text ≡ first.now ++ codes " " ++ second.now) }
{
    let mut text = String::from_str(alloc, first.as_str())?;
    text.push_str(" ")?;
    text.push_str(second.as_str())?;
    Text::new(alloc, text.as_str())
}

/// The shape that was wanted and the one that was found, where there are such.
fn shapes_text(
    alloc: Global,
    types: &Types,
    names: &[Text],
    mismatch: &Option<Mismatch>,
) -> Result<Text, AllocError>
    ensures { IfOk result (λ text. text ≡ spec.shapes_text types.now names.now mismatch.now) }
{
    match mismatch {
        Some(mismatch) => {
            let mut text = Vec::from_slice(alloc, b"wanted ")?;
            push_shape(&mut text, types, names, &mismatch.wanted)?;
            text.extend_from_slice(b" found ")?;
            push_shape(&mut text, types, names, &mismatch.found)?;
            text_of(alloc, text.as_slice())
        }
        None => Text::new(alloc, ""),
    }
}

/// A text of bytes. It fails where memory is wanting, and where they aren't UTF-8, which those of names always are.
pub(crate) fn text_of(alloc: Global, bytes: &[u8]) -> Result<Text, AllocError>
    ensures { IfOk result (λ text. text ≡ bytes.now) }
{
    match str::from_utf8(bytes) {
        Ok(text) => Text::new(alloc, text),
        Err(_) => Err(AllocError),
    }
}
