ghost use Rattle.std.specs.Prelude.{◌≡◌, [], IfOk};
ghost use Rattle.std.specs.Fmt.{decimal};
ghost use Rattle.sail_compile.specs.Refusals as spec;
ghost use Rattle.sail_compile.specs.parts.Told.{IsOfDefinitions, IsOfTables, IsOfText, IsOfTokens};

use itoa::Buffer;
use sail_base::{Kind, Place, Refusal, Text, hex_text};
use sail_grammar::ParseError;
use sail_kinds::{Mismatch, TableError};
use sail_lex::LexError;
use scattered::ScatterError;
use std::alloc::{AllocError, Global};

/// The refusal of a text that has no tokens. The one error is want of memory, the lexer's too.
pub fn token_refusal(alloc: Global, error: LexError) -> Result<Refusal, AllocError>
    ensures refused { IfOk result (λ refusal. refusal ≡ spec.token_refusal error) }
    ensures told { IfOk result (λ _. IsOfText error) }
{
    match error {
        LexError::BadByte(place, byte) => {
            let digits = hex_text(alloc, &[byte])?;
            Ok(Refusal {
                number: 1,
                place,
                detail: Text::new(alloc, digits.as_str())?,
            })
        }
        LexError::BadLiteral(place) => bare(alloc, 2, place),
        LexError::Unclosed(place) => bare(alloc, 3, place),
        LexError::NumberTooLarge(place) => bare(alloc, 4, place),
        LexError::TokenLimit(place) => bare(alloc, 8, place),
        LexError::OutOfMemory => Err(AllocError),
    }
}

/// The refusal of tokens that are no model. The one error is want of memory, the parser's too.
pub fn parse_refusal(alloc: Global, error: ParseError) -> Result<Refusal, AllocError>
    ensures refused { IfOk result (λ refusal. refusal ≡ spec.parse_refusal error) }
    ensures told { IfOk result (λ _. IsOfTokens error) }
{
    match error {
        ParseError::Outside(place, detail) => Ok(Refusal {
            number: 5,
            place,
            detail,
        }),
        ParseError::Syntax(place, Some(detail)) => Ok(Refusal {
            number: 6,
            place,
            detail,
        }),
        ParseError::Syntax(place, None) => Ok(Refusal {
            number: 6,
            place,
            detail: Text::new(alloc, "end")?,
        }),
        ParseError::TooDeep(place) => bare(alloc, 7, place),
        ParseError::OutOfMemory => Err(AllocError),
    }
}

/// The refusal of definitions that can't be gathered. The one error is want of memory, that of gathering.
pub fn gather_refusal(error: ScatterError) -> Result<Refusal, AllocError>
    ensures refused { IfOk result (λ refusal. refusal ≡ spec.gather_refusal error) }
    ensures told { IfOk result (λ _. IsOfDefinitions error) }
{
    match error {
        ScatterError::NoOpening(place, detail) => Ok(Refusal {
            number: 22,
            place,
            detail,
        }),
        ScatterError::Unended(place, detail) => Ok(Refusal {
            number: 23,
            place,
            detail,
        }),
        ScatterError::OutOfMemory => Err(AllocError),
    }
}

/// The refusal of gathered definitions that have no tables. The one error is want of memory, that of the tables too.
pub fn table_refusal(alloc: Global, error: &TableError) -> Result<Refusal, AllocError>
    ensures refused { IfOk result (λ refusal. refusal ≡ spec.table_refusal error.now) }
    ensures told { IfOk result (λ _. IsOfTables error.now) }
{
    match error {
        TableError::Clash { place, name } => named(9, *place, name),
        TableError::NoName { place, name } => named(10, *place, name),
        TableError::IllKinded { place, mismatch } => Ok(Refusal {
            number: 11,
            place: *place,
            detail: mismatch_text(alloc, *mismatch)?,
        }),
        TableError::MeasureMissing { place, name } => named(12, *place, name),
        TableError::EntryMissing { place, name } => named(19, *place, name),
        TableError::MappingCycle { place, name } => named(24, *place, name),
        TableError::OutOfMemory => Err(AllocError),
    }
}

/// What was wanted and what was found, where there is such.
fn mismatch_text(alloc: Global, mismatch: Option<Mismatch>) -> Result<Text, AllocError>
    ensures { IfOk result (λ text. text ≡ spec.mismatch_text mismatch) }
{
    match mismatch {
        Some(Mismatch::Kinds(wanted, found)) => found_text(
            alloc,
            kind_text(wanted),
            kind_text(found),
        ),
        Some(Mismatch::Counts(wanted, found)) => counts_text(alloc, wanted, found),
        None => Text::new(alloc, ""),
    }
}

fn kind_text(kind: Kind) -> &'static str
    ensures { result.now ≡ spec.kind_text kind }
{
    match kind {
        Kind::Int => "Int",
        Kind::Bool => "Bool",
        Kind::Type => "Type",
    }
}

pub(crate) fn counts_text(alloc: Global, wanted: usize, found: usize) -> Result<Text, AllocError>
    ensures { IfOk result (λ text. text ≡ spec.found_text (decimal wanted) (decimal found)) }
{
    let mut first = Buffer::new();
    let mut second = Buffer::new();
    found_text(alloc, first.format(wanted), second.format(found))
}

fn found_text(alloc: Global, wanted: &str, found: &str) -> Result<Text, AllocError>
    ensures { IfOk result (λ text. text ≡ spec.found_text wanted.now found.now) }
{
    let mut text = String::from_str(alloc, "wanted ")?;
    text.push_str(wanted)?;
    text.push_str(" found ")?;
    text.push_str(found)?;
    Text::new(alloc, text.as_str())
}

/// The refusal of a model that is accepted and that the engine leaves.
pub fn outside(alloc: Global) -> Result<Refusal, AllocError>
    ensures { IfOk result (λ refusal. refusal ≡ spec.outside) }
{
    let place = Place {
        file: 1,
        line: 1,
        column: 1,
    };
    bare(alloc, 5, place)
}

/// A refusal that is told by a name.
pub(crate) fn named(number: u8, place: Place, name: &Text) -> Result<Refusal, AllocError>
    ensures { IfOk result (λ refusal. refusal ≡ spec.refusal number place name.now) }
{
    Ok(Refusal {
        number,
        place,
        detail: name.clone()?,
    })
}

/// A refusal without a detail.
pub(crate) fn bare(alloc: Global, number: u8, place: Place) -> Result<Refusal, AllocError>
    ensures { IfOk result (λ refusal. refusal ≡ spec.refusal number place []) }
{
    Ok(Refusal {
        number,
        place,
        detail: Text::new(alloc, "")?,
    })
}
