//! Rows that make texts.
ghost use Rattle.std.specs.Prelude.{◌≡◌, ◌++◌, IfOk, Some};
ghost use Rattle.std.specs.Fmt.{signed_decimal};
ghost use Rattle.sail_types.specs.Texts.{bits_text as bits_text_of};
ghost use Rattle.builtins.specs.RowValues.{a_text};

use sail_base::{Text, Word, dec_text};
use sail_types::{Value, push_bits};
use std::alloc::{AllocError, Global};

/// The decimal text of an integer.
pub fn decimal(alloc: Global, i: i128) -> Result<Option<Value>, AllocError>
    ensures { IfOk result (λ made. made ≡ a_text (signed_decimal i)) }
{
    let text = dec_text(alloc, i)?;
    Ok(Some(Value::String(Text::new(alloc, text.as_str())?)))
}

/// The text of a word, as the report prints it.
#[tactic(auto, using(crate::proofs::Ascii::ascii_bits))]
pub fn bits_text(alloc: Global, b: Word) -> Result<Option<Value>, AllocError>
    ensures { IfOk result (λ made. made ≡ a_text (bits_text_of b)) }
{
    let mut bytes = Vec::new(alloc);
    push_bits(&mut bytes, b)?;
    Ok(Some(Value::String(Text::from_ascii(alloc, bytes.as_slice())?)))
}

/// A text with another behind it.
pub fn joined(alloc: Global, first: &Text, second: &Text) -> Result<Option<Value>, AllocError>
    ensures { IfOk result (λ made. made ≡ a_text (first.now ++ second.now)) }
{
    let mut text = String::from_str(alloc, first.as_str())?;
    text.push_str(second.as_str())?;
    Ok(Some(Value::String(Text::new(alloc, text.as_str())?)))
}
