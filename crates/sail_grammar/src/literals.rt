ghost use Rattle.std.specs.Prelude.{◌≡◌, IfOk};
ghost use Rattle.sail_grammar.specs.Leaves.{literal_of, bits_at, text_value, all_ascii};

use crate::lexeme::Lexeme;
use crate::value::number;
use sail_base::{Text, Word};
use sail_lex::{TokenKind, literal_word, string_value};
use sail_syntax::Literal;
use std::alloc::{AllocError, Global};

/// What a literal stands for; nothing sensible where its text isn't that of a literal of its kind,
/// which no token of a source is. It fails where memory is wanting.
pub fn literal(alloc: Global, token: &Lexeme) -> Result<Literal, AllocError>
    ensures { IfOk result (λ made. made ≡ literal_of token.now.kind token.now.text) }
{
    match token.kind {
        TokenKind::Hexadecimal => Ok(Literal::Bits(bits(token.text.as_bytes()))),
        TokenKind::Binary => Ok(Literal::Bits(bits(token.text.as_bytes()))),
        TokenKind::StringLiteral => {
            let text = string(alloc, token.text.as_bytes())?;
            Ok(Literal::String(text))
        }
        TokenKind::True => Ok(Literal::Bool(true)),
        TokenKind::False => Ok(Literal::Bool(false)),
        TokenKind::Bitone => Ok(Literal::Bit(true)),
        TokenKind::Bitzero => Ok(Literal::Bit(false)),
        _ => Ok(Literal::Number(number(token))),
    }
}

// The bits of a literal.
fn bits(text: &[u8]) -> Word
    ensures { result ≡ bits_at text.now }
{
    if text.len() < 2 {
        return Word::new(0, 0);
    }
    match literal_word(text) {
        Some(word) => word,
        None => Word::new(0, 0),
    }
}

// What a string stands for.
fn string(alloc: Global, text: &[u8]) -> Result<Text, AllocError>
    ensures { IfOk result (λ made. made ≡ text_value text.now) }
{
    if text.len() < 1 {
        return Text::new(alloc, "");
    }
    let bytes = string_value(alloc, text)?;
    let bytes = bytes.as_slice();
    if is_ascii(bytes) {
        Text::from_ascii(alloc, bytes)
    } else {
        Text::new(alloc, "")
    }
}

// Whether all bytes are ASCII.
fn is_ascii(bytes: &[u8]) -> bool
    ensures { result ≡ all_ascii bytes.now }
{
    for byte in bytes {
        if *byte >= 128 {
            return false;
        }
    }
    true
}
