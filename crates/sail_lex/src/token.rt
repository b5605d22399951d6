ghost use Rattle.std.specs.Prelude.{◌≡◌, ◌≤◌, length};
ghost use Rattle.sail_lex.specs.Valued.{text_of};

use crate::kind::TokenKind;
use sail_base::{Items, Place};
use std::alloc::AllocError;
use thiserror::Error;

/// A token: its kind, the place of its first byte, and where its bytes begin and end in the
/// source, counted from 0. Its text is `source[start..end]`.
#[derive(Clone, Copy, PartialEq, Eq, Debug)]
pub struct Token {
    pub kind: TokenKind,
    pub place: Place,
    pub start: usize,
    pub end: usize,
}

impl Token {
    /// The token's text in the source that its span is of.
    pub fn text<'a>(&self, source: &'a [u8]) -> &'a [u8]
        requires order { self.now.start ≤ self.now.end }
        requires within { self.now.end ≤ length source.now }
        ensures { result.now ≡ text_of source.now self.now }
    {
        &source[self.start..self.end]
    }
}

/// The tokens of a source, and what their spans and an unexpected end refer to.
#[derive(Debug, Drop)]
pub struct Tokens<'a> {
    /// The tokens, in order.
    pub tokens: Items<Token>,
    /// The source, of which the spans of the tokens are.
    pub source: &'a [u8],
    /// The place of the source's end, one past its last byte: after a last line feed the first
    /// column of the line behind it, and in an empty source the first of all.
    pub end: Place,
}

/// Why a source has no tokens, and where.
#[derive(Clone, Copy, PartialEq, Eq, Debug, Drop, Error)]
pub enum LexError {
    /// A byte that begins no token, or that a directive can't hold: its place, and the byte.
    #[error("the byte {1:02x} begins no token")]
    BadByte(Place, u8),
    /// A number, a string or a name that is misspelled or too long: the place of its first byte.
    #[error("a number, a string or a name is misspelled or too long")]
    BadLiteral(Place),
    /// A comment or a string that doesn't end: the place of its opening.
    #[error("a comment or a string doesn't end")]
    Unclosed(Place),
    /// A decimal above the 126th power of two, or bits above 128: the place of its first byte.
    #[error("a number is too large")]
    NumberTooLarge(Place),
    /// The token after the 1,000,000th of all files: its place.
    #[error("all files together have more than 1,000,000 tokens")]
    TokenLimit(Place),
    /// There is no memory for the tokens. This says nothing of the source.
    #[error("out of memory")]
    OutOfMemory,
}

impl From<AllocError> for LexError {
    ghost use Rattle.std.specs.Prelude.{◌≡◌};
    ghost use Rattle.sail_lex.specs.declared.token.LexError.{LexError};

    ghost from_gives = { λ e r. r ≡ LexError.OutOfMemory };

    fn from(_: AllocError) -> LexError {
        LexError::OutOfMemory
    }
}
