use crate::lexeme::Lexeme;
use sail_base::{Place, Text};
use std::alloc::AllocError;
use thiserror::Error;

/// Why a row of the grammar can't be read. The counts are those of the tokens that are left from some
/// token on, that one among them.
#[derive(Clone, Copy, PartialEq, Eq, Debug, Error)]
pub enum ReadError {
    /// A token that doesn't fit, or the end.
    #[error("a token doesn't fit")]
    Unfit(usize),
    /// The same, where a form is begun that is forbidden there; the second count is from the first token
    /// of that form on.
    #[error("a form is forbidden")]
    Forbidden(usize, usize),
    /// There is no memory for the tree. This says nothing of the tokens.
    #[error("out of memory")]
    OutOfMemory,
}

impl From<AllocError> for ReadError {
    ghost use Rattle.std.specs.Prelude.{◌≡◌};
    ghost use Rattle.sail_grammar.specs.declared.error.ReadError.{ReadError};

    ghost from_gives = { λ e r. r ≡ ReadError.OutOfMemory };

    fn from(_: AllocError) -> ReadError {
        ReadError::OutOfMemory
    }
}

/// What the reading of a row gives: what it stands for, and the tokens behind it.
pub type Read<'a, T> = Result<(T, &'a [Lexeme]), ReadError>;

/// Why the tokens of all files are no model.
#[derive(PartialEq, Eq, Debug, Drop, Error)]
pub enum ParseError {
    /// The first token that doesn't fit is a word that models may not use, or it shows a form that is
    /// forbidden there: the place of the word or of the first token of that form, and its text.
    #[error("a word or a form is left out of the language")]
    Outside(Place, Text),
    /// The first token after which no model can begin so, with its text; or, without a text, the end.
    #[error("a token doesn't fit")]
    Syntax(Place, Option<Text>),
    /// The token that has more than 128 levels of brackets, operators and words.
    #[error("a token is too deep")]
    TooDeep(Place),
    /// There is no memory for the model. This says nothing of the tokens.
    #[error("out of memory")]
    OutOfMemory,
}
