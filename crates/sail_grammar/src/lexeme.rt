use sail_base::{Place, Text};
use sail_lex::TokenKind;

/// A token with its text.
#[derive(Debug)]
pub struct Lexeme {
    /// Its kind.
    pub kind: TokenKind,
    /// The place of its first byte.
    pub place: Place,
    /// Its bytes in the source.
    pub text: Text,
}

impl Drop for Lexeme {
    fn drop(self) {
        let Lexeme {
            kind: _,
            place: _,
            text: _,
        } = self;
    }
}
