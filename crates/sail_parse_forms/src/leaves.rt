ghost use Rattle.std.specs.Prelude.{◌≡◌, IfOk};
ghost use Rattle.sail_grammar.specs.Leaves.{inner_text as text_inside};
ghost use Rattle.sail_grammar.specs.ExpTrees as T;

use sail_base::Text;
use sail_grammar::Lexeme;
use sail_lex::TokenKind;
use sail_syntax::{Asking, Direction, Leaving};
use std::alloc::{AllocError, Global};

/// The first words of loops, of `try` and of what leaves a function.
pub const CONTROL_WORDS: [TokenKind; 7] = [
    TokenKind::Exit,
    TokenKind::Foreach,
    TokenKind::Repeat,
    TokenKind::Return,
    TokenKind::Throw,
    TokenKind::Try,
    TokenKind::While,
];

pub(crate) const LEAVING_WORDS: [TokenKind; 3] = [
    TokenKind::Return,
    TokenKind::Throw,
    TokenKind::Exit,
];

pub(crate) const DIRECTIONS: [TokenKind; 2] = [TokenKind::Inc, TokenKind::Dec];

/// The tokens that are constants.
pub const LITERALS: [TokenKind; 8] = [
    TokenKind::Decimal,
    TokenKind::Hexadecimal,
    TokenKind::Binary,
    TokenKind::StringLiteral,
    TokenKind::True,
    TokenKind::False,
    TokenKind::Bitone,
    TokenKind::Bitzero,
];

/// The words that ask something of a type.
pub const QUESTIONS: [TokenKind; 2] = [TokenKind::Sizeof, TokenKind::Constraint];

// What a word leaves.
pub(crate) fn leaving_of(kind: TokenKind) -> Leaving
    ensures { result ≡ T.leaving_of kind }
{
    match kind {
        TokenKind::Return => Leaving::Return,
        TokenKind::Throw => Leaving::Throw,
        _ => Leaving::Exit,
    }
}

// What a word asks of a type.
pub(crate) fn asking_of(kind: TokenKind) -> Asking
    ensures { result ≡ T.asking_of kind }
{
    match kind {
        TokenKind::Sizeof => Asking::Sizeof,
        _ => Asking::Constraint,
    }
}

// The direction of a word.
pub(crate) fn direction_of(kind: TokenKind) -> Direction
    ensures { result ≡ T.direction_of kind }
{
    match kind {
        TokenKind::Dec => Direction::Down,
        _ => Direction::Up,
    }
}

// The text of a string as spelled, between its quotes. It fails where memory is wanting, and where what
// is between isn't UTF-8, which no token of a source is.
pub(crate) fn inner_text(alloc: Global, token: &Lexeme) -> Result<Text, AllocError>
    ensures { IfOk result (λ made. made ≡ text_inside token.now.text) }
{
    let bytes = token.text.as_bytes();
    if bytes.len() < 2 {
        return Text::new(alloc, "");
    }
    match str::from_utf8(&bytes[1..bytes.len() - 1]) {
        Ok(text) => Text::new(alloc, text),
        Err(_) => Err(AllocError),
    }
}
