ghost use Rattle.std.specs.Prelude.{◌≡◌, IfOk};
ghost use Rattle.sail_grammar.specs.ExpTrees as T;

use sail_base::{Boxed, Items, Operator, Place};
use sail_lex::TokenKind;
use sail_syntax::{Exp, Suffix, build};
use std::alloc::{AllocError, Global};

// The first words of the expressions that are no operands.
pub(crate) const FIRST_WORDS: [TokenKind; 11] = [
    TokenKind::Let,
    TokenKind::Var,
    TokenKind::If,
    TokenKind::Match,
    TokenKind::Try,
    TokenKind::Foreach,
    TokenKind::While,
    TokenKind::Repeat,
    TokenKind::Return,
    TokenKind::Throw,
    TokenKind::Exit,
];

pub(crate) const COMPARISONS: [TokenKind; 14] = [
    TokenKind::DoubleEqual,
    TokenKind::NotEqual,
    TokenKind::Less,
    TokenKind::LessEqual,
    TokenKind::Greater,
    TokenKind::GreaterEqual,
    TokenKind::LessUnsigned,
    TokenKind::LessEqualUnsigned,
    TokenKind::GreaterUnsigned,
    TokenKind::GreaterEqualUnsigned,
    TokenKind::LessSigned,
    TokenKind::LessEqualSigned,
    TokenKind::GreaterSigned,
    TokenKind::GreaterEqualSigned,
];

pub(crate) const APPENDS: [TokenKind; 2] = [TokenKind::At, TokenKind::DoubleColon];

pub(crate) const SIGNS: [TokenKind; 2] = [TokenKind::Plus, TokenKind::Minus];

pub(crate) const FACTORS: [TokenKind; 3] = [
    TokenKind::Star,
    TokenKind::ShiftLeft,
    TokenKind::ShiftRight,
];

pub(crate) const SUFFIX_SIGNS: [TokenKind; 2] = [TokenKind::OpenBracket, TokenKind::Dot];

// The operator of a token.
pub(crate) fn operator_of(kind: TokenKind) -> Operator
    ensures { result ≡ T.operator_of kind }
{
    match kind {
        TokenKind::Caret => Operator::Caret,
        TokenKind::Star => Operator::Star,
        TokenKind::ShiftLeft => Operator::ShiftLeft,
        TokenKind::ShiftRight => Operator::ShiftRight,
        TokenKind::Plus => Operator::Plus,
        TokenKind::Minus => Operator::Minus,
        TokenKind::At => Operator::Append,
        TokenKind::DoubleColon => Operator::Cons,
        TokenKind::DoubleEqual => Operator::Equal,
        TokenKind::NotEqual => Operator::NotEqual,
        TokenKind::Less => Operator::Less,
        TokenKind::LessEqual => Operator::LessEqual,
        TokenKind::Greater => Operator::Greater,
        TokenKind::GreaterEqual => Operator::GreaterEqual,
        TokenKind::LessUnsigned => Operator::LessUnsigned,
        TokenKind::LessEqualUnsigned => Operator::LessEqualUnsigned,
        TokenKind::GreaterUnsigned => Operator::GreaterUnsigned,
        TokenKind::GreaterEqualUnsigned => Operator::GreaterEqualUnsigned,
        TokenKind::LessSigned => Operator::LessSigned,
        TokenKind::LessEqualSigned => Operator::LessEqualSigned,
        TokenKind::GreaterSigned => Operator::GreaterSigned,
        TokenKind::GreaterEqualSigned => Operator::GreaterEqualSigned,
        TokenKind::Ampersand => Operator::And,
        _ => Operator::Or,
    }
}

// A base with its suffixes.
pub(crate) fn with_suffixes(
    alloc: Global,
    place: Place,
    base: Boxed<Exp>,
    suffixes: Items<Suffix>,
) -> Result<Boxed<Exp>, AllocError>
    ensures { IfOk result (λ made. made ≡ T.with_suffixes place base suffixes) }
{
    if suffixes.is_empty() {
        Ok(base)
    } else {
        build::part(alloc, place, base, suffixes)
    }
}
