ghost use Rattle.std.specs.Prelude.{◌≡◌, [], ◌∷◌, ◌<◌, ◌≤◌, length, IfOk, IfErr};
ghost use Rattle.sail_lex.specs.declared.kind.TokenKind.TheVariants as K;
ghost use Rattle.sail_grammar.specs.declared.mode.Mode.TheVariants.{Full};
ghost use Rattle.sail_grammar.specs.RowName.{Typ};
ghost use Rattle.sail_grammar.specs.Form.{Row, ◌or◌, ◌then◌};
ghost use Rattle.sail_grammar.specs.Table.{nothing, word, words, identifier, operators};
ghost use Rattle.sail_grammar.specs.Parsing.{Reading, StopsAt};
ghost use Rattle.sail_grammar.specs.ExpTrees.{typ_if, operator_of};
ghost use Rattle.sail_grammar.specs.DefTrees.{kind_of_text, kind_or, overloaded_of};

use sail_base::{Kind, Operator};
use sail_grammar::{
    Lexeme, Mode, Read, accept, expect, expect_any, expect_identifier, name, sees_identifier,
};
use sail_levels::OPERATORS;
use sail_lex::TokenKind;
use sail_parse_tp::typ;
use sail_syntax::{Overloaded, TyExp};
use std::alloc::Global;

// The kind that a token spells.
pub(crate) fn kind_spelled(token: &Lexeme) -> Kind
    ensures { result ≡ kind_of_text token.now.text }
{
    if token.text.is("Bool") {
        Kind::Bool
    } else if token.text.is("Type") {
        Kind::Type
    } else {
        Kind::Int
    }
}

// A kind, where none is written `Int`.
pub(crate) fn kind_or_int(kind: Option<Kind>) -> Kind
    ensures { result ≡ kind_or kind }
{
    match kind {
        Some(kind) => kind,
        None => Kind::Int,
    }
}

/// A sign and the type behind it, if the sign is there.
pub fn typ_behind<'a>(
    alloc: Global,
    tokens: &'a [Lexeme],
    sign: TokenKind,
) -> Read<'a, Option<TyExp>>
    ensures read { IfOk result (λ r. Reading (word sign then Row (Typ Full) or nothing) typ_if tokens.now r.0 r.1.now) }
    ensures shorter { IfOk result (λ r. length r.1.now ≤ length tokens.now) }
    ensures stop { IfErr result (λ e. StopsAt (word sign then Row (Typ Full) or nothing) tokens.now e) }
{
    match accept(tokens, sign) {
        Some((_, after_sign)) => {
            let (typ, rest) = typ(alloc, after_sign, Mode::Full)?;
            Ok((Some(typ), rest))
        }
        None => Ok((None, tokens)),
    }
}

// The operator that a token spells.
fn operator(kind: TokenKind) -> Operator
    ensures { result ≡ operator_of kind }
{
    match kind {
        TokenKind::Caret => Operator::Caret,
        TokenKind::Star => Operator::Star,
        TokenKind::ShiftLeft => Operator::ShiftLeft,
        TokenKind::ShiftRight => Operator::ShiftRight,
        TokenKind::Plus => Operator::Plus,
        TokenKind::Minus => Operator::Minus,
        TokenKind::At => Operator::Append,
        TokenKind::DoubleColon => Operator::Cons,
        TokenKind::DoubleEqual => Operator::Equal,
        TokenKind::NotEqual => Operator::NotEqual,
        TokenKind::Less => Operator::Less,
        TokenKind::LessEqual => Operator::LessEqual,
        TokenKind::Greater => Operator::Greater,
        TokenKind::GreaterEqual => Operator::GreaterEqual,
        TokenKind::LessUnsigned => Operator::LessUnsigned,
        TokenKind::LessEqualUnsigned => Operator::LessEqualUnsigned,
        TokenKind::GreaterUnsigned => Operator::GreaterUnsigned,
        TokenKind::GreaterEqualUnsigned => Operator::GreaterEqualUnsigned,
        TokenKind::LessSigned => Operator::LessSigned,
        TokenKind::LessEqualSigned => Operator::LessEqualSigned,
        TokenKind::GreaterSigned => Operator::GreaterSigned,
        TokenKind::GreaterEqualSigned => Operator::GreaterEqualSigned,
        TokenKind::Ampersand => Operator::And,
        _ => Operator::Or,
    }
}

/// What gets members by an `overload`.
pub fn overloaded<'a>(tokens: &'a [Lexeme]) -> Read<'a, Overloaded>
    ensures read { IfOk result (λ r. Reading (identifier or word K.Operator then words operators) overloaded_of tokens.now r.0 r.1.now) }
    ensures shorter { IfOk result (λ r. length r.1.now < length tokens.now) }
    ensures stop { IfErr result (λ e. StopsAt (identifier or word K.Operator then words operators) tokens.now e) }
{
    if sees_identifier(tokens) {
        let (token, rest) = expect_identifier(tokens)?;
        Ok((Overloaded::Named(name(token)?), rest))
    } else {
        let (_, after_word) = expect(tokens, TokenKind::Operator)?;
        let (sign, rest) = expect_any(after_word, &OPERATORS)?;
        Ok((Overloaded::Operator(sign.place, operator(sign.kind)), rest))
    }
}
