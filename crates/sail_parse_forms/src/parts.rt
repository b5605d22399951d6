ghost use Rattle.std.specs.Prelude.{◌≡◌, ◌<◌, ◌≤◌, length, IfOk, IfErr};
ghost use Rattle.sail_lex.specs.declared.kind.TokenKind.TheVariants as K;
ghost use Rattle.sail_grammar.specs.declared.mode.Mode.TheVariants.{Full};
ghost use Rattle.sail_grammar.specs.RowName as N;
ghost use Rattle.sail_grammar.specs.Form.{Row, ◌or◌, ◌then◌};
ghost use Rattle.sail_grammar.specs.Table.{nothing, word, words, identifier, literals};
ghost use Rattle.sail_grammar.specs.Parsing.{Reading, StopsAt};
ghost use Rattle.sail_grammar.specs.ExpTrees as T;
ghost use Rattle.sail_parse_forms.specs.Behind.{constant_of};

use crate::leaves::{LITERALS, QUESTIONS, asking_of, inner_text};
use sail_base::{Boxed, Text};
use sail_grammar::{
    Lexeme, Mode, Read, accept, accept_identifier, expect, expect_any, literal, name,
};
use sail_lex::TokenKind;
use sail_parse_tp::typ;
use sail_syntax::{Exp, Name, TyExp, build};
use std::alloc::Global;

/// A type behind a colon, if there is one.
pub fn type_if<'a>(alloc: Global, tokens: &'a [Lexeme]) -> Read<'a, Option<TyExp>>
    ensures read { IfOk result (λ r. Reading (word K.Colon then Row (N.Typ Full) or nothing) T.typ_if tokens.now r.0 r.1.now) }
    ensures shorter { IfOk result (λ r. length r.1.now ≤ length tokens.now) }
    ensures stop { IfErr result (λ e. StopsAt (word K.Colon then Row (N.Typ Full) or nothing) tokens.now e) }
{
    match accept(tokens, TokenKind::Colon) {
        Some((_, after_colon)) => {
            let (typ, rest) = typ(alloc, after_colon, Mode::Full)?;
            Ok((Some(typ), rest))
        }
        None => Ok((None, tokens)),
    }
}

/// A literal but `2`.
pub fn constant<'a>(alloc: Global, tokens: &'a [Lexeme]) -> Read<'a, Boxed<Exp>>
    ensures read { IfOk result (λ r. Reading (words literals) constant_of tokens.now r.0 r.1.now) }
    ensures shorter { IfOk result (λ r. length r.1.now < length tokens.now) }
    ensures stop { IfErr result (λ e. StopsAt (words literals) tokens.now e) }
{
    let (token, rest) = expect_any(tokens, &LITERALS)?;
    let literal = literal(alloc, token)?;
    let made = build::constant(alloc, token.place, literal)?;
    Ok((made, rest))
}

/// A name, if there is one.
pub fn name_if<'a>(tokens: &'a [Lexeme]) -> Read<'a, Option<Name>>
    ensures read { IfOk result (λ r. Reading (identifier or nothing) T.name_if tokens.now r.0 r.1.now) }
    ensures shorter { IfOk result (λ r. length r.1.now ≤ length tokens.now) }
    ensures stop { IfErr result (λ e. StopsAt (identifier or nothing) tokens.now e) }
{
    match accept_identifier(tokens) {
        Some((token, rest)) => Ok((Some(name(token)?), rest)),
        None => Ok((None, tokens)),
    }
}

/// `sizeof` or `constraint`.
pub fn question<'a>(alloc: Global, tokens: &'a [Lexeme]) -> Read<'a, Boxed<Exp>>
    ensures read { IfOk result (λ r. Reading (Row N.TypeQuestion) T.question_of tokens.now r.0 r.1.now) }
    ensures shorter { IfOk result (λ r. length r.1.now < length tokens.now) }
    ensures stop { IfErr result (λ e. StopsAt (Row N.TypeQuestion) tokens.now e) }
{
    let (word, after_word) = expect_any(tokens, &QUESTIONS)?;
    let (_, after_bracket) = expect(after_word, TokenKind::OpenParenthesis)?;
    let (typ, after_typ) = typ(alloc, after_bracket, Mode::Full)?;
    let (_, rest) = expect(after_typ, TokenKind::CloseParenthesis)?;
    let asking = asking_of(word.kind);
    let made = build::of_type(alloc, word.place, asking, typ)?;
    Ok((made, rest))
}

/// A text behind a comma, if there is one.
pub fn text_if<'a>(alloc: Global, tokens: &'a [Lexeme]) -> Read<'a, Option<Text>>
    ensures read { IfOk result (λ r. Reading (word K.Comma then word K.StringLiteral or nothing) T.text_if tokens.now r.0 r.1.now) }
    ensures shorter { IfOk result (λ r. length r.1.now ≤ length tokens.now) }
    ensures stop { IfErr result (λ e. StopsAt (word K.Comma then word K.StringLiteral or nothing) tokens.now e) }
{
    match accept(tokens, TokenKind::Comma) {
        Some((_, after_comma)) => {
            let (token, rest) = expect(after_comma, TokenKind::StringLiteral)?;
            let text = inner_text(alloc, token)?;
            Ok((Some(text), rest))
        }
        None => Ok((None, tokens)),
    }
}
