ghost use Rattle.std.specs.Prelude.{◌≡◌, [], ◌∷◌, ◌++◌, ◌<◌, ◌≤◌, length, IfOk, IfErr};
ghost use Rattle.sail_lex.specs.declared.kind.TokenKind.TheVariants as K;
ghost use Rattle.sail_grammar.specs.RowName.{KindMark, Parameter, Parameters, ParametersTail};
ghost use Rattle.sail_grammar.specs.RowName.{QuantifiedVariable, QuantifiedVariables};
ghost use Rattle.sail_grammar.specs.RowName as N;
ghost use Rattle.sail_grammar.specs.Form.{Row, ◌or◌, ◌then◌};
ghost use Rattle.sail_grammar.specs.Table.{nothing, word, kind};
ghost use Rattle.sail_grammar.specs.Parsing.{Reading, StopsAt};
ghost use Rattle.sail_grammar.specs.DefTrees.{kind_if, parameter_of, parameters_of, variable_of, quantifier_if};
ghost use Rattle.sail_parse_parts.specs.Behind.{parameters_behind, variables_behind};

use crate::leaves::{kind_or_int, kind_spelled, typ_behind};
use sail_base::{Items, Kind};
use sail_grammar::{Lexeme, Read, accept, expect, expect_kind_name, name, sees, sees_any};
use sail_lex::TokenKind;
use sail_syntax::{Param, Quantifier};
use std::alloc::Global;

/// The kind behind a `:`, if one is written.
pub fn kind_mark<'a>(tokens: &'a [Lexeme]) -> Read<'a, Option<Kind>>
    ensures read { IfOk result (λ r. Reading (Row KindMark) kind_if tokens.now r.0 r.1.now) }
    ensures shorter { IfOk result (λ r. length r.1.now ≤ length tokens.now) }
    ensures stop { IfErr result (λ e. StopsAt (Row KindMark) tokens.now e) }
{
    match accept(tokens, TokenKind::Colon) {
        Some((_, after_colon)) => {
            let (token, rest) = expect_kind_name(after_colon)?;
            Ok((Some(kind_spelled(token)), rest))
        }
        None => Ok((None, tokens)),
    }
}

// A type variable, with its kind.
fn parameter<'a>(tokens: &'a [Lexeme]) -> Read<'a, Param>
    ensures read { IfOk result (λ r. Reading (Row Parameter) parameter_of tokens.now r.0 r.1.now) }
    ensures shorter { IfOk result (λ r. length r.1.now < length tokens.now) }
    ensures stop { IfErr result (λ e. StopsAt (Row Parameter) tokens.now e) }
{
    let (token, after_name) = expect(tokens, TokenKind::TypeVariable)?;
    let name = name(token)?;
    let (kind, rest) = kind_mark(after_name)?;
    let kind = kind_or_int(kind);
    Ok((Param { name, kind }, rest))
}

/// Type variables in brackets, if they are there.
pub fn parameters<'a>(alloc: Global, tokens: &'a [Lexeme]) -> Read<'a, Items<Param>>
    ensures read { IfOk result (λ r. Reading (Row Parameters) parameters_of tokens.now r.0 r.1.now) }
    ensures shorter { IfOk result (λ r. length r.1.now ≤ length tokens.now) }
    ensures stop { IfErr result (λ e. StopsAt (Row Parameters) tokens.now e) }
{
    match accept(tokens, TokenKind::OpenParenthesis) {
        Some((_, after_bracket)) => {
            let (first, after_first) = parameter(after_bracket)?;
            let mut list = Items::new(alloc);
            list.push(first)?;
            let (list, after_list) = parameters_tail(list, after_first)?;
            let (_, rest) = expect(after_list, TokenKind::CloseParenthesis)?;
            Ok((list, rest))
        }
        None => Ok((Items::new(alloc), tokens)),
    }
}

// Type variables behind others, each behind a comma.
fn parameters_tail<'a>(mut list: Items<Param>, tokens: &'a [Lexeme]) -> Read<'a, Items<Param>>
    ensures read { IfOk result (λ r. Reading (Row ParametersTail) (parameters_behind list) tokens.now r.0 r.1.now) }
    ensures shorter { IfOk result (λ r. length r.1.now ≤ length tokens.now) }
    ensures stop { IfErr result (λ e. StopsAt (Row ParametersTail) tokens.now e) }
{
    let mut rest = tokens;
    'parameters: while sees(rest, TokenKind::Comma) {
        let (_, after_comma) = expect(rest, TokenKind::Comma)?;
        let (next, after_next) = parameter(after_comma)?;
        list.push(next)?;
        rest = after_next;
    }
    Ok((list, rest))
}

const VARIABLE_STARTS: [TokenKind; 2] = [TokenKind::TypeVariable, TokenKind::OpenParenthesis];

// A bound type variable, bare or in brackets with its kind.
fn variable<'a>(tokens: &'a [Lexeme]) -> Read<'a, Param>
    ensures read { IfOk result (λ r. Reading (Row QuantifiedVariable) variable_of tokens.now r.0 r.1.now) }
    ensures shorter { IfOk result (λ r. length r.1.now < length tokens.now) }
    ensures stop { IfErr result (λ e. StopsAt (Row QuantifiedVariable) tokens.now e) }
{
    if sees(tokens, TokenKind::TypeVariable) {
        let (token, rest) = expect(tokens, TokenKind::TypeVariable)?;
        let name = name(token)?;
        let kind = Kind::Int;
        Ok((Param { name, kind }, rest))
    } else {
        let (_, after_bracket) = expect(tokens, TokenKind::OpenParenthesis)?;
        let (variable, after_name) = expect(after_bracket, TokenKind::TypeVariable)?;
        let bound = name(variable)?;
        let (_, after_colon) = expect(after_name, TokenKind::Colon)?;
        let (word, after_kind) = expect_kind_name(after_colon)?;
        let (_, rest) = expect(after_kind, TokenKind::CloseParenthesis)?;
        let kind = kind_spelled(word);
        Ok((Param { name: bound, kind }, rest))
    }
}

// Bound type variables.
fn variables<'a>(mut list: Items<Param>, tokens: &'a [Lexeme]) -> Read<'a, Items<Param>>
    ensures read { IfOk result (λ r. Reading (Row QuantifiedVariables) (variables_behind list) tokens.now r.0 r.1.now) }
    ensures shorter { IfOk result (λ r. length r.1.now ≤ length tokens.now) }
    ensures stop { IfErr result (λ e. StopsAt (Row QuantifiedVariables) tokens.now e) }
{
    let mut rest = tokens;
    'variables: while sees_any(rest, &VARIABLE_STARTS) {
        let (next, after_next) = variable(rest)?;
        list.push(next)?;
        rest = after_next;
    }
    Ok((list, rest))
}

/// `forall`, its variables and its constraint, if it is there.
pub fn quantifier<'a>(alloc: Global, tokens: &'a [Lexeme]) -> Read<'a, Quantifier>
    ensures read { IfOk result (λ r. Reading (Row N.Quantifier or nothing) quantifier_if tokens.now r.0 r.1.now) }
    ensures shorter { IfOk result (λ r. length r.1.now ≤ length tokens.now) }
    ensures stop { IfErr result (λ e. StopsAt (Row N.Quantifier or nothing) tokens.now e) }
{
    match accept(tokens, TokenKind::Forall) {
        Some((_, after_word)) => {
            let (variables, after_variables) = variables(Items::new(alloc), after_word)?;
            let (constraint, after_constraint) = typ_behind(
                alloc,
                after_variables,
                TokenKind::Comma,
            )?;
            let (_, rest) = expect(after_constraint, TokenKind::Dot)?;
            Ok((
                Quantifier {
                    variables,
                    constraint,
                },
                rest,
            ))
        }
        None => {
            let variables = Items::new(alloc);
            let constraint = None;
            Ok((
                Quantifier {
                    variables,
                    constraint,
                },
                tokens,
            ))
        }
    }
}
