ghost use Rattle.std.specs.Prelude.{◌≡◌, [], ◌∷◌, ◌++◌, ◌<◌, ◌≤◌, length, IfOk, IfErr};
ghost use Rattle.sail_grammar.specs.RowName.{FunctionDefinition, MeasureDefinition, LetDefinition, RegisterDefinition, ValDefinition};
ghost use Rattle.sail_grammar.specs.Form.{Row};
ghost use Rattle.sail_grammar.specs.Parsing.{Reading, StopsAt};
ghost use Rattle.sail_grammar.specs.DefTrees.{function_of, measure_definition_of, let_definition_of, register_of, val_of};
ghost use Rattle.sail_definitions.specs.Parts.{function_made};

use crate::leaves::{arrow, clause_word, exp_behind};
use sail_base::{Items, Place};
use sail_grammar::{Lexeme, Mode, Read, expect, expect_any, expect_identifier, name};
use sail_lex::TokenKind;
use sail_parse_expr::exp;
use sail_parse_parts::{quantifier, typ_behind};
use sail_parse_tp::{pattern, pattern_list, typ};
use sail_syntax::{Def, Extent, FunctionClause, Name};
use std::alloc::{AllocError, Global};

const ARROWS: [TokenKind; 2] = [TokenKind::Arrow, TokenKind::DoubleArrow];

// The type of a function or of a mapping.
pub(crate) fn val<'a>(alloc: Global, tokens: &'a [Lexeme]) -> Read<'a, Def>
    ensures read { IfOk result (λ r. Reading (Row ValDefinition) val_of tokens.now r.0 r.1.now) }
    ensures shorter { IfOk result (λ r. length r.1.now < length tokens.now) }
    ensures stop { IfErr result (λ e. StopsAt (Row ValDefinition) tokens.now e) }
{
    let (word, after_word) = expect(tokens, TokenKind::Val)?;
    let (token, after_name) = expect_identifier(after_word)?;
    let name = name(token)?;
    let (_, after_colon) = expect(after_name, TokenKind::Colon)?;
    let (quantifier, after_quantifier) = quantifier(alloc, after_colon)?;
    let (from, after_from) = typ(alloc, after_quantifier, Mode::Full)?;
    let (sign, after_sign) = expect_any(after_from, &ARROWS)?;
    let (to, rest) = typ(alloc, after_sign, Mode::Full)?;
    let place = word.place;
    let arrow = arrow(sign.kind);
    Ok((
        Def::Val {
            place,
            name,
            quantifier,
            from,
            arrow,
            to,
        },
        rest,
    ))
}

// A function, or one clause of a scattered one.
pub(crate) fn function<'a>(alloc: Global, tokens: &'a [Lexeme]) -> Read<'a, Def>
    ensures read { IfOk result (λ r. Reading (Row FunctionDefinition) function_of tokens.now r.0 r.1.now) }
    ensures shorter { IfOk result (λ r. length r.1.now < length tokens.now) }
    ensures stop { IfErr result (λ e. StopsAt (Row FunctionDefinition) tokens.now e) }
{
    let (word, after_word) = expect(tokens, TokenKind::Function)?;
    let (is_clause, after_clause) = clause_word(after_word);
    let (token, after_name) = expect_identifier(after_clause)?;
    let name = name(token)?;
    let (parameters, after_parameters) = pattern_list(alloc, after_name, Mode::Full)?;
    let (outcome, after_outcome) = typ_behind(alloc, after_parameters, TokenKind::Arrow)?;
    let (_, after_sign) = expect(after_outcome, TokenKind::Equal)?;
    let (body, rest) = exp(alloc, after_sign, Mode::Full)?;
    let place = word.place;
    let clause = FunctionClause {
        place,
        parameters,
        result: outcome,
        body,
    };
    let definition = function_definition(alloc, is_clause, place, name, clause)?;
    Ok((definition, rest))
}

// A clause of a scattered function, or a function of this clause.
fn function_definition(
    alloc: Global,
    is_clause: bool,
    place: Place,
    name: Name,
    clause: FunctionClause,
) -> Result<Def, AllocError>
    ensures { IfOk result (λ made. made ≡ function_made is_clause place name clause) }
{
    if is_clause {
        return Ok(Def::FunctionClause(name, clause));
    }
    let mut clauses = Items::new(alloc);
    clauses.push(clause)?;
    let extent = Extent::Whole;
    Ok(Def::Function {
        place,
        extent,
        name,
        clauses,
    })
}

// The measure of a function.
pub(crate) fn measure<'a>(alloc: Global, tokens: &'a [Lexeme]) -> Read<'a, Def>
    ensures read { IfOk result (λ r. Reading (Row MeasureDefinition) measure_definition_of tokens.now r.0 r.1.now) }
    ensures shorter { IfOk result (λ r. length r.1.now < length tokens.now) }
    ensures stop { IfErr result (λ e. StopsAt (Row MeasureDefinition) tokens.now e) }
{
    let (word, after_word) = expect(tokens, TokenKind::TerminationMeasure)?;
    let (token, after_name) = expect_identifier(after_word)?;
    let name = name(token)?;
    let (parameters, after_parameters) = pattern_list(alloc, after_name, Mode::Full)?;
    let (_, after_sign) = expect(after_parameters, TokenKind::Equal)?;
    let (value, rest) = exp(alloc, after_sign, Mode::Limited)?;
    let place = word.place;
    Ok((
        Def::Measure {
            place,
            name,
            parameters,
            value,
        },
        rest,
    ))
}

// A `let` of the whole model.
pub(crate) fn let_definition<'a>(alloc: Global, tokens: &'a [Lexeme]) -> Read<'a, Def>
    ensures read { IfOk result (λ r. Reading (Row LetDefinition) let_definition_of tokens.now r.0 r.1.now) }
    ensures shorter { IfOk result (λ r. length r.1.now < length tokens.now) }
    ensures stop { IfErr result (λ e. StopsAt (Row LetDefinition) tokens.now e) }
{
    let (word, after_word) = expect(tokens, TokenKind::Let)?;
    let (pattern, after_pattern) = pattern(alloc, after_word, Mode::Full)?;
    let (_, after_sign) = expect(after_pattern, TokenKind::Equal)?;
    let (value, rest) = exp(alloc, after_sign, Mode::Limited)?;
    Ok((Def::Let(word.place, pattern, value), rest))
}

// A register.
pub(crate) fn register<'a>(alloc: Global, tokens: &'a [Lexeme]) -> Read<'a, Def>
    ensures read { IfOk result (λ r. Reading (Row RegisterDefinition) register_of tokens.now r.0 r.1.now) }
    ensures shorter { IfOk result (λ r. length r.1.now < length tokens.now) }
    ensures stop { IfErr result (λ e. StopsAt (Row RegisterDefinition) tokens.now e) }
{
    let (word, after_word) = expect(tokens, TokenKind::Register)?;
    let (token, after_name) = expect_identifier(after_word)?;
    let name = name(token)?;
    let (_, after_colon) = expect(after_name, TokenKind::Colon)?;
    let (typ, after_typ) = typ(alloc, after_colon, Mode::Full)?;
    let (initial, rest) = exp_behind(alloc, after_typ, TokenKind::Equal, Mode::Limited)?;
    let place = word.place;
    Ok((
        Def::Register {
            place,
            name,
            typ,
            initial,
        },
        rest,
    ))
}
