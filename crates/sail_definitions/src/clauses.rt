ghost use Rattle.std.specs.Prelude.{◌≡◌, [], ◌∷◌, ◌++◌, ◌<◌, ◌≤◌, length, IfOk, IfErr};
ghost use Rattle.sail_grammar.specs.RowName.{MappingSide, MappingClauses, MappingClausesTail};
ghost use Rattle.sail_grammar.specs.RowName.{MappingClauseDefinition, MappingWhole, MappingDefinition};
ghost use Rattle.sail_grammar.specs.RowName as N;
ghost use Rattle.sail_grammar.specs.Form.{Row};
ghost use Rattle.sail_grammar.specs.Parsing.{Reading, StopsAt};
ghost use Rattle.sail_grammar.specs.DefTrees.{side_of, sides_if, mapping_clause_of, mapping_clauses_of, mapping_of};
ghost use Rattle.sail_definitions.specs.Behind.{clauses_behind};
ghost use Rattle.sail_definitions.specs.Parts.{typed_sides, mapping_clause_behind, mapping_whole_behind};

use crate::leaves::exp_behind;
use sail_base::Items;
use sail_grammar::{Lexeme, Mode, Read, accept, expect, expect_identifier, name, place, sees};
use sail_lex::TokenKind;
use sail_parse_tp::{pattern, typ};
use sail_syntax::{Def, MappingClause, Side, Sides};
use std::alloc::Global;

// A side of a clause, with its condition.
fn side<'a>(alloc: Global, tokens: &'a [Lexeme]) -> Read<'a, Side>
    ensures read { IfOk result (λ r. Reading (Row MappingSide) side_of tokens.now r.0 r.1.now) }
    ensures shorter { IfOk result (λ r. length r.1.now < length tokens.now) }
    ensures stop { IfErr result (λ e. StopsAt (Row MappingSide) tokens.now e) }
{
    let (pattern, after_pattern) = pattern(alloc, tokens, Mode::Limited)?;
    let (guard, rest) = exp_behind(alloc, after_pattern, TokenKind::If, Mode::Full)?;
    Ok((Side { pattern, guard }, rest))
}

// A clause of a mapping.
fn clause<'a>(alloc: Global, tokens: &'a [Lexeme]) -> Read<'a, MappingClause>
    ensures read { IfOk result (λ r. Reading (Row N.MappingClause) mapping_clause_of tokens.now r.0 r.1.now) }
    ensures shorter { IfOk result (λ r. length r.1.now < length tokens.now) }
    ensures stop { IfErr result (λ e. StopsAt (Row N.MappingClause) tokens.now e) }
{
    let place = place(tokens);
    let (left, after_left) = side(alloc, tokens)?;
    let (_, after_arrow) = expect(after_left, TokenKind::DoubleArrow)?;
    let (right, rest) = side(alloc, after_arrow)?;
    Ok((MappingClause { place, left, right }, rest))
}

// Clauses with commas between, and perhaps a last comma, up to the closing brace.
fn clauses<'a>(alloc: Global, tokens: &'a [Lexeme]) -> Read<'a, Items<MappingClause>>
    ensures read { IfOk result (λ r. Reading (Row MappingClauses) mapping_clauses_of tokens.now r.0 r.1.now) }
    ensures shorter { IfOk result (λ r. length r.1.now < length tokens.now) }
    ensures stop { IfErr result (λ e. StopsAt (Row MappingClauses) tokens.now e) }
{
    let (first, after_first) = clause(alloc, tokens)?;
    let mut list = Items::new(alloc);
    list.push(first)?;
    clauses_tail(list, alloc, after_first)
}

// Clauses behind others, each behind a comma, and perhaps a last comma, up to the closing brace.
fn clauses_tail<'a>(
    mut list: Items<MappingClause>,
    alloc: Global,
    tokens: &'a [Lexeme],
) -> Read<'a, Items<MappingClause>>
    ensures read { IfOk result (λ r. Reading (Row MappingClausesTail) (clauses_behind list) tokens.now r.0 r.1.now) }
    ensures shorter { IfOk result (λ r. length r.1.now < length tokens.now) }
    ensures stop { IfErr result (λ e. StopsAt (Row MappingClausesTail) tokens.now e) }
{
    let mut rest = tokens;
    'clauses: while sees(rest, TokenKind::Comma) {
        let (_, after_comma) = expect(rest, TokenKind::Comma)?;
        if sees(after_comma, TokenKind::CloseBrace) {
            let (_, after_close) = expect(after_comma, TokenKind::CloseBrace)?;
            return Ok((list, after_close));
        }
        let (next, after_next) = clause(alloc, after_comma)?;
        list.push(next)?;
        rest = after_next;
    }
    let (_, after_bracket) = expect(rest, TokenKind::CloseBrace)?;
    Ok((list, after_bracket))
}

// The types of a mapping's sides, if they are there.
fn sides<'a>(alloc: Global, tokens: &'a [Lexeme]) -> Read<'a, Option<Sides>>
    ensures read { IfOk result (λ r. Reading typed_sides sides_if tokens.now r.0 r.1.now) }
    ensures shorter { IfOk result (λ r. length r.1.now ≤ length tokens.now) }
    ensures stop { IfErr result (λ e. StopsAt typed_sides tokens.now e) }
{
    match accept(tokens, TokenKind::Colon) {
        Some((_, after_colon)) => {
            let (left, after_left) = typ(alloc, after_colon, Mode::Full)?;
            let (_, after_arrow) = expect(after_left, TokenKind::DoubleArrow)?;
            let (right, rest) = typ(alloc, after_arrow, Mode::Full)?;
            Ok((Some(Sides { left, right }), rest))
        }
        None => Ok((None, tokens)),
    }
}

// A mapping, or one clause of a scattered one.
pub(crate) fn mapping<'a>(alloc: Global, tokens: &'a [Lexeme]) -> Read<'a, Def>
    ensures read { IfOk result (λ r. Reading (Row MappingDefinition) mapping_of tokens.now r.0 r.1.now) }
    ensures shorter { IfOk result (λ r. length r.1.now < length tokens.now) }
    ensures stop { IfErr result (λ e. StopsAt (Row MappingDefinition) tokens.now e) }
{
    let (word, after_word) = expect(tokens, TokenKind::Mapping)?;
    if sees(after_word, TokenKind::Clause) {
        clause_definition(alloc, word, after_word)
    } else {
        whole(alloc, word, after_word)
    }
}

// The clause of a scattered mapping, behind its first word.
fn clause_definition<'a>(alloc: Global, word: &Lexeme, tokens: &'a [Lexeme]) -> Read<'a, Def>
    ensures read { IfOk result (λ r. Reading (Row MappingClauseDefinition) (mapping_clause_behind word.now) tokens.now r.0 r.1.now) }
    ensures shorter { IfOk result (λ r. length r.1.now < length tokens.now) }
    ensures stop { IfErr result (λ e. StopsAt (Row MappingClauseDefinition) tokens.now e) }
{
    let (_, after_clause) = expect(tokens, TokenKind::Clause)?;
    let (token, after_name) = expect_identifier(after_clause)?;
    let name = name(token)?;
    let (_, after_sign) = expect(after_name, TokenKind::Equal)?;
    let (clause, rest) = clause(alloc, after_sign)?;
    Ok((Def::MappingClause(word.place, name, clause), rest))
}

// A mapping in one piece, behind its first word.
fn whole<'a>(alloc: Global, word: &Lexeme, tokens: &'a [Lexeme]) -> Read<'a, Def>
    ensures read { IfOk result (λ r. Reading (Row MappingWhole) (mapping_whole_behind word.now) tokens.now r.0 r.1.now) }
    ensures shorter { IfOk result (λ r. length r.1.now < length tokens.now) }
    ensures stop { IfErr result (λ e. StopsAt (Row MappingWhole) tokens.now e) }
{
    let (token, after_name) = expect_identifier(tokens)?;
    let name = name(token)?;
    let (sides, after_sides) = sides(alloc, after_name)?;
    let (_, after_sign) = expect(after_sides, TokenKind::Equal)?;
    let (_, after_bracket) = expect(after_sign, TokenKind::OpenBrace)?;
    let (clauses, rest) = clauses(alloc, after_bracket)?;
    let place = word.place;
    Ok((
        Def::Mapping {
            place,
            name,
            sides,
            clauses,
        },
        rest,
    ))
}
