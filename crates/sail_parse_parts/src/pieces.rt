ghost use Rattle.std.specs.Prelude.{◌≡◌, [], ◌∷◌, ◌++◌, ◌<◌, ◌≤◌, length, IfOk, IfErr};
ghost use Rattle.sail_lex.specs.declared.kind.TokenKind.TheVariants as K;
ghost use Rattle.sail_grammar.specs.RowName.{Parameters, ScatteredDefinition, EndDefinition, UnionDefinition, UnionClause, UnionWhole};
ghost use Rattle.sail_grammar.specs.Form.{Row, ◌then◌};
ghost use Rattle.sail_grammar.specs.Table.{identifier, word};
ghost use Rattle.sail_grammar.specs.Parsing.{Reading, StopsAt};
ghost use Rattle.sail_grammar.specs.DefTrees.{scattered_of, end_of, union_of};
ghost use Rattle.sail_parse_parts.specs.Parts.{scattered_union_behind, scattered_function_behind, scattered_mapping_behind};
ghost use Rattle.sail_parse_parts.specs.Parts.{union_clause_behind, union_whole_behind};

use crate::lists::{member, members};
use crate::variables::parameters;
use sail_grammar::{Lexeme, Read, expect, expect_identifier, name, sees};
use sail_lex::TokenKind;
use sail_syntax::Def;
use std::alloc::Global;

/// A union, or one constructor of a scattered one.
pub fn union_definition<'a>(alloc: Global, tokens: &'a [Lexeme]) -> Read<'a, Def>
    ensures read { IfOk result (λ r. Reading (Row UnionDefinition) union_of tokens.now r.0 r.1.now) }
    ensures shorter { IfOk result (λ r. length r.1.now < length tokens.now) }
    ensures stop { IfErr result (λ e. StopsAt (Row UnionDefinition) tokens.now e) }
{
    let (word, after_word) = expect(tokens, TokenKind::Union)?;
    if sees(after_word, TokenKind::Clause) {
        union_clause(alloc, word, after_word)
    } else {
        union_whole(alloc, word, after_word)
    }
}

// The constructor of a scattered union, behind its first word.
fn union_clause<'a>(alloc: Global, word: &Lexeme, tokens: &'a [Lexeme]) -> Read<'a, Def>
    ensures read { IfOk result (λ r. Reading (Row UnionClause) (union_clause_behind word.now) tokens.now r.0 r.1.now) }
    ensures shorter { IfOk result (λ r. length r.1.now < length tokens.now) }
    ensures stop { IfErr result (λ e. StopsAt (Row UnionClause) tokens.now e) }
{
    let (_, after_clause) = expect(tokens, TokenKind::Clause)?;
    let (token, after_name) = expect_identifier(after_clause)?;
    let name = name(token)?;
    let (_, after_sign) = expect(after_name, TokenKind::Equal)?;
    let (member, rest) = member(alloc, after_sign)?;
    Ok((Def::UnionClause(word.place, name, member), rest))
}

// A union in one piece, behind its first word.
fn union_whole<'a>(alloc: Global, word: &Lexeme, tokens: &'a [Lexeme]) -> Read<'a, Def>
    ensures read { IfOk result (λ r. Reading (Row UnionWhole) (union_whole_behind word.now) tokens.now r.0 r.1.now) }
    ensures shorter { IfOk result (λ r. length r.1.now < length tokens.now) }
    ensures stop { IfErr result (λ e. StopsAt (Row UnionWhole) tokens.now e) }
{
    let (token, after_name) = expect_identifier(tokens)?;
    let name = name(token)?;
    let (variables, after_parameters) = parameters(alloc, after_name)?;
    let (_, after_sign) = expect(after_parameters, TokenKind::Equal)?;
    let (_, after_bracket) = expect(after_sign, TokenKind::OpenBrace)?;
    let (constructors, after_members) = members(alloc, after_bracket)?;
    let (_, rest) = expect(after_members, TokenKind::CloseBrace)?;
    let place = word.place;
    Ok((
        Def::Union {
            place,
            name,
            variables,
            constructors,
        },
        rest,
    ))
}

/// The opening of a definition whose clauses stand apart.
pub fn scattered<'a>(alloc: Global, tokens: &'a [Lexeme]) -> Read<'a, Def>
    ensures read { IfOk result (λ r. Reading (Row ScatteredDefinition) scattered_of tokens.now r.0 r.1.now) }
    ensures shorter { IfOk result (λ r. length r.1.now < length tokens.now) }
    ensures stop { IfErr result (λ e. StopsAt (Row ScatteredDefinition) tokens.now e) }
{
    let (word, after_word) = expect(tokens, TokenKind::Scattered)?;
    if sees(after_word, TokenKind::Union) {
        scattered_union(alloc, word, after_word)
    } else if sees(after_word, TokenKind::Function) {
        scattered_function(word, after_word)
    } else {
        scattered_mapping(word, after_word)
    }
}

// A scattered union, behind its first word.
fn scattered_union<'a>(alloc: Global, first: &Lexeme, tokens: &'a [Lexeme]) -> Read<'a, Def>
    ensures read { IfOk result (λ r. Reading (word K.Union then identifier then Row Parameters) (scattered_union_behind first.now) tokens.now r.0 r.1.now) }
    ensures shorter { IfOk result (λ r. length r.1.now < length tokens.now) }
    ensures stop { IfErr result (λ e. StopsAt (word K.Union then identifier then Row Parameters) tokens.now e) }
{
    let (_, after_union) = expect(tokens, TokenKind::Union)?;
    let (token, after_name) = expect_identifier(after_union)?;
    let name = name(token)?;
    let (parameters, rest) = parameters(alloc, after_name)?;
    Ok((Def::ScatteredUnion(first.place, name, parameters), rest))
}

// A scattered function, behind its first word.
fn scattered_function<'a>(first: &Lexeme, tokens: &'a [Lexeme]) -> Read<'a, Def>
    ensures read { IfOk result (λ r. Reading (word K.Function then identifier) (scattered_function_behind first.now) tokens.now r.0 r.1.now) }
    ensures shorter { IfOk result (λ r. length r.1.now < length tokens.now) }
    ensures stop { IfErr result (λ e. StopsAt (word K.Function then identifier) tokens.now e) }
{
    let (_, after_function) = expect(tokens, TokenKind::Function)?;
    let (token, rest) = expect_identifier(after_function)?;
    let name = name(token)?;
    Ok((Def::ScatteredFunction(first.place, name), rest))
}

// A scattered mapping, behind its first word.
fn scattered_mapping<'a>(first: &Lexeme, tokens: &'a [Lexeme]) -> Read<'a, Def>
    ensures read { IfOk result (λ r. Reading (word K.Mapping then identifier) (scattered_mapping_behind first.now) tokens.now r.0 r.1.now) }
    ensures shorter { IfOk result (λ r. length r.1.now < length tokens.now) }
    ensures stop { IfErr result (λ e. StopsAt (word K.Mapping then identifier) tokens.now e) }
{
    let (_, after_mapping) = expect(tokens, TokenKind::Mapping)?;
    let (token, rest) = expect_identifier(after_mapping)?;
    let name = name(token)?;
    Ok((Def::ScatteredMapping(first.place, name), rest))
}

/// The end of a definition whose clauses stand apart.
pub fn end<'a>(tokens: &'a [Lexeme]) -> Read<'a, Def>
    ensures read { IfOk result (λ r. Reading (Row EndDefinition) end_of tokens.now r.0 r.1.now) }
    ensures shorter { IfOk result (λ r. length r.1.now < length tokens.now) }
    ensures stop { IfErr result (λ e. StopsAt (Row EndDefinition) tokens.now e) }
{
    let (word, after_word) = expect(tokens, TokenKind::End)?;
    let (token, rest) = expect_identifier(after_word)?;
    let name = name(token)?;
    Ok((Def::End(word.place, name), rest))
}
