ghost use Rattle.std.specs.Prelude.{◌≡◌, [], ◌∷◌, ◌++◌, ◌<◌, ◌≤◌, length, IfOk, IfErr};
ghost use Rattle.sail_grammar.specs.RowName.{Pattern, PatternAs, PatternConcat, PatternAppends, PatternTyped, PatternBase};
ghost use Rattle.sail_grammar.specs.RowName.{PatternWildcard, PatternNegative, PatternNamed, PatternGroup, PatternVector, PatternList};
ghost use Rattle.sail_grammar.specs.RowName.{Patterns, PatternsTail};
ghost use Rattle.sail_grammar.specs.Symbol.{two};
ghost use Rattle.sail_grammar.specs.Form.{Row, Word, held};
ghost use Rattle.sail_grammar.specs.Table.{codes_of, literals};
ghost use Rattle.sail_grammar.specs.Parsing.{Reading, StopsAt, Takes};
ghost use Rattle.sail_grammar.specs.Leaves.{number_of};
ghost use Rattle.sail_syntax.specs.declared.patterns.Pat.TheVariants as V;
ghost use Rattle.sail_grammar.specs.PatternTrees.{pattern_of, as_of, pattern_concat_of, pattern_appended_of, pattern_typed_of};
ghost use Rattle.sail_grammar.specs.PatternTrees.{pattern_base_of, wildcard_of, literal_pattern_of, negative_of, pattern_named_of};
ghost use Rattle.sail_grammar.specs.PatternTrees.{pattern_group_of, pattern_vector_of, pattern_brackets_of, pattern_list_of};
ghost use Rattle.sail_grammar.specs.PatternTrees.{patterns_of, grouped_pattern};
ghost use Rattle.sail_parse_tp.specs.Behind.{appends_behind, patterns_behind};

use crate::types::typ;
use sail_base::{Items, Place};
use sail_grammar::{
    Lexeme, Mode, Read, ReadError, accept, accept_two, expect, expect_any, expect_identifier,
    expect_number, literal, name, number, place, sees, sees_any, sees_identifier, sees_two,
};
use sail_lex::TokenKind;
use sail_syntax::{Brackets, Joined, Pat, build};
use std::alloc::Global;

/// A pattern; where the mode is limited, one without `_` and `as`.
#[cycle(patterns)]
pub fn pattern<'a>(alloc: Global, tokens: &'a [Lexeme], mode: Mode) -> Read<'a, Pat>
    ensures read { IfOk result (λ r. Reading (Row (Pattern mode)) pattern_of tokens.now r.0 r.1.now) }
    ensures shorter { IfOk result (λ r. length r.1.now < length tokens.now) }
    ensures stop { IfErr result (λ e. StopsAt (Row (Pattern mode)) tokens.now e) }
{
    let place = place(tokens);
    let (part, after_part) = concat(alloc, tokens, mode)?;
    named_as(alloc, place, part, after_part, mode)
}

// A pattern and the name behind its `as`, if one is there.
fn named_as<'a>(
    alloc: Global,
    place: Place,
    part: Pat,
    tokens: &'a [Lexeme],
    mode: Mode,
) -> Read<'a, Pat>
    ensures read { IfOk result (λ r. Reading (Row (PatternAs mode)) (as_of place part) tokens.now r.0 r.1.now) }
    ensures shorter { IfOk result (λ r. length r.1.now ≤ length tokens.now) }
    ensures stop { IfErr result (λ e. StopsAt (Row (PatternAs mode)) tokens.now e) }
{
    match mode {
        Mode::Limited => Ok((part, tokens)),
        Mode::Full => match accept(tokens, TokenKind::As) {
            Some((_, after_word)) => {
                let (token, rest) = expect_identifier(after_word)?;
                let named = build::named(alloc, place, part, name(token)?)?;
                Ok((named, rest))
            }
            None => Ok((part, tokens)),
        },
    }
}

// The head of a list and the rest, or a concatenation, or one pattern.
#[cycle(patterns)]
fn concat<'a>(alloc: Global, tokens: &'a [Lexeme], mode: Mode) -> Read<'a, Pat>
    ensures read { IfOk result (λ r. Reading (Row (PatternConcat mode)) pattern_concat_of tokens.now r.0 r.1.now) }
    ensures shorter { IfOk result (λ r. length r.1.now < length tokens.now) }
    ensures stop { IfErr result (λ e. StopsAt (Row (PatternConcat mode)) tokens.now e) }
{
    let (first, after_first) = typed(alloc, tokens, mode)?;
    match accept(after_first, TokenKind::DoubleColon) {
        Some((sign, after_sign)) => {
            let (tail, rest) = concat(alloc, after_sign, mode)?;
            let list = build::cons(alloc, sign.place, first, tail)?;
            Ok((list, rest))
        }
        None => appended(alloc, first, after_first, mode),
    }
}

// A pattern and those behind its `@`.
#[cycle(patterns)]
fn appended<'a>(alloc: Global, first: Pat, tokens: &'a [Lexeme], mode: Mode) -> Read<'a, Pat>
    ensures read { IfOk result (λ r. Reading (Row (PatternAppends mode)) (pattern_appended_of first) tokens.now r.0 r.1.now) }
    ensures shorter { IfOk result (λ r. length r.1.now ≤ length tokens.now) }
    ensures stop { IfErr result (λ e. StopsAt (Row (PatternAppends mode)) tokens.now e) }
{
    match accept(tokens, TokenKind::At) {
        Some((sign, after_sign)) => {
            let (second, after_second) = typed(alloc, after_sign, mode)?;
            let (more, rest) = appends(Items::new(alloc), alloc, after_second, mode)?;
            let whole = build::concat(alloc, sign.place, first, second, more)?;
            Ok((whole, rest))
        }
        None => Ok((first, tokens)),
    }
}

// Patterns behind others, each behind a `@`.
#[cycle(patterns)]
fn appends<'a>(
    mut list: Items<Joined>,
    alloc: Global,
    tokens: &'a [Lexeme],
    mode: Mode,
) -> Read<'a, Items<Joined>>
    ensures read { IfOk result (λ r. Reading (Row (PatternAppends mode)) (appends_behind list) tokens.now r.0 r.1.now) }
    ensures shorter { IfOk result (λ r. length r.1.now ≤ length tokens.now) }
    ensures stop { IfErr result (λ e. StopsAt (Row (PatternAppends mode)) tokens.now e) }
{
    let mut rest = tokens;
    'parts: while sees(rest, TokenKind::At) {
        let (sign, after_sign) = expect(rest, TokenKind::At)?;
        let (part, after_part) = typed(alloc, after_sign, mode)?;
        list.push(Joined {
            place: sign.place,
            part,
        })?;
        rest = after_part;
    }
    Ok((list, rest))
}

// A pattern, perhaps with its type.
#[cycle(patterns)]
fn typed<'a>(alloc: Global, tokens: &'a [Lexeme], mode: Mode) -> Read<'a, Pat>
    ensures read { IfOk result (λ r. Reading (Row (PatternTyped mode)) pattern_typed_of tokens.now r.0 r.1.now) }
    ensures shorter { IfOk result (λ r. length r.1.now < length tokens.now) }
    ensures stop { IfErr result (λ e. StopsAt (Row (PatternTyped mode)) tokens.now e) }
{
    let place = place(tokens);
    let (part, after_part) = base(alloc, tokens, mode)?;
    match accept(after_part, TokenKind::Colon) {
        Some((_, after_sign)) => {
            let (annotation, rest) = typ(alloc, after_sign, Mode::Full)?;
            let annotated = build::annotated(alloc, place, part, annotation)?;
            Ok((annotated, rest))
        }
        None => Ok((part, after_part)),
    }
}

// A pattern without sign and type.
#[cycle(patterns)]
fn base<'a>(alloc: Global, tokens: &'a [Lexeme], mode: Mode) -> Read<'a, Pat>
    ensures read { IfOk result (λ r. Reading (Row (PatternBase mode)) pattern_base_of tokens.now r.0 r.1.now) }
    ensures shorter { IfOk result (λ r. length r.1.now < length tokens.now) }
    ensures stop { IfErr result (λ e. StopsAt (Row (PatternBase mode)) tokens.now e) }
{
    if sees(tokens, TokenKind::Wildcard) {
        wildcard(tokens, mode)
    } else if sees_literal(tokens) {
        constant(alloc, tokens)
    } else if sees(tokens, TokenKind::Minus) {
        negative(tokens)
    } else if sees_identifier(tokens) {
        named(alloc, tokens, mode)
    } else if sees(tokens, TokenKind::OpenParenthesis) {
        group(alloc, tokens, mode)
    } else if sees(tokens, TokenKind::OpenBracket) {
        vector(alloc, tokens, mode)
    } else {
        list(alloc, tokens, mode)
    }
}

// `_`, where it may stand.
fn wildcard<'a>(tokens: &'a [Lexeme], mode: Mode) -> Read<'a, Pat>
    ensures read { IfOk result (λ r. Reading (Row (PatternWildcard mode)) wildcard_of tokens.now r.0 r.1.now) }
    ensures shorter { IfOk result (λ r. length r.1.now < length tokens.now) }
    ensures stop { IfErr result (λ e. StopsAt (Row (PatternWildcard mode)) tokens.now e) }
{
    match mode {
        Mode::Limited => Err(ReadError::Unfit(tokens.len())),
        Mode::Full => {
            let (token, rest) = expect(tokens, TokenKind::Wildcard)?;
            Ok((Pat::Wildcard(token.place), rest))
        }
    }
}

const LITERALS: [TokenKind; 8] = [
    TokenKind::Decimal,
    TokenKind::Hexadecimal,
    TokenKind::Binary,
    TokenKind::StringLiteral,
    TokenKind::True,
    TokenKind::False,
    TokenKind::Bitone,
    TokenKind::Bitzero,
];

// Whether the first token is a literal.
fn sees_literal(tokens: &[Lexeme]) -> bool
    ensures { result ≡ held tokens.now (two ∷ codes_of literals) }
{
    if sees_two(tokens) {
        true
    } else {
        sees_any(tokens, &LITERALS)
    }
}

// The first token, which is to be a literal, and those behind it.
fn expect_literal<'a>(tokens: &'a [Lexeme]) -> Read<'a, &'a Lexeme>
    ensures read { IfOk result (λ r. Takes (two ∷ codes_of literals) tokens.now r.0.now r.1.now) }
    ensures shorter { IfOk result (λ r. length r.1.now < length tokens.now) }
    ensures stop { IfErr result (λ e. StopsAt (Word (two ∷ codes_of literals)) tokens.now e) }
{
    match accept_two(tokens) {
        Some((token, rest)) => Ok((token, rest)),
        None => expect_any(tokens, &LITERALS),
    }
}

// A literal.
fn constant<'a>(alloc: Global, tokens: &'a [Lexeme]) -> Read<'a, Pat>
    ensures read { IfOk result (λ r. Reading (Word (two ∷ codes_of literals)) literal_pattern_of tokens.now r.0 r.1.now) }
    ensures shorter { IfOk result (λ r. length r.1.now < length tokens.now) }
    ensures stop { IfErr result (λ e. StopsAt (Word (two ∷ codes_of literals)) tokens.now e) }
{
    let (token, rest) = expect_literal(tokens)?;
    let literal = literal(alloc, token)?;
    Ok((Pat::Constant(token.place, literal), rest))
}

// A decimal behind `-`.
fn negative<'a>(tokens: &'a [Lexeme]) -> Read<'a, Pat>
    ensures read { IfOk result (λ r. Reading (Row PatternNegative) negative_of tokens.now r.0 r.1.now) }
    ensures shorter { IfOk result (λ r. length r.1.now < length tokens.now) }
    ensures stop { IfErr result (λ e. StopsAt (Row PatternNegative) tokens.now e) }
{
    let (sign, after_sign) = expect(tokens, TokenKind::Minus)?;
    let (token, rest) = expect_number(after_sign)?;
    Ok((negated(sign.place, token), rest))
}

// A number with its sign turned.
fn negated(place: Place, token: &Lexeme) -> Pat
    ensures { result ≡ V.Negative place (number_of token.now.text) }
{
    Pat::Negative(place, number(token))
}

// A name, with its arguments if it has any.
#[cycle(patterns)]
fn named<'a>(alloc: Global, tokens: &'a [Lexeme], mode: Mode) -> Read<'a, Pat>
    ensures read { IfOk result (λ r. Reading (Row (PatternNamed mode)) pattern_named_of tokens.now r.0 r.1.now) }
    ensures shorter { IfOk result (λ r. length r.1.now < length tokens.now) }
    ensures stop { IfErr result (λ e. StopsAt (Row (PatternNamed mode)) tokens.now e) }
{
    let (token, after_name) = expect_identifier(tokens)?;
    let name = name(token)?;
    if sees(after_name, TokenKind::OpenParenthesis) {
        let (arguments, rest) = pattern_list(alloc, after_name, mode)?;
        Ok((Pat::Construct(name, arguments), rest))
    } else {
        Ok((Pat::Bind(name), after_name))
    }
}

// Patterns in round brackets as one pattern.
#[cycle(patterns)]
fn group<'a>(alloc: Global, tokens: &'a [Lexeme], mode: Mode) -> Read<'a, Pat>
    ensures read { IfOk result (λ r. Reading (Row (PatternGroup mode)) pattern_group_of tokens.now r.0 r.1.now) }
    ensures shorter { IfOk result (λ r. length r.1.now < length tokens.now) }
    ensures stop { IfErr result (λ e. StopsAt (Row (PatternGroup mode)) tokens.now e) }
{
    let place = place(tokens);
    let (parts, rest) = pattern_list(alloc, tokens, mode)?;
    Ok((grouped(place, parts), rest))
}

/// The patterns in round brackets, which may hold none; where the mode is limited, patterns without
/// `_` and `as`.
#[cycle(patterns)]
pub fn pattern_list<'a>(alloc: Global, tokens: &'a [Lexeme], mode: Mode) -> Read<'a, Items<Pat>>
    ensures read { IfOk result (λ r. Reading (Row (PatternGroup mode)) pattern_list_of tokens.now r.0 r.1.now) }
    ensures shorter { IfOk result (λ r. length r.1.now < length tokens.now) }
    ensures stop { IfErr result (λ e. StopsAt (Row (PatternGroup mode)) tokens.now e) }
{
    let (_, after_bracket) = expect(tokens, TokenKind::OpenParenthesis)?;
    match accept(after_bracket, TokenKind::CloseParenthesis) {
        Some((_, rest)) => Ok((Items::new(alloc), rest)),
        None => {
            let (parts, after_parts) = patterns(alloc, after_bracket, mode)?;
            let (_, rest) = expect(after_parts, TokenKind::CloseParenthesis)?;
            Ok((parts, rest))
        }
    }
}

// Patterns in square brackets.
#[cycle(patterns)]
fn vector<'a>(alloc: Global, tokens: &'a [Lexeme], mode: Mode) -> Read<'a, Pat>
    ensures read { IfOk result (λ r. Reading (Row (PatternVector mode)) pattern_vector_of tokens.now r.0 r.1.now) }
    ensures shorter { IfOk result (λ r. length r.1.now < length tokens.now) }
    ensures stop { IfErr result (λ e. StopsAt (Row (PatternVector mode)) tokens.now e) }
{
    let (bracket, after_bracket) = expect(tokens, TokenKind::OpenBracket)?;
    let (parts, after_parts) = patterns(alloc, after_bracket, mode)?;
    let (_, rest) = expect(after_parts, TokenKind::CloseBracket)?;
    Ok((Pat::Group(bracket.place, Brackets::Vector, parts), rest))
}

// Patterns in the brackets of a list, which may hold none.
#[cycle(patterns)]
fn list<'a>(alloc: Global, tokens: &'a [Lexeme], mode: Mode) -> Read<'a, Pat>
    ensures read { IfOk result (λ r. Reading (Row (PatternList mode)) pattern_brackets_of tokens.now r.0 r.1.now) }
    ensures shorter { IfOk result (λ r. length r.1.now < length tokens.now) }
    ensures stop { IfErr result (λ e. StopsAt (Row (PatternList mode)) tokens.now e) }
{
    let (bracket, after_bracket) = expect(tokens, TokenKind::OpenVector)?;
    match accept(after_bracket, TokenKind::CloseVector) {
        Some((_, rest)) => {
            let none = Items::new(alloc);
            Ok((Pat::Group(bracket.place, Brackets::List, none), rest))
        }
        None => {
            let (parts, after_parts) = patterns(alloc, after_bracket, mode)?;
            let (_, rest) = expect(after_parts, TokenKind::CloseVector)?;
            Ok((Pat::Group(bracket.place, Brackets::List, parts), rest))
        }
    }
}

// Patterns with commas between.
#[cycle(patterns)]
fn patterns<'a>(alloc: Global, tokens: &'a [Lexeme], mode: Mode) -> Read<'a, Items<Pat>>
    ensures read { IfOk result (λ r. Reading (Row (Patterns mode)) patterns_of tokens.now r.0 r.1.now) }
    ensures shorter { IfOk result (λ r. length r.1.now < length tokens.now) }
    ensures stop { IfErr result (λ e. StopsAt (Row (Patterns mode)) tokens.now e) }
{
    let (first, after_first) = pattern(alloc, tokens, mode)?;
    let mut list = Items::new(alloc);
    list.push(first)?;
    patterns_tail(list, alloc, after_first, mode)
}

// Patterns behind others, each behind a comma.
#[cycle(patterns)]
fn patterns_tail<'a>(
    mut list: Items<Pat>,
    alloc: Global,
    tokens: &'a [Lexeme],
    mode: Mode,
) -> Read<'a, Items<Pat>>
    ensures read { IfOk result (λ r. Reading (Row (PatternsTail mode)) (patterns_behind list) tokens.now r.0 r.1.now) }
    ensures shorter { IfOk result (λ r. length r.1.now ≤ length tokens.now) }
    ensures stop { IfErr result (λ e. StopsAt (Row (PatternsTail mode)) tokens.now e) }
{
    let mut rest = tokens;
    'patterns: while sees(rest, TokenKind::Comma) {
        let (_, after_comma) = expect(rest, TokenKind::Comma)?;
        let (next, after_next) = pattern(alloc, after_comma, mode)?;
        list.push(next)?;
        rest = after_next;
    }
    Ok((list, rest))
}

// One pattern in brackets is that pattern, none or several are a tuple.
fn grouped(place: Place, mut parts: Items<Pat>) -> Pat
    ensures { result ≡ grouped_pattern place parts }
{
    if parts.len() == 1 {
        match parts.pop() {
            Some(part) => part,
            None => Pat::Group(place, Brackets::Tuple, parts),
        }
    } else {
        Pat::Group(place, Brackets::Tuple, parts)
    }
}
