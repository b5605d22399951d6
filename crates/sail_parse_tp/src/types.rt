ghost use Rattle.std.specs.Prelude.{◌≡◌, [], ◌∷◌, ◌++◌, ◌<◌, ◌≤◌, length, IfOk, IfErr, OnOk};
ghost use Rattle.sail_lex.specs.declared.kind.TokenKind.TheVariants as K;
ghost use Rattle.sail_grammar.specs.declared.mode.Mode.TheVariants.{Full};
ghost use Rattle.sail_grammar.specs.RowName.{Typ, TypeAnd, TypeComparison, TypeSet, NumbersTail, TypeSum, TypeSumMore, TypeProduct};
ghost use Rattle.sail_grammar.specs.RowName.{TypeProductMore, TypeAtom, TypeNamed, TypePower, TypeNegation, TypeNot, TypeGroup, TypeExists};
ghost use Rattle.sail_grammar.specs.RowName.{TypeVariables, Types, TypesTail};
ghost use Rattle.sail_grammar.specs.Form.{Row, ◌or◌, ◌then◌};
ghost use Rattle.sail_grammar.specs.Table.{nothing, word, words};
ghost use Rattle.sail_syntax.specs.declared.types.TyExp.TheVariants as V;
ghost use Rattle.sail_grammar.specs.Leaves.{number_of};
ghost use Rattle.sail_grammar.specs.Parsing.{Reading, StopsAt};
ghost use Rattle.sail_grammar.specs.TypeTrees.{typ_of, type_and_of, type_operator, type_comparison_of, in_set_of, in_some_set_of, type_sum_of};
ghost use Rattle.sail_grammar.specs.TypeTrees.{type_sum_more_of, type_product_of, type_product_more_of, type_atom_of, type_named_of, type_power_of};
ghost use Rattle.sail_grammar.specs.TypeTrees.{type_negation_of, type_not_of, type_group_of, type_exists_of, type_variable_of, type_decimal_of};
ghost use Rattle.sail_grammar.specs.TypeTrees.{type_truth_of, type_constraint_of, grouped_type, types_of};
ghost use Rattle.sail_parse_tp.specs.Behind.{numbers_behind, variables_behind, types_behind};

use sail_base::{Boxed, Items, Place};
use sail_grammar::{
    Lexeme, Mode, Read, accept, accept_any, expect, expect_any, expect_identifier, expect_number,
    expect_two, name, number, sees, sees_any, sees_identifier, sees_number, sees_two,
};
use sail_lex::TokenKind;
use sail_syntax::{Name, TyExp, TypeOperator, TypePrefix, build};
use std::alloc::{AllocError, Global};

/// A type, with `in` outside of its brackets where the mode is full.
#[cycle(types)]
pub fn typ<'a>(alloc: Global, tokens: &'a [Lexeme], mode: Mode) -> Read<'a, TyExp>
    ensures read { IfOk result (λ r. Reading (Row (Typ mode)) typ_of tokens.now r.0 r.1.now) }
    ensures shorter { IfOk result (λ r. length r.1.now < length tokens.now) }
    ensures stop { IfErr result (λ e. StopsAt (Row (Typ mode)) tokens.now e) }
{
    let (left, after_left) = type_and(alloc, tokens, mode)?;
    match accept(after_left, TokenKind::Bar) {
        Some((sign, after_sign)) => {
            let (right, rest) = typ(alloc, after_sign, mode)?;
            let both = build::type_infix(alloc, sign.place, TypeOperator::Or, left, right)?;
            Ok((both, rest))
        }
        None => Ok((left, after_left)),
    }
}

// A type of the level of `&`.
#[cycle(types)]
fn type_and<'a>(alloc: Global, tokens: &'a [Lexeme], mode: Mode) -> Read<'a, TyExp>
    ensures read { IfOk result (λ r. Reading (Row (TypeAnd mode)) type_and_of tokens.now r.0 r.1.now) }
    ensures shorter { IfOk result (λ r. length r.1.now < length tokens.now) }
    ensures stop { IfErr result (λ e. StopsAt (Row (TypeAnd mode)) tokens.now e) }
{
    let (left, after_left) = comparison(alloc, tokens, mode)?;
    match accept(after_left, TokenKind::Ampersand) {
        Some((sign, after_sign)) => {
            let (right, rest) = type_and(alloc, after_sign, mode)?;
            let both = build::type_infix(alloc, sign.place, TypeOperator::And, left, right)?;
            Ok((both, rest))
        }
        None => Ok((left, after_left)),
    }
}

const COMPARISONS: [TokenKind; 6] = [
    TokenKind::DoubleEqual,
    TokenKind::NotEqual,
    TokenKind::Less,
    TokenKind::LessEqual,
    TokenKind::Greater,
    TokenKind::GreaterEqual,
];

const SIGNS: [TokenKind; 2] = [TokenKind::Plus, TokenKind::Minus];

const TRUTHS: [TokenKind; 2] = [TokenKind::True, TokenKind::False];

// The operator that a token stands for.
fn operator(kind: TokenKind) -> TypeOperator
    ensures { result ≡ type_operator kind }
{
    match kind {
        TokenKind::DoubleEqual => TypeOperator::Equal,
        TokenKind::NotEqual => TypeOperator::NotEqual,
        TokenKind::Less => TypeOperator::Less,
        TokenKind::LessEqual => TypeOperator::LessEqual,
        TokenKind::Greater => TypeOperator::Greater,
        TokenKind::GreaterEqual => TypeOperator::GreaterEqual,
        TokenKind::Plus => TypeOperator::Plus,
        TokenKind::Minus => TypeOperator::Minus,
        TokenKind::Star => TypeOperator::Star,
        TokenKind::Ampersand => TypeOperator::And,
        _ => TypeOperator::Or,
    }
}

// A comparison, or a number in a set, or a sum alone.
#[cycle(types)]
fn comparison<'a>(alloc: Global, tokens: &'a [Lexeme], mode: Mode) -> Read<'a, TyExp>
    ensures read { IfOk result (λ r. Reading (Row (TypeComparison mode)) type_comparison_of tokens.now r.0 r.1.now) }
    ensures shorter { IfOk result (λ r. length r.1.now < length tokens.now) }
    ensures stop { IfErr result (λ e. StopsAt (Row (TypeComparison mode)) tokens.now e) }
{
    let (left, after_left) = sum(alloc, tokens)?;
    match accept_any(after_left, &COMPARISONS) {
        Some((sign, after_sign)) => {
            let (right, rest) = sum(alloc, after_sign)?;
            let operator = operator(sign.kind);
            let both = build::type_infix(alloc, sign.place, operator, left, right)?;
            Ok((both, rest))
        }
        None => in_set(alloc, left, after_left, mode),
    }
}

// A number and the set that it is in, if one is behind it.
fn in_set<'a>(alloc: Global, number: TyExp, tokens: &'a [Lexeme], mode: Mode) -> Read<'a, TyExp>
    ensures read { IfOk result (λ r. Reading (Row (TypeSet mode) or nothing) (in_set_of number) tokens.now r.0 r.1.now) }
    ensures shorter { IfOk result (λ r. length r.1.now ≤ length tokens.now) }
    ensures stop { IfErr result (λ e. StopsAt (Row (TypeSet mode) or nothing) tokens.now e) }
{
    match mode {
        Mode::Limited => Ok((number, tokens)),
        Mode::Full => {
            if sees(tokens, TokenKind::In) {
                let (member, rest) = in_some_set(alloc, number, tokens)?;
                Ok((member, rest))
            } else {
                Ok((number, tokens))
            }
        }
    }
}

// A sum.
#[cycle(types)]
fn sum<'a>(alloc: Global, tokens: &'a [Lexeme]) -> Read<'a, TyExp>
    ensures read { IfOk result (λ r. Reading (Row TypeSum) type_sum_of tokens.now r.0 r.1.now) }
    ensures shorter { IfOk result (λ r. length r.1.now < length tokens.now) }
    ensures stop { IfErr result (λ e. StopsAt (Row TypeSum) tokens.now e) }
{
    let (first, after_first) = product(alloc, tokens)?;
    sum_more(alloc, first, after_first)
}

// What is added to a sum so far.
#[cycle(types)]
fn sum_more<'a>(alloc: Global, left: TyExp, tokens: &'a [Lexeme]) -> Read<'a, TyExp>
    ensures read { IfOk result (λ r. Reading (Row TypeSumMore) (type_sum_more_of left) tokens.now r.0 r.1.now) }
    ensures shorter { IfOk result (λ r. length r.1.now ≤ length tokens.now) }
    ensures stop { IfErr result (λ e. StopsAt (Row TypeSumMore) tokens.now e) }
{
    match accept_any(tokens, &SIGNS) {
        Some((sign, after_sign)) => {
            let (right, after_right) = product(alloc, after_sign)?;
            let operator = operator(sign.kind);
            let both = build::type_infix(alloc, sign.place, operator, left, right)?;
            sum_more(alloc, both, after_right)
        }
        None => Ok((left, tokens)),
    }
}

// A product.
#[cycle(types)]
fn product<'a>(alloc: Global, tokens: &'a [Lexeme]) -> Read<'a, TyExp>
    ensures read { IfOk result (λ r. Reading (Row TypeProduct) type_product_of tokens.now r.0 r.1.now) }
    ensures shorter { IfOk result (λ r. length r.1.now < length tokens.now) }
    ensures stop { IfErr result (λ e. StopsAt (Row TypeProduct) tokens.now e) }
{
    let (first, after_first) = atom(alloc, tokens)?;
    product_more(alloc, first, after_first)
}

// The further factors of a product so far.
#[cycle(types)]
fn product_more<'a>(alloc: Global, left: TyExp, tokens: &'a [Lexeme]) -> Read<'a, TyExp>
    ensures read { IfOk result (λ r. Reading (Row TypeProductMore) (type_product_more_of left) tokens.now r.0 r.1.now) }
    ensures shorter { IfOk result (λ r. length r.1.now ≤ length tokens.now) }
    ensures stop { IfErr result (λ e. StopsAt (Row TypeProductMore) tokens.now e) }
{
    match accept(tokens, TokenKind::Star) {
        Some((sign, after_sign)) => {
            let (right, after_right) = atom(alloc, after_sign)?;
            let both = build::type_infix(alloc, sign.place, TypeOperator::Star, left, right)?;
            product_more(alloc, both, after_right)
        }
        None => Ok((left, tokens)),
    }
}

// An operand.
#[cycle(types)]
fn atom<'a>(alloc: Global, tokens: &'a [Lexeme]) -> Read<'a, TyExp>
    ensures read { IfOk result (λ r. Reading (Row TypeAtom) type_atom_of tokens.now r.0 r.1.now) }
    ensures shorter { IfOk result (λ r. length r.1.now < length tokens.now) }
    ensures stop { IfErr result (λ e. StopsAt (Row TypeAtom) tokens.now e) }
{
    if sees_identifier(tokens) {
        named(alloc, tokens)
    } else if sees(tokens, TokenKind::TypeVariable) {
        variable(tokens)
    } else if sees_two(tokens) {
        power(alloc, tokens)
    } else if sees(tokens, TokenKind::Decimal) {
        decimal(tokens)
    } else if sees(tokens, TokenKind::Minus) {
        negation(alloc, tokens)
    } else if sees_any(tokens, &TRUTHS) {
        truth(tokens)
    } else if sees(tokens, TokenKind::Not) {
        not(alloc, tokens)
    } else if sees(tokens, TokenKind::OpenParenthesis) {
        group(alloc, tokens)
    } else {
        exists(alloc, tokens)
    }
}

// A type variable.
fn variable<'a>(tokens: &'a [Lexeme]) -> Read<'a, TyExp>
    ensures read { IfOk result (λ r. Reading (word K.TypeVariable) type_variable_of tokens.now r.0 r.1.now) }
    ensures shorter { IfOk result (λ r. length r.1.now < length tokens.now) }
    ensures stop { IfErr result (λ e. StopsAt (word K.TypeVariable) tokens.now e) }
{
    let (token, rest) = expect(tokens, TokenKind::TypeVariable)?;
    let name = name(token)?;
    Ok((TyExp::Variable(name), rest))
}

// A decimal.
fn decimal<'a>(tokens: &'a [Lexeme]) -> Read<'a, TyExp>
    ensures read { IfOk result (λ r. Reading (word K.Decimal) type_decimal_of tokens.now r.0 r.1.now) }
    ensures shorter { IfOk result (λ r. length r.1.now < length tokens.now) }
    ensures stop { IfErr result (λ e. StopsAt (word K.Decimal) tokens.now e) }
{
    let (token, rest) = expect(tokens, TokenKind::Decimal)?;
    Ok((number_type(token), rest))
}

// `true` or `false`.
fn truth<'a>(tokens: &'a [Lexeme]) -> Read<'a, TyExp>
    ensures read { IfOk result (λ r. Reading (words (K.True ∷ K.False ∷ [])) type_truth_of tokens.now r.0 r.1.now) }
    ensures shorter { IfOk result (λ r. length r.1.now < length tokens.now) }
    ensures stop { IfErr result (λ e. StopsAt (words (K.True ∷ K.False ∷ [])) tokens.now e) }
{
    let (token, rest) = expect_any(tokens, &TRUTHS)?;
    Ok((
        TyExp::Truth(token.place, token.kind == TokenKind::True),
        rest,
    ))
}

// A name, with its arguments.
#[cycle(types)]
fn named<'a>(alloc: Global, tokens: &'a [Lexeme]) -> Read<'a, TyExp>
    ensures read { IfOk result (λ r. Reading (Row TypeNamed) type_named_of tokens.now r.0 r.1.now) }
    ensures shorter { IfOk result (λ r. length r.1.now < length tokens.now) }
    ensures stop { IfErr result (λ e. StopsAt (Row TypeNamed) tokens.now e) }
{
    let (token, after_name) = expect_identifier(tokens)?;
    let name = name(token)?;
    match accept(after_name, TokenKind::OpenParenthesis) {
        Some((_, after_bracket)) => {
            let (arguments, after_types) = types(alloc, after_bracket)?;
            let (_, rest) = expect(after_types, TokenKind::CloseParenthesis)?;
            Ok((TyExp::Named(name, arguments), rest))
        }
        None => Ok((TyExp::Named(name, Items::new(alloc)), after_name)),
    }
}

// A power of 2, or 2.
#[cycle(types)]
fn power<'a>(alloc: Global, tokens: &'a [Lexeme]) -> Read<'a, TyExp>
    ensures read { IfOk result (λ r. Reading (Row TypePower) type_power_of tokens.now r.0 r.1.now) }
    ensures shorter { IfOk result (λ r. length r.1.now < length tokens.now) }
    ensures stop { IfErr result (λ e. StopsAt (Row TypePower) tokens.now e) }
{
    let (base, after_base) = expect_two(tokens)?;
    match accept(after_base, TokenKind::Caret) {
        Some((sign, after_sign)) => {
            let (exponent, rest) = atom(alloc, after_sign)?;
            let power = build::type_prefix(alloc, sign.place, TypePrefix::Power, exponent)?;
            Ok((power, rest))
        }
        None => Ok((number_type(base), after_base)),
    }
}

// A number with its sign turned.
#[cycle(types)]
fn negation<'a>(alloc: Global, tokens: &'a [Lexeme]) -> Read<'a, TyExp>
    ensures read { IfOk result (λ r. Reading (Row TypeNegation) type_negation_of tokens.now r.0 r.1.now) }
    ensures shorter { IfOk result (λ r. length r.1.now < length tokens.now) }
    ensures stop { IfErr result (λ e. StopsAt (Row TypeNegation) tokens.now e) }
{
    let (sign, after_sign) = expect(tokens, TokenKind::Minus)?;
    let (operand, rest) = atom(alloc, after_sign)?;
    let negation = build::type_prefix(alloc, sign.place, TypePrefix::Negate, operand)?;
    Ok((negation, rest))
}

// `not` and its operand.
#[cycle(types)]
fn not<'a>(alloc: Global, tokens: &'a [Lexeme]) -> Read<'a, TyExp>
    ensures read { IfOk result (λ r. Reading (Row TypeNot) type_not_of tokens.now r.0 r.1.now) }
    ensures shorter { IfOk result (λ r. length r.1.now < length tokens.now) }
    ensures stop { IfErr result (λ e. StopsAt (Row TypeNot) tokens.now e) }
{
    let (word, after_word) = expect(tokens, TokenKind::Not)?;
    let (_, after_bracket) = expect(after_word, TokenKind::OpenParenthesis)?;
    let (operand, after_operand) = typ(alloc, after_bracket, Mode::Full)?;
    let (_, rest) = expect(after_operand, TokenKind::CloseParenthesis)?;
    let negation = build::type_prefix(alloc, word.place, TypePrefix::Not, operand)?;
    Ok((negation, rest))
}

// Types in brackets.
#[cycle(types)]
fn group<'a>(alloc: Global, tokens: &'a [Lexeme]) -> Read<'a, TyExp>
    ensures read { IfOk result (λ r. Reading (Row TypeGroup) type_group_of tokens.now r.0 r.1.now) }
    ensures shorter { IfOk result (λ r. length r.1.now < length tokens.now) }
    ensures stop { IfErr result (λ e. StopsAt (Row TypeGroup) tokens.now e) }
{
    let (bracket, after_bracket) = expect(tokens, TokenKind::OpenParenthesis)?;
    let (parts, after_types) = types(alloc, after_bracket)?;
    let (_, rest) = expect(after_types, TokenKind::CloseParenthesis)?;
    Ok((grouped(bracket.place, parts), rest))
}

// A type with variables of its own.
#[cycle(types)]
fn exists<'a>(alloc: Global, tokens: &'a [Lexeme]) -> Read<'a, TyExp>
    ensures read { IfOk result (λ r. Reading (Row TypeExists) type_exists_of tokens.now r.0 r.1.now) }
    ensures shorter { IfOk result (λ r. length r.1.now < length tokens.now) }
    ensures stop { IfErr result (λ e. StopsAt (Row TypeExists) tokens.now e) }
{
    let (bracket, after_bracket) = expect(tokens, TokenKind::OpenBrace)?;
    let (token, after_variable) = expect(after_bracket, TokenKind::TypeVariable)?;
    let mut first = Items::new(alloc);
    first.push(name(token)?)?;
    let (variables, after_variables) = variables(first, after_variable)?;
    let (constraint, after_constraint) = constraint(alloc, after_variables)?;
    let (_, after_dot) = expect(after_constraint, TokenKind::Dot)?;
    let (part, after_part) = typ(alloc, after_dot, Mode::Full)?;
    let (_, rest) = expect(after_part, TokenKind::CloseBrace)?;
    let exists = build::exists(alloc, bracket.place, variables, constraint, part)?;
    Ok((exists, rest))
}

// A constraint behind a comma, if there is one.
#[cycle(types)]
fn constraint<'a>(alloc: Global, tokens: &'a [Lexeme]) -> Read<'a, Option<Boxed<TyExp>>>
    ensures read { IfOk result (λ r. Reading (word K.Comma then Row (Typ Full) or nothing) type_constraint_of tokens.now r.0 r.1.now) }
    ensures shorter { IfOk result (λ r. length r.1.now ≤ length tokens.now) }
    ensures stop { IfErr result (λ e. StopsAt (word K.Comma then Row (Typ Full) or nothing) tokens.now e) }
{
    match accept(tokens, TokenKind::Comma) {
        Some((_, after_comma)) => {
            let (condition, rest) = typ(alloc, after_comma, Mode::Full)?;
            let condition = Boxed::new(alloc, condition)?;
            Ok((Some(condition), rest))
        }
        None => Ok((None, tokens)),
    }
}

// Types with commas between.
#[cycle(types)]
fn types<'a>(alloc: Global, tokens: &'a [Lexeme]) -> Read<'a, Items<TyExp>>
    ensures read { IfOk result (λ r. Reading (Row Types) types_of tokens.now r.0 r.1.now) }
    ensures shorter { IfOk result (λ r. length r.1.now < length tokens.now) }
    ensures stop { IfErr result (λ e. StopsAt (Row Types) tokens.now e) }
{
    let (first, after_first) = typ(alloc, tokens, Mode::Full)?;
    let mut list = Items::new(alloc);
    list.push(first)?;
    types_tail(alloc, list, after_first)
}

// Types behind others, each behind a comma.
#[cycle(types)]
fn types_tail<'a>(
    alloc: Global,
    mut list: Items<TyExp>,
    tokens: &'a [Lexeme],
) -> Read<'a, Items<TyExp>>
    ensures read { IfOk result (λ r. Reading (Row TypesTail) (types_behind list) tokens.now r.0 r.1.now) }
    ensures shorter { IfOk result (λ r. length r.1.now ≤ length tokens.now) }
    ensures stop { IfErr result (λ e. StopsAt (Row TypesTail) tokens.now e) }
{
    let mut rest = tokens;
    'types: while sees(rest, TokenKind::Comma) {
        let (_, after_comma) = expect(rest, TokenKind::Comma)?;
        let (next, after_next) = typ(alloc, after_comma, Mode::Full)?;
        list.push(next)?;
        rest = after_next;
    }
    Ok((list, rest))
}

// A number and the set that it is in.
fn in_some_set<'a>(alloc: Global, left: TyExp, tokens: &'a [Lexeme]) -> Read<'a, TyExp>
    ensures read { IfOk result (λ r. Reading (Row (TypeSet Full)) (in_some_set_of left) tokens.now r.0 r.1.now) }
    ensures shorter { IfOk result (λ r. length r.1.now < length tokens.now) }
    ensures stop { IfErr result (λ e. StopsAt (Row (TypeSet Full)) tokens.now e) }
{
    let (word, after_word) = expect(tokens, TokenKind::In)?;
    let (_, after_bracket) = expect(after_word, TokenKind::OpenBrace)?;
    let (first, after_first) = expect_number(after_bracket)?;
    let mut list = Items::new(alloc);
    push_number(&mut list, first)?;
    let (choices, after_choices) = numbers_tail(list, after_first)?;
    let (_, rest) = expect(after_choices, TokenKind::CloseBrace)?;
    let member = build::one_of(alloc, word.place, left, choices)?;
    Ok((member, rest))
}

// Numbers behind others, each behind a comma, and perhaps a last comma.
fn numbers_tail<'a>(mut list: Items<i128>, tokens: &'a [Lexeme]) -> Read<'a, Items<i128>>
    ensures read { IfOk result (λ r. Reading (Row NumbersTail) (numbers_behind list) tokens.now r.0 r.1.now) }
    ensures shorter { IfOk result (λ r. length r.1.now ≤ length tokens.now) }
    ensures stop { IfErr result (λ e. StopsAt (Row NumbersTail) tokens.now e) }
{
    let mut rest = tokens;
    'numbers: while sees(rest, TokenKind::Comma) {
        let (_, after_comma) = expect(rest, TokenKind::Comma)?;
        if sees_number(after_comma) {
            let (next, after_next) = expect_number(after_comma)?;
            push_number(&mut list, next)?;
            rest = after_next;
        } else {
            return Ok((list, after_comma));
        }
    }
    Ok((list, rest))
}

// Type variables behind others.
fn variables<'a>(mut list: Items<Name>, tokens: &'a [Lexeme]) -> Read<'a, Items<Name>>
    ensures read { IfOk result (λ r. Reading (Row TypeVariables) (variables_behind list) tokens.now r.0 r.1.now) }
    ensures shorter { IfOk result (λ r. length r.1.now ≤ length tokens.now) }
    ensures stop { IfErr result (λ e. StopsAt (Row TypeVariables) tokens.now e) }
{
    let mut rest = tokens;
    'variables: while sees(rest, TokenKind::TypeVariable) {
        let (token, after_token) = expect(rest, TokenKind::TypeVariable)?;
        list.push(name(token)?)?;
        rest = after_token;
    }
    Ok((list, rest))
}

// Puts the number that a token stands for at the end of a list.
fn push_number(list: &mut Items<i128>, token: &Lexeme) -> Result<(), AllocError>
    ensures { OnOk result (list.new ≡ list.old ++ number_of token.now.text ∷ []) }
{
    list.push(number(token))
}

// The number that a token stands for, as a type.
fn number_type(token: &Lexeme) -> TyExp
    ensures { result ≡ V.Number token.now.place (number_of token.now.text) }
{
    TyExp::Number(token.place, number(token))
}

// One type in brackets is that type, several are a tuple.
fn grouped(place: Place, mut parts: Items<TyExp>) -> TyExp
    ensures { result ≡ grouped_type place parts }
{
    if parts.len() == 1 {
        match parts.pop() {
            Some(part) => part,
            None => TyExp::Tuple(place, parts),
        }
    } else {
        TyExp::Tuple(place, parts)
    }
}
