ghost use Rattle.std.specs.Prelude.{◌≡◌, [], ◌∷◌, ◌++◌, ◌<◌, ◌≤◌, length, IfOk, IfErr};
ghost use Rattle.sail_lex.specs.declared.kind.TokenKind.TheVariants as K;
ghost use Rattle.sail_grammar.specs.declared.mode.Mode.TheVariants.{Full, Limited};
ghost use Rattle.sail_grammar.specs.Symbol.{code};
ghost use Rattle.sail_grammar.specs.RowName as N;
ghost use Rattle.sail_grammar.specs.Form.{Row, Empty, Word, ◌or◌, ◌then◌};
ghost use Rattle.sail_grammar.specs.Table.{nothing, word, words, identifier, literals};
ghost use Rattle.sail_grammar.specs.Parsing.{Reading, StopsAt};
ghost use Rattle.sail_grammar.specs.ExpTrees as T;
ghost use Rattle.sail_parse_forms.specs.Parses.{Parses};
ghost use Rattle.sail_parse_expr.specs.Behind.{suffixes_behind, field_of, index_of};

use crate::expressions::Rows;
use crate::leaves::{
    APPENDS, COMPARISONS, FACTORS, SIGNS, SUFFIX_SIGNS, operator_of, with_suffixes,
};
use sail_base::{Boxed, Items, Prefix};
use sail_grammar::{
    Lexeme, Mode, Read, accept, accept_any, expect, expect_identifier, expect_two, literal, name,
    place, sees, sees_any, sees_two,
};
use sail_lex::TokenKind;
use sail_parse_forms::Part;
use sail_syntax::{Exp, Index, Suffix, build};
use std::alloc::Global;

impl<F: Fn(Global, &[Lexeme], Mode, Part) -> Read<'_, Boxed<Exp>>> Rows<F> {
    // An operand with the operators of all levels.
    pub(crate) fn operand_row<'a>(&self, tokens: &'a [Lexeme], mode: Mode) -> Read<'a, Boxed<Exp>>
        requires parses { Parses self.now.atoms.grammar.limit (F.pre self.now.atoms.grammar.part) (F.post self.now.atoms.grammar.part) }
        requires fewer { length tokens.now ≤ self.now.atoms.grammar.limit }
        ensures read { IfOk result (λ r. Reading (Row (N.Infix mode)) T.infix_of tokens.now r.0 r.1.now) }
        ensures shorter { IfOk result (λ r. length r.1.now < length tokens.now) }
        ensures stop { IfErr result (λ e. StopsAt (Row (N.Infix mode)) tokens.now e) }
    {
        let (left, after_left) = self.infix_and(tokens, mode)?;
        match accept(after_left, TokenKind::Bar) {
            Some((sign, after_sign)) => {
                let (right, rest) = self.atoms.grammar.infix(after_sign, mode)?;
                let operator = operator_of(sign.kind);
                let made = build::infix(self.alloc, sign.place, operator, left, right)?;
                Ok((made, rest))
            }
            None => Ok((left, after_left)),
        }
    }

    // An operand of `|`.
    pub(crate) fn infix_and<'a>(&self, tokens: &'a [Lexeme], mode: Mode) -> Read<'a, Boxed<Exp>>
        requires parses { Parses self.now.atoms.grammar.limit (F.pre self.now.atoms.grammar.part) (F.post self.now.atoms.grammar.part) }
        requires fewer { length tokens.now ≤ self.now.atoms.grammar.limit }
        ensures read { IfOk result (λ r. Reading (Row (N.InfixAnd mode)) T.and_of tokens.now r.0 r.1.now) }
        ensures shorter { IfOk result (λ r. length r.1.now < length tokens.now) }
        ensures stop { IfErr result (λ e. StopsAt (Row (N.InfixAnd mode)) tokens.now e) }
    {
        let (left, after_left) = self.infix_comparison(tokens, mode)?;
        match accept(after_left, TokenKind::Ampersand) {
            Some((sign, after_sign)) => {
                let (right, rest) = self.atoms.grammar.more_and(after_sign, mode)?;
                let operator = operator_of(sign.kind);
                let made = build::infix(self.alloc, sign.place, operator, left, right)?;
                Ok((made, rest))
            }
            None => Ok((left, after_left)),
        }
    }

    // An operand of `&`: a comparison doesn't chain.
    pub(crate) fn infix_comparison<'a>(
        &self,
        tokens: &'a [Lexeme],
        mode: Mode,
    ) -> Read<'a, Boxed<Exp>>
        requires parses { Parses self.now.atoms.grammar.limit (F.pre self.now.atoms.grammar.part) (F.post self.now.atoms.grammar.part) }
        requires fewer { length tokens.now ≤ self.now.atoms.grammar.limit }
        ensures read { IfOk result (λ r. Reading (Row (N.InfixComparison mode)) T.comparison_of tokens.now r.0 r.1.now) }
        ensures shorter { IfOk result (λ r. length r.1.now < length tokens.now) }
        ensures stop { IfErr result (λ e. StopsAt (Row (N.InfixComparison mode)) tokens.now e) }
    {
        let (left, after_left) = self.infix_append(tokens, mode)?;
        match accept_any(after_left, &COMPARISONS) {
            Some((sign, after_sign)) => {
                let (right, rest) = self.infix_append(after_sign, mode)?;
                let operator = operator_of(sign.kind);
                let made = build::infix(self.alloc, sign.place, operator, left, right)?;
                Ok((made, rest))
            }
            None => Ok((left, after_left)),
        }
    }

    // An operand of a comparison.
    pub(crate) fn infix_append<'a>(&self, tokens: &'a [Lexeme], mode: Mode) -> Read<'a, Boxed<Exp>>
        requires parses { Parses self.now.atoms.grammar.limit (F.pre self.now.atoms.grammar.part) (F.post self.now.atoms.grammar.part) }
        requires fewer { length tokens.now ≤ self.now.atoms.grammar.limit }
        ensures read { IfOk result (λ r. Reading (Row (N.InfixAppend mode)) T.append_of tokens.now r.0 r.1.now) }
        ensures shorter { IfOk result (λ r. length r.1.now < length tokens.now) }
        ensures stop { IfErr result (λ e. StopsAt (Row (N.InfixAppend mode)) tokens.now e) }
    {
        let (left, after_left) = self.infix_sum(tokens, mode)?;
        match accept_any(after_left, &APPENDS) {
            Some((sign, after_sign)) => {
                let (right, rest) = self.atoms.grammar.more_append(after_sign, mode)?;
                let operator = operator_of(sign.kind);
                let made = build::infix(self.alloc, sign.place, operator, left, right)?;
                Ok((made, rest))
            }
            None => Ok((left, after_left)),
        }
    }

    // A sum, from the left.
    pub(crate) fn infix_sum<'a>(&self, tokens: &'a [Lexeme], mode: Mode) -> Read<'a, Boxed<Exp>>
        requires parses { Parses self.now.atoms.grammar.limit (F.pre self.now.atoms.grammar.part) (F.post self.now.atoms.grammar.part) }
        requires fewer { length tokens.now ≤ self.now.atoms.grammar.limit }
        ensures read { IfOk result (λ r. Reading (Row (N.InfixSum mode)) T.sum_of tokens.now r.0 r.1.now) }
        ensures shorter { IfOk result (λ r. length r.1.now < length tokens.now) }
        ensures stop { IfErr result (λ e. StopsAt (Row (N.InfixSum mode)) tokens.now e) }
    {
        let (first, after_first) = self.infix_product(tokens, mode)?;
        self.infix_sum_more(first, after_first, mode)
    }

    // What is added to a sum so far.
    pub(crate) fn infix_sum_more<'a>(
        &self,
        left: Boxed<Exp>,
        tokens: &'a [Lexeme],
        mode: Mode,
    ) -> Read<'a, Boxed<Exp>>
        requires parses { Parses self.now.atoms.grammar.limit (F.pre self.now.atoms.grammar.part) (F.post self.now.atoms.grammar.part) }
        requires fewer { length tokens.now ≤ self.now.atoms.grammar.limit }
        ensures read { IfOk result (λ r. Reading (Row (N.InfixSumMore mode)) (T.sum_more left) tokens.now r.0 r.1.now) }
        ensures shorter { IfOk result (λ r. length r.1.now ≤ length tokens.now) }
        ensures stop { IfErr result (λ e. StopsAt (Row (N.InfixSumMore mode)) tokens.now e) }
    {
        match accept_any(tokens, &SIGNS) {
            Some((sign, after_sign)) => {
                let (right, after_right) = self.infix_product(after_sign, mode)?;
                let operator = operator_of(sign.kind);
                let made = build::infix(self.alloc, sign.place, operator, left, right)?;
                self.infix_sum_more(made, after_right, mode)
            }
            None => Ok((left, tokens)),
        }
    }

    // A product, from the left.
    pub(crate) fn infix_product<'a>(&self, tokens: &'a [Lexeme], mode: Mode) -> Read<'a, Boxed<Exp>>
        requires parses { Parses self.now.atoms.grammar.limit (F.pre self.now.atoms.grammar.part) (F.post self.now.atoms.grammar.part) }
        requires fewer { length tokens.now ≤ self.now.atoms.grammar.limit }
        ensures read { IfOk result (λ r. Reading (Row (N.InfixProduct mode)) T.product_of tokens.now r.0 r.1.now) }
        ensures shorter { IfOk result (λ r. length r.1.now < length tokens.now) }
        ensures stop { IfErr result (λ e. StopsAt (Row (N.InfixProduct mode)) tokens.now e) }
    {
        let (first, after_first) = self.infix_power(tokens, mode)?;
        self.infix_product_more(first, after_first, mode)
    }

    // The further factors of a product so far.
    pub(crate) fn infix_product_more<'a>(
        &self,
        left: Boxed<Exp>,
        tokens: &'a [Lexeme],
        mode: Mode,
    ) -> Read<'a, Boxed<Exp>>
        requires parses { Parses self.now.atoms.grammar.limit (F.pre self.now.atoms.grammar.part) (F.post self.now.atoms.grammar.part) }
        requires fewer { length tokens.now ≤ self.now.atoms.grammar.limit }
        ensures read { IfOk result (λ r. Reading (Row (N.InfixProductMore mode)) (T.product_more left) tokens.now r.0 r.1.now) }
        ensures shorter { IfOk result (λ r. length r.1.now ≤ length tokens.now) }
        ensures stop { IfErr result (λ e. StopsAt (Row (N.InfixProductMore mode)) tokens.now e) }
    {
        match accept_any(tokens, &FACTORS) {
            Some((sign, after_sign)) => {
                let (right, after_right) = self.infix_power(after_sign, mode)?;
                let operator = operator_of(sign.kind);
                let made = build::infix(self.alloc, sign.place, operator, left, right)?;
                self.infix_product_more(made, after_right, mode)
            }
            None => Ok((left, tokens)),
        }
    }

    // A power.
    pub(crate) fn infix_power<'a>(&self, tokens: &'a [Lexeme], mode: Mode) -> Read<'a, Boxed<Exp>>
        requires parses { Parses self.now.atoms.grammar.limit (F.pre self.now.atoms.grammar.part) (F.post self.now.atoms.grammar.part) }
        requires fewer { length tokens.now ≤ self.now.atoms.grammar.limit }
        ensures read { IfOk result (λ r. Reading (Row (N.InfixPower mode)) T.power_of tokens.now r.0 r.1.now) }
        ensures shorter { IfOk result (λ r. length r.1.now < length tokens.now) }
        ensures stop { IfErr result (λ e. StopsAt (Row (N.InfixPower mode)) tokens.now e) }
    {
        let (left, after_left) = self.unary(tokens, mode)?;
        match accept(after_left, TokenKind::Caret) {
            Some((sign, after_sign)) => {
                let (right, rest) = self.atoms.grammar.more_power(after_sign, mode)?;
                let operator = operator_of(sign.kind);
                let made = build::infix(self.alloc, sign.place, operator, left, right)?;
                Ok((made, rest))
            }
            None => Ok((left, after_left)),
        }
    }

    // An operand of `^`.
    pub(crate) fn unary<'a>(&self, tokens: &'a [Lexeme], mode: Mode) -> Read<'a, Boxed<Exp>>
        requires parses { Parses self.now.atoms.grammar.limit (F.pre self.now.atoms.grammar.part) (F.post self.now.atoms.grammar.part) }
        requires fewer { length tokens.now ≤ self.now.atoms.grammar.limit }
        ensures read { IfOk result (λ r. Reading (Row (N.Unary mode)) T.unary_of tokens.now r.0 r.1.now) }
        ensures shorter { IfOk result (λ r. length r.1.now < length tokens.now) }
        ensures stop { IfErr result (λ e. StopsAt (Row (N.Unary mode)) tokens.now e) }
    {
        if sees(tokens, TokenKind::Minus) {
            self.negation(tokens, mode)
        } else if sees_two(tokens) {
            self.power(tokens, mode)
        } else {
            self.postfix(tokens, mode)
        }
    }

    // `-` and its operand.
    pub(crate) fn negation<'a>(&self, tokens: &'a [Lexeme], mode: Mode) -> Read<'a, Boxed<Exp>>
        requires parses { Parses self.now.atoms.grammar.limit (F.pre self.now.atoms.grammar.part) (F.post self.now.atoms.grammar.part) }
        requires fewer { length tokens.now ≤ self.now.atoms.grammar.limit }
        ensures read { IfOk result (λ r. Reading (Row (N.Negation mode)) T.negation_of tokens.now r.0 r.1.now) }
        ensures shorter { IfOk result (λ r. length r.1.now < length tokens.now) }
        ensures stop { IfErr result (λ e. StopsAt (Row (N.Negation mode)) tokens.now e) }
    {
        let (sign, after_sign) = expect(tokens, TokenKind::Minus)?;
        let (operand, rest) = self.atoms.grammar.more_unary(after_sign, mode)?;
        let made = build::prefixed(self.alloc, sign.place, Prefix::Negate, operand)?;
        Ok((made, rest))
    }

    // A power of 2, or 2 with its suffixes.
    pub(crate) fn power<'a>(&self, tokens: &'a [Lexeme], mode: Mode) -> Read<'a, Boxed<Exp>>
        requires parses { Parses self.now.atoms.grammar.limit (F.pre self.now.atoms.grammar.part) (F.post self.now.atoms.grammar.part) }
        requires fewer { length tokens.now ≤ self.now.atoms.grammar.limit }
        ensures read { IfOk result (λ r. Reading (Row (N.Power mode)) T.two_of tokens.now r.0 r.1.now) }
        ensures shorter { IfOk result (λ r. length r.1.now < length tokens.now) }
        ensures stop { IfErr result (λ e. StopsAt (Row (N.Power mode)) tokens.now e) }
    {
        let (token, after_two) = expect_two(tokens)?;
        match accept(after_two, TokenKind::Caret) {
            Some((sign, after_sign)) => {
                let (operand, rest) = self.atoms.grammar.more_unary(after_sign, mode)?;
                let made = build::prefixed(self.alloc, sign.place, Prefix::Power, operand)?;
                Ok((made, rest))
            }
            None => {
                let literal = literal(self.alloc, token)?;
                let base = build::constant(self.alloc, token.place, literal)?;
                let (list, rest) = self.suffixes(Items::new(self.alloc), after_two, mode)?;
                let made = with_suffixes(self.alloc, token.place, base, list)?;
                Ok((made, rest))
            }
        }
    }

    // An operand with its suffixes.
    pub(crate) fn postfix<'a>(&self, tokens: &'a [Lexeme], mode: Mode) -> Read<'a, Boxed<Exp>>
        requires parses { Parses self.now.atoms.grammar.limit (F.pre self.now.atoms.grammar.part) (F.post self.now.atoms.grammar.part) }
        requires fewer { length tokens.now ≤ self.now.atoms.grammar.limit }
        ensures read { IfOk result (λ r. Reading (Row (N.Postfix mode)) T.postfix_of tokens.now r.0 r.1.now) }
        ensures shorter { IfOk result (λ r. length r.1.now < length tokens.now) }
        ensures stop { IfErr result (λ e. StopsAt (Row (N.Postfix mode)) tokens.now e) }
    {
        let place = place(tokens);
        let (base, after_base) = self.atoms.atom(tokens, mode)?;
        let (list, rest) = self.suffixes(Items::new(self.alloc), after_base, mode)?;
        let made = with_suffixes(self.alloc, place, base, list)?;
        Ok((made, rest))
    }

    // Suffixes behind others.
    pub(crate) fn suffixes<'a>(
        &self,
        mut list: Items<Suffix>,
        tokens: &'a [Lexeme],
        mode: Mode,
    ) -> Read<'a, Items<Suffix>>
        requires parses { Parses self.now.atoms.grammar.limit (F.pre self.now.atoms.grammar.part) (F.post self.now.atoms.grammar.part) }
        requires fewer { length tokens.now ≤ self.now.atoms.grammar.limit }
        ensures read { IfOk result (λ r. Reading (Row (N.Suffixes mode)) (suffixes_behind list) tokens.now r.0 r.1.now) }
        ensures shorter { IfOk result (λ r. length r.1.now ≤ length tokens.now) }
        ensures stop { IfErr result (λ e. StopsAt (Row (N.Suffixes mode)) tokens.now e) }
    {
        let mut rest = tokens;
        'suffixes: while sees_any(rest, &SUFFIX_SIGNS) {
            let (next, after_next) = self.suffix(rest, mode)?;
            list.push(next)?;
            rest = after_next;
        }
        Ok((list, rest))
    }

    // One suffix.
    pub(crate) fn suffix<'a>(&self, tokens: &'a [Lexeme], mode: Mode) -> Read<'a, Suffix>
        requires parses { Parses self.now.atoms.grammar.limit (F.pre self.now.atoms.grammar.part) (F.post self.now.atoms.grammar.part) }
        requires fewer { length tokens.now ≤ self.now.atoms.grammar.limit }
        ensures read { IfOk result (λ r. Reading (Row (N.Suffix mode)) T.suffix_of tokens.now r.0 r.1.now) }
        ensures shorter { IfOk result (λ r. length r.1.now < length tokens.now) }
        ensures stop { IfErr result (λ e. StopsAt (Row (N.Suffix mode)) tokens.now e) }
    {
        if sees(tokens, TokenKind::OpenBracket) {
            self.index(tokens, mode)
        } else {
            field(tokens)
        }
    }

    // An index or a slice.
    pub(crate) fn index<'a>(&self, tokens: &'a [Lexeme], mode: Mode) -> Read<'a, Suffix>
        requires parses { Parses self.now.atoms.grammar.limit (F.pre self.now.atoms.grammar.part) (F.post self.now.atoms.grammar.part) }
        requires fewer { length tokens.now ≤ self.now.atoms.grammar.limit }
        ensures read { IfOk result (λ r. Reading (Row (N.Index mode)) index_of tokens.now r.0 r.1.now) }
        ensures shorter { IfOk result (λ r. length r.1.now < length tokens.now) }
        ensures stop { IfErr result (λ e. StopsAt (Row (N.Index mode)) tokens.now e) }
    {
        let (bracket, after_bracket) = expect(tokens, TokenKind::OpenBracket)?;
        let (first, after_first) = self.atoms.grammar.exp(after_bracket, mode)?;
        let (last, after_last) = self.slice_end(after_first, mode)?;
        let (_, rest) = expect(after_last, TokenKind::CloseBracket)?;
        Ok((Suffix::At(bracket.place, Index { first, last }), rest))
    }

    // The lower end of a slice, if there is one.
    pub(crate) fn slice_end<'a>(
        &self,
        tokens: &'a [Lexeme],
        mode: Mode,
    ) -> Read<'a, Option<Boxed<Exp>>>
        requires parses { Parses self.now.atoms.grammar.limit (F.pre self.now.atoms.grammar.part) (F.post self.now.atoms.grammar.part) }
        requires fewer { length tokens.now ≤ self.now.atoms.grammar.limit }
        ensures read { IfOk result (λ r. Reading (word K.DoubleDot then Row (N.Exp mode) or nothing) T.behind_word tokens.now r.0 r.1.now) }
        ensures shorter { IfOk result (λ r. length r.1.now ≤ length tokens.now) }
        ensures stop { IfErr result (λ e. StopsAt (word K.DoubleDot then Row (N.Exp mode) or nothing) tokens.now e) }
    {
        match accept(tokens, TokenKind::DoubleDot) {
            Some((_, after_dots)) => {
                let (last, rest) = self.atoms.grammar.exp(after_dots, mode)?;
                Ok((Some(last), rest))
            }
            None => Ok((None, tokens)),
        }
    }
}

// A field.
pub(crate) fn field<'a>(tokens: &'a [Lexeme]) -> Read<'a, Suffix>
    ensures read { IfOk result (λ r. Reading (word K.Dot then identifier) field_of tokens.now r.0 r.1.now) }
    ensures shorter { IfOk result (λ r. length r.1.now < length tokens.now) }
    ensures stop { IfErr result (λ e. StopsAt (word K.Dot then identifier) tokens.now e) }
{
    let (_, after_dot) = expect(tokens, TokenKind::Dot)?;
    let (token, rest) = expect_identifier(after_dot)?;
    let name = name(token)?;
    Ok((Suffix::Field(name), rest))
}
