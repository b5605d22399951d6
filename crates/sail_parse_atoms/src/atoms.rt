ghost use Rattle.std.specs.Prelude.{◌≡◌, [], ◌∷◌, ◌++◌, ◌<◌, ◌≤◌, length, IfOk, IfErr};
ghost use Rattle.sail_lex.specs.declared.kind.TokenKind.TheVariants as K;
ghost use Rattle.sail_grammar.specs.declared.mode.Mode.TheVariants.{Full, Limited};
ghost use Rattle.sail_grammar.specs.Symbol.{code};
ghost use Rattle.sail_grammar.specs.RowName as N;
ghost use Rattle.sail_grammar.specs.Form.{Row, Empty, Word, ◌or◌, ◌then◌};
ghost use Rattle.sail_grammar.specs.Table.{nothing, word, words, identifier, literals};
ghost use Rattle.sail_grammar.specs.Parsing.{Reading, StopsAt};
ghost use Rattle.sail_grammar.specs.ExpTrees as T;
ghost use Rattle.sail_parse_forms.specs.Parses.{Parses};
ghost use Rattle.sail_parse_atoms.specs.Behind.{exps_behind};

use crate::leaves::{PREFIXES, in_brackets, prefix_of};
use sail_base::{Boxed, Items, Place};
use sail_grammar::{
    Lexeme, Mode, Read, ReadError, accept, expect, expect_any, expect_identifier, name, sees,
    sees_any, sees_identifier,
};
use sail_lex::TokenKind;
use sail_parse_forms::{Grammar, LITERALS, Part, QUESTIONS, constant, name_if, question, text_if};
use sail_syntax::{Brackets, Exp, Index, build};
use std::alloc::Global;

/// What the functions of operands without suffixes are given. It reads what is within brackets by a
/// `Grammar`.
#[derive(Clone, Copy)]
pub struct Atoms<F> {
    /// What reads expressions of fewer tokens.
    pub grammar: Grammar<F>,
}

impl<F: Fn(Global, &[Lexeme], Mode, Part) -> Read<'_, Boxed<Exp>>> Atoms<F> {
    /// An operand without suffixes.
    pub fn atom<'a>(&self, tokens: &'a [Lexeme], mode: Mode) -> Read<'a, Boxed<Exp>>
        requires parses { Parses self.now.grammar.limit (F.pre self.now.grammar.part) (F.post self.now.grammar.part) }
        requires fewer { length tokens.now ≤ self.now.grammar.limit }
        ensures read { IfOk result (λ r. Reading (Row (N.Atom mode)) T.atom_of tokens.now r.0 r.1.now) }
        ensures shorter { IfOk result (λ r. length r.1.now < length tokens.now) }
        ensures stop { IfErr result (λ e. StopsAt (Row (N.Atom mode)) tokens.now e) }
    {
        if sees_any(tokens, &LITERALS) {
            constant(self.grammar.alloc, tokens)
        } else if sees_identifier(tokens) {
            self.named(tokens, mode)
        } else if sees_any(tokens, &PREFIXES) {
            self.prefix_call(tokens, mode)
        } else if sees(tokens, TokenKind::OpenParenthesis) {
            self.group(tokens, mode)
        } else if sees(tokens, TokenKind::OpenBrace) {
            self.block(tokens, mode)
        } else if sees(tokens, TokenKind::OpenBracket) {
            self.vector(tokens, mode)
        } else if sees(tokens, TokenKind::OpenVector) {
            self.list(tokens, mode)
        } else if sees(tokens, TokenKind::Struct) {
            self.structure(tokens, mode)
        } else if sees_any(tokens, &QUESTIONS) {
            question(self.grammar.alloc, tokens)
        } else {
            self.assertion(tokens, mode)
        }
    }

    // A name or a call.
    pub(crate) fn named<'a>(&self, tokens: &'a [Lexeme], mode: Mode) -> Read<'a, Boxed<Exp>>
        requires parses { Parses self.now.grammar.limit (F.pre self.now.grammar.part) (F.post self.now.grammar.part) }
        requires fewer { length tokens.now ≤ self.now.grammar.limit }
        ensures read { IfOk result (λ r. Reading (Row (N.NamedExp mode)) T.named_of tokens.now r.0 r.1.now) }
        ensures shorter { IfOk result (λ r. length r.1.now < length tokens.now) }
        ensures stop { IfErr result (λ e. StopsAt (Row (N.NamedExp mode)) tokens.now e) }
    {
        let (token, after_name) = expect_identifier(tokens)?;
        match accept(after_name, TokenKind::OpenParenthesis) {
            Some((_, after_bracket)) => {
                let (items, rest) = self.arguments(after_bracket, mode)?;
                let made = build::call(self.grammar.alloc, name(token)?, items)?;
                Ok((made, rest))
            }
            None => {
                let made = build::variable(self.grammar.alloc, name(token)?)?;
                Ok((made, after_name))
            }
        }
    }

    // `~` or `not` with its operand.
    pub(crate) fn prefix_call<'a>(&self, tokens: &'a [Lexeme], mode: Mode) -> Read<'a, Boxed<Exp>>
        requires parses { Parses self.now.grammar.limit (F.pre self.now.grammar.part) (F.post self.now.grammar.part) }
        requires fewer { length tokens.now ≤ self.now.grammar.limit }
        ensures read { IfOk result (λ r. Reading (Row (N.PrefixCall mode)) T.prefix_call_of tokens.now r.0 r.1.now) }
        ensures shorter { IfOk result (λ r. length r.1.now < length tokens.now) }
        ensures stop { IfErr result (λ e. StopsAt (Row (N.PrefixCall mode)) tokens.now e) }
    {
        let (word, after_word) = expect_any(tokens, &PREFIXES)?;
        let (_, after_bracket) = expect(after_word, TokenKind::OpenParenthesis)?;
        let (operand, after_operand) = self.grammar.exp(after_bracket, mode)?;
        let (_, rest) = expect(after_operand, TokenKind::CloseParenthesis)?;
        let prefix = prefix_of(word.kind);
        let made = build::prefixed(self.grammar.alloc, word.place, prefix, operand)?;
        Ok((made, rest))
    }

    // Expressions in round brackets.
    pub(crate) fn group<'a>(&self, tokens: &'a [Lexeme], mode: Mode) -> Read<'a, Boxed<Exp>>
        requires parses { Parses self.now.grammar.limit (F.pre self.now.grammar.part) (F.post self.now.grammar.part) }
        requires fewer { length tokens.now ≤ self.now.grammar.limit }
        ensures read { IfOk result (λ r. Reading (Row (N.GroupExp mode)) T.group_of tokens.now r.0 r.1.now) }
        ensures shorter { IfOk result (λ r. length r.1.now < length tokens.now) }
        ensures stop { IfErr result (λ e. StopsAt (Row (N.GroupExp mode)) tokens.now e) }
    {
        let (bracket, after_bracket) = expect(tokens, TokenKind::OpenParenthesis)?;
        let (items, rest) = self.arguments(after_bracket, mode)?;
        let made = in_brackets(self.grammar.alloc, bracket.place, items)?;
        Ok((made, rest))
    }

    // A vector, or one with an item changed.
    pub(crate) fn vector<'a>(&self, tokens: &'a [Lexeme], mode: Mode) -> Read<'a, Boxed<Exp>>
        requires parses { Parses self.now.grammar.limit (F.pre self.now.grammar.part) (F.post self.now.grammar.part) }
        requires fewer { length tokens.now ≤ self.now.grammar.limit }
        ensures read { IfOk result (λ r. Reading (Row (N.VectorExp mode)) T.vector_of tokens.now r.0 r.1.now) }
        ensures shorter { IfOk result (λ r. length r.1.now < length tokens.now) }
        ensures stop { IfErr result (λ e. StopsAt (Row (N.VectorExp mode)) tokens.now e) }
    {
        let (bracket, after_bracket) = expect(tokens, TokenKind::OpenBracket)?;
        let (first, after_first) = self.grammar.exp(after_bracket, mode)?;
        let (made, after_all) = self.vector_more(bracket.place, first, after_first, mode)?;
        let (_, rest) = expect(after_all, TokenKind::CloseBracket)?;
        Ok((made, rest))
    }

    // What makes of an expression a vector or an update.
    pub(crate) fn vector_more<'a>(
        &self,
        place: Place,
        first: Boxed<Exp>,
        tokens: &'a [Lexeme],
        mode: Mode,
    ) -> Read<'a, Boxed<Exp>>
        requires parses { Parses self.now.grammar.limit (F.pre self.now.grammar.part) (F.post self.now.grammar.part) }
        requires fewer { length tokens.now ≤ self.now.grammar.limit }
        ensures read { IfOk result (λ r. Reading (Row (N.Update mode) or Row (N.ExpsTail mode)) (T.vector_more place first) tokens.now r.0 r.1.now) }
        ensures shorter { IfOk result (λ r. length r.1.now ≤ length tokens.now) }
        ensures stop { IfErr result (λ e. StopsAt (Row (N.Update mode) or Row (N.ExpsTail mode)) tokens.now e) }
    {
        if sees(tokens, TokenKind::With) {
            self.update(place, first, tokens, mode)
        } else {
            let mut items = Items::new(self.grammar.alloc);
            items.push(first.into_inner())?;
            let (items, rest) = self.exps_tail(items, tokens, mode)?;
            let made = build::group(self.grammar.alloc, place, Brackets::Vector, items)?;
            Ok((made, rest))
        }
    }

    // What changes an item of a vector.
    pub(crate) fn update<'a>(
        &self,
        place: Place,
        base: Boxed<Exp>,
        tokens: &'a [Lexeme],
        mode: Mode,
    ) -> Read<'a, Boxed<Exp>>
        requires parses { Parses self.now.grammar.limit (F.pre self.now.grammar.part) (F.post self.now.grammar.part) }
        requires fewer { length tokens.now ≤ self.now.grammar.limit }
        ensures read { IfOk result (λ r. Reading (Row (N.Update mode)) (T.update_of place base) tokens.now r.0 r.1.now) }
        ensures shorter { IfOk result (λ r. length r.1.now < length tokens.now) }
        ensures stop { IfErr result (λ e. StopsAt (Row (N.Update mode)) tokens.now e) }
    {
        let (_, after_with) = expect(tokens, TokenKind::With)?;
        let (first, after_first) = self.grammar.infix(after_with, mode)?;
        let (last, after_last) = self.infix_if(after_first, mode)?;
        let (_, after_equal) = expect(after_last, TokenKind::Equal)?;
        let (value, rest) = self.grammar.exp(after_equal, mode)?;
        let index = Boxed::new(self.grammar.alloc, Index { first, last })?;
        let made = build::update(self.grammar.alloc, place, base, index, value)?;
        Ok((made, rest))
    }

    // The lower end of an updated slice, if there is one.
    pub(crate) fn infix_if<'a>(
        &self,
        tokens: &'a [Lexeme],
        mode: Mode,
    ) -> Read<'a, Option<Boxed<Exp>>>
        requires parses { Parses self.now.grammar.limit (F.pre self.now.grammar.part) (F.post self.now.grammar.part) }
        requires fewer { length tokens.now ≤ self.now.grammar.limit }
        ensures read { IfOk result (λ r. Reading (word K.DoubleDot then Row (N.Infix mode) or nothing) T.infix_if tokens.now r.0 r.1.now) }
        ensures shorter { IfOk result (λ r. length r.1.now ≤ length tokens.now) }
        ensures stop { IfErr result (λ e. StopsAt (word K.DoubleDot then Row (N.Infix mode) or nothing) tokens.now e) }
    {
        match accept(tokens, TokenKind::DoubleDot) {
            Some((_, after_dots)) => {
                let (last, rest) = self.grammar.infix(after_dots, mode)?;
                Ok((Some(last), rest))
            }
            None => Ok((None, tokens)),
        }
    }

    // A list.
    pub(crate) fn list<'a>(&self, tokens: &'a [Lexeme], mode: Mode) -> Read<'a, Boxed<Exp>>
        requires parses { Parses self.now.grammar.limit (F.pre self.now.grammar.part) (F.post self.now.grammar.part) }
        requires fewer { length tokens.now ≤ self.now.grammar.limit }
        ensures read { IfOk result (λ r. Reading (Row (N.ListExp mode)) T.list_of tokens.now r.0 r.1.now) }
        ensures shorter { IfOk result (λ r. length r.1.now < length tokens.now) }
        ensures stop { IfErr result (λ e. StopsAt (Row (N.ListExp mode)) tokens.now e) }
    {
        let (bracket, after_bracket) = expect(tokens, TokenKind::OpenVector)?;
        let (items, rest) = self.list_items(after_bracket, mode)?;
        let made = build::group(self.grammar.alloc, bracket.place, Brackets::List, items)?;
        Ok((made, rest))
    }

    // The items of a list, and its closing bracket.
    pub(crate) fn list_items<'a>(&self, tokens: &'a [Lexeme], mode: Mode) -> Read<'a, Items<Exp>>
        requires parses { Parses self.now.grammar.limit (F.pre self.now.grammar.part) (F.post self.now.grammar.part) }
        requires fewer { length tokens.now < self.now.grammar.limit }
        ensures read { IfOk result (λ r. Reading (word K.CloseVector or Row (N.Exps mode) then word K.CloseVector) T.arguments_of tokens.now r.0 r.1.now) }
        ensures shorter { IfOk result (λ r. length r.1.now < length tokens.now) }
        ensures stop { IfErr result (λ e. StopsAt (word K.CloseVector or Row (N.Exps mode) then word K.CloseVector) tokens.now e) }
    {
        match accept(tokens, TokenKind::CloseVector) {
            Some((_, rest)) => Ok((Items::new(self.grammar.alloc), rest)),
            None => {
                let (items, after_items) = self.exps(tokens, mode)?;
                let (_, rest) = expect(after_items, TokenKind::CloseVector)?;
                Ok((items, rest))
            }
        }
    }

    // A struct.
    pub(crate) fn structure<'a>(&self, tokens: &'a [Lexeme], mode: Mode) -> Read<'a, Boxed<Exp>>
        requires parses { Parses self.now.grammar.limit (F.pre self.now.grammar.part) (F.post self.now.grammar.part) }
        requires fewer { length tokens.now ≤ self.now.grammar.limit }
        ensures read { IfOk result (λ r. Reading (Row (N.StructExp mode)) T.struct_of tokens.now r.0 r.1.now) }
        ensures shorter { IfOk result (λ r. length r.1.now < length tokens.now) }
        ensures stop { IfErr result (λ e. StopsAt (Row (N.StructExp mode)) tokens.now e) }
    {
        let (word, after_word) = expect(tokens, TokenKind::Struct)?;
        let (name, after_name) = name_if(after_word)?;
        let (_, after_bracket) = expect(after_name, TokenKind::OpenBrace)?;
        let (values, after_values) = self.field_values(after_bracket, mode)?;
        let (_, rest) = expect(after_values, TokenKind::CloseBrace)?;
        let made = build::structure(self.grammar.alloc, word.place, name, values)?;
        Ok((made, rest))
    }

    // `assert`, which isn't plain.
    pub(crate) fn assertion<'a>(&self, tokens: &'a [Lexeme], mode: Mode) -> Read<'a, Boxed<Exp>>
        requires parses { Parses self.now.grammar.limit (F.pre self.now.grammar.part) (F.post self.now.grammar.part) }
        requires fewer { length tokens.now ≤ self.now.grammar.limit }
        ensures read { IfOk result (λ r. Reading (Row (N.Assertion mode)) T.assertion_of tokens.now r.0 r.1.now) }
        ensures shorter { IfOk result (λ r. length r.1.now < length tokens.now) }
        ensures stop { IfErr result (λ e. StopsAt (Row (N.Assertion mode)) tokens.now e) }
    {
        match mode {
            Mode::Full => self.assert_form(tokens),
            Mode::Limited => if sees(tokens, TokenKind::Assert) {
                Err(ReadError::Forbidden(tokens.len(), tokens.len()))
            } else {
                Err(ReadError::Unfit(tokens.len()))
            },
        }
    }

    // `assert`.
    pub(crate) fn assert_form<'a>(&self, tokens: &'a [Lexeme]) -> Read<'a, Boxed<Exp>>
        requires parses { Parses self.now.grammar.limit (F.pre self.now.grammar.part) (F.post self.now.grammar.part) }
        requires fewer { length tokens.now ≤ self.now.grammar.limit }
        ensures read { IfOk result (λ r. Reading (Row (N.Assertion Full)) T.assertion_of tokens.now r.0 r.1.now) }
        ensures shorter { IfOk result (λ r. length r.1.now < length tokens.now) }
        ensures stop { IfErr result (λ e. StopsAt (Row (N.Assertion Full)) tokens.now e) }
    {
        let (word, after_word) = expect(tokens, TokenKind::Assert)?;
        let (_, after_bracket) = expect(after_word, TokenKind::OpenParenthesis)?;
        let (condition, after_condition) = self.grammar.exp(after_bracket, Mode::Full)?;
        let (text, after_text) = text_if(self.grammar.alloc, after_condition)?;
        let (_, rest) = expect(after_text, TokenKind::CloseParenthesis)?;
        let made = build::assert_that(self.grammar.alloc, word.place, condition, text)?;
        Ok((made, rest))
    }

    // Expressions up to a closing bracket, if there are any, and the bracket.
    pub(crate) fn arguments<'a>(&self, tokens: &'a [Lexeme], mode: Mode) -> Read<'a, Items<Exp>>
        requires parses { Parses self.now.grammar.limit (F.pre self.now.grammar.part) (F.post self.now.grammar.part) }
        requires fewer { length tokens.now < self.now.grammar.limit }
        ensures read { IfOk result (λ r. Reading (Row (N.Arguments mode)) T.arguments_of tokens.now r.0 r.1.now) }
        ensures shorter { IfOk result (λ r. length r.1.now < length tokens.now) }
        ensures stop { IfErr result (λ e. StopsAt (Row (N.Arguments mode)) tokens.now e) }
    {
        match accept(tokens, TokenKind::CloseParenthesis) {
            Some((_, rest)) => Ok((Items::new(self.grammar.alloc), rest)),
            None => {
                let (items, after_items) = self.exps(tokens, mode)?;
                let (_, rest) = expect(after_items, TokenKind::CloseParenthesis)?;
                Ok((items, rest))
            }
        }
    }

    // Expressions with commas between.
    pub(crate) fn exps<'a>(&self, tokens: &'a [Lexeme], mode: Mode) -> Read<'a, Items<Exp>>
        requires parses { Parses self.now.grammar.limit (F.pre self.now.grammar.part) (F.post self.now.grammar.part) }
        requires fewer { length tokens.now < self.now.grammar.limit }
        ensures read { IfOk result (λ r. Reading (Row (N.Exps mode)) T.exps_of tokens.now r.0 r.1.now) }
        ensures shorter { IfOk result (λ r. length r.1.now < length tokens.now) }
        ensures stop { IfErr result (λ e. StopsAt (Row (N.Exps mode)) tokens.now e) }
    {
        let (first, after_first) = self.grammar.exp(tokens, mode)?;
        let mut list = Items::new(self.grammar.alloc);
        list.push(first.into_inner())?;
        self.exps_tail(list, after_first, mode)
    }

    // Expressions behind others, each behind a comma.
    pub(crate) fn exps_tail<'a>(
        &self,
        mut list: Items<Exp>,
        tokens: &'a [Lexeme],
        mode: Mode,
    ) -> Read<'a, Items<Exp>>
        requires parses { Parses self.now.grammar.limit (F.pre self.now.grammar.part) (F.post self.now.grammar.part) }
        requires fewer { length tokens.now ≤ self.now.grammar.limit }
        ensures read { IfOk result (λ r. Reading (Row (N.ExpsTail mode)) (exps_behind list) tokens.now r.0 r.1.now) }
        ensures shorter { IfOk result (λ r. length r.1.now ≤ length tokens.now) }
        ensures stop { IfErr result (λ e. StopsAt (Row (N.ExpsTail mode)) tokens.now e) }
    {
        let mut rest = tokens;
        'exps: while sees(rest, TokenKind::Comma) {
            let (_, after_comma) = expect(rest, TokenKind::Comma)?;
            let (next, after_next) = self.grammar.exp(after_comma, mode)?;
            list.push(next.into_inner())?;
            rest = after_next;
        }
        Ok((list, rest))
    }
}
