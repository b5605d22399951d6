ghost use Rattle.std.specs.Prelude.{◌≡◌, [], ◌∷◌, ◌++◌, ◌<◌, ◌≤◌, length, IfOk, IfErr};
ghost use Rattle.sail_lex.specs.declared.kind.TokenKind.TheVariants as K;
ghost use Rattle.sail_grammar.specs.declared.mode.Mode.TheVariants.{Full, Limited};
ghost use Rattle.sail_grammar.specs.Symbol.{code};
ghost use Rattle.sail_grammar.specs.RowName as N;
ghost use Rattle.sail_grammar.specs.Form.{Row, Empty, Word, ◌or◌, ◌then◌};
ghost use Rattle.sail_grammar.specs.Table.{nothing, word, words, identifier, literals};
ghost use Rattle.sail_grammar.specs.Parsing.{Reading, StopsAt};
ghost use Rattle.sail_grammar.specs.ExpTrees as T;
ghost use Rattle.sail_parse_forms.specs.Parses.{Parses};
ghost use Rattle.sail_parse_forms.specs.Behind.{cases_behind};

use crate::grammar::{Grammar, Part};
use crate::parts::type_if;
use sail_base::{Boxed, Items};
use sail_grammar::{Lexeme, Mode, Read, accept, expect, expect_identifier, name, sees};
use sail_lex::TokenKind;
use sail_parse_tp::pattern;
use sail_syntax::{Case, Choosing, Exp, build};
use std::alloc::Global;

impl<F: Fn(Global, &[Lexeme], Mode, Part) -> Read<'_, Boxed<Exp>>> Grammar<F> {
    /// `let .. in`.
    pub fn let_in<'a>(&self, tokens: &'a [Lexeme], mode: Mode) -> Read<'a, Boxed<Exp>>
        requires parses { Parses self.now.limit (F.pre self.now.part) (F.post self.now.part) }
        requires fewer { length tokens.now ≤ self.now.limit }
        ensures read { IfOk result (λ r. Reading (Row (N.LetIn mode)) T.let_of tokens.now r.0 r.1.now) }
        ensures shorter { IfOk result (λ r. length r.1.now < length tokens.now) }
        ensures stop { IfErr result (λ e. StopsAt (Row (N.LetIn mode)) tokens.now e) }
    {
        let (word, after_word) = expect(tokens, TokenKind::Let)?;
        let (pattern, after_pattern) = pattern(self.alloc, after_word, Mode::Full)?;
        let (_, after_equal) = expect(after_pattern, TokenKind::Equal)?;
        let (bound, after_bound) = self.exp(after_equal, mode)?;
        let (_, after_in) = expect(after_bound, TokenKind::In)?;
        let (body, rest) = self.exp(after_in, mode)?;
        let made = build::let_in(self.alloc, word.place, pattern, bound, body)?;
        Ok((made, rest))
    }

    /// `var .. in`.
    pub fn var_in<'a>(&self, tokens: &'a [Lexeme], mode: Mode) -> Read<'a, Boxed<Exp>>
        requires parses { Parses self.now.limit (F.pre self.now.part) (F.post self.now.part) }
        requires fewer { length tokens.now ≤ self.now.limit }
        ensures read { IfOk result (λ r. Reading (Row (N.VarIn mode)) T.var_of tokens.now r.0 r.1.now) }
        ensures shorter { IfOk result (λ r. length r.1.now < length tokens.now) }
        ensures stop { IfErr result (λ e. StopsAt (Row (N.VarIn mode)) tokens.now e) }
    {
        let (word, after_word) = expect(tokens, TokenKind::Var)?;
        let (token, after_name) = expect_identifier(after_word)?;
        let (typ, after_typ) = type_if(self.alloc, after_name)?;
        let (_, after_equal) = expect(after_typ, TokenKind::Equal)?;
        let (initial, after_initial) = self.exp(after_equal, mode)?;
        let (_, after_in) = expect(after_initial, TokenKind::In)?;
        let (body, rest) = self.exp(after_in, mode)?;
        let name = name(token)?;
        let made = build::var_in(self.alloc, word.place, name, typ, initial, body)?;
        Ok((made, rest))
    }

    /// `if`, with or without an `else`.
    pub fn if_exp<'a>(&self, tokens: &'a [Lexeme], mode: Mode) -> Read<'a, Boxed<Exp>>
        requires parses { Parses self.now.limit (F.pre self.now.part) (F.post self.now.part) }
        requires fewer { length tokens.now ≤ self.now.limit }
        ensures read { IfOk result (λ r. Reading (Row (N.If mode)) T.if_of tokens.now r.0 r.1.now) }
        ensures shorter { IfOk result (λ r. length r.1.now < length tokens.now) }
        ensures stop { IfErr result (λ e. StopsAt (Row (N.If mode)) tokens.now e) }
    {
        let (word, after_word) = expect(tokens, TokenKind::If)?;
        let (condition, after_condition) = self.exp(after_word, mode)?;
        let (_, after_then) = expect(after_condition, TokenKind::Then)?;
        let (first, after_first) = self.exp(after_then, mode)?;
        let (other, rest) = self.otherwise(after_first, mode)?;
        let made = build::branch(self.alloc, word.place, condition, first, other)?;
        Ok((made, rest))
    }

    // An `else` and what is behind it, if it is there.
    pub(crate) fn otherwise<'a>(
        &self,
        tokens: &'a [Lexeme],
        mode: Mode,
    ) -> Read<'a, Option<Boxed<Exp>>>
        requires parses { Parses self.now.limit (F.pre self.now.part) (F.post self.now.part) }
        requires fewer { length tokens.now ≤ self.now.limit }
        ensures read { IfOk result (λ r. Reading (word K.Else then Row (N.Exp mode) or Empty (code K.Else ∷ [])) T.behind_word tokens.now r.0 r.1.now) }
        ensures shorter { IfOk result (λ r. length r.1.now ≤ length tokens.now) }
        ensures stop { IfErr result (λ e. StopsAt (word K.Else then Row (N.Exp mode) or Empty (code K.Else ∷ [])) tokens.now e) }
    {
        match accept(tokens, TokenKind::Else) {
            Some((_, after_word)) => {
                let (other, rest) = self.exp(after_word, mode)?;
                Ok((Some(other), rest))
            }
            None => Ok((None, tokens)),
        }
    }

    /// `match`.
    pub fn match_exp<'a>(&self, tokens: &'a [Lexeme], mode: Mode) -> Read<'a, Boxed<Exp>>
        requires parses { Parses self.now.limit (F.pre self.now.part) (F.post self.now.part) }
        requires fewer { length tokens.now ≤ self.now.limit }
        ensures read { IfOk result (λ r. Reading (Row (N.Match mode)) T.match_of tokens.now r.0 r.1.now) }
        ensures shorter { IfOk result (λ r. length r.1.now < length tokens.now) }
        ensures stop { IfErr result (λ e. StopsAt (Row (N.Match mode)) tokens.now e) }
    {
        let (word, after_word) = expect(tokens, TokenKind::Match)?;
        let (value, after_value) = self.exp(after_word, mode)?;
        let (cases, rest) = self.cases(after_value, mode)?;
        let made = build::choose(self.alloc, word.place, Choosing::Match, value, cases)?;
        Ok((made, rest))
    }

    // Cases in braces.
    pub(crate) fn cases<'a>(&self, tokens: &'a [Lexeme], mode: Mode) -> Read<'a, Items<Case>>
        requires parses { Parses self.now.limit (F.pre self.now.part) (F.post self.now.part) }
        requires fewer { length tokens.now ≤ self.now.limit }
        ensures read { IfOk result (λ r. Reading (Row (N.Cases mode)) T.cases_of tokens.now r.0 r.1.now) }
        ensures shorter { IfOk result (λ r. length r.1.now < length tokens.now) }
        ensures stop { IfErr result (λ e. StopsAt (Row (N.Cases mode)) tokens.now e) }
    {
        let (_, after_bracket) = expect(tokens, TokenKind::OpenBrace)?;
        let (first, after_first) = self.case(after_bracket, mode)?;
        let mut list = Items::new(self.alloc);
        list.push(first)?;
        self.cases_tail(list, after_first, mode)
    }

    // Cases behind others, each behind a comma, perhaps a last comma, and the closing brace.
    pub(crate) fn cases_tail<'a>(
        &self,
        mut list: Items<Case>,
        tokens: &'a [Lexeme],
        mode: Mode,
    ) -> Read<'a, Items<Case>>
        requires parses { Parses self.now.limit (F.pre self.now.part) (F.post self.now.part) }
        requires fewer { length tokens.now ≤ self.now.limit }
        ensures read { IfOk result (λ r. Reading (Row (N.CasesTail mode)) (cases_behind list) tokens.now r.0 r.1.now) }
        ensures shorter { IfOk result (λ r. length r.1.now < length tokens.now) }
        ensures stop { IfErr result (λ e. StopsAt (Row (N.CasesTail mode)) tokens.now e) }
    {
        let mut rest = tokens;
        'cases: while sees(rest, TokenKind::Comma) {
            let (_, after_comma) = expect(rest, TokenKind::Comma)?;
            match accept(after_comma, TokenKind::CloseBrace) {
                Some((_, after_brace)) => return Ok((list, after_brace)),
                None => {
                    let (next, after_next) = self.case(after_comma, mode)?;
                    list.push(next)?;
                    rest = after_next;
                }
            }
        }
        let (_, after_brace) = expect(rest, TokenKind::CloseBrace)?;
        Ok((list, after_brace))
    }

    // One case: a pattern, perhaps a guard, and the body.
    pub(crate) fn case<'a>(&self, tokens: &'a [Lexeme], mode: Mode) -> Read<'a, Case>
        requires parses { Parses self.now.limit (F.pre self.now.part) (F.post self.now.part) }
        requires fewer { length tokens.now ≤ self.now.limit }
        ensures read { IfOk result (λ r. Reading (Row (N.Case mode)) T.case_of tokens.now r.0 r.1.now) }
        ensures shorter { IfOk result (λ r. length r.1.now < length tokens.now) }
        ensures stop { IfErr result (λ e. StopsAt (Row (N.Case mode)) tokens.now e) }
    {
        let (pattern, after_pattern) = pattern(self.alloc, tokens, Mode::Full)?;
        let (guard, after_guard) = self.guard(after_pattern, mode)?;
        let (_, after_arrow) = expect(after_guard, TokenKind::FatArrow)?;
        let (body, rest) = self.exp(after_arrow, mode)?;
        Ok((
            Case {
                pattern,
                guard,
                body,
            },
            rest,
        ))
    }

    // A guard, if there is one.
    pub(crate) fn guard<'a>(&self, tokens: &'a [Lexeme], mode: Mode) -> Read<'a, Option<Boxed<Exp>>>
        requires parses { Parses self.now.limit (F.pre self.now.part) (F.post self.now.part) }
        requires fewer { length tokens.now ≤ self.now.limit }
        ensures read { IfOk result (λ r. Reading (word K.If then Row (N.Exp mode) or nothing) T.behind_word tokens.now r.0 r.1.now) }
        ensures shorter { IfOk result (λ r. length r.1.now ≤ length tokens.now) }
        ensures stop { IfErr result (λ e. StopsAt (word K.If then Row (N.Exp mode) or nothing) tokens.now e) }
    {
        match accept(tokens, TokenKind::If) {
            Some((_, after_word)) => {
                let (condition, rest) = self.exp(after_word, mode)?;
                Ok((Some(condition), rest))
            }
            None => Ok((None, tokens)),
        }
    }
}
