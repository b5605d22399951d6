ghost use Rattle.std.specs.Prelude.{◌≡◌, [], ◌∷◌, ◌++◌, ◌<◌, ◌≤◌, length, IfOk, IfErr};
ghost use Rattle.sail_lex.specs.declared.kind.TokenKind.TheVariants as K;
ghost use Rattle.sail_grammar.specs.declared.mode.Mode.TheVariants.{Full, Limited};
ghost use Rattle.sail_grammar.specs.Symbol.{code};
ghost use Rattle.sail_grammar.specs.RowName as N;
ghost use Rattle.sail_grammar.specs.Form.{Row, Empty, Word, ◌or◌, ◌then◌};
ghost use Rattle.sail_grammar.specs.Table.{nothing, word, words, identifier, literals};
ghost use Rattle.sail_grammar.specs.Parsing.{Reading, StopsAt};
ghost use Rattle.sail_grammar.specs.ExpTrees as T;
ghost use Rattle.sail_parse_forms.specs.Parses.{Parses};
ghost use Rattle.sail_parse_atoms.specs.Behind.{block_behind, statements_behind, values_behind, StopsHeld};

use crate::atoms::Atoms;
use crate::leaves::{BLOCK_ENDS, block_with_value, held};
use sail_base::{Boxed, Items, Place};
use sail_grammar::{
    Lexeme, Mode, Read, ReadError, accept, expect, expect_identifier, name, sees, sees_any,
    sees_identifier,
};
use sail_lex::TokenKind;
use sail_parse_forms::{Part, type_if};
use sail_parse_tp::pattern;
use sail_syntax::{Exp, FieldValue, Stmt, build};
use std::alloc::Global;

impl<F: Fn(Global, &[Lexeme], Mode, Part) -> Read<'_, Boxed<Exp>>> Atoms<F> {
    // A block, or a struct with some fields changed.
    pub(crate) fn block<'a>(&self, tokens: &'a [Lexeme], mode: Mode) -> Read<'a, Boxed<Exp>>
        requires parses { Parses self.now.grammar.limit (F.pre self.now.grammar.part) (F.post self.now.grammar.part) }
        requires fewer { length tokens.now ≤ self.now.grammar.limit }
        ensures read { IfOk result (λ r. Reading (Row (N.Block mode)) T.block_of tokens.now r.0 r.1.now) }
        ensures shorter { IfOk result (λ r. length r.1.now < length tokens.now) }
        ensures stop { IfErr result (λ e. StopsAt (Row (N.Block mode)) tokens.now e) }
    {
        match mode {
            Mode::Full => self.block_form(tokens),
            Mode::Limited => self.with_form(tokens),
        }
    }

    // The same, where all of it may stand.
    pub(crate) fn block_form<'a>(&self, tokens: &'a [Lexeme]) -> Read<'a, Boxed<Exp>>
        requires parses { Parses self.now.grammar.limit (F.pre self.now.grammar.part) (F.post self.now.grammar.part) }
        requires fewer { length tokens.now ≤ self.now.grammar.limit }
        ensures read { IfOk result (λ r. Reading (Row (N.Block Full)) T.block_of tokens.now r.0 r.1.now) }
        ensures shorter { IfOk result (λ r. length r.1.now < length tokens.now) }
        ensures stop { IfErr result (λ e. StopsAt (Row (N.Block Full)) tokens.now e) }
    {
        let (bracket, after_bracket) = expect(tokens, TokenKind::OpenBrace)?;
        match accept(after_bracket, TokenKind::CloseBrace) {
            Some((_, rest)) => {
                let made = build::block(
                    self.grammar.alloc,
                    bracket.place,
                    Items::new(self.grammar.alloc),
                    None,
                )?;
                Ok((made, rest))
            }
            None => self.body(bracket.place, after_bracket),
        }
    }

    // The statements of a block, or what is changed in a struct, and the closing brace.
    pub(crate) fn body<'a>(&self, place: Place, tokens: &'a [Lexeme]) -> Read<'a, Boxed<Exp>>
        requires parses { Parses self.now.grammar.limit (F.pre self.now.grammar.part) (F.post self.now.grammar.part) }
        requires fewer { length tokens.now < self.now.grammar.limit }
        ensures read { IfOk result (λ r. Reading (Row N.BlockBody) (T.body_of place) tokens.now r.0 r.1.now) }
        ensures shorter { IfOk result (λ r. length r.1.now < length tokens.now) }
        ensures stop { IfErr result (λ e. StopsAt (Row N.BlockBody) tokens.now e) }
    {
        let (first, after_first) = self.statement(tokens, Mode::Full)?;
        match accept(after_first, TokenKind::With) {
            None => self.body_more(place, first, after_first),
            Some((_, after_with)) => match evaluated(first) {
                None => Err(ReadError::Unfit(after_first.len())),
                Some(base) => {
                    let (values, after_values) = self.field_values(after_with, Mode::Full)?;
                    let (_, rest) = expect(after_values, TokenKind::CloseBrace)?;
                    let made = build::with_fields(self.grammar.alloc, place, base, values)?;
                    Ok((made, rest))
                }
            },
        }
    }

    // What is behind the first statement of a block.
    pub(crate) fn body_more<'a>(
        &self,
        place: Place,
        first: Stmt,
        tokens: &'a [Lexeme],
    ) -> Read<'a, Boxed<Exp>>
        requires parses { Parses self.now.grammar.limit (F.pre self.now.grammar.part) (F.post self.now.grammar.part) }
        requires fewer { length tokens.now ≤ self.now.grammar.limit }
        ensures read { IfOk result
            (λ r. Reading (word K.Semicolon then Row N.Statements or word K.CloseBrace) (block_behind place first) tokens.now r.0 r.1.now) }
        ensures shorter { IfOk result (λ r. length r.1.now < length tokens.now) }
        ensures stop { IfErr result (λ e. StopsAt (word K.Semicolon then Row N.Statements or word K.CloseBrace) tokens.now e) }
    {
        let mut list = Items::new(self.grammar.alloc);
        list.push(first)?;
        match accept(tokens, TokenKind::Semicolon) {
            Some((_, after_sign)) => self.statements(place, list, after_sign),
            None => {
                let (_, rest) = expect(tokens, TokenKind::CloseBrace)?;
                let made = block_with_value(self.grammar.alloc, place, list)?;
                Ok((made, rest))
            }
        }
    }

    // The block of some statements, behind the last of which a `;` stands.
    pub(crate) fn statements<'a>(
        &self,
        place: Place,
        mut list: Items<Stmt>,
        tokens: &'a [Lexeme],
    ) -> Read<'a, Boxed<Exp>>
        requires parses { Parses self.now.grammar.limit (F.pre self.now.grammar.part) (F.post self.now.grammar.part) }
        requires fewer { length tokens.now < self.now.grammar.limit }
        ensures read { IfOk result (λ r. Reading (Row N.Statements) (statements_behind place list) tokens.now r.0 r.1.now) }
        ensures shorter { IfOk result (λ r. length r.1.now < length tokens.now) }
        ensures stop { IfErr result (λ e. StopsAt (Row N.Statements) tokens.now e) }
    {
        let mut rest = tokens;
        'statements: loop {
            match accept(rest, TokenKind::CloseBrace) {
                Some((_, after_brace)) => {
                    let made = build::block(self.grammar.alloc, place, list, None)?;
                    return Ok((made, after_brace));
                }
                None => {
                    let (next, after_next) = self.statement(rest, Mode::Full)?;
                    list.push(next)?;
                    match accept(after_next, TokenKind::Semicolon) {
                        Some((_, after_sign)) => rest = after_sign,
                        None => {
                            let (_, after_brace) = expect(after_next, TokenKind::CloseBrace)?;
                            let made = block_with_value(self.grammar.alloc, place, list)?;
                            return Ok((made, after_brace));
                        }
                    }
                }
            }
        }
    }

    // One statement.
    pub(crate) fn statement<'a>(&self, tokens: &'a [Lexeme], mode: Mode) -> Read<'a, Stmt>
        requires parses { Parses self.now.grammar.limit (F.pre self.now.grammar.part) (F.post self.now.grammar.part) }
        requires fewer { length tokens.now < self.now.grammar.limit }
        ensures read { IfOk result (λ r. Reading (Row (N.Statement mode)) T.statement_of tokens.now r.0 r.1.now) }
        ensures shorter { IfOk result (λ r. length r.1.now < length tokens.now) }
        ensures stop { IfErr result (λ e. StopsAt (Row (N.Statement mode)) tokens.now e) }
    {
        if sees(tokens, TokenKind::Let) {
            self.let_statement(tokens, mode)
        } else if sees(tokens, TokenKind::Var) {
            self.var_statement(tokens, mode)
        } else {
            let (value, rest) = self.grammar.inner(tokens, mode)?;
            Ok((Stmt::Evaluate(value), rest))
        }
    }

    // `let`, with or without `in`.
    pub(crate) fn let_statement<'a>(&self, tokens: &'a [Lexeme], mode: Mode) -> Read<'a, Stmt>
        requires parses { Parses self.now.grammar.limit (F.pre self.now.grammar.part) (F.post self.now.grammar.part) }
        requires fewer { length tokens.now ≤ self.now.grammar.limit }
        ensures read { IfOk result (λ r. Reading (Row (N.LetStatement mode)) T.let_statement_of tokens.now r.0 r.1.now) }
        ensures shorter { IfOk result (λ r. length r.1.now < length tokens.now) }
        ensures stop { IfErr result (λ e. StopsAt (Row (N.LetStatement mode)) tokens.now e) }
    {
        let (word, after_word) = expect(tokens, TokenKind::Let)?;
        let (pattern, after_pattern) = pattern(self.grammar.alloc, after_word, Mode::Full)?;
        let (_, after_equal) = expect(after_pattern, TokenKind::Equal)?;
        let (bound, after_bound) = self.grammar.exp(after_equal, mode)?;
        match accept(after_bound, TokenKind::In) {
            Some((_, after_in)) => {
                let (body, rest) = self.grammar.exp(after_in, mode)?;
                let made = build::let_in(self.grammar.alloc, word.place, pattern, bound, body)?;
                Ok((Stmt::Evaluate(made), rest))
            }
            None => Ok((Stmt::Define(word.place, pattern, bound), after_bound)),
        }
    }

    // `var`, with or without `in`.
    pub(crate) fn var_statement<'a>(&self, tokens: &'a [Lexeme], mode: Mode) -> Read<'a, Stmt>
        requires parses { Parses self.now.grammar.limit (F.pre self.now.grammar.part) (F.post self.now.grammar.part) }
        requires fewer { length tokens.now ≤ self.now.grammar.limit }
        ensures read { IfOk result (λ r. Reading (Row (N.VarStatement mode)) T.var_statement_of tokens.now r.0 r.1.now) }
        ensures shorter { IfOk result (λ r. length r.1.now < length tokens.now) }
        ensures stop { IfErr result (λ e. StopsAt (Row (N.VarStatement mode)) tokens.now e) }
    {
        let (word, after_word) = expect(tokens, TokenKind::Var)?;
        let (token, after_name) = expect_identifier(after_word)?;
        let (typ, after_typ) = type_if(self.grammar.alloc, after_name)?;
        let (_, after_equal) = expect(after_typ, TokenKind::Equal)?;
        let (initial, after_initial) = self.grammar.exp(after_equal, mode)?;
        let name = name(token)?;
        match accept(after_initial, TokenKind::In) {
            Some((_, after_in)) => {
                let (body, rest) = self.grammar.exp(after_in, mode)?;
                let made = build::var_in(self.grammar.alloc, word.place, name, typ, initial, body)?;
                Ok((Stmt::Evaluate(made), rest))
            }
            None => Ok((
                Stmt::Declare {
                    place: word.place,
                    name,
                    typ,
                    initial,
                },
                after_initial,
            )),
        }
    }

    // `{ e with .. }`, the one form in braces that is plain.
    pub(crate) fn with_form<'a>(&self, tokens: &'a [Lexeme]) -> Read<'a, Boxed<Exp>>
        requires parses { Parses self.now.grammar.limit (F.pre self.now.grammar.part) (F.post self.now.grammar.part) }
        requires fewer { length tokens.now ≤ self.now.grammar.limit }
        ensures read { IfOk result (λ r. Reading (Row (N.Block Limited)) T.block_of tokens.now r.0 r.1.now) }
        ensures shorter { IfOk result (λ r. length r.1.now < length tokens.now) }
        ensures stop { IfErr result (λ e. StopsAt (Row (N.Block Limited)) tokens.now e) }
    {
        let (bracket, after_bracket) = expect(tokens, TokenKind::OpenBrace)?;
        if sees(after_bracket, TokenKind::CloseBrace) {
            return Err(ReadError::Forbidden(after_bracket.len(), tokens.len()));
        }
        let (first, after_first) = self.held_statement(after_bracket, tokens.len())?;
        if sees_any(after_first, &BLOCK_ENDS) {
            return Err(ReadError::Forbidden(after_first.len(), tokens.len()));
        }
        match evaluated(first) {
            None => Err(ReadError::Unfit(after_first.len())),
            Some(base) => {
                let (_, after_with) = expect(after_first, TokenKind::With)?;
                let (values, after_values) = self.field_values(after_with, Mode::Limited)?;
                let (_, rest) = expect(after_values, TokenKind::CloseBrace)?;
                let made = build::with_fields(self.grammar.alloc, bracket.place, base, values)?;
                Ok((made, rest))
            }
        }
    }

    // The statement of a form that is held and begins where so many tokens are left.
    pub(crate) fn held_statement<'a>(&self, tokens: &'a [Lexeme], from: usize) -> Read<'a, Stmt>
        requires parses { Parses self.now.grammar.limit (F.pre self.now.grammar.part) (F.post self.now.grammar.part) }
        requires fewer { length tokens.now < self.now.grammar.limit }
        ensures read { IfOk result (λ r. Reading (Row (N.Statement Limited)) T.statement_of tokens.now r.0 r.1.now) }
        ensures shorter { IfOk result (λ r. length r.1.now < length tokens.now) }
        ensures stop { IfErr result (λ e. StopsHeld (Row (N.Statement Limited)) tokens.now from e) }
    {
        match self.statement(tokens, Mode::Limited) {
            Ok(read) => Ok(read),
            Err(error) => Err(held(error, from)),
        }
    }

    // Fields and their values, with commas between and perhaps a last one.
    pub(crate) fn field_values<'a>(
        &self,
        tokens: &'a [Lexeme],
        mode: Mode,
    ) -> Read<'a, Items<FieldValue>>
        requires parses { Parses self.now.grammar.limit (F.pre self.now.grammar.part) (F.post self.now.grammar.part) }
        requires fewer { length tokens.now ≤ self.now.grammar.limit }
        ensures read { IfOk result (λ r. Reading (Row (N.FieldValues mode)) T.values_of tokens.now r.0 r.1.now) }
        ensures shorter { IfOk result (λ r. length r.1.now < length tokens.now) }
        ensures stop { IfErr result (λ e. StopsAt (Row (N.FieldValues mode)) tokens.now e) }
    {
        let (first, after_first) = self.field_value(tokens, mode)?;
        let mut list = Items::new(self.grammar.alloc);
        list.push(first)?;
        self.field_values_tail(list, after_first, mode)
    }

    // Fields behind others.
    pub(crate) fn field_values_tail<'a>(
        &self,
        mut list: Items<FieldValue>,
        tokens: &'a [Lexeme],
        mode: Mode,
    ) -> Read<'a, Items<FieldValue>>
        requires parses { Parses self.now.grammar.limit (F.pre self.now.grammar.part) (F.post self.now.grammar.part) }
        requires fewer { length tokens.now ≤ self.now.grammar.limit }
        ensures read { IfOk result (λ r. Reading (Row (N.FieldValuesTail mode)) (values_behind list) tokens.now r.0 r.1.now) }
        ensures shorter { IfOk result (λ r. length r.1.now ≤ length tokens.now) }
        ensures stop { IfErr result (λ e. StopsAt (Row (N.FieldValuesTail mode)) tokens.now e) }
    {
        let mut rest = tokens;
        'values: while sees(rest, TokenKind::Comma) {
            let (_, after_comma) = expect(rest, TokenKind::Comma)?;
            if sees_identifier(after_comma) {
                let (next, after_next) = self.field_value(after_comma, mode)?;
                list.push(next)?;
                rest = after_next;
            } else {
                return Ok((list, after_comma));
            }
        }
        Ok((list, rest))
    }

    // One field and its value.
    pub(crate) fn field_value<'a>(&self, tokens: &'a [Lexeme], mode: Mode) -> Read<'a, FieldValue>
        requires parses { Parses self.now.grammar.limit (F.pre self.now.grammar.part) (F.post self.now.grammar.part) }
        requires fewer { length tokens.now ≤ self.now.grammar.limit }
        ensures read { IfOk result (λ r. Reading (Row (N.FieldValue mode)) T.value_of tokens.now r.0 r.1.now) }
        ensures shorter { IfOk result (λ r. length r.1.now < length tokens.now) }
        ensures stop { IfErr result (λ e. StopsAt (Row (N.FieldValue mode)) tokens.now e) }
    {
        let (token, after_name) = expect_identifier(tokens)?;
        let (_, after_equal) = expect(after_name, TokenKind::Equal)?;
        let (value, rest) = self.grammar.exp(after_equal, mode)?;
        let name = name(token)?;
        Ok((FieldValue { name, value }, rest))
    }
}

// The expression that a statement is, where it is one.
fn evaluated(statement: Stmt) -> Option<Boxed<Exp>>
    ensures { result ≡ T.value_if statement }
{
    match statement {
        Stmt::Evaluate(value) => Some(value),
        _ => None,
    }
}
