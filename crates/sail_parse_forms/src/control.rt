ghost use Rattle.std.specs.Prelude.{◌≡◌, [], ◌∷◌, ◌++◌, ◌<◌, ◌≤◌, length, IfOk, IfErr};
ghost use Rattle.sail_lex.specs.declared.kind.TokenKind.TheVariants as K;
ghost use Rattle.sail_grammar.specs.declared.mode.Mode.TheVariants.{Full, Limited};
ghost use Rattle.sail_grammar.specs.Symbol.{code};
ghost use Rattle.sail_grammar.specs.RowName as N;
ghost use Rattle.sail_grammar.specs.Form.{Row, Empty, Word, ◌or◌, ◌then◌};
ghost use Rattle.sail_grammar.specs.Table.{nothing, word, words, identifier, literals};
ghost use Rattle.sail_grammar.specs.Parsing.{Reading, StopsAt};
ghost use Rattle.sail_grammar.specs.ExpTrees as T;
ghost use Rattle.sail_parse_forms.specs.Parses.{Parses};

use crate::grammar::{Grammar, Part};
use crate::leaves::{CONTROL_WORDS, DIRECTIONS, LEAVING_WORDS, direction_of, leaving_of};
use sail_base::Boxed;
use sail_grammar::{
    Lexeme, Mode, Read, ReadError, accept, expect, expect_any, expect_identifier, name, sees,
    sees_any,
};
use sail_lex::TokenKind;
use sail_syntax::{Choosing, Direction, Exp, Looping, Range, build};
use std::alloc::Global;

impl<F: Fn(Global, &[Lexeme], Mode, Part) -> Read<'_, Boxed<Exp>>> Grammar<F> {
    /// A form that isn't plain and begins with a word.
    pub fn control<'a>(&self, tokens: &'a [Lexeme], mode: Mode) -> Read<'a, Boxed<Exp>>
        requires parses { Parses self.now.limit (F.pre self.now.part) (F.post self.now.part) }
        requires fewer { length tokens.now ≤ self.now.limit }
        ensures read { IfOk result (λ r. Reading (Row (N.Control mode)) T.control_of tokens.now r.0 r.1.now) }
        ensures shorter { IfOk result (λ r. length r.1.now < length tokens.now) }
        ensures stop { IfErr result (λ e. StopsAt (Row (N.Control mode)) tokens.now e) }
    {
        match mode {
            Mode::Full => self.control_form(tokens),
            Mode::Limited => {
                if sees_any(tokens, &CONTROL_WORDS) {
                    Err(ReadError::Forbidden(tokens.len(), tokens.len()))
                } else {
                    Err(ReadError::Unfit(tokens.len()))
                }
            }
        }
    }

    // A `try`, a loop, or what leaves a function.
    pub(crate) fn control_form<'a>(&self, tokens: &'a [Lexeme]) -> Read<'a, Boxed<Exp>>
        requires parses { Parses self.now.limit (F.pre self.now.part) (F.post self.now.part) }
        requires fewer { length tokens.now ≤ self.now.limit }
        ensures read { IfOk result (λ r. Reading (Row (N.Control Full)) T.control_of tokens.now r.0 r.1.now) }
        ensures shorter { IfOk result (λ r. length r.1.now < length tokens.now) }
        ensures stop { IfErr result (λ e. StopsAt (Row (N.Control Full)) tokens.now e) }
    {
        if sees(tokens, TokenKind::Try) {
            self.try_exp(tokens)
        } else if sees(tokens, TokenKind::Foreach) {
            self.foreach(tokens)
        } else if sees(tokens, TokenKind::While) {
            self.while_loop(tokens)
        } else if sees(tokens, TokenKind::Repeat) {
            self.repeat_loop(tokens)
        } else {
            self.leave(tokens)
        }
    }

    // `try`.
    pub(crate) fn try_exp<'a>(&self, tokens: &'a [Lexeme]) -> Read<'a, Boxed<Exp>>
        requires parses { Parses self.now.limit (F.pre self.now.part) (F.post self.now.part) }
        requires fewer { length tokens.now ≤ self.now.limit }
        ensures read { IfOk result (λ r. Reading (Row N.Try) T.try_of tokens.now r.0 r.1.now) }
        ensures shorter { IfOk result (λ r. length r.1.now < length tokens.now) }
        ensures stop { IfErr result (λ e. StopsAt (Row N.Try) tokens.now e) }
    {
        let (word, after_word) = expect(tokens, TokenKind::Try)?;
        let (value, after_value) = self.exp(after_word, Mode::Full)?;
        let (_, after_catch) = expect(after_value, TokenKind::Catch)?;
        let (cases, rest) = self.cases(after_catch, Mode::Full)?;
        let made = build::choose(self.alloc, word.place, Choosing::Try, value, cases)?;
        Ok((made, rest))
    }

    // `foreach`.
    pub(crate) fn foreach<'a>(&self, tokens: &'a [Lexeme]) -> Read<'a, Boxed<Exp>>
        requires parses { Parses self.now.limit (F.pre self.now.part) (F.post self.now.part) }
        requires fewer { length tokens.now ≤ self.now.limit }
        ensures read { IfOk result (λ r. Reading (Row N.Foreach) T.foreach_of tokens.now r.0 r.1.now) }
        ensures shorter { IfOk result (λ r. length r.1.now < length tokens.now) }
        ensures stop { IfErr result (λ e. StopsAt (Row N.Foreach) tokens.now e) }
    {
        let (word, after_word) = expect(tokens, TokenKind::Foreach)?;
        let (_, after_bracket) = expect(after_word, TokenKind::OpenParenthesis)?;
        let (token, after_name) = expect_identifier(after_bracket)?;
        let (_, after_from) = expect(after_name, TokenKind::From)?;
        let (from, after_start) = self.exp(after_from, Mode::Full)?;
        let (_, after_to) = expect(after_start, TokenKind::To)?;
        let (to, after_end) = self.exp(after_to, Mode::Full)?;
        let (by, after_by) = self.step_by(after_end)?;
        let (direction, after_direction) = direction(after_by)?;
        let (_, after_close) = expect(after_direction, TokenKind::CloseParenthesis)?;
        let (body, rest) = self.exp(after_close, Mode::Full)?;
        let name = name(token)?;
        let range = Boxed::new(
            self.alloc,
            Range {
                from,
                to,
                by,
                direction,
            },
        )?;
        let made = build::foreach(self.alloc, word.place, name, range, body)?;
        Ok((made, rest))
    }

    // A step of a `foreach`, if it is written.
    pub(crate) fn step_by<'a>(&self, tokens: &'a [Lexeme]) -> Read<'a, Option<Boxed<Exp>>>
        requires parses { Parses self.now.limit (F.pre self.now.part) (F.post self.now.part) }
        requires fewer { length tokens.now ≤ self.now.limit }
        ensures read { IfOk result (λ r. Reading (word K.By then Row (N.Exp Full) or nothing) T.behind_word tokens.now r.0 r.1.now) }
        ensures shorter { IfOk result (λ r. length r.1.now ≤ length tokens.now) }
        ensures stop { IfErr result (λ e. StopsAt (word K.By then Row (N.Exp Full) or nothing) tokens.now e) }
    {
        match accept(tokens, TokenKind::By) {
            Some((_, after_word)) => {
                let (step, rest) = self.exp(after_word, Mode::Full)?;
                Ok((Some(step), rest))
            }
            None => Ok((None, tokens)),
        }
    }

    // `while`.
    pub(crate) fn while_loop<'a>(&self, tokens: &'a [Lexeme]) -> Read<'a, Boxed<Exp>>
        requires parses { Parses self.now.limit (F.pre self.now.part) (F.post self.now.part) }
        requires fewer { length tokens.now ≤ self.now.limit }
        ensures read { IfOk result (λ r. Reading (Row N.While) T.while_of tokens.now r.0 r.1.now) }
        ensures shorter { IfOk result (λ r. length r.1.now < length tokens.now) }
        ensures stop { IfErr result (λ e. StopsAt (Row N.While) tokens.now e) }
    {
        let (word, after_word) = expect(tokens, TokenKind::While)?;
        let (measure, after_measure) = self.loop_measure(after_word)?;
        let (condition, after_condition) = self.exp(after_measure, Mode::Full)?;
        let (_, after_do) = expect(after_condition, TokenKind::Do)?;
        let (body, rest) = self.exp(after_do, Mode::Full)?;
        let made = build::loop_on(
            self.alloc,
            word.place,
            Looping::While,
            measure,
            condition,
            body,
        )?;
        Ok((made, rest))
    }

    // `repeat`.
    pub(crate) fn repeat_loop<'a>(&self, tokens: &'a [Lexeme]) -> Read<'a, Boxed<Exp>>
        requires parses { Parses self.now.limit (F.pre self.now.part) (F.post self.now.part) }
        requires fewer { length tokens.now ≤ self.now.limit }
        ensures read { IfOk result (λ r. Reading (Row N.Repeat) T.repeat_of tokens.now r.0 r.1.now) }
        ensures shorter { IfOk result (λ r. length r.1.now < length tokens.now) }
        ensures stop { IfErr result (λ e. StopsAt (Row N.Repeat) tokens.now e) }
    {
        let (word, after_word) = expect(tokens, TokenKind::Repeat)?;
        let (measure, after_measure) = self.loop_measure(after_word)?;
        let (body, after_body) = self.exp(after_measure, Mode::Full)?;
        let (_, after_until) = expect(after_body, TokenKind::Until)?;
        let (condition, rest) = self.exp(after_until, Mode::Full)?;
        let made = build::loop_on(
            self.alloc,
            word.place,
            Looping::Repeat,
            measure,
            condition,
            body,
        )?;
        Ok((made, rest))
    }

    // The measure of a loop, if it is written.
    pub(crate) fn loop_measure<'a>(&self, tokens: &'a [Lexeme]) -> Read<'a, Option<Boxed<Exp>>>
        requires parses { Parses self.now.limit (F.pre self.now.part) (F.post self.now.part) }
        requires fewer { length tokens.now ≤ self.now.limit }
        ensures read { IfOk result (λ r. Reading (Row N.LoopMeasure) T.measure_of tokens.now r.0 r.1.now) }
        ensures shorter { IfOk result (λ r. length r.1.now ≤ length tokens.now) }
        ensures stop { IfErr result (λ e. StopsAt (Row N.LoopMeasure) tokens.now e) }
    {
        match accept(tokens, TokenKind::TerminationMeasure) {
            Some((_, after_word)) => {
                let (_, after_bracket) = expect(after_word, TokenKind::OpenBrace)?;
                let (measure, after_value) = self.exp(after_bracket, Mode::Limited)?;
                let (_, rest) = expect(after_value, TokenKind::CloseBrace)?;
                Ok((Some(measure), rest))
            }
            None => Ok((None, tokens)),
        }
    }

    // `return`, `throw` or `exit`.
    pub(crate) fn leave<'a>(&self, tokens: &'a [Lexeme]) -> Read<'a, Boxed<Exp>>
        requires parses { Parses self.now.limit (F.pre self.now.part) (F.post self.now.part) }
        requires fewer { length tokens.now ≤ self.now.limit }
        ensures read { IfOk result (λ r. Reading (Row N.Leave) T.leave_of tokens.now r.0 r.1.now) }
        ensures shorter { IfOk result (λ r. length r.1.now < length tokens.now) }
        ensures stop { IfErr result (λ e. StopsAt (Row N.Leave) tokens.now e) }
    {
        let (word, after_word) = expect_any(tokens, &LEAVING_WORDS)?;
        let (value, rest) = self.exp(after_word, Mode::Full)?;
        let leaving = leaving_of(word.kind);
        let made = build::leave(self.alloc, word.place, leaving, value)?;
        Ok((made, rest))
    }
}

// A direction of a `foreach`; up where none is written.
pub(crate) fn direction<'a>(tokens: &'a [Lexeme]) -> Read<'a, Direction>
    ensures read { IfOk result (λ r. Reading (word K.In then words (K.Inc ∷ K.Dec ∷ []) or nothing) T.direction_at tokens.now r.0 r.1.now) }
    ensures shorter { IfOk result (λ r. length r.1.now ≤ length tokens.now) }
    ensures stop { IfErr result (λ e. StopsAt (word K.In then words (K.Inc ∷ K.Dec ∷ []) or nothing) tokens.now e) }
{
    match accept(tokens, TokenKind::In) {
        Some((_, after_word)) => {
            let (way, rest) = expect_any(after_word, &DIRECTIONS)?;
            Ok((direction_of(way.kind), rest))
        }
        None => Ok((Direction::Up, tokens)),
    }
}
