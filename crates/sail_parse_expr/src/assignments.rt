ghost use Rattle.std.specs.Prelude.{◌≡◌, [], ◌∷◌, ◌++◌, ◌<◌, ◌≤◌, ◌&&◌, length, IfOk, IfErr};
ghost use Rattle.sail_lex.specs.declared.kind.TokenKind.TheVariants as K;
ghost use Rattle.sail_grammar.specs.declared.mode.Mode.TheVariants.{Full, Limited};
ghost use Rattle.sail_grammar.specs.Symbol.{code};
ghost use Rattle.sail_grammar.specs.RowName as N;
ghost use Rattle.sail_grammar.specs.Form.{Row, Empty, Word, ◌or◌, ◌then◌, held};
ghost use Rattle.std.specs.Option.{is_some};
ghost use Rattle.sail_grammar.specs.Targets.{target};
ghost use Rattle.sail_grammar.specs.Table.{nothing, word, words, identifier, literals};
ghost use Rattle.sail_grammar.specs.Parsing.{Reading, StopsAt};
ghost use Rattle.sail_grammar.specs.ExpTrees as T;
ghost use Rattle.sail_parse_forms.specs.Parses.{Parses};
ghost use Rattle.sail_parse_expr.specs.Behind.{annotated_of, assigned_behind};

use crate::expressions::Rows;
use crate::leaves::FIRST_WORDS;
use crate::targets::{is_target, target_of};
use sail_base::{Boxed, Items, Place};
use sail_grammar::{Lexeme, Mode, Read, ReadError, accept, place, sees, sees_any};
use sail_lex::TokenKind;
use sail_parse_forms::Part;
use sail_parse_tp::typ;
use sail_syntax::{Exp, LExp, Target, build};
use std::alloc::Global;

impl<F: Fn(Global, &[Lexeme], Mode, Part) -> Read<'_, Boxed<Exp>>> Rows<F> {
    // An operand, perhaps annotated or assigned to.
    pub(crate) fn assignment<'a>(&self, tokens: &'a [Lexeme], mode: Mode) -> Read<'a, Boxed<Exp>>
        requires parses { Parses self.now.atoms.grammar.limit (F.pre self.now.atoms.grammar.part) (F.post self.now.atoms.grammar.part) }
        requires fewer { length tokens.now ≤ self.now.atoms.grammar.limit }
        ensures read { IfOk result (λ r. Reading (Row (N.Assignment mode)) T.assignment_of tokens.now r.0 r.1.now) }
        ensures shorter { IfOk result (λ r. length r.1.now < length tokens.now) }
        ensures stop { IfErr result (λ e. StopsAt (Row (N.Assignment mode)) tokens.now e) }
    {
        match mode {
            Mode::Full => self.assignment_form(tokens),
            Mode::Limited => self.plain_operand(tokens),
        }
    }

    // The same, where an assignment may stand.
    pub(crate) fn assignment_form<'a>(&self, tokens: &'a [Lexeme]) -> Read<'a, Boxed<Exp>>
        requires parses { Parses self.now.atoms.grammar.limit (F.pre self.now.atoms.grammar.part) (F.post self.now.atoms.grammar.part) }
        requires fewer { length tokens.now ≤ self.now.atoms.grammar.limit }
        ensures read { IfOk result (λ r. Reading (Row (N.Assignment Full)) T.assignment_of tokens.now r.0 r.1.now) }
        ensures shorter { IfOk result (λ r. length r.1.now < length tokens.now) }
        ensures stop { IfErr result (λ e. StopsAt (Row (N.Assignment Full)) tokens.now e) }
    {
        let begin = place(tokens);
        let (operand, after_operand) = self.operand_row(tokens, Mode::Full)?;
        match accept(after_operand, TokenKind::Equal) {
            None => annotated(self.alloc, begin, operand, after_operand),
            Some((_, after_equal)) => match target_of(self.alloc, operand)? {
                None => Err(ReadError::Unfit(after_operand.len())),
                Some(target) => self.assigned(begin, target, after_equal),
            },
        }
    }

    // The same, where an assignment is forbidden from its first token on.
    pub(crate) fn plain_operand<'a>(&self, tokens: &'a [Lexeme]) -> Read<'a, Boxed<Exp>>
        requires parses { Parses self.now.atoms.grammar.limit (F.pre self.now.atoms.grammar.part) (F.post self.now.atoms.grammar.part) }
        requires fewer { length tokens.now ≤ self.now.atoms.grammar.limit }
        ensures read { IfOk result (λ r. Reading (Row (N.Assignment Limited)) T.assignment_of tokens.now r.0 r.1.now) }
        ensures shorter { IfOk result (λ r. length r.1.now < length tokens.now) }
        ensures stop { IfErr result (λ e. StopsAt (Row (N.Assignment Limited)) tokens.now e) }
    {
        let begin = place(tokens);
        let (operand, after_operand) = self.operand_row(tokens, Mode::Limited)?;
        if is_assigned(operand.get(), after_operand) {
            Err(ReadError::Forbidden(after_operand.len(), tokens.len()))
        } else {
            annotated(self.alloc, begin, operand, after_operand)
        }
    }

    // What is assigned to a target: further targets, each behind the last one's `=`, and the value.
    pub(crate) fn assigned<'a>(
        &self,
        place: Place,
        target: Boxed<LExp>,
        tokens: &'a [Lexeme],
    ) -> Read<'a, Boxed<Exp>>
        requires parses { Parses self.now.atoms.grammar.limit (F.pre self.now.atoms.grammar.part) (F.post self.now.atoms.grammar.part) }
        requires fewer { length tokens.now < self.now.atoms.grammar.limit }
        ensures read { IfOk result (λ r. Reading (Row (N.Exp Full)) (assigned_behind place target []) tokens.now r.0 r.1.now) }
        ensures shorter { IfOk result (λ r. length r.1.now < length tokens.now) }
        ensures stop { IfErr result (λ e. StopsAt (Row (N.Exp Full)) tokens.now e) }
    {
        let mut more = Items::new(self.alloc);
        let mut rest = tokens;
        'targets: loop {
            if sees_any(rest, &FIRST_WORDS) {
                let (value, after_value) = self.atoms.grammar.exp(rest, Mode::Full)?;
                let made = build::assign(self.alloc, place, target, more, value)?;
                return Ok((made, after_value));
            }
            let begin = sail_grammar::place(rest);
            let (operand, after_operand) = self.atoms.grammar.infix(rest, Mode::Full)?;
            match accept(after_operand, TokenKind::Equal) {
                None => {
                    let (value, after_value) = annotated(
                        self.alloc,
                        begin,
                        operand,
                        after_operand,
                    )?;
                    let made = build::assign(self.alloc, place, target, more, value)?;
                    return Ok((made, after_value));
                }
                Some((_, after_equal)) => match target_of(self.alloc, operand)? {
                    None => return Err(ReadError::Unfit(after_operand.len())),
                    Some(to) => {
                        more.push(Target { place: begin, to })?;
                        rest = after_equal;
                    }
                },
            }
        }
    }
}

// Whether an expression is assigned to: it may be, and an `=` is behind it.
fn is_assigned(operand: &Exp, tokens: &[Lexeme]) -> bool
    ensures { result ≡ (is_some (target operand.now) && held tokens.now (code K.Equal ∷ [])) }
{
    is_target(operand) && sees(tokens, TokenKind::Equal)
}

// An operand, with the type behind its colon, if there is one.
pub(crate) fn annotated<'a>(
    alloc: Global,
    place: Place,
    operand: Boxed<Exp>,
    tokens: &'a [Lexeme],
) -> Read<'a, Boxed<Exp>>
    ensures read { IfOk result (λ r. Reading (word K.Colon then Row (N.Typ Limited) or nothing) (annotated_of place operand) tokens.now r.0 r.1.now) }
    ensures shorter { IfOk result (λ r. length r.1.now ≤ length tokens.now) }
    ensures stop { IfErr result (λ e. StopsAt (word K.Colon then Row (N.Typ Limited) or nothing) tokens.now e) }
{
    match accept(tokens, TokenKind::Colon) {
        Some((_, after_colon)) => {
            let (typ, rest) = typ(alloc, after_colon, Mode::Limited)?;
            let made = build::typed(alloc, place, operand, typ)?;
            Ok((made, rest))
        }
        None => Ok((operand, tokens)),
    }
}
