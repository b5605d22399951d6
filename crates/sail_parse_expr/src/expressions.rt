ghost use Rattle.std.specs.Prelude.{◌≡◌, ◌<◌, ◌≤◌, length, IfOk, IfErr};
ghost use Rattle.sail_grammar.specs.RowName as N;
ghost use Rattle.sail_grammar.specs.Form.{Row};
ghost use Rattle.sail_grammar.specs.Parsing.{Reading, StopsAt};
ghost use Rattle.sail_grammar.specs.ExpTrees as T;
ghost use Rattle.sail_parse_forms.specs.declared.grammar.Part.TheVariants.{Whole, Inner, Operand, And, Append, Power, Unary};
ghost use Rattle.sail_parse_forms.specs.Parses.{Parses, row_of, tree_of};

use sail_base::Boxed;
use sail_grammar::{Lexeme, Mode, Read, sees, sees_any};
use sail_lex::TokenKind;
use sail_parse_atoms::Atoms;
use sail_parse_forms::{CONTROL_WORDS, Grammar, Part};
use sail_syntax::Exp;
use std::alloc::Global;

// What the functions of operators, assignments and whole expressions are given.
#[derive(Clone, Copy)]
pub(crate) struct Rows<F> {
    pub(crate) alloc: Global,
    // What reads operands without suffixes, and expressions of fewer tokens.
    pub(crate) atoms: Atoms<F>,
}

impl<F: Fn(Global, &[Lexeme], Mode, Part) -> Read<'_, Boxed<Exp>>> Rows<F> {
    // An expression, which is plain where the mode is limited.
    pub(crate) fn whole_row<'a>(&self, tokens: &'a [Lexeme], mode: Mode) -> Read<'a, Boxed<Exp>>
        requires parses { Parses self.now.atoms.grammar.limit (F.pre self.now.atoms.grammar.part) (F.post self.now.atoms.grammar.part) }
        requires fewer { length tokens.now ≤ self.now.atoms.grammar.limit }
        ensures read { IfOk result (λ r. Reading (Row (N.Exp mode)) T.exp_of tokens.now r.0 r.1.now) }
        ensures shorter { IfOk result (λ r. length r.1.now < length tokens.now) }
        ensures stop { IfErr result (λ e. StopsAt (Row (N.Exp mode)) tokens.now e) }
    {
        if sees(tokens, TokenKind::Let) {
            self.atoms.grammar.let_in(tokens, mode)
        } else if sees(tokens, TokenKind::Var) {
            self.atoms.grammar.var_in(tokens, mode)
        } else {
            self.inner_row(tokens, mode)
        }
    }

    // An expression that begins with neither `let` nor `var`.
    pub(crate) fn inner_row<'a>(&self, tokens: &'a [Lexeme], mode: Mode) -> Read<'a, Boxed<Exp>>
        requires parses { Parses self.now.atoms.grammar.limit (F.pre self.now.atoms.grammar.part) (F.post self.now.atoms.grammar.part) }
        requires fewer { length tokens.now ≤ self.now.atoms.grammar.limit }
        ensures read { IfOk result (λ r. Reading (Row (N.ExpInner mode)) T.inner_of tokens.now r.0 r.1.now) }
        ensures shorter { IfOk result (λ r. length r.1.now < length tokens.now) }
        ensures stop { IfErr result (λ e. StopsAt (Row (N.ExpInner mode)) tokens.now e) }
    {
        if sees(tokens, TokenKind::If) {
            self.atoms.grammar.if_exp(tokens, mode)
        } else if sees(tokens, TokenKind::Match) {
            self.atoms.grammar.match_exp(tokens, mode)
        } else if sees_any(tokens, &CONTROL_WORDS) {
            self.atoms.grammar.control(tokens, mode)
        } else {
            self.assignment(tokens, mode)
        }
    }
}

/// An expression, which is plain where the mode is limited.
pub fn exp<'a>(alloc: Global, tokens: &'a [Lexeme], mode: Mode) -> Read<'a, Boxed<Exp>>
    ensures read { IfOk result (λ r. Reading (Row (N.Exp mode)) T.exp_of tokens.now r.0 r.1.now) }
    ensures shorter { IfOk result (λ r. length r.1.now < length tokens.now) }
    ensures stop { IfErr result (λ e. StopsAt (Row (N.Exp mode)) tokens.now e) }
{
    read_row(alloc, tokens, mode, Part::Whole)
}

// A row of expressions; what it leads back to is read by this function itself, of fewer tokens.
fn read_row<'a>(alloc: Global, tokens: &'a [Lexeme], mode: Mode, row: Part) -> Read<'a, Boxed<Exp>>
    ensures read { IfOk result (λ r. Reading (Row (row_of row mode)) (tree_of row) tokens.now r.0 r.1.now) }
    ensures shorter { IfOk result (λ r. length r.1.now < length tokens.now) }
    ensures stop { IfErr result (λ e. StopsAt (Row (row_of row mode)) tokens.now e) }
{
    let grammar = Grammar {
        alloc,
        limit: tokens.len(),
        part: read_row,
    };
    let rows = Rows {
        alloc,
        atoms: Atoms { grammar },
    };
    match row {
        Part::Whole => rows.whole_row(tokens, mode),
        Part::Inner => rows.inner_row(tokens, mode),
        Part::Operand => rows.operand_row(tokens, mode),
        Part::And => rows.infix_and(tokens, mode),
        Part::Append => rows.infix_append(tokens, mode),
        Part::Power => rows.infix_power(tokens, mode),
        Part::Unary => rows.unary(tokens, mode),
    }
}
