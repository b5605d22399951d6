ghost use Rattle.std.specs.Prelude.{◌≡◌, ◌<◌, ◌≤◌, length, IfOk, IfErr};
ghost use Rattle.sail_grammar.specs.RowName as N;
ghost use Rattle.sail_grammar.specs.Form.{Row};
ghost use Rattle.sail_grammar.specs.Parsing.{Reading, StopsAt};
ghost use Rattle.sail_grammar.specs.ExpTrees as T;
ghost use Rattle.sail_parse_forms.specs.declared.grammar.Part.TheVariants.{Whole, Inner, Operand, And, Append, Power, Unary};
ghost use Rattle.sail_parse_forms.specs.Parses.{Parses};

use sail_base::Boxed;
use sail_grammar::{Lexeme, Mode, Read};
use sail_syntax::Exp;
use std::alloc::Global;

/// Which row of expressions is read.
#[derive(Clone, Copy)]
pub enum Part {
    /// An expression.
    Whole,
    /// One that begins with neither `let` nor `var`.
    Inner,
    /// An operand with the operators of all levels.
    Operand,
    /// An operand of `|`.
    And,
    /// An operand of a comparison.
    Append,
    /// An operand of `*`.
    Power,
    /// An operand of `^`.
    Unary,
}

/// What the functions of the rows are given: the allocator, and a function that reads what is within
/// brackets and behind words and operators.
#[derive(Clone, Copy)]
pub struct Grammar<F> {
    /// What allocates.
    pub alloc: Global,
    /// That function reads lists of fewer tokens.
    pub limit: usize,
    /// The function, which is told the row.
    pub part: F,
}

impl<F: Fn(Global, &[Lexeme], Mode, Part) -> Read<'_, Boxed<Exp>>> Grammar<F> {
    /// An expression of fewer tokens.
    pub fn exp<'a>(&self, tokens: &'a [Lexeme], mode: Mode) -> Read<'a, Boxed<Exp>>
        requires parses { Parses self.now.limit (F.pre self.now.part) (F.post self.now.part) }
        requires fewer { length tokens.now < self.now.limit }
        ensures read { IfOk result (λ r. Reading (Row (N.Exp mode)) T.exp_of tokens.now r.0 r.1.now) }
        ensures shorter { IfOk result (λ r. length r.1.now < length tokens.now) }
        ensures stop { IfErr result (λ e. StopsAt (Row (N.Exp mode)) tokens.now e) }
    {
        (self.part)(self.alloc, tokens, mode, Part::Whole)
    }

    /// The same without `let` and `var`.
    pub fn inner<'a>(&self, tokens: &'a [Lexeme], mode: Mode) -> Read<'a, Boxed<Exp>>
        requires parses { Parses self.now.limit (F.pre self.now.part) (F.post self.now.part) }
        requires fewer { length tokens.now < self.now.limit }
        ensures read { IfOk result (λ r. Reading (Row (N.ExpInner mode)) T.inner_of tokens.now r.0 r.1.now) }
        ensures shorter { IfOk result (λ r. length r.1.now < length tokens.now) }
        ensures stop { IfErr result (λ e. StopsAt (Row (N.ExpInner mode)) tokens.now e) }
    {
        (self.part)(self.alloc, tokens, mode, Part::Inner)
    }

    /// Operands with operators, of fewer tokens.
    pub fn infix<'a>(&self, tokens: &'a [Lexeme], mode: Mode) -> Read<'a, Boxed<Exp>>
        requires parses { Parses self.now.limit (F.pre self.now.part) (F.post self.now.part) }
        requires fewer { length tokens.now < self.now.limit }
        ensures read { IfOk result (λ r. Reading (Row (N.Infix mode)) T.infix_of tokens.now r.0 r.1.now) }
        ensures shorter { IfOk result (λ r. length r.1.now < length tokens.now) }
        ensures stop { IfErr result (λ e. StopsAt (Row (N.Infix mode)) tokens.now e) }
    {
        (self.part)(self.alloc, tokens, mode, Part::Operand)
    }

    /// Operands of `|`, of fewer tokens.
    pub fn more_and<'a>(&self, tokens: &'a [Lexeme], mode: Mode) -> Read<'a, Boxed<Exp>>
        requires parses { Parses self.now.limit (F.pre self.now.part) (F.post self.now.part) }
        requires fewer { length tokens.now < self.now.limit }
        ensures read { IfOk result (λ r. Reading (Row (N.InfixAnd mode)) T.and_of tokens.now r.0 r.1.now) }
        ensures shorter { IfOk result (λ r. length r.1.now < length tokens.now) }
        ensures stop { IfErr result (λ e. StopsAt (Row (N.InfixAnd mode)) tokens.now e) }
    {
        (self.part)(self.alloc, tokens, mode, Part::And)
    }

    /// Operands of a comparison, of fewer tokens.
    pub fn more_append<'a>(&self, tokens: &'a [Lexeme], mode: Mode) -> Read<'a, Boxed<Exp>>
        requires parses { Parses self.now.limit (F.pre self.now.part) (F.post self.now.part) }
        requires fewer { length tokens.now < self.now.limit }
        ensures read { IfOk result (λ r. Reading (Row (N.InfixAppend mode)) T.append_of tokens.now r.0 r.1.now) }
        ensures shorter { IfOk result (λ r. length r.1.now < length tokens.now) }
        ensures stop { IfErr result (λ e. StopsAt (Row (N.InfixAppend mode)) tokens.now e) }
    {
        (self.part)(self.alloc, tokens, mode, Part::Append)
    }

    /// Operands of `*`, of fewer tokens.
    pub fn more_power<'a>(&self, tokens: &'a [Lexeme], mode: Mode) -> Read<'a, Boxed<Exp>>
        requires parses { Parses self.now.limit (F.pre self.now.part) (F.post self.now.part) }
        requires fewer { length tokens.now < self.now.limit }
        ensures read { IfOk result (λ r. Reading (Row (N.InfixPower mode)) T.power_of tokens.now r.0 r.1.now) }
        ensures shorter { IfOk result (λ r. length r.1.now < length tokens.now) }
        ensures stop { IfErr result (λ e. StopsAt (Row (N.InfixPower mode)) tokens.now e) }
    {
        (self.part)(self.alloc, tokens, mode, Part::Power)
    }

    /// Operands of `^`, of fewer tokens.
    pub fn more_unary<'a>(&self, tokens: &'a [Lexeme], mode: Mode) -> Read<'a, Boxed<Exp>>
        requires parses { Parses self.now.limit (F.pre self.now.part) (F.post self.now.part) }
        requires fewer { length tokens.now < self.now.limit }
        ensures read { IfOk result (λ r. Reading (Row (N.Unary mode)) T.unary_of tokens.now r.0 r.1.now) }
        ensures shorter { IfOk result (λ r. length r.1.now < length tokens.now) }
        ensures stop { IfErr result (λ e. StopsAt (Row (N.Unary mode)) tokens.now e) }
    {
        (self.part)(self.alloc, tokens, mode, Part::Unary)
    }
}
