ghost use Rattle.std.specs.Prelude.{◌≡◌, [], ◌∷◌, ◌<◌, ◌≤◌, length, IfOk, IfErr};
ghost use Rattle.sail_lex.specs.declared.kind.TokenKind.TheVariants as K;
ghost use Rattle.sail_grammar.specs.RowName as N;
ghost use Rattle.sail_grammar.specs.Form.{Row, ◌or◌, ◌then◌};
ghost use Rattle.sail_grammar.specs.Table.{nothing, word};
ghost use Rattle.sail_grammar.specs.Parsing.{Reading, StopsAt};
ghost use Rattle.sail_grammar.specs.ExpTrees.{behind_word};
ghost use Rattle.sail_grammar.specs.DefTrees.{arrow_of};
ghost use Rattle.sail_definitions.specs.Parts.{is_there};

use sail_base::Boxed;
use sail_grammar::{Lexeme, Mode, Read, accept};
use sail_lex::TokenKind;
use sail_parse_expr::exp;
use sail_syntax::{Arrow, Exp};
use std::alloc::Global;

// The arrow that a token spells.
pub(crate) fn arrow(kind: TokenKind) -> Arrow
    ensures { result ≡ arrow_of kind }
{
    match kind {
        TokenKind::DoubleArrow => Arrow::Mapping,
        _ => Arrow::Function,
    }
}

// A word and the expression behind it, if the word is there.
pub(crate) fn exp_behind<'a>(
    alloc: Global,
    tokens: &'a [Lexeme],
    sign: TokenKind,
    mode: Mode,
) -> Read<'a, Option<Boxed<Exp>>>
    ensures read { IfOk result (λ r. Reading (word sign then Row (N.Exp mode) or nothing) behind_word tokens.now r.0 r.1.now) }
    ensures shorter { IfOk result (λ r. length r.1.now ≤ length tokens.now) }
    ensures stop { IfErr result (λ e. StopsAt (word sign then Row (N.Exp mode) or nothing) tokens.now e) }
{
    match accept(tokens, sign) {
        Some((_, after_sign)) => {
            let (value, rest) = exp(alloc, after_sign, mode)?;
            Ok((Some(value), rest))
        }
        None => Ok((None, tokens)),
    }
}

// Whether `clause` comes, and the tokens behind it.
pub(crate) fn clause_word<'a>(tokens: &'a [Lexeme]) -> (bool, &'a [Lexeme])
    ensures read { Reading (word K.Clause or nothing) is_there tokens.now result.0 result.1.now }
    ensures shorter { length result.1.now ≤ length tokens.now }
{
    match accept(tokens, TokenKind::Clause) {
        Some((_, rest)) => (true, rest),
        None => (false, tokens),
    }
}
