ghost use Rattle.std.specs.Prelude.{◌≡◌, ℕ, suc, ◌≤◌, ◌<◌, List, [], take, length, Option, IfOk, IfErr, All};
ghost use Rattle.std.specs.Option.{option_copied};
ghost use Rattle.sail_grammar.specs.Symbol.{Sign};
ghost use Rattle.sail_grammar.specs.RowName.{Definitions};
ghost use Rattle.sail_grammar.specs.Form.{Row};
ghost use Rattle.sail_grammar.specs.Ends.{Ends, Stop};
ghost use Rattle.sail_grammar.specs.Sets.{grammar};
ghost use Rattle.sail_grammar.specs.Parsing.{StopsAt};
ghost use Rattle.sail_grammar.specs.Leaves.{nowhere};
ghost use Rattle.sail_grammar.specs.Joined.{joined, end_from, HaveTexts};
ghost use Rattle.sail_grammar.specs.Levels.{deep};
ghost use Rattle.sail_grammar.specs.Model.{IsModel, IsRefusal, is_left_out, is_order, token_before};
ghost use Rattle.sail_parse_def.specs.Refusals.{Says, SaysToken};
ghost use Rattle.sail_grammar.specs.declared.error.ParseError.TheVariants as error;

use sail_base::Place;
use sail_definitions::definitions;
use sail_grammar::{Lexeme, ParseError, ReadError, join};
use sail_levels::deep;
use sail_lex::{TokenKind, Tokens};
use sail_syntax::Def;
use std::alloc::Global;

/// The definitions of a model, whose files have these tokens, in order. The place of the end is that
/// of the last file's, and that of nothing where there is no file.
///
/// The tokens are refused as `Outside` where the first token that doesn't fit is a word that models may
/// not use, at that word, or shows a form that is forbidden there, at the form's first token; as `Syntax`
/// at another token that doesn't fit, or at the end where more tokens would have to come; as `TooDeep` at
/// the first token with more than 128 levels, where the tokens up to it fit.
pub fn parse_model(alloc: Global, files: &[Tokens<'_>]) -> Result<Vec<Def>, ParseError>
    requires { All HaveTexts files.now }
    ensures model { IfOk result (λ defs. IsModel (joined files.now) defs.items) }
    ensures refused { IfErr result (λ e. IsRefusal (joined files.now) (end_from nowhere files.now) e) }
{
    match join(alloc, files) {
        Ok(all) => parse_all(alloc, all.as_slice(), last_end(files)),
        Err(_) => Err(ParseError::OutOfMemory),
    }
}

// The end of the last file.
fn last_end(files: &[Tokens<'_>]) -> Place
    ensures { result ≡ end_from nowhere files.now }
{
    let mut end = Place {
        file: 0,
        line: 0,
        column: 0,
    };
    for file in files {
        end = file.end;
    }
    end
}

// The definitions of all tokens.
fn parse_all(alloc: Global, all: &[Lexeme], end: Place) -> Result<Vec<Def>, ParseError>
    ensures model { IfOk result (λ defs. IsModel all.now defs.items) }
    ensures refused { IfErr result (λ e. IsRefusal all.now end e) }
{
    match deep(alloc, all) {
        Ok(found) => parse_known(alloc, all, found, end),
        Err(_) => Err(ParseError::OutOfMemory),
    }
}

// The definitions of all tokens, where it is known which one is the first that is too deep.
fn parse_known(
    alloc: Global,
    all: &[Lexeme],
    found: Option<usize>,
    end: Place,
) -> Result<Vec<Def>, ParseError>
    requires { found ≡ deep all.now }
    ensures model { IfOk result (λ defs. IsModel all.now defs.items) }
    ensures refused { IfErr result (λ e. IsRefusal all.now end e) }
{
    match found {
        None => parse_shallow(alloc, all, end),
        Some(index) => Err(refuse_deep(alloc, all, index, end)),
    }
}

// The definitions of all tokens, of which none is too deep.
fn parse_shallow(alloc: Global, all: &[Lexeme], end: Place) -> Result<Vec<Def>, ParseError>
    requires { deep all.now ≡ None }
    ensures model { IfOk result (λ defs. IsModel all.now defs.items) }
    ensures refused { IfErr result (λ e. IsRefusal all.now end e) }
{
    match definitions(alloc, all) {
        Ok(list) => Ok(list.into_vec()),
        Err(error) => Err(refuse(all, all.len(), error, end, ParseError::Syntax(end, None))),
    }
}

// Why tokens are refused of which one is too deep, the first of those at this index.
fn refuse_deep(alloc: Global, all: &[Lexeme], index: usize, end: Place) -> ParseError
    requires deep { deep all.now ≡ Some index }
    requires within { index < length all.now }
    ensures { IsRefusal all.now end result }
{
    let place = all[index].place;
    let first = &all[..index + 1];
    match definitions(alloc, first) {
        Ok(_) => ParseError::TooDeep(place),
        Err(error) => refuse(all, index + 1, error, end, ParseError::TooDeep(place)),
    }
}

// Why the first tokens, so many, are refused, by where reading them as definitions stops; where that is at
// their end, by this error.
fn refuse(
    all: &[Lexeme],
    count: usize,
    error: ReadError,
    end: Place,
    at_end: ParseError,
) -> ParseError
    requires within { count ≤ length all.now }
    requires first { (m : ℕ) → deep all.now ≡ Some m → count ≤ suc m }
    requires stop { StopsAt (Row Definitions) (take count all.now) error }
    requires ended { (from : Option (List Sign)) → Ends grammar (Row Definitions) (take count all.now) (Stop [] from) → IsRefusal all.now end at_end }
    ensures { IsRefusal all.now end result }
{
    match error {
        ReadError::OutOfMemory => ParseError::OutOfMemory,
        ReadError::Unfit(left) => {
            if left == 0 {
                at_end
            } else {
                refuse_token(all, count - left)
            }
        }
        ReadError::Forbidden(_, begun) => outside(&all[count - begun]),
    }
}

// A token that doesn't fit, as an error.
fn refuse_token(all: &[Lexeme], index: usize) -> ParseError
    requires { index < length all.now }
    ensures { SaysToken all.now index result }
{
    let token = &all[index];
    if is_left_out(token.kind, before(all, index)) {
        outside(token)
    } else {
        match token.text.clone() {
            Ok(text) => ParseError::Syntax(token.place, Some(text)),
            Err(_) => ParseError::OutOfMemory,
        }
    }
}

// A token that is left out or begins a forbidden form, as an error.
fn outside(token: &Lexeme) -> ParseError
    ensures { Says (error.Outside token.now.place token.now.text) result }
{
    match token.text.clone() {
        Ok(text) => ParseError::Outside(token.place, text),
        Err(_) => ParseError::OutOfMemory,
    }
}

// The token before this place.
fn before(all: &[Lexeme], index: usize) -> Option<&Lexeme>
    requires { index < length all.now }
    ensures { option_copied result ≡ token_before all.now index }
{
    if index == 0 {
        None
    } else {
        Some(&all[index - 1])
    }
}

// Whether a token that doesn't fit is a word that models may not use.
fn is_left_out(kind: TokenKind, before: Option<&Lexeme>) -> bool
    ensures { result ≡ is_left_out kind (option_copied before.entry) }
{
    if kind == TokenKind::LeftOut {
        true
    } else if kind == TokenKind::Order {
        true
    } else if kind == TokenKind::Inc {
        is_order(before)
    } else {
        false
    }
}

// Whether a token is `Order`.
fn is_order(token: Option<&Lexeme>) -> bool
    ensures { result ≡ is_order (option_copied token.entry) }
{
    match token {
        Some(token) => token.kind == TokenKind::Order,
        None => false,
    }
}
