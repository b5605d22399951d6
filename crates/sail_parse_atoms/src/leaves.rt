ghost use Rattle.std.specs.Prelude.{◌≡◌, [], ◌∷◌, ◌++◌, IfOk};
ghost use Rattle.sail_grammar.specs.ExpTrees as T;
ghost use Rattle.sail_parse_atoms.specs.Behind.{held_from};

use sail_base::{Boxed, Items, Place, Prefix};
use sail_grammar::ReadError;
use sail_lex::TokenKind;
use sail_syntax::{Brackets, Exp, Stmt, build};
use std::alloc::{AllocError, Global};

pub(crate) const PREFIXES: [TokenKind; 2] = [TokenKind::Tilde, TokenKind::Not];

pub(crate) const BLOCK_ENDS: [TokenKind; 2] = [TokenKind::Semicolon, TokenKind::CloseBrace];

// The prefix of `~` or `not`.
pub(crate) fn prefix_of(kind: TokenKind) -> Prefix
    ensures { result ≡ T.prefix_of kind }
{
    match kind {
        TokenKind::Tilde => Prefix::Tilde,
        _ => Prefix::Not,
    }
}

// The one expression in brackets, or a tuple of none or several.
pub(crate) fn in_brackets(
    alloc: Global,
    place: Place,
    mut items: Items<Exp>,
) -> Result<Boxed<Exp>, AllocError>
    ensures { IfOk result (λ made. made ≡ T.in_brackets place items) }
{
    if items.len() == 1 {
        match items.pop() {
            Some(one) => Boxed::new(alloc, one),
            None => build::group(alloc, place, Brackets::Tuple, items),
        }
    } else {
        build::group(alloc, place, Brackets::Tuple, items)
    }
}

// A block whose value is its last statement, where that is an expression.
pub(crate) fn block_with_value(
    alloc: Global,
    place: Place,
    mut list: Items<Stmt>,
) -> Result<Boxed<Exp>, AllocError>
    ensures { IfOk result (λ made. made ≡ T.block_of_parts place (T.part_last list)) }
{
    match list.pop() {
        None => build::block(alloc, place, list, None),
        Some(last) => block_up_to(alloc, place, list, last),
    }
}

// A block of some statements and a last one, which is its value where it is an expression.
fn block_up_to(
    alloc: Global,
    place: Place,
    mut list: Items<Stmt>,
    last: Stmt,
) -> Result<Boxed<Exp>, AllocError>
    ensures { IfOk result (λ made. made ≡ T.block_of_parts place (T.part_last (list ++ last ∷ []))) }
{
    match last {
        Stmt::Evaluate(value) => build::block(alloc, place, list, Some(value)),
        other => {
            list.push(other)?;
            build::block(alloc, place, list, None)
        }
    }
}

// What is forbidden in a form that is held is so from the form's first token on.
pub(crate) fn held(error: ReadError, from: usize) -> ReadError
    ensures { result ≡ held_from error from }
{
    match error {
        ReadError::Forbidden(left, _) => ReadError::Forbidden(left, from),
        other => other,
    }
}
