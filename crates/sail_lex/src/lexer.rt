ghost use Rattle.std.specs.Prelude.{◌≡◌, ◌+◌, ◌<◌, ◌≤◌, ◌∷◌, ◌++◌, [], ℕ, List, length, drop, IfOk, IfErr, OnOk};
ghost use Rattle.sail_lex.specs.Position.{place_at, end_of};
ghost use Rattle.sail_lex.specs.Tokens.{Lexes, Refuses, IsRefusal, AreInOrder, HavePlaces, error_at};
ghost use Rattle.sail_lex.specs.Next.{IsNext};
ghost use Rattle.sail_lex.specs.Valued.{AreValued, AreAscii};

use crate::bytes::rest_of;
use crate::comment::comment_length;
use crate::front::{Fault, Front, front_of};
use crate::kind::TokenKind;
use crate::position::{advance, beginning_of};
use crate::token::{LexError, Token, Tokens};
use sail_base::{Items, Place};
use std::alloc::Global;

/// All files together have at most so many tokens.
const MOST_TOKENS: usize = 1_000_000;

/// What comes next in a source.
#[derive(Clone, Copy, Debug)]
pub enum Next {
    /// So many bytes that are no token.
    Skip(usize),
    /// A token of this kind and so many bytes.
    Token(TokenKind, usize),
}

/// The tokens of a source, in order, with the source and the place of its end.
///
/// `file` is the number of the file for places, from 1, and `before` how many tokens the earlier
/// files have, at most 1,000,000. The source has at most 4,194,304 bytes.
///
/// The tokens are the longest spellings, one behind the other, with blanks, comments and
/// `$include` lines between; the text of each is ASCII. Where the source has no such list, the
/// error is the first cause in text order: see [`LexError`]. `OutOfMemory` says nothing of the
/// source.
pub fn lex<'a>(
    alloc: Global,
    source: &'a [u8],
    file: u32,
    before: u32,
) -> Result<Tokens<'a>, LexError>
    requires earlier { before ≤ 1000000 }
    requires short { length source.now ≤ 4194304 }
    ensures tokens { IfOk result (λ found. Lexes file source.now 0 before found.tokens) }
    ensures source { IfOk result (λ found. found.source.now ≡ source.now) }
    ensures end { IfOk result (λ found. found.end ≡ end_of file source.now) }
    ensures count { IfOk result (λ found. before + length found.tokens ≤ 1000000) }
    ensures spans { IfOk result (λ found. AreInOrder 0 (length source.now) found.tokens) }
    ensures places { IfOk result (λ found. HavePlaces file source.now found.tokens) }
    ensures values { IfOk result (λ found. AreValued source.now found.tokens) }
    ensures ascii { IfOk result (λ found. AreAscii source.now found.tokens) }
    ensures refused { IfErr result (λ e. IsRefusal file source.now 0 before e) }
{
    let mut tokens = Items::new(alloc);
    let mut at = 0;
    let mut place = beginning_of(file);
    let earlier = before as usize;
    while at < source.len() {
        let length = match next_at(source, place, at, earlier + tokens.len())? {
            Next::Skip(n) => n,
            Next::Token(kind, n) => {
                let end = at + n;
                tokens.push(Token {
                    kind,
                    place,
                    start: at,
                    end,
                })?;
                n
            }
        };
        place = advance(source, place, at, at + length);
        at += length;
    }
    Ok(Tokens {
        tokens,
        source,
        end: place,
    })
}

/// What comes next in the source from the byte at `at` on, where so many tokens have come.
fn next_at(source: &[u8], place: Place, at: usize, count: usize) -> Result<Next, LexError>
    requires within { at < length source.now }
    requires short { length source.now ≤ 4194304 }
    requires place { place ≡ place_at place.file source.now at }
    ensures next { IfOk result (λ next. IsNext source.now at count next) }
    ensures refused { IfErr result (λ e. Refuses place.file source.now at count e) }
{
    let text = rest_of(source, at);
    match front_of(text) {
        Front::Skip(n) => Ok(Next::Skip(n)),
        Front::Comment => match comment_length(text) {
            Some(n) => Ok(Next::Skip(n)),
            None => Err(LexError::Unclosed(place)),
        },
        Front::Token(kind, n) => {
            if count < MOST_TOKENS {
                Ok(Next::Token(kind, n))
            } else {
                Err(LexError::TokenLimit(place))
            }
        }
        Front::Refused(fault, n) => Err(error_of(fault, advance(source, place, at, at + n))),
    }
}

/// The error of a fault at a place.
fn error_of(fault: Fault, place: Place) -> LexError
    ensures { result ≡ error_at fault place }
{
    match fault {
        Fault::BadByte(byte) => LexError::BadByte(place, byte),
        Fault::BadLiteral => LexError::BadLiteral(place),
        Fault::Unclosed => LexError::Unclosed(place),
        Fault::NumberTooLarge => LexError::NumberTooLarge(place),
    }
}
