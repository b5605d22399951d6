ghost use Rattle.std.specs.Prelude.{◌≡◌, ◌<◌, length, IsTrue, IsFalse};
ghost use Rattle.sail_lex.specs.Reach.{Reaches};
ghost use Rattle.sail_lex.specs.Bytes.{first};
ghost use Rattle.sail_lex.specs.Front.{front, other_front, symbol_front};

use crate::bytes::{Class, begins_name, first, is_blank, run_length};
use crate::directive::directive_front;
use crate::kind::TokenKind;
use crate::literal::number_front;
use crate::name::{name_front, type_variable_front};
use crate::tables::longest_symbol;
use crate::text::string_front;

/// Why a text has no token where it begins.
#[derive(Clone, Copy, PartialEq, Eq, Debug)]
pub enum Fault {
    /// A byte that begins no token, or that a directive can't hold.
    BadByte(u8),
    /// A number, a string or a name that is misspelled or too long.
    BadLiteral,
    /// A string that doesn't end.
    Unclosed,
    /// A number that is too large.
    NumberTooLarge,
}

/// What a text begins with.
#[derive(Clone, Copy, PartialEq, Eq, Debug)]
pub enum Front {
    /// So many bytes that are passed over.
    Skip(usize),
    /// A comment that nests.
    Comment,
    /// A token of this kind and so many bytes.
    Token(TokenKind, usize),
    /// A fault, and how many bytes stand before it.
    Refused(Fault, usize),
}

/// What a text begins with, by its first byte.
#[tactic(auto, unfolding(crate::specs::Front::front))]
pub fn front_of(text: &[u8]) -> Front
    requires { 0 < length text.now }
    ensures front { result ≡ front text.now }
    ensures reaches { Reaches result text.now }
{
    let byte = first(text);
    if is_blank(byte) {
        return Front::Skip(run_length(Class::Blank, text));
    }
    if begins_name(byte) {
        return name_front(text);
    }
    if byte.is_ascii_digit() {
        return number_front(text);
    }
    if byte == b'\'' {
        return type_variable_front(text);
    }
    if byte == b'"' {
        return string_front(text);
    }
    if byte == b'$' {
        return directive_front(text);
    }
    other_front(text)
}

/// A comment or a symbol.
#[tactic(auto, unfolding(crate::specs::Front::other_front))]
fn other_front(text: &[u8]) -> Front
    requires { 0 < length text.now }
    ensures front { result ≡ other_front text.now }
    ensures reaches { Reaches result text.now }
{
    if text.starts_with(b"//") {
        return Front::Skip(run_length(Class::Line, text));
    }
    if text.starts_with(b"/*") {
        return Front::Comment;
    }
    symbol_front(text)
}

/// The longest symbol that begins the text.
#[tactic(auto, unfolding(crate::specs::Front::symbol_front))]
fn symbol_front(text: &[u8]) -> Front
    requires { 0 < length text.now }
    ensures front { result ≡ symbol_front text.now }
    ensures reaches { Reaches result text.now }
{
    match longest_symbol(text) {
        Some(symbol) => Front::Token(symbol.kind, symbol.text.len()),
        None => Front::Refused(Fault::BadByte(first(text)), 0),
    }
}
