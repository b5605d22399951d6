ghost use Rattle.std.specs.Prelude.{◌≡◌, ◌<◌, ◌≤◌, ◌+◌, length, IfSome, IfNone, true, false};
ghost use Rattle.std.specs.List.{list_all};
ghost use Rattle.sail_lex.specs.Reach.{Reaches};
ghost use Rattle.sail_lex.specs.Bytes.{first};
ghost use Rattle.sail_lex.specs.Front.{string_front};
ghost use Rattle.sail_lex.specs.Literal.{parts, inside, is_good, size_of, Escape};

use crate::bytes::{is_printable, rest_of};
use crate::front::{Fault, Front};
use crate::kind::TokenKind;

/// The longest string, which has at most this many bytes between its quotes.
const LONGEST_STRING: usize = 4096;

/// The string that begins a text.
#[tactic(auto, unfolding(crate::specs::Front::string_front, crate::specs::Valued::IsValued))]
pub fn string_front(text: &[u8]) -> Front
    requires some { 0 < length text.now }
    requires quote { first text.now ≡ 34 }
    ensures front { result ≡ string_front text.now }
    ensures reaches { Reaches result text.now }
{
    match body_length(rest_of(text, 1)) {
        Some(length) => {
            if length > LONGEST_STRING {
                Front::Refused(Fault::BadLiteral, 0)
            } else if length + 1 < text.len() && text[length + 1] == b'"' {
                Front::Token(TokenKind::StringLiteral, length + 2)
            } else {
                Front::Refused(Fault::Unclosed, 0)
            }
        }
        None => Front::Refused(Fault::BadLiteral, 0),
    }
}

/// How many bytes stand before a string's closing quote, or before the end of its line, where all
/// its parts are good.
#[tactic(auto, using(crate::proofs::Parts::inside_next), unfolding(crate::specs::Literal::size_of))]
fn body_length(text: &[u8]) -> Option<usize>
    ensures good { IfSome result (λ n. list_all is_good (inside (parts text.now)) ≡ true) }
    ensures size { IfSome result (λ n. n ≡ size_of (inside (parts text.now))) }
    ensures within { IfSome result (λ n. n ≤ length text.now) }
    ensures bad { IfNone result (list_all is_good (inside (parts text.now)) ≡ false) }
{
    let mut at = 0;
    while at < text.len() {
        let byte = text[at];
        if byte == b'"' || byte == b'\n' {
            return Some(at);
        }
        if byte == b'\\' {
            if at + 1 == text.len() || !is_escape(text[at + 1]) {
                return None;
            }
            at += 2;
        } else {
            if !is_printable(byte) {
                return None;
            }
            at += 1;
        }
    }
    Some(at)
}

/// Whether the byte after a `\` makes an escape.
fn is_escape(byte: u8) -> bool
    ensures { result ≡ is_good (Escape byte) }
{
    byte == b'n' || byte == b't' || byte == b'\\' || byte == b'"'
}
