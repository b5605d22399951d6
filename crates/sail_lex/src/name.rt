ghost use Rattle.std.specs.Prelude.{◌≡◌, ◌<◌, length, true};
ghost use Rattle.sail_lex.specs.Reach.{Reaches};
ghost use Rattle.sail_lex.specs.Bytes.{begins_name, first};
ghost use Rattle.sail_lex.specs.Front.{name_front, type_variable_front};

use crate::bytes::{Class, begins_name, first, leading, rest_of, run_length};
use crate::front::{Fault, Front};
use crate::kind::TokenKind;
use crate::tables::name_kind;

/// The longest name, which has at most this many bytes.
const LONGEST_NAME: usize = 255;

/// The name that begins a text: an identifier, a word or the wildcard.
#[tactic(auto, unfolding(crate::specs::Front::name_front))]
pub fn name_front(text: &[u8]) -> Front
    requires some { 0 < length text.now }
    requires name { begins_name (first text.now) ≡ true }
    ensures front { result ≡ name_front text.now }
    ensures reaches { Reaches result text.now }
{
    let length = run_length(Class::Name, text);
    if length > LONGEST_NAME {
        return Front::Refused(Fault::BadLiteral, 0);
    }
    Front::Token(name_kind(leading(text, length)), length)
}

/// The type variable that begins a text, after its `'`.
#[tactic(auto, unfolding(crate::specs::Front::type_variable_front, crate::specs::Valued::IsValued))]
pub fn type_variable_front(text: &[u8]) -> Front
    requires { 0 < length text.now }
    ensures front { result ≡ type_variable_front text.now }
    ensures reaches { Reaches result text.now }
{
    let name = rest_of(text, 1);
    if !begins_name(first(name)) {
        return Front::Refused(Fault::BadByte(first(text)), 0);
    }
    let length = run_length(Class::Name, name);
    if length > LONGEST_NAME {
        return Front::Refused(Fault::BadLiteral, 0);
    }
    Front::Token(TokenKind::TypeVariable, length + 1)
}
