ghost use Rattle.std.specs.Prelude.{◌≡◌, ◌<◌, length};
ghost use Rattle.sail_lex.specs.Reach.{Reaches};
ghost use Rattle.std.specs.List.{list_all};
ghost use Rattle.sail_lex.specs.Bytes.{first, belongs, is_blank};
ghost use Rattle.sail_lex.specs.Front.{directive_front, is_include, past};

use crate::bytes::{Class, first, is_blank, leading, rest_of, run_length};
use crate::front::{Fault, Front};
use crate::kind::TokenKind;

/// The directive that begins a text, from its `$` to the end of the line.
#[tactic(auto, unfolding(crate::specs::Front::directive_front, crate::specs::Valued::IsValued))]
pub fn directive_front(text: &[u8]) -> Front
    requires some { 0 < length text.now }
    requires dollar { first text.now ≡ 36 }
    ensures front { result ≡ directive_front text.now }
    ensures reaches { Reaches result text.now }
{
    let length = run_length(Class::Line, text);
    let line = leading(text, length);
    let good = run_length(Class::Directive, line);
    if good < length {
        return Front::Refused(Fault::BadByte(text[good]), good);
    }
    if is_include(line) {
        Front::Skip(length)
    } else {
        Front::Token(TokenKind::LeftOut, length)
    }
}

/// Whether the line is `$include <..>`.
#[tactic(auto, unfolding(crate::specs::Front::is_include))]
fn is_include(line: &[u8]) -> bool
    ensures { result ≡ is_include line.now }
{
    if !line.starts_with(b"$include") {
        return false;
    }
    let name = past(Class::Blank, rest_of(line, 8));
    if first(name) != b'<' {
        return false;
    }
    let end = past(Class::Included, rest_of(name, 1));
    first(end) == b'>' && all_blank(rest_of(end, 1))
}

/// Whether all bytes of the text are blanks.
fn all_blank(text: &[u8]) -> bool
    ensures { result ≡ list_all is_blank text.now }
{
    text.iter().all(|byte| is_blank(*byte))
}

/// What is left of a text after its first bytes of the class.
fn past(class: Class, text: &[u8]) -> &[u8]
    ensures { result.now ≡ past (belongs class) text.now }
{
    rest_of(text, run_length(class, text))
}
