ghost use Rattle.std.specs.Prelude.{◌≡◌, IfOk};
ghost use Rattle.sail_grammar.specs.Leaves.{number_of, place_ahead};

use crate::lexeme::Lexeme;
use sail_base::Place;
use sail_lex::decimal_value;
use sail_syntax::Name;
use std::alloc::AllocError;

/// The name that a token spells, over the same memory. It fails where the count of its sharers would
/// not fit.
pub fn name(token: &Lexeme) -> Result<Name, AllocError>
    ensures { IfOk result (λ name. name ≡ record { place = token.now.place; text = token.now.text }) }
{
    Ok(Name {
        place: token.place,
        text: token.text.clone()?,
    })
}

/// What a decimal stands for; 0 above the 126th power of two, which no token of a source is.
pub fn number(token: &Lexeme) -> i128
    ensures { result ≡ number_of token.now.text }
{
    match decimal_value(token.text.as_bytes()) {
        Some(value) => value as i128,
        None => 0,
    }
}

/// Where the first token stands; the place of nothing, where there is none.
pub fn place(tokens: &[Lexeme]) -> Place
    ensures { result ≡ place_ahead tokens.now }
{
    match tokens.split_first() {
        Some((first, _)) => first.place,
        None => Place {
            file: 0,
            line: 0,
            column: 0,
        },
    }
}
