//! The tokens of a model's text.
#![tactic(auto)]

mod bytes;
mod comment;
mod directive;
mod front;
mod kind;
mod laws;
mod lexer;
mod literal;
mod name;
mod position;
mod tables;
mod text;
mod token;
mod value;

pub use kind::TokenKind;
pub use laws::{longest_spelling, no_spelling, one_answer};
pub use lexer::lex;
pub use token::{LexError, Token, Tokens};
pub use value::{decimal_value, literal_word, string_value};
