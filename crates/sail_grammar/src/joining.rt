ghost use Rattle.std.specs.Prelude.{◌≡◌, ◌≤◌, ◌++◌, length, IfOk, OnOk, All};
ghost use Rattle.sail_grammar.specs.Joined.{joined, with_text, with_texts, HasText, HaveTexts};

use crate::lexeme::Lexeme;
use sail_base::{Items, Text};
use sail_lex::{Token, Tokens};
use std::alloc::{AllocError, Global};

/// The tokens of all files, joined in order, each with its text. It fails where memory is wanting.
#[tactic(auto, using(crate::proofs::FilesJoined::joined_more))]
pub fn join(alloc: Global, files: &[Tokens<'_>]) -> Result<Items<Lexeme>, AllocError>
    requires { All HaveTexts files.now }
    ensures { IfOk result (λ all. all ≡ joined files.now) }
{
    let mut all = Items::new(alloc);
    for file in files {
        add_file(alloc, &mut all, file.source, file.tokens.as_slice())?;
    }
    Ok(all)
}

// Puts the tokens of one file at the end.
fn add_file(
    alloc: Global,
    all: &mut Items<Lexeme>,
    source: &[u8],
    tokens: &[Token],
) -> Result<(), AllocError>
    requires { All (HasText source.now) tokens.now }
    ensures { OnOk result (all.new ≡ all.old ++ with_texts source.now tokens.now) }
{
    for token in tokens {
        let lexeme = with_text(alloc, source, token)?;
        all.push(lexeme)?;
    }
    Ok(())
}

// A token with its text.
fn with_text(alloc: Global, source: &[u8], token: &Token) -> Result<Lexeme, AllocError>
    requires { HasText source.now token.now }
    ensures { IfOk result (λ lexeme. lexeme ≡ with_text source.now token.now) }
{
    let text = Text::from_ascii(alloc, token.text(source))?;
    Ok(Lexeme {
        kind: token.kind,
        place: token.place,
        text,
    })
}
