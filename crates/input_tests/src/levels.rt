use sail_base::{Items, Place, Text};
use sail_grammar::Lexeme;
use sail_levels::deep;
use sail_lex::TokenKind;
use std::alloc::{AllocError, Global};
use std::test::Fail;

/// Kinds of tokens that are repeated so often, and the place of the first token that is too deep.
struct Row(&'static [TokenKind], usize, Option<usize>);

// The place of the first token that is too deep, where tokens of these kinds are repeated so often.
fn deep_of(alloc: Global, kinds: &[TokenKind], times: usize) -> Result<Option<usize>, AllocError> {
    let place = Place {
        file: 1,
        line: 1,
        column: 1,
    };
    let mut tokens = Items::new(alloc);
    for _ in 0..times {
        for kind in kinds {
            let text = Text::new(alloc, "")?;
            tokens.push(Lexeme {
                kind: *kind,
                place,
                text,
            })?;
        }
    }
    deep(alloc, tokens.as_slice())
}

static ROWS: [Row; 20] = [
    Row(&[], 1, None),
    Row(&[TokenKind::OpenParenthesis], 128, None),
    Row(&[TokenKind::OpenParenthesis], 129, Some(128)),
    Row(&[TokenKind::OpenBracket], 129, Some(128)),
    Row(&[TokenKind::OpenBrace], 129, Some(128)),
    Row(&[TokenKind::OpenVector], 129, Some(128)),
    Row(&[TokenKind::Plus], 128, None),
    Row(&[TokenKind::Plus], 129, Some(128)),
    Row(&[TokenKind::If, TokenKind::Identifier], 129, Some(256)),
    Row(&[TokenKind::As, TokenKind::In], 129, Some(256)),
    Row(&[TokenKind::Plus, TokenKind::Comma], 129, Some(256)),
    Row(
        &[TokenKind::OpenBrace, TokenKind::Plus, TokenKind::Semicolon],
        127,
        None,
    ),
    Row(
        &[TokenKind::OpenBrace, TokenKind::Plus, TokenKind::Semicolon],
        128,
        Some(382),
    ),
    Row(&[TokenKind::OpenBrace, TokenKind::Plus], 65, Some(128)),
    Row(
        &[
            TokenKind::OpenBracket,
            TokenKind::Plus,
            TokenKind::CloseBracket,
        ],
        300,
        None,
    ),
    Row(
        &[TokenKind::Let, TokenKind::Plus, TokenKind::Identifier],
        300,
        None,
    ),
    Row(&[TokenKind::Let, TokenKind::Equal], 129, Some(256)),
    Row(&[TokenKind::Enum, TokenKind::Bar], 300, None),
    Row(&[TokenKind::Operator, TokenKind::Plus], 300, None),
    Row(
        &[
            TokenKind::In,
            TokenKind::Tilde,
            TokenKind::Not,
            TokenKind::Equal,
        ],
        300,
        None,
    ),
];

#[test]
fn the_129th_level_is_found(rt: HostRuntime) -> Result<(), Fail> {
    let alloc = rt.alloc();
    for row in &ROWS {
        let place = deep_of(alloc, row.0, row.1)?;
        assert!(rt; place == row.2, "{} times", row.1);
    }
    Ok(())
}
