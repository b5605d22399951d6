ghost use Rattle.std.specs.Prelude.{◌≤◌, length, map, IfErr, IfOk};
ghost use Rattle.std.specs.List.{All};
ghost use Rattle.model_tokens.specs.Files.{AreLexed, IsRefusal, IsShort};
ghost use Rattle.model_tokens.specs.Parts.{AreOf, tokens_of};

use sail_base::Items;
use sail_lex::{LexError, Tokens, lex};
use std::alloc::Global;

/// The tokens of at most 64 texts of at most 4,194,304 bytes each, the first of which is file 1.
///
/// The tokens of each lend its text, in which they stand in order and are ASCII, and have the place of its end.
/// The first text that has no tokens decides: the error is its refusal, at a place in its file. The
/// 1,000,000 tokens that are allowed are counted over all texts. `OutOfMemory` says nothing of them.
pub fn lex_files<'a>(alloc: Global, texts: &'a [Items<u8>]) -> Result<Items<Tokens<'a>>, LexError>
    requires few { length texts.now ≤ 64 }
    requires short { All IsShort texts.now }
    ensures lexed { IfOk result (λ found. AreLexed 1 0 texts.now (map tokens_of found)) }
    ensures files { IfOk result (AreOf 1 texts.now) }
    ensures refused { IfErr result (IsRefusal texts.now) }
{
    let mut found = Items::new(alloc);
    let mut file = 1;
    let mut before = 0;
    for text in texts {
        let tokens = match lex(alloc, text.as_slice(), file, before) {
            Ok(tokens) => tokens,
            Err(error) => return Err(error),
        };
        before += tokens.tokens.len() as u32;
        file += 1;
        if found.push(tokens).is_err() {
            return Err(LexError::OutOfMemory);
        }
    }
    Ok(found)
}
