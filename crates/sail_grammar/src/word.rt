ghost use Rattle.std.specs.Prelude.{◌≡◌, ◌∷◌, [], ◌<◌, false, map, length, IfOk, IfErr, MatchOption};
ghost use Rattle.sail_grammar.specs.Symbol.{symbol, code, two, kind_name, identifiers, numbers};
ghost use Rattle.sail_grammar.specs.Form.{Word, among, held};
ghost use Rattle.sail_grammar.specs.Parsing.{Takes, StopsAt};

use crate::error::ReadError;
use crate::lexeme::Lexeme;
use sail_lex::TokenKind;

// Whether the grammar sees a token as one of this kind.
fn is_of(token: &Lexeme, kind: TokenKind) -> bool
    ensures { result ≡ among (code kind ∷ []) (symbol token.now) }
{
    if token.kind == kind {
        match kind {
            TokenKind::Decimal => !token.text.is("2"),
            TokenKind::Identifier => !token.text.is("Int")
                && !token.text.is("Bool")
                && !token.text.is("Type"),
            _ => true,
        }
    } else {
        false
    }
}

// Whether the grammar sees a token as one of these kinds.
fn is_of_any(token: &Lexeme, kinds: &[TokenKind]) -> bool
    ensures { result ≡ among (map code kinds.now) (symbol token.now) }
{
    for kind in kinds {
        if is_of(token, *kind) {
            return true;
        }
    }
    false
}

// Whether a token is an identifier, also one that is spelled as a kind.
fn is_identifier(token: &Lexeme) -> bool
    ensures { result ≡ among identifiers (symbol token.now) }
{
    token.kind == TokenKind::Identifier
}

// Whether a token is spelled as a kind.
fn is_kind_name(token: &Lexeme) -> bool
    ensures { result ≡ among (kind_name ∷ []) (symbol token.now) }
{
    if token.kind == TokenKind::Identifier {
        token.text.is("Int") || token.text.is("Bool") || token.text.is("Type")
    } else {
        false
    }
}

// Whether a token is a decimal, also `2`.
fn is_number(token: &Lexeme) -> bool
    ensures { result ≡ among numbers (symbol token.now) }
{
    token.kind == TokenKind::Decimal
}

// Whether a token is the decimal that is spelled `2`.
fn is_two(token: &Lexeme) -> bool
    ensures { result ≡ among (two ∷ []) (symbol token.now) }
{
    if token.kind == TokenKind::Decimal {
        token.text.is("2")
    } else {
        false
    }
}

/// The first token, where it is of this kind, and those behind it.
#[tactic(auto, using(crate::proofs::Words::take_word, crate::proofs::Words::not_held, crate::proofs::Words::none_held))]
pub fn accept<'a>(tokens: &'a [Lexeme], kind: TokenKind) -> Option<(&'a Lexeme, &'a [Lexeme])>
    ensures read { MatchOption result (held tokens.now (code kind ∷ []) ≡ false) (λ r. Takes (code kind ∷ []) tokens.now r.0.now r.1.now) }
    ensures shorter { MatchOption result (Unit {0}) (λ r. length r.1.now < length tokens.now) }
{
    match tokens.split_first() {
        Some((first, rest)) => {
            if is_of(first, kind) {
                Some((first, rest))
            } else {
                None
            }
        }
        None => None,
    }
}

/// The first token, where it is of one of these kinds, and those behind it.
#[tactic(auto, using(crate::proofs::Words::take_word, crate::proofs::Words::not_held, crate::proofs::Words::none_held))]
pub fn accept_any<'a>(
    tokens: &'a [Lexeme],
    kinds: &[TokenKind],
) -> Option<(&'a Lexeme, &'a [Lexeme])>
    ensures read { MatchOption result (held tokens.now (map code kinds.now) ≡ false) (λ r. Takes (map code kinds.now) tokens.now r.0.now r.1.now) }
    ensures shorter { MatchOption result (Unit {0}) (λ r. length r.1.now < length tokens.now) }
{
    match tokens.split_first() {
        Some((first, rest)) => {
            if is_of_any(first, kinds) {
                Some((first, rest))
            } else {
                None
            }
        }
        None => None,
    }
}

/// The first token, where it is an identifier, and those behind it.
#[tactic(auto, using(crate::proofs::Words::take_word, crate::proofs::Words::not_held, crate::proofs::Words::none_held))]
pub fn accept_identifier<'a>(tokens: &'a [Lexeme]) -> Option<(&'a Lexeme, &'a [Lexeme])>
    ensures read { MatchOption result (held tokens.now identifiers ≡ false) (λ r. Takes identifiers tokens.now r.0.now r.1.now) }
    ensures shorter { MatchOption result (Unit {0}) (λ r. length r.1.now < length tokens.now) }
{
    match tokens.split_first() {
        Some((first, rest)) => {
            if is_identifier(first) {
                Some((first, rest))
            } else {
                None
            }
        }
        None => None,
    }
}

/// The first token, where it is a decimal, and those behind it.
#[tactic(auto, using(crate::proofs::Words::take_word, crate::proofs::Words::not_held, crate::proofs::Words::none_held))]
pub fn accept_number<'a>(tokens: &'a [Lexeme]) -> Option<(&'a Lexeme, &'a [Lexeme])>
    ensures read { MatchOption result (held tokens.now numbers ≡ false) (λ r. Takes numbers tokens.now r.0.now r.1.now) }
    ensures shorter { MatchOption result (Unit {0}) (λ r. length r.1.now < length tokens.now) }
{
    match tokens.split_first() {
        Some((first, rest)) => {
            if is_number(first) {
                Some((first, rest))
            } else {
                None
            }
        }
        None => None,
    }
}

/// The first token, where it is spelled `2`, and those behind it.
#[tactic(auto, using(crate::proofs::Words::take_word, crate::proofs::Words::not_held, crate::proofs::Words::none_held))]
pub fn accept_two<'a>(tokens: &'a [Lexeme]) -> Option<(&'a Lexeme, &'a [Lexeme])>
    ensures read { MatchOption result (held tokens.now (two ∷ []) ≡ false) (λ r. Takes (two ∷ []) tokens.now r.0.now r.1.now) }
    ensures shorter { MatchOption result (Unit {0}) (λ r. length r.1.now < length tokens.now) }
{
    match tokens.split_first() {
        Some((first, rest)) => {
            if is_two(first) {
                Some((first, rest))
            } else {
                None
            }
        }
        None => None,
    }
}

/// The first token, where it is spelled as a kind, and those behind it.
#[tactic(auto, using(crate::proofs::Words::take_word, crate::proofs::Words::not_held, crate::proofs::Words::none_held))]
pub fn accept_kind_name<'a>(tokens: &'a [Lexeme]) -> Option<(&'a Lexeme, &'a [Lexeme])>
    ensures read { MatchOption result (held tokens.now (kind_name ∷ []) ≡ false) (λ r. Takes (kind_name ∷ []) tokens.now r.0.now r.1.now) }
    ensures shorter { MatchOption result (Unit {0}) (λ r. length r.1.now < length tokens.now) }
{
    match tokens.split_first() {
        Some((first, rest)) => {
            if is_kind_name(first) {
                Some((first, rest))
            } else {
                None
            }
        }
        None => None,
    }
}

/// The first token, which is to be of this kind, and those behind it.
#[tactic(auto, using(crate::proofs::Words::take_word, crate::proofs::Words::stop_word))]
pub fn expect<'a>(
    tokens: &'a [Lexeme],
    kind: TokenKind,
) -> Result<(&'a Lexeme, &'a [Lexeme]), ReadError>
    ensures read { IfOk result (λ r. Takes (code kind ∷ []) tokens.now r.0.now r.1.now) }
    ensures shorter { IfOk result (λ r. length r.1.now < length tokens.now) }
    ensures stop { IfErr result (λ e. StopsAt (Word (code kind ∷ [])) tokens.now e) }
{
    match accept(tokens, kind) {
        Some(read) => Ok(read),
        None => Err(ReadError::Unfit(tokens.len())),
    }
}

/// The first token, which is to be of one of these kinds, and those behind it.
#[tactic(auto, using(crate::proofs::Words::take_word, crate::proofs::Words::stop_word))]
pub fn expect_any<'a>(
    tokens: &'a [Lexeme],
    kinds: &[TokenKind],
) -> Result<(&'a Lexeme, &'a [Lexeme]), ReadError>
    ensures read { IfOk result (λ r. Takes (map code kinds.now) tokens.now r.0.now r.1.now) }
    ensures shorter { IfOk result (λ r. length r.1.now < length tokens.now) }
    ensures stop { IfErr result (λ e. StopsAt (Word (map code kinds.now)) tokens.now e) }
{
    match accept_any(tokens, kinds) {
        Some(read) => Ok(read),
        None => Err(ReadError::Unfit(tokens.len())),
    }
}

/// The first token, which is to be an identifier, and those behind it.
#[tactic(auto, using(crate::proofs::Words::take_word, crate::proofs::Words::stop_word))]
pub fn expect_identifier<'a>(tokens: &'a [Lexeme]) -> Result<(&'a Lexeme, &'a [Lexeme]), ReadError>
    ensures read { IfOk result (λ r. Takes identifiers tokens.now r.0.now r.1.now) }
    ensures shorter { IfOk result (λ r. length r.1.now < length tokens.now) }
    ensures stop { IfErr result (λ e. StopsAt (Word identifiers) tokens.now e) }
{
    match accept_identifier(tokens) {
        Some(read) => Ok(read),
        None => Err(ReadError::Unfit(tokens.len())),
    }
}

/// The first token, which is to be a decimal, and those behind it.
#[tactic(auto, using(crate::proofs::Words::take_word, crate::proofs::Words::stop_word))]
pub fn expect_number<'a>(tokens: &'a [Lexeme]) -> Result<(&'a Lexeme, &'a [Lexeme]), ReadError>
    ensures read { IfOk result (λ r. Takes numbers tokens.now r.0.now r.1.now) }
    ensures shorter { IfOk result (λ r. length r.1.now < length tokens.now) }
    ensures stop { IfErr result (λ e. StopsAt (Word numbers) tokens.now e) }
{
    match accept_number(tokens) {
        Some(read) => Ok(read),
        None => Err(ReadError::Unfit(tokens.len())),
    }
}

/// The first token, which is to be spelled as a kind, and those behind it.
#[tactic(auto, using(crate::proofs::Words::take_word, crate::proofs::Words::stop_word))]
pub fn expect_kind_name<'a>(tokens: &'a [Lexeme]) -> Result<(&'a Lexeme, &'a [Lexeme]), ReadError>
    ensures read { IfOk result (λ r. Takes (kind_name ∷ []) tokens.now r.0.now r.1.now) }
    ensures shorter { IfOk result (λ r. length r.1.now < length tokens.now) }
    ensures stop { IfErr result (λ e. StopsAt (Word (kind_name ∷ [])) tokens.now e) }
{
    match accept_kind_name(tokens) {
        Some(read) => Ok(read),
        None => Err(ReadError::Unfit(tokens.len())),
    }
}

/// The first token, which is to be spelled `2`, and those behind it.
#[tactic(auto, using(crate::proofs::Words::take_word, crate::proofs::Words::stop_word))]
pub fn expect_two<'a>(tokens: &'a [Lexeme]) -> Result<(&'a Lexeme, &'a [Lexeme]), ReadError>
    ensures read { IfOk result (λ r. Takes (two ∷ []) tokens.now r.0.now r.1.now) }
    ensures shorter { IfOk result (λ r. length r.1.now < length tokens.now) }
    ensures stop { IfErr result (λ e. StopsAt (Word (two ∷ [])) tokens.now e) }
{
    match accept_two(tokens) {
        Some(read) => Ok(read),
        None => Err(ReadError::Unfit(tokens.len())),
    }
}

/// Whether the first token is of this kind.
#[tactic(auto, using(crate::proofs::Words::held_head))]
pub fn sees(tokens: &[Lexeme], kind: TokenKind) -> bool
    ensures { result ≡ held tokens.now (code kind ∷ []) }
{
    match tokens.split_first() {
        Some((first, _)) => is_of(first, kind),
        None => false,
    }
}

/// Whether the first token is of one of these kinds.
#[tactic(auto, using(crate::proofs::Words::held_head))]
pub fn sees_any(tokens: &[Lexeme], kinds: &[TokenKind]) -> bool
    ensures { result ≡ held tokens.now (map code kinds.now) }
{
    match tokens.split_first() {
        Some((first, _)) => is_of_any(first, kinds),
        None => false,
    }
}

/// Whether the first token is an identifier.
#[tactic(auto, using(crate::proofs::Words::held_head))]
pub fn sees_identifier(tokens: &[Lexeme]) -> bool
    ensures { result ≡ held tokens.now identifiers }
{
    match tokens.split_first() {
        Some((first, _)) => is_identifier(first),
        None => false,
    }
}

/// Whether the first token is spelled `2`.
#[tactic(auto, using(crate::proofs::Words::held_head))]
pub fn sees_two(tokens: &[Lexeme]) -> bool
    ensures { result ≡ held tokens.now (two ∷ []) }
{
    match tokens.split_first() {
        Some((first, _)) => is_two(first),
        None => false,
    }
}

/// Whether the first token is a decimal.
#[tactic(auto, using(crate::proofs::Words::held_head))]
pub fn sees_number(tokens: &[Lexeme]) -> bool
    ensures { result ≡ held tokens.now numbers }
{
    match tokens.split_first() {
        Some((first, _)) => is_number(first),
        None => false,
    }
}
