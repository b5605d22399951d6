ghost use Rattle.std.specs.Prelude.{◌≡◌, ◌≤◌, ◌==◌, IfOk};
ghost use Rattle.sail_grammar.specs.Levels.{levels, is_in, awaits, begins, is_level, closed, one_deeper, counted, nest, deep};
ghost use Rattle.sail_grammar.specs.Levels.{none_open};
ghost use Rattle.sail_grammar.specs.Symbol.{code};
ghost use Rattle.sail_lex.specs.declared.kind.TokenKind.TheVariants as K;
ghost use Rattle.sail_levels.specs.Counting.{nesting_of, symbol_before, opened, parted, passed};

use sail_base::Items;
use sail_grammar::Lexeme;
use sail_lex::TokenKind;
use std::alloc::{AllocError, Global};

/// The symbols of operators: those of expressions, which types and patterns share.
pub const OPERATORS: [TokenKind; 24] = [
    TokenKind::Caret,
    TokenKind::Star,
    TokenKind::ShiftLeft,
    TokenKind::ShiftRight,
    TokenKind::Plus,
    TokenKind::Minus,
    TokenKind::At,
    TokenKind::DoubleColon,
    TokenKind::Ampersand,
    TokenKind::Bar,
    TokenKind::DoubleEqual,
    TokenKind::NotEqual,
    TokenKind::Less,
    TokenKind::LessEqual,
    TokenKind::Greater,
    TokenKind::GreaterEqual,
    TokenKind::LessUnsigned,
    TokenKind::LessEqualUnsigned,
    TokenKind::GreaterUnsigned,
    TokenKind::GreaterEqualUnsigned,
    TokenKind::LessSigned,
    TokenKind::LessEqualSigned,
    TokenKind::GreaterSigned,
    TokenKind::GreaterEqualSigned,
];

// A model has at most so many levels.
const MOST_LEVELS: usize = 128;

const OPENING: [TokenKind; 4] = [
    TokenKind::OpenParenthesis,
    TokenKind::OpenBracket,
    TokenKind::OpenBrace,
    TokenKind::OpenVector,
];

const CLOSING: [TokenKind; 4] = [
    TokenKind::CloseParenthesis,
    TokenKind::CloseBracket,
    TokenKind::CloseBrace,
    TokenKind::CloseVector,
];

const SEPARATORS: [TokenKind; 3] = [TokenKind::Comma, TokenKind::Semicolon, TokenKind::FatArrow];

const LEVEL_WORDS: [TokenKind; 13] = [
    TokenKind::If,
    TokenKind::Match,
    TokenKind::Let,
    TokenKind::Var,
    TokenKind::Foreach,
    TokenKind::While,
    TokenKind::Repeat,
    TokenKind::Try,
    TokenKind::Return,
    TokenKind::Throw,
    TokenKind::Exit,
    TokenKind::As,
    TokenKind::Forall,
];

const DEFINITION_WORDS: [TokenKind; 14] = [
    TokenKind::Default,
    TokenKind::TypeWord,
    TokenKind::Enum,
    TokenKind::Struct,
    TokenKind::Union,
    TokenKind::Val,
    TokenKind::Function,
    TokenKind::TerminationMeasure,
    TokenKind::Mapping,
    TokenKind::Let,
    TokenKind::Register,
    TokenKind::Overload,
    TokenKind::Scattered,
    TokenKind::End,
];

const LAST_TOKENS: [TokenKind; 11] = [
    TokenKind::Identifier,
    TokenKind::TypeVariable,
    TokenKind::Decimal,
    TokenKind::Hexadecimal,
    TokenKind::Binary,
    TokenKind::StringLiteral,
    TokenKind::True,
    TokenKind::False,
    TokenKind::Bitone,
    TokenKind::Bitzero,
    TokenKind::Dec,
];

// A bracket behind one of these is that of a `foreach` or of a loop's measure.
const AWAITING: [TokenKind; 2] = [TokenKind::Foreach, TokenKind::TerminationMeasure];

// The operator behind this word is a name.
const NAMING: [TokenKind; 1] = [TokenKind::Operator];

// An open bracket: the levels directly inside it since the last separator, and whether a definition may
// end behind it.
#[derive(Clone, Copy)]
struct Opened {
    count: usize,
    ends: bool,
}

// The open brackets, the innermost last; the levels outside of all of them since the definition began;
// whether that is an enum; whether a definition may have ended; the token before; and all levels.
#[derive(Drop)]
struct Nesting {
    inside: Items<Opened>,
    outside: usize,
    is_enum: bool,
    ends: bool,
    before: Option<TokenKind>,
    total: usize,
}

/// The first token that has more levels than a model may have, by its place in the list. It fails where
/// memory is wanting.
pub fn deep(alloc: Global, tokens: &[Lexeme]) -> Result<Option<usize>, AllocError>
    ensures { IfOk result (λ place. place ≡ deep tokens.now) }
{
    let mut nesting = Nesting {
        inside: Items::new(alloc),
        outside: 0,
        is_enum: false,
        ends: true,
        before: None,
        total: 0,
    };
    let mut index = 0;
    'tokens: while index < tokens.len() {
        nesting = nest(nesting, tokens[index].kind)?;
        if nesting.total > MOST_LEVELS {
            return Ok(Some(index));
        }
        index += 1;
    }
    Ok(None)
}

// The nesting behind a token.
fn nest(nesting: Nesting, kind: TokenKind) -> Result<Nesting, AllocError>
    requires total { nesting.total ≡ levels (nesting_of nesting) }
    requires few { nesting.total ≤ MOST_LEVELS }
    ensures nested { IfOk result (λ made. nesting_of made ≡ nest (nesting_of nesting) kind) }
    ensures total { IfOk result (λ made. made.total ≡ levels (nesting_of made)) }
{
    let mut counted = counted(nesting, kind)?;
    counted.before = Some(kind);
    Ok(counted)
}

// What a token makes of the nesting before it.
fn counted(nesting: Nesting, kind: TokenKind) -> Result<Nesting, AllocError>
    requires total { nesting.total ≡ levels (nesting_of nesting) }
    requires few { nesting.total ≤ MOST_LEVELS }
    ensures counted { IfOk result (λ made. nesting_of made ≡ counted (nesting_of nesting) kind) }
    ensures total { IfOk result (λ made. made.total ≡ levels (nesting_of made)) }
{
    if is_in(&OPENING, kind) {
        open(nesting)
    } else if is_in(&CLOSING, kind) {
        Ok(close(nesting))
    } else if is_in(&SEPARATORS, kind) {
        separate(nesting)
    } else {
        let is_level = is_level(&nesting, kind);
        let passed = pass(nesting, kind);
        if is_level { deepen(passed) } else { Ok(passed) }
    }
}

// Opens a bracket.
fn open(nesting: Nesting) -> Result<Nesting, AllocError>
    requires total { nesting.total ≡ levels (nesting_of nesting) }
    requires few { nesting.total ≤ MOST_LEVELS }
    ensures opened { IfOk result (λ made. nesting_of made ≡ opened (nesting_of nesting)) }
    ensures total { IfOk result (λ made. made.total ≡ levels (nesting_of made)) }
{
    let mut opened = nesting;
    let ends = !awaits(opened.before);
    opened.inside.push(Opened { count: 0, ends })?;
    opened.ends = false;
    opened.total += 1;
    Ok(opened)
}

// Whether a bracket behind this token is that of a `foreach` or of a loop's measure.
fn awaits(before: Option<TokenKind>) -> bool
    ensures { result ≡ awaits (symbol_before before) }
{
    match before {
        Some(kind) => is_in(&AWAITING, kind),
        None => false,
    }
}

// Closes the innermost bracket.
fn close(nesting: Nesting) -> Nesting
    requires { nesting.total ≡ levels (nesting_of nesting) }
    ensures closed { nesting_of result ≡ closed (nesting_of nesting).inside (nesting_of nesting) }
    ensures total { result.total ≡ levels (nesting_of result) }
{
    let mut closed = nesting;
    match closed.inside.pop() {
        Some(bracket) => {
            closed.ends = bracket.ends;
            closed.total -= bracket.count + 1;
            closed
        }
        None => {
            closed.ends = true;
            closed
        }
    }
}

// Begins the count inside the innermost bracket anew.
fn separate(nesting: Nesting) -> Result<Nesting, AllocError>
    requires { nesting.total ≡ levels (nesting_of nesting) }
    ensures parted { IfOk result (λ made. nesting_of made ≡ parted (nesting_of nesting)) }
    ensures total { IfOk result (λ made. made.total ≡ levels (nesting_of made)) }
{
    let mut parted = nesting;
    parted.ends = false;
    match parted.inside.pop() {
        Some(bracket) => {
            let ends = bracket.ends;
            parted.inside.push(Opened { count: 0, ends })?;
            parted.total -= bracket.count;
            Ok(parted)
        }
        None => Ok(parted),
    }
}

// Passes a token that is no bracket and no separator, the level aside that it may be.
fn pass(nesting: Nesting, kind: TokenKind) -> Nesting
    requires { nesting.total ≡ levels (nesting_of nesting) }
    ensures passed { nesting_of result ≡ passed (nesting_of nesting) kind }
    ensures total { result.total ≡ levels (nesting_of result) }
    ensures fewer { result.total ≤ nesting.total }
{
    let begins = begins(&nesting, kind);
    let mut passed = nesting;
    passed.ends = is_in(&LAST_TOKENS, kind);
    if begins {
        passed.total -= passed.outside;
        passed.outside = 0;
        passed.is_enum = kind == TokenKind::Enum;
        passed
    } else {
        passed
    }
}

// Puts one level more directly inside the innermost bracket, or outside of all.
fn deepen(nesting: Nesting) -> Result<Nesting, AllocError>
    requires total { nesting.total ≡ levels (nesting_of nesting) }
    requires few { nesting.total ≤ MOST_LEVELS }
    ensures deeper { IfOk result (λ made. nesting_of made ≡ one_deeper (nesting_of nesting).inside (nesting_of nesting)) }
    ensures total { IfOk result (λ made. made.total ≡ levels (nesting_of made)) }
{
    let mut deeper = nesting;
    deeper.total += 1;
    match deeper.inside.pop() {
        Some(bracket) => {
            let ends = bracket.ends;
            let count = bracket.count + 1;
            deeper.inside.push(Opened { count, ends })?;
            Ok(deeper)
        }
        None => {
            deeper.outside += 1;
            Ok(deeper)
        }
    }
}

// Whether no bracket is open.
fn none_open(nesting: &Nesting) -> bool
    ensures { result ≡ none_open (nesting_of nesting.now).inside }
{
    nesting.inside.is_empty()
}

// Whether a word begins a definition.
fn begins(nesting: &Nesting, kind: TokenKind) -> bool
    ensures { result ≡ begins (nesting_of nesting.now) kind }
{
    none_open(nesting) && nesting.ends && is_in(&DEFINITION_WORDS, kind)
}

// Whether a token is a level.
fn is_level(nesting: &Nesting, kind: TokenKind) -> bool
    ensures { result ≡ is_level (nesting_of nesting.now) kind }
{
    if is_in(&LEVEL_WORDS, kind) {
        true
    } else if is_in(&OPERATORS, kind) {
        !is_named(nesting.before)
            && !(nesting.is_enum && none_open(nesting) && kind == TokenKind::Bar)
    } else {
        false
    }
}

// Whether the token before is `operator`.
fn is_named(before: Option<TokenKind>) -> bool
    ensures { result ≡ (symbol_before before == code K.Operator) }
{
    match before {
        Some(kind) => is_in(&NAMING, kind),
        None => false,
    }
}

// Whether a kind is one of these.
fn is_in(kinds: &[TokenKind], kind: TokenKind) -> bool
    ensures { result ≡ is_in kinds.now kind }
{
    for one in kinds {
        if *one == kind {
            return true;
        }
    }
    false
}
