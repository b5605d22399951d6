ghost use Rattle.std.specs.Prelude.{◌≡◌, ◌<◌, ◌≤◌, ℕ, length, nat_eq, Option, map, true};
ghost use Rattle.std.specs.List.{starts_with};
ghost use Rattle.std.specs.Option.{option_map};
ghost use Rattle.sail_lex.specs.Entries.{entry, entries, none_empty};
ghost use Rattle.sail_lex.specs.Lookup.{kind_in, kind_of_name, longest_in, longer_of};
ghost use Rattle.sail_lex.specs.Tables.{keywords, symbols};

use crate::bytes::first;
use crate::kind::TokenKind;

/// A spelling and its kind.
#[derive(Clone, Copy, Debug)]
pub struct Spelling {
    pub text: &'static [u8],
    pub kind: TokenKind,
}

/// Whether the spelling begins the text. Most are told apart by their first bytes.
fn begins(spelling: &[u8], text: &[u8]) -> bool
    requires { 0 < length spelling.now }
    ensures { result ≡ starts_with nat_eq text.now spelling.now }
{
    first(spelling) == first(text) && text.starts_with(spelling)
}

/// The kind of a word, if it stands in the table.
fn find(table: &[Spelling], word: &[u8]) -> Option<TokenKind>
    ensures { result ≡ kind_in (entries table.now) word.now }
{
    for spelling in table {
        if spelling.text == word {
            return Some(spelling.kind);
        }
    }
    None
}

/// The kind of a name: the wildcard, a keyword's, or an identifier.
pub fn name_kind(name: &[u8]) -> TokenKind
    ensures { result ≡ kind_of_name name.now }
{
    if name == b"_".as_slice() {
        return TokenKind::Wildcard;
    }
    find_keyword(name).unwrap_or(TokenKind::Identifier)
}

/// The kind of a keyword of the language.
#[tactic(auto, unfolding(crate::specs::Tables::keywords))]
fn find_keyword(name: &[u8]) -> Option<TokenKind>
    ensures { result ≡ kind_in keywords name.now }
{
    find(&KEYWORDS, name)
}

/// The longest spelling of the table that begins the text.
fn longest(table: &[Spelling], text: &[u8]) -> Option<Spelling>
    requires { none_empty (entries table.now) ≡ true }
    ensures { option_map entry result ≡ longest_in (entries table.now) text.now }
{
    let mut best = None;
    for spelling in table {
        if begins(spelling.text, text) {
            best = longer(best, *spelling);
        }
    }
    best
}

/// The longest symbol that begins the text.
#[tactic(auto, unfolding(crate::specs::Tables::symbols))]
pub fn longest_symbol(text: &[u8]) -> Option<Spelling>
    ensures { option_map entry result ≡ longest_in symbols text.now }
{
    longest(&SYMBOLS, text)
}

/// The longer of two spellings, the first where they are as long.
fn longer(best: Option<Spelling>, other: Spelling) -> Option<Spelling>
    ensures { option_map entry result ≡ longer_of (option_map entry best) (Some (entry other)) }
{
    match best {
        Some(spelling) => {
            if spelling.text.len() < other.text.len() {
                Some(other)
            } else {
                Some(spelling)
            }
        }
        None => Some(other),
    }
}

/// Each keyword with its kind.
pub static KEYWORDS: [Spelling; 67] = [
    Spelling {
        text: b"as",
        kind: TokenKind::As,
    },
    Spelling {
        text: b"assert",
        kind: TokenKind::Assert,
    },
    Spelling {
        text: b"bitone",
        kind: TokenKind::Bitone,
    },
    Spelling {
        text: b"bitzero",
        kind: TokenKind::Bitzero,
    },
    Spelling {
        text: b"by",
        kind: TokenKind::By,
    },
    Spelling {
        text: b"catch",
        kind: TokenKind::Catch,
    },
    Spelling {
        text: b"clause",
        kind: TokenKind::Clause,
    },
    Spelling {
        text: b"constraint",
        kind: TokenKind::Constraint,
    },
    Spelling {
        text: b"dec",
        kind: TokenKind::Dec,
    },
    Spelling {
        text: b"default",
        kind: TokenKind::Default,
    },
    Spelling {
        text: b"do",
        kind: TokenKind::Do,
    },
    Spelling {
        text: b"else",
        kind: TokenKind::Else,
    },
    Spelling {
        text: b"end",
        kind: TokenKind::End,
    },
    Spelling {
        text: b"enum",
        kind: TokenKind::Enum,
    },
    Spelling {
        text: b"exit",
        kind: TokenKind::Exit,
    },
    Spelling {
        text: b"false",
        kind: TokenKind::False,
    },
    Spelling {
        text: b"forall",
        kind: TokenKind::Forall,
    },
    Spelling {
        text: b"foreach",
        kind: TokenKind::Foreach,
    },
    Spelling {
        text: b"from",
        kind: TokenKind::From,
    },
    Spelling {
        text: b"function",
        kind: TokenKind::Function,
    },
    Spelling {
        text: b"if",
        kind: TokenKind::If,
    },
    Spelling {
        text: b"in",
        kind: TokenKind::In,
    },
    Spelling {
        text: b"inc",
        kind: TokenKind::Inc,
    },
    Spelling {
        text: b"let",
        kind: TokenKind::Let,
    },
    Spelling {
        text: b"mapping",
        kind: TokenKind::Mapping,
    },
    Spelling {
        text: b"match",
        kind: TokenKind::Match,
    },
    Spelling {
        text: b"not",
        kind: TokenKind::Not,
    },
    Spelling {
        text: b"operator",
        kind: TokenKind::Operator,
    },
    Spelling {
        text: b"overload",
        kind: TokenKind::Overload,
    },
    Spelling {
        text: b"register",
        kind: TokenKind::Register,
    },
    Spelling {
        text: b"repeat",
        kind: TokenKind::Repeat,
    },
    Spelling {
        text: b"return",
        kind: TokenKind::Return,
    },
    Spelling {
        text: b"scattered",
        kind: TokenKind::Scattered,
    },
    Spelling {
        text: b"sizeof",
        kind: TokenKind::Sizeof,
    },
    Spelling {
        text: b"struct",
        kind: TokenKind::Struct,
    },
    Spelling {
        text: b"termination_measure",
        kind: TokenKind::TerminationMeasure,
    },
    Spelling {
        text: b"then",
        kind: TokenKind::Then,
    },
    Spelling {
        text: b"throw",
        kind: TokenKind::Throw,
    },
    Spelling {
        text: b"to",
        kind: TokenKind::To,
    },
    Spelling {
        text: b"true",
        kind: TokenKind::True,
    },
    Spelling {
        text: b"try",
        kind: TokenKind::Try,
    },
    Spelling {
        text: b"type",
        kind: TokenKind::TypeWord,
    },
    Spelling {
        text: b"union",
        kind: TokenKind::Union,
    },
    Spelling {
        text: b"until",
        kind: TokenKind::Until,
    },
    Spelling {
        text: b"val",
        kind: TokenKind::Val,
    },
    Spelling {
        text: b"var",
        kind: TokenKind::Var,
    },
    Spelling {
        text: b"while",
        kind: TokenKind::While,
    },
    Spelling {
        text: b"with",
        kind: TokenKind::With,
    },
    Spelling {
        text: b"undefined",
        kind: TokenKind::LeftOut,
    },
    Spelling {
        text: b"ref",
        kind: TokenKind::LeftOut,
    },
    Spelling {
        text: b"real",
        kind: TokenKind::LeftOut,
    },
    Spelling {
        text: b"effect",
        kind: TokenKind::LeftOut,
    },
    Spelling {
        text: b"outcome",
        kind: TokenKind::LeftOut,
    },
    Spelling {
        text: b"instantiation",
        kind: TokenKind::LeftOut,
    },
    Spelling {
        text: b"newtype",
        kind: TokenKind::LeftOut,
    },
    Spelling {
        text: b"private",
        kind: TokenKind::LeftOut,
    },
    Spelling {
        text: b"mutual",
        kind: TokenKind::LeftOut,
    },
    Spelling {
        text: b"infix",
        kind: TokenKind::LeftOut,
    },
    Spelling {
        text: b"infixl",
        kind: TokenKind::LeftOut,
    },
    Spelling {
        text: b"infixr",
        kind: TokenKind::LeftOut,
    },
    Spelling {
        text: b"cast",
        kind: TokenKind::LeftOut,
    },
    Spelling {
        text: b"forwards",
        kind: TokenKind::LeftOut,
    },
    Spelling {
        text: b"backwards",
        kind: TokenKind::LeftOut,
    },
    Spelling {
        text: b"config",
        kind: TokenKind::LeftOut,
    },
    Spelling {
        text: b"bitfield",
        kind: TokenKind::LeftOut,
    },
    Spelling {
        text: b"implicit",
        kind: TokenKind::LeftOut,
    },
    Spelling {
        text: b"Order",
        kind: TokenKind::Order,
    },
];

/// Each symbol with its kind.
pub static SYMBOLS: [Spelling; 42] = [
    Spelling {
        text: b"(",
        kind: TokenKind::OpenParenthesis,
    },
    Spelling {
        text: b")",
        kind: TokenKind::CloseParenthesis,
    },
    Spelling {
        text: b"[",
        kind: TokenKind::OpenBracket,
    },
    Spelling {
        text: b"]",
        kind: TokenKind::CloseBracket,
    },
    Spelling {
        text: b"{",
        kind: TokenKind::OpenBrace,
    },
    Spelling {
        text: b"}",
        kind: TokenKind::CloseBrace,
    },
    Spelling {
        text: b"[|",
        kind: TokenKind::OpenVector,
    },
    Spelling {
        text: b"|]",
        kind: TokenKind::CloseVector,
    },
    Spelling {
        text: b",",
        kind: TokenKind::Comma,
    },
    Spelling {
        text: b";",
        kind: TokenKind::Semicolon,
    },
    Spelling {
        text: b":",
        kind: TokenKind::Colon,
    },
    Spelling {
        text: b"::",
        kind: TokenKind::DoubleColon,
    },
    Spelling {
        text: b".",
        kind: TokenKind::Dot,
    },
    Spelling {
        text: b"..",
        kind: TokenKind::DoubleDot,
    },
    Spelling {
        text: b"=",
        kind: TokenKind::Equal,
    },
    Spelling {
        text: b"==",
        kind: TokenKind::DoubleEqual,
    },
    Spelling {
        text: b"!=",
        kind: TokenKind::NotEqual,
    },
    Spelling {
        text: b"<",
        kind: TokenKind::Less,
    },
    Spelling {
        text: b"<=",
        kind: TokenKind::LessEqual,
    },
    Spelling {
        text: b">",
        kind: TokenKind::Greater,
    },
    Spelling {
        text: b">=",
        kind: TokenKind::GreaterEqual,
    },
    Spelling {
        text: b"<_u",
        kind: TokenKind::LessUnsigned,
    },
    Spelling {
        text: b"<=_u",
        kind: TokenKind::LessEqualUnsigned,
    },
    Spelling {
        text: b">_u",
        kind: TokenKind::GreaterUnsigned,
    },
    Spelling {
        text: b">=_u",
        kind: TokenKind::GreaterEqualUnsigned,
    },
    Spelling {
        text: b"<_s",
        kind: TokenKind::LessSigned,
    },
    Spelling {
        text: b"<=_s",
        kind: TokenKind::LessEqualSigned,
    },
    Spelling {
        text: b">_s",
        kind: TokenKind::GreaterSigned,
    },
    Spelling {
        text: b">=_s",
        kind: TokenKind::GreaterEqualSigned,
    },
    Spelling {
        text: b"+",
        kind: TokenKind::Plus,
    },
    Spelling {
        text: b"-",
        kind: TokenKind::Minus,
    },
    Spelling {
        text: b"*",
        kind: TokenKind::Star,
    },
    Spelling {
        text: b"^",
        kind: TokenKind::Caret,
    },
    Spelling {
        text: b"@",
        kind: TokenKind::At,
    },
    Spelling {
        text: b"&",
        kind: TokenKind::Ampersand,
    },
    Spelling {
        text: b"|",
        kind: TokenKind::Bar,
    },
    Spelling {
        text: b"~",
        kind: TokenKind::Tilde,
    },
    Spelling {
        text: b"<<",
        kind: TokenKind::ShiftLeft,
    },
    Spelling {
        text: b">>",
        kind: TokenKind::ShiftRight,
    },
    Spelling {
        text: b"->",
        kind: TokenKind::Arrow,
    },
    Spelling {
        text: b"<->",
        kind: TokenKind::DoubleArrow,
    },
    Spelling {
        text: b"=>",
        kind: TokenKind::FatArrow,
    },
];
