/// The kind of a token: what the grammar sees of it.
#[derive(Clone, Copy, PartialEq, Eq, Debug)]
pub enum TokenKind {
    /// A name: a letter or `_`, then letters, digits and `_`.
    Identifier,
    /// `'` and a name.
    TypeVariable,
    /// `_` alone.
    Wildcard,
    /// Digits and `_`.
    Decimal,
    /// `0x`, hexadecimal digits and `_`.
    Hexadecimal,
    /// `0b`, binary digits and `_`.
    Binary,
    /// A string in double quotes.
    StringLiteral,
    /// A word or a directive (`$` to the end of its line) of Sail that models may not use.
    LeftOut,
    /// The word `Order`, which may stand right after `default` alone.
    Order,
    /// The word `as`.
    As,
    /// The word `assert`.
    Assert,
    /// The word `bitone`.
    Bitone,
    /// The word `bitzero`.
    Bitzero,
    /// The word `by`.
    By,
    /// The word `catch`.
    Catch,
    /// The word `clause`.
    Clause,
    /// The word `constraint`.
    Constraint,
    /// The word `dec`.
    Dec,
    /// The word `default`.
    Default,
    /// The word `do`.
    Do,
    /// The word `else`.
    Else,
    /// The word `end`.
    End,
    /// The word `enum`.
    Enum,
    /// The word `exit`.
    Exit,
    /// The word `false`.
    False,
    /// The word `forall`.
    Forall,
    /// The word `foreach`.
    Foreach,
    /// The word `from`.
    From,
    /// The word `function`.
    Function,
    /// The word `if`.
    If,
    /// The word `in`.
    In,
    /// The word `inc`.
    Inc,
    /// The word `let`.
    Let,
    /// The word `mapping`.
    Mapping,
    /// The word `match`.
    Match,
    /// The word `not`.
    Not,
    /// The word `operator`.
    Operator,
    /// The word `overload`.
    Overload,
    /// The word `register`.
    Register,
    /// The word `repeat`.
    Repeat,
    /// The word `return`.
    Return,
    /// The word `scattered`.
    Scattered,
    /// The word `sizeof`.
    Sizeof,
    /// The word `struct`.
    Struct,
    /// The word `termination_measure`.
    TerminationMeasure,
    /// The word `then`.
    Then,
    /// The word `throw`.
    Throw,
    /// The word `to`.
    To,
    /// The word `true`.
    True,
    /// The word `try`.
    Try,
    /// The word `type`.
    TypeWord,
    /// The word `union`.
    Union,
    /// The word `until`.
    Until,
    /// The word `val`.
    Val,
    /// The word `var`.
    Var,
    /// The word `while`.
    While,
    /// The word `with`.
    With,
    /// The symbol `(`.
    OpenParenthesis,
    /// The symbol `)`.
    CloseParenthesis,
    /// The symbol `[`.
    OpenBracket,
    /// The symbol `]`.
    CloseBracket,
    /// The symbol `{`.
    OpenBrace,
    /// The symbol `}`.
    CloseBrace,
    /// The symbol `[|`.
    OpenVector,
    /// The symbol `|]`.
    CloseVector,
    /// The symbol `,`.
    Comma,
    /// The symbol `;`.
    Semicolon,
    /// The symbol `:`.
    Colon,
    /// The symbol `::`.
    DoubleColon,
    /// The symbol `.`.
    Dot,
    /// The symbol `..`.
    DoubleDot,
    /// The symbol `=`.
    Equal,
    /// The symbol `==`.
    DoubleEqual,
    /// The symbol `!=`.
    NotEqual,
    /// The symbol `<`.
    Less,
    /// The symbol `<=`.
    LessEqual,
    /// The symbol `>`.
    Greater,
    /// The symbol `>=`.
    GreaterEqual,
    /// The symbol `<_u`.
    LessUnsigned,
    /// The symbol `<=_u`.
    LessEqualUnsigned,
    /// The symbol `>_u`.
    GreaterUnsigned,
    /// The symbol `>=_u`.
    GreaterEqualUnsigned,
    /// The symbol `<_s`.
    LessSigned,
    /// The symbol `<=_s`.
    LessEqualSigned,
    /// The symbol `>_s`.
    GreaterSigned,
    /// The symbol `>=_s`.
    GreaterEqualSigned,
    /// The symbol `+`.
    Plus,
    /// The symbol `-`.
    Minus,
    /// The symbol `*`.
    Star,
    /// The symbol `^`.
    Caret,
    /// The symbol `@`.
    At,
    /// The symbol `&`.
    Ampersand,
    /// The symbol `|`.
    Bar,
    /// The symbol `~`.
    Tilde,
    /// The symbol `<<`.
    ShiftLeft,
    /// The symbol `>>`.
    ShiftRight,
    /// The symbol `->`.
    Arrow,
    /// The symbol `<->`.
    DoubleArrow,
    /// The symbol `=>`.
    FatArrow,
}
