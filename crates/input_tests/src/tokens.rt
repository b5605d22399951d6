use sail_base::Place;
use sail_lex::{LexError, Token, decimal_value, lex, literal_word, string_value};
use std::alloc::{AllocError, Global};
use std::test::Fail;

/// The answer to a source as a text: each token's kind, place and text, or the cause and its place.
fn shown(alloc: Global, source: &[u8], before: u32) -> Result<String, AllocError> {
    let mut out = String::new(alloc);
    if source.len() > 4_194_304 || before > 1_000_000 {
        return Ok(out);
    }
    match lex(alloc, source, 1, before) {
        Ok(found) => {
            for token in found.tokens.as_slice() {
                show_token(alloc, &mut out, source, token)?;
            }
        }
        Err(error) => show_error(alloc, &mut out, &error)?,
    }
    Ok(out)
}

fn show_token(
    alloc: Global,
    out: &mut String,
    source: &[u8],
    token: &Token,
) -> Result<(), AllocError> {
    let kind = token.kind;
    let line = token.place.line;
    let column = token.place.column;
    let head = format!(in alloc; "{kind:?} {line}:{column} ")?;
    out.push_str(&head)?;
    if let Some(text) = source.get(token.start..token.end) {
        for byte in text {
            out.push(char::from(*byte))?;
        }
    }
    out.push(';')?;
    Ok(())
}

fn show_error(alloc: Global, out: &mut String, error: &LexError) -> Result<(), AllocError> {
    let text = match error {
        LexError::BadByte(place, byte) => place_text(alloc, "BadByte", place, *byte)?,
        LexError::BadLiteral(place) => place_text(alloc, "BadLiteral", place, 0)?,
        LexError::Unclosed(place) => place_text(alloc, "Unclosed", place, 0)?,
        LexError::NumberTooLarge(place) => place_text(alloc, "NumberTooLarge", place, 0)?,
        LexError::TokenLimit(place) => place_text(alloc, "TokenLimit", place, 0)?,
        LexError::OutOfMemory => String::new(alloc),
    };
    out.push_str(&text)
}

fn place_text(alloc: Global, name: &str, place: &Place, byte: u8) -> Result<String, AllocError> {
    let line = place.line;
    let column = place.column;
    format!(in alloc; "{name} {line}:{column} {byte}")
}

/// Sources and the answers to them, from the tables of the language.
const ANSWERS: [(&[u8], &str); 62] = [
    (b"", ""),
    (b" \t\r\n", ""),
    (
        b"x _ _a a1_B",
        "Identifier 1:1 x;Wildcard 1:3 _;Identifier 1:5 _a;Identifier 1:8 a1_B;",
    ),
    (
        b"'a '_ 'if",
        "TypeVariable 1:1 'a;TypeVariable 1:4 '_;TypeVariable 1:7 'if;",
    ),
    (
        b"12 1_0_ 007",
        "Decimal 1:1 12;Decimal 1:4 1_0_;Decimal 1:9 007;",
    ),
    (
        b"0x1F_a 0b_1 0b12",
        "Hexadecimal 1:1 0x1F_a;Binary 1:8 0b_1;Binary 1:13 0b1;Decimal 1:16 2;",
    ),
    (
        b"\"a\\n\\\\\\\"\" \"\"",
        "StringLiteral 1:1 \"a\\n\\\\\\\"\";StringLiteral 1:11 \"\";",
    ),
    (
        b"let true termination_measure",
        "Let 1:1 let;True 1:5 true;TerminationMeasure 1:10 termination_measure;",
    ),
    (
        b"type while bitone",
        "TypeWord 1:1 type;While 1:6 while;Bitone 1:12 bitone;",
    ),
    (
        b"undefined implicit ref",
        "LeftOut 1:1 undefined;LeftOut 1:11 implicit;LeftOut 1:20 ref;",
    ),
    (
        b"default Order dec inc",
        "Default 1:1 default;Order 1:9 Order;Dec 1:15 dec;Inc 1:19 inc;",
    ),
    (
        b"Int Bool Type bits",
        "Identifier 1:1 Int;Identifier 1:5 Bool;Identifier 1:10 Type;Identifier 1:15 bits;",
    ),
    (b"lets iff", "Identifier 1:1 lets;Identifier 1:6 iff;"),
    (
        b"(){}[]",
        "OpenParenthesis 1:1 (;CloseParenthesis 1:2 );OpenBrace 1:3 {;CloseBrace 1:4 };OpenBracket 1:5 [;CloseBracket 1:6 ];",
    ),
    (
        b"[||] [|]",
        "OpenVector 1:1 [|;CloseVector 1:3 |];OpenVector 1:6 [|;CloseBracket 1:8 ];",
    ),
    (
        b"a<_ux",
        "Identifier 1:1 a;LessUnsigned 1:2 <_u;Identifier 1:5 x;",
    ),
    (
        b"<->-><-",
        "DoubleArrow 1:1 <->;Arrow 1:4 ->;Less 1:6 <;Minus 1:7 -;",
    ),
    (
        b"<=_s>=_u<_s>_u",
        "LessEqualSigned 1:1 <=_s;GreaterEqualUnsigned 1:5 >=_u;LessSigned 1:9 <_s;GreaterUnsigned 1:12 >_u;",
    ),
    (
        b"<=_u>=_s>_s",
        "LessEqualUnsigned 1:1 <=_u;GreaterEqualSigned 1:5 >=_s;GreaterSigned 1:9 >_s;",
    ),
    (
        b"<=_<_",
        "LessEqual 1:1 <=;Wildcard 1:3 _;Less 1:4 <;Wildcard 1:5 _;",
    ),
    (
        b"===>!=",
        "DoubleEqual 1:1 ==;FatArrow 1:3 =>;NotEqual 1:5 !=;",
    ),
    (
        b"= < <= > >= << >>",
        "Equal 1:1 =;Less 1:3 <;LessEqual 1:5 <=;Greater 1:8 >;GreaterEqual 1:10 >=;ShiftLeft 1:13 <<;ShiftRight 1:16 >>;",
    ),
    (b"1..2", "Decimal 1:1 1;DoubleDot 1:2 ..;Decimal 1:4 2;"),
    (
        b"a.b:::,;",
        "Identifier 1:1 a;Dot 1:2 .;Identifier 1:3 b;DoubleColon 1:4 ::;Colon 1:6 :;Comma 1:7 ,;Semicolon 1:8 ;;",
    ),
    (
        b"+-*^@&|~",
        "Plus 1:1 +;Minus 1:2 -;Star 1:3 *;Caret 1:4 ^;At 1:5 @;Ampersand 1:6 &;Bar 1:7 |;Tilde 1:8 ~;",
    ),
    (b"a // b /* \xff\nc", "Identifier 1:1 a;Identifier 2:1 c;"),
    (b"/* a /* b */ \xc3\xa9 */ c", "Identifier 1:20 c;"),
    (b"/* a\n\n*/ x\ny", "Identifier 3:4 x;Identifier 4:1 y;"),
    (b"/**/x/***/y", "Identifier 1:5 x;Identifier 1:11 y;"),
    (b"/*/*/**/*/*/z", "Identifier 1:13 z;"),
    (b"/*/", "Unclosed 1:1 0"),
    (b"x /* /* */", "Unclosed 1:3 0"),
    (b"/* /*/ */", "Unclosed 1:1 0"),
    (b"*/", "BadByte 1:2 47"),
    (b"a*//b", "Identifier 1:1 a;Star 1:2 *;"),
    (b"\"ab", "Unclosed 1:1 0"),
    (b"  \"a\n\"", "Unclosed 1:3 0"),
    (b"\"\\\"", "Unclosed 1:1 0"),
    (b"\"\\", "BadLiteral 1:1 0"),
    (b"\"\\\n\"", "BadLiteral 1:1 0"),
    (b"\"\\q\"", "BadLiteral 1:1 0"),
    (b"\"a\tb", "BadLiteral 1:1 0"),
    (b"\"\xc3\xa9\"", "BadLiteral 1:1 0"),
    (b"let x : int = 12ab", "BadLiteral 1:15 0"),
    (b"let x : int = 0b_", "BadLiteral 1:15 0"),
    (b"0x_", "BadLiteral 1:1 0"),
    (b"0X1", "BadLiteral 1:1 0"),
    (b"0b2", "BadLiteral 1:1 0"),
    (b"0b1a", "BadLiteral 1:1 0"),
    (b"0x1g", "BadLiteral 1:1 0"),
    (
        b"85070591730234615865843651857942052864",
        "Decimal 1:1 85070591730234615865843651857942052864;",
    ),
    (
        b"85070591730234615865843651857942052865",
        "NumberTooLarge 1:1 0",
    ),
    (
        b"99999999999999999999999999999999999999999999999999a",
        "BadLiteral 1:1 0",
    ),
    (
        b"0x0123456789abcdef0123456789ABCDEF_",
        "Hexadecimal 1:1 0x0123456789abcdef0123456789ABCDEF_;",
    ),
    (
        b"0x00123456789abcdef0123456789ABCDEF",
        "NumberTooLarge 1:1 0",
    ),
    (b"a \n !", "BadByte 2:2 33"),
    (b"\0", "BadByte 1:1 0"),
    (b"\x0c", "BadByte 1:1 12"),
    (b"'1", "BadByte 1:1 39"),
    (b"/", "BadByte 1:1 47"),
    (
        b"$include <a/b.sail> \r\nx$iftrue // y\r\n",
        "Identifier 2:1 x;LeftOut 2:2 $iftrue // y\r;",
    ),
    (b"$include<>\n$include <a> b\n$ \x01", "BadByte 3:3 1"),
];

#[test]
fn answers_by_the_tables(rt: HostRuntime) -> Result<(), Fail> {
    for (source, answer) in &ANSWERS {
        let found = shown(rt.alloc(), source, 0)?;
        assert!(rt; found.as_str() == *answer);
    }
    Ok(())
}

/// So many bytes between two others.
fn between(alloc: Global, first: u8, n: usize, last: u8) -> Result<Vec<u8>, AllocError> {
    let mut text = Vec::new(alloc);
    text.push(first)?;
    let middle = vec![in alloc; b'1'; n]?;
    text.extend_from_slice(&middle)?;
    text.push(last)?;
    Ok(text)
}

/// The first byte, how many stand between, the last, and whether the text isn't refused as a literal.
const LENGTHS: [(u8, usize, u8, bool); 6] = [
    (b'a', 253, b'a', true),
    (b'a', 254, b'a', false),
    (b'\'', 0, b'_', true),
    (b'"', 4096, b'"', true),
    (b'"', 4097, b'"', false),
    (b'"', 4097, b'\n', false),
];

/// Whether a text of this length is refused, or not, as its row says.
fn is_limited(alloc: Global, row: &(u8, usize, u8, bool)) -> Result<bool, AllocError> {
    let (first, n, last, good) = *row;
    let text = between(alloc, first, n, last)?;
    let found = shown(alloc, &text, 0)?;
    Ok((found.as_str() != "BadLiteral 1:1 0") == good)
}

#[test]
fn limits_are_exact(rt: HostRuntime) -> Result<(), Fail> {
    for (at, row) in LENGTHS.iter().enumerate() {
        assert!(rt; is_limited(rt.alloc(), row)?, "row {at}");
    }
    Ok(())
}

#[test]
fn binary_literals_have_128_digits(rt: HostRuntime) -> Result<(), Fail> {
    let alloc = rt.alloc();
    let mut bits = between(alloc, b'0', 128, b' ')?;
    assert!(rt; bits.len() == 130);
    bits[1] = b'b';
    let found = shown(alloc, &bits, 0)?;
    assert!(rt; found.as_str().starts_with("Binary 1:1 0b1"));
    bits[129] = b'0';
    bits.push(b'1')?;
    let found = shown(alloc, &bits, 0)?;
    assert!(rt; found.as_str() == "NumberTooLarge 1:1 0");
    Ok(())
}

/// So many bytes of one kind, and one more.
fn filled(alloc: Global, byte: u8, n: usize, last: u8) -> Result<Vec<u8>, AllocError> {
    let mut text = vec![in alloc; byte; n]?;
    text.push(last)?;
    Ok(text)
}

/// How many tokens the first bytes of a source have, where it has tokens.
fn counted(alloc: Global, source: &[u8], n: usize, before: u32) -> Option<usize> {
    let part = source.get(..n)?;
    if part.len() > 4_194_304 || before > 1_000_000 {
        return None;
    }
    match lex(alloc, part, 2, before) {
        Ok(found) => Some(found.tokens.len()),
        Err(_) => None,
    }
}

/// A byte, how often it stands, the byte behind, the tokens before, and the answer.
const SOURCES: [(u8, usize, u8, u32, &str); 4] = [
    (b' ', 4_194_303, b' ', 0, ""),
    (b' ', 4_194_303, b'x', 1_000_000, "TokenLimit 1:4194304 0"),
    (b' ', 4_194_303, b'!', 1_000_000, "BadByte 1:4194304 33"),
    (b'"', 2_000_001, b'"', 0, "TokenLimit 1:2000001 0"),
];

#[test]
fn sources_at_the_limits_of_bytes_and_tokens(rt: HostRuntime) -> Result<(), Fail> {
    for (byte, n, last, before, answer) in &SOURCES {
        let source = filled(rt.alloc(), *byte, *n, *last)?;
        let found = shown(rt.alloc(), &source, *before)?;
        assert!(rt; found.as_str() == *answer);
    }
    Ok(())
}

#[test]
fn tokens_before_count(rt: HostRuntime) -> Result<(), Fail> {
    let alloc = rt.alloc();
    let source = filled(alloc, b'"', 1_999_999, b'"')?;
    let one = counted(alloc, &source, 2_000_000, 0) == Some(1_000_000);
    let more = counted(alloc, &source, 2_000_000, 1) == None;
    assert!(rt; one && more && counted(alloc, &source, 0, 1_000_000) == Some(0));
    Ok(())
}

#[test]
fn a_source_ends_one_past_its_last_byte(rt: HostRuntime) -> Result<(), Fail> {
    let cases: [(&[u8], u32, u32); 4] = [
        (b"", 1, 1),
        (b"a\n", 2, 1),
        (b"a\nbc", 2, 3),
        (b"\n\n // \xc3\xa9", 3, 7),
    ];
    for (source, line, column) in cases {
        if source.len() <= 4_194_304 {
            let found = lex(rt.alloc(), source, 3, 0).map_err(|_| "no tokens")?;
            let end = Place {
                file: 3,
                line,
                column,
            };
            assert!(rt; found.end == end);
        }
    }
    Ok(())
}

#[test]
fn decimals_have_values(rt: HostRuntime) {
    let separated = decimal_value(b"1_0_") == Some(10);
    let largest = decimal_value(b"85070591730234615865843651857942052864") == Some(1 << 126);
    let larger = decimal_value(b"85070591730234615865843651857942052865") == None;
    assert!(rt; separated && largest && larger);
}

/// A literal of a word, its width and its number; none where it is none.
const WORDS: [(&[u8], Option<(u8, u128)>); 3] = [
    (b"0xF_f1", Some((12, 0xff1))),
    (b"0b0_01", Some((3, 1))),
    (b"0x000000000000000000000000000000000", None),
];

#[test]
fn literals_have_words(rt: HostRuntime) {
    for (literal, wanted) in &WORDS {
        let word = literal_word(literal).map(|word| (word.width(), word.bits()));
        assert!(rt; word == *wanted);
    }
}

#[test]
fn strings_have_bytes(rt: HostRuntime) -> Result<(), Fail> {
    let bytes = string_value(rt.alloc(), b"\"a\\n\\t\\\\\\\"\"")?;
    assert!(rt; bytes.as_slice() == b"a\n\t\\\"".as_slice());
    Ok(())
}
