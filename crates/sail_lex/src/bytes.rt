ghost use Rattle.std.specs.Prelude.{◌≡◌, ◌≤◌, length, take, drop};
ghost use Rattle.std.specs.List.{prefix_len};
ghost use Rattle.sail_lex.specs.Bytes.{is_blank, begins_name, is_binary_digit, is_printable, belongs, first};

/// A class of bytes, of which runs consist.
#[derive(Clone, Copy, PartialEq, Eq, Debug)]
pub enum Class {
    /// Space, tab, carriage return, line feed.
    Blank,
    /// Letters, digits and `_`.
    Name,
    /// Decimal digits and `_`.
    Decimal,
    /// Hexadecimal digits and `_`.
    Hexadecimal,
    /// Binary digits and `_`.
    Binary,
    /// All but the line feed.
    Line,
    /// What a directive may hold.
    Directive,
    /// All but `>`.
    Included,
}

/// Whether the byte is a space, a tab, a carriage return or a line feed.
pub fn is_blank(byte: u8) -> bool
    ensures { result ≡ is_blank byte }
{
    byte == b' ' || byte == b'\t' || byte == b'\r' || byte == b'\n'
}

/// Whether the byte is a letter or `_`.
pub fn begins_name(byte: u8) -> bool
    ensures { result ≡ begins_name byte }
{
    byte.is_ascii_alphabetic() || byte == b'_'
}

/// Whether the byte is `0` or `1`.
pub fn is_binary_digit(byte: u8) -> bool
    ensures { result ≡ is_binary_digit byte }
{
    byte == b'0' || byte == b'1'
}

/// Whether the byte is one from space to `~`.
pub fn is_printable(byte: u8) -> bool
    ensures { result ≡ is_printable byte }
{
    b' ' <= byte && byte <= b'~'
}

/// Whether the byte is of the class.
pub fn belongs(class: Class, byte: u8) -> bool
    ensures { result ≡ belongs class byte }
{
    match class {
        Class::Blank => is_blank(byte),
        Class::Name => begins_name(byte) || byte.is_ascii_digit(),
        Class::Decimal => byte.is_ascii_digit() || byte == b'_',
        Class::Hexadecimal => byte.is_ascii_hexdigit() || byte == b'_',
        Class::Binary => is_binary_digit(byte) || byte == b'_',
        Class::Line => byte != b'\n',
        Class::Directive => is_printable(byte) || byte == b'\t' || byte == b'\r',
        Class::Included => byte != b'>',
    }
}

/// How many of the first bytes of a text are of the class.
pub fn run_length(class: Class, text: &[u8]) -> usize
    ensures run { result ≡ prefix_len (belongs class) text.now }
    ensures within { result ≤ length text.now }
{
    for (i, byte) in text.iter().enumerate() {
        if !belongs(class, *byte) {
            return i;
        }
    }
    text.len()
}

/// The first byte of a text, 0 where there is none.
pub fn first(text: &[u8]) -> u8
    ensures { result ≡ first text.now }
{
    if text.is_empty() { 0 } else { text[0] }
}

/// The first `n` bytes of a text.
pub fn leading(text: &[u8], n: usize) -> &[u8]
    requires { n ≤ length text.now }
    ensures { result.now ≡ take n text.now }
{
    &text[..n]
}

/// What is left of a text after its first `n` bytes.
pub fn rest_of(text: &[u8], n: usize) -> &[u8]
    requires { n ≤ length text.now }
    ensures { result.now ≡ drop n text.now }
{
    &text[n..]
}
