/// Where a form stands in the text of a model: its first byte, unless the form says otherwise.
///
/// Files are counted from 1 in the order of the words, lines from 1 (a line ends at LF), and
/// columns from 1 in bytes. It is printed as `file:line:column`.
#[derive(Clone, Copy, PartialEq, Eq, Debug)]
pub struct Place {
    pub file: u32,
    pub line: u32,
    pub column: u32,
}
