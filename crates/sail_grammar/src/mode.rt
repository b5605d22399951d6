/// Whether all of a row may stand at a place.
///
/// `Limited` is an expression that must be plain (no statement, loop, assignment, `return`, `throw`,
/// `exit`, `assert` or `try`), a pattern that is a side of a mapping's clause (no `_` and no `as`),
/// and the type behind an expression's `:` (no `in` outside of its own brackets).
#[derive(Clone, Copy, PartialEq, Eq, Debug)]
pub enum Mode {
    /// All of it.
    Full,
    /// Some of it.
    Limited,
}
