/// The kind of a type variable or of a type definition.
#[derive(Clone, Copy, PartialEq, Eq, Debug)]
pub enum Kind {
    /// `Int`, also of a variable with which no kind is written.
    Int,
    /// `Bool`
    Bool,
    /// `Type`
    Type,
}
