/// How an expression ends what is around it.
#[derive(Clone, Copy, PartialEq, Eq, Debug)]
pub enum Leaving {
    /// `return e`
    Return,
    /// `throw e`
    Throw,
    /// `exit e`
    Exit,
}

/// The brackets around a list of expressions or of patterns.
#[derive(Clone, Copy, PartialEq, Eq, Debug)]
pub enum Brackets {
    /// `( .. )`, which holds no item or at least two.
    Tuple,
    /// `[ .. ]`, which holds at least one.
    Vector,
    /// `[| .. |]`
    List,
}

/// What chooses among cases.
#[derive(Clone, Copy, PartialEq, Eq, Debug)]
pub enum Choosing {
    /// `match e { .. }`
    Match,
    /// `try e catch { .. }`
    Try,
}

/// A loop on a condition.
#[derive(Clone, Copy, PartialEq, Eq, Debug)]
pub enum Looping {
    /// `while e do e`
    While,
    /// `repeat e until e`
    Repeat,
}

/// Which way a `foreach` counts.
#[derive(Clone, Copy, PartialEq, Eq, Debug)]
pub enum Direction {
    /// `inc`, also where nothing is written.
    Up,
    /// `dec`
    Down,
}

/// What is asked of a type in an expression.
#[derive(Clone, Copy, PartialEq, Eq, Debug)]
pub enum Asking {
    /// `sizeof(t)`
    Sizeof,
    /// `constraint(t)`
    Constraint,
}

/// An infix operator of types.
#[derive(Clone, Copy, PartialEq, Eq, Debug)]
pub enum TypeOperator {
    /// `*`
    Star,
    /// `+`
    Plus,
    /// `-`
    Minus,
    /// `==`
    Equal,
    /// `!=`
    NotEqual,
    /// `<`
    Less,
    /// `<=`
    LessEqual,
    /// `>`
    Greater,
    /// `>=`
    GreaterEqual,
    /// `&`
    And,
    /// `|`
    Or,
}

/// What stands before an operand of a type.
#[derive(Clone, Copy, PartialEq, Eq, Debug)]
pub enum TypePrefix {
    /// `- t`
    Negate,
    /// `2 ^ t`
    Power,
    /// `not(t)`
    Not,
}

/// The arrow of a `val`.
#[derive(Clone, Copy, PartialEq, Eq, Debug)]
pub enum Arrow {
    /// `->`, of a function.
    Function,
    /// `<->`, of a mapping.
    Mapping,
}

/// Whether a function is written in one piece.
#[derive(Clone, Copy, PartialEq, Eq, Debug)]
pub enum Extent {
    /// `function f`
    Whole,
    /// The clauses of a `scattered function f`, gathered.
    Gathered,
}
