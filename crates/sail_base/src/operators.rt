ghost use Rattle.std.specs.Prelude.{◌≡◌};
ghost use Rattle.sail_base.specs.Operators.{number_of};

/// An infix operator of expressions, in the order of the manual's table of levels, highest first.
#[derive(Clone, Copy, PartialEq, Eq, Debug)]
pub enum Operator {
    /// `^`
    Caret,
    /// `*`
    Star,
    /// `<<`
    ShiftLeft,
    /// `>>`
    ShiftRight,
    /// `+`
    Plus,
    /// `-`
    Minus,
    /// `@`
    Append,
    /// `::`
    Cons,
    /// `==`
    Equal,
    /// `!=`
    NotEqual,
    /// `<`
    Less,
    /// `<=`
    LessEqual,
    /// `>`
    Greater,
    /// `>=`
    GreaterEqual,
    /// `<_u`
    LessUnsigned,
    /// `<=_u`
    LessEqualUnsigned,
    /// `>_u`
    GreaterUnsigned,
    /// `>=_u`
    GreaterEqualUnsigned,
    /// `<_s`
    LessSigned,
    /// `<=_s`
    LessEqualSigned,
    /// `>_s`
    GreaterSigned,
    /// `>=_s`
    GreaterEqualSigned,
    /// `&`
    And,
    /// `|`
    Or,
}

/// What stands before an operand of an expression.
#[derive(Clone, Copy, PartialEq, Eq, Debug)]
pub enum Prefix {
    /// `- e`
    Negate,
    /// `2 ^ e`
    Power,
    /// `~(e)`
    Tilde,
    /// `not(e)`
    Not,
}

/// The number of an operator, from 0, in the order of the manual's table of levels.
pub fn operator_number(operator: Operator) -> usize
    ensures { result ≡ number_of operator }
{
    match operator {
        Operator::Caret => 0,
        Operator::Star => 1,
        Operator::ShiftLeft => 2,
        Operator::ShiftRight => 3,
        Operator::Plus => 4,
        Operator::Minus => 5,
        Operator::Append => 6,
        Operator::Cons => 7,
        Operator::Equal => 8,
        Operator::NotEqual => 9,
        Operator::Less => 10,
        Operator::LessEqual => 11,
        Operator::Greater => 12,
        Operator::GreaterEqual => 13,
        Operator::LessUnsigned => 14,
        Operator::LessEqualUnsigned => 15,
        Operator::GreaterUnsigned => 16,
        Operator::GreaterEqualUnsigned => 17,
        Operator::LessSigned => 18,
        Operator::LessEqualSigned => 19,
        Operator::GreaterSigned => 20,
        Operator::GreaterEqualSigned => 21,
        Operator::And => 22,
        Operator::Or => 23,
    }
}
