use sail_base::Items;
use sail_types::{Con, Num};

/// What a call of a builtin owes, and what its result is.
///
/// Variables 0, 1 and 2 stand for the numbers of its arguments in order: for an integer that integer, for
/// bits their width, for a vector its length, for a truth that truth. Variable 3 stands for the number of
/// the result, and variable 4 for the product of two of them, where the row speaks of one.
pub struct RowType {
    /// What a call owes, over the arguments alone: each of these as one conjunction. A call owes nothing
    /// where there are none.
    pub conditions: Items<Con>,
    /// What variable 4 is.
    pub product: Product,
    /// What the result is.
    pub outcome: Outcome,
}

/// A product that a row speaks of.
#[derive(Clone, Copy, PartialEq, Eq, Debug)]
pub enum Product {
    /// None.
    Nothing,
    /// Of the numbers of the first two arguments.
    OfArguments,
    /// Of the numbers of the second argument and of the result.
    OfResult,
}

/// What a result is.
pub enum Outcome {
    /// The integer that the number is: `int(t)`.
    Integer(Num),
    /// An integer from the first number to the second, of which the constraints are true too. It is variable 3.
    Fresh(Num, Num, Items<Con>),
    /// Whether the constraint is true: `bool(C)`.
    Truth(Con),
    /// `true` or `false`.
    Bool,
    /// So many bits: `bits(t)`.
    Bits(Num),
    /// So many items, each the second argument.
    Vector(Num),
    /// A string.
    String,
    /// `()`
    Unit,
}

impl Drop for RowType {
    fn drop(self) {
        let RowType {
            conditions: _,
            product: _,
            outcome: _,
        } = self;
    }
}

impl Drop for Outcome {
    fn drop(self) {
        match self {
            Outcome::Integer(_) => {}
            Outcome::Fresh(_, _, _) => {}
            Outcome::Truth(_) => {}
            Outcome::Bool => {}
            Outcome::Bits(_) => {}
            Outcome::Vector(_) => {}
            Outcome::String => {}
            Outcome::Unit => {}
        }
    }
}
