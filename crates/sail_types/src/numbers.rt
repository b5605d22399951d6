ghost use Rattle.std.specs.Prelude.{◌≡◌};
ghost use Rattle.sail_types.specs.Sums.{terms_of, constant_of};

use sail_base::{Boxed, Items};

/// A number of a type: a sum of terms in order of first appearance, and a constant.
///
/// It is in normal form where its atoms differ from one another, no coefficient is 0, and no exponent is a
/// constant from 0 to 126. All numbers in it are then from -2^126 to 2^126.
#[cycle(num)]
pub struct Num {
    /// The terms.
    pub terms: Items<Term>,
    /// The constant.
    pub constant: i128,
}

/// A coefficient and what it multiplies.
#[cycle(num)]
pub struct Term {
    pub coefficient: i128,
    pub atom: Atom,
}

/// What a coefficient multiplies.
#[cycle(num)]
pub enum Atom {
    /// A variable, by its number.
    Variable(u32),
    /// `2 ^ t`
    Power(Boxed<Num>),
}

impl Drop for Num {
    #[cycle(num_drop)]
    fn drop(self) {
        let Num {
            terms: _,
            constant: _,
        } = self;
    }
}

impl Drop for Term {
    #[cycle(num_drop)]
    fn drop(self) {
        let Term {
            coefficient: _,
            atom: _,
        } = self;
    }
}

impl Drop for Atom {
    #[cycle(num_drop)]
    fn drop(self) {
        match self {
            Atom::Variable(_) => {}
            Atom::Power(_) => {}
        }
    }
}

impl Num {
    /// The terms and the constant.
    pub fn into_parts(self) -> (Items<Term>, i128)
        ensures terms { result.0 ≡ terms_of self }
        ensures constant { result.1 ≡ constant_of self }
    {
        let Num { terms, constant } = self;
        (terms, constant)
    }
}

/// How two numbers are compared.
#[derive(Clone, Copy, PartialEq, Eq, Debug)]
pub enum Comparison {
    /// `<`
    Less,
    /// `<=`
    LessEqual,
    /// `==`
    Equal,
    /// `!=`
    NotEqual,
    /// `>=`
    GreaterEqual,
    /// `>`
    Greater,
}

/// A constraint.
pub enum Con {
    /// `true` or `false`
    Truth(bool),
    /// A Bool variable, by its number.
    Holds(u32),
    /// `t < u` and its like.
    Compare(Comparison, Num, Num),
    /// `t in {1, 2}`
    OneOf(Num, Items<i128>),
    /// `not(c)`
    Not(Boxed<Con>),
    /// Each of them, `c & d` for two.
    All(Items<Con>),
    /// One of them, `c | d` for two.
    Any(Items<Con>),
}

impl Drop for Con {
    #[cycle(con_drop)]
    fn drop(self) {
        match self {
            Con::Truth(_) => {}
            Con::Holds(_) => {}
            Con::Compare(_, _, _) => {}
            Con::OneOf(_, _) => {}
            Con::Not(_) => {}
            Con::All(_) => {}
            Con::Any(_) => {}
        }
    }
}

/// What an Int variable or a Bool variable stands for.
pub enum Index {
    /// Of an Int variable.
    Number(Num),
    /// Of a Bool variable.
    Truth(Con),
}

impl Drop for Index {
    fn drop(self) {
        match self {
            Index::Number(_) => {}
            Index::Truth(_) => {}
        }
    }
}
