//! Names, and what they are.
use sail_base::Text;
use value_indices::{Indices, Reading};

/// What a name that a top-level `let` bound is.
pub enum TopLevel {
    /// A value of these indices, which are constant.
    Known(Indices),
    /// A value of this type, opened where it is read, for this name.
    Read(Text, Reading),
}

impl Drop for TopLevel {
    fn drop(self) {
        match self {
            TopLevel::Known(_) => {}
            TopLevel::Read(_, _) => {}
        }
    }
}

/// What a name in scope is.
pub enum Held {
    /// A value of these indices.
    Value(Indices),
    /// A `var` of this type.
    Var(Reading),
}

impl Drop for Held {
    fn drop(self) {
        match self {
            Held::Value(_) => {}
            Held::Var(_) => {}
        }
    }
}

/// A name in scope.
pub struct Bound {
    /// The name.
    pub name: Text,
    /// What it is.
    pub held: Held,
    /// The type that is written at it in the pattern that bound it.
    pub written: Option<Reading>,
}

impl Drop for Bound {
    fn drop(self) {
        let Bound {
            name: _,
            held: _,
            written: _,
        } = self;
    }
}
