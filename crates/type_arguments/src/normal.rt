ghost use Rattle.std.specs.Prelude.{◌≡◌};
ghost use Rattle.type_arguments.specs.Taken.{number_of, constraint_of, typ_of, argument_of};

use sail_types::{Con, Index, Num, Typ};

/// What the text of a type stands for, by its kind.
pub enum Normal {
    /// Of the kind `Int`: a number.
    Number(Num),
    /// Of the kind `Bool`: a constraint.
    Constraint(Con),
    /// Of the kind `Type`: a type.
    Typ(Typ),
}

impl Drop for Normal {
    fn drop(self) {
        match self {
            Normal::Number(_) => {}
            Normal::Constraint(_) => {}
            Normal::Typ(_) => {}
        }
    }
}

impl Normal {
    /// The number, where it is one.
    pub fn into_number(self) -> Option<Num>
        ensures { result ≡ number_of self }
    {
        match self {
            Normal::Number(number) => Some(number),
            Normal::Constraint(_) => None,
            Normal::Typ(_) => None,
        }
    }

    /// The constraint, where it is one.
    pub fn into_constraint(self) -> Option<Con>
        ensures { result ≡ constraint_of self }
    {
        match self {
            Normal::Number(_) => None,
            Normal::Constraint(constraint) => Some(constraint),
            Normal::Typ(_) => None,
        }
    }

    /// The type, where it is one.
    pub fn into_typ(self) -> Option<Typ>
        ensures { result ≡ typ_of self }
    {
        match self {
            Normal::Number(_) => None,
            Normal::Constraint(_) => None,
            Normal::Typ(typ) => Some(typ),
        }
    }

    /// An argument of a named type: of the kind `Int` or `Bool`, or else a type.
    pub fn into_argument(self) -> Result<Index, Typ>
        ensures { result ≡ argument_of self }
    {
        match self {
            Normal::Number(number) => Ok(Index::Number(number)),
            Normal::Constraint(constraint) => Ok(Index::Truth(constraint)),
            Normal::Typ(typ) => Err(typ),
        }
    }
}
