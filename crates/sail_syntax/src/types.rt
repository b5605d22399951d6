use crate::name::Name;
use crate::words::{TypeOperator, TypePrefix};
use sail_base::{Boxed, Items, Place};

/// A type, a number of a type or a constraint, as written. A type in brackets of its own is that type.
pub enum TyExp {
    /// `id` or `id(t, u)`, which holds no argument where there are no brackets.
    Named(Name, Items<TyExp>),
    /// `'n`
    Variable(Name),
    /// A decimal, from 0 to 2^126, at its token.
    Number(Place, i128),
    /// `true` or `false`, at its token.
    Truth(Place, bool),
    /// `- t` at the `-`, `2 ^ t` at the `^`, `not(t)` at the `not`.
    Prefix(Place, TypePrefix, Boxed<TyExp>),
    /// `t + u` and its like, at the operator.
    Infix {
        place: Place,
        operator: TypeOperator,
        left: Boxed<TyExp>,
        right: Boxed<TyExp>,
    },
    /// `t in {1, 2}`, at the `in`.
    OneOf(Place, Boxed<TyExp>, Items<i128>),
    /// `(t, u)` of at least two, at its bracket.
    Tuple(Place, Items<TyExp>),
    /// `{'n, C. T}`, at its bracket, with at least one variable.
    Exists {
        place: Place,
        variables: Items<Name>,
        constraint: Option<Boxed<TyExp>>,
        typ: Boxed<TyExp>,
    },
}

impl Drop for TyExp {
    #[cycle(typ_drop)]
    fn drop(self) {
        match self {
            TyExp::Named(_, _) => {}
            TyExp::Variable(_) => {}
            TyExp::Number(_, _) => {}
            TyExp::Truth(_, _) => {}
            TyExp::Prefix(_, _, _) => {}
            TyExp::Infix {
                place: _,
                operator: _,
                left: _,
                right: _,
            } => {}
            TyExp::OneOf(_, _, _) => {}
            TyExp::Tuple(_, _) => {}
            TyExp::Exists {
                place: _,
                variables: _,
                constraint: _,
                typ: _,
            } => {}
        }
    }
}
