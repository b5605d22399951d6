use crate::name::{Literal, Name};
use crate::types::TyExp;
use crate::words::Brackets;
use sail_base::{Boxed, Items, Place};

/// A pattern, as written. A pattern in brackets of its own is that pattern.
#[cycle(pat)]
pub enum Pat {
    /// `_`
    Wildcard(Place),
    /// A literal, at its token.
    Constant(Place, Literal),
    /// `- 5`, at the `-`: the decimal behind it, from 0 to 2^126.
    Negative(Place, i128),
    /// A bare identifier: a member of an enum where one has this name, else it binds.
    Bind(Name),
    /// `id(p, q)`: a constructor or a mapping.
    Construct(Name, Items<Pat>),
    /// `(p, q)`, `()`, `[p, q]`, `[| p, q |]`, at the bracket.
    Group(Place, Brackets, Items<Pat>),
    /// `p @ q @ r` as one form, at the first `@`.
    Concat {
        place: Place,
        first: Boxed<Pat>,
        second: Boxed<Pat>,
        more: Items<Joined>,
    },
    /// `p :: q`, at the `::`.
    Cons(Place, Boxed<Pat>, Boxed<Pat>),
    /// `p as x`, at its first token.
    As(Place, Boxed<Pat>, Name),
    /// `p : T`, at its first token.
    Typed(Place, Boxed<Pat>, TyExp),
}

/// A further part of a concatenation of patterns: its `@` and the pattern behind it.
#[cycle(pat)]
pub struct Joined {
    pub place: Place,
    pub part: Pat,
}

impl Drop for Pat {
    #[cycle(pat_drop)]
    fn drop(self) {
        match self {
            Pat::Wildcard(_) => {}
            Pat::Constant(_, _) => {}
            Pat::Negative(_, _) => {}
            Pat::Bind(_) => {}
            Pat::Construct(_, _) => {}
            Pat::Group(_, _, _) => {}
            Pat::Concat {
                place: _,
                first: _,
                second: _,
                more: _,
            } => {}
            Pat::Cons(_, _, _) => {}
            Pat::As(_, _, _) => {}
            Pat::Typed(_, _, _) => {}
        }
    }
}

impl Drop for Joined {
    #[cycle(pat_drop)]
    fn drop(self) {
        let Joined { place: _, part: _ } = self;
    }
}
