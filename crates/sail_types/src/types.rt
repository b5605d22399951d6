use crate::numbers::{Con, Index, Num};
use sail_base::{Boxed, Items, Text};

/// A type.
///
/// Its Int and Bool variables are counted together, from the innermost binder on: what `{'n, ..}` binds,
/// then the parameters of the named type or of the `forall` around it, in order. Its Type variables are
/// counted by themselves, in the order of those parameters.
pub enum Typ {
    /// `unit`
    Unit,
    /// `bool`
    Bool,
    /// `bool(C)`
    Truth(Con),
    /// `bit`
    Bit,
    /// `bits(t)`
    Bits(Num),
    /// `int(t)`
    Int(Num),
    /// `range(t, u)`; `int` is `range(-2^126, 2^126)`, `nat` is `range(0, 2^126)`.
    Range(Num, Num),
    /// `string`
    String,
    /// `list(T)`
    List(Boxed<Typ>),
    /// `vector(t, T)`
    Vector(Num, Boxed<Typ>),
    /// `(T, U)`, of at least two.
    Tuple(Items<Typ>),
    /// A struct, union or enum, by its place in the table, its Int and Bool arguments in order, and its
    /// Type arguments in order.
    Named(u32, Items<Index>, Items<Typ>),
    /// A Type variable, by its position.
    Variable(u32),
    /// `{'n, C. T}`: a T for some 'n that makes C true, where 'n is variable 0 and the others are one
    /// further; the name is for printing alone.
    Exists(Text, Con, Boxed<Typ>),
}

impl Drop for Typ {
    #[cycle(typ_drop)]
    fn drop(self) {
        match self {
            Typ::Unit => {}
            Typ::Bool => {}
            Typ::Truth(_) => {}
            Typ::Bit => {}
            Typ::Bits(_) => {}
            Typ::Int(_) => {}
            Typ::Range(_, _) => {}
            Typ::String => {}
            Typ::List(_) => {}
            Typ::Vector(_, _) => {}
            Typ::Tuple(_) => {}
            Typ::Named(_, _, _) => {}
            Typ::Variable(_) => {}
            Typ::Exists(_, _, _) => {}
        }
    }
}
