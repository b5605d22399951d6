use crate::expressions::Exp;
use crate::name::Name;
use crate::patterns::Pat;
use crate::types::TyExp;
use crate::words::{Arrow, Extent};
use sail_base::{Boxed, Items, Kind, Operator, Place};

/// A definition, as written, at its first word. Clauses that stand apart are gathered behind the
/// definition that opens them, which then has the place of that opening.
#[derive(Drop)]
pub enum Def {
    /// `default Order dec`
    Order(Place),
    /// `type t('n) : K = T`
    Alias {
        place: Place,
        name: Name,
        variables: Items<Param>,
        kind: Option<Kind>,
        typ: TyExp,
    },
    /// `enum e = {A, B}`, `enum e = A | B`
    Enum(Place, Name, Items<Name>),
    /// `struct s('a : Type) = {f : T}`
    Struct {
        place: Place,
        name: Name,
        variables: Items<Param>,
        fields: Items<Member>,
    },
    /// `union u('a : Type) = {C : T}`, or a gathered one, which may have no constructor.
    Union {
        place: Place,
        name: Name,
        variables: Items<Param>,
        constructors: Items<Member>,
    },
    /// `val f : forall .. T -> T`, `val m : T <-> T`
    Val {
        place: Place,
        name: Name,
        quantifier: Quantifier,
        from: TyExp,
        arrow: Arrow,
        to: TyExp,
    },
    /// `function f(p, q) -> T = e`, which has one clause, or a gathered one, which may have none.
    Function {
        place: Place,
        extent: Extent,
        name: Name,
        clauses: Items<FunctionClause>,
    },
    /// `termination_measure f(p, q) = e`
    Measure {
        place: Place,
        name: Name,
        parameters: Items<Pat>,
        value: Boxed<Exp>,
    },
    /// `mapping m : T <-> T = {..}`, or a gathered one, which has no types and may have no clause.
    Mapping {
        place: Place,
        name: Name,
        sides: Option<Sides>,
        clauses: Items<MappingClause>,
    },
    /// `let p = e`
    Let(Place, Pat, Boxed<Exp>),
    /// `register R : T = e`
    Register {
        place: Place,
        name: Name,
        typ: TyExp,
        initial: Option<Boxed<Exp>>,
    },
    /// `overload f = {g, h}`, `overload operator + = {g, h}`
    Overload(Place, Overloaded, Items<Name>),
    /// `scattered union u('a : Type)`
    ScatteredUnion(Place, Name, Items<Param>),
    /// `scattered function f`
    ScatteredFunction(Place, Name),
    /// `scattered mapping m`
    ScatteredMapping(Place, Name),
    /// `union clause u = C : T`
    UnionClause(Place, Name, Member),
    /// `function clause f(p, q) -> T = e`, at the clause's first word.
    FunctionClause(Name, FunctionClause),
    /// `mapping clause m = ..`, at the definition's first word.
    MappingClause(Place, Name, MappingClause),
    /// `end f`
    End(Place, Name),
}

/// A type variable where it is bound, with its kind.
pub struct Param {
    pub name: Name,
    pub kind: Kind,
}

/// `forall 'n 'm, C.`, without variables where none is written.
pub struct Quantifier {
    pub variables: Items<Param>,
    pub constraint: Option<TyExp>,
}

/// A field of a struct or a constructor of a union, with its type.
pub struct Member {
    pub name: Name,
    pub typ: TyExp,
}

/// The types of a mapping's sides.
pub struct Sides {
    pub left: TyExp,
    pub right: TyExp,
}

/// One clause of a function: `function f(p, q) -> T = e`, its own name apart.
#[derive(Drop)]
pub struct FunctionClause {
    /// Its first word, `function`.
    pub place: Place,
    /// None where the brackets hold nothing.
    pub parameters: Items<Pat>,
    pub result: Option<TyExp>,
    pub body: Boxed<Exp>,
}

/// One side of a mapping's clause: `p if e`.
pub struct Side {
    pub pattern: Pat,
    pub guard: Option<Boxed<Exp>>,
}

/// One clause of a mapping: `p if e <-> q if e`.
#[derive(Drop)]
pub struct MappingClause {
    /// Its first token.
    pub place: Place,
    pub left: Side,
    pub right: Side,
}

/// What gets members by an `overload`.
pub enum Overloaded {
    /// `f`
    Named(Name),
    /// `operator +`, at the operator.
    Operator(Place, Operator),
}

impl Drop for Param {
    fn drop(self) {
        let Param { name: _, kind: _ } = self;
    }
}

impl Drop for Quantifier {
    fn drop(self) {
        let Quantifier {
            variables: _,
            constraint: _,
        } = self;
    }
}

impl Drop for Member {
    fn drop(self) {
        let Member { name: _, typ: _ } = self;
    }
}

impl Drop for Sides {
    fn drop(self) {
        let Sides { left: _, right: _ } = self;
    }
}

impl Drop for Side {
    fn drop(self) {
        let Side {
            pattern: _,
            guard: _,
        } = self;
    }
}

impl Drop for Overloaded {
    fn drop(self) {
        match self {
            Overloaded::Named(_) => {}
            Overloaded::Operator(_, _) => {}
        }
    }
}
