use crate::name::{Literal, Name};
use crate::patterns::Pat;
use crate::types::TyExp;
use crate::words::{Asking, Brackets, Choosing, Direction, Leaving, Looping};
use sail_base::{Boxed, Items, Operator, Place, Prefix, Text};

/// An expression, as written. An expression in brackets of its own is that expression.
///
/// Where a call can fail, keep expressions in their `Boxed` or `Items`: letting go of a box is one
/// call there, and of a bare expression a case for each form.
#[cycle(exp)]
#[derive(Drop)]
pub enum Exp {
    /// A literal, at its token.
    Constant(Place, Literal),
    /// A bare identifier.
    Variable(Name),
    /// `f(a, b)`
    Call(Name, Items<Exp>),
    /// `- e` at the `-`, `2 ^ e` at the `^`, `~(e)` at the `~`, `not(e)` at the `not`.
    Prefixed(Place, Prefix, Boxed<Exp>),
    /// `a + b` and its like, at the operator.
    Infix {
        place: Place,
        operator: Operator,
        left: Boxed<Exp>,
        right: Boxed<Exp>,
    },
    /// `return e`, `throw e`, `exit e`, at the word.
    Leave(Place, Leaving, Boxed<Exp>),
    /// `(a, b)`, `()`, `[a, b]`, `[| a, b |]`, at the bracket.
    Group(Place, Brackets, Items<Exp>),
    /// `a.f[i]`: its first token, the base and at least one suffix. It stands at the bracket of its
    /// last suffix, or where that is a field at its first token.
    Part(Place, Boxed<Exp>, Items<Suffix>),
    /// `e : T`, at its first token.
    Typed(Place, Boxed<Exp>, TyExp),
    /// `a = b = e`, at its first token: the first target, the targets behind it, and the value.
    Assign {
        place: Place,
        target: Boxed<LExp>,
        more: Items<Target>,
        value: Boxed<Exp>,
    },
    /// `{ s; e }`, at its bracket: the statements but for the value, and the value. Without one (the
    /// last statement is followed by `;`, or is a `let` or `var`, or there is none) it is `()`.
    Block(Place, Items<Stmt>, Option<Boxed<Exp>>),
    /// `let p = e in e`, at the word.
    Let {
        place: Place,
        pattern: Pat,
        bound: Boxed<Exp>,
        body: Boxed<Exp>,
    },
    /// `var x : T = e in e`, at the word.
    Var {
        place: Place,
        name: Name,
        typ: Option<TyExp>,
        initial: Boxed<Exp>,
        body: Boxed<Exp>,
    },
    /// `if e then e else e`, at the word.
    If {
        place: Place,
        condition: Boxed<Exp>,
        then: Boxed<Exp>,
        otherwise: Option<Boxed<Exp>>,
    },
    /// `match e { .. }`, `try e catch { .. }`, at the word.
    Choose {
        place: Place,
        choosing: Choosing,
        value: Boxed<Exp>,
        cases: Items<Case>,
    },
    /// `foreach (x from e to e by e in dec) e`, at the word.
    Foreach {
        place: Place,
        name: Name,
        range: Boxed<Range>,
        body: Boxed<Exp>,
    },
    /// `while condition do body`, `repeat body until condition`, at the word.
    Loop {
        place: Place,
        looping: Looping,
        measure: Option<Boxed<Exp>>,
        condition: Boxed<Exp>,
        body: Boxed<Exp>,
    },
    /// `[v with i = e]`, `[v with h .. l = e]`, at its bracket.
    Update {
        place: Place,
        base: Boxed<Exp>,
        index: Boxed<Index>,
        value: Boxed<Exp>,
    },
    /// `struct S { f = e }`, at the word.
    Struct(Place, Option<Name>, Items<FieldValue>),
    /// `{ e with f = e }`, at its bracket.
    With(Place, Boxed<Exp>, Items<FieldValue>),
    /// `sizeof(t)`, `constraint(t)`, at the word.
    OfType(Place, Asking, TyExp),
    /// `assert(e, "text")`, at the word: the condition, and the text as spelled between its quotes.
    Assert(Place, Boxed<Exp>, Option<Text>),
}

/// What follows the base of a part.
#[cycle(exp)]
#[derive(Drop)]
pub enum Suffix {
    /// `.f`
    Field(Name),
    /// `[i]` or `[h .. l]`, at its bracket.
    At(Place, Index),
}

/// `i` or `h .. l`, between square brackets.
#[cycle(exp)]
#[derive(Drop)]
pub struct Index {
    /// The index, or the higher end of the slice.
    pub first: Boxed<Exp>,
    /// The lower end of the slice.
    pub last: Option<Boxed<Exp>>,
}

/// What a `foreach` runs through.
#[cycle(exp)]
#[derive(Drop)]
pub struct Range {
    pub from: Boxed<Exp>,
    pub to: Boxed<Exp>,
    pub by: Option<Boxed<Exp>>,
    pub direction: Direction,
}

/// One case of a `match` or a `try`.
#[cycle(exp)]
#[derive(Drop)]
pub struct Case {
    pub pattern: Pat,
    pub guard: Option<Boxed<Exp>>,
    pub body: Boxed<Exp>,
}

/// `f = e`, of a struct.
#[cycle(exp)]
#[derive(Drop)]
pub struct FieldValue {
    pub name: Name,
    pub value: Boxed<Exp>,
}

/// A statement of a block.
#[cycle(exp)]
#[derive(Drop)]
pub enum Stmt {
    /// An expression that is followed by `;`.
    Evaluate(Boxed<Exp>),
    /// `let p = e`, at the word.
    Define(Place, Pat, Boxed<Exp>),
    /// `var x : T = e`, at the word.
    Declare {
        place: Place,
        name: Name,
        typ: Option<TyExp>,
        initial: Boxed<Exp>,
    },
}

/// What is assigned to. A target in brackets of its own is that target.
#[cycle(exp)]
#[derive(Drop)]
pub enum LExp {
    /// `x`
    ToName(Name),
    /// `f(a, b)`, of which `f(a, b) = e` means `f(a, b, e)`.
    ToCall(Name, Items<Exp>),
    /// `(a, b)` of at least two, at its bracket.
    ToTuple(Place, Items<LExp>),
    /// `a.f[i]`: its first token, the base and at least one suffix; it stands as a part does.
    ToPart(Place, Boxed<LExp>, Items<Suffix>),
}

/// A further target of a chain of assignments: where that assignment begins, and the target.
#[cycle(exp)]
#[derive(Drop)]
pub struct Target {
    pub place: Place,
    pub to: Boxed<LExp>,
}
