//! The core tree: a place, a number, a kind, and parts.
use crate::patterns::{Arm, Literal};
use crate::targets::{Suffix, Target};
use crate::written::{Written, WrittenNumber};
use sail_base::{Items, Place, Text};
use sail_types::{Con, Num, Row, Shape, Typ};

/// What is called.
#[derive(Clone, Copy, Debug, Drop)]
pub enum Callee {
    /// A function of the model, by its number.
    Function(u32),
    /// A builtin.
    Row(Row),
    /// A constructor, by the union's place in the table and its own in the union.
    Constructor(u32, u32),
    /// A direction of a mapping, by its number. It takes one value.
    Converts(u32),
    /// The same once directions are functions that give an option.
    Applies(u32),
}

/// What gives the numbers of opened variables.
#[derive(Clone, Copy, PartialEq, Eq, Debug, Drop)]
pub enum Giver {
    /// The node of this number, by its value.
    Node(u32),
    /// An arm of the node of this number, by the values of its names, where so many arms or statements stand behind it.
    Arm(u32, usize),
}

/// Which way a `foreach` counts.
#[derive(Clone, Copy, PartialEq, Eq, Debug, Drop)]
pub enum Counting {
    /// `inc`
    Up,
    /// `dec`
    Down,
}

/// A statement of a block that isn't its value; each has one part of the block.
#[derive(Drop)]
pub enum Statement {
    /// An expression.
    Evaluate,
    /// `let p = e`, at this word; e.
    Define(Place, Arm),
    /// `var x : T = e`, with its type where one is written; e.
    Declare(Text, Option<Written>),
}

/// What a node of the core is; its parts stand behind the semicolon.
#[derive(Drop)]
pub enum Kind {
    /// A literal.
    Constant(Literal),
    /// A name that a pattern or a `foreach` bound, the newest of this name.
    Local(Text),
    /// A `var`, the newest of this name.
    Variable(Text),
    /// A name that a top-level `let` bound, by its place among all these names.
    TopLevel(u32),
    /// A register of the hart, by its place.
    Register(u32),
    /// A call, also by an operator; the arguments.
    Call(Callee),
    /// `a & b` on truths; both.
    And,
    /// `a | b` on truths; both.
    Or,
    /// Where a value comes to the type that is wanted of it, which is the one in hand where the text has one (`e : T`), and
    /// else that of the place: the end of a branch or body, what is bound, matched, thrown or returned; the expression.
    Cast(Option<Written>),
    /// `(a, b)`; the parts.
    Tuple,
    /// `[a, b]`, of items of this shape, the last having index 0; the items.
    Vector(Shape),
    /// `[| a, b |]`, of items of this shape; the items.
    List(Shape),
    /// `a :: b`, of items of this shape; both.
    Cons(Shape),
    /// `struct S { f = e }`: the struct's place in the table, and the places of its fields as they are written; their values.
    Struct(u32, Items<u32>),
    /// `{ e with f = e }`, likewise; the struct, and the values.
    With(u32, Items<u32>),
    /// `e.f[i]`; e, and the indexes in order.
    Part(Items<Suffix>),
    /// `[v with i = e]`; the three.
    WithItem,
    /// `[v with h .. l = e]`; the four.
    WithSlice,
    /// `sizeof(t)`, with the exponents in it.
    SizeOf(Num, Items<WrittenNumber>),
    /// `constraint(C)`, with the numbers that it compares.
    Constraint(Con, Items<WrittenNumber>),
    /// `a = b = e`; the arguments and indexes in the targets, and e.
    Assign(Items<Target>),
    /// `{ s; e }`; a part for each statement, and e where the block has a value.
    Block(Items<Statement>),
    /// `let p = a in b`; both.
    Let(Arm),
    /// `var x : T = a in b`; both.
    Var(Text, Option<Written>),
    /// `if c then a else b`, of this shape; two or three.
    If(Shape),
    /// `match e { .. }`, of this shape; e, and a body for each arm.
    Match(Items<Arm>, Shape),
    /// `try e catch { .. }`, of this shape; e, and a body for each arm.
    Try(Items<Arm>, Shape),
    /// The clauses of a function, of a measure or of a mapping's direction; a body for each arm.
    Clauses(Items<Arm>),
    /// A guard, and what it guards.
    When,
    /// `foreach (x from a to b by s) e`; the four.
    Foreach(Text, Counting),
    /// `while m c do e`; the measure, the condition, the body.
    While,
    /// `repeat m e until c`; the measure, the body, the condition.
    Repeat,
    /// `return e`; e.
    Return,
    /// `throw e`; e.
    Throw,
    /// `exit e`; e.
    Exit,
    /// `assert(c, "text")`, the text as spelled; c.
    Assert(Option<Text>),
    /// What it gives, of this type, as an option, and `None` where it says No; the clauses of a direction.
    Optional(Typ),
}

/// A node of the core.
#[derive(Drop)]
pub struct Core {
    /// Where it stands in the model's text.
    pub place: Place,
    /// Its number, which no other node of its definition has.
    pub number: u32,
    /// What it is.
    pub kind: Kind,
    /// Its parts.
    pub parts: Items<Core>,
}
