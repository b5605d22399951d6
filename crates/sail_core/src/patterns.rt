//! Patterns, and how an arm looks at what is matched.
use crate::written::Written;
use sail_base::{Items, Place, Text, Word};
use sail_types::Num;

/// A literal.
pub enum Literal {
    /// `()`
    Unit,
    /// An integer from -2^126 to 2^126.
    Integer(i128),
    /// `true` or `false`
    Truth(bool),
    /// `bitone` (true) or `bitzero` (false)
    Bit(bool),
    /// Bits, the one of index 0 first.
    Bits(Word),
    /// A string, by its bytes.
    String(Text),
    /// A member of an enum: the enum's place in the table, and the member's in the enum.
    Member(u32, u32),
}

impl Drop for Literal {
    fn drop(self) {
        match self {
            Literal::Unit => {}
            Literal::Integer(_) => {}
            Literal::Truth(_) => {}
            Literal::Bit(_) => {}
            Literal::Bits(_) => {}
            Literal::String(_) => {}
            Literal::Member(_, _) => {}
        }
    }
}

/// What a pattern looks at first: how a value is opened into parts.
pub enum Head {
    /// This value; no parts.
    Is(Literal),
    /// A tuple, by its parts.
    Tuple,
    /// A constructor, by the union's place in the table and its own in the union; the parts are the payload, or those of a
    /// payload that is a tuple.
    Constructor(u32, u32),
    /// A vector, by its items, the last of which has index 0.
    Vector,
    /// A list of just so many items.
    List,
    /// A list with a first item: that item, and the list of the others.
    Cons,
    /// Bits, by parts of these widths, the highest first; the part without one takes the rest.
    Cut(Items<Option<Num>>),
}

impl Drop for Head {
    fn drop(self) {
        match self {
            Head::Is(_) => {}
            Head::Tuple => {}
            Head::Constructor(_, _) => {}
            Head::Vector => {}
            Head::List => {}
            Head::Cons => {}
            Head::Cut(_) => {}
        }
    }
}

/// What a node of a pattern is.
#[derive(Drop)]
pub enum Form {
    /// `_`
    Any,
    /// An identifier that binds.
    Binds(Text),
    /// `p as x`; p.
    As(Text),
    /// `p : T`, which tests nothing; p.
    Typed(Written),
    /// A head; a pattern for each part.
    Opens(Head),
    /// A mapping's direction, by its number; a pattern for what it gives.
    Maps(u32),
    /// The same once directions are functions that give an option; a pattern for that option.
    Sees(u32),
}

/// A pattern.
#[derive(Drop)]
pub struct Pattern {
    /// Where it stands.
    pub place: Place,
    /// What it is.
    pub form: Form,
    /// The patterns inside.
    pub parts: Items<Pattern>,
}

/// A step of a flat arm. Values in hand have numbers: first what is matched, then what the steps gave.
pub enum Step {
    /// The value of this number is opened into so many parts, which come behind the others.
    Opens(u32, Head, u32),
    /// What a direction gives for the value of this number comes behind the others. The direction stands last.
    Sees(u32, u32),
    /// The value of this number gets a name.
    Names(u32, Text),
}

impl Drop for Step {
    fn drop(self) {
        match self {
            Step::Opens(_, _, _) => {}
            Step::Sees(_, _) => {}
            Step::Names(_, _) => {}
        }
    }
}

/// How an arm looks at the values that are matched.
#[derive(Drop)]
pub enum Arm {
    /// A pattern for each.
    Nested(Items<Pattern>),
    /// So many values, and steps.
    Flat(u32, Items<Step>),
}
