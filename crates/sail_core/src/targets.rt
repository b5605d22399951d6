//! What is assigned to, and ways into values.
use crate::tree::Callee;
use sail_base::{Items, Place, Text};

/// A way into a value.
#[derive(Clone, Copy, Debug, Drop)]
pub enum Way {
    /// `.f`: the struct's place in the table, and the field's in the struct.
    Field(u32, u32),
    /// `[i]`, which takes one index.
    Item,
    /// `[h .. l]`, which takes two.
    Slice,
}

/// What follows the base of a part.
#[derive(Clone, Copy, Debug, Drop)]
pub struct Suffix {
    /// Where it stands: its `[`, for a field the first token of the whole.
    pub place: Place,
    /// The number of the node that it is.
    pub number: u32,
    /// The way.
    pub way: Way,
}

/// A call that a target makes.
#[derive(Clone, Copy, Debug, Drop)]
pub struct Caller {
    /// What is called.
    pub callee: Callee,
    /// The number of the node that the call is.
    pub number: u32,
}

/// What a target is.
#[derive(Drop)]
pub enum TargetKind {
    /// A `var`, the newest of this name.
    Variable(Text),
    /// A register of the hart, by its place.
    Register(u32),
    /// `f(a, b)`: how many arguments there are, the call that reads it where it is the base of a part, and the call that writes
    /// it, which takes the new value as one argument more.
    Call(u32, Option<Caller>, Caller),
    /// `(a, b)`; the targets inside.
    Tuple,
    /// `a.f[i]`; the target a.
    Part(Items<Suffix>),
}

/// What is assigned to. The arguments and indexes in it, in the order of the text, are parts of the assignment.
#[derive(Drop)]
pub struct Target {
    /// Where it stands.
    pub place: Place,
    /// The number of the node where it gets its new value.
    pub number: u32,
    /// What it is.
    pub kind: TargetKind,
    /// The targets inside.
    pub parts: Items<Target>,
}
