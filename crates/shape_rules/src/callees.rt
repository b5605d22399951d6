use sail_base::{Items, Text};
use sail_core::Callee;
use sail_types::{Row, Shape, Typ};

/// What a call does.
#[derive(Clone, Copy, Drop)]
pub enum Doing {
    /// It calls this.
    Calls(Callee),
    /// It puts a first item before a list.
    Conses,
}

/// What can be called on arguments of some shapes.
pub struct Candidate {
    /// Its name, for printing.
    pub name: Text,
    /// What a call of it does.
    pub doing: Doing,
    /// The count of its Type variables; a variable of a parameter or of the result is a position among them.
    pub variables: usize,
    /// The shapes of its parameters.
    pub params: Items<Shape>,
    /// The shape of its result.
    pub answer: Shape,
}

impl Drop for Candidate {
    fn drop(self) {
        let Candidate {
            name: _,
            doing: _,
            variables: _,
            params: _,
            answer: _,
        } = self;
    }
}

/// A mapping: its directions have the numbers 2 n and 2 n + 1.
pub struct Mapping {
    /// Its number n among mappings, in text order.
    pub number: u32,
    /// Its name.
    pub name: Text,
    /// The type of its left side.
    pub left: Typ,
    /// The type of its right side.
    pub right: Typ,
}

impl Drop for Mapping {
    fn drop(self) {
        let Mapping {
            number: _,
            name: _,
            left: _,
            right: _,
        } = self;
    }
}

/// What a name of a value means in this phase.
pub enum Meant {
    /// A register, by its place, with its shape.
    Register(u32, Shape),
    /// A name that a top-level `let` bound, by its place among all these names, with its shape.
    Let(u32, Shape),
    /// A member of an enum: the enum's place in the table, and its own in the enum.
    Member(u32, u32),
    /// A function, a constructor, or a direction of a mapping.
    Callee(Candidate),
    /// A builtin.
    Row(Row),
    /// A mapping.
    Mapping(Mapping),
    /// An overload, with its members in order.
    Overload(Items<Candidate>),
}

impl Drop for Meant {
    fn drop(self) {
        match self {
            Meant::Register(_, _) => {}
            Meant::Let(_, _) => {}
            Meant::Member(_, _) => {}
            Meant::Callee(_) => {}
            Meant::Row(_) => {}
            Meant::Mapping(_) => {}
            Meant::Overload(_) => {}
        }
    }
}
