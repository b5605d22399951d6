use sail_base::{Place, Text};

/// The spaces of names. A name means one thing in each.
#[derive(Clone, Copy, PartialEq, Eq, Debug)]
pub enum Space {
    /// The names of types.
    Types,
    /// The names of functions, mappings with their two directions, lets, registers, constructors, members
    /// of enums, overloads and builtins.
    Values,
    /// The names of functions, taken by their measures, of which each has one.
    Measures,
}

/// What a `val` and a body together define.
#[derive(Clone, Copy, PartialEq, Eq, Debug)]
pub enum Called {
    /// `f`, a function.
    Function,
    /// `m`, a mapping.
    Mapping,
    /// `m_forwards` or `m_backwards`, of a mapping `m`.
    Direction,
}

/// What one definition by itself defines.
#[derive(Clone, Copy, PartialEq, Eq, Debug)]
pub enum Alone {
    /// A type.
    Type,
    /// A mapping that has types of its own.
    Mapping,
    /// `m_forwards` or `m_backwards`, of such a mapping `m`.
    Direction,
    /// A constructor of a union.
    Constructor,
    /// A member of an enum.
    Member,
    /// What a top-level `let` binds.
    Let,
    /// A register.
    Register,
    /// The measure of a function.
    Measure,
}

/// How a definition takes a name.
#[derive(Clone, Copy, PartialEq, Eq, Debug)]
pub enum Role {
    /// By a `val`, which wants a body.
    Declared(Called),
    /// By a body without types, for which a `val` may stand elsewhere; a function's may have types of its own.
    Defined(Called),
    /// By an `overload`, which adds members.
    Overloaded,
    /// All by itself.
    Whole(Alone),
}

/// A name that a definition takes.
pub struct Naming {
    pub space: Space,
    /// The name.
    pub name: Text,
    /// Where a refusal of the name stands: at the definition's first word, but for a member, a constructor
    /// and a name bound inside a pattern at that identifier.
    pub place: Place,
    pub role: Role,
    /// The position of its definition in the text, from 0.
    pub definition: usize,
}

impl Drop for Naming {
    fn drop(self) {
        let Naming {
            space: _,
            name: _,
            place: _,
            role: _,
            definition: _,
        } = self;
    }
}
