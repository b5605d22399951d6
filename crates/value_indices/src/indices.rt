//! What is known of values where they stand, and types under what their variables stand for.
use sail_base::{Boxed, Items, Text};
use sail_types::{Con, Index, Num, Typ};

/// The indices of a value: the numbers and truths of its type. Their variables are counted by the walk over a definition.
#[cycle(indices)]
pub enum Indices {
    /// Of what never ends normally: there is no such value.
    Never,
    /// `unit`
    Unit,
    /// A truth: the one that this is.
    Truth(Con),
    /// `bit`
    Bit,
    /// Bits, of this width.
    Bits(Num),
    /// An integer: this one.
    Integer(Num),
    /// `string`
    String,
    /// A list, of items of this type. They are opened when they are taken out.
    List(Boxed<Reading>),
    /// A vector, of this length, of items of this type.
    Vector(Num, Boxed<Reading>),
    /// A tuple, by its parts.
    Tuple(Items<Indices>),
    /// A value of the struct, union or enum at a place in the table: its Int and Bool arguments, and its Type arguments.
    Named(u32, Items<Index>, Items<Reading>),
    /// Of a Type variable of the function around it.
    Variable(u32),
}

/// A type with what its variables stand for. Nothing is put into the type itself.
#[cycle(indices)]
pub enum Reading {
    /// A type; what its Int and Bool variables stand for, and what its Type variables do.
    Of(Typ, Items<Index>, Items<Reading>),
    /// The widened type of such a value: any integer for an integer, any truth for a truth, all else as it is.
    Widened(Boxed<Indices>),
    /// A tuple of these.
    Parts(Items<Reading>),
    /// No type: of the items of an empty list, and of what nothing is wanted of.
    Hole,
}

impl Drop for Indices {
    #[cycle(indices_drop)]
    fn drop(self) {
        match self {
            Indices::Never => {}
            Indices::Unit => {}
            Indices::Truth(_) => {}
            Indices::Bit => {}
            Indices::Bits(_) => {}
            Indices::Integer(_) => {}
            Indices::String => {}
            Indices::List(_) => {}
            Indices::Vector(_, _) => {}
            Indices::Tuple(_) => {}
            Indices::Named(_, _, _) => {}
            Indices::Variable(_) => {}
        }
    }
}

impl Drop for Reading {
    #[cycle(indices_drop)]
    fn drop(self) {
        match self {
            Reading::Of(_, _, _) => {}
            Reading::Widened(_) => {}
            Reading::Parts(_) => {}
            Reading::Hole => {}
        }
    }
}

/// The identifiers for which a value is opened.
pub enum Naming {
    /// None.
    Unnamed,
    /// This one, for the whole value.
    Named(Text),
    /// Those of the parts of a tuple.
    Parts(Items<Naming>),
}

impl Drop for Naming {
    #[cycle(naming_drop)]
    fn drop(self) {
        match self {
            Naming::Unnamed => {}
            Naming::Named(_) => {}
            Naming::Parts(_) => {}
        }
    }
}
