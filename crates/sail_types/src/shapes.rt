use sail_base::{Boxed, Items};

/// A type without its numbers.
pub enum Shape {
    /// `unit`
    Unit,
    /// `bool`
    Bool,
    /// `bit`
    Bit,
    /// `bits`
    Bits,
    /// `int`
    Int,
    /// `string`
    String,
    /// `list(S)`
    List(Boxed<Shape>),
    /// `vector(S)`
    Vector(Boxed<Shape>),
    /// `(S, S)`, of at least two.
    Tuple(Items<Shape>),
    /// A struct, union or enum, by its place in the table, and the shapes of its Type arguments.
    Named(u32, Items<Shape>),
    /// A Type variable, by its position.
    Variable(u32),
    /// A hole, which takes the wanted shape.
    Hole,
    /// Of what never ends normally.
    Never,
}

impl Drop for Shape {
    #[cycle(shape_drop)]
    fn drop(self) {
        match self {
            Shape::Unit => {}
            Shape::Bool => {}
            Shape::Bit => {}
            Shape::Bits => {}
            Shape::Int => {}
            Shape::String => {}
            Shape::List(_) => {}
            Shape::Vector(_) => {}
            Shape::Tuple(_) => {}
            Shape::Named(_, _) => {}
            Shape::Variable(_) => {}
            Shape::Hole => {}
            Shape::Never => {}
        }
    }
}
