use sail_base::{Boxed, Items, Text, Word};

/// A value of a run.
pub enum Value {
    /// `()`
    Unit,
    /// An integer.
    Integer(i128),
    /// `true` or `false`
    Truth(bool),
    /// `bitone` (true) or `bitzero` (false)
    Bit(bool),
    /// A list of bits, the one of index 0 first.
    Bits(Word),
    /// A string, by its bytes.
    String(Text),
    /// A member of an enum: the enum's place in the table, and the member's in the enum.
    Member(u32, u32),
    /// A tuple of at least two parts.
    Tuple(Items<Value>),
    /// A struct: its place in the table, and its fields in the order of its definition.
    Struct(u32, Items<Value>),
    /// A value of a union: the union's place in the table, the constructor's in the union, and the payload,
    /// which is a tuple where the constructor takes several.
    Union(u32, u32, Boxed<Value>),
    /// A list.
    List(Items<Value>),
    /// A vector, the item of index 0 first.
    Vector(Items<Value>),
}

impl Drop for Value {
    #[cycle(value_drop)]
    fn drop(self) {
        match self {
            Value::Unit => {}
            Value::Integer(_) => {}
            Value::Truth(_) => {}
            Value::Bit(_) => {}
            Value::Bits(_) => {}
            Value::String(_) => {}
            Value::Member(_, _) => {}
            Value::Tuple(_) => {}
            Value::Struct(_, _) => {}
            Value::Union(_, _, _) => {}
            Value::List(_) => {}
            Value::Vector(_) => {}
        }
    }
}
