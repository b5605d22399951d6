//! The types of slots and registers.
ghost use Rattle.std.specs.Prelude.{◌≡◌};
ghost use Rattle.jib.specs.Sorts.{sort_of, part_of, payload_of, sort_eq};

use sail_base::Items;

/// The type of a slot or a register, with constant sizes. A type inside it goes by its number in the module's table.
#[derive(Drop)]
pub enum ValueType {
    /// `unit`
    Unit,
    /// An integer from -2^126 to 2^126.
    Integer,
    /// `bool`
    Truth,
    /// `bit`
    Bit,
    /// Bits of this width, from 0 to 128.
    Bits(u8),
    /// `string`
    String,
    /// An enum, by its place among the model's named types, and the count of its members.
    Enum(u32, u32),
    /// A list of items of this type.
    List(u32),
    /// A vector of this length, from 0 to 4,096, and its items' type.
    Vector(u16, u32),
    /// A tuple of parts of these types.
    Tuple(Items<u32>),
    /// A struct, by its place among the model's named types, and its fields' types.
    Struct(u32, Items<u32>),
    /// A union, by its place among the model's named types, and its payloads' types, constructor by constructor.
    Union(u32, Items<u32>),
}

/// A type without its sizes and the types inside it.
#[derive(Clone, Copy, Debug)]
pub enum Sort {
    Unit,
    Integer,
    Truth,
    Bit,
    Bits,
    String,
    Enum,
    List,
    Vector,
    Tuple,
    Struct,
    Union,
}

impl ValueType {
    /// Its sort.
    pub fn sort(&self) -> Sort
        ensures { result ≡ sort_of self.now }
    {
        match self {
            ValueType::Unit => Sort::Unit,
            ValueType::Integer => Sort::Integer,
            ValueType::Truth => Sort::Truth,
            ValueType::Bit => Sort::Bit,
            ValueType::Bits(_) => Sort::Bits,
            ValueType::String => Sort::String,
            ValueType::Enum(_, _) => Sort::Enum,
            ValueType::List(_) => Sort::List,
            ValueType::Vector(_, _) => Sort::Vector,
            ValueType::Tuple(_) => Sort::Tuple,
            ValueType::Struct(_, _) => Sort::Struct,
            ValueType::Union(_, _) => Sort::Union,
        }
    }

    /// The type of the part at a place of a tuple or a struct; none where there is none.
    pub fn part(&self, place: u32) -> Option<u32>
        ensures { result ≡ part_of place self.now }
    {
        match self {
            ValueType::Tuple(parts) => parts.as_slice().get(place as usize).copied(),
            ValueType::Struct(_, fields) => fields.as_slice().get(place as usize).copied(),
            _ => None,
        }
    }

    /// The type of a constructor's payload; none where there is none.
    pub fn payload(&self, constructor: u32) -> Option<u32>
        ensures { result ≡ payload_of constructor self.now }
    {
        match self {
            ValueType::Union(_, payloads) => {
                payloads.as_slice().get(constructor as usize).copied()
            }
            _ => None,
        }
    }
}

impl Sort {
    /// Whether two sorts are the same.
    pub fn is(self, other: Sort) -> bool
        ensures { result ≡ sort_eq self other }
    {
        match self {
            Sort::Unit => matches!(other, Sort::Unit),
            Sort::Integer => matches!(other, Sort::Integer),
            Sort::Truth => matches!(other, Sort::Truth),
            Sort::Bit => matches!(other, Sort::Bit),
            Sort::Bits => matches!(other, Sort::Bits),
            Sort::String => matches!(other, Sort::String),
            Sort::Enum => matches!(other, Sort::Enum),
            Sort::List => matches!(other, Sort::List),
            Sort::Vector => matches!(other, Sort::Vector),
            Sort::Tuple => matches!(other, Sort::Tuple),
            Sort::Struct => matches!(other, Sort::Struct),
            Sort::Union => matches!(other, Sort::Union),
        }
    }
}
