ghost use Rattle.std.specs.Prelude.{◌≡◌};
ghost use Rattle.std.specs.Option.{option_copied};
ghost use Rattle.sail_names.specs.Known.{known_of, is_member};

use sail_base::{Items, Operator, operator_number};
use std::collections::{HashMap, HashSet};

/// What a definition names, in the space of values. Functions and mappings have numbers, by which calls are told.
#[derive(Drop)]
pub enum Global {
    /// A register.
    Register,
    /// What a top-level `let` binds, with the number of that definition.
    Let(usize),
    /// A member of an enum.
    Member,
    /// A constructor of a union, `Some` and `None` among them.
    Constructor,
    /// A function.
    Function(usize),
    /// A mapping.
    Mapping(usize),
    /// `m_forwards` or `m_backwards`, with the number of the mapping m.
    Direction(usize),
    /// An overload, with the numbers of what its call can enter: its members that are functions or mappings.
    Overload(Items<usize>),
    /// A builtin without state.
    Builtin,
    /// A builtin of the state.
    StateBuiltin,
}

/// What the definitions of a model name.
#[derive(Drop)]
pub struct Names {
    /// The space of values.
    pub values: HashMap<String, Global>,
    /// The names of the structs.
    pub structs: HashSet<String>,
    /// The names of the fields of all structs.
    pub fields: HashSet<String>,
    /// Whether there is a union `exception`.
    pub has_exception: bool,
    /// For each operator, by its number, what overloads of it can enter; an operator past the end has none.
    pub operators: Items<Items<usize>>,
}

impl Names {
    /// What a name names in the space of values.
    pub fn value(&self, name: &str) -> Option<&Global>
        ensures { option_copied result ≡ (known_of self.now).value name.now }
    {
        self.values.get(name)
    }

    /// Whether a name is that of a struct.
    pub fn is_struct(&self, name: &str) -> bool
        ensures { result ≡ (known_of self.now).is_struct name.now }
    {
        self.structs.contains(name)
    }

    /// Whether a name is that of a field of some struct.
    pub fn is_field(&self, name: &str) -> bool
        ensures { result ≡ (known_of self.now).is_field name.now }
    {
        self.fields.contains(name)
    }

    /// Whether a name is that of a member of an enum.
    pub fn is_member(&self, name: &str) -> bool
        ensures { result ≡ is_member (known_of self.now) name.now }
    {
        match self.value(name) {
            Some(Global::Member) => true,
            _ => false,
        }
    }

    /// What overloads of an operator can enter.
    pub fn overload(&self, operator: Operator) -> &[usize]
        ensures { result.now ≡ (known_of self.now).overload operator }
    {
        match self.operators.get(operator_number(operator)) {
            Some(members) => members.as_slice(),
            None => &[],
        }
    }
}
