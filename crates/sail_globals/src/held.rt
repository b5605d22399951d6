ghost use Rattle.std.specs.Prelude.{◌≡◌, ◌&&◌};
ghost use Rattle.sail_globals.specs.Clashes.{is_other_half, is_overloaded, is_same_called};
ghost use Rattle.sail_globals.specs.Held.{nothing_held, held_with, admits, in_space, spaces_with};

use crate::naming::{Called, Role, Space};

/// In which roles a name is taken.
#[derive(Clone, Copy)]
pub(crate) enum Held {
    /// In none.
    Free,
    /// In this one.
    Once(Role),
    /// In several, which all are overloads or not.
    Often(bool),
}

/// What is held of one name, in each space.
#[derive(Clone, Copy)]
pub(crate) struct Spaces {
    types: Held,
    values: Held,
    measures: Held,
}

impl Called {
    pub(crate) fn is_same(self, other: Called) -> bool
        ensures { result ≡ is_same_called self other }
    {
        match (self, other) {
            (Called::Function, Called::Function) => true,
            (Called::Mapping, Called::Mapping) => true,
            (Called::Direction, Called::Direction) => true,
            _ => false,
        }
    }
}

impl Role {
    fn is_overloaded(self) -> bool
        ensures { result ≡ is_overloaded self }
    {
        match self {
            Role::Overloaded => true,
            _ => false,
        }
    }

    fn is_other_half(self, role: Role) -> bool
        ensures { result ≡ is_other_half self role }
    {
        match (self, role) {
            (Role::Declared(one), Role::Defined(other)) => one.is_same(other),
            (Role::Defined(one), Role::Declared(other)) => one.is_same(other),
            (Role::Overloaded, Role::Overloaded) => true,
            _ => false,
        }
    }
}

impl Held {
    fn with(self, role: Role) -> Held
        ensures { result ≡ held_with self role }
    {
        let is_overloaded = role.is_overloaded();
        match self {
            Held::Free => Held::Once(role),
            Held::Once(one) => Held::Often(one.is_overloaded() && is_overloaded),
            Held::Often(all) => Held::Often(all && is_overloaded),
        }
    }

    fn admits(self, role: Role) -> bool
        ensures { result ≡ admits self role }
    {
        match self {
            Held::Free => true,
            Held::Once(one) => one.is_other_half(role),
            Held::Often(all) => all && role.is_overloaded(),
        }
    }
}

impl Spaces {
    pub(crate) fn nothing() -> Spaces
        ensures { result ≡ nothing_held }
    {
        Spaces {
            types: Held::Free,
            values: Held::Free,
            measures: Held::Free,
        }
    }

    fn of(self, space: Space) -> Held
        ensures { result ≡ in_space self space }
    {
        match space {
            Space::Types => self.types,
            Space::Values => self.values,
            Space::Measures => self.measures,
        }
    }

    pub(crate) fn admits(self, space: Space, role: Role) -> bool
        ensures { result ≡ admits (in_space self space) role }
    {
        self.of(space).admits(role)
    }

    pub(crate) fn with(self, space: Space, role: Role) -> Spaces
        ensures { result ≡ spaces_with self space role }
    {
        let mut both = self;
        match space {
            Space::Types => both.types = self.types.with(role),
            Space::Values => both.values = self.values.with(role),
            Space::Measures => both.measures = self.measures.with(role),
        }
        both
    }
}
